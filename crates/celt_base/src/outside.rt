//! The outside: where bytes come from and where they go. Both sides count their failures.
ghost use Rattle.std.specs.Prelude.{◌<◌, ℕ, List, Option, length};
ghost use Rattle.std.specs.Io.{ReadsAtMost};
ghost use Rattle.std.specs.Io.KnownBytes.{ReadConsumes};
ghost use Rattle.celt_base.specs.Outside.{HasCause, WritesAll};

/// A read or a write failed. The object's count of faults rose.
#[derive(Clone, Copy, Debug, PartialEq, Eq)]
pub struct Failed;

/// A source of bytes.
pub trait Source {
    // The bytes that are left, where the source tells them. One that tells them goes on telling them.
    ghost left: { Self → Option (List ℕ) };

    // How often it failed. At its last value, 2^64 - 1, the count counts as risen at each failure.
    ghost faults: { Self → ℕ };

    /// Reads into the front of the buffer and answers how many bytes, at most the buffer's length.
    /// 0 comes only at the end of the input. `Failed` comes only where the count of faults rose, and
    /// takes nothing.
    fn read(&mut self, buf: &mut [u8]) -> Result<usize, Failed>
        requires { 0 < length buf.old }
        ensures bound { ReadsAtMost result buf.new }
        ensures bytes { ReadConsumes (left self.old) (left self.new) result buf.new }
        ensures cause { HasCause (faults self.old) (faults self.new) result };
}

/// A sink of bytes.
pub trait Sink {
    // The bytes that it holds, where the sink tells them. One that tells them goes on telling them.
    ghost held: { Self → Option (List ℕ) };

    // How often it failed. At its last value, 2^64 - 1, the count counts as risen at each failure.
    ghost faults: { Self → ℕ };

    /// Appends all the bytes. `Failed` comes only where the count of faults rose; a front of the bytes
    /// was appended then.
    fn write_all(&mut self, bytes: &[u8]) -> Result<(), Failed>
        ensures bytes { WritesAll (held self.old) (held self.new) result bytes.now }
        ensures cause { HasCause (faults self.old) (faults self.new) result };
}

/// What each half of a parallel batch enters as it begins: 0 is the first half, 1 the second. It
/// promises nothing.
pub trait Gate: Sync {
    fn enter(&self, half: u32);
}

/// A gate that does nothing.
#[derive(Clone, Copy, Debug)]
pub struct NoGate;

impl Gate for NoGate {
    fn enter(&self, _half: u32) {}
}
