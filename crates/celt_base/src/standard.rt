//! A source and a sink over std's readers and writers. They tell the bytes that the reader and the
//! writer tell: those in memory tell them, files, pipes and terminals do not, and what these give or
//! keep is trusted.
ghost use Rattle.std.specs.Prelude.{◌≡◌, ◌+◌, ◌^◌, ◌<◌, ◌≤◌, length};
ghost use Rattle.std.specs.Io.{ReadsAtMost};
ghost use Rattle.std.specs.Io.KnownBytes.{ReadConsumes};
ghost use Rattle.celt_base.specs.Outside.{HasCause, Rose, WritesAll};

use crate::outside::{Failed, Sink, Source};
use std::io::{Read, Write};

/// A source over a reader. Each error of the reader is a fault.
#[derive(Debug, Drop)]
pub struct StdSource<R> {
    inner: R,
    faults: u64,
}

impl<R: Read + Drop> StdSource<R> {
    /// A source over the reader, which did not fail yet.
    pub fn new(inner: R) -> StdSource<R>
        ensures inner { result.inner ≡ inner }
        ensures faults { result.faults ≡ 0 }
    {
        StdSource { inner, faults: 0 }
    }
}

impl<R: Read + Drop> Source for StdSource<R> {
    ghost left = { λ s. R.remaining s.inner };

    ghost faults = { λ s. s.faults };

    fn read(&mut self, buf: &mut [u8]) -> Result<usize, Failed> {
        match self.inner.read(buf) {
            Ok(count) => Ok(count),
            Err(_) => {
                self.faults = self.faults.saturating_add(1);
                Err(Failed)
            }
        }
    }
}

/// A sink over a writer. Each error of the writer, and each write that takes no byte, is a fault.
#[derive(Debug, Drop)]
pub struct StdSink<W> {
    inner: W,
    faults: u64,
}

impl<W: Write + Drop> StdSink<W> {
    /// A sink over the writer, which did not fail yet.
    pub fn new(inner: W) -> StdSink<W>
        ensures inner { result.inner ≡ inner }
        ensures faults { result.faults ≡ 0 }
    {
        StdSink { inner, faults: 0 }
    }
}

/// Writes all the bytes, and answers whether that worked. Where it did not, a front was written.
fn write_bytes<W: Write>(inner: &mut W, bytes: &[u8]) -> Result<(), Failed>
    ensures { WritesAll (W.contents inner.old) (W.contents inner.new) result bytes.now }
{
    let mut rest = bytes;
    while !rest.is_empty() {
        match inner.write(rest) {
            Ok(0) => return Err(Failed),
            Ok(count) => {
                let (_, behind) = rest.split_at(count);
                rest = behind;
            }
            Err(_) => return Err(Failed),
        }
    }
    Ok(())
}

impl<W: Write + Drop> Sink for StdSink<W> {
    ghost held = { λ s. W.contents s.inner };

    ghost faults = { λ s. s.faults };

    fn write_all(&mut self, bytes: &[u8]) -> Result<(), Failed> {
        match write_bytes(&mut self.inner, bytes) {
            Ok(()) => Ok(()),
            Err(_) => {
                self.faults = self.faults.saturating_add(1);
                Err(Failed)
            }
        }
    }
}
