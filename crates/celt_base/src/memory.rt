//! A source and a sink in memory. They tell their bytes, and fail at the calls that they were told to.
ghost use Rattle.std.specs.Prelude.{◌≡◌, ◌+◌, ◌-◌, ◌*◌, ◌/◌, ◌^◌, ◌<◌, ◌≤◌, ◌↔◌, ℕ, List, [], ◌++◌, length, map, min, IsErr, Some, drop, take, get_or, vec_len, vec_capacity};
ghost use Rattle.std.specs.Io.{ReadsAtMost};
ghost use Rattle.std.specs.Io.KnownBytes.{ReadConsumes};
ghost use Rattle.celt_base.specs.Outside.{HasCause, Rose, WritesAll};
ghost use Rattle.celt_base.specs.Memory.{IsNamed, next_call, joined, unread, unread_pieces, some_of, GivesPiece, IsUnreadPlace, AppendsHalf};

use crate::outside::{Failed, Sink, Source};
use std::alloc::Global;

/// Which calls fail: the named ones, counted from 0.
#[derive(Debug, Drop)]
struct Failures {
    named: Vec<u64>,
    /// The number of the next call; None once it is above every number that can be named.
    call: Option<u64>,
    /// How many calls failed, which stops at 2^64 - 1.
    faults: u64,
}

impl Failures {
    fn new(named: Vec<u64>) -> Failures
        ensures named { result.named ≡ named }
        ensures call { result.call ≡ Some 0 }
        ensures faults { result.faults ≡ 0 }
    {
        Failures {
            named,
            call: Some(0),
            faults: 0,
        }
    }

    /// Counts a call, and fails it where it is named.
    fn enter(&mut self) -> Result<(), Failed>
        ensures named { self.new.named ≡ self.old.named }
        ensures call { self.new.call ≡ next_call self.old.call }
        ensures fails { IsErr result ↔ IsNamed self.old.named.items self.old.call }
        ensures cause { HasCause self.old.faults self.new.faults result }
    {
        let Some(call) = self.call else {
            return Ok(());
        };
        self.call = call.checked_add(1);
        if self.named.contains(&call) {
            self.raise();
            return Err(Failed);
        }
        Ok(())
    }

    /// Raises the count of faults.
    fn raise(&mut self)
        ensures named { self.new.named ≡ self.old.named }
        ensures call { self.new.call ≡ self.old.call }
        ensures rose { Rose self.old.faults self.new.faults }
    {
        self.faults = self.faults.saturating_add(1);
    }
}

/// A source over pieces of bytes. A read gives bytes of one piece; an empty piece is passed over.
#[derive(Debug, Drop)]
pub struct MemSource {
    pieces: Vec<Vec<u8>>,
    /// The place of the piece that is being read, and the place in it of its first unread byte.
    piece: usize,
    start: usize,
    failures: Failures,
}

impl MemSource {
    ghost use Rattle.celt_base.specs.MemorySides.{unread_of, pieces_of, source_names, source_call, source_faults};

    /// A source that tells the joined pieces. Exactly the calls with these numbers, counted from 0,
    /// fail. It takes no memory.
    pub fn new(pieces: Vec<Vec<u8>>, failing: Vec<u64>) -> MemSource
        ensures bytes { unread_of result ≡ joined pieces.items }
        ensures pieces { pieces_of result ≡ some_of (map (λ piece. piece.items) pieces.items) }
        ensures names { source_names result ≡ failing.items }
        ensures call { source_call result ≡ Some 0 }
        ensures faults { source_faults result ≡ 0 }
    {
        MemSource {
            pieces,
            piece: 0,
            start: 0,
            failures: Failures::new(failing),
        }
    }
}

/// The place of the first unread byte. Pieces that are read to their end are passed over.
fn unread_place(pieces: &[Vec<u8>], mut piece: usize, mut start: usize) -> (usize, usize)
    ensures same { unread (drop result.0 pieces.now) result.1 ≡ unread (drop piece pieces.now) start }
    ensures pieces { unread_pieces (drop result.0 pieces.now) result.1 ≡ unread_pieces (drop piece pieces.now) start }
    ensures inside { IsUnreadPlace (drop result.0 pieces.now) result.1 }
{
    while piece < pieces.len() && start >= pieces[piece].len() {
        piece += 1;
        start = 0;
    }
    (piece, start)
}

/// Copies what fits of the bytes into the front of the buffer, and answers how many.
fn copy_front(bytes: &[u8], buf: &mut [u8]) -> usize
    ensures count { result ≡ min (length bytes.now) (length buf.old) }
    ensures front { take result buf.new ≡ take result bytes.now }
{
    let count = bytes.len().min(buf.len());
    buf[..count].copy_from_slice(&bytes[..count]);
    count
}

impl Source for MemSource {
    ghost use Rattle.celt_base.specs.MemorySides.{unread_of, pieces_of, source_names, source_call, source_faults};

    ghost left = { λ s. Some (unread_of s) };

    ghost faults = { source_faults };

    /// Gives the next unread bytes of one piece, as many as the buffer has place for.
    fn read(&mut self, buf: &mut [u8]) -> Result<usize, Failed>
        requires { 0 < length buf.old }
        ensures bound { ReadsAtMost result buf.new }
        ensures bytes { ReadConsumes (Some (unread_of self.old)) (Some (unread_of self.new)) result buf.new }
        ensures pieces { GivesPiece (pieces_of self.old) (pieces_of self.new) (length buf.old) result }
        ensures cause { HasCause (source_faults self.old) (source_faults self.new) result }
        ensures fails { IsErr result ↔ IsNamed (source_names self.old) (source_call self.old) }
        ensures names { source_names self.new ≡ source_names self.old }
        ensures call { source_call self.new ≡ next_call (source_call self.old) }
    {
        let Ok(()) = self.failures.enter() else {
            return Err(Failed);
        };
        let (piece, start) = unread_place(&self.pieces, self.piece, self.start);
        self.piece = piece;
        self.start = start;
        let Some(bytes) = self.pieces.get(piece) else {
            return Ok(0);
        };
        let (_, rest) = bytes.split_at(start);
        let count = copy_front(rest, buf);
        self.start = start + count;
        Ok(count)
    }
}

/// A sink that holds its bytes.
#[derive(Debug, Drop)]
pub struct MemSink {
    bytes: Vec<u8>,
    failures: Failures,
}

impl MemSink {
    ghost use Rattle.celt_base.specs.MemorySides.{held_of, sink_names, sink_call, sink_faults};

    /// An empty sink. Each call with one of these numbers, counted from 0, fails, and appends the first half of the
    /// bytes, rounded down, or nothing where memory is refused. Any other fails only for want of memory.
    pub fn new(alloc: Global, failing: Vec<u64>) -> MemSink
        ensures bytes { held_of result ≡ [] }
        ensures names { sink_names result ≡ failing.items }
        ensures call { sink_call result ≡ Some 0 }
        ensures faults { sink_faults result ≡ 0 }
    {
        MemSink {
            bytes: Vec::new(alloc),
            failures: Failures::new(failing),
        }
    }

    /// The bytes that it holds.
    pub fn bytes(&self) -> &[u8]
        ensures { result.now ≡ held_of self.now }
    {
        self.bytes.as_slice()
    }
}

/// Appends the first half of the bytes, rounded down, or nothing where memory is refused.
fn append_half(held: &mut Vec<u8>, bytes: &[u8])
    ensures { AppendsHalf (vec_capacity held.old) held.old.items held.new.items bytes.now }
{
    let (half, _) = bytes.split_at(bytes.len() / 2);
    let _ = held.extend_from_slice(half);
}

impl Sink for MemSink {
    ghost use Rattle.celt_base.specs.MemorySides.{held_of, room_of, sink_names, sink_call, sink_faults};

    ghost held = { λ s. Some (held_of s) };

    ghost faults = { sink_faults };

    fn write_all(&mut self, bytes: &[u8]) -> Result<(), Failed>
        ensures bytes { WritesAll (Some (held_of self.old)) (Some (held_of self.new)) result bytes.now }
        ensures cause { HasCause (sink_faults self.old) (sink_faults self.new) result }
        ensures fails { IsNamed (sink_names self.old) (sink_call self.old) → IsErr result }
        ensures half { IsNamed (sink_names self.old) (sink_call self.old)
            → AppendsHalf (room_of self.old) (held_of self.old) (held_of self.new) bytes.now }
        ensures others_stay { (IsNamed (sink_names self.old) (sink_call self.old) → ⊥) → IsErr result
            → held_of self.new ≡ held_of self.old }
        ensures names { sink_names self.new ≡ sink_names self.old }
        ensures call { sink_call self.new ≡ next_call (sink_call self.old) }
    {
        let Ok(()) = self.failures.enter() else {
            append_half(&mut self.bytes, bytes);
            return Err(Failed);
        };
        match self.bytes.extend_from_slice(bytes) {
            Ok(()) => Ok(()),
            Err(_) => {
                self.failures.raise();
                Err(Failed)
            }
        }
    }
}
