//! A session: a stream in pieces, and what is made of its pages.
use crate::fed::Fed;
use crate::giving::feed_piece;
use crate::work::PageWork;
use celt_base::outside::{Gate, Sink};
use celt_base::status::{Fault, OutOfMemory};
use opus_stream::StreamReader;
use std::alloc::Global;
use std::marker::Model;
use std::thread::Threads;

/// A stream that is read in pieces, and a work on its pages. It takes no memory after it was made.
#[derive(Drop)]
pub(crate) struct Session {
    reader: StreamReader,
    work: PageWork,
    /// Whether a fault was answered or a write failed.
    is_ended: bool,
}

impl Model for Session {
    ghost use Rattle.std.specs.Prelude.{◌≡◌, ◌≤◌, ◌+◌, false, true};
    ghost use Rattle.opus_stream.specs.Readers.{bytes_fed, bytes_held};
    ghost use Rattle.celt_session.specs.Sessions.{Held};
    ghost use Rattle.celt_session.specs.PageWorks.{pages_in};
    ghost use Rattle.celt_session.specs.declared.work.PageWork.{PageWork};

    ghost Value = { Held PageWork };

    ghost view = { λ s. record { reader = s.reader; work = s.work; is_ended = s.is_ended } };

    ghost invariant = { λ s. s.is_ended ≡ false →
        (s.reader.is_settled ≡ true) × (pages_in s.work + bytes_held s.reader ≤ bytes_fed s.reader) };
}

impl Session {
    ghost use Rattle.std.specs.Prelude.{◌≡◌, ◌≤◌, ◌+◌, ◌^◌, ◌++◌, ℕ, List, [], length, false, IfOk};
    ghost use Rattle.celt_session.specs.Sessions.{Held, StandsFor, Adds, HasFedCause, IsEndOf, ends_session, taken_by};
    ghost use Rattle.celt_session.specs.Decoding.{decoding_function};
    ghost use Rattle.celt_session.specs.PageWorks.{page_work, ShowsPages, pages_in};

    /// A session that was fed nothing, of a work that worked on no page.
    pub(crate) fn new(alloc: Global, work: PageWork) -> Result<Session, OutOfMemory>
        requires { pages_in work ≡ 0 }
        ensures stands { IfOk result (λ session. (start : decoding_function.State) → ShowsPages work start → StandsFor page_work start session []) }
        ensures only { IfOk result (λ session. (start : decoding_function.State) (bytes : List ℕ) → StandsFor page_work start session bytes → bytes ≡ []) }
        ensures going { IfOk result (λ session. session.is_ended ≡ false) }
        ensures taken { IfOk result (λ session. taken_by session ≡ 0) }
    {
        match StreamReader::new(alloc) {
            Ok(reader) => Ok(Session {
                reader,
                work,
                is_ended: false,
            }),
            Err(_) => Err(OutOfMemory),
        }
    }

    /// Feeds a piece, and adds what it gives to the output.
    pub(crate) fn feed<R: Threads, K: Sink, G: Gate>(
        &mut self,
        rt: &R,
        piece: &[u8],
        output: &mut K,
        gate: &G,
    ) -> Fed
        requires going { self.old.is_ended ≡ false }
        requires limit { taken_by self.old + length piece.now ≤ 2 ^ 40 }
        ensures adds { (start : decoding_function.State) (bytes : List ℕ) → StandsFor page_work start self.old bytes →
            Adds page_work start bytes (bytes ++ piece.now) self.new (K.held output.old) (K.held output.new) result }
        ensures ended { self.new.is_ended ≡ ends_session result }
        ensures taken { taken_by self.new ≤ taken_by self.old + length piece.now }
        ensures cause { HasFedCause (K.faults output.old) (K.faults output.new) result }
    {
        match feed_piece(rt, &mut self.reader, &mut self.work, piece, output, gate) {
            Ok(None) => Fed::More,
            Ok(Some(fault)) => {
                self.is_ended = true;
                Fed::Fault(fault)
            }
            Err(_) => {
                self.is_ended = true;
                Fed::WriteFault
            }
        }
    }

    /// Whether a fault was answered or a write failed.
    pub(crate) fn ended(&self) -> bool
        ensures { result ≡ self.now.is_ended }
    {
        self.is_ended
    }

    /// The fault of a stream that ends with the bytes so far.
    pub(crate) fn end(&self) -> Option<Fault>
        requires going { self.now.is_ended ≡ false }
        ensures { IsEndOf page_work self.now result }
    {
        self.reader.end()
    }
}
