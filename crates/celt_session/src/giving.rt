//! Pages that a reader gives, one after the other.
ghost use Rattle.std.specs.Prelude.{◌≡◌, ◌+◌, ◌≤◌, ◌<◌, ◌^◌, ◌++◌, ℕ, List, true, Ok, None, Some, length};
ghost use Rattle.celt_base.specs.Outside.{HasCause};
ghost use Rattle.ogg_pages.specs.Fields.{Page};
ghost use Rattle.opus_stream.specs.Readers.{bytes_fed, bytes_held};
ghost use Rattle.celt_session.specs.Decoding.{decoding_function};
ghost use Rattle.celt_session.specs.PageWorks.{page_work, pages_in};
ghost use Rattle.celt_session.specs.Sessions.{Along, IsFed, Gives, Feeds};

use crate::work::PageWork;
use celt_base::outside::{Failed, Gate, Sink};
use celt_base::status::Fault;
use opus_stream::{Accept, StreamReader};
use std::thread::Threads;

/// Works on every page that is accepted of the bytes so far, and answers the fault behind them.
pub(crate) fn give_pages<R: Threads, K: Sink, G: Gate>(
    rt: &R,
    reader: &mut StreamReader,
    work: &mut PageWork,
    output: &mut K,
    gate: &G,
) -> Result<Option<Fault>, Failed>
    requires few { pages_in work.old + bytes_held reader.old ≤ 2 ^ 40 }
    ensures gives { (start : decoding_function.State) (bytes : List ℕ) (front : List Page) → Along page_work start reader.old work.old bytes front →
        Gives page_work start bytes front reader.new work.new (K.held output.old) (K.held output.new) result }
    ensures settled { result ≡ Ok None → reader.new.is_settled ≡ true }
    ensures fed { bytes_fed reader.new ≡ bytes_fed reader.old }
    ensures few { pages_in work.new + bytes_held reader.new ≤ pages_in work.old + bytes_held reader.old }
    ensures cause { HasCause (K.faults output.old) (K.faults output.new) result }
{
    'pages: loop {
        match reader.next_page() {
            Accept::Page => {
                let Ok(()) = work.page(rt, reader, output, gate) else {
                    return Err(Failed);
                };
            }
            Accept::Need => return Ok(None),
            Accept::Fault(fault) => return Ok(Some(fault)),
        }
    }
}

/// Feeds a piece, and works on every page that is accepted of the bytes so far.
pub(crate) fn feed_piece<R: Threads, K: Sink, G: Gate>(
    rt: &R,
    reader: &mut StreamReader,
    work: &mut PageWork,
    piece: &[u8],
    output: &mut K,
    gate: &G,
) -> Result<Option<Fault>, Failed>
    requires settled { reader.old.is_settled ≡ true }
    requires few { pages_in work.old + bytes_held reader.old ≤ bytes_fed reader.old }
    requires limit { bytes_fed reader.old + length piece.now ≤ 2 ^ 40 }
    ensures feeds { (start : decoding_function.State) (bytes : List ℕ) → IsFed page_work start reader.old work.old bytes →
        Feeds page_work start bytes (bytes ++ piece.now) reader.new work.new (K.held output.old) (K.held output.new) result }
    ensures settled { result ≡ Ok None → reader.new.is_settled ≡ true }
    ensures few { result ≡ Ok None → pages_in work.new + bytes_held reader.new ≤ bytes_fed reader.new }
    ensures fed { bytes_fed reader.new ≤ bytes_fed reader.old + length piece.now }
    ensures cause { HasCause (K.faults output.old) (K.faults output.new) result }
{
    let mut rest = piece;
    'pieces: loop {
        let count = reader.feed(rest);
        if count == 0 {
            return Ok(None);
        }
        let (_, behind) = rest.split_at(count);
        rest = behind;
        match give_pages(rt, reader, work, output, gate) {
            Ok(None) => {}
            Ok(Some(fault)) => return Ok(Some(fault)),
            Err(_) => return Err(Failed),
        }
    }
}
