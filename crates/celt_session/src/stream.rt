//! A session over a source and a sink, up to a limit.
ghost use Rattle.std.specs.Prelude.{◌≡◌, ◌≢◌, ◌^◌, ◌≤◌, ◌<◌, [], false, take, length, IfOk, IfSome};
ghost use Rattle.celt_base.specs.Outside.{Rose};
ghost use Rattle.celt_session.specs.Decoding.{decoding_function};
ghost use Rattle.celt_session.specs.PageWorks.{page_work, ShowsPages, pages_in};
ghost use Rattle.celt_session.specs.Sessions.{StandsFor, taken_by};
ghost use Rattle.celt_session.specs.Outcomes.{meaning, ended_status, wanted, Answers, Writes};

use crate::fed::Fed;
use crate::session::Session;
use crate::work::PageWork;
use celt_base::outside::{Gate, Sink, Source};
use celt_base::status::{Fault, OutOfMemory, Status};
use std::alloc::Global;
use std::thread::Threads;

/// How many bytes a read asks for.
const READ_LEN: usize = 65536;

/// The room for one read.
pub(crate) fn read_room(alloc: Global) -> Result<Vec<u8>, OutOfMemory>
    ensures { IfOk result (λ v. length v.items ≡ READ_LEN) }
{
    match vec![in alloc; 0u8; READ_LEN] {
        Ok(bytes) => Ok(bytes),
        Err(_) => Err(OutOfMemory),
    }
}

/// What of bytes is within what the limit leaves.
pub(crate) fn within(read: &[u8], left: u64) -> &[u8]
    ensures { result.now ≡ take left read.now }
{
    if read.len() as u64 <= left {
        return read;
    }
    let (piece, _) = read.split_at(left as usize);
    piece
}

/// The status of an input that ends within the limit.
fn status_at_end(fault: Option<Fault>) -> Status
    ensures { result ≡ ended_status fault }
{
    match fault {
        Some(fault) => Status::Refused(fault),
        None => Status::Done,
    }
}

/// Reads the input to its end or past the limit, and feeds what is within it to a new session.
fn feed_all<R: Threads, S: Source, K: Sink, G: Gate>(
    rt: &R,
    session: &mut Session,
    buf: &mut [u8],
    limit: u64,
    input: &mut S,
    output: &mut K,
    gate: &G,
) -> Status
    requires limit { limit ≤ 2 ^ 40 }
    requires going { session.old.is_ended ≡ false }
    requires taken { taken_by session.old ≡ 0 }
    requires room { 0 < length buf.old }
    ensures status { (start : decoding_function.State) → StandsFor page_work start session.old [] →
        IfSome (S.left input.old) (λ bytes. Answers (wanted (meaning decoding_function start) limit bytes) result) }
    ensures output { (start : decoding_function.State) → StandsFor page_work start session.old [] →
        IfSome (S.left input.old) (λ bytes. Writes (meaning decoding_function start) limit bytes (S.left input.new) (K.held output.old) (K.held output.new) result) }
    ensures read_fault { result ≡ Status.ReadFault → Rose (S.faults input.old) (S.faults input.new) }
    ensures write_fault { result ≡ Status.WriteFault → Rose (K.faults output.old) (K.faults output.new) }
    ensures words { result ≢ Status.Usage }
    ensures memory { result ≢ Status.NoMemory }
    ensures kept { K.faults output.old ≤ K.faults output.new }
{
    let mut left = limit;
    'pieces: loop {
        let Ok(count) = input.read(buf) else {
            return Status::ReadFault;
        };
        if count == 0 {
            return status_at_end(session.end());
        }
        let (read, _) = buf.split_at(count);
        match session.feed(rt, within(read, left), output, gate) {
            Fed::More => {}
            Fed::Fault(fault) => return Status::Refused(fault),
            Fed::WriteFault => return Status::WriteFault,
        }
        if count as u64 > left {
            return Status::InputTooLong;
        }
        left -= count as u64;
    }
}

/// Works on the pages of the Ogg stream of the input. At most `limit` bytes are read as the stream, and whether
/// there is one more is found out. All memory is taken before the first write.
pub(crate) fn work_stream<R: Threads, S: Source, K: Sink, G: Gate>(
    rt: &R,
    alloc: Global,
    work: PageWork,
    limit: u64,
    input: &mut S,
    output: &mut K,
    gate: &G,
) -> Status
    requires limit { limit ≤ 2 ^ 40 }
    requires new { pages_in work ≡ 0 }
    ensures status { (start : decoding_function.State) → ShowsPages work start →
        IfSome (S.left input.old) (λ bytes. Answers (wanted (meaning decoding_function start) limit bytes) result) }
    ensures output { (start : decoding_function.State) → ShowsPages work start →
        IfSome (S.left input.old) (λ bytes. Writes (meaning decoding_function start) limit bytes (S.left input.new) (K.held output.old) (K.held output.new) result) }
    ensures read_fault { result ≡ Status.ReadFault → Rose (S.faults input.old) (S.faults input.new) }
    ensures write_fault { result ≡ Status.WriteFault → Rose (K.faults output.old) (K.faults output.new) }
    ensures memory { result ≡ Status.NoMemory → output.new ≡ output.old }
    ensures words { result ≢ Status.Usage }
    ensures kept { K.faults output.old ≤ K.faults output.new }
{
    let Ok(mut buf) = read_room(alloc) else {
        return Status::NoMemory;
    };
    let Ok(mut session) = Session::new(alloc, work) else {
        return Status::NoMemory;
    };
    feed_all(rt, &mut session, &mut buf, limit, input, output, gate)
}
