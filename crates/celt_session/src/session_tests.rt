//! The rows of small streams through sessions that are fed them in pieces, and sessions that end.
ghost use Rattle.std.specs.Prelude.{◌≡◌, ◌≤◌, ◌+◌, ◌^◌, length, false};
ghost use Rattle.celt_session.specs.Sessions.{ends_session};
ghost use Rattle.celt_session.specs.Decoders.{is_ended, taken_by};

use crate::decoding::DecodeSession;
use crate::fed::Fed;
use crate::settings::{DecodeSettings, Form};
use crate::stream_tests::{Row, SETTINGS, bytes_of, rows, sum};
use celt_base::memory::MemSink;
use celt_base::outside::NoGate;
use celt_base::status::{Fault, FaultName};
use std::alloc::{AllocError, Global};
use std::process::Abort;
use std::thread::Threads;

const PLAIN: DecodeSettings = DecodeSettings {
    form: Form::Plain,
    invert: true,
};

/// Feeds bytes in pieces of this size, until an answer ends the session.
fn feed_pieces(
    rt: &impl Threads,
    session: &mut DecodeSession,
    bytes: &[u8],
    size: usize,
    output: &mut MemSink,
) -> Fed
    requires size { 1 ≤ size }
    requires going { is_ended session.old ≡ false }
    requires limit { taken_by session.old + length bytes.now ≤ 2 ^ 40 }
    ensures { is_ended session.new ≡ ends_session result }
{
    let mut rest = bytes;
    while !rest.is_empty() {
        let (piece, behind) = rest.split_at(size.min(rest.len()));
        rest = behind;
        match session.feed(rt, piece, output, &NoGate) {
            Fed::More => {}
            Fed::Fault(fault) => return Fed::Fault(fault),
            Fed::WriteFault => return Fed::WriteFault,
        }
    }
    Fed::More
}

/// The fault of a stream that ends, in a session that answered this to its last piece.
fn fault_of(session: &DecodeSession, fed: Fed) -> Option<Fault>
    requires { is_ended session.now ≡ ends_session fed }
{
    match fed {
        Fed::More => session.end(),
        Fed::Fault(fault) => Some(fault),
        Fed::WriteFault => None,
    }
}

/// What a session gives that is fed a stream in pieces of this size: its fault, whether it has ended, and the length and
/// the sum of its output.
fn fed(
    rt: &impl Threads,
    alloc: Global,
    settings: DecodeSettings,
    bytes: &[u8],
    size: usize,
) -> Result<(Option<Fault>, bool, (usize, u64)), AllocError>
    requires { 1 ≤ size }
{
    let mut output = MemSink::new(alloc, Vec::new(alloc));
    let Ok(mut session) = DecodeSession::new(alloc, settings) else {
        return Err(AllocError);
    };
    let (bytes, _) = bytes.split_at(bytes.len().min(100_000));
    let answer = feed_pieces(rt, &mut session, bytes, size, &mut output);
    let got = (output.bytes().len(), sum(output.bytes()));
    Ok((fault_of(&session, answer), session.ended(), got))
}

/// The fault of a row, and whether it ends a session before the end of the stream.
fn found(fault: Option<(FaultName, u64)>) -> (Option<Fault>, bool) {
    let Some((name, at)) = fault else {
        return (None, false);
    };
    (Some(Fault { name, at }), name != FaultName::Truncated)
}

/// A row through sessions, into all that it can be decoded into.
fn row_in_pieces(
    rt: &(impl Threads + Abort + AllocGlobal),
    row: Row,
    bytes: &[u8],
    size: usize,
) -> Result<(), AllocError>
    requires { 1 ≤ size }
{
    let name = row.name;
    let (fault, ended) = found(row.fault);
    for (settings, want) in SETTINGS.iter().zip(row.outputs.iter()) {
        let got = fed(rt, rt.alloc(), *settings, bytes, size)?;
        assert_eq!(rt; got, (fault, ended, *want), "{name}");
    }
    Ok(())
}

#[test]
fn sessions(rt: HostRuntime) -> Result<(), AllocError> {
    for row in rows() {
        let bytes = bytes_of(rt.alloc(), row.stream)?;
        row_in_pieces(&rt, row, &bytes, 1)?;
        row_in_pieces(&rt, row, &bytes, 7)?;
        row_in_pieces(&rt, row, &bytes, 100_000)?;
    }
    Ok(())
}

/// A session that is fed the first row's stream in two pieces and asked for the end behind each.
fn ends_twice(
    rt: &impl Threads,
    alloc: Global,
    bytes: &[u8],
) -> Result<(Option<Fault>, Option<Fault>, usize), AllocError> {
    let mut output = MemSink::new(alloc, Vec::new(alloc));
    let Ok(mut session) = DecodeSession::new(alloc, PLAIN) else {
        return Err(AllocError);
    };
    let (first, rest) = bytes.split_at(bytes.len().min(100));
    let (rest, _) = rest.split_at(rest.len().min(100));
    let answer = session.feed(rt, first, &mut output, &NoGate);
    let early = fault_of(&session, answer);
    if session.ended() {
        return Ok((early, None, output.bytes().len()));
    }
    let answer = session.feed(rt, rest, &mut output, &NoGate);
    Ok((early, fault_of(&session, answer), output.bytes().len()))
}

// The end of the bytes so far is a question: what follows is fed as if it had not been asked.
#[test]
fn more_behind_an_end(rt: HostRuntime) -> Result<(), AllocError> {
    let [row, ..] = rows();
    let bytes = bytes_of(rt.alloc(), row.stream)?;
    let early = Fault {
        name: FaultName::Truncated,
        at: 2,
    };
    assert_eq!(rt;
        ends_twice(&rt, rt.alloc(), &bytes)?,
        (Some(early), None, 1920)
    );
    Ok(())
}

/// What a session answers whose first write fails, whether it has ended, and how many bytes it wrote.
fn failed(
    rt: &impl Threads,
    alloc: Global,
    bytes: &[u8],
) -> Result<(Fed, bool, usize), AllocError> {
    let mut names = Vec::new(alloc);
    names.push(0)?;
    let mut output = MemSink::new(alloc, names);
    let Ok(mut session) = DecodeSession::new(alloc, PLAIN) else {
        return Err(AllocError);
    };
    let (bytes, _) = bytes.split_at(bytes.len().min(1000));
    let answer = feed_pieces(rt, &mut session, bytes, 7, &mut output);
    Ok((answer, session.ended(), output.bytes().len()))
}

// A write that fails has written the first half of its bytes, and ends the session.
#[test]
fn failing_writes(rt: HostRuntime) -> Result<(), AllocError> {
    let [row, ..] = rows();
    let bytes = bytes_of(rt.alloc(), row.stream)?;
    assert_eq!(rt;
        failed(&rt, rt.alloc(), &bytes)?,
        (Fed::WriteFault, true, 960)
    );
    Ok(())
}
