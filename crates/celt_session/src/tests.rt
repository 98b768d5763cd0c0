//! Rows of files that are encoded, in pieces of several sizes. The lengths and sums of their streams were made by a
//! program apart from this one.
ghost use Rattle.std.specs.Prelude.{◌≡◌, ◌≤◌, ◌<◌, ◌+◌, ◌*◌, ◌⊎◌, ◌^◌, length, false};
ghost use Rattle.celt_session.specs.Sessions.{ends_session};
ghost use Rattle.celt_session.specs.Encodings.{AreSettings};
ghost use Rattle.celt_session.specs.EncodeSessions.{is_ended, taken_by};

use crate::encode_session::EncodeSession;
use crate::ended::Ended;
use crate::fed::Fed;
use crate::settings::Settings;
use crate::streaming::encode_stream;
use celt_base::memory::{MemSink, MemSource};
use celt_base::outside::NoGate;
use celt_base::status::{Fault, FaultName, Status};
use std::alloc::{AllocError, Global};
use std::process::Abort;
use std::thread::Threads;

/// Frames of five bytes, one a packet.
const SINGLE: Settings = Settings {
    bytes: 5,
    frame: 960,
    band: 3,
    group: 1,
};

/// Frames of five bytes, two a packet.
const PAIRS: Settings = Settings {
    bytes: 5,
    frame: 960,
    band: 3,
    group: 2,
};

/// Frames of 40 bytes, one a packet.
const PLAIN: Settings = Settings {
    bytes: 40,
    frame: 960,
    band: 3,
    group: 1,
};

/// Shorter frames of 12 kHz, three a packet.
const THREES: Settings = Settings {
    bytes: 60,
    frame: 480,
    band: 2,
    group: 3,
};

/// The shortest frames, as many a packet as there can be.
const SHORTEST: Settings = Settings {
    bytes: 20,
    frame: 120,
    band: 1,
    group: 48,
};

/// Frames of 4 kHz.
const NARROW: Settings = Settings {
    bytes: 30,
    frame: 240,
    band: 0,
    group: 2,
};

/// What a file gives: the length and the sum of its stream, and its fault.
#[derive(Clone, Copy)]
struct Wanted {
    stream: (usize, u32),
    fault: Option<Fault>,
}

const fn sound(len: usize, sum: u32) -> Wanted {
    Wanted {
        stream: (len, sum),
        fault: None,
    }
}

/// A file of 16 bits at 48 kHz with so many samples: of 0 where the seed is 0, and of noise where it is not.
fn file(alloc: Global, channels: u8, samples: u32, seed: u32) -> Result<Vec<u8>, AllocError> {
    let mut bytes = Vec::from_slice(
        alloc,
        b"RIFF\xff\xff\xff\xffWAVEfmt \x10\0\0\0\x01\0\x01\0\x80\xbb\0\0\0\0\0\0\x02\0\x10\0data\xff\xff\xff\xff",
    )?;
    if channels == 2 && bytes.len() == 44 {
        bytes[22] = 2;
        bytes[32] = 4;
    }
    let mut state = seed;
    for _ in 0..samples {
        let mut sample = 0i16;
        if seed != 0 {
            state = state.wrapping_mul(1_664_525).wrapping_add(1_013_904_223);
            sample = (state >> 18) as i16 - 8192;
        }
        bytes.extend_from_slice(&sample.to_le_bytes())?;
    }
    Ok(bytes)
}

/// The length and the sum of some bytes.
fn digest(bytes: &[u8]) -> (usize, u32) {
    let mut sum = 0u32;
    for byte in bytes {
        sum = sum.wrapping_mul(31).wrapping_add(u32::from(*byte));
    }
    (bytes.len(), sum)
}

/// Feeds bytes in pieces of this size, until an answer ends the session.
fn feed_pieces(
    rt: &impl Threads,
    session: &mut EncodeSession,
    bytes: &[u8],
    size: usize,
    output: &mut MemSink,
) -> Fed
    requires size { 1 ≤ size }
    requires going { is_ended session.old ≡ false }
    requires limit { taken_by session.old + length bytes.now ≤ 2 ^ 40 }
    ensures { is_ended session.new ≡ ends_session result }
{
    let mut rest = bytes;
    while !rest.is_empty() {
        let (piece, behind) = rest.split_at(size.min(rest.len()));
        rest = behind;
        match session.feed(rt, piece, output, &NoGate) {
            Fed::More => {}
            Fed::Fault(fault) => return Fed::Fault(fault),
            Fed::WriteFault => return Fed::WriteFault,
        }
    }
    Fed::More
}

/// What a session answers that answered this to the last piece: that, or what its end gives.
fn end_of(rt: &impl Threads, session: &mut EncodeSession, fed: Fed, output: &mut MemSink) -> Ended
    requires { is_ended session.old ≡ ends_session fed }
{
    match fed {
        Fed::More => session.end(rt, output, &NoGate),
        Fed::Fault(fault) => Ended::Fault(fault),
        Fed::WriteFault => Ended::WriteFault,
    }
}

/// What a session gives that is fed a file in pieces of this size, and whose write with this number fails: its answer,
/// whether it has ended, and its output.
fn fed(
    rt: &(impl Threads + AllocGlobal),
    settings: Settings,
    bytes: &[u8],
    size: usize,
    call: u64,
) -> Result<(Ended, bool, (usize, u32)), AllocError>
    requires settings { AreSettings settings }
    requires size { 1 ≤ size }
{
    let alloc = rt.alloc();
    let mut names = Vec::new(alloc);
    names.push(call)?;
    let mut output = MemSink::new(alloc, names);
    let Ok(mut session) = EncodeSession::new(alloc, settings) else {
        return Err(AllocError);
    };
    let (bytes, _) = bytes.split_at(bytes.len().min(100_000));
    let answer = feed_pieces(rt, &mut session, bytes, size, &mut output);
    let ended = end_of(rt, &mut session, answer, &mut output);
    Ok((ended, session.ended(), digest(output.bytes())))
}

/// What the call gives that encodes a file, which is read in pieces of this size.
fn streamed(
    rt: &(impl Threads + AllocGlobal),
    settings: Settings,
    bytes: &[u8],
    size: usize,
    limit: u64,
) -> Result<(Status, (usize, u32)), AllocError>
    requires settings { AreSettings settings }
    requires limit { limit ≤ 2 ^ 40 }
{
    let alloc = rt.alloc();
    let mut pieces = Vec::new(alloc);
    for piece in bytes.chunks(size.max(1)) {
        pieces.push(Vec::from_slice(alloc, piece)?)?;
    }
    let mut input = MemSource::new(pieces, Vec::new(alloc));
    let mut output = MemSink::new(alloc, Vec::new(alloc));
    let status = encode_stream(rt, alloc, settings, limit, &mut input, &mut output, &NoGate);
    Ok((status, digest(output.bytes())))
}

/// A file through the call and through sessions.
fn encodes(
    rt: &(impl Threads + Abort + AllocGlobal),
    settings: Settings,
    bytes: &[u8],
    want: Wanted,
) -> Result<(), AllocError>
    requires settings { AreSettings settings }
{
    let (ended, status) = match want.fault {
        None => (Ended::Done, Status::Done),
        Some(fault) => (Ended::Fault(fault), Status::Refused(fault)),
    };
    for size in [1, 7, 100_000] {
        assert_eq!(rt;
            streamed(rt, settings, bytes, size, 1 << 40)?,
            (status, want.stream)
        );
        assert_eq!(rt;
            fed(rt, settings, bytes, size, 1000)?,
            (ended, true, want.stream)
        );
    }
    Ok(())
}

#[test]
fn silence(rt: HostRuntime) -> Result<(), AllocError> {
    let alloc = rt.alloc();
    let bytes = file(alloc, 1, 2000, 0)?;
    encodes(&rt, SINGLE, &bytes, sound(197, 1_944_151_291))?;
    encodes(&rt, PAIRS, &bytes, sound(169, 516_833_216))?;
    let none = file(alloc, 1, 0, 0)?;
    encodes(&rt, PAIRS, &none, sound(129, 2_485_192_715))
}

#[test]
fn one_channel(rt: HostRuntime) -> Result<(), AllocError> {
    let alloc = rt.alloc();
    encodes(
        &rt,
        PLAIN,
        &file(alloc, 1, 2000, 7)?,
        sound(302, 2_901_431_877),
    )?;
    let long = file(alloc, 1, 16_360, 8)?;
    encodes(&rt, PLAIN, &long, sound(1337, 1_568_621_132))
}

#[test]
fn two_channels(rt: HostRuntime) -> Result<(), AllocError> {
    let bytes = file(rt.alloc(), 2, 3000, 9)?;
    encodes(&rt, THREES, &bytes, sound(394, 2_770_505_892))
}

#[test]
fn shorter_frames(rt: HostRuntime) -> Result<(), AllocError> {
    let alloc = rt.alloc();
    let bytes = file(alloc, 1, 900, 10)?;
    encodes(&rt, SHORTEST, &bytes, sound(305, 2_496_417_864))?;
    let long = file(alloc, 1, 7000, 11)?;
    encodes(&rt, SHORTEST, &long, sound(1358, 3_534_199_930))?;
    let narrow = file(alloc, 1, 1000, 12)?;
    encodes(&rt, NARROW, &narrow, sound(334, 2_454_489_512))
}

/// A file that ends too early gives the packets that are full before its end.
fn cut(len: u64, stream: (usize, u32)) -> Wanted {
    Wanted {
        stream,
        fault: Some(Fault {
            name: FaultName::DataTruncated,
            at: len,
        }),
    }
}

#[test]
fn cut_files(rt: HostRuntime) -> Result<(), AllocError> {
    let alloc = rt.alloc();
    let mut two = file(alloc, 2, 3000, 9)?;
    two.push(1)?;
    encodes(&rt, THREES, &two, cut(6045, (305, 3_654_005_438)))?;
    let mut one = file(alloc, 1, 2000, 7)?;
    one.push(1)?;
    encodes(&rt, PLAIN, &one, cut(4045, (233, 727_714_390)))?;
    let (head, _) = one.split_at(one.len().min(43));
    encodes(&rt, SINGLE, head, cut(43, (0, 0)))
}

#[test]
fn no_wav_file(rt: HostRuntime) -> Result<(), AllocError> {
    let want = Wanted {
        stream: (0, 0),
        fault: Some(Fault {
            name: FaultName::BadRiff,
            at: 0,
        }),
    };
    encodes(&rt, SINGLE, b"RIFX and more", want)?;
    encodes(&rt, SINGLE, b"", cut(0, (0, 0)))
}

// Of 197 bytes in pages of 47, 48, 34, 34 and 34 bytes, a write that fails has written the pages before and the first
// half of its own.
#[test]
fn failing_writes(rt: HostRuntime) -> Result<(), AllocError> {
    let bytes = file(rt.alloc(), 1, 2000, 0)?;
    for (call, len) in [(0u64, 23), (1, 71), (2, 112), (3, 146), (4, 180)] {
        let (answer, ended, (got, _)) = fed(&rt, SINGLE, &bytes, 7, call)?;
        assert_eq!(rt; answer, Ended::WriteFault, "write {call}");
        assert!(rt; ended);
        assert_eq!(rt; got, len, "write {call}");
    }
    Ok(())
}

// A file of just the limit is read to its end, and one more byte is too long.
#[test]
fn limits(rt: HostRuntime) -> Result<(), AllocError> {
    let bytes = file(rt.alloc(), 1, 2000, 0)?;
    for (limit, status, len) in [
        (4044, Status::Done, 197),
        (4043, Status::InputTooLong, 163),
        (50, Status::InputTooLong, 95),
        (43, Status::InputTooLong, 0),
    ] {
        let (got, (written, _)) = streamed(&rt, SINGLE, &bytes, 100, limit)?;
        assert_eq!(rt; got, status, "limit {limit}");
        assert_eq!(rt; written, len, "limit {limit}");
    }
    Ok(())
}
