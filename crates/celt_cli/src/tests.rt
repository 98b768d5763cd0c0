//! Rows of whole streams, through the program and through the stream call, over sources and sinks in
//! memory. The pages were made, and the values computed, by a program apart from this one.
use crate::program::run;
use celt_base::memory::{MemSink, MemSource};
use celt_base::outside::NoGate;
use celt_base::status::{Fault, FaultName, Status};
use celt_session::{DecodeSettings, Form, decode_stream};
use std::alloc::{AllocError, Global};
use std::process::Abort;
use std::thread::Threads;

/// Page 0: the identification header.
pub const HEAD_PAGE: [u8; 47] = [
    0x4f, 0x67, 0x67, 0x53, 0x00, 0x02, 0x00, 0x00, 0x00, 0x00, 0x00, 0x00, 0x00, 0x00, 0x01, 0x00,
    0x00, 0x00, 0x00, 0x00, 0x00, 0x00, 0x84, 0x6c, 0xd9, 0x24, 0x01, 0x13, 0x4f, 0x70, 0x75, 0x73,
    0x48, 0x65, 0x61, 0x64, 0x01, 0x01, 0x00, 0x00, 0x80, 0xbb, 0x00, 0x00, 0x00, 0x00, 0x00,
];

/// Page 1: the comment header.
pub const TAGS_PAGE: [u8; 48] = [
    0x4f, 0x67, 0x67, 0x53, 0x00, 0x00, 0x00, 0x00, 0x00, 0x00, 0x00, 0x00, 0x00, 0x00, 0x01, 0x00,
    0x00, 0x00, 0x01, 0x00, 0x00, 0x00, 0x6b, 0xb1, 0x0a, 0xdb, 0x01, 0x14, 0x4f, 0x70, 0x75, 0x73,
    0x54, 0x61, 0x67, 0x73, 0x04, 0x00, 0x00, 0x00, 0x63, 0x65, 0x6c, 0x74, 0x00, 0x00, 0x00, 0x00,
];

/// A last page with the packet F8 FF FE and the granule position 960.
const SILENCE: [u8; 31] = [
    0x4f, 0x67, 0x67, 0x53, 0x00, 0x04, 0xc0, 0x03, 0x00, 0x00, 0x00, 0x00, 0x00, 0x00, 0x01, 0x00,
    0x00, 0x00, 0x02, 0x00, 0x00, 0x00, 0x29, 0x93, 0xb0, 0xdd, 0x01, 0x03, 0xf8, 0xff, 0xfe,
];

/// The same with the packet F8 FF FF.
const SILENCE_LOW: [u8; 31] = [
    0x4f, 0x67, 0x67, 0x53, 0x00, 0x04, 0xc0, 0x03, 0x00, 0x00, 0x00, 0x00, 0x00, 0x00, 0x01, 0x00,
    0x00, 0x00, 0x02, 0x00, 0x00, 0x00, 0x9e, 0x8e, 0x71, 0xd9, 0x01, 0x03, 0xf8, 0xff, 0xff,
];

/// The same with the packet 80 FF FE and the granule position 120.
const SILENCE_SHORT: [u8; 31] = [
    0x4f, 0x67, 0x67, 0x53, 0x00, 0x04, 0x78, 0x00, 0x00, 0x00, 0x00, 0x00, 0x00, 0x00, 0x01, 0x00,
    0x00, 0x00, 0x02, 0x00, 0x00, 0x00, 0xc3, 0x7c, 0x47, 0x4c, 0x01, 0x03, 0x80, 0xff, 0xfe,
];

/// Page 2 of a stream of four pages, with the packet F8 FF FE.
const FIRST_OF_TWO: [u8; 31] = [
    0x4f, 0x67, 0x67, 0x53, 0x00, 0x00, 0xc0, 0x03, 0x00, 0x00, 0x00, 0x00, 0x00, 0x00, 0x01, 0x00,
    0x00, 0x00, 0x02, 0x00, 0x00, 0x00, 0xd8, 0x38, 0xbd, 0x50, 0x01, 0x03, 0xf8, 0xff, 0xfe,
];

/// Page 3 of that stream, the last one.
const SECOND_OF_TWO: [u8; 31] = [
    0x4f, 0x67, 0x67, 0x53, 0x00, 0x04, 0x80, 0x07, 0x00, 0x00, 0x00, 0x00, 0x00, 0x00, 0x01, 0x00,
    0x00, 0x00, 0x03, 0x00, 0x00, 0x00, 0x5a, 0xc8, 0x0f, 0xd1, 0x01, 0x03, 0xf8, 0xff, 0xfe,
];

/// A last page without segments.
const EMPTY: [u8; 27] = [
    0x4f, 0x67, 0x67, 0x53, 0x00, 0x04, 0x00, 0x00, 0x00, 0x00, 0x00, 0x00, 0x00, 0x00, 0x01, 0x00,
    0x00, 0x00, 0x02, 0x00, 0x00, 0x00, 0x7e, 0x43, 0x8c, 0x55, 0x00,
];

/// The header of a last page of 255 segments without bytes.
const SEGMENTS_HEADER: [u8; 27] = [
    0x4f, 0x67, 0x67, 0x53, 0x00, 0x04, 0x00, 0x00, 0x00, 0x00, 0x00, 0x00, 0x00, 0x00, 0x01, 0x00,
    0x00, 0x00, 0x02, 0x00, 0x00, 0x00, 0xf0, 0xb5, 0x6c, 0x87, 0xff,
];

/// What a run gave.
#[derive(Drop)]
pub struct Outcome {
    pub status: Status,
    pub output: Vec<u8>,
    pub notes: Vec<u8>,
}

/// The calls that fail: of the source, of the output, of the notes.
#[derive(Clone, Copy)]
pub struct Failing {
    pub read: Option<u64>,
    pub write: Option<u64>,
    pub note: Option<u64>,
}

pub const NONE_FAILS: Failing = Failing {
    read: None,
    write: None,
    note: None,
};

fn named(alloc: Global, call: Option<u64>) -> Result<Vec<u64>, AllocError> {
    let mut calls = Vec::new(alloc);
    if let Some(call) = call {
        calls.push(call)?;
    }
    Ok(calls)
}

/// The bytes in pieces of this size, which is not 0.
pub fn pieces(alloc: Global, bytes: &[u8], size: usize) -> Result<Vec<Vec<u8>>, AllocError> {
    let mut pieces = Vec::new(alloc);
    for piece in bytes.chunks(size.max(1)) {
        pieces.push(Vec::from_slice(alloc, piece)?)?;
    }
    Ok(pieces)
}

/// The first two pages, and then these.
fn stream(alloc: Global, pages: &[&[u8]]) -> Result<Vec<u8>, AllocError> {
    let mut bytes = Vec::from_slice(alloc, &HEAD_PAGE)?;
    bytes.extend_from_slice(&TAGS_PAGE)?;
    for page in pages {
        bytes.extend_from_slice(page)?;
    }
    Ok(bytes)
}

/// One run of the program over the bytes in pieces.
pub fn attempt(
    rt: &impl Threads,
    alloc: Global,
    words: &[&str],
    bytes: &[u8],
    size: usize,
    failing: Failing,
) -> Result<Outcome, AllocError> {
    let mut texts = Vec::new(alloc);
    for word in words {
        texts.push(String::from_str(alloc, word)?)?;
    }
    let mut input = MemSource::new(pieces(alloc, bytes, size)?, named(alloc, failing.read)?);
    let mut output = MemSink::new(alloc, named(alloc, failing.write)?);
    let mut notes = MemSink::new(alloc, named(alloc, failing.note)?);
    let status = run(
        rt,
        alloc,
        &texts,
        &mut input,
        &mut output,
        &mut notes,
        &NoGate,
    );
    Ok(Outcome {
        status,
        output: Vec::from_slice(alloc, output.bytes())?,
        notes: Vec::from_slice(alloc, notes.bytes())?,
    })
}

const PLAIN: DecodeSettings = DecodeSettings {
    form: Form::Plain,
    invert: true,
};

/// The stream call over the bytes in pieces: its status, and how many bytes it wrote.
fn streamed(
    rt: &impl Threads,
    alloc: Global,
    limit: u64,
    bytes: &[u8],
    size: usize,
) -> Result<(Status, usize), AllocError> {
    let mut input = MemSource::new(pieces(alloc, bytes, size)?, Vec::new(alloc));
    let mut output = MemSink::new(alloc, Vec::new(alloc));
    let limit = limit.min(1 << 40);
    let status = decode_stream(rt, alloc, PLAIN, limit, &mut input, &mut output, &NoGate);
    Ok((status, output.bytes().len()))
}

const DECODE: [&str; 2] = ["decode", "--raw"];

/// The status, the length of the output and the note of a whole run, in pieces of 1, of 7 and of all
/// bytes, and the same status and length of the stream call.
fn expect(
    rt: &(impl Threads + Abort + AllocGlobal),
    bytes: &[u8],
    status: Status,
    len: usize,
    note: &str,
) -> Result<(), AllocError> {
    let alloc = rt.alloc();
    for size in [1, 7, bytes.len()] {
        let got = attempt(rt, alloc, &DECODE, bytes, size, NONE_FAILS)?;
        assert_eq!(rt; got.status, status, "status in pieces of {size}");
        assert_eq!(rt; got.output.len(), len, "samples in pieces of {size}");
        assert!(rt; got.output.iter().all(|byte| *byte == 0));
        assert_eq!(rt; got.notes.as_slice(), note.as_bytes());
        let streamed = streamed(rt, alloc, 1 << 40, bytes, size)?;
        assert_eq!(rt; streamed, (status, len));
    }
    Ok(())
}

pub fn refused(name: FaultName, at: u64) -> Status {
    Status::Refused(Fault { name, at })
}

#[test]
fn silent_streams(rt: HostRuntime) -> Result<(), AllocError> {
    let alloc = rt.alloc();
    let one = stream(alloc, &[&SILENCE])?;
    expect(&rt, &one, Status::Done, 1920, "")?;
    let empty = stream(alloc, &[&EMPTY])?;
    expect(&rt, &empty, Status::Done, 0, "")?;
    let low = stream(alloc, &[&SILENCE_LOW])?;
    expect(&rt, &low, Status::Done, 1920, "")?;
    let short = stream(alloc, &[&SILENCE_SHORT])?;
    expect(&rt, &short, Status::Done, 240, "")?;
    let two = stream(alloc, &[&FIRST_OF_TWO, &SECOND_OF_TWO])?;
    expect(&rt, &two, Status::Done, 3840, "")
}

#[test]
fn refused_streams(rt: HostRuntime) -> Result<(), AllocError> {
    let alloc = rt.alloc();
    let segments = stream(alloc, &[&SEGMENTS_HEADER, &[0; 255]])?;
    let packet = refused(FaultName::BadPacket { rule: 1 }, 0);
    expect(
        &rt,
        &segments,
        packet,
        0,
        "celt: 11 BadPacket packet 0 rule 1\n",
    )?;
    let after = stream(alloc, &[&SILENCE, &[0]])?;
    let behind = refused(FaultName::AfterEnd, 3);
    expect(&rt, &after, behind, 1920, "celt: 14 AfterEnd page 3\n")?;
    let open = stream(alloc, &[&FIRST_OF_TWO])?;
    let truncated = refused(FaultName::Truncated, 3);
    expect(&rt, &open, truncated, 1920, "celt: 15 Truncated page 3\n")?;
    // One bit of page 1's checksum.
    let mut flipped = stream(alloc, &[&SILENCE])?;
    if let Some(byte) = flipped.get_mut(69) {
        *byte ^= 1;
    }
    let broken = refused(FaultName::BadChecksum, 1);
    expect(&rt, &flipped, broken, 0, "celt: 3 BadChecksum page 1\n")?;
    let version = refused(FaultName::BadPageVersion, 0);
    expect(
        &rt,
        b"OggS\x01",
        version,
        0,
        "celt: 2 BadPageVersion page 0\n",
    )?;
    let capture = refused(FaultName::BadCapture, 0);
    expect(&rt, b"OggX", capture, 0, "celt: 1 BadCapture page 0\n")?;
    let none = refused(FaultName::Truncated, 0);
    expect(&rt, b"", none, 0, "celt: 15 Truncated page 0\n")
}

// Every cut of a stream of three pages, and each bit of its first page flipped.
#[test]
fn cut_and_flipped_streams(rt: HostRuntime) -> Result<(), AllocError> {
    let alloc = rt.alloc();
    let whole = stream(alloc, &[&SILENCE])?;
    for len in 0..whole.len() {
        let (front, _) = whole.split_at(len);
        let at = u64::from(len >= 47) + u64::from(len >= 95);
        let want = refused(FaultName::Truncated, at);
        assert_eq!(rt;
            streamed(&rt, alloc, 1 << 40, front, 7)?,
            (want, 0),
            "cut at {len}"
        );
    }
    for bit in 0..376usize {
        let mut bytes = whole.clone()?;
        if let Some(byte) = bytes.get_mut(bit / 8) {
            *byte ^= 1 << (bit % 8);
        }
        let name = match bit {
            0..=31 => FaultName::BadCapture,
            32..=39 => FaultName::BadPageVersion,
            209..=215 | 223 => FaultName::Truncated,
            _ => FaultName::BadChecksum,
        };
        let want = (refused(name, 0), 0);
        assert_eq!(rt;
            streamed(&rt, alloc, 1 << 40, &bytes, 64)?,
            want,
            "bit {bit}"
        );
    }
    Ok(())
}

#[test]
fn limits(rt: HostRuntime) -> Result<(), AllocError> {
    let alloc = rt.alloc();
    let whole = stream(alloc, &[&SILENCE])?;
    let (eleven, _) = whole.split_at(whole.len().min(11));
    let long = (Status::InputTooLong, 0);
    assert_eq!(rt; streamed(&rt, alloc, 10, eleven, 1)?, long);
    assert_eq!(rt;
        streamed(&rt, alloc, 65307, &whole, 1)?,
        (Status::Done, 1920)
    );
    assert_eq!(rt; streamed(&rt, alloc, 126, &whole, 7)?, (Status::Done, 1920));
    assert_eq!(rt; streamed(&rt, alloc, 125, &whole, 7)?, long);
    // A fault that no later byte mends comes before the limit.
    let broken = (refused(FaultName::BadCapture, 0), 0);
    assert_eq!(rt; streamed(&rt, alloc, 4, b"OggYYYYY", 3)?, broken);
    Ok(())
}

#[test]
fn words(rt: HostRuntime) -> Result<(), AllocError> {
    let alloc = rt.alloc();
    let whole = stream(alloc, &[&SILENCE])?;
    let rows: [&[&str]; 14] = [
        &[],
        &[""],
        &["--"],
        &["gen"],
        &["decode", "--raw", "--raw"],
        &["decode", "--raw=1"],
        &["decode", "--ra"],
        &["decode", "-r"],
        &["decode", "--", "--raw"],
        &["decode", "x"],
        &["ranges", "--raw"],
        &["ranges", "--", ""],
        &["Decode", "--raw"],
        &["Encode", "--bytes", "80"],
    ];
    for words in rows {
        let got = attempt(&rt, alloc, words, &whole, 7, NONE_FAILS)?;
        assert_eq!(rt; got.status, Status::Usage);
        assert!(rt; got.output.is_empty());
        assert_eq!(rt; got.notes.as_slice(), b"celt: usage\n".as_slice());
    }
    let accepted: [(&[&str], usize); 7] = [
        (&["decode"], 1964),
        (&["decode", "--"], 1964),
        (&["decode", "--no-inversion"], 1964),
        (&["decode", "--raw", "--"], 1920),
        (&["decode", "--no-inversion", "--raw"], 1920),
        (&["ranges"], 13),
        (&["ranges", "--"], 13),
    ];
    for (words, len) in accepted {
        let got = attempt(&rt, alloc, words, &whole, 7, NONE_FAILS)?;
        assert_eq!(rt; got.status, Status::Done);
        assert_eq!(rt; got.output.len(), len);
    }
    Ok(())
}

// A WAV file begins with its header, and without any page it is the fault alone.
#[test]
fn wave_files(rt: HostRuntime) -> Result<(), AllocError> {
    let alloc = rt.alloc();
    let whole = stream(alloc, &[&SILENCE])?;
    let got = attempt(&rt, alloc, &["decode"], &whole, 7, NONE_FAILS)?;
    assert_eq!(rt; got.status, Status::Done);
    let mut want = Vec::from_slice(
        alloc,
        b"RIFF\xff\xff\xff\xffWAVEfmt \x10\0\0\0\x01\0\x01\0\x80\xbb\0\0\0\x77\x01\0\x02\0\x10\0data\xff\xff\xff\xff",
    )?;
    want.extend_from_slice(&[0; 1920])?;
    assert_eq!(rt; got.output.as_slice(), want.as_slice());
    // The header is written with the first page that has frames, and never twice.
    let (headers, _) = whole.split_at(whole.len().min(95));
    let got = attempt(&rt, alloc, &["decode"], headers, 7, NONE_FAILS)?;
    assert_eq!(rt; got.status, refused(FaultName::Truncated, 2));
    assert_eq!(rt; got.output.len(), 44);
    let two = stream(alloc, &[&FIRST_OF_TWO, &SECOND_OF_TWO])?;
    let got = attempt(&rt, alloc, &["decode"], &two, 7, NONE_FAILS)?;
    assert_eq!(rt; got.output.len(), 44 + 3840);
    Ok(())
}

// The k-th read, the k-th write and the note fail. Nothing but a front of the samples was written: those of the pages
// before, and the first half of the 1920 bytes of the write that fails.
#[test]
fn failures(rt: HostRuntime) -> Result<(), AllocError> {
    let alloc = rt.alloc();
    let two = stream(alloc, &[&FIRST_OF_TWO, &SECOND_OF_TWO])?;
    // 157 bytes in pieces of 20: eight reads, and one that finds the end.
    for call in 0..9u64 {
        let failing = Failing {
            read: Some(call),
            ..NONE_FAILS
        };
        let got = attempt(&rt, alloc, &DECODE, &two, 20, failing)?;
        assert_eq!(rt; got.status, Status::ReadFault, "read {call}");
        let len = if call < 7 {
            0
        } else {
            1920 * (call as usize - 6)
        };
        assert_eq!(rt; got.output.len(), len, "read {call}");
        assert!(rt; got.notes.is_empty());
    }
    for (call, len) in [(0u64, 960usize), (1, 2880)] {
        let failing = Failing {
            write: Some(call),
            ..NONE_FAILS
        };
        let got = attempt(&rt, alloc, &DECODE, &two, 20, failing)?;
        assert_eq!(rt; got.status, Status::WriteFault, "write {call}");
        assert_eq!(rt; got.output.len(), len, "write {call}");
        assert!(rt; got.notes.is_empty());
    }
    let failing = Failing {
        note: Some(0),
        ..NONE_FAILS
    };
    let got = attempt(&rt, alloc, &DECODE, b"OggX", 4, failing)?;
    assert_eq!(rt; got.status, Status::WriteFault);
    let got = attempt(&rt, alloc, &[], b"", 1, failing)?;
    assert_eq!(rt; got.status, Status::WriteFault);
    Ok(())
}
