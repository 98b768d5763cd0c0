//! Rows of encoded files, through the program and through the stream call. The pages were made by a program
//! apart from this one.
use crate::tests::{Failing, NONE_FAILS, attempt, pieces, refused};
use celt_base::memory::{MemSink, MemSource};
use celt_base::outside::NoGate;
use celt_base::status::{FaultName, Status};
use celt_session::{Settings, encode_stream};
use std::alloc::{AllocError, Global};
use std::process::Abort;
use std::thread::Threads;

/// Page 0 of one channel.
const MONO_HEAD: [u8; 47] = [
    0x4f, 0x67, 0x67, 0x53, 0x00, 0x02, 0x00, 0x00, 0x00, 0x00, 0x00, 0x00, 0x00, 0x00, 0x01, 0x00,
    0x00, 0x00, 0x00, 0x00, 0x00, 0x00, 0xa2, 0x2c, 0x40, 0xe3, 0x01, 0x13, 0x4f, 0x70, 0x75, 0x73,
    0x48, 0x65, 0x61, 0x64, 0x01, 0x01, 0x78, 0x00, 0x80, 0xbb, 0x00, 0x00, 0x00, 0x00, 0x00,
];

/// Page 0 of two channels.
const STEREO_HEAD: [u8; 47] = [
    0x4f, 0x67, 0x67, 0x53, 0x00, 0x02, 0x00, 0x00, 0x00, 0x00, 0x00, 0x00, 0x00, 0x00, 0x01, 0x00,
    0x00, 0x00, 0x00, 0x00, 0x00, 0x00, 0xbc, 0xd1, 0x30, 0x66, 0x01, 0x13, 0x4f, 0x70, 0x75, 0x73,
    0x48, 0x65, 0x61, 0x64, 0x01, 0x02, 0x78, 0x00, 0x80, 0xbb, 0x00, 0x00, 0x00, 0x00, 0x00,
];

/// Page 1.
const TAGS: [u8; 48] = [
    0x4f, 0x67, 0x67, 0x53, 0x00, 0x00, 0x00, 0x00, 0x00, 0x00, 0x00, 0x00, 0x00, 0x00, 0x01, 0x00,
    0x00, 0x00, 0x01, 0x00, 0x00, 0x00, 0x6b, 0xb1, 0x0a, 0xdb, 0x01, 0x14, 0x4f, 0x70, 0x75, 0x73,
    0x54, 0x61, 0x67, 0x73, 0x04, 0x00, 0x00, 0x00, 0x63, 0x65, 0x6c, 0x74, 0x00, 0x00, 0x00, 0x00,
];

/// The only audio page of no samples: the packet F8 FF FE 00 00 00, granule position 120.
const NO_SAMPLES: [u8; 34] = [
    0x4f, 0x67, 0x67, 0x53, 0x00, 0x04, 0x78, 0x00, 0x00, 0x00, 0x00, 0x00, 0x00, 0x00, 0x01, 0x00,
    0x00, 0x00, 0x02, 0x00, 0x00, 0x00, 0x2f, 0x8d, 0xb0, 0xbe, 0x01, 0x06, 0xf8, 0xff, 0xfe, 0x00,
    0x00, 0x00,
];

/// The same of frames of 120 samples and the narrow band: the packet 80 FF FE 00 00 00.
const SHORTEST: [u8; 34] = [
    0x4f, 0x67, 0x67, 0x53, 0x00, 0x04, 0x78, 0x00, 0x00, 0x00, 0x00, 0x00, 0x00, 0x00, 0x01, 0x00,
    0x00, 0x00, 0x02, 0x00, 0x00, 0x00, 0xb3, 0xb6, 0x76, 0x69, 0x01, 0x06, 0x80, 0xff, 0xfe, 0x00,
    0x00, 0x00,
];

/// The only audio page of two stereo groups: the packet FC FF FE, granule position 122.
const TWO_GROUPS: [u8; 31] = [
    0x4f, 0x67, 0x67, 0x53, 0x00, 0x04, 0x7a, 0x00, 0x00, 0x00, 0x00, 0x00, 0x00, 0x00, 0x01, 0x00,
    0x00, 0x00, 0x02, 0x00, 0x00, 0x00, 0x6a, 0x67, 0x8d, 0x8a, 0x01, 0x03, 0xfc, 0xff, 0xfe,
];

/// The only audio page of two mono samples: the packet F8 FF FE 00 00 00, granule position 122.
const TWO_SAMPLES: [u8; 34] = [
    0x4f, 0x67, 0x67, 0x53, 0x00, 0x04, 0x7a, 0x00, 0x00, 0x00, 0x00, 0x00, 0x00, 0x00, 0x01, 0x00,
    0x00, 0x00, 0x02, 0x00, 0x00, 0x00, 0x99, 0x73, 0x52, 0xbc, 0x01, 0x06, 0xf8, 0xff, 0xfe, 0x00,
    0x00, 0x00,
];

/// The first page of longer streams, granule position 960.
const FIRST: [u8; 34] = [
    0x4f, 0x67, 0x67, 0x53, 0x00, 0x00, 0xc0, 0x03, 0x00, 0x00, 0x00, 0x00, 0x00, 0x00, 0x01, 0x00,
    0x00, 0x00, 0x02, 0x00, 0x00, 0x00, 0xf0, 0x6a, 0x5b, 0x98, 0x01, 0x06, 0xf8, 0xff, 0xfe, 0x00,
    0x00, 0x00,
];

/// The second page, granule position 1920.
const SECOND: [u8; 34] = [
    0x4f, 0x67, 0x67, 0x53, 0x00, 0x00, 0x80, 0x07, 0x00, 0x00, 0x00, 0x00, 0x00, 0x00, 0x01, 0x00,
    0x00, 0x00, 0x03, 0x00, 0x00, 0x00, 0x37, 0x94, 0xd9, 0xbe, 0x01, 0x06, 0xf8, 0xff, 0xfe, 0x00,
    0x00, 0x00,
];

/// The last page of 2000 samples, granule position 2120.
const THIRD_OF_THREE: [u8; 34] = [
    0x4f, 0x67, 0x67, 0x53, 0x00, 0x04, 0x48, 0x08, 0x00, 0x00, 0x00, 0x00, 0x00, 0x00, 0x01, 0x00,
    0x00, 0x00, 0x04, 0x00, 0x00, 0x00, 0x19, 0x3f, 0xec, 0xcc, 0x01, 0x06, 0xf8, 0xff, 0xfe, 0x00,
    0x00, 0x00,
];

/// The last page of 2001 samples of which the last one is 256: the packet F8 7C DA EF 03 62, granule position 2121.
const SOUNDING: [u8; 34] = [
    0x4f, 0x67, 0x67, 0x53, 0x00, 0x04, 0x49, 0x08, 0x00, 0x00, 0x00, 0x00, 0x00, 0x00, 0x01, 0x00,
    0x00, 0x00, 0x04, 0x00, 0x00, 0x00, 0xba, 0x97, 0x68, 0xf0, 0x01, 0x06, 0xf8, 0x7c, 0xda, 0xef,
    0x03, 0x62,
];

/// Frames of 480 samples in the super-wide band, of two channels: the first page.
const HALF_FIRST: [u8; 32] = [
    0x4f, 0x67, 0x67, 0x53, 0x00, 0x00, 0xe0, 0x01, 0x00, 0x00, 0x00, 0x00, 0x00, 0x00, 0x01, 0x00,
    0x00, 0x00, 0x02, 0x00, 0x00, 0x00, 0x64, 0x57, 0x0a, 0xb5, 0x01, 0x04, 0xd4, 0xff, 0xfe, 0x00,
];

/// The last page of 500 groups.
const HALF_LAST: [u8; 32] = [
    0x4f, 0x67, 0x67, 0x53, 0x00, 0x04, 0x6c, 0x02, 0x00, 0x00, 0x00, 0x00, 0x00, 0x00, 0x01, 0x00,
    0x00, 0x00, 0x03, 0x00, 0x00, 0x00, 0xb3, 0xb7, 0x70, 0x8f, 0x01, 0x04, 0xd4, 0xff, 0xfe, 0x00,
];

/// Frames of 240 samples in the wide band, of two channels: the first page of 500 groups.
const QUARTER_FIRST: [u8; 32] = [
    0x4f, 0x67, 0x67, 0x53, 0x00, 0x00, 0xf0, 0x00, 0x00, 0x00, 0x00, 0x00, 0x00, 0x00, 0x01, 0x00,
    0x00, 0x00, 0x02, 0x00, 0x00, 0x00, 0x76, 0xf4, 0x36, 0x70, 0x01, 0x04, 0xac, 0xff, 0xfe, 0x00,
];

/// The second page.
const QUARTER_SECOND: [u8; 32] = [
    0x4f, 0x67, 0x67, 0x53, 0x00, 0x00, 0xe0, 0x01, 0x00, 0x00, 0x00, 0x00, 0x00, 0x00, 0x01, 0x00,
    0x00, 0x00, 0x03, 0x00, 0x00, 0x00, 0xa8, 0xfa, 0xf9, 0xc7, 0x01, 0x04, 0xac, 0xff, 0xfe, 0x00,
];

/// The last page.
const QUARTER_LAST: [u8; 32] = [
    0x4f, 0x67, 0x67, 0x53, 0x00, 0x04, 0x6c, 0x02, 0x00, 0x00, 0x00, 0x00, 0x00, 0x00, 0x01, 0x00,
    0x00, 0x00, 0x04, 0x00, 0x00, 0x00, 0x4e, 0xa1, 0x72, 0x69, 0x01, 0x04, 0xac, 0xff, 0xfe, 0x00,
];

/// What the program encodes with where five bytes a frame are asked for.
const FIVE: Settings = Settings {
    bytes: 5,
    frame: 960,
    band: 3,
    group: 1,
};

pub const ENCODE_FIVE: [&str; 3] = ["encode", "--bytes", "5"];

/// The largest number, which stands for a size that is not known.
const NO_SIZE: u32 = u32::MAX;

/// The header of a file of 16 bits at 48 kHz, and so many samples of 0.
fn file(alloc: Global, channels: u8, size: u32, zeros: usize) -> Result<Vec<u8>, AllocError> {
    let mut bytes = Vec::from_slice(alloc, b"RIFF\xff\xff\xff\xffWAVEfmt \x10\0\0\0\x01\0")?;
    bytes.extend_from_slice(&[
        channels,
        0,
        0x80,
        0xbb,
        0,
        0,
        0,
        0,
        0,
        0,
        2 * channels.min(2),
        0,
        16,
        0,
    ])?;
    bytes.extend_from_slice(b"data")?;
    bytes.extend_from_slice(&size.to_le_bytes())?;
    for _ in 0..zeros {
        bytes.extend_from_slice(&[0, 0])?;
    }
    Ok(bytes)
}

/// The first two pages of a stream, and then these.
fn joined(alloc: Global, head: &[u8], pages: &[&[u8]]) -> Result<Vec<u8>, AllocError> {
    let mut bytes = Vec::from_slice(alloc, head)?;
    bytes.extend_from_slice(&TAGS)?;
    for page in pages {
        bytes.extend_from_slice(page)?;
    }
    Ok(bytes)
}

/// The stream call over the bytes in pieces, with five bytes a frame: its status, and what it wrote.
fn streamed(
    rt: &impl Threads,
    alloc: Global,
    limit: u64,
    bytes: &[u8],
    size: usize,
) -> Result<(Status, Vec<u8>), AllocError> {
    let mut input = MemSource::new(pieces(alloc, bytes, size)?, Vec::new(alloc));
    let mut output = MemSink::new(alloc, Vec::new(alloc));
    let limit = limit.min(1 << 40);
    let status = encode_stream(rt, alloc, FIVE, limit, &mut input, &mut output, &NoGate);
    Ok((status, Vec::from_slice(alloc, output.bytes())?))
}

/// What a file gives.
#[derive(Drop)]
struct Row<'a> {
    words: &'a [&'a str],
    status: Status,
    output: &'a [u8],
    note: &'a str,
}

/// A row through the program, in pieces of 1, of 7 and of all bytes.
fn expect(
    rt: &(impl Threads + Abort + AllocGlobal),
    bytes: &[u8],
    row: &Row,
) -> Result<(), AllocError> {
    let alloc = rt.alloc();
    for size in [1, 7, bytes.len()] {
        let got = attempt(rt, alloc, row.words, bytes, size, NONE_FAILS)?;
        assert_eq!(rt; got.status, row.status, "status in pieces of {size}");
        assert_eq!(rt;
            got.output.as_slice(),
            row.output,
            "stream in pieces of {size}"
        );
        assert_eq!(rt; got.notes.as_slice(), row.note.as_bytes());
    }
    Ok(())
}

/// A file with five bytes a frame, through the stream call too.
fn expect_five(
    rt: &(impl Threads + Abort + AllocGlobal),
    bytes: &[u8],
    status: Status,
    output: &[u8],
    note: &str,
) -> Result<(), AllocError> {
    let row = Row {
        words: &ENCODE_FIVE,
        status,
        output,
        note,
    };
    let (given, written) = streamed(rt, rt.alloc(), 1 << 40, bytes, 7)?;
    assert_eq!(rt; given, status);
    assert_eq!(rt; written.as_slice(), output);
    expect(rt, bytes, &row)
}

#[test]
fn silent_files(rt: HostRuntime) -> Result<(), AllocError> {
    let alloc = rt.alloc();
    // No samples, of a known size and of none.
    let stream = joined(alloc, &MONO_HEAD, &[&NO_SAMPLES])?;
    expect_five(&rt, &file(alloc, 1, 0, 0)?, Status::Done, &stream, "")?;
    expect_five(&rt, &file(alloc, 1, NO_SIZE, 0)?, Status::Done, &stream, "")?;
    let stream = joined(alloc, &MONO_HEAD, &[&FIRST, &SECOND, &THIRD_OF_THREE])?;
    expect_five(&rt, &file(alloc, 1, 4000, 2000)?, Status::Done, &stream, "")?;
    // A chunk of odd size before the samples, and bytes behind them.
    let mut chunks = Vec::from_slice(alloc, b"RIFF\0\0\0\0WAVELIST\x05\0\0\0abcde\0")?;
    let plain = file(alloc, 1, 4, 2)?;
    let (_, format) = plain.split_at(plain.len().min(12));
    chunks.extend_from_slice(format)?;
    chunks.extend_from_slice(b"\x01\x02behind")?;
    let stream = joined(alloc, &MONO_HEAD, &[&TWO_SAMPLES])?;
    expect_five(&rt, &chunks, Status::Done, &stream, "")
}

#[test]
fn stereo_files(rt: HostRuntime) -> Result<(), AllocError> {
    let alloc = rt.alloc();
    let stream = joined(alloc, &STEREO_HEAD, &[&TWO_GROUPS])?;
    let row = Row {
        words: &["encode", "--bytes", "2"],
        status: Status::Done,
        output: &stream,
        note: "",
    };
    expect(&rt, &file(alloc, 2, 8, 4)?, &row)
}

#[test]
fn other_settings(rt: HostRuntime) -> Result<(), AllocError> {
    let alloc = rt.alloc();
    let stream = joined(alloc, &MONO_HEAD, &[&SHORTEST])?;
    let shortest = Row {
        words: &[
            "encode", "--band", "nb", "--frame", "120", "--bytes", "5", "--",
        ],
        status: Status::Done,
        output: &stream,
        note: "",
    };
    expect(&rt, &file(alloc, 1, 0, 0)?, &shortest)?;
    let groups = file(alloc, 2, 2000, 1000)?;
    let stream = joined(alloc, &STEREO_HEAD, &[&HALF_FIRST, &HALF_LAST])?;
    let half = Row {
        words: &["encode", "--bytes=3", "--frame=480", "--band=swb"],
        status: Status::Done,
        output: &stream,
        note: "",
    };
    expect(&rt, &groups, &half)?;
    let pages: [&[u8]; 3] = [&QUARTER_FIRST, &QUARTER_SECOND, &QUARTER_LAST];
    let stream = joined(alloc, &STEREO_HEAD, &pages)?;
    let quarter = Row {
        words: &["encode", "--frame", "240", "--bytes", "3", "--band", "wb"],
        status: Status::Done,
        output: &stream,
        note: "",
    };
    expect(&rt, &groups, &quarter)
}

// The last of 2001 samples is 256, and all before it are 0.
#[test]
fn last_sample_sounds(rt: HostRuntime) -> Result<(), AllocError> {
    let alloc = rt.alloc();
    let mut late = file(alloc, 1, NO_SIZE, 2000)?;
    late.extend_from_slice(&[0, 1])?;
    let pages = joined(alloc, &MONO_HEAD, &[&FIRST, &SECOND, &SOUNDING])?;
    expect_five(&rt, &late, Status::Done, &pages, "")
}

#[test]
fn refused_files(rt: HostRuntime) -> Result<(), AllocError> {
    let alloc = rt.alloc();
    let headers = joined(alloc, &MONO_HEAD, &[])?;
    let two_pages = joined(alloc, &MONO_HEAD, &[&FIRST, &SECOND])?;
    // Sample 5 is 1, and the file ends within a group.
    let mut early = file(alloc, 1, NO_SIZE, 5)?;
    early.extend_from_slice(&[1, 0, 7])?;
    let status = refused(FaultName::DataTruncated, 57);
    expect_five(
        &rt,
        &early,
        status,
        &headers,
        "celt: 23 DataTruncated byte 57\n",
    )?;
    // The declared size is not reached.
    let short = file(alloc, 1, 4002, 2000)?;
    let status = refused(FaultName::DataTruncated, 4044);
    expect_five(
        &rt,
        &short,
        status,
        &two_pages,
        "celt: 23 DataTruncated byte 4044\n",
    )?;
    let status = refused(FaultName::DataTruncated, 0);
    expect_five(&rt, b"", status, b"", "celt: 23 DataTruncated byte 0\n")?;
    let status = refused(FaultName::NoData, 12);
    expect_five(
        &rt,
        b"RIFF\0\0\0\0WAVE",
        status,
        b"",
        "celt: 22 NoData byte 12\n",
    )?;
    let status = refused(FaultName::BadRiff, 8);
    expect_five(
        &rt,
        b"RIFF\0\0\0\0WAVY",
        status,
        b"",
        "celt: 20 BadRiff byte 8\n",
    )
}

#[test]
fn other_rates(rt: HostRuntime) -> Result<(), AllocError> {
    let alloc = rt.alloc();
    let mut bytes = file(alloc, 2, NO_SIZE, 4)?;
    if let Some(byte) = bytes.get_mut(24) {
        *byte = 0x44;
    }
    if let Some(byte) = bytes.get_mut(25) {
        *byte = 0xac;
    }
    let name = FaultName::UnsupportedFormat {
        codec: 1,
        bits: 16,
        channels: 2,
        rate: 44_100,
    };
    let note = "celt: 21 UnsupportedFormat byte 12 codec 1 bits 16 channels 2 rate 44100\n";
    expect_five(&rt, &bytes, refused(name, 12), b"", note)
}

// The limit cuts the samples, and a fault that no later byte mends comes before it.
#[test]
fn limits(rt: HostRuntime) -> Result<(), AllocError> {
    let alloc = rt.alloc();
    let bytes = file(alloc, 1, 4000, 2000)?;
    let whole = joined(alloc, &MONO_HEAD, &[&FIRST, &SECOND, &THIRD_OF_THREE])?;
    let two = joined(alloc, &MONO_HEAD, &[&FIRST, &SECOND])?;
    let one = joined(alloc, &MONO_HEAD, &[&FIRST])?;
    let rows: [(u64, Status, &[u8]); 4] = [
        (4044, Status::Done, &whole),
        (4043, Status::InputTooLong, &two),
        (44 + 2 * 1919, Status::InputTooLong, &one),
        (43, Status::InputTooLong, b""),
    ];
    for (limit, want, output) in rows {
        let got = streamed(&rt, alloc, limit, &bytes, 7)?;
        assert_eq!(rt; got.0, want, "limit {limit}");
        assert_eq!(rt; got.1.as_slice(), output, "limit {limit}");
    }
    let broken = streamed(&rt, alloc, 4, b"RIFYYYYY", 3)?;
    assert_eq!(rt; broken.0, refused(FaultName::BadRiff, 0));
    Ok(())
}

#[test]
fn words_of_encode(rt: HostRuntime) -> Result<(), AllocError> {
    let alloc = rt.alloc();
    let bytes = file(alloc, 1, 0, 0)?;
    let refused: [&[&str]; 25] = [
        &["encode"],
        &["encode", "--bytes"],
        &["encode", "--bytes", "1"],
        &["encode", "--bytes", "1276"],
        &["encode", "--bytes", ""],
        &["encode", "--bytes", "+5"],
        &["encode", "--bytes", "5x"],
        &["encode", "--bytes", "00000000005"],
        &["encode", "--bytes", "9999999999"],
        &["encode", "--bytes", "-5"],
        &["encode", "--bytes="],
        &["encode", "--frame", "120"],
        &["encode", "--bytes", "80", "--bytes", "80"],
        &["encode", "--bytes", "80", "--frame", "100"],
        &["encode", "--bytes", "80", "--band", "mb"],
        &["encode", "--bytes", "80", "--group"],
        &["encode", "--bytes", "80", "--group", "0"],
        &["encode", "--bytes", "80", "--group", "7"],
        &["encode", "--bytes", "80", "--group", "49", "--frame=120"],
        &["encode", "--bytes", "80", "--group", "13", "--frame=480"],
        &["encode", "--group", "1", "--bytes", "80", "--group", "1"],
        &["encode", "--group", "2"],
        &["encode", "--bytes", "80", "--", "x"],
        &["encode", "--byte", "80"],
        &["decode", "--bytes", "80"],
    ];
    for words in refused {
        let got = attempt(&rt, alloc, words, &bytes, 7, NONE_FAILS)?;
        assert_eq!(rt; got.status, Status::Usage);
        assert!(rt; got.output.is_empty());
        assert_eq!(rt; got.notes.as_slice(), b"celt: usage\n".as_slice());
    }
    let accepted: [(&[&str], usize); 6] = [
        (&["encode", "--bytes", "2"], 2),
        (&["encode", "--bytes", "2", "--group=0000000001"], 2),
        (&["encode", "--bytes", "0000000005"], 5),
        (&["encode", "--bytes", "1275"], 1275),
        (&["encode", "--bytes=80"], 80),
        (&["encode", "--band", "fb", "--bytes", "80", "--"], 80),
    ];
    for (words, len) in accepted {
        let got = attempt(&rt, alloc, words, &bytes, 7, NONE_FAILS)?;
        assert_eq!(rt; got.status, Status::Done);
        // Two pages of headers, a page's header, its lacing values, and the packet.
        assert_eq!(rt; got.output.len(), 95 + 27 + (len + 1) / 255 + 1 + len + 1);
    }
    Ok(())
}

// Packets of more than one frame are accepted. The first read fails, and nothing is written.
#[test]
fn groups(rt: HostRuntime) -> Result<(), AllocError> {
    let alloc = rt.alloc();
    let accepted: [&[&str]; 3] = [
        &["encode", "--bytes", "80", "--group", "6"],
        &["encode", "--frame=120", "--group=48", "--bytes=2"],
        &["encode", "--frame=240", "--bytes=2", "--group=24", "--"],
    ];
    for words in accepted {
        let read = Failing {
            read: Some(0),
            ..NONE_FAILS
        };
        let got = attempt(&rt, alloc, words, b"RIFF", 1, read)?;
        assert_eq!(rt; got.status, Status::ReadFault);
        assert!(rt; got.output.is_empty());
        assert!(rt; got.notes.is_empty());
    }
    Ok(())
}

// A read, each write and the note fail. What was written is a front of the stream: the pages before the write that fails,
// and the first half of its page. The pages have 47, 48, 34, 34 and 34 bytes.
#[test]
fn failures_of_encode(rt: HostRuntime) -> Result<(), AllocError> {
    let alloc = rt.alloc();
    let bytes = file(alloc, 1, 4000, 2000)?;
    let whole = joined(alloc, &MONO_HEAD, &[&FIRST, &SECOND, &THIRD_OF_THREE])?;
    let read = Failing {
        read: Some(1),
        ..NONE_FAILS
    };
    let got = attempt(&rt, alloc, &ENCODE_FIVE, &bytes, 1000, read)?;
    assert_eq!(rt; got.status, Status::ReadFault);
    // The first piece has the header, and too few samples for a page.
    let (headers, _) = whole.split_at(whole.len().min(95));
    assert_eq!(rt; got.output.as_slice(), headers);
    assert!(rt; got.notes.is_empty());
    for (call, len) in [(0u64, 23usize), (1, 71), (2, 112), (3, 146), (4, 180)] {
        let write = Failing {
            write: Some(call),
            ..NONE_FAILS
        };
        let got = attempt(&rt, alloc, &ENCODE_FIVE, &bytes, 1000, write)?;
        assert_eq!(rt; got.status, Status::WriteFault, "write {call}");
        let (front, _) = whole.split_at(whole.len().min(len));
        assert_eq!(rt; got.output.as_slice(), front, "write {call}");
        assert!(rt; got.notes.is_empty());
    }
    let note = Failing {
        note: Some(0),
        ..NONE_FAILS
    };
    let got = attempt(&rt, alloc, &ENCODE_FIVE, b"", 1, note)?;
    assert_eq!(rt; got.status, Status::WriteFault);
    Ok(())
}
