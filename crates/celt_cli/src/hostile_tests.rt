//! Decoding and encoding where everything around them fails: reads, writes and notes that fail, inputs that are cut, and
//! packets of noise.
//! The pages were made, and the values computed, by a program apart from this one.
ghost use Rattle.std.specs.Prelude.{◌≤◌, length, Some};
ghost use Rattle.celt_base.specs.MemorySides.{held_of, sink_faults};

use crate::encoding_tests::ENCODE_FIVE;
use crate::music_tests::sum;
use crate::program::run;
use crate::tests::{Failing, HEAD_PAGE, NONE_FAILS, Outcome, TAGS_PAGE, attempt, pieces, refused};
use celt_base::memory::{MemSink, MemSource};
use celt_base::outside::{Failed, NoGate, Sink};
use celt_base::status::{Fault, FaultName, Status};
use celt_session::{DecodeSession, DecodeSettings, Fed, Form};
use std::alloc::{AllocError, Global};
use std::process::Abort;
use std::thread::Threads;

/// A stream of 2000 samples of silence, in one channel and three frames of five bytes.
const SILENT: [u8; 197] = [
    0x4f, 0x67, 0x67, 0x53, 0x00, 0x02, 0x00, 0x00, 0x00, 0x00, 0x00, 0x00, 0x00, 0x00, 0x01, 0x00,
    0x00, 0x00, 0x00, 0x00, 0x00, 0x00, 0xa2, 0x2c, 0x40, 0xe3, 0x01, 0x13, 0x4f, 0x70, 0x75, 0x73,
    0x48, 0x65, 0x61, 0x64, 0x01, 0x01, 0x78, 0x00, 0x80, 0xbb, 0x00, 0x00, 0x00, 0x00, 0x00, 0x4f,
    0x67, 0x67, 0x53, 0x00, 0x00, 0x00, 0x00, 0x00, 0x00, 0x00, 0x00, 0x00, 0x00, 0x01, 0x00, 0x00,
    0x00, 0x01, 0x00, 0x00, 0x00, 0x6b, 0xb1, 0x0a, 0xdb, 0x01, 0x14, 0x4f, 0x70, 0x75, 0x73, 0x54,
    0x61, 0x67, 0x73, 0x04, 0x00, 0x00, 0x00, 0x63, 0x65, 0x6c, 0x74, 0x00, 0x00, 0x00, 0x00, 0x4f,
    0x67, 0x67, 0x53, 0x00, 0x00, 0xc0, 0x03, 0x00, 0x00, 0x00, 0x00, 0x00, 0x00, 0x01, 0x00, 0x00,
    0x00, 0x02, 0x00, 0x00, 0x00, 0xf0, 0x6a, 0x5b, 0x98, 0x01, 0x06, 0xf8, 0xff, 0xfe, 0x00, 0x00,
    0x00, 0x4f, 0x67, 0x67, 0x53, 0x00, 0x00, 0x80, 0x07, 0x00, 0x00, 0x00, 0x00, 0x00, 0x00, 0x01,
    0x00, 0x00, 0x00, 0x03, 0x00, 0x00, 0x00, 0x37, 0x94, 0xd9, 0xbe, 0x01, 0x06, 0xf8, 0xff, 0xfe,
    0x00, 0x00, 0x00, 0x4f, 0x67, 0x67, 0x53, 0x00, 0x04, 0x48, 0x08, 0x00, 0x00, 0x00, 0x00, 0x00,
    0x00, 0x01, 0x00, 0x00, 0x00, 0x04, 0x00, 0x00, 0x00, 0x19, 0x3f, 0xec, 0xcc, 0x01, 0x06, 0xf8,
    0xff, 0xfe, 0x00, 0x00, 0x00,
];

/// The ends of its pages.
const ENDS: [usize; 5] = [47, 95, 129, 163, 197];

/// The header of a WAV file of one channel, of a length that is not known.
const HEADER: &[u8] =
    b"RIFF\xff\xff\xff\xffWAVEfmt \x10\0\0\0\x01\0\x01\0\x80\xbb\0\0\0\x77\x01\0\x02\0\x10\0data\xff\xff\xff\xff";

const LINES: &[u8] = b"0 5 01000000\n1 5 01000000\n2 5 01000000\n";

/// A way of decoding that stream: the words, what the output begins with, how many bytes of 0 follow, and how much of it is
/// written once so many pages are whole.
#[derive(Clone, Copy)]
struct Way {
    words: &'static [&'static str],
    head: &'static [u8],
    zeros: usize,
    written: [usize; 6],
}

const WAYS: [Way; 3] = [
    Way {
        words: &["decode"],
        head: HEADER,
        zeros: 4000,
        written: [0, 44, 44, 1724, 3644, 4044],
    },
    Way {
        words: &["decode", "--raw"],
        head: b"",
        zeros: 4000,
        written: [0, 0, 0, 1680, 3600, 4000],
    },
    Way {
        words: &["ranges"],
        head: LINES,
        zeros: 0,
        written: [0, 0, 0, 13, 26, 39],
    },
];

/// The whole output.
fn whole_output(alloc: Global, way: &Way) -> Result<Vec<u8>, AllocError> {
    let mut bytes = Vec::from_slice(alloc, way.head)?;
    for _ in 0..way.zeros {
        bytes.push(0)?;
    }
    Ok(bytes)
}

/// How many pages are whole in so many bytes.
fn whole_pages(len: usize) -> usize {
    ENDS.iter().filter(|end| **end <= len).count()
}

/// What is written once so many bytes were read.
fn written_of(way: &Way, len: usize) -> usize {
    way.written.get(whole_pages(len)).copied().unwrap_or(0)
}

/// Whether the bytes are just so many of the whole ones.
fn is_front(bytes: &[u8], len: usize, whole: &[u8]) -> bool {
    bytes.len() == len && whole.starts_with(bytes)
}

fn failing_read(call: u64) -> Failing {
    Failing {
        read: Some(call),
        ..NONE_FAILS
    }
}

fn failing_note() -> Failing {
    Failing {
        note: Some(0),
        ..NONE_FAILS
    }
}

// Each read fails in turn: those that give a piece, and the one that finds the end.
#[test]
fn failing_reads(rt: HostRuntime) -> Result<(), AllocError> {
    let alloc = rt.alloc();
    for way in WAYS {
        let whole = whole_output(alloc, &way)?;
        for (size, reads) in [(1usize, 197usize), (7, 29), (20, 10), (197, 1)] {
            for call in 0..=reads {
                let failing = failing_read(call as u64);
                let got = attempt(&rt, alloc, way.words, &SILENT, size, failing)?;
                let len = written_of(&way, call.wrapping_mul(size).min(SILENT.len()));
                assert_eq!(rt; got.status, Status::ReadFault, "read {call}");
                assert!(rt; is_front(&got.output, len, &whole), "read {call}");
                assert!(rt; got.notes.is_empty());
            }
            let behind = failing_read(reads.wrapping_add(1) as u64);
            let got = attempt(&rt, alloc, way.words, &SILENT, size, behind)?;
            assert_eq!(rt; got.status, Status::Done);
            assert!(rt; is_front(&got.output, whole.len(), &whole));
        }
    }
    Ok(())
}

/// A sink that counts the writes behind one that failed.
#[derive(Drop)]
struct Watched {
    sink: MemSink,
    failed: bool,
    later: u64,
}

impl Sink for Watched {
    ghost held = { λ s. Some (held_of s.sink) };

    ghost faults = { λ s. sink_faults s.sink };

    fn write_all(&mut self, bytes: &[u8]) -> Result<(), Failed> {
        if self.failed {
            self.later = self.later.saturating_add(1);
        }
        match self.sink.write_all(bytes) {
            Ok(()) => Ok(()),
            Err(failed) => {
                self.failed = true;
                Err(failed)
            }
        }
    }
}

/// One run whose write with this number fails: what it gave, and how many writes came behind that one.
fn run_watched(
    rt: &impl Threads,
    alloc: Global,
    word: &[&str],
    call: u64,
) -> Result<(Outcome, u64), AllocError> {
    let mut words = Vec::new(alloc);
    for word in word {
        words.push(String::from_str(alloc, word)?)?;
    }
    let mut names = Vec::new(alloc);
    names.push(call)?;
    let mut input = MemSource::new(pieces(alloc, &SILENT, 20)?, Vec::new(alloc));
    let mut notes = MemSink::new(alloc, Vec::new(alloc));
    let mut output = Watched {
        sink: MemSink::new(alloc, names),
        failed: false,
        later: 0,
    };
    let status = run(
        rt,
        alloc,
        &words,
        &mut input,
        &mut output,
        &mut notes,
        &NoGate,
    );
    let got = Outcome {
        status,
        output: Vec::from_slice(alloc, output.sink.bytes())?,
        notes: Vec::from_slice(alloc, notes.bytes())?,
    };
    Ok((got, output.later))
}

// Each write fails in turn, and none comes behind it. A write that fails has written the first half of its bytes.
#[test]
fn failing_writes(rt: HostRuntime) -> Result<(), AllocError> {
    let alloc = rt.alloc();
    for (way, halves) in WAYS.iter().zip([
        [22usize, 884, 2684, 3844],
        [840, 2640, 3800, 4000],
        [6, 19, 32, 39],
    ]) {
        let whole = whole_output(alloc, way)?;
        for (call, half) in halves.iter().enumerate() {
            let (got, later) = run_watched(&rt, alloc, way.words, call as u64)?;
            let is_done = *half == whole.len();
            let want = if is_done {
                Status::Done
            } else {
                Status::WriteFault
            };
            assert_eq!(rt; got.status, want, "write {call}");
            assert!(rt; is_front(&got.output, *half, &whole), "write {call}");
            assert!(rt; got.notes.is_empty());
            assert_eq!(rt; later, 0);
        }
    }
    Ok(())
}

/// What a session answers to so many bytes: the answer, whether it has ended, and how many bytes it wrote.
fn fed(
    rt: &impl Threads,
    alloc: Global,
    bytes: &[u8],
    call: u64,
) -> Result<(Fed, bool, usize), AllocError>
    requires { length bytes.now ≤ 197 }
{
    let mut names = Vec::new(alloc);
    names.push(call)?;
    let mut output = MemSink::new(alloc, names);
    let settings = DecodeSettings {
        form: Form::Plain,
        invert: true,
    };
    let Ok(mut session) = DecodeSession::new(alloc, settings) else {
        return Err(AllocError);
    };
    let answer = session.feed(rt, bytes, &mut output, &NoGate);
    Ok((answer, session.ended(), output.bytes().len()))
}

// A write that fails and a fault end a session, a piece that leaves the stream open does not. The number is that of the
// write that fails.
#[test]
fn ended_sessions(rt: HostRuntime) -> Result<(), AllocError> {
    let alloc = rt.alloc();
    let (cut, _) = SILENT.split_at(150);
    let broken = Fault {
        name: FaultName::BadCapture,
        at: 0,
    };
    let rows: [(&[u8], u64, Fed, bool, usize); 6] = [
        (&SILENT, 0, Fed::WriteFault, true, 840),
        (&SILENT, 1, Fed::WriteFault, true, 2640),
        (&SILENT, 2, Fed::WriteFault, true, 3800),
        (&SILENT, 3, Fed::More, false, 4000),
        (cut, 3, Fed::More, false, 1680),
        (b"OggX", 3, Fed::Fault(broken), true, 0),
    ];
    for (bytes, call, answer, ended, len) in rows {
        if bytes.len() <= 197 {
            assert_eq!(rt; fed(&rt, alloc, bytes, call)?, (answer, ended, len));
        }
    }
    Ok(())
}

// The line that names the page which is cut or missing.
fn truncated_line(page: usize) -> &'static str {
    match page {
        0 => "celt: 15 Truncated page 0\n",
        1 => "celt: 15 Truncated page 1\n",
        2 => "celt: 15 Truncated page 2\n",
        3 => "celt: 15 Truncated page 3\n",
        _ => "celt: 15 Truncated page 4\n",
    }
}

// The input is cut after each of its bytes but the last.
#[test]
fn cut_inputs(rt: HostRuntime) -> Result<(), AllocError> {
    let alloc = rt.alloc();
    for way in WAYS {
        let whole = whole_output(alloc, &way)?;
        for len in 0..SILENT.len() {
            let (front, _) = SILENT.split_at(len);
            let got = attempt(&rt, alloc, way.words, front, 7, NONE_FAILS)?;
            let page = whole_pages(len);
            assert_eq!(rt;
                got.status,
                refused(FaultName::Truncated, page as u64),
                "cut at {len}"
            );
            let written = written_of(&way, len);
            assert!(rt; is_front(&got.output, written, &whole), "cut at {len}");
            assert_eq!(rt; got.notes.as_slice(), truncated_line(page).as_bytes());
        }
    }
    Ok(())
}

/// The file of that stream: one channel of 2000 samples of 0, whose length the header says.
fn silent_file(alloc: Global) -> Result<Vec<u8>, AllocError> {
    let mut bytes = Vec::from_slice(alloc, b"RIFF\xff\xff\xff\xffWAVEfmt \x10\0\0\0\x01\0\x01\0")?;
    bytes.extend_from_slice(b"\x80\xbb\0\0\0\x77\x01\0\x02\0\x10\0data\xa0\x0f\0\0")?;
    bytes.extend_from_slice(&[0; 4000])?;
    Ok(bytes)
}

/// Why that file is refused: it ends before its samples, or before a chunk or within it.
fn cut_name(len: usize) -> (FaultName, &'static str) {
    match len {
        12 | 36 => (FaultName::NoData, "22 NoData"),
        _ => (FaultName::DataTruncated, "23 DataTruncated"),
    }
}

/// Cuts that file after each number of bytes from the first to the last: that many bytes of the stream are written.
fn expect_cuts(
    rt: &(impl Threads + Abort + AllocGlobal),
    first: usize,
    last: usize,
    written: usize,
) -> Result<(), AllocError> {
    let alloc = rt.alloc();
    let file = silent_file(alloc)?;
    for len in first..=last {
        let (front, _) = file.split_at(len.min(file.len()));
        let got = attempt(rt, alloc, &ENCODE_FIVE, front, 1021, NONE_FAILS)?;
        let (name, text) = cut_name(len);
        let note = format!(in alloc; "celt: {text} byte {len}\n")?;
        assert_eq!(rt; got.status, refused(name, len as u64), "cut at {len}");
        assert!(rt; is_front(&got.output, written, &SILENT), "cut at {len}");
        assert_eq!(rt; got.notes.as_slice(), note.as_bytes());
    }
    Ok(())
}

// The file is cut after each of its bytes but the last. Within its header it gives nothing.
#[test]
fn files_cut_in_the_header(rt: HostRuntime) -> Result<(), AllocError> {
    expect_cuts(&rt, 0, 43, 0)
}

// With the header come two pages of headers, and each 960 samples give a page.
#[test]
fn files_cut_in_the_first_frame(rt: HostRuntime) -> Result<(), AllocError> {
    expect_cuts(&rt, 44, 1963, 95)
}

#[test]
fn files_cut_in_the_second_frame(rt: HostRuntime) -> Result<(), AllocError> {
    expect_cuts(&rt, 1964, 3883, 129)
}

#[test]
fn files_cut_in_the_third_frame(rt: HostRuntime) -> Result<(), AllocError> {
    expect_cuts(&rt, 3884, 4043, 163)
}

// The first write to the notes fails: half of the line is there, and the output is as it would be.
#[test]
fn failing_notes(rt: HostRuntime) -> Result<(), AllocError> {
    let alloc = rt.alloc();
    let (cut, _) = SILENT.split_at(150);
    let rows: [(&[&str], &[u8], usize, &[u8]); 6] = [
        (&["decode", "x"], b"", 0, b"celt: "),
        (&["decode", "x"], &SILENT, 0, b"celt: "),
        (&[], b"", 0, b"celt: "),
        (&["decode"], cut, 1724, b"celt: 15 Trun"),
        (&["ranges"], cut, 13, b"celt: 15 Trun"),
        (&["ranges"], b"OggX", 0, b"celt: 1 BadCa"),
    ];
    for (words, bytes, len, note) in rows {
        let got = attempt(&rt, alloc, words, bytes, 7, failing_note())?;
        assert_eq!(rt; got.status, Status::WriteFault);
        assert_eq!(rt; got.output.len(), len);
        assert_eq!(rt; got.notes.as_slice(), note);
    }
    Ok(())
}

/// The numbers of samples of the sizes of frames.
const SIZES: [u64; 4] = [120, 240, 480, 960];

/// A packet of noise: a frame of this size and one of the four bandwidths, of one channel or two.
fn noise_packet(k: u8) -> [u8; 101] {
    let mut packet = [0; 101];
    let mut seed = u32::from(k);
    for byte in packet.iter_mut() {
        *byte = (seed >> 24) as u8;
        seed = seed.wrapping_mul(1_664_525).wrapping_add(1_013_904_223);
    }
    packet[0] = 128 + k % 16 * 8 + k % 2 * 4;
    packet
}

/// The checksum of a page (RFC 3533, section 6).
fn checksum(page: &[u8]) -> u32 {
    let mut sum = 0u32;
    for byte in page {
        sum ^= u32::from(*byte) << 24;
        for _ in 0..8u32 {
            let top = sum >> 31;
            sum = sum << 1 ^ top.wrapping_mul(0x04c1_1db7);
        }
    }
    sum
}

/// Appends a page with one packet of 101 bytes.
fn put_page(
    alloc: Global,
    out: &mut Vec<u8>,
    sequence: u8,
    flags: u8,
    granule: u64,
    packet: &[u8; 101],
) -> Result<(), AllocError> {
    let mut page = Vec::from_slice(alloc, b"OggS\0")?;
    page.push(flags)?;
    page.extend_from_slice(&granule.to_le_bytes())?;
    page.extend_from_slice(&[1, 0, 0, 0, sequence, 0, 0, 0, 0, 0, 0, 0, 1, 101])?;
    page.extend_from_slice(packet)?;
    let sum = checksum(&page).to_le_bytes();
    let (head, rest) = page.split_at(page.len().min(22));
    let (_, body) = rest.split_at(rest.len().min(4));
    out.extend_from_slice(head)?;
    out.extend_from_slice(&sum)?;
    out.extend_from_slice(body)
}

/// 64 packets of noise, a page each.
fn noise_stream(alloc: Global) -> Result<Vec<u8>, AllocError> {
    let mut out = Vec::from_slice(alloc, &HEAD_PAGE)?;
    out.extend_from_slice(&TAGS_PAGE)?;
    let mut granule = 0u64;
    for k in 0..64u8 {
        granule = granule.wrapping_add(SIZES[usize::from(k % 4)]);
        let flags = if k == 63 { 4 } else { 0 };
        put_page(alloc, &mut out, k + 2, flags, granule, &noise_packet(k))?;
    }
    Ok(out)
}

// Packets of noise give 120 samples for each block, 28800 in all, and a line each.
#[test]
fn noise(rt: HostRuntime) -> Result<(), AllocError> {
    let alloc = rt.alloc();
    let stream = noise_stream(alloc)?;
    let rows: [(&[&str], usize, u64); 4] = [
        (&["decode"], 57_644, 16_454_828_873_242_237_706),
        (&["decode", "--raw"], 57_600, 15_533_609_318_046_111_168),
        (
            &["decode", "--raw", "--no-inversion"],
            57_600,
            718_227_187_453_716_813,
        ),
        (&["ranges"], 1014, 7_339_362_871_664_086_296),
    ];
    for (words, len, want) in rows {
        let got = attempt(&rt, alloc, words, &stream, 61, NONE_FAILS)?;
        assert_eq!(rt; got.status, Status::Done);
        assert!(rt; got.notes.is_empty());
        assert_eq!(rt; got.output.len(), len);
        assert_eq!(rt; sum(&got.output), want);
    }
    let got = attempt(&rt, alloc, &["ranges"], &stream, 61, NONE_FAILS)?;
    assert_eq!(rt;
        got.output.iter().filter(|byte| **byte == b'\n').count(),
        64
    );
    Ok(())
}
