//! Streams in pieces of any size, and the worked rows: what is written, and which fault comes where.
ghost use Rattle.std.specs.Prelude.{◌≡◌, ◌≤◌, ◌<◌, ◌+◌, ◌^◌, true, None, length};
ghost use Rattle.opus_stream.specs.Readers.{bytes_fed};

use crate::answers::{Accept, Span};
use crate::reader::StreamReader;
use crate::rows::{LONG_ROWS, ROWS, known_page};
use celt_base::status::{Fault, FaultName};
use ogg_pages::checksum::checksum_of;
use opus_packets::Head;
use std::alloc::{AllocError, Global};

/// The words of a row that were not read yet.
#[derive(Drop)]
struct Words<'a> {
    rest: &'a str,
}

impl<'a> Words<'a> {
    /// The next word.
    fn next(&mut self) -> &'a str {
        match self.rest.split_once(' ') {
            Some((word, rest)) => {
                self.rest = rest;
                word
            }
            None => {
                let word = self.rest;
                self.rest = "";
                word
            }
        }
    }

    /// The next word as a number.
    fn number(&mut self) -> i64 {
        self.next().parse().unwrap_or(0)
    }

    /// The next word as a number that is not negative.
    fn size(&mut self) -> usize
        ensures { result < 2 ^ 32 }
    {
        (self.number().unsigned_abs() % 0x1_0000_0000) as usize
    }
}

/// The value of a hexadecimal digit.
fn digit(byte: u8) -> u8
    ensures { result < 16 }
{
    match byte {
        b'0'..=b'9' => byte - b'0',
        b'a'..=b'f' => byte - b'a' + 10,
        _ => 0,
    }
}

/// Puts the bytes of hexadecimal digits behind others.
fn push_digits(bytes: &mut Vec<u8>, word: &str) -> Result<(), AllocError> {
    let digits = word.as_bytes();
    for i in 0..digits.len() / 2 {
        bytes.push(digit(digits[2 * i]) * 16 + digit(digits[2 * i + 1]))?;
    }
    Ok(())
}

/// Puts a byte behind others, so many times.
fn push_run(bytes: &mut Vec<u8>, count: usize, byte: u8) -> Result<(), AllocError> {
    for _ in 0..count {
        bytes.push(byte)?;
    }
    Ok(())
}

/// Puts bytes behind others: hexadecimal digits, and behind a point how many bytes 0 follow them.
fn push_bytes(bytes: &mut Vec<u8>, word: &str) -> Result<(), AllocError> {
    match word.split_once('.') {
        Some((digits, zeros)) => {
            push_digits(bytes, digits)?;
            push_run(bytes, Words { rest: zeros }.size(), 0)
        }
        None => push_digits(bytes, word),
    }
}

/// Puts the lacing values of a packet, and its bytes, behind others. One that is open has no last value below
/// 255.
fn push_packet(lacing: &mut Vec<u8>, body: &mut Vec<u8>, word: &str) -> Result<(), AllocError> {
    let start = body.len();
    let open = word.split_once('+');
    push_bytes(body, open.map_or(word, |(front, _)| front))?;
    let len = body.len().saturating_sub(start);
    push_run(lacing, len / 255, 255)?;
    if open.is_none() {
        lacing.push((len % 255) as u8)?;
    }
    Ok(())
}

/// Whether a letter is among those of what is broken.
fn is_broken(letters: &str, letter: u8) -> bool {
    letters.as_bytes().iter().any(|byte| *byte == letter)
}

/// The header of a page without its checksum and number of segments.
fn header(letters: &str, words: &mut Words) -> [u8; 27] {
    let flags = (words.size() % 256) as u8;
    let [g0, g1, g2, g3, g4, g5, g6, g7] = words.number().to_le_bytes();
    let [s0, s1, s2, s3] = (words.size() as u32).to_le_bytes();
    let last = if is_broken(letters, b'C') { b'X' } else { b'S' };
    let version = u8::from(is_broken(letters, b'V'));
    let serial = 1 + u8::from(is_broken(letters, b'S'));
    [
        b'O', b'g', b'g', last, version, flags, g0, g1, g2, g3, g4, g5, g6, g7, serial, 0, 0, 0,
        s0, s1, s2, s3, 0, 0, 0, 0, 0,
    ]
}

/// Puts the number of segments of a page, which has no bytes behind its lacing values yet, into its place.
fn put_count(page: &mut Vec<u8>) {
    if page.len() > 26 {
        page[26] = ((page.len() - 27) % 256) as u8;
    }
}

/// Puts the checksum of a page into its place.
fn put_sum(page: &mut Vec<u8>, is_broken: bool) {
    if page.len() < 26 {
        return;
    }
    let sum = checksum_of(page) ^ u32::from(is_broken);
    page[22..26].copy_from_slice(&sum.to_le_bytes());
}

/// A page whose words follow those letters.
fn spelled_page(alloc: Global, letters: &str, words: &mut Words) -> Result<Vec<u8>, AllocError> {
    let mut page = Vec::from_slice(alloc, &header(letters, words))?;
    let mut body = Vec::new(alloc);
    for _ in 0..words.size() {
        push_packet(&mut page, &mut body, words.next())?;
    }
    put_count(&mut page);
    page.extend_from_slice(&body)?;
    put_sum(&mut page, is_broken(letters, b'K'));
    Ok(page)
}

/// The next page of a row.
fn page_of(alloc: Global, words: &mut Words) -> Result<Vec<u8>, AllocError> {
    let word = words.next();
    let known = known_page(word);
    if known.is_empty() {
        return spelled_page(alloc, word, words);
    }
    let mut words = Words { rest: known };
    let letters = words.next();
    spelled_page(alloc, letters, &mut words)
}

/// The bytes of a row's stream.
fn bytes_of(alloc: Global, words: &mut Words) -> Result<Vec<u8>, AllocError> {
    let mut bytes = Vec::new(alloc);
    for _ in 0..words.size() {
        let page = page_of(alloc, words)?;
        bytes.extend_from_slice(&page)?;
    }
    let behind = words.next();
    match behind.split_once('-') {
        Some((_, missing)) => {
            let missing = Words { rest: missing }.size();
            bytes.truncate(bytes.len().saturating_sub(missing));
        }
        None => push_digits(&mut bytes, behind)?,
    }
    Ok(bytes)
}

/// A digest with one more number.
fn mixed(digest: u32, number: u64) -> u32 {
    digest
        .wrapping_mul(31)
        .wrapping_add((number % 0x1_0000_0000) as u32)
}

/// A digest with more bytes.
fn with_bytes(digest: u32, bytes: &[u8]) -> u32 {
    let mut digest = digest;
    for byte in bytes {
        digest = mixed(digest, u64::from(*byte));
    }
    digest
}

/// The digest of the packets that end on the page that was given last.
fn packets_digest(reader: &StreamReader) -> u32 {
    let mut digest = 0;
    for i in 0..reader.packets() {
        let packet = reader.packet(i);
        digest = with_bytes(mixed(digest, packet.len() as u64), packet);
    }
    digest
}

/// The digest with the page that was given last.
fn with_page(reader: &StreamReader, digest: u32) -> u32 {
    let span = reader.written();
    let digest = mixed(digest, reader.packets() as u64);
    let digest = mixed(digest, u64::from(packets_digest(reader)));
    mixed(mixed(digest, span.from), span.to)
}

/// What a stream gives: pages, digest and fault.
#[derive(Clone, Copy, Debug, PartialEq, Eq)]
struct Told {
    accepted: usize,
    digest: u32,
    fault: Option<Fault>,
}

/// Reads a stream in pieces of `step` bytes.
fn read_in_pieces(reader: &mut StreamReader, bytes: &[u8], step: usize) -> Told
    requires new { bytes_fed reader.old ≡ 0 }
    requires short { length bytes.now < 2 ^ 32 }
    requires step { step < 2 ^ 32 }
{
    let mut at = 0;
    let mut accepted = 0usize;
    let mut digest = 0;
    for _ in 0..4 * bytes.len() + 1000 {
        match reader.next_page() {
            Accept::Page => {
                accepted = accepted.wrapping_add(1);
                digest = with_page(reader, digest);
            }
            Accept::Need if at < bytes.len() => {
                let end = (at + step).min(bytes.len());
                at += reader.feed(&bytes[at..end]);
            }
            Accept::Need => {
                let fault = reader.end();
                return Told {
                    accepted,
                    digest,
                    fault,
                };
            }
            Accept::Fault(fault) => {
                return Told {
                    accepted,
                    digest,
                    fault: Some(fault),
                };
            }
        }
    }
    Told {
        accepted: 0,
        digest,
        fault: None,
    }
}

/// The fault of a row: its number, its place, and its rule or configuration.
fn fault_of(words: &mut Words) -> Option<Fault> {
    let number = words.size();
    let at = words.size() as u64;
    let detail = (words.size() % 256) as u8;
    let name = match number {
        1 => FaultName::BadCapture,
        2 => FaultName::BadPageVersion,
        3 => FaultName::BadChecksum,
        4 => FaultName::OtherStream,
        5 => FaultName::PageGap,
        6 => FaultName::BadContinuation,
        7 => FaultName::BadHead,
        8 => FaultName::UnsupportedFamily,
        9 => FaultName::BadTags,
        10 => FaultName::PacketTooLong,
        11 => FaultName::BadPacket { rule: detail },
        12 => FaultName::NotCelt { config: detail },
        13 => FaultName::BadGranule,
        14 => FaultName::AfterEnd,
        15 => FaultName::Truncated,
        _ => return None,
    };
    Some(Fault { name, at })
}

/// What a row gives.
fn told_of(words: &mut Words) -> Told {
    Told {
        accepted: words.size(),
        digest: words.size() as u32,
        fault: fault_of(words),
    }
}

/// Reads a stream in pieces of several sizes, and compares with what is wanted.
fn compare(
    rt: &impl std::process::Abort,
    alloc: Global,
    name: &str,
    bytes: &[u8],
    want: Told,
) -> Result<(), AllocError>
    requires { length bytes.now < 2 ^ 32 }
{
    for step in [1, 7, 4096, bytes.len()] {
        let Ok(mut reader) = StreamReader::new(alloc) else {
            return Err(AllocError);
        };
        let told = read_in_pieces(&mut reader, bytes, step);
        assert_eq!(rt; told, want, "at {name} by {step}");
    }
    Ok(())
}

/// Compares what a row says with what a reader gives.
fn compare_row(rt: &impl std::process::Abort, alloc: Global, line: &str) -> Result<(), AllocError> {
    let mut words = Words { rest: line };
    let name = words.next();
    let bytes = bytes_of(alloc, &mut words)?;
    assert_eq!(rt;
        with_bytes(0, &bytes),
        words.size() as u32,
        "the bytes of {name}"
    );
    let want = told_of(&mut words);
    assert!(rt; bytes.len() < 0x1_0000_0000);
    compare(rt, alloc, name, &bytes, want)
}

/// Compares each row of a table, and answers how many there are.
fn compare_rows(
    rt: &impl std::process::Abort,
    alloc: Global,
    table: &str,
) -> Result<usize, AllocError> {
    let mut count = 0usize;
    for line in table.lines() {
        compare_row(rt, alloc, line)?;
        count = count.wrapping_add(1);
    }
    Ok(count)
}

#[test]
fn rows(rt: HostRuntime) -> Result<(), AllocError> {
    assert_eq!(rt; compare_rows(&rt, rt.alloc(), ROWS)?, 546);
    Ok(())
}

#[test]
fn long_rows(rt: HostRuntime) -> Result<(), AllocError> {
    assert_eq!(rt; compare_rows(&rt, rt.alloc(), LONG_ROWS)?, 49);
    Ok(())
}

/// The bytes of a stream that is written as a row without its name and without what it gives.
fn bytes_of_text(alloc: Global, text: &str) -> Result<Vec<u8>, AllocError> {
    bytes_of(alloc, &mut Words { rest: text })
}

/// A stream of one packet: its pages end at 47, 83 and 114.
const SHORT: &str = "3 head tags last .";

// Every cut of a short stream: it is the page that is cut, or the one that is missing.
#[test]
fn cuts(rt: HostRuntime) -> Result<(), AllocError> {
    let bytes = bytes_of_text(rt.alloc(), SHORT)?;
    for n in 0..114 {
        compare(&rt, rt.alloc(), "a cut", front(&bytes, n), cut_at(n))?;
    }
    Ok(())
}

/// The first bytes, at most 1000.
fn front(bytes: &[u8], len: usize) -> &[u8]
    ensures { length result.now < 2 ^ 32 }
{
    let (front, _) = bytes.split_at(len.min(1000).min(bytes.len()));
    front
}

/// What the first bytes of the short stream give.
fn cut_at(len: usize) -> Told {
    let at = u64::from(len >= 47) + u64::from(len >= 83);
    Told {
        accepted: at as usize,
        digest: 0,
        fault: Some(Fault {
            name: FaultName::Truncated,
            at,
        }),
    }
}

/// Two audio pages of 960 samples each, with the granule positions 10000 and 10500, and two bytes more.
const TRIMMED: &str = "4 - 2 0 0 1 4f7075734865616401020a0080bb0000010000 tags \
    - 0 10000 2 1 f8fffe - 4 10500 3 1 f8fffe 4f67";

/// What a reader shows.
#[derive(Clone, Copy, Debug, PartialEq, Eq)]
struct Shown {
    bytes: usize,
    packets: usize,
    written: Span,
    held: usize,
    is_ended: bool,
}

/// What a reader shows now.
fn look(reader: &StreamReader) -> Shown {
    Shown {
        bytes: reader.bytes().len(),
        packets: reader.packets(),
        written: reader.written(),
        held: reader.held(),
        is_ended: reader.ended(),
    }
}

/// A reader of a stream after some answers.
fn reader_of(alloc: Global, text: &str, answers: usize) -> Result<StreamReader, AllocError> {
    let bytes = bytes_of_text(alloc, text)?;
    let Ok(mut reader) = StreamReader::new(alloc) else {
        return Err(AllocError);
    };
    if bytes.len() < 1000 {
        reader.feed(&bytes);
    }
    for _ in 0..answers {
        reader.next_page();
    }
    Ok(reader)
}

/// What is shown of a stream after so many answers.
fn shown_after(alloc: Global, answers: usize) -> Result<Shown, AllocError> {
    let reader = reader_of(alloc, TRIMMED, answers)?;
    Ok(look(&reader))
}

/// A row of what is shown.
fn row(bytes: usize, packets: usize, from: u64, to: u64, held: usize, is_ended: bool) -> Shown {
    Shown {
        bytes,
        packets,
        written: Span { from, to },
        held,
        is_ended,
    }
}

// What each page gives. Behind the last page it stays, also where a fault was answered.
#[test]
fn pages(rt: HostRuntime) -> Result<(), AllocError> {
    let alloc = rt.alloc();
    assert_eq!(rt; shown_after(alloc, 0)?, row(0, 0, 0, 0, 147, false));
    assert_eq!(rt; shown_after(alloc, 1)?, row(47, 0, 0, 0, 100, false));
    assert_eq!(rt; shown_after(alloc, 2)?, row(36, 0, 0, 0, 64, false));
    assert_eq!(rt; shown_after(alloc, 3)?, row(31, 1, 10, 960, 33, false));
    assert_eq!(rt; shown_after(alloc, 4)?, row(31, 1, 0, 500, 2, true));
    assert_eq!(rt; shown_after(alloc, 6)?, row(31, 1, 0, 500, 2, true));
    Ok(())
}

// The header, and a packet as it stands.
#[test]
fn head_and_packet(rt: HostRuntime) -> Result<(), AllocError> {
    let reader = reader_of(rt.alloc(), TRIMMED, 3)?;
    assert_eq!(rt;
        reader.head(),
        Some(Head {
            channels: 2,
            preskip: 10,
            gain: 1,
        })
    );
    assert!(rt; reader.packets() > 0);
    assert_eq!(rt; reader.packet(0), &[0xf8u8, 0xff, 0xfe][..]);
    Ok(())
}

// A reader that begins again behind a last page holds the two bytes that follow it.
#[test]
fn begun_again(rt: HostRuntime) -> Result<(), AllocError> {
    let mut reader = reader_of(rt.alloc(), TRIMMED, 5)?;
    assert!(rt; reader.ended());
    reader.restart();
    assert_eq!(rt; look(&reader), row(0, 0, 0, 0, 2, false));
    assert_eq!(rt; reader.next_page(), Accept::Need);
    Ok(())
}

/// Takes every page that is accepted of the bytes so far, and answers the fault behind them.
fn take_pages(reader: &mut StreamReader) -> Option<Fault>
    ensures settled { result ≡ None → reader.new.is_settled ≡ true }
    ensures fed { bytes_fed reader.new ≡ bytes_fed reader.old }
{
    'pages: loop {
        match reader.next_page() {
            Accept::Page => {}
            Accept::Need => return None,
            Accept::Fault(fault) => return Some(fault),
        }
    }
}

/// Feeds a piece until nothing is taken, and takes every page. Without a fault nothing of the piece is left.
fn feed_whole(reader: &mut StreamReader, piece: &[u8]) -> Option<Fault>
    requires settled { reader.old.is_settled ≡ true }
    requires limit { bytes_fed reader.old + length piece.now ≤ 2 ^ 48 }
    ensures whole { result ≡ None → bytes_fed reader.new ≡ bytes_fed reader.old + length piece.now }
    ensures settled { result ≡ None → reader.new.is_settled ≡ true }
{
    let mut rest = piece;
    'pieces: loop {
        let count = reader.feed(rest);
        if count == 0 {
            return None;
        }
        let (_, behind) = rest.split_at(count);
        rest = behind;
        if let Some(fault) = take_pages(reader) {
            return Some(fault);
        }
    }
}

/// The fault of a stream that is fed as one piece, and whether it has ended.
fn fed_whole(alloc: Global, text: &str) -> Result<(Option<Fault>, bool), AllocError> {
    let bytes = bytes_of_text(alloc, text)?;
    let Ok(mut reader) = StreamReader::new(alloc) else {
        return Err(AllocError);
    };
    let fault = feed_whole(&mut reader, front(&bytes, 1000));
    Ok((fault, reader.ended()))
}

// A loop over pages ends, and so does one over what is left of a piece.
#[test]
fn fed_until_nothing_is_taken(rt: HostRuntime) -> Result<(), AllocError> {
    assert_eq!(rt; fed_whole(rt.alloc(), SHORT)?, (None, true));
    let behind = Fault {
        name: FaultName::AfterEnd,
        at: 4,
    };
    assert_eq!(rt; fed_whole(rt.alloc(), TRIMMED)?, (Some(behind), true));
    Ok(())
}

/// Puts the sequence number of a page, and its checksum, into their places.
fn put_sequence(page: &mut Vec<u8>, sequence: u32) {
    if page.len() < 26 {
        return;
    }
    page[18..22].copy_from_slice(&sequence.to_le_bytes());
    put_sum(page, false);
}

/// Puts a page behind others, so many times, with the sequence numbers from one up to another.
fn push_pages(
    bytes: &mut Vec<u8>,
    page: &mut Vec<u8>,
    from: u32,
    to: u32,
) -> Result<(), AllocError> {
    for sequence in from..to {
        put_sequence(page, sequence);
        bytes.extend_from_slice(page)?;
    }
    Ok(())
}

// A comment header of 3 MB over 2300 pages, two of them as long as a page can be.
#[test]
fn long_comments(rt: HostRuntime) -> Result<(), AllocError> {
    let alloc = rt.alloc();
    let mut bytes = bytes_of_text(alloc, "2 head - 0 0 1 1 4f70757354616773.65017+ .")?;
    let mut full = bytes_of_text(alloc, "1 - 1 -1 0 1 .65025+ .")?;
    push_pages(&mut bytes, &mut full, 2, 3)?;
    let mut short = bytes_of_text(alloc, "1 - 1 -1 0 1 .1275+ .")?;
    push_pages(&mut bytes, &mut short, 3, 2300)?;
    let rest = bytes_of_text(alloc, "2 - 1 0 2300 1 .10 - 4 960 2301 1 f8fffe .")?;
    bytes.extend_from_slice(&rest)?;
    assert_eq!(rt; with_bytes(0, &bytes), 774524277);
    let want = Told {
        accepted: 2302,
        digest: 322792211,
        fault: None,
    };
    assert!(rt; bytes.len() < 0x1_0000_0000);
    compare(&rt, alloc, "long comments", &bytes, want)
}
