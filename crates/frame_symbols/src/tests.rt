//! Frames by the numbers of a program apart from this one, and the rows of a new value, of silence and of frames in a batch.
ghost use Rattle.std.specs.Prelude.{◌≡◌, ◌+◌, ◌<◌, ◌≤◌, ⊤, length, IfOk};
ghost use Rattle.frame_symbols.specs.Batches.{PartsInside};

use crate::opening::post_filter_of;
use crate::recorder::Answer;
use crate::rows::{GIVEN, NOISE};
use crate::{FrameSlot, Symbols, read_batch, read_frame, write_frame};
use celt_base::coder::{Chooser, Enter, Place};
use celt_base::kind::Kind;
use celt_base::outside::Gate;
use celt_base::question::{Question, TableId};
use celt_base::state::Setting;
use celt_base::status::OutOfMemory;
use range_coder::Finish;
use std::alloc::Global;
use std::sync::atomic::{AtomicU64, Ordering};
use std::thread::Threads;

// It wants the answers of a list in turn.
#[derive(Clone, Copy)]
struct Again<'a> {
    answers: &'a [Answer],
    next: usize,
}

// What an answer of a coarse energy is heard as.
fn value_of(answer: Answer) -> i64 {
    match answer.question {
        Question::Table(_) => match answer.value {
            1 => -1,
            2 => 1,
            _ => 0,
        },
        Question::Bit(_) => { if answer.value == 1 { -1 } else { 0 } }
        _ => answer.value,
    }
}

impl Chooser for Again<'_> {
    ghost calls = { record {
      Enters = λ before at now. ⊤;
      Wants = λ before at question wanted now. ⊤;
      Told = λ before at answer now. ⊤;
    } };

    fn enter(&mut self, _at: Enter) {}

    fn want(&mut self, at: Place, _question: Question) -> i64 {
        let Some(answer) = self.answers.get(self.next) else {
            return 0;
        };
        self.next = self.next.wrapping_add(1);
        if let Place::Coarse { .. } = at {
            return value_of(*answer);
        }
        answer.value
    }

    fn told(&mut self, _at: Place, _answer: i64) {}
}

// The words of a row that were not read yet.
#[derive(Clone, Copy)]
struct Words<'a> {
    rest: &'a str,
}

impl<'a> Words<'a> {
    // The next word.
    fn next(&mut self) -> &'a str {
        match self.rest.split_once(' ') {
            Some((word, rest)) => {
                self.rest = rest;
                word
            }
            None => {
                let word = self.rest;
                self.rest = "";
                word
            }
        }
    }

    // The next word as a number.
    fn number(&mut self) -> u32 {
        self.next().parse().unwrap_or(0)
    }
}

// A frame of at most 1275 bytes.
#[derive(Clone, Copy)]
struct Frame {
    bytes: [u8; 1275],
    len: usize,
    ghost most: { len ≤ 1275 },
}

fn digit(letter: u8) -> u8 {
    if letter < 58 {
        letter.wrapping_sub(48)
    } else {
        letter.wrapping_sub(87)
    }
}

// The frame of these bytes in hex.
fn frame_of_hex(word: &str) -> Frame {
    let letters = word.as_bytes();
    let mut bytes = [0; 1275];
    let len = (letters.len() / 2).min(1275);
    for k in 0..len {
        bytes[k] = digit(letters[2 * k])
            .wrapping_mul(16)
            .wrapping_add(digit(letters[2 * k + 1]));
    }
    Frame { bytes, len }
}

// A frame of noise: the upper bytes of the numbers that follow the seed.
fn frame_of_noise(len: usize, seed: u32) -> Frame {
    let mut bytes = [0; 1275];
    let len = len.min(1275);
    let mut number = seed;
    for k in 0..len {
        number = number.wrapping_mul(1_664_525).wrapping_add(1_013_904_223);
        bytes[k] = (number >> 24) as u8;
    }
    Frame { bytes, len }
}

fn add(digest: u64, number: u64) -> u64 {
    digest.wrapping_mul(1_000_003).wrapping_add(number)
}

fn upper_half(digest: u64) -> u32 {
    (digest >> 32) as u32
}

fn digest_of_bytes(bytes: &[u8]) -> u32 {
    let mut digest = 0;
    for byte in bytes {
        digest = add(digest, u64::from(*byte));
    }
    upper_half(digest)
}

// A question as three numbers.
fn numbers_of(question: Question) -> [u32; 3] {
    match question {
        Question::Bit(p) => [1, p, 0],
        Question::Table(TableId::Tapset) => [2, 0, 0],
        Question::Table(TableId::Small) => [2, 1, 0],
        Question::Table(TableId::Spread) => [2, 2, 0],
        Question::Table(TableId::Trim) => [2, 3, 0],
        Question::Uniform(limit) => [3, limit, 0],
        Question::Laplace { fs, decay } => [4, fs, decay],
        Question::Step(most) => [5, most, 0],
        Question::Triangle(most) => [6, most, 0],
        Question::Raw(count) => [7, count, 0],
    }
}

fn digest_of_answers(answers: &[Answer]) -> u32 {
    let mut digest = 0;
    for answer in answers {
        let [kind, first, second] = numbers_of(answer.question);
        let question = add(
            add(add(digest, u64::from(kind)), u64::from(first)),
            u64::from(second),
        );
        digest = add(question, answer.value.cast_unsigned());
    }
    upper_half(digest)
}

// A digest with the numbers of the bands below `end`.
fn add_bands(digest: u64, bands: [i32; 21], end: usize) -> u64 {
    let mut sum = digest;
    for band in 0..end.min(21) {
        sum = add(sum, i64::from(bands[band]).cast_unsigned());
    }
    sum
}

// The same with the bits of the fine energies.
fn add_fine(digest: u64, bands: [u32; 21], end: usize) -> u64 {
    let mut sum = digest;
    for band in 0..end.min(21) {
        sum = add(sum, u64::from(bands[band]));
    }
    sum
}

// What the answers of a frame come to.
fn digest_of_fields(symbols: &Symbols, end: usize) -> u32 {
    let setting = symbols.setting();
    let a = symbols.allocation();
    let bands = symbols.bands();
    let mut digest = add(u64::from(symbols.transient()), u64::from(symbols.intra()));
    for number in [
        setting.period,
        setting.gain,
        setting.tapset,
        bands.settings.spread,
        u32::from(symbols.collapse()),
        a.coded,
        a.intensity,
        u32::from(a.dual),
    ] {
        digest = add(digest, u64::from(number));
    }
    digest = add(digest, i64::from(a.balance).cast_unsigned());
    digest = add_bands(digest, bands.settings.tf, end);
    digest = add_bands(digest, bands.amounts, end);
    digest = add_bands(digest, a.pulses, end);
    upper_half(add_fine(digest, a.fine, end))
}

// What a reader of the frame comes to, but for its kind: how many questions, the bits that they tell, the range, and the
// digests of the questions with their answers and of what they come to.
fn numbers_read(frame: &Frame, kind: Kind, symbols: &mut Symbols) -> [u32; 5] {
    if frame.len < 2 {
        return [0; 5];
    }
    read_frame(&frame.bytes[..frame.len], kind, symbols);
    [
        symbols.answers().len().min(4096) as u32,
        symbols.tell(),
        symbols.range(),
        digest_of_answers(symbols.answers()),
        digest_of_fields(symbols, usize::from(kind.end)),
    ]
}

// The same of a writer whose chooser wants the answers that were read, and the digest of the bytes.
fn numbers_written(len: usize, kind: Kind, read: &Symbols, symbols: &mut Symbols) -> ([u32; 5], u32)
    requires { len ≤ 1275 }
{
    let mut bytes = [0; 1275];
    let (room, _) = bytes.split_at_mut(len);
    if len < 2 {
        return ([0; 5], 0);
    }
    let mut again = Again {
        answers: read.answers(),
        next: 0,
    };
    let range = match write_frame(kind, &mut again, room, symbols) {
        Finish::Whole { range } => range,
        Finish::Overrun { .. } => 0,
    };
    let numbers = [
        symbols.answers().len().min(4096) as u32,
        symbols.tell(),
        range,
        digest_of_answers(symbols.answers()),
        digest_of_fields(symbols, usize::from(kind.end)),
    ];
    (numbers, digest_of_bytes(room))
}

// Whether a frame comes to what the rest of its row says, read and written again.
fn follows(
    kind: Kind,
    frame: &Frame,
    words: &mut Words,
    read: &mut Symbols,
    written: &mut Symbols,
) -> bool {
    let wanted = [
        words.number(),
        words.number(),
        words.number(),
        words.number(),
        words.number(),
    ];
    let code = words.number();
    if numbers_read(frame, kind, read) != wanted || read.kind() != Some(kind) {
        return false;
    }
    numbers_written(frame.len, kind, read, written) == (wanted, code)
        && written.range() == wanted[2]
}

#[test]
fn frames_of_costly_answers_and_of_an_encoder(rt: HostRuntime) -> Result<(), OutOfMemory> {
    let mut read = Symbols::new(rt.alloc())?;
    let mut written = Symbols::new(rt.alloc())?;
    let mut count = 0u32;
    for row in GIVEN.lines() {
        let mut words = Words { rest: row };
        let kind = Kind::of_toc((words.number() % 256) as u8).expect(&rt, row);
        let frame = frame_of_hex(words.next());
        assert!(rt;
            follows(kind, &frame, &mut words, &mut read, &mut written),
            "{row}"
        );
        count = count.wrapping_add(1);
    }
    assert_eq!(rt; count, 96);
    Ok(())
}

#[test]
fn frames_of_noise(rt: HostRuntime) -> Result<(), OutOfMemory> {
    let mut read = Symbols::new(rt.alloc())?;
    let mut written = Symbols::new(rt.alloc())?;
    let mut count = 0u32;
    for row in NOISE.lines() {
        let mut words = Words { rest: row };
        let kind = Kind::of_toc((words.number() % 256) as u8).expect(&rt, row);
        let len = words.number() as usize;
        let frame = frame_of_noise(len, words.number());
        assert!(rt;
            follows(kind, &frame, &mut words, &mut read, &mut written),
            "{row}"
        );
        count = count.wrapping_add(1);
    }
    assert_eq!(rt; count, 192);
    Ok(())
}

// The sum of the ranges of 256 frames of noise of so many bytes, of all kinds in turn.
fn sum_of_ranges(len: usize, symbols: &mut Symbols) -> u64
    requires least { 2 ≤ len }
    requires most { len ≤ 4 }
{
    let mut sum = 0u64;
    let mut number = 77 * len as u32;
    for k in 0..256u32 {
        let mut bytes = [0; 4];
        for at in 0..len {
            number = number.wrapping_mul(1_664_525).wrapping_add(1_013_904_223);
            bytes[at] = (number >> 24) as u8;
        }
        let Some(kind) = Kind::of_toc((128 + 4 * (k % 32)) as u8) else {
            return 0;
        };
        read_frame(&bytes[..len], kind, symbols);
        sum = sum.wrapping_add(u64::from(symbols.range()));
    }
    sum
}

#[test]
fn ranges_of_short_frames(rt: HostRuntime) -> Result<(), OutOfMemory> {
    let mut symbols = Symbols::new(rt.alloc())?;
    assert_eq!(rt; sum_of_ranges(2, &mut symbols), 7_002_176_832);
    assert_eq!(rt; sum_of_ranges(3, &mut symbols), 14_018_091_683);
    assert_eq!(rt; sum_of_ranges(4, &mut symbols), 18_570_682_830);
    Ok(())
}

// Whether all but the kind, silence, the list, the range and the tell are as in a new value.
fn is_blank(symbols: &Symbols) -> bool {
    let energy = symbols.energy();
    let a = symbols.allocation();
    let bands = symbols.bands();
    let flags = symbols.transient()
        || symbols.intra()
        || symbols.collapse()
        || a.dual
        || bands.dual;
    let numbers = [
        a.coded,
        a.intensity,
        bands.coded,
        bands.intensity,
        bands.settings.spread,
    ];
    !flags
        && !bands.settings.transient
        && symbols.setting() == Setting::off()
        && energy.coarse == [[0; 21]; 2]
        && energy.fine == [[0; 21]; 2]
        && energy.last == [[None; 21]; 2]
        && numbers == [0; 5]
        && a.balance == 0
        && a.pulses == [0; 21]
        && a.fine == [0; 21]
        && a.priority == [false; 21]
        && bands.settings.tf == [0; 21]
        && bands.amounts == [0; 21]
        && bands.nodes.is_empty()
}

#[test]
fn new_and_silent(rt: HostRuntime) -> Result<(), OutOfMemory> {
    let mut symbols = Symbols::new(rt.alloc())?;
    assert!(rt; is_blank(&symbols) && !symbols.silent() && symbols.answers().is_empty());
    assert_eq!(rt;
        (symbols.kind(), symbols.range(), symbols.tell()),
        (None, 0, 0)
    );
    let kind = Kind::of_toc(252).expect(&rt, "a kind");
    let noise = frame_of_noise(200, 1);
    let [asked, _, _, _, _] = numbers_read(&noise, kind, &mut symbols);
    assert!(rt; asked > 40 && !symbols.silent() && !symbols.bands().nodes.is_empty());
    read_frame(&[255, 254], kind, &mut symbols);
    assert!(rt; is_blank(&symbols) && symbols.silent());
    assert_eq!(rt; (symbols.range(), symbols.tell()), (16_777_216, 16));
    let silence = Answer {
        question: Question::Bit(15),
        value: 1,
    };
    assert_eq!(rt; symbols.answers(), [silence].as_slice());
    Ok(())
}

// A frame of two bytes of 0: not silent, no short blocks, and not intra; 13 coarse energies by the small table and one by a
// bit, after which nothing is left.
#[test]
fn frame_of_zeros(rt: HostRuntime) -> Result<(), OutOfMemory> {
    let mut symbols = Symbols::new(rt.alloc())?;
    let kind = Kind::of_toc(248).expect(&rt, "a kind");
    read_frame(&[0, 0], kind, &mut symbols);
    assert!(rt; !symbols.silent() && !symbols.transient() && !symbols.intra());
    let mut coarse = [0; 21];
    for band in 14..21 {
        coarse[band] = -1;
    }
    assert_eq!(rt; symbols.energy().coarse, [coarse, [0; 21]]);
    assert_eq!(rt; symbols.answers().len(), 17);
    for answer in symbols.answers() {
        assert_eq!(rt; answer.value, 0);
    }
    Ok(())
}

// A gate that counts the halves that enter.
#[derive(Drop)]
struct Count {
    halves: AtomicU64,
}

impl Gate for Count {
    fn enter(&self, half: u32) {
        self.halves.fetch_add(1 + u64::from(half), Ordering::SeqCst);
    }
}

/// Parts of a frame of noise: where each begins and ends, and the first byte of its packet; how many questions it has, the
/// bits that they tell, and the range, all 0 where it is no frame.
type Part = (usize, usize, u8, usize, u32, u32);

const PARTS: [Part; 16] = [
    (0, 2, 128, 11, 16, 29359232),
    (2, 2, 252, 0, 0, 0),
    (2, 100, 252, 202, 783, 61672960),
    (100, 101, 248, 0, 0, 0),
    (101, 400, 220, 302, 2391, 10329936),
    (400, 403, 132, 13, 24, 30246720),
    (403, 600, 236, 273, 1427, 99244032),
    (600, 600, 140, 0, 0, 0),
    (0, 1275, 252, 626, 5569, 201262848),
    (1274, 1275, 252, 0, 0, 0),
    (610, 700, 200, 128, 720, 1545456128),
    (700, 790, 204, 188, 720, 677936128),
    (790, 795, 148, 29, 40, 17033928),
    (795, 1000, 188, 216, 1639, 10709603),
    (3, 60, 240, 119, 456, 339832832),
    (1000, 1275, 156, 260, 1858, 1534066688),
];

// Slots for the first parts.
fn slots_for(alloc: Global, bytes: &[u8], count: usize) -> Result<Vec<FrameSlot>, OutOfMemory>
    requires { length bytes.now ≤ 1275 }
    ensures { IfOk result (λ slots. PartsInside bytes.now slots.items) }
{
    let Ok(mut slots) = Vec::with_capacity(alloc, 16) else {
        return Err(OutOfMemory);
    };
    for k in 0..count.min(16) {
        let (from, to, toc, ..) = PARTS[k];
        let Some(kind) = Kind::of_toc(toc) else {
            return Err(OutOfMemory);
        };
        let to = to.min(bytes.len());
        let slot = FrameSlot {
            from: from.min(to),
            to,
            kind,
            symbols: Symbols::new(alloc)?,
        };
        let Ok(()) = slots.push(slot) else {
            return Err(OutOfMemory);
        };
    }
    Ok(slots)
}

// Whether a slot holds what its part comes to.
fn holds(slot: &FrameSlot, part: Part) -> bool {
    let (from, to, toc, asked, tell, range) = part;
    let symbols = &slot.symbols;
    let kind = if asked == 0 { None } else { Kind::of_toc(toc) };
    slot.from == from
        && slot.to == to
        && Some(slot.kind) == Kind::of_toc(toc)
        && symbols.kind() == kind
        && (symbols.answers().len(), symbols.tell(), symbols.range()) == (asked, tell, range)
}

// A batch of the first parts: how many slots hold what their part comes to, and the halves that entered.
fn batch_of<R: Threads>(rt: &R, alloc: Global, count: usize) -> Result<(usize, u64), OutOfMemory> {
    let noise = frame_of_noise(1275, 9);
    let bytes = noise.bytes.as_slice();
    let mut slots = slots_for(alloc, bytes, count)?;
    let gate = Count {
        halves: AtomicU64::new(0),
    };
    read_batch(rt, bytes, slots.as_mut_slice(), &gate);
    let mut right = 0usize;
    for k in 0..slots.len().min(16) {
        if holds(&slots[k], PARTS[k]) {
            right = right.wrapping_add(1);
        }
    }
    Ok((right, gate.halves.load(Ordering::SeqCst)))
}

#[test]
fn batches(rt: HostRuntime) -> Result<(), OutOfMemory> {
    assert_eq!(rt; batch_of(&rt, rt.alloc(), 0)?, (0, 0));
    assert_eq!(rt; batch_of(&rt, rt.alloc(), 1)?, (1, 0));
    assert_eq!(rt; batch_of(&rt, rt.alloc(), 2)?, (2, 3));
    assert_eq!(rt; batch_of(&rt, rt.alloc(), 5)?, (5, 3));
    assert_eq!(rt; batch_of(&rt, rt.alloc(), 16)?, (16, 3));
    Ok(())
}

// The least and the greatest period of the post-filter.
#[test]
fn periods(rt: HostRuntime) {
    assert_eq!(rt; post_filter_of(0, 0, 0, 0).period, 15);
    assert_eq!(rt; post_filter_of(5, 511, 7, 2).period, 1022);
    assert_eq!(rt; post_filter_of(5, 511, 7, 2).gain, 24_576);
}
