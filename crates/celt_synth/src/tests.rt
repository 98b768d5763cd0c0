//! Streams by the numbers of a program apart from this one, and the rows of a mono frame in a stream of two channels and of
//! inversion.
ghost use Rattle.std.specs.Prelude.{◌≡◌, ◌*◌, ◌≤◌, unsigned_abs, length};
ghost use Rattle.celt_synth.specs.Blocks.{blocks_of};

use crate::anti_collapse::blocks;
use crate::given::STREAMS;
use crate::{Decoder, share};
use celt_base::kind::Kind;
use celt_base::state::{Setting, Shared};
use celt_base::status::OutOfMemory;
use frame_symbols::{Symbols, read_frame};

// The words of a row that were not read yet.
#[derive(Clone, Copy)]
struct Words<'a> {
    rest: &'a str,
}

impl<'a> Words<'a> {
    // The next word.
    fn next(&mut self) -> &'a str {
        match self.rest.split_once(' ') {
            Some((word, rest)) => {
                self.rest = rest;
                word
            }
            None => {
                let word = self.rest;
                self.rest = "";
                word
            }
        }
    }

    // The next word as a number.
    fn number(&mut self) -> u64 {
        self.next().parse().unwrap_or(0)
    }

    // The next word as a gain.
    fn gain(&mut self) -> i32
        ensures { unsigned_abs result ≤ 32768 }
    {
        let gain: i32 = self.next().parse().unwrap_or(0);
        gain.clamp(-32_768, 32_767)
    }

    // The next word as channels.
    fn channels(&mut self) -> u8
        ensures some { 1 ≤ result }
        ensures most { result ≤ 2 }
    {
        if self.number() == 2 { 2 } else { 1 }
    }
}

// A frame of at most 1275 bytes.
#[derive(Clone, Copy)]
struct Frame {
    bytes: [u8; 1275],
    len: usize,
    ghost most: { len ≤ 1275 },
}

fn digit(letter: u8) -> u8 {
    if letter < 58 {
        letter.wrapping_sub(48)
    } else {
        letter.wrapping_sub(87)
    }
}

// The frame of these bytes in hex.
fn frame_of_hex(word: &str) -> Frame {
    let letters = word.as_bytes();
    let mut bytes = [0; 1275];
    let len = (letters.len() / 2).min(1275);
    for k in 0..len {
        bytes[k] = digit(letters[2 * k])
            .wrapping_mul(16)
            .wrapping_add(digit(letters[2 * k + 1]));
    }
    Frame { bytes, len }
}

// Decodes a frame. Answers what its symbols say that encoder and decoder share.
fn decode(
    decoder: &mut Decoder,
    symbols: &mut Symbols,
    kind: Kind,
    frame: &Frame,
    gain: i32,
    out: &mut [i16],
) -> Shared
    requires gain { unsigned_abs gain ≤ 32768 }
    requires out { length out.old ≡ 120 * blocks_of kind * decoder.old.channels }
    ensures { decoder.new.channels ≡ decoder.old.channels }
{
    if frame.len < 2 {
        decoder.conceal(kind, gain, out);
        return decoder.state();
    }
    let before = decoder.state();
    let (bytes, _) = frame.bytes.split_at(frame.len);
    read_frame(bytes, kind, symbols);
    decoder.frame(kind, symbols, gain, out);
    share(kind, symbols, &before)
}

// A digest with one number more.
fn with(digest: u64, number: i64) -> u64 {
    digest
        .wrapping_mul(1_000_003)
        .wrapping_add(number.cast_unsigned())
}

// The digest of samples and of a state.
fn digest_of(out: &[i16], state: Shared) -> u64 {
    let mut digest = 0;
    for k in 0..out.len() {
        digest = with(digest, i64::from(out[k]));
    }
    let numbers = [
        state.range,
        state.seed,
        state.before.period,
        state.before.gain,
        state.before.tapset,
        state.now.period,
        state.now.gain,
        state.now.tapset,
    ];
    for number in numbers {
        digest = with(digest, i64::from(number));
    }
    for channel in 0..2usize {
        for band in 0..21usize {
            digest = with(digest, state.energies[channel][band]);
        }
    }
    digest
}

// Decodes a frame, and answers its digest; None where its state is not what its symbols say.
fn digest(
    decoder: &mut Decoder,
    symbols: &mut Symbols,
    kind: Kind,
    frame: &Frame,
    gain: i32,
    channels: u8,
) -> Option<u64>
    requires gain { unsigned_abs gain ≤ 32768 }
    requires channels { channels ≡ decoder.old.channels }
    requires most { channels ≤ 2 }
    ensures { decoder.new.channels ≡ decoder.old.channels }
{
    let mut room = [0i16; 1920];
    let (out, _) = room.split_at_mut(120 * blocks(kind) * usize::from(channels));
    let shared = decode(decoder, symbols, kind, frame, gain, out);
    if shared != decoder.state() {
        return None;
    }
    Some(digest_of(out, shared))
}

// Whether the next frame of a row gives what the row says.
fn follows(
    decoder: &mut Decoder,
    symbols: &mut Symbols,
    words: &mut Words<'_>,
    gain: i32,
    channels: u8,
) -> bool
    requires gain { unsigned_abs gain ≤ 32768 }
    requires channels { channels ≡ decoder.old.channels }
    requires most { channels ≤ 2 }
    ensures { decoder.new.channels ≡ decoder.old.channels }
{
    let Some(kind) = Kind::of_toc((words.number() % 256) as u8) else {
        return false;
    };
    let frame = frame_of_hex(words.next());
    digest(decoder, symbols, kind, &frame, gain, channels) == Some(words.number())
}

// How many frames of a row give what the row says; the first one that does not ends it.
fn frames_of(
    decoder: &mut Decoder,
    symbols: &mut Symbols,
    words: &mut Words<'_>,
    gain: i32,
    channels: u8,
) -> u32
    requires gain { unsigned_abs gain ≤ 32768 }
    requires channels { channels ≡ decoder.old.channels }
    requires most { channels ≤ 2 }
{
    for k in 0..20u32 {
        if words.rest.is_empty() {
            return k;
        }
        if !follows(decoder, symbols, words, gain, channels) {
            return k;
        }
    }
    20
}

// Whether both channels have the same samples, some of them not 0.
fn is_even(out: &[i16]) -> bool {
    let mut sounds = false;
    for t in 0..out.len() / 2 {
        if out[2 * t] != out[2 * t + 1] {
            return false;
        }
        sounds = sounds || out[2 * t] != 0;
    }
    sounds
}

#[test]
fn streams(rt: HostRuntime) -> Result<(), OutOfMemory> {
    let mut symbols = Symbols::new(rt.alloc())?;
    let mut count = 0u32;
    let mut frames = 0u32;
    for row in STREAMS.lines() {
        let mut words = Words { rest: row };
        let channels = words.channels();
        let invert = words.number() == 1;
        let gain = words.gain();
        let mut decoder = Decoder::new(rt.alloc(), channels, invert)?;
        frames = frames.wrapping_add(frames_of(
            &mut decoder,
            &mut symbols,
            &mut words,
            gain,
            channels,
        ));
        assert!(rt; words.rest.is_empty(), "{row}");
        count = count.wrapping_add(1);
    }
    assert_eq!(rt; (count, frames), (100, 488));
    Ok(())
}

// A frame whose answers cost much.
const MONO: &str = "7ffeffffc0037ffd00affffc01fffff005a127445fffff007fffac291066";

#[test]
fn mono_frame_in_two_channels(rt: HostRuntime) -> Result<(), OutOfMemory> {
    let mut symbols = Symbols::new(rt.alloc())?;
    let mut decoder = Decoder::new(rt.alloc(), 2, true)?;
    let kind = Kind::of_toc(248).expect(&rt, "fullband, 960 samples, mono");
    let mut room = [0i16; 1920];
    let (out, _) = room.split_at_mut(240 * blocks(kind));
    decode(
        &mut decoder,
        &mut symbols,
        kind,
        &frame_of_hex(MONO),
        0,
        out,
    );
    assert!(rt; is_even(out));
    Ok(())
}

#[test]
fn new_decoders(rt: HostRuntime) {
    for channels in 1..3u8 {
        assert!(rt; Decoder::new(rt.alloc(), channels, false).is_ok());
        assert!(rt; Decoder::new(rt.alloc(), channels, true).is_ok());
    }
}

#[test]
fn restarted(rt: HostRuntime) -> Result<(), OutOfMemory> {
    let mut symbols = Symbols::new(rt.alloc())?;
    let mut decoder = Decoder::new(rt.alloc(), 1, true)?;
    let kind = Kind::of_toc(248).expect(&rt, "fullband, 960 samples, mono");
    let frame = frame_of_hex(MONO);
    let first = digest(&mut decoder, &mut symbols, kind, &frame, 0, 1);
    let second = digest(&mut decoder, &mut symbols, kind, &frame, 0, 1);
    decoder.restart();
    assert_eq!(rt; decoder.state(), Shared::start());
    assert_eq!(rt;
        digest(&mut decoder, &mut symbols, kind, &frame, 0, 1),
        first
    );
    assert!(rt; first != second);
    Ok(())
}

// The energies behind the first frame, by the numbers of a program apart from this one.
const MONO_ENERGIES: [i64; 21] = [
    54_400, 70_580, 71_245, 70_887, 72_423, 71_988, 70_964, 69_069, 67_329, 68_148, 65_588, 65_895,
    65_895, 66_407, 65_895, 66_151, 66_151, 65_127, 66_304, 66_151, 67_175,
];

// Shares the symbols of a frame.
fn shared_after(
    symbols: &mut Symbols,
    kind: Kind,
    frame: &Frame,
    before: &Shared,
) -> Option<Shared> {
    if frame.len < 2 {
        return None;
    }
    let (bytes, _) = frame.bytes.split_at(frame.len);
    read_frame(bytes, kind, symbols);
    Some(share(kind, symbols, before))
}

#[test]
fn shared(rt: HostRuntime) -> Result<(), OutOfMemory> {
    let mut symbols = Symbols::new(rt.alloc())?;
    let kind = Kind::of_toc(248).expect(&rt, "fullband, 960 samples, mono");
    let frame = frame_of_hex(MONO);
    let got = shared_after(&mut symbols, kind, &frame, &Shared::start()).expect(
        &rt,
        "a frame of 30 bytes",
    );
    assert_eq!(rt; (got.range, got.seed), (0x0081_bd40, 0x0081_bd40));
    assert_eq!(rt; got.energies, [MONO_ENERGIES; 2]);
    assert_eq!(rt; (got.before, got.now), (Setting::off(), Setting::off()));
    Ok(())
}
