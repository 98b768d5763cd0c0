//! The parts of a RIFF WAVE file, read from their first bytes: the head of the form and the chunks.
//! Places are bytes from the start of the file.
ghost use Rattle.std.specs.Prelude.{◌≡◌, ◌≤◌, ◌<◌, ◌+◌, ◌^◌, length, take, drop, IsTrue};
ghost use Rattle.wav_edge.specs.Fields.{number_at, fits};
ghost use Rattle.wav_edge.specs.Parts.{is_readable, can_follow, bad_riff as broken_form, form_part, chunk_length, sized, data_part, is_supported, described, coded, format_part, chunk_part, part_at};

use byteorder::{ByteOrder, LittleEndian};
use celt_base::status::{Fault, FaultName};

/// What was read before a part.
#[derive(Clone, Copy, Debug, PartialEq, Eq)]
pub enum Seen {
    /// Nothing: the part is the head of the form.
    Nothing,
    /// The head of the form, and chunks other than `fmt `.
    Form,
    /// The chunk `fmt `, with the channels and the rate that it declares.
    Format { channels: u8, rate: u32 },
}

/// What the first bytes of a part say.
#[derive(Clone, Copy, Debug, PartialEq, Eq)]
pub enum Part {
    /// Too few bytes are there to tell.
    More,
    /// The part is of this length, and the next one follows it.
    Passed {
        seen: Seen,
        length: u64,
    },
    /// The part is the head of `data`, whose samples follow it; no size stands for the end of the input.
    Samples {
        channels: u8,
        rate: u32,
        size: Option<u64>,
    },
    /// The file has this fault.
    Broken(Fault),
}

/// The longest beginning of a part that must be there before it is told: the head of a chunk, and the
/// contents of an extensible `fmt ` up to and with the sub-format.
pub const LONGEST: usize = 34;

/// The codec of an extensible format.
const EXTENSIBLE: u16 = 0xFFFE;

/// The first four bytes, or what is there of them.
fn first_four(bytes: &[u8]) -> &[u8]
    ensures { result.now ≡ take 4 bytes.now }
{
    if bytes.len() < 4 {
        return bytes;
    }
    let (first, _) = bytes.split_at(4);
    first
}

/// The bytes from a place on.
fn from_place(bytes: &[u8], place: usize) -> &[u8]
    ensures { result.now ≡ drop place bytes.now }
{
    if bytes.len() < place {
        return &[];
    }
    let (_, rest) = bytes.split_at(place);
    rest
}

/// Whether what is there of a field is a beginning of the word.
#[tactic(auto, unfolding(crate::specs::Fields::fits))]
fn begins(word: &[u8; 4], field: &[u8]) -> bool
    ensures { result ≡ fits word.now field.now }
{
    word.starts_with(field)
}

/// The 16-bit number at a place.
fn short_at(bytes: &[u8], place: usize) -> u16
    requires { place + 2 ≤ length bytes.now }
    ensures { result ≡ number_at 2 place bytes.now }
{
    let (_, rest) = bytes.split_at(place);
    LittleEndian::read_u16(rest)
}

/// The 32-bit number at a place.
fn long_at(bytes: &[u8], place: usize) -> u32
    requires { place + 4 ≤ length bytes.now }
    ensures { result ≡ number_at 4 place bytes.now }
{
    let (_, rest) = bytes.split_at(place);
    LittleEndian::read_u32(rest)
}

/// The form is broken at this place.
fn bad_riff(place: u64) -> Part
    ensures { result ≡ broken_form place }
{
    Part::Broken(Fault {
        name: FaultName::BadRiff,
        at: place,
    })
}

/// The head of the form.
#[tactic(auto, unfolding(crate::specs::Parts::form_part))]
fn form_part(bytes: &[u8]) -> Part
    ensures { result ≡ form_part bytes.now }
{
    if !begins(b"RIFF", first_four(bytes)) {
        bad_riff(0)
    } else if !begins(b"WAVE", first_four(from_place(bytes, 8))) {
        bad_riff(8)
    } else if bytes.len() < 12 {
        Part::More
    } else {
        Part::Passed {
            seen: Seen::Form,
            length: 12,
        }
    }
}

/// The length of a chunk: letters, size, contents and padding.
fn chunk_length(bytes: &[u8]) -> u64
    requires { 8 ≤ length bytes.now }
    ensures { result ≡ chunk_length bytes.now }
{
    let size = u64::from(long_at(bytes, 4));
    8 + size + size % 2
}

/// The head of `data` with this size.
#[tactic(auto, unfolding(crate::specs::Parts::sized))]
fn sized(channels: u8, rate: u32, at: u64, size: u32) -> Part
    requires some_channel { 1 ≤ channels }
    requires place { at < 2 ^ 48 }
    ensures { result ≡ sized channels rate at size }
{
    if size == u32::MAX {
        Part::Samples {
            channels,
            rate,
            size: None,
        }
    } else if size % (2 * u32::from(channels)) == 0 {
        Part::Samples {
            channels,
            rate,
            size: Some(u64::from(size)),
        }
    } else {
        bad_riff(at + 4)
    }
}

/// The chunk `data`, before which `fmt ` must have come.
#[tactic(auto, unfolding(crate::specs::Parts::data_part))]
fn data_part(seen: Seen, at: u64, bytes: &[u8]) -> Part
    requires place { at < 2 ^ 48 }
    requires readable { IsTrue (can_follow seen) }
    ensures { result ≡ data_part seen at bytes.now }
{
    match seen {
        Seen::Format { channels, rate } => {
            if bytes.len() < 8 {
                return Part::More;
            }
            sized(channels, rate, at, long_at(bytes, 4))
        }
        Seen::Nothing => bad_riff(at),
        Seen::Form => bad_riff(at),
    }
}

/// Whether a file of these channels at this rate can be read.
#[tactic(auto, unfolding(crate::specs::Parts::is_readable))]
fn is_readable(channels: u16, rate: u32) -> bool
    ensures value { result ≡ is_readable channels rate }
    ensures some_channel { IsTrue result → 1 ≤ channels }
    ensures two_channels { IsTrue result → channels ≤ 2 }
{
    (channels == 1 || channels == 2) && rate == 48_000
}

/// Whether the chunk `fmt ` describes PCM of 16 bits, in a number of channels and at a rate that can be
/// read.
#[tactic(auto, unfolding(crate::specs::Parts::is_supported))]
fn is_supported(codec: u16, bytes: &[u8]) -> bool
    requires { 24 ≤ length bytes.now }
    ensures value { result ≡ is_supported codec bytes.now }
    ensures few_channels { IsTrue result → number_at 2 10 bytes.now ≤ 2 }
{
    codec == 1 && short_at(bytes, 22) == 16 && is_readable(short_at(bytes, 10), long_at(bytes, 12))
}

/// The fields of `fmt `, by its codec or, in an extensible format, its sub-format.
#[tactic(auto, unfolding(crate::specs::Parts::described))]
fn described(codec: u16, at: u64, bytes: &[u8]) -> Part
    requires { 24 ≤ length bytes.now }
    ensures { result ≡ described codec at bytes.now }
{
    let channels = short_at(bytes, 10);
    let rate = long_at(bytes, 12);
    if is_supported(codec, bytes) {
        return Part::Passed {
            seen: Seen::Format {
                channels: channels as u8,
                rate,
            },
            length: chunk_length(bytes),
        };
    }
    let bits = short_at(bytes, 22);
    Part::Broken(Fault {
        name: FaultName::UnsupportedFormat {
            codec: short_at(bytes, 8),
            bits,
            channels,
            rate,
        },
        at,
    })
}

/// The contents of `fmt `, which begin with the codec.
#[tactic(auto, unfolding(crate::specs::Parts::coded))]
fn coded(at: u64, bytes: &[u8]) -> Part
    requires there { 10 ≤ length bytes.now }
    requires place { at < 2 ^ 48 }
    ensures { result ≡ coded at bytes.now }
{
    let codec = short_at(bytes, 8);
    if codec != EXTENSIBLE {
        if bytes.len() < 24 {
            return Part::More;
        }
        return described(codec, at, bytes);
    }
    if long_at(bytes, 4) < 40 {
        return bad_riff(at + 4);
    }
    if bytes.len() < LONGEST {
        return Part::More;
    }
    described(short_at(bytes, 32), at, bytes)
}

/// The chunk `fmt `, which must be the first one.
#[tactic(auto, unfolding(crate::specs::Parts::format_part))]
fn format_part(seen: Seen, at: u64, bytes: &[u8]) -> Part
    requires { at < 2 ^ 48 }
    ensures { result ≡ format_part seen at bytes.now }
{
    if !matches!(seen, Seen::Form) {
        return bad_riff(at);
    }
    if bytes.len() < 8 {
        Part::More
    } else if long_at(bytes, 4) < 16 {
        bad_riff(at + 4)
    } else if bytes.len() < 10 {
        Part::More
    } else {
        coded(at, bytes)
    }
}

/// A chunk.
#[tactic(auto, unfolding(crate::specs::Parts::chunk_part))]
fn chunk_part(seen: Seen, at: u64, bytes: &[u8]) -> Part
    requires place { at < 2 ^ 48 }
    requires readable { IsTrue (can_follow seen) }
    ensures { result ≡ chunk_part seen at bytes.now }
{
    if bytes.len() < 4 {
        return Part::More;
    }
    let letters = first_four(bytes);
    if begins(b"data", letters) {
        data_part(seen, at, bytes)
    } else if begins(b"fmt ", letters) {
        format_part(seen, at, bytes)
    } else if bytes.len() < 8 {
        Part::More
    } else {
        Part::Passed {
            seen,
            length: chunk_length(bytes),
        }
    }
}

/// What the first bytes of the part at this place say.
#[tactic(auto, unfolding(crate::specs::Parts::part_at))]
pub fn part_at(seen: Seen, at: u64, bytes: &[u8]) -> Part
    requires place { at < 2 ^ 48 }
    requires readable { IsTrue (can_follow seen) }
    ensures { result ≡ part_at seen at bytes.now }
{
    match seen {
        Seen::Nothing => form_part(bytes),
        Seen::Form => chunk_part(seen, at, bytes),
        Seen::Format { .. } => chunk_part(seen, at, bytes),
    }
}
