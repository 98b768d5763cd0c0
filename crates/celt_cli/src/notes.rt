//! The notes on standard error: one line where the words are not accepted or the input is refused.
ghost use Rattle.std.specs.Prelude.{◌≡◌, ◌≤◌, ◌+◌, ◌++◌, ◌∷◌, [], length, take, codes};
ghost use Rattle.celt_session.specs.Texts.{IsPut};
ghost use Rattle.celt_cli.specs.Notes.{number_of, word_of, place_of, place_word, labelled_of, details_of, opening_of, refusal_of};

use celt_base::status::{Fault, FaultName};
use celt_session::text::{put_byte, put_decimal, put_text};

/// The room of the longest line.
pub const MOST_LINE: usize = 256;

/// What the place of a fault counts.
#[derive(Clone, Copy, Debug, PartialEq, Eq)]
pub enum Place {
    Page,
    Packet,
    Byte,
    Line,
}

/// The number of a fault.
fn number(name: FaultName) -> u8
    ensures { result ≡ number_of name }
{
    match name {
        FaultName::BadCapture => 1,
        FaultName::BadPageVersion => 2,
        FaultName::BadChecksum => 3,
        FaultName::OtherStream => 4,
        FaultName::PageGap => 5,
        FaultName::BadContinuation => 6,
        FaultName::BadHead => 7,
        FaultName::UnsupportedFamily => 8,
        FaultName::BadTags => 9,
        FaultName::PacketTooLong => 10,
        FaultName::BadPacket { rule: _ } => 11,
        FaultName::NotCelt { config: _ } => 12,
        FaultName::BadGranule => 13,
        FaultName::AfterEnd => 14,
        FaultName::Truncated => 15,
        FaultName::BadRiff => 20,
        FaultName::UnsupportedFormat {
            codec: _,
            bits: _,
            channels: _,
            rate: _,
        } => 21,
        FaultName::NoData => 22,
        FaultName::DataTruncated => 23,
        FaultName::ChannelChange => 24,
        FaultName::NoLink => 25,
        FaultName::BadText => 26,
        FaultName::TextOverrun => 27,
        FaultName::TextTruncated => 28,
    }
}

/// The name of a fault.
fn word(name: FaultName) -> &'static str
    ensures value { result.now ≡ word_of name }
    ensures short { length result.now ≤ 17 }
{
    match name {
        FaultName::BadCapture => "BadCapture",
        FaultName::BadPageVersion => "BadPageVersion",
        FaultName::BadChecksum => "BadChecksum",
        FaultName::OtherStream => "OtherStream",
        FaultName::PageGap => "PageGap",
        FaultName::BadContinuation => "BadContinuation",
        FaultName::BadHead => "BadHead",
        FaultName::UnsupportedFamily => "UnsupportedFamily",
        FaultName::BadTags => "BadTags",
        FaultName::PacketTooLong => "PacketTooLong",
        FaultName::BadPacket { rule: _ } => "BadPacket",
        FaultName::NotCelt { config: _ } => "NotCelt",
        FaultName::BadGranule => "BadGranule",
        FaultName::AfterEnd => "AfterEnd",
        FaultName::Truncated => "Truncated",
        FaultName::BadRiff => "BadRiff",
        FaultName::UnsupportedFormat {
            codec: _,
            bits: _,
            channels: _,
            rate: _,
        } => "UnsupportedFormat",
        FaultName::NoData => "NoData",
        FaultName::DataTruncated => "DataTruncated",
        FaultName::ChannelChange => "ChannelChange",
        FaultName::NoLink => "NoLink",
        FaultName::BadText => "BadText",
        FaultName::TextOverrun => "TextOverrun",
        FaultName::TextTruncated => "TextTruncated",
    }
}

/// What the place of a fault counts.
fn counted(name: FaultName) -> Place
    ensures { result ≡ place_of name }
{
    match name {
        FaultName::PacketTooLong => Place::Packet,
        FaultName::BadPacket { rule: _ } => Place::Packet,
        FaultName::NotCelt { config: _ } => Place::Packet,
        FaultName::BadRiff => Place::Byte,
        FaultName::UnsupportedFormat {
            codec: _,
            bits: _,
            channels: _,
            rate: _,
        } => Place::Byte,
        FaultName::NoData => Place::Byte,
        FaultName::DataTruncated => Place::Byte,
        FaultName::BadText => Place::Line,
        FaultName::TextOverrun => Place::Line,
        FaultName::TextTruncated => Place::Line,
        _ => Place::Page,
    }
}

/// The word of a place.
fn place_name(place: Place) -> &'static str
    ensures value { result.now ≡ place_word place }
    ensures short { length result.now ≤ 6 }
{
    match place {
        Place::Page => "page",
        Place::Packet => "packet",
        Place::Byte => "byte",
        Place::Line => "line",
    }
}

/// Puts a space, a label, a space and a number, and answers the place behind them.
pub(crate) fn put_labelled(out: &mut [u8], at: usize, label: &str, number: u64) -> usize
    requires { at + length label.now + 22 ≤ length out.old }
    ensures put { IsPut out.old out.new at result (labelled_of label.now number) }
    ensures most { result ≤ at + length label.now + 22 }
{
    let at = put_byte(out, at, b' ');
    let at = put_text(out, at, label.as_bytes());
    let at = put_byte(out, at, b' ');
    put_decimal(out, at, number)
}

/// Puts what a fault says of the form of a WAVE file's samples.
fn put_form(out: &mut [u8], at: usize, codec: u16, bits: u16, channels: u16, rate: u32) -> usize
    requires { at + 120 ≤ length out.old }
    ensures put { IsPut out.old out.new at result ((labelled_of (codes "codec") codec ++ labelled_of (codes "bits") bits)
        ++ (labelled_of (codes "channels") channels ++ labelled_of (codes "rate") rate)) }
    ensures most { result ≤ at + 120 }
{
    let at = put_labelled(out, at, "codec", u64::from(codec));
    let at = put_labelled(out, at, "bits", u64::from(bits));
    let at = put_labelled(out, at, "channels", u64::from(channels));
    put_labelled(out, at, "rate", u64::from(rate))
}

/// Puts what a fault says besides its place.
fn put_details(out: &mut [u8], at: usize, name: FaultName) -> usize
    requires { at + 120 ≤ length out.old }
    ensures put { IsPut out.old out.new at result (details_of name) }
    ensures most { result ≤ at + 120 }
{
    match name {
        FaultName::BadPacket { rule } => put_labelled(out, at, "rule", u64::from(rule)),
        FaultName::NotCelt { config } => put_labelled(out, at, "config", u64::from(config)),
        FaultName::UnsupportedFormat {
            codec,
            bits,
            channels,
            rate,
        } => put_form(out, at, codec, bits, channels, rate),
        _ => at,
    }
}

/// Puts `celt: `, a number, a space and a word.
fn put_opening(out: &mut [u8], number: u8, word: &str) -> usize
    requires { length word.now + 27 ≤ length out.old }
    ensures put { IsPut out.old out.new 0 result (opening_of number word.now) }
    ensures most { result ≤ length word.now + 27 }
{
    let at = put_text(out, 0, b"celt: ");
    let at = put_decimal(out, at, u64::from(number));
    let at = put_byte(out, at, b' ');
    put_text(out, at, word.as_bytes())
}

/// Puts the line of a fault, and answers its length.
#[tactic(auto, unfolding(crate::specs::Notes::refusal_of))]
pub fn put_refusal(out: &mut [u8; MOST_LINE], fault: Fault) -> usize
    ensures line { take result out.new ≡ refusal_of fault }
    ensures bound { result ≤ 256 }
{
    let at = put_opening(out, number(fault.name), word(fault.name));
    let at = put_labelled(out, at, place_name(counted(fault.name)), fault.at);
    let at = put_details(out, at, fault.name);
    put_byte(out, at, b'\n')
}
