//! The window through which a reader sees its frame. The standard's decoder keeps the same state (RFC 6716, sections
//! 4.1.1 and 4.1.2): how far the frame's number is below the last number of the interval, rather than the number.
ghost use Rattle.std.specs.Prelude.{◌≡◌, ℕ, ◌+◌, ◌-◌, ◌*◌, ◌/◌, ◌^◌, ◌<◌, ◌≤◌, List, length, min, slice_index};

use crate::shares::Shares;

/// The state of a reader over its frame.
#[derive(Clone, Copy, Debug)]
pub struct Window {
    /// The width of the interval, the standard's rng.
    pub width: u32,
    /// How many numbers of the interval are above the frame's number, the standard's val.
    pub distance: u32,
    /// The count of bits, the standard's nbits_total.
    pub bits: u32,
    /// How many bytes were taken from the front of the frame. The lowest bit of the last one is not yet in the number.
    pub taken: usize,
    /// The last byte that was taken.
    pub last: u8,
    ghost inside: { distance < width },
    ghost narrow: { width ≤ 2 ^ 31 },
    ghost begun: { 33 ≤ bits },
    ghost counted: { 8 * taken < bits },
}

/// A byte of the frame; 0 past its end.
fn byte_at(frame: &[u8], place: usize) -> u8
    ensures { result ≡ slice_index frame.now place }
{
    frame.get(place).copied().unwrap_or(0)
}

/// A byte counted from the end of the frame; 0 past its front.
fn byte_from_end(frame: &[u8], place: usize) -> u8
    ensures inside { place < length frame.now → result ≡ slice_index frame.now (length frame.now - 1 - place) }
    ensures past { length frame.now ≤ place → result ≡ 0 }
{
    if place < frame.len() {
        frame[frame.len() - 1 - place]
    } else {
        0
    }
}

impl Window {
    ghost use Rattle.celt_base.specs.Intervals.{Part, Interval, InPart, InBits, whole, narrowed, grown, after};
    ghost use Rattle.celt_base.specs.Paces.{narrowed_pace, grown_pace, after_pace};
    ghost use Rattle.celt_base.specs.Questions.{bit_row, part_of};
    ghost use Rattle.range_coder.specs.Reading.{Holds};
    ghost use Rattle.range_coder.specs.FrameBits.{tail};
    ghost use Rattle.range_coder.specs.Windows.{IsCut, Shows, window_pace, value_of, TakesPart};

    /// The window at the start of a frame: four bytes are taken.
    pub fn new(frame: &[u8]) -> Window
        ensures shows { Shows frame.now result whole }
        ensures width { result.width ≡ 2 ^ 31 }
        ensures bits { result.bits ≡ 33 }
    {
        let last = byte_at(frame, 3);
        let first = u32::from(byte_at(frame, 0));
        let second = u32::from(byte_at(frame, 1));
        let third = u32::from(byte_at(frame, 2));
        let word = ((first * 256 + second) * 256 + third) * 256 + u32::from(last);
        Window {
            width: 0x8000_0000,
            distance: 0x7fff_ffff - word / 2,
            bits: 33,
            taken: 4,
            last,
        }
    }

    /// Narrows to the part between two depths: how far its lower and its upper end lie below the interval's upper end.
    fn narrow(self, lower: u32, upper: u32) -> Window
        requires holds_upper { upper ≤ self.distance }
        requires holds_lower { self.distance < lower }
        requires within { lower ≤ self.width }
        ensures shows { (frame : List ℕ) (i : Interval) (part : Part) → IsCut self.width part lower upper
            → Shows frame self i → Shows frame result (narrowed part i) }
        ensures holds { (frame : List ℕ) (i : Interval) (part : Part) → IsCut self.width part lower upper
            → Shows frame self i → Holds frame (narrowed part i) }
        ensures pace { (part : Part) → IsCut self.width part lower upper
            → window_pace result ≡ narrowed_pace part (window_pace self) }
        ensures width { result.width ≡ lower - upper }
        ensures bits { result.bits ≡ self.bits }
    {
        Window {
            width: lower - upper,
            distance: self.distance - upper,
            bits: self.bits,
            taken: self.taken,
            last: self.last,
        }
    }

    /// Takes a byte where the width is at most 2^23 (RFC 6716, section 4.1.2.1).
    fn grow(self, frame: &[u8]) -> Window
        requires { self.bits < 2 ^ 31 }
        ensures shows { (i : Interval) → Shows frame.now self i → Shows frame.now result (grown i) }
        ensures pace { window_pace result ≡ grown_pace (window_pace self) }
        ensures wider { min (2 ^ 23 + 1) (self.width * 256) ≤ result.width }
        ensures bits { result.bits ≤ self.bits + 8 }
        ensures stays { 2 ^ 23 < self.width → result.bits ≡ self.bits }
    {
        if self.width > 1 << 23 {
            return self;
        }
        let next = byte_at(frame, self.taken);
        let byte = u32::from(self.last) % 2 * 128 + u32::from(next) / 2;
        Window {
            width: self.width * 256,
            distance: self.distance * 256 + 255 - byte,
            bits: self.bits + 8,
            taken: self.taken + 1,
            last: next,
        }
    }

    /// Takes bytes until the width is above 2^23: at most two of them, as no part is narrower than 2^8.
    fn grow_wide(self, frame: &[u8]) -> Window
        requires least { 2 ^ 8 ≤ self.width }
        requires bits { self.bits < 2 ^ 30 }
        ensures shows { (i : Interval) → Shows frame.now self i
            → Shows frame.now result (grown (grown (grown i))) }
        ensures pace { window_pace result ≡ grown_pace (grown_pace (grown_pace (window_pace self))) }
        ensures wide { 2 ^ 23 < result.width }
        ensures bits { result.bits ≤ self.bits + 16 }
    {
        self.grow(frame).grow(frame).grow(frame)
    }

    /// The place of the total at which the frame's number lies.
    pub fn value_of(self, shares: Shares) -> u32
        requires unit { shares.unit ≡ self.width / shares.total }
        requires some { 1 ≤ shares.total }
        requires most { shares.total ≤ 2 ^ 15 }
        requires wide { 2 ^ 23 < self.width }
        ensures value { result ≡ value_of self shares.total }
        ensures below { result < shares.total }
    {
        shares.total - (self.distance / shares.unit + 1).min(shares.total)
    }

    /// The window after the part from `from` up to and without `to`, in which the frame's number lies.
    pub fn take_part(self, frame: &[u8], from: u32, to: u32, shares: Shares) -> Window
        requires unit { shares.unit ≡ self.width / shares.total }
        requires above { from ≤ value_of self shares.total }
        requires below { value_of self shares.total < to }
        requires within { to ≤ shares.total }
        requires most { shares.total ≤ 2 ^ 15 }
        requires wide { 2 ^ 23 < self.width }
        requires bits { self.bits < 2 ^ 30 }
        ensures takes { TakesPart frame.now self (record { from = from; to = to; total = shares.total }) result }
        ensures wide { 2 ^ 23 < result.width }
        ensures grown { result.bits ≤ self.bits + 16 }
    {
        let lower = shares.depth_at(self.width, from);
        let upper = shares.depth_at(self.width, to);
        self.narrow(lower, upper).grow_wide(frame)
    }

    /// The part of a bit's answer, and the window after it. No division is needed: the parts meet at `width >> p` below
    /// the upper end.
    pub fn take_bit(self, frame: &[u8], p: u32) -> (u32, Window)
        requires some { 1 ≤ p }
        requires most { p ≤ 15 }
        requires wide { 2 ^ 23 < self.width }
        requires bits { self.bits < 2 ^ 30 }
        ensures bit { result.0 < 2 }
        ensures takes { TakesPart frame.now self (part_of (bit_row p) result.0) result.1 }
        ensures wide { 2 ^ 23 < result.1.width }
        ensures grown { result.1.bits ≤ self.bits + 16 }
    {
        let upper = self.width >> p;
        if self.distance < upper {
            (1, self.narrow(upper, 0).grow_wide(frame))
        } else {
            (0, self.narrow(self.width, upper).grow_wide(frame))
        }
    }

    /// The number of the next raw bits, the first one lowest (RFC 6716, section 4.1.4).
    pub fn raw_bits(self, frame: &[u8], count: u32) -> u32
        requires { count ≤ 24 }
        ensures value { (i : Interval) → Shows frame.now self i → tail frame.now i.raw count ≡ result }
        ensures below { result < 2 ^ count }
    {
        let raw = self.bits as usize - 1 - 8 * self.taken;
        let first = raw / 8;
        let low = u32::from(byte_from_end(frame, first));
        let second = u32::from(byte_from_end(frame, first + 1));
        let third = u32::from(byte_from_end(frame, first + 2));
        let high = u32::from(byte_from_end(frame, first + 3));
        let word = ((high * 256 + third) * 256 + second) * 256 + low;
        (word >> (raw % 8)) % (1 << count)
    }

    /// The window after raw bits.
    pub fn pass_bits(self, count: u32) -> Window
        requires count { count ≤ 24 }
        requires bits { self.bits < 2 ^ 31 }
        ensures shows { (frame : List ℕ) (i : Interval) (number : ℕ) → Shows frame self i
            → Shows frame result (after i (InBits count number)) }
        ensures pace { (number : ℕ) → window_pace result ≡ after_pace (window_pace self) (InBits count number) }
        ensures width { result.width ≡ self.width }
        ensures bits { result.bits ≡ self.bits + count }
    {
        Window {
            width: self.width,
            distance: self.distance,
            bits: self.bits + count,
            taken: self.taken,
            last: self.last,
        }
    }
}
