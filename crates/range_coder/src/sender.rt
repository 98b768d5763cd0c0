//! The state of a writer over its room (RFC 6716, section 5.1). Bytes are sent at once, and a carry goes back into those that
//! were sent.
ghost use Rattle.std.specs.Prelude.{◌≡◌, ℕ, ◌+◌, ◌-◌, ◌*◌, ◌/◌, ◌^◌, ◌<◌, ◌≤◌, List, length, min};

use crate::carry::add;
use crate::logarithm::bit_length;
use crate::shares::Shares;

/// The state of a writer.
#[derive(Clone, Copy, Debug)]
pub struct Sender {
    /// The low end of the interval without the bytes that were sent, the standard's val. From 2^31 on it has a carry.
    pub low: u32,
    /// The width of the interval, the standard's rng.
    pub width: u32,
    /// How many bytes were sent. Those that the room does not hold are counted too.
    pub sent: usize,
    /// How many raw bits were put at the end of the room.
    pub raw: usize,
    ghost some: { 1 ≤ width },
    ghost narrow: { width ≤ 2 ^ 31 },
    ghost within: { low + width < 2 ^ 32 },
}

/// What became of a frame.
#[derive(Clone, Copy, Debug, PartialEq, Eq)]
pub enum Finish {
    /// The room holds the code. `range` is the width of the interval, which the decoder has too.
    Whole { range: u32 },
    /// So many bits were told, which are more than the room holds. The room is zero.
    Overrun { tell: u32 },
}

impl Sender {
    ghost use Rattle.celt_base.specs.Intervals.{Part, Interval, InPart, InBits, whole, depth, narrowed, grown, after};
    ghost use Rattle.celt_base.specs.Paces.{narrowed_pace, grown_pace, after_pace, tell_of};
    ghost use Rattle.celt_base.specs.Questions.{bit_row, part_of, bit_length};
    ghost use Rattle.range_coder.specs.Codes.{IsEnding};
    ghost use Rattle.range_coder.specs.FrameBits.{number};
    ghost use Rattle.range_coder.specs.Windows.{IsCut};
    ghost use Rattle.range_coder.specs.Senders.{sender_pace, Matches, Sends, Leaves};

    /// The state before the first question.
    pub fn new() -> Sender
        ensures matches { (room : List ℕ) → number room ≡ 0 → Matches room result whole }
        ensures width { result.width ≡ 2 ^ 31 }
        ensures sent { result.sent ≡ 0 }
        ensures raw { result.raw ≡ 0 }
    {
        Sender {
            low: 0,
            width: 0x8000_0000,
            sent: 0,
            raw: 0,
        }
    }

    /// Narrows to the part between two depths: how far its lower and its upper end lie below the interval's upper end.
    fn narrow(self, lower: u32, upper: u32) -> Sender
        requires some { upper < lower }
        requires within { lower ≤ self.width }
        ensures matches { (room : List ℕ) (i : Interval) (part : Part) → IsCut self.width part lower upper
            → Matches room self i → Matches room result (narrowed part i) }
        ensures pace { (part : Part) → IsCut self.width part lower upper
            → sender_pace result ≡ narrowed_pace part (sender_pace self) }
        ensures width { result.width ≡ lower - upper }
        ensures sent { result.sent ≡ self.sent }
        ensures raw { result.raw ≡ self.raw }
    {
        Sender {
            low: self.low + (self.width - lower),
            width: lower - upper,
            sent: self.sent,
            raw: self.raw,
        }
    }

    /// Sends a byte where the width is at most 2^23 (RFC 6716, section 5.1.1.1). Its carry goes into the bytes before it.
    fn grow(self, room: &mut [u8]) -> Sender
        requires counted { 8 * self.sent + self.raw < 2 ^ 20 }
        requires room { length room.old ≤ 1275 }
        ensures matches { (i : Interval) → Matches room.old self i → Matches room.new result (grown i) }
        ensures pace { sender_pace result ≡ grown_pace (sender_pace self) }
        ensures wider { min (2 ^ 23 + 1) (self.width * 256) ≤ result.width }
        ensures sent { result.sent ≤ self.sent + 1 }
        ensures stays { 2 ^ 23 < self.width → result.sent ≡ self.sent }
        ensures raw { result.raw ≡ self.raw }
        ensures len { length room.new ≡ length room.old }
    {
        if self.width > 1 << 23 {
            return self;
        }
        if 8 * (self.sent + 1) + self.raw <= 8 * room.len() {
            add(room, self.sent, self.low >> 23);
        }
        Sender {
            low: self.low % (1 << 23) * 256,
            width: self.width * 256,
            sent: self.sent + 1,
            raw: self.raw,
        }
    }

    /// Sends bytes until the width is above 2^23: at most two of them, as no part is narrower than 2^8.
    fn grow_wide(self, room: &mut [u8]) -> Sender
        requires least { 2 ^ 8 ≤ self.width }
        requires counted { 8 * self.sent + self.raw < 2 ^ 19 }
        requires room { length room.old ≤ 1275 }
        ensures matches { (i : Interval) → Matches room.old self i
            → Matches room.new result (grown (grown (grown i))) }
        ensures pace { sender_pace result ≡ grown_pace (grown_pace (grown_pace (sender_pace self))) }
        ensures wide { 2 ^ 23 < result.width }
        ensures counted { 8 * result.sent + result.raw ≤ 8 * self.sent + self.raw + 16 }
        ensures len { length room.new ≡ length room.old }
    {
        self.grow(room).grow(room).grow(room)
    }

    /// Sends the part from `from` up to and without `to`.
    pub fn send_part(self, room: &mut [u8], from: u32, to: u32, shares: Shares) -> Sender
        requires unit { shares.unit ≡ self.width / shares.total }
        requires some { from < to }
        requires within { to ≤ shares.total }
        requires most { shares.total ≤ 2 ^ 15 }
        requires wide { 2 ^ 23 < self.width }
        requires counted { 8 * self.sent + self.raw < 2 ^ 19 }
        requires room { length room.old ≤ 1275 }
        ensures sends { Sends room.old self (InPart (record { from = from; to = to; total = shares.total })) room.new result }
        ensures wide { 2 ^ 23 < result.width }
        ensures counted { 8 * result.sent + result.raw ≤ 8 * self.sent + self.raw + 16 }
        ensures len { length room.new ≡ length room.old }
    {
        let lower = shares.depth_at(self.width, from);
        let upper = shares.depth_at(self.width, to);
        self.narrow(lower, upper).grow_wide(room)
    }

    /// Sends a bit. No division is needed: the parts meet at `width >> p` below the upper end.
    pub fn send_bit(self, room: &mut [u8], p: u32, bit: u32) -> Sender
        requires some { 1 ≤ p }
        requires most { p ≤ 15 }
        requires bit { bit < 2 }
        requires wide { 2 ^ 23 < self.width }
        requires counted { 8 * self.sent + self.raw < 2 ^ 19 }
        requires room { length room.old ≤ 1275 }
        ensures sends { Sends room.old self (InPart (part_of (bit_row p) bit)) room.new result }
        ensures wide { 2 ^ 23 < result.width }
        ensures counted { 8 * result.sent + result.raw ≤ 8 * self.sent + self.raw + 16 }
        ensures len { length room.new ≡ length room.old }
    {
        let upper = self.width >> p;
        if bit == 1 {
            self.narrow(upper, 0).grow_wide(room)
        } else {
            self.narrow(self.width, upper).grow_wide(room)
        }
    }

    /// Sends raw bits to the end of the room, the first one lowest (RFC 6716, section 5.1.3).
    pub fn send_bits(self, room: &mut [u8], count: u32, number: u32) -> Sender
        requires some { 1 ≤ count }
        requires count { count ≤ 24 }
        requires number { number < 2 ^ count }
        requires counted { 8 * self.sent + self.raw < 2 ^ 19 }
        requires room { length room.old ≤ 1275 }
        ensures sends { Sends room.old self (InBits count number) room.new result }
        ensures width { result.width ≡ self.width }
        ensures counted { 8 * result.sent + result.raw ≡ 8 * self.sent + self.raw + count }
        ensures len { length room.new ≡ length room.old }
    {
        let count = count as usize;
        if 8 * self.sent + self.raw + count <= 8 * room.len() {
            let at = room.len() - 1 - self.raw / 8;
            add(room, at, number << (self.raw % 8));
        }
        Sender {
            low: self.low,
            width: self.width,
            sent: self.sent,
            raw: self.raw + count,
        }
    }

    /// How many bits were told, rounded up (RFC 6716, section 4.1.6.1).
    pub fn tell(self) -> u32
        requires counted { 8 * self.sent + self.raw < 2 ^ 20 }
        ensures value { result ≡ tell_of (sender_pace self) }
    {
        self.bits() - bit_length(self.width)
    }

    /// The count of bits, the standard's nbits_total.
    pub fn bits(self) -> u32
        requires counted { 8 * self.sent + self.raw < 2 ^ 20 }
        ensures value { result ≡ (sender_pace self).bits }
    {
        (33 + 8 * self.sent + self.raw) as u32
    }

    /// Ends the code: a room that holds all bits that were told has the code, another one is set to zero.
    pub fn finish(self, room: &mut [u8]) -> Finish
        requires wide { 2 ^ 23 < self.width }
        requires counted { 8 * self.sent + self.raw < 2 ^ 19 }
        requires room { length room.old ≤ 1275 }
        ensures finished { (i : Interval) → Matches room.old self i → Leaves room.new i result }
        ensures len { length room.new ≡ length room.old }
    {
        let tell = self.tell();
        if tell as usize > 8 * room.len() {
            room.fill(0);
            return Finish::Overrun { tell };
        }
        let ending = self.ending();
        if ending.bits > 0 {
            let bytes = (ending.bits + 7) / 8;
            let at = self.sent + bytes as usize - 1;
            add(room, at, ending.first << (8 * bytes - ending.bits));
        }
        Finish::Whole { range: self.width }
    }

    /// The fewest bits with which the interval is told from all others, and the lowest number of so many.
    fn ending(self) -> Ending
        requires wide { 2 ^ 23 < self.width }
        ensures few { result.bits + bit_length self.width ≤ 33 }
        ensures first { result.first ≤ 2 ^ (result.bits + 1) }
        ensures ending { (i : Interval) (front : ℕ) → i.low ≡ front * 2 ^ 31 + self.low → i.width ≡ self.width
            → IsEnding i result.bits (front * 2 ^ result.bits + result.first) }
    {
        let bits = 32 - bit_length(self.width);
        let power = 31 - bits;
        let first = rounded_up(self.low, power);
        if self.low + self.width - (first << power) >= 1 << power {
            return Ending { bits, first };
        }
        Ending {
            bits: bits + 1,
            first: rounded_up(self.low, power - 1),
        }
    }
}

/// The end of a code (RFC 6716, section 5.1.5): with the bytes that were sent before it.
#[derive(Clone, Copy, Debug)]
struct Ending {
    /// How many bits they are, at most nine.
    bits: u32,
    /// The number that they form, most significant first; with a carry one bit more.
    first: u32,
}

/// A number in units of a power of two, rounded up.
fn rounded_up(number: u32, power: u32) -> u32
    requires power { power ≤ 31 }
    requires fits { number + 2 ^ power ≤ 2 ^ 32 }
    ensures value { result ≡ (number + (2 ^ power - 1)) / 2 ^ power }
{
    (number + ((1 << power) - 1)) >> power
}
