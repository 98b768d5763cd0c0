//! Lengths and padding as the octets of a packet say them (RFC 6716, section 3.2).
ghost use Rattle.std.specs.Prelude.{◌≡◌, ◌+◌, ◌*◌, ◌≤◌, ◌<◌, [], ◌∷◌, ◌++◌, All, IfSome, length, sum};
ghost use Rattle.opus_packets.specs.Packet.{length_at, lengths_at, padding_of, fitting, padding_at};

use crate::frames::MOST_FRAMES;
use arrayvec::ArrayVec;
use std::marker::Model;

/// A number, and how many octets say it.
#[derive(Clone, Copy)]
pub(crate) struct Coded {
    pub(crate) value: usize,
    pub(crate) taken: usize,
}

/// The length of a frame that begins these bytes, where it is whole: one octet below 252, or two
/// (RFC 6716, section 3.2.1).
#[tactic(auto, unfolding(crate::specs::Packet::length_at))]
pub(crate) fn length_at(bytes: &[u8]) -> Option<Coded>
    ensures value { result ≡ length_at bytes.now }
    ensures bound { IfSome result (λ l. l.value ≤ 1275) }
    ensures within { IfSome result (λ l. l.taken ≤ length bytes.now) }
    ensures short { IfSome result (λ l. l.taken ≤ 2) }
{
    let first = usize::from(*bytes.first()?);
    if first < 252 {
        return Some(Coded {
            value: first,
            taken: 1,
        });
    }
    let second = usize::from(*bytes.get(1)?);
    Some(Coded {
        value: first + 4 * second,
        taken: 2,
    })
}

/// The padding of a code 3 packet whose bytes from the third on these are, where it is whole and fits
/// into them (RFC 6716, section 3.2.5).
#[tactic(auto, unfolding(crate::specs::Packet::padding_of))]
pub(crate) fn padding_of(padded: bool, bytes: &[u8]) -> Option<Coded>
    ensures value { result ≡ padding_of padded bytes.now }
    ensures within { IfSome result (λ p. p.taken + p.value ≤ length bytes.now) }
{
    if padded {
        padding_within(bytes)
    } else {
        Some(Coded { value: 0, taken: 0 })
    }
}

/// The padding that these bytes begin with.
fn padding_within(bytes: &[u8]) -> Option<Coded>
    ensures value { result ≡ fitting (length bytes.now) (padding_at bytes.now) }
    ensures within { IfSome result (λ p. p.taken + p.value ≤ length bytes.now) }
{
    let mut value = 0;
    for (i, octet) in bytes.iter().enumerate() {
        value += usize::from(*octet).min(254);
        if i + 1 + value > bytes.len() {
            return None;
        }
        if *octet < 255 {
            return Some(Coded {
                value,
                taken: i + 1,
            });
        }
    }
    None
}

/// The lengths of some frames, and how many octets say them.
#[derive(Drop)]
pub(crate) struct Lengths {
    values: ArrayVec<u16, MOST_FRAMES>,
    taken: usize,
}

impl Model for Lengths {
    ghost use Rattle.opus_packets.specs.Packet.{Lengths as Given};

    ghost Value = { Given };

    ghost view = { λ l. record { values = l.values.items; taken = l.taken } };
}

impl Lengths {
    /// How many octets say these lengths.
    pub(crate) fn taken(&self) -> usize
        ensures { result ≡ self.now.taken }
    {
        self.taken
    }

    /// The sum of the lengths.
    pub(crate) fn total(&self) -> usize
        ensures value { result ≡ sum self.now.values }
        ensures bound { result ≤ 48 * 65535 }
    {
        let mut total = 0;
        for length in self.values.as_slice() {
            total += usize::from(*length);
        }
        total
    }

    /// The lengths with one more behind them.
    pub(crate) fn followed_by(self, last: u16) -> ArrayVec<u16, MOST_FRAMES>
        requires { length self.values < 48 }
        ensures { result.items ≡ self.values ++ last ∷ [] }
    {
        let mut values = self.values;
        values.push(last);
        values
    }
}

/// The lengths of the `n` frames that begin these bytes, where they are whole (RFC 6716, section 3.2.5).
pub(crate) fn lengths_at(n: usize, bytes: &[u8]) -> Option<Lengths>
    requires { n < 48 }
    ensures value { result ≡ lengths_at n bytes.now }
    ensures count { IfSome result (λ l. length l.values ≡ n) }
    ensures short { IfSome result (λ l. l.taken ≤ 2 * n) }
    ensures limited { IfSome result (λ l. All (λ v. v ≤ 1275) l.values) }
{
    let mut values = ArrayVec::new();
    let mut taken = 0;
    for _ in 0..n {
        let (_, rest) = bytes.split_at(taken);
        let length = length_at(rest)?;
        values.push(length.value as u16);
        taken += length.taken;
    }
    Some(Lengths { values, taken })
}
