//! How the bits of a band fall to its pulses and its fine energy (RFC 6716, section 4.3.3).
ghost use Rattle.std.specs.Prelude.{◌≡◌, ◌+◌, ◌*◌, ◌<◌, ◌≤◌};
ghost use Rattle.bit_allocation.specs.Amounts.{bit_each, most_of};
ghost use Rattle.bit_allocation.specs.Shares.{share_of, numbers_of, logarithm_of, raised_once, raised_twice, raised_bits, fine_of, wide_split, single_split, topped, split_of, skipped_split};

use crate::amounts::each;
use crate::bands::Bands;
use crate::stereo::Stereo;
use celt_base::kind::Kind;
use celt_tables::bands::WIDTH_LOGARITHMS;
use celt_tables::{coefficients, edge, size, width};

/// By how many eighths of a bit the fine bits stay below the bits of a number.
const FINE_OFFSET: u32 = 21;

/// The bits of a band.
#[derive(Clone, Copy)]
pub struct Split {
    /// The eighths of a bit for its pulses.
    pub pulses: u32,
    /// The bits of its fine energy in each channel.
    pub fine: u32,
    /// Whether bits left at the end reach it only in their second round.
    pub priority: bool,
    /// The eighths of a bit that it leaves to the bands above.
    pub balance: u32,
}

/// A coded band's bits with its share of what is left.
pub fn share(bits: u32, left: u32, coded: u32, band: u32) -> u32
    requires coded { coded ≤ 21 }
    requires band { band < coded }
    requires most { bits + left ≤ 81600 }
    ensures value { result ≡ share_of bits left coded band }
    ensures within { result ≤ bits + left }
{
    let all = edge(coded);
    let wide = width(band);
    let even = left / all;
    let beyond = (left - even * all).saturating_sub(edge(band));
    bits + even * wide + beyond.min(wide)
}

// How many numbers a band's bits are for.
fn numbers(kind: Kind, stereo: Stereo, band: u32) -> u32
    requires { band ≤ 20 }
    ensures value { result ≡ numbers_of kind stereo band }
    ensures least { 1 ≤ result }
    ensures most { result ≤ 353 }
{
    let all = coefficients(kind, band);
    if kind.channels == 2 && size(kind, band) > 2 && !stereo.dual && band < stereo.intensity {
        all + 1
    } else {
        all
    }
}

// The logarithm of a band's coefficients.
fn logarithm(kind: Kind, band: u32) -> u32
    requires { band ≤ 20 }
    ensures value { result ≡ logarithm_of kind band }
    ensures most { result ≤ 60 }
{
    WIDTH_LOGARITHMS[band as usize] + 8 * u32::from(kind.lm)
}

// A band's bits, and more for the logarithm of its coefficients.
fn raised_once(size: u32, numbers: u32, lift: u32, bits: u32) -> u32
    requires numbers { numbers ≤ 353 }
    requires lift { lift ≤ 21180 }
    requires bits { bits ≤ 26752 }
    ensures value { result ≡ raised_once size numbers lift bits }
    ensures most { result ≤ 40000 }
{
    let raised = bits + lift / 2;
    if size == 2 {
        raised + 2 * numbers
    } else {
        raised
    }
}

// More again where there are few bits for each number.
fn raised_twice(numbers: u32, lift: u32, bits: u32) -> u32
    requires numbers { numbers ≤ 353 }
    requires lift { lift ≤ 21180 }
    requires bits { bits ≤ 40000 }
    ensures value { result ≡ raised_twice numbers lift bits }
    ensures most { result ≤ 50000 }
{
    if bits < (FINE_OFFSET + 16) * numbers {
        bits + lift / 4
    } else if bits < (FINE_OFFSET + 24) * numbers {
        bits + lift / 8
    } else {
        bits
    }
}

// A band's bits, and more for bands that have many coefficients, or few bits for each number.
fn raised_bits(kind: Kind, numbers: u32, band: u32, bits: u32) -> u32
    requires band { band ≤ 20 }
    requires numbers { numbers ≤ 353 }
    requires bits { bits ≤ 26752 }
    ensures value { result ≡ raised_bits kind numbers band bits }
    ensures most { result ≤ 50000 }
{
    let lift = numbers * logarithm(kind, band);
    let once = raised_once(size(kind, band), numbers, lift, bits);
    raised_twice(numbers, lift, once)
}

// The bits of fine energy in each channel.
fn fine(kind: Kind, numbers: u32, raised: u32, bits: u32) -> u32
    requires least { 1 ≤ numbers }
    requires most { numbers ≤ 353 }
    requires raised { raised ≤ 50000 }
    ensures value { result ≡ fine_of kind.channels numbers raised bits }
    ensures most { result ≤ 8 }
    ensures within { bit_each kind * result ≤ bits }
{
    let channels = u32::from(kind.channels);
    let fine = raised.saturating_sub((FINE_OFFSET - 4) * numbers) / (8 * numbers);
    if channels * fine > bits / 8 {
        return (bits / channels / 8).min(8);
    }
    fine.min(8)
}

// The split of a band of more than one coefficient.
fn wide_split(bands: &Bands, stereo: Stereo, band: u32, bits: u32) -> Split
    requires { band < bands.now.request.kind.end }
    ensures value { result ≡ wide_split bands.now.request.kind stereo band bits }
    ensures fine { result.fine ≤ 8 }
    ensures balance { result.balance ≤ bits }
{
    let kind = bands.request.kind;
    let most = bands.most[band as usize];
    let bit = each(kind);
    let kept = bits.min(most);
    let numbers = numbers(kind, stereo, band);
    let raised = raised_bits(kind, numbers, band, kept);
    let fine = fine(kind, numbers, raised, kept);
    Split {
        pulses: kept - bit * fine,
        fine,
        priority: raised <= 8 * numbers * fine + FINE_OFFSET * numbers,
        balance: bits.saturating_sub(most),
    }
}

// The split of a band of one coefficient, which has a sign in each channel.
fn single_split(kind: Kind, bits: u32) -> Split
    ensures value { result ≡ single_split kind bits }
    ensures fine { result.fine ≤ 8 }
    ensures balance { result.balance ≤ bits }
{
    let bit = each(kind);
    Split {
        pulses: bits.min(bit),
        fine: 0,
        priority: true,
        balance: bits.saturating_sub(bit),
    }
}

// What is left over becomes more fine energy, up to 8 bits.
fn topped(kind: Kind, before: u32, split: Split) -> Split
    requires fine { split.fine ≤ 8 }
    requires before { before ≤ 81600 }
    requires balance { split.balance ≤ 163200 }
    ensures { result ≡ topped kind before split }
{
    if split.balance == 0 {
        return split;
    }
    let bit = each(kind);
    let more = (split.balance / bit).min(8 - split.fine);
    Split {
        pulses: split.pulses,
        fine: split.fine + more,
        priority: split.balance <= bit * more + before,
        balance: split.balance - bit * more,
    }
}

/// The split of a coded band that has so many bits beside the balance before it.
pub fn coded_split(bands: &Bands, stereo: Stereo, band: u32, bits: u32, before: u32) -> Split
    requires band { band < bands.now.request.kind.end }
    requires bits { bits ≤ 81600 }
    requires before { before ≤ 81600 }
    ensures { result ≡ split_of bands.now.request.kind stereo band bits before }
{
    let kind = bands.request.kind;
    if size(kind, band) == 1 {
        return topped(kind, before, single_split(kind, bits + before));
    }
    topped(kind, before, wide_split(bands, stereo, band, bits + before))
}

/// The split of a band that is not coded.
pub fn skipped_split(kind: Kind, bits: u32, before: u32) -> Split
    ensures { result ≡ skipped_split kind bits before }
{
    let fine = bits / each(kind);
    Split {
        pulses: 0,
        fine,
        priority: fine < 1,
        balance: before,
    }
}
