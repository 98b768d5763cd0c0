//! The spreading that is wanted.
ghost use Rattle.std.specs.Prelude.{◌≡◌, ◌⊎◌, ℕ, ◌+◌, ◌*◌, ◌^◌, ◌<◌, ◌≤◌, nat_lt, unsigned_abs, All, [], length, count_by, Some};
ghost use Rattle.fixed_math.specs.Unit.{square as squared, energy};
ghost use Rattle.celt_analysis.specs.Signals.{frame_size};
ghost use Rattle.celt_encode.specs.Spreads.{is_small, small_in, over_bands, spread_by, spread_for};

use crate::units::band_in;
use celt_analysis::Analysis;
use celt_base::kind::Kind;
use celt_tables::size;

fn square(x: i64) -> u128
    requires { unsigned_abs x < 2 ^ 38 }
    ensures value { result ≡ squared x }
    ensures most { result ≤ 2 ^ 76 }
{
    let wide = x as i128;
    (wide * wide) as u128
}

// The sum of the squares.
fn energy_of(band: &[i64]) -> u128
    requires count { length band.now ≤ 176 }
    requires sizes { All (λ x. unsigned_abs x < 2 ^ 38) band.now }
    ensures value { result ≡ energy band.now }
    ensures most { result ≤ 2 ^ 84 }
{
    let mut sum: u128 = 0;
    for i in 0..band.len() {
        sum += square(band[i]);
    }
    sum
}

// The least number that is not below a part of the energy.
fn part_of(energy: u128, parts: u128) -> u128
    requires energy { energy ≤ 2 ^ 84 }
    requires some { 1 ≤ parts }
    requires parts { parts ≤ 2 ^ 12 }
    ensures value { (n : ℕ) → nat_lt (parts * n) energy ≡ nat_lt n result }
    ensures most { result ≤ energy }
{
    (energy + parts - 1) / parts
}

// How many squares are below a bound.
fn squares_below(band: &[i64], bound: u128) -> u32
    requires count { length band.now ≤ 176 }
    requires sizes { All (λ x. unsigned_abs x < 2 ^ 38) band.now }
    ensures value { result ≡ count_by (λ x. nat_lt (squared x) bound) band.now }
    ensures most { result ≤ length band.now }
{
    let mut count = 0;
    for i in 0..band.len() {
        if square(band[i]) < bound {
            count += 1;
        }
    }
    count
}

// The square of a number of 32 bits.
fn narrow_square(x: i64) -> u64
    requires { unsigned_abs x < 2 ^ 31 }
    ensures { result ≡ squared x }
{
    let narrow = (x as i32) as i64;
    (narrow * narrow) as u64
}

// The same where the energy is below 2^62.
fn narrow_squares_below(band: &[i64], bound: u64) -> u32
    requires count { length band.now ≤ 176 }
    requires energy { energy band.now < 2 ^ 62 }
    ensures value { result ≡ count_by (λ x. nat_lt (squared x) bound) band.now }
    ensures most { result ≤ length band.now }
{
    let mut count = 0;
    for i in 0..band.len() {
        if narrow_square(band[i]) < bound {
            count += 1;
        }
    }
    count
}

// How many of a band's coefficients are small.
fn small_count(band: &[i64]) -> u32
    requires some { 1 ≤ length band.now }
    requires count { length band.now ≤ 176 }
    requires sizes { All (λ x. unsigned_abs x < 2 ^ 38) band.now }
    ensures value { result ≡ small_in band.now }
    ensures most { result ≤ length band.now }
{
    let energy = energy_of(band);
    let bound = part_of(energy, 16 * band.len() as u128);
    if energy < 0x4000_0000_0000_0000 {
        narrow_squares_below(band, bound as u64)
    } else {
        squares_below(band, bound)
    }
}

/// How many coefficients there are, and how many of them are small.
#[derive(Clone, Copy)]
pub struct Counts {
    pub all: u32,
    pub small: u32,
}

// Over the bands of a channel with eight coefficients or more.
fn counts_in(kind: Kind, spectrum: &[i64]) -> Counts
    requires count { length spectrum.now ≡ frame_size kind }
    requires sizes { All (λ x. unsigned_abs x < 2 ^ 38) spectrum.now }
    ensures all { result.all ≡ over_bands length kind spectrum.now kind.end }
    ensures small { result.small ≡ over_bands small_in kind spectrum.now kind.end }
    ensures most { result.all ≤ 21 * 176 }
    ensures few { result.small ≤ result.all }
{
    let mut counts = Counts { all: 0, small: 0 };
    for band in 0..u32::from(kind.end) {
        let count = size(kind, band);
        if count >= 8 {
            counts.all += count;
            counts.small += small_count(band_in(kind, spectrum, band));
        }
    }
    counts
}

// The spreading by the number of the coefficients and how many of them are small.
#[tactic(auto, unfolding(crate::specs::Spreads::spread_by))]
fn spread_by(all: u32, small: u32) -> u32
    requires all { all ≤ 2 ^ 13 }
    requires small { small ≤ all }
    ensures value { result ≡ spread_by all small }
    ensures most { result ≤ 3 }
{
    if all == 0 {
        2
    } else if 4 * small < all {
        3
    } else if 2 * small < all {
        2
    } else if 4 * small < 3 * all {
        1
    } else {
        0
    }
}

// A spectrum that the frame does not have counts for nothing.
fn counts_of(kind: Kind, spectrum: &[i64]) -> Counts
    requires count { (length spectrum.now ≡ frame_size kind) ⊎ (spectrum.now ≡ []) }
    requires sizes { All (λ x. unsigned_abs x < 2 ^ 38) spectrum.now }
    ensures all { result.all ≡ over_bands length kind spectrum.now kind.end }
    ensures small { result.small ≡ over_bands small_in kind spectrum.now kind.end }
    ensures most { result.all ≤ 21 * 176 }
    ensures few { result.small ≤ result.all }
{
    if spectrum.is_empty() {
        return Counts { all: 0, small: 0 };
    }
    counts_in(kind, spectrum)
}

/// The spreading that is wanted.
#[tactic(auto, unfolding(crate::specs::Spreads::spread_for))]
pub fn spread(kind: Kind, a: &Analysis) -> u32
    requires { a.now.kind ≡ Some kind }
    ensures value { result ≡ spread_for kind a.now }
    ensures most { result ≤ 3 }
{
    let left = counts_of(kind, a.spectrum(0));
    let right = counts_of(kind, a.spectrum(1));
    spread_by(left.all + right.all, left.small + right.small)
}
