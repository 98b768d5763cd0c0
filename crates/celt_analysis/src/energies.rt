//! The energies of bands that an encoder aims at (RFC 6716, section 4.3.2), log2 in units of 2^-10.
ghost use Rattle.std.specs.Prelude.{◌≡◌, ◌+◌, ◌*◌, ◌^◌, ◌<◌, ◌≤◌, nat_lt, if◌then◌else◌, pos, ◌-ℤ◌, unsigned_abs, slice_index, length, All};
ghost use Rattle.celt_tables.specs.declared.energies.TheConstants.{MEANS};
ghost use Rattle.fixed_math.specs.Items.{item, listed};
ghost use Rattle.fixed_math.specs.Powers.{logarithm};
ghost use Rattle.fixed_math.specs.Root.{root};
ghost use Rattle.celt_analysis.specs.Sums.{squared, energy};
ghost use Rattle.celt_analysis.specs.Energies.{are_zero, band_amplitude, height_of, target_of, row_target};

use celt_tables::energies::MEANS;
use celt_tables::{edge, width};
use fixed_math::{Exp, isq};

/// The least energy, log2 in units of 2^-10.
pub const FLOOR: i64 = -28672;

// The square of an item.
fn square(x: i64) -> u128
    requires { unsigned_abs x < 2 ^ 38 }
    ensures value { result ≡ squared x }
    ensures size { result ≤ 2 ^ 76 }
{
    let wide = x as i128;
    (wide * wide) as u128
}

// The energy of `count` items from place `from` on.
fn energy_of(spectrum: &[i64], from: usize, count: usize) -> u128
    requires few { count ≤ 176 }
    requires room { from + count ≤ length spectrum.now }
    requires sizes { All (λ x. unsigned_abs x < 2 ^ 38) spectrum.now }
    ensures value { result ≡ energy (item spectrum.now) from count }
    ensures size { result < 2 ^ 84 }
{
    let mut sum = 0u128;
    for i in 0..count {
        sum += square(spectrum[from + i]);
    }
    sum
}

// The mean of a band's energy, in 1/16 of a power of two.
fn mean(band: usize) -> u32
    requires { band < 21 }
    ensures value { result ≡ slice_index MEANS band }
    ensures low { 60 ≤ result }
    ensures high { result ≤ 103 }
{
    MEANS[band]
}

// The logarithm of an amplitude, in units of 1/1024.
#[tactic(auto, using(crate::proofs::EnergyLemmas::logarithm_below))]
fn logarithm_of(amplitude: u64, exp: &Exp) -> u32
    requires some { 1 ≤ amplitude }
    requires size { amplitude < 2 ^ 42 }
    ensures value { result ≡ logarithm amplitude }
    ensures most { result < 43008 }
{
    exp.lg(amplitude).unsigned_abs()
}

// The logarithm of an amplitude over the band's mean.
fn level(logarithm: u32, mean: u32) -> i64
    requires most { logarithm < 43008 }
    requires low { 60 ≤ mean }
    requires high { mean ≤ 103 }
    ensures value { result ≡ pos logarithm -ℤ pos 12288 -ℤ pos (64 * mean) }
    ensures size { unsigned_abs result < 2 ^ 15 }
{
    i64::from(logarithm) - 12_288 - i64::from(64 * mean)
}

// The target of a band with this energy.
fn target(energy: u128, band: usize, exp: &Exp) -> i64
    requires size { energy < 2 ^ 84 }
    requires band { band < 21 }
    ensures value { result ≡ target_of band (root energy) }
    ensures size { unsigned_abs result < 2 ^ 15 }
{
    let amplitude = isq(energy);
    if amplitude == 0 {
        return FLOOR;
    }
    FLOOR.max(level(logarithm_of(amplitude, exp), mean(band)))
}

// The target of a band in a spectrum of `blocks` times 120 items.
fn band_target(spectrum: &[i64], blocks: usize, band: usize, exp: &Exp) -> i64
    requires few { blocks ≤ 8 }
    requires band { band < 21 }
    requires length { length spectrum.now ≡ 120 * blocks }
    requires sizes { All (λ x. unsigned_abs x < 2 ^ 38) spectrum.now }
    ensures value { result ≡ target_of band (band_amplitude blocks spectrum.now band) }
    ensures size { unsigned_abs result < 2 ^ 15 }
{
    let from = blocks * edge(band as u32) as usize;
    let count = blocks * width(band as u32) as usize;
    target(energy_of(spectrum, from, count), band, exp)
}

/// The targets of the bands of a spectrum of `blocks` times 120 items; from `end` on they are the least energy.
pub fn targets(spectrum: &[i64], blocks: usize, end: usize, exp: &Exp) -> [i64; 21]
    requires few { blocks ≤ 8 }
    requires end { end ≤ 21 }
    requires length { length spectrum.now ≡ 120 * blocks }
    requires sizes { All (λ x. unsigned_abs x < 2 ^ 38) spectrum.now }
    ensures value { result ≡ listed 21 (row_target end blocks spectrum.now) }
    ensures sizes { All (λ t. unsigned_abs t < 2 ^ 15) result }
{
    let mut row = [FLOOR; 21];
    for band in 0..end {
        row[band] = band_target(spectrum, blocks, band, exp);
    }
    row
}

// The greater of the targets of each band.
fn greater(left: &[i64; 21], right: &[i64; 21]) -> [i64; 21]
    requires left { All (λ t. unsigned_abs t < 2 ^ 15) left.now }
    requires right { All (λ t. unsigned_abs t < 2 ^ 15) right.now }
    ensures value { result ≡ listed 21 (height_of left.now right.now) }
    ensures sizes { All (λ t. unsigned_abs t < 2 ^ 15) result }
{
    let mut row = [FLOOR; 21];
    for b in 0..21usize {
        row[b] = left[b].max(right[b]);
    }
    row
}

/// The heights of the bands. In mono `right` is not read.
pub fn heights(left: &[i64; 21], right: &[i64; 21], stereo: bool) -> [i64; 21]
    requires left { All (λ t. unsigned_abs t < 2 ^ 15) left.now }
    requires right { All (λ t. unsigned_abs t < 2 ^ 15) right.now }
    ensures value { result ≡ (if stereo then listed 21 (height_of left.now right.now) else left.now) }
    ensures sizes { All (λ t. unsigned_abs t < 2 ^ 15) result }
{
    if stereo { greater(left, right) } else { *left }
}

/// Whether the first `count` items are 0.
pub fn is_zero(spectrum: &[i64], count: usize) -> bool
    requires { count ≤ length spectrum.now }
    ensures { result ≡ are_zero count spectrum.now }
{
    for i in 0..count {
        if spectrum[i] != 0 {
            return false;
        }
    }
    true
}
