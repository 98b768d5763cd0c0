//! The greatest quality and the greatest step whose amounts fit, by bisection (RFC 6716, section 4.3.3).
ghost use Rattle.std.specs.Prelude.{◌≡◌, ◌<◌, ◌≤◌, ◌^◌, ℕ, slice_index};
ghost use Rattle.bit_allocation.specs.Counts.{quality_of, step_of, first_of, second_of};

use crate::bands::{Bands, Rise, boosted, stepped};
use crate::counting::count;

/// The greatest quality from 1 to 10 whose amounts fit, or 0.
pub fn quality(bands: &Bands, rest: u32) -> u32
    ensures value { result ≡ quality_of bands.now.request rest }
    ensures most { result ≤ 10 }
{
    let mut fits = 0;
    let mut over = 11;
    while fits + 1 < over {
        let middle = (fits + over) / 2;
        if count(bands, &boosted(bands, middle)).sum <= rest {
            fits = middle;
        } else {
            over = middle;
        }
    }
    fits
}

/// The greatest step from 0 to 63 whose amounts fit.
pub fn step(bands: &Bands, rise: &Rise, quality: u32, rest: u32) -> u32
    requires firsts { (band : ℕ) → band < bands.now.request.kind.end → slice_index rise.now.firsts band ≡ first_of bands.now.request quality band }
    requires seconds { (band : ℕ) → band < bands.now.request.kind.end → slice_index rise.now.seconds band ≡ second_of bands.now.request quality band }
    requires most_first { (band : ℕ) → slice_index rise.now.firsts band < 2 ^ 17 }
    requires most_second { (band : ℕ) → slice_index rise.now.seconds band < 2 ^ 17 }
    ensures value { result ≡ step_of bands.now.request quality rest }
    ensures most { result ≤ 63 }
{
    let mut fits = 0;
    let mut over = 64;
    while fits + 1 < over {
        let middle = (fits + over) / 2;
        if count(bands, &stepped(rise, middle)).sum <= rest {
            fits = middle;
        } else {
            over = middle;
        }
    }
    fits
}
