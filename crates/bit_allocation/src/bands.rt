//! The bands of a request: what is formed once for each of them.
ghost use Rattle.std.specs.Prelude.{◌≡◌, ◌+◌, ◌*◌, ◌/◌, ◌^◌, ◌<◌, ◌≤◌, ℕ, pos, slice_index, slice_index_or};
ghost use Rattle.bit_allocation.specs.Amounts.{threshold_of, most_of, boost_of, offset_of, value_of};
ghost use Rattle.bit_allocation.specs.Counts.{boosted_of, first_of, second_of, stepped_of};
ghost use Rattle.bit_allocation.specs.Requests.{IsRequest};

use crate::amounts::{greatest_amount, offset, threshold, usual, with_offset};
use crate::request::Request;

/// A request with the threshold, the greatest amount and the offset of each band.
#[derive(Clone, Copy)]
pub struct Bands {
    /// The request.
    pub request: Request,
    /// For each band, the least eighths of a bit with which it has pulses.
    pub thresholds: [u32; 21],
    /// For each band, the most that it may have.
    pub most: [u32; 21],
    /// For each band, what the trim adds.
    pub offsets: [i32; 21],
    ghost request_is: { IsRequest request },
    ghost thresholds_are: { (band : ℕ) → band < request.kind.end → slice_index thresholds band ≡ threshold_of request.kind band },
    ghost most_are: { (band : ℕ) → band < request.kind.end → slice_index most band ≡ most_of request.kind band },
    ghost offsets_are: { (band : ℕ) → band < request.kind.end → slice_index_or offsets band (pos 0) ≡ offset_of request.kind request.trim band },
}

/// The bands of a request.
pub fn bands_of(request: Request) -> Bands
    requires { IsRequest request }
    ensures { result.request ≡ request }
{
    let mut thresholds = [0; 21];
    let mut most = [0; 21];
    let mut offsets = [0; 21];
    for band in 0..u32::from(request.kind.end) {
        thresholds[band as usize] = threshold(request.kind, band);
        most[band as usize] = greatest_amount(request.kind, band);
        offsets[band as usize] = offset(request.kind, request.trim, band);
    }
    Bands {
        request,
        thresholds,
        most,
        offsets,
    }
}

// A band's amount at a quality from 0 to 10, and its greatest amount at 11, tilted.
fn value(bands: &Bands, quality: u32, band: u32) -> u32
    requires { band < bands.now.request.kind.end }
    ensures value { result ≡ value_of bands.now.request quality band }
    ensures most { result < 2 ^ 16 }
{
    let place = band as usize;
    let amount = usual(bands.request.kind, quality, band, bands.most[place]);
    with_offset(bands.offsets[place], amount)
}

// What the boosts add to a band.
fn boost(bands: &Bands, band: u32) -> u32
    requires { band < bands.now.request.kind.end }
    ensures value { result ≡ boost_of bands.now.request band }
    ensures most { result < 2 ^ 15 }
{
    bands.request.boosts[band as usize] as u32
}

/// The amounts of a quality, each with its boost.
pub fn boosted(bands: &Bands, quality: u32) -> [u32; 21]
    ensures { (band : ℕ) → band < bands.now.request.kind.end → slice_index result band ≡ boosted_of bands.now.request quality band }
{
    let mut amounts = [0; 21];
    for band in 0..u32::from(bands.request.kind.end) {
        amounts[band as usize] = value(bands, quality, band) + boost(bands, band);
    }
    amounts
}

/// From a quality to the next.
#[derive(Clone, Copy)]
pub struct Rise {
    /// For each band, its amount of the quality.
    pub firsts: [u32; 21],
    /// For each band, what the next quality has more.
    pub seconds: [u32; 21],
}

// A band's amount of a quality; the lowest quality has no boosts.
fn first(bands: &Bands, quality: u32, band: u32) -> u32
    requires { band < bands.now.request.kind.end }
    ensures value { result ≡ first_of bands.now.request quality band }
    ensures most { result < 2 ^ 17 }
{
    if quality == 0 {
        value(bands, quality, band)
    } else {
        value(bands, quality, band) + boost(bands, band)
    }
}

// What the next quality has more than this band's first amount.
fn second(bands: &Bands, quality: u32, band: u32, first: u32) -> u32
    requires band { band < bands.now.request.kind.end }
    requires quality { quality ≤ 10 }
    requires first { first ≡ first_of bands.now.request quality band }
    ensures value { result ≡ second_of bands.now.request quality band }
    ensures most { result < 2 ^ 17 }
{
    let upper = value(bands, quality + 1, band) + boost(bands, band);
    upper.saturating_sub(first)
}

/// The amounts of a quality and what the next one has more.
pub fn between(bands: &Bands, quality: u32) -> Rise
    requires { quality ≤ 10 }
    ensures firsts { (band : ℕ) → band < bands.now.request.kind.end → slice_index result.firsts band ≡ first_of bands.now.request quality band }
    ensures seconds { (band : ℕ) → band < bands.now.request.kind.end → slice_index result.seconds band ≡ second_of bands.now.request quality band }
    ensures most_first { (band : ℕ) → slice_index result.firsts band < 2 ^ 17 }
    ensures most_second { (band : ℕ) → slice_index result.seconds band < 2 ^ 17 }
{
    let mut firsts = [0; 21];
    let mut seconds = [0; 21];
    for band in 0..u32::from(bands.request.kind.end) {
        let low = first(bands, quality, band);
        firsts[band as usize] = low;
        seconds[band as usize] = second(bands, quality, band, low);
    }
    Rise { firsts, seconds }
}

/// The amounts a number of 64ths of the way to the next quality.
pub fn stepped(rise: &Rise, step: u32) -> [u32; 21]
    requires step { step ≤ 63 }
    requires most_first { (band : ℕ) → slice_index rise.now.firsts band < 2 ^ 17 }
    requires most_second { (band : ℕ) → slice_index rise.now.seconds band < 2 ^ 17 }
    ensures { (band : ℕ) → band < 21 → slice_index result band ≡ slice_index rise.now.firsts band + step * slice_index rise.now.seconds band / 64 }
{
    let mut amounts = [0; 21];
    for band in 0..21 {
        amounts[band] = rise.firsts[band] + step * rise.seconds[band] / 64;
    }
    amounts
}
