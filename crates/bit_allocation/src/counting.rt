//! What a list of amounts counts for (RFC 6716, section 4.3.3).
ghost use Rattle.std.specs.Prelude.{◌≡◌, ◌+◌, ◌||◌, ◌<◌, ◌≤◌, ℕ, nat_le, min, if◌then◌else◌, slice_index};
ghost use Rattle.bit_allocation.specs.Amounts.{threshold_of, most_of};
ghost use Rattle.bit_allocation.specs.Counts.{few, count_of, counts_of};
ghost use Rattle.bit_allocation.specs.Plans.{bands_to};

use crate::amounts::each;
use crate::bands::Bands;
use celt_base::kind::Kind;

/// What amounts count for.
#[derive(Clone, Copy)]
pub struct Counted {
    /// The eighths of a bit of each band.
    pub bits: [u32; 21],
    /// Their sum.
    pub sum: u32,
}

/// One bit in each channel, where the amount has room for them.
pub fn few(kind: Kind, amount: u32) -> u32
    ensures value { result ≡ few kind amount }
    ensures most { result ≤ 16 }
    ensures within { result ≤ amount }
{
    if each(kind) <= amount { each(kind) } else { 0 }
}

// Whether this band or one above it reaches its threshold.
fn is_reached(bands: &Bands, above: bool, band: usize, amount: u32) -> bool
    requires { band < bands.now.request.kind.end }
    ensures { result ≡ (nat_le (threshold_of bands.now.request.kind band) amount || above) }
{
    bands.thresholds[band] <= amount || above
}

// What a band counts.
fn count_of(bands: &Bands, reached: bool, band: usize, amount: u32) -> u32
    requires { band < bands.now.request.kind.end }
    ensures value { result ≡ (if reached then min amount (most_of bands.now.request.kind band) else few bands.now.request.kind amount) }
    ensures most { result ≤ 26752 }
{
    if reached {
        amount.min(bands.most[band])
    } else {
        few(bands.request.kind, amount)
    }
}

/// What the amounts of the bands count for, from the top down.
pub fn count(bands: &Bands, amounts: &[u32; 21]) -> Counted
    ensures bits { result.bits ≡ bands_to bands.now.request.kind.end (count_of bands.now.request.kind (slice_index amounts.now)) }
    ensures sum { result.sum ≡ counts_of bands.now.request.kind (slice_index amounts.now) }
{
    let mut bits = [0; 21];
    let mut sum = 0;
    let mut reached = false;
    let mut band = usize::from(bands.request.kind.end);
    while band > 0 {
        band -= 1;
        reached = is_reached(bands, reached, band, amounts[band]);
        let bit = count_of(bands, reached, band, amounts[band]);
        bits[band] = bit;
        sum += bit;
    }
    Counted { bits, sum }
}
