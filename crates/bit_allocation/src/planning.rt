//! How the plan is made: what is laid aside, and the bits at the greatest quality and step that fit (RFC 6716, section
//! 4.3.3).
ghost use Rattle.std.specs.Prelude.{◌≡◌, ◌+◌, ◌<◌, ◌≤◌, slice_index};
ghost use Rattle.bit_allocation.specs.Amounts.{raised};
ghost use Rattle.bit_allocation.specs.Counts.{sum_below};
ghost use Rattle.bit_allocation.specs.Facts.{IsPlan};
ghost use Rattle.bit_allocation.specs.Plans.{intensity_bits, skip_reserve, intensity_reserve, dual_reserve, reserves_of, boosted_top, bits_of, plan_of};

use crate::bands::{Bands, between, stepped};
use crate::counting::{Counted, count};
use crate::plan::{Plan, Reserves};
use crate::request::Request;
use crate::searching::{quality, step};
use celt_base::kind::Kind;
use celt_tables::bands::BAND_CHOICE_BITS;

/// What the choice of one of so many bands, or none, may take.
pub fn intensity_bits(bands: u32) -> u32
    requires { bands ≤ 21 }
    ensures value { result ≡ intensity_bits bands }
    ensures most { result ≤ 37 }
{
    BAND_CHOICE_BITS[bands as usize]
}

// One bit for the end of skipping.
fn skip_reserve(total: u32) -> u32
    ensures value { result ≡ skip_reserve total }
    ensures within { result ≤ total }
{
    if total >= 8 { 8 } else { 0 }
}

// What the choice of the first intensity band may take.
fn intensity_reserve(kind: Kind, left: u32) -> u32
    ensures value { result ≡ intensity_reserve kind left }
    ensures within { result ≤ left }
{
    let bits = intensity_bits(u32::from(kind.end));
    if kind.channels == 2 && bits <= left {
        bits
    } else {
        0
    }
}

// One bit for dual stereo.
fn dual_reserve(intensity: u32, left: u32) -> u32
    ensures value { result ≡ dual_reserve intensity left }
    ensures within { result ≤ left }
{
    if intensity > 0 && left >= 8 { 8 } else { 0 }
}

// What is laid aside of the total.
fn reserves(kind: Kind, total: u32) -> Reserves
    ensures { result ≡ reserves_of kind total }
{
    let skip = skip_reserve(total);
    let intensity = intensity_reserve(kind, total - skip);
    let dual = dual_reserve(intensity, total - skip - intensity);
    Reserves {
        skip,
        intensity,
        dual,
        rest: total - skip - intensity - dual,
    }
}

// The highest band with a boost, or 0.
fn boosted_top(request: &Request) -> u32
    ensures { result ≡ boosted_top request.now request.now.kind.end }
{
    let mut band = u32::from(request.kind.end);
    while band > 0 {
        band -= 1;
        if request.boosts[band as usize] > 0 {
            return band;
        }
    }
    0
}

// The total, 0 where it is below.
fn total_of(request: &Request) -> u32
    ensures { result ≡ raised request.now.total }
{
    if request.total < 0 {
        0
    } else {
        request.total as u32
    }
}

// The bits of the bands at the greatest quality and step that fit.
fn fitting(bands: &Bands, rest: u32) -> Counted
    ensures bits { result.bits ≡ bits_of bands.now.request rest }
    ensures sum { result.sum ≡ sum_below (slice_index result.bits) bands.now.request.kind.end }
{
    let quality = quality(bands, rest);
    let rise = between(bands, quality);
    count(bands, &stepped(&rise, step(bands, &rise, quality, rest)))
}

/// What stands before any band is skipped.
#[derive(Clone, Copy)]
pub struct Planned {
    /// The plan.
    pub plan: Plan,
    /// The sum of its bits.
    pub sum: u32,
}

/// What stands before any band is skipped.
pub fn plan_for(bands: &Bands) -> Planned
    ensures value { result.plan ≡ plan_of bands.now.request }
    ensures is { IsPlan result.plan }
    ensures same { result.plan.kind ≡ bands.now.request.kind }
    ensures sum { result.sum ≡ sum_below (slice_index result.plan.bits) result.plan.kind.end }
{
    let request = bands.request;
    let reserves = reserves(request.kind, total_of(&request));
    let counted = fitting(bands, reserves.rest);
    let bits = counted.bits;
    let plan = Plan {
        kind: request.kind,
        reserves,
        start: boosted_top(&request),
        bits,
    };
    Planned {
        plan,
        sum: counted.sum,
    }
}
