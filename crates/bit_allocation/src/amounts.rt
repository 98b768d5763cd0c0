//! What a band needs, may have and usually has (RFC 6716, section 4.3.3), in eighths of a bit.
ghost use Rattle.std.specs.Prelude.{◌≡◌, ◌<◌, ◌≤◌, ◌^◌, ◌*◌, ◌+◌, pos, ◌≤ℤ◌, ◌-ℤ◌, ◌*ℤ◌, unsigned_abs};
ghost use Rattle.std.specs.Int.{int_shr};
ghost use Rattle.bit_allocation.specs.Amounts.{bit_each, threshold_of, most_of, tilt_of, less_of, offset_of, tilted, usual_of, raised};
ghost use Rattle.bit_allocation.specs.Requests.{IsTrim};
ghost use Rattle.celt_tables.specs.Tables.{allocation_entry};

use celt_base::kind::Kind;
use celt_tables::bits::ALLOCATION;
use celt_tables::{cap, coefficients, size};

/// One bit in each channel.
pub fn each(kind: Kind) -> u32
    ensures value { result ≡ bit_each kind }
    ensures least { 8 ≤ result }
    ensures most { result ≤ 16 }
{
    8 * u32::from(kind.channels)
}

/// The least amount with which a band has pulses.
pub fn threshold(kind: Kind, band: u32) -> u32
    requires { band ≤ 20 }
    ensures value { result ≡ threshold_of kind band }
    ensures least { bit_each kind ≤ result }
    ensures most { result ≤ 264 }
{
    each(kind).max(3 * size(kind, band) * 8 / 16)
}

/// The greatest amount of a band.
pub fn greatest_amount(kind: Kind, band: u32) -> u32
    requires { band ≤ 20 }
    ensures value { result ≡ most_of kind band }
    ensures least { bit_each kind ≤ result }
    ensures most { result ≤ 26752 }
{
    cap(kind, band) as u32
}

// How much a step of the trim tilts a band.
fn tilt(kind: Kind, band: u32) -> u32
    requires { band < kind.end }
    ensures value { result ≡ tilt_of kind band }
    ensures most { result ≤ 56320 }
{
    8 * coefficients(kind, band) * (u32::from(kind.end) - band - 1)
}

// What a band of one coefficient has less.
fn less(kind: Kind, band: u32) -> i32
    requires { band ≤ 20 }
    ensures value { result ≡ pos (less_of kind band) }
    ensures most { less_of kind band ≤ 16 }
{
    if size(kind, band) == 1 {
        each(kind) as i32
    } else {
        0
    }
}

// By how many steps the trim is above the one that tilts nothing.
fn steps(kind: Kind, trim: i32) -> i32
    requires { IsTrim trim }
    ensures value { result ≡ trim -ℤ pos (5 + kind.lm) }
    ensures size { unsigned_abs result ≤ 8 }
{
    trim - 5 - i32::from(kind.lm)
}

// So many steps of a tilt, in eighths of a bit.
fn tilted_by(tilt: u32, steps: i32) -> i32
    requires tilt { tilt ≤ 56320 }
    requires steps { unsigned_abs steps ≤ 8 }
    ensures value { result ≡ int_shr (pos tilt *ℤ steps) 6 }
    ensures size { unsigned_abs result ≤ 7041 }
{
    (tilt as i32 * steps) >> 6
}

/// What the trim adds to a band's amount.
pub fn offset(kind: Kind, trim: i32, band: u32) -> i32
    requires band { band < kind.end }
    requires trim { IsTrim trim }
    ensures value { result ≡ offset_of kind trim band }
    ensures size { unsigned_abs result < 2 ^ 14 }
{
    tilted_by(tilt(kind, band), steps(kind, trim)) - less(kind, band)
}

/// An amount with what the trim adds, where there is one.
pub fn with_offset(offset: i32, amount: u32) -> u32
    requires offset { unsigned_abs offset < 2 ^ 14 }
    requires amount { amount < 2 ^ 15 }
    ensures value { result ≡ tilted offset amount }
    ensures most { result < 2 ^ 16 }
{
    if amount == 0 {
        return 0;
    }
    let sum = amount as i32 + offset;
    if sum < 0 { 0 } else { sum as u32 }
}

// An entry of the usual amounts.
fn entry(quality: u32, band: u32) -> u32
    requires quality { quality ≤ 10 }
    requires band { band ≤ 20 }
    ensures value { result ≡ allocation_entry quality band }
    ensures most { result ≤ 200 }
{
    ALLOCATION[quality as usize][band as usize]
}

/// A band's amount at a quality from 0 to 10, and `most`, its greatest amount, at 11.
pub fn usual(kind: Kind, quality: u32, band: u32, most: u32) -> u32
    requires band { band ≤ 20 }
    requires most { most ≡ most_of kind band }
    requires size { most ≤ 26752 }
    ensures value { result ≡ usual_of kind quality band }
    ensures most { result < 2 ^ 15 }
{
    if quality <= 10 {
        coefficients(kind, band) * entry(quality, band) / 4
    } else {
        most
    }
}
