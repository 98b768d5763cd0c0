//! The amounts of an angle (RFC 6716, sections 4.3.4.3 and 4.3.4.4).
ghost use Rattle.std.specs.Prelude.{◌≡◌, ◌≢◌, ◌+◌, ◌-◌, ◌*◌, ◌^◌, ◌<◌, ◌≤◌, unsigned_abs, pos, ◌≤ℤ◌};
ghost use Rattle.celt_base.specs.Questions.{IsEven};
ghost use Rattle.band_plan.specs.Angles.{price_of, numbers_of, shift_of, capacity_of, lesser, eighths_of, steps_at, steps_for, steps_of, IsTheta, gain_of, delta_of, short_delta};

use crate::orders::Share;
use celt_tables::bands::WIDTH_LOGARITHMS;
use fixed_math::{bitexact_cos, bitexact_log2tan, mulr};

/// 2^(14 + i/8).
pub const POWERS: [u32; 8] = [16384, 17866, 19483, 21247, 23170, 25267, 27554, 30048];

// What a band's width costs; `level` is the size exponent and one more.
fn price(band: u8, level: u32) -> i32
    requires band { band ≤ 20 }
    requires level { level ≤ 4 }
    ensures value { result ≡ price_of band level }
    ensures size { unsigned_abs result ≤ 70 }
{
    (WIDTH_LOGARITHMS[usize::from(band)] + 8 * level) as i32 - 8
}

// The numbers among which the amount is shared.
fn numbers(pair: bool, n: u32) -> u32
    requires n { (2 ≤ n) × (n ≤ 176) }
    ensures value { result ≡ numbers_of pair n }
    ensures some { 1 ≤ result }
    ensures most { result ≤ 351 }
{
    if pair { 2 * n - 2 } else { 2 * n - 1 }
}

fn shift(pair: bool, price: i32) -> i32
    requires { unsigned_abs price ≤ 70 }
    ensures value { result ≡ shift_of pair price }
    ensures size { unsigned_abs result ≤ 60 }
{
    if pair {
        (price >> 1) - 16
    } else {
        (price >> 1) - 4
    }
}

// What each of the numbers has.
fn capacity(numbers: u32, shift: i32, bits: i32) -> i32
    requires numbers { (1 ≤ numbers) × (numbers ≤ 351) }
    requires shift { unsigned_abs shift ≤ 60 }
    requires bits { unsigned_abs bits ≤ 2 ^ 30 }
    ensures value { result ≡ capacity_of numbers shift bits }
    ensures size { unsigned_abs result ≤ 2 ^ 30 + 21060 }
{
    (bits + numbers as i32 * shift) / numbers as i32
}

#[tactic(auto, unfolding(crate::specs::Angles::lesser))]
fn lesser(a: i32, b: i32) -> i32
    ensures { result ≡ lesser a b }
{
    if a <= b { a } else { b }
}

// The eighths of a bit of an angle.
fn eighths(pair: bool, n: u32, price: i32, bits: i32) -> i32
    requires n { (2 ≤ n) × (n ≤ 176) }
    requires price { unsigned_abs price ≤ 70 }
    requires bits { unsigned_abs bits ≤ 2 ^ 30 }
    ensures { result ≡ eighths_of pair n price bits }
{
    let capacity = capacity(numbers(pair, n), shift(pair, price), bits);
    lesser(64, lesser(bits - price - 32, capacity))
}

fn steps_at(eighths: u32) -> u32
    requires { (4 ≤ eighths) × (eighths ≤ 64) }
    ensures value { result ≡ steps_at eighths }
    ensures even { IsEven result }
{
    let power = POWERS[eighths as usize % 8] >> (14 - eighths / 8);
    (power + 1) / 2 * 2
}

#[tactic(auto, unfolding(crate::specs::Angles::steps_for))]
fn steps_for(eighths: i32) -> u32
    requires { eighths ≤ℤ pos 64 }
    ensures value { result ≡ steps_for eighths }
    ensures even { 1 < result → IsEven result }
{
    if eighths < 4 {
        return 1;
    }
    steps_at(eighths as u32)
}

/// How many steps the angle of a part of `n` coefficients has, given these eighths of a bit; 1 where it has none.
pub fn steps(pair: bool, band: u8, level: u32, n: u32, share: Share) -> u32
    requires band { band ≤ 20 }
    requires level { level ≤ 4 }
    requires n { (2 ≤ n) × (n ≤ 176) }
    requires bits { unsigned_abs share.bits ≤ 2 ^ 30 }
    ensures value { result ≡ steps_of pair band level n share.bits }
    ensures even { 1 < result → IsEven result }
{
    let price = price(band, level);
    steps_for(eighths(pair, n, price, share.bits))
}

// The gain of the first side.
#[tactic(auto, unfolding(crate::specs::Angles::gain_of))]
fn gain(theta: u32) -> i32
    requires { IsTheta theta }
    ensures value { result ≡ gain_of theta }
    ensures some { theta ≢ 16384 → pos 1 ≤ℤ result }
    ensures most { result ≤ℤ pos 32767 }
{
    if theta == 0 {
        return 32767;
    }
    if theta == 16384 {
        return 0;
    }
    bitexact_cos(theta as i32)
}

/// By how much the second side needs less than the first.
pub fn delta(n: u32, theta: u32) -> i64
    requires n { (1 ≤ n) × (n ≤ 176) }
    requires theta { IsTheta theta }
    ensures value { result ≡ delta_of n theta }
    ensures size { unsigned_abs result ≤ 2 ^ 31 }
{
    if theta == 0 {
        return -16384;
    }
    if theta == 16384 {
        return 16384;
    }
    let tangent = bitexact_log2tan(gain(16384 - theta), gain(theta));
    mulr(i64::from((n - 1) * 128), i64::from(tangent), 15)
}

/// The same where the part has short blocks.
pub fn short_delta(level: u32, n: u32, theta: u32, delta: i64) -> i64
    requires level { level ≤ 3 }
    requires n { n ≤ 176 }
    requires delta { unsigned_abs delta ≤ 2 ^ 31 }
    ensures value { result ≡ short_delta level n theta delta }
    ensures size { unsigned_abs result ≤ 2 ^ 32 }
{
    if theta > 8192 {
        return delta - (delta >> (5 - level));
    }
    let raised = delta + i64::from(8 * n >> (6 - level));
    if raised < 0 { raised } else { 0 }
}
