//! Vectors of unit length (RFC 6716, section 4.3.4.2): each item over the root of the sum of squares, times a
//! gain (Q15), in units of 2^-14.
ghost use Rattle.std.specs.Prelude.{◌≡◌, ℕ, ◌+◌, ◌*◌, ◌/◌, ◌^◌, ◌<◌, ◌≤◌, ℤ, pos, ◌*ℤ◌, ◌≤ℤ◌, unsigned_abs, int_div, length, All, IsTrue, map};
ghost use Rattle.fixed_math.specs.Unit.{square, energy, norm, over, unit_of, reciprocal_of, by_reciprocal};

use crate::roots::isq;

/// Scales the vector to the length that half of `g` (Q15) has: each item becomes `x * g * 2048 / r`, truncated,
/// where r is the root of 2^24 times the sum of squares. A vector of zeros stays.
pub fn unit(v: &mut [i64], g: i64)
    requires count { length v.old ≤ 176 }
    requires items { All (λ x. unsigned_abs x < 2 ^ 40) v.old }
    requires gain_low { pos 0 ≤ℤ g }
    requires gain_high { g ≤ℤ pos 32768 }
    ensures value { v.new ≡ unit_of g v.old }
    ensures size { All (λ x. 2 * unsigned_abs x ≤ unsigned_abs g) v.new }
{
    let energy = energy_of(v);
    if energy == 0 {
        return;
    }
    let length = isq(energy << 24);
    // Here the product of an item and the length is below 2^48, so that one reciprocal gives every quotient.
    if energy < 0x10_0000_0000 {
        multiply_all(v, reciprocal(g as u64, length));
    } else {
        divide_all(v, g * 2048, length as i64);
    }
}

// The sum of squares.
fn energy_of(v: &[i64]) -> u128
    requires count { length v.now ≤ 176 }
    requires items { All (λ x. unsigned_abs x < 2 ^ 40) v.now }
    ensures { result ≡ energy v.now }
{
    if are_small(v) {
        small_energy(v) as u128
    } else {
        wide_energy(v)
    }
}

// Whether each item is from -2^17 to below 2^17: the bits of all, shifted to be positive, are put together.
fn are_small(v: &[i64]) -> bool
    requires { All (λ x. unsigned_abs x < 2 ^ 40) v.now }
    ensures { IsTrue result → All (λ x. unsigned_abs x ≤ 2 ^ 17) v.now }
{
    let mut bits: u64 = 0;
    for i in 0..v.len() {
        bits |= (v[i] + 0x2_0000).cast_unsigned();
    }
    bits < 0x4_0000
}

// The sum of the squares of small items.
fn small_energy(v: &[i64]) -> u64
    requires count { length v.now ≤ 176 }
    requires items { All (λ x. unsigned_abs x ≤ 2 ^ 17) v.now }
    ensures { result ≡ energy v.now }
{
    let mut sum: u64 = 0;
    for i in 0..v.len() {
        sum += small_square(v[i]);
    }
    sum
}

// Narrowed first, so that the product is one of 32 bits by 32.
fn small_square(x: i64) -> u64
    requires { unsigned_abs x ≤ 2 ^ 17 }
    ensures { result ≡ square x }
{
    let narrow = (x as i32) as i64;
    (narrow * narrow) as u64
}

fn wide_energy(v: &[i64]) -> u128
    requires count { length v.now ≤ 176 }
    requires items { All (λ x. unsigned_abs x < 2 ^ 40) v.now }
    ensures { result ≡ energy v.now }
{
    let mut sum: u128 = 0;
    for i in 0..v.len() {
        sum += wide_square(v[i]);
    }
    sum
}

fn wide_square(x: i64) -> u128
    requires { unsigned_abs x < 2 ^ 40 }
    ensures { result ≡ square x }
{
    let size = x.unsigned_abs() as u128;
    size * size
}

// The reciprocal by which `multiply_all` gives the quotients of `divide_all`.
fn reciprocal(g: u64, r: u64) -> i64
    requires gain { g ≤ 32768 }
    requires length { 4096 ≤ r }
    ensures { result ≡ pos (reciprocal_of g r) }
{
    (((g as u128) << 59) / r as u128 + 1) as i64
}

fn multiply_all(v: &mut [i64], m: i64)
    requires low { pos 0 ≤ℤ m }
    requires sizes { All (λ x. unsigned_abs x * unsigned_abs m < 2 ^ 63) v.old }
    ensures { v.new ≡ map (by_reciprocal (unsigned_abs m)) v.old }
{
    for i in 0..v.len() {
        v[i] = times_reciprocal(v[i], m);
    }
}

fn times_reciprocal(x: i64, m: i64) -> i64
    requires low { pos 0 ≤ℤ m }
    requires size { unsigned_abs x * unsigned_abs m < 2 ^ 63 }
    ensures { result ≡ by_reciprocal (unsigned_abs m) x }
{
    let product = (x * m) >> 48;
    if x < 0 { product + 1 } else { product }
}

fn divide_all(v: &mut [i64], gain: i64, r: i64)
    requires low { pos 0 ≤ℤ gain }
    requires high { gain ≤ℤ pos 67108864 }
    requires length { pos 4096 ≤ℤ r }
    requires sizes { All (λ x. (unsigned_abs x < 2 ^ 40) × (unsigned_abs x * 4096 ≤ unsigned_abs r)) v.old }
    ensures { v.new ≡ map (λ x. int_div (x *ℤ gain) r) v.old }
{
    for i in 0..v.len() {
        v[i] = quotient(v[i], gain, r);
    }
}

// `x * gain / r`, truncated, in 64 bits where the product fits.
fn quotient(x: i64, gain: i64, r: i64) -> i64
    requires low { pos 0 ≤ℤ gain }
    requires high { gain ≤ℤ pos 67108864 }
    requires length { pos 4096 ≤ℤ r }
    requires size { unsigned_abs x < 2 ^ 40 }
    requires share { unsigned_abs x * 4096 ≤ unsigned_abs r }
    ensures { result ≡ int_div (x *ℤ gain) r }
{
    if x.unsigned_abs() < 0x20_0000_0000 {
        x * gain / r
    } else {
        (x as i128 * gain as i128 / r as i128) as i64
    }
}
