//! Samples of 16 bits from the outputs of the de-emphasis (RFC 6716, section 4.3.7.2), with the header's output
//! gain (RFC 7845, section 5.1).
ghost use Rattle.std.specs.Prelude.{◌≡◌, ℕ, ℤ, ◌+◌, ◌*◌, ◌^◌, ◌<◌, ◌≤◌, pos, ◌*ℤ◌, unsigned_abs, length, All};
ghost use Rattle.fixed_math.specs.Rounding.{rounded};
ghost use Rattle.post_filter.specs.Samples.{exponent, saturated, sample_of, IsFactor, ArePut};

use crate::factor::Factor;
use fixed_math::{Exp, mulr};

/// 1/256 dB as a power of two, in units of 1/1024 (Q20).
const STEP: i64 = 696_659;

/// The sample of `y`, which is in units of 2^-12, with `gain` in units of 1/256 dB: rounded to the nearest whole
/// number, halves upwards, and saturated to 16 bits (RFC 6716, section 4.3.7.2; RFC 7845, section 5.1).
pub fn sample(exp: &Exp, y: i64, gain: i32) -> i16
    requires size { unsigned_abs y < 2 ^ 33 }
    requires gain { unsigned_abs gain ≤ 32768 }
    ensures { result ≡ sample_of gain y }
{
    if gain == 0 {
        plain_sample(y)
    } else {
        amplified_sample(y, factor_of(exp, gain))
    }
}

/// Writes the samples of all items, as `sample` gives them, to every `stride`-th place of `out` from `start` on.
/// All other places stay.
pub fn samples(exp: &Exp, x: &[i64], gain: i32, out: &mut [i16], start: usize, stride: usize)
    requires sizes { All (λ v. unsigned_abs v < 2 ^ 33) x.now }
    requires gain { unsigned_abs gain ≤ 32768 }
    requires stride { 1 ≤ stride }
    requires room { (i : ℕ) → i < length x.now → start + stride * i < length out.old }
    ensures { ArePut gain x.now start stride (length x.now) out.old out.new }
{
    if gain != 0 {
        put_amplified(x, factor_of(exp, gain), out, start, stride);
    } else if stride == 2 {
        put_alternate(x, out, start);
    } else {
        put_plain(x, out, start, stride);
    }
}

// The samples with gain 0.
fn put_plain(x: &[i64], out: &mut [i16], start: usize, stride: usize)
    requires sizes { All (λ v. unsigned_abs v < 2 ^ 33) x.now }
    requires stride { 1 ≤ stride }
    requires room { (i : ℕ) → i < length x.now → start + stride * i < length out.old }
    ensures { ArePut (pos 0) x.now start stride (length x.now) out.old out.new }
{
    for i in 0..x.len() {
        out[start + stride * i] = plain_sample(x[i]);
    }
}

// The same to every second place.
fn put_alternate(x: &[i64], out: &mut [i16], start: usize)
    requires sizes { All (λ v. unsigned_abs v < 2 ^ 33) x.now }
    requires room { (i : ℕ) → i < length x.now → start + 2 * i < length out.old }
    ensures { ArePut (pos 0) x.now start 2 (length x.now) out.old out.new }
{
    for i in 0..x.len() {
        out[start + 2 * i] = plain_sample(x[i]);
    }
}

// The samples with a gain's factor.
fn put_amplified(x: &[i64], factor: Factor, out: &mut [i16], start: usize, stride: usize)
    requires sizes { All (λ v. unsigned_abs v < 2 ^ 33) x.now }
    requires stride { 1 ≤ stride }
    requires room { (i : ℕ) → i < length x.now → start + stride * i < length out.old }
    ensures { (gain : ℤ) → IsFactor gain factor → ArePut gain x.now start stride (length x.now) out.old out.new }
{
    for i in 0..x.len() {
        out[start + stride * i] = amplified_sample(x[i], factor);
    }
}

/// The factor of `gain`, which is in units of 1/256 dB.
pub fn factor_of(exp: &Exp, gain: i32) -> Factor
    requires { unsigned_abs gain ≤ 32768 }
    ensures { IsFactor gain result }
{
    let e = exponent_of(gain);
    let octave = e >> 10;
    Factor {
        mantissa: exp.mant((e - 1024 * octave) as u32),
        shift: (42 - octave) as u32,
    }
}

// The gain as a power of two, in units of 1/1024.
fn exponent_of(gain: i32) -> i64
    requires { unsigned_abs gain ≤ 32768 }
    ensures value { result ≡ exponent gain }
    ensures size { unsigned_abs result ≤ 21771 }
{
    mulr(gain as i64, STEP, 20)
}

/// The sample of `y` with gain 0, as `sample` gives it, for which no product is needed.
pub fn plain_sample(y: i64) -> i16
    requires { unsigned_abs y < 2 ^ 33 }
    ensures { result ≡ sample_of (pos 0) y }
{
    narrowed_word(((y + 2048) >> 12) as i32)
}

/// The sample of `y` with a gain's factor, as `sample` gives it with that gain.
pub fn amplified_sample(y: i64, factor: Factor) -> i16
    requires { unsigned_abs y < 2 ^ 33 }
    ensures value { result ≡ saturated (rounded (y *ℤ pos factor.mantissa) factor.shift) }
    ensures sample { (gain : ℤ) → IsFactor gain factor → result ≡ sample_of gain y }
{
    narrowed(product(y, factor))
}

// `y` times a gain's factor, rounded.
fn product(y: i64, factor: Factor) -> i64
    requires { unsigned_abs y < 2 ^ 33 }
    ensures { result ≡ rounded (y *ℤ pos factor.mantissa) factor.shift }
{
    let half: i128 = 1 << (factor.shift - 1);
    ((y as i128 * factor.mantissa as i128 + half) >> factor.shift) as i64
}

// The nearest number of 16 bits.
fn narrowed(z: i64) -> i16
    ensures { result ≡ saturated z }
{
    if z < -32_768 {
        -32_768
    } else if z > 32_767 {
        32_767
    } else {
        z as i16
    }
}

// The same of 32 bits, of which a processor takes several at a time.
fn narrowed_word(z: i32) -> i16
    ensures { result ≡ saturated z }
{
    if z < -32_768 {
        -32_768
    } else if z > 32_767 {
        32_767
    } else {
        z as i16
    }
}
