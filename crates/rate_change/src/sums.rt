//! The weights of one part of a sample, their sum, and the sample that comes of 32 by them.
ghost use Rattle.std.specs.Prelude.{◌≡◌, ℕ, ◌+◌, ◌*◌, ◌^◌, ◌<◌, ◌≤◌, pos, ◌-ℤ◌, ◌*ℤ◌, ◌≤ℤ◌, unsigned_abs, All, [], IfOk, vec_capacity};
ghost use Rattle.fixed_math.specs.Items.{item};
ghost use Rattle.rate_change.specs.Digits.{AreDigits};
ghost use Rattle.rate_change.specs.Resampling.{weight, sum_around, in_window, weighted, saturated, nearest};
ghost use Rattle.rate_change.specs.Tables.{IsRow, AreRows};

use crate::digits::digits_of;
use crate::row::Row;
use crate::weights::{distance_to, weight_of};
use celt_base::status::OutOfMemory;
use fixed_math::Trig;
use std::alloc::Global;

// The weights of part `f` of a sample, which has `up` parts.
fn weights_of(trig: &Trig, up: u32, f: u32) -> [i64; 32]
    requires up { up ≤ 160 }
    requires some { 1 ≤ f }
    requires part { f < up }
    ensures value { (t : ℕ) → t < 32 → item result t ≡ weight up f (pos t -ℤ pos 15) }
    ensures small { All (λ w. unsigned_abs w ≤ 2 ^ 34) result }
{
    let mut weights = [0i64; 32];
    for t in 0..32u32 {
        weights[t as usize] = weight_of(trig, distance_to(up, f, t));
    }
    weights
}

/// The sum of weights.
pub fn sum_of(weights: &[i64; 32]) -> i64
    requires { All (λ w. unsigned_abs w ≤ 2 ^ 34) weights.now }
    ensures value { result ≡ sum_around (in_window weights.now) }
    ensures size { unsigned_abs result ≤ 2 ^ 39 }
{
    let mut sum = 0i64;
    for t in 0..32usize {
        sum += weights[t];
    }
    sum
}

/// The sum of the weights of part `f` of a sample, which has `up` parts.
#[cfg(test)]
pub fn sum_at(trig: &Trig, up: u32, f: u32) -> i64
    requires up { up ≤ 160 }
    requires some { 1 ≤ f }
    requires part { f < up }
{
    sum_of(&weights_of(trig, up, f))
}

// Cuts weights into their digits.
fn put_digits(
    weights: &[i64; 32],
    high: &mut [i16; 32],
    middle: &mut [i16; 32],
    low: &mut [i16; 32],
)
    requires { All (λ w. unsigned_abs w ≤ 2 ^ 34) weights.now }
    ensures { AreDigits 32 weights.now high.new middle.new low.new }
{
    for t in 0..32usize {
        let digits = digits_of(weights[t]);
        high[t] = digits.high;
        middle[t] = digits.middle;
        low[t] = digits.low;
    }
}

// The row of part `f` of a sample, which has `up` parts.
fn row_of(trig: &Trig, up: u32, f: u32) -> Row
    requires up { up ≤ 160 }
    requires some { 1 ≤ f }
    requires part { f < up }
    ensures { IsRow up f result }
{
    let weights = weights_of(trig, up, f);
    let mut high = [0i16; 32];
    let mut middle = [0i16; 32];
    let mut low = [0i16; 32];
    put_digits(&weights, &mut high, &mut middle, &mut low);
    Row {
        high,
        middle,
        low,
        divisor: sum_of(&weights).max(1),
    }
}

/// Takes the room for the rows of all parts but 0 of a sample, which has `up` parts.
pub fn rows_room(alloc: Global, up: u32) -> Result<Vec<Row>, OutOfMemory>
    requires { 1 ≤ up }
    ensures none { IfOk result (λ rows. rows.items ≡ []) }
    ensures reserved { IfOk result (λ rows. vec_capacity rows + 1 ≡ up) }
{
    match Vec::with_capacity(alloc, (up - 1) as usize) {
        Ok(rows) => Ok(rows),
        Err(_) => Err(OutOfMemory),
    }
}

/// Puts the rows of all parts but 0 of a sample, which has `up` parts.
pub fn put_rows(trig: &Trig, up: u32, rows: &mut Vec<Row>)
    requires some { 1 ≤ up }
    requires up { up ≤ 160 }
    requires none { rows.old.items ≡ [] }
    requires room { up ≤ vec_capacity rows.old + 1 }
    ensures { AreRows up rows.new.items }
{
    for f in 1..up {
        rows.push_reserved(row_of(trig, up, f));
    }
}

// The sum of 32 samples by one digit of their weights.
fn digit_sum(digits: &[i16; 32], window: &[i16; 32]) -> i64
    requires { All (λ w. unsigned_abs w ≤ 2047) digits.now }
    ensures value { result ≡ sum_around (weighted digits.now window.now) }
    ensures size { unsigned_abs result ≤ 2 ^ 32 }
{
    let mut sum = 0i32;
    for t in 0..32usize {
        sum += i32::from(digits[t]) * i32::from(window[t]);
    }
    i64::from(sum)
}

/// The sum of 32 samples by the weights of a row.
pub fn product(row: &Row, window: &[i16; 32]) -> i64
    ensures value { (up f : ℕ) → IsRow up f row.now → result ≡ sum_around (λ j. weight up f j *ℤ in_window window.now j) }
    ensures size { unsigned_abs result ≤ 2 ^ 57 }
{
    let high = digit_sum(&row.high, window);
    let middle = digit_sum(&row.middle, window);
    let low = digit_sum(&row.low, window);
    4095 * (4095 * high + middle) + low
}

/// The number of 16 bits nearest to a sum over its divisor.
pub fn nearest_sample(sum: i64, divisor: i64) -> i16
    requires sum { unsigned_abs sum ≤ 2 ^ 57 }
    requires some { pos 1 ≤ℤ divisor }
    requires most { unsigned_abs divisor ≤ 2 ^ 39 }
    ensures { result ≡ saturated (nearest sum divisor) }
{
    (2 * sum + divisor)
        .div_euclid(2 * divisor)
        .clamp(-32768, 32767) as i16
}
