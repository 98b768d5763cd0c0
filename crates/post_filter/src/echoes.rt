//! What the comb filter adds at a place (RFC 6716, section 4.3.7.1): the values around the place one period before, by
//! the taps of one setting or by shares of two. Neighbours at one distance are added before their one product.
ghost use Rattle.std.specs.Prelude.{◌≡◌, ℕ, ◌+◌, ◌-◌, ◌*◌, ◌^◌, ◌<◌, ◌≤◌, ◌+ℤ◌, unsigned_abs, length};
ghost use Rattle.fixed_math.specs.Items.{item};
ghost use Rattle.fixed_math.specs.Rounding.{rounded};
ghost use Rattle.post_filter.specs.Comb.{scaled, echo};

use crate::taps::{Taps, WHOLE, part_of};

/// What is added at place `p` by taps alone.
pub fn steady_term(v: &[i64], p: usize, taps: Taps) -> i64
    requires start { 1024 ≤ p }
    requires room { p ≤ length v.now }
    requires values { (q : ℕ) → q < p → unsigned_abs (item v.now q) ≤ 2 ^ 30 }
    ensures value { result ≡ rounded (echo taps.centre taps.near taps.far taps.period v.now p) 15 }
    ensures size { (m : ℕ) → ((q : ℕ) → q < p → unsigned_abs (item v.now q) ≤ m) → unsigned_abs result ≤ m }
{
    rounded_share(echo_of(v, p, taps))
}

/// What is added at place `p` where the new setting has a share and the old one has the rest.
pub fn faded_term(v: &[i64], p: usize, share: u32, from: Taps, to: Taps) -> i64
    requires start { 1024 ≤ p }
    requires room { p ≤ length v.now }
    requires share { share ≤ 2 ^ 15 }
    requires values { (q : ℕ) → q < p → unsigned_abs (item v.now q) ≤ 2 ^ 30 }
    ensures value { result ≡ rounded (echo (scaled (2 ^ 15 - share) from.centre) (scaled (2 ^ 15 - share) from.near) (scaled (2 ^ 15 - share) from.far) from.period v.now p +ℤ echo (scaled share to.centre) (scaled share to.near) (scaled share to.far) to.period v.now p) 15 }
    ensures size { (m : ℕ) → ((q : ℕ) → q < p → unsigned_abs (item v.now q) ≤ m) → unsigned_abs result ≤ m }
{
    let old = echo_of(v, p, part_of(from, WHOLE - share));
    let new = echo_of(v, p, part_of(to, share));
    rounded_share(old + new)
}

/// The values around the place one period before, by their weights.
fn echo_of(v: &[i64], p: usize, taps: Taps) -> i64
    requires start { 1024 ≤ p }
    requires room { p ≤ length v.now }
    requires values { (q : ℕ) → q < p → unsigned_abs (item v.now q) ≤ 2 ^ 30 }
    ensures value { result ≡ echo taps.centre taps.near taps.far taps.period v.now p }
    ensures size { (m : ℕ) → ((q : ℕ) → q < p → unsigned_abs (item v.now q) ≤ m) → unsigned_abs result ≤ taps.centre * m + 2 * (taps.near * m) + 2 * (taps.far * m) }
{
    if taps.far != 0 {
        return echo_three(v, p, taps);
    }
    if taps.centre == 0 && taps.near == 0 {
        return 0;
    }
    echo_two(v, p, taps)
}

/// The same with three products.
pub fn echo_three(v: &[i64], p: usize, taps: Taps) -> i64
    requires start { 1024 ≤ p }
    requires room { p ≤ length v.now }
    requires values { (q : ℕ) → q < p → unsigned_abs (item v.now q) ≤ 2 ^ 30 }
    ensures value { result ≡ echo taps.centre taps.near taps.far taps.period v.now p }
    ensures size { (m : ℕ) → ((q : ℕ) → q < p → unsigned_abs (item v.now q) ≤ m) → unsigned_abs result ≤ taps.centre * m + 2 * (taps.near * m) + 2 * (taps.far * m) }
{
    let q = p - taps.period as usize;
    let far = taps.far as i64 * (v[q + 2] + v[q - 2]);
    taps.centre as i64 * v[q] + taps.near as i64 * (v[q + 1] + v[q - 1]) + far
}

/// The same with two products, where the third weight is 0.
pub fn echo_two(v: &[i64], p: usize, taps: Taps) -> i64
    requires far { taps.far ≡ 0 }
    requires start { 1024 ≤ p }
    requires room { p ≤ length v.now }
    requires values { (q : ℕ) → q < p → unsigned_abs (item v.now q) ≤ 2 ^ 30 }
    ensures value { result ≡ echo taps.centre taps.near taps.far taps.period v.now p }
    ensures size { (m : ℕ) → ((q : ℕ) → q < p → unsigned_abs (item v.now q) ≤ m) → unsigned_abs result ≤ taps.centre * m + 2 * (taps.near * m) + 2 * (taps.far * m) }
{
    let q = p - taps.period as usize;
    taps.centre as i64 * v[q] + taps.near as i64 * (v[q + 1] + v[q - 1])
}

/// From units of 2^-15 to whole ones, rounded.
pub fn rounded_share(sum: i64) -> i64
    requires { unsigned_abs sum ≤ 2 ^ 46 }
    ensures value { result ≡ rounded sum 15 }
    ensures size { (m : ℕ) → unsigned_abs sum ≤ m * 2 ^ 15 → unsigned_abs result ≤ m }
{
    (sum + 16_384) >> 15
}
