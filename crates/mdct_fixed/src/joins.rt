//! Runs of transformed items joined in place (RFC 6716, section 4.3.7): r runs of m items each become one of r m items. Runs
//! of one length that follow each other are joined together, column by column, so that angles are looked up once.
ghost use Rattle.std.specs.Prelude.{◌≡◌, ◌⊎◌, ℕ, ◌+◌, ◌-◌, ◌*◌, ◌/◌, ◌%◌, ◌^◌, ◌<◌, ◌≤◌, length};
ghost use Rattle.mdct_fixed.specs.Numbers.{at, angle_at, IsWithin, IsSmall};
ghost use Rattle.mdct_fixed.specs.Rows.{IsAngle, AreThreeSmall, AreThreeAngles, AreSixSmall, AreSixAngles};
ghost use Rattle.mdct_fixed.specs.Joins.{IsColumnJoined, AreJoined};
ghost use Rattle.mdct_fixed.specs.Transform.{radix, joined};

use crate::complex::{angle_of, in_first_quarter};
use crate::rows::{SixAngles, ThreeAngles, TwoAngles, row_2, row_3, row_4, row_5, row_thirds};
use fixed_math::Trig;

/// Runs of one length that follow each other.
#[derive(Clone, Copy)]
pub struct Runs {
    /// The place of the first item.
    pub from: usize,
    /// The number of items of a joined run.
    pub len: usize,
    /// How many there are.
    pub count: usize,
}

// The angles a, 2a and 3a.
fn three_angles(trig: &Trig, a: u32) -> ThreeAngles
    requires { a < 3840 }
    ensures value { AreThreeAngles a result }
    ensures small { AreThreeSmall result }
{
    let near = in_first_quarter(a);
    ThreeAngles {
        second: angle_of(trig, near),
        third: angle_of(trig, 2 * near),
        fourth: angle_of(trig, 3 * near),
    }
}

// The angles a and 2a.
fn two_angles(trig: &Trig, a: u32) -> TwoAngles
    requires { a < 15360 }
    ensures second { result.second ≡ angle_at (a * 1 % 15360) }
    ensures third { result.third ≡ angle_at (a * 2 % 15360) }
    ensures second_small { IsSmall result.second }
    ensures third_small { IsSmall result.third }
{
    TwoAngles {
        second: angle_of(trig, a),
        third: angle_of(trig, 2 * a % 15360),
    }
}

// The same of a, and of a and one and two thirds of the circle more.
fn six_angles(trig: &Trig, a: u32) -> SixAngles
    requires { a < 5120 }
    ensures value { AreSixAngles a result }
    ensures small { AreSixSmall result }
{
    SixAngles {
        first: two_angles(trig, a),
        second: two_angles(trig, a + 5120),
        third: two_angles(trig, a + 10240),
    }
}

// Joins the rows of radix 4 that begin at item `c` of each run.
fn column_4(re: &mut [i64], im: &mut [i64], runs: Runs, c: usize, trig: &Trig)
    requires one_length { length re.old ≡ length im.old }
    requires radix { runs.len % 4 ≡ 0 }
    requires divides { 480 % runs.len ≡ 0 }
    requires column { c < runs.len / 4 }
    requires room { runs.from + runs.count * runs.len ≤ length re.old }
    requires within { (b q : ℕ) → b < runs.count → q < 4 → IsWithin (2 ^ 46) (at re.old im.old (runs.from + c + b * runs.len + q * (runs.len / 4))) }
    ensures { IsColumnJoined 4 (runs.len / 4) (runs.from + c) runs.len runs.count (15360 / runs.len * c) (at re.old im.old) (at re.new im.new) }
{
    let w = three_angles(trig, (15360 / runs.len * c) as u32);
    let m = runs.len / 4;
    let end = runs.from + runs.count * runs.len;
    let mut p = runs.from + c;
    while p < end {
        row_4(re, im, p, m, &w);
        p += runs.len;
    }
}

// Joins runs of radix 4.
fn columns_4(re: &mut [i64], im: &mut [i64], runs: Runs, trig: &Trig)
    requires one_length { length re.old ≡ length im.old }
    requires some { 0 < runs.len }
    requires radix { runs.len % 4 ≡ 0 }
    requires divides { 480 % runs.len ≡ 0 }
    requires room { runs.from + runs.count * runs.len ≤ length re.old }
    requires within { (i : ℕ) → runs.from ≤ i → i < runs.from + runs.count * runs.len → IsWithin (2 ^ 46) (at re.old im.old i) }
    ensures { AreJoined 4 (runs.len / 4) runs.from runs.count (at re.old im.old) (at re.new im.new) }
{
    for c in 0..runs.len / 4 {
        column_4(re, im, runs, c, trig);
    }
}

// Joins the rows of radix 2 that begin at item `c` of each run.
fn column_2(re: &mut [i64], im: &mut [i64], runs: Runs, c: usize, trig: &Trig)
    requires one_length { length re.old ≡ length im.old }
    requires radix { runs.len % 2 ≡ 0 }
    requires divides { 480 % runs.len ≡ 0 }
    requires column { c < runs.len / 2 }
    requires room { runs.from + runs.count * runs.len ≤ length re.old }
    requires within { (b q : ℕ) → b < runs.count → q < 2 → IsWithin (2 ^ 46) (at re.old im.old (runs.from + c + b * runs.len + q * (runs.len / 2))) }
    ensures { IsColumnJoined 2 (runs.len / 2) (runs.from + c) runs.len runs.count (15360 / runs.len * c) (at re.old im.old) (at re.new im.new) }
{
    let w = angle_of(trig, (15360 / runs.len * c) as u32);
    let m = runs.len / 2;
    let end = runs.from + runs.count * runs.len;
    let mut p = runs.from + c;
    while p < end {
        row_2(re, im, p, m, w);
        p += runs.len;
    }
}

// Joins runs of radix 2.
fn columns_2(re: &mut [i64], im: &mut [i64], runs: Runs, trig: &Trig)
    requires one_length { length re.old ≡ length im.old }
    requires some { 0 < runs.len }
    requires radix { runs.len % 2 ≡ 0 }
    requires divides { 480 % runs.len ≡ 0 }
    requires room { runs.from + runs.count * runs.len ≤ length re.old }
    requires within { (i : ℕ) → runs.from ≤ i → i < runs.from + runs.count * runs.len → IsWithin (2 ^ 46) (at re.old im.old i) }
    ensures { AreJoined 2 (runs.len / 2) runs.from runs.count (at re.old im.old) (at re.new im.new) }
{
    for c in 0..runs.len / 2 {
        column_2(re, im, runs, c, trig);
    }
}

// Joins the rows of radix 3 that begin at item `c` of each run.
fn column_3(re: &mut [i64], im: &mut [i64], runs: Runs, c: usize, trig: &Trig)
    requires one_length { length re.old ≡ length im.old }
    requires radix { runs.len % 3 ≡ 0 }
    requires divides { 480 % runs.len ≡ 0 }
    requires column { c < runs.len / 3 }
    requires room { runs.from + runs.count * runs.len ≤ length re.old }
    requires within { (b q : ℕ) → b < runs.count → q < 3 → IsWithin (2 ^ 46) (at re.old im.old (runs.from + c + b * runs.len + q * (runs.len / 3))) }
    ensures { IsColumnJoined 3 (runs.len / 3) (runs.from + c) runs.len runs.count (15360 / runs.len * c) (at re.old im.old) (at re.new im.new) }
{
    let w = six_angles(trig, (15360 / runs.len * c) as u32);
    let m = runs.len / 3;
    let end = runs.from + runs.count * runs.len;
    let mut p = runs.from + c;
    while p < end {
        row_3(re, im, p, m, &w);
        p += runs.len;
    }
}

// Joins the rows of radix 3 that begin at the first item of each run.
fn first_column_3(re: &mut [i64], im: &mut [i64], runs: Runs)
    requires one_length { length re.old ≡ length im.old }
    requires some { 0 < runs.len }
    requires radix { runs.len % 3 ≡ 0 }
    requires room { runs.from + runs.count * runs.len ≤ length re.old }
    requires within { (b q : ℕ) → b < runs.count → q < 3 → IsWithin (2 ^ 46) (at re.old im.old (runs.from + 0 + b * runs.len + q * (runs.len / 3))) }
    ensures { IsColumnJoined 3 (runs.len / 3) (runs.from + 0) runs.len runs.count 0 (at re.old im.old) (at re.new im.new) }
{
    let m = runs.len / 3;
    let end = runs.from + runs.count * runs.len;
    let mut p = runs.from;
    while p < end {
        row_thirds(re, im, p, m);
        p += runs.len;
    }
}

// Joins runs of radix 3.
fn columns_3(re: &mut [i64], im: &mut [i64], runs: Runs, trig: &Trig)
    requires one_length { length re.old ≡ length im.old }
    requires some { 0 < runs.len }
    requires radix { runs.len % 3 ≡ 0 }
    requires divides { 480 % runs.len ≡ 0 }
    requires room { runs.from + runs.count * runs.len ≤ length re.old }
    requires within { (i : ℕ) → runs.from ≤ i → i < runs.from + runs.count * runs.len → IsWithin (2 ^ 46) (at re.old im.old i) }
    ensures { AreJoined 3 (runs.len / 3) runs.from runs.count (at re.old im.old) (at re.new im.new) }
{
    first_column_3(re, im, runs);
    for c in 1..runs.len / 3 {
        column_3(re, im, runs, c, trig);
    }
}

// Joins runs of radix 5, each of one item.
fn columns_5(re: &mut [i64], im: &mut [i64], runs: Runs)
    requires one_length { length re.old ≡ length im.old }
    requires radix { runs.len ≡ 5 }
    requires room { runs.from + runs.count * runs.len ≤ length re.old }
    requires within { (i : ℕ) → runs.from ≤ i → i < runs.from + runs.count * runs.len → IsWithin (2 ^ 46) (at re.old im.old i) }
    ensures { AreJoined 5 (runs.len / 5) runs.from runs.count (at re.old im.old) (at re.new im.new) }
{
    let end = runs.from + runs.count * runs.len;
    let mut p = runs.from;
    while p < end {
        row_5(re, im, p, 1);
        p += runs.len;
    }
}

/// Joins runs of one length, which is at least 2 and divides 480, in place.
pub fn join_all(re: &mut [i64], im: &mut [i64], runs: Runs, trig: &Trig)
    requires one_length { length re.old ≡ length im.old }
    requires some { 2 ≤ runs.len }
    requires divides { 480 % runs.len ≡ 0 }
    requires room { runs.from + runs.count * runs.len ≤ length re.old }
    requires within { (i : ℕ) → runs.from ≤ i → i < runs.from + runs.count * runs.len → IsWithin (2 ^ 46) (at re.old im.old i) }
    ensures { AreJoined (radix runs.len) (runs.len / radix runs.len) runs.from runs.count (at re.old im.old) (at re.new im.new) }
{
    if runs.len % 4 == 0 {
        columns_4(re, im, runs, trig);
    } else if runs.len % 2 == 0 {
        columns_2(re, im, runs, trig);
    } else if runs.len % 3 == 0 {
        columns_3(re, im, runs, trig);
    } else {
        columns_5(re, im, runs);
    }
}

/// Joins the r runs that the `len` items from `from` on are, r being the radix of `len`: afterwards they are the transform of
/// the items that the runs are transforms of. `len` is at least 2 and divides 480. A part is at most 2r - 1 times as large
/// as the greatest part that went in; rounding adds nothing to that.
pub fn join_runs(re: &mut [i64], im: &mut [i64], from: usize, len: usize, trig: &Trig)
    requires one_length { length re.old ≡ length im.old }
    requires within { from + len ≤ length re.old }
    requires some { 2 ≤ len }
    requires divides { 480 % len ≡ 0 }
    requires items { (i : ℕ) → from ≤ i → i < from + len → IsWithin (2 ^ 46) (at re.old im.old i) }
    ensures joined { (k : ℕ) → k < len → at re.new im.new (from + k) ≡ joined (radix len) (len / radix len) from (at re.old im.old) k }
    ensures others { (i : ℕ) → (i < from) ⊎ (from + len ≤ i) → at re.new im.new i ≡ at re.old im.old i }
    ensures growth { (n : ℕ) → ((i : ℕ) → from ≤ i → i < from + len → IsWithin n (at re.old im.old i))
        → (k : ℕ) → k < len → IsWithin ((2 * radix len - 1) * n) (at re.new im.new (from + k)) }
{
    join_all(
        re,
        im,
        Runs {
            from,
            len,
            count: 1,
        },
        trig,
    );
}
