//! The number of vectors, the place of a vector in their order, and back (RFC 6716, section 4.3.4.2),
//! by one row of the counts.
//!
//! With m numbers behind the first one and k pulses, the list has V(m, 0) vectors that begin with k,
//! V(m, 1) that begin with k - 1, and so on down to V(m, k) that begin with 0; then the same from
//! V(m, 0) to V(m, k - 1) for -k to -1. So V(m + 1, t) = V(m, t) + 2 * (V(m, 0) + .. + V(m, t - 1)),
//! and half the difference of two neighbouring rows at t is the sum of the first of them before t.

ghost use Rattle.std.specs.Prelude.{◌≡◌, ℕ, ◌+◌, ◌-◌, ◌^◌, ◌<◌, ◌≤◌, length, unsigned_abs, slice_get};
ghost use Rattle.pulse_vectors.specs.Rows.{Leads, count_below, stand_before, rank_of};
ghost use Rattle.pulse_vectors.specs.Vectors.{vectors, count_of, pulse_sum};

use crate::row::Row;

/// V(n, k), where it is below 2^32. `n` is at most 176 and `k` at most 4096.
pub fn count(n: u32, k: u32) -> Option<u32>
    requires numbers { n ≤ 176 }
    requires pulses { k ≤ 4096 }
    ensures fits { count_of n k < 2 ^ 32 → result ≡ Some (count_of n k) }
    ensures beyond { 2 ^ 32 ≤ count_of n k → result ≡ None }
{
    let mut row = Row::new(k);
    for _ in 0..n {
        if row.next_top() >= 1 << 32 {
            return None;
        }
        row.up();
    }
    Some(row.at(k))
}

/// How many pulses the vector holds.
#[tactic(auto, unfolding(crate::specs::Vectors::pulse_sum))]
fn pulses_in(y: &[i32]) -> u32
    requires { pulse_sum y.now ≤ 4096 }
    ensures { result ≡ pulse_sum y.now }
{
    y.iter().map(|x| x.unsigned_abs()).sum()
}

/// How many vectors stand before those that begin with `x`, where the numbers behind it, as many as
/// the row's, hold `behind` pulses. It takes the row up by one number.
fn step_over(row: &mut Row, x: i32, behind: u32) -> u32
    requires numbers { row.old.numbers < 176 }
    requires pulses { unsigned_abs x + behind ≤ row.old.pulses }
    requires most { row.old.pulses ≤ 4096 }
    requires fits { count_of (row.old.numbers + 1) row.old.pulses < 2 ^ 32 }
    ensures before { result ≡ stand_before row.old.numbers behind x }
    ensures numbers { row.new.numbers ≡ row.old.numbers + 1 }
    ensures pulses { row.new.pulses ≡ row.old.pulses }
{
    let here = behind + x.unsigned_abs();
    let fewer = row.at(behind);
    let all = row.at(here);
    row.up();
    // V(m, 0) + .. + V(m, behind - 1), for m numbers behind `x`
    let before = (row.at(behind) - fewer) / 2;
    if x < 0 {
        // and V(m, 0) + .. + V(m, here): all that begin with no negative number
        all + (row.at(here) - all) / 2 + before
    } else {
        before
    }
}

/// The place of the vector in the order of all vectors of its length and its number of pulses.
/// `y` has 1 to 176 numbers and 1 to 4096 pulses, and there are fewer than 2^32 such vectors.
pub fn rank(y: &[i32]) -> u32
    requires numbers { (1 ≤ length y.now) × (length y.now ≤ 176) }
    requires pulses { (1 ≤ pulse_sum y.now) × (pulse_sum y.now ≤ 4096) }
    requires fits { count_of (length y.now) (pulse_sum y.now) < 2 ^ 32 }
    ensures below { result < count_of (length y.now) (pulse_sum y.now) }
    ensures stands { slice_get (vectors (length y.now) (pulse_sum y.now)) result ≡ Some y.now }
    ensures value { result ≡ rank_of y.now }
    ensures only { (i : ℕ) → slice_get (vectors (length y.now) (pulse_sum y.now)) i ≡ Some y.now → i ≡ result }
{
    let mut row = Row::new(pulses_in(y));
    let mut behind = 0;
    let mut place = 0;
    for i in (0..y.len()).rev() {
        place += step_over(&mut row, y[i], behind);
        behind += y[i].unsigned_abs();
    }
    place
}

/// One number of a vector that is read by its place, and where the numbers behind it go on.
#[derive(Clone, Copy)]
pub(crate) struct Number {
    /// The number itself.
    pub(crate) value: i32,
    /// How many pulses the numbers behind it hold.
    pub(crate) behind: u32,
    /// The place of the numbers behind it among all vectors with so many pulses.
    pub(crate) place: u32,
}

/// How many pulses stand behind the first number where `index` numbers the vectors by them, from 0
/// to `most`, and the place among those with as many. The row is that of the numbers behind, and
/// `index` is below the sum of its counts from 0 to `most`.
fn pulses_behind(row: &Row, index: u32, most: u32) -> (u32, u32)
    requires inside { most ≤ row.now.pulses }
    requires below { index < count_below row.now.numbers (most + 1) }
    ensures pulses { result.0 ≤ most }
    ensures place { index ≡ count_below row.now.numbers result.0 + result.1 }
    ensures within { result.1 < count_of row.now.numbers result.0 }
{
    let mut behind = 0;
    let mut place = index;
    while place >= row.at(behind) {
        place -= row.at(behind);
        behind += 1;
    }
    (behind, place)
}

/// The first number of the vector at place `index`, where the row is that of the vector's numbers
/// and `pulses` those that it holds. It takes the row down by one number.
fn first_number(row: &mut Row, index: u32, pulses: u32) -> Number
    requires numbers { 1 ≤ row.old.numbers }
    requires inside { (pulses ≤ row.old.pulses) × (pulses ≤ 4096) }
    requires below { index < count_of row.old.numbers pulses }
    ensures leads { Leads (row.old.numbers - 1) pulses index result.value result.behind result.place }
    ensures numbers { row.new.numbers ≡ row.old.numbers - 1 }
    ensures pulses { row.new.pulses ≡ row.old.pulses }
{
    let whole = row.at(pulses);
    row.down();
    let zero = row.at(pulses);
    // V(m, 0) + .. + V(m, pulses), for m numbers behind: all that begin with no negative number
    let upper = zero + (whole - zero) / 2;
    if index < upper {
        let (behind, place) = pulses_behind(row, index, pulses);
        Number {
            value: (pulses - behind) as i32,
            behind,
            place,
        }
    } else {
        let (behind, place) = pulses_behind(row, index - upper, pulses - 1);
        Number {
            value: -((pulses - behind) as i32),
            behind,
            place,
        }
    }
}

/// The row of `numbers` numbers, with room for `pulses` pulses.
fn row_of(numbers: u32, pulses: u32) -> Row
    requires numbers { numbers ≤ 176 }
    requires pulses { pulses ≤ 4096 }
    requires fits { count_of numbers pulses < 2 ^ 32 }
    ensures numbers { result.numbers ≡ numbers }
    ensures pulses { result.pulses ≡ pulses }
{
    let mut row = Row::new(pulses);
    for _ in 0..numbers {
        row.up();
    }
    row
}

/// Writes the vector that stands at place `index` in the order of all vectors with the length of
/// `y` and `pulses` pulses. `y` has 1 to 176 numbers, `pulses` is 1 to 4096, there are fewer than
/// 2^32 such vectors, and `index` is below their count.
pub fn unrank(index: u32, pulses: u32, y: &mut [i32])
    requires numbers { (1 ≤ length y.old) × (length y.old ≤ 176) }
    requires pulses { (1 ≤ pulses) × (pulses ≤ 4096) }
    requires fits { count_of (length y.old) pulses < 2 ^ 32 }
    requires below { index < count_of (length y.old) pulses }
    ensures stands { slice_get (vectors (length y.old) pulses) index ≡ Some y.new }
    ensures pulses { pulse_sum y.new ≡ pulses }
{
    let mut row = row_of(y.len() as u32, pulses);
    let mut left = pulses;
    let mut place = index;
    for x in y.iter_mut() {
        let number = first_number(&mut row, place, left);
        *x = number.value;
        left = number.behind;
        place = number.place;
    }
}
