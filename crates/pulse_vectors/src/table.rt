//! The sums of the counts in one table, by which a frame's vectors are ranked, read and priced
//! (RFC 6716, sections 4.3.4.1 and 4.3.4.2).
//!
//! With m numbers behind the first one and S(m, t) = V(m, 0) + .. + V(m, t), the vectors whose first
//! number is not negative and has at most t pulses behind it are the first S(m, t) of the order. So
//! an index leads straight to its first number, and V(m + 1, t) = S(m, t) + S(m, t - 1).

ghost use Rattle.std.specs.Prelude.{◌≡◌, ℕ, ◌+◌, ◌-◌, ◌^◌, ◌<◌, ◌≤◌, ◌&&◌, ◌++◌, ℤ, List, Some, nat_le, nat_lt, length, unsigned_abs, slice_get, slice_set, replicate, pos};
ghost use Rattle.pulse_vectors.specs.Costs.{last_of, cost_at, index_below, index_near};
ghost use Rattle.pulse_vectors.specs.Rows.{Leads, count_below, stand_before, rank_of};
ghost use Rattle.pulse_vectors.specs.Tables.{HasPlace, start_of, sum_at, cost_start_of, cost_entry};
ghost use Rattle.pulse_vectors.specs.Vectors.{vectors, count_of, pulse_sum};

use crate::constants::{COST_STARTS, COSTS, STARTS, SUMS};
use crate::ranks::Number;

/// All sums S(m, t) that the vectors of a frame need, those with up to 176 numbers and up to 128
/// pulses, where there are fewer than 2^32 of them, and what each index costs. They are constants: it
/// takes no memory, and nothing is done to make it.
#[derive(Clone, Copy, Debug)]
pub struct PulseTable;

impl PulseTable {
    /// The table.
    pub fn new() -> PulseTable {
        PulseTable
    }

    /// V(numbers, pulses), at least 1. `numbers` is 1 to 176, `pulses` at most 128, and there are fewer
    /// than 2^32 such vectors.
    pub fn count(&self, numbers: u32, pulses: u32) -> u32
        requires numbers { (1 ≤ numbers) × (numbers ≤ 176) }
        requires pulses { pulses ≤ 128 }
        requires fits { count_of numbers pulses < 2 ^ 32 }
        ensures exact { result ≡ count_of numbers pulses }
        ensures some { 1 ≤ result }
    {
        self.sum(numbers - 1, pulses) + self.sum_below(numbers - 1, pulses)
    }

    /// The place of the vector in the order of all vectors of its length and its number of pulses.
    /// `y` has 1 to 176 numbers and 1 to 128 pulses, and there are fewer than 2^32 such vectors.
    pub fn rank(&self, y: &[i32]) -> u32
        requires numbers { (1 ≤ length y.now) × (length y.now ≤ 176) }
        requires pulses { (1 ≤ pulse_sum y.now) × (pulse_sum y.now ≤ 128) }
        requires fits { count_of (length y.now) (pulse_sum y.now) < 2 ^ 32 }
        ensures below { result < count_of (length y.now) (pulse_sum y.now) }
        ensures stands { slice_get (vectors (length y.now) (pulse_sum y.now)) result ≡ Some y.now }
        ensures value { result ≡ rank_of y.now }
        ensures only { (i : ℕ) → slice_get (vectors (length y.now) (pulse_sum y.now)) i ≡ Some y.now → i ≡ result }
    {
        let mut behind = 0;
        let mut place = 0;
        for i in (0..y.len()).rev() {
            place += self.before((y.len() - 1 - i) as u32, y[i], behind);
            behind += y[i].unsigned_abs();
        }
        place
    }

    /// Writes the vector that stands at place `index` in the order of all vectors with the length of
    /// `y` and `pulses` pulses. `y` has 1 to 176 numbers, `pulses` is 1 to 128, there are fewer than
    /// 2^32 such vectors, and `index` is below their count.
    pub fn unrank(&self, index: u32, pulses: u32, y: &mut [i32])
        requires numbers { (1 ≤ length y.old) × (length y.old ≤ 176) }
        requires pulses { (1 ≤ pulses) × (pulses ≤ 128) }
        requires fits { count_of (length y.old) pulses < 2 ^ 32 }
        requires below { index < count_of (length y.old) pulses }
        ensures stands { slice_get (vectors (length y.old) pulses) index ≡ Some y.new }
        ensures pulses { pulse_sum y.new ≡ pulses }
    {
        y.fill(0);
        let mut behind = y.len();
        let mut left = pulses;
        let mut place = index;
        while left > 1 {
            let rest = self.behind_zeros(behind as u32, place, left);
            behind = rest.numbers as usize - 1;
            let number = self.first_number(rest.numbers - 1, rest.place, left);
            y[y.len() - 1 - behind] = number.value;
            left = number.behind;
            place = number.place;
        }
        if left == 1 {
            let pulse = only_pulse(behind, place as usize);
            y[y.len() - behind + pulse.place] = pulse.value;
        }
    }

    /// The greatest index up to 40 whose vectors of `numbers` numbers, from 2 to 176, number fewer
    /// than 2^32.
    pub fn last_index(&self, numbers: u32) -> u32
        requires { (2 ≤ numbers) × (numbers ≤ 176) }
        ensures exact { result ≡ last_of numbers }
        ensures most { result ≤ 40 }
    {
        (cost_start_of(numbers) - cost_start_of(numbers - 1) - 1) as u32
    }

    /// What an index costs for vectors of `numbers` numbers, from 2 to 176: the logarithm of their
    /// count in eighths of a bit, rounded up, and nothing for index 0. `index` is at most
    /// `last_index(numbers)`.
    pub fn cost(&self, numbers: u32, index: u32) -> u32
        requires numbers { (2 ≤ numbers) × (numbers ≤ 176) }
        requires index { (index ≤ 40) × (index ≤ last_of numbers) }
        ensures exact { result ≡ cost_at numbers index }
        ensures most { result ≤ 264 }
    {
        cost_entry(cost_start_of(numbers - 1) + index as usize)
    }

    /// The index whose cost is nearest to `bits` eighths of a bit, the lower at equal distances, for
    /// vectors of `numbers` numbers, from 2 to 176.
    pub fn index_for(&self, numbers: u32, bits: i32) -> u32
        requires { (2 ≤ numbers) × (numbers ≤ 176) }
        ensures exact { result ≡ index_near numbers bits }
        ensures within { (result ≤ 40) × (result ≤ last_of numbers) }
    {
        let last = self.last_index(numbers);
        let low = self.index_below(numbers, last, bits);
        let high = (low + 1).min(last);
        let sum = self.cost(numbers, low) + self.cost(numbers, high);
        if 2 * bits as i64 <= sum as i64 {
            low
        } else {
            high
        }
    }

    /// The greatest index up to `last` that is 0 or costs less than `bits`, by halving.
    fn index_below(&self, numbers: u32, last: u32, bits: i32) -> u32
        requires numbers { (2 ≤ numbers) × (numbers ≤ 176) }
        requires last { last ≡ last_of numbers }
        ensures exact { result ≡ index_below numbers bits }
        ensures within { result ≤ last }
    {
        let mut low = 0;
        let mut high = last + 1;
        while low + 1 < high {
            let middle = (low + high) / 2;
            if (self.cost(numbers, middle) as i32) < bits {
                low = middle;
            } else {
                high = middle;
            }
        }
        low
    }

    /// How many vectors stand before those that begin with `x`, where the `numbers` numbers behind
    /// it hold `behind` pulses.
    fn before(&self, numbers: u32, x: i32, behind: u32) -> u32
        requires { HasPlace numbers (unsigned_abs x + behind) }
        ensures { result ≡ stand_before numbers behind x }
    {
        let fewer = self.sum_below(numbers, behind);
        if x < 0 {
            self.sum(numbers, behind + x.unsigned_abs()) + fewer
        } else {
            fewer
        }
    }

    /// What stands behind the zeros that the vector at place `index` of `numbers` numbers with `pulses`
    /// pulses, at least one, begins with.
    fn behind_zeros(&self, numbers: u32, index: u32, pulses: u32) -> Rest
        requires numbers { numbers ≤ 176 }
        requires pulses { (1 ≤ pulses) × (pulses ≤ 128) }
        requires fits { count_of numbers pulses < 2 ^ 32 }
        requires below { index < count_of numbers pulses }
        ensures some { 1 ≤ result.numbers }
        ensures most { result.numbers ≤ numbers }
        ensures below { result.place < count_of result.numbers pulses }
        ensures joined { (rest : List ℤ) → slice_get (vectors result.numbers pulses) result.place ≡ Some rest
            → slice_get (vectors numbers pulses) index ≡ Some (replicate (numbers - result.numbers) (pos 0) ++ rest) }
    {
        let mut left = numbers;
        let mut place = index;
        while self.is_zero(left - 1, place, pulses) {
            left -= 1;
            place -= self.sum_below(left, pulses);
        }
        Rest {
            numbers: left,
            place,
        }
    }

    /// Whether the vector at place `index` with `numbers` numbers behind the first begins with 0.
    fn is_zero(&self, numbers: u32, index: u32, pulses: u32) -> bool
        requires { HasPlace numbers pulses }
        ensures { result ≡ (nat_le (count_below numbers pulses) index && nat_lt index (count_below numbers (pulses + 1))) }
    {
        self.sum_below(numbers, pulses) <= index && index < self.sum(numbers, pulses)
    }

    /// The first number of the vector at place `index` with `numbers` numbers behind the first and
    /// `pulses` pulses, at least one.
    fn first_number(&self, numbers: u32, index: u32, pulses: u32) -> Number
        requires some { 1 ≤ pulses }
        requires place { HasPlace numbers pulses }
        requires below { index < count_of (numbers + 1) pulses }
        ensures { Leads numbers pulses index result.value result.behind result.place }
    {
        let upper = self.sum(numbers, pulses);
        if index < upper {
            let behind = self.pulses_behind(numbers, index, pulses);
            Number {
                value: (pulses - behind) as i32,
                behind,
                place: index - self.sum_below(numbers, behind),
            }
        } else {
            let behind = self.pulses_behind(numbers, index - upper, pulses - 1);
            Number {
                value: -((pulses - behind) as i32),
                behind,
                place: index - upper - self.sum_below(numbers, behind),
            }
        }
    }

    /// How many pulses stand behind the first number where `index` numbers the vectors by them, from
    /// 0 to `most`: the least t with `index` below S(numbers, t).
    fn pulses_behind(&self, numbers: u32, index: u32, most: u32) -> u32
        requires place { HasPlace numbers most }
        requires below { index < count_below numbers (most + 1) }
        ensures most { result ≤ most }
        ensures from { count_below numbers result ≤ index }
        ensures to { index < count_below numbers (result + 1) }
    {
        let mut behind = most;
        while index < self.sum_below(numbers, behind) {
            behind -= 1;
        }
        behind
    }

    /// S(numbers, pulses).
    fn sum(&self, numbers: u32, pulses: u32) -> u32
        requires { HasPlace numbers pulses }
        ensures { result ≡ count_below numbers (pulses + 1) }
    {
        sum_at(start_of(numbers) + pulses as usize + 1)
    }

    /// S(numbers, pulses - 1), which is 0 for no pulses.
    fn sum_below(&self, numbers: u32, pulses: u32) -> u32
        requires { HasPlace numbers pulses }
        ensures { result ≡ count_below numbers pulses }
    {
        sum_at(start_of(numbers) + pulses as usize)
    }
}

/// The last numbers of a vector: how many, and their place among the vectors of as many.
#[derive(Clone, Copy)]
struct Rest {
    numbers: u32,
    place: u32,
}

/// One pulse and where it stands.
#[derive(Clone, Copy)]
struct Pulse {
    place: usize,
    /// 1 or -1.
    value: i32,
}

/// The pulse of the vector that stands at place `index` among those of `numbers` numbers with one
/// pulse: from the first number to the last it is 1, and from the last to the first -1.
fn only_pulse(numbers: usize, index: usize) -> Pulse
    requires numbers { numbers ≤ 176 }
    requires below { index < count_of numbers 1 }
    ensures place { result.place < numbers }
    ensures stands { slice_get (vectors numbers 1) index ≡ Some (slice_set (replicate numbers (pos 0)) result.place result.value) }
{
    if index < numbers {
        Pulse {
            place: index,
            value: 1,
        }
    } else {
        Pulse {
            place: 2 * numbers - 1 - index,
            value: -1,
        }
    }
}

/// Where the sums of `numbers` numbers begin.
#[tactic(auto, unfolding(crate::specs::Tables::start_of))]
fn start_of(numbers: u32) -> usize
    requires { numbers ≤ 176 }
    ensures { result ≡ start_of numbers }
{
    STARTS[numbers as usize] as usize
}

/// An entry of the sums.
#[tactic(auto, unfolding(crate::specs::Tables::sum_at))]
fn sum_at(place: usize) -> u32
    requires { place < 2139 }
    ensures { result ≡ sum_at place }
{
    SUMS[place]
}

/// Where the costs for vectors of one number more begin.
#[tactic(auto, unfolding(crate::specs::Tables::cost_start_of))]
fn cost_start_of(numbers: u32) -> usize
    requires { numbers ≤ 176 }
    ensures { result ≡ cost_start_of numbers }
{
    COST_STARTS[numbers as usize] as usize
}

/// An entry of the costs.
#[tactic(auto, unfolding(crate::specs::Tables::cost_entry))]
fn cost_entry(place: usize) -> u32
    requires { place < 1418 }
    ensures { result ≡ cost_entry place }
{
    COSTS[place] as u32
}
