//! The lag with the greatest square of the correlation over the energy. Most lags are ruled out by an upper bound of their
//! correlation, and the correlation of the others is formed.
ghost use Rattle.std.specs.Prelude.{◌≡◌, ℕ, ◌+◌, ◌-◌, ◌*◌, ◌^◌, ◌<◌, ◌≤◌, ℤ, ◌+ℤ◌, ◌-ℤ◌, ◌*ℤ◌, unsigned_abs, FitsSigned, length, slice_index};
ghost use Rattle.std.specs.Int.{int_wrap, w16, w32};
ghost use Rattle.fixed_math.specs.Items.{item};
ghost use Rattle.celt_analysis.specs.Pitch.{positive_part, correlations, energies, gain_steps};
ghost use Rattle.celt_analysis.specs.Search.{reaches, AreNear, IsNear, IsNext, IsBestFrom};

use crate::estimate::Estimate;
use crate::lanes::product_sum;

// The samples before the frame: the greatest lag.
pub(crate) const BEFORE: usize = 1022;
// The number of lags, of 15 to 1022.
pub(crate) const LAGS: usize = 1008;

// The square of a correlation over an energy. Its slack is 1 where one that is equal reaches it too, and 0 where only a
// greater one does.
#[derive(Clone, Copy)]
struct Ratio {
    square: u128,
    energy: u64,
    slack: u8,
}

impl Ratio {
    // Whether another correlation and energy reach it.
    fn is_reached(self, c: u64, e: u64) -> bool
        requires slack { self.slack ≤ 1 }
        requires square { self.square < 2 ^ 86 }
        requires energy { self.energy ≤ 2 ^ 40 }
        requires correlation_size { c < 2 ^ 43 }
        requires energy_size { e ≤ 2 ^ 40 }
        ensures { result ≡ reaches self.slack self.square self.energy c e }
    {
        if c == 0 || e == 0 {
            return false;
        }
        let needed = self.square * (e as u128);
        let there = (c as u128) * (c as u128) * (self.energy as u128);
        needed < there + self.slack as u128
    }

    // The same with slack.
    fn or_equal(self) -> Ratio
        ensures square { result.square ≡ self.square }
        ensures energy { result.energy ≡ self.energy }
        ensures slack { result.slack ≡ 1 }
    {
        Ratio {
            square: self.square,
            energy: self.energy,
            slack: 1,
        }
    }
}

// A number that is above 0, and 0 for each other.
fn positive(z: i64) -> u64
    ensures { result ≡ positive_part z }
{
    if z > 0 { z.unsigned_abs() } else { 0 }
}

// An upper bound of a correlation, from its estimate.
fn bound_of(sum: i32, e: Estimate) -> u64
    ensures value { result ≡ positive_part (sum *ℤ e.scale +ℤ e.error) }
    ensures size { result < 2 ^ 43 }
{
    positive((sum as i64) * e.scale + e.error)
}

// A number from its estimate, and what it is modulo 2^32.
fn exact(sum: i32, scale: i64, low: i32) -> i64
    requires scale { unsigned_abs scale ≤ 2 ^ 10 }
    ensures { (c : ℤ) → low ≡ int_wrap w32 c → unsigned_abs (c -ℤ sum *ℤ scale) < 2 ^ 31 → result ≡ c }
{
    let near = sum.wrapping_mul(scale as i32);
    (sum as i64) * scale + low.wrapping_sub(near) as i64
}

// The correlation at the lag of 15 + `i`; 0 where it is below 0.
fn correlation_of(d: &[i16], e: Estimate, sum: i32, i: usize) -> u64
    requires fits { (k : ℕ) → k < length d.now → FitsSigned w16 (item d.now k) }
    requires length { length d.now ≡ 1022 + e.n }
    requires lag { i < 1008 }
    requires near { IsNear (item d.now) e.n i sum e.scale e.error }
    ensures value { result ≡ correlations (item d.now) 1022 e.n i }
    ensures size { result < 2 ^ 43 }
{
    let low = product_sum(d, BEFORE, BEFORE - (15 + i), e.n);
    positive(exact(sum, e.scale, low))
}

// Whether a lag reaches the ratio; its correlation is formed only where the bound of it does.
fn reaches_ratio(d: &[i16], e: Estimate, sum: i32, i: usize, energy: u64, ratio: Ratio) -> bool
    requires fits { (k : ℕ) → k < length d.now → FitsSigned w16 (item d.now k) }
    requires length { length d.now ≡ 1022 + e.n }
    requires lag { i < 1008 }
    requires near { IsNear (item d.now) e.n i sum e.scale e.error }
    requires energy { energy ≡ energies (item d.now) 1022 e.n i }
    requires energy_size { energy ≤ 2 ^ 40 }
    requires slack { ratio.slack ≤ 1 }
    requires square { ratio.square < 2 ^ 86 }
    requires ratio { ratio.energy ≤ 2 ^ 40 }
    ensures { result ≡ reaches ratio.slack ratio.square ratio.energy (correlations (item d.now) 1022 e.n i) (energies (item d.now) 1022 e.n i) }
{
    if !ratio.is_reached(bound_of(sum, e), energy) {
        return false;
    }
    ratio.is_reached(correlation_of(d, e, sum, i), energy)
}

// The first lag from `from` on that reaches the ratio.
fn next_reaching(
    d: &[i16],
    e: Estimate,
    sums: &[i32],
    energy: &[u64],
    from: usize,
    ratio: Ratio,
) -> usize
    requires fits { (k : ℕ) → k < length d.now → FitsSigned w16 (item d.now k) }
    requires length { length d.now ≡ 1022 + e.n }
    requires near { AreNear (item d.now) e.n (item sums.now) e.scale e.error }
    requires sums { length sums.now ≡ 2048 }
    requires energies { (i : ℕ) → i < 1008 → slice_index energy.now i ≡ energies (item d.now) 1022 e.n i }
    requires energy_sizes { (i : ℕ) → i < 1008 → slice_index energy.now i ≤ 2 ^ 40 }
    requires energy_length { length energy.now ≡ 1008 }
    requires from { from ≤ 1008 }
    requires slack { ratio.slack ≤ 1 }
    requires square { ratio.square < 2 ^ 86 }
    requires energy { ratio.energy ≤ 2 ^ 40 }
    ensures { IsNext (correlations (item d.now) 1022 e.n) (energies (item d.now) 1022 e.n) ratio.slack ratio.square ratio.energy from 1008 result }
{
    for i in from..LAGS {
        if reaches_ratio(d, e, sums[BEFORE - (15 + i)], i, energy[i], ratio) {
            return i;
        }
    }
    LAGS
}

// The ratio of a lag.
fn ratio_of(d: &[i16], e: Estimate, sums: &[i32], energy: &[u64], i: usize) -> Ratio
    requires fits { (k : ℕ) → k < length d.now → FitsSigned w16 (item d.now k) }
    requires length { length d.now ≡ 1022 + e.n }
    requires near { AreNear (item d.now) e.n (item sums.now) e.scale e.error }
    requires sums { length sums.now ≡ 2048 }
    requires energies { (i : ℕ) → i < 1008 → slice_index energy.now i ≡ energies (item d.now) 1022 e.n i }
    requires energy_sizes { (i : ℕ) → i < 1008 → slice_index energy.now i ≤ 2 ^ 40 }
    requires energy_length { length energy.now ≡ 1008 }
    requires lag { i < 1008 }
    ensures square { result.square ≡ correlations (item d.now) 1022 e.n i * correlations (item d.now) 1022 e.n i }
    ensures energy { result.energy ≡ energies (item d.now) 1022 e.n i }
    ensures square_size { result.square < 2 ^ 86 }
    ensures energy_size { result.energy ≤ 2 ^ 40 }
    ensures slack { result.slack ≡ 0 }
{
    let c = correlation_of(d, e, sums[BEFORE - (15 + i)], i) as u128;
    Ratio {
        square: c * c,
        energy: energy[i],
        slack: 0,
    }
}

// The next lag that is better than the one at `place`.
fn next_better(d: &[i16], e: Estimate, sums: &[i32], energy: &[u64], place: usize) -> usize
    requires fits { (k : ℕ) → k < length d.now → FitsSigned w16 (item d.now k) }
    requires length { length d.now ≡ 1022 + e.n }
    requires near { AreNear (item d.now) e.n (item sums.now) e.scale e.error }
    requires sums { length sums.now ≡ 2048 }
    requires energies { (i : ℕ) → i < 1008 → slice_index energy.now i ≡ energies (item d.now) 1022 e.n i }
    requires energy_sizes { (i : ℕ) → i < 1008 → slice_index energy.now i ≤ 2 ^ 40 }
    requires energy_length { length energy.now ≡ 1008 }
    requires place { place < 1008 }
    ensures { IsNext (correlations (item d.now) 1022 e.n) (energies (item d.now) 1022 e.n) 0 (correlations (item d.now) 1022 e.n place * correlations (item d.now) 1022 e.n place) (energies (item d.now) 1022 e.n place) (place + 1) 1008 result }
{
    let ratio = ratio_of(d, e, sums, energy, place);
    next_reaching(d, e, sums, energy, place + 1, ratio)
}

// The best lag, if one reaches the ratio.
fn best_from(d: &[i16], e: Estimate, sums: &[i32], energy: &[u64], ratio: Ratio) -> usize
    requires fits { (k : ℕ) → k < length d.now → FitsSigned w16 (item d.now k) }
    requires length { length d.now ≡ 1022 + e.n }
    requires near { AreNear (item d.now) e.n (item sums.now) e.scale e.error }
    requires sums { length sums.now ≡ 2048 }
    requires energies { (i : ℕ) → i < 1008 → slice_index energy.now i ≡ energies (item d.now) 1022 e.n i }
    requires energy_sizes { (i : ℕ) → i < 1008 → slice_index energy.now i ≤ 2 ^ 40 }
    requires energy_length { length energy.now ≡ 1008 }
    requires slack { ratio.slack ≡ 1 }
    requires square { ratio.square < 2 ^ 86 }
    requires energy { ratio.energy ≤ 2 ^ 40 }
    ensures { IsBestFrom (correlations (item d.now) 1022 e.n) (energies (item d.now) 1022 e.n) ratio.square ratio.energy 1008 result }
{
    let mut place = next_reaching(d, e, sums, energy, 0, ratio);
    if place == LAGS {
        return LAGS;
    }
    let mut next = next_better(d, e, sums, energy, place);
    while next < LAGS {
        place = next;
        next = next_better(d, e, sums, energy, place);
    }
    place
}

// The lag with the greatest estimate. Where it reaches the ratio, its own is searched from: nothing else rests on it.
fn greatest(sums: &[i32]) -> usize
    requires { length sums.now ≡ 2048 }
    ensures { result < 1008 }
{
    let mut place = 0;
    for i in 1..LAGS {
        if sums[BEFORE - (15 + place)] < sums[BEFORE - (15 + i)] {
            place = i;
        }
    }
    place
}

// The best lag, if one reaches half the frame's energy.
pub(crate) fn best(d: &[i16], e: Estimate, sums: &[i32], energy: &[u64], own: u64) -> usize
    requires fits { (k : ℕ) → k < length d.now → FitsSigned w16 (item d.now k) }
    requires length { length d.now ≡ 1022 + e.n }
    requires near { AreNear (item d.now) e.n (item sums.now) e.scale e.error }
    requires sums { length sums.now ≡ 2048 }
    requires energies { (i : ℕ) → i < 1008 → slice_index energy.now i ≡ energies (item d.now) 1022 e.n i }
    requires energy_sizes { (i : ℕ) → i < 1008 → slice_index energy.now i ≤ 2 ^ 40 }
    requires energy_length { length energy.now ≡ 1008 }
    requires own { own ≤ 2 ^ 40 }
    ensures { IsBestFrom (correlations (item d.now) 1022 e.n) (energies (item d.now) 1022 e.n) own 2 1008 result }
{
    let floor = Ratio {
        square: own as u128,
        energy: 2,
        slack: 1,
    };
    let i = greatest(sums);
    let raised = ratio_of(d, e, sums, energy, i).or_equal();
    if floor.is_reached(correlation_of(d, e, sums[BEFORE - (15 + i)], i), energy[i]) {
        return best_from(d, e, sums, energy, raised);
    }
    best_from(d, e, sums, energy, floor)
}

// The greatest number of steps of gain of a lag, up to 8.
pub(crate) fn gain_of(d: &[i16], e: Estimate, sums: &[i32], energy: &[u64], i: usize) -> u32
    requires fits { (k : ℕ) → k < length d.now → FitsSigned w16 (item d.now k) }
    requires length { length d.now ≡ 1022 + e.n }
    requires near { AreNear (item d.now) e.n (item sums.now) e.scale e.error }
    requires sums { length sums.now ≡ 2048 }
    requires energies { (i : ℕ) → i < 1008 → slice_index energy.now i ≡ energies (item d.now) 1022 e.n i }
    requires energy_sizes { (i : ℕ) → i < 1008 → slice_index energy.now i ≤ 2 ^ 40 }
    requires energy_length { length energy.now ≡ 1008 }
    requires lag { i < 1008 }
    ensures value { result ≡ gain_steps (correlations (item d.now) 1022 e.n i) (energies (item d.now) 1022 e.n i) 8 }
    ensures size { result ≤ 8 }
{
    gain_steps(correlation_of(d, e, sums[BEFORE - (15 + i)], i), energy[i])
}

// The greatest number of steps of gain, up to 8, that is at most half the correlation over the energy.
fn gain_steps(c: u64, e: u64) -> u32
    requires correlation_size { c < 2 ^ 43 }
    requires energy_size { e ≤ 2 ^ 40 }
    ensures value { result ≡ gain_steps c e 8 }
    ensures size { result ≤ 8 }
{
    let mut k: u32 = 8;
    while k > 0 {
        if 3072 * (k as u64) * e <= 16384 * c {
            return k;
        }
        k -= 1;
    }
    0
}
