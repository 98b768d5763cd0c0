//! Anti-collapse (RFC 6716, section 4.3.5): the blocks of a transient's band that got no pulse are filled with noise of a
//! level that the energies before allow. Shapes are Q14, gains Q30, energies Q10.
ghost use Rattle.std.specs.Prelude.{◌≡◌, ◌≢◌, ℕ, ℤ, List, suc, ◌+◌, ◌*◌, ◌/◌, ◌%◌, ◌^◌, ◌<◌, ◌≤◌, unsigned_abs, length, All, nat_eq, if◌then◌else◌};
ghost use Rattle.fixed_math.specs.Items.{item};
ghost use Rattle.fixed_math.specs.Powers.{ex};
ghost use Rattle.celt_base.specs.Energies.{IsEnergy};
ghost use Rattle.spread_fold.specs.Noise.{seed_after};
ghost use Rattle.celt_synth.specs.Collapse.{threshold, rise, decay, level, bit, empties, signed, uncollapsed, seed_uncollapsed, IsFilling};

use fixed_math::{Exp, isq, noise, unit};

/// From so many units of 2^-10 down on the power is 0.
const NO_POWER: u64 = 1 << 15;

// 2 to the power -d / 1024 (Q30).
fn power_down(exp: &Exp, d: u64) -> u64
    requires { d < 2 ^ 40 }
    ensures value { result ≡ ex d }
    ensures size { result < 2 ^ 31 }
{
    if d >= NO_POWER {
        return 0;
    }
    u64::from(exp.ex(-(d as i32)))
}

// The greatest level that a band's bits leave: of `n` items, with so many eighths of a bit.
fn threshold_of(exp: &Exp, n: u32, pulses: u32) -> u64
    requires some { 1 ≤ n }
    requires few { pulses < 2 ^ 20 }
    ensures value { result ≡ threshold n pulses }
    ensures size { result < 2 ^ 30 }
{
    power_down(exp, u64::from(128 * ((1 + pulses) / n))) / 2
}

// How much an energy is above the less of the two before it.
pub fn rise_of(e: i64, older1: i64, older2: i64) -> u64
    requires energy { IsEnergy e }
    requires first { IsEnergy older1 }
    requires second { IsEnergy older2 }
    ensures value { result ≡ rise e older1 older2 }
    ensures size { result < 2 ^ 34 }
{
    (e - older1.min(older2)).max(0) as u64
}

// The level that a rise leaves.
fn decay_of(exp: &Exp, lm: u8, d: u64) -> u64
    requires { d < 2 ^ 40 }
    ensures { result ≡ decay lm d }
{
    let r = 2 * power_down(exp, d);
    if lm == 3 { (r * 23_170) >> 14 } else { r }
}

/// The level of the noise in a band of `n` items, by its eighths of a bit and how much its energy rose.
pub fn level_of(exp: &Exp, lm: u8, n: u32, pulses: u32, d: u64) -> u32
    requires some { 1 ≤ n }
    requires few { n ≤ 176 }
    requires pulses { pulses < 2 ^ 20 }
    requires rise { d < 2 ^ 40 }
    ensures value { result ≡ level lm n pulses d }
    ensures size { result < 2 ^ 24 }
{
    let least = threshold_of(exp, n, pulses).min(decay_of(exp, lm, d));
    ((least >> 6) / isq(u128::from(n) << 20)) as u32
}

// The level with the sign that bit 15 of the noise's state gives.
fn signed(level: u32, seed: u32) -> i64
    ensures { result ≡ signed level seed }
{
    if (seed / 32768) % 2 == 1 {
        i64::from(level)
    } else {
        -i64::from(level)
    }
}

// Fills a block: each of its items takes a step of the noise and becomes the level. Answers the noise's state.
fn fill_block(
    x: &mut [i64],
    blocks: usize,
    block: usize,
    width: usize,
    level: u32,
    seed: u32,
) -> u32
    requires some { block < blocks }
    requires few { blocks ≤ 8 }
    requires narrow { width ≤ 22 }
    requires length { length x.old ≡ blocks * width }
    ensures here { (j : ℕ) → j < width → item x.new (j * blocks + block) ≡ signed level (seed_after (suc j) seed) }
    ensures others { (p : ℕ) → p % blocks ≢ block → item x.new p ≡ item x.old p }
    ensures seed { result ≡ seed_after width seed }
{
    let mut state = seed;
    for j in 0..width {
        state = noise(state);
        x[j * blocks + block] = signed(level, state);
    }
    state
}

// Whether a bit of a mask is 0.
fn is_empty(mask: u32, block: usize) -> bool
    requires { block < 8 }
    ensures { result ≡ nat_eq (bit mask block) 0 }
{
    (mask >> block) % 2 == 0
}

// How many blocks were filled, and the noise's state.
#[derive(Clone, Copy)]
struct Filled {
    seed: u32,
    count: u32,
}

// Fills a block where it is empty.
fn fill_if_empty(
    x: &mut [i64],
    blocks: usize,
    block: usize,
    width: usize,
    mask: u32,
    level: u32,
    seed: u32,
) -> Filled
    requires some { block < blocks }
    requires few { blocks ≤ 8 }
    requires narrow { width ≤ 22 }
    requires length { length x.old ≡ blocks * width }
    ensures step { (start : ℕ) (xs : List ℤ) (count : ℕ) → IsFilling blocks width mask level start xs x.old block seed count → IsFilling blocks width mask level start xs x.new (block + 1) result.seed (count + result.count) }
    ensures count { result.count ≤ 1 }
    ensures length { length x.new ≡ length x.old }
{
    if !is_empty(mask, block) {
        return Filled { seed, count: 0 };
    }
    let state = fill_block(x, blocks, block, width, level, seed);
    Filled {
        seed: state,
        count: 1,
    }
}

// Fills the empty blocks of a band.
fn fill_blocks(
    x: &mut [i64],
    blocks: usize,
    width: usize,
    mask: u32,
    level: u32,
    seed: u32,
) -> Filled
    requires some { 1 ≤ blocks }
    requires few { blocks ≤ 8 }
    requires narrow { width ≤ 22 }
    requires length { length x.old ≡ blocks * width }
    ensures { IsFilling blocks width mask level seed x.old x.new blocks result.seed result.count }
{
    let mut state = seed;
    let mut count: u32 = 0;
    for block in 0..blocks {
        let filled = fill_if_empty(x, blocks, block, width, mask, level, state);
        state = filled.seed;
        count += filled.count;
    }
    Filled { seed: state, count }
}

/// Fills the empty blocks of a band with noise of a level, and makes the band a unit vector where any was filled. The mask
/// has a bit for each block: 0 where the block is empty.
pub fn uncollapse(x: &mut [i64], blocks: usize, width: usize, mask: u32, level: u32, seed: &mut u32)
    requires some { 1 ≤ blocks }
    requires few { blocks ≤ 8 }
    requires narrow { width ≤ 22 }
    requires length { length x.old ≡ blocks * width }
    requires items { All (λ v. unsigned_abs v < 2 ^ 20) x.old }
    requires level { level < 2 ^ 24 }
    ensures value { x.new ≡ uncollapsed blocks width mask level seed.old x.old }
    ensures seed { seed.new ≡ seed_uncollapsed blocks width mask seed.old }
    ensures items { All (λ v. unsigned_abs v < 2 ^ 20) x.new }
{
    let filled = fill_blocks(x, blocks, width, mask, level, *seed);
    *seed = filled.seed;
    if filled.count == 0 {
        return;
    }
    unit(x, 32_768);
}
