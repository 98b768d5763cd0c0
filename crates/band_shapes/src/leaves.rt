//! Parts that are not split.
ghost use Rattle.std.specs.Prelude.{◌≡◌, ◌⊎◌, ℕ, ◌+◌, ◌-◌, ◌*◌, ◌%◌, ◌^◌, ◌<◌, ◌≤◌, pos, ◌≤ℤ◌, unsigned_abs, length, [], All};
ghost use Rattle.fixed_math.specs.Unit.{unit_of};
ghost use Rattle.spread_fold.specs.Noise.{seed_after, noise_items, folded};
ghost use Rattle.band_shapes.specs.Parts.{pulses_at, pulse_shape, silent_shape, IsMade, CanMake};
ghost use Rattle.band_shapes.specs.Tree.{IsLeaf};

use crate::node::{Pulses, Tools, Wish};
use fixed_math::unit;
use spread_fold::{fold, mask_of, noise_fill, rotate};

/// What a leaf leaves.
#[derive(Clone, Copy)]
pub struct Filled {
    /// Which blocks have a shape.
    pub mask: u32,
    /// The noise's state.
    pub seed: u32,
}

// Copies pulses.
fn widen(y: &[i32], x: &mut [i64])
    requires { length y.now ≡ length x.old }
    ensures { x.new ≡ y.now }
{
    for i in 0..x.len() {
        x[i] = y[i] as i64;
    }
}

/// A leaf with pulses.
pub fn pulse_leaf(
    x: &mut [i64],
    y: &mut [i32],
    tools: &Tools<'_>,
    pulses: Pulses,
    wish: Wish,
    seed: u32,
) -> Filled
    requires room { length y.old ≡ length x.old }
    requires fits { CanMake (length x.old) [] wish }
    requires leaf { IsLeaf (length x.old) pulses.count pulses.index }
    requires some { 1 ≤ pulses.count }
    requires spread { tools.now.layout.spread ≤ 3 }
    ensures { IsMade wish.blocks (pulse_shape tools.now.layout.spread (length x.old) pulses.count pulses.index wish seed) x.new result.mask result.seed }
{
    let k = pulses.count;
    tools.pulses.unrank(pulses.index, k, y);
    widen(y, x);
    unit(x, wish.gain);
    rotate(x, tools.trig, wish.blocks, k, tools.layout.spread, false);
    Filled {
        mask: mask_of(y, wish.blocks),
        seed,
    }
}

/// A leaf without pulses.
pub fn silent_leaf(x: &mut [i64], source: &[i64], wish: Wish, seed: u32) -> Filled
    requires { CanMake (length x.old) source.now wish }
    ensures { IsMade wish.blocks (silent_shape (length x.old) source.now wish seed) x.new result.mask result.seed }
{
    let all = block_bits(wish.blocks);
    let fill = wish.fill % all;
    if fill == 0 {
        x.fill(0);
        return Filled { mask: 0, seed };
    }
    if source.is_empty() {
        return Filled {
            mask: all - 1,
            seed: noise_unit(x, wish.gain, seed),
        };
    }
    Filled {
        mask: fill,
        seed: fold_unit(x, source, wish.gain, seed),
    }
}

// 2^blocks.
fn block_bits(blocks: u32) -> u32
    requires { blocks ≤ 16 }
    ensures { result ≡ 2 ^ blocks }
{
    1 << blocks
}

// Noise of unit length.
fn noise_unit(x: &mut [i64], gain: i64, seed: u32) -> u32
    requires count { length x.old ≤ 176 }
    requires gain_low { pos 0 ≤ℤ gain }
    requires gain_high { gain ≤ℤ pos 32768 }
    ensures value { x.new ≡ unit_of gain (noise_items (length x.old) seed) }
    ensures seed { result ≡ seed_after (length x.old) seed }
    ensures size { All (λ v. 2 * unsigned_abs v ≤ unsigned_abs gain) x.new }
{
    let mut state = seed;
    noise_fill(&mut state, x);
    unit(x, gain);
    state
}

// A fold of unit length.
fn fold_unit(x: &mut [i64], source: &[i64], gain: i64, seed: u32) -> u32
    requires count { length x.old ≤ 176 }
    requires source { length source.now ≡ length x.old }
    requires items { All (λ v. unsigned_abs v < 2 ^ 22) source.now }
    requires gain_low { pos 0 ≤ℤ gain }
    requires gain_high { gain ≤ℤ pos 32768 }
    ensures value { x.new ≡ unit_of gain (folded seed source.now) }
    ensures seed { result ≡ seed_after (length x.old) seed }
    ensures size { All (λ v. 2 * unsigned_abs v ≤ unsigned_abs gain) x.new }
{
    let mut state = seed;
    fold(source, &mut state, x);
    unit(x, gain);
    state
}
