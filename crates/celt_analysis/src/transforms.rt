//! The spectrum of a frame (RFC 6716, section 4.3.7): one transform, or in a transient one of each block of 120 samples.
ghost use Rattle.std.specs.Prelude.{◌≡◌, ◌+◌, ◌*◌, ◌^◌, ◌<◌, ◌≤◌, true, unsigned_abs, length, take, All};
ghost use Rattle.mdct_fixed.specs.Mdct.{IsSize, forward_of};
ghost use Rattle.celt_analysis.specs.Spectra.{block, spectrum, IsSpread};

use fixed_math::Trig;
use mdct_fixed::forward_with;

/// The items of a block.
const BLOCK: usize = 120;

/// The values of a block, with the 120 before it.
const VALUES: usize = 240;

/// The blocks of a frame: how many of 120 samples, and whether each has a transform of its own.
#[derive(Clone, Copy)]
pub struct Blocks {
    pub count: usize,
    pub transient: bool,
}

// The values of block `b`, with the 120 before it.
fn block_of(values: &[i64], b: usize) -> &[i64]
    requires values { 120 * b + 240 ≤ length values.now }
    requires sizes { All (λ v. unsigned_abs v < 2 ^ 29) values.now }
    ensures value { result.now ≡ block values.now b }
    ensures count { length result.now ≡ 240 }
    ensures sizes { All (λ v. unsigned_abs v < 2 ^ 29) result.now }
{
    let (_, behind) = values.split_at(BLOCK * b);
    let (block, _) = behind.split_at(VALUES);
    block
}

// The spectrum of block `b`.
fn transform_block(values: &[i64], b: usize, trig: &Trig, room: &mut [i64], out: &mut [i64])
    requires values { 120 * b + 240 ≤ length values.now }
    requires sizes { All (λ v. unsigned_abs v < 2 ^ 29) values.now }
    requires room { 120 ≤ length room.old }
    requires out { length out.old ≡ 120 }
    ensures value { out.new ≡ forward_of 120 (block values.now b) }
    ensures sizes { All (λ x. unsigned_abs x < 2 ^ 38) out.new }
{
    let block = block_of(values, b);
    let (re, behind) = room.split_at_mut(BLOCK / 2);
    let (im, _) = behind.split_at_mut(BLOCK / 2);
    forward_with(block, trig, re, im, out);
}

// Puts the items of block `b` at every `blocks`-th place.
fn spread(items: &[i64], blocks: usize, b: usize, out: &mut [i64])
    requires some { b < blocks }
    requires few { blocks ≤ 8 }
    requires items { length items.now ≡ 120 }
    requires out { length out.old ≡ 120 * blocks }
    ensures { IsSpread items.now blocks b 120 out.old out.new }
{
    for j in 0..BLOCK {
        out[j * blocks + b] = items[j];
    }
}

// The spectrum of a transient, block by block.
fn transform_blocks(values: &[i64], blocks: usize, trig: &Trig, room: &mut [i64], out: &mut [i64])
    requires some { 1 ≤ blocks }
    requires few { blocks ≤ 8 }
    requires values { length values.now ≡ 120 * blocks + 120 }
    requires sizes { All (λ v. unsigned_abs v < 2 ^ 29) values.now }
    requires room { 240 ≤ length room.old }
    requires out { length out.old ≡ 120 * blocks }
    ensures value { out.new ≡ spectrum blocks true values.now }
    ensures sizes { All (λ x. unsigned_abs x < 2 ^ 38) out.new }
{
    let (items, room) = room.split_at_mut(BLOCK);
    for b in 0..blocks {
        transform_block(values, b, trig, room, items);
        spread(items, blocks, b, out);
    }
}

// The spectrum of a frame that is no transient.
fn transform_frame(values: &[i64], trig: &Trig, room: &mut [i64], out: &mut [i64])
    requires size { IsSize (length out.old) }
    requires values { length values.now ≡ length out.old + 120 }
    requires sizes { All (λ v. unsigned_abs v < 2 ^ 29) values.now }
    requires room { length out.old ≤ length room.old }
    ensures value { out.new ≡ forward_of (length out.old) values.now }
    ensures sizes { All (λ x. unsigned_abs x < 2 ^ 38) out.new }
{
    let half = out.len() / 2;
    let (re, behind) = room.split_at_mut(half);
    let (im, _) = behind.split_at_mut(half);
    forward_with(values, trig, re, im, out);
}

/// The spectrum of the values of a frame, which have 120 before them. `room` is for 960 items.
pub fn transform(values: &[i64], blocks: Blocks, trig: &Trig, room: &mut [i64], out: &mut [i64])
    requires size { IsSize (120 * blocks.count) }
    requires values { length values.now ≡ 120 * blocks.count + 120 }
    requires sizes { All (λ v. unsigned_abs v < 2 ^ 29) values.now }
    requires room { length room.old ≡ 960 }
    requires out { length out.old ≡ 120 * blocks.count }
    ensures value { out.new ≡ spectrum blocks.count blocks.transient values.now }
    ensures sizes { All (λ x. unsigned_abs x < 2 ^ 38) out.new }
{
    if blocks.transient {
        return transform_blocks(values, blocks.count, trig, room, out);
    }
    transform_frame(values, trig, room, out);
}

/// The same, first in `items`, of the first values of a list.
pub fn fill_spectrum(
    values: &[i64],
    blocks: Blocks,
    trig: &Trig,
    room: &mut [i64],
    items: &mut [i64],
)
    requires size { IsSize (120 * blocks.count) }
    requires values { 120 * blocks.count + 120 ≤ length values.now }
    requires sizes { All (λ v. unsigned_abs v < 2 ^ 29) values.now }
    requires room { length room.old ≡ 960 }
    requires items { 120 * blocks.count ≤ length items.old }
    requires kept { All (λ x. unsigned_abs x < 2 ^ 38) items.old }
    ensures value { take (120 * blocks.count) items.new ≡ spectrum blocks.count blocks.transient (take (120 * blocks.count + 120) values.now) }
    ensures sizes { All (λ x. unsigned_abs x < 2 ^ 38) items.new }
{
    let n = BLOCK * blocks.count;
    let (values, _) = values.split_at(n + BLOCK);
    let (out, _) = items.split_at_mut(n);
    transform(values, blocks, trig, room, out);
}
