//! Spreading (RFC 6716, section 4.3.4.3): pairs of a shape's items are turned by an angle that shrinks with the
//! number of pulses, so that few pulses do not stand alone. The encoder turns the other way before its search.
ghost use Rattle.std.specs.Prelude.{◌≡◌, ℕ, ◌+◌, ◌-◌, ◌*◌, ◌/◌, ◌%◌, ◌^◌, ◌<◌, ◌≤◌, neg_ℤ, ◌+ℤ◌, ◌*ℤ◌, unsigned_abs, length, All, IsTrue};
ghost use Rattle.fixed_math.specs.Rounding.{rounded};
ghost use Rattle.spread_fold.specs.Calm.{IsCalm};
ghost use Rattle.spread_fold.specs.Spreading.{clamped, turned_first, turned_second, pair_turned, turned_up, turned_down, turned, turned_far, spread_run, distance, quarter_share, spread_angle, spread_runs, spread_by};

use crate::calm::is_calm;
use crate::neighbours::{neighbours_down, neighbours_up};
use fixed_math::{Trig, rounded_sum};

/// The greatest size of an item after a turn: 8 in units of 2^-14.
const LIMIT: i64 = 131_072;

/// Spreads a shape of `k` pulses in `blocks` short blocks: `spread` is 0 for nothing up to 3 for the most. With
/// `forward` the turns go the encoder's way, which takes the decoder's back. Nothing is turned for spread 0, or where
/// there are half as many pulses as items. Else each item is at most 2^17 in size afterwards, whatever came in, if a
/// block has at least two.
pub fn rotate(x: &mut [i64], trig: &Trig, blocks: u32, k: u32, spread: u32, forward: bool)
    requires some { 1 ≤ length x.old }
    requires count { length x.old ≤ 176 }
    requires blocks_low { 1 ≤ blocks }
    requires blocks_high { blocks ≤ 16 }
    requires runs { length x.old % blocks ≡ 0 }
    requires pulses_low { 1 ≤ k }
    requires pulses_high { k ≤ 4096 }
    requires spread { spread ≤ 3 }
    requires items { All (λ v. unsigned_abs v < 2 ^ 20) x.old }
    ensures value { x.new ≡ spread_by blocks k spread forward x.old }
    ensures size { (m : ℕ) → 2 ^ 17 ≤ m → All (λ v. unsigned_abs v ≤ m) x.old → All (λ v. unsigned_abs v ≤ m) x.new }
    ensures limit { 1 ≤ spread → 2 * k < length x.old → 2 * blocks ≤ length x.old → All (λ v. unsigned_abs v ≤ 2 ^ 17) x.new }
{
    let count = x.len() as u32;
    if spread == 0 {
        return;
    }
    if count <= 2 * k {
        return;
    }
    let angle = angle_of(count, k, spread);
    let t = distance_of(count, blocks) as usize;
    turn_runs(
        x,
        t,
        trig.cos(angle),
        trig.sin(angle),
        blocks as usize,
        forward,
    );
}

// The angle, 15360 to the circle.
fn angle_of(n: u32, k: u32, spread: u32) -> u32
    requires some { 1 ≤ n }
    requires count { n ≤ 176 }
    requires pulses { k ≤ 4096 }
    requires spread { spread ≤ 3 }
    ensures value { result ≡ spread_angle n k spread }
    ensures size { result ≤ 1920 }
{
    let divisor = (n + (20 - 5 * spread) * k) as u64;
    share_of(n as u64, divisor) as u32
}

// The share of a quarter of the circle.
fn share_of(n: u64, divisor: u64) -> u64
    requires some { 1 ≤ n }
    requires order { n ≤ divisor }
    requires most { divisor ≤ 131072 }
    ensures value { result ≡ quarter_share n divisor }
    ensures size { result ≤ 1920 }
{
    let square = divisor * divisor;
    (3840 * (n * n) + square) / (2 * square)
}

// The distance of far pairs; 0 where there are none.
fn distance_of(n: u32, blocks: u32) -> u32
    requires count { n ≤ 176 }
    requires low { 1 ≤ blocks }
    requires high { blocks ≤ 16 }
    ensures value { result ≡ distance n blocks }
    ensures size { result ≤ 177 }
{
    if n < 8 * blocks {
        return 0;
    }
    let mut t = 1;
    while (t * t + t) * blocks + blocks / 4 < n {
        t += 1;
    }
    t
}

// The turns of all runs of the list.
fn turn_runs(x: &mut [i64], t: usize, c: i64, s: i64, blocks: usize, forward: bool)
    requires count { length x.old ≤ 176 }
    requires distance { t ≤ 177 }
    requires cosine { unsigned_abs c ≤ 2 ^ 15 }
    requires sine { unsigned_abs s ≤ 2 ^ 15 }
    requires blocks { 1 ≤ blocks }
    requires runs { length x.old % blocks ≡ 0 }
    requires items { All (λ v. unsigned_abs v < 2 ^ 20) x.old }
    ensures { x.new ≡ spread_runs forward t c s (length x.old / blocks) blocks x.old }
{
    let n = x.len() / blocks;
    for b in 0..blocks {
        turn_run(&mut x[b * n..(b + 1) * n], t, c, s, forward);
    }
}

// The turns of one run, without clamps where none acts.
fn turn_run(x: &mut [i64], t: usize, c: i64, s: i64, forward: bool)
    requires count { length x.old ≤ 176 }
    requires distance { t ≤ 177 }
    requires cosine { unsigned_abs c ≤ 2 ^ 15 }
    requires sine { unsigned_abs s ≤ 2 ^ 15 }
    requires items { All (λ v. unsigned_abs v < 2 ^ 20) x.old }
    ensures { x.new ≡ spread_run forward t c s x.old }
{
    let calm = is_calm(x, c, s);
    if forward {
        turn_near(x, c, -s, calm);
        turn_far(x, t, s, -c, calm);
    } else {
        turn_far(x, t, s, c, calm);
        turn_near(x, c, s, calm);
    }
}

// Turns all pairs with distance `t`, upwards and then downwards; none for 0. With `calm` nothing is clamped.
fn turn_far(x: &mut [i64], t: usize, c: i64, s: i64, calm: bool)
    requires count { length x.old ≤ 176 }
    requires distance { t ≤ 177 }
    requires cosine { unsigned_abs c ≤ 2 ^ 15 }
    requires sine { unsigned_abs s ≤ 2 ^ 15 }
    requires items { All (λ v. unsigned_abs v < 2 ^ 20) x.old }
    requires calm { IsTrue calm → IsCalm (2 * length x.old) c s x.old }
    ensures { x.new ≡ turned_far t c s x.old }
{
    if t == 1 {
        turn_near(x, c, s, calm);
    } else if t > 0 {
        let n = x.len();
        turn_up(x, n.saturating_sub(t), t, c, s, calm);
        turn_down(x, n.saturating_sub(2 * t), t, c, s, calm);
    }
}

// The same with distance 1.
fn turn_near(x: &mut [i64], c: i64, s: i64, calm: bool)
    requires count { length x.old ≤ 176 }
    requires cosine { unsigned_abs c ≤ 2 ^ 15 }
    requires sine { unsigned_abs s ≤ 2 ^ 15 }
    requires items { All (λ v. unsigned_abs v < 2 ^ 20) x.old }
    requires calm { IsTrue calm → IsCalm (2 * length x.old) c s x.old }
    ensures { x.new ≡ turned 1 c s x.old }
{
    let n = x.len();
    neighbours_up(x, n.saturating_sub(1), c, s, calm);
    neighbours_down(x, n.saturating_sub(2), c, s, calm);
}

// Turns the pairs that begin at the first `k` places, upwards.
fn turn_up(x: &mut [i64], k: usize, t: usize, c: i64, s: i64, calm: bool)
    requires count { length x.old ≤ 176 }
    requires distance { (1 ≤ t) × (t ≤ 177) }
    requires within { 1 ≤ k → k + t ≤ length x.old }
    requires cosine { unsigned_abs c ≤ 2 ^ 15 }
    requires sine { unsigned_abs s ≤ 2 ^ 15 }
    requires items { All (λ v. unsigned_abs v < 2 ^ 20) x.old }
    requires calm { IsTrue calm → IsCalm k c s x.old }
    ensures { x.new ≡ turned_up t c s k x.old }
{
    for i in 0..k {
        turn_pair(x, i, t, c, s, calm);
    }
}

// The same downwards.
fn turn_down(x: &mut [i64], k: usize, t: usize, c: i64, s: i64, calm: bool)
    requires count { length x.old ≤ 176 }
    requires distance { (1 ≤ t) × (t ≤ 177) }
    requires within { 1 ≤ k → k + t ≤ length x.old }
    requires cosine { unsigned_abs c ≤ 2 ^ 15 }
    requires sine { unsigned_abs s ≤ 2 ^ 15 }
    requires items { All (λ v. unsigned_abs v < 2 ^ 20) x.old }
    requires calm { IsTrue calm → IsCalm k c s x.old }
    ensures { x.new ≡ turned_down t c s k x.old }
{
    for i in (0..k).rev() {
        turn_pair(x, i, t, c, s, calm);
    }
}

// Turns the pair at `p` and `p + t`.
fn turn_pair(x: &mut [i64], p: usize, t: usize, c: i64, s: i64, calm: bool)
    requires distance { (1 ≤ t) × (t ≤ 177) }
    requires within { p + t < length x.old }
    requires count { length x.old ≤ 176 }
    requires cosine { unsigned_abs c ≤ 2 ^ 15 }
    requires sine { unsigned_abs s ≤ 2 ^ 15 }
    requires items { All (λ v. unsigned_abs v < 2 ^ 20) x.old }
    requires calm { IsTrue calm → IsCalm 1 c s x.old }
    ensures { x.new ≡ pair_turned t c s p x.old }
{
    let a = x[p];
    let b = x[p + t];
    x[p] = turned_number(a, c, b, -s, calm);
    x[p + t] = turned_number(b, c, a, s, calm);
}

/// One number of a turned pair, which is not clamped with `calm`.
pub fn turned_number(a: i64, c: i64, b: i64, s: i64, calm: bool) -> i64
    requires first { unsigned_abs a < 2 ^ 20 }
    requires second { unsigned_abs b < 2 ^ 20 }
    requires cosine { unsigned_abs c ≤ 2 ^ 15 }
    requires sine { unsigned_abs s ≤ 2 ^ 15 }
    requires calm { IsTrue calm → unsigned_abs (rounded (a *ℤ c +ℤ b *ℤ s) 15) ≤ 2 ^ 17 }
    ensures value { result ≡ clamped (rounded (a *ℤ c +ℤ b *ℤ s) 15) }
    ensures size { unsigned_abs result ≤ 2 ^ 17 }
{
    let v = rounded_sum(a, c, b, s);
    if calm { v } else { v.clamp(-LIMIT, LIMIT) }
}
