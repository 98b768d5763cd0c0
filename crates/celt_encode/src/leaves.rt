//! What is wanted of the pulses of a part.
ghost use Rattle.std.specs.Prelude.{◌≡◌, ◌%◌, ◌^◌, ◌<◌, ◌≤◌, unsigned_abs, All, IsTrue, length};
ghost use Rattle.pulse_search.specs.Pulses.{vector_of};
ghost use Rattle.pulse_vectors.specs.Rows.{rank_of};
ghost use Rattle.pulse_vectors.specs.Vectors.{count_of};
ghost use Rattle.celt_encode.specs.Leaves.{may_have, are_blocks, pulses_for, pulses_wanted};

use fixed_math::Trig;
use pulse_search::search;
use pulse_vectors::{PulseTable, last_index, pulses_of};
use spread_fold::rotate;

/// How a part is spread, and the number of its pulses.
#[derive(Clone, Copy)]
pub struct Spreading {
    pub blocks: u32,
    pub pulses: u32,
    pub spread: u32,
}

// Whether a part of n coefficients may have k pulses.
#[tactic(auto, unfolding(crate::specs::Leaves::may_have))]
fn can_have(n: usize, k: u32) -> bool
    ensures value { result ≡ may_have n k }
    ensures numbers { IsTrue result → (2 ≤ n) × (n ≤ 176) }
    ensures pulses { IsTrue result → (1 ≤ k) × (k ≤ 128) }
    ensures fits { IsTrue result → count_of n k < 2 ^ 32 }
{
    if n < 2 || n > 176 {
        return false;
    }
    1 <= k && k <= pulses_of(last_index(n as u32))
}

// Whether a part of n coefficients has so many equal blocks.
#[tactic(auto, unfolding(crate::specs::Leaves::are_blocks))]
fn has_blocks(n: usize, blocks: u32) -> bool
    ensures value { result ≡ are_blocks n blocks }
    ensures some { IsTrue result → 1 ≤ blocks }
    ensures most { IsTrue result → blocks ≤ 16 }
    ensures equal { IsTrue result → n % blocks ≡ 0 }
{
    if blocks < 1 || blocks > 16 {
        return false;
    }
    n % blocks as usize == 0
}

// The number of the vector of pulses that is found for a part.
fn found(x: &[i64], k: u32) -> u32
    requires count { (1 ≤ length x.now) × (length x.now ≤ 176) }
    requires small { All (λ v. unsigned_abs v < 2 ^ 20) x.now }
    requires pulses { (1 ≤ k) × (k ≤ 128) }
    requires fits { count_of (length x.now) k < 2 ^ 32 }
    ensures value { result ≡ rank_of (vector_of x.now k) }
{
    let mut pulses = [0i32; 176];
    let (out, _) = pulses.split_at_mut(x.len());
    search(x, k, out);
    PulseTable::new().rank(out)
}

// The same of a part that is spread first.
#[tactic(auto, unfolding(crate::specs::Leaves::pulses_for))]
fn found_spread(part: &[i64], trig: &Trig, s: Spreading) -> u32
    requires count { (1 ≤ length part.now) × (length part.now ≤ 176) }
    requires small { All (λ v. unsigned_abs v < 2 ^ 20) part.now }
    requires blocks { (1 ≤ s.blocks) × (s.blocks ≤ 16) }
    requires equal { length part.now % s.blocks ≡ 0 }
    requires pulses { (1 ≤ s.pulses) × (s.pulses ≤ 128) }
    requires fits { count_of (length part.now) s.pulses < 2 ^ 32 }
    requires spread { s.spread ≤ 3 }
    ensures value { result ≡ rank_of (pulses_for s.blocks s.pulses s.spread part.now) }
{
    let mut items = [0i64; 176];
    let (x, _) = items.split_at_mut(part.len());
    x.copy_from_slice(part);
    rotate(x, trig, s.blocks, s.pulses, s.spread, true);
    found(x, s.pulses)
}

/// What is wanted of the pulses of a part of at most 176 coefficients.
#[tactic(auto, unfolding(crate::specs::Leaves::pulses_wanted))]
pub fn pulses_number(part: &[i64], trig: &Trig, s: Spreading) -> i64
    requires count { length part.now ≤ 176 }
    requires small { All (λ v. unsigned_abs v < 2 ^ 20) part.now }
    requires spread { s.spread ≤ 3 }
    ensures { result ≡ pulses_wanted s.blocks s.pulses s.spread part.now }
{
    if can_have(part.len(), s.pulses) && has_blocks(part.len(), s.blocks) {
        return found_spread(part, trig, s) as i64;
    }
    0
}
