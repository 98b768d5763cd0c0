//! The noise that fills bands without pulses, alone or on a copy of lower bands (RFC 6716, sections 4.3.4.4 and
//! 4.3.5). One state of 32 bits goes through a frame; each item takes a step of it.
ghost use Rattle.std.specs.Prelude.{◌≡◌, ℕ, ◌+◌, ◌^◌, ◌<◌, ◌≤◌, ℤ, neg_ℤ, pos, ◌≤ℤ◌, ◌<ℤ◌, unsigned_abs, length, All};
ghost use Rattle.spread_fold.specs.Noise.{seed_after, noise_item, noise_items, folded_item, folded};

use fixed_math::noise;

/// Fills the list with noise: each item is the highest 12 bits of the state after one more step, as a signed
/// number.
pub fn noise_fill(seed: &mut u32, out: &mut [i64])
    requires { length out.old ≤ 176 }
    ensures value { out.new ≡ noise_items (length out.old) seed.old }
    ensures seed { seed.new ≡ seed_after (length out.old) seed.old }
    ensures size { All (λ v. (neg_ℤ (pos (2 ^ 11)) ≤ℤ v) × (v <ℤ pos (2 ^ 11))) out.new }
{
    let mut state = *seed;
    for i in 0..out.len() {
        state = noise(state);
        out[i] = high_bits(state);
    }
    *seed = state;
}

/// Writes the source with 4 added to each item, where bit 15 of the state after one more step is 1, or else taken
/// off.
pub fn fold(source: &[i64], seed: &mut u32, out: &mut [i64])
    requires count { length source.now ≤ 176 }
    requires room { length out.old ≡ length source.now }
    requires items { All (λ v. unsigned_abs v < 2 ^ 22) source.now }
    ensures value { out.new ≡ folded seed.old source.now }
    ensures seed { seed.new ≡ seed_after (length source.now) seed.old }
    ensures growth { (m : ℕ) → All (λ v. unsigned_abs v ≤ m) source.now → All (λ v. unsigned_abs v ≤ m + 4) out.new }
{
    let mut state = *seed;
    for i in 0..source.len() {
        state = noise(state);
        out[i] = shifted(source[i], state);
    }
    *seed = state;
}

// The highest 12 bits, as a signed number.
fn high_bits(state: u32) -> i64
    ensures value { result ≡ noise_item state }
{
    (state.cast_signed() >> 20) as i64
}

// `v` with 4 added or taken off.
fn shifted(v: i64, state: u32) -> i64
    requires { unsigned_abs v < 2 ^ 22 }
    ensures value { result ≡ folded_item state v }
{
    if (state >> 15) % 2 == 1 { v + 4 } else { v - 4 }
}
