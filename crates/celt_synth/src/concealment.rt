//! The shapes of a concealed frame: noise in each band.
ghost use Rattle.std.specs.Prelude.{◌≡◌, ℕ, List, ℤ, ◌+◌, ◌*◌, ◌^◌, ◌<◌, ◌≤◌, unsigned_abs, length, All};
ghost use Rattle.spread_fold.specs.Noise.{seed_after};
ghost use Rattle.celt_tables.specs.Tables.{edge_of, width_of};
ghost use Rattle.celt_synth.specs.Blocks.{blocks_of};
ghost use Rattle.celt_synth.specs.Concealment.{noise_band, IsNoiseBand, AreNoise};

use crate::anti_collapse::blocks;
use celt_base::kind::Kind;
use celt_tables::{edge, width};
use fixed_math::unit;
use spread_fold::noise_fill;

// Makes the list a unit vector of noise.
fn fill_noise(x: &mut [i64], seed: &mut u32)
    requires { length x.old ≤ 176 }
    ensures value { x.new ≡ noise_band (length x.old) seed.old }
    ensures seed { seed.new ≡ seed_after (length x.old) seed.old }
    ensures items { All (λ v. unsigned_abs v < 2 ^ 20) x.new }
{
    noise_fill(seed, x);
    unit(x, 32_768);
}

// Makes a band of the shapes of a channel noise.
fn fill_band(x: &mut [i64], kind: Kind, band: usize, seed: &mut u32)
    requires band { band < 21 }
    requires length { length x.old ≡ 100 * blocks_of kind }
    requires items { All (λ v. unsigned_abs v < 2 ^ 20) x.old }
    ensures band { IsNoiseBand (blocks_of kind) band seed.old x.old x.new }
    ensures seed { seed.new ≡ seed_after (blocks_of kind * width_of band) seed.old }
{
    let count = blocks(kind);
    let (_, behind) = x.split_at_mut(count * edge(band as u32) as usize);
    let (here, _) = behind.split_at_mut(count * width(band as u32) as usize);
    fill_noise(here, seed);
}

// Makes a band of the shapes of the frame's channels noise.
fn fill_both(left: &mut [i64], right: &mut [i64], kind: Kind, band: usize, seed: &mut u32)
    requires band { band < 21 }
    requires left_length { length left.old ≡ 100 * blocks_of kind }
    requires right_length { length right.old ≡ 100 * blocks_of kind }
    requires left_items { All (λ v. unsigned_abs v < 2 ^ 20) left.old }
    requires right_items { All (λ v. unsigned_abs v < 2 ^ 20) right.old }
    ensures { (start : ℕ) → AreNoise kind band start left.old right.old seed.old → AreNoise kind (band + 1) start left.new right.new seed.new }
{
    fill_band(left, kind, band, seed);
    if kind.channels == 2 {
        fill_band(right, kind, band, seed);
    }
}

/// Makes the shapes of a frame noise, from a seed on: unit vectors (Q14), 100 items a block of 120 samples. `left` and
/// `right` are 0. Answers the noise's state behind them.
pub fn fill_frame(left: &mut [i64], right: &mut [i64], kind: Kind, seed: u32) -> u32
    requires left_length { length left.old ≡ 100 * blocks_of kind }
    requires right_length { length right.old ≡ 100 * blocks_of kind }
    requires left_items { All (λ v. unsigned_abs v < 2 ^ 20) left.old }
    requires right_items { All (λ v. unsigned_abs v < 2 ^ 20) right.old }
    ensures { AreNoise kind kind.end seed left.new right.new result }
{
    let mut state = seed;
    for band in 0..usize::from(kind.end) {
        fill_both(left, right, kind, band, &mut state);
    }
    state
}
