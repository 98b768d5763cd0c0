//! The weight of a sample at a distance.
ghost use Rattle.std.specs.Prelude.{◌≡◌, ◌≢◌, ◌*◌, ◌^◌, ◌<◌, ◌≤◌, pos, ◌-ℤ◌, unsigned_abs};
ghost use Rattle.rate_change.specs.Resampling.{distance, window_cosine, wave, height, weight_at};

use fixed_math::{Trig, mulr};

/// A distance, in parts of which a sample has `up`.
#[derive(Clone, Copy)]
pub struct Distance {
    pub up: u32,
    pub parts: i64,
}

/// From part `f` behind a sample to the one t - 15 places on.
pub fn distance_to(up: u32, f: u32, t: u32) -> Distance
    requires up { up ≤ 160 }
    requires part { f < up }
    requires place { t < 32 }
    ensures up { result.up ≡ up }
    ensures parts { result.parts ≡ distance up f (pos t -ℤ pos 15) }
{
    Distance {
        up,
        parts: (i64::from(t) - 15) * i64::from(up) - i64::from(f),
    }
}

// The cosine of the window (Q15), a quarter of the circle over 16 samples.
fn window_at(trig: &Trig, d: Distance) -> i64
    requires some { 1 ≤ d.up }
    requires up { d.up ≤ 160 }
    requires near { unsigned_abs d.parts ≤ 16 * d.up }
    ensures value { result ≡ window_cosine d.up d.parts }
    ensures size { unsigned_abs result ≤ 2 ^ 15 }
{
    trig.cos((240 * d.parts.unsigned_abs() / u64::from(d.up)) as u32)
}

// The sine wave (Q15), half of the circle to each sample.
fn wave_at(trig: &Trig, d: Distance) -> i64
    requires some { 1 ≤ d.up }
    requires up { d.up ≤ 160 }
    requires near { unsigned_abs d.parts ≤ 16 * d.up }
    ensures value { result ≡ wave d.up d.parts }
    ensures size { unsigned_abs result ≤ 2 ^ 15 }
{
    trig.sin((7680 * d.parts / i64::from(d.up)).rem_euclid(15360) as u32)
}

// The wave under the window (Q34).
fn height_at(trig: &Trig, d: Distance) -> i64
    requires some { 1 ≤ d.up }
    requires up { d.up ≤ 160 }
    requires near { unsigned_abs d.parts ≤ 16 * d.up }
    ensures value { result ≡ height d.up d.parts }
    ensures size { unsigned_abs result ≤ 2 ^ 34 }
{
    let window = window_at(trig, d);
    mulr(window, window, 15) * wave_at(trig, d) * 16
}

/// The weight at a distance, which is not 0.
pub fn weight_of(trig: &Trig, d: Distance) -> i64
    requires some { 1 ≤ d.up }
    requires up { d.up ≤ 160 }
    requires near { unsigned_abs d.parts ≤ 16 * d.up }
    requires apart { 1 ≤ unsigned_abs d.parts }
    ensures value { result ≡ weight_at d.up d.parts }
    ensures size { unsigned_abs result ≤ 2 ^ 34 }
{
    height_at(trig, d) / d.parts
}
