//! The taps of the post-filter (RFC 6716, section 4.3.7.1), and its fade from one setting to the next. Gains, taps
//! and shares are Q15.
ghost use Rattle.std.specs.Prelude.{◌≡◌, ◌+◌, ◌*◌, ◌^◌, ◌<◌, ◌≤◌};
ghost use Rattle.post_filter.specs.Comb.{scaled, centre_tap, near_tap, far_tap, fade};

use celt_base::state::Setting;
use celt_tables::window::WINDOW;

/// The whole (Q15).
pub const WHOLE: u32 = 32_768;

/// A setting's period, and its taps with its gain: at the distance of the period, one place beside it and two places
/// beside it.
#[derive(Clone, Copy)]
pub struct Taps {
    pub period: u32,
    pub centre: u32,
    pub near: u32,
    pub far: u32,
    ghost least_period: { 15 ≤ period },
    ghost most_period: { period ≤ 1022 },
    ghost sum: { centre + 2 * near + 2 * far ≤ 24576 },
}

/// The taps of a setting.
pub fn taps_of(setting: Setting) -> Taps
    ensures period { result.period ≡ setting.period }
    ensures centre { result.centre ≡ scaled setting.gain (centre_tap setting.tapset) }
    ensures near { result.near ≡ scaled setting.gain (near_tap setting.tapset) }
    ensures far { result.far ≡ scaled setting.gain (far_tap setting.tapset) }
{
    Taps {
        period: setting.period,
        centre: share_of(setting.gain, centre_of(setting.tapset)),
        near: share_of(setting.gain, near_of(setting.tapset)),
        far: share_of(setting.gain, far_of(setting.tapset)),
    }
}

// The tap at the distance of the period.
fn centre_of(tapset: u32) -> u32
    ensures value { result ≡ centre_tap tapset }
    ensures size { result ≤ 2 ^ 15 }
{
    if tapset == 0 {
        10_048
    } else if tapset == 1 {
        15_200
    } else {
        26_208
    }
}

// The taps one place beside it.
fn near_of(tapset: u32) -> u32
    ensures value { result ≡ near_tap tapset }
    ensures size { result ≤ 2 ^ 15 }
{
    if tapset == 0 {
        7112
    } else if tapset == 1 {
        8784
    } else {
        3280
    }
}

// The taps two places beside it.
fn far_of(tapset: u32) -> u32
    ensures value { result ≡ far_tap tapset }
    ensures size { result ≤ 2 ^ 15 }
{
    if tapset == 0 { 4248 } else { 0 }
}

/// The taps by a share of at most the whole.
pub fn part_of(taps: Taps, share: u32) -> Taps
    requires { share ≤ 2 ^ 15 }
    ensures period { result.period ≡ taps.period }
    ensures centre { result.centre ≡ scaled share taps.centre }
    ensures near { result.near ≡ scaled share taps.near }
    ensures far { result.far ≡ scaled share taps.far }
{
    Taps {
        period: taps.period,
        centre: share_of(share, taps.centre),
        near: share_of(share, taps.near),
        far: share_of(share, taps.far),
    }
}

/// The share of the new setting at place `i` of a fade.
pub fn fade_at(i: usize) -> u32
    requires { i < 120 }
    ensures value { result ≡ fade i }
    ensures size { result ≤ 2 ^ 15 }
{
    let window = WINDOW[i] as u32;
    share_of(window, window)
}

// The product of two numbers, rounded.
fn share_of(a: u32, b: u32) -> u32
    requires first { a ≤ 2 ^ 15 }
    requires second { b ≤ 2 ^ 15 }
    ensures value { result ≡ scaled a b }
    ensures size { result ≤ b }
{
    (a * b + 16_384) / 32_768
}
