//! The pre-filter, which the decoder's comb filter undoes (RFC 6716, section 4.3.7.1).
ghost use Rattle.std.specs.Prelude.{◌≡◌, ◌+◌, ◌-◌, ◌^◌, ◌<◌, ◌≤◌, true, take, drop, unsigned_abs, length, All};
ghost use Rattle.fixed_math.specs.Items.{item, listed};
ghost use Rattle.celt_analysis.specs.Signals.{filtered_from, value_at};

use celt_base::state::Setting;
use post_filter::subtract;

/// Where the values of a frame begin in its window: with 120 of the frame before.
const START: usize = 1025;

/// How many values of the frame before there are.
const OVERLAP: usize = 120;

/// Filters the values of a frame, and 120 of the frame before, from the emphasized samples of its window. The settings are
/// those of the two frames before and of the frame.
pub fn prefilter(emphasized: &[i64], settings: &[Setting; 3], out: &mut [i64])
    requires size { 240 ≤ length out.old }
    requires most { length out.old ≤ 1080 }
    requires room { length emphasized.now ≡ 1025 + length out.old }
    requires values { All (λ v. unsigned_abs v < 2 ^ 28) emphasized.now }
    ensures value { out.new ≡ listed (length out.old) (value_at (length out.old - 120) settings.now (item emphasized.now)) }
    ensures sizes { All (λ v. unsigned_abs v < 2 ^ 29) out.new }
{
    let older = settings[0];
    let last = settings[1];
    let now = settings[2];
    let fade = out.len() - 2 * OVERLAP;
    let (before, frame) = out.split_at_mut(OVERLAP);
    filter_from(emphasized, START, fade, older, last, before);
    filter_from(emphasized, START + OVERLAP, 0, last, now, frame);
}

// Filters the values from place `at` on, which are those from place `fade` on of the fade between two settings.
fn filter_from(p: &[i64], at: usize, fade: usize, from: Setting, to: Setting, out: &mut [i64])
    requires start { 1024 ≤ at }
    requires fade { fade + length out.old ≤ 960 }
    requires room { at + length out.old ≤ length p.now }
    requires values { All (λ v. unsigned_abs v < 2 ^ 28) p.now }
    ensures value { out.new ≡ listed (length out.old) (filtered_from from to fade (item p.now) at) }
    ensures sizes { All (λ v. unsigned_abs v < 2 ^ 29) out.new }
{
    if are_off(from, to) {
        copy_from(p, at, out);
        return;
    }
    subtract_from(p, at, fade, from, to, out);
}

// Whether both settings are off.
fn are_off(from: Setting, to: Setting) -> bool
    ensures { result ≡ true → (from.gain ≡ 0) × (to.gain ≡ 0) }
{
    if from.gain != 0 {
        return false;
    }
    to.gain == 0
}

// Copies the values from place `at` on.
fn copy_from(p: &[i64], at: usize, out: &mut [i64])
    requires { at + length out.old ≤ length p.now }
    ensures { out.new ≡ take (length out.old) (drop at p.now) }
{
    let (_, behind) = p.split_at(at);
    let (values, _) = behind.split_at(out.len());
    out.copy_from_slice(values);
}

// The same where a setting is on.
fn subtract_from(p: &[i64], at: usize, fade: usize, from: Setting, to: Setting, out: &mut [i64])
    requires start { 1024 ≤ at }
    requires fade { fade + length out.old ≤ 960 }
    requires room { at + length out.old ≤ length p.now }
    requires values { All (λ v. unsigned_abs v < 2 ^ 28) p.now }
    ensures value { out.new ≡ listed (length out.old) (filtered_from from to fade (item p.now) at) }
    ensures sizes { All (λ v. unsigned_abs v < 2 ^ 29) out.new }
{
    for t in 0..out.len() {
        out[t] = subtract(p, at + t, (fade + t) as u32, from, to);
    }
}
