//! The comb filter over a frame, de-emphasis and samples (RFC 6716, sections 4.3.7.1 and 4.3.7.2). A channel's buffer has
//! 1024 outputs of the comb filter before the frame's values, in units of 2^-12 of a sample.
ghost use Rattle.std.specs.Prelude.{◌≡◌, ℕ, ◌+◌, ◌-◌, ◌*◌, ◌^◌, ◌<◌, ◌≤◌, ℤ, pos, ◌+ℤ◌, unsigned_abs, length, All};
ghost use Rattle.fixed_math.specs.Items.{item};
ghost use Rattle.post_filter.specs.Comb.{filtered};
ghost use Rattle.post_filter.specs.Deemphasis.{output_before};
ghost use Rattle.celt_synth.specs.Filters.{AreEmitted};

use celt_base::state::Setting;
use fixed_math::Exp;
use post_filter::{comb, deemphasis, samples};

/// Where a frame's values begin in a buffer.
pub const START: usize = 1024;

/// Where the samples of a channel go, and how loud.
#[derive(Clone, Copy)]
pub struct Output {
    /// The header's output gain, in units of 1/256 dB.
    pub gain: i32,
    /// The place of the first sample.
    pub start: usize,
    /// How many places lie between two samples, and one more.
    pub stride: usize,
}

/// Replaces the `n` values of a frame by the outputs of the comb filter.
pub fn filter(buf: &mut [i64], n: usize, before: Setting, now: Setting, frame: Setting)
    requires size { 120 ≤ n }
    requires room { 1024 + n ≤ length buf.old }
    requires earlier { (p : ℕ) → p < 1024 → unsigned_abs (item buf.old p) ≤ 2 ^ 30 }
    requires values { (p : ℕ) → 1024 ≤ p → p < 1024 + n → unsigned_abs (item buf.old p) < 2 ^ 47 }
    ensures value { buf.new ≡ filtered before now frame n buf.old }
    ensures sizes { (p : ℕ) → p < 1024 + n → unsigned_abs (item buf.new p) ≤ 2 ^ 30 }
    ensures behind { (p : ℕ) → 1024 + n ≤ p → item buf.new p ≡ item buf.old p }
{
    comb(buf, START, 120, before, now);
    comb(buf, START + 120, n - 120, now, frame);
}

/// De-emphasis and samples of the outputs of a frame, at most 960, which go to the places of the channel. Answers the last
/// output of de-emphasis.
pub fn emit(outputs: &[i64], memory: i64, exp: &Exp, out: &mut [i16], place: Output) -> i64
    requires count { length outputs.now ≤ 960 }
    requires values { All (λ v. unsigned_abs v ≤ 2 ^ 30) outputs.now }
    requires memory { unsigned_abs memory < 2 ^ 33 }
    requires gain { unsigned_abs place.gain ≤ 32768 }
    requires stride { 1 ≤ place.stride }
    requires room { (t : ℕ) → t < length outputs.now → place.start + place.stride * t < length out.old }
    ensures samples { AreEmitted place.gain memory (item outputs.now) place.start place.stride (length outputs.now) out.old out.new }
    ensures memory { result ≡ output_before memory (item outputs.now) (length outputs.now) }
    ensures size { unsigned_abs result < 2 ^ 33 }
{
    let mut room = [0i64; 960];
    let (x, _) = room.split_at_mut(outputs.len());
    x.copy_from_slice(outputs);
    let mut last = memory;
    deemphasis(x, &mut last);
    samples(exp, x, place.gain, out, place.start, place.stride);
    last
}
