//! A frame's signal in one channel, from its spectrum to samples (RFC 6716, section 4.3.7). A channel's buffer keeps the last
//! 1024 outputs of the comb filter and the overlap behind them, at its front. Values are in units of 2^-12 of a sample.
ghost use Rattle.std.specs.Prelude.{◌≡◌, ℕ, ◌+◌, ◌-◌, ◌*◌, ◌^◌, ◌<◌, ◌≤◌, ℤ, pos, unsigned_abs, length, All};
ghost use Rattle.fixed_math.specs.Items.{item};
ghost use Rattle.mdct_fixed.specs.Mdct.{IsSize};
ghost use Rattle.celt_synth.specs.Blocks.{overlapped, overlap_in, IsOverlapped};
ghost use Rattle.celt_synth.specs.Signals.{outputs_of, kept_in};

use crate::blocks::{overlap_long, overlap_short};
use crate::filters::filter;
use celt_base::state::Setting;
use fixed_math::Trig;

/// The form of a frame: how many blocks of 120 samples it has, whether it is a transient, and the settings of the
/// post-filter of the two frames before and of this one.
#[derive(Clone, Copy)]
pub struct Form {
    /// 1, 2, 4 or 8 blocks of 120 samples.
    pub blocks: usize,
    /// Whether each block has a transform of its own.
    pub transient: bool,
    /// The setting from which the first fade goes.
    pub before: Setting,
    /// The setting to which it goes.
    pub now: Setting,
    /// The setting to which the second fade goes.
    pub frame: Setting,
}

// A frame's values over the overlap.
fn overlap(spectrum: &[i64], form: Form, trig: &Trig, buf: &mut [i64])
    requires size { IsSize (120 * form.blocks) }
    requires length { length spectrum.now ≡ 120 * form.blocks }
    requires sizes { All (λ v. unsigned_abs v ≤ 2 ^ 30) spectrum.now }
    requires room { length buf.old ≡ 2104 }
    requires kept { (p : ℕ) → 1024 ≤ p → p < 1144 → unsigned_abs (item buf.old p) < 2 ^ 46 }
    ensures { IsOverlapped form.blocks form.transient spectrum.now buf.old buf.new }
{
    if form.transient {
        let mut items = [0i64; 120];
        let mut values = [0i64; 240];
        return overlap_short(spectrum, form.blocks, trig, &mut items, &mut values, buf);
    }
    let mut values = [0i64; 1080];
    let (room, _) = values.split_at_mut(120 * form.blocks + 120);
    overlap_long(spectrum, form.blocks, trig, room, buf);
}

/// Makes a frame's outputs of the comb filter behind those that a channel keeps, and the next overlap behind them.
pub fn play(spectrum: &[i64], form: Form, trig: &Trig, buf: &mut [i64])
    requires size { IsSize (120 * form.blocks) }
    requires length { length spectrum.now ≡ 120 * form.blocks }
    requires sizes { All (λ v. unsigned_abs v ≤ 2 ^ 30) spectrum.now }
    requires room { length buf.old ≡ 2104 }
    requires earlier { (p : ℕ) → p < 1024 → unsigned_abs (item buf.old p) ≤ 2 ^ 30 }
    requires kept { (p : ℕ) → 1024 ≤ p → p < 1144 → unsigned_abs (item buf.old p) < 2 ^ 46 }
    ensures outputs { (p : ℕ) → p < 1024 + 120 * form.blocks → item buf.new p ≡ item (outputs_of form (kept_in buf.old) spectrum.now) p }
    ensures overlap { (t : ℕ) → t < 120 → item buf.new (1024 + 120 * form.blocks + t) ≡ overlapped form.blocks form.transient (overlap_in buf.old) spectrum.now (120 * form.blocks + t) }
    ensures sizes { (p : ℕ) → p < 1024 + 120 * form.blocks → unsigned_abs (item buf.new p) ≤ 2 ^ 30 }
    ensures overlap_sizes { (t : ℕ) → t < 120 → unsigned_abs (item buf.new (1024 + 120 * form.blocks + t)) < 2 ^ 46 }
    ensures length { length buf.new ≡ 2104 }
{
    overlap(spectrum, form, trig, buf);
    filter(buf, 120 * form.blocks, form.before, form.now, form.frame);
}

/// Moves what a channel keeps to the front of its buffer.
pub fn advance(buf: &mut [i64], n: usize)
    requires { n + 1144 ≤ length buf.old }
    ensures moved { (p : ℕ) → p < 1144 → item buf.new p ≡ item buf.old (n + p) }
    ensures length { length buf.new ≡ length buf.old }
{
    buf.copy_within(n..n + 1144, 0);
}
