//! Room for the values of a frame, on their way to its spectrum.
ghost use Rattle.std.specs.Prelude.{◌≡◌, ◌+◌, ◌*◌, ◌^◌, ◌<◌, ◌≤◌, ℕ, pos, nat_eq, unsigned_abs, length, take, All, IfOk};
ghost use Rattle.fixed_math.specs.Items.{item, listed};
ghost use Rattle.mdct_fixed.specs.Mdct.{IsSize};
ghost use Rattle.celt_analysis.specs.Signals.{blocks_of, channel_in, emphasized, frame_size, values_in, window_size};

use crate::emphasis::{emphasize_mono, emphasize_stereo};
use crate::prefilter::prefilter;
use celt_base::kind::Kind;
use celt_base::state::Setting;
use celt_base::status::OutOfMemory;
use std::alloc::Global;

/// A list of zeros.
pub fn zeros(alloc: Global, count: usize) -> Result<Vec<i64>, OutOfMemory>
    ensures zeros { IfOk result (λ v. (p : ℕ) → item v.items p ≡ pos 0) }
    ensures length { IfOk result (λ v. length v.items ≡ count) }
{
    match vec![in alloc; 0i64; count] {
        Ok(values) => Ok(values),
        Err(_) => Err(OutOfMemory),
    }
}

/// How many blocks of 120 samples a frame has.
pub fn blocks(kind: Kind) -> usize
    ensures value { result ≡ blocks_of kind }
    ensures some { 1 ≤ result }
    ensures few { result ≤ 8 }
    ensures size { IsSize (120 * result) }
{
    match kind.lm {
        0 => 1,
        1 => 2,
        2 => 4,
        _ => 8,
    }
}

// Emphasizes the samples of a channel of a window.
fn emphasize(window: &[i16], kind: Kind, channel: usize, out: &mut [i64])
    requires channel { channel < kind.channels }
    requires window { length window.now ≡ window_size kind }
    requires out { length out.old ≡ 1145 + frame_size kind }
    ensures value { out.new ≡ listed (1145 + frame_size kind) (emphasized (channel_in kind.channels window.now channel)) }
    ensures sizes { All (λ v. unsigned_abs v < 2 ^ 28) out.new }
{
    if kind.channels == 1 {
        emphasize_mono(window, out);
    } else {
        emphasize_stereo(window, channel, out);
    }
}

/// The values of a channel of a window that are transformed, first in `out`. `room` is for the samples of the window.
pub fn fill_values(
    window: &[i16],
    kind: Kind,
    channel: usize,
    settings: &[Setting; 3],
    room: &mut [i64],
    out: &mut [i64],
)
    requires channel { channel < kind.channels }
    requires window { length window.now ≡ window_size kind }
    requires room { length room.old ≡ 2105 }
    requires out { length out.old ≡ 1080 }
    requires kept { All (λ v. unsigned_abs v < 2 ^ 29) out.old }
    ensures value { take (frame_size kind + 120) out.new ≡ values_in (frame_size kind) settings.now (channel_in kind.channels window.now channel) }
    ensures sizes { All (λ v. unsigned_abs v < 2 ^ 29) out.new }
{
    let n = 120 * blocks(kind);
    let (samples, _) = room.split_at_mut(1145 + n);
    let (values, _) = out.split_at_mut(n + 120);
    emphasize(window, kind, channel, samples);
    prefilter(samples, settings, values);
}
