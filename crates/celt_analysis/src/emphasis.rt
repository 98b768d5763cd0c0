//! Pre-emphasis, which the decoder's de-emphasis undoes (RFC 6716, section 4.3.7.2). What it gives is in units of 2^-12 of a
//! sample.
ghost use Rattle.std.specs.Prelude.{◌≡◌, ◌*◌, ◌^◌, ◌<◌, ◌≤◌, pos, ◌-ℤ◌, ◌*ℤ◌, unsigned_abs, length, All};
ghost use Rattle.fixed_math.specs.Items.{listed};
ghost use Rattle.fixed_math.specs.Rounding.{rounded};
ghost use Rattle.celt_analysis.specs.Signals.{emphasized, channel_in};

// A sample without 0.85 (27853 in Q15) of the one before it.
fn emphasize_sample(before: i16, sample: i16) -> i64
    ensures value { result ≡ pos 4096 *ℤ sample -ℤ rounded (pos 27853 *ℤ before) 3 }
    ensures size { unsigned_abs result < 2 ^ 28 }
{
    let kept = (27_853 * before as i32 + 4) >> 3;
    (4096 * sample as i32 - kept) as i64
}

/// Emphasizes the samples of a window of one channel.
pub fn emphasize_mono(window: &[i16], out: &mut [i64])
    requires some { 1 ≤ length out.old }
    requires length { length window.now ≡ 1 * length out.old }
    ensures value { out.new ≡ listed (length out.old) (emphasized (channel_in 1 window.now 0)) }
    ensures sizes { All (λ v. unsigned_abs v < 2 ^ 28) out.new }
{
    out[0] = emphasize_sample(0, window[0]);
    for n in 1..out.len() {
        out[n] = emphasize_sample(window[n - 1], window[n]);
    }
}

/// Emphasizes the samples of one channel in a window of two.
pub fn emphasize_stereo(window: &[i16], channel: usize, out: &mut [i64])
    requires channel { channel < 2 }
    requires some { 1 ≤ length out.old }
    requires length { length window.now ≡ 2 * length out.old }
    ensures value { out.new ≡ listed (length out.old) (emphasized (channel_in 2 window.now channel)) }
    ensures sizes { All (λ v. unsigned_abs v < 2 ^ 28) out.new }
{
    out[0] = emphasize_sample(0, window[channel]);
    for n in 1..out.len() {
        out[n] = emphasize_sample(window[2 * n + channel - 2], window[2 * n + channel]);
    }
}
