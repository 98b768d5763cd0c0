//! The pitch of a frame, and the setting of the post-filter for it (RFC 6716, section 4.3.7.1).
ghost use Rattle.std.specs.Prelude.{◌≡◌, ℕ, ◌+◌, ◌*◌, ◌%◌, ◌^◌, ◌<◌, ◌≤◌, All, unsigned_abs, length, slice_index};
ghost use Rattle.fixed_math.specs.Items.{item};
ghost use Rattle.celt_analysis.specs.Pitch.{energies, downmix, IsPitch, IsPitchOf};
ghost use Rattle.celt_analysis.specs.Signals.{window_size};
ghost use Rattle.celt_analysis.specs.Sums.{energy};

use crate::downmix::{PASSED, mix};
use crate::estimate::{estimate_all, peak};
use crate::search::{BEFORE, LAGS, best, gain_of};
use crate::slide::Slide;
use crate::sums::energy_from;
use celt_base::kind::Kind;
use celt_base::state::Setting;

// The greatest number of samples: those before the frame, and a frame of 960.
const SAMPLES: usize = 1982;

// Writes the samples as numbers of 64 bits.
fn widen(d: &[i16], out: &mut [i64])
    requires { length d.now ≤ length out.old }
    ensures items { (i : ℕ) → i < length d.now → item out.new i ≡ item d.now i }
    ensures others { (i : ℕ) → length d.now ≤ i → item out.new i ≡ item out.old i }
    ensures length { length out.new ≡ length out.old }
{
    for i in 0..d.len() {
        out[i] = d[i] as i64;
    }
}

// Writes the energies at all lags.
fn energies_of(d: &[i64], n: usize, out: &mut [u64])
    requires items { All (λ x. unsigned_abs x ≤ 2 ^ 15) d.now }
    requires count { n ≤ 960 }
    requires within { 1022 + n ≤ length d.now }
    requires room { length out.old ≡ 1008 }
    ensures items { (i : ℕ) → i < 1008 → slice_index out.new i ≡ energies (item d.now) 1022 n i }
    ensures sizes { (i : ℕ) → i < 1008 → slice_index out.new i ≤ 2 ^ 40 }
    ensures length { length out.new ≡ 1008 }
{
    let mut slide = Slide::new(d, BEFORE - 15, n);
    out[0] = slide.sum();
    for i in 1..LAGS {
        slide.back(d);
        out[i] = slide.sum();
    }
}

// The energy of the frame.
fn own_energy(d: &[i64], n: usize) -> u64
    requires items { All (λ x. unsigned_abs x ≤ 2 ^ 15) d.now }
    requires count { n ≤ 960 }
    requires within { 1022 + n ≤ length d.now }
    ensures value { result ≡ energy (item d.now) 1022 n }
    ensures size { result ≤ 2 ^ 40 }
{
    energy_from(d, BEFORE, n)
}

// Writes the energies of the samples at all lags, and gives that of the frame.
fn all_energies(d: &[i16], n: usize, out: &mut [u64]) -> u64
    requires items { All (λ x. unsigned_abs x ≤ 2 ^ 15) d.now }
    requires count { n ≤ 960 }
    requires length { length d.now ≡ 1022 + n }
    requires room { length out.old ≡ 1008 }
    ensures items { (i : ℕ) → i < 1008 → slice_index out.new i ≡ energies (item d.now) 1022 n i }
    ensures sizes { (i : ℕ) → i < 1008 → slice_index out.new i ≤ 2 ^ 40 }
    ensures length { length out.new ≡ 1008 }
    ensures own { result ≡ energy (item d.now) 1022 n }
    ensures own_size { result ≤ 2 ^ 40 }
{
    let mut wide = [0i64; SAMPLES];
    widen(d, &mut wide);
    energies_of(&wide, n, out);
    own_energy(&wide, n)
}

// The samples of a frame.
fn frame_size(lm: u8) -> usize
    requires { lm ≤ 3 }
    ensures value { result ≡ 120 * 2 ^ lm }
    ensures size { result ≤ 960 }
    ensures whole { result % 8 ≡ 0 }
{
    120 << lm
}

// The setting for a frame of `n` samples, which stand behind the 1022 before it.
fn pitch_of(d: &[i16], n: usize) -> Setting
    requires count { n ≤ 960 }
    requires whole { n % 8 ≡ 0 }
    requires length { length d.now ≡ 1022 + n }
    ensures { IsPitch (item d.now) 1022 n result }
{
    let most = peak(d);
    let mut sums = [0i32; 2048];
    let e = estimate_all(d, n, most, &mut sums);
    let mut energy = [0u64; LAGS];
    let own = all_energies(d, n, &mut energy);
    let i = best(d, e, &sums, &energy, own);
    if i == LAGS {
        return Setting {
            period: 15,
            gain: 0,
            tapset: 0,
        };
    }
    let k = gain_of(d, e, &sums, &energy, i);
    if k == 0 {
        return Setting {
            period: 15,
            gain: 0,
            tapset: 0,
        };
    }
    Setting {
        period: 15 + i as u32,
        gain: 3072 * k,
        tapset: 0,
    }
}

// The setting for a window of two channels, with room for their middles.
fn mixed_pitch(window: &[i16], n: usize, out: &mut [i16]) -> Setting
    requires count { n ≤ 960 }
    requires whole { n % 8 ≡ 0 }
    requires length { length window.now ≡ 2 * (1145 + n) }
    requires room { length out.old ≡ 1022 + n }
    ensures { IsPitch (downmix 2 (item window.now)) 1022 n result }
{
    mix(window, out);
    pitch_of(out, n)
}

/// The setting of the post-filter for a frame, from the lag of 15 to 1022 samples at which the samples before it match it
/// best: the greatest square of the correlation over the energy, the least lag on ties. The window has the 120 << lm samples
/// of the frame and the 1145 before them for each channel, channels interleaved. The gain is Q15, 3072 to 24576, or 0 where
/// the filter is off (RFC 6716, section 4.3.7.1).
pub fn pitch(window: &[i16], kind: Kind) -> Setting
    requires { length window.now ≡ window_size kind }
    ensures { IsPitchOf kind.channels kind.lm (item window.now) result }
{
    let n = frame_size(kind.lm);
    if kind.channels == 1 {
        return pitch_of(&window[PASSED..], n);
    }
    let mut out = [0i16; SAMPLES];
    mixed_pitch(window, n, &mut out[..BEFORE + n])
}
