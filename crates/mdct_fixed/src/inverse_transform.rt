//! The inverse MDCT with its window (RFC 6716, section 4.3.7).
ghost use Rattle.std.specs.Prelude.{◌≡◌, ℕ, ◌+◌, ◌-◌, ◌*◌, ◌/◌, ◌^◌, ◌<◌, ◌≤◌, unsigned_abs, length, All};
ghost use Rattle.fixed_math.specs.Items.{item};
ghost use Rattle.mdct_fixed.specs.Mdct.{IsSize, inverse_of};

use crate::fourier::transform;
use crate::turns::{turn_out, turn_pairs};
use crate::windowing::{window_end, window_start};
use fixed_math::Trig;

/// Makes N + 120 windowed values of a spectrum of N items, N being 120, 240, 480 or 960. Every value inside stays below 2^46
/// in size.
pub fn inverse(spectrum: &[i64], trig: &Trig, out: &mut [i64])
    requires size { IsSize (length spectrum.now) }
    requires room { length out.old ≡ length spectrum.now + 120 }
    requires items { All (λ v. unsigned_abs v ≤ 2 ^ 30) spectrum.now }
    ensures value { out.new ≡ inverse_of (length spectrum.now) spectrum.now }
    ensures bound { All (λ v. unsigned_abs v < 2 ^ 46) out.new }
{
    let half = spectrum.len() / 2;
    let mut re = [0i64; 480];
    let mut im = [0i64; 480];
    inverse_with(spectrum, trig, &mut re[..half], &mut im[..half], out);
}

/// The same with room that is lent, for the parts of N/2 complex numbers, so that none is cleared. What it held is not read.
pub fn inverse_with(spectrum: &[i64], trig: &Trig, re: &mut [i64], im: &mut [i64], out: &mut [i64])
    requires size { IsSize (length spectrum.now) }
    requires re_room { length re.old ≡ length spectrum.now / 2 }
    requires im_room { length im.old ≡ length spectrum.now / 2 }
    requires room { length out.old ≡ length spectrum.now + 120 }
    requires items { All (λ v. unsigned_abs v ≤ 2 ^ 30) spectrum.now }
    ensures value { out.new ≡ inverse_of (length spectrum.now) spectrum.now }
    ensures bound { All (λ v. unsigned_abs v < 2 ^ 46) out.new }
{
    turn_pairs(spectrum, re, im, trig);
    transform(re, im, trig);
    turn_out(re, im, out, trig);
    window_start(out);
    window_end(out, spectrum.len());
}
