//! The turns before and behind the Fourier transform of an MDCT (RFC 6716, section 4.3.7).
ghost use Rattle.std.specs.Prelude.{◌≡◌, ℕ, ◌+◌, ◌-◌, ◌*◌, ◌/◌, ◌^◌, ◌<◌, ◌≤◌, neg_ℤ, unsigned_abs, length};
ghost use Rattle.fixed_math.specs.Items.{item};
ghost use Rattle.mdct_fixed.specs.Mdct.{IsSize, turn_angle, turned_pairs};
ghost use Rattle.mdct_fixed.specs.Numbers.{at, angle_at, turned, IsWithin, IsSmall};

use crate::complex::{Angle, Complex, angle_of, get, in_first_quarter, put, turn};
use fixed_math::Trig;

/// The angle of item `k` of a transform of `n` items.
pub fn turn_angle_of(trig: &Trig, n: usize, k: usize) -> Angle
    requires size { IsSize n }
    requires item { k < n / 2 }
    ensures value { result ≡ angle_at (turn_angle n k) }
    ensures small { IsSmall result }
{
    angle_of(trig, in_first_quarter(((8 * k + 1) * (960 / n)) as u32))
}

/// Pairs the items from both ends and turns them.
pub fn turn_pairs(items: &[i64], re: &mut [i64], im: &mut [i64], trig: &Trig)
    requires size { IsSize (length items.now) }
    requires re_room { length re.old ≡ length items.now / 2 }
    requires im_room { length im.old ≡ length items.now / 2 }
    requires small { (i : ℕ) → i < length items.now → unsigned_abs (item items.now i) ≤ 2 ^ 30 }
    ensures { (i : ℕ) → i < length items.now / 2 → at re.new im.new i ≡ turned_pairs (length items.now) (item items.now) i }
{
    let n = items.len();
    for i in 0..n / 2 {
        let z = Complex {
            re: items[2 * i],
            im: items[n - 1 - 2 * i],
        };
        put(re, im, i, turn(z, turn_angle_of(trig, n, i)));
    }
}

/// Turns the transformed items and puts them where the window's middle is: the imaginary parts from place 60 on, and the
/// negated real parts from place n + 59 down, at every other place.
pub fn turn_out(re: &[i64], im: &[i64], out: &mut [i64], trig: &Trig)
    requires size { IsSize (2 * length re.now) }
    requires one_length { length im.now ≡ length re.now }
    requires room { length out.old ≡ 2 * length re.now + 120 }
    requires small { (k : ℕ) → k < length re.now → IsWithin (2 ^ 45) (at re.now im.now k) }
    ensures upwards { (k : ℕ) → k < length re.now → item out.new (60 + 2 * k) ≡ (turned (at re.now im.now k) (turn_angle (2 * length re.now) k)).im }
    ensures downwards { (k : ℕ) → k < length re.now → item out.new (2 * length re.now + 59 - 2 * k) ≡ neg_ℤ (turned (at re.now im.now k) (turn_angle (2 * length re.now) k)).re }
{
    let n = 2 * re.len();
    for k in 0..re.len() {
        let v = turn(get(re, im, k), turn_angle_of(trig, n, k));
        out[60 + 2 * k] = v.im;
        out[n + 59 - 2 * k] = -v.re;
    }
}
