//! The forward MDCT of windowed values (RFC 6716, section 4.3.7), as an encoder takes it.
ghost use Rattle.std.specs.Prelude.{◌≡◌, ℕ, ◌+◌, ◌-◌, ◌*◌, ◌/◌, ◌^◌, ◌<◌, ◌≤◌, neg_ℤ, unsigned_abs, length, All};
ghost use Rattle.fixed_math.specs.Items.{item};
ghost use Rattle.mdct_fixed.specs.Mdct.{IsSize, forward_of, floored, scaled, turn_angle};
ghost use Rattle.mdct_fixed.specs.Numbers.{at, turned, IsWithin};

use crate::complex::{Complex, get, turn};
use crate::folding::{fold_edges, fold_middle};
use crate::fourier::transform;
use crate::turns::{turn_angle_of, turn_pairs};
use fixed_math::Trig;

/// Makes a spectrum of N items, N being 120, 240, 480 or 960, of N + 120 values below 2^29 in size. It stays below 2^38, and
/// every value inside below 2^46.
pub fn forward(values: &[i64], trig: &Trig, out: &mut [i64])
    requires size { IsSize (length out.old) }
    requires count { length values.now ≡ length out.old + 120 }
    requires items { All (λ v. unsigned_abs v < 2 ^ 29) values.now }
    ensures value { out.new ≡ forward_of (length out.old) values.now }
    ensures bound { All (λ v. unsigned_abs v < 2 ^ 38) out.new }
{
    let half = out.len() / 2;
    let mut re = [0i64; 480];
    let mut im = [0i64; 480];
    forward_with(values, trig, &mut re[..half], &mut im[..half], out);
}

/// The same with room that is lent, for the parts of N/2 complex numbers, so that none is cleared. What it held is not read.
pub fn forward_with(values: &[i64], trig: &Trig, re: &mut [i64], im: &mut [i64], out: &mut [i64])
    requires size { IsSize (length out.old) }
    requires re_room { length re.old ≡ length out.old / 2 }
    requires im_room { length im.old ≡ length out.old / 2 }
    requires count { length values.now ≡ length out.old + 120 }
    requires items { All (λ v. unsigned_abs v < 2 ^ 29) values.now }
    ensures value { out.new ≡ forward_of (length out.old) values.now }
    ensures bound { All (λ v. unsigned_abs v < 2 ^ 38) out.new }
{
    fold_middle(values, out);
    fold_edges(values, out);
    turn_pairs(out, re, im, trig);
    transform(re, im, trig);
    turn_back(re, im, out, trig);
}

// By how many places 4q + n is shifted before it is divided by 15, so that it is divided by 2n.
fn shift_of(n: usize) -> u32
    requires { IsSize n }
    ensures value { 2 ^ result * 15 ≡ 2 * n }
    ensures size { result ≤ 7 }
{
    if n == 120 {
        4
    } else if n == 240 {
        5
    } else if n == 480 {
        6
    } else {
        7
    }
}

// `x / 15`, rounded down.
fn fifteenth(x: Complex) -> Complex
    requires { IsWithin (2 ^ 47) x }
    ensures re { result.re ≡ floored x.re 15 }
    ensures im { result.im ≡ floored x.im 15 }
{
    Complex {
        re: (x.re + (15 << 44)) / 15 - (1 << 44),
        im: (x.im + (15 << 44)) / 15 - (1 << 44),
    }
}

// The real part and the negated imaginary part of an item, each over N / 2 and rounded.
fn scale(v: Complex, n: usize) -> Complex
    requires within { IsWithin (2 ^ 46) v }
    requires size { IsSize n }
    ensures re { result.re ≡ scaled n v.re }
    ensures im { result.im ≡ scaled n (neg_ℤ v.im) }
{
    let shift = shift_of(n);
    let whole = n as i64;
    fifteenth(Complex {
        re: (4 * v.re + whole) >> shift,
        im: (whole - 4 * v.im) >> shift,
    })
}

// Turns the transformed items, and puts their real parts from place 0 on and their negated imaginary parts from the last
// place down, at every other place, each over N / 2.
fn turn_back(re: &[i64], im: &[i64], out: &mut [i64], trig: &Trig)
    requires size { IsSize (2 * length re.now) }
    requires one_length { length im.now ≡ length re.now }
    requires room { length out.old ≡ 2 * length re.now }
    requires small { (k : ℕ) → k < length re.now → IsWithin (2 ^ 45) (at re.now im.now k) }
    ensures upwards { (k : ℕ) → k < length re.now → item out.new (2 * k) ≡ scaled (2 * length re.now) (turned (at re.now im.now k) (turn_angle (2 * length re.now) k)).re }
    ensures downwards { (k : ℕ) → k < length re.now → item out.new (2 * length re.now - 1 - 2 * k) ≡ scaled (2 * length re.now) (neg_ℤ (turned (at re.now im.now k) (turn_angle (2 * length re.now) k)).im) }
{
    let n = 2 * re.len();
    for k in 0..re.len() {
        let v = scale(turn(get(re, im, k), turn_angle_of(trig, n, k)), n);
        out[2 * k] = v.re;
        out[n - 1 - 2 * k] = v.im;
    }
}
