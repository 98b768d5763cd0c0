//! The two channels of a stereo band from its middle and its side (RFC 6716, section 4.3.4.4).
ghost use Rattle.std.specs.Prelude.{◌≡◌, ℕ, ◌+◌, ◌*◌, ◌^◌, ◌<◌, ◌≤◌, true, false, ℤ, pos, ◌≤ℤ◌, ◌*ℤ◌, unsigned_abs, length, All};
ghost use Rattle.fixed_math.specs.Unit.{square, energy};
ghost use Rattle.spread_fold.specs.Stereo.{channel_item, channel, merged};

use fixed_math::{mulr, unit};

/// The gain of a shape alone (Q15).
const ONE: i64 = 32_768;

/// The least energy of a channel, 6/10000 of that of a shape (Q28).
const FAINT: u64 = 161_061;

// A number of each channel.
#[derive(Clone, Copy)]
struct Sides {
    left: i64,
    right: i64,
}

// The energy of each channel.
#[derive(Clone, Copy)]
struct Energies {
    left: u64,
    right: u64,
}

/// Makes the left and the right channel of the middle `x` and the side `y`, where `mid` is the middle's weight
/// (Q15): the difference and the sum, each brought to unit length. Where one of them has an energy below 161061,
/// both become the middle. So no item is greater in size than 2^14 and the greatest of the middle.
pub fn merge(x: &mut [i64], y: &mut [i64], mid: i64)
    requires count { length x.old ≤ 176 }
    requires lengths { length y.old ≡ length x.old }
    requires mid_low { pos 0 ≤ℤ mid }
    requires mid_high { mid ≤ℤ pos 32767 }
    requires middle { All (λ v. unsigned_abs v < 2 ^ 20) x.old }
    requires side { All (λ v. unsigned_abs v < 2 ^ 20) y.old }
    ensures left { x.new ≡ merged mid false x.old y.old }
    ensures right { y.new ≡ merged mid true x.old y.old }
    ensures left_size { (m : ℕ) → 2 ^ 14 ≤ m → All (λ v. unsigned_abs v ≤ m) x.old → All (λ v. unsigned_abs v ≤ m) x.new }
    ensures right_size { (m : ℕ) → 2 ^ 14 ≤ m → All (λ v. unsigned_abs v ≤ m) x.old → All (λ v. unsigned_abs v ≤ m) y.new }
{
    let energies = energies_of(x, y, mid);
    if energies.left < FAINT {
        y.copy_from_slice(x);
        return;
    }
    if energies.right < FAINT {
        y.copy_from_slice(x);
        return;
    }
    separate(x, y, mid);
    unit(x, ONE);
    unit(y, ONE);
}

// The sums of the squares of the channels.
fn energies_of(x: &[i64], y: &[i64], mid: i64) -> Energies
    requires count { length x.now ≤ 176 }
    requires lengths { length y.now ≡ length x.now }
    requires mid_low { pos 0 ≤ℤ mid }
    requires mid_high { mid ≤ℤ pos 32767 }
    requires middle { All (λ v. unsigned_abs v < 2 ^ 20) x.now }
    requires side { All (λ v. unsigned_abs v < 2 ^ 20) y.now }
    ensures left { result.left ≡ energy (channel mid false x.now y.now) }
    ensures right { result.right ≡ energy (channel mid true x.now y.now) }
{
    let mut left: u64 = 0;
    let mut right: u64 = 0;
    for i in 0..x.len() {
        let sides = sides_of(x[i], y[i], mid);
        left += square_of(sides.left);
        right += square_of(sides.right);
    }
    Energies { left, right }
}

// Puts the left channel in the middle's place and the right in the side's.
fn separate(x: &mut [i64], y: &mut [i64], mid: i64)
    requires count { length x.old ≤ 176 }
    requires lengths { length y.old ≡ length x.old }
    requires mid_low { pos 0 ≤ℤ mid }
    requires mid_high { mid ≤ℤ pos 32767 }
    requires middle { All (λ v. unsigned_abs v < 2 ^ 20) x.old }
    requires side { All (λ v. unsigned_abs v < 2 ^ 20) y.old }
    ensures left { x.new ≡ channel mid false x.old y.old }
    ensures right { y.new ≡ channel mid true x.old y.old }
{
    for i in 0..x.len() {
        let sides = sides_of(x[i], y[i], mid);
        x[i] = sides.left;
        y[i] = sides.right;
    }
}

// One item of each channel: the middle's product serves both.
fn sides_of(v: i64, w: i64, mid: i64) -> Sides
    requires mid_low { pos 0 ≤ℤ mid }
    requires mid_high { mid ≤ℤ pos 32767 }
    requires middle { unsigned_abs v < 2 ^ 20 }
    requires side { unsigned_abs w < 2 ^ 20 }
    ensures left { result.left ≡ channel_item mid false v w }
    ensures right { result.right ≡ channel_item mid true v w }
    ensures left_size { unsigned_abs result.left ≤ 2 ^ 21 }
    ensures right_size { unsigned_abs result.right ≤ 2 ^ 21 }
{
    let middle = mulr(mid, v, 15);
    Sides {
        left: middle - w,
        right: middle + w,
    }
}

/// The square.
pub fn square_of(v: i64) -> u64
    requires { unsigned_abs v ≤ 2 ^ 21 }
    ensures value { result ≡ square v }
    ensures size { result ≤ 2 ^ 42 }
{
    let size = v.unsigned_abs();
    size * size
}
