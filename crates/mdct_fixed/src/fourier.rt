//! The Fourier transform of the MDCT (RFC 6716, section 4.3.7), in place: the digits reversed, then all joins.
ghost use Rattle.std.specs.Prelude.{◌≡◌, ℕ, ◌+◌, ◌*◌, ◌/◌, ◌%◌, ◌^◌, ◌<◌, ◌≤◌, length, List};
ghost use Rattle.mdct_fixed.specs.declared.complex.Complex.{Complex};
ghost use Rattle.mdct_fixed.specs.Digits.{IsLength};
ghost use Rattle.mdct_fixed.specs.Numbers.{at, IsWithin};
ghost use Rattle.mdct_fixed.specs.Transform.{radix, radices, size, growth, IsPlan, joined_all, fourier};

use crate::digits::reverse_digits;
use crate::joins::{Runs, join_all};
use fixed_math::Trig;

// The radix that is chosen for a length.
#[tactic(auto, unfolding(crate::specs::Transform::radix))]
fn radix_of(len: usize) -> usize
    ensures { result ≡ radix len }
{
    if len % 4 == 0 {
        4
    } else if len % 2 == 0 {
        2
    } else if len % 3 == 0 {
        3
    } else {
        5
    }
}

// Joins all runs until those of `len` items are joined; `len` divides the lists' length and 480.
fn join_up_to(re: &mut [i64], im: &mut [i64], len: usize, trig: &Trig)
    requires one_length { length re.old ≡ length im.old }
    requires some { 1 ≤ len }
    requires divides { 480 % len ≡ 0 }
    requires runs { length re.old % len ≡ 0 }
    requires within { (i : ℕ) → i < length re.old → IsWithin (2 ^ 31) (at re.old im.old i) }
    ensures { (rs : List ℕ) → IsPlan rs → size rs ≡ len → (i : ℕ) → i < length re.old → at re.new im.new i ≡ joined_all rs (at re.old im.old) i }
{
    if len > 1 {
        let inner = len / radix_of(len);
        join_up_to(re, im, inner, trig);
        let count = re.len() / len;
        join_all(
            re,
            im,
            Runs {
                from: 0,
                len,
                count,
            },
            trig,
        );
    }
}

/// Transforms 60, 120, 240 or 480 items in place.
pub fn transform(re: &mut [i64], im: &mut [i64], trig: &Trig)
    requires one_length { length re.old ≡ length im.old }
    requires length { IsLength (length re.old) }
    requires within { (i : ℕ) → i < length re.old → IsWithin (2 ^ 31) (at re.old im.old i) }
    ensures value { (s : ℕ → Complex) → ((i : ℕ) → i < length re.old → at re.old im.old i ≡ s i)
        → (k : ℕ) → k < length re.old → at re.new im.new k ≡ fourier (length re.old) s k }
    ensures size { (n : ℕ) → ((i : ℕ) → i < length re.old → IsWithin n (at re.old im.old i))
        → (k : ℕ) → k < length re.old → IsWithin (growth (radices (length re.old)) * n) (at re.new im.new k) }
{
    reverse_digits(re, im);
    let n = re.len();
    join_up_to(re, im, n, trig);
}
