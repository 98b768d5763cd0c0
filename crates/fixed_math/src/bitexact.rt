//! The cosine and the logarithm of a tangent by which bits are shared between the two sides of a split
//! (RFC 6716, section 4.3.4.4). Encoder and decoder must agree on every bit of them.
ghost use Rattle.std.specs.Prelude.{◌≡◌, ℕ, ◌+◌, ◌*◌, ◌^◌, ◌<◌, ◌≤◌, pos, neg_ℤ, ◌+ℤ◌, ◌≤ℤ◌, unsigned_abs};
ghost use Rattle.fixed_math.specs.Root.{bit_length_of};
ghost use Rattle.fixed_math.specs.Bitexact.{bitexact_cosine, cosine_of_square, log2_tangent, curve, aligned};

use crate::kernels::mulr;
use crate::roots::bit_length;

/// The cosine (Q15) of `x`, of which 16384 are a quarter of the circle.
pub fn bitexact_cos(x: i32) -> i32
    requires from { pos 64 ≤ℤ x }
    requires to { x ≤ℤ pos 16320 }
    ensures value { result ≡ bitexact_cosine x }
    ensures low { pos 1 ≤ℤ result }
    ensures high { result ≤ℤ pos 32767 }
{
    let x = x as i64;
    cosine_series((4096 + x * x) >> 13) as i32
}

// The cosine (Q15) from the angle's square.
fn cosine_series(t: i64) -> i64
    requires { unsigned_abs t ≤ 2 ^ 15 }
    ensures { result ≡ cosine_of_square t }
{
    let inner = 8277 + mulr(-626, t, 15);
    let middle = -7651 + mulr(t, inner, 15);
    1 + (32767 - t) + mulr(t, middle, 15)
}

/// The logarithm of the tangent `s / c`, in units of 1/2048.
pub fn bitexact_log2tan(s: i32, c: i32) -> i32
    requires s_low { pos 1 ≤ℤ s }
    requires s_high { s ≤ℤ pos 32767 }
    requires c_low { pos 1 ≤ℤ c }
    requires c_high { c ≤ℤ pos 32767 }
    ensures { result ≡ log2_tangent (unsigned_abs s) (unsigned_abs c) }
{
    (log2_series(s as u32) - log2_series(c as u32)) as i32
}

// The logarithm of `s`, in units of 1/2048.
fn log2_series(s: u32) -> i64
    requires { s ≤ 32767 }
    ensures value { result ≡ pos (bit_length_of s * 2048) +ℤ curve (pos (aligned s)) }
    ensures size { unsigned_abs result ≤ 2 ^ 20 }
{
    let length = bit_length(s);
    let x = ((s as u64) << (15 - length)) as i64;
    length as i64 * 2048 + mulr(x, mulr(x, -2597, 15) + 7932, 15)
}
