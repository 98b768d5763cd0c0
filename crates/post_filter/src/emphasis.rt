//! The de-emphasis filter (RFC 6716, section 4.3.7.2), which undoes the encoder's pre-emphasis.
ghost use Rattle.std.specs.Prelude.{◌≡◌, ℕ, ◌^◌, ◌<◌, ◌≤◌, ◌+ℤ◌, unsigned_abs, slice_set, length, All};
ghost use Rattle.fixed_math.specs.Items.{item};
ghost use Rattle.post_filter.specs.Deemphasis.{before, remainder, IsDeemphasis, deemphasized};

use fixed_math::mulr;

/// What remains of an output in the next one (Q15).
const REMAINDER: i64 = 27_853;

/// Replaces each item by its output, which is the item and 0.85 (27853 in Q15, rounded) of the output before it.
/// `memory` is the output before the first one, and becomes the last one. Items, outputs and memory are in units
/// of 2^-12 of a sample (RFC 6716, section 4.3.7.2).
pub fn deemphasis(x: &mut [i64], memory: &mut i64)
    requires items { All (λ v. unsigned_abs v ≤ 2 ^ 30) x.old }
    requires memory { unsigned_abs memory.old < 2 ^ 33 }
    ensures value { IsDeemphasis memory.old x.old x.new }
    ensures list { x.new ≡ deemphasized memory.old x.old }
    ensures memory { memory.new ≡ before memory.old x.new (length x.old) }
    ensures sizes { All (λ v. unsigned_abs v < 2 ^ 33) x.new }
    ensures memory_size { unsigned_abs memory.new < 2 ^ 33 }
{
    let mut y = *memory;
    let fours = x.len() / 4;
    for four in 0..fours {
        y = put_output(x, 4 * four, y);
        y = put_output(x, 4 * four + 1, y);
        y = put_output(x, 4 * four + 2, y);
        y = put_output(x, 4 * four + 3, y);
    }
    for i in 4 * fours..x.len() {
        y = put_output(x, i, y);
    }
    *memory = y;
}

// Puts the output for the item at place `p` there, from the output before it, and answers it.
fn put_output(x: &mut [i64], p: usize, y: i64) -> i64
    requires inside { p < length x.old }
    requires item { unsigned_abs (item x.old p) ≤ 2 ^ 30 }
    requires before { unsigned_abs y < 2 ^ 33 }
    ensures value { result ≡ item x.old p +ℤ remainder y }
    ensures size { unsigned_abs result < 2 ^ 33 }
    ensures list { x.new ≡ slice_set x.old p result }
{
    let put = next_output(x[p], y);
    x[p] = put;
    put
}

/// The output for the item `x`, which is `x` and what remains of `y`, the output before it.
pub fn next_output(x: i64, y: i64) -> i64
    requires item { unsigned_abs x ≤ 2 ^ 30 }
    requires before { unsigned_abs y < 2 ^ 33 }
    ensures value { result ≡ x +ℤ remainder y }
    ensures size { unsigned_abs result < 2 ^ 33 }
{
    x + mulr(REMAINDER, y, 15)
}
