//! Runs on which no clamp acts (RFC 6716, section 4.3.4.3). A turn keeps the sum of squares but for its rounding, so a run
//! with a small one needs no clamp in any of its turns.
ghost use Rattle.std.specs.Prelude.{◌≡◌, ◌*◌, ◌^◌, ◌<◌, ◌≤◌, unsigned_abs, length, All, IsTrue};
ghost use Rattle.fixed_math.specs.Unit.{energy};
ghost use Rattle.spread_fold.specs.Calm.{IsCalm};

use crate::stereo::square_of;

/// The greatest square of a cosine and of its sine together (Q30), a little above 1.
const CIRCLE: u64 = 1_073_807_360;

/// The greatest sum of squares, 32 times that of a shape (Q28).
const CALM: u64 = 8_589_934_592;

/// Whether no clamp acts on the run in four passes of turns.
pub fn is_calm(x: &[i64], c: i64, s: i64) -> bool
    requires count { length x.now ≤ 176 }
    requires cosine { unsigned_abs c ≤ 2 ^ 15 }
    requires sine { unsigned_abs s ≤ 2 ^ 15 }
    requires items { All (λ v. unsigned_abs v < 2 ^ 20) x.now }
    ensures { IsTrue result → IsCalm (4 * length x.now) c s x.now }
{
    if square_of(c) + square_of(s) > CIRCLE {
        return false;
    }
    energy_of(x) <= CALM
}

// The sum of squares.
fn energy_of(x: &[i64]) -> u64
    requires count { length x.now ≤ 176 }
    requires items { All (λ v. unsigned_abs v < 2 ^ 20) x.now }
    ensures { result ≡ energy x.now }
{
    let mut sum: u64 = 0;
    for i in 0..x.len() {
        sum += square_of(x[i]);
    }
    sum
}
