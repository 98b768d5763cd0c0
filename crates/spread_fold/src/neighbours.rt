//! Turns of neighbours (RFC 6716, section 4.3.4.3). Two pairs that follow each other share an item, which is carried
//! from one to the next and not written between.
ghost use Rattle.std.specs.Prelude.{◌≡◌, ℕ, ◌+◌, ◌^◌, ◌<◌, ◌≤◌, unsigned_abs, length, All, IsTrue};
ghost use Rattle.spread_fold.specs.Calm.{IsCalm};
ghost use Rattle.spread_fold.specs.Spreading.{turned_up, turned_down};

use crate::spreading::turned_number;

/// Turns the pairs of neighbours that begin at the first `k` places, upwards. With `calm` nothing is
/// clamped.
pub fn neighbours_up(x: &mut [i64], k: usize, c: i64, s: i64, calm: bool)
    requires count { length x.old ≤ 176 }
    requires within { 1 ≤ k → k + 1 ≤ length x.old }
    requires cosine { unsigned_abs c ≤ 2 ^ 15 }
    requires sine { unsigned_abs s ≤ 2 ^ 15 }
    requires items { All (λ v. unsigned_abs v < 2 ^ 20) x.old }
    requires calm { IsTrue calm → IsCalm k c s x.old }
    ensures { x.new ≡ turned_up 1 c s k x.old }
{
    if k > 0 {
        let mut carried = x[0];
        for i in 0..k {
            let next = x[i + 1];
            x[i] = turned_number(carried, c, next, -s, calm);
            carried = turned_number(next, c, carried, s, calm);
        }
        x[k] = carried;
    }
}

/// The same downwards.
pub fn neighbours_down(x: &mut [i64], k: usize, c: i64, s: i64, calm: bool)
    requires count { length x.old ≤ 176 }
    requires within { 1 ≤ k → k + 1 ≤ length x.old }
    requires cosine { unsigned_abs c ≤ 2 ^ 15 }
    requires sine { unsigned_abs s ≤ 2 ^ 15 }
    requires items { All (λ v. unsigned_abs v < 2 ^ 20) x.old }
    requires calm { IsTrue calm → IsCalm k c s x.old }
    ensures { x.new ≡ turned_down 1 c s k x.old }
{
    if k > 0 {
        let mut carried = x[k];
        for i in (0..k).rev() {
            let first = x[i];
            x[i + 1] = turned_number(carried, c, first, s, calm);
            carried = turned_number(first, c, carried, -s, calm);
        }
        x[0] = carried;
    }
}
