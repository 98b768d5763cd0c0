//! The fold before a forward transform (RFC 6716, section 4.3.7): N + 120 values under the window become N. The 2 N values
//! that they stand in are never made: those outside are 0.
ghost use Rattle.std.specs.Prelude.{◌≡◌, ℕ, ◌+◌, ◌-◌, ◌^◌, ◌<◌, ◌≤◌, neg_ℤ, ◌-ℤ◌, unsigned_abs, length};
ghost use Rattle.fixed_math.specs.Items.{item};
ghost use Rattle.mdct_fixed.specs.Mdct.{weighted};

use crate::windowing::weigh;

/// Puts the negated values, from place n + 59 down, to all places.
pub fn fold_middle(values: &[i64], out: &mut [i64])
    requires count { length values.now ≡ length out.old + 120 }
    requires small { (i : ℕ) → i < length values.now → unsigned_abs (item values.now i) ≤ 2 ^ 29 }
    ensures { (m : ℕ) → m < length out.old → item out.new m ≡ neg_ℤ (item values.now (length out.old + 59 - m)) }
{
    let n = out.len();
    for m in 0..n {
        out[m] = -values[n + 59 - m];
    }
}

// Item `t` of the first 60: two values under the falling half of the window.
fn falling(values: &[i64], n: usize, t: usize) -> i64
    requires count { length values.now ≡ n + 120 }
    requires place { t < 60 }
    requires small { (i : ℕ) → i < length values.now → unsigned_abs (item values.now i) ≤ 2 ^ 29 }
    ensures { result ≡ neg_ℤ (weighted (item values.now (n + 59 - t)) (60 + t)) -ℤ weighted (item values.now (n + 60 + t)) (59 - t) }
{
    -weigh(values[n + 59 - t], 60 + t) - weigh(values[n + 60 + t], 59 - t)
}

// Item `t` of the last 60: two values under the rising half of the window.
fn rising(values: &[i64], t: usize) -> i64
    requires count { 120 ≤ length values.now }
    requires place { t < 60 }
    requires small { (i : ℕ) → i < length values.now → unsigned_abs (item values.now i) ≤ 2 ^ 29 }
    ensures { result ≡ weighted (item values.now t) t -ℤ weighted (item values.now (119 - t)) (119 - t) }
{
    weigh(values[t], t) - weigh(values[119 - t], 119 - t)
}

/// Puts the items that come from under the window: the first and the last 60.
pub fn fold_edges(values: &[i64], out: &mut [i64])
    requires count { length values.now ≡ length out.old + 120 }
    requires size { 120 ≤ length out.old }
    requires small { (i : ℕ) → i < length values.now → unsigned_abs (item values.now i) ≤ 2 ^ 29 }
    ensures first { (t : ℕ) → t < 60 → item out.new t ≡ neg_ℤ (weighted (item values.now (length out.old + 59 - t)) (60 + t)) -ℤ weighted (item values.now (length out.old + 60 + t)) (59 - t) }
    ensures last { (t : ℕ) → t < 60 → item out.new (length out.old - 60 + t) ≡ weighted (item values.now t) t -ℤ weighted (item values.now (119 - t)) (119 - t) }
    ensures others { (i : ℕ) → 60 ≤ i → i < length out.old - 60 → item out.new i ≡ item out.old i }
{
    let n = out.len();
    for t in 0..60usize {
        out[t] = falling(values, n, t);
        out[n - 60 + t] = rising(values, t);
    }
}
