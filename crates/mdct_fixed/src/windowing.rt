//! Values under the window of the transform (RFC 6716, section 4.3.7), Q15.
ghost use Rattle.std.specs.Prelude.{◌≡◌, ℕ, ◌+◌, ◌-◌, ◌*◌, ◌^◌, ◌<◌, ◌≤◌, pos, neg_ℤ, ◌*ℤ◌, unsigned_abs, length};
ghost use Rattle.celt_tables.specs.Tables.{window_entry};
ghost use Rattle.fixed_math.specs.Items.{item};
ghost use Rattle.mdct_fixed.specs.Mdct.{weighted};

use celt_tables::window::WINDOW;
use fixed_math::mulr;

// Entry `k` of the window.
fn entry(k: usize) -> i64
    requires { k < 120 }
    ensures { result ≡ pos (window_entry k) }
{
    WINDOW[k] as i64
}

/// `v` times entry `k` of the window.
pub fn weigh(v: i64, k: usize) -> i64
    requires place { k < 120 }
    requires size { unsigned_abs v ≤ 2 ^ 46 }
    ensures value { result ≡ weighted v k }
    ensures within { (n : ℕ) → unsigned_abs v ≤ n → unsigned_abs result ≤ n }
{
    mulr(v, entry(k), 15)
}

/// Windows the first 120 values in place, of which the first 60 are made: they are the negated mirror of the others.
pub fn window_start(out: &mut [i64])
    requires room { 120 ≤ length out.old }
    requires small { (i : ℕ) → 60 ≤ i → i < 120 → unsigned_abs (item out.old i) ≤ 2 ^ 46 }
    ensures first { (t : ℕ) → t < 60 → item out.new t ≡ weighted (neg_ℤ (item out.old (119 - t))) t }
    ensures second { (t : ℕ) → t < 60 → item out.new (119 - t) ≡ weighted (item out.old (119 - t)) (119 - t) }
    ensures others { (i : ℕ) → 120 ≤ i → item out.new i ≡ item out.old i }
{
    for t in 0..60usize {
        let z = out[119 - t];
        out[t] = weigh(-z, t);
        out[119 - t] = weigh(z, 119 - t);
    }
}

/// Windows the last 120 values, from place `n` on, in place. The last 60 are made: they are the mirror of those before.
pub fn window_end(out: &mut [i64], n: usize)
    requires room { length out.old ≡ n + 120 }
    requires small { (i : ℕ) → n ≤ i → i < n + 60 → unsigned_abs (item out.old i) ≤ 2 ^ 46 }
    ensures first { (t : ℕ) → t < 60 → item out.new (n + 59 - t) ≡ weighted (item out.old (n + 59 - t)) (60 + t) }
    ensures second { (t : ℕ) → t < 60 → item out.new (n + 60 + t) ≡ weighted (item out.old (n + 59 - t)) (59 - t) }
    ensures others { (i : ℕ) → i < n → item out.new i ≡ item out.old i }
{
    for t in 0..60usize {
        let z = out[n + 59 - t];
        out[n + 59 - t] = weigh(z, 60 + t);
        out[n + 60 + t] = weigh(z, 59 - t);
    }
}
