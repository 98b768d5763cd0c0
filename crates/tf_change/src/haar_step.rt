//! The Haar step (RFC 6716, section 4.3.4.5): of two neighbouring runs of items the first becomes their sums and
//! the second their differences, each over the root of 2.
ghost use Rattle.std.specs.Prelude.{◌≡◌, ◌⊎◌, ◌≢◌, ℕ, ◌+◌, ◌*◌, ◌/◌, ◌%◌, ◌^◌, ◌<◌, ◌≤◌, ◌+ℤ◌, ◌-ℤ◌, unsigned_abs, length, All};
ghost use Rattle.tf_change.specs.Haar.{scaled, haar_of};
ghost use Rattle.fixed_math.specs.Items.{item};

use fixed_math::mulr;

/// The root of 1/2 (Q15).
const HALF_ROOT: i64 = 23_170;

/// Takes the Haar step on `n` runs of `stride` items, in pairs of runs.
pub fn haar(x: &mut [i64], n: usize, stride: usize)
    requires count { length x.old ≤ 176 }
    requires stride { 1 ≤ stride }
    requires pairs { n % 2 ≡ 0 }
    requires runs { length x.old ≡ n * stride }
    requires items { All (λ v. unsigned_abs v < 2 ^ 40) x.old }
    ensures value { x.new ≡ haar_of stride x.old }
    ensures growth { (m : ℕ) → All (λ v. unsigned_abs v ≤ m) x.old → All (λ v. unsigned_abs v ≤ m + m / 2 + 1) x.new }
{
    for j in 0..n / 2 {
        change_runs(x, 2 * stride * j, stride);
    }
}

// The step on the pair of runs that begins at `base`.
fn change_runs(x: &mut [i64], base: usize, stride: usize)
    requires count { length x.old ≤ 176 }
    requires within { base + 2 * stride ≤ length x.old }
    requires items { (p : ℕ) → base ≤ p → unsigned_abs (item x.old p) < 2 ^ 40 }
    ensures sums { (k : ℕ) → k < stride → item x.new (base + k) ≡ scaled (item x.old (base + k)) +ℤ scaled (item x.old (base + stride + k)) }
    ensures differences { (k : ℕ) → k < stride → item x.new (base + stride + k) ≡ scaled (item x.old (base + k)) -ℤ scaled (item x.old (base + stride + k)) }
    ensures before { (p : ℕ) → p < base → item x.new p ≡ item x.old p }
    ensures behind { (p : ℕ) → base + 2 * stride ≤ p → item x.new p ≡ item x.old p }
{
    for k in 0..stride {
        change_pair(x, base + k, base + stride + k);
    }
}

// The step on one pair of items.
fn change_pair(x: &mut [i64], low: usize, high: usize)
    requires order { low < high }
    requires within { high < length x.old }
    requires low_size { unsigned_abs (item x.old low) < 2 ^ 40 }
    requires high_size { unsigned_abs (item x.old high) < 2 ^ 40 }
    ensures sum { item x.new low ≡ scaled (item x.old low) +ℤ scaled (item x.old high) }
    ensures difference { item x.new high ≡ scaled (item x.old low) -ℤ scaled (item x.old high) }
    ensures others { (p : ℕ) → p ≢ low → p ≢ high → item x.new p ≡ item x.old p }
{
    let a = over_root(x[low]);
    let b = over_root(x[high]);
    x[low] = a + b;
    x[high] = a - b;
}

// `v` over the root of 2, rounded.
fn over_root(v: i64) -> i64
    requires { unsigned_abs v < 2 ^ 40 }
    ensures value { result ≡ scaled v }
    ensures size { unsigned_abs result ≤ 2 ^ 40 }
{
    mulr(HALF_ROOT, v, 15)
}
