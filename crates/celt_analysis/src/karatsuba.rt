//! Correlations of a list with another at each of many places, modulo 2^32, by the method of Karatsuba: three of half the
//! size in place of four, down to 64 places.
ghost use Rattle.std.specs.Prelude.{◌≡◌, ◌⊎◌, ℕ, ◌+◌, ◌-◌, ◌*◌, ◌^◌, ◌<◌, ◌≤◌, ℤ, pos, ◌+ℤ◌, ◌-ℤ◌, unsigned_abs, FitsSigned, length};
ghost use Rattle.std.specs.Int.{int_wrap, w16, w32};
ghost use Rattle.fixed_math.specs.Items.{item};
ghost use Rattle.celt_analysis.specs.Sums.{correlation};

use crate::lanes::sixty_four;

// The fewest places.
const FEWEST: usize = 64;

// Writes from `to` on the differences of `n` items from `a` on and those from `b` on.
fn differences(s: &mut [i16], a: usize, b: usize, to: usize, n: usize)
    requires first { a + n ≤ to }
    requires second { b + n ≤ to }
    requires room { to + n ≤ length s.old }
    requires first_sizes { (i : ℕ) → i < n → unsigned_abs (item s.old (a + i)) < 2 ^ 14 }
    requires second_sizes { (i : ℕ) → i < n → unsigned_abs (item s.old (b + i)) < 2 ^ 14 }
    ensures items { (i : ℕ) → i < n → item s.new (to + i) ≡ item s.old (a + i) -ℤ item s.old (b + i) }
    ensures others { (k : ℕ) → (k < to) ⊎ (to + n ≤ k) → item s.new k ≡ item s.old k }
    ensures length { length s.new ≡ length s.old }
{
    for i in 0..n {
        s[to + i] = s[a + i] - s[b + i];
    }
}

// Writes from `to` on the sums of `n` items from `a` on and those from `b` on.
fn sums(s: &mut [i16], a: usize, b: usize, to: usize, n: usize)
    requires first { a + n ≤ to }
    requires second { b + n ≤ to }
    requires room { to + n ≤ length s.old }
    requires first_sizes { (i : ℕ) → i < n → unsigned_abs (item s.old (a + i)) < 2 ^ 14 }
    requires second_sizes { (i : ℕ) → i < n → unsigned_abs (item s.old (b + i)) < 2 ^ 14 }
    ensures items { (i : ℕ) → i < n → item s.new (to + i) ≡ item s.old (a + i) +ℤ item s.old (b + i) }
    ensures others { (k : ℕ) → (k < to) ⊎ (to + n ≤ k) → item s.new k ≡ item s.old k }
    ensures length { length s.new ≡ length s.old }
{
    for i in 0..n {
        s[to + i] = s[a + i] + s[b + i];
    }
}

// Adds to the items from `to` on those from `from` on.
fn add_all(out: &mut [i32], to: usize, from: usize, n: usize)
    requires room { to + n ≤ from }
    requires count { from + n ≤ length out.old }
    ensures items { (i : ℕ) → i < n → item out.new (to + i) ≡ int_wrap w32 (item out.old (to + i) +ℤ item out.old (from + i)) }
    ensures others { (k : ℕ) → (k < to) ⊎ (to + n ≤ k) → item out.new k ≡ item out.old k }
    ensures length { length out.new ≡ length out.old }
{
    for i in 0..n {
        out[to + i] = out[to + i].wrapping_add(out[from + i]);
    }
}

// The sums at 64 places.
fn correlate_short(s: &[i16], at: usize, from: usize, free: usize, out: &mut [i32], to: usize)
    requires first { at + 128 ≤ free }
    requires second { from + 64 ≤ free }
    requires free { free ≤ length s.now }
    requires fits { (k : ℕ) → k < free → FitsSigned w16 (item s.now k) }
    requires room { to + 64 ≤ length out.old }
    ensures items { (t : ℕ) → t < 64 → item out.new (to + t) ≡ int_wrap w32 (correlation (item s.now) (item s.now) (at + t) from 64) }
    ensures others { (k : ℕ) → (k < to) ⊎ (to + 64 ≤ k) → item out.new k ≡ item out.old k }
    ensures length { length out.new ≡ length out.old }
{
    for t in 0..FEWEST {
        out[to + t] = sixty_four(s, at + t, from, free);
    }
}

// A part of the places: so many from `at` on, with as many items from `from` on, 64 doubled so many times.
#[derive(Clone, Copy)]
pub(crate) struct Part {
    pub at: usize,
    pub from: usize,
    pub places: usize,
    pub halvings: u32,
}

// The correlations at the places of a part. What stands from `free` and from `spare` on is room for the halves.
pub(crate) fn correlate(
    s: &mut [i16],
    part: Part,
    free: usize,
    out: &mut [i32],
    to: usize,
    spare: usize,
)
    requires power { part.places ≡ 64 * 2 ^ part.halvings }
    requires first { part.at + 2 * part.places ≤ free }
    requires second { part.from + part.places ≤ free }
    requires free { free + 5 * part.places ≤ length s.old }
    requires room { to + part.places ≤ spare }
    requires spare { spare + part.places ≤ length out.old }
    requires sizes { (i : ℕ) → i < free → unsigned_abs (item s.old i) * part.places < 2 ^ 21 }
    ensures items { (t : ℕ) → t < part.places → item out.new (to + t) ≡ int_wrap w32 (correlation (item s.old) (item s.old) (part.at + t) part.from part.places) }
    ensures below { (k : ℕ) → k < to → item out.new k ≡ item out.old k }
    ensures behind { (k : ℕ) → to + part.places ≤ k → k < spare → item out.new k ≡ item out.old k }
    ensures length { length out.new ≡ length out.old }
    ensures kept { (k : ℕ) → k < free → item s.new k ≡ item s.old k }
    ensures s_length { length s.new ≡ length s.old }
{
    if part.halvings == 0 {
        correlate_short(s, part.at, part.from, free, out, to);
        return;
    }
    let h = part.places;
    let q = h / 2;
    let a = free + q;
    let b = a + h;
    let next = b + h;
    sums(s, part.from, part.from + q, free, q);
    differences(s, part.at, part.at + q, a, h);
    differences(s, part.at + h, part.at + q, b, h);
    let halvings = part.halvings - 1;
    let both = Part {
        at: part.at + q,
        from: free,
        places: q,
        halvings,
    };
    let low = Part {
        at: a,
        from: part.from,
        places: q,
        halvings,
    };
    let high = Part {
        at: b,
        from: part.from + q,
        places: q,
        halvings,
    };
    correlate(s, both, next, out, spare, spare + q);
    correlate(s, low, next, out, to, spare + q);
    correlate(s, high, next, out, to + q, spare + q);
    add_all(out, to, spare, q);
    add_all(out, to + q, spare, q);
}
