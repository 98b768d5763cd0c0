//! Sums of products of samples in a row with others, modulo 2^32, eight products side by side. The samples below place
//! `free` are looked at.
ghost use Rattle.std.specs.Prelude.{◌≡◌, ℕ, ◌+◌, ◌*◌, ◌%◌, ◌<◌, ◌≤◌, FitsSigned, length};
ghost use Rattle.std.specs.Int.{int_wrap, w16, w32};
ghost use Rattle.fixed_math.specs.Items.{item};
ghost use Rattle.celt_analysis.specs.Lanes.{pairs};
ghost use Rattle.celt_analysis.specs.Sums.{correlation};

use std::simd::prelude::*;

// Eight products, two in a lane.
fn pairs(s: &[i16], i: usize, j: usize, free: usize) -> i32x4
    requires first { i + 8 ≤ free }
    requires second { j + 8 ≤ free }
    requires free { free ≤ length s.now }
    requires fits { (k : ℕ) → k < free → FitsSigned w16 (item s.now k) }
    ensures { result ≡ pairs (item s.now) i j }
{
    let a = i16x8::from_slice(&s[i..]);
    let b = i16x8::from_slice(&s[j..]);
    let products = a.cast::<i32>() * b.cast::<i32>();
    products.swizzle([0, 2, 4, 6]) + products.swizzle([1, 3, 5, 7])
}

// The sum of so many eights.
fn eights(s: &[i16], i: usize, j: usize, free: usize, count: usize) -> i32
    requires first { i + 8 * count ≤ free }
    requires second { j + 8 * count ≤ free }
    requires free { free ≤ length s.now }
    requires fits { (k : ℕ) → k < free → FitsSigned w16 (item s.now k) }
    ensures { result ≡ int_wrap w32 (correlation (item s.now) (item s.now) i j (8 * count)) }
{
    let mut sum = i32x4::splat(0);
    for k in 0..count {
        sum = sum + pairs(s, i + 8 * k, j + 8 * k, free);
    }
    sum.reduce_sum()
}

// The sum of 64 products.
pub(crate) fn sixty_four(s: &[i16], i: usize, j: usize, free: usize) -> i32
    requires first { i + 64 ≤ free }
    requires second { j + 64 ≤ free }
    requires free { free ≤ length s.now }
    requires fits { (k : ℕ) → k < free → FitsSigned w16 (item s.now k) }
    ensures { result ≡ int_wrap w32 (correlation (item s.now) (item s.now) i j 64) }
{
    eights(s, i, j, free, 8)
}

// The sum of so many times 64.
fn sixty_fours(s: &[i16], i: usize, j: usize, free: usize, count: usize) -> i32
    requires first { i + 64 * count ≤ free }
    requires second { j + 64 * count ≤ free }
    requires free { free ≤ length s.now }
    requires fits { (k : ℕ) → k < free → FitsSigned w16 (item s.now k) }
    ensures { result ≡ int_wrap w32 (correlation (item s.now) (item s.now) i j (64 * count)) }
{
    let mut sum: i32 = 0;
    for k in 0..count {
        sum = sum.wrapping_add(sixty_four(s, i + 64 * k, j + 64 * k, free));
    }
    sum
}

// The sum of `n` products, a multiple of 8.
pub(crate) fn product_sum(s: &[i16], i: usize, j: usize, n: usize) -> i32
    requires whole { n % 8 ≡ 0 }
    requires first { i + n ≤ length s.now }
    requires second { j + n ≤ length s.now }
    requires fits { (k : ℕ) → k < length s.now → FitsSigned w16 (item s.now k) }
    ensures { result ≡ int_wrap w32 (correlation (item s.now) (item s.now) i j n) }
{
    let free = s.len();
    let done = 64 * (n / 64);
    let most = sixty_fours(s, i, j, free, n / 64);
    most.wrapping_add(eights(s, i + done, j + done, free, n % 64 / 8))
}
