//! Estimates of the correlations at all lags, from samples that are quantized to 11 bits.
ghost use Rattle.std.specs.Prelude.{◌≡◌, ◌⊎◌, ℕ, ◌+◌, ◌*◌, ◌/◌, ◌%◌, ◌^◌, ◌<◌, ◌≤◌, All, ℤ, pos, ◌+ℤ◌, ◌≤ℤ◌, unsigned_abs, FitsSigned, length};
ghost use Rattle.std.specs.Int.{int_shr, w16};
ghost use Rattle.fixed_math.specs.Items.{item};
ghost use Rattle.celt_analysis.specs.Search.{AreNear};
ghost use Rattle.celt_analysis.specs.Sums.{correlation, magnitude};

use crate::karatsuba::{Part, correlate};
use crate::search::BEFORE;

// How near the estimates of a frame's correlations are: a correlation is its estimate in steps, and at most the error away.
#[derive(Clone, Copy)]
pub(crate) struct Estimate {
    // the samples of the frame
    pub n: usize,
    // a step of the estimates
    pub scale: i64,
    pub error: i64,
    ghost size: { n ≤ 960 },
    ghost whole: { n % 8 ≡ 0 },
    ghost scale_size: { unsigned_abs scale ≤ 2 ^ 10 },
    ghost error_sign: { pos 0 ≤ℤ error },
    ghost error_size: { unsigned_abs error < 2 ^ 31 },
}

// The sum of the sizes of `n` samples from place `a` on.
fn magnitude_from(d: &[i16], a: usize, n: usize) -> u32
    requires items { All (λ x. unsigned_abs x ≤ 2 ^ 15) d.now }
    requires count { n ≤ 1982 }
    requires within { a + n ≤ length d.now }
    ensures value { result ≡ magnitude (item d.now) a n }
    ensures size { result ≤ n * 2 ^ 15 }
{
    let mut sum: u32 = 0;
    for i in 0..n {
        sum += d[a + i].unsigned_abs() as u32;
    }
    sum
}

// The greatest size.
pub(crate) fn peak(d: &[i16]) -> u16
    ensures bound { All (λ x. unsigned_abs x ≤ result) d.now }
    ensures size { result ≤ 2 ^ 15 }
    ensures fits { (k : ℕ) → k < length d.now → FitsSigned w16 (item d.now k) }
{
    let mut most: u16 = 0;
    for i in 0..d.len() {
        let size = d[i].unsigned_abs();
        if most < size {
            most = size;
        }
    }
    most
}

// A quantizer with steps of 2^shift: half a step, and the step's square.
#[derive(Clone, Copy)]
struct Quantizer {
    shift: u32,
    half: i32,
    scale: i64,
}

// The quantizer for samples up to a size.
fn quantizer_for(most: u16) -> Quantizer
    requires { most ≤ 2 ^ 15 }
    ensures shift { result.shift ≤ 5 }
    ensures half { result.half ≡ pos (2 ^ result.shift / 2) }
    ensures half_size { 2 ^ result.shift / 2 ≤ 16 }
    ensures scale { result.scale ≡ pos (2 ^ result.shift * 2 ^ result.shift) }
    ensures scale_size { unsigned_abs result.scale ≤ 2 ^ 10 }
    ensures size { most + 2 ^ result.shift / 2 < 1448 * 2 ^ result.shift }
{
    if most < 1448 {
        return Quantizer {
            shift: 0,
            half: 0,
            scale: 1,
        };
    }
    if most < 2895 {
        return Quantizer {
            shift: 1,
            half: 1,
            scale: 4,
        };
    }
    if most < 5790 {
        return Quantizer {
            shift: 2,
            half: 2,
            scale: 16,
        };
    }
    if most < 11580 {
        return Quantizer {
            shift: 3,
            half: 4,
            scale: 64,
        };
    }
    if most < 23160 {
        return Quantizer {
            shift: 4,
            half: 8,
            scale: 256,
        };
    }
    Quantizer {
        shift: 5,
        half: 16,
        scale: 1024,
    }
}

// A sample in steps, rounded.
fn quantized(x: i16, q: Quantizer) -> i16
    requires shift { q.shift ≤ 5 }
    requires half { q.half ≡ pos (2 ^ q.shift / 2) }
    requires size { unsigned_abs x + 2 ^ q.shift / 2 < 1448 * 2 ^ q.shift }
    ensures value { result ≡ int_shr (x +ℤ pos (2 ^ q.shift / 2)) q.shift }
    ensures size { unsigned_abs result ≤ 1448 }
{
    ((x as i32 + q.half) >> q.shift) as i16
}

// Writes `n` samples from place `a` on, quantized, from place `to` on.
fn quantize(d: &[i16], a: usize, n: usize, q: Quantizer, s: &mut [i16], to: usize)
    requires shift { q.shift ≤ 5 }
    requires half { q.half ≡ pos (2 ^ q.shift / 2) }
    requires sizes { (i : ℕ) → unsigned_abs (item d.now i) + 2 ^ q.shift / 2 < 1448 * 2 ^ q.shift }
    requires within { a + n ≤ length d.now }
    requires room { to + n ≤ length s.old }
    requires old_sizes { (i : ℕ) → unsigned_abs (item s.old i) ≤ 1448 }
    ensures items { (i : ℕ) → i < n → item s.new (to + i) ≡ int_shr (item d.now (a + i) +ℤ pos (2 ^ q.shift / 2)) q.shift }
    ensures others { (k : ℕ) → (k < to) ⊎ (to + n ≤ k) → item s.new k ≡ item s.old k }
    ensures length { length s.new ≡ length s.old }
    ensures sizes { (i : ℕ) → unsigned_abs (item s.new i) ≤ 1448 }
{
    for i in 0..n {
        s[to + i] = quantized(d[a + i], q);
    }
}

// How many places are done at once: the least of 128, 256, 512 and 1024 that is not below `n`.
#[derive(Clone, Copy)]
struct Blocks {
    places: usize,
    halvings: u32,
    count: usize,
}

fn blocks_for(n: usize) -> Blocks
    requires { n ≤ 960 }
    ensures enough { n ≤ result.places }
    ensures power { result.places ≡ 64 * 2 ^ result.halvings }
    ensures whole { result.count * result.places ≡ 1024 }
    ensures most { result.places ≤ 1024 }
{
    if n <= 128 {
        return Blocks {
            places: 128,
            halvings: 1,
            count: 8,
        };
    }
    if n <= 256 {
        return Blocks {
            places: 256,
            halvings: 2,
            count: 4,
        };
    }
    if n <= 512 {
        return Blocks {
            places: 512,
            halvings: 3,
            count: 2,
        };
    }
    Blocks {
        places: 1024,
        halvings: 4,
        count: 1,
    }
}

// The correlations at 1024 places with the `n` samples from place 2048 on, behind which are zeros.
fn correlations(s: &mut [i16], n: usize, out: &mut [i32])
    requires count { n ≤ 960 }
    requires sizes { (i : ℕ) → unsigned_abs (item s.old i) ≤ 1448 }
    requires ahead { (i : ℕ) → n ≤ i → i < 1024 → item s.old (2048 + i) ≡ pos 0 }
    requires s_length { length s.old ≡ 8192 }
    requires length { length out.old ≡ 2048 }
    ensures items { (t : ℕ) → t < 1024 → item out.new t ≡ correlation (item s.old) (item s.old) t 2048 n }
    ensures length { length out.new ≡ 2048 }
{
    let run = blocks_for(n);
    for b in 0..run.count {
        let at = b * run.places;
        let part = Part {
            at,
            from: 2048,
            places: run.places,
            halvings: run.halvings,
        };
        correlate(s, part, 3072, out, at, 1024);
    }
}

// How far a correlation can be from its estimate, half being half a step.
fn error_of(d: &[i16], n: usize, half: u32) -> i64
    requires items { All (λ x. unsigned_abs x ≤ 2 ^ 15) d.now }
    requires count { n ≤ 960 }
    requires length { length d.now ≡ 1022 + n }
    requires half { half ≤ 16 }
    ensures value { result ≡ pos (half * (magnitude (item d.now) 1022 n + magnitude (item d.now) 0 (1022 + n)) + n * (half * half)) }
    ensures size { unsigned_abs result < 2 ^ 31 }
{
    let all = magnitude_from(d, BEFORE, n) + magnitude_from(d, 0, BEFORE + n);
    (half * all + (n as u32) * (half * half)) as i64
}

// Writes estimates of the correlations with the samples from each place before the frame on.
pub(crate) fn estimate_all(d: &[i16], n: usize, most: u16, out: &mut [i32]) -> Estimate
    requires bound { All (λ x. unsigned_abs x ≤ most) d.now }
    requires most { most ≤ 2 ^ 15 }
    requires count { n ≤ 960 }
    requires whole { n % 8 ≡ 0 }
    requires length { length d.now ≡ 1022 + n }
    requires room { length out.old ≡ 2048 }
    ensures n { result.n ≡ n }
    ensures near { AreNear (item d.now) n (item out.new) result.scale result.error }
    ensures length { length out.new ≡ 2048 }
{
    let q = quantizer_for(most);
    let mut s = [0i16; 8192];
    quantize(d, 0, BEFORE + n, q, &mut s, 0);
    quantize(d, BEFORE, n, q, &mut s, 2048);
    correlations(&mut s, n, out);
    Estimate {
        n,
        scale: q.scale,
        error: error_of(d, n, q.half.unsigned_abs()),
    }
}
