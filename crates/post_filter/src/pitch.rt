//! The comb filter of the pitch (RFC 6716, section 4.3.7.1): the decoder's post-filter, in place, and the encoder's
//! pre-filter, which takes the same term away. Values are in units of 2^-12 of a sample.
ghost use Rattle.std.specs.Prelude.{◌≡◌, ℕ, ◌+◌, ◌-◌, ◌*◌, ◌^◌, ◌<◌, ◌≤◌, ℤ, pos, ◌+ℤ◌, ◌-ℤ◌, unsigned_abs, List, length, All, true, if◌then◌else◌, min};
ghost use Rattle.fixed_math.specs.Items.{item};
ghost use Rattle.fixed_math.specs.Rounding.{rounded};
ghost use Rattle.post_filter.specs.Comb.{echo, term, alone, limited, AreOutputs, AreCombed, combed};

use crate::echoes::{echo_three, echo_two, faded_term, rounded_share, steady_term};
use crate::taps::{Taps, fade_at, taps_of};
use celt_base::state::Setting;

/// The greatest size of an output.
const LIMIT: i64 = 1_073_741_824;

/// How many places a fade takes.
const FADE: usize = 120;

/// A gain is a multiple of this where it stands in a frame, 3/32 (Q15).
const GAIN_STEP: u32 = 3072;

/// Replaces the `n` values from `at` on by the outputs of the comb filter, which fades from one setting to the other
/// over the first 120 of them. The values before `at` are outputs already. An output is at most 2^30 in size.
pub fn comb(buf: &mut [i64], at: usize, n: usize, from: Setting, to: Setting)
    requires start { 1024 ≤ at }
    requires room { at + n ≤ length buf.old }
    requires earlier { (p : ℕ) → p < at → unsigned_abs (item buf.old p) ≤ 2 ^ 30 }
    requires values { (p : ℕ) → at ≤ p → p < at + n → unsigned_abs (item buf.old p) < 2 ^ 47 }
    ensures value { AreCombed from to at n buf.old buf.new }
    ensures list { buf.new ≡ combed from to at n buf.old }
    ensures sizes { (p : ℕ) → p < at + n → unsigned_abs (item buf.new p) ≤ 2 ^ 30 }
{
    let faded = places_of(n, is_steady(from, to));
    comb_faded(buf, at, faded, from, to);
    comb_steady(buf, at + faded, n - faded, taps_of(to));
}

/// The value at place `at` without what the comb filter adds there, which is place `fade` of the fade from one setting
/// to the other.
pub fn subtract(p: &[i64], at: usize, fade: u32, from: Setting, to: Setting) -> i64
    requires start { 1024 ≤ at }
    requires room { at < length p.now }
    requires fade { fade < 960 }
    requires values { All (λ v. unsigned_abs v < 2 ^ 28) p.now }
    ensures value { result ≡ item p.now at -ℤ term from to fade p.now at }
    ensures size { unsigned_abs result < 2 ^ 29 }
{
    p[at] - term_of(p, at, fade as usize, from, to)
}

// What is added at place `p`, which is place `i` of the fade.
fn term_of(v: &[i64], p: usize, i: usize, from: Setting, to: Setting) -> i64
    requires start { 1024 ≤ p }
    requires room { p ≤ length v.now }
    requires values { (q : ℕ) → q < p → unsigned_abs (item v.now q) ≤ 2 ^ 30 }
    ensures value { result ≡ term from to i v.now p }
    ensures size { (m : ℕ) → ((q : ℕ) → q < p → unsigned_abs (item v.now q) ≤ m) → unsigned_abs result ≤ m }
{
    if i >= FADE {
        return steady_term(v, p, taps_of(to));
    }
    if is_steady(from, to) {
        return steady_term(v, p, taps_of(to));
    }
    faded_term(v, p, fade_at(i), taps_of(from), taps_of(to))
}

// How many of `n` places are faded.
fn places_of(n: usize, steady: bool) -> usize
    ensures value { result ≡ if steady then 0 else min n 120 }
    ensures few { result ≤ 120 }
    ensures within { result ≤ n }
{
    if steady { 0 } else { n.min(FADE) }
}

// Whether a fade between the two changes nothing: both are off, or they are one, whose shares add up to its taps.
fn is_steady(from: Setting, to: Setting) -> bool
    ensures { result ≡ true → (i : ℕ) (vs : List ℤ) (p : ℕ) → term from to i vs p ≡ alone to vs p }
{
    if to.gain == 0 {
        return from.gain == 0;
    }
    if to.gain % GAIN_STEP != 0 {
        return false;
    }
    if from.gain != to.gain {
        return false;
    }
    if from.period != to.period {
        return false;
    }
    from.tapset == to.tapset
}

// The outputs inside a fade.
fn comb_faded(buf: &mut [i64], at: usize, n: usize, from: Setting, to: Setting)
    requires start { 1024 ≤ at }
    requires few { n ≤ 120 }
    requires room { at + n ≤ length buf.old }
    requires earlier { (p : ℕ) → p < at → unsigned_abs (item buf.old p) ≤ 2 ^ 30 }
    requires values { (p : ℕ) → at ≤ p → p < at + n → unsigned_abs (item buf.old p) < 2 ^ 47 }
    ensures value { AreCombed from to at n buf.old buf.new }
    ensures sizes { (p : ℕ) → p < at + n → unsigned_abs (item buf.new p) ≤ 2 ^ 30 }
{
    let old_taps = taps_of(from);
    let new_taps = taps_of(to);
    for i in 0..n {
        let added = faded_term(buf, at + i, fade_at(i), old_taps, new_taps);
        buf[at + i] = output(buf[at + i], added);
    }
}

// The outputs by taps alone.
fn comb_steady(buf: &mut [i64], at: usize, n: usize, taps: Taps)
    requires start { 1024 ≤ at }
    requires room { at + n ≤ length buf.old }
    requires earlier { (p : ℕ) → p < at → unsigned_abs (item buf.old p) ≤ 2 ^ 30 }
    requires values { (p : ℕ) → at ≤ p → p < at + n → unsigned_abs (item buf.old p) < 2 ^ 47 }
    ensures value { AreOutputs (λ i vs. rounded (echo taps.centre taps.near taps.far taps.period vs (at + i)) 15) at n buf.old buf.new }
    ensures sizes { (p : ℕ) → p < at + n → unsigned_abs (item buf.new p) ≤ 2 ^ 30 }
{
    if taps.far != 0 {
        comb_three(buf, at, n, taps);
    } else if taps.centre == 0 && taps.near == 0 {
        limit_all(buf, at, n);
    } else {
        comb_two(buf, at, n, taps);
    }
}

// The outputs by taps of which those two places beside the period are not 0.
fn comb_three(buf: &mut [i64], at: usize, n: usize, taps: Taps)
    requires start { 1024 ≤ at }
    requires room { at + n ≤ length buf.old }
    requires earlier { (p : ℕ) → p < at → unsigned_abs (item buf.old p) ≤ 2 ^ 30 }
    requires values { (p : ℕ) → at ≤ p → p < at + n → unsigned_abs (item buf.old p) < 2 ^ 47 }
    ensures value { AreOutputs (λ i vs. rounded (echo taps.centre taps.near taps.far taps.period vs (at + i)) 15) at n buf.old buf.new }
    ensures sizes { (p : ℕ) → p < at + n → unsigned_abs (item buf.new p) ≤ 2 ^ 30 }
{
    for i in 0..n {
        let added = rounded_share(echo_three(buf, at + i, taps));
        buf[at + i] = output(buf[at + i], added);
    }
}

// The outputs by taps of which those two places beside the period are 0.
fn comb_two(buf: &mut [i64], at: usize, n: usize, taps: Taps)
    requires far { taps.far ≡ 0 }
    requires start { 1024 ≤ at }
    requires room { at + n ≤ length buf.old }
    requires earlier { (p : ℕ) → p < at → unsigned_abs (item buf.old p) ≤ 2 ^ 30 }
    requires values { (p : ℕ) → at ≤ p → p < at + n → unsigned_abs (item buf.old p) < 2 ^ 47 }
    ensures value { AreOutputs (λ i vs. rounded (echo taps.centre taps.near taps.far taps.period vs (at + i)) 15) at n buf.old buf.new }
    ensures sizes { (p : ℕ) → p < at + n → unsigned_abs (item buf.new p) ≤ 2 ^ 30 }
{
    for i in 0..n {
        let added = rounded_share(echo_two(buf, at + i, taps));
        buf[at + i] = output(buf[at + i], added);
    }
}

// The outputs where nothing is added.
fn limit_all(buf: &mut [i64], at: usize, n: usize)
    requires room { at + n ≤ length buf.old }
    requires earlier { (p : ℕ) → p < at → unsigned_abs (item buf.old p) ≤ 2 ^ 30 }
    requires values { (p : ℕ) → at ≤ p → p < at + n → unsigned_abs (item buf.old p) < 2 ^ 47 }
    ensures value { AreOutputs (λ i vs. pos 0) at n buf.old buf.new }
    ensures sizes { (p : ℕ) → p < at + n → unsigned_abs (item buf.new p) ≤ 2 ^ 30 }
{
    for i in 0..n {
        buf[at + i] = output(buf[at + i], 0);
    }
}

// An output, from its value and what is added.
fn output(x: i64, added: i64) -> i64
    requires value { unsigned_abs x < 2 ^ 47 }
    requires added { unsigned_abs added ≤ 2 ^ 30 }
    ensures value { result ≡ limited (x +ℤ added) }
    ensures size { unsigned_abs result ≤ 2 ^ 30 }
{
    (x + added).clamp(-LIMIT, LIMIT)
}
