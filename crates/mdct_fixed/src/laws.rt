//! Laws of the definitions alone. No body does anything.
ghost use Rattle.std.specs.Prelude.{◌≡◌, ℕ, ℤ, List, ◌+◌, ◌-◌, ◌*◌, ◌/◌, ◌%◌, ◌<◌, ◌≤◌, neg_ℤ};
ghost use Rattle.mdct_fixed.specs.declared.complex.Complex.{Complex};
ghost use Rattle.mdct_fixed.specs.Numbers.{IsWithin};
ghost use Rattle.mdct_fixed.specs.Mdct.{kernel, turned_back};
ghost use Rattle.mdct_fixed.specs.Transform.{turned_sum, radix, radices, size, growth, transform, fourier, reversed, joined_all, IsPlan};

/// The transform of one item is itself. That of more, whose number divides 480, is made of the transforms of every r-th
/// item, r being the radix of the number.
pub fn law_fourier()
    ensures one { (s : ℕ → Complex) (k : ℕ) → fourier 1 s k ≡ s 0 }
    ensures more { (len : ℕ) (s : ℕ → Complex) (k : ℕ) → 2 ≤ len → 480 % len ≡ 0
        → fourier len s k ≡ turned_sum (λ j. fourier (len / radix len) (λ i. s (radix len * i + j)) (k % (len / radix len))) (15360 / len * k) (radix len - 1) }
{}

/// Joins over items in the order of reversed digits make the transform: for all radices, and so for each length that divides
/// 480.
pub fn law_joins()
    ensures any { (rs : List ℕ) (s : ℕ → Complex) (k : ℕ) → k < size rs → joined_all rs (λ i. s (reversed rs i)) k ≡ transform rs s k }
    ensures lengths { (len : ℕ) (s : ℕ → Complex) (k : ℕ) → 1 ≤ len → 480 % len ≡ 0 → k < len
        → joined_all (radices len) (λ i. s (reversed (radices len) i)) k ≡ fourier len s k }
{}

/// Each length that divides 480 is made by radices that are each chosen for what is left.
pub fn law_plans()
    ensures plan { (len : ℕ) → 1 ≤ len → 480 % len ≡ 0 → IsPlan (radices len) }
    ensures length { (len : ℕ) → 1 ≤ len → 480 % len ≡ 0 → size (radices len) ≡ len }
{}

/// Joins by radices make parts larger by at most the product of the numbers 2r - 1: for 480 items 6615, and for no length
/// that divides 480 more. With the two turns, each of which doubles at most, that is 26460.
pub fn law_growth()
    ensures joins { (rs : List ℕ) (s : ℕ → Complex) (n : ℕ) → ((i : ℕ) → IsWithin n (s i)) → (i : ℕ) → IsWithin (growth rs * n) (joined_all rs s i) }
    ensures greatest { (len : ℕ) → 1 ≤ len → 480 % len ≡ 0 → growth (radices len) ≤ 6615 }
    ensures longest { 2 * growth (radices 480) * 2 ≡ 26460 }
{}

/// Of the N items of a transform those at even places are real parts, and those at odd places from the end on negated
/// imaginary parts of the turned items.
pub fn law_kernel()
    ensures even { (h k : ℕ) (s : ℕ → ℤ) → k < h → kernel (2 * h) s (2 * k) ≡ (turned_back (2 * h) s k).re }
    ensures odd { (h k : ℕ) (s : ℕ → ℤ) → k < h → kernel (2 * h) s (2 * h - 1 - 2 * k) ≡ neg_ℤ (turned_back (2 * h) s k).im }
{}
