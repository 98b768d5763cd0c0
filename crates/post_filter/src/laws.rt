//! Laws of the definitions alone. No body does anything.
ghost use Rattle.std.specs.Prelude.{◌≡◌, ℕ, ℤ, List, ◌+◌, ◌*◌, ◌%◌, ◌^◌, ◌<◌, ◌≤◌, pos, negsuc, neg_ℤ, ◌+ℤ◌, ◌*ℤ◌, ◌≤ℤ◌, ◌<ℤ◌, unsigned_abs, length};
ghost use Rattle.celt_base.specs.declared.state.Setting.{Setting};
ghost use Rattle.fixed_math.specs.Items.{item};
ghost use Rattle.fixed_math.specs.Rounding.{rounded};
ghost use Rattle.post_filter.specs.Comb.{scaled, centre_tap, near_tap, far_tap, centre, near, far, fade, term, alone, limited, AreCombed, combed};
ghost use Rattle.post_filter.specs.Deemphasis.{before, IsDeemphasis, output_before, deemphasized};
ghost use Rattle.post_filter.specs.Samples.{octave, place, amplified, exponent, saturated};

/// The taps of each tapset, those beside the period counted twice, add up to the whole (Q15), and with a setting's gain
/// to 3/4 of it at most. A weight is the rounded product of two.
pub fn law_taps()
    ensures whole { (tapset : ℕ) → centre_tap tapset + 2 * near_tap tapset + 2 * far_tap tapset ≡ 2 ^ 15 }
    ensures most { (setting : Setting) → centre setting + 2 * near setting + 2 * far setting ≤ 24576 }
    ensures product { (a b : ℕ) → pos (scaled a b) ≡ rounded (pos a *ℤ pos b) 15 }
{}

/// For a list of values, a place and two settings there is at most one list of outputs of the comb filter; where the
/// list has the places there is one, and it is what the outputs come to that are put one after the other.
pub fn law_comb()
    ensures met { (from to : Setting) (at n : ℕ) (xs : List ℤ) → 1024 ≤ at → at + n ≤ length xs → AreCombed from to at n xs (combed from to at n xs) }
    ensures fixed { (from to : Setting) (at n : ℕ) (xs ys : List ℤ) → 1024 ≤ at → at + n ≤ length xs → AreCombed from to at n xs ys → ys ≡ combed from to at n xs }
    ensures one { (from to : Setting) (at n : ℕ) (xs ys zs : List ℤ) → 1024 ≤ at → AreCombed from to at n xs ys → AreCombed from to at n xs zs → ys ≡ zs }
{}

/// A fade never falls; from place 120 on it is over, and the new setting adds what it adds alone. So it does at each
/// place between settings that are off, and between two that are the same with a gain that is a multiple of 3072.
pub fn law_fade()
    ensures rise { (i : ℕ) → fade i ≤ fade (i + 1) }
    ensures most { (i : ℕ) → fade i ≤ 2 ^ 15 }
    ensures over { (from to : Setting) (i : ℕ) (vs : List ℤ) (p : ℕ) → 120 ≤ i → term from to i vs p ≡ alone to vs p }
    ensures off { (from to : Setting) (i : ℕ) (vs : List ℤ) (p : ℕ) → from.gain ≡ 0 → to.gain ≡ 0 → term from to i vs p ≡ pos 0 }
    ensures same { (setting : Setting) (i : ℕ) (vs : List ℤ) (p : ℕ) → setting.gain % 3072 ≡ 0 → term setting setting i vs p ≡ alone setting vs p }
{}

/// What is added depends on the values before its place alone, and no size exceeds theirs.
pub fn law_term()
    ensures back { (from to : Setting) (i : ℕ) (us vs : List ℤ) (p : ℕ) → 1024 ≤ p → ((q : ℕ) → q < p → item us q ≡ item vs q) → term from to i us p ≡ term from to i vs p }
    ensures size { (from to : Setting) (i : ℕ) (vs : List ℤ) (p m : ℕ) → 1024 ≤ p → ((q : ℕ) → q < p → unsigned_abs (item vs q) ≤ m) → unsigned_abs (term from to i vs p) ≤ m }
{}

/// A limited number is at most 2^30 in size; one of such a size stays, and a greater one becomes the nearest.
pub fn law_limited()
    ensures size { (z : ℤ) → unsigned_abs (limited z) ≤ 2 ^ 30 }
    ensures inside { (z : ℤ) → unsigned_abs z ≤ 2 ^ 30 → limited z ≡ z }
    ensures high { (z : ℤ) → pos (2 ^ 30) <ℤ z → limited z ≡ pos (2 ^ 30) }
    ensures low { (z : ℤ) → z <ℤ neg_ℤ (pos (2 ^ 30)) → limited z ≡ neg_ℤ (pos (2 ^ 30)) }
{}

/// For a memory and a list of items there is one list of outputs, and it is what the recursion gives. The last of them
/// is what the next item finds.
pub fn law_deemphasis()
    ensures met { (memory : ℤ) (xs : List ℤ) → IsDeemphasis memory xs (deemphasized memory xs) }
    ensures fixed { (memory : ℤ) (xs ys : List ℤ) → IsDeemphasis memory xs ys → ys ≡ deemphasized memory xs }
    ensures last { (memory : ℤ) (xs : List ℤ) → before memory (deemphasized memory xs) (length xs) ≡ output_before memory (item xs) (length xs) }
    ensures one { (memory : ℤ) (xs ys zs : List ℤ) → IsDeemphasis memory xs ys → IsDeemphasis memory xs zs → ys ≡ zs }
{}

/// An exponent is its octave, 1024 to each, and a place below 1024. With gain 0 the product is the item rounded
/// from units of 2^-12.
pub fn law_amplified()
    ensures parts { (e : ℤ) → e ≡ pos 1024 *ℤ octave e +ℤ pos (place e) }
    ensures place { (e : ℤ) → place e < 1024 }
    ensures plain { (y : ℤ) → amplified (exponent (pos 0)) y ≡ rounded y 12 }
{}

/// A saturated number has 16 bits; a number of 16 bits stays, one below becomes the least and one above the greatest.
pub fn law_saturated()
    ensures inside { (z : ℤ) → (negsuc 32767 ≤ℤ z) → (z ≤ℤ pos 32767) → saturated z ≡ z }
    ensures low { (z : ℤ) → (z <ℤ negsuc 32767) → saturated z ≡ negsuc 32767 }
    ensures high { (z : ℤ) → (pos 32767 <ℤ z) → saturated z ≡ pos 32767 }
{}
