//! Laws of the definitions alone. No body does anything.
ghost use Rattle.std.specs.Prelude.{◌≡◌, ℕ, ℤ, Bool, true, List, ◌+◌, ◌-◌, ◌*◌, ◌/◌, ◌<◌, ◌≤◌, ◌+ℤ◌, ◌-ℤ◌, unsigned_abs, length, All, IsTrue};
ghost use Rattle.tf_change.specs.Haar.{scaled, haar_of};
ghost use Rattle.fixed_math.specs.Items.{item};
ghost use Rattle.tf_change.specs.Order.{HasRow, place_of, block_at, ordered, unordered};

/// The step takes items i of the runs 2j and 2j + 1, of s items each, to their sum and their difference, each
/// over the root of 2. The list keeps its length.
pub fn law_haar()
    ensures sum { (xs : List ℤ) (s j i : ℕ) → i < s → s * (2 * j + 1) + i < length xs → item (haar_of s xs) (2 * s * j + i) ≡ scaled (item xs (2 * s * j + i)) +ℤ scaled (item xs (s * (2 * j + 1) + i)) }
    ensures difference { (xs : List ℤ) (s j i : ℕ) → i < s → s * (2 * j + 1) + i < length xs → item (haar_of s xs) (s * (2 * j + 1) + i) ≡ scaled (item xs (2 * s * j + i)) -ℤ scaled (item xs (s * (2 * j + 1) + i)) }
    ensures count { (xs : List ℤ) (s : ℕ) → length (haar_of s xs) ≡ length xs }
{}

/// No item after a step is above 3/2 of the greatest size before it, plus 1.
pub fn law_haar_growth()
    ensures { (xs : List ℤ) (s m : ℕ) → All (λ v. unsigned_abs v ≤ m) xs → All (λ v. unsigned_abs v ≤ m + m / 2 + 1) (haar_of s xs) }
{}

/// Of s blocks of n items, item j of block i goes from place j s + i to place o n + j, where o is the block's
/// place in the order. Going back gives the same list, and so does going there from back.
pub fn law_order()
    ensures moves { (xs : List ℤ) (n s i j : ℕ) (hadamard : Bool) → (IsTrue hadamard → HasRow s) → length xs ≡ n * s → i < s → j < n → item (ordered n s hadamard xs) (place_of hadamard s i * n + j) ≡ item xs (j * s + i) }
    ensures back { (xs : List ℤ) (n s : ℕ) (hadamard : Bool) → (IsTrue hadamard → HasRow s) → length xs ≡ n * s → unordered n s hadamard (ordered n s hadamard xs) ≡ xs }
    ensures there { (xs : List ℤ) (n s : ℕ) (hadamard : Bool) → (IsTrue hadamard → HasRow s) → length xs ≡ n * s → ordered n s hadamard (unordered n s hadamard xs) ≡ xs }
{}

/// The rows of the order: of two blocks the second goes first; of twice as many blocks, block 2m goes to s places behind the place of
/// block m of s, and block 2m + 1 to that place counted down from s - 1.
pub fn law_rows()
    ensures first { (place_of true 2 0 ≡ 1) × (place_of true 2 1 ≡ 0) }
    ensures even { (s m : ℕ) → HasRow s → s ≤ 8 → m < s → place_of true (2 * s) (2 * m) ≡ s + place_of true s m }
    ensures odd { (s m : ℕ) → HasRow s → s ≤ 8 → m < s → place_of true (2 * s) (2 * m + 1) + place_of true s m ≡ s - 1 }
{}
