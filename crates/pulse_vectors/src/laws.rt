//! Laws of the definitions alone, for all whole numbers. No body does anything.

ghost use Rattle.std.specs.Prelude.{◌≡◌, ℕ, ℤ, Some, ◌+◌, pos, ◌-ℤ◌, unsigned_abs, ◌^◌, ◌<◌, ◌≤◌, ◌↔◌, List, length, slice_get};
ghost use Rattle.std.specs.List.{Contains};
ghost use Rattle.pulse_vectors.specs.Costs.{pulses_at, last_of, log_eighths, cost_at, index_near};
ghost use Rattle.pulse_vectors.specs.Rows.{rank_of};
ghost use Rattle.pulse_vectors.specs.Vectors.{pulse_sum, vectors, count_of};

/// The list holds exactly the vectors of n numbers whose sizes add up to k.
pub fn law_vectors_are_all()
    ensures { (n k : ℕ) (y : List ℤ) → Contains (vectors n k) y ↔ ((length y ≡ n) × (pulse_sum y ≡ k)) }
{}

/// No vector stands twice in the list.
pub fn law_no_vector_twice()
    ensures { (n k i j : ℕ) (y : List ℤ) → slice_get (vectors n k) i ≡ Some y → slice_get (vectors n k) j ≡ Some y → i ≡ j }
{}

/// V(N, K) = V(N - 1, K) + V(N, K - 1) + V(N - 1, K - 1), with V(N, 0) = 1 and V(0, K) = 0 for K
/// above 0.
pub fn law_counts()
    ensures no_pulses { (n : ℕ) → count_of n 0 ≡ 1 }
    ensures no_numbers { (k : ℕ) → count_of 0 (k + 1) ≡ 0 }
    ensures three { (n k : ℕ) → count_of (n + 1) (k + 1) ≡ count_of n (k + 1) + count_of (n + 1) k + count_of n k }
{}

/// Each vector stands at its place in the list of all vectors of its length and its number of pulses, and
/// nowhere else.
pub fn law_rank()
    ensures stands { (y : List ℤ) → slice_get (vectors (length y) (pulse_sum y)) (rank_of y) ≡ Some y }
    ensures only { (n k i : ℕ) (y : List ℤ) → slice_get (vectors n k) i ≡ Some y → i ≡ rank_of y }
{}

/// Costs never fall as the index rises.
pub fn law_costs_never_fall()
    ensures { (n q r : ℕ) → 1 ≤ n → q ≤ r → r ≤ last_of n → cost_at n q ≤ cost_at n r }
{}

/// Up to the last index there are fewer than 2^32 vectors.
pub fn law_last_index_fits()
    ensures { (n q : ℕ) → 1 ≤ n → q ≤ last_of n → count_of n (pulses_at q) < 2 ^ 32 }
{}

/// The index for a number of bits: no index has a cost nearer to them, and one just as near costs no
/// less.
pub fn law_index_is_nearest()
    ensures nearest { (n q : ℕ) (b : ℤ) → 1 ≤ n → q ≤ last_of n
        → unsigned_abs (pos (cost_at n (index_near n b)) -ℤ b) ≤ unsigned_abs (pos (cost_at n q) -ℤ b) }
    ensures lower { (n q : ℕ) (b : ℤ) → 1 ≤ n → q ≤ last_of n
        → unsigned_abs (pos (cost_at n q) -ℤ b) ≡ unsigned_abs (pos (cost_at n (index_near n b)) -ℤ b)
        → cost_at n (index_near n b) ≤ cost_at n q }
{}

/// The logarithm in eighths of a bit is never below the true one: v is at most 2^(eighths / 8).
pub fn law_eighths_cover()
    ensures { (v : ℕ) → 1 ≤ v → v < 2 ^ 32 → v ^ 8 ≤ 2 ^ log_eighths v }
{}
