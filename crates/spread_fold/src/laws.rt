//! Laws of the definitions alone. No body does anything.
ghost use Rattle.std.specs.Prelude.{◌≡◌, ℕ, ℤ, List, ◌+◌, ◌*◌, ◌/◌, ◌%◌, ◌^◌, ◌<◌, ◌≤◌, if◌then◌else◌, length, take, drop};
ghost use Rattle.spread_fold.specs.Masks.{has_pulse, mask};
ghost use Rattle.spread_fold.specs.Spreading.{distance};

/// Bit i of the mask of two or more blocks says whether the i-th of the equal runs has a pulse.
pub fn law_mask()
    ensures { (blocks i : ℕ) (ys : List ℤ) → 2 ≤ blocks → i < blocks → mask blocks ys / 2 ^ i % 2 ≡ (if has_pulse (take (length ys / blocks) (drop (i * (length ys / blocks)) ys)) then 1 else 0) }
{}

/// The distance t of far pairs is 0 for fewer than 8 items a block, and else the least number from 1 on for which
/// (t^2 + t) blocks + blocks / 4 reaches the number of items.
pub fn law_distance()
    ensures short { (n blocks : ℕ) → n < 8 * blocks → distance n blocks ≡ 0 }
    ensures enough { (n blocks : ℕ) → n ≤ 176 → 1 ≤ blocks → 8 * blocks ≤ n → n ≤ (distance n blocks * distance n blocks + distance n blocks) * blocks + blocks / 4 }
    ensures least { (n blocks u : ℕ) → 8 * blocks ≤ n → 1 ≤ u → u < distance n blocks → (u * u + u) * blocks + blocks / 4 < n }
{}
