//! Laws of the definitions alone. No body does anything.
ghost use Rattle.std.specs.Prelude.{◌≡◌, ℕ, ◌+◌, ◌*◌, ◌≤◌, List, length, take, drop, sum, All, Option, None};
ghost use Rattle.rate_reservoir.specs.Lengths.{lengths_of};
ghost use Rattle.rate_reservoir.specs.Runs.{IsBrokenAt};
ghost use Rattle.rate_reservoir.specs.declared.budget.Budget.{Budget};
ghost use Rattle.rate_reservoir.specs.Noted.{HasNoted, broken_in};

/// Each wish gets one length, 2 to 1275 bytes. The first k frames have at most k times the bytes of a frame, and any m
/// in a row at most m times these and the most that may be left.
pub fn law_lengths()
    ensures count { (bytes most : ℕ) (wishes : List ℕ) → length (lengths_of bytes most wishes) ≡ length wishes }
    ensures each { (bytes most : ℕ) (wishes : List ℕ) → 2 ≤ bytes → All (λ w. 2 ≤ w) wishes →
        All (λ n. (2 ≤ n) × (n ≤ 1275)) (lengths_of bytes most wishes) }
    ensures first { (bytes most : ℕ) (wishes : List ℕ) (k : ℕ) → sum (take k (lengths_of bytes most wishes)) ≤ k * bytes }
    ensures run { (bytes most : ℕ) (wishes : List ℕ) (start m : ℕ) →
        sum (take m (drop start (lengths_of bytes most wishes))) ≤ m * bytes + most }
{}

/// The lengths that a reservoir gives never break a budget of the same numbers.
pub fn law_keeps()
    ensures lengths { (bytes most : ℕ) (wishes : List ℕ) → IsBrokenAt bytes most (lengths_of bytes most wishes) None }
    ensures budget { (bytes most : ℕ) (wishes : List ℕ) (budget : Budget) →
        HasNoted budget bytes most (lengths_of bytes most wishes) → broken_in budget ≡ None }
{}

/// The lengths fix whether a budget is broken, and by which frame.
pub fn law_budget()
    ensures { (bytes most : ℕ) (lengths : List ℕ) (one other : Option ℕ) →
        IsBrokenAt bytes most lengths one → IsBrokenAt bytes most lengths other → one ≡ other }
{}
