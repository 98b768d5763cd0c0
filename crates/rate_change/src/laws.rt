//! Laws of the definitions alone. No body does anything.
ghost use Rattle.std.specs.Prelude.{◌≡◌, ℕ, ℤ, ◌*◌, ◌/◌, ◌<◌, List, ◌++◌, length, IsTrue, pos, ◌≤ℤ◌, FitsSigned};
ghost use Rattle.std.specs.Int.{w16};
ghost use Rattle.rate_change.specs.Rates.{is_rate, is_ratio, IsLowest, outputs_of, AreReady};
ghost use Rattle.rate_change.specs.Resampling.{between, sum_around, weight, output_at, resampled};

/// A rate has one ratio in lowest terms. The ratios that weights are made for are those of the six rates.
pub fn law_ratio()
    ensures one { (rate up down other_up other_down : ℕ) → IsTrue (is_rate rate) → IsLowest rate up down → IsLowest rate other_up other_down →
        (up ≡ other_up) × (down ≡ other_down) }
    ensures each { (up down : ℕ) → IsTrue (is_ratio up down) → (rate : ℕ) × (IsTrue (is_rate rate)) × IsLowest rate up down }
{}

/// The outputs are those that lie before the end of the input.
pub fn law_outputs()
    ensures first { (up down m k : ℕ) → IsTrue (is_ratio up down) → k < outputs_of up down m → k * down / up < m }
    ensures no_other { (up down m k : ℕ) → IsTrue (is_ratio up down) → k * down / up < m → k < outputs_of up down m }
{}

/// No later sample of the input changes the outputs that are ready.
pub fn law_ready()
    ensures { (up down : ℕ) (input more : List ℤ) (q k : ℕ) → IsTrue (is_ratio up down) → AreReady up down (length input) q → k < q →
        output_at up down (input ++ more) k ≡ output_at up down input k }
{}

/// At 48000 Hz the outputs are the input.
pub fn law_whole()
    ensures { (input : List ℤ) → resampled 1 1 input ≡ input }
{}

/// Where the sum of the weights is above 0, a steady input keeps its level.
pub fn law_steady()
    ensures { (up f : ℕ) (level : ℤ) → pos 1 ≤ℤ sum_around (weight up f) → FitsSigned w16 level → between up f (λ j. level) ≡ level }
{}
