//! Laws of the definitions.
ghost use Rattle.std.specs.Prelude.{◌≡◌, ◌≤◌, ◌⊎◌, ℕ, ℤ, neg_ℤ, pos, ◌≤ℤ◌, List, [], ◌∷◌, length, Some, true, codes};
ghost use Rattle.std.specs.List.{list_all};
ghost use Rattle.celt_cli.specs.Generator.{left_of, pair_of, right_of};
ghost use Rattle.celt_cli.specs.Options.{Given, Known, Text, options_in};
ghost use Rattle.celt_cli.specs.Spellings.{AreWritten, are_plain, digits_value};
ghost use Rattle.celt_cli.specs.Words.{command_in, decode_options, encode_options, gen_options, is_digit, number_in};

use crate::words::Command;

/// Each sample of each seed is from -4512 to 4471. The first pair of the seed 0 is (-3759, -3715).
pub fn law_generated()
    ensures left { (seed number : ℕ) → (neg_ℤ (pos 4512) ≤ℤ left_of seed number) × (left_of seed number ≤ℤ pos 4471) }
    ensures right { (seed number : ℕ) → (neg_ℤ (pos 4512) ≤ℤ right_of seed number) × (right_of seed number ≤ℤ pos 4471) }
    ensures first { pair_of 0 0 ≡ (neg_ℤ (pos 3759), neg_ℤ (pos 3715)) }
{}

/// Words are read as options of a command exactly where they write them: as `--name`, `--name value` or
/// `--name=value`, in any order, each at most once, those that must stand among them, with at most a `--` behind
/// them. The names of the options of a command must be plain.
pub fn law_options()
    ensures written { (knowns : List Known) (words : List Text) (givens : List Given) → options_in knowns words ≡ Some givens → AreWritten knowns words givens }
    ensures read { (knowns : List Known) (words : List Text) (givens : List Given) → are_plain knowns ≡ true → AreWritten knowns words givens → options_in knowns words ≡ Some givens }
{}

/// The first word of words that are accepted names one of four commands, whose options have plain names.
pub fn law_commands()
    ensures some { (command : Command) → command_in [] ≡ Some command → ⊥ }
    ensures named { (name : Text) (words : List Text) (command : Command) → command_in (name ∷ words) ≡ Some command →
        (name ≡ codes "decode") ⊎ (name ≡ codes "encode") ⊎ (name ≡ codes "ranges") ⊎ (name ≡ codes "gen") }
    ensures plain { (are_plain decode_options ≡ true) × (are_plain encode_options ≡ true) × (are_plain gen_options ≡ true) }
{}

/// A text is read as a number exactly where it is one to ten decimal digits, and then as the number of these.
pub fn law_numbers()
    ensures read { (text : Text) → 1 ≤ length text → length text ≤ 10 → list_all is_digit text ≡ true → number_in text ≡ Some (digits_value text) }
    ensures only { (text : Text) (number : ℕ) → number_in text ≡ Some number →
        (1 ≤ length text) × (length text ≤ 10) × (list_all is_digit text ≡ true) }
{}
