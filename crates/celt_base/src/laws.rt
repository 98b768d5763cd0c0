//! Laws of the parts of a question's answers (RFC 6716, section 4.1). Each is the clause of a function that does nothing.
ghost use Rattle.std.specs.Prelude.{◌≡◌, ◌↔◌, ℕ, ◌+◌, ◌-◌, ◌/◌, ◌^◌, ◌<◌, ◌≤◌, List, [], ◌∷◌, map, ℤ, pos, negsuc};
ghost use Rattle.celt_base.specs.declared.question.Question.TheVariants.{Uniform, Laplace, Step, Triangle};
ghost use Rattle.celt_base.specs.Intervals.{InPart, InBits};
ghost use Rattle.celt_base.specs.declared.question.TableId.{TableId};
ghost use Rattle.celt_base.specs.Questions.{
  Fills,
  bit_row,
  table_row,
  answers_of,
  uniform_row,
  low_bits,
  laplace_row,
  place_of,
  step_row,
  triangle_row,
  IsEven,
  IsLaplace,
  IsAnswer,
  steps,
};

/// The parts of a valid question are not empty, do not overlap and fill 0 to the total.
pub fn law_parts()
    ensures bit { (p : ℕ) → 1 ≤ p → Fills (bit_row p) 2 }
    ensures table { (t : TableId) → Fills (table_row t) (answers_of t) }
    ensures uniform { (limit : ℕ) → Fills (uniform_row limit) ((limit - 1) / 2 ^ low_bits limit + 1) }
    ensures step { (most : ℕ) → IsEven most → Fills (step_row most) (most + 1) }
    ensures triangle { (most : ℕ) → IsEven most → Fills (triangle_row most) (most + 1) }
    ensures laplace { (fs decay : ℕ) → IsLaplace fs decay
        → (count : ℕ) × Fills (laplace_row fs decay) count
        × ((a : ℤ) → IsAnswer (Laplace fs decay) a ↔ (place_of a < count)) }
{}

/// Each place of a Laplace question is that of one answer: 0, -1, 1, -2, 2 and so on.
pub fn law_laplace_places()
    ensures all { (n : ℕ) → (a : ℤ) × (place_of a ≡ n) }
    ensures one { (a b : ℤ) → place_of a ≡ place_of b → a ≡ b }
{}

/// Single parts by their numbers: of Laplace with 9216 and 8128, of a number below 299, of the steps and of the triangle
/// to 8.
pub fn law_part_rows()
    ensures laplace { (steps (Laplace 9216 8128) (pos 0) ≡ InPart (record { from = 0; to = 9216; total = 32768 }) ∷ [])
        × (steps (Laplace 9216 8128) (negsuc 0) ≡ InPart (record { from = 9216; to = 15142; total = 32768 }) ∷ [])
        × (steps (Laplace 9216 8128) (pos 1) ≡ InPart (record { from = 15142; to = 21068; total = 32768 }) ∷ []) }
    ensures uniform { steps (Uniform 299) (pos 298)
        ≡ InPart (record { from = 149; to = 150; total = 150 }) ∷ InBits 1 0 ∷ [] }
    ensures step { (steps (Step 8) (pos 0) ≡ InPart (record { from = 0; to = 3; total = 19 }) ∷ [])
        × (steps (Step 8) (pos 4) ≡ InPart (record { from = 12; to = 15; total = 19 }) ∷ [])
        × (steps (Step 8) (pos 5) ≡ InPart (record { from = 15; to = 16; total = 19 }) ∷ [])
        × (steps (Step 8) (pos 8) ≡ InPart (record { from = 18; to = 19; total = 19 }) ∷ []) }
    ensures triangle { (map (triangle_row 8).len (0 ∷ 1 ∷ 2 ∷ 3 ∷ 4 ∷ 5 ∷ 6 ∷ 7 ∷ 8 ∷ [])
        ≡ 1 ∷ 2 ∷ 3 ∷ 4 ∷ 5 ∷ 4 ∷ 3 ∷ 2 ∷ 1 ∷ []) × ((triangle_row 8).total ≡ 25) }
{}
