//! Laws of the questions of a frame. Each is the clause of a function that does nothing.
ghost use Rattle.std.specs.Prelude.{◌≡◌, ℕ, ◌*◌, ◌<◌, ◌≤◌, List, length, Some};
ghost use Rattle.bit_allocation.specs.Requests.{quantum_of};
ghost use Rattle.celt_tables.specs.Tables.{cap_of};
ghost use Rattle.celt_tables.specs.Tables.{coefficients_of};
ghost use Rattle.celt_base.specs.declared.kind.Kind.{Kind};
ghost use Rattle.celt_base.specs.Questions.{Answered};
ghost use Rattle.celt_base.specs.WalkOrders.{AtMost, InOrder, outcome};
ghost use Rattle.frame_symbols.specs.Frames.{frame_script, first_pace};
ghost use Rattle.frame_symbols.specs.Readings.{IsReading, reading_of};
ghost use Rattle.frame_symbols.specs.Validity.{AllValid};
ghost use Rattle.range_coder.specs.Codes.{AreAnswers, FitTypes};

/// However it is answered, a frame asks at most 3100 questions, and so does every list in order.
pub fn law_frame_questions()
    ensures most { (kind : Kind) (len : ℕ) → AtMost 3100 (frame_script kind len) }
    ensures list { (kind : Kind) (len : ℕ) (list : List Answered) → InOrder (frame_script kind len) first_pace list → length list ≤ 3100 }
{}

/// Each question of a frame is valid and fits its type, whatever was answered before it; and so is each question of every list
/// in order, and its answer is one of its answers.
pub fn law_valid_questions()
    ensures script { (kind : Kind) (len : ℕ) → AllValid (frame_script kind len) }
    ensures list { (kind : Kind) (len : ℕ) (list : List Answered) → InOrder (frame_script kind len) first_pace list → AreAnswers list × FitTypes list }
{}

/// A frame has one reading at most.
pub fn law_one_reading()
    ensures { (kind : Kind) (frame : List ℕ) (xs ys : List Answered) → IsReading kind frame xs → IsReading kind frame ys → xs ≡ ys }
{}

/// The reading of a frame is the one that is computed by the script, each answer being the one whose part holds the frame's
/// number; and what it comes to is what the script comes to after it.
pub fn law_computed_reading()
    ensures list { (kind : Kind) (frame : List ℕ) (list : List Answered) → IsReading kind frame list → (reading_of kind frame).list ≡ list }
    ensures value { (kind : Kind) (frame : List ℕ) (list : List Answered) → IsReading kind frame list
        → outcome (frame_script kind (length frame)) first_pace list ≡ Some (reading_of kind frame).value }
{}

/// No band's cap is beyond 76 boosts, so the turns of a band end by its cap, and never by their number.
pub fn law_boosts_end()
    ensures { (kind : Kind) (band : ℕ) → band < 21
        → cap_of kind.lm kind.channels band ≤ 76 * quantum_of (coefficients_of kind band) }
{}
