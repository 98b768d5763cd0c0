//! Laws over the definitions of the encoded frame.
ghost use Rattle.std.specs.Prelude.{◌≡◌, ℕ, ◌*◌, ◌<◌, ◌≤◌, ℤ, List, Option, Some, None};
ghost use Rattle.celt_base.specs.declared.question.Question.{Question};
ghost use Rattle.celt_base.specs.Questions.{Answered, IsValid};
ghost use Rattle.celt_base.specs.Walks.{Event, Adds};
ghost use Rattle.frame_symbols.specs.Frames.{Sound, frame_script, first_pace};
ghost use Rattle.frame_symbols.specs.Readings.{IsReading};
ghost use Rattle.range_coder.specs.Codes.{IsCode, told};
ghost use Rattle.range_coder.specs.Nearest.{IsNearest};
ghost use Rattle.celt_encode.specs.Choices.{AreNearest, nearest_of};
ghost use Rattle.celt_encode.specs.Codes.{code_of};
ghost use Rattle.celt_encode.specs.Frames.{choice_of, chosen_list, kept_of, fell_of, frame_of, silence_list};
ghost use Rattle.celt_encode.specs.Outsets.{Outset};
ghost use Rattle.celt_encode.specs.Standing.{begun, noted};
ghost use Rattle.celt_encode.specs.Wanted.{wanted};

/// No answer of a question is nearer to a wanted number than the nearest one.
pub fn law_nearest()
    ensures { (q : Question) (want : ℤ) → IsValid q → IsNearest q want (nearest_of q want) }
{}

/// The choice of a frame is the one list of events that its script adds and in which each answer is the nearest to what is
/// wanted.
pub fn law_choice()
    ensures { (f : Outset) (events : List Event) (value : Option Sound) → Adds (frame_script f.kind f.len) first_pace events value
        → AreNearest noted wanted (begun f) events
        → record { events = events; value = value } ≡ choice_of f }
{}

/// A frame of so many bytes that a list codes is the code that is computed (RFC 6716, section 5.1).
pub fn law_code()
    ensures { (list : List Answered) (len : ℕ) (frame : List ℕ) → IsCode list len frame → frame ≡ code_of list len }
{}

/// The choice is kept exactly where it tells at most the bits that the frame has; the silent frame tells 16.
pub fn law_kept()
    ensures whole { (f : Outset) → told (chosen_list f) ≤ 8 * f.len → (kept_of f ≡ chosen_list f) × (fell_of f ≡ None) }
    ensures over { (f : Outset) → 8 * f.len < told (chosen_list f) → (kept_of f ≡ silence_list) × (fell_of f ≡ Some (told (chosen_list f))) }
    ensures silence { told silence_list ≡ 16 }
{}

/// Of two bytes and more, the encoded frame is read as just the answers that are kept.
pub fn law_read()
    ensures { (f : Outset) → 2 ≤ f.len → IsReading f.kind (frame_of f) (kept_of f) }
{}
