//! Laws of the definitions alone. No body does anything.
ghost use Rattle.std.specs.Prelude.{◌≡◌, ℕ, ℤ, pos, Bool, List, length, replicate, ◌*◌, ◌<◌, ◌≤◌};
ghost use Rattle.celt_base.specs.declared.kind.Kind.{Kind};
ghost use Rattle.celt_base.specs.declared.state.Shared.{Shared};
ghost use Rattle.celt_base.specs.Questions.{Answered};
ghost use Rattle.celt_base.specs.States.{IsOff};
ghost use Rattle.fixed_math.specs.Items.{item};
ghost use Rattle.frame_symbols.specs.Readings.{IsReading, reading_of, range_of};
ghost use Rattle.celt_synth.specs.Blocks.{blocks_of};
ghost use Rattle.celt_synth.specs.LeftChannels.{AgreeLeft, AgreeShapes};
ghost use Rattle.celt_synth.specs.Readings.{heard_of, shaped_of, frame_step, share_by};
ghost use Rattle.celt_synth.specs.Shapes.{Shaped};
ghost use Rattle.celt_synth.specs.Shared.{SharedState, Heard, shared_of, shared_in, share, share_concealed};
ghost use Rattle.celt_synth.specs.States.{State, start};
ghost use Rattle.celt_synth.specs.Steps.{step, conceal};

/// What encoder and decoder share after a frame depends on what they shared before and on the frame alone: neither on its
/// shapes, nor on how many channels the stream has, nor on the gain.
pub fn law_shared()
    ensures read { (stream : ℕ) (kind : Kind) (heard : Heard) (shaped : ℕ → Shaped) (gain : ℤ) (s : State) → shared_of (step stream kind heard shaped gain s).state ≡ share kind heard (shared_of s) }
    ensures concealed { (stream : ℕ) (kind : Kind) (gain : ℤ) (s : State) → shared_of (conceal stream kind gain s).state ≡ share_concealed kind (shared_of s) }
{}

/// In a stream of two channels neither the left samples nor the rest of the state depend on the right channel: states and
/// shapes that differ there alone give states that differ there alone, and the same left samples, which stand at even
/// places.
pub fn law_left()
    ensures state { (kind : Kind) (heard : Heard) (a b : ℕ → Shaped) (gain : ℤ) (s t : State) → AgreeLeft s t → AgreeShapes (a s.seed) (b t.seed) → AgreeLeft (step 2 kind heard a gain s).state (step 2 kind heard b gain t).state }
    ensures samples { (kind : Kind) (heard : Heard) (a b : ℕ → Shaped) (gain : ℤ) (s t : State) → AgreeLeft s t → AgreeShapes (a s.seed) (b t.seed) → (p : ℕ) → p < 120 * blocks_of kind → item (step 2 kind heard a gain s).samples (2 * p) ≡ item (step 2 kind heard b gain t).samples (2 * p) }
    ensures concealed_state { (kind : Kind) (gain : ℤ) (s t : State) → AgreeLeft s t → AgreeLeft (conceal 2 kind gain s).state (conceal 2 kind gain t).state }
    ensures concealed_samples { (kind : Kind) (gain : ℤ) (s t : State) → AgreeLeft s t → (p : ℕ) → p < 120 * blocks_of kind → item (conceal 2 kind gain s).samples (2 * p) ≡ item (conceal 2 kind gain t).samples (2 * p) }
{}

/// A frame of 0 or 1 bytes is concealed, and any other is read. What encoder and decoder share after it is a function of its
/// answers.
pub fn law_frame()
    ensures concealed { (stream : ℕ) (invert : Bool) (kind : Kind) (frame : List ℕ) (gain : ℤ) (s : State) → length frame < 2 → frame_step stream invert kind frame gain s ≡ conceal stream kind gain s }
    ensures read { (stream : ℕ) (invert : Bool) (kind : Kind) (frame : List ℕ) (gain : ℤ) (s : State) → 2 ≤ length frame → frame_step stream invert kind frame gain s ≡ step stream kind (heard_of kind (range_of kind frame) (reading_of kind frame).value) (shaped_of kind (reading_of kind frame).value invert) gain s }
    ensures shares { (stream : ℕ) (invert : Bool) (kind : Kind) (frame : List ℕ) (list : List Answered) (gain : ℤ) (s : State) → 2 ≤ length frame → IsReading kind frame list → shared_of (frame_step stream invert kind frame gain s).state ≡ share_by kind (length frame) list (shared_of s) }
{}

/// Whether phases are inverted touches the right channel of a stream of two alone: neither its left samples nor the rest of
/// its state.
pub fn law_inversion()
    ensures state { (a b : Bool) (kind : Kind) (frame : List ℕ) (gain : ℤ) (s t : State) → AgreeLeft s t → AgreeLeft (frame_step 2 a kind frame gain s).state (frame_step 2 b kind frame gain t).state }
    ensures samples { (a b : Bool) (kind : Kind) (frame : List ℕ) (gain : ℤ) (s t : State) → AgreeLeft s t → (p : ℕ) → p < 120 * blocks_of kind → item (frame_step 2 a kind frame gain s).samples (2 * p) ≡ item (frame_step 2 b kind frame gain t).samples (2 * p) }
{}

/// An encoder and its decoder that share their state before a frame share it after the frame too, whatever the stream's
/// channels, inversion and gain are: both states are `share_by` of the frame's answers. At the start both are the same.
pub fn law_share()
    ensures start { (x : Shared) → x.range ≡ 0 → x.energies ≡ replicate 2 (replicate 21 (pos 0)) → x.seed ≡ 0 → IsOff x.before → IsOff x.now → shared_in x ≡ shared_of start }
    ensures same { (stream : ℕ) (invert : Bool) (kind : Kind) (frame : List ℕ) (list : List Answered) (gain : ℤ) (s : State) (x : SharedState) → 2 ≤ length frame → IsReading kind frame list → x ≡ shared_of s → share_by kind (length frame) list x ≡ shared_of (frame_step stream invert kind frame gain s).state }
{}
