//! Laws of the analysis, over the definitions alone. No body does anything.
ghost use Rattle.std.specs.Prelude.{◌≡◌, ℕ, ℤ, List, length};
ghost use Rattle.fixed_math.specs.Items.{item};
ghost use Rattle.celt_base.specs.declared.kind.Kind.{Kind};
ghost use Rattle.celt_base.specs.declared.state.Setting.{Setting};
ghost use Rattle.celt_analysis.specs.Analyses.{analysis_of};
ghost use Rattle.celt_analysis.specs.Inputs.{frame_analysis, settings_of, window_of, IsFramePitch};
ghost use Rattle.celt_analysis.specs.Pitch.{IsPitchOf};
ghost use Rattle.celt_analysis.specs.Signals.{window_size};

/// What is found in a frame of an input depends on its window and on three settings alone: those of the two frames before
/// and its own. Its own depends on the window alone.
pub fn law_window()
    ensures analysis { (kind : Kind) (settings : ℕ → Setting) (samples : List ℤ) (t : ℕ) → frame_analysis kind settings samples t ≡ analysis_of kind (settings_of kind settings t) (window_of kind samples t) }
    ensures pitch { (kind : Kind) (samples : List ℤ) (t : ℕ) (r : Setting) → IsFramePitch kind samples t r → IsPitchOf kind.channels kind.lm (item (window_of kind samples t)) r }
    ensures setting { (kind : Kind) (samples : List ℤ) (t : ℕ) (r : Setting) → IsPitchOf kind.channels kind.lm (item (window_of kind samples t)) r → IsFramePitch kind samples t r }
    ensures size { (kind : Kind) (samples : List ℤ) (t : ℕ) → length (window_of kind samples t) ≡ window_size kind }
{}
