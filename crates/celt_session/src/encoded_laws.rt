//! Laws of the frames of an encoder, over their definitions alone.
ghost use Rattle.std.specs.Prelude.{◌≡◌, ℕ, ℤ, List, length};
ghost use Rattle.celt_base.specs.declared.kind.Kind.{Kind};
ghost use Rattle.celt_base.specs.declared.state.Setting.{Setting};
ghost use Rattle.celt_analysis.specs.Pitch.{IsPitchOf};
ghost use Rattle.fixed_math.specs.Items.{item};
ghost use Rattle.celt_session.specs.EncodedFrames.{Footing, frame_by, pitch_of};

/// Each encoded frame has the length that is asked for.
pub fn law_frame_length()
    ensures { (s : Footing) (kind : Kind) (bytes : ℕ) (window : List ℤ) → length (frame_by s kind bytes window) ≡ bytes }
{}

/// The setting of the post-filter for a window is the one that its pitch is.
pub fn law_window_pitch()
    ensures { (kind : Kind) (window : List ℤ) (r : Setting) → IsPitchOf kind.channels kind.lm (item window) r → r ≡ pitch_of kind window }
{}
