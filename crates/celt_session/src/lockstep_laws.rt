//! That an encoder does not drift from its decoder: a law over the definitions alone. No body does anything.
ghost use Rattle.std.specs.Prelude.{ℕ, List, ◌≤◌};
ghost use Rattle.celt_session.specs.declared.settings.Settings.{Settings};
ghost use Rattle.celt_session.specs.Encodings.{Audio, AreSettings};
ghost use Rattle.celt_session.specs.Lockstep.{InStep, AreInStep};

/// Every frame of an encoding has the length that is asked for, and is read as the answers that the encoder keeps of it; and a
/// decoder of the frames in order holds behind each of them the final range, the band energies, the noise seed and the post-filter
/// settings that the encoder holds. So it is of every WAV file within the settings.
pub fn law_in_step()
    ensures frames { (a : Audio) (t : ℕ) → ((t : ℕ) → 2 ≤ a.bytes t) → InStep a t }
    ensures files { (settings : Settings) (bytes : List ℕ) → AreSettings settings → AreInStep settings bytes }
{}
