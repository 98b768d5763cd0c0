//! Laws of what an encoding session gives before the end of a file is known. No body does anything.
ghost use Rattle.std.specs.Prelude.{◌≡◌, ◌≤◌, ◌<◌, ◌+◌, ◌*◌, ℕ, List, ◌++◌};
ghost use Rattle.celt_session.specs.declared.settings.Settings.{Settings};
ghost use Rattle.celt_session.specs.Frames.{duration};
ghost use Rattle.celt_session.specs.AudioPages.{Coded, kind_in};
ghost use Rattle.celt_session.specs.Encodings.{AreSettings, full, running};
ghost use Rattle.celt_session.specs.EncodedFrames.{encoded_frames};
ghost use Rattle.celt_session.specs.FrameSessions.{given, given_more, given_packets, full_more, running_more};

/// What is given of some bytes begins what is given of more of them, what no later byte changes, and the whole
/// stream.
pub fn law_given_goes_on()
    ensures more { (settings : Settings) (bytes more : List ℕ) → AreSettings settings
        → given encoded_frames settings (bytes ++ more) ≡ given encoded_frames settings bytes ++ given_more encoded_frames settings bytes (bytes ++ more) }
    ensures running { (settings : Settings) (bytes : List ℕ) → AreSettings settings
        → running encoded_frames settings bytes ≡ given encoded_frames settings bytes ++ running_more encoded_frames settings bytes }
    ensures full { (settings : Settings) (bytes : List ℕ) → AreSettings settings
        → full encoded_frames settings bytes ≡ given encoded_frames settings bytes ++ full_more encoded_frames settings bytes }
{}

/// Every packet is given whose last frame, and 15 more, end within the samples per channel that are there.
pub fn law_given_packets()
    ensures { (c : Coded) (n p : ℕ) → 1 ≤ c.group → 1 ≤ duration (kind_in c)
        → ((p + 1) * c.group + 15) * duration (kind_in c) ≤ n → p < given_packets c n }
{}
