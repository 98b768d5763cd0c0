//! Laws of what is kept of a file that is encoded and decoded again, over the definitions alone. No body does anything.
ghost use Rattle.std.specs.Prelude.{◌≡◌, ◌≤◌, ◌*◌, ◌^◌, ℕ, Bool, List, length, None};
ghost use Rattle.opus_stream.specs.Acceptance.{accepted, head_in};
ghost use Rattle.opus_stream.specs.Spans.{written_in};
ghost use Rattle.celt_session.specs.declared.settings.Settings.{Settings};
ghost use Rattle.celt_session.specs.Decoding.{decoding};
ghost use Rattle.celt_session.specs.EncodedFrames.{encoded_frames};
ghost use Rattle.celt_session.specs.Encodings.{AreSettings, fault_of};
ghost use Rattle.celt_session.specs.Keeping.{IsKept, into_samples};
ghost use Rattle.celt_session.specs.Samples.{channels_in};

/// A stream is decoded into two bytes for each sample of its pages' spans in each channel: how many they are does not
/// depend on what its frames hold, nor on whether phase inversion is taken.
pub fn law_decoded_length()
    ensures { (invert : Bool) (bytes : List ℕ) →
        length ((decoding (into_samples invert)).full bytes) ≡ 2 * (channels_in (head_in (accepted bytes)) * written_in (accepted bytes)) }
{}

/// A WAV file without a fault keeps its samples: its stream is decoded without a fault, with the file's channels, into as
/// many samples per channel as the file holds, whether phase inversion is taken or not.
pub fn law_samples_kept()
    ensures { (settings : Settings) (bytes : List ℕ) → AreSettings settings → length bytes ≤ 2 ^ 40 → fault_of bytes ≡ None
        → IsKept encoded_frames settings bytes }
{}
