//! Laws of the written encoding, over its definitions alone. No body does anything.
ghost use Rattle.std.specs.Prelude.{◌≡◌, ◌≤◌, ◌<◌, ◌+◌, ◌*◌, ◌-◌, ◌↔◌, ℕ, List, [], ◌++◌, length, take, Some, false};
ghost use Rattle.celt_base.specs.declared.status.Fault.{Fault};
ghost use Rattle.celt_session.specs.declared.settings.Settings.{Settings};
ghost use Rattle.celt_session.specs.Frames.{duration};
ghost use Rattle.celt_session.specs.AudioPages.{Coded, kind_in, frame_count, last_packet, settled_packets};
ghost use Rattle.celt_session.specs.Encodings.{AreSettings, fault_of, full, running};
ghost use Rattle.celt_session.specs.EncodedFrames.{encoded_frames};
ghost use Rattle.celt_session.specs.Outcomes.{is_early_end};

/// A fault of a WAV file that is not one of its end stays whatever bytes follow, and nothing is written of the file.
pub fn law_wave_fault_stays()
    ensures fault { (bytes more : List ℕ) (fault : Fault) → fault_of bytes ≡ Some fault → is_early_end fault.name ≡ false
        → fault_of (bytes ++ more) ≡ Some fault }
    ensures full { (settings : Settings) (bytes more : List ℕ) (fault : Fault) → fault_of bytes ≡ Some fault
        → is_early_end fault.name ≡ false → full encoded_frames settings (bytes ++ more) ≡ [] }
    ensures running { (settings : Settings) (bytes more : List ℕ) (fault : Fault) → fault_of bytes ≡ Some fault
        → is_early_end fault.name ≡ false → running encoded_frames settings (bytes ++ more) ≡ [] }
{}

/// What is written of a list of bytes before its end begins what is written of each list that begins with it, before
/// its end and at its end.
pub fn law_stream_goes_on()
    ensures before { (settings : Settings) (bytes more : List ℕ) → AreSettings settings
        → take (length (running encoded_frames settings bytes)) (running encoded_frames settings (bytes ++ more)) ≡ running encoded_frames settings bytes }
    ensures at_end { (settings : Settings) (bytes more : List ℕ) → AreSettings settings
        → take (length (running encoded_frames settings bytes)) (full encoded_frames settings (bytes ++ more)) ≡ running encoded_frames settings bytes }
{}

/// The frames of a stream that ends are the fewest that hold its samples per channel and the 120 that a decoder drops.
/// Its last packet has the frames behind those of full packets, and one at least. The packets that are written before
/// the end are those that are full and end within the samples.
pub fn law_frames()
    ensures enough { (c : Coded) (n : ℕ) → 120 + n ≤ frame_count c n * duration (kind_in c) }
    ensures fewest { (c : Coded) (n : ℕ) → (frame_count c n - 1) * duration (kind_in c) < 120 + n }
    ensures last { (c : Coded) (n : ℕ) → 1 ≤ c.group
        → (last_packet c n * c.group < frame_count c n) × (frame_count c n ≤ (last_packet c n + 1) * c.group) }
    ensures within { (c : Coded) (n p : ℕ) → 1 ≤ c.group
        → (p < settled_packets c n) ↔ ((p + 1) * (c.group * duration (kind_in c)) ≤ n) }
{}
