//! Laws of the definitions alone. No body does anything.
ghost use Rattle.std.specs.Prelude.{◌≡◌, ℕ, List, [], ◌++◌, Option, Some};
ghost use Rattle.std.specs.Io.KnownBytes.{Appends};
ghost use Rattle.std.specs.List.{concat};
ghost use Rattle.celt_base.specs.declared.status.Fault.{Fault};
ghost use Rattle.celt_base.specs.Outside.{AppendsFront};
ghost use Rattle.celt_session.specs.declared.settings.DecodeSettings.{DecodeSettings};
ghost use Rattle.celt_session.specs.PageFunctions.{running, full, added_by, added_in_pieces, fault_now};
ghost use Rattle.celt_session.specs.Decoding.{decoding_function, start_of};

/// What is written of a list of bytes begins what is written of each list that begins with it, before its end
/// and at its end.
pub fn law_running_goes_on()
    ensures running { (settings : DecodeSettings) (bytes more : List ℕ) → running decoding_function (start_of settings) (bytes ++ more)
        ≡ running decoding_function (start_of settings) bytes ++ added_by decoding_function (start_of settings) bytes (bytes ++ more) }
    ensures full { (settings : DecodeSettings) (bytes more : List ℕ) → full decoding_function (start_of settings) (bytes ++ more)
        ≡ running decoding_function (start_of settings) bytes ++ added_by decoding_function (start_of settings) bytes (bytes ++ more) }
{}

/// Two sessions that were fed the same bytes in different pieces have added the same: that of all the bytes.
pub fn law_pieces()
    ensures { (settings : DecodeSettings) (pieces : List (List ℕ)) → added_in_pieces decoding_function (start_of settings) [] pieces
        ≡ running decoding_function (start_of settings) (concat pieces) }
{}

/// A fault that is not one of the end stays whatever bytes follow, and nothing is written any more.
pub fn law_fault_stays()
    ensures fault { (settings : DecodeSettings) (bytes more : List ℕ) (fault : Fault) → fault_now bytes ≡ Some fault
        → fault_now (bytes ++ more) ≡ Some fault }
    ensures running { (settings : DecodeSettings) (bytes more : List ℕ) (fault : Fault) → fault_now bytes ≡ Some fault
        → running decoding_function (start_of settings) (bytes ++ more) ≡ running decoding_function (start_of settings) bytes }
{}

/// Where a write of a session fails, its sink holds a front of what is written of all the bytes so far, and of each list
/// that begins with them: `before` is what it held when the piece came, and `now` what it holds behind the write that failed.
pub fn law_failed_write()
    ensures running { (settings : DecodeSettings) (bytes piece more : List ℕ) (begun before now : Option (List ℕ)) → Appends begun before (running decoding_function (start_of settings) bytes)
        → AppendsFront before now (added_by decoding_function (start_of settings) bytes (bytes ++ piece))
        → AppendsFront begun now (running decoding_function (start_of settings) ((bytes ++ piece) ++ more)) }
    ensures full { (settings : DecodeSettings) (bytes piece more : List ℕ) (begun before now : Option (List ℕ)) → Appends begun before (running decoding_function (start_of settings) bytes)
        → AppendsFront before now (added_by decoding_function (start_of settings) bytes (bytes ++ piece))
        → AppendsFront begun now (full decoding_function (start_of settings) ((bytes ++ piece) ++ more)) }
{}
