//! Laws of the definitions that the calls cite. Each function does nothing: its clause is the law.
ghost use Rattle.std.specs.Prelude.{◌≡◌, ◌≤◌, ◌<◌, ◌⊎◌, ◌^◌, ◌%◌, ◌+◌, ◌*◌, ◌≢◌, ◌++◌, ℕ, ℤ, Bool, List, Option, Some, None, length, drop, All, FitsSigned, if◌then◌else◌};
ghost use Rattle.std.specs.Int.{w16};
ghost use Rattle.std.specs.List.{flat_map};
ghost use Rattle.byteorder.specs.Endian.{little_bytes};
ghost use Rattle.celt_base.specs.declared.status.FaultName.TheVariants.{NoData, DataTruncated, UnsupportedFormat};
ghost use Rattle.wav_edge.specs.Fields.{format_letters, data_letters};
ghost use Rattle.celt_base.specs.declared.status.Fault.{Fault};
ghost use Rattle.wav_edge.specs.declared.reader.HeaderReader.{HeaderReader};
ghost use Rattle.wav_edge.specs.Reading.{outcome, samples, within_size, IsHeaderFault, broken_at, is_whole, end_fault};
ghost use Rattle.wav_edge.specs.Reading.Outcome.{Unfinished, Faulty, Started};
ghost use Rattle.wav_edge.specs.Readers.{StandsFor, answer_to};
ghost use Rattle.wav_edge.specs.Samples.{samples_of, bytes_of};
ghost use Rattle.wav_edge.specs.Files.{HasHeader, HasFormat, EndsWhole};
ghost use Rattle.wav_edge.specs.Spellings.{Chunk, IsChunk, spelled, Opening, IsOpening, form_bytes, opening_bytes, IsDataSize, declared, header};

/// A fault that was found stays whatever bytes follow, and so do the samples' format and place.
pub fn law_stays()
    ensures fault { (bytes more : List ℕ) (fault : Fault) →
        outcome bytes ≡ Faulty fault → outcome (bytes ++ more) ≡ Faulty fault }
    ensures samples { (bytes more : List ℕ) (channels rate : ℕ) (size : Option ℕ) (place : ℕ) →
        outcome bytes ≡ Started channels rate size place →
        outcome (bytes ++ more) ≡ Started channels rate size place }
{}

/// Samples that were found are of one channel or two, at 48 kHz, and begin behind bytes that are there. A
/// fault that was found is BadRiff or UnsupportedFormat.
pub fn law_format()
    ensures fault { (bytes : List ℕ) (fault : Fault) →
        outcome bytes ≡ Faulty fault → IsHeaderFault fault.name }
    ensures samples { (bytes : List ℕ) (channels rate : ℕ) (size : Option ℕ) (place : ℕ) →
        outcome bytes ≡ Started channels rate size place →
        ((channels ≡ 1) ⊎ (channels ≡ 2)) × (rate ≡ 48000) × (place ≤ length bytes) }
{}

/// Two readers that were fed the same bytes, in whatever pieces, answer alike.
pub fn law_readers_alike()
    ensures { (first second : HeaderReader) (bytes piece : List ℕ) →
        StandsFor first bytes → StandsFor second bytes →
        answer_to first piece ≡ answer_to second piece }
{}

/// A header as it is written gives its channels and its size, whatever follows it, and its samples begin
/// where it ends.
pub fn law_spelling()
    ensures { (o : Opening) (size : ℕ) (more : List ℕ) →
        IsOpening o → size < 2 ^ 32 → IsDataSize o.channels size →
        outcome (opening_bytes o ++ (data_letters ++ (little_bytes 4 size ++ more)))
        ≡ Started o.channels 48000 (declared size) (length (opening_bytes o) + 8) }
{}

/// A header that is read is one of the form, as it is written: what stands before the samples is the spelling of its
/// channels and its size.
pub fn law_accepted()
    ensures { (bytes : List ℕ) (channels rate : ℕ) (size : Option ℕ) (place : ℕ) → All (λ byte. byte < 256) bytes →
        outcome bytes ≡ Started channels rate size place → HasHeader bytes channels size place }
{}

/// A file that is refused for its format has a chunk `fmt ` at the place that is named, and the four numbers that are
/// named stand in its fields.
pub fn law_refused()
    ensures { (bytes : List ℕ) (codec bits channels rate place : ℕ) → All (λ byte. byte < 256) bytes →
        outcome bytes ≡ Faulty (record { name = UnsupportedFormat codec bits channels rate; at = place }) →
        HasFormat bytes codec bits channels rate place }
{}

/// The fault of an end: NoData just where the file ends directly behind `WAVE` or a later chunk with its padding and
/// no `data` came, else DataTruncated, and nothing where the samples are whole.
pub fn law_ends()
    ensures no_data { (bytes : List ℕ) → EndsWhole bytes → end_fault bytes ≡ Some (record { name = NoData; at = length bytes }) }
    ensures only { (bytes : List ℕ) (place : ℕ) → All (λ byte. byte < 256) bytes →
        end_fault bytes ≡ Some (record { name = NoData; at = place }) → EndsWhole bytes }
    ensures cut { (bytes : List ℕ) (between : Bool) → All (λ byte. byte < 256) bytes → outcome bytes ≡ Unfinished between →
        (EndsWhole bytes → ⊥) → end_fault bytes ≡ Some (record { name = DataTruncated; at = length bytes }) }
    ensures held { (o : Opening) (size : ℕ) (more : List ℕ) → IsOpening o → size < 2 ^ 32 → IsDataSize o.channels size →
        end_fault (opening_bytes o ++ (data_letters ++ (little_bytes 4 size ++ more)))
        ≡ (if is_whole o.channels (declared size) (length more) then None
        else Some (record { name = DataTruncated; at = length (opening_bytes o) + 8 + length more })) }
    ensures named { (bytes : List ℕ) (fault : Fault) → end_fault bytes ≡ Some fault →
        (fault.at ≡ length bytes) × ((fault.name ≡ NoData) ⊎ (fault.name ≡ DataTruncated)) }
{}

/// Where what is written breaks the form: `data` before `fmt `, a second `fmt `, a size of `data` that is no
/// multiple of a group of samples, and an end without `data`.
pub fn law_broken()
    ensures early { (file_size : ℕ) (before : List Chunk) (more : List ℕ) →
        All (λ chunk. IsChunk chunk) before →
        outcome (form_bytes file_size ++ (flat_map spelled before ++ (data_letters ++ more)))
        ≡ broken_at (12 + length (flat_map spelled before)) }
    ensures second { (o : Opening) (more : List ℕ) → IsOpening o →
        outcome (opening_bytes o ++ (format_letters ++ more)) ≡ broken_at (length (opening_bytes o)) }
    ensures half { (o : Opening) (size : ℕ) (more : List ℕ) → IsOpening o → size < 2 ^ 32 →
        size ≢ 0xFFFFFFFF → size % (2 * o.channels) ≢ 0 →
        outcome (opening_bytes o ++ (data_letters ++ (little_bytes 4 size ++ more)))
        ≡ broken_at (length (opening_bytes o) + 4) }
    ensures ended { (o : Opening) → IsOpening o →
        end_fault (opening_bytes o) ≡ Some (record { name = NoData; at = length (opening_bytes o) }) }
{}

/// The header that is written before the samples are known gives its channels and no size.
pub fn law_header()
    ensures { (channels : ℕ) (more : List ℕ) → (channels ≡ 1) ⊎ (channels ≡ 2) →
        outcome (header channels ++ more) ≡ Started channels 48000 None 44 }
{}

/// Bytes that follow the head of `data` are those of samples, up to the declared size.
pub fn law_samples_follow()
    ensures { (bytes more : List ℕ) (channels rate : ℕ) (size : Option ℕ) (place : ℕ) →
        outcome bytes ≡ Started channels rate size place →
        samples (bytes ++ more) ≡ samples_of (within_size size (drop place bytes ++ more)) }
{}

/// Samples and their bytes give each other.
pub fn law_inverse()
    ensures samples { (samples : List ℤ) →
        All (λ sample. FitsSigned w16 sample) samples → samples_of (bytes_of samples) ≡ samples }
    ensures bytes { (bytes : List ℕ) →
        All (λ byte. byte < 256) bytes → length bytes % 2 ≡ 0 → bytes_of (samples_of bytes) ≡ bytes }
{}
