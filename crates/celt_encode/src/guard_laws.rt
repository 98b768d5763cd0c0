//! Laws that no frame meets a guard of a definition: what the definitions say where something cannot happen is never used. Each
//! is the clause of a function that does nothing.
ghost use Rattle.std.specs.Prelude.{◌≡◌, ℕ, ◌+◌, ◌*◌, ◌/◌, ◌^◌, ◌≤◌, Bool, if◌then◌else◌, ℤ, pos, int_lt, unsigned_abs, true, List, [], length, get_or};
ghost use Rattle.band_energy.specs.WantedEnergies.{energy_by_fine, wanted_coarse, wanted_fine, wanted_last};
ghost use Rattle.celt_analysis.specs.Analyses.{Analysis};
ghost use Rattle.celt_base.specs.declared.coder.Enter.{Enter};
ghost use Rattle.celt_base.specs.declared.coder.Place.TheVariants.{Coarse, Fine, Last, Skip, Pulses};
ghost use Rattle.celt_base.specs.declared.kind.Kind.{Kind};
ghost use Rattle.celt_base.specs.Questions.{Answered, interval_of};
ghost use Rattle.frame_symbols.specs.Frames.{frame_script};
ghost use Rattle.celt_tables.specs.Tables.{size_of, width_of};
ghost use Rattle.pulse_vectors.specs.Rows.{rank_of};
ghost use Rattle.range_coder.specs.Codes.{AreAnswers, FitTypes, IsCode, told};
ghost use Rattle.tf_change.specs.Order.{ordered};
ghost use Rattle.celt_encode.specs.declared.answers.Answers.{Answers};
ghost use Rattle.celt_encode.specs.Changes.{joined, in_blocks, more, fewer};
ghost use Rattle.celt_encode.specs.Codes.{code_of};
ghost use Rattle.celt_encode.specs.Encoders.{EncoderState, outset_by, outset_for};
ghost use Rattle.celt_encode.specs.EnergiesWanted.{target_at, coarse_energy, fine_energy};
ghost use Rattle.celt_encode.specs.Frames.{choice_of, chosen_list, kept_of, frame_of};
ghost use Rattle.celt_encode.specs.Leaves.{pulses_for};
ghost use Rattle.celt_encode.specs.Outsets.{Outset};
ghost use Rattle.celt_encode.specs.Places.{AreRows, HasRows, HasBand, IsKnown, IsPlace, IsEntered, fit_blocks, AllPlaces, AreMet};
ghost use Rattle.celt_encode.specs.Rooms.{HasRoom};
ghost use Rattle.celt_encode.specs.Standing.{Standing, begun, vector_in, entered_in};
ghost use Rattle.celt_encode.specs.Vectors.{part_of, unit_in, plain_vector};
ghost use Rattle.celt_encode.specs.Wanted.{flag_of, wanted};

/// The code that is computed is that of the list wherever the list tells no more bits than the frame has: a block is found, it
/// has room before the raw bits, and the number has no more bytes than the frame. The kept answers always tell no more, where
/// the frame has two bytes; and the questions of a choice are always valid, with answers that they have. So every frame of two
/// bytes or more is the code of its kept answers.
pub fn law_room()
    ensures code { (list : List Answered) (len : ℕ) → AreAnswers list → FitTypes list → told list ≤ 8 * len → IsCode list len (code_of list len) }
    ensures room { (list : List Answered) (len : ℕ) → AreAnswers list → FitTypes list → told list ≤ 8 * len → HasRoom (interval_of list) len }
    ensures kept { (f : Outset) → 2 ≤ f.len → told (kept_of f) ≤ 8 * f.len }
    ensures answers { (f : Outset) → AreAnswers (chosen_list f) × FitTypes (chosen_list f) }
    ensures frame { (f : Outset) → 2 ≤ f.len → IsCode (kept_of f) f.len (frame_of f) }
{}

/// What is wanted is said at each question of a frame's choice, and so is each vector that is entered: the definitions have a
/// proper case for each of them. The band and the channel are the frame's; the vector that was entered last in the channel is the
/// band's, and the part or the two halves that are asked of lie in it; the pulses of a part are such as it may have, in blocks that
/// divide it; an angle has two steps or more, a fine energy at most 8 bits; and the post-filter that is asked has a gain and a period
/// in one of six octaves. A vector that is entered can take its changes. Each list of what is known has an entry for each channel
/// and band, and what is told is kept as it is. That holds of the script, by whatever nearest answers, and of each event of the
/// choice.
pub fn law_places()
    ensures script { (f : Outset) → HasRows f → f.len ≤ 1275 → AllPlaces f.kind (begun f) (frame_script f.kind f.len) }
    ensures choice { (f : Outset) → HasRows f → f.len ≤ 1275 → AreMet f.kind (begun f) (choice_of f).events }
{}

/// At such a place none of the guards decides what is wanted.
pub fn law_wanted()
    ensures coarse { (s : Standing) (band channel : ℕ) → IsPlace s.frame.kind s (Coarse band channel)
        → wanted s (Coarse band channel) ≡ wanted_coarse s.frame.kind s.answers.intra s.frame.energies s.answers.coarse channel band (target_at s.frame channel band) }
    ensures fine { (s : Standing) (band channel bits : ℕ) → IsPlace s.frame.kind s (Fine band channel bits)
        → wanted s (Fine band channel bits) ≡ wanted_fine (target_at s.frame channel band) (coarse_energy s.frame s.answers channel band) bits }
    ensures last { (s : Standing) (band channel : ℕ) → IsPlace s.frame.kind s (Last band channel)
        → wanted s (Last band channel) ≡ wanted_last (target_at s.frame channel band) (fine_energy s.frame s.answers channel band) }
    ensures energy { (f : Outset) (a : Answers) (channel band : ℕ) → IsKnown a
        → fine_energy f a channel band
        ≡ energy_by_fine (coarse_energy f a channel band) (get_or (get_or a.bits channel []) band 0) (get_or (get_or a.fine channel []) band 0) }
    ensures skip { (s : Standing) (band : ℕ) (bits : ℤ) → IsPlace s.frame.kind s (Skip band bits)
        → wanted s (Skip band bits) ≡ flag_of (int_lt (pos (7 * width_of band * 2 ^ s.frame.kind.lm * 8 / 16)) bits) }
    ensures pulses { (s : Standing) (band channel offset n k blocks : ℕ) → IsPlace s.frame.kind s (Pulses band channel offset n k blocks)
        → wanted s (Pulses band channel offset n k blocks)
        ≡ pos (rank_of (pulses_for blocks k s.answers.spread (part_of (vector_in s channel) offset n))) }
{}

/// Nor does one decide what is entered. Each channel has a vector of the band's size; a part that lies in a vector has its size; a
/// vector that can take its changes takes them; and blocks that fit are put one behind the other. That they fit is said without the
/// items, since the runs that are joined do not depend on them.
pub fn law_entered()
    ensures units { (f : Outset) (channel band : ℕ) → HasRows f → HasBand f.kind channel band → length (unit_in f channel band) ≡ size_of f.kind band }
    ensures parts { (xs : List ℤ) (offset n : ℕ) → offset + n ≤ length xs → length (part_of xs offset n) ≡ n }
    ensures vector { (s : Standing) (at : Enter) → HasRows s.frame → IsEntered s.frame.kind s at
        → vector_in (entered_in s at) at.channel
        ≡ (if int_lt at.tf (pos 0)
        then more (unsigned_abs at.tf) at.blocks (plain_vector s.frame s.answers at.channel at.band)
        else fewer (unsigned_abs at.tf) at.blocks (plain_vector s.frame s.answers at.channel at.band)) }
    ensures blocks { (n s : ℕ) (hadamard : Bool) (xs : List ℤ) → fit_blocks n s hadamard (length xs) ≡ true → in_blocks n s hadamard xs ≡ ordered n s hadamard xs }
    ensures runs { (times count stride : ℕ) (xs : List ℤ)
        → ((joined times (record { items = xs; count = count; stride = stride })).count ≡ (joined times (record { items = []; count = count; stride = stride })).count)
        × ((joined times (record { items = xs; count = count; stride = stride })).stride ≡ (joined times (record { items = []; count = count; stride = stride })).stride) }
{}

/// What is known of a frame before its first question has the lists that the law of the places asks for: of any analysis, where
/// the energies have a row of bands for each channel, and so for every encoder.
pub fn law_outsets()
    ensures outset { (kind : Kind) (len : ℕ) (first : Bool) (energies : List (List ℤ)) (a : Analysis) → AreRows energies → HasRows (outset_by kind len first energies a) }
    ensures encoder { (e : EncoderState) (a : Analysis) (len : ℕ) → HasRows (outset_for e a len) }
{}
