//! Laws of intervals, parts and answers, for every list of questions with answers. Each is the clause of a function that
//! does nothing.
ghost use Rattle.std.specs.Prelude.{◌≡◌, ℕ, ◌+◌, ◌-◌, ◌*◌, ◌/◌, ◌%◌, ◌^◌, ◌<◌, ◌≤◌, List, [], ◌∷◌, ◌++◌, length, map, slice_index, ℤ, pos};
ghost use Rattle.celt_base.specs.declared.question.Question.{Question};
ghost use Rattle.celt_base.specs.declared.question.Question.TheVariants.{Bit};
ghost use Rattle.celt_base.specs.Intervals.{Interval, whole, narrowed};
ghost use Rattle.celt_base.specs.Questions.{Answered, IsAnswer, interval_of};
ghost use Rattle.celt_base.specs.Paces.{pace_of};
ghost use Rattle.range_coder.specs.declared.reader.Reader.{Reader};
ghost use Rattle.range_coder.specs.FrameBits.{head, tail, bit_at};
ghost use Rattle.range_coder.specs.Reading.{Answers, AnswersFrom, bit_of, first_bit};
ghost use Rattle.range_coder.specs.Codes.{IsEnding, AreAnswers, FitTypes, told, IsCode};
ghost use Rattle.range_coder.specs.Readers.{StandsFor, Reads, reader_pace, reader_count};
ghost use Rattle.range_coder.specs.declared.sender.Finish.TheVariants.{Whole};
ghost use Rattle.range_coder.specs.declared.writer.Writer.{Writer};
ghost use Rattle.range_coder.specs.Nearest.{IsNearest};
ghost use Rattle.range_coder.specs.Writers.{HasCoded, Writes, IsFinished, writer_pace};

/// The head of a frame is the number of its first bits, most significant first (RFC 6716, section 4.1).
pub fn law_head()
    ensures none { (frame : List ℕ) → slice_index frame 0 < 256 → head frame 0 ≡ 0 }
    ensures more { (frame : List ℕ) (bits : ℕ) → ((k : ℕ) → slice_index frame k < 256)
        → head frame (bits + 1) ≡ 2 * head frame bits + bit_at frame bits }
{}

/// The tail of a frame is the number of bits from its end, the first one lowest, each byte from its lowest bit on. Past the
/// front it is 0 (RFC 6716, section 4.1.4).
pub fn law_tail()
    ensures none { (frame : List ℕ) (from : ℕ) → tail frame from 0 ≡ 0 }
    ensures more { (frame : List ℕ) (from count : ℕ)
        → tail frame from (count + 1) ≡ tail frame from count + 2 ^ count * tail frame (from + count) 1 }
    ensures bit { (frame : List ℕ) (place low : ℕ) → ((k : ℕ) → slice_index frame k < 256)
        → place < length frame → low < 8
        → tail frame (8 * place + low) 1 ≡ slice_index frame (length frame - 1 - place) / 2 ^ low % 2 }
    ensures past { (frame : List ℕ) (place low : ℕ) → ((k : ℕ) → slice_index frame k < 256)
        → length frame ≤ place → low < 8 → tail frame (8 * place + low) 1 ≡ 0 }
{}

/// A part narrows an interval as the standard's two cases say (RFC 6716, sections 4.1.2 and 5.1.1).
pub fn law_narrowing()
    ensures lowest { (i : Interval) (fh ft : ℕ) → 0 < fh
        → narrowed (record { from = 0; to = fh; total = ft }) i
        ≡ record i { width = i.width - i.width / ft * (ft - fh) } }
    ensures higher { (i : Interval) (fl fh ft : ℕ) → 0 < fl → fl < fh → fh ≤ ft
        → narrowed (record { from = fl; to = fh; total = ft }) i
        ≡ record i {
          low = i.low + (i.width - i.width / ft * (ft - fl));
          width = i.width / ft * (fh - fl);
        } }
{}

/// An interval ends within the frame's numbers: low never needs a carry out of its 31 + shift bits.
pub fn law_interval_end()
    ensures { (list : List Answered)
        → (interval_of list).low + (interval_of list).width ≤ 2 ^ (31 + (interval_of list).shift) }
{}

/// The pace of a reader is that of each list that it stands for, and two readers that stand for one list have one pace.
pub fn law_one_pace()
    ensures pace { (frame : List ℕ) (r : Reader) (list : List Answered) → StandsFor frame r list
        → reader_pace r ≡ pace_of (interval_of list) }
    ensures two { (frame : List ℕ) (r s : Reader) (list : List Answered) → StandsFor frame r list
        → StandsFor frame s list → reader_pace r ≡ reader_pace s }
{}

/// The pace of every reader: the width is above 2^23 and at most 2^31, and a question takes at most 40 bits.
pub fn law_pace_bounds()
    ensures width { (r : Reader)
        → (2 ^ 23 < (reader_pace r).width) × ((reader_pace r).width ≤ 2 ^ 31) }
    ensures bits { (r : Reader)
        → (33 ≤ (reader_pace r).bits) × ((reader_pace r).bits ≤ 33 + 40 * reader_count r) }
{}

/// A call of a reader, for every list that the reader stood for: the answer is the frame's, and the reader stands for that
/// list with the question and the answer.
pub fn law_reads()
    ensures { (frame : List ℕ) (list : List Answered) (before now : Reader) (q : Question) (a : ℤ)
        → Reads before q a now → StandsFor frame before list
        → StandsFor frame now (list ++ record { question = q; answer = a } ∷ [])
        × Answers frame (interval_of list) q a }
{}

/// A frame has at most one answer of a question.
pub fn law_answers_determined()
    ensures { (frame : List ℕ) (i : Interval) (q : Question) (a b : ℤ)
        → Answers frame i q a → Answers frame i q b → a ≡ b }
{}

/// The frame's answers of the same questions are the same.
pub fn law_readings_determined()
    ensures { (frame : List ℕ) (first second : List Answered)
        → map (λ a. a.question) first ≡ map (λ a. a.question) second
        → AnswersFrom frame whole first → AnswersFrom frame whole second → first ≡ second }
{}

/// The frame's answer of a bit is the number that `bit_of` computes; that of its first question is `first_bit`.
pub fn law_bit_answer()
    ensures later { (frame : List ℕ) (i : Interval) (p : ℕ) (answer : ℤ) → 1 ≤ p
        → Answers frame i (Bit p) answer → answer ≡ pos (bit_of frame i p) }
    ensures first { (frame : List ℕ) (p : ℕ) (answer : ℤ) → 1 ≤ p
        → Answers frame (interval_of []) (Bit p) answer → answer ≡ pos (first_bit frame p) }
{}

/// Reading the code of a list of answers gives that list (RFC 6716, sections 4.1 and 5.1): each answer of the list is the
/// frame's, no other list of answers of these questions is, and the range at the end is the width of the list's interval.
/// The bits at the head of the frame and those at its tail are together no more than the list tells, so they do not meet.
pub fn law_code_is_read()
    ensures read { (list : List Answered) (len : ℕ) (frame : List ℕ) → AreAnswers list → IsCode list len frame
        → AnswersFrom frame whole list }
    ensures only { (list other : List Answered) (len : ℕ) (frame : List ℕ) → AreAnswers list → IsCode list len frame
        → map (λ a. a.question) other ≡ map (λ a. a.question) list → AnswersFrom frame whole other → other ≡ list }
    ensures range { (list other : List Answered) (len : ℕ) (frame : List ℕ) → AreAnswers list → IsCode list len frame
        → map (λ a. a.question) other ≡ map (λ a. a.question) list → AnswersFrom frame whole other
        → (interval_of other).width ≡ (interval_of list).width }
    ensures apart { (list : List Answered) (bits first : ℕ) → IsEnding (interval_of list) bits first
        → (interval_of list).shift + bits + (interval_of list).raw ≤ told list }
{}

/// The code of a list of answers by its bits (RFC 6716, sections 5.1.4 and 5.1.5): the first bits of the block at the head,
/// the raw bits at the tail, and 0 between.
pub fn law_code_bits()
    ensures head { (list : List Answered) (len : ℕ) (frame : List ℕ) → AreAnswers list → (code : IsCode list len frame)
        → head frame ((interval_of list).shift + code.code.bits) ≡ code.code.first }
    ensures tail { (list : List Answered) (len : ℕ) (frame : List ℕ) → AreAnswers list → IsCode list len frame
        → tail frame 0 (interval_of list).raw ≡ (interval_of list).bits }
    ensures between { (list : List Answered) (len : ℕ) (frame : List ℕ) → AreAnswers list → (code : IsCode list len frame)
        → tail frame (interval_of list).raw (8 * len - ((interval_of list).shift + code.code.bits) - (interval_of list).raw)
        ≡ 0 }
{}

/// A list has at most one code of a length, and of the lists that answer the same questions a frame is the code of at most
/// one.
pub fn law_code_determined()
    ensures frame { (list : List Answered) (len : ℕ) (one two : List ℕ) → IsCode list len one → IsCode list len two
        → one ≡ two }
    ensures answers { (first second : List Answered) (m n : ℕ) (frame : List ℕ) → AreAnswers first → AreAnswers second
        → map (λ a. a.question) first ≡ map (λ a. a.question) second → IsCode first m frame → IsCode second n frame
        → first ≡ second }
{}

/// Every list of answers has an ending (RFC 6716, section 5.1.5).
pub fn law_interval_has_an_ending()
    ensures { (list : List Answered) → AreAnswers list → FitTypes list
        → (bits : ℕ) × (first : ℕ) × IsEnding (interval_of list) bits first }
{}

/// Every list of answers that tells no more bits than a length has, has a code of that length.
pub fn law_code_exists()
    ensures { (list : List Answered) (len : ℕ) → AreAnswers list → FitTypes list → told list ≤ 8 * len
        → (frame : List ℕ) × IsCode list len frame }
{}

/// A call of a writer: the answer is the nearest one, and for every list that the writer has coded, it has then coded that
/// list with the question and the answer. The room stays the one that was lent.
pub fn law_writes()
    ensures coded { (list : List Answered) (before now : Writer) (q : Question) (want a : ℤ)
        → Writes before q want a now → HasCoded before list
        → HasCoded now (list ++ record { question = q; answer = a } ∷ []) }
    ensures nearest { (before now : Writer) (q : Question) (want a : ℤ) → Writes before q want a now
        → IsNearest q want a }
    ensures same { (before now : Writer) (q : Question) (want a : ℤ) → Writes before q want a now
        → now.room.ghost_name ≡ before.room.ghost_name }
{}

/// A question has one answer that is nearest to a wanted number, and a wanted answer is nearest to itself.
pub fn law_nearest_determined()
    ensures one { (q : Question) (want a b : ℤ) → IsNearest q want a → IsNearest q want b → a ≡ b }
    ensures itself { (q : Question) (a : ℤ) → IsAnswer q a → IsNearest q a a }
{}

/// The pace of a writer is that of each list that it has coded, and so that of each reader that stands for such a list.
pub fn law_shared_pace()
    ensures pace { (w : Writer) (list : List Answered) → HasCoded w list → writer_pace w ≡ pace_of (interval_of list) }
    ensures two { (frame : List ℕ) (w : Writer) (r : Reader) (list : List Answered) → HasCoded w list
        → StandsFor frame r list → writer_pace w ≡ reader_pace r }
{}

/// What a writer leaves is read back: where its room is whole, a reading of the room gives each list that the writer has
/// coded, with the range that was answered, and of the lists with the same questions it has coded one at most.
pub fn law_written_is_read()
    ensures read { (w : Writer) (list : List Answered) (room : List ℕ) (range : ℕ) → HasCoded w list
        → IsFinished room list (Whole range) → AnswersFrom room whole list }
    ensures only { (w : Writer) (list other : List Answered) (room : List ℕ) (range : ℕ) → HasCoded w list
        → IsFinished room list (Whole range) → map (λ a. a.question) other ≡ map (λ a. a.question) list
        → AnswersFrom room whole other → (other ≡ list) × (range ≡ (interval_of other).width) }
    ensures one { (w : Writer) (first second : List Answered) (room : List ℕ) (range : ℕ) → HasCoded w first
        → HasCoded w second → IsFinished room first (Whole range) → IsFinished room second (Whole range)
        → map (λ a. a.question) first ≡ map (λ a. a.question) second → first ≡ second }
{}
