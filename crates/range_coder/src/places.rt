//! The answer of each kind of question that is nearest to a wanted one, and what codes it (RFC 6716, sections 4.1.2 to
//! 4.1.5, 4.3.2.1 and 4.3.4.3).
ghost use Rattle.std.specs.Prelude.{
  ◌≡◌,
  ◌↔◌,
  ℕ,
  ◌+◌,
  ◌-◌,
  ◌*◌,
  ◌/◌,
  ◌%◌,
  ◌^◌,
  ◌<◌,
  ◌≤◌,
  min,
  [],
  ◌∷◌,
  ℤ,
  pos,
  negsuc,
  unsigned_abs,
};
ghost use Rattle.celt_base.specs.declared.question.Question.{Question};
ghost use Rattle.celt_base.specs.declared.question.Question.TheVariants.{
  Bit,
  Table,
  Uniform,
  Laplace,
  Step,
  Triangle,
  Raw,
};
ghost use Rattle.celt_base.specs.Intervals.{Part, InPart, InBits};
ghost use Rattle.celt_base.specs.Questions.{
  IsBelow,
  IsAnswer,
  IsValid,
  IsEven,
  IsLaplace,
  start,
  total_of,
  answers_of,
  laplace_row,
  spread_of,
  steps,
  table_row,
};
ghost use Rattle.range_coder.specs.Nearest.{IsNearest, IsChoice};

use crate::answers::{Sides, length_of, low_bits, minus, plus, power_of};
use celt_base::question::TableId;

/// The answer that is coded, with its part.
#[derive(Clone, Copy, Debug)]
pub struct Choice {
    /// The answer.
    pub answer: i64,
    /// Where its part begins.
    pub from: u32,
    /// Where its part ends: the first place behind it.
    pub to: u32,
    /// Where the last part ends.
    pub total: u32,
}

/// The number that is coded, with the part of its upper bits and the raw bits below them.
#[derive(Clone, Copy, Debug)]
pub struct NumberChoice {
    /// The number.
    pub number: u32,
    /// Its upper bits. Their part begins here, and is one long.
    pub top: u32,
    /// Where the last part ends.
    pub total: u32,
    /// How many bits are raw.
    pub low: u32,
    /// Those bits.
    pub bits: u32,
}

/// The one of the first `count` numbers that is nearest to a wanted one.
pub fn nearest_below(want: i64, count: u32) -> u32
    requires { 1 ≤ count }
    ensures below { result < count }
    ensures nearest { (question : Question) → ((answer : ℤ) → IsAnswer question answer ↔ IsBelow count answer)
        → IsNearest question want (pos result) }
{
    if want <= 0 {
        0
    } else if want < i64::from(count) {
        want as u32
    } else {
        count - 1
    }
}

/// The nearest bit.
pub fn bit_choice(want: i64) -> u32
    ensures below { result < 2 }
    ensures nearest { (p : ℕ) → IsNearest (Bit p) want (pos result) }
{
    nearest_below(want, 2)
}

/// The nearest number of so many raw bits.
pub fn raw_choice(want: i64, count: u32) -> u32
    requires valid { IsValid (Raw count) }
    ensures below { result < 2 ^ count }
    ensures nearest { IsNearest (Raw count) want (pos result) }
{
    nearest_below(want, 1 << count)
}

/// The nearest number below `limit`.
pub fn number_choice(want: i64, limit: u32) -> NumberChoice
    requires valid { IsValid (Uniform limit) }
    ensures nearest { IsNearest (Uniform limit) want (pos result.number) }
    ensures narrow { result.low ≡ 0 → steps (Uniform limit) (pos result.number)
        ≡ InPart (record { from = result.top; to = result.top + 1; total = result.total }) ∷ [] }
    ensures wide { 1 ≤ result.low → steps (Uniform limit) (pos result.number)
        ≡ InPart (record { from = result.top; to = result.top + 1; total = result.total }) ∷ InBits result.low result.bits ∷ [] }
    ensures inside { result.top < result.total }
    ensures small { result.total ≤ 2 ^ 8 }
    ensures few { result.low ≤ 24 }
    ensures bits { result.bits < 2 ^ result.low }
{
    let number = nearest_below(want, limit);
    let low = low_bits(limit);
    let top = number >> low;
    NumberChoice {
        number,
        top,
        total: ((limit - 1) >> low) + 1,
        low,
        bits: number - (top << low),
    }
}

/// A number with its part.
fn choice_of(number: u32, from: u32, to: u32, total: u32) -> Choice
    ensures choice { (question : Question) (want : ℤ)
        → IsChoice question want (pos number) (record { from = from; to = to; total = total })
        → IsChoice question want result.answer (record { from = result.from; to = result.to; total = result.total }) }
    ensures number { result.answer ≡ pos number }
    ensures answer { unsigned_abs result.answer < 2 ^ 32 }
    ensures from { result.from ≡ from }
    ensures to { result.to ≡ to }
    ensures total { result.total ≡ total }
{
    Choice {
        answer: i64::from(number),
        from,
        to,
        total,
    }
}

/// How many answers a table has.
fn answers_of(table: TableId) -> u32
    ensures value { result ≡ answers_of table }
    ensures some { 1 ≤ result }
{
    match table {
        TableId::Tapset | TableId::Small => 3,
        TableId::Spread => 4,
        TableId::Trim => 11,
    }
}

/// Where the part of an answer of a table begins.
fn table_start(table: TableId, answer: u32) -> u32
    requires { answer < answers_of table }
    ensures value { result ≡ start (table_row table) answer }
    ensures most { result ≤ 128 }
{
    let mut from = 0;
    for place in 0..answer {
        from += length_of(table, place);
    }
    from
}

/// The nearest answer of a table.
pub fn table_choice(want: i64, table: TableId) -> Choice
    ensures choice { IsChoice (Table table) want result.answer (record { from = result.from; to = result.to; total = result.total }) }
    ensures answer { unsigned_abs result.answer < 2 ^ 32 }
    ensures some { result.from < result.to }
    ensures within { result.to ≤ result.total }
    ensures total { result.total ≡ total_of table }
    ensures small { result.total ≤ 2 ^ 7 }
{
    let answer = nearest_below(want, answers_of(table));
    let from = table_start(table, answer);
    let to = from + length_of(table, answer);
    choice_of(answer, from, to, 1 << power_of(table))
}

/// The nearest number from 0 to `most`: three for each of the lower half, then one for each.
pub fn step_choice(want: i64, most: u32) -> Choice
    requires valid { IsEven most }
    ensures choice { IsChoice (Step most) want result.answer (record { from = result.from; to = result.to; total = result.total }) }
    ensures answer { unsigned_abs result.answer < 2 ^ 32 }
    ensures some { result.from < result.to }
    ensures within { result.to ≤ result.total }
    ensures small { result.total ≤ 2 ^ 15 }
{
    let number = nearest_below(want, most + 1);
    let half = most / 2;
    let lower = 3 * (half + 1);
    let total = lower + half;
    if number <= half {
        let from = 3 * number;
        choice_of(number, from, from + 3, total)
    } else {
        let from = number + 2 * (half + 1);
        choice_of(number, from, from + 1, total)
    }
}

/// The nearest number from 0 to `most`: one more for each up to the middle, and one less for each behind it.
pub fn triangle_choice(want: i64, most: u32) -> Choice
    requires valid { IsEven most }
    ensures choice { IsChoice (Triangle most) want result.answer (record { from = result.from; to = result.to; total = result.total }) }
    ensures answer { unsigned_abs result.answer < 2 ^ 32 }
    ensures some { result.from < result.to }
    ensures within { result.to ≤ result.total }
    ensures small { result.total ≤ 2 ^ 15 }
{
    let number = nearest_below(want, most + 1);
    let half = most / 2;
    let total = (half + 1) * (half + 1);
    if number < half {
        let from = number * (number + 1) / 2;
        choice_of(number, from, from + number + 1, total)
    } else {
        let left = most - number;
        let to = total - left * (left + 1) / 2;
        choice_of(number, to - left - 1, to, total)
    }
}

/// The parts of a size in a Laplace question, or of the last size that has an answer, if that is smaller.
fn sides_up_to(fs: u32, decay: u32, size: u64) -> Sides
    requires valid { IsLaplace fs decay }
    requires some { 1 ≤ size }
    ensures from { result.from ≡ start (laplace_row fs decay) (2 * result.smaller + 1) }
    ensures spread { result.spread ≡ spread_of fs decay result.smaller }
    ensures inside { result.from < 2 ^ 15 }
    ensures within { result.smaller < size }
    ensures last { result.smaller + 1 < size → 2 ^ 15 ≤ result.from + 2 * (result.spread + 1) }
    ensures few { result.smaller < 2 ^ 15 }
    ensures small { result.spread ≤ 2 ^ 14 }
{
    let mut smaller = 0;
    let mut from = fs;
    let mut spread = (32736 - fs) * (16384 - decay) / 32768;
    while u64::from(smaller) + 1 < size && from + 2 * (spread + 1) < 32768 {
        smaller += 1;
        from += 2 * (spread + 1);
        spread = 2 * spread * decay / 32768;
    }
    Sides {
        smaller,
        from,
        spread,
    }
}

/// Minus a size.
fn minus_choice(sides: Sides) -> Choice
    requires inside { sides.from < 2 ^ 15 }
    requires few { sides.smaller < 2 ^ 15 }
    requires small { sides.spread ≤ 2 ^ 14 }
    ensures answer { result.answer ≡ negsuc sides.smaller }
    ensures from { result.from ≡ sides.from }
    ensures to { result.to ≡ min (sides.from + sides.spread + 1) (2 ^ 15) }
    ensures total { result.total ≡ 2 ^ 15 }
{
    Choice {
        answer: minus(sides.smaller),
        from: sides.from,
        to: (sides.from + sides.spread + 1).min(32768),
        total: 32768,
    }
}

/// A size.
fn plus_choice(sides: Sides) -> Choice
    requires inside { sides.from < 2 ^ 15 }
    requires few { sides.smaller < 2 ^ 15 }
    requires small { sides.spread ≤ 2 ^ 14 }
    ensures answer { result.answer ≡ pos (sides.smaller + 1) }
    ensures from { result.from ≡ sides.from + sides.spread + 1 }
    ensures to { result.to ≡ min (sides.from + sides.spread + 1 + sides.spread + 1) (2 ^ 15) }
    ensures total { result.total ≡ 2 ^ 15 }
{
    let from = sides.from + sides.spread + 1;
    Choice {
        answer: plus(sides.smaller),
        from,
        to: (from + sides.spread + 1).min(32768),
        total: 32768,
    }
}

/// The nearest signed number. Where the cut at 32768 leaves a size only its minus, the size below it is the greatest.
pub fn laplace_choice(want: i64, fs: u32, decay: u32) -> Choice
    requires valid { IsLaplace fs decay }
    ensures choice { IsChoice (Laplace fs decay) want result.answer (record { from = result.from; to = result.to; total = result.total }) }
    ensures answer { unsigned_abs result.answer < 2 ^ 32 }
    ensures some { result.from < result.to }
    ensures within { result.to ≤ result.total }
    ensures total { result.total ≡ 2 ^ 15 }
{
    if want == 0 {
        return choice_of(0, 0, fs, 32768);
    }
    let sides = sides_up_to(fs, decay, want.unsigned_abs());
    if want < 0 {
        minus_choice(sides)
    } else if sides.from + sides.spread + 1 < 32768 {
        plus_choice(sides)
    } else {
        plus_choice(sides_up_to(fs, decay, u64::from(sides.smaller)))
    }
}
