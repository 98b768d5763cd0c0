//! How a window answers each kind of question (RFC 6716, sections 4.1.2 to 4.1.5, 4.3.2.1 and 4.3.4.3): the answer whose
//! part holds the frame's number, and the window after it.
ghost use Rattle.std.specs.Prelude.{◌≡◌, ◌+◌, ◌-◌, ◌*◌, ◌/◌, ◌^◌, ◌<◌, ◌≤◌, pos, negsuc, unsigned_abs};
ghost use Rattle.celt_base.specs.declared.question.Question.TheVariants.{
  Bit,
  Table,
  Uniform,
  Laplace,
  Step,
  Triangle,
  Raw,
};
ghost use Rattle.celt_base.specs.Questions.{
  IsValid,
  IsEven,
  IsLaplace,
  start,
  table_row,
  total_of,
  answers_of,
  low_bits,
  laplace_row,
  spread_of,
};
ghost use Rattle.range_coder.specs.Windows.{TakesAnswer};

use crate::logarithm::bit_length;
use crate::shares::Shares;
use crate::window::Window;
use celt_base::question::{Question, TableId};
use celt_tables::symbols::{SMALL, SPREAD, TAPSET, TRIM};

/// A bit.
fn read_bit(window: Window, frame: &[u8], p: u32) -> (u32, Window)
    requires valid { IsValid (Bit p) }
    requires wide { 2 ^ 23 < window.width }
    requires bits { window.bits < 2 ^ 30 }
    ensures takes { TakesAnswer frame.now window (Bit p) (pos result.0) result.1 }
    ensures wide { 2 ^ 23 < result.1.width }
    ensures grown { result.1.bits ≤ window.bits + 40 }
{
    window.take_bit(frame, p)
}

/// The total of a table as a power of two.
pub fn power_of(table: TableId) -> u32
    ensures value { 2 ^ result ≡ total_of table }
    ensures most { result ≤ 7 }
{
    match table {
        TableId::Tapset | TableId::Small => 2,
        TableId::Spread => 5,
        TableId::Trim => 7,
    }
}

/// The length of a place in a table.
pub fn length_of(table: TableId, place: u32) -> u32
    requires { place < answers_of table }
    ensures value { result ≡ (table_row table).len place }
    ensures most { result ≤ 128 }
{
    match table {
        TableId::Tapset => TAPSET[place as usize],
        TableId::Small => SMALL[place as usize],
        TableId::Spread => SPREAD[place as usize],
        TableId::Trim => TRIM[place as usize],
    }
}

/// An answer with the part that it has.
#[derive(Clone, Copy, Debug)]
struct TablePart {
    /// The answer, counted from 0.
    answer: u32,
    /// Where its part begins.
    from: u32,
    /// Where its part ends: the first place behind it.
    to: u32,
}

/// The place of a table that has the value.
fn place_in(table: TableId, total: u32, value: u32) -> TablePart
    requires total { total ≡ total_of table }
    requires below { value < total }
    ensures answer { result.answer < answers_of table }
    ensures from { result.from ≡ start (table_row table) result.answer }
    ensures to { result.to ≡ start (table_row table) (result.answer + 1) }
    ensures above { result.from ≤ value }
    ensures below { value < result.to }
{
    let mut answer = 0;
    let mut from = 0;
    let mut to = length_of(table, 0);
    while to <= value {
        answer += 1;
        from = to;
        to = (from + length_of(table, answer)).min(total);
    }
    TablePart { answer, from, to }
}

/// A place in a table.
fn read_table(window: Window, frame: &[u8], table: TableId) -> (u32, Window)
    requires wide { 2 ^ 23 < window.width }
    requires bits { window.bits < 2 ^ 30 }
    ensures takes { TakesAnswer frame.now window (Table table) (pos result.0) result.1 }
    ensures wide { 2 ^ 23 < result.1.width }
    ensures grown { result.1.bits ≤ window.bits + 40 }
{
    let shares = Shares::binary(window.width, power_of(table));
    let place = place_in(table, shares.total, window.value_of(shares));
    let after = window.take_part(frame, place.from, place.to, shares);
    (place.answer, after)
}

/// How many low bits of a number below `limit` are raw.
pub fn low_bits(limit: u32) -> u32
    requires { 1 ≤ limit }
    ensures value { low_bits limit ≡ result }
    ensures top { (limit - 1) / 2 ^ result + 1 ≤ 2 ^ 8 }
    ensures few { result ≤ 24 }
{
    bit_length(limit - 1).saturating_sub(8)
}

/// A number below `limit`. A wide one has its upper eight bits at most in a part, and those below them are raw.
fn read_uniform(window: Window, frame: &[u8], limit: u32) -> (u32, Window)
    requires valid { IsValid (Uniform limit) }
    requires wide { 2 ^ 23 < window.width }
    requires bits { window.bits < 2 ^ 30 }
    ensures takes { TakesAnswer frame.now window (Uniform limit) (pos result.0) result.1 }
    ensures wide { 2 ^ 23 < result.1.width }
    ensures grown { result.1.bits ≤ window.bits + 40 }
{
    let last = limit - 1;
    let low = low_bits(limit);
    let shares = Shares::of(window.width, (last >> low) + 1);
    let top = window.value_of(shares);
    let after = window.take_part(frame, top, top + 1, shares);
    if low == 0 {
        return (top, after);
    }
    let number = top * (1 << low) + window.raw_bits(frame, low);
    (number.min(last), after.pass_bits(low))
}

/// A number from 0 to `most`: three for each of the lower half, then one for each.
fn read_step(window: Window, frame: &[u8], most: u32) -> (u32, Window)
    requires valid { IsEven most }
    requires wide { 2 ^ 23 < window.width }
    requires bits { window.bits < 2 ^ 30 }
    ensures takes { TakesAnswer frame.now window (Step most) (pos result.0) result.1 }
    ensures wide { 2 ^ 23 < result.1.width }
    ensures grown { result.1.bits ≤ window.bits + 40 }
{
    let half = most / 2;
    let lower = 3 * (half + 1);
    let shares = Shares::of(window.width, lower + half);
    let value = window.value_of(shares);
    if value < lower {
        let answer = value / 3;
        let from = 3 * answer;
        (answer, window.take_part(frame, from, from + 3, shares))
    } else {
        let answer = value - lower + half + 1;
        (answer, window.take_part(frame, value, value + 1, shares))
    }
}

/// The greatest number of which the sum of all numbers up to it is not above `sum`.
fn root_of_sum(sum: u32) -> u32
    requires { sum < 2 ^ 15 }
    ensures low { result * (result + 1) ≤ 2 * sum }
    ensures high { 2 * sum < (result + 1) * (result + 2) }
    ensures most { result < 2 ^ 8 }
{
    let root = u32::from(((2 * sum) as u16).isqrt());
    if root * (root + 1) <= 2 * sum {
        root
    } else {
        root - 1
    }
}

/// A number from 0 to `most`: one more for each up to the middle, and one less for each behind it.
fn read_triangle(window: Window, frame: &[u8], most: u32) -> (u32, Window)
    requires valid { IsEven most }
    requires wide { 2 ^ 23 < window.width }
    requires bits { window.bits < 2 ^ 30 }
    ensures takes { TakesAnswer frame.now window (Triangle most) (pos result.0) result.1 }
    ensures wide { 2 ^ 23 < result.1.width }
    ensures grown { result.1.bits ≤ window.bits + 40 }
{
    let half = most / 2;
    let total = (half + 1) * (half + 1);
    let shares = Shares::of(window.width, total);
    let value = window.value_of(shares);
    if value < half * (half + 1) / 2 {
        let answer = root_of_sum(value);
        let from = answer * (answer + 1) / 2;
        (
            answer,
            window.take_part(frame, from, from + answer + 1, shares),
        )
    } else {
        let left = root_of_sum(total - 1 - value);
        let to = total - left * (left + 1) / 2;
        (
            most - left,
            window.take_part(frame, to - left - 1, to, shares),
        )
    }
}

/// Bits from the end of the frame.
fn read_raw(window: Window, frame: &[u8], count: u32) -> (u32, Window)
    requires valid { IsValid (Raw count) }
    requires wide { 2 ^ 23 < window.width }
    requires bits { window.bits < 2 ^ 30 }
    ensures takes { TakesAnswer frame.now window (Raw count) (pos result.0) result.1 }
    ensures wide { 2 ^ 23 < result.1.width }
    ensures grown { result.1.bits ≤ window.bits + 40 }
{
    (window.raw_bits(frame, count), window.pass_bits(count))
}

/// The two parts of one size in a Laplace question, of minus the size and of the size itself, which follow each other.
#[derive(Clone, Copy, Debug)]
pub struct Sides {
    /// How many sizes are smaller, 0 left out.
    pub smaller: u32,
    /// Where the part of minus the size begins.
    pub from: u32,
    /// Both lengths are one above this.
    pub spread: u32,
}

/// The parts of the size that has the value, which is not in the part of 0.
fn sides_at(fs: u32, decay: u32, value: u32) -> Sides
    requires valid { IsLaplace fs decay }
    requires above { fs ≤ value }
    requires below { value < 2 ^ 15 }
    ensures from { result.from ≡ start (laplace_row fs decay) (2 * result.smaller + 1) }
    ensures spread { result.spread ≡ spread_of fs decay result.smaller }
    ensures above { result.from ≤ value }
    ensures below { value < result.from + 2 * (result.spread + 1) }
    ensures few { result.smaller < 2 ^ 15 }
    ensures small { result.spread ≤ 2 ^ 14 }
{
    let mut smaller = 0;
    let mut from = fs;
    let mut spread = (32736 - fs) * (16384 - decay) / 32768;
    while from + 2 * (spread + 1) <= value {
        smaller += 1;
        from += 2 * (spread + 1);
        spread = 2 * spread * decay / 32768;
    }
    Sides {
        smaller,
        from,
        spread,
    }
}

/// The size that so many are smaller than, with a minus.
pub fn minus(smaller: u32) -> i64
    ensures { result ≡ negsuc smaller }
{
    -i64::from(smaller) - 1
}

/// The size that so many are smaller than.
pub fn plus(smaller: u32) -> i64
    ensures { result ≡ pos (smaller + 1) }
{
    i64::from(smaller) + 1
}

/// A signed number, small sizes being more likely. It is cut at 32768.
fn read_laplace(window: Window, frame: &[u8], fs: u32, decay: u32) -> (i64, Window)
    requires valid { IsLaplace fs decay }
    requires wide { 2 ^ 23 < window.width }
    requires bits { window.bits < 2 ^ 30 }
    ensures takes { TakesAnswer frame.now window (Laplace fs decay) result.0 result.1 }
    ensures small { unsigned_abs result.0 < 2 ^ 32 }
    ensures wide { 2 ^ 23 < result.1.width }
    ensures grown { result.1.bits ≤ window.bits + 40 }
{
    let shares = Shares::binary(window.width, 15);
    let value = window.value_of(shares);
    if value < fs {
        return (0, window.take_part(frame, 0, fs, shares));
    }
    let sides = sides_at(fs, decay, value);
    let middle = sides.from + sides.spread + 1;
    if value < middle {
        let to = middle.min(shares.total);
        (
            minus(sides.smaller),
            window.take_part(frame, sides.from, to, shares),
        )
    } else {
        let to = (middle + sides.spread + 1).min(shares.total);
        (
            plus(sides.smaller),
            window.take_part(frame, middle, to, shares),
        )
    }
}

/// An answer as a signed number.
fn signed(answer: (u32, Window)) -> (i64, Window)
    ensures answer { result.0 ≡ pos answer.0 }
    ensures small { unsigned_abs result.0 < 2 ^ 32 }
    ensures window { result.1 ≡ answer.1 }
{
    (i64::from(answer.0), answer.1)
}

/// The frame's answer of a question, and the window after it.
pub fn read_answer(window: Window, frame: &[u8], question: Question) -> (i64, Window)
    requires valid { IsValid question }
    requires wide { 2 ^ 23 < window.width }
    requires bits { window.bits < 2 ^ 30 }
    ensures takes { TakesAnswer frame.now window question result.0 result.1 }
    ensures small { unsigned_abs result.0 < 2 ^ 32 }
    ensures wide { 2 ^ 23 < result.1.width }
    ensures grown { result.1.bits ≤ window.bits + 40 }
{
    match question {
        Question::Bit(p) => signed(read_bit(window, frame, p)),
        Question::Table(table) => signed(read_table(window, frame, table)),
        Question::Uniform(limit) => signed(read_uniform(window, frame, limit)),
        Question::Laplace { fs, decay } => read_laplace(window, frame, fs, decay),
        Question::Step(most) => signed(read_step(window, frame, most)),
        Question::Triangle(most) => signed(read_triangle(window, frame, most)),
        Question::Raw(count) => signed(read_raw(window, frame, count)),
    }
}
