//! How a writer answers each kind of question (RFC 6716, sections 5.1.1 to 5.1.4, 4.3.2.1 and 4.3.4.3): with the answer that
//! is nearest to the wanted one, whose part and raw bits are sent.
ghost use Rattle.std.specs.Prelude.{◌≡◌, ◌+◌, ◌*◌, ◌/◌, ◌^◌, ◌<◌, ◌≤◌, length, pos, unsigned_abs};
ghost use Rattle.celt_base.specs.declared.question.Question.TheVariants.{
  Bit,
  Table,
  Uniform,
  Laplace,
  Step,
  Triangle,
  Raw,
};
ghost use Rattle.celt_base.specs.Intervals.{InPart};
ghost use Rattle.celt_base.specs.Questions.{IsValid, IsEven, IsLaplace};
ghost use Rattle.range_coder.specs.Nearest.{IsNearest};
ghost use Rattle.range_coder.specs.Senders.{Sends, SendsAnswer};

use crate::answers::power_of;
use crate::places::{
    Choice, bit_choice, laplace_choice, number_choice, raw_choice, step_choice, table_choice,
    triangle_choice,
};
use crate::sender::Sender;
use crate::shares::Shares;
use celt_base::question::{Question, TableId};

/// An answer, and the state after it was sent.
#[derive(Clone, Copy, Debug)]
pub struct Sent {
    /// The answer.
    pub answer: i64,
    /// The state.
    pub sender: Sender,
}

/// A number as an answer.
fn number_sent(number: u32, sender: Sender) -> Sent
    ensures answer { result.answer ≡ pos number }
    ensures small { unsigned_abs result.answer < 2 ^ 32 }
    ensures sender { result.sender ≡ sender }
{
    Sent {
        answer: i64::from(number),
        sender,
    }
}

/// A bit.
fn send_bit(sender: Sender, room: &mut [u8], p: u32, want: i64) -> Sent
    requires valid { IsValid (Bit p) }
    requires wide { 2 ^ 23 < sender.width }
    requires counted { 8 * sender.sent + sender.raw < 2 ^ 18 }
    requires room { length room.old ≤ 1275 }
    ensures sends { SendsAnswer room.old sender (Bit p) result.answer room.new result.sender }
    ensures nearest { IsNearest (Bit p) want result.answer }
    ensures small { unsigned_abs result.answer < 2 ^ 32 }
    ensures wide { 2 ^ 23 < result.sender.width }
    ensures counted { 8 * result.sender.sent + result.sender.raw ≤ 8 * sender.sent + sender.raw + 40 }
    ensures len { length room.new ≡ length room.old }
{
    let bit = bit_choice(want);
    number_sent(bit, sender.send_bit(room, p, bit))
}

/// A choice as an answer.
fn choice_sent(choice: Choice, sender: Sender) -> Sent
    requires small { unsigned_abs choice.answer < 2 ^ 32 }
    ensures answer { result.answer ≡ choice.answer }
    ensures sender { result.sender ≡ sender }
{
    Sent {
        answer: choice.answer,
        sender,
    }
}

/// The part of a choice.
fn send_choice(sender: Sender, room: &mut [u8], choice: Choice, shares: Shares) -> Sent
    requires small { unsigned_abs choice.answer < 2 ^ 32 }
    requires some { choice.from < choice.to }
    requires within { choice.to ≤ choice.total }
    requires most { choice.total ≤ 2 ^ 15 }
    requires total { shares.total ≡ choice.total }
    requires unit { shares.unit ≡ sender.width / shares.total }
    requires wide { 2 ^ 23 < sender.width }
    requires counted { 8 * sender.sent + sender.raw < 2 ^ 18 }
    requires room { length room.old ≤ 1275 }
    ensures sends { Sends room.old sender (InPart (record { from = choice.from; to = choice.to; total = choice.total })) room.new result.sender }
    ensures answer { result.answer ≡ choice.answer }
    ensures wide { 2 ^ 23 < result.sender.width }
    ensures counted { 8 * result.sender.sent + result.sender.raw ≤ 8 * sender.sent + sender.raw + 16 }
    ensures len { length room.new ≡ length room.old }
{
    let after = sender.send_part(room, choice.from, choice.to, shares);
    choice_sent(choice, after)
}

/// A place in a table.
fn send_table(sender: Sender, room: &mut [u8], table: TableId, want: i64) -> Sent
    requires wide { 2 ^ 23 < sender.width }
    requires counted { 8 * sender.sent + sender.raw < 2 ^ 18 }
    requires room { length room.old ≤ 1275 }
    ensures sends { SendsAnswer room.old sender (Table table) result.answer room.new result.sender }
    ensures nearest { IsNearest (Table table) want result.answer }
    ensures small { unsigned_abs result.answer < 2 ^ 32 }
    ensures wide { 2 ^ 23 < result.sender.width }
    ensures counted { 8 * result.sender.sent + result.sender.raw ≤ 8 * sender.sent + sender.raw + 40 }
    ensures len { length room.new ≡ length room.old }
{
    let choice = table_choice(want, table);
    let shares = Shares::binary(sender.width, power_of(table));
    send_choice(sender, room, choice, shares)
}

/// A number below `limit`. A wide one has its upper eight bits at most in a part, and those below them are raw.
fn send_uniform(sender: Sender, room: &mut [u8], limit: u32, want: i64) -> Sent
    requires valid { IsValid (Uniform limit) }
    requires wide { 2 ^ 23 < sender.width }
    requires counted { 8 * sender.sent + sender.raw < 2 ^ 18 }
    requires room { length room.old ≤ 1275 }
    ensures sends { SendsAnswer room.old sender (Uniform limit) result.answer room.new result.sender }
    ensures nearest { IsNearest (Uniform limit) want result.answer }
    ensures small { unsigned_abs result.answer < 2 ^ 32 }
    ensures wide { 2 ^ 23 < result.sender.width }
    ensures counted { 8 * result.sender.sent + result.sender.raw ≤ 8 * sender.sent + sender.raw + 40 }
    ensures len { length room.new ≡ length room.old }
{
    let choice = number_choice(want, limit);
    let shares = Shares::of(sender.width, choice.total);
    let after = sender.send_part(room, choice.top, choice.top + 1, shares);
    if choice.low == 0 {
        return number_sent(choice.number, after);
    }
    number_sent(
        choice.number,
        after.send_bits(room, choice.low, choice.bits),
    )
}

/// A signed number, small sizes being more likely.
fn send_laplace(sender: Sender, room: &mut [u8], fs: u32, decay: u32, want: i64) -> Sent
    requires valid { IsLaplace fs decay }
    requires wide { 2 ^ 23 < sender.width }
    requires counted { 8 * sender.sent + sender.raw < 2 ^ 18 }
    requires room { length room.old ≤ 1275 }
    ensures sends { SendsAnswer room.old sender (Laplace fs decay) result.answer room.new result.sender }
    ensures nearest { IsNearest (Laplace fs decay) want result.answer }
    ensures small { unsigned_abs result.answer < 2 ^ 32 }
    ensures wide { 2 ^ 23 < result.sender.width }
    ensures counted { 8 * result.sender.sent + result.sender.raw ≤ 8 * sender.sent + sender.raw + 40 }
    ensures len { length room.new ≡ length room.old }
{
    let choice = laplace_choice(want, fs, decay);
    let shares = Shares::binary(sender.width, 15);
    send_choice(sender, room, choice, shares)
}

/// A number of a step.
fn send_step(sender: Sender, room: &mut [u8], most: u32, want: i64) -> Sent
    requires valid { IsEven most }
    requires wide { 2 ^ 23 < sender.width }
    requires counted { 8 * sender.sent + sender.raw < 2 ^ 18 }
    requires room { length room.old ≤ 1275 }
    ensures sends { SendsAnswer room.old sender (Step most) result.answer room.new result.sender }
    ensures nearest { IsNearest (Step most) want result.answer }
    ensures small { unsigned_abs result.answer < 2 ^ 32 }
    ensures wide { 2 ^ 23 < result.sender.width }
    ensures counted { 8 * result.sender.sent + result.sender.raw ≤ 8 * sender.sent + sender.raw + 40 }
    ensures len { length room.new ≡ length room.old }
{
    let choice = step_choice(want, most);
    let shares = Shares::of(sender.width, choice.total);
    send_choice(sender, room, choice, shares)
}

/// A number of a triangle.
fn send_triangle(sender: Sender, room: &mut [u8], most: u32, want: i64) -> Sent
    requires valid { IsEven most }
    requires wide { 2 ^ 23 < sender.width }
    requires counted { 8 * sender.sent + sender.raw < 2 ^ 18 }
    requires room { length room.old ≤ 1275 }
    ensures sends { SendsAnswer room.old sender (Triangle most) result.answer room.new result.sender }
    ensures nearest { IsNearest (Triangle most) want result.answer }
    ensures small { unsigned_abs result.answer < 2 ^ 32 }
    ensures wide { 2 ^ 23 < result.sender.width }
    ensures counted { 8 * result.sender.sent + result.sender.raw ≤ 8 * sender.sent + sender.raw + 40 }
    ensures len { length room.new ≡ length room.old }
{
    let choice = triangle_choice(want, most);
    let shares = Shares::of(sender.width, choice.total);
    send_choice(sender, room, choice, shares)
}

/// Bits at the end of the room.
fn send_raw(sender: Sender, room: &mut [u8], count: u32, want: i64) -> Sent
    requires valid { IsValid (Raw count) }
    requires wide { 2 ^ 23 < sender.width }
    requires counted { 8 * sender.sent + sender.raw < 2 ^ 18 }
    requires room { length room.old ≤ 1275 }
    ensures sends { SendsAnswer room.old sender (Raw count) result.answer room.new result.sender }
    ensures nearest { IsNearest (Raw count) want result.answer }
    ensures small { unsigned_abs result.answer < 2 ^ 32 }
    ensures wide { 2 ^ 23 < result.sender.width }
    ensures counted { 8 * result.sender.sent + result.sender.raw ≤ 8 * sender.sent + sender.raw + 40 }
    ensures len { length room.new ≡ length room.old }
{
    let bits = raw_choice(want, count);
    number_sent(bits, sender.send_bits(room, count, bits))
}

/// The answer of a question that is nearest to the wanted one, and the state after it was sent.
pub fn send_answer(sender: Sender, room: &mut [u8], question: Question, want: i64) -> Sent
    requires valid { IsValid question }
    requires wide { 2 ^ 23 < sender.width }
    requires counted { 8 * sender.sent + sender.raw < 2 ^ 18 }
    requires room { length room.old ≤ 1275 }
    ensures sends { SendsAnswer room.old sender question result.answer room.new result.sender }
    ensures nearest { IsNearest question want result.answer }
    ensures small { unsigned_abs result.answer < 2 ^ 32 }
    ensures wide { 2 ^ 23 < result.sender.width }
    ensures counted { 8 * result.sender.sent + result.sender.raw ≤ 8 * sender.sent + sender.raw + 40 }
    ensures len { length room.new ≡ length room.old }
{
    match question {
        Question::Bit(p) => send_bit(sender, room, p, want),
        Question::Table(table) => send_table(sender, room, table, want),
        Question::Uniform(limit) => send_uniform(sender, room, limit, want),
        Question::Laplace { fs, decay } => send_laplace(sender, room, fs, decay, want),
        Question::Step(most) => send_step(sender, room, most, want),
        Question::Triangle(most) => send_triangle(sender, room, most, want),
        Question::Raw(count) => send_raw(sender, room, count, want),
    }
}
