//! A writer codes the answers of a frame's questions into a room (RFC 6716, section 5.1).
ghost use Rattle.std.specs.Prelude.{◌≡◌, ℕ, ◌+◌, ◌*◌, ◌^◌, ◌<◌, ◌≤◌, List, [], length};
ghost use Rattle.celt_base.specs.Questions.{Answered, IsValid, IsAnswer};
ghost use Rattle.celt_base.specs.Paces.{paced, tell_of, tell_frac_of};

use crate::logarithm::{bit_length, eighths_from};
use crate::sender::{Finish, Sender};
use crate::sending::send_answer;
use celt_base::coder::Coder;
use celt_base::question::Question;

/// The writer of one frame, over the room that it was lent. A question narrows its interval to the part of the answer that
/// is nearest to the wanted one.
#[derive(Debug, Drop)]
pub struct Writer<'a> {
    /// The bytes that were sent, and the raw bits at the end.
    room: &'a mut [u8],
    /// The interval behind the bytes that were sent, and the pace.
    sender: Sender,
    /// How many questions were asked.
    asked: u32,
    ghost wide: { 2 ^ 23 < sender.width },
    ghost few: { asked ≤ 4096 },
    ghost begun: { 33 ≤ 33 + 8 * sender.sent + sender.raw },
    ghost paced: { 33 + 8 * sender.sent + sender.raw ≤ 33 + 40 * asked },
    ghost lent: { length room.now ≤ 1275 },
}

impl<'a> Writer<'a> {
    ghost use Rattle.range_coder.specs.Writers.{HasCoded, IsFinished, writer_pace, writer_count};

    /// A writer over a room of 2 to 1275 bytes, which are set to 0.
    pub fn new(room: &'a mut [u8]) -> Writer<'a>
        requires least { 2 ≤ length room.old }
        requires most { length room.old ≤ 1275 }
        ensures coded { HasCoded result [] }
        ensures only { (list : List Answered) → HasCoded result list → list ≡ [] }
        ensures count { writer_count result ≡ 0 }
        ensures same { result.room.ghost_name ≡ room.entry.ghost_name }
        ensures len { length result.room.now ≡ length room.old }
    {
        room.fill(0);
        Writer {
            room,
            sender: Sender::new(),
            asked: 0,
        }
    }

    /// The width of the interval, above 2^23 and at most 2^31, which an encoder and its decoder share.
    pub fn range(&self) -> u32
        ensures value { result ≡ (writer_pace self.now).width }
        ensures least { 2 ^ 23 < result }
        ensures most { result ≤ 2 ^ 31 }
    {
        self.sender.width
    }

    /// Ends the code. The room is then the code of the questions with their answers, or zero where they tell more bits
    /// than it has (RFC 6716, section 5.1.5).
    pub fn finish(self) -> Finish
        ensures finished { (list : List Answered) → HasCoded self.entry list
            → IsFinished self.exit.0.now list result }
        ensures len { length self.exit.0.now ≡ length self.entry.room.now }
    {
        let Writer { room, sender, .. } = self;
        sender.finish(room)
    }
}

impl<'a> Coder for Writer<'a> {
    ghost use Rattle.range_coder.specs.Writers.{Writes, writer_pace, writer_count, writer_calls};

    ghost calls = { writer_calls };

    /// The answer of a question that is nearest to the wanted one. A writer may be asked 4096 questions.
    fn ask(&mut self, question: Question, want: i64) -> i64
        requires valid { IsValid question }
        requires few { writer_count self.old < 4096 }
        ensures asks { Writes self.old question want result self.new }
        ensures is_answer { IsAnswer question result }
        ensures pace { writer_pace self.new ≡ paced question result (writer_pace self.old) }
        ensures count { writer_count self.new ≡ writer_count self.old + 1 }
    {
        let sent = send_answer(self.sender, self.room, question, want);
        self.sender = sent.sender;
        self.asked += 1;
        sent.answer
    }

    /// How many bits were used so far, rounded up (RFC 6716, section 4.1.6.1).
    fn tell(&self) -> u32
        ensures value { result ≡ tell_of (writer_pace self.now) }
        ensures least { 1 ≤ result }
        ensures most { result ≤ 9 + 40 * writer_count self.now }
    {
        self.sender.tell()
    }

    /// How many eighths of a bit were used so far, rounded up (RFC 6716, section 4.1.6.2).
    fn tell_frac(&self) -> u32
        ensures value { result ≡ tell_frac_of (writer_pace self.now) }
        ensures most { result ≤ 8 * (9 + 40 * writer_count self.now) }
    {
        let length = bit_length(self.sender.width);
        8 * self.sender.bits() - eighths_from(length, self.sender.width >> (length - 16))
    }

    ghost ranges = { λ w. record { wide = w.wide; narrow = w.sender.narrow; begun = w.begun; most = w.paced } };
}
