//! A reader answers the questions of a frame from its bytes (RFC 6716, section 4.1).
ghost use Rattle.std.specs.Prelude.{◌≡◌, ℕ, ◌+◌, ◌*◌, ◌^◌, ◌<◌, ◌≤◌, List, [], length};
ghost use Rattle.celt_base.specs.Questions.{Answered, IsValid, IsAnswer};
ghost use Rattle.celt_base.specs.Paces.{paced, tell_of, tell_frac_of};

use crate::answers::read_answer;
use crate::logarithm::{bit_length, eighths_from};
use crate::window::Window;
use celt_base::coder::Coder;
use celt_base::question::Question;

/// The reader of one frame. A question narrows its interval to the part that holds the frame's number.
#[derive(Debug, Drop)]
pub struct Reader<'a> {
    /// The bytes of the frame.
    frame: &'a [u8],
    /// Where the frame's number stands in the interval, and the pace.
    window: Window,
    /// How many questions were asked.
    asked: u32,
    ghost wide: { 2 ^ 23 < window.width },
    ghost few: { asked ≤ 4096 },
    ghost paced: { window.bits ≤ 33 + 40 * asked },
}

impl<'a> Reader<'a> {
    ghost use Rattle.range_coder.specs.Readers.{StandsFor, reader_pace, reader_count};

    /// A reader at the start of a frame of at most 1275 bytes. Bits past its end are 0.
    pub fn new(frame: &'a [u8]) -> Reader<'a>
        requires { length frame.now ≤ 1275 }
        ensures stands { StandsFor frame.now result [] }
        ensures only { (bytes : List ℕ) (list : List Answered) → StandsFor bytes result list
            → (bytes ≡ frame.now) × (list ≡ []) }
        ensures count { reader_count result ≡ 0 }
    {
        Reader {
            frame,
            window: Window::new(frame),
            asked: 0,
        }
    }

    /// The width of the interval, above 2^23 and at most 2^31, which an encoder and its decoder share.
    pub fn range(&self) -> u32
        ensures value { result ≡ (reader_pace self.now).width }
        ensures least { 2 ^ 23 < result }
        ensures most { result ≤ 2 ^ 31 }
    {
        self.window.width
    }
}

impl<'a> Coder for Reader<'a> {
    ghost use Rattle.range_coder.specs.Readers.{Reads, reader_pace, reader_count, reader_calls};

    ghost calls = { reader_calls };

    /// The answer of a question: the one whose part holds the frame's number; raw bits come from the end of the frame and
    /// are 0 past its front. What is wanted is passed over. A reader may be asked 4096 questions.
    fn ask(&mut self, question: Question, _want: i64) -> i64
        requires valid { IsValid question }
        requires few { reader_count self.old < 4096 }
        ensures asks { Reads self.old question result self.new }
        ensures is_answer { IsAnswer question result }
        ensures pace { reader_pace self.new ≡ paced question result (reader_pace self.old) }
        ensures count { reader_count self.new ≡ reader_count self.old + 1 }
    {
        let (answer, after) = read_answer(self.window, self.frame, question);
        self.window = after;
        self.asked += 1;
        answer
    }

    /// How many bits were used so far, rounded up (RFC 6716, section 4.1.6.1).
    fn tell(&self) -> u32
        ensures value { result ≡ tell_of (reader_pace self.now) }
        ensures least { 1 ≤ result }
        ensures most { result ≤ 9 + 40 * reader_count self.now }
    {
        self.window.bits - bit_length(self.window.width)
    }

    /// How many eighths of a bit were used so far, rounded up (RFC 6716, section 4.1.6.2).
    fn tell_frac(&self) -> u32
        ensures value { result ≡ tell_frac_of (reader_pace self.now) }
        ensures most { result ≤ 8 * (9 + 40 * reader_count self.now) }
    {
        let length = bit_length(self.window.width);
        8 * self.window.bits - eighths_from(length, self.window.width >> (length - 16))
    }

    ghost ranges = { λ r. record { wide = r.wide; narrow = r.window.narrow; begun = r.window.begun; most = r.paced } };
}
