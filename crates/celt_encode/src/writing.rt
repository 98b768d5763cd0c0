//! Writing a frame by its choice, or as a silent one.
ghost use Rattle.std.specs.Prelude.{◌≡◌, ◌≤◌, length};
ghost use Rattle.frame_symbols.specs.HeldSymbols.{answers_in, AreOf};
ghost use Rattle.frame_symbols.specs.Readings.{IsReading};
ghost use Rattle.celt_encode.specs.Codes.{code_of};
ghost use Rattle.celt_encode.specs.Frames.{fell_of, frame_of, kept_of, silence_list};
ghost use Rattle.celt_encode.specs.Outsets.{outset_of};

use crate::choice::{Choice, Hush};
use crate::frame::Frame;
use crate::rooms::Vectors;
use celt_base::kind::Kind;
use fixed_math::Trig;
use frame_symbols::{Symbols, write_frame};
use range_coder::Finish;

// Writes the silent frame.
fn write_silence(kind: Kind, room: &mut [u8], out: &mut Symbols)
    requires least { 2 ≤ length room.old }
    requires most { length room.old ≤ 1275 }
    ensures len { length room.new ≡ length room.old }
    ensures bytes { room.new ≡ code_of silence_list (length room.old) }
    ensures kept { answers_in out.new ≡ silence_list }
    ensures are { AreOf kind (length room.old) out.new }
    ensures read { IsReading kind room.new (answers_in out.new) }
{
    let mut hush = Hush;
    write_frame(kind, &mut hush, room, out);
}

/// Writes the encoded frame into a room of its length, and puts the answers that are kept into the symbols. The answer is the
/// number of bits that the choice tells, where the room has fewer; the frame is the silent one then.
pub fn write(
    frame: &Frame,
    trig: &Trig,
    vectors: &mut Vectors,
    room: &mut [u8],
    out: &mut Symbols,
) -> Option<u32>
    requires least { 2 ≤ length room.old }
    requires most { length room.old ≤ 1275 }
    requires len { frame.now.len ≡ length room.old }
    ensures fell { result ≡ fell_of (outset_of frame.now) }
    ensures len { length room.new ≡ length room.old }
    ensures bytes { room.new ≡ frame_of (outset_of frame.now) }
    ensures kept { answers_in out.new ≡ kept_of (outset_of frame.now) }
    ensures are { AreOf frame.now.kind (length room.old) out.new }
    ensures read { IsReading frame.now.kind room.new (answers_in out.new) }
{
    let mut choice = Choice::new(frame, trig, &mut vectors.first, &mut vectors.second);
    match write_frame(frame.kind, &mut choice, room, out) {
        Finish::Whole { .. } => None,
        Finish::Overrun { tell } => {
            write_silence(frame.kind, room, out);
            Some(tell)
        }
    }
}
