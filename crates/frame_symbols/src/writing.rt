//! Writing a frame (RFC 6716, sections 4.3 and 5.1).
ghost use Rattle.std.specs.Prelude.{◌≡◌, ℕ, ◌*◌, ◌≤◌, length};
ghost use Rattle.frame_symbols.specs.HeldSymbols.{answers_in, AreOf};
ghost use Rattle.frame_symbols.specs.Readings.{IsReading, Writing};
ghost use Rattle.range_coder.specs.Writers.{IsFinished};
ghost use Rattle.range_coder.specs.declared.sender.Finish.TheVariants.{Whole};

use crate::recorder::walk_recorded;
use crate::symbols::Symbols;
use celt_base::coder::{Chooser, Coder};
use celt_base::kind::Kind;
use range_coder::{Finish, Writer};

/// Writes a frame into a room of 2 to 1275 bytes: asks its questions, each answered by what is nearest to what the chooser
/// wants. The room is then the code of the answers, and reads back as just these; or the answers tell more bits than the
/// room has, and the room is 0. The symbols hold the list that was asked in both cases.
pub fn write_frame<H: Chooser>(
    kind: Kind,
    chooser: &mut H,
    room: &mut [u8],
    out: &mut Symbols,
) -> Finish
    requires least { 2 ≤ length room.old }
    requires most { length room.old ≤ 1275 }
    ensures len { length room.new ≡ length room.old }
    ensures walked { Writing H.calls kind (length room.old) out.new.list.items out.new.fields chooser.old chooser.new }
    ensures finished { IsFinished room.new (answers_in out.new) result }
    ensures are { AreOf kind (length room.old) out.new }
    ensures read { (range : ℕ) → result ≡ Whole range → IsReading kind room.new (answers_in out.new) }
{
    let len = room.len() as u32;
    let mut writer = Writer::new(room);
    walk_recorded(
        &mut writer,
        chooser,
        kind,
        len,
        &mut out.list,
        &mut out.fields,
    );
    out.range = writer.range();
    out.tell = writer.tell();
    out.kind = Some(kind);
    writer.finish()
}
