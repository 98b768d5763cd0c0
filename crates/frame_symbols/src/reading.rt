//! Reading a frame (RFC 6716, section 4.3).
ghost use Rattle.std.specs.Prelude.{◌≡◌, ◌*◌, ◌≤◌, length};
ghost use Rattle.frame_symbols.specs.HeldSymbols.{AreRead};

use crate::recorder::walk_recorded;
use crate::symbols::Symbols;
use celt_base::coder::{Coder, Mute};
use celt_base::kind::Kind;
use range_coder::Reader;

/// Reads a frame of 2 to 1275 bytes. Bits past its end are 0, so every frame has a reading.
pub fn read_frame(bytes: &[u8], kind: Kind, out: &mut Symbols)
    requires least { 2 ≤ length bytes.now }
    requires most { length bytes.now ≤ 1275 }
    ensures { AreRead kind bytes.now out.new }
{
    let mut reader = Reader::new(bytes);
    walk_recorded(
        &mut reader,
        &mut Mute,
        kind,
        bytes.len() as u32,
        &mut out.list,
        &mut out.fields,
    );
    out.range = reader.range();
    out.tell = reader.tell();
    out.kind = Some(kind);
}
