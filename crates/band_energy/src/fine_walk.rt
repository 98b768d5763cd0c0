//! The questions of the fine energies (RFC 6716, section 4.3.2.2): band by band, the channels inside.
ghost use Rattle.std.specs.Prelude.{◌≡◌, ◌+◌, ◌^◌, ◌<◌, ◌≤◌, ℕ, slice_index, slice_index_or};
ghost use Rattle.celt_base.specs.WalkTables.{WalkedTable};
ghost use Rattle.celt_base.specs.Walks.{Walked};
ghost use Rattle.band_energy.specs.EnergyRows.{WalkedRows, HasFineBits, FitsFineBits};
ghost use Rattle.band_energy.specs.EnergyScripts.{bits_script, fine_at, fine_script};

use crate::energy::Energy;
use celt_base::coder::{Chooser, Coder, Place};
use celt_base::kind::Kind;
use celt_base::question::Question;
use celt_base::state::Allocation;
use celt_base::walk::ask_at;

// Asks for a fine energy of so many bits, and gives it.
fn ask_bits<C: Coder, H: Chooser>(
    coder: &mut C,
    chooser: &mut H,
    band: u8,
    channel: u8,
    bits: u32,
) -> u32
    requires bits { bits ≤ 8 }
    requires few { C.calls.count coder.old < 4096 }
    ensures walked { Walked C.calls H.calls (bits_script band channel bits) result coder.old chooser.old coder.new chooser.new }
    ensures size { result < 2 ^ bits }
    ensures count { C.calls.count coder.new ≤ C.calls.count coder.old + 1 }
{
    if bits == 0 {
        return 0;
    }
    let at = Place::Fine {
        band,
        channel,
        bits,
    };
    ask_at(coder, chooser, at, Question::Raw(bits)) as u32
}

// Asks for all fine energies.
fn ask_fine<C: Coder, H: Chooser>(
    coder: &mut C,
    chooser: &mut H,
    kind: Kind,
    bits: &[u32; 21],
) -> [[u32; 21]; 2]
    requires bits { HasFineBits kind bits.now }
    requires few { C.calls.count coder.old + 42 ≤ 4096 }
    ensures walked { WalkedTable C.calls H.calls (fine_at bits.now) kind.channels kind.end 0 result
        coder.old chooser.old coder.new chooser.new }
    ensures sizes { FitsFineBits bits.now result }
    ensures count { C.calls.count coder.new ≤ C.calls.count coder.old + 42 }
{
    let mut values = [[0; 21]; 2];
    for band in 0..kind.end {
        let count = bits[band as usize];
        for channel in 0..kind.channels {
            values[channel as usize][band as usize] = ask_bits(
                coder, chooser, band, channel, count,
            );
        }
    }
    values
}

/// Asks for the fine energies of a frame and writes them to `out.fine`: for each band below the kind's end and each of its
/// channels the answer of as many raw bits as the allocation gives the band, 0 where it gives none, and 0 elsewhere. At
/// most 42 questions are asked.
pub fn fine<C: Coder, H: Chooser>(
    coder: &mut C,
    chooser: &mut H,
    kind: Kind,
    a: &Allocation,
    out: &mut Energy,
)
    requires bits { HasFineBits kind a.now.fine }
    requires few { C.calls.count coder.old + 42 ≤ 4096 }
    ensures walked { WalkedRows C.calls H.calls (fine_script kind a.now) kind 0 out.new.fine
        coder.old chooser.old coder.new chooser.new }
    ensures sizes { FitsFineBits a.now.fine out.new.fine }
    ensures coarse { out.new.coarse ≡ out.old.coarse }
    ensures last { out.new.last ≡ out.old.last }
    ensures count { C.calls.count coder.new ≤ C.calls.count coder.old + 42 }
{
    out.fine = ask_fine(coder, chooser, kind, &a.fine);
}
