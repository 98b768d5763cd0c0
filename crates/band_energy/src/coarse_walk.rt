//! The questions of the coarse energies (RFC 6716, section 4.3.2.1): band by band, the channels inside.
ghost use Rattle.std.specs.Prelude.{◌≡◌, ◌+◌, ◌-◌, ◌^◌, ◌<◌, ◌≤◌, IfSome, unsigned_abs, pos};
ghost use Rattle.celt_base.specs.Questions.{IsValid};
ghost use Rattle.celt_base.specs.WalkTables.{WalkedTable};
ghost use Rattle.celt_base.specs.Walks.{Walked};
ghost use Rattle.band_energy.specs.EnergyRows.{WalkedRows, AreCoarse};
ghost use Rattle.band_energy.specs.EnergyScripts.{question_for, coarse_at, coarse_script};

use crate::energy::Energy;
use celt_base::coder::{Chooser, Coder, Place};
use celt_base::kind::Kind;
use celt_base::question::{Question, TableId};
use celt_base::walk::ask_value_at;
use celt_tables::coarse_question;

/// What all questions of a frame's coarse energies go by.
#[derive(Clone, Copy)]
struct Terms {
    kind: Kind,
    intra: bool,
    /// The bits of the frame.
    budget: u32,
}

// The question of the coarse energy of a band where so many bits are left.
#[tactic(auto, unfolding(crate::specs::EnergyScripts::question_for))]
fn question_for(terms: Terms, band: u8, left: u32) -> Option<Question>
    requires { band < 21 }
    ensures value { result ≡ question_for terms.kind.lm terms.intra band left }
    ensures valid { IfSome result IsValid }
{
    if left >= 15 {
        Some(coarse_question(terms.kind.lm, terms.intra, u32::from(band)))
    } else if left >= 2 {
        Some(Question::Table(TableId::Small))
    } else if left >= 1 {
        Some(Question::Bit(1))
    } else {
        None
    }
}

// Asks for one coarse energy, and gives its value.
fn ask_energy<C: Coder, H: Chooser>(
    coder: &mut C,
    chooser: &mut H,
    terms: Terms,
    band: u8,
    channel: u8,
) -> i32
    requires band { band < 21 }
    requires few { C.calls.count coder.old < 4096 }
    ensures walked { Walked C.calls H.calls (coarse_at terms.kind.lm terms.intra terms.budget band channel) result
        coder.old chooser.old coder.new chooser.new }
    ensures size { unsigned_abs result ≤ 2 ^ 14 }
    ensures count { C.calls.count coder.new ≤ C.calls.count coder.old + 1 }
{
    let left = terms.budget.saturating_sub(coder.tell());
    match question_for(terms, band, left) {
        Some(question) => {
            ask_value_at(coder, chooser, Place::Coarse { band, channel }, question) as i32
        }
        None => -1,
    }
}

// Asks for all coarse energies.
fn ask_energies<C: Coder, H: Chooser>(
    coder: &mut C,
    chooser: &mut H,
    terms: Terms,
) -> [[i32; 21]; 2]
    requires few { C.calls.count coder.old + 42 ≤ 4096 }
    ensures walked { WalkedTable C.calls H.calls (coarse_at terms.kind.lm terms.intra terms.budget) terms.kind.channels
        terms.kind.end (pos 0) result coder.old chooser.old coder.new chooser.new }
    ensures sizes { AreCoarse result }
    ensures count { C.calls.count coder.new ≤ C.calls.count coder.old + 42 }
{
    let mut values = [[0; 21]; 2];
    for band in 0..terms.kind.end {
        for channel in 0..terms.kind.channels {
            values[channel as usize][band as usize] = ask_energy(
                coder, chooser, terms, band, channel,
            );
        }
    }
    values
}

/// Asks for the coarse energies of a frame of `budget` bits and writes their values to `out.coarse`: for each band below
/// the kind's end and each of its channels the value of the answer, -1 where nothing is asked, and 0 elsewhere. With
/// `intra` the energies are coded without the frame before. At most 42 questions are asked.
pub fn coarse<C: Coder, H: Chooser>(
    coder: &mut C,
    chooser: &mut H,
    kind: Kind,
    intra: bool,
    budget: u32,
    out: &mut Energy,
)
    requires few { C.calls.count coder.old + 42 ≤ 4096 }
    ensures walked { WalkedRows C.calls H.calls (coarse_script kind intra budget) kind (pos 0) out.new.coarse
        coder.old chooser.old coder.new chooser.new }
    ensures sizes { AreCoarse out.new.coarse }
    ensures fine { out.new.fine ≡ out.old.fine }
    ensures last { out.new.last ≡ out.old.last }
    ensures count { C.calls.count coder.new ≤ C.calls.count coder.old + 42 }
{
    let terms = Terms {
        kind,
        intra,
        budget,
    };
    out.coarse = ask_energies(coder, chooser, terms);
}
