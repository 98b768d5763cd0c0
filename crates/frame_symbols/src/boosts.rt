//! The boosts of the bands (RFC 6716, section 4.3.3).
ghost use Rattle.std.specs.Prelude.{◌≡◌, ◌+◌, ◌-◌, ◌*◌, ◌^◌, ◌<◌, ◌≤◌, pos, true, max, nat_eq, if◌then◌else◌};
ghost use Rattle.celt_base.specs.Walks.{Walked};
ghost use Rattle.celt_tables.specs.Tables.{cap_of};
ghost use Rattle.celt_tables.specs.Tables.{coefficients_of};
ghost use Rattle.frame_symbols.specs.Boosts.{weight_of, may_boost, turn_script, turns_script, boosts_script, trim_script, taken_below, boosted_below};
ghost use Rattle.bit_allocation.specs.Requests.{quantum_of, AreBoosts};
ghost use Rattle.frame_symbols.specs.BoostFacts.{IsBand};

use crate::asking::{Budgeted, ask_number_within_eighths};
use celt_base::coder::{Chooser, Coder, Place};
use celt_base::kind::Kind;
use celt_base::question::{Question, TableId};
use celt_base::walk::ask_bit;
use celt_tables::{cap, coefficients};

/// A band before its boosts.
#[derive(Clone, Copy)]
pub struct Band {
    pub band: u8,
    /// What a boost adds, in eighths of a bit.
    pub quantum: u32,
    /// Where boosts end.
    pub cap: u32,
    /// The first boost has the probability 2^-first.
    pub first: u32,
    /// What the boosts of the bands below took.
    pub taken: u32,
    /// The frame's size, in eighths of a bit.
    pub eighths: u32,
}

fn quantum_of(coefficients: u32) -> u32
    requires some { 1 ≤ coefficients }
    requires most { coefficients ≤ 352 }
    ensures value { result ≡ quantum_of coefficients }
    ensures some { 8 ≤ result }
    ensures most { result ≤ 352 }
{
    (8 * coefficients).min(coefficients.max(48))
}

#[tactic(auto, unfolding(crate::specs::Boosts::weight_of))]
fn weight_of(band: Band, turn: u32) -> u32
    requires { IsBand band }
    ensures value { result ≡ weight_of band turn }
    ensures least { 1 ≤ result }
    ensures most { result ≤ 6 }
{
    if turn == 0 { band.first } else { 1 }
}

#[tactic(auto, unfolding(crate::specs::Boosts::may_boost))]
fn may_boost(band: Band, turn: u32, tell: u32) -> bool
    requires band { IsBand band }
    requires turn { turn ≤ 75 }
    requires tell { tell ≤ 2 ^ 21 }
    ensures { result ≡ may_boost band turn tell }
{
    tell + 8 * weight_of(band, turn) + (band.taken + turn * band.quantum) < band.eighths
        && turn * band.quantum < band.cap
}

// Asks for one more boost of a band.
fn ask_turn<C: Coder, H: Chooser>(coder: &mut C, chooser: &mut H, band: Band, turn: u32) -> bool
    requires band { IsBand band }
    requires turn { turn ≤ 75 }
    requires few { C.calls.count coder.old < 4096 }
    ensures walked { Walked C.calls H.calls (turn_script band turn) result coder.old chooser.old coder.new chooser.new }
    ensures below { result ≡ true → turn * band.quantum < band.cap }
    ensures count { C.calls.count coder.new ≤ C.calls.count coder.old + 1 }
{
    if !may_boost(band, turn, coder.tell_frac()) {
        return false;
    }
    let at = Place::Boost {
        band: band.band,
        turn,
    };
    ask_bit(coder, chooser, at, weight_of(band, turn))
}

// Asks for the boosts of a band, and gives how many they are.
fn ask_turns<C: Coder, H: Chooser>(coder: &mut C, chooser: &mut H, band: Band) -> u32
    requires band { IsBand band }
    requires few { C.calls.count coder.old + 76 ≤ 4096 }
    ensures walked { Walked C.calls H.calls (turns_script band 76 0) result coder.old chooser.old coder.new chooser.new }
    ensures most { result ≤ 76 }
    ensures below { result * band.quantum < band.cap + band.quantum }
    ensures count { C.calls.count coder.new ≤ C.calls.count coder.old + 76 }
{
    for turn in 0..76u32 {
        if !ask_turn(coder, chooser, band, turn) {
            return turn;
        }
    }
    76
}

/// What the boosts of a frame came to, in eighths of a bit.
#[derive(Clone, Copy)]
pub struct Boosts {
    pub boosts: [i32; 21],
    /// Their sum.
    pub taken: u32,
}

/// Asks for the boosts of a frame of so many eighths of a bit.
pub fn ask_boosts<C: Coder, H: Chooser>(
    coder: &mut C,
    chooser: &mut H,
    kind: Kind,
    eighths: u32,
) -> Boosts
    requires few { C.calls.count coder.old + 1596 ≤ 4096 }
    ensures walked { Walked C.calls H.calls (boosts_script kind eighths) result.boosts coder.old chooser.old coder.new chooser.new }
    ensures taken { result.taken ≡ taken_below result.boosts 21 }
    ensures most { result.taken ≤ 600000 }
    ensures are { AreBoosts kind result.boosts }
    ensures count { C.calls.count coder.new ≤ C.calls.count coder.old + 1596 }
{
    let mut boosts = [0; 21];
    let mut taken = 0;
    let mut first = 6;
    for index in 0..kind.end {
        let place = u32::from(index);
        let quantum = quantum_of(coefficients(kind, place));
        let band = Band {
            band: index,
            quantum,
            cap: cap(kind, place) as u32,
            first,
            taken,
            eighths,
        };
        let turns = ask_turns(coder, chooser, band);
        let boost = turns * quantum;
        boosts[index as usize] = boost as i32;
        taken += boost;
        let next = next_first(first, boost);
        first = next;
    }
    Boosts { boosts, taken }
}

// The weight of the first boost of the next band.
fn next_first(first: u32, boost: u32) -> u32
    requires { 2 ≤ first }
    ensures { result ≡ (if nat_eq boost 0 then first else max 2 (first - 1)) }
{
    if boost == 0 {
        first
    } else {
        (first - 1).max(2)
    }
}

/// Asks for the trim, behind boosts that took so much.
pub fn ask_trim<C: Coder, H: Chooser>(
    coder: &mut C,
    chooser: &mut H,
    boosts: &Boosts,
    eighths: u32,
) -> u32
    requires taken { boosts.now.taken ≡ taken_below boosts.now.boosts 21 }
    requires most { boosts.now.taken ≤ 600000 }
    requires few { C.calls.count coder.old < 4096 }
    ensures walked { Walked C.calls H.calls (trim_script eighths boosts.now.boosts) result coder.old chooser.old coder.new chooser.new }
    ensures most { result ≤ 10 }
    ensures count { C.calls.count coder.new ≤ C.calls.count coder.old + 1 }
{
    let number = Budgeted {
        question: Question::Table(TableId::Trim),
        cost: 48 + boosts.taken,
        budget: eighths,
        other: 5,
    };
    ask_number_within_eighths(coder, chooser, Place::Trim, number)
}
