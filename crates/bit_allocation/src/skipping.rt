//! Which of the upper bands are skipped, from the top down (RFC 6716, section 4.3.3).
ghost use Rattle.std.specs.Prelude.{◌≡◌, ◌+◌, ◌-◌, ◌*◌, ◌<◌, ◌≤◌, slice_index};
ghost use Rattle.bit_allocation.specs.Counts.{sum_below};
ghost use Rattle.bit_allocation.specs.Facts.{IsPlan, IsTurn, IsSkipped};
ghost use Rattle.bit_allocation.specs.Scripts.{intensity_now, turn_script, skip_script};
ghost use Rattle.bit_allocation.specs.Shares.{even_of, beyond_of};
ghost use Rattle.celt_base.specs.Walks.{Walked};
ghost use Rattle.celt_tables.specs.Tables.{width_of};

use crate::amounts::each;
use crate::bands::Bands;
use crate::counting::few;
use crate::plan::Plan;
use crate::planning::{Planned, intensity_bits};
use crate::turns::{Skipped, Turn};
use celt_base::coder::{Chooser, Coder, Place};
use celt_base::walk::ask_bit;
use celt_tables::{edge, width};

// What is laid aside for the choice of one of so many coded bands.
fn intensity_now(plan: &Plan, coded: u32) -> u32
    requires { coded ≤ 21 }
    ensures value { result ≡ intensity_now plan.now coded }
    ensures most { result ≤ 37 }
{
    if plan.reserves.intensity == 0 {
        0
    } else {
        intensity_bits(coded)
    }
}

// What is left where all bands have so many bits.
fn left(plan: &Plan, coded: u32, used: u32) -> u32
    requires coded { coded ≤ 21 }
    requires fits { used + intensity_now plan.now coded ≤ plan.now.reserves.rest + plan.now.reserves.intensity }
    requires whole { plan.now.reserves.rest + plan.now.reserves.intensity ≤ 81600 }
    ensures { result ≡ (plan.now.reserves.rest + plan.now.reserves.intensity) - (used + intensity_now plan.now coded) }
{
    plan.reserves.rest + plan.reserves.intensity - (used + intensity_now(plan, coded))
}

// What the highest coded band would have.
fn offer(bits: u32, left: u32, band: u32) -> u32
    requires band { band ≤ 20 }
    requires most { bits + left ≤ 81600 }
    ensures value { result ≡ bits + even_of left (band + 1) * width_of band + beyond_of left (band + 1) band }
    ensures within { result ≤ bits + left }
{
    let all = edge(band + 1);
    let even = left / all;
    bits + even * width(band) + (left - even * all).saturating_sub(edge(band))
}

// What becomes of the highest coded band, which would have this offer.
fn turn<C: Coder, H: Chooser>(
    coder: &mut C,
    chooser: &mut H,
    bands: &Bands,
    band: u32,
    offer: u32,
) -> Turn
    requires band { band < bands.now.request.kind.end }
    requires offer { offer ≤ 81600 }
    requires few { C.calls.count coder.old < 4096 }
    ensures walked { Walked C.calls H.calls (turn_script bands.now.request.kind band offer) result
        coder.old chooser.old coder.new chooser.new }
    ensures is { IsTurn offer result }
    ensures count { C.calls.count coder.new ≤ C.calls.count coder.old + 1 }
{
    let kind = bands.request.kind;
    let enough = bands.thresholds[band as usize].max(each(kind) + 8);
    if offer < enough {
        return Turn::Goes {
            asked: 0,
            share: few(kind, offer),
        };
    }
    let at = Place::Skip {
        band: band as u8,
        bits: offer as i32,
    };
    if ask_bit(coder, chooser, at, 1) {
        return Turn::Stays;
    }
    Turn::Goes {
        asked: 1,
        share: few(kind, offer - 8),
    }
}

/// Asks which of the upper bands are skipped, from the top down. At most 20 questions are asked.
pub fn skip<C: Coder, H: Chooser>(
    coder: &mut C,
    chooser: &mut H,
    bands: &Bands,
    planned: &Planned,
) -> Skipped
    requires plan { IsPlan planned.now.plan }
    requires same { planned.now.plan.kind ≡ bands.now.request.kind }
    requires sum { planned.now.sum ≡ sum_below (slice_index planned.now.plan.bits) planned.now.plan.kind.end }
    requires few { C.calls.count coder.old + 20 ≤ 4096 }
    ensures walked { Walked C.calls H.calls (skip_script planned.now.plan planned.now.plan.kind.end 0 planned.now.plan.bits) result
        coder.old chooser.old coder.new chooser.new }
    ensures is { IsSkipped planned.now.plan result }
    ensures count { C.calls.count coder.new ≤ C.calls.count coder.old + 20 }
{
    let plan = planned.plan;
    let mut bits = plan.bits;
    let mut used = planned.sum;
    let mut coded = u32::from(plan.kind.end);
    while coded > plan.start + 1 {
        let band = coded - 1;
        let left = left(&plan, coded, used);
        let offer = offer(bits[band as usize], left, band);
        match turn(coder, chooser, bands, band, offer) {
            Turn::Stays => return Skipped { coded, left, bits },
            Turn::Goes { asked, share } => {
                used = used + 8 * asked + share - bits[band as usize];
                bits[band as usize] = share;
                coded = band;
            }
        }
    }
    Skipped {
        coded,
        left: left(&plan, coded, used) + plan.reserves.skip,
        bits,
    }
}
