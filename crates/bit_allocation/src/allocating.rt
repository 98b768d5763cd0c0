//! The allocation of a frame (RFC 6716, section 4.3.3).
ghost use Rattle.std.specs.Prelude.{◌≡◌, ◌+◌, ◌≤◌, ◌≤ℤ◌, pos};
ghost use Rattle.bit_allocation.specs.Amounts.{most_of};
ghost use Rattle.bit_allocation.specs.Facts.{IsPlan, IsSkipped, IsStereo};
ghost use Rattle.bit_allocation.specs.Requests.{AreBoosts, IsTrim};
ghost use Rattle.bit_allocation.specs.Scripts.{allocation_script};
ghost use Rattle.bit_allocation.specs.Shares.{left_after, band_split, allocation_of};
ghost use Rattle.celt_base.specs.States.{IsAllocation};
ghost use Rattle.celt_base.specs.Walks.{Walked};

use crate::answering::ask_stereo;
use crate::bands::{Bands, bands_of};
use crate::plan::Plan;
use crate::planning::plan_for;
use crate::request::Request;
use crate::skipping::skip;
use crate::splitting::{Split, coded_split, share, skipped_split};
use crate::stereo::Stereo;
use crate::turns::Skipped;
use celt_base::coder::{Chooser, Coder};
use celt_base::kind::Kind;
use celt_base::state::Allocation;

// What is left for the coded bands.
fn left_after(plan: &Plan, skipped: &Skipped, stereo: Stereo) -> u32
    requires plan { IsPlan plan.now }
    requires skipped { IsSkipped plan.now skipped.now }
    ensures { result ≡ left_after plan.now skipped.now stereo }
{
    if stereo.intensity == 0 {
        skipped.left + plan.reserves.dual
    } else {
        skipped.left
    }
}

// The split of a band, with the balance before it.
fn split_band(
    bands: &Bands,
    plan: &Plan,
    skipped: &Skipped,
    stereo: Stereo,
    band: u32,
    before: u32,
) -> Split
    requires plan { IsPlan plan.now }
    requires same { plan.now.kind ≡ bands.now.request.kind }
    requires skipped { IsSkipped plan.now skipped.now }
    requires band { band ≤ 20 }
    requires before { before ≤ 81600 }
    ensures { result ≡ band_split plan.now skipped.now stereo band before }
{
    let bits = skipped.bits[band as usize];
    if band < skipped.coded {
        let left = left_after(plan, skipped, stereo);
        let bits = share(bits, left, skipped.coded, band);
        return coded_split(bands, stereo, band, bits, before);
    }
    skipped_split(bands.request.kind, bits, before)
}

// The allocation of what stands after the questions.
fn spread(bands: &Bands, plan: &Plan, skipped: &Skipped, stereo: Stereo) -> Allocation
    requires plan { IsPlan plan.now }
    requires same { plan.now.kind ≡ bands.now.request.kind }
    requires skipped { IsSkipped plan.now skipped.now }
    ensures { result ≡ allocation_of plan.now skipped.now stereo }
{
    let mut pulses = [0; 21];
    let mut fine = [0; 21];
    let mut priority = [false; 21];
    let mut balance = 0;
    for band in 0..21u32 {
        let split = split_band(bands, plan, skipped, stereo, band, balance);
        pulses[band as usize] = split.pulses as i32;
        fine[band as usize] = split.fine;
        priority[band as usize] = split.priority;
        balance = split.balance;
    }
    Allocation {
        coded: skipped.coded,
        intensity: stereo.intensity,
        dual: stereo.dual,
        balance: balance as i32,
        pulses,
        fine,
        priority,
    }
}

/// Spreads the bits of a frame over its bands: `total` eighths of a bit, below 0 counting as 0, with what the boosts
/// add to each band, in eighths of a bit, and the trim, which tilts the amounts. At most 22 questions are asked: which
/// bands are skipped from the top down, where intensity stereo begins, and dual stereo. The allocation is that of their
/// answers, and it is valid for the kind (RFC 6716, section 4.3.3).
pub fn allocate<C: Coder, H: Chooser>(
    coder: &mut C,
    chooser: &mut H,
    kind: Kind,
    total: i32,
    boosts: &[i32; 21],
    trim: i32,
) -> Allocation
    requires total { total ≤ℤ pos 81600 }
    requires boosts { AreBoosts kind boosts.now }
    requires trim { IsTrim trim }
    requires few { C.calls.count coder.old + 22 ≤ 4096 }
    ensures walked { Walked C.calls H.calls (allocation_script kind total boosts.now trim) result coder.old chooser.old coder.new chooser.new }
    ensures valid { IsAllocation (λ band. pos (most_of kind band)) kind result }
    ensures count { C.calls.count coder.new ≤ C.calls.count coder.old + 22 }
{
    let boosts = *boosts;
    let bands = bands_of(Request {
        kind,
        total,
        boosts,
        trim,
    });
    let planned = plan_for(&bands);
    let skipped = skip(coder, chooser, &bands, &planned);
    let stereo = ask_stereo(coder, chooser, &planned.plan, skipped.coded);
    spread(&bands, &planned.plan, &skipped, stereo)
}
