//! The walk of a whole frame (RFC 6716, section 4.3).
ghost use Rattle.std.specs.Prelude.{◌≡◌, ◌+◌, ◌-◌, ◌*◌, ◌^◌, ◌<◌, ◌≤◌, ◌≤ℤ◌, ℤ, pos, neg_ℤ, true, false, unsigned_abs};
ghost use Rattle.bit_allocation.specs.Amounts.{most_of};
ghost use Rattle.bit_allocation.specs.Requests.{AreBoosts};
ghost use Rattle.celt_base.specs.States.{IsAllocation};
ghost use Rattle.celt_base.specs.Paces.{tell_frac_of};
ghost use Rattle.celt_base.specs.Walks.{Walked};
ghost use Rattle.band_plan.specs.Plans.{AreSettings};
ghost use Rattle.frame_symbols.specs.Frames.{opening_script, shaping_script, rest_of, reserve_of, amounts_script, collapse_script};
ghost use Rattle.frame_symbols.specs.FrameWalks.{WalkedSound, WalkedEnding, WalkedFrame};
ghost use Rattle.frame_symbols.specs.Openings.{IsPostFilter};

use crate::asking::{Budgeted, ask_number_within};
use crate::boosts::{ask_boosts, ask_trim};
use crate::changes::ask_changes;
use crate::fields::{Amounts, Fields, Opening, Settled, Shaping};
use crate::opening::{ask_filter, ask_transient};
use band_energy::{coarse, fine, last};
use band_plan::{BandSettings, walk_bands};
use bit_allocation::allocate;
use celt_base::coder::{Chooser, Coder, Place};
use celt_base::kind::Kind;
use celt_base::question::{Question, TableId};
use celt_base::walk::{ask_at, ask_bit, ask_bit_within};

// Asks for the post-filter, short blocks, and whether the energies are coded without the frame before.
fn ask_opening<C: Coder, H: Chooser>(
    coder: &mut C,
    chooser: &mut H,
    kind: Kind,
    budget: u32,
) -> Opening
    requires few { C.calls.count coder.old + 7 ≤ 4096 }
    ensures walked { Walked C.calls H.calls (opening_script kind budget) result coder.old chooser.old coder.new chooser.new }
    ensures post_filter { IsPostFilter result.post_filter }
    ensures long { kind.lm ≡ 0 → result.transient ≡ false }
    ensures count { C.calls.count coder.new ≤ C.calls.count coder.old + 7 }
{
    let post_filter = ask_filter(coder, chooser, budget);
    let transient = ask_transient(coder, chooser, kind, budget);
    let intra = ask_bit_within(coder, chooser, Place::Intra, 3, 3, budget);
    Opening {
        post_filter,
        transient,
        intra,
    }
}

// Asks for the changes, the spreading, the boosts and the trim.
fn ask_shaping<C: Coder, H: Chooser>(
    coder: &mut C,
    chooser: &mut H,
    kind: Kind,
    transient: bool,
    len: u32,
) -> Shaping
    requires len { len ≤ 1275 }
    requires long { kind.lm ≡ 0 → transient ≡ false }
    requires few { C.calls.count coder.old + 1620 ≤ 4096 }
    ensures walked { Walked C.calls H.calls (shaping_script kind transient len) result coder.old chooser.old coder.new chooser.new }
    ensures settings { AreSettings kind result.settings }
    ensures transient { result.settings.transient ≡ transient }
    ensures boosts { AreBoosts kind result.boosts }
    ensures trim { result.trim ≤ 10 }
    ensures count { C.calls.count coder.new ≤ C.calls.count coder.old + 1620 }
{
    let tf = ask_changes(coder, chooser, kind, transient, 8 * len);
    let number = Budgeted {
        question: Question::Table(TableId::Spread),
        cost: 4,
        budget: 8 * len,
        other: 2,
    };
    let spread = ask_number_within(coder, chooser, Place::Spread, number);
    let boosts = ask_boosts(coder, chooser, kind, 64 * len);
    let trim = ask_trim(coder, chooser, &boosts, 64 * len);
    let settings = BandSettings {
        transient,
        spread,
        tf,
    };
    Shaping {
        settings,
        boosts: boosts.boosts,
        trim,
    }
}

fn rest_of(len: u32, tell: u32) -> i32
    requires len { len ≤ 1275 }
    requires tell { tell ≤ 2 ^ 21 }
    ensures value { result ≡ rest_of len tell }
    ensures most { result ≤ℤ pos 81600 }
    ensures least { neg_ℤ (pos (2 ^ 22)) ≤ℤ result }
{
    64 * len as i32 - tell as i32 - 1
}

#[tactic(auto, unfolding(crate::specs::Frames::reserve_of))]
fn reserve_of(kind: Kind, transient: bool, rest: i32) -> u32
    ensures value { result ≡ reserve_of kind transient rest }
    ensures most { result ≤ 8 }
{
    if transient && kind.lm >= 2 && rest >= 8 * (i32::from(kind.lm) + 2) {
        8
    } else {
        0
    }
}

// Asks for the allocation.
fn ask_amounts<C: Coder, H: Chooser>(
    coder: &mut C,
    chooser: &mut H,
    kind: Kind,
    len: u32,
    shaping: &Shaping,
) -> Amounts
    requires len { len ≤ 1275 }
    requires boosts { AreBoosts kind shaping.now.boosts }
    requires trim { shaping.now.trim ≤ 10 }
    requires few { C.calls.count coder.old + 22 ≤ 4096 }
    ensures walked { Walked C.calls H.calls (amounts_script kind len shaping.now) result coder.old chooser.old coder.new chooser.new }
    ensures valid { IsAllocation (λ band. pos (most_of kind band)) kind result.allocation }
    ensures reserve { result.reserve ≤ 8 }
    ensures count { C.calls.count coder.new ≤ C.calls.count coder.old + 22 }
{
    let rest = rest_of(len, coder.tell_frac());
    let reserve = reserve_of(kind, shaping.settings.transient, rest);
    let allocation = allocate(
        coder,
        chooser,
        kind,
        rest - reserve as i32,
        &shaping.boosts,
        shaping.trim as i32,
    );
    Amounts {
        allocation,
        reserve,
    }
}

// Asks whether collapsed blocks are filled.
fn ask_collapse<C: Coder, H: Chooser>(coder: &mut C, chooser: &mut H, reserve: u32) -> bool
    requires few { C.calls.count coder.old < 4096 }
    ensures walked { Walked C.calls H.calls (collapse_script reserve) result coder.old chooser.old coder.new chooser.new }
    ensures count { C.calls.count coder.new ≤ C.calls.count coder.old + 1 }
{
    if reserve == 0 {
        return false;
    }
    ask_at(coder, chooser, Place::Collapse, Question::Raw(1)) == 1
}

// Asks what follows the allocation.
fn walk_ending<C: Coder, H: Chooser>(
    coder: &mut C,
    chooser: &mut H,
    kind: Kind,
    len: u32,
    settled: &Settled,
    out: &mut Fields,
)
    requires least { 2 ≤ len }
    requires len { len ≤ 1275 }
    requires settings { AreSettings kind settled.now.shaping.settings }
    requires valid { IsAllocation (λ band. pos (most_of kind band)) kind settled.now.amounts.allocation }
    requires reserve { settled.now.amounts.reserve ≤ 8 }
    requires few { C.calls.count coder.old + 1408 ≤ 4096 }
    ensures walked { WalkedEnding C.calls H.calls kind len out.old.opening settled.now.shaping settled.now.amounts out.old.energy.coarse out.new
        coder.old chooser.old coder.new chooser.new }
    ensures silent { out.new.silent ≡ out.old.silent }
    ensures opening { out.new.opening ≡ out.old.opening }
    ensures count { C.calls.count coder.new ≤ C.calls.count coder.old + 1408 }
{
    let Settled { shaping, amounts } = settled;
    let a = &amounts.allocation;
    out.allocation = *a;
    fine(coder, chooser, kind, a, &mut out.energy);
    let total = (64 * len - amounts.reserve) as i32;
    walk_bands(
        coder,
        chooser,
        kind,
        &shaping.settings,
        a,
        total,
        &mut out.bands,
    );
    out.collapse = ask_collapse(coder, chooser, amounts.reserve);
    last(coder, chooser, kind, a, 8 * len, &mut out.energy);
}

// Asks the questions of a frame that is not silent.
fn walk_sound<C: Coder, H: Chooser>(
    coder: &mut C,
    chooser: &mut H,
    kind: Kind,
    len: u32,
    out: &mut Fields,
)
    requires least { 2 ≤ len }
    requires len { len ≤ 1275 }
    requires few { C.calls.count coder.old + 3099 ≤ 4096 }
    ensures walked { WalkedSound C.calls H.calls kind len out.new coder.old chooser.old coder.new chooser.new }
    ensures silent { out.new.silent ≡ out.old.silent }
    ensures post_filter { IsPostFilter out.new.opening.post_filter }
    ensures count { C.calls.count coder.new ≤ C.calls.count coder.old + 3099 }
{
    let opening = ask_opening(coder, chooser, kind, 8 * len);
    out.opening = opening;
    coarse(
        coder,
        chooser,
        kind,
        opening.intra,
        8 * len,
        &mut out.energy,
    );
    let shaping = ask_shaping(coder, chooser, kind, opening.transient, len);
    let amounts = ask_amounts(coder, chooser, kind, len, &shaping);
    walk_ending(
        coder,
        chooser,
        kind,
        len,
        &Settled { shaping, amounts },
        out,
    );
}

/// Asks the questions of a frame of `len` bytes.
pub fn walk_frame<C: Coder, H: Chooser>(
    coder: &mut C,
    chooser: &mut H,
    kind: Kind,
    len: u32,
    out: &mut Fields,
)
    requires least { 2 ≤ len }
    requires len { len ≤ 1275 }
    requires few { C.calls.count coder.old + 3100 ≤ 4096 }
    ensures walked { WalkedFrame C.calls H.calls kind len out.new coder.old chooser.old coder.new chooser.new }
    ensures post_filter { IsPostFilter out.new.opening.post_filter }
    ensures count { C.calls.count coder.new ≤ C.calls.count coder.old + 3100 }
{
    if ask_bit(coder, chooser, Place::Silence, 15) {
        out.silence();
        return;
    }
    out.silent = false;
    walk_sound(coder, chooser, kind, len, out);
}
