//! The time-frequency changes of the bands (RFC 6716, section 4.3.1).
ghost use Rattle.std.specs.Prelude.{◌≡◌, ◌+◌, ◌*◌, ◌^◌, ◌<◌, ◌≤◌, ◌||◌, ◌&&◌, nat_eq, false, replicate, ℕ, pos, slice_index_or};
ghost use Rattle.band_plan.specs.Plans.{IsChange};
ghost use Rattle.celt_base.specs.Walks.{Walked};
ghost use Rattle.celt_base.specs.Paces.{tell_of};
ghost use Rattle.frame_symbols.specs.Changes.{weight_of, turned, flags_script, any_below, kept_of, differ, select_script, changes_of, changes_by, changes_script};

use celt_base::coder::{Chooser, Coder, Place};
use celt_base::kind::Kind;
use celt_base::walk::{ask_bit, ask_bit_within};
use celt_tables::tf_of;

#[tactic(auto, unfolding(crate::specs::Changes::weight_of))]
fn weight_of(transient: bool, band: u8) -> u32
    ensures value { result ≡ weight_of transient band }
    ensures least { 2 ≤ result }
    ensures most { result ≤ 5 }
{
    if band == 0 {
        if transient { 2 } else { 4 }
    } else {
        if transient { 4 } else { 5 }
    }
}

#[tactic(auto, unfolding(crate::specs::Changes::turned))]
fn turned(turns: bool, flag: bool) -> bool
    ensures { result ≡ turned turns flag }
{
    if turns { !flag } else { flag }
}

// Asks for the flags of the bands.
fn ask_flags<C: Coder, H: Chooser>(
    coder: &mut C,
    chooser: &mut H,
    kind: Kind,
    transient: bool,
    budget: u32,
) -> [bool; 21]
    requires few { C.calls.count coder.old + 21 ≤ 4096 }
    ensures walked { Walked C.calls H.calls (flags_script transient budget kind.end 0 false (replicate 21 false)) result
        coder.old chooser.old coder.new chooser.new }
    ensures count { C.calls.count coder.new ≤ C.calls.count coder.old + 21 }
{
    let mut flags = [false; 21];
    let mut flag = false;
    for band in 0..kind.end {
        let weight = weight_of(transient, band);
        let at = Place::Tf {
            band,
            current: flag,
        };
        let turns = ask_bit_within(coder, chooser, at, weight, weight, budget);
        let next = turned(turns, flag);
        flags[band as usize] = next;
        flag = next;
    }
    flags
}

fn either(a: bool, b: bool) -> bool
    ensures { result ≡ (a || b) }
{
    a || b
}

fn any_flag(flags: [bool; 21]) -> bool
    ensures { result ≡ any_below flags 21 }
{
    let mut any = false;
    for band in 0..21u32 {
        any = either(any, flags[band as usize]);
    }
    any
}

#[tactic(auto, unfolding(crate::specs::Changes::kept_of))]
fn kept_of(lm: u8, transient: bool, budget: u32, tell: u32) -> u32
    requires { tell ≤ 2 ^ 20 }
    ensures value { result ≡ kept_of lm transient budget tell }
    ensures most { result ≤ 1 }
{
    let first = if transient { 2 } else { 4 };
    if lm > 0 && tell + first + 1 <= budget {
        1
    } else {
        0
    }
}

#[tactic(auto, unfolding(crate::specs::Changes::differ))]
fn differ(lm: u8, transient: bool, any: bool) -> bool
    requires { lm ≤ 3 }
    ensures { result ≡ differ lm transient any }
{
    let lower = tf_of(lm, transient, false, any);
    let upper = tf_of(lm, transient, true, any);
    lower < upper || upper < lower
}

fn has_select(lm: u8, transient: bool, kept: u32, any: bool) -> bool
    requires { lm ≤ 3 }
    ensures { result ≡ (nat_eq kept 1 && differ lm transient any) }
{
    kept == 1 && differ(lm, transient, any)
}

// Asks which row of changes counts, where it makes a difference.
fn ask_select<C: Coder, H: Chooser>(
    coder: &mut C,
    chooser: &mut H,
    lm: u8,
    transient: bool,
    kept: u32,
    any: bool,
) -> bool
    requires lm { lm ≤ 3 }
    requires few { C.calls.count coder.old < 4096 }
    ensures walked { Walked C.calls H.calls (select_script lm transient kept any) result coder.old chooser.old coder.new chooser.new }
    ensures count { C.calls.count coder.new ≤ C.calls.count coder.old + 1 }
{
    if has_select(lm, transient, kept, any) {
        return ask_bit(coder, chooser, Place::TfSelect, 1);
    }
    false
}

fn changes_of(kind: Kind, transient: bool, select: bool, flags: [bool; 21]) -> [i32; 21]
    ensures value { result ≡ changes_of kind transient select flags }
    ensures changes { (band : ℕ) → band < kind.end → IsChange kind.lm transient (slice_index_or result band (pos 0)) }
{
    let mut changes = [0; 21];
    for band in 0..kind.end {
        changes[band as usize] = tf_of(kind.lm, transient, select, flags[band as usize]);
    }
    changes
}

/// Asks for the time-frequency changes of a frame of `budget` bits.
pub fn ask_changes<C: Coder, H: Chooser>(
    coder: &mut C,
    chooser: &mut H,
    kind: Kind,
    transient: bool,
    budget: u32,
) -> [i32; 21]
    requires few { C.calls.count coder.old + 22 ≤ 4096 }
    ensures walked { Walked C.calls H.calls (changes_script kind transient budget) result coder.old chooser.old coder.new chooser.new }
    ensures changes { (band : ℕ) → band < kind.end → IsChange kind.lm transient (slice_index_or result band (pos 0)) }
    ensures count { C.calls.count coder.new ≤ C.calls.count coder.old + 22 }
{
    let kept = kept_of(kind.lm, transient, budget, coder.tell());
    let flags = ask_flags(coder, chooser, kind, transient, budget.saturating_sub(kept));
    let select = ask_select(coder, chooser, kind.lm, transient, kept, any_flag(flags));
    changes_of(kind, transient, select, flags)
}
