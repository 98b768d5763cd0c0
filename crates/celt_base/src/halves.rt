//! Halves of a batch: the slots of a batch are filled in two halves that run side by side.
ghost use Rattle.std.specs.Thread.{IsSync, IsSend};
ghost use Rattle.celt_base.specs.Halves.{CanFillAll, FillsAll};

use std::marker::{Send, Sync};
use std::thread::{Threads, join_mut};

/// What is done with each slot of a batch.
pub trait Work<T>: Sync {
    // Which slots it can fill.
    ghost can_fill: { Self → T → Type 0 };

    // What `fill` makes of a slot: the slot before, and after.
    ghost fills: { Self → T → T → Type 0 };

    /// A half begins: 0 is the first, 1 the second. It promises nothing.
    fn begin(&self, half: u32);

    /// Fills a slot, in this half.
    fn fill(&self, half: u32, slot: &mut T)
        requires { can_fill self.now slot.old }
        ensures { fills self.now slot.old slot.new };
}

/// Fills each slot. Two or more slots are cut in halves, the first half having the odd one, which are
/// filled side by side: each half begins with its number, and then fills its slots in order with it. Fewer
/// than two slots are filled with the number 0, and no half begins.
pub fn in_halves<R: Threads, T: Send, W: Work<T>>(rt: &R, slots: &mut [T], work: &W)
    requires { CanFillAll (W.can_fill work.now) slots.old }
    ensures { FillsAll (W.fills work.now) slots.old slots.new }
{
    if slots.len() < 2 {
        fill_all(work, 0, slots);
        return;
    }
    let (front, back) = slots.split_at_mut(slots.len().div_ceil(2));
    both_halves(rt, work, front, back);
}

// A separate function from `in_halves`, so that what the closures require is what this function is given.
fn both_halves<R: Threads, T: Send, W: Work<T>>(rt: &R, work: &W, front: &mut [T], back: &mut [T])
    requires front { CanFillAll (W.can_fill work.now) front.old }
    requires back { CanFillAll (W.can_fill work.now) back.old }
    ensures front { FillsAll (W.fills work.now) front.old front.new }
    ensures back { FillsAll (W.fills work.now) back.old back.new }
{
    join_mut(
        rt,
        &mut ||
            requires { CanFillAll (W.can_fill work.now) front.now }
            ensures { FillsAll (W.fills work.entry.now) front.entry.now front.exit.now }
        { fill_half(work, 0, front) },
        &mut ||
            requires { CanFillAll (W.can_fill work.now) back.now }
            ensures { FillsAll (W.fills work.entry.now) back.entry.now back.exit.now }
        { fill_half(work, 1, back) },
    );
}

// Begins a half, and fills its slots. The slots come last: they are lent after the work is read.
fn fill_half<T, W: Work<T>>(work: &W, half: u32, slots: &mut [T])
    requires { CanFillAll (W.can_fill work.now) slots.old }
    ensures { FillsAll (W.fills work.now) slots.old slots.new }
{
    work.begin(half);
    fill_all(work, half, slots);
}

fn fill_one<T, W: Work<T>>(work: &W, half: u32, slot: &mut T)
    requires { W.can_fill work.now slot.old }
    ensures { W.fills work.now slot.old slot.new }
{
    work.fill(half, slot);
}

fn fill_all<T, W: Work<T>>(work: &W, half: u32, slots: &mut [T])
    requires { CanFillAll (W.can_fill work.now) slots.old }
    ensures { FillsAll (W.fills work.now) slots.old slots.new }
{
    for k in 0..slots.len() {
        fill_one(work, half, &mut slots[k]);
    }
}
