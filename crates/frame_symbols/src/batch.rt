//! Reading the frames of a batch, in two halves that run side by side.
ghost use Rattle.std.specs.Prelude.{◌≡◌, ◌≤◌, List};
ghost use Rattle.frame_symbols.specs.Batches.{IsPart, PartsInside, ReadsSlot, ReadsSlots};

use crate::reading::read_frame;
use crate::symbols::Symbols;
use celt_base::halves::{Work, in_halves};
use celt_base::kind::Kind;
use celt_base::outside::Gate;
use std::thread::Threads;

/// A frame of a batch: the bytes `from` to `to` of the bytes that the batch is read from, their kind, and their symbols.
#[derive(Drop)]
pub struct FrameSlot {
    pub from: usize,
    pub to: usize,
    pub kind: Kind,
    pub symbols: Symbols,
}

// What is done with each slot. A half enters the gate first.
#[derive(Drop)]
struct FrameReading<'a, G> {
    bytes: &'a [u8],
    gate: &'a G,
}

impl<'a, G: Gate> Work<FrameSlot> for FrameReading<'a, G> {
    ghost can_fill = { λ work slot. IsPart work.bytes.now slot };

    ghost fills = { λ work before after. ReadsSlot work.bytes.now before after };

    fn begin(&self, half: u32) {
        self.gate.enter(half);
    }

    fn fill(&self, _half: u32, slot: &mut FrameSlot) {
        read_slot(self.bytes, slot);
    }
}

// Reads the frame of a slot, if it has 2 bytes or more.
fn read_slot(bytes: &[u8], slot: &mut FrameSlot)
    requires { IsPart bytes.now slot.old }
    ensures { ReadsSlot bytes.now slot.old slot.new }
{
    if slot.to - slot.from < 2 {
        return;
    }
    let (front, _) = bytes.split_at(slot.to);
    let (_, frame) = front.split_at(slot.from);
    read_frame(frame, slot.kind, &mut slot.symbols);
}

/// Reads the frame of each slot that has 2 bytes or more. Slots of 0 or 1 bytes stay as they were.
pub fn read_batch<R: Threads, G: Gate>(rt: &R, bytes: &[u8], slots: &mut [FrameSlot], gate: &G)
    requires { PartsInside bytes.now slots.old }
    ensures { ReadsSlots bytes.now slots.old slots.new }
{
    let work = FrameReading { bytes, gate };
    in_halves(rt, slots, &work);
}
