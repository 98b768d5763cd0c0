//! What a packer does with frames.
ghost use Rattle.std.specs.Prelude.{◌≡◌, ◌+◌, ◌-◌, ◌*◌, ◌^◌, ◌≤◌, ◌<◌, ℕ, List, length, IfOk};
ghost use Rattle.std.specs.List.{concat};
ghost use Rattle.celt_base.specs.Outside.{HasCause, WritesAll};
ghost use Rattle.ogg_pages.specs.Spelling.{spelling};
ghost use Rattle.celt_session.specs.FrameFunctions.{frames_from};
ghost use Rattle.celt_session.specs.AudioPages.{page_of};
ghost use Rattle.celt_session.specs.Packers.{HasRooms, Packs, AreLong, coded_by, Packed, FailsBefore};

use crate::memory::zero_bytes;
use crate::packer::Packer;
use crate::packing::pack_frames;
use crate::page_writer::write_audio;
use crate::plan::Plan;
use celt_base::outside::{Failed, Sink};
use celt_base::status::OutOfMemory;
use std::alloc::Global;

/// A packer that was given no frame.
pub(crate) fn new_packer(alloc: Global) -> Result<Packer, OutOfMemory>
    ensures rooms { IfOk result (λ p. HasRooms p) }
    ensures count { IfOk result (λ p. p.count ≡ 0) }
    ensures packets { IfOk result (λ p. p.packets ≡ 0) }
{
    let Ok(frames) = zero_bytes(alloc, 61200) else {
        return Err(OutOfMemory);
    };
    let Ok(packet) = zero_bytes(alloc, 61202) else {
        return Err(OutOfMemory);
    };
    match zero_bytes(alloc, 65307) {
        Ok(page) => Ok(Packer {
            frames,
            count: 0,
            packets: 0,
            packet,
            page,
        }),
        Err(_) => Err(OutOfMemory),
    }
}

/// Writes the page of the packet that is being filled, and begins the next one.
pub(crate) fn write_packet<K: Sink>(
    plan: Plan,
    flags: u8,
    granule: u64,
    packer: &mut Packer,
    output: &mut K,
) -> Result<(), Failed>
    requires rooms { HasRooms packer.old }
    requires some { 1 ≤ packer.old.count }
    requires few { packer.old.count ≤ plan.group }
    requires packets { packer.old.packets < 2 ^ 48 }
    requires granule { granule < 2 ^ 63 }
    ensures rooms { HasRooms packer.new }
    ensures page { (frame : ℕ → List ℕ) (done : ℕ) → AreLong plan frame → Packs plan frame done packer.old →
        WritesAll (K.held output.old) (K.held output.new) result (spelling (page_of (coded_by plan frame) flags granule packer.old.packets packer.old.count)) }
    ensures packets { packer.new.packets ≡ packer.old.packets + 1 }
    ensures count { packer.new.count ≡ 0 }
    ensures cause { HasCause (K.faults output.old) (K.faults output.new) result }
{
    let number = packer.packets;
    let count = packer.count;
    packer.packets += 1;
    packer.count = 0;
    let (frames, _) = packer.frames.split_at(count * plan.bytes);
    let len = pack_frames(plan.toc, frames, count, &mut packer.packet);
    let (packet, _) = packer.packet.split_at(len);
    write_audio(flags, granule, number, packet, &mut packer.page, output)
}

/// Writes the page of the packet that is being filled where it is full.
pub(crate) fn write_full<K: Sink>(
    plan: Plan,
    packer: &mut Packer,
    output: &mut K,
) -> Result<(), Failed>
    requires rooms { HasRooms packer.old }
    requires few { packer.old.count ≤ plan.group }
    requires packets { packer.old.packets < 2 ^ 48 }
    ensures rooms { HasRooms packer.new }
    ensures packed { (frame : ℕ → List ℕ) (done : ℕ) → AreLong plan frame → Packs plan frame done packer.old →
        Packed plan frame done packer.old.packets packer.new (K.held output.old) (K.held output.new) result }
    ensures less { packer.new.count < plan.group }
    ensures sum { packer.new.packets + packer.new.count ≤ packer.old.packets + packer.old.count }
    ensures cause { HasCause (K.faults output.old) (K.faults output.new) result }
{
    if packer.count < plan.group {
        return Ok(());
    }
    let granule = (packer.packets + 1) * plan.group as u64 * plan.samples as u64;
    write_packet(plan, 0, granule, packer, output)
}

/// Puts a frame in; where the packet is full its page is written before.
pub(crate) fn add_frame<K: Sink>(
    plan: Plan,
    bytes: &[u8],
    packer: &mut Packer,
    output: &mut K,
) -> Result<(), Failed>
    requires rooms { HasRooms packer.old }
    requires few { packer.old.count ≤ plan.group }
    requires packets { packer.old.packets < 2 ^ 48 }
    requires len { length bytes.now ≡ plan.bytes }
    ensures rooms { HasRooms packer.new }
    ensures packed { (frame : ℕ → List ℕ) (done : ℕ) → AreLong plan frame → Packs plan frame done packer.old → bytes.now ≡ frame done →
        Packed plan frame (done + 1) packer.old.packets packer.new (K.held output.old) (K.held output.new) result }
    ensures failed { (frame : ℕ → List ℕ) (done : ℕ) → AreLong plan frame → Packs plan frame done packer.old →
        FailsBefore plan frame done packer.old.packets (K.held output.old) (K.held output.new) result }
    ensures few { packer.new.count ≤ plan.group }
    ensures some { IfOk result (λ written. 1 ≤ packer.new.count) }
    ensures sum { packer.new.packets + packer.new.count ≤ packer.old.packets + packer.old.count + 1 }
    ensures cause { HasCause (K.faults output.old) (K.faults output.new) result }
{
    let Ok(()) = write_full(plan, packer, output) else {
        return Err(Failed);
    };
    let from = packer.count * plan.bytes;
    packer.frames[from..from + plan.bytes].copy_from_slice(bytes);
    packer.count += 1;
    Ok(())
}

/// Puts frames in, which stand one behind the other. Where a packet is full its page is written before the next
/// frame.
pub(crate) fn add_frames<K: Sink>(
    plan: Plan,
    frames: &[u8],
    count: usize,
    packer: &mut Packer,
    output: &mut K,
) -> Result<(), Failed>
    requires rooms { HasRooms packer.old }
    requires few { packer.old.count ≤ plan.group }
    requires packets { packer.old.packets + packer.old.count + count < 2 ^ 48 }
    requires len { length frames.now ≡ count * plan.bytes }
    requires some { 1 ≤ count }
    ensures rooms { HasRooms packer.new }
    ensures packed { (frame : ℕ → List ℕ) (done : ℕ) → AreLong plan frame → Packs plan frame done packer.old → frames.now ≡ concat (frames_from frame done count) →
        Packed plan frame (done + count) packer.old.packets packer.new (K.held output.old) (K.held output.new) result }
    ensures failed { (frame : ℕ → List ℕ) (done : ℕ) → AreLong plan frame → Packs plan frame done packer.old → frames.now ≡ concat (frames_from frame done count) →
        FailsBefore plan frame (done + count - 1) packer.old.packets (K.held output.old) (K.held output.new) result }
    ensures few { packer.new.count ≤ plan.group }
    ensures some { IfOk result (λ written. 1 ≤ packer.new.count) }
    ensures sum { packer.new.packets + packer.new.count ≤ packer.old.packets + packer.old.count + count }
    ensures cause { HasCause (K.faults output.old) (K.faults output.new) result }
{
    let mut made = 0;
    while made < count {
        let (_, rest) = frames.split_at(made * plan.bytes);
        let (frame, _) = rest.split_at(plan.bytes);
        let Ok(()) = add_frame(plan, frame, packer, output) else {
            return Err(Failed);
        };
        made += 1;
    }
    Ok(())
}
