//! The frames of a page in batches of at most 16, each of which is read in two halves that run side by side.
ghost use Rattle.std.specs.Prelude.{◌≡◌, ◌≤◌, [], length, take, vec_capacity, IfOk};
ghost use Rattle.frame_symbols.specs.Batches.{PartsInside, ReadsSlots};

use crate::lines::kind_of;
use celt_base::kind::Kind;
use celt_base::outside::Gate;
use celt_base::status::OutOfMemory;
use frame_symbols::{FrameSlot, Symbols, read_batch};
use opus_packets::split;
use opus_stream::StreamReader;
use std::alloc::Global;
use std::thread::Threads;

/// The most frames of a batch.
const MOST: usize = 16;

/// Where a frame of a page stands: the number of its packet, and its own in the packet.
#[derive(Clone, Copy)]
pub(crate) struct Place {
    pub packet: usize,
    pub frame: usize,
}

/// The first frame of a page.
pub(crate) const FIRST: Place = Place {
    packet: 0,
    frame: 0,
};

/// A frame of a batch, and what was read of it where it has 2 bytes or more.
#[derive(Clone, Copy)]
pub(crate) struct HeldFrame<'a> {
    pub kind: Kind,
    pub bytes: &'a [u8],
    pub symbols: &'a Symbols,
}

/// Frames that are read at once.
#[derive(Drop)]
pub(crate) struct FrameBatch {
    /// The bytes of the frames, one behind the other.
    bytes: Vec<u8>,
    /// Where each of them stands, and what is read of it.
    slots: Vec<FrameSlot>,
    /// How many they are.
    count: usize,
}

// Room for the bytes of 16 frames.
fn bytes_room(alloc: Global) -> Result<Vec<u8>, OutOfMemory>
    ensures empty { IfOk result (λ bytes. bytes.items ≡ []) }
    ensures reserved { IfOk result (λ bytes. vec_capacity bytes ≡ 20400) }
{
    match Vec::with_capacity(alloc, 20400) {
        Ok(bytes) => Ok(bytes),
        Err(_) => Err(OutOfMemory),
    }
}

// A slot of no frame.
fn empty_slot(alloc: Global) -> Result<FrameSlot, OutOfMemory> {
    match Symbols::new(alloc) {
        Ok(symbols) => Ok(FrameSlot {
            from: 0,
            to: 0,
            kind: Kind {
                lm: 3,
                channels: 2,
                end: 21,
            },
            symbols,
        }),
        Err(_) => Err(OutOfMemory),
    }
}

// The slots of a batch.
fn empty_slots(alloc: Global) -> Result<Vec<FrameSlot>, OutOfMemory>
    ensures { IfOk result (λ slots. length slots.items ≡ 16) }
{
    let mut slots = Vec::new(alloc);
    for i in 0..MOST {
        let Ok(slot) = empty_slot(alloc) else {
            return Err(OutOfMemory);
        };
        if slots.push(slot).is_err() {
            return Err(OutOfMemory);
        }
    }
    Ok(slots)
}

// Puts a frame into a slot, which stands between these two places.
fn set_slot(slot: &mut FrameSlot, kind: Kind, from: usize, to: usize)
    ensures from { slot.new.from ≡ from }
    ensures to { slot.new.to ≡ to }
    ensures kind { slot.new.kind ≡ kind }
{
    slot.from = from;
    slot.to = to;
    slot.kind = kind;
}

// Reads the frames of the first slots.
fn read_slots<R: Threads, G: Gate>(
    rt: &R,
    bytes: &[u8],
    slots: &mut [FrameSlot],
    count: usize,
    gate: &G,
)
    requires few { count ≤ length slots.old }
    requires parts { PartsInside bytes.now (take count slots.old) }
    ensures len { length slots.new ≡ length slots.old }
    ensures reads { ReadsSlots bytes.now (take count slots.old) (take count slots.new) }
{
    let (front, _) = slots.split_at_mut(count);
    read_batch(rt, bytes, front, gate);
}

impl FrameBatch {
    ghost use Rattle.std.specs.Prelude.{◌≡◌, ◌+◌, ◌≤◌, ◌<◌, [], ◌∷◌, ◌++◌, length, drop, IfOk};
    ghost use Rattle.celt_session.specs.Pages.{Heard, IsGiven};
    ghost use Rattle.celt_session.specs.Frames.{framed, packet_frames};
    ghost use Rattle.celt_session.specs.FrameBatches.{HasBatchRooms, frames_in, left_from, position, IsRead, IsHeldFrame};

    /// A batch of no frame.
    pub(crate) fn new(alloc: Global) -> Result<FrameBatch, OutOfMemory>
        ensures { IfOk result HasBatchRooms }
    {
        let Ok(bytes) = bytes_room(alloc) else {
            return Err(OutOfMemory);
        };
        match empty_slots(alloc) {
            Ok(slots) => Ok(FrameBatch {
                bytes,
                slots,
                count: 0,
            }),
            Err(_) => Err(OutOfMemory),
        }
    }

    /// How many frames are held.
    pub(crate) fn len(&self) -> usize
        ensures { result ≡ self.now.count }
    {
        self.count
    }

    /// A frame that was read.
    pub(crate) fn frame(&self, i: usize) -> HeldFrame<'_>
        requires rooms { HasBatchRooms self.now }
        requires inside { i < self.now.count }
        requires read { IsRead self.now }
        ensures { IsHeldFrame self.now i result.kind result.bytes.now result.symbols.now }
    {
        let slot = &self.slots[i];
        HeldFrame {
            kind: slot.kind,
            bytes: &self.bytes[slot.from..slot.to],
            symbols: &slot.symbols,
        }
    }

    // Holds no frame any more.
    fn empty(&mut self)
        requires { HasBatchRooms self.old }
        ensures rooms { HasBatchRooms self.new }
        ensures count { self.new.count ≡ 0 }
        ensures frames { frames_in self.new ≡ [] }
    {
        self.bytes.clear();
        self.count = 0;
    }

    // Takes in a frame.
    fn push(&mut self, kind: Kind, frame: &[u8])
        requires rooms { HasBatchRooms self.old }
        requires free { self.old.count < 16 }
        requires short { length frame.now ≤ 1275 }
        ensures rooms { HasBatchRooms self.new }
        ensures count { self.new.count ≡ self.old.count + 1 }
        ensures frames { frames_in self.new ≡ frames_in self.old ++ framed kind frame.now ∷ [] }
    {
        let from = self.bytes.len();
        self.bytes.extend_from_slice(frame).unwrap();
        let to = self.bytes.len();
        set_slot(&mut self.slots[self.count], kind, from, to);
        self.count += 1;
    }

    // Takes in the frames of a packet from this one on while there is room, and answers which is the next.
    fn take_packet(&mut self, packet: &[u8], from: usize) -> usize
        requires rooms { HasBatchRooms self.old }
        requires from { from ≤ 48 }
        ensures rooms { HasBatchRooms self.new }
        ensures frames { frames_in self.new ++ drop result (packet_frames packet.now) ≡ frames_in self.old ++ drop from (packet_frames packet.now) }
        ensures count { result + self.old.count ≡ from + self.new.count }
        ensures few { result ≤ 48 }
        ensures whole { self.new.count < 16 → drop result (packet_frames packet.now) ≡ [] }
    {
        let Ok(frames) = split(packet) else {
            return from;
        };
        let kind = kind_of(&frames);
        let mut next = from;
        while next < frames.len() {
            if self.count == MOST {
                return next;
            }
            self.push(kind, frames.frame(next));
            next += 1;
        }
        next
    }

    // Takes in the frames of the page that was given last, 16 at most, from this place on, and answers the place
    // behind them.
    fn gather(&mut self, reader: &StreamReader, place: Place) -> Place
        requires rooms { HasBatchRooms self.old }
        requires few { place.frame ≤ 48 }
        ensures rooms { HasBatchRooms self.new }
        ensures frames { (heard : Heard) → IsGiven reader.now heard → left_from place heard.packets ≡ frames_in self.new ++ left_from result heard.packets }
        ensures few { result.frame ≤ 48 }
        ensures within { position result ≤ 12240 }
        ensures ahead { 0 < self.new.count → position place + self.new.count ≤ position result }
        ensures none { self.new.count ≡ 0 → (heard : Heard) → IsGiven reader.now heard → left_from result heard.packets ≡ [] }
    {
        self.empty();
        let mut frame = place.frame;
        for packet in place.packet..reader.packets() {
            frame = self.take_packet(reader.packet(packet), frame);
            if self.count == MOST {
                return Place { packet, frame };
            }
            frame = 0;
        }
        Place {
            packet: reader.packets(),
            frame: 0,
        }
    }

    // Reads the frames that are held.
    fn read<R: Threads, G: Gate>(&mut self, rt: &R, gate: &G)
        requires { HasBatchRooms self.old }
        ensures rooms { HasBatchRooms self.new }
        ensures count { self.new.count ≡ self.old.count }
        ensures frames { frames_in self.new ≡ frames_in self.old }
        ensures read { IsRead self.new }
    {
        let count = self.count;
        read_slots(rt, &self.bytes, self.slots.as_mut_slice(), count, gate);
    }

    /// Reads the frames of the page that was given last, 16 at most, from this place on, and answers the place behind
    /// them.
    pub(crate) fn fill<R: Threads, G: Gate>(
        &mut self,
        rt: &R,
        reader: &StreamReader,
        place: Place,
        gate: &G,
    ) -> Place
        requires rooms { HasBatchRooms self.old }
        requires few { place.frame ≤ 48 }
        ensures rooms { HasBatchRooms self.new }
        ensures read { IsRead self.new }
        ensures frames { (heard : Heard) → IsGiven reader.now heard → left_from place heard.packets ≡ frames_in self.new ++ left_from result heard.packets }
        ensures few { result.frame ≤ 48 }
        ensures within { position result ≤ 12240 }
        ensures ahead { 0 < self.new.count → position place + self.new.count ≤ position result }
        ensures none { self.new.count ≡ 0 → (heard : Heard) → IsGiven reader.now heard → left_from result heard.packets ≡ [] }
    {
        let next = self.gather(reader, place);
        self.read(rt, gate);
        next
    }
}
