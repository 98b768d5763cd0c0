//! The frames of an encoder, made of windows of samples.
ghost use Rattle.std.specs.Prelude.{◌≡◌, ℕ, ◌*◌, ◌<◌, ◌≤◌, length, slice_index_or, Some, IfOk};
ghost use Rattle.std.specs.List.{concat};
ghost use Rattle.celt_analysis.specs.declared.batch.WindowSlot.{WindowSlot};
ghost use Rattle.celt_analysis.specs.Analyses.{Analysis};
ghost use Rattle.celt_analysis.specs.Batches.{AreWindows, IsWindow};
ghost use Rattle.celt_analysis.specs.Signals.{window_size};
ghost use Rattle.celt_encode.specs.Encoders.{encoded};
ghost use Rattle.celt_session.specs.EncoderWorks.{encoder_after, encoder_work, AreRooms, CanTurn, IsOn, Makes, Shows};
ghost use Rattle.celt_base.specs.declared.kind.Kind.{Kind};
ghost use Rattle.celt_session.specs.EncodedFrames.{Footing, first_footing};
ghost use Rattle.celt_session.specs.FrameWorks.{Framed, batch_len};
ghost use Rattle.celt_session.specs.FrameFunctions.{frames_from};

use crate::batch::Batch;
use crate::hearing::{Hearing, Tables, Trail, hear, window_len};
use celt_analysis::{Analysis, WindowSlot};
use celt_base::kind::Kind;
use celt_base::outside::Gate;
use celt_base::state::Setting;
use celt_base::status::OutOfMemory;
use celt_encode::Encoder;
use fixed_math::{Exp, Trig};
use frame_symbols::Symbols;
use std::alloc::Global;
use std::mem::swap;
use std::thread::Threads;

/// An encoder, with the room for 16 windows and for what is found in them.
#[derive(Drop)]
pub(crate) struct EncoderWork {
    kind: Kind,
    encoder: Encoder,
    slots: Vec<WindowSlot>,
    symbols: Symbols,
    tables: Tables,
    trail: Trail,
}

// Shortens a window to that of a kind.
fn shorten_window(slot: &mut WindowSlot, kind: Kind)
    requires { window_size kind ≤ length slot.old.window.items }
    ensures { IsWindow kind slot.new }
{
    slot.window.truncate(window_len(kind));
}

// Shortens the windows of slots to those of a kind.
fn shorten_windows(slots: &mut [WindowSlot], kind: Kind)
    requires { AreRooms kind slots.old }
    ensures len { length slots.new ≡ length slots.old }
    ensures windows { AreWindows kind slots.new }
{
    for k in 0..slots.len() {
        shorten_window(&mut slots[k], kind);
    }
}

// Encodes the frames of slots in order, each of so many bytes.
fn encode_slots(
    encoder: &mut Encoder,
    slots: &[WindowSlot],
    symbols: &mut Symbols,
    bytes: usize,
    out: &mut [u8],
)
    requires least { 2 ≤ bytes }
    requires most { bytes ≤ 1275 }
    requires kinds { (k : ℕ) (d : WindowSlot) → k < length slots.now → (slice_index_or slots.now k d).analysis.kind ≡ Some encoder.old.kind }
    requires room { length out.old ≡ length slots.now * bytes }
    ensures kind { encoder.new.kind ≡ encoder.old.kind }
    ensures encoder { (analyses : ℕ → Analysis) → ((k : ℕ) (d : WindowSlot) → k < length slots.now → (slice_index_or slots.now k d).analysis ≡ analyses k)
        → encoder.new ≡ encoder_after encoder.old analyses bytes (length slots.now) }
    ensures frames { (analyses : ℕ → Analysis) → ((k : ℕ) (d : WindowSlot) → k < length slots.now → (slice_index_or slots.now k d).analysis ≡ analyses k)
        → out.new ≡ concat (frames_from (λ k. encoded (encoder_after encoder.old analyses bytes k) (analyses k) bytes) 0 (length slots.now)) }
{
    let mut made = 0;
    while made < slots.len() {
        let from = made * bytes;
        encoder.frame(&slots[made].analysis, &mut out[from..from + bytes], symbols);
        made += 1;
    }
}

// An empty window with the room for what is found in it.
fn empty_slot(alloc: Global, kind: Kind) -> Result<WindowSlot, OutOfMemory>
    ensures { IfOk result (λ slot. IsWindow kind slot) }
{
    let Ok(window) = vec![in alloc; 0i16; window_len(kind)] else {
        return Err(OutOfMemory);
    };
    let Ok(analysis) = Analysis::new(alloc) else {
        return Err(OutOfMemory);
    };
    Ok(WindowSlot {
        window,
        settings: [Setting::off(); 3],
        analysis,
    })
}

// The slots of a batch.
fn empty_slots(alloc: Global, kind: Kind) -> Result<Vec<WindowSlot>, OutOfMemory>
    ensures count { IfOk result (λ slots. length slots.items ≡ 16) }
    ensures windows { IfOk result (λ slots. AreWindows kind slots.items) }
{
    let mut slots = Vec::new(alloc);
    for i in 0..16usize {
        let Ok(slot) = empty_slot(alloc, kind) else {
            return Err(OutOfMemory);
        };
        if slots.push(slot).is_err() {
            return Err(OutOfMemory);
        }
    }
    Ok(slots)
}

impl EncoderWork {
    /// An encoder before its first frame.
    pub(crate) fn new(alloc: Global, kind: Kind) -> Result<EncoderWork, OutOfMemory>
        ensures makes { IfOk result (λ work. Makes work kind) }
        ensures shows { IfOk result (λ work. Shows work first_footing) }
    {
        let Ok(encoder) = Encoder::new(alloc, kind) else {
            return Err(OutOfMemory);
        };
        let Ok(symbols) = Symbols::new(alloc) else {
            return Err(OutOfMemory);
        };
        let Ok(slots) = empty_slots(alloc, kind) else {
            return Err(OutOfMemory);
        };
        let trail = Trail {
            earlier: Setting::off(),
            last: Setting::off(),
        };
        let tables = Tables {
            trig: Trig::new(),
            exp: Exp::new(),
        };
        Ok(EncoderWork {
            kind,
            encoder,
            slots,
            symbols,
            tables,
            trail,
        })
    }
}

impl EncoderWork {
    /// Takes an encoder of another kind in place of its own, and shortens its windows to those of this kind.
    pub(crate) fn turn(&mut self, encoder: &mut Encoder, kind: Kind)
        requires { CanTurn self.old encoder.old kind }
        ensures makes { Makes self.new kind }
        ensures shows { (s : Footing) → IsOn kind encoder.old s → self.old.trail.earlier ≡ s.earlier → self.old.trail.last ≡ s.last → Shows self.new s }
    {
        swap(&mut self.encoder, encoder);
        self.kind = kind;
        shorten_windows(self.slots.as_mut_slice(), kind);
    }

    /// Makes the frames of a batch, one behind the other, in all of the room. The windows stand in the samples,
    /// channels interleaved: each has the 1145 samples per channel before its frame and the frame's own.
    pub(crate) fn frames<R: Threads, G: Gate>(
        &mut self,
        rt: &R,
        batch: Batch,
        samples: &[i16],
        out: &mut [u8],
        gate: &G,
    )
        requires kind { Makes self.old batch.kind }
        requires windows { length samples.now ≡ batch_len batch.kind batch.count }
        requires room { length out.old ≡ batch.count * batch.bytes }
        ensures works { (s : Footing) → Shows self.old s → Framed encoder_work s batch samples.now self.new out.new }
        ensures kinds { Makes self.new batch.kind }
    {
        let before = Hearing {
            kind: self.kind,
            count: batch.count,
            trail: self.trail,
        };
        self.trail = hear(
            rt,
            self.slots.as_mut_slice(),
            samples,
            before,
            &self.tables,
            gate,
        );
        let (slots, _) = self.slots.as_slice().split_at(batch.count);
        encode_slots(
            &mut self.encoder,
            slots,
            &mut self.symbols,
            batch.bytes,
            out,
        );
    }
}
