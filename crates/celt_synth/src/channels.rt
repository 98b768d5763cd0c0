//! The buffer of a channel: what it keeps from frame to frame, and a frame that sounds in it.
ghost use Rattle.std.specs.Prelude.{◌≡◌, ◌*◌, ◌+◌, ◌^◌, ◌<◌, ◌≤◌, ℕ, ℤ, pos, unsigned_abs, length, All, IfOk};
ghost use Rattle.fixed_math.specs.Items.{item};

use crate::filters::{Output, START, emit};
use crate::signals::{Form, advance, play};
use celt_base::status::OutOfMemory;
use fixed_math::{Exp, Trig};
use std::alloc::Global;
use std::marker::Model;

/// The tables of angles and powers.
#[derive(Drop)]
pub struct Tables {
    pub trig: Trig,
    pub exp: Exp,
}

/// The buffer of a channel.
#[derive(Drop)]
pub struct ChannelBuffer {
    values: Vec<i64>,
    memory: i64,
}

impl Model for ChannelBuffer {
    ghost use Rattle.celt_synth.specs.Signals.{Channel, IsBuffer, kept_in};

    ghost Value = { Channel };

    ghost view = { λ b. record { kept = kept_in b.values.items; memory = b.memory } };

    ghost invariant = { λ b. IsBuffer b.values.items b.memory };
}

// A list of zeros.
fn zeros(alloc: Global, count: usize) -> Result<Vec<i64>, OutOfMemory>
    ensures zeros { IfOk result (λ v. (p : ℕ) → item v.items p ≡ pos 0) }
    ensures length { IfOk result (λ v. length v.items ≡ count) }
{
    match vec![in alloc; 0i64; count] {
        Ok(values) => Ok(values),
        Err(_) => Err(OutOfMemory),
    }
}

impl ChannelBuffer {
    ghost use Rattle.std.specs.Prelude.{◌≡◌, ◌*◌, ◌+◌, ◌^◌, ◌<◌, ◌≤◌, ℕ, ℤ, unsigned_abs, length, All, IfOk};
    ghost use Rattle.mdct_fixed.specs.Mdct.{IsSize};
    ghost use Rattle.celt_synth.specs.Filters.{AreEmitted, frame_of};
    ghost use Rattle.celt_synth.specs.Signals.{channel_after, outputs_of};
    ghost use Rattle.celt_synth.specs.States.{quiet};

    /// Of a channel before its first frame.
    pub fn new(alloc: Global) -> Result<ChannelBuffer, OutOfMemory>
        ensures { IfOk result (λ buffer. buffer ≡ quiet) }
    {
        match zeros(alloc, 2104) {
            Ok(values) => Ok(ChannelBuffer { values, memory: 0 }),
            Err(_) => Err(OutOfMemory),
        }
    }

    /// As before the first frame.
    pub fn restart(&mut self)
        ensures { self.new ≡ quiet }
    {
        self.values.fill(0);
        self.memory = 0;
    }

    /// Sounds a frame: from its spectrum to its samples.
    pub fn sound(
        &mut self,
        spectrum: &[i64],
        form: Form,
        tables: &Tables,
        out: &mut [i16],
        place: Output,
    )
        requires size { IsSize (120 * form.blocks) }
        requires length { length spectrum.now ≡ 120 * form.blocks }
        requires sizes { All (λ v. unsigned_abs v ≤ 2 ^ 30) spectrum.now }
        requires gain { unsigned_abs place.gain ≤ 32768 }
        requires stride { 1 ≤ place.stride }
        requires room { (t : ℕ) → t < 120 * form.blocks → place.start + place.stride * t < length out.old }
        ensures channel { self.new ≡ channel_after form self.old spectrum.now }
        ensures samples { AreEmitted place.gain self.old.memory (frame_of (outputs_of form self.old.kept spectrum.now)) place.start place.stride (120 * form.blocks) out.old out.new }
    {
        let n = 120 * form.blocks;
        let values = self.values.as_mut_slice();
        play(spectrum, form, &tables.trig, values);
        let (_, behind) = values.split_at(START);
        let (outputs, _) = behind.split_at(n);
        let memory = emit(outputs, self.memory, &tables.exp, out, place);
        advance(values, n);
        self.memory = memory;
    }
}
