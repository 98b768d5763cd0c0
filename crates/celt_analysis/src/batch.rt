//! The windows of a batch of frames, in two halves that run side by side.
ghost use Rattle.std.specs.Prelude.{◌≡◌, length};
ghost use Rattle.celt_analysis.specs.Batches.{AnalysesSlot, AnalysesSlots, AreWindows, FindsPitch, FindsPitches, IsWindow};

use crate::analysis::{Analysis, analyse};
use crate::pitches::pitch;
use celt_base::halves::{Work, in_halves};
use celt_base::kind::Kind;
use celt_base::outside::Gate;
use celt_base::state::Setting;
use fixed_math::{Exp, Trig};
use std::thread::Threads;

/// A window of a batch: 1145 samples of each channel before those of its frame, channels in turn; the settings of the
/// post-filter of the two frames before and of the frame; and what is found in the frame.
#[derive(Drop)]
pub struct WindowSlot {
    pub window: Vec<i16>,
    pub settings: [Setting; 3],
    pub analysis: Analysis,
}

// What is done with each slot where pitches are found. A half enters the gate first.
#[derive(Drop)]
struct PitchFinding<'a, G> {
    kind: Kind,
    gate: &'a G,
}

impl<'a, G: Gate> Work<WindowSlot> for PitchFinding<'a, G> {
    ghost can_fill = { λ work slot. IsWindow work.kind slot };

    ghost fills = { λ work before after. FindsPitch work.kind before after };

    fn begin(&self, half: u32) {
        self.gate.enter(half);
    }

    fn fill(&self, _half: u32, slot: &mut WindowSlot) {
        find_pitch(self.kind, slot);
    }
}

// The same where frames are analysed.
#[derive(Drop)]
struct FrameAnalysis<'a, G> {
    kind: Kind,
    trig: &'a Trig,
    exp: &'a Exp,
    gate: &'a G,
}

impl<'a, G: Gate> Work<WindowSlot> for FrameAnalysis<'a, G> {
    ghost can_fill = { λ work slot. IsWindow work.kind slot };

    ghost fills = { λ work before after. AnalysesSlot work.kind before after };

    fn begin(&self, half: u32) {
        self.gate.enter(half);
    }

    fn fill(&self, _half: u32, slot: &mut WindowSlot) {
        analyse_slot(self.kind, self.trig, self.exp, slot);
    }
}

// Puts the pitch of a slot's window into the last of its settings.
fn find_pitch(kind: Kind, slot: &mut WindowSlot)
    requires { IsWindow kind slot.old }
    ensures { FindsPitch kind slot.old slot.new }
{
    slot.settings[2] = pitch(slot.window.as_slice(), kind);
}

// Analyses the frame of a slot.
fn analyse_slot(kind: Kind, trig: &Trig, exp: &Exp, slot: &mut WindowSlot)
    requires { IsWindow kind slot.old }
    ensures { AnalysesSlot kind slot.old slot.new }
{
    analyse(
        slot.window.as_slice(),
        kind,
        &slot.settings,
        trig,
        exp,
        &mut slot.analysis,
    );
}

/// Puts the pitch of each window of this kind into the last of its settings.
pub fn pitch_batch<R: Threads, G: Gate>(rt: &R, slots: &mut [WindowSlot], kind: Kind, gate: &G)
    requires { AreWindows kind slots.old }
    ensures { FindsPitches kind slots.old slots.new }
{
    let work = PitchFinding { kind, gate };
    in_halves(rt, slots, &work);
}

/// Analyses the frame of each window of this kind, with its settings.
pub fn analyse_batch<R: Threads, G: Gate>(
    rt: &R,
    slots: &mut [WindowSlot],
    kind: Kind,
    trig: &Trig,
    exp: &Exp,
    gate: &G,
)
    requires { AreWindows kind slots.old }
    ensures { AnalysesSlots kind slots.old slots.new }
{
    let work = FrameAnalysis {
        kind,
        trig,
        exp,
        gate,
    };
    in_halves(rt, slots, &work);
}
