//! Hearing the windows of a batch: each is put into its slot, its pitch is found, and its frame is analysed with the settings
//! of the two frames before.
ghost use Rattle.std.specs.Prelude.{◌≡◌, ℕ, ◌*◌, ◌<◌, ◌≤◌, [], ◌∷◌, length, take, slice_index_or};
ghost use Rattle.celt_analysis.specs.Batches.{AreWindows, IsWindow};
ghost use Rattle.celt_analysis.specs.Signals.{setting_of, window_size};
ghost use Rattle.celt_base.specs.declared.state.Setting.{Setting};
ghost use Rattle.celt_session.specs.FrameWorks.{batch_len};
ghost use Rattle.celt_session.specs.Frames.{duration};
ghost use Rattle.celt_session.specs.Hearings.{window_at, HoldWindows, HoldOwn, trail_by, Passed, pitches_of, HoldHeard};

use celt_analysis::{WindowSlot, analyse_batch, pitch_batch};
use celt_base::kind::Kind;
use celt_base::outside::Gate;
use celt_base::state::Setting;
use fixed_math::{Exp, Trig};
use std::thread::Threads;

/// The settings of the post-filter of the two frames before.
#[derive(Clone, Copy, Debug, PartialEq, Eq)]
pub(crate) struct Trail {
    /// Of the frame before the last.
    pub earlier: Setting,
    /// Of the last frame.
    pub last: Setting,
}

/// The kind of a batch's frames, how many they are, and the settings before them.
#[derive(Clone, Copy, Debug, PartialEq, Eq)]
pub(crate) struct Hearing {
    pub kind: Kind,
    pub count: usize,
    pub trail: Trail,
}

/// The tables that are needed to hear and to encode.
#[derive(Drop)]
pub(crate) struct Tables {
    pub trig: Trig,
    pub exp: Exp,
}

/// The samples of a window, channels in turn.
pub(crate) fn window_len(kind: Kind) -> usize
    ensures value { result ≡ batch_len kind 1 }
    ensures size { result ≡ window_size kind }
{
    usize::from(kind.channels) * (1145 + (120usize << kind.lm))
}

// The samples of a frame, channels in turn.
fn frame_len(kind: Kind) -> usize
    ensures { result ≡ kind.channels * duration kind }
{
    usize::from(kind.channels) * (120usize << kind.lm)
}

// Puts a window into its slot.
fn fill_window(slot: &mut WindowSlot, window: &[i16])
    requires { length slot.old.window.items ≡ length window.now }
    ensures { slot.new.window.items ≡ window.now }
{
    slot.window.as_mut_slice().copy_from_slice(window);
}

// The window of frame k of a batch.
fn window_in(kind: Kind, samples: &[i16], k: usize, count: usize) -> &[i16]
    requires samples { length samples.now ≡ batch_len kind count }
    requires inside { k < count }
    ensures value { result.now ≡ window_at kind samples.now k }
    ensures len { length result.now ≡ window_size kind }
{
    let (_, behind) = samples.split_at(k * frame_len(kind));
    let (window, _) = behind.split_at(window_len(kind));
    window
}

// Puts the windows of a batch into their slots.
fn fill_windows(slots: &mut [WindowSlot], kind: Kind, samples: &[i16])
    requires windows { AreWindows kind slots.old }
    requires samples { length samples.now ≡ batch_len kind (length slots.old) }
    ensures len { length slots.new ≡ length slots.old }
    ensures windows { HoldWindows (window_at kind samples.now) slots.new }
    ensures sizes { AreWindows kind slots.new }
{
    let count = slots.len();
    for k in 0..count {
        fill_window(&mut slots[k], window_in(kind, samples, k, count));
    }
}

// Passes the settings of the frames before on to a slot, and the slot's own to the next.
fn pass_slot(slot: &mut WindowSlot, trail: Trail) -> Trail
    ensures settings { slot.new.settings ≡ trail.earlier ∷ trail.last ∷ setting_of slot.old.settings 2 ∷ [] }
    ensures window { slot.new.window ≡ slot.old.window }
    ensures trail { result ≡ record { earlier = trail.last; last = setting_of slot.old.settings 2 } }
{
    let own = slot.settings[2];
    slot.settings = [trail.earlier, trail.last, own];
    Trail {
        earlier: trail.last,
        last: own,
    }
}

// Passes the settings of the frames before from slot to slot. The answer is what is passed on to the next batch.
fn pass_settings(slots: &mut [WindowSlot], trail: Trail) -> Trail
    ensures len { length slots.new ≡ length slots.old }
    ensures passed { (own : ℕ → Setting) → HoldOwn own slots.old → (k : ℕ) (d : WindowSlot) → k < length slots.old
        → Passed own trail k (slice_index_or slots.old k d) (slice_index_or slots.new k d) }
    ensures trail { (own : ℕ → Setting) → HoldOwn own slots.old → result ≡ trail_by own trail (length slots.old) }
{
    let mut now = trail;
    for k in 0..slots.len() {
        now = pass_slot(&mut slots[k], now);
    }
    now
}

// Hears the windows of a batch in as many slots.
fn hear_all<R: Threads, G: Gate>(
    rt: &R,
    slots: &mut [WindowSlot],
    samples: &[i16],
    before: Hearing,
    tables: &Tables,
    gate: &G,
) -> Trail
    requires windows { AreWindows before.kind slots.old }
    requires samples { length samples.now ≡ batch_len before.kind (length slots.old) }
    ensures len { length slots.new ≡ length slots.old }
    ensures sizes { AreWindows before.kind slots.new }
    ensures heard { HoldHeard before.kind (window_at before.kind samples.now) before.trail slots.new }
    ensures trail { result ≡ trail_by (pitches_of before.kind (window_at before.kind samples.now)) before.trail (length slots.old) }
{
    let kind = before.kind;
    fill_windows(slots, kind, samples);
    pitch_batch(rt, slots, kind, gate);
    let trail = pass_settings(slots, before.trail);
    analyse_batch(rt, slots, kind, &tables.trig, &tables.exp, gate);
    trail
}

/// Hears the windows of a batch in the first slots, and answers the settings for the next one.
pub(crate) fn hear<R: Threads, G: Gate>(
    rt: &R,
    slots: &mut [WindowSlot],
    samples: &[i16],
    before: Hearing,
    tables: &Tables,
    gate: &G,
) -> Trail
    requires few { before.count ≤ length slots.old }
    requires windows { AreWindows before.kind slots.old }
    requires samples { length samples.now ≡ batch_len before.kind before.count }
    ensures len { length slots.new ≡ length slots.old }
    ensures sizes { AreWindows before.kind slots.new }
    ensures heard { HoldHeard before.kind (window_at before.kind samples.now) before.trail (take before.count slots.new) }
    ensures trail { result ≡ trail_by (pitches_of before.kind (window_at before.kind samples.now)) before.trail before.count }
{
    let (front, _) = slots.split_at_mut(before.count);
    hear_all(rt, front, samples, before, tables, gate)
}
