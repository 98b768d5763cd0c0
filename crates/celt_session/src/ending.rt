//! The last frames of samples.
ghost use Rattle.celt_session.specs.EncoderPairs.{pair_work};
ghost use Rattle.std.specs.Prelude.{◌≡◌, ◌+◌, ◌-◌, ◌*◌, ◌/◌, ◌%◌, ◌^◌, ◌≤◌, ◌<◌, ℕ, List, length, IfOk};
ghost use Rattle.celt_base.specs.Outside.{HasCause, WritesAll};
ghost use Rattle.celt_session.specs.FrameWorks.{batch_len};
ghost use Rattle.celt_session.specs.Windows.{lead};
ghost use Rattle.celt_session.specs.Packers.{pages_text, Packed, FailsBefore};
ghost use Rattle.celt_session.specs.Makers.{group_bytes, HasMade, IsMaker, GoesOn, plan_frame, settled_for, ending_text};

use crate::batching::fill_up;
use crate::encoder_pair::EncoderPair;
use crate::maker::Maker;
use crate::making::{held_len, make_frames};
use crate::packet_writer::{write_full, write_packet};
use crate::plan::Plan;
use celt_base::outside::{Failed, Gate, Sink};
use std::thread::Threads;

/// How many whole groups of samples are held behind the lead.
fn held_groups(plan: Plan, len: usize) -> usize
    ensures { result ≡ (len - group_bytes plan.kind.channels lead) / (2 * plan.kind.channels) }
{
    let channels = usize::from(plan.kind.channels);
    len.saturating_sub(2 * (channels * 1145)) / (2 * channels)
}

/// Makes the frames whose samples are all held, and writes the pages of the packets that are full.
pub(crate) fn settle<R: Threads, K: Sink, G: Gate>(
    rt: &R,
    plan: Plan,
    maker: &mut Maker<EncoderPair>,
    output: &mut K,
    gate: &G,
) -> Result<(), Failed>
    requires maker { IsMaker pair_work plan maker.old }
    requires going { GoesOn plan maker.old }
    requires packets { maker.old.packer.packets + maker.old.packer.count < 2 ^ 46 }
    ensures settled { (heard : List ℕ) (batches : ℕ) → HasMade pair_work plan heard (16 * batches) maker.old →
        WritesAll (K.held output.old) (K.held output.new) result
        (pages_text plan (plan_frame pair_work.function plan heard) maker.old.packer.packets (settled_for plan heard - maker.old.packer.packets)) }
    ensures cause { HasCause (K.faults output.old) (K.faults output.new) result }
{
    let count = held_groups(plan, maker.framer.held.len()) / plan.samples;
    if count == 0 {
        return Ok(());
    }
    let Ok(()) = make_frames(rt, plan, count, maker, output, gate) else {
        return Err(Failed);
    };
    write_full(plan, &mut maker.packer, output)
}

/// Makes the last frames, so many, with samples of 0 behind those that are held.
fn make_last<R: Threads, K: Sink, G: Gate>(
    rt: &R,
    plan: Plan,
    frames: usize,
    maker: &mut Maker<EncoderPair>,
    output: &mut K,
    gate: &G,
) -> Result<(), Failed>
    requires some { 1 ≤ frames }
    requires few { frames ≤ 17 }
    requires maker { IsMaker pair_work plan maker.old }
    requires packets { maker.old.packer.packets + maker.old.packer.count < 2 ^ 46 }
    ensures maker { IsMaker pair_work plan maker.new }
    ensures last { (heard : List ℕ) (done : ℕ) → length heard % 2 ≡ 0 → HasMade pair_work plan heard done maker.old →
        Packed plan (plan_frame pair_work.function plan heard) (done + frames) maker.old.packer.packets maker.new.packer (K.held output.old) (K.held output.new) result }
    ensures failed { (heard : List ℕ) (done : ℕ) → length heard % 2 ≡ 0 → HasMade pair_work plan heard done maker.old →
        FailsBefore plan (plan_frame pair_work.function plan heard) (done + frames - 1) maker.old.packer.packets (K.held output.old) (K.held output.new) result }
    ensures some { IfOk result (λ made. 1 ≤ maker.new.packer.count) }
    ensures sum { maker.new.packer.packets + maker.new.packer.count ≤ maker.old.packer.packets + maker.old.packer.count + frames }
    ensures cause { HasCause (K.faults output.old) (K.faults output.new) result }
{
    let mut made = 0;
    while made < frames {
        let count = (frames - made).min(16);
        fill_up(&mut maker.framer.held, held_len(plan, count));
        let Ok(()) = make_frames(rt, plan, count, maker, output, gate) else {
            return Err(Failed);
        };
        made += count;
    }
    Ok(())
}

/// Makes all frames that are left of samples that end here, and writes their pages, the last of which ends the
/// stream.
pub(crate) fn end_samples<R: Threads, K: Sink, G: Gate>(
    rt: &R,
    plan: Plan,
    maker: &mut Maker<EncoderPair>,
    output: &mut K,
    gate: &G,
) -> Result<(), Failed>
    requires maker { IsMaker pair_work plan maker.old }
    requires going { GoesOn plan maker.old }
    requires packets { maker.old.packer.packets + maker.old.packer.count < 2 ^ 46 }
    ensures ends { (heard : List ℕ) (batches : ℕ) → length heard % (2 * plan.kind.channels) ≡ 0 → HasMade pair_work plan heard (16 * batches) maker.old →
        WritesAll (K.held output.old) (K.held output.new) result (ending_text (plan_frame pair_work.function plan heard) plan heard maker.old.packer.packets) }
    ensures cause { HasCause (K.faults output.old) (K.faults output.new) result }
{
    let groups = held_groups(plan, maker.framer.held.len());
    let frames = (120 + groups + plan.samples - 1) / plan.samples;
    let before = maker.packer.packets * plan.group as u64 + maker.packer.count as u64;
    let granule = 120 + before * plan.samples as u64 + groups as u64;
    let Ok(()) = make_last(rt, plan, frames, maker, output, gate) else {
        return Err(Failed);
    };
    write_packet(plan, 4, granule, &mut maker.packer, output)
}
