//! The frames of samples, batch by batch, and their packets.
ghost use Rattle.celt_session.specs.EncoderPairs.{pair_work};
ghost use Rattle.std.specs.Prelude.{◌≡◌, ◌+◌, ◌-◌, ◌*◌, ◌^◌, ◌≤◌, ◌<◌, ◌++◌, ℕ, List, length, take, drop, IfOk, vec_capacity};
ghost use Rattle.celt_base.specs.Outside.{HasCause};
ghost use Rattle.celt_session.specs.FrameWorks.{batch_len};
ghost use Rattle.celt_session.specs.Packers.{FailsBefore};
ghost use Rattle.celt_session.specs.Makers.{plan_frame, group_bytes, HasMade, IsMaker, Made, Taken, GoesOn};

use crate::batch::Batch;
use crate::batching::{make_batch, take_in};
use crate::encoder_pair::EncoderPair;
use crate::maker::Maker;
use crate::packet_writer::{add_frames, write_full};
use crate::plan::Plan;
use celt_base::held::drop_front;
use celt_base::outside::{Failed, Gate, Sink};
use std::thread::Threads;

/// How many bytes are held where so many frames can be made.
pub(crate) fn held_len(plan: Plan, count: usize) -> usize
    requires { count ≤ 16 }
    ensures value { result ≡ 2 * batch_len plan.kind count }
    ensures most { result ≤ 66020 }
{
    2 * (usize::from(plan.kind.channels) * (1145 + count * plan.samples))
}

/// Makes so many frames of the first windows that are held, and puts them into packets.
pub(crate) fn make_frames<R: Threads, K: Sink, G: Gate>(
    rt: &R,
    plan: Plan,
    count: usize,
    maker: &mut Maker<EncoderPair>,
    output: &mut K,
    gate: &G,
) -> Result<(), Failed>
    requires some { 1 ≤ count }
    requires few { count ≤ 16 }
    requires maker { IsMaker pair_work plan maker.old }
    requires held { 2 * batch_len plan.kind count ≤ length maker.old.framer.held.items }
    requires packets { maker.old.packer.packets + maker.old.packer.count < 2 ^ 47 }
    ensures maker { IsMaker pair_work plan maker.new }
    ensures made { (heard : List ℕ) (done : ℕ) → HasMade pair_work plan heard done maker.old →
        Made pair_work plan heard (done + count) maker.old.packer.packets maker.new (K.held output.old) (K.held output.new) result }
    ensures failed { (heard : List ℕ) (done : ℕ) → HasMade pair_work plan heard done maker.old →
        FailsBefore plan (plan_frame pair_work.function plan heard) (done + count - 1) maker.old.packer.packets (K.held output.old) (K.held output.new) result }
    ensures held { length maker.new.framer.held.items ≡ length maker.old.framer.held.items - group_bytes plan.kind.channels (count * plan.samples) }
    ensures some { IfOk result (λ written. 1 ≤ maker.new.packer.count) }
    ensures sum { maker.new.packer.packets + maker.new.packer.count ≤ maker.old.packer.packets + maker.old.packer.count + count }
    ensures cause { HasCause (K.faults output.old) (K.faults output.new) result }
{
    let batch = Batch {
        kind: plan.kind,
        bytes: plan.bytes,
        count,
    };
    make_batch(rt, batch, &mut maker.framer, &mut maker.work, gate);
    let used = 2 * usize::from(plan.kind.channels) * count * plan.samples;
    drop_front(&mut maker.framer.held, used);
    let (frames, _) = maker.framer.frames.split_at(count * plan.bytes);
    add_frames(plan, frames, count, &mut maker.packer, output)
}

/// Makes 16 frames, and writes the pages of the packets that are full.
fn make_whole<R: Threads, K: Sink, G: Gate>(
    rt: &R,
    plan: Plan,
    maker: &mut Maker<EncoderPair>,
    output: &mut K,
    gate: &G,
) -> Result<(), Failed>
    requires maker { IsMaker pair_work plan maker.old }
    requires held { 2 * batch_len plan.kind 16 ≤ length maker.old.framer.held.items }
    requires packets { maker.old.packer.packets + maker.old.packer.count < 2 ^ 47 }
    ensures maker { IsMaker pair_work plan maker.new }
    ensures made { (heard : List ℕ) (done : ℕ) → HasMade pair_work plan heard done maker.old →
        Made pair_work plan heard (done + 16) maker.old.packer.packets maker.new (K.held output.old) (K.held output.new) result }
    ensures held { length maker.new.framer.held.items ≡ length maker.old.framer.held.items - group_bytes plan.kind.channels (16 * plan.samples) }
    ensures less { IfOk result (λ written. maker.new.packer.count < plan.group) }
    ensures sum { maker.new.packer.packets + maker.new.packer.count ≤ maker.old.packer.packets + maker.old.packer.count + 16 }
    ensures cause { HasCause (K.faults output.old) (K.faults output.new) result }
{
    let Ok(()) = make_frames(rt, plan, 16, maker, output, gate) else {
        return Err(Failed);
    };
    write_full(plan, &mut maker.packer, output)
}

/// Takes in bytes of samples. Frames are made 16 at a time, as soon as all samples of their windows are held, and
/// the pages of packets that are full are written.
pub(crate) fn take_samples<R: Threads, K: Sink, G: Gate>(
    rt: &R,
    plan: Plan,
    piece: &[u8],
    maker: &mut Maker<EncoderPair>,
    output: &mut K,
    gate: &G,
) -> Result<(), Failed>
    requires maker { IsMaker pair_work plan maker.old }
    requires going { GoesOn plan maker.old }
    requires packets { maker.old.packer.packets + maker.old.packer.count + length maker.old.framer.held.items + length piece.now < 2 ^ 46 }
    ensures maker { IsMaker pair_work plan maker.new }
    ensures taken { (heard : List ℕ) (batches : ℕ) → HasMade pair_work plan heard (16 * batches) maker.old →
        Taken pair_work plan (heard ++ piece.now) maker.old.packer.packets maker.new (K.held output.old) (K.held output.new) result }
    ensures going { IfOk result (λ taken. GoesOn plan maker.new) }
    ensures sum { IfOk result (λ taken. maker.new.packer.packets + maker.new.packer.count + length maker.new.framer.held.items
        ≤ maker.old.packer.packets + maker.old.packer.count + length maker.old.framer.held.items + length piece.now) }
    ensures cause { HasCause (K.faults output.old) (K.faults output.new) result }
{
    let limit = held_len(plan, 16);
    let mut rest = piece;
    while !rest.is_empty() {
        let count = take_in(&mut maker.framer.held, rest, limit);
        let (_, behind) = rest.split_at(count);
        rest = behind;
        if maker.framer.held.len() == limit {
            let Ok(()) = make_whole(rt, plan, maker, output, gate) else {
                return Err(Failed);
            };
        }
    }
    Ok(())
}
