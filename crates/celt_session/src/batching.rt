//! What is held of the samples, and the frames of a batch of windows.
ghost use Rattle.celt_session.specs.EncoderPairs.{pair_work};
ghost use Rattle.std.specs.Prelude.{◌≡◌, ◌+◌, ◌-◌, ◌*◌, ◌≤◌, [], ◌++◌, length, take, drop, min, replicate, IfOk, vec_capacity};
ghost use Rattle.celt_base.specs.declared.kind.Kind.{Kind};
ghost use Rattle.wav_edge.specs.Samples.{samples_of};
ghost use Rattle.celt_session.specs.Frames.{duration};
ghost use Rattle.celt_session.specs.FrameWorks.{Framed, batch_len};
ghost use Rattle.celt_session.specs.Framers.{HasFramerRooms};

use crate::batch::Batch;
use crate::encoder_pair::EncoderPair;
use crate::framer::Framer;
use crate::memory::zero_bytes;
use celt_base::kind::Kind;
use celt_base::outside::Gate;
use celt_base::status::OutOfMemory;
use std::alloc::Global;
use std::thread::Threads;
use wav_edge::samples::to_samples;

/// The samples per channel of a frame of this kind.
pub(crate) fn samples_in(kind: Kind) -> usize
    ensures value { result ≡ duration kind }
    ensures least { 120 ≤ result }
    ensures most { result ≤ 960 }
{
    120 << kind.lm
}

/// Room for the bytes that are held.
fn held_room(alloc: Global) -> Result<Vec<u8>, OutOfMemory>
    ensures empty { IfOk result (λ held. held.items ≡ []) }
    ensures reserved { IfOk result (λ held. vec_capacity held ≡ 66020) }
{
    match Vec::with_capacity(alloc, 66020) {
        Ok(held) => Ok(held),
        Err(_) => Err(OutOfMemory),
    }
}

/// Room for the samples of a batch.
fn samples_room(alloc: Global) -> Result<Vec<i16>, OutOfMemory>
    ensures { IfOk result (λ samples. length samples.items ≡ 33010) }
{
    match vec![in alloc; 0i16; 33010] {
        Ok(samples) => Ok(samples),
        Err(_) => Err(OutOfMemory),
    }
}

/// A framer that holds nothing.
pub(crate) fn new_framer(alloc: Global) -> Result<Framer, OutOfMemory>
    ensures rooms { IfOk result (λ framer. HasFramerRooms framer) }
    ensures empty { IfOk result (λ framer. framer.held.items ≡ []) }
{
    let Ok(held) = held_room(alloc) else {
        return Err(OutOfMemory);
    };
    let Ok(samples) = samples_room(alloc) else {
        return Err(OutOfMemory);
    };
    match zero_bytes(alloc, 20400) {
        Ok(frames) => Ok(Framer {
            held,
            samples,
            frames,
        }),
        Err(_) => Err(OutOfMemory),
    }
}

/// Takes in as many of the bytes as there is room for up to the limit, and answers how many.
pub(crate) fn take_in(held: &mut Vec<u8>, piece: &[u8], limit: usize) -> usize
    requires room { limit ≤ vec_capacity held.old }
    requires within { length held.old.items ≤ limit }
    ensures held { held.new.items ≡ held.old.items ++ take result piece.now }
    ensures count { result ≡ min (length piece.now) (limit - length held.old.items) }
    ensures len { length held.new.items ≡ length held.old.items + result }
    ensures capacity { vec_capacity held.old ≤ vec_capacity held.new }
{
    let count = piece.len().min(limit - held.len());
    let (taken, _) = piece.split_at(count);
    held.extend_from_slice(taken).unwrap();
    count
}

/// Fills up with bytes of 0 to this length.
pub(crate) fn fill_up(held: &mut Vec<u8>, len: usize)
    requires room { len ≤ vec_capacity held.old }
    ensures held { held.new.items ≡ held.old.items ++ replicate (len - length held.old.items) 0 }
    ensures capacity { vec_capacity held.old ≤ vec_capacity held.new }
{
    while held.len() < len {
        held.push(0).unwrap();
    }
}

/// Reads so many samples of the bytes that are held.
fn read_samples(held: &[u8], count: usize, samples: &mut [i16])
    requires held { 2 * count ≤ length held.now }
    requires room { count ≤ length samples.old }
    ensures samples { take count samples.new ≡ samples_of (take (2 * count) held.now) }
    ensures len { length samples.new ≡ length samples.old }
{
    let (bytes, _) = held.split_at(2 * count);
    let (out, _) = samples.split_at_mut(count);
    to_samples(bytes, out);
}

/// Makes the frames of a batch, whose windows are the first that are held.
pub(crate) fn make_batch<R: Threads, G: Gate>(
    rt: &R,
    batch: Batch,
    framer: &mut Framer,
    work: &mut EncoderPair,
    gate: &G,
)
    requires kind { pair_work.Makes work.old batch.kind }
    requires rooms { HasFramerRooms framer.old }
    requires held { 2 * batch_len batch.kind batch.count ≤ length framer.old.held.items }
    ensures works { (s : pair_work.function.State) → pair_work.Shows work.old s →
        Framed pair_work s batch (samples_of (take (2 * batch_len batch.kind batch.count) framer.old.held.items)) work.new (take (batch.count * batch.bytes) framer.new.frames.items) }
    ensures kinds { pair_work.Makes work.new batch.kind }
    ensures rooms { HasFramerRooms framer.new }
    ensures held { framer.new.held ≡ framer.old.held }
{
    let size = usize::from(batch.kind.channels) * (1145 + batch.count * samples_in(batch.kind));
    read_samples(&framer.held, size, &mut framer.samples);
    let (windows, _) = framer.samples.split_at(size);
    let len = batch.count * batch.bytes;
    work.frames(rt, batch, windows, &mut framer.frames[0..len], gate);
}
