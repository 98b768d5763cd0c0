//! The bytes of a file behind its header.
ghost use Rattle.celt_session.specs.EncoderPairs.{pair_work};
ghost use Rattle.std.specs.Prelude.{◌≡◌, ◌+◌, ◌*◌, ◌^◌, ◌≤◌, ◌⊎◌, ◌++◌, ℕ, List, [], length, IfOk};
ghost use Rattle.celt_base.specs.Outside.{HasCause, WritesAll};
ghost use Rattle.ogg_pages.specs.Spelling.{spelling};
ghost use Rattle.wav_edge.specs.Reading.{within_size as kept_within};
ghost use Rattle.celt_session.specs.Encoding.{head_page, tags_page};
ghost use Rattle.celt_session.specs.Encodings.{AreSettings};
ghost use Rattle.celt_session.specs.Makers.{HasMade, Taken};
ghost use Rattle.celt_session.specs.FrameSessions.{IsNew, IsTaking, MakesBoth, left_of, IsBegun};

use crate::batching::fill_up;
use crate::encoder_pair::EncoderPair;
use crate::maker::Maker;
use crate::making::{held_len, take_samples};
use crate::page_writer::write_headers;
use crate::planning::plan_of;
use crate::recording::Recording;
use crate::settings::Settings;
use celt_base::outside::{Failed, Gate, Sink};
use std::thread::Threads;

/// The bytes of the samples: those of the declared size, or all.
fn within_size(size: Option<u64>, bytes: &[u8]) -> &[u8]
    ensures { result.now ≡ kept_within size bytes.now }
{
    let Some(size) = size else {
        return bytes;
    };
    if bytes.len() as u64 <= size {
        return bytes;
    }
    let (first, _) = bytes.split_at(size as usize);
    first
}

/// What is left once so many bytes came.
fn left_behind(left: Option<u64>, count: usize) -> Option<u64>
    ensures { result ≡ left_of left count }
{
    match left {
        Some(left) => Some(left.saturating_sub(count as u64)),
        None => None,
    }
}

/// Takes in the bytes of a piece that are those of samples. What follows them is passed over.
pub(crate) fn take_piece<R: Threads, K: Sink, G: Gate>(
    rt: &R,
    recording: &mut Recording,
    piece: &[u8],
    maker: &mut Maker<EncoderPair>,
    output: &mut K,
    gate: &G,
) -> Result<(), Failed>
    requires taking { IsTaking pair_work recording.old maker.old (2 ^ 40) }
    requires short { length piece.now ≤ 2 ^ 40 }
    ensures plan { recording.new.plan ≡ recording.old.plan }
    ensures left { recording.new.left ≡ left_of recording.old.left (length piece.now) }
    ensures taken { (heard : List ℕ) (batches : ℕ) → HasMade pair_work recording.old.plan heard (16 * batches) maker.old →
        Taken pair_work recording.old.plan (heard ++ kept_within recording.old.left piece.now) maker.old.packer.packets maker.new (K.held output.old) (K.held output.new) result }
    ensures taking { IfOk result (λ taken. (fed : ℕ) → IsTaking pair_work recording.old maker.old fed → IsTaking pair_work recording.new maker.new (fed + length piece.now)) }
    ensures cause { HasCause (K.faults output.old) (K.faults output.new) result }
{
    let kept = within_size(recording.left, piece);
    recording.left = left_behind(recording.left, piece.len());
    take_samples(rt, recording.plan, kept, maker, output, gate)
}

/// Begins the samples: writes the pages of the headers, and holds the lead of samples of 0.
pub(crate) fn begin_recording<K: Sink>(
    settings: Settings,
    channels: u8,
    size: Option<u64>,
    maker: &mut Maker<EncoderPair>,
    output: &mut K,
) -> Result<Recording, Failed>
    requires settings { AreSettings settings }
    requires channels { (channels ≡ 1) ⊎ (channels ≡ 2) }
    requires new { IsNew pair_work maker.old }
    requires makes { MakesBoth pair_work settings maker.old.work }
    ensures bytes { WritesAll (K.held output.old) (K.held output.new) result (spelling (head_page channels) ++ spelling tags_page) }
    ensures begun { IfOk result (λ r. IsBegun pair_work settings channels size maker.old r maker.new) }
    ensures cause { HasCause (K.faults output.old) (K.faults output.new) result }
{
    let plan = plan_of(settings, channels);
    fill_up(&mut maker.framer.held, held_len(plan, 0));
    match write_headers(channels, &mut maker.packer.page, output) {
        Ok(()) => Ok(Recording { plan, left: size }),
        Err(_) => Err(Failed),
    }
}
