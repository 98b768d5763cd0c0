//! Two encoders, one for each number of channels, over one room for windows: which of them is needed is known once a file's
//! samples begin.
ghost use Rattle.std.specs.Prelude.{◌≡◌, ◌*◌, length, IfOk};
ghost use Rattle.celt_session.specs.EncodedFrames.{Footing, first_footing};
ghost use Rattle.celt_session.specs.Encodings.{AreSettings};
ghost use Rattle.celt_session.specs.EncoderPairs.{pair_work, MakesEither, ShowsEither};
ghost use Rattle.celt_session.specs.FrameSessions.{MakesBoth};
ghost use Rattle.celt_session.specs.FrameWorks.{Framed, batch_len};

use crate::batch::Batch;
use crate::encoder_work::EncoderWork;
use crate::planning::plan_of;
use crate::settings::Settings;
use celt_base::outside::Gate;
use celt_base::status::OutOfMemory;
use celt_encode::Encoder;
use std::alloc::Global;
use std::thread::Threads;

/// An encoder for two channels with its windows, and one for one channel that takes its place before the first frame where
/// frames have one.
#[derive(Drop)]
pub(crate) struct EncoderPair {
    work: EncoderWork,
    mono: Encoder,
    /// The channels of the frames that were made.
    begun: Option<u8>,
}

impl EncoderPair {
    /// Both before their first frame.
    pub(crate) fn new(alloc: Global, settings: Settings) -> Result<EncoderPair, OutOfMemory>
        requires { AreSettings settings }
        ensures makes { IfOk result (λ pair. MakesBoth pair_work settings pair) }
        ensures shows { IfOk result (λ pair. ShowsEither pair first_footing) }
    {
        let Ok(work) = EncoderWork::new(alloc, plan_of(settings, 2).kind) else {
            return Err(OutOfMemory);
        };
        let Ok(mono) = Encoder::new(alloc, plan_of(settings, 1).kind) else {
            return Err(OutOfMemory);
        };
        Ok(EncoderPair {
            work,
            mono,
            begun: None,
        })
    }

    /// Makes the frames of a batch, one behind the other, in all of the room. The windows stand in the samples,
    /// channels interleaved: each has the 1145 samples per channel before its frame and the frame's own.
    pub(crate) fn frames<R: Threads, G: Gate>(
        &mut self,
        rt: &R,
        batch: Batch,
        samples: &[i16],
        out: &mut [u8],
        gate: &G,
    )
        requires kind { MakesEither self.old batch.kind }
        requires windows { length samples.now ≡ batch_len batch.kind batch.count }
        requires room { length out.old ≡ batch.count * batch.bytes }
        ensures works { (s : Footing) → ShowsEither self.old s → Framed pair_work s batch samples.now self.new out.new }
        ensures kinds { MakesEither self.new batch.kind }
    {
        if self.begun.is_none() && batch.kind.channels == 1 {
            self.work.turn(&mut self.mono, batch.kind);
        }
        self.begun = Some(batch.kind.channels);
        self.work.frames(rt, batch, samples, out, gate);
    }
}
