//! The samples of a stream, as a WAV file or alone.
ghost use Rattle.std.specs.Prelude.{◌≡◌};
ghost use Rattle.celt_session.specs.FrameBatches.{HasBatchRooms};

use crate::frame_batch::FrameBatch;
use crate::playing::{playing_of, write_opening, write_page};
use celt_base::outside::{Failed, Gate, Sink};
use celt_base::status::OutOfMemory;
use celt_synth::Decoder;
use opus_stream::{Span, StreamReader};
use std::alloc::Global;
use std::thread::Threads;

/// Writes the samples of a stream.
#[derive(Drop)]
pub(crate) struct Samples {
    /// How many pages were worked on.
    pages: u64,
    /// Whether a WAV header is written with the next page.
    awaits_header: bool,
    /// The decoder of a stream of one channel.
    mono: Decoder,
    /// The decoder of a stream of two channels.
    stereo: Decoder,
    /// The room for the frames that are read at once.
    batch: FrameBatch,
    ghost rooms: { HasBatchRooms batch },
    ghost one: { mono.channels ≡ 1 },
    ghost two: { stereo.channels ≡ 2 },
}

impl Samples {
    ghost use Rattle.std.specs.Prelude.{◌≡◌, ◌+◌, ◌^◌, ◌<◌, ◌≤◌, IfOk};
    ghost use Rattle.celt_base.specs.Outside.{HasCause};
    ghost use Rattle.celt_session.specs.Pages.{Heard, IsGiven};
    ghost use Rattle.celt_session.specs.Frames.{page_frames};
    ghost use Rattle.celt_session.specs.Works.{Worked};
    ghost use Rattle.celt_session.specs.Playing.{playing_in};
    ghost use Rattle.celt_session.specs.PageWorks.{samples_work, ShowsSamples, PlaysChosen};
    ghost use Rattle.celt_session.specs.Decoding.{samples, playing as start_of_samples};

    /// Before the first page. Phase inversion is left out where `invert` is false.
    pub(crate) fn new(alloc: Global, has_header: bool, invert: bool) -> Result<Samples, OutOfMemory>
        ensures shows { IfOk result (λ work. ShowsSamples work (start_of_samples has_header invert)) }
        ensures pages { IfOk result (λ work. work.pages ≡ 0) }
    {
        let Ok(mono) = Decoder::new(alloc, 1, invert) else {
            return Err(OutOfMemory);
        };
        let Ok(stereo) = Decoder::new(alloc, 2, invert) else {
            return Err(OutOfMemory);
        };
        match FrameBatch::new(alloc) {
            Ok(batch) => Ok(Samples {
                pages: 0,
                awaits_header: has_header,
                mono,
                stereo,
                batch,
            }),
            Err(_) => Err(OutOfMemory),
        }
    }

    /// Plays the frames of the page that was given last with the decoder for its channels.
    fn play<R: Threads, K: Sink, G: Gate>(
        &mut self,
        rt: &R,
        reader: &StreamReader,
        output: &mut K,
        gate: &G,
    ) -> Result<Span, Failed>
        ensures pages { self.new.pages ≡ self.old.pages }
        ensures awaits_header { self.new.awaits_header ≡ self.old.awaits_header }
        ensures plays { (heard : Heard) → IsGiven reader.now heard →
            PlaysChosen self.old (playing_in reader.now) (page_frames heard.packets) self.new (K.held output.old) (K.held output.new) result }
        ensures cause { HasCause (K.faults output.old) (K.faults output.new) result }
    {
        if playing_of(reader).channels == 2 {
            return write_page(rt, &mut self.stereo, reader, &mut self.batch, output, gate);
        }
        write_page(rt, &mut self.mono, reader, &mut self.batch, output, gate)
    }

    /// Writes the samples of the page that was given last.
    pub(crate) fn page<R: Threads, K: Sink, G: Gate>(
        &mut self,
        rt: &R,
        reader: &StreamReader,
        output: &mut K,
        gate: &G,
    ) -> Result<(), Failed>
        requires few { self.old.pages < 2 ^ 40 }
        ensures works { (s : samples.State) (heard : Heard) → ShowsSamples self.old s → IsGiven reader.now heard →
            Worked samples_work s heard self.new (K.held output.old) (K.held output.new) result }
        ensures cause { HasCause (K.faults output.old) (K.faults output.new) result }
        ensures count { self.new.pages ≤ self.old.pages + 1 }
    {
        let playing = playing_of(reader);
        let Ok(()) = write_opening(self.awaits_header, playing.channels, output) else {
            return Err(Failed);
        };
        let Ok(_) = self.play(rt, reader, output, gate) else {
            return Err(Failed);
        };
        self.pages += 1;
        self.awaits_header = false;
        Ok(())
    }
}
