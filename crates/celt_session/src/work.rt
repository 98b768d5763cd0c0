//! The work on a page: its samples or its lines.
ghost use Rattle.std.specs.Prelude.{◌≡◌, ◌+◌, ◌≤◌, ◌<◌, ◌^◌};
ghost use Rattle.celt_base.specs.Outside.{HasCause};
ghost use Rattle.celt_session.specs.Pages.{Heard, IsGiven};
ghost use Rattle.celt_session.specs.Works.{Worked};
ghost use Rattle.celt_session.specs.Decoding.{decoding_function};
ghost use Rattle.celt_session.specs.PageWorks.{page_work, ShowsPages, pages_in};

use crate::lines::Lines;
use crate::samples::Samples;
use celt_base::outside::{Failed, Gate, Sink};
use opus_stream::StreamReader;
use std::thread::Threads;

/// What is made of the accepted pages of a stream, one after the other.
#[derive(Drop)]
pub(crate) enum PageWork {
    /// Samples.
    Samples(Samples),
    /// The lines of frames.
    Lines(Lines),
}

impl PageWork {
    /// Works on the page that the reader gave last, and adds its bytes to the output. Where that fails a
    /// front of them was added.
    pub(crate) fn page<R: Threads, K: Sink, G: Gate>(
        &mut self,
        rt: &R,
        reader: &StreamReader,
        output: &mut K,
        gate: &G,
    ) -> Result<(), Failed>
        requires few { pages_in self.old < 2 ^ 40 }
        ensures works { (s : decoding_function.State) (heard : Heard) → ShowsPages self.old s → IsGiven reader.now heard →
            Worked page_work s heard self.new (K.held output.old) (K.held output.new) result }
        ensures cause { HasCause (K.faults output.old) (K.faults output.new) result }
        ensures count { pages_in self.new ≤ pages_in self.old + 1 }
    {
        match self {
            PageWork::Samples(samples) => samples.page(rt, reader, output, gate),
            PageWork::Lines(lines) => lines.page(rt, reader, output, gate),
        }
    }
}
