//! `gen`: samples of a seed are made into frames, the frames are decoded, and one line is written.
ghost use Rattle.std.specs.Prelude.{◌≡◌, ◌≢◌, ◌≤◌};
ghost use Rattle.celt_base.specs.Outside.{Rose};
ghost use Rattle.celt_session.specs.Outcomes.{Answers};
ghost use Rattle.celt_cli.specs.GenLines.{AddsLine, gen_line, report_of};
ghost use Rattle.celt_cli.specs.Hearings.{new_decoder};

use crate::generator::GenSettings;
use crate::hearing::hear_frames;
use crate::maker::FrameMaker;
use crate::report::{GenReport, MOST_REPORT, put_report};
use celt_base::outside::Sink;
use celt_base::status::Status;
use celt_synth::Decoder;
use frame_symbols::Symbols;
use std::alloc::Global;

/// Makes the frames, decodes them, and says what was heard.
fn reported<M: FrameMaker>(
    maker: &mut M,
    settings: GenSettings,
    symbols: &mut Symbols,
    decoder: &mut Decoder,
) -> GenReport
    requires frames { settings.frames ≤ 10000 }
    requires decoder { decoder.old ≡ new_decoder }
    ensures { M.makes.Shows maker.old M.makes.function.start → result ≡ report_of M.makes settings }
{
    let heard = hear_frames(maker, settings, symbols, decoder);
    GenReport {
        frames: settings.frames,
        samples: heard.tally.pairs(),
        silent: heard.silent,
        range: heard.range,
        sum: heard.tally.sum(),
    }
}

/// Writes the line of `gen`, of frames that the maker makes. All memory is taken before.
pub fn write_generated<M: FrameMaker, K: Sink>(
    alloc: Global,
    maker: &mut M,
    settings: GenSettings,
    output: &mut K,
) -> Status
    requires { settings.frames ≤ 10000 }
    ensures status { Answers Status.Done result }
    ensures never_read { result ≢ Status.ReadFault }
    ensures line { M.makes.Shows maker.old M.makes.function.start → AddsLine (gen_line M.makes settings) (K.held output.old) (K.held output.new) result }
    ensures memory { result ≡ Status.NoMemory → output.new ≡ output.old }
    ensures write_fault { result ≡ Status.WriteFault → Rose (K.faults output.old) (K.faults output.new) }
    ensures kept { K.faults output.old ≤ K.faults output.new }
{
    let Ok(mut symbols) = Symbols::new(alloc) else {
        return Status::NoMemory;
    };
    let Ok(mut decoder) = Decoder::new(alloc, 2, true) else {
        return Status::NoMemory;
    };
    let report = reported(maker, settings, &mut symbols, &mut decoder);
    let mut line = [0; MOST_REPORT];
    let len = put_report(&mut line, report);
    let (text, _) = line.split_at(len);
    match output.write_all(text) {
        Ok(()) => Status::Done,
        Err(_) => Status::WriteFault,
    }
}
