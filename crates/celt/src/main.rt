//! `celt` decodes CELT-only Opus streams in Ogg into samples, and encodes WAV files into such streams: standard
//! input, standard output, and one line on standard error where the words or the input are refused.
#![tactic(auto)]

use celt_base::outside::NoGate;
use celt_base::standard::{StdSink, StdSource};
use celt_base::status::Status;
use celt_cli::program::run;
use std::alloc::Global;
use std::process::ExitCode;
use std::{env, io};

/// The words after the program's name.
fn words(rt: &(impl env::Env + AllocGlobal)) -> io::Result<Vec<String>> {
    let mut words = Vec::new(rt.alloc());
    for word in env::args(rt)?.skip(1) {
        words.push(word)?;
    }
    Ok(words)
}

fn main(rt: HostRuntime) -> ExitCode {
    // A word that is no text is not accepted, and nor are no words.
    let words = match words(&rt) {
        Ok(words) => words,
        Err(error) if error.kind() == io::ErrorKind::OutOfMemory => {
            return ExitCode::from(Status::NoMemory.code());
        }
        Err(_) => Vec::new(rt.alloc()),
    };
    let mut input = StdSource::new(rt.stdin());
    let mut output = StdSink::new(rt.stdout());
    let mut notes = StdSink::new(rt.stderr());
    let status = run(
        &rt,
        rt.alloc(),
        &words,
        &mut input,
        &mut output,
        &mut notes,
        &NoGate,
    );
    ExitCode::from(status.code())
}
