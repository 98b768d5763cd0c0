//! The program over a source and two sinks.
ghost use Rattle.std.specs.Prelude.{◌≡◌, ◌≢◌, ◌^◌, ◌≤◌, false, IfSome, None, Some};
ghost use Rattle.celt_base.specs.Outside.{Rose};
ghost use Rattle.celt_session.specs.Outcomes.{wanted, Answers};
ghost use Rattle.celt_cli.specs.EncodingMakers.{encoding_makers};
ghost use Rattle.celt_cli.specs.GenLines.{AddsLine, gen_line};
ghost use Rattle.celt_cli.specs.Runs.{AnswersUsage, EitherRose, Says, IfReads, KeepsSamples, KeepsStep, Wrote, meaning_of, reads};
ghost use Rattle.celt_cli.specs.Words.{IsCommand, command_of};

use crate::encoding_maker::EncodingMaker;
use crate::generating::write_generated;
use crate::generator::GenSettings;
use crate::notes::{MOST_LINE, put_refusal};
use crate::words::{Command, command_in};
use celt_base::outside::{Gate, Sink, Source};
use celt_base::status::{Fault, Status};
use celt_session::{decode_stream, encode_stream};
use std::alloc::Global;
use std::thread::Threads;

/// How many bytes of an input are read at most.
const LIMIT: u64 = 1 << 40;

/// Says that the words are not accepted.
fn say_usage<E: Sink>(notes: &mut E) -> Status
    ensures status { AnswersUsage result }
    ensures notes { Says Status.Usage (E.held notes.old) (E.held notes.new) result }
    ensures write_fault { result ≡ Status.WriteFault → Rose (E.faults notes.old) (E.faults notes.new) }
    ensures no_memory_fault { result ≢ Status.NoMemory }
{
    match notes.write_all(b"celt: usage\n") {
        Ok(()) => Status::Usage,
        Err(_) => Status::WriteFault,
    }
}

/// Says why the input is refused.
fn say_refusal<E: Sink>(fault: Fault, notes: &mut E) -> Status
    ensures status { Answers (Status.Refused fault) result }
    ensures notes { Says (Status.Refused fault) (E.held notes.old) (E.held notes.new) result }
    ensures write_fault { result ≡ Status.WriteFault → Rose (E.faults notes.old) (E.faults notes.new) }
    ensures no_read_fault { result ≢ Status.ReadFault }
    ensures no_memory_fault { result ≢ Status.NoMemory }
{
    let mut line = [0; MOST_LINE];
    let len = put_refusal(&mut line, fault);
    let (text, _) = line.split_at(len);
    match notes.write_all(text) {
        Ok(()) => Status::Refused(fault),
        Err(_) => Status::WriteFault,
    }
}

/// Encodes and decodes samples of a seed, and writes what came out in one line.
fn run_gen<K: Sink>(alloc: Global, settings: GenSettings, output: &mut K) -> Status
    requires { settings.frames ≤ 10000 }
    ensures status { Answers Status.Done result }
    ensures never_read { result ≢ Status.ReadFault }
    ensures line { AddsLine (gen_line encoding_makers settings) (K.held output.old) (K.held output.new) result }
    ensures memory { result ≡ Status.NoMemory → output.new ≡ output.old }
    ensures write_fault { result ≡ Status.WriteFault → Rose (K.faults output.old) (K.faults output.new) }
    ensures kept { K.faults output.old ≤ K.faults output.new }
{
    let Ok(mut maker) = EncodingMaker::new(alloc) else {
        return Status::NoMemory;
    };
    write_generated(alloc, &mut maker, settings, output)
}

/// Runs a command.
fn run_command<R: Threads, S: Source, K: Sink, G: Gate>(
    rt: &R,
    alloc: Global,
    command: Command,
    input: &mut S,
    output: &mut K,
    gate: &G,
) -> Status
    requires { IsCommand command }
    ensures status { IfReads command (S.left input.old) (λ bytes. Answers (wanted (meaning_of command) (2 ^ 40) bytes) result) }
    ensures output { IfReads command (S.left input.old) (λ bytes. Wrote command (2 ^ 40) bytes (S.left input.new) (K.held output.old) (K.held output.new) result) }
    ensures in_step { IfReads command (S.left input.old) (λ bytes. result ≡ Status.Done → KeepsStep command bytes) }
    ensures samples_kept { IfReads command (S.left input.old) (λ bytes. result ≡ Status.Done → KeepsSamples command bytes) }
    ensures input { reads command ≡ false → input.new ≡ input.old }
    ensures never_read { reads command ≡ false → result ≢ Status.ReadFault }
    ensures read_fault { result ≡ Status.ReadFault → Rose (S.faults input.old) (S.faults input.new) }
    ensures write_fault { result ≡ Status.WriteFault → Rose (K.faults output.old) (K.faults output.new) }
    ensures memory { result ≡ Status.NoMemory → output.new ≡ output.old }
    ensures words { result ≢ Status.Usage }
    ensures kept { K.faults output.old ≤ K.faults output.new }
{
    match command {
        Command::Decode(settings) => {
            decode_stream(rt, alloc, settings, LIMIT, input, output, gate)
        }
        Command::Encode(settings) => {
            encode_stream(rt, alloc, settings, LIMIT, input, output, gate)
        }
        Command::Gen(settings) => run_gen(alloc, settings, output),
    }
}

/// Runs the program: the words after its name, standard input, standard output, standard error. Two threads of `rt`
/// read the frames of a batch while a stream is decoded, and analyse its windows while a file is encoded; the answer is
/// the same for every gate.
pub fn run<R: Threads, S: Source, K: Sink, E: Sink, G: Gate>(
    rt: &R,
    alloc: Global,
    words: &[String],
    input: &mut S,
    output: &mut K,
    notes: &mut E,
    gate: &G,
) -> Status
    // Words that are not accepted: nothing is read or written but the note.
    ensures usage { command_of words.now ≡ None → AnswersUsage result }
    ensures usage_input { command_of words.now ≡ None → input.new ≡ input.old }
    ensures usage_output { command_of words.now ≡ None → output.new ≡ output.old }
    ensures usage_notes { command_of words.now ≡ None → Says Status.Usage (E.held notes.old) (E.held notes.new) result }

    // A command: the status and the output are those of its meaning. `gen` reads nothing.
    ensures not_usage { IfSome (command_of words.now) (λ command. result ≢ Status.Usage) }
    ensures status { IfSome (command_of words.now) (λ command.
        IfReads command (S.left input.old) (λ bytes. Answers (wanted (meaning_of command) (2 ^ 40) bytes) result)) }
    ensures output { IfSome (command_of words.now) (λ command.
        IfReads command (S.left input.old) (λ bytes. Wrote command (2 ^ 40) bytes (S.left input.new) (K.held output.old) (K.held output.new) result)) }
    ensures in_step { IfSome (command_of words.now) (λ command.
        IfReads command (S.left input.old) (λ bytes. result ≡ Status.Done → KeepsStep command bytes)) }
    ensures samples_kept { IfSome (command_of words.now) (λ command.
        IfReads command (S.left input.old) (λ bytes. result ≡ Status.Done → KeepsSamples command bytes)) }
    ensures notes { IfSome (command_of words.now) (λ command.
        IfReads command (S.left input.old) (λ bytes. Says (wanted (meaning_of command) (2 ^ 40) bytes) (E.held notes.old) (E.held notes.new) result)) }
    ensures gen_input { IfSome (command_of words.now) (λ command. reads command ≡ false → input.new ≡ input.old) }
    ensures gen_never_read { IfSome (command_of words.now) (λ command. reads command ≡ false → result ≢ Status.ReadFault) }

    // All memory is taken before anything is written.
    ensures memory { result ≡ Status.NoMemory → output.new ≡ output.old }
    ensures memory_notes { result ≡ Status.NoMemory → notes.new ≡ notes.old }

    // A failure of the outside has its cause.
    ensures read_fault { result ≡ Status.ReadFault → Rose (S.faults input.old) (S.faults input.new) }
    ensures write_fault { result ≡ Status.WriteFault
        → EitherRose (K.faults output.old) (K.faults output.new) (E.faults notes.old) (E.faults notes.new) }
{
    let command = match command_in(alloc, words) {
        Ok(Some(command)) => command,
        Ok(None) => return say_usage(notes),
        Err(_) => return Status::NoMemory,
    };
    let status = run_command(rt, alloc, command, input, output, gate);
    match status {
        Status::Refused(fault) => say_refusal(fault, notes),
        status => status,
    }
}
