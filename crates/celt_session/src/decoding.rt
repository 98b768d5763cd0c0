//! Decoding of a stream: over a source and a sink, and as a session that is fed pieces.
ghost use Rattle.std.specs.Prelude.{◌≡◌, ◌≢◌, ◌^◌, ◌≤◌, IfOk, IfSome};
ghost use Rattle.celt_base.specs.Outside.{Rose};
ghost use Rattle.celt_session.specs.PageWorks.{ShowsPages, pages_in};
ghost use Rattle.celt_session.specs.Decoding.{sampling, start_of, decoding};
ghost use Rattle.celt_session.specs.Outcomes.{wanted, Answers, Writes};

use crate::fed::Fed;
use crate::lines::Lines;
use crate::samples::Samples;
use crate::session::Session;
use crate::settings::{DecodeSettings, Form};
use crate::stream::work_stream;
use crate::work::PageWork;
use celt_base::outside::{Gate, Sink, Source};
use celt_base::status::{Fault, OutOfMemory, Status};
use std::alloc::Global;
use std::marker::Model;
use std::thread::Threads;

/// Samples, before the first page.
fn samples_for(alloc: Global, has_header: bool, invert: bool) -> Result<PageWork, OutOfMemory>
    ensures shows { IfOk result (λ work. ShowsPages work (sampling has_header invert)) }
    ensures new { IfOk result (λ work. pages_in work ≡ 0) }
{
    match Samples::new(alloc, has_header, invert) {
        Ok(samples) => Ok(PageWork::Samples(samples)),
        Err(_) => Err(OutOfMemory),
    }
}

/// What the settings ask for, before the first page.
fn work_of(alloc: Global, settings: DecodeSettings) -> Result<PageWork, OutOfMemory>
    ensures shows { IfOk result (λ work. ShowsPages work (start_of settings)) }
    ensures new { IfOk result (λ work. pages_in work ≡ 0) }
{
    match settings.form {
        Form::Wav => samples_for(alloc, true, settings.invert),
        Form::Plain => samples_for(alloc, false, settings.invert),
        Form::Ranges => match Lines::new(alloc) {
            Ok(lines) => Ok(PageWork::Lines(lines)),
            Err(_) => Err(OutOfMemory),
        },
    }
}

/// Decodes the Ogg stream of the input into the output. At most `limit` bytes are read as the stream, and
/// whether there is one more is found out. All memory is taken before the first write.
pub fn decode_stream<R: Threads, S: Source, K: Sink, G: Gate>(
    rt: &R,
    alloc: Global,
    settings: DecodeSettings,
    limit: u64,
    input: &mut S,
    output: &mut K,
    gate: &G,
) -> Status
    requires limit { limit ≤ 2 ^ 40 }
    ensures status { IfSome (S.left input.old) (λ bytes. Answers (wanted (decoding settings) limit bytes) result) }
    ensures output { IfSome (S.left input.old) (λ bytes.
        Writes (decoding settings) limit bytes (S.left input.new) (K.held output.old) (K.held output.new) result) }
    ensures memory { result ≡ Status.NoMemory → output.new ≡ output.old }
    ensures read_fault { result ≡ Status.ReadFault → Rose (S.faults input.old) (S.faults input.new) }
    ensures write_fault { result ≡ Status.WriteFault → Rose (K.faults output.old) (K.faults output.new) }
    ensures words { result ≢ Status.Usage }
    ensures kept { K.faults output.old ≤ K.faults output.new }
{
    let Ok(work) = work_of(alloc, settings) else {
        return Status::NoMemory;
    };
    work_stream(rt, alloc, work, limit, input, output, gate)
}

/// A stream that is decoded in pieces. No call but `new` takes memory.
#[derive(Drop)]
pub struct DecodeSession {
    settings: DecodeSettings,
    session: Session,
}

impl Model for DecodeSession {
    ghost use Rattle.celt_session.specs.Decoders.{Decoder};

    ghost Value = { Decoder };

    ghost view = { λ s. record { settings = s.settings; held = s.session } };
}

impl DecodeSession {
    ghost use Rattle.std.specs.Prelude.{◌≡◌, ◌≤◌, ◌+◌, ◌^◌, ◌++◌, ℕ, List, [], length, false, IfOk};
    ghost use Rattle.celt_session.specs.Sessions.{HasFedCause, ends_session};
    ghost use Rattle.celt_session.specs.Decoding.{decoding_function, start_of};
    ghost use Rattle.celt_session.specs.PageFunctions.{end_fault};
    ghost use Rattle.celt_session.specs.Decoders.{Decoder, StandsFor, Feeds, is_ended, taken_by};

    /// A session that was fed nothing.
    pub fn new(alloc: Global, settings: DecodeSettings) -> Result<DecodeSession, OutOfMemory>
        ensures stands { IfOk result (λ session. StandsFor session []) }
        ensures only { IfOk result (λ session. (bytes : List ℕ) → StandsFor session bytes → bytes ≡ []) }
        ensures settings { IfOk result (λ session. session.settings ≡ settings) }
        ensures going { IfOk result (λ session. is_ended session ≡ false) }
        ensures taken { IfOk result (λ session. taken_by session ≡ 0) }
    {
        let Ok(work) = work_of(alloc, settings) else {
            return Err(OutOfMemory);
        };
        match Session::new(alloc, work) {
            Ok(session) => Ok(DecodeSession { settings, session }),
            Err(_) => Err(OutOfMemory),
        }
    }

    /// Feeds a piece, and adds to the output what it gives: what all bytes so far give behind what those
    /// before the piece gave. A fault is the earliest one of the bytes so far that more bytes do not mend.
    /// Where a write failed a front of the text was added.
    pub fn feed<R: Threads, K: Sink, G: Gate>(
        &mut self,
        rt: &R,
        piece: &[u8],
        output: &mut K,
        gate: &G,
    ) -> Fed
        requires going { is_ended self.old ≡ false }
        requires limit { taken_by self.old + length piece.now ≤ 2 ^ 40 }
        ensures feeds { (bytes : List ℕ) → StandsFor self.old bytes →
            Feeds bytes (bytes ++ piece.now) self.new (K.held output.old) (K.held output.new) result }
        ensures settings { self.new.settings ≡ self.old.settings }
        ensures ended { is_ended self.new ≡ ends_session result }
        ensures taken { taken_by self.new ≤ taken_by self.old + length piece.now }
        ensures cause { HasFedCause (K.faults output.old) (K.faults output.new) result }
    {
        self.session.feed(rt, piece, output, gate)
    }

    /// Whether `feed` answered anything but that more bytes are wanted.
    pub fn ended(&self) -> bool
        ensures { result ≡ is_ended self.now }
    {
        self.session.ended()
    }

    /// The fault of a stream that ends with the bytes so far.
    pub fn end(&self) -> Option<Fault>
        requires going { is_ended self.now ≡ false }
        ensures { (bytes : List ℕ) → StandsFor self.now bytes → result ≡ end_fault bytes }
    {
        self.session.end()
    }
}
