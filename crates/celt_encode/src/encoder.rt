//! The encoder of frames: what it shares with its decoder, and the encoded frame.
ghost use Rattle.std.specs.Prelude.{◌≡◌, Some};
ghost use Rattle.celt_encode.specs.Encoders.{outset_by};
ghost use Rattle.celt_encode.specs.Outsets.{outset_of};
ghost use Rattle.celt_synth.specs.Rows.{greater};

use crate::frame::Frame;
use crate::listening::settle;
use crate::rooms::Vectors;
use crate::writing::write;
use celt_analysis::Analysis;
use celt_base::kind::Kind;
use celt_base::state::Shared;
use celt_base::status::OutOfMemory;
use celt_synth::{share, take_greater};
use fixed_math::Trig;
use frame_symbols::Symbols;
use std::alloc::Global;
use std::marker::Model;

// What an encoder works with.
#[derive(Drop)]
struct Bench {
    trig: Trig,
    frame: Frame,
    vectors: Vectors,
}

/// An encoder of frames of one kind.
#[derive(Drop)]
pub struct Encoder {
    kind: Kind,
    shared: Shared,
    made: bool,
    fell: Option<u32>,
    bench: Box<Bench>,
}

impl Model for Encoder {
    ghost use Rattle.celt_encode.specs.Encoders.{EncoderState};
    ghost use Rattle.celt_synth.specs.Shared.{shared_in};

    ghost Value = { EncoderState };

    ghost view = { λ e. record { kind = e.kind; shared = shared_in e.shared; made = e.made; fell = e.fell } };
}

// Hears a frame of `len` bytes after what was shared before it.
#[tactic(auto, unfolding(crate::specs::Encoders::outset_by))]
fn hear(frame: &mut Frame, kind: Kind, len: u32, first: bool, before: &Shared, a: &Analysis)
    requires { a.now.kind ≡ Some kind }
    ensures kind { frame.new.kind ≡ kind }
    ensures len { frame.new.len ≡ len }
    ensures outset { outset_of frame.new ≡ outset_by kind len first (greater kind.channels before.entry.now.energies) a.now }
{
    frame.kind = kind;
    frame.len = len;
    frame.first = first;
    frame.energies = before.energies;
    take_greater(&mut frame.energies, kind);
    settle(frame, a);
}

impl Encoder {
    ghost use Rattle.std.specs.Prelude.{◌≡◌, ◌≤◌, length, IfOk, Some};
    ghost use Rattle.celt_encode.specs.Encoders.{new_encoder, encoded, kept, after_frame};
    ghost use Rattle.celt_synth.specs.Readings.{share_by};
    ghost use Rattle.celt_synth.specs.Shared.{shared_in};
    ghost use Rattle.frame_symbols.specs.HeldSymbols.{answers_in, AreOf};
    ghost use Rattle.frame_symbols.specs.Readings.{IsReading};

    /// An encoder before its first frame. It alone takes memory.
    pub fn new(alloc: Global, kind: Kind) -> Result<Encoder, OutOfMemory>
        ensures { IfOk result (λ e. e ≡ new_encoder kind) }
    {
        let bench = Bench {
            trig: Trig::new(),
            frame: Frame::new(kind),
            vectors: Vectors::new(),
        };
        match Box::new(alloc, bench) {
            Ok(bench) => Ok(Encoder {
                kind,
                shared: Shared::start(),
                made: false,
                fell: None,
                bench,
            }),
            Err(_) => Err(OutOfMemory),
        }
    }

    /// Encodes the frame of an analysis into a room of 2 to 1275 bytes, and puts the answers that are kept into the symbols.
    /// The analysis is of the encoder's kind. The answer is what encoder and decoder share after the frame.
    pub fn frame(&mut self, a: &Analysis, room: &mut [u8], s: &mut Symbols) -> Shared
        requires kind { a.now.kind ≡ Some self.old.kind }
        requires least { 2 ≤ length room.old }
        requires most { length room.old ≤ 1275 }
        ensures len { length room.new ≡ length room.old }
        ensures bytes { room.new ≡ encoded self.old a.now (length room.old) }
        ensures kept { answers_in s.new ≡ kept self.old a.now (length room.old) }
        ensures symbols { AreOf self.old.kind (length room.old) s.new }
        ensures read { IsReading self.old.kind room.new (answers_in s.new) }
        ensures kind { self.new.kind ≡ self.old.kind }
        ensures state { self.new ≡ after_frame self.old a.now (length room.old) }
        ensures shared { shared_in result ≡ self.new.shared }
        ensures shares { shared_in result ≡ share_by self.old.kind (length room.old) (answers_in s.new) self.old.shared }
    {
        let bench = &mut *self.bench;
        let len = room.len() as u32;
        hear(
            &mut bench.frame,
            self.kind,
            len,
            !self.made,
            &self.shared,
            a,
        );
        self.fell = write(&bench.frame, &bench.trig, &mut bench.vectors, room, s);
        self.shared = share(self.kind, s, &self.shared);
        self.made = true;
        self.shared
    }

    /// The bits that the choice of the last frame told, where the frame had fewer and was replaced by the silent one.
    pub fn fell_back(&self) -> Option<u32>
        ensures { result ≡ self.now.fell }
    {
        self.fell
    }
}
