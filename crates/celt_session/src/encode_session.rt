//! Encoding of a file as a session that is fed pieces.
use crate::concluding::end_session;
use crate::encoder_pair::EncoderPair;
use crate::ended::Ended;
use crate::fed::Fed;
use crate::feeding::feed_session;
use crate::frame_session::FrameSession;
use crate::settings::Settings;
use crate::streaming::new_session;
use celt_base::outside::{Gate, Sink};
use celt_base::status::OutOfMemory;
use std::alloc::Global;
use std::marker::Model;
use std::thread::Threads;

/// A file that is encoded in pieces. No call but `new` takes memory.
#[derive(Drop)]
pub struct EncodeSession {
    session: FrameSession<EncoderPair>,
}

impl Model for EncodeSession {
    ghost use Rattle.std.specs.Prelude.{◌≡◌, ◌≤◌, ◌^◌, false};
    ghost use Rattle.celt_session.specs.Encodings.{AreSettings};
    ghost use Rattle.celt_session.specs.EncoderPairs.{pair_work};
    ghost use Rattle.celt_session.specs.FrameSessions.{Goes};
    ghost use Rattle.celt_session.specs.EncodeSessions.{Recorder};

    ghost Value = { Recorder };

    ghost view = { λ s. record { held = s.session } };

    ghost invariant = { λ s. AreSettings s.session.settings × (s.session.fed ≤ 2 ^ 40) × (s.session.is_ended ≡ false → Goes pair_work s.session) };
}

impl EncodeSession {
    ghost use Rattle.std.specs.Prelude.{◌≡◌, ◌≤◌, ◌+◌, ◌^◌, ◌++◌, ℕ, List, [], length, false, true, IfOk};
    ghost use Rattle.celt_session.specs.Sessions.{HasFedCause, ends_session};
    ghost use Rattle.celt_session.specs.Encodings.{AreSettings};
    ghost use Rattle.celt_session.specs.FrameSessions.{HasEndedCause};
    ghost use Rattle.celt_session.specs.EncodeSessions.{Recorder, StandsFor, Feeds, Concludes, is_ended, taken_by, settings_of};

    /// A session that was fed nothing. It takes all its memory.
    pub fn new(alloc: Global, settings: Settings) -> Result<EncodeSession, OutOfMemory>
        requires { AreSettings settings }
        ensures stands { IfOk result (λ session. StandsFor session []) }
        ensures only { IfOk result (λ session. (bytes : List ℕ) → StandsFor session bytes → bytes ≡ []) }
        ensures settings { IfOk result (λ session. settings_of session ≡ settings) }
        ensures going { IfOk result (λ session. is_ended session ≡ false) }
        ensures taken { IfOk result (λ session. taken_by session ≡ 0) }
    {
        match new_session(alloc, settings) {
            Ok(session) => Ok(EncodeSession { session }),
            Err(_) => Err(OutOfMemory),
        }
    }

    /// Feeds a piece, and adds to the output what is given of all bytes so far behind what was given of those before
    /// the piece. A fault is the earliest one of the bytes so far that more bytes do not mend. Where a write failed a
    /// front of the pages was added.
    pub fn feed<R: Threads, K: Sink, G: Gate>(
        &mut self,
        rt: &R,
        piece: &[u8],
        output: &mut K,
        gate: &G,
    ) -> Fed
        requires going { is_ended self.old ≡ false }
        requires limit { taken_by self.old + length piece.now ≤ 2 ^ 40 }
        ensures feeds { (bytes : List ℕ) → StandsFor self.old bytes →
            Feeds (settings_of self.old) bytes (bytes ++ piece.now) self.new (K.held output.old) (K.held output.new) result }
        ensures settings { settings_of self.new ≡ settings_of self.old }
        ensures ended { is_ended self.new ≡ ends_session result }
        ensures taken { taken_by self.new ≡ taken_by self.old + length piece.now }
        ensures cause { HasFedCause (K.faults output.old) (K.faults output.new) result }
    {
        feed_session(rt, &mut self.session, piece, output, gate)
    }

    /// Whether `feed` answered anything but that more bytes are wanted, or the file was ended.
    pub fn ended(&self) -> bool
        ensures { result ≡ is_ended self.now }
    {
        self.session.is_ended
    }

    /// Ends the file, and adds what the whole stream has behind the pages that were given.
    pub fn end<R: Threads, K: Sink, G: Gate>(&mut self, rt: &R, output: &mut K, gate: &G) -> Ended
        requires going { is_ended self.old ≡ false }
        ensures ends { (bytes : List ℕ) → StandsFor self.old bytes →
            Concludes (settings_of self.old) bytes (K.held output.old) (K.held output.new) result }
        ensures ended { is_ended self.new ≡ true }
        ensures settings { settings_of self.new ≡ settings_of self.old }
        ensures taken { taken_by self.new ≡ taken_by self.old }
        ensures cause { HasEndedCause (K.faults output.old) (K.faults output.new) result }
    {
        end_session(rt, &mut self.session, output, gate)
    }
}
