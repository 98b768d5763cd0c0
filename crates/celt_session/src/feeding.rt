//! A piece of a file, in a session that encodes it.
ghost use Rattle.celt_session.specs.EncoderPairs.{pair_work};
ghost use Rattle.std.specs.Prelude.{◌≡◌, ◌+◌, ◌^◌, ◌≤◌, ◌⊎◌, ◌++◌, ℕ, List, length, false, Some, None};
ghost use Rattle.celt_session.specs.Sessions.{HasFedCause, ends_session};
ghost use Rattle.celt_session.specs.Encodings.{AreSettings};
ghost use Rattle.celt_session.specs.FrameSessions.{StandsFor, Goes, Adds, IsReading, IsTaking};

use crate::encoder_pair::EncoderPair;
use crate::fed::Fed;
use crate::frame_session::FrameSession;
use crate::recorder::{begin_recording, take_piece};
use crate::recording::Recording;
use celt_base::outside::{Gate, Sink};
use std::thread::Threads;
use wav_edge::reader::Header;

/// Feeds a piece of samples.
fn feed_samples<R: Threads, K: Sink, G: Gate>(
    rt: &R,
    recording: Recording,
    session: &mut FrameSession<EncoderPair>,
    piece: &[u8],
    output: &mut K,
    gate: &G,
) -> Fed
    requires settings { AreSettings session.old.settings }
    requires recording { session.old.recording ≡ Some recording }
    requires taking { IsTaking pair_work recording session.old.maker session.old.fed }
    requires limit { session.old.fed + length piece.now ≤ 2 ^ 40 }
    ensures adds { (bytes : List ℕ) → StandsFor pair_work session.old bytes →
        Adds pair_work session.old.settings bytes (bytes ++ piece.now) session.new (K.held output.old) (K.held output.new) result }
    ensures ended { session.new.is_ended ≡ ends_session result }
    ensures goes { session.new.is_ended ≡ false → Goes pair_work session.new }
    ensures settings { session.new.settings ≡ session.old.settings }
    ensures fed { session.new.fed ≡ session.old.fed + length piece.now }
    ensures cause { HasFedCause (K.faults output.old) (K.faults output.new) result }
{
    session.fed += piece.len() as u64;
    let mut recording = recording;
    match take_piece(rt, &mut recording, piece, &mut session.maker, output, gate) {
        Ok(()) => {
            session.recording = Some(recording);
            session.is_ended = false;
            Fed::More
        }
        Err(_) => {
            session.is_ended = true;
            Fed::WriteFault
        }
    }
}

/// Feeds a piece before the samples.
fn feed_header<R: Threads, K: Sink, G: Gate>(
    rt: &R,
    session: &mut FrameSession<EncoderPair>,
    piece: &[u8],
    output: &mut K,
    gate: &G,
) -> Fed
    requires settings { AreSettings session.old.settings }
    requires going { session.old.is_ended ≡ false }
    requires recording { session.old.recording ≡ None }
    requires reading { IsReading pair_work session.old }
    requires limit { session.old.fed + length piece.now ≤ 2 ^ 40 }
    ensures adds { (bytes : List ℕ) → StandsFor pair_work session.old bytes →
        Adds pair_work session.old.settings bytes (bytes ++ piece.now) session.new (K.held output.old) (K.held output.new) result }
    ensures ended { session.new.is_ended ≡ ends_session result }
    ensures goes { session.new.is_ended ≡ false → Goes pair_work session.new }
    ensures settings { session.new.settings ≡ session.old.settings }
    ensures fed { session.new.fed ≡ session.old.fed + length piece.now }
    ensures cause { HasFedCause (K.faults output.old) (K.faults output.new) result }
{
    let settings = session.settings;
    session.fed += piece.len() as u64;
    let (channels, size, used) = match session.header.feed(piece) {
        Header::Need => return Fed::More,
        Header::Fault(fault) => {
            session.is_ended = true;
            return Fed::Fault(fault);
        }
        Header::Data {
            channels,
            rate: _,
            size,
            used,
        } => (channels, size, used),
    };
    let (_, rest) = piece.split_at(used);
    let Ok(mut recording) = begin_recording(settings, channels, size, &mut session.maker, output)
    else {
        session.is_ended = true;
        return Fed::WriteFault;
    };
    match take_piece(rt, &mut recording, rest, &mut session.maker, output, gate) {
        Ok(()) => {
            session.recording = Some(recording);
            Fed::More
        }
        Err(_) => {
            session.is_ended = true;
            Fed::WriteFault
        }
    }
}

/// Feeds a piece, and adds what it gives to the output.
pub(crate) fn feed_session<R: Threads, K: Sink, G: Gate>(
    rt: &R,
    session: &mut FrameSession<EncoderPair>,
    piece: &[u8],
    output: &mut K,
    gate: &G,
) -> Fed
    requires settings { AreSettings session.old.settings }
    requires going { session.old.is_ended ≡ false }
    requires goes { Goes pair_work session.old }
    requires limit { session.old.fed + length piece.now ≤ 2 ^ 40 }
    ensures adds { (bytes : List ℕ) → StandsFor pair_work session.old bytes →
        Adds pair_work session.old.settings bytes (bytes ++ piece.now) session.new (K.held output.old) (K.held output.new) result }
    ensures ended { session.new.is_ended ≡ ends_session result }
    ensures goes { session.new.is_ended ≡ false → Goes pair_work session.new }
    ensures settings { session.new.settings ≡ session.old.settings }
    ensures fed { session.new.fed ≡ session.old.fed + length piece.now }
    ensures cause { HasFedCause (K.faults output.old) (K.faults output.new) result }
{
    match session.recording {
        Some(recording) => feed_samples(rt, recording, session, piece, output, gate),
        None => feed_header(rt, session, piece, output, gate),
    }
}
