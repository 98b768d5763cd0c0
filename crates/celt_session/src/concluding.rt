//! The end of a file, in a session that encodes it.
ghost use Rattle.celt_session.specs.EncoderPairs.{pair_work};
ghost use Rattle.std.specs.Prelude.{◌≡◌, ◌+◌, ◌^◌, ◌≤◌, ℕ, List, length, false, true};
ghost use Rattle.celt_base.specs.Outside.{HasCause, WritesAll};
ghost use Rattle.celt_session.specs.Encodings.{AreSettings};
ghost use Rattle.celt_session.specs.FrameSessions.{StandsFor, Goes, Ends, HasEndedCause, is_complete, running_more};

use crate::encoder_pair::EncoderPair;
use crate::ended::Ended;
use crate::ending::{end_samples, settle};
use crate::frame_session::FrameSession;
use celt_base::outside::{Failed, Gate, Sink};
use celt_base::status::{Fault, FaultName};
use std::thread::Threads;

/// Whether all samples came: none is left of the size that was declared, or the bytes end with a whole group.
fn is_complete(left: Option<u64>, channels: u8, held: usize) -> bool
    requires { 1 ≤ channels }
    ensures { result ≡ is_complete left channels held }
{
    match left {
        Some(left) => left == 0,
        None => held % (2 * usize::from(channels)) == 0,
    }
}

/// Ends the file, and adds what all of it gives to the output.
pub(crate) fn end_session<R: Threads, K: Sink, G: Gate>(
    rt: &R,
    session: &mut FrameSession<EncoderPair>,
    output: &mut K,
    gate: &G,
) -> Ended
    requires settings { AreSettings session.old.settings }
    requires going { session.old.is_ended ≡ false }
    requires goes { Goes pair_work session.old }
    requires limit { session.old.fed ≤ 2 ^ 40 }
    ensures ends { (bytes : List ℕ) → StandsFor pair_work session.old bytes →
        Ends pair_work.function session.old.settings bytes (K.held output.old) (K.held output.new) result }
    ensures ended { session.new.is_ended ≡ true }
    ensures settings { session.new.settings ≡ session.old.settings }
    ensures fed { session.new.fed ≡ session.old.fed }
    ensures cause { HasEndedCause (K.faults output.old) (K.faults output.new) result }
{
    session.is_ended = true;
    let Some(recording) = session.recording else {
        return Ended::Fault(session.header.end());
    };
    let plan = recording.plan;
    if is_complete(
        recording.left,
        plan.kind.channels,
        session.maker.framer.held.len(),
    ) {
        return match end_samples(rt, plan, &mut session.maker, output, gate) {
            Ok(()) => Ended::Done,
            Err(_) => Ended::WriteFault,
        };
    }
    match settle(rt, plan, &mut session.maker, output, gate) {
        Ok(()) => Ended::Fault(Fault {
            name: FaultName::DataTruncated,
            at: session.fed,
        }),
        Err(_) => Ended::WriteFault,
    }
}

/// Gives what no later byte would change, and was not given yet.
pub(crate) fn settle_session<R: Threads, K: Sink, G: Gate>(
    rt: &R,
    session: &mut FrameSession<EncoderPair>,
    output: &mut K,
    gate: &G,
) -> Result<(), Failed>
    requires going { session.old.is_ended ≡ false }
    requires goes { Goes pair_work session.old }
    requires limit { session.old.fed ≤ 2 ^ 40 }
    ensures settled { (bytes : List ℕ) → StandsFor pair_work session.old bytes →
        WritesAll (K.held output.old) (K.held output.new) result (running_more pair_work.function session.old.settings bytes) }
    ensures cause { HasCause (K.faults output.old) (K.faults output.new) result }
{
    session.is_ended = true;
    let Some(recording) = session.recording else {
        return Ok(());
    };
    settle(rt, recording.plan, &mut session.maker, output, gate)
}
