//! A session that encodes, over a source and a sink, up to a limit.
ghost use Rattle.std.specs.Prelude.{◌≡◌, ◌≢◌, ◌^◌, ◌≤◌, ◌<◌, ℕ, List, [], false, length, IfOk, IfSome};
ghost use Rattle.celt_base.specs.Outside.{Rose};
ghost use Rattle.celt_session.specs.Outcomes.{wanted, Answers, WritesFront};
ghost use Rattle.celt_session.specs.Encodings.{AreSettings, encoding_by};
ghost use Rattle.celt_session.specs.EncodedFrames.{encoded_frames};
ghost use Rattle.celt_session.specs.EncoderPairs.{pair_work};
ghost use Rattle.celt_session.specs.FrameSessions.{StandsFor, Goes, status_of};
ghost use Rattle.celt_session.specs.Keeping.{IsKept};
ghost use Rattle.celt_session.specs.Lockstep.{AreInStep};

use crate::batching::new_framer;
use crate::concluding::{end_session, settle_session};
use crate::encoder_pair::EncoderPair;
use crate::ended::Ended;
use crate::fed::Fed;
use crate::feeding::feed_session;
use crate::frame_session::FrameSession;
use crate::maker::Maker;
use crate::packet_writer::new_packer;
use crate::settings::Settings;
use crate::stream::{read_room, within};
use celt_base::outside::{Gate, Sink, Source};
use celt_base::status::{OutOfMemory, Status};
use std::alloc::Global;
use std::thread::Threads;
use wav_edge::reader::HeaderReader;

/// A session that was fed nothing. It takes all its memory.
pub(crate) fn new_session(
    alloc: Global,
    settings: Settings,
) -> Result<FrameSession<EncoderPair>, OutOfMemory>
    requires { AreSettings settings }
    ensures stands { IfOk result (λ session. StandsFor pair_work session []) }
    ensures only { IfOk result (λ session. (bytes : List ℕ) → StandsFor pair_work session bytes → bytes ≡ []) }
    ensures goes { IfOk result (λ session. Goes pair_work session) }
    ensures going { IfOk result (λ session. session.is_ended ≡ false) }
    ensures fed { IfOk result (λ session. session.fed ≡ 0) }
    ensures settings { IfOk result (λ session. session.settings ≡ settings) }
{
    let Ok(work) = EncoderPair::new(alloc, settings) else {
        return Err(OutOfMemory);
    };
    let Ok(framer) = new_framer(alloc) else {
        return Err(OutOfMemory);
    };
    match new_packer(alloc) {
        Ok(packer) => Ok(FrameSession {
            settings,
            header: HeaderReader::new(),
            recording: None,
            maker: Maker {
                work,
                framer,
                packer,
            },
            fed: 0,
            is_ended: false,
        }),
        Err(_) => Err(OutOfMemory),
    }
}

/// The status of an input that ends within the limit.
fn status_at(ended: Ended) -> Status
    ensures { result ≡ status_of ended }
{
    match ended {
        Ended::Done => Status::Done,
        Ended::Fault(fault) => Status::Refused(fault),
        Ended::WriteFault => Status::WriteFault,
    }
}

/// Reads the input to its end or past the limit, and feeds what is within it to a new session.
fn encode_all<R: Threads, S: Source, K: Sink, G: Gate>(
    rt: &R,
    session: &mut FrameSession<EncoderPair>,
    buf: &mut [u8],
    limit: u64,
    input: &mut S,
    output: &mut K,
    gate: &G,
) -> Status
    requires settings { AreSettings session.old.settings }
    requires limit { limit ≤ 2 ^ 40 }
    requires going { session.old.is_ended ≡ false }
    requires goes { Goes pair_work session.old }
    requires fed { session.old.fed ≡ 0 }
    requires room { 0 < length buf.old }
    ensures status { StandsFor pair_work session.old [] →
        IfSome (S.left input.old) (λ bytes. Answers (wanted (encoding_by encoded_frames session.old.settings) limit bytes) result) }
    ensures output { StandsFor pair_work session.old [] →
        IfSome (S.left input.old) (λ bytes. WritesFront (encoding_by encoded_frames session.old.settings) limit bytes (K.held output.old) (K.held output.new) result) }
    ensures read_fault { result ≡ Status.ReadFault → Rose (S.faults input.old) (S.faults input.new) }
    ensures write_fault { result ≡ Status.WriteFault → Rose (K.faults output.old) (K.faults output.new) }
    ensures words { result ≢ Status.Usage }
    ensures memory { result ≢ Status.NoMemory }
    ensures kept { K.faults output.old ≤ K.faults output.new }
{
    let mut left = limit;
    'pieces: loop {
        let Ok(count) = input.read(buf) else {
            return Status::ReadFault;
        };
        if count == 0 {
            return status_at(end_session(rt, session, output, gate));
        }
        let (read, _) = buf.split_at(count);
        match feed_session(rt, session, within(read, left), output, gate) {
            Fed::More => {}
            Fed::Fault(fault) => return Status::Refused(fault),
            Fed::WriteFault => return Status::WriteFault,
        }
        if count as u64 > left {
            return match settle_session(rt, session, output, gate) {
                Ok(()) => Status::InputTooLong,
                Err(_) => Status::WriteFault,
            };
        }
        left -= count as u64;
    }
}

/// Encodes the WAV file of the input into an Ogg stream on the output. At most `limit` bytes are read as the file,
/// and whether there is one more is found out. All memory is taken before the first write.
pub fn encode_stream<R: Threads, S: Source, K: Sink, G: Gate>(
    rt: &R,
    alloc: Global,
    settings: Settings,
    limit: u64,
    input: &mut S,
    output: &mut K,
    gate: &G,
) -> Status
    requires settings { AreSettings settings }
    requires limit { limit ≤ 2 ^ 40 }
    ensures status { IfSome (S.left input.old) (λ bytes. Answers (wanted (encoding_by encoded_frames settings) limit bytes) result) }
    ensures output { IfSome (S.left input.old) (λ bytes. WritesFront (encoding_by encoded_frames settings) limit bytes (K.held output.old) (K.held output.new) result) }
    ensures in_step { IfSome (S.left input.old) (λ bytes. result ≡ Status.Done → AreInStep settings bytes) }
    ensures samples_kept { IfSome (S.left input.old) (λ bytes. result ≡ Status.Done → IsKept encoded_frames settings bytes) }
    ensures read_fault { result ≡ Status.ReadFault → Rose (S.faults input.old) (S.faults input.new) }
    ensures write_fault { result ≡ Status.WriteFault → Rose (K.faults output.old) (K.faults output.new) }
    ensures memory { result ≡ Status.NoMemory → output.new ≡ output.old }
    ensures words { result ≢ Status.Usage }
    ensures kept { K.faults output.old ≤ K.faults output.new }
{
    let Ok(mut buf) = read_room(alloc) else {
        return Status::NoMemory;
    };
    let Ok(mut session) = new_session(alloc, settings) else {
        return Status::NoMemory;
    };
    encode_all(rt, &mut session, &mut buf, limit, input, output, gate)
}
