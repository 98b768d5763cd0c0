//! A reader of the header of a WAV file, whose bytes come in pieces of any size. It keeps none of them but
//! the first few of a chunk.
ghost use Rattle.std.specs.Prelude.{◌≡◌};
ghost use Rattle.wav_edge.specs.Cursors.{next_place};

use crate::cursor::{Cursor, State};
use celt_base::status::{Fault, FaultName};

/// A fault of a WAV file, `BadRiff`, `UnsupportedFormat`, `NoData` or `DataTruncated`, and the byte where
/// it is, from the start of the file.
pub type WavFault = Fault;

/// What the bytes so far give.
#[derive(Clone, Copy, Debug, PartialEq, Eq)]
pub enum Header {
    /// No fault, and the samples have not begun: more bytes must come.
    Need,
    /// The samples begin after the first `used` bytes of the last piece: 16 bits each, the channels (1 or 2)
    /// interleaved, at this rate in Hz (48000). The size in bytes is the declared one of all samples; none
    /// stands for "up to the end of the file".
    Data {
        channels: u8,
        rate: u32,
        size: Option<u64>,
        used: usize,
    },
    /// The first fault of the bytes so far.
    Fault(WavFault),
}

/// Reads a file up to its samples. It takes no memory.
#[derive(Debug, Drop)]
pub struct HeaderReader {
    /// How many bytes came.
    fed: u64,
    state: State,
    ghost placed: { next_place state fed ≡ fed },
}

impl HeaderReader {
    ghost use Rattle.std.specs.Prelude.{◌≡◌, ◌≤◌, ◌+◌, ◌^◌, ◌++◌, ℕ, List, [], length, false, None, Some, IfSome, ◌↔◌};
    ghost use Rattle.wav_edge.specs.Reading.{outcome, end_fault};
    ghost use Rattle.wav_edge.specs.Readers.{StandsFor, bytes_fed, has_started, fault_of, answered, answer_to, IsPlayable, Gives, EndsWithin, is_data, fault_in};

    /// Before the first byte of a file.
    pub fn new() -> HeaderReader
        ensures stands { (bytes : List ℕ) → StandsFor result bytes ↔ (bytes ≡ []) }
        ensures fed { bytes_fed result ≡ 0 }
        ensures unread { has_started result ≡ false }
        ensures sound { fault_of result ≡ None }
    {
        HeaderReader {
            fed: 0,
            state: State::Reading(Cursor::new()),
        }
    }

    /// Takes a piece of the file, which may have any size, and says what the bytes so far give. A fault is
    /// answered again, whatever follows. Data must not have been answered before, and a file has at most
    /// 2^40 bytes.
    pub fn feed(&mut self, piece: &[u8]) -> Header
        requires unread { has_started self.old ≡ false }
        requires limit { bytes_fed self.old + length piece.now ≤ 2 ^ 40 }
        ensures longer { (bytes : List ℕ) →
            StandsFor self.old bytes → StandsFor self.new (bytes ++ piece.now) }
        ensures answer { (bytes : List ℕ) → StandsFor self.old bytes →
            result ≡ answered (length bytes) (outcome (bytes ++ piece.now)) }
        ensures said { result ≡ answer_to self.old piece.now }
        ensures playable { IsPlayable result }
        ensures gives { (bytes : List ℕ) → StandsFor self.old bytes →
            Gives (length bytes) result (outcome (bytes ++ piece.now)) }
        ensures used { EndsWithin (length piece.now) result }
        ensures again { IfSome (fault_of self.old) (λ fault. result ≡ Header.Fault fault) }
        ensures fed { bytes_fed self.new ≡ bytes_fed self.old + length piece.now }
        ensures started { has_started self.new ≡ is_data result }
        ensures stopped { fault_of self.new ≡ fault_in result }
    {
        let before = self.fed;
        let state = self.state.advance(piece);
        *self = HeaderReader {
            fed: before + piece.len() as u64,
            state,
        };
        match state {
            State::Reading(_) => Header::Need,
            State::Started {
                channels,
                rate,
                size,
                place,
            } => Header::Data {
                channels,
                rate,
                size,
                used: (place - before) as usize,
            },
            State::Stopped(fault) => Header::Fault(fault),
        }
    }

    /// The fault of a file that ends with the bytes so far: NoData where they end directly after `WAVE` or a
    /// later chunk with its padding, else DataTruncated. Data or a fault must not have been answered.
    pub fn end(&self) -> WavFault
        requires unread { has_started self.now ≡ false }
        requires sound { fault_of self.now ≡ None }
        ensures { (bytes : List ℕ) → StandsFor self.now bytes → end_fault bytes ≡ Some result }
    {
        let name = if self.state.is_between() {
            FaultName::NoData
        } else {
            FaultName::DataTruncated
        };
        Fault { name, at: self.fed }
    }
}
