//! A reading of the form that is under way: where it stands, and the first bytes of the part at hand.
ghost use Rattle.std.specs.Prelude.{◌≡◌, ◌<◌, ◌*◌, take, IsTrue};
ghost use Rattle.wav_edge.specs.Parts.{can_follow, is_more, part_at};

use crate::parts::{LONGEST, Part, Seen, part_at};
use celt_base::status::Fault;

/// Where a reading stands.
#[derive(Clone, Copy, Debug, PartialEq, Eq)]
pub struct Cursor {
    /// What was read before the part at hand.
    seen: Seen,
    /// The place of the next byte that is passed over, or of the part at hand.
    at: u64,
    /// How many bytes are still passed over before the next part begins.
    left: u64,
    /// The part at hand begins with the first `len` of these bytes, which do not tell it yet.
    held: [u8; LONGEST],
    len: usize,
    ghost readable: { IsTrue (can_follow seen) },
    ghost room: { len < 34 },
    ghost apart: { left * len ≡ 0 },
    ghost untold: { IsTrue (is_more (part_at seen at (take len held))) },
}

/// What a reading came to.
#[derive(Clone, Copy, Debug, PartialEq, Eq)]
pub enum State {
    /// It is under way.
    Reading(Cursor),
    /// The samples begin at this place.
    Started {
        channels: u8,
        rate: u32,
        size: Option<u64>,
        place: u64,
    },
    /// The file has this fault.
    Stopped(Fault),
}

impl Cursor {
    ghost use Rattle.std.specs.Prelude.{◌≡◌, ◌≤◌, ◌<◌, ◌+◌, ◌^◌, ◌∷◌, ◌++◌, ℕ, List, [], length};
    ghost use Rattle.wav_edge.specs.Cursors.{resumed, resumed_state, place_of, IsMoved};
    ghost use Rattle.wav_edge.specs.Reading.{outcome, read};
    ghost use Rattle.wav_edge.specs.Reading.Outcome.{Unfinished};

    /// Whether the bytes so far end between two parts.
    fn is_between(self) -> bool
        ensures { resumed self [] ≡ Unfinished result }
    {
        if self.left > 0 || self.len > 0 {
            return false;
        }
        match self.seen {
            Seen::Nothing => false,
            Seen::Form => true,
            Seen::Format { .. } => true,
        }
    }

    /// Before a part that begins after `left` bytes from this place on.
    fn between(seen: Seen, at: u64, left: u64) -> Cursor
        requires { IsTrue (can_follow seen) }
        ensures moved { place_of result ≡ at }
        ensures resumes { (more : List ℕ) → resumed result more ≡ read more left seen at }
    {
        Cursor {
            seen,
            at,
            left,
            held: [0; LONGEST],
            len: 0,
        }
    }

    /// At the first byte of a file.
    #[tactic(auto, unfolding(crate::specs::Reading::outcome))]
    pub fn new() -> Cursor
        ensures start { place_of result ≡ 0 }
        ensures whole { (more : List ℕ) → resumed result more ≡ outcome more }
    {
        Cursor::between(Seen::Nothing, 0, 0)
    }

    /// After `count` bytes that are passed over.
    fn skip(self, count: u64) -> Cursor
        requires some { 0 < self.left }
        requires within { count ≤ self.left }
        requires place { place_of self + count < 2 ^ 48 }
        ensures moved { place_of result ≡ place_of self + count }
        ensures resumes { (bytes more : List ℕ) → length bytes ≡ count →
            resumed self (bytes ++ more) ≡ resumed result more }
    {
        Cursor::between(self.seen, self.at + count, self.left - count)
    }

    /// After one byte of the part at hand.
    fn take(self, byte: u8) -> State
        requires inside { self.left ≡ 0 }
        requires place { place_of self < 2 ^ 48 }
        ensures moved { IsMoved (place_of self) 1 result }
        ensures resumes { (more : List ℕ) → resumed self (byte ∷ more) ≡ resumed_state result more }
    {
        let mut held = self.held;
        held[self.len] = byte;
        let len = self.len + 1;
        let (bytes, _) = held.split_at(len);
        match part_at(self.seen, self.at, bytes) {
            Part::More => State::Reading(Cursor {
                seen: self.seen,
                at: self.at,
                left: 0,
                held,
                len,
            }),
            Part::Passed { seen, length } => State::Reading(Cursor::between(
                seen,
                self.at + len as u64,
                length - len as u64,
            )),
            Part::Samples {
                channels,
                rate,
                size,
            } => State::Started {
                channels,
                rate,
                size,
                place: self.at + 8,
            },
            Part::Broken(fault) => State::Stopped(fault),
        }
    }

    /// After a piece of the file; of it nothing is looked at behind the head of `data` or a fault.
    pub fn advance(self, piece: &[u8]) -> State
        requires place { place_of self + length piece.now ≤ 2 ^ 40 }
        ensures moved { IsMoved (place_of self) (length piece.now) result }
        ensures resumes { (more : List ℕ) →
            resumed self (piece.now ++ more) ≡ resumed_state result more }
    {
        let mut cursor = self;
        let mut next = 0;
        while next < piece.len() {
            if cursor.left > 0 {
                let count = cursor.left.min((piece.len() - next) as u64);
                cursor = cursor.skip(count);
                next += count as usize;
            } else {
                let state = cursor.take(piece[next]);
                let State::Reading(after) = state else {
                    return state;
                };
                cursor = after;
                next += 1;
            }
        }
        State::Reading(cursor)
    }
}

impl State {
    ghost use Rattle.std.specs.Prelude.{◌≡◌, ◌++◌, ℕ, List, length};
    ghost use Rattle.wav_edge.specs.Cursors.{resumed_state, IsStep, Fits40, EndsBetween};

    /// After a piece of the file.
    pub fn advance(self, piece: &[u8]) -> State
        requires place { Fits40 self (length piece.now) }
        ensures step { IsStep self (length piece.now) result }
        ensures resumes { (more : List ℕ) →
            resumed_state self (piece.now ++ more) ≡ resumed_state result more }
    {
        match self {
            State::Reading(cursor) => cursor.advance(piece),
            State::Started { .. } => self,
            State::Stopped(_) => self,
        }
    }

    /// Whether the bytes so far end between two parts, before the samples.
    pub fn is_between(self) -> bool
        ensures { EndsBetween self result }
    {
        match self {
            State::Reading(cursor) => cursor.is_between(),
            State::Started { .. } => false,
            State::Stopped(_) => false,
        }
    }
}
