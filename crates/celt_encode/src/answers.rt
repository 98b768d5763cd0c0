//! What the answers of a frame came to so far.
ghost use Rattle.std.specs.Prelude.{◌≡◌, ◌≤◌, min, unsigned_abs};
ghost use Rattle.celt_encode.specs.Known.{told_of, no_answers, limited, put_at, put_flag, leans_by, is_told};

use celt_base::coder::Place;

/// What the answers so far came to.
#[derive(Clone, Copy, Debug, PartialEq, Eq)]
pub struct Answers {
    pub intra: bool,
    pub transient: bool,
    pub spread: u32,
    /// The band from which intensity stereo begins.
    pub intensity: u32,
    pub dual: bool,
    /// The value of each channel and band; -1 where it was not asked.
    pub coarse: [[i16; 21]; 2],
    /// The fine answer of each channel and band.
    pub fine: [[u8; 21]; 2],
    /// How many bits the fine answer has; 0 where it was not asked.
    pub bits: [[u32; 21]; 2],
    /// Whether the angle between middle and side is above 8192.
    pub leans: [bool; 21],
    pub inverted: [bool; 21],
}

/// A number that is wanted or told.
#[derive(Clone, Copy, Debug, PartialEq, Eq)]
pub struct Number {
    pub value: i64,
}

// A value within 2^15.
#[tactic(auto, unfolding(crate::specs::Known::limited))]
fn limit(n: Number) -> i16
    ensures { result ≡ limited n.value }
{
    if n.value > 32767 {
        return 32767;
    }
    if n.value < -32768 {
        return -32768;
    }
    n.value as i16
}

#[tactic(auto, unfolding(crate::specs::Known::is_told))]
fn is_one(n: Number) -> bool
    ensures { result ≡ is_told n.value }
{
    n.value == 1
}

// A number's size, at most this bound.
fn at_most(n: Number, bound: u32) -> u32
    ensures value { result ≡ min (unsigned_abs n.value) bound }
{
    n.value.unsigned_abs().min(bound as u64) as u32
}

// A number's size, at most 255.
fn byte_of(n: Number) -> u8
    ensures value { result ≡ min (unsigned_abs n.value) 255 }
{
    n.value.unsigned_abs().min(255) as u8
}

// Whether the angle is above 8192, qn of its steps being a right angle.
#[tactic(auto, unfolding(crate::specs::Known::leans_by))]
fn leans(n: Number, qn: u32) -> bool
    ensures { result ≡ leans_by qn n.value }
{
    if qn == 0 {
        return false;
    }
    at_most(n, 256) * 16384 / qn > 8192
}

// Sets the entry of a channel and band, if there is one.
#[tactic(auto, unfolding(crate::specs::Known::put_at))]
fn put_at<T: Copy>(rows: &mut [[T; 21]; 2], channel: u8, band: u8, value: T)
    ensures { rows.new ≡ put_at rows.old channel band value }
{
    if channel < 2 && band < 21 {
        rows[channel as usize][band as usize] = value;
    }
}

// Sets the flag of a band, if there is one.
#[tactic(auto, unfolding(crate::specs::Known::put_flag))]
fn put_flag(flags: &mut [bool; 21], band: u8, flag: bool)
    ensures { flags.new ≡ put_flag flags.old band flag }
{
    if band < 21 {
        flags[band as usize] = flag;
    }
}

impl Answers {
    /// Before the first question: what is not asked counts as this.
    pub fn none() -> Answers
        ensures { result ≡ no_answers }
    {
        Answers {
            intra: false,
            transient: false,
            spread: 2,
            intensity: 0,
            dual: false,
            coarse: [[-1; 21]; 2],
            fine: [[0; 21]; 2],
            bits: [[0; 21]; 2],
            leans: [false; 21],
            inverted: [false; 21],
        }
    }

    /// One more answer was told; at a coarse energy it is a value.
    #[tactic(auto, unfolding(crate::specs::Known::told_of))]
    pub fn tell(&mut self, at: Place, n: Number)
        ensures value { self.new ≡ told_of self.old at n.value }
        ensures spread { self.old.spread ≤ 3 → self.new.spread ≤ 3 }
    {
        match at {
            Place::Transient => self.transient = is_one(n),
            Place::Intra => self.intra = is_one(n),
            Place::Dual => self.dual = is_one(n),
            Place::Spread => self.spread = at_most(n, 3),
            Place::Intensity { .. } => self.intensity = at_most(n, 21),
            Place::Coarse { band, channel } => put_at(&mut self.coarse, channel, band, limit(n)),
            Place::Fine {
                band,
                channel,
                bits,
            } => {
                put_at(&mut self.fine, channel, band, byte_of(n));
                put_at(&mut self.bits, channel, band, bits);
            }
            Place::Inversion { band } => put_flag(&mut self.inverted, band, is_one(n)),
            Place::Theta {
                band,
                qn,
                stereo: true,
                ..
            } => put_flag(&mut self.leans, band, leans(n, qn)),
            _ => {}
        }
    }
}
