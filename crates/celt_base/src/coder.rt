//! A coder answers the questions of a frame, and a chooser wants answers. A walk over both makes three calls for each
//! question, in this order: `want`, `ask`, `told`.
ghost use Rattle.std.specs.Prelude.{◌≡◌, ◌+◌, ◌*◌, ◌<◌, ◌≤◌};
ghost use Rattle.celt_base.specs.Paces.{paced, tell_of, tell_frac_of};
ghost use Rattle.celt_base.specs.Questions.{IsValid, IsAnswer};
ghost use Rattle.celt_base.specs.WalkCalls.{CoderCalls, ChooserCalls, IsPace, mute_calls};

use crate::question::Question;

/// A band of one channel is begun. A coded mid is channel 0 and a coded side is channel 1.
#[derive(Clone, Copy, Debug, PartialEq, Eq)]
pub struct Enter {
    pub band: u8,
    pub channel: u8,
    /// The time-frequency change (RFC 6716, section 4.3.4.5): above 0 the band has fewer blocks, below 0 more.
    pub tf: i32,
    /// The number of short blocks that the band's coefficients are from.
    pub blocks: u32,
}

/// What a question is about. `offset` and `n` name the part of a band that is coded, in coefficients.
#[derive(Clone, Copy, Debug, PartialEq, Eq)]
pub enum Place {
    /// Whether the frame is silent.
    Silence,
    /// Whether the post-filter is on.
    Filter,
    /// The octave of the post-filter's period.
    Octave,
    /// The post-filter's period within its octave.
    Period {
        octave: u32,
    },
    /// The post-filter's gain.
    Gain,
    /// The post-filter's tapset.
    Tapset,
    /// Whether the frame has short blocks.
    Transient,
    /// Whether the coarse energies are coded without the frame before.
    Intra,
    /// A coarse energy. Here a chooser's numbers are values of energies.
    Coarse {
        band: u8,
        channel: u8,
    },
    /// Whether the time-frequency flag changes; `current` is the flag before.
    Tf {
        band: u8,
        current: bool,
    },
    /// Which of the two rows of time-frequency changes counts.
    TfSelect,
    /// The spreading.
    Spread,
    /// Whether a band's cap is boosted once more.
    Boost {
        band: u8,
        turn: u32,
    },
    /// The tilt of the allocation.
    Trim,
    /// Whether the last band is kept, which has these eighths of a bit.
    Skip {
        band: u8,
        bits: i32,
    },
    /// The band from which intensity stereo begins, of so many coded bands.
    Intensity {
        coded: u32,
    },
    /// Whether the bands below are coded in dual stereo.
    Dual,
    /// The fine energy of these bits.
    Fine {
        band: u8,
        channel: u8,
        bits: u32,
    },
    /// The angle of a split, of `qn` steps: of two halves in time, or of mid and side.
    Theta {
        band: u8,
        channel: u8,
        offset: u32,
        n: u32,
        qn: u32,
        stereo: bool,
    },
    /// Whether the second channel of an intensity band is inverted.
    Inversion {
        band: u8,
    },
    /// The sign of the side of a band of two coefficients.
    SideSign {
        band: u8,
        theta: i32,
    },
    /// The vector of `k` pulses.
    Pulses {
        band: u8,
        channel: u8,
        offset: u32,
        n: u32,
        k: u32,
        blocks: u32,
    },
    /// The sign of a band of one coefficient.
    Sign {
        band: u8,
        channel: u8,
    },
    /// Whether collapsed short blocks are filled.
    Collapse,
    /// The last bit of an energy, from the bits that are left.
    Last {
        band: u8,
        channel: u8,
    },
}

/// A coder of questions: a reader gives the answers of a frame, a writer those nearest to the wanted ones.
pub trait Coder {
    // Its pace, the number of questions that it was asked, and what a call of `ask` does.
    ghost calls: { CoderCalls Self };

    /// Answers a question. The pace after is that of every coder with this question and answer.
    fn ask(&mut self, question: Question, want: i64) -> i64
        requires valid { IsValid question }
        requires few { calls.count self.old < 4096 }
        ensures asks { calls.Asks self.old question want result self.new }
        ensures is_answer { IsAnswer question result }
        ensures pace { calls.pace self.new ≡ paced question result (calls.pace self.old) }
        ensures count { calls.count self.new ≡ calls.count self.old + 1 };

    /// How many bits were used so far, rounded up (RFC 6716, section 4.1.6.1).
    fn tell(&self) -> u32
        ensures value { result ≡ tell_of (calls.pace self.now) }
        ensures least { 1 ≤ result }
        ensures most { result ≤ 9 + 40 * calls.count self.now };

    /// How many eighths of a bit were used so far, rounded up (RFC 6716, section 4.1.6.2).
    fn tell_frac(&self) -> u32
        ensures value { result ≡ tell_frac_of (calls.pace self.now) }
        ensures most { result ≤ 8 * (9 + 40 * calls.count self.now) };

    // The pace of every coder is in this range.
    ghost ranges: { (coder : Self) → IsPace (calls.pace coder) (calls.count coder) };
}

/// What wants answers. It may want anything, and is told the answer of each question.
pub trait Chooser {
    // What each of its calls does.
    ghost calls: { ChooserCalls Self };

    /// A band of one channel is begun. It comes before the band's first question of this channel.
    fn enter(&mut self, at: Enter)
        ensures { calls.Enters self.old at self.new };

    /// The answer that is wanted; at a coarse energy the value.
    fn want(&mut self, at: Place, question: Question) -> i64
        ensures { calls.Wants self.old at question result self.new };

    /// The answer that was given; at a coarse energy its value.
    fn told(&mut self, at: Place, answer: i64)
        ensures { calls.Told self.old at answer self.new };
}

/// A chooser that wants 0 everywhere, for a coder that passes over what is wanted.
#[derive(Clone, Copy, Debug, PartialEq, Eq)]
pub struct Mute;

impl Chooser for Mute {
    ghost calls = { mute_calls };

    fn enter(&mut self, _at: Enter) {}

    fn want(&mut self, _at: Place, _question: Question) -> i64 {
        0
    }

    fn told(&mut self, _at: Place, _answer: i64) {}
}
