//! The first questions of a frame (RFC 6716, sections 4.3 and 4.3.7.1).
ghost use Rattle.std.specs.Prelude.{◌≡◌, ◌+◌, ◌*◌, ◌^◌, ◌<◌, ◌≤◌, false};
ghost use Rattle.celt_base.specs.Walks.{Walked};
ghost use Rattle.frame_symbols.specs.Openings.{on_script, filter_script, transient_script, intra_script, post_filter_of, IsPostFilter};

use crate::asking::{Budgeted, ask_number_within};
use celt_base::coder::{Chooser, Coder, Place};
use celt_base::kind::Kind;
use celt_base::question::{Question, TableId};
use celt_base::walk::{ask_bit_within, ask_number};

/// The answers of the post-filter. Off is period 15, gain 0, tapset 0.
#[derive(Clone, Copy, Debug, PartialEq, Eq)]
pub struct PostFilter {
    /// The pitch period, in samples at 48 kHz.
    pub period: u32,
    /// The gain, Q15.
    pub gain: u32,
    /// Which of the three sets of filter taps.
    pub tapset: u32,
}

impl PostFilter {
    ghost use Rattle.frame_symbols.specs.Openings.{off};

    /// No post-filter.
    pub fn off() -> PostFilter
        ensures { result ≡ off }
    {
        PostFilter {
            period: 15,
            gain: 0,
            tapset: 0,
        }
    }
}

pub(crate) fn post_filter_of(octave: u32, place: u32, gain: u32, tapset: u32) -> PostFilter
    requires octave { octave < 6 }
    requires place { place < 2 ^ (4 + octave) }
    requires gain { gain < 8 }
    requires tapset { tapset < 3 }
    ensures value { result ≡ post_filter_of octave place gain tapset }
    ensures is { IsPostFilter result }
{
    PostFilter {
        period: (16 << octave) + place - 1,
        gain: 3072 * (gain + 1),
        tapset,
    }
}

// Asks for the post-filter's setting.
fn ask_post_filter<C: Coder, H: Chooser>(coder: &mut C, chooser: &mut H, budget: u32) -> PostFilter
    requires few { C.calls.count coder.old + 4 ≤ 4096 }
    ensures walked { Walked C.calls H.calls (on_script budget) result coder.old chooser.old coder.new chooser.new }
    ensures is { IsPostFilter result }
    ensures count { C.calls.count coder.new ≤ C.calls.count coder.old + 4 }
{
    let octave = ask_number(coder, chooser, Place::Octave, Question::Uniform(6));
    let place = ask_number(
        coder,
        chooser,
        Place::Period { octave },
        Question::Raw(4 + octave),
    );
    let gain = ask_number(coder, chooser, Place::Gain, Question::Raw(3));
    let number = Budgeted {
        question: Question::Table(TableId::Tapset),
        cost: 2,
        budget,
        other: 0,
    };
    let tapset = ask_number_within(coder, chooser, Place::Tapset, number);
    post_filter_of(octave, place, gain, tapset)
}

/// Asks for the post-filter of a frame of `budget` bits.
pub fn ask_filter<C: Coder, H: Chooser>(coder: &mut C, chooser: &mut H, budget: u32) -> PostFilter
    requires few { C.calls.count coder.old + 5 ≤ 4096 }
    ensures walked { Walked C.calls H.calls (filter_script budget) result coder.old chooser.old coder.new chooser.new }
    ensures is { IsPostFilter result }
    ensures count { C.calls.count coder.new ≤ C.calls.count coder.old + 5 }
{
    if ask_bit_within(coder, chooser, Place::Filter, 1, 16, budget) {
        return ask_post_filter(coder, chooser, budget);
    }
    PostFilter::off()
}

/// Asks whether the frame has short blocks.
pub fn ask_transient<C: Coder, H: Chooser>(
    coder: &mut C,
    chooser: &mut H,
    kind: Kind,
    budget: u32,
) -> bool
    requires few { C.calls.count coder.old < 4096 }
    ensures walked { Walked C.calls H.calls (transient_script kind budget) result coder.old chooser.old coder.new chooser.new }
    ensures long { kind.lm ≡ 0 → result ≡ false }
    ensures count { C.calls.count coder.new ≤ C.calls.count coder.old + 1 }
{
    if kind.lm == 0 {
        return false;
    }
    ask_bit_within(coder, chooser, Place::Transient, 3, 3, budget)
}
