//! The chooser of a frame: what an encoder wants of each answer.
ghost use Rattle.std.specs.Prelude.{◌≡◌, ◌≤◌};
ghost use Rattle.celt_encode.specs.Outsets.{outset_of};

use crate::answers::{Answers, Number};
use crate::frame::Frame;
use crate::numbers::number_at;
use crate::rooms::Vector;
use crate::vectors::entered;
use celt_base::coder::{Chooser, Enter, Place};
use celt_base::question::Question;
use fixed_math::Trig;

/// The chooser of one frame: the answers so far, and for each channel the vector that was entered last.
#[derive(Drop)]
pub struct Choice<'a> {
    frame: &'a Frame,
    trig: &'a Trig,
    answers: Answers,
    first: &'a mut Vector,
    second: &'a mut Vector,
    ghost spread: { answers.spread ≤ 3 },
}

impl<'a> Choice<'a> {
    ghost use Rattle.celt_encode.specs.Choosers.{standing_of};
    ghost use Rattle.celt_encode.specs.Standing.{begun};

    /// The chooser of a frame of which nothing was answered. The rooms may hold anything.
    pub fn new(
        frame: &'a Frame,
        trig: &'a Trig,
        first: &'a mut Vector,
        second: &'a mut Vector,
    ) -> Choice<'a>
        ensures { standing_of result ≡ begun (outset_of frame.now) }
    {
        first.count = 0;
        second.count = 0;
        Choice {
            frame,
            trig,
            answers: Answers::none(),
            first,
            second,
        }
    }
}

impl<'a> Chooser for Choice<'a> {
    ghost use Rattle.celt_encode.specs.Choosers.{choice_calls};

    ghost calls = { choice_calls };

    #[tactic(auto, unfolding(crate::specs::Standing::entered_in))]
    fn enter(&mut self, at: Enter) {
        let vector = entered(self.frame, &self.answers, at);
        if at.channel == 0 {
            *self.first = vector;
        } else {
            *self.second = vector;
        }
    }

    fn want(&mut self, at: Place, _question: Question) -> i64 {
        number_at(
            self.frame,
            self.trig,
            &self.answers,
            self.first,
            self.second,
            at,
        )
    }

    fn told(&mut self, at: Place, answer: i64) {
        self.answers.tell(at, Number { value: answer });
    }
}

/// A chooser that wants 1 everywhere: of the first question, that the frame is silent.
#[derive(Clone, Copy, Debug)]
pub struct Hush;

impl Chooser for Hush {
    ghost use Rattle.celt_encode.specs.Choosers.{hush_calls};

    ghost calls = { hush_calls };

    fn enter(&mut self, _at: Enter) {}

    fn want(&mut self, _at: Place, _question: Question) -> i64 {
        1
    }

    fn told(&mut self, _at: Place, _answer: i64) {}
}
