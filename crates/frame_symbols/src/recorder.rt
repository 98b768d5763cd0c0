//! A coder that keeps what it was asked and what it answered, over another coder.
ghost use Rattle.std.specs.Prelude.{◌≡◌, ◌+◌, ◌≤◌, [], vec_len, vec_capacity};
ghost use Rattle.frame_symbols.specs.Recorders.{WalkedList};
ghost use Rattle.frame_symbols.specs.Openings.{IsPostFilter};

use crate::fields::Fields;
use crate::frame::walk_frame;
use celt_base::coder::{Chooser, Coder};
use celt_base::kind::Kind;
use celt_base::question::Question;

/// A question with its answer.
#[derive(Clone, Copy, Debug, PartialEq, Eq)]
pub struct Answer {
    pub question: Question,
    pub value: i64,
}

/// Asks the coder `inner`, and writes each question with its answer to the list that it was lent.
#[derive(Drop)]
struct Recorder<'a, C: Coder> {
    inner: &'a mut C,
    list: &'a mut Vec<Answer>,
    ghost room: { 4096 ≤ vec_capacity list.now },
    ghost counted: { vec_len list.now ≡ C.calls.count inner.now },
}

impl<'a, C: Coder> Coder for Recorder<'a, C> {
    ghost use Rattle.std.specs.Prelude.{◌≡◌, ◌+◌, ◌*◌, ◌<◌, ◌≤◌};
    ghost use Rattle.frame_symbols.specs.Recorders.{recorder_calls};

    ghost calls = { recorder_calls C.calls (λ r. r.inner.now) (λ r. r.list.now.items) (λ r. r.inner.ghost_name) (λ r. r.list.ghost_name) };

    fn ask(&mut self, question: Question, want: i64) -> i64 {
        let value = self.inner.ask(question, want);
        self.list.push_reserved(Answer { question, value });
        value
    }

    fn tell(&self) -> u32 {
        self.inner.tell()
    }

    fn tell_frac(&self) -> u32 {
        self.inner.tell_frac()
    }

    ghost ranges = { λ r. C.ranges r.inner.now };
}

/// Asks the questions of a frame, and leaves them with their answers in the list.
pub fn walk_recorded<C: Coder, H: Chooser>(
    coder: &mut C,
    chooser: &mut H,
    kind: Kind,
    len: u32,
    list: &mut Vec<Answer>,
    fields: &mut Fields,
)
    requires least { 2 ≤ len }
    requires len { len ≤ 1275 }
    requires none { C.calls.count coder.old ≡ 0 }
    requires room { 4096 ≤ vec_capacity list.old }
    ensures walked { WalkedList C.calls H.calls kind len list.new.items fields.new coder.old chooser.old coder.new chooser.new }
    ensures room { 4096 ≤ vec_capacity list.new }
    ensures post_filter { IsPostFilter fields.new.opening.post_filter }
{
    list.clear();
    let mut recorder = Recorder { inner: coder, list };
    walk_frame(&mut recorder, chooser, kind, len, fields);
}
