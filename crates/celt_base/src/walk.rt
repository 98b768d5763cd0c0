//! The calls that ask at a place: `want` of the chooser, `ask` of the coder, `told` of the chooser. Every walk of a
//! frame's questions is made of them.
ghost use Rattle.std.specs.Prelude.{◌≡◌, ◌+◌, ◌^◌, ◌<◌, ◌≤◌};
ghost use Rattle.celt_base.specs.Questions.{IsValid, IsAnswer, IsCounted, limit_of};
ghost use Rattle.celt_base.specs.WalkCalls.{heard, meant, small_value, small_answer, bit_value, bit_answer, coarse_value, coarse_answer, IsHeard};
ghost use Rattle.celt_base.specs.WalkScripts.{asks_at, asks_value_at, asks_bit, asks_number, bit_within};
ghost use Rattle.celt_base.specs.Walks.{Walked};

use crate::coder::{Chooser, Coder, Place};
use crate::question::Question;

fn value_of_small(answer: i64) -> i64
    ensures { result ≡ small_value answer }
{
    if answer == 1 {
        -1
    } else if answer == 2 {
        1
    } else {
        0
    }
}

#[tactic(auto, unfolding(crate::specs::WalkCalls::small_answer))]
fn answer_of_small(wanted: i64) -> i64
    ensures { result ≡ small_answer wanted }
{
    if wanted < 0 {
        1
    } else if wanted > 0 {
        2
    } else {
        0
    }
}

fn value_of_bit(answer: i64) -> i64
    ensures { result ≡ bit_value answer }
{
    if answer == 1 { -1 } else { 0 }
}

#[tactic(auto, unfolding(crate::specs::WalkCalls::bit_answer))]
fn answer_of_bit(wanted: i64) -> i64
    ensures { result ≡ bit_answer wanted }
{
    i64::from(wanted < 0)
}

/// What a chooser is told of an answer.
#[tactic(auto, unfolding(crate::specs::WalkCalls::heard, crate::specs::WalkCalls::coarse_value))]
fn told_number(at: Place, question: Question, answer: i64) -> i64
    ensures { result ≡ heard at question answer }
{
    let Place::Coarse { .. } = at else {
        return answer;
    };
    match question {
        Question::Table(_) => value_of_small(answer),
        Question::Bit(_) => value_of_bit(answer),
        _ => answer,
    }
}

/// The answer that a chooser means.
#[tactic(auto, unfolding(crate::specs::WalkCalls::meant, crate::specs::WalkCalls::coarse_answer))]
fn meant_answer(at: Place, question: Question, wanted: i64) -> i64
    ensures { result ≡ meant at question wanted }
{
    let Place::Coarse { .. } = at else {
        return wanted;
    };
    match question {
        Question::Table(_) => answer_of_small(wanted),
        Question::Bit(_) => answer_of_bit(wanted),
        _ => wanted,
    }
}

/// Asks a question at a place, and gives its answer.
pub fn ask_at<C: Coder, H: Chooser>(
    coder: &mut C,
    chooser: &mut H,
    at: Place,
    question: Question,
) -> i64
    requires valid { IsValid question }
    requires few { C.calls.count coder.old < 4096 }
    ensures walked { Walked C.calls H.calls (asks_at at question) result coder.old chooser.old coder.new chooser.new }
    ensures is_answer { IsAnswer question result }
    ensures count { C.calls.count coder.new ≡ C.calls.count coder.old + 1 }
{
    let wanted = chooser.want(at, question);
    let answer = coder.ask(question, meant_answer(at, question, wanted));
    chooser.told(at, told_number(at, question, answer));
    answer
}

/// Asks a question at a place, and gives the value of its answer: at a coarse energy the energy's, elsewhere the answer.
pub fn ask_value_at<C: Coder, H: Chooser>(
    coder: &mut C,
    chooser: &mut H,
    at: Place,
    question: Question,
) -> i64
    requires valid { IsValid question }
    requires few { C.calls.count coder.old < 4096 }
    ensures walked { Walked C.calls H.calls (asks_value_at at question) result coder.old chooser.old coder.new chooser.new }
    ensures is_value { IsHeard at question result }
    ensures count { C.calls.count coder.new ≡ C.calls.count coder.old + 1 }
{
    let answer = ask_at(coder, chooser, at, question);
    told_number(at, question, answer)
}

/// Asks a bit that is 1 with probability 2^-p, and gives whether it is.
pub fn ask_bit<C: Coder, H: Chooser>(coder: &mut C, chooser: &mut H, at: Place, p: u32) -> bool
    requires valid { IsValid (Question.Bit p) }
    requires few { C.calls.count coder.old < 4096 }
    ensures walked { Walked C.calls H.calls (asks_bit at p) result coder.old chooser.old coder.new chooser.new }
    ensures count { C.calls.count coder.new ≡ C.calls.count coder.old + 1 }
{
    ask_at(coder, chooser, at, Question::Bit(p)) == 1
}

/// Asks a question whose answers are the numbers from 0 on.
pub fn ask_number<C: Coder, H: Chooser>(
    coder: &mut C,
    chooser: &mut H,
    at: Place,
    question: Question,
) -> u32
    requires valid { IsValid question }
    requires counted { IsCounted question }
    requires few { C.calls.count coder.old < 4096 }
    ensures walked { Walked C.calls H.calls (asks_number at question) result coder.old chooser.old coder.new chooser.new }
    ensures below { result < limit_of question }
    ensures count { C.calls.count coder.new ≡ C.calls.count coder.old + 1 }
{
    ask_at(coder, chooser, at, question) as u32
}

/// Asks a bit that is 1 with probability 2^-p where at least `cost` bits are left of the budget, which is in bits, and
/// gives whether it is 1. Elsewhere nothing is asked, and it is not.
pub fn ask_bit_within<C: Coder, H: Chooser>(
    coder: &mut C,
    chooser: &mut H,
    at: Place,
    p: u32,
    cost: u32,
    budget: u32,
) -> bool
    requires valid { IsValid (Question.Bit p) }
    requires cost { cost ≤ 2 ^ 16 }
    requires few { C.calls.count coder.old < 4096 }
    ensures walked { Walked C.calls H.calls (bit_within at p cost budget) result coder.old chooser.old coder.new chooser.new }
    ensures count { C.calls.count coder.new ≤ C.calls.count coder.old + 1 }
{
    if coder.tell() + cost > budget {
        return false;
    }
    ask_bit(coder, chooser, at, p)
}
