//! Numbers that are asked where the frame has room for them.
ghost use Rattle.std.specs.Prelude.{◌≡◌, ◌+◌, ◌*◌, ◌^◌, ◌<◌, ◌≤◌};
ghost use Rattle.celt_base.specs.Questions.{IsValid, IsCounted, limit_of};
ghost use Rattle.celt_base.specs.Walks.{Walked};
ghost use Rattle.frame_symbols.specs.Askings.{number_within, number_within_eighths};

use celt_base::coder::{Chooser, Coder, Place};
use celt_base::question::Question;
use celt_base::walk::ask_number;

/// A number that is asked where a budget has so many bits, or eighths of a bit, left; else it is `other`.
#[derive(Clone, Copy)]
pub struct Budgeted {
    pub question: Question,
    pub cost: u32,
    pub budget: u32,
    pub other: u32,
}

/// Asks for a number, where its cost in bits is left of the budget.
pub fn ask_number_within<C: Coder, H: Chooser>(
    coder: &mut C,
    chooser: &mut H,
    at: Place,
    number: Budgeted,
) -> u32
    requires valid { IsValid number.question }
    requires counted { IsCounted number.question }
    requires small { limit_of number.question ≤ 2 ^ 24 }
    requires cost { number.cost ≤ 2 ^ 16 }
    requires other { number.other < limit_of number.question }
    requires few { C.calls.count coder.old < 4096 }
    ensures walked { Walked C.calls H.calls (number_within at number.question number.cost number.budget number.other) result
        coder.old chooser.old coder.new chooser.new }
    ensures below { result < limit_of number.question }
    ensures count { C.calls.count coder.new ≤ C.calls.count coder.old + 1 }
{
    if coder.tell() + number.cost > number.budget {
        return number.other;
    }
    ask_number(coder, chooser, at, number.question)
}

/// Asks for a number, where its cost in eighths of a bit is left of the budget.
pub fn ask_number_within_eighths<C: Coder, H: Chooser>(
    coder: &mut C,
    chooser: &mut H,
    at: Place,
    number: Budgeted,
) -> u32
    requires valid { IsValid number.question }
    requires counted { IsCounted number.question }
    requires small { limit_of number.question ≤ 2 ^ 24 }
    requires cost { number.cost ≤ 2 ^ 20 }
    requires other { number.other < limit_of number.question }
    requires few { C.calls.count coder.old < 4096 }
    ensures walked { Walked C.calls H.calls (number_within_eighths at number.question number.cost number.budget number.other) result
        coder.old chooser.old coder.new chooser.new }
    ensures below { result < limit_of number.question }
    ensures count { C.calls.count coder.new ≤ C.calls.count coder.old + 1 }
{
    if coder.tell_frac() + number.cost > number.budget {
        return number.other;
    }
    ask_number(coder, chooser, at, number.question)
}
