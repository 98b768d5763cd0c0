//! Rows of a chooser that wants the greatest and the least: what a writer codes, and what a reader then reads.
ghost use Rattle.std.specs.Prelude.{◌≡◌, ◌+◌, ◌<◌, ◌≤◌, ⊤, IfSome};
ghost use Rattle.celt_base.specs.Energies.{AreEnergies};
ghost use Rattle.celt_base.specs.Questions.{IsValid};
ghost use Rattle.band_energy.specs.EnergyRows.{HasFineBits, AreCoarse, FitsFineBits, AreBits};

use super::{Energy, apply, coarse, fine, last};
use crate::extreme_rows::ROWS;
use crate::tests::{add, allocation_of, answers_of_one, digest_of, upper_half};
use celt_base::coder::{Chooser, Coder, Enter, Mute, Place};
use celt_base::kind::Kind;
use celt_base::question::{Question, TableId};
use celt_base::state::Allocation;
use range_coder::{Finish, Reader, Writer};

// It wants numbers that no question has, of these signs in turn, 21 in a number, the first lowest, and adds up what it is
// told.
#[derive(Clone, Copy)]
struct Extremes {
    signs: [u32; 2],
    turn: u32,
    told: u64,
}

impl Chooser for Extremes {
    ghost calls = { record {
      Enters = λ before at now. ⊤;
      Wants = λ before at question wanted now. ⊤;
      Told = λ before at answer now. ⊤;
    } };

    fn enter(&mut self, _at: Enter) {}

    fn want(&mut self, _at: Place, _question: Question) -> i64 {
        let place = self.turn % 42;
        let plus = (self.signs[place as usize / 21] >> (place % 21)) % 2 == 1;
        self.turn = (place + 1) % 42;
        if plus { 1 << 40 } else { -(1 << 40) }
    }

    fn told(&mut self, _at: Place, answer: i64) {
        self.told = add(self.told, answer.cast_unsigned());
    }
}

// The words of a row that were not read yet.
#[derive(Clone, Copy)]
struct Words<'a> {
    rest: &'a str,
}

impl<'a> Words<'a> {
    // The next word.
    fn next(&mut self) -> &'a str {
        match self.rest.split_once(' ') {
            Some((word, rest)) => {
                self.rest = rest;
                word
            }
            None => {
                let word = self.rest;
                self.rest = "";
                word
            }
        }
    }

    // The next word as a number.
    fn number(&mut self) -> u32 {
        self.next().parse().unwrap_or(0)
    }
}

// A question of one number.
fn question_of(letter: &str, number: u32) -> Option<Question>
    ensures { IfSome result IsValid }
{
    let is_even = number % 2 == 0 && (2..=256).contains(&number);
    if letter == "b" && (1..=15).contains(&number) {
        Some(Question::Bit(number))
    } else if letter == "r" && (1..=24).contains(&number) {
        Some(Question::Raw(number))
    } else if letter == "u" && number >= 2 {
        Some(Question::Uniform(number))
    } else if letter == "s" && is_even {
        Some(Question::Step(number))
    } else if letter == "t" && is_even {
        Some(Question::Triangle(number))
    } else {
        None
    }
}

// The next question.
fn next_question(words: &mut Words) -> Option<Question>
    ensures { IfSome result IsValid }
{
    let letter = words.next();
    if letter == "p" {
        Some(Question::Table(TableId::Tapset))
    } else if letter == "d" {
        Some(Question::Table(TableId::Spread))
    } else if letter == "m" {
        Some(Question::Table(TableId::Trim))
    } else {
        question_of(letter, words.number())
    }
}

// Asks the questions of the next list, and answers whether each has its answer.
fn ask_list<C: Coder>(coder: &mut C, words: &mut Words) -> bool
    requires { C.calls.count coder.old ≤ 2000 }
    ensures { C.calls.count coder.new ≤ C.calls.count coder.old + 400 }
{
    let mut is_right = true;
    for _k in 0..words.number().min(400) {
        let Some(question) = next_question(words) else {
            return false;
        };
        let answer = i64::from(words.number());
        is_right &= coder.ask(question, answer) == answer;
    }
    is_right
}

// A frame: its kind, its length, whether its energies are coded without the frame before, and its allocation.
#[derive(Clone, Copy)]
struct Frame {
    kind: Kind,
    len: u32,
    intra: bool,
    a: Allocation,
    ghost least: { 2 ≤ len },
    ghost most: { len ≤ 255 },
    ghost bits: { HasFineBits kind a.fine },
}

// All questions of a frame, and what those of the energies came to, if the others have the answers of the lists.
fn ask_frame<C: Coder, H: Chooser>(
    coder: &mut C,
    chooser: &mut H,
    frame: Frame,
    mut lists: Words,
) -> Option<Energy>
    requires none { C.calls.count coder.old ≡ 0 }
    ensures coarse { IfSome result (λ out. AreCoarse out.coarse) }
    ensures fine { IfSome result (λ out. FitsFineBits frame.a.fine out.fine) }
    ensures last { IfSome result (λ out. AreBits out.last) }
{
    let budget = 8 * frame.len;
    let mut out = answers_of_one(0);
    let head = ask_list(coder, &mut lists);
    coarse(coder, chooser, frame.kind, frame.intra, budget, &mut out);
    let bands = ask_list(coder, &mut lists);
    fine(coder, chooser, frame.kind, &frame.a, &mut out);
    let shapes = ask_list(coder, &mut lists);
    last(coder, chooser, frame.kind, &frame.a, budget, &mut out);
    (head && bands && shapes).then_some(out)
}

// The next frame.
fn next_frame(words: &mut Words) -> Option<Frame> {
    let kind = Kind::of_toc((words.number() % 256) as u8)?;
    let len = words.number().max(2).min(255);
    let intra = words.number() == 1;
    let bits = [words.number(), words.number(), words.number()];
    Some(Frame {
        kind,
        len,
        intra,
        a: allocation_of(bits, words.number()),
    })
}

// The frame's bytes.
fn digest_of_bytes(bytes: &[u8]) -> u32 {
    let mut digest = 0;
    for byte in bytes {
        digest = add(digest, u64::from(*byte));
    }
    upper_half(digest)
}

// The energies after a frame, by those before it, if a writer with the chooser and then a reader of its frame come to what
// the row says.
fn energies_by(row: &str, before: [[i64; 21]; 2]) -> Option<[[i64; 21]; 2]>
    requires { AreEnergies before }
    ensures { IfSome result AreEnergies }
{
    let mut words = Words { rest: row };
    let mut energies = if words.number() == 1 {
        [[0; 21]; 2]
    } else {
        before
    };
    let frame = next_frame(&mut words)?;
    let mut chooser = Extremes {
        signs: [words.number(), words.number()],
        turn: 0,
        told: 0,
    };
    let wanted = [
        words.number(),
        words.number(),
        words.number(),
        words.number(),
    ];
    let mut bytes = [0u8; 255];
    let (room, _) = bytes.split_at_mut(frame.len as usize);
    let mut writer = Writer::new(room);
    let out = ask_frame(&mut writer, &mut chooser, frame, words)?;
    let Finish::Whole { range } = writer.finish() else {
        return None;
    };
    let bytes = &bytes[..frame.len as usize];
    let mut reader = Reader::new(bytes);
    let read = ask_frame(&mut reader, &mut Mute, frame, words)?;
    apply(&mut energies, frame.kind, frame.intra, &frame.a, &out);
    let found = [
        range,
        upper_half(chooser.told),
        digest_of(&out, &energies),
        digest_of_bytes(bytes),
    ];
    (found == wanted && read == out && reader.range() == range).then_some(energies)
}

#[test]
fn extreme_frames_of_all_kinds(rt: HostRuntime) {
    let mut energies = [[0; 21]; 2];
    let mut count = 0u32;
    for row in ROWS.lines() {
        energies = energies_by(row, energies).expect(&rt, row);
        count = count.wrapping_add(1);
    }
    assert_eq!(rt; count, 128);
}
