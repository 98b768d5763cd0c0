//! Settings of frames of signals that are made by rule, from an encoder apart from this one; plain sums give the same.
ghost use Rattle.std.specs.Prelude.{◌≡◌, ◌<◌, ◌≤◌, length};

use crate::{Slide, pitch};
use celt_base::kind::Kind;
use celt_base::state::Setting;

#[test]
fn sliding(rt: HostRuntime) {
    let d = [1i64, 2, 3, 4];
    let mut s = Slide::new(&d, 2, 2);
    assert_eq!(rt; s.value(), 25);
    s.back(&d);
    assert_eq!(rt; s.value(), 13);
    s.back(&d);
    assert_eq!(rt; s.value(), 5);
    let d = [-65_535i64, 65_535, 0];
    let mut s = Slide::new(&d, 1, 2);
    assert_eq!(rt; s.value(), 4_294_836_225);
    s.back(&d);
    assert_eq!(rt; s.value(), 8_589_672_450);
    assert_eq!(rt; Slide::new(&d, 3, 0).value(), 0);
}

// What a signal is made by, of two numbers.
#[derive(Clone, Copy)]
pub enum Shape {
    Silence,
    // a period, and the height: above 0 in its first half, and below 0 in the second
    Square,
    // a period, and the height of the first sample of each
    Pulses,
    // a seed, and the greatest height
    Noise,
    // the first sample, and the period of a square of full scale from there on
    Onset,
    // a height, and the seed of a small noise
    Level,
    // a period, and the height
    Triangle,
    // the period of pulses, and their height, which doubles every 512 samples
    Growth,
}

#[derive(Clone, Copy)]
pub struct Signal {
    shape: Shape,
    first: i64,
    second: i64,
}

// A number of 16 bits for each seed and place.
fn noise_at(seed: i64, n: u32) -> i64 {
    let factor = u32::try_from(seed)
        .unwrap_or(0)
        .wrapping_mul(2)
        .wrapping_add(1);
    let spread = n
        .wrapping_add(1)
        .wrapping_mul(factor)
        .wrapping_mul(2_654_435_761);
    let once = (spread ^ (spread >> 15)).wrapping_mul(2_246_822_519);
    let twice = (once ^ (once >> 13)).wrapping_mul(3_266_489_917);
    ((twice >> 16) as i64).wrapping_sub(32_768)
}

// The place in a period, and what is left of it.
fn phase(n: u32, period: i64) -> (i64, i64) {
    let length = if period < 1 { 1 } else { period };
    let place = (n as i64).wrapping_rem(length);
    (place, length.wrapping_sub(place))
}

impl Signal {
    // The sample at a place.
    fn at(self, n: u32) -> i16 {
        let (place, left) = phase(n, self.first);
        let height = match self.shape {
            Shape::Silence => 0,
            Shape::Square => {
                if place < left {
                    self.second
                } else {
                    self.second.wrapping_neg()
                }
            }
            Shape::Pulses => if place == 0 { self.second } else { 0 },
            Shape::Noise => noise_at(self.first, n).wrapping_mul(self.second) >> 15,
            Shape::Onset => onset(self.first, self.second, n),
            Shape::Level => self.first.wrapping_add(noise_at(self.second, n) >> 13),
            Shape::Triangle => triangle(self.second, place, left),
            Shape::Growth => if place == 0 {
                grown(self.second, n / 512)
            } else {
                0
            },
        };
        i16::try_from(height).unwrap_or(0)
    }
}

fn onset(start: i64, period: i64, n: u32) -> i64 {
    if (n as i64) < start {
        return 0;
    }
    let (place, left) = phase(n, period);
    if place < left { 32_767 } else { -32_768 }
}

fn triangle(height: i64, place: i64, left: i64) -> i64 {
    let near = if place < left { place } else { left };
    let whole = place.wrapping_add(left);
    if whole < 1 {
        return 0;
    }
    height
        .wrapping_mul(4)
        .wrapping_mul(near)
        .wrapping_div(whole)
        .wrapping_sub(height)
}

// A height that is doubled some times; 0 where it does not fit.
fn grown(height: i64, times: u32) -> i64 {
    let mut out = height;
    for _ in 0..times {
        out = out.wrapping_mul(2);
    }
    if out < 32_768 { out } else { 0 }
}

// What the second channel is made by.
#[derive(Clone, Copy)]
pub enum Right {
    Same,
    Opposite,
    Noise,
}

// The samples of a window; 0 before the first.
pub fn window_of(signal: Signal, right: Right, kind: Kind, frame: u32) -> [i16; 4210] {
    let mut out = [0i16; 4210];
    let size = 120u32 << kind.lm;
    let channels = kind.channels as usize;
    for i in 0..2105u32 {
        let n = frame.wrapping_mul(size).wrapping_add(i).wrapping_sub(1145);
        if n < 0x8000_0000 {
            let left = signal.at(n);
            let place = channels * i as usize;
            out[place] = left;
            if channels == 2 {
                out[place + 1] = second(left, signal, right, n);
            }
        }
    }
    out
}

fn second(left: i16, signal: Signal, right: Right, n: u32) -> i16 {
    match right {
        Right::Same => left,
        Right::Opposite => left.saturating_neg(),
        Right::Noise => i16::try_from(
            noise_at(signal.second, n).wrapping_mul(3000) >> 15,
        ).unwrap_or(0),
    }
}

// The setting for a window of a kind.
pub fn pitch_in(window: &[i16; 4210], kind: Kind) -> Setting {
    let size = kind.channels as usize * (1145 + (120usize << kind.lm));
    match window.get(..size) {
        Some(samples) => pitch(samples, kind),
        None => Setting::off(),
    }
}

// The words of a row that were not read yet.
#[derive(Clone, Copy)]
pub struct Words<'a> {
    pub rest: &'a str,
}

impl<'a> Words<'a> {
    // The next word.
    pub fn next(&mut self) -> &'a str {
        match self.rest.split_once(' ') {
            Some((word, rest)) => {
                self.rest = rest;
                word
            }
            None => {
                let word = self.rest;
                self.rest = "";
                word
            }
        }
    }

    // The next word as a number.
    pub fn number(&mut self) -> i64 {
        self.next().parse().unwrap_or(0)
    }

    // The next words as a signal.
    pub fn signal(&mut self) -> Signal {
        let shape = shape_of(self.next());
        Signal {
            shape,
            first: self.number(),
            second: self.number(),
        }
    }

    // The next words as a kind.
    fn kind(&mut self) -> Kind {
        let lm = match self.number() {
            0 => 0,
            1 => 1,
            2 => 2,
            _ => 3,
        };
        Kind {
            lm,
            channels: if self.number() == 2 { 2 } else { 1 },
            end: 21,
        }
    }
}

fn shape_of(word: &str) -> Shape {
    if word == "square" {
        return Shape::Square;
    }
    if word == "pulses" {
        return Shape::Pulses;
    }
    if word == "noise" {
        return Shape::Noise;
    }
    if word == "onset" {
        return Shape::Onset;
    }
    if word == "level" {
        return Shape::Level;
    }
    if word == "triangle" {
        return Shape::Triangle;
    }
    if word == "growth" {
        return Shape::Growth;
    }
    Shape::Silence
}

pub fn right_of(word: &str) -> Right {
    if word == "opposite" {
        return Right::Opposite;
    }
    if word == "noise" {
        Right::Noise
    } else {
        Right::Same
    }
}

// Whether the setting of a row is what the row says.
fn holds(row: &str) -> bool {
    let mut words = Words { rest: row };
    let signal = words.signal();
    let right = right_of(words.next());
    let kind = words.kind();
    let frame = u32::try_from(words.number()).unwrap_or(0);
    let setting = pitch_in(&window_of(signal, right, kind, frame), kind);
    setting.period as i64 == words.number()
        && setting.gain as i64 == words.number()
        && setting.tapset == 0
}

#[test]
fn settings_of_signals(rt: HostRuntime) {
    let mut count = 0u32;
    for row in ROWS.lines() {
        assert!(rt; holds(row));
        count = count.wrapping_add(1);
    }
    assert_eq!(rt; count, 282);
}

// Each row: what the signal is made by and its two numbers; the second channel; lm and channels; the frame's number; and
// the period and gain of its setting.
const ROWS: &str = "triangle 100 9000 same 3 1 0 100 15360
triangle 15 12000 same 3 1 0 15 15360
triangle 1022 9000 same 3 1 0 15 15360
triangle 1022 9000 same 3 1 2 1022 15360
triangle 511 9000 same 3 1 0 15 15360
triangle 511 9000 same 3 1 1 511 15360
triangle 1100 9000 same 3 1 0 15 15360
square 20 32767 same 3 1 0 20 15360
pulses 100 1000 same 3 1 0 100 15360
noise 7 20000 same 3 1 0 15 0
onset 1500 64 same 3 1 0 15 0
onset 1500 64 same 3 1 1 64 15360
level 3000 3 same 3 1 0 15 15360
level 3000 3 same 3 1 1 595 15360
level 3000 3 same 3 1 2 593 15360
growth 90 25 same 3 1 0 90 15360
growth 90 25 same 3 1 1 540 24576
growth 90 25 same 3 1 2 990 24576
silence 0 0 same 3 1 0 15 0
triangle 100 9000 same 3 2 0 100 15360
triangle 15 12000 same 3 2 0 15 15360
triangle 1022 9000 same 3 2 0 15 15360
triangle 1022 9000 same 3 2 2 1022 15360
triangle 511 9000 same 3 2 0 15 15360
triangle 511 9000 same 3 2 1 511 15360
triangle 1100 9000 same 3 2 0 15 15360
square 20 32767 same 3 2 0 20 15360
pulses 100 1000 same 3 2 0 100 15360
noise 7 20000 same 3 2 0 15 0
onset 1500 64 same 3 2 0 15 0
onset 1500 64 same 3 2 1 64 15360
level 3000 3 same 3 2 0 15 15360
level 3000 3 same 3 2 1 595 15360
level 3000 3 same 3 2 2 593 15360
growth 90 25 same 3 2 0 90 15360
growth 90 25 same 3 2 1 540 24576
growth 90 25 same 3 2 2 990 24576
silence 0 0 same 3 2 0 15 0
triangle 100 9000 opposite 3 2 0 15 0
triangle 160 5000 noise 3 2 0 15 0
triangle 160 5000 noise 3 2 1 963 12288
triangle 160 5000 noise 3 2 2 480 9216
square 333 20000 opposite 3 2 0 15 0
triangle 100 9000 same 2 1 0 99 15360
triangle 100 9000 same 2 1 1 100 15360
triangle 15 12000 same 2 1 0 15 15360
triangle 1022 9000 same 2 1 0 15 15360
triangle 1022 9000 same 2 1 3 1022 15360
triangle 511 9000 same 2 1 0 15 15360
triangle 511 9000 same 2 1 2 511 15360
triangle 1100 9000 same 2 1 0 15 15360
square 20 32767 same 2 1 0 20 15360
pulses 100 1000 same 2 1 0 100 15360
noise 7 20000 same 2 1 0 15 0
onset 1500 64 same 2 1 0 15 0
onset 1500 64 same 2 1 3 64 15360
level 3000 3 same 2 1 0 15 15360
level 3000 3 same 2 1 1 156 15360
level 3000 3 same 2 1 2 421 15360
level 3000 3 same 2 1 3 612 15360
level 3000 3 same 2 1 4 593 15360
growth 90 25 same 2 1 0 90 15360
growth 90 25 same 2 1 1 450 24576
growth 90 25 same 2 1 2 540 24576
silence 0 0 same 2 1 0 15 0
triangle 100 9000 same 2 2 0 99 15360
triangle 100 9000 same 2 2 1 100 15360
triangle 15 12000 same 2 2 0 15 15360
triangle 1022 9000 same 2 2 0 15 15360
triangle 1022 9000 same 2 2 3 1022 15360
triangle 511 9000 same 2 2 0 15 15360
triangle 511 9000 same 2 2 2 511 15360
triangle 1100 9000 same 2 2 0 15 15360
square 20 32767 same 2 2 0 20 15360
pulses 100 1000 same 2 2 0 100 15360
noise 7 20000 same 2 2 0 15 0
onset 1500 64 same 2 2 0 15 0
onset 1500 64 same 2 2 3 64 15360
level 3000 3 same 2 2 0 15 15360
level 3000 3 same 2 2 1 156 15360
level 3000 3 same 2 2 2 421 15360
level 3000 3 same 2 2 3 612 15360
level 3000 3 same 2 2 4 593 15360
growth 90 25 same 2 2 0 90 15360
growth 90 25 same 2 2 1 450 24576
growth 90 25 same 2 2 2 540 24576
silence 0 0 same 2 2 0 15 0
triangle 100 9000 opposite 2 2 0 15 0
triangle 160 5000 noise 2 2 0 15 0
triangle 160 5000 noise 2 2 1 479 9216
triangle 160 5000 noise 2 2 2 642 12288
triangle 160 5000 noise 2 2 3 963 12288
triangle 160 5000 noise 2 2 4 322 9216
square 333 20000 opposite 2 2 0 15 0
triangle 100 9000 same 1 1 0 98 15360
triangle 100 9000 same 1 1 1 100 15360
triangle 15 12000 same 1 1 0 15 15360
triangle 1022 9000 same 1 1 0 15 12288
triangle 1022 9000 same 1 1 1 15 15360
triangle 1022 9000 same 1 1 5 1022 15360
triangle 511 9000 same 1 1 0 15 15360
triangle 511 9000 same 1 1 3 511 15360
triangle 1100 9000 same 1 1 0 15 12288
triangle 1100 9000 same 1 1 1 15 15360
square 20 32767 same 1 1 0 20 15360
pulses 100 1000 same 1 1 0 100 15360
noise 7 20000 same 1 1 0 15 0
onset 1500 64 same 1 1 0 15 0
onset 1500 64 same 1 1 6 64 15360
level 3000 3 same 1 1 0 15 15360
level 3000 3 same 1 1 1 36 15360
level 3000 3 same 1 1 2 156 15360
level 3000 3 same 1 1 3 179 15360
level 3000 3 same 1 1 4 421 15360
level 3000 3 same 1 1 5 249 15360
level 3000 3 same 1 1 6 612 15360
level 3000 3 same 1 1 7 304 15360
growth 90 25 same 1 1 0 90 15360
growth 90 25 same 1 1 2 180 24576
growth 90 25 same 1 1 4 540 24576
silence 0 0 same 1 1 0 15 0
triangle 100 9000 same 1 2 0 98 15360
triangle 100 9000 same 1 2 1 100 15360
triangle 15 12000 same 1 2 0 15 15360
triangle 1022 9000 same 1 2 0 15 12288
triangle 1022 9000 same 1 2 1 15 15360
triangle 1022 9000 same 1 2 5 1022 15360
triangle 511 9000 same 1 2 0 15 15360
triangle 511 9000 same 1 2 3 511 15360
triangle 1100 9000 same 1 2 0 15 12288
triangle 1100 9000 same 1 2 1 15 15360
square 20 32767 same 1 2 0 20 15360
pulses 100 1000 same 1 2 0 100 15360
noise 7 20000 same 1 2 0 15 0
onset 1500 64 same 1 2 0 15 0
onset 1500 64 same 1 2 6 64 15360
level 3000 3 same 1 2 0 15 15360
level 3000 3 same 1 2 1 36 15360
level 3000 3 same 1 2 2 156 15360
level 3000 3 same 1 2 3 179 15360
level 3000 3 same 1 2 4 421 15360
level 3000 3 same 1 2 5 249 15360
level 3000 3 same 1 2 6 612 15360
level 3000 3 same 1 2 7 304 15360
growth 90 25 same 1 2 0 90 15360
growth 90 25 same 1 2 2 180 24576
growth 90 25 same 1 2 4 540 24576
silence 0 0 same 1 2 0 15 0
triangle 100 9000 opposite 1 2 0 15 0
triangle 160 5000 noise 1 2 0 15 0
triangle 160 5000 noise 1 2 1 161 12288
triangle 160 5000 noise 1 2 2 479 12288
triangle 160 5000 noise 1 2 3 322 9216
triangle 160 5000 noise 1 2 4 642 12288
triangle 160 5000 noise 1 2 5 162 12288
triangle 160 5000 noise 1 2 6 963 12288
triangle 160 5000 noise 1 2 7 323 12288
square 333 20000 opposite 1 2 0 15 0
triangle 100 9000 same 0 1 0 15 0
triangle 100 9000 same 0 1 1 100 15360
triangle 15 12000 same 0 1 0 15 15360
triangle 1022 9000 same 0 1 0 15 12288
triangle 1022 9000 same 0 1 2 15 18432
triangle 1022 9000 same 0 1 3 15 15360
triangle 1022 9000 same 0 1 9 1022 15360
triangle 511 9000 same 0 1 0 15 12288
triangle 511 9000 same 0 1 1 15 18432
triangle 511 9000 same 0 1 4 15 15360
triangle 511 9000 same 0 1 5 511 15360
triangle 1100 9000 same 0 1 0 15 12288
triangle 1100 9000 same 0 1 2 15 15360
triangle 1100 9000 same 0 1 7 15 18432
square 20 32767 same 0 1 0 20 15360
pulses 100 1000 same 0 1 0 100 15360
noise 7 20000 same 0 1 0 15 0
onset 1500 64 same 0 1 0 15 0
level 3000 3 same 0 1 0 15 15360
level 3000 3 same 0 1 1 111 15360
level 3000 3 same 0 1 2 36 15360
level 3000 3 same 0 1 3 174 15360
level 3000 3 same 0 1 4 480 15360
level 3000 3 same 0 1 5 62 15360
level 3000 3 same 0 1 6 398 15360
level 3000 3 same 0 1 7 396 15360
level 3000 3 same 0 1 8 595 15360
level 3000 3 same 0 1 9 569 15360
level 3000 3 same 0 1 10 523 15360
level 3000 3 same 0 1 11 124 15360
level 3000 3 same 0 1 12 266 15360
growth 90 25 same 0 1 0 90 15360
growth 90 25 same 0 1 4 90 24576
growth 90 25 same 0 1 9 180 24576
silence 0 0 same 0 1 0 15 0
triangle 100 9000 same 0 2 0 15 0
triangle 100 9000 same 0 2 1 100 15360
triangle 15 12000 same 0 2 0 15 15360
triangle 1022 9000 same 0 2 0 15 12288
triangle 1022 9000 same 0 2 2 15 18432
triangle 1022 9000 same 0 2 3 15 15360
triangle 1022 9000 same 0 2 9 1022 15360
triangle 511 9000 same 0 2 0 15 12288
triangle 511 9000 same 0 2 1 15 18432
triangle 511 9000 same 0 2 4 15 15360
triangle 511 9000 same 0 2 5 511 15360
triangle 1100 9000 same 0 2 0 15 12288
triangle 1100 9000 same 0 2 2 15 15360
triangle 1100 9000 same 0 2 7 15 18432
square 20 32767 same 0 2 0 20 15360
pulses 100 1000 same 0 2 0 100 15360
noise 7 20000 same 0 2 0 15 0
onset 1500 64 same 0 2 0 15 0
level 3000 3 same 0 2 0 15 15360
level 3000 3 same 0 2 1 111 15360
level 3000 3 same 0 2 2 36 15360
level 3000 3 same 0 2 3 174 15360
level 3000 3 same 0 2 4 480 15360
level 3000 3 same 0 2 5 62 15360
level 3000 3 same 0 2 6 398 15360
level 3000 3 same 0 2 7 396 15360
level 3000 3 same 0 2 8 595 15360
level 3000 3 same 0 2 9 569 15360
level 3000 3 same 0 2 10 523 15360
level 3000 3 same 0 2 11 124 15360
level 3000 3 same 0 2 12 266 15360
growth 90 25 same 0 2 0 90 15360
growth 90 25 same 0 2 4 90 24576
growth 90 25 same 0 2 9 180 24576
silence 0 0 same 0 2 0 15 0
triangle 100 9000 opposite 0 2 0 15 0
triangle 160 5000 noise 0 2 0 15 0
triangle 160 5000 noise 0 2 1 153 12288
triangle 160 5000 noise 0 2 2 162 12288
triangle 160 5000 noise 0 2 3 319 9216
triangle 160 5000 noise 0 2 4 479 12288
triangle 160 5000 noise 0 2 6 650 9216
triangle 160 5000 noise 0 2 7 322 9216
triangle 160 5000 noise 0 2 8 959 12288
triangle 160 5000 noise 0 2 9 640 12288
triangle 160 5000 noise 0 2 10 962 12288
triangle 160 5000 noise 0 2 11 950 9216
triangle 160 5000 noise 0 2 12 963 9216
square 333 20000 opposite 0 2 0 15 0
level 20000 9 same 3 1 0 15 15360
level 20000 9 same 3 1 1 203 15360
level 20000 9 same 3 1 2 735 15360
level -32760 9 same 3 2 0 15 15360
level -32760 9 same 3 2 1 203 15360
level -32760 9 same 3 2 2 735 15360
level 32763 11 same 0 1 0 15 15360
level 32763 11 same 0 1 1 29 15360
level 32763 11 same 0 1 2 108 15360
level 32763 11 same 0 1 3 111 15360
level 32763 11 same 0 1 4 228 15360
level 32763 11 same 0 1 5 161 15360
level 32763 11 same 0 1 6 288 15360
level 32763 11 same 0 1 7 386 15360
level 32763 11 same 0 1 8 508 15360
level 32763 11 same 0 1 9 110 15360
level 32763 11 same 0 1 10 710 15360
level 32763 11 same 0 1 11 723 15360
level 32763 11 same 0 1 12 31 15360
triangle 480 32767 same 3 2 0 15 15360
triangle 480 32767 same 3 2 1 480 15360
noise 9 32767 same 3 1 0 15 0
onset 2000 2000 same 3 1 0 15 0
onset 2000 2000 same 3 1 2 15 15360
onset 1000 15 same 2 2 0 15 0
onset 1000 15 same 2 2 2 15 15360
onset 960 300 same 1 1 0 15 0
onset 960 300 same 1 1 4 15 12288
onset 960 300 same 1 1 5 300 15360
pulses 14 1000 same 3 1 0 28 15360
pulses 15 1000 same 3 1 0 15 15360
pulses 1022 1000 same 3 1 0 15 0
pulses 1022 1000 same 3 1 1 1022 15360
pulses 1023 1000 same 3 1 0 15 0
pulses 511 1000 same 3 1 0 511 15360
square 1024 32767 same 3 1 0 15 15360
square 1024 32767 same 3 1 1 1022 15360
square 1020 32767 same 3 1 0 15 15360
square 1020 32767 same 3 1 1 1020 15360
pulses 250 -32768 same 3 1 0 250 15360";
