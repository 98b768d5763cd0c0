//! What is wanted of spreading, dual stereo, tilt and boosts in frames of signals that are made by rule, from an encoder apart
//! from this one; and of a silent frame, by hand.
use crate::frame::Frame;
use crate::listening::settle;
use celt_analysis::{Analysis, analyse};
use celt_base::kind::Kind;
use celt_base::state::Setting;
use celt_base::status::OutOfMemory;
use fixed_math::{Exp, Trig};

// A number of 16 bits for each seed and place.
fn noise(seed: u32, n: u32) -> i64 {
    let factor = seed.wrapping_mul(2).wrapping_add(1);
    let spread = n
        .wrapping_add(1)
        .wrapping_mul(factor)
        .wrapping_mul(2_654_435_761);
    let once = (spread ^ (spread >> 15)).wrapping_mul(2_246_822_519);
    let twice = (once ^ (once >> 13)).wrapping_mul(3_266_489_917);
    ((twice >> 16) as i64).wrapping_sub(32_768)
}

// The sum of such numbers in a row.
fn noises(seed: u32, n: u32, count: u32) -> i64 {
    let mut sum = 0i64;
    for k in 0..count {
        sum = sum.wrapping_add(noise(seed, n.wrapping_add(k)));
    }
    sum
}

// A square wave with half a period, and a height.
fn square(n: u32, half: u32, height: i64) -> i64 {
    match n.checked_div(half) {
        Some(count) => if count % 2 == 0 {
            height
        } else {
            height.wrapping_neg()
        },
        None => 0,
    }
}

// How far a place is from the middle of its period.
fn way(n: u32, period: u32) -> i64 {
    let place = n.checked_rem(period).unwrap_or(0);
    (place as i64)
        .wrapping_sub((period / 2) as i64)
        .wrapping_abs()
}

// A number, if another is above a limit.
fn above(value: i64, limit: i64, number: i64) -> i64 {
    if value > limit { number } else { 0 }
}

// A sample of one of the signals.
fn height(signal: u32, n: u32) -> i64 {
    match signal {
        0 => noise(1, n) >> 2,
        1 => noises(2, n, 8) >> 4,
        2 => noise(3, n.wrapping_add(1)).wrapping_sub(noise(3, n)) >> 2,
        3 => above(noise(4, n), 31_000, noise(5, n) >> 1),
        4 => (noise(6, n) >> 6).wrapping_add(square(n, 24, 6000)),
        5 => (noise(7, n) >> 3).wrapping_add(square(n, 7, 1500)),
        6 => noise(8, n) >> (n / 256 % 8),
        7 => noises(9, n, 64) >> 5,
        8 => (noise(10, n) >> 5).wrapping_add(noises(9, n, 64) >> 6),
        9 => noise(11, n) >> 9,
        10 => way(n, 3000).wrapping_mul(8).wrapping_sub(6000),
        11 => noises(12, n, 256) >> 6,
        12 => square(n, 20, 9000),
        13 => above((n % 1500 == 700) as i64, 0, 20_000),
        _ => (noise(13, n) >> 11)
            .wrapping_add(way(n, 500).wrapping_mul(60))
            .wrapping_sub(7500),
    }
}

fn sample(signal: u32, n: u32) -> i16 {
    i16::try_from(height(signal, n)).unwrap_or(0)
}

// The samples of a window; 0 before the first.
fn window_of(left: u32, right: u32, kind: Kind, frame: u32) -> [i16; 4210] {
    let mut out = [0i16; 4210];
    let size = 120u32 << kind.lm;
    let channels = kind.channels as usize;
    for i in 0..2105u32 {
        let n = frame.wrapping_mul(size).wrapping_add(i).wrapping_sub(1145);
        if n < 0x8000_0000 {
            let place = channels * i as usize;
            out[place] = sample(left, n);
            if channels == 2 {
                out[place + 1] = sample(right, n);
            }
        }
    }
    out
}

// The words of a row that were not read yet.
#[derive(Clone, Copy)]
struct Words<'a> {
    rest: &'a str,
}

impl<'a> Words<'a> {
    // The next word.
    fn next(&mut self) -> &'a str {
        match self.rest.split_once(' ') {
            Some((word, rest)) => {
                self.rest = rest;
                word
            }
            None => {
                let word = self.rest;
                self.rest = "";
                word
            }
        }
    }

    // The next word as a number.
    fn number(&mut self) -> u32 {
        self.next().parse().unwrap_or(0)
    }

    // The next words as a kind.
    fn kind(&mut self) -> Kind {
        let lm = match self.number() {
            0 => 0,
            1 => 1,
            2 => 2,
            _ => 3,
        };
        let channels = if self.number() == 2 { 2 } else { 1 };
        let end = match self.number() {
            13 => 13,
            17 => 17,
            19 => 19,
            _ => 21,
        };
        Kind { lm, channels, end }
    }

    // The next words as the period and the gain of a setting.
    fn setting(&mut self) -> Setting {
        let period = self.number();
        let gain = self.number();
        if period < 15 || period > 1022 || gain > 24_576 {
            return Setting::off();
        }
        Setting {
            period,
            gain,
            tapset: 0,
        }
    }
}

// The bands that are to be boosted, each a bit.
fn boosts_in(frame: &Frame) -> u32 {
    let mut bits = 0u32;
    for band in 0..21usize {
        if frame.boosts[band] {
            bits |= 1 << band;
        }
    }
    bits
}

// Settles a frame by an analysis. None where it has none.
fn settle_by(frame: &mut Frame, a: &Analysis) -> Option<Kind> {
    let Some(kind) = a.kind() else {
        return None;
    };
    frame.kind = kind;
    settle(frame, a);
    Some(kind)
}

// Analyses a frame of two signals.
fn hear(words: &mut Words<'_>, trig: &Trig, exp: &Exp, a: &mut Analysis) {
    let left = words.number();
    let right = words.number();
    let kind = words.kind();
    let frame = words.number();
    let settings = [words.setting(), words.setting(), words.setting()];
    let window = window_of(left, right, kind, frame);
    let size = kind.channels as usize * (1145 + (120usize << kind.lm));
    if let Some(samples) = window.get(..size) {
        analyse(samples, kind, &settings, trig, exp, a);
    }
}

// Whether what is wanted is what a row says.
fn holds(row: &str, trig: &Trig, exp: &Exp, a: &mut Analysis, frame: &mut Frame) -> bool {
    let mut words = Words { rest: row };
    hear(&mut words, trig, exp, a);
    settle_by(frame, a).is_some()
        && words.number() == frame.spread
        && words.number() == frame.dual as u32
        && words.number() as i64 == frame.trim
        && words.number() == boosts_in(frame)
}

const FULL_STEREO: Kind = Kind {
    lm: 3,
    channels: 2,
    end: 21,
};

#[test]
fn frames_of_signals(rt: HostRuntime) -> Result<(), OutOfMemory> {
    let trig = Trig::new();
    let exp = Exp::new();
    let mut a = Analysis::new(rt.alloc())?;
    let mut frame = Frame::new(FULL_STEREO);
    let mut count = 0u32;
    for row in ROWS.lines() {
        assert!(rt; holds(row, &trig, &exp, &mut a, &mut frame));
        count = count.wrapping_add(1);
    }
    assert_eq!(rt; count, 180);
    Ok(())
}

// Settles a frame of these samples, the post-filter being off.
fn settle_samples(frame: &mut Frame, samples: &[i16; 4210], a: &mut Analysis) -> Option<Kind> {
    let settings = [Setting::off(), Setting::off(), Setting::off()];
    analyse(
        samples,
        FULL_STEREO,
        &settings,
        &Trig::new(),
        &Exp::new(),
        a,
    );
    settle_by(frame, a)
}

// Behind a frame of noise one of silence: no small coefficients, heights that do not change, and vectors of 0.
#[test]
fn silent_frame(rt: HostRuntime) -> Result<(), OutOfMemory> {
    let mut a = Analysis::new(rt.alloc())?;
    let mut frame = Frame::new(FULL_STEREO);
    let noise = window_of(0, 2, FULL_STEREO, 2);
    assert_eq!(rt;
        settle_samples(&mut frame, &noise, &mut a),
        Some(FULL_STEREO)
    );
    let last = frame.units[1][799];
    assert!(rt; last != 0);
    assert_eq!(rt;
        settle_samples(&mut frame, &[0; 4210], &mut a),
        Some(FULL_STEREO)
    );
    assert!(rt; frame.silent);
    assert_eq!(rt; frame.spread, 3);
    assert!(rt; !frame.dual);
    assert_eq!(rt; frame.trim, 5);
    assert_eq!(rt; boosts_in(&frame), 0);
    let last = frame.units[1][799];
    assert_eq!(rt; last, 0);
    let target = frame.targets[1][20];
    assert_eq!(rt; target, -28_672);
    Ok(())
}

// Of each row the signals of both channels, by their numbers; the size exponent, channels and bands of its kind; the frame's
// number; the periods and gains of the settings of the two frames before and of the frame; and the spreading, dual stereo, tilt
// and boosts that are wanted.
const ROWS: &str = "0 0 3 2 21 2 15 0 15 0 15 0 3 0 3 0
0 1 3 2 21 2 15 0 15 0 15 0 3 1 3 0
1 1 3 2 21 2 15 0 15 0 15 0 2 0 3 0
2 2 3 2 21 2 15 0 15 0 15 0 3 0 3 0
3 3 3 2 21 2 15 0 15 0 15 0 3 0 3 0
3 0 3 2 21 2 15 0 15 0 15 0 3 1 3 0
4 4 3 2 21 1 15 0 48 15360 240 15360 1 0 3 18432
4 4 3 2 21 2 48 15360 240 15360 624 15360 1 0 3 18432
4 4 3 2 21 3 240 15360 624 15360 336 15360 1 0 3 18432
4 9 3 2 21 2 48 15360 240 15360 480 15360 2 1 3 18432
4 9 3 2 21 3 240 15360 480 15360 336 15360 2 1 3 18432
5 5 3 2 21 2 15 0 15 0 15 0 3 0 3 0
6 6 3 2 21 2 15 0 15 0 15 0 2 0 3 0
7 7 3 2 21 2 15 12288 15 0 15 12288 3 0 4 0
8 8 3 2 21 2 15 9216 15 0 15 12288 3 0 3 0
8 3 3 2 21 2 15 0 15 0 15 0 3 1 3 0
9 9 3 2 21 2 15 0 15 0 15 0 3 0 3 0
7 2 3 2 21 2 15 0 15 0 15 0 3 0 3 0
10 10 3 2 21 1 15 0 15 15360 15 15360 3 0 7 0
10 10 3 2 21 2 15 15360 15 15360 15 15360 2 0 7 0
10 10 3 2 21 3 15 15360 15 15360 15 15360 3 0 7 0
11 11 3 2 21 2 15 15360 15 12288 15 15360 3 0 4 0
11 11 3 2 21 3 15 12288 15 15360 15 12288 3 0 5 0
12 12 3 2 21 1 15 0 40 15360 40 15360 1 0 3 167936
12 12 3 2 21 2 40 15360 40 15360 40 15360 1 0 3 167936
12 12 3 2 21 3 40 15360 40 15360 40 15360 1 0 3 167936
13 13 3 2 21 2 15 0 15 0 15 0 0 0 3 0
13 13 3 2 21 3 15 0 15 0 15 0 0 0 3 0
14 14 3 2 21 1 15 0 15 15360 500 15360 3 0 6 0
14 14 3 2 21 2 15 15360 500 15360 500 15360 3 0 6 0
14 14 3 2 21 3 500 15360 500 15360 1000 15360 3 0 6 0
10 12 3 2 21 2 40 15360 40 15360 40 15360 1 1 3 167936
10 12 3 2 21 3 40 15360 40 15360 40 15360 2 1 3 167936
11 10 3 2 21 2 15 15360 15 12288 15 15360 3 0 4 0
11 10 3 2 21 3 15 12288 15 15360 15 12288 3 0 5 0
0 0 2 2 21 2 15 0 15 0 15 0 3 0 3 0
0 1 2 2 21 2 15 0 15 0 15 0 3 0 3 0
1 1 2 2 21 2 15 0 15 0 15 0 2 0 3 0
2 2 2 2 21 2 15 0 15 0 15 0 3 0 3 0
3 3 2 2 21 2 15 0 15 0 15 0 3 0 3 0
3 0 2 2 21 2 15 0 15 0 15 0 3 0 3 0
4 4 2 2 21 1 15 0 48 15360 480 15360 1 0 3 2048
4 4 2 2 21 2 48 15360 480 15360 240 15360 1 0 3 2048
4 4 2 2 21 3 480 15360 240 15360 528 15360 1 0 3 18432
4 9 2 2 21 2 48 15360 384 15360 240 15360 2 1 3 2048
4 9 2 2 21 3 384 15360 240 15360 528 15360 2 0 3 18432
5 5 2 2 21 2 15 0 15 0 15 0 3 0 3 0
6 6 2 2 21 2 15 0 15 0 15 0 3 0 3 0
7 7 2 2 21 2 15 12288 15 9216 15 9216 2 0 4 0
8 8 2 2 21 2 15 12288 15 0 15 0 3 0 3 0
8 3 2 2 21 2 15 0 15 0 15 0 3 0 3 0
9 9 2 2 21 2 15 0 15 0 15 0 3 0 3 0
7 2 2 2 21 2 15 0 15 0 15 0 3 0 3 0
10 10 2 2 21 1 15 0 15 15360 15 15360 2 0 7 0
10 10 2 2 21 2 15 15360 15 15360 15 15360 3 0 7 0
10 10 2 2 21 3 15 15360 15 15360 15 15360 3 0 7 0
11 11 2 2 21 2 15 15360 15 15360 15 12288 3 0 4 0
12 12 2 2 21 1 15 0 40 15360 40 15360 1 0 3 167936
12 12 2 2 21 2 40 15360 40 15360 40 15360 1 0 3 167936
12 12 2 2 21 3 40 15360 40 15360 40 15360 1 0 3 167936
13 13 2 2 21 1 15 0 15 0 15 0 1 0 3 0
14 14 2 2 21 1 15 0 15 15360 15 15360 3 0 6 0
14 14 2 2 21 2 15 15360 15 15360 500 15360 3 0 6 0
14 14 2 2 21 3 15 15360 500 15360 500 15360 3 0 6 0
10 12 2 2 21 1 15 0 40 15360 40 15360 1 1 3 167936
10 12 2 2 21 2 40 15360 40 15360 40 15360 2 0 3 167936
10 12 2 2 21 3 40 15360 40 15360 40 15360 2 1 3 167936
11 10 2 2 21 2 15 15360 15 15360 15 15360 3 0 4 0
0 0 1 2 21 2 15 0 15 0 15 0 3 0 3 0
0 1 1 2 21 2 15 0 15 0 15 0 2 0 3 0
1 1 1 2 21 2 15 0 15 0 15 0 2 0 3 0
2 2 1 2 21 2 15 0 15 0 15 0 3 0 3 0
3 3 1 2 21 2 15 0 15 0 15 0 2 0 3 0
3 0 1 2 21 2 15 0 15 0 15 0 3 0 3 0
4 4 1 2 21 1 15 0 48 15360 96 15360 1 0 3 2048
4 4 1 2 21 2 48 15360 96 15360 480 15360 1 0 3 2048
4 4 1 2 21 3 96 15360 480 15360 240 15360 1 0 3 2048
4 9 1 2 21 2 48 15360 96 15360 480 15360 2 0 3 2048
4 9 1 2 21 3 96 15360 480 15360 240 15360 2 0 3 2048
5 5 1 2 21 2 15 0 15 0 15 0 2 0 3 0
6 6 1 2 21 2 15 0 15 0 15 0 3 0 3 0
7 7 1 2 21 2 15 12288 15 0 15 9216 2 0 4 0
8 8 1 2 21 2 15 12288 15 0 15 0 3 0 3 0
8 3 1 2 21 2 15 0 15 0 15 0 3 0 3 0
9 9 1 2 21 2 15 0 15 0 15 0 3 0 3 0
7 2 1 2 21 2 15 0 15 0 15 0 3 0 3 0
10 10 1 2 21 1 15 0 15 15360 15 15360 2 0 7 0
10 10 1 2 21 2 15 15360 15 15360 15 12288 3 0 7 0
10 10 1 2 21 3 15 15360 15 12288 15 15360 2 0 7 0
11 11 1 2 21 2 15 15360 15 15360 15 15360 3 0 4 0
12 12 1 2 21 1 15 0 40 15360 40 15360 1 0 3 167936
12 12 1 2 21 2 40 15360 40 15360 40 15360 1 0 3 167936
12 12 1 2 21 3 40 15360 40 15360 40 15360 1 0 3 167936
13 13 1 2 21 2 15 0 15 0 15 0 1 0 3 0
14 14 1 2 21 1 15 0 15 15360 15 15360 3 0 6 0
14 14 1 2 21 2 15 15360 15 15360 15 15360 3 0 6 0
14 14 1 2 21 3 15 15360 15 15360 500 15360 3 0 6 0
10 12 1 2 21 2 40 15360 40 15360 40 15360 1 0 3 167936
10 12 1 2 21 3 40 15360 40 15360 40 15360 1 1 3 167936
11 10 1 2 21 2 15 15360 15 15360 496 9216 3 0 4 0
11 10 1 2 21 3 15 15360 496 9216 15 15360 3 0 5 0
0 0 0 2 21 2 15 0 15 0 15 0 3 0 3 0
0 0 0 2 21 3 15 0 15 0 15 0 3 0 3 16
0 1 0 2 21 2 15 0 15 0 15 0 2 0 3 0
1 1 0 2 21 2 15 0 15 0 15 0 2 0 3 4
2 2 0 2 21 2 15 0 15 0 15 0 2 0 3 0
3 3 0 2 21 2 15 0 15 0 15 0 3 0 3 1044
3 0 0 2 21 2 15 0 15 0 15 0 3 0 3 0
4 4 0 2 21 1 15 0 48 15360 48 15360 1 0 3 18448
4 4 0 2 21 2 48 15360 48 15360 144 15360 1 0 3 18452
4 4 0 2 21 3 48 15360 144 15360 288 15360 1 0 3 18448
4 9 0 2 21 2 48 15360 48 15360 144 15360 2 0 3 18452
4 9 0 2 21 3 48 15360 144 15360 288 15360 2 0 3 18448
5 5 0 2 21 2 15 0 15 0 15 0 3 0 3 8
6 6 0 2 21 2 15 0 15 0 15 0 3 0 3 0
7 7 0 2 21 2 15 0 15 15360 15 12288 3 0 3 4
8 8 0 2 21 2 15 0 15 12288 16 9216 3 0 3 0
8 3 0 2 21 2 15 0 17 12288 15 0 3 0 3 0
9 9 0 2 21 2 15 0 15 0 15 0 3 0 3 0
7 2 0 2 21 2 15 0 15 0 15 0 3 0 3 0
10 10 0 2 21 1 15 0 15 15360 15 15360 3 0 7 0
10 10 0 2 21 2 15 15360 15 15360 15 15360 3 0 7 0
10 10 0 2 21 3 15 15360 15 15360 15 15360 3 0 7 0
11 11 0 2 21 2 15 0 15 15360 17 15360 3 0 4 0
12 12 0 2 21 1 15 0 40 15360 40 15360 1 0 3 36928
12 12 0 2 21 2 40 15360 40 15360 40 15360 1 0 3 37184
12 12 0 2 21 3 40 15360 40 15360 40 15360 1 0 3 37184
14 14 0 2 21 1 15 0 15 12288 15 18432 3 0 6 0
14 14 0 2 21 2 15 12288 15 18432 15 12288 3 0 6 0
14 14 0 2 21 3 15 18432 15 12288 15 18432 3 0 5 0
10 12 0 2 21 2 40 15360 40 15360 40 15360 2 0 3 37184
10 12 0 2 21 3 40 15360 40 15360 40 15360 2 0 3 37184
11 10 0 2 21 2 15 12288 15 15360 78 18432 3 0 4 0
0 0 3 1 13 2 15 0 15 0 15 0 3 0 4 0
1 1 3 1 17 2 15 0 15 0 15 0 2 0 4 0
2 2 3 1 19 2 15 0 15 0 15 0 3 0 3 0
4 4 3 1 21 1 15 0 48 15360 240 15360 1 0 3 18432
4 4 3 1 21 2 48 15360 240 15360 624 15360 1 0 3 18432
4 4 3 1 21 3 240 15360 624 15360 336 15360 1 0 3 18432
5 5 2 1 13 2 15 0 15 0 15 0 3 0 3 0
7 7 2 1 17 1 15 0 15 12288 15 9216 2 0 5 0
7 7 2 1 17 2 15 12288 15 9216 15 9216 3 0 4 0
7 7 2 1 17 3 15 9216 15 9216 15 0 3 0 5 0
8 8 1 1 19 2 15 12288 15 0 15 0 3 0 4 0
3 3 0 1 21 2 15 0 15 0 15 0 3 0 3 1044
6 6 3 1 21 2 15 0 15 0 15 0 2 0 3 0
8 8 3 1 13 1 15 0 15 9216 15 0 2 0 5 0
8 8 3 1 13 2 15 9216 15 0 15 12288 3 0 5 0
8 8 3 1 13 3 15 0 15 12288 15 12288 3 0 5 0
4 4 1 1 17 2 48 15360 96 15360 480 15360 2 0 3 2048
4 4 1 1 17 3 96 15360 480 15360 240 15360 2 0 3 2048
7 7 0 1 13 1 15 0 15 0 15 15360 2 0 5 0
7 7 0 1 13 2 15 0 15 15360 15 12288 2 0 4 4
7 7 0 1 13 3 15 15360 15 12288 15 0 2 0 5 0
10 10 3 1 21 1 15 0 15 15360 15 15360 3 0 7 0
10 10 3 1 21 2 15 15360 15 15360 15 15360 2 0 7 0
10 10 3 1 21 3 15 15360 15 15360 15 15360 3 0 7 0
11 11 3 1 21 2 15 15360 15 12288 15 15360 3 0 4 0
11 11 3 1 21 3 15 12288 15 15360 15 12288 3 0 5 0
12 12 3 1 21 1 15 0 40 15360 40 15360 1 0 3 167936
12 12 3 1 21 2 40 15360 40 15360 40 15360 1 0 3 167936
12 12 3 1 21 3 40 15360 40 15360 40 15360 1 0 3 167936
13 13 3 1 13 2 15 0 15 0 15 0 0 0 4 0
13 13 3 1 13 3 15 0 15 0 15 0 0 0 4 0
14 14 2 1 21 1 15 0 15 15360 15 15360 3 0 6 0
14 14 2 1 21 2 15 15360 15 15360 500 15360 3 0 6 0
14 14 2 1 21 3 15 15360 500 15360 500 15360 3 0 6 0
11 11 0 1 21 2 15 0 15 15360 17 15360 3 0 4 0
10 10 1 1 13 1 15 0 15 15360 15 15360 1 0 7 0
10 10 1 1 13 2 15 15360 15 15360 15 12288 3 0 7 0
10 10 1 1 13 3 15 15360 15 12288 15 15360 2 0 7 0
4 7 3 2 13 1 15 0 48 9216 624 12288 3 1 5 0
4 7 3 2 13 2 48 9216 624 12288 912 12288 3 1 5 0
4 7 3 2 13 3 624 12288 912 12288 528 12288 2 1 5 0
8 0 3 2 17 2 15 0 15 0 15 0 3 0 3 0
5 8 2 2 19 2 15 0 15 0 15 0 3 0 3 0
3 8 1 2 13 1 15 0 15 0 15 0 3 0 5 0
3 8 1 2 13 2 15 0 15 0 15 0 2 0 5 0
3 8 1 2 13 3 15 0 15 0 15 0 3 0 5 0
7 3 0 2 17 2 15 0 15 12288 15 0 2 0 4 0";
