//! Frames of signals by the numbers of a program apart from this one.
ghost use Rattle.std.specs.Prelude.{◌≡◌, ◌≤◌, length, IfOk};
ghost use Rattle.celt_analysis.specs.Signals.{window_size};

use crate::Encoder;
use crate::rows::{ROWS, Row};
use celt_analysis::{Analysis, analyse, pitch};
use celt_base::kind::Kind;
use celt_base::state::{Setting, Shared};
use celt_base::status::OutOfMemory;
use fixed_math::{Exp, Trig};
use frame_symbols::Symbols;
use std::alloc::Global;

// How many frames a row has.
const FRAMES: u32 = 5;

// A signal of some samples per channel; 0 behind them.
#[derive(Clone, Copy)]
struct Signal {
    form: u8,
    channels: u8,
    last: u32,
    place: u32,
    channel: u8,
    noise: u32,
}

// Noise from -16384 to 16383.
fn noise_of(number: u32) -> i16 {
    ((number >> 17) as i16).wrapping_sub(16_384)
}

// A square wave of the greatest amplitude.
fn square_at(place: u32) -> i16 {
    if place / 100 % 2 == 0 {
        32_767
    } else {
        -32_768
    }
}

// A triangle wave.
fn triangle_at(place: u32) -> i16 {
    let way = (place.wrapping_mul(40) % 8000) as i16;
    way.wrapping_sub(4000).wrapping_abs().wrapping_sub(2000)
}

// A sample of one channel of a signal of each form: noise, squares, a triangle in noise, silence, and noise that sets in.
fn sample_of(form: u8, place: u32, number: u32) -> i16 {
    let noise = noise_of(number);
    match form {
        0 => noise,
        1 => square_at(place),
        2 => triangle_at(place).wrapping_add(noise >> 8),
        3 => 0,
        _ => { if place >= 1500 { noise } else { noise >> 9 } }
    }
}

// The same of two channels that differ: of opposite signs, one loud and one silent, and noise beside a triangle.
fn pair_of(form: u8, place: u32, channel: u8, number: u32) -> i16 {
    match (form, channel) {
        (5, 0) => triangle_at(place),
        (5, _) => triangle_at(place).wrapping_neg(),
        (6, 0) => square_at(place),
        (6, _) => 0,
        (_, 0) => noise_of(number) >> 2,
        (_, _) => triangle_at(place),
    }
}

impl Signal {
    // The next sample, channels in turn.
    fn next(&mut self) -> i16 {
        self.noise = self
            .noise
            .wrapping_mul(1_664_525)
            .wrapping_add(1_013_904_223);
        let place = self.place;
        let channel = self.channel;
        self.channel = channel.wrapping_add(1);
        if self.channel >= self.channels {
            self.channel = 0;
            self.place = place.wrapping_add(1);
        }
        if place >= self.last {
            return 0;
        }
        if self.form < 5 {
            return sample_of(self.form, place, self.noise);
        }
        pair_of(self.form, place, channel, self.noise)
    }
}

fn add(digest: u64, number: u64) -> u64 {
    digest.wrapping_mul(1_000_003).wrapping_add(number)
}

fn add_bytes(digest: u64, bytes: &[u8]) -> u64 {
    let mut sum = digest;
    for byte in bytes {
        sum = add(sum, *byte as u64);
    }
    sum
}

fn add_setting(digest: u64, setting: Setting) -> u64 {
    let digest = add(digest, setting.period as u64);
    let digest = add(digest, setting.gain as u64);
    add(digest, setting.tapset as u64)
}

fn add_row(digest: u64, row: &[i64; 21]) -> u64 {
    let mut sum = digest;
    for energy in row {
        sum = add(sum, energy.cast_unsigned());
    }
    sum
}

fn add_shared(digest: u64, shared: &Shared) -> u64 {
    let digest = add(digest, shared.range as u64);
    let digest = add(digest, shared.seed as u64);
    let digest = add_setting(digest, shared.before);
    let digest = add_setting(digest, shared.now);
    let digest = add_row(digest, &shared.energies[0]);
    add_row(digest, &shared.energies[1])
}

// What a row's frames are encoded with.
#[derive(Drop)]
struct Bench {
    kind: Kind,
    encoder: Encoder,
    analysis: Analysis,
    symbols: Symbols,
    trig: Trig,
    exp: Exp,
    settings: [Setting; 3],
    window: Vec<i16>,
    signal: Signal,
    ghost kinds: { encoder.kind ≡ kind },
    ghost whole: { length window.items ≡ window_size kind },
}

// How many samples a window has.
fn window_len(kind: Kind) -> usize
    ensures { result ≡ window_size kind }
{
    usize::from(kind.channels) * (1145 + (120usize << kind.lm))
}

// How many samples a frame has, of all channels, and at most a window.
fn frame_len(kind: Kind) -> usize
    ensures { result ≤ window_size kind }
{
    usize::from(kind.channels) * (120usize << kind.lm)
}

// Moves a window on by so many samples.
fn move_on(window: &mut [i16], step: usize, signal: &mut Signal)
    requires { step ≤ length window.old }
    ensures { length window.new ≡ length window.old }
{
    let kept = window.len() - step;
    for i in 0..kept {
        window[i] = window[i + step];
    }
    for i in kept..window.len() {
        window[i] = signal.next();
    }
}

impl Bench {
    // One for a row, whose kind is this one.
    fn new(alloc: Global, kind: Kind, row: Row) -> Result<Bench, OutOfMemory> {
        let encoder = Encoder::new(alloc, kind)?;
        let analysis = Analysis::new(alloc)?;
        let symbols = Symbols::new(alloc)?;
        let window = zeros(alloc, window_len(kind))?;
        let signal = Signal {
            form: row.signal,
            channels: kind.channels,
            last: FRAMES * (120u32 << kind.lm) - 120,
            place: 0,
            channel: 0,
            noise: 1000,
        };
        Ok(Bench {
            kind,
            encoder,
            analysis,
            symbols,
            trig: Trig::new(),
            exp: Exp::new(),
            settings: [Setting::off(); 3],
            window,
            signal,
        })
    }

    // Encodes the next frame.
    fn next(&mut self, room: &mut [u8]) -> Shared
        requires least { 2 ≤ length room.old }
        requires most { length room.old ≤ 1275 }
    {
        let kind = self.kind;
        move_on(
            self.window.as_mut_slice(),
            frame_len(kind),
            &mut self.signal,
        );
        let window = self.window.as_slice();
        self.settings = [self.settings[1], self.settings[2], pitch(window, kind)];
        analyse(
            window,
            kind,
            &self.settings,
            &self.trig,
            &self.exp,
            &mut self.analysis,
        );
        self.encoder.frame(&self.analysis, room, &mut self.symbols)
    }
}

// A list of zeros.
fn zeros(alloc: Global, count: usize) -> Result<Vec<i16>, OutOfMemory>
    ensures { IfOk result (λ v. length v.items ≡ count) }
{
    match vec![in alloc; 0i16; count] {
        Ok(values) => Ok(values),
        Err(_) => Err(OutOfMemory),
    }
}

// The digest of a row's frames and of what is shared after each.
fn digest_of(alloc: Global, row: Row) -> Result<u64, OutOfMemory> {
    let Some(kind) = Kind::of_toc(row.toc) else {
        return Ok(0);
    };
    let mut bench = Bench::new(alloc, kind, row)?;
    let mut bytes = [0; 1275];
    let (room, _) = bytes.split_at_mut(row.len.clamp(2, 1275));
    let mut digest = 0;
    for _ in 0..FRAMES {
        let shared = bench.next(room);
        digest = add_shared(add_bytes(digest, room), &shared);
    }
    Ok(digest)
}

#[test]
fn frames(rt: HostRuntime) -> Result<(), OutOfMemory> {
    for row in ROWS {
        assert_eq!(rt; digest_of(rt.alloc(), row)?, row.digest);
    }
    Ok(())
}
