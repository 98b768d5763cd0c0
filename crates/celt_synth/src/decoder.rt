//! A decoder of frames: the state that it keeps, and the frame step.
ghost use Rattle.std.specs.Prelude.{◌≡◌, ◌*◌, ◌^◌, ◌≤◌, ◌<◌, pos, replicate, unsigned_abs, length, All};
ghost use Rattle.celt_base.specs.Energies.{AreEnergies};
ghost use Rattle.mdct_fixed.specs.Mdct.{IsSize};
ghost use Rattle.celt_synth.specs.AntiCollapse.{uncollapsed_if, AreGrounds};
ghost use Rattle.celt_synth.specs.Blocks.{blocks_of};
ghost use Rattle.celt_synth.specs.Concealment.{noise_shapes};
ghost use Rattle.celt_synth.specs.Rows.{floor};
ghost use Rattle.celt_synth.specs.Shapes.{shapes_of};
ghost use Rattle.celt_synth.specs.Signals.{channel_after, mono_samples, stereo_samples};
ghost use Rattle.celt_synth.specs.Steps.{spectrum_in};

use crate::amplitude::amplify;
use crate::anti_collapse::{self, Grounds, blocks};
use crate::channels::{ChannelBuffer, Tables};
use crate::concealment::fill_frame;
use crate::filters::Output;
use crate::rows::{FLOOR, keep_rows, lower, silence, take_greater};
use crate::sharing::{hear_energies, setting_before};
use crate::signals::Form;
use crate::streams::{to_mono, to_stereo};
use band_shapes::{ShapeRoom, shapes};
use celt_base::kind::Kind;
use celt_base::state::{Setting, Shared};
use celt_base::status::OutOfMemory;
use fixed_math::{Exp, Trig};
use frame_symbols::Symbols;
use std::alloc::Global;
use std::marker::Model;

/// What a frame leaves to the next one, besides its signal and its energies.
#[derive(Clone, Copy)]
pub struct Ending {
    /// Whether it is a transient.
    pub transient: bool,
    /// The setting of its post-filter.
    pub setting: Setting,
    /// The range of its reading.
    pub range: u32,
    /// The next seed of the noise.
    pub seed: u32,
}

/// What was read of a frame that sounds, but for its energies and the vectors of its shapes.
#[derive(Clone, Copy)]
pub struct Shaping {
    /// Whether it is a transient.
    pub transient: bool,
    /// Whether blocks without a shape are filled.
    pub collapse: bool,
    /// The setting of its post-filter.
    pub setting: Setting,
    /// The range of its reading.
    pub range: u32,
    /// The noise's state behind its shapes.
    pub seed: u32,
    /// For each band, the eighths of a bit of its shape.
    pub pulses: [i32; 21],
    /// For each channel and band a bit for each block, which is 0 where the block has no shape.
    pub masks: [[u32; 21]; 2],
}

/// How a frame sounds.
#[derive(Clone, Copy)]
pub struct Sounding {
    /// Its form.
    pub form: Form,
    /// The header's output gain, in units of 1/256 dB.
    pub gain: i32,
}

/// The buffers of a stream's channels. A stream of one channel has the left one alone.
#[derive(Drop)]
pub struct Buffers {
    pub left: ChannelBuffer,
    pub right: ChannelBuffer,
}

/// A decoder of the frames of a stream.
#[derive(Drop)]
pub struct Decoder {
    channels: u8,
    invert: bool,
    energies: [[i64; 21]; 2],
    older1: [[i64; 21]; 2],
    older2: [[i64; 21]; 2],
    seed: u32,
    range: u32,
    before: Setting,
    now: Setting,
    buffers: Buffers,
    tables: Tables,
    room: ShapeRoom,
}

// The amounts of the bands are 21.
fn whole_amounts(amounts: &[i32; 21])
    ensures { length amounts.now ≡ 21 }
{}

// The energies before the first frame.
fn no_energies() -> [[i64; 21]; 2]
    ensures value { result ≡ replicate 2 (replicate 21 (pos 0)) }
    ensures energies { AreEnergies result }
{
    [[0; 21]; 2]
}

// The older rows before the first frame.
fn least_energies() -> [[i64; 21]; 2]
    ensures value { result ≡ replicate 2 (replicate 21 floor) }
    ensures energies { AreEnergies result }
{
    [[FLOOR; 21]; 2]
}

// The spectrum of a channel of a frame.
fn amplify_channel(
    shapes: &[i64],
    energies: &[[i64; 21]; 2],
    channel: usize,
    kind: Kind,
    exp: &Exp,
    out: &mut [i64],
)
    requires channel { channel < 2 }
    requires energies { AreEnergies energies.now }
    requires length { length shapes.now ≡ 100 * blocks_of kind }
    requires items { All (λ v. unsigned_abs v < 2 ^ 20) shapes.now }
    requires room { length out.old ≡ 120 * blocks_of kind }
    ensures value { out.new ≡ spectrum_in kind energies.now channel shapes.now }
    ensures sizes { All (λ v. unsigned_abs v ≤ 2 ^ 30) out.new }
{
    amplify(
        shapes,
        &energies[channel],
        blocks(kind),
        usize::from(kind.end),
        exp,
        out,
    );
}

// The spectra of a concealed frame. Answers the noise's state behind its shapes.
fn noise_spectra(
    energies: &[[i64; 21]; 2],
    kind: Kind,
    seed: u32,
    exp: &Exp,
    left: &mut [i64],
    right: &mut [i64],
) -> u32
    requires energies { AreEnergies energies.now }
    requires left { length left.old ≡ 120 * blocks_of kind }
    requires right { length right.old ≡ 120 * blocks_of kind }
    ensures left { left.new ≡ spectrum_in kind energies.now 0 (noise_shapes kind kind.end seed).left }
    ensures right { kind.channels ≡ 2 → right.new ≡ spectrum_in kind energies.now 1 (noise_shapes kind kind.end seed).right }
    ensures seed { result ≡ (noise_shapes kind kind.end seed).seed }
    ensures left_sizes { All (λ v. unsigned_abs v ≤ 2 ^ 30) left.new }
    ensures right_sizes { All (λ v. unsigned_abs v ≤ 2 ^ 30) right.new }
{
    let mut left_shapes = [0i64; 800];
    let mut right_shapes = [0i64; 800];
    let (left_shapes, _) = left_shapes.split_at_mut(100 * blocks(kind));
    let (right_shapes, _) = right_shapes.split_at_mut(100 * blocks(kind));
    let state = fill_frame(left_shapes, right_shapes, kind, seed);
    amplify_channel(left_shapes, energies, 0, kind, exp, left);
    amplify_channel(right_shapes, energies, 1, kind, exp, right);
    state
}

// The spectrum of the second channel of a frame that has one.
fn amplify_second(shapes: &[i64], energies: &[[i64; 21]; 2], kind: Kind, exp: &Exp, out: &mut [i64])
    requires energies { AreEnergies energies.now }
    requires length { length shapes.now ≡ 100 * blocks_of kind }
    requires items { All (λ v. unsigned_abs v < 2 ^ 20) shapes.now }
    requires room { length out.old ≡ 120 * blocks_of kind }
    requires old_sizes { All (λ v. unsigned_abs v ≤ 2 ^ 30) out.old }
    ensures value { kind.channels ≡ 2 → out.new ≡ spectrum_in kind energies.now 1 shapes.now }
    ensures sizes { All (λ v. unsigned_abs v ≤ 2 ^ 30) out.new }
{
    if kind.channels == 2 {
        amplify_channel(shapes, energies, 1, kind, exp, out);
    }
}

// Fills blocks without a shape where the frame asks for it.
fn fill_if(asks: bool, left: &mut [i64], right: &mut [i64], exp: &Exp, grounds: &Grounds, seed: u32)
    requires grounds { AreGrounds grounds.now }
    requires left_length { length left.old ≡ 100 * blocks_of grounds.now.kind }
    requires right_length { length right.old ≡ 100 * blocks_of grounds.now.kind }
    requires left_items { All (λ v. unsigned_abs v < 2 ^ 20) left.old }
    requires right_items { All (λ v. unsigned_abs v < 2 ^ 20) right.old }
    ensures left { left.new ≡ (uncollapsed_if asks grounds.now (shapes_of left.old right.old seed)).left }
    ensures right { right.new ≡ (uncollapsed_if asks grounds.now (shapes_of left.old right.old seed)).right }
    ensures left_items { All (λ v. unsigned_abs v < 2 ^ 20) left.new }
    ensures right_items { All (λ v. unsigned_abs v < 2 ^ 20) right.new }
{
    if asks {
        let mut state = seed;
        anti_collapse::fill_frame(left, right, exp, grounds, &mut state);
    }
}

// Sounds a frame in a stream of two channels.
fn sound_both(
    buffers: &mut Buffers,
    left: &[i64],
    right: &[i64],
    sounding: Sounding,
    tables: &Tables,
    out: &mut [i16],
)
    requires size { IsSize (120 * sounding.form.blocks) }
    requires left { length left.now ≡ 120 * sounding.form.blocks }
    requires right { length right.now ≡ 120 * sounding.form.blocks }
    requires left_sizes { All (λ v. unsigned_abs v ≤ 2 ^ 30) left.now }
    requires right_sizes { All (λ v. unsigned_abs v ≤ 2 ^ 30) right.now }
    requires gain { unsigned_abs sounding.gain ≤ 32768 }
    requires out { length out.old ≡ 2 * (120 * sounding.form.blocks) }
    ensures left { buffers.new.left ≡ channel_after sounding.form buffers.old.left left.now }
    ensures right { buffers.new.right ≡ channel_after sounding.form buffers.old.right right.now }
    ensures samples { out.new ≡ stereo_samples sounding.gain sounding.form buffers.old.left buffers.old.right left.now right.now }
{
    let gain = sounding.gain;
    let place = Output {
        gain,
        start: 0,
        stride: 2,
    };
    buffers.left.sound(left, sounding.form, tables, out, place);
    let place = Output {
        gain,
        start: 1,
        stride: 2,
    };
    buffers
        .right
        .sound(right, sounding.form, tables, out, place);
}

// Sounds a frame in a stream of one channel.
fn sound_one(
    buffer: &mut ChannelBuffer,
    spectrum: &[i64],
    sounding: Sounding,
    tables: &Tables,
    out: &mut [i16],
)
    requires size { IsSize (120 * sounding.form.blocks) }
    requires length { length spectrum.now ≡ 120 * sounding.form.blocks }
    requires sizes { All (λ v. unsigned_abs v ≤ 2 ^ 30) spectrum.now }
    requires gain { unsigned_abs sounding.gain ≤ 32768 }
    requires out { length out.old ≡ 120 * sounding.form.blocks }
    ensures channel { buffer.new ≡ channel_after sounding.form buffer.old spectrum.now }
    ensures samples { out.new ≡ mono_samples sounding.gain sounding.form buffer.old spectrum.now }
{
    let place = Output {
        gain: sounding.gain,
        start: 0,
        stride: 1,
    };
    buffer.sound(spectrum, sounding.form, tables, out, place);
}

impl Model for Decoder {
    ghost use Rattle.celt_synth.specs.Decoders.{Decoder as Standing, IsDecoder};

    ghost Value = { Standing };

    ghost view = { λ d. record {
      channels = d.channels;
      invert = d.invert;
      state = record {
        energies = d.energies;
        older1 = d.older1;
        older2 = d.older2;
        seed = d.seed;
        range = d.range;
        before = d.before;
        now = d.now;
        left = d.buffers.left;
        right = d.buffers.right;
      };
    } };

    ghost invariant = { λ d. IsDecoder d.channels d.energies d.older1 d.older2 };
}

impl Decoder {
    ghost use Rattle.std.specs.Prelude.{◌≡◌, ◌*◌, ◌^◌, ◌≤◌, ◌<◌, ◌≤ℤ◌, ◌<ℤ◌, ℕ, List, pos, get_or, Option, unsigned_abs, length, All, IfOk};
    ghost use Rattle.mdct_fixed.specs.Mdct.{IsSize};
    ghost use Rattle.band_plan.specs.Shapes.{HasTrees};
    ghost use Rattle.frame_symbols.specs.Frames.{Sound};
    ghost use Rattle.frame_symbols.specs.Held.{HoldsFrame};
    ghost use Rattle.frame_symbols.specs.HeldSymbols.{AreRead};
    ghost use Rattle.celt_synth.specs.Blocks.{blocks_of};
    ghost use Rattle.celt_synth.specs.Decoders.{with_state, state_sounded, samples_sounded, state_ended, IsMade, Hears};
    ghost use Rattle.celt_synth.specs.Readings.{heard_of, shaped_of, frame_step, IsShaped};
    ghost use Rattle.celt_synth.specs.Shapes.{Shaped};
    ghost use Rattle.celt_synth.specs.Shared.{Heard, shared_in, shared_of, silent_energies};
    ghost use Rattle.celt_synth.specs.States.{State, start};
    ghost use Rattle.celt_synth.specs.Steps.{Made, made_silent, made_sounding, state_after, samples_of, step, conceal};

    /// A decoder of a stream of one or two channels, before its first frame. It inverts the phase of right channels
    /// where a frame asks for it, unless `invert` is false.
    pub fn new(alloc: Global, channels: u8, invert: bool) -> Result<Decoder, OutOfMemory>
        requires some { 1 ≤ channels }
        requires most { channels ≤ 2 }
        ensures { IfOk result (λ decoder. decoder ≡ record { channels = channels; invert = invert; state = start }) }
    {
        let Ok(left) = ChannelBuffer::new(alloc) else {
            return Err(OutOfMemory);
        };
        let Ok(right) = ChannelBuffer::new(alloc) else {
            return Err(OutOfMemory);
        };
        let Ok(room) = ShapeRoom::new(alloc) else {
            return Err(OutOfMemory);
        };
        Ok(Decoder {
            channels,
            invert,
            energies: no_energies(),
            older1: least_energies(),
            older2: least_energies(),
            seed: 0,
            range: 0,
            before: Setting::off(),
            now: Setting::off(),
            buffers: Buffers { left, right },
            tables: Tables {
                trig: Trig::new(),
                exp: Exp::new(),
            },
            room,
        })
    }

    /// Begins anew, as before the first frame.
    pub fn restart(&mut self)
        ensures { self.new ≡ with_state self.old start }
    {
        self.energies = no_energies();
        self.older1 = least_energies();
        self.older2 = least_energies();
        self.seed = 0;
        self.range = 0;
        self.before = Setting::off();
        self.now = Setting::off();
        self.buffers.left.restart();
        self.buffers.right.restart();
    }

    /// What an encoder of the same frames has too.
    pub fn state(&self) -> Shared
        ensures range { result.range ≡ self.entry.now.state.range }
        ensures energies { result.energies ≡ self.entry.now.state.energies }
        ensures seed { result.seed ≡ self.entry.now.state.seed }
        ensures before { result.before ≡ self.entry.now.state.before }
        ensures now { result.now ≡ self.entry.now.state.now }
        ensures shared { shared_in result ≡ shared_of self.entry.now.state }
    {
        Shared {
            range: self.range,
            energies: self.energies,
            seed: self.seed,
            before: self.before,
            now: self.now,
        }
    }

    /// The frame step of a frame that was read: writes 120 << lm samples for each channel of the stream, in turn. `s`
    /// holds the symbols of a frame of this kind; `gain` is the header's output gain, in units of 1/256 dB.
    pub fn frame(&mut self, kind: Kind, s: &Symbols, gain: i32, out: &mut [i16])
        requires held { (value : Option Sound) × HoldsFrame kind s.now.fields value }
        requires gain { unsigned_abs gain ≤ 32768 }
        requires out { length out.old ≡ 120 * blocks_of kind * self.old.channels }
        ensures state { (value : Option Sound) → HoldsFrame kind s.now.fields value → self.new ≡ with_state self.old (step self.old.channels kind (heard_of kind s.now.range value) (shaped_of kind value self.old.invert) gain self.old.state).state }
        ensures samples { (value : Option Sound) → HoldsFrame kind s.now.fields value → out.new ≡ (step self.old.channels kind (heard_of kind s.now.range value) (shaped_of kind value self.old.invert) gain self.old.state).samples }
        ensures read_state { (frame : List ℕ) → 2 ≤ length frame → AreRead kind frame s.now → self.new ≡ with_state self.old (frame_step self.old.channels self.old.invert kind frame gain self.old.state).state }
        ensures read_samples { (frame : List ℕ) → 2 ≤ length frame → AreRead kind frame s.now → out.new ≡ (frame_step self.old.channels self.old.invert kind frame gain self.old.state).samples }
    {
        if s.silent() {
            return self.rest(kind, s.range(), gain, out);
        }
        let mut left = [0i64; 800];
        let mut right = [0i64; 800];
        let (left, _) = left.split_at_mut(100 * blocks(kind));
        let (right, _) = right.split_at_mut(100 * blocks(kind));
        let shaping = self.shape(kind, s, left, right);
        hear_energies(&mut self.energies, kind, s);
        self.sound_shapes(kind, &shaping, left, right, gain, out);
    }

    // Makes the shapes of a frame that is not silent. The state stays.
    fn shape(&mut self, kind: Kind, s: &Symbols, left: &mut [i64], right: &mut [i64]) -> Shaping
        requires trees { HasTrees kind s.now.fields.bands }
        requires left { length left.old ≡ 100 * blocks_of kind }
        requires right { length right.old ≡ 100 * blocks_of kind }
        ensures same { self.new ≡ self.old }
        ensures shaped { IsShaped kind s.now.fields s.now.range self.old.invert self.old.state.seed result left.new right.new }
        ensures left_items { All (λ v. unsigned_abs v < 2 ^ 20) left.new }
        ensures right_items { All (λ v. unsigned_abs v < 2 ^ 20) right.new }
    {
        whole_amounts(&s.bands().amounts);
        let mut seed = self.seed;
        let mut masks = [[0u32; 21]; 2];
        shapes(
            s.bands(),
            kind,
            &self.tables.trig,
            &mut seed,
            self.invert,
            &mut self.room,
            &mut masks,
        );
        left.copy_from_slice(self.room.shape(0));
        right.copy_from_slice(self.room.shape(1));
        Shaping {
            transient: s.transient(),
            collapse: s.collapse(),
            setting: s.setting(),
            range: s.range(),
            seed,
            pulses: s.allocation().pulses,
            masks,
        }
    }

    /// Sounds the frame step of a frame of 0 or 1 bytes: writes 120 << lm samples for each channel of the stream, in
    /// turn. `gain` is the header's output gain.
    pub fn conceal(&mut self, kind: Kind, gain: i32, out: &mut [i16])
        requires gain { unsigned_abs gain ≤ 32768 }
        requires out { length out.old ≡ 120 * blocks_of kind * self.old.channels }
        ensures state { self.new ≡ with_state self.old (conceal self.old.channels kind gain self.old.state).state }
        ensures samples { out.new ≡ (conceal self.old.channels kind gain self.old.state).samples }
    {
        let count = 120 * blocks(kind);
        let mut left = [0i64; 960];
        let mut right = [0i64; 960];
        let (left, _) = left.split_at_mut(count);
        let (right, _) = right.split_at_mut(count);
        take_greater(&mut self.energies, kind);
        lower(&mut self.energies, kind);
        let seed = noise_spectra(
            &self.energies,
            kind,
            self.seed,
            &self.tables.exp,
            left,
            right,
        );
        let ending = Ending {
            transient: false,
            setting: Setting::off(),
            range: 0,
            seed,
        };
        self.finish(kind, ending, left, right, gain, out);
    }

    // Sounds a silent frame.
    fn rest(&mut self, kind: Kind, range: u32, gain: i32, out: &mut [i16])
        requires gain { unsigned_abs gain ≤ 32768 }
        requires out { length out.old ≡ 120 * blocks_of kind * self.old.channels }
        ensures state { self.new ≡ with_state self.old (state_after self.old.channels kind (made_silent kind range (silent_energies kind self.old.state.energies)) self.old.state) }
        ensures samples { out.new ≡ samples_of self.old.channels kind gain (made_silent kind range (silent_energies kind self.old.state.energies)) self.old.state }
    {
        let count = 120 * blocks(kind);
        let mut left = [0i64; 960];
        let mut right = [0i64; 960];
        let (left, _) = left.split_at_mut(count);
        let (right, _) = right.split_at_mut(count);
        left.fill(0);
        right.fill(0);
        take_greater(&mut self.energies, kind);
        silence(&mut self.energies, kind);
        let ending = Ending {
            transient: false,
            setting: Setting::off(),
            range,
            seed: range,
        };
        self.finish(kind, ending, left, right, gain, out);
    }

    // Sounds the shapes of a frame whose energies stand already.
    fn sound_shapes(
        &mut self,
        kind: Kind,
        shaping: &Shaping,
        left: &mut [i64],
        right: &mut [i64],
        gain: i32,
        out: &mut [i16],
    )
        requires least { (b : ℕ) → b < kind.end → pos 0 ≤ℤ get_or shaping.now.pulses b (pos 0) }
        requires most { (b : ℕ) → b < kind.end → get_or shaping.now.pulses b (pos 0) <ℤ pos (2 ^ 20) }
        requires left { length left.old ≡ 100 * blocks_of kind }
        requires right { length right.old ≡ 100 * blocks_of kind }
        requires left_items { All (λ v. unsigned_abs v < 2 ^ 20) left.old }
        requires right_items { All (λ v. unsigned_abs v < 2 ^ 20) right.old }
        requires gain { unsigned_abs gain ≤ 32768 }
        requires out { length out.old ≡ 120 * blocks_of kind * self.old.channels }
        ensures state { (heard : Heard) (shaped : Shaped) → Hears kind shaping.now left.old right.old heard shaped → self.new ≡ with_state self.old (state_after self.old.channels kind (made_sounding kind heard shaped self.old.state.energies self.old.state) self.old.state) }
        ensures samples { (heard : Heard) (shaped : Shaped) → Hears kind shaping.now left.old right.old heard shaped → out.new ≡ samples_of self.old.channels kind gain (made_sounding kind heard shaped self.old.state.energies self.old.state) self.old.state }
    {
        let grounds = Grounds {
            kind,
            pulses: shaping.pulses,
            masks: shaping.masks,
            energies: self.energies,
            older1: self.older1,
            older2: self.older2,
        };
        fill_if(
            shaping.collapse,
            left,
            right,
            &self.tables.exp,
            &grounds,
            shaping.seed,
        );
        let count = 120 * blocks(kind);
        let mut left_spectrum = [0i64; 960];
        let mut right_spectrum = [0i64; 960];
        let (left_spectrum, _) = left_spectrum.split_at_mut(count);
        let (right_spectrum, _) = right_spectrum.split_at_mut(count);
        amplify_channel(
            left,
            &self.energies,
            0,
            kind,
            &self.tables.exp,
            left_spectrum,
        );
        amplify_second(
            right,
            &self.energies,
            kind,
            &self.tables.exp,
            right_spectrum,
        );
        let ending = Ending {
            transient: shaping.transient,
            setting: shaping.setting,
            range: shaping.range,
            seed: shaping.range,
        };
        self.finish(kind, ending, left_spectrum, right_spectrum, gain, out);
    }

    // Sounds the spectra of a frame whose energies stand already, and ends the frame.
    fn finish(
        &mut self,
        kind: Kind,
        ending: Ending,
        left: &mut [i64],
        right: &mut [i64],
        gain: i32,
        out: &mut [i16],
    )
        requires left { length left.old ≡ 120 * blocks_of kind }
        requires right { length right.old ≡ 120 * blocks_of kind }
        requires left_sizes { All (λ v. unsigned_abs v ≤ 2 ^ 30) left.old }
        requires right_sizes { All (λ v. unsigned_abs v ≤ 2 ^ 30) right.old }
        requires gain { unsigned_abs gain ≤ 32768 }
        requires out { length out.old ≡ 120 * blocks_of kind * self.old.channels }
        ensures state { (made : Made) → IsMade kind ending self.old.state.energies left.old right.old made → self.new ≡ with_state self.old (state_after self.old.channels kind made self.old.state) }
        ensures samples { (made : Made) → IsMade kind ending self.old.state.energies left.old right.old made → out.new ≡ samples_of self.old.channels kind gain made self.old.state }
    {
        let form = Form {
            blocks: blocks(kind),
            transient: ending.transient,
            before: self.before,
            now: self.now,
            frame: ending.setting,
        };
        self.sound(kind.channels, Sounding { form, gain }, left, right, out);
        self.end(kind, ending);
    }

    // Sounds the spectra of a frame of so many channels.
    fn sound(
        &mut self,
        channels: u8,
        sounding: Sounding,
        left: &mut [i64],
        right: &mut [i64],
        out: &mut [i16],
    )
        requires size { IsSize (120 * sounding.form.blocks) }
        requires left { length left.old ≡ 120 * sounding.form.blocks }
        requires right { length right.old ≡ 120 * sounding.form.blocks }
        requires left_sizes { All (λ v. unsigned_abs v ≤ 2 ^ 30) left.old }
        requires right_sizes { All (λ v. unsigned_abs v ≤ 2 ^ 30) right.old }
        requires gain { unsigned_abs sounding.gain ≤ 32768 }
        requires out { length out.old ≡ 120 * sounding.form.blocks * self.old.channels }
        requires channels { channels ≤ 2 }
        ensures state { self.new ≡ with_state self.old (state_sounded self.old.channels channels sounding.form left.old right.old self.old.state) }
        ensures samples { out.new ≡ samples_sounded self.old.channels channels sounding.gain sounding.form left.old right.old self.old.state }
    {
        if self.channels == 2 {
            to_stereo(channels, left, right);
            return sound_both(&mut self.buffers, left, right, sounding, &self.tables, out);
        }
        to_mono(channels, left, right);
        sound_one(&mut self.buffers.left, left, sounding, &self.tables, out);
    }

    // Keeps what the next frame needs.
    fn end(&mut self, kind: Kind, ending: Ending)
        ensures { self.new ≡ with_state self.old (state_ended kind ending self.old.state) }
    {
        keep_rows(
            &mut self.energies,
            &mut self.older1,
            &mut self.older2,
            kind,
            ending.transient,
        );
        self.before = setting_before(kind, self.now, ending.setting);
        self.now = ending.setting;
        self.seed = ending.seed;
        self.range = ending.range;
    }
}
