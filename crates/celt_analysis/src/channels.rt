//! The channels of a frame: the values of each that are transformed, and its spectrum (RFC 6716, section 4.3.7).
ghost use Rattle.std.specs.Prelude.{◌≡◌, ◌+◌, ◌^◌, ◌<◌, unsigned_abs, length, All};
ghost use Rattle.celt_analysis.specs.Signals.{frame_size, is_stereo};
ghost use Rattle.celt_analysis.specs.Transients.{energies_in, is_transient};

use crate::rooms::{blocks, fill_values, zeros};
use crate::transforms::{Blocks, fill_spectrum};
use crate::transients::rises;
use celt_base::kind::Kind;
use celt_base::state::Setting;
use celt_base::status::OutOfMemory;
use fixed_math::Trig;
use std::alloc::Global;
use std::marker::Model;

/// The most values of a frame, with the 120 before it.
const VALUES: usize = 1080;

/// The most items of a spectrum.
const ITEMS: usize = 960;

/// The most samples of a channel in a window.
const SAMPLES: usize = 2105;

/// A channel: its values, below 2^29 in size, and its spectrum, below 2^38.
#[derive(Drop)]
pub struct Channel {
    values: Vec<i64>,
    items: Vec<i64>,
    count: usize,
}

impl Model for Channel {
    ghost use Rattle.std.specs.Prelude.{take};
    ghost use Rattle.celt_analysis.specs.Channels.{Channel as Held, IsChannel};

    ghost Value = { Held };

    ghost view = { λ c. record { values = c.values.items; spectrum = take c.count c.items.items } };

    ghost invariant = { λ c. IsChannel c.values.items c.items.items c.count };
}

impl Channel {
    ghost use Rattle.std.specs.Prelude.{◌≡◌, ◌+◌, ◌*◌, ◌^◌, ◌<◌, ◌≤◌, [], take, unsigned_abs, length, All, IfOk};
    ghost use Rattle.mdct_fixed.specs.Mdct.{IsSize};
    ghost use Rattle.celt_analysis.specs.Signals.{channel_in, frame_size, values_in, window_size};
    ghost use Rattle.celt_analysis.specs.Spectra.{spectrum};

    /// One without a spectrum.
    pub fn new(alloc: Global) -> Result<Channel, OutOfMemory>
        ensures { IfOk result (λ c. c.spectrum ≡ []) }
    {
        let Ok(values) = zeros(alloc, VALUES) else {
            return Err(OutOfMemory);
        };
        let Ok(items) = zeros(alloc, ITEMS) else {
            return Err(OutOfMemory);
        };
        Ok(Channel {
            values,
            items,
            count: 0,
        })
    }

    /// Its first values.
    pub fn values(&self, count: usize) -> &[i64]
        requires { count ≤ 1080 }
        ensures value { result.now ≡ take count self.now.values }
        ensures count { length result.now ≡ count }
        ensures sizes { All (λ v. unsigned_abs v < 2 ^ 29) result.now }
    {
        let (values, _) = self.values.as_slice().split_at(count);
        values
    }

    /// Its spectrum.
    pub fn spectrum(&self) -> &[i64]
        ensures value { result.now ≡ self.now.spectrum }
        ensures sizes { All (λ x. unsigned_abs x < 2 ^ 38) result.now }
    {
        let (items, _) = self.items.as_slice().split_at(self.count);
        items
    }

    /// Takes the values of channel `channel` of a window. `room` is for its samples.
    pub fn hear(
        &mut self,
        window: &[i16],
        kind: Kind,
        channel: usize,
        settings: &[Setting; 3],
        room: &mut [i64],
    )
        requires channel { channel < kind.channels }
        requires window { length window.now ≡ window_size kind }
        requires room { length room.old ≡ 2105 }
        ensures { take (frame_size kind + 120) self.new.values ≡ values_in (frame_size kind) settings.now (channel_in kind.channels window.now channel) }
    {
        let values = self.values.as_mut_slice();
        fill_values(window, kind, channel, settings, room, values);
    }

    /// Makes the spectrum of its values. `room` is for the transform.
    pub fn transform(&mut self, blocks: Blocks, trig: &Trig, room: &mut [i64])
        requires size { IsSize (120 * blocks.count) }
        requires few { blocks.count ≤ 8 }
        requires room { length room.old ≡ 960 }
        ensures { self.new.spectrum ≡ spectrum blocks.count blocks.transient (take (120 * blocks.count + 120) self.old.values) }
    {
        let values = self.values.as_slice();
        let items = self.items.as_mut_slice();
        fill_spectrum(values, blocks, trig, room, items);
        self.count = 120 * blocks.count;
    }

    /// Takes its spectrum away.
    pub fn clear(&mut self)
        ensures { self.new.spectrum ≡ [] }
    {
        self.count = 0;
    }
}

/// Both channels, with room for the samples of a window and for a transform. In mono the right one is not heard.
#[derive(Drop)]
pub struct Channels {
    left: Channel,
    right: Channel,
    samples: Vec<i64>,
    parts: Vec<i64>,
}

impl Model for Channels {
    ghost use Rattle.celt_analysis.specs.Channels.{Channels as Held, AreChannels};

    ghost Value = { Held };

    ghost view = { λ c. record { left = c.left; right = c.right } };

    ghost invariant = { λ c. AreChannels c.samples.items c.parts.items };
}

// Whether a frame with these values is a transient. In mono `right` is not read.
fn is_transient(left: &[i64], right: &[i64], kind: Kind) -> bool
    requires left { length left.now ≡ frame_size kind + 120 }
    requires right { length right.now ≡ frame_size kind + 120 }
    requires left_sizes { All (λ v. unsigned_abs v < 2 ^ 29) left.now }
    requires right_sizes { All (λ v. unsigned_abs v < 2 ^ 29) right.now }
    ensures { result ≡ is_transient kind.lm (energies_in (is_stereo kind) left.now right.now) }
{
    if kind.lm == 0 {
        return false;
    }
    rises(left, right, kind.channels == 2, blocks(kind))
}

impl Channels {
    ghost use Rattle.std.specs.Prelude.{◌≡◌, ◌+◌, ◌*◌, ◌^◌, ◌<◌, ◌≤◌, [], take, unsigned_abs, length, All, if◌then◌else◌, IfOk};
    ghost use Rattle.celt_analysis.specs.Analyses.{spectrum_in, transient_of};
    ghost use Rattle.celt_analysis.specs.Signals.{blocks_of, channel_in, channel_values, frame_size, is_stereo, values_in, window_size};
    ghost use Rattle.celt_analysis.specs.Spectra.{spectrum};
    ghost use Rattle.celt_analysis.specs.Transients.{energies_in, is_transient};

    /// Takes the memory for all frames to come.
    pub fn new(alloc: Global) -> Result<Channels, OutOfMemory>
        ensures left { IfOk result (λ c. c.left.spectrum ≡ []) }
        ensures right { IfOk result (λ c. c.right.spectrum ≡ []) }
    {
        let Ok(left) = Channel::new(alloc) else {
            return Err(OutOfMemory);
        };
        let Ok(right) = Channel::new(alloc) else {
            return Err(OutOfMemory);
        };
        let Ok(samples) = zeros(alloc, SAMPLES) else {
            return Err(OutOfMemory);
        };
        let Ok(parts) = zeros(alloc, ITEMS) else {
            return Err(OutOfMemory);
        };
        Ok(Channels {
            left,
            right,
            samples,
            parts,
        })
    }

    /// The left channel's spectrum, or that of the one.
    pub fn left(&self) -> &[i64]
        ensures value { result.now ≡ self.now.left.spectrum }
        ensures sizes { All (λ x. unsigned_abs x < 2 ^ 38) result.now }
    {
        self.left.spectrum()
    }

    /// The right channel's spectrum.
    pub fn right(&self) -> &[i64]
        ensures value { result.now ≡ self.now.right.spectrum }
        ensures sizes { All (λ x. unsigned_abs x < 2 ^ 38) result.now }
    {
        self.right.spectrum()
    }

    // Takes the values of the channels of a window.
    fn hear(&mut self, window: &[i16], kind: Kind, settings: &[Setting; 3])
        requires { length window.now ≡ window_size kind }
        ensures left { take (frame_size kind + 120) self.new.left.values ≡ values_in (frame_size kind) settings.now (channel_in kind.channels window.now 0) }
        ensures right { kind.channels ≡ 2 → take (frame_size kind + 120) self.new.right.values ≡ values_in (frame_size kind) settings.now (channel_in kind.channels window.now 1) }
    {
        let samples = self.samples.as_mut_slice();
        self.left.hear(window, kind, 0, settings, samples);
        if kind.channels == 1 {
            return;
        }
        self.right.hear(window, kind, 1, settings, samples);
    }

    // Makes the spectra of the channels.
    fn transform(&mut self, kind: Kind, transient: bool, trig: &Trig)
        ensures left { self.new.left.spectrum ≡ spectrum (blocks_of kind) transient (take (frame_size kind + 120) self.old.left.values) }
        ensures right { self.new.right.spectrum ≡ (if is_stereo kind then spectrum (blocks_of kind) transient (take (frame_size kind + 120) self.old.right.values) else []) }
    {
        let blocks = Blocks {
            count: blocks(kind),
            transient,
        };
        let parts = self.parts.as_mut_slice();
        self.left.transform(blocks, trig, parts);
        if kind.channels == 1 {
            self.right.clear();
            return;
        }
        self.right.transform(blocks, trig, parts);
    }

    // Whether the values are those of a transient.
    fn is_transient(&self, kind: Kind) -> bool
        ensures { result ≡ is_transient kind.lm (energies_in (is_stereo kind) (take (frame_size kind + 120) self.now.left.values) (take (frame_size kind + 120) self.now.right.values)) }
    {
        let count = 120 * blocks(kind) + 120;
        is_transient(self.left.values(count), self.right.values(count), kind)
    }

    /// Makes the spectra of the channels of a window. Answers whether they are those of a transient.
    pub fn analyse(
        &mut self,
        window: &[i16],
        kind: Kind,
        settings: &[Setting; 3],
        trig: &Trig,
    ) -> bool
        requires { length window.now ≡ window_size kind }
        ensures transient { result ≡ transient_of kind (channel_values kind settings.now window.now) }
        ensures left { self.new.left.spectrum ≡ spectrum_in kind (channel_values kind settings.now window.now) 0 }
        ensures right { self.new.right.spectrum ≡ (if is_stereo kind then spectrum_in kind (channel_values kind settings.now window.now) 1 else []) }
    {
        self.hear(window, kind, settings);
        let transient = self.is_transient(kind);
        self.transform(kind, transient, trig);
        transient
    }
}
