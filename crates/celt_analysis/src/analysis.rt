//! What is found in a frame, and what an encoder reads of it.
ghost use Rattle.std.specs.Prelude.{◌≡◌, replicate, length, All};
ghost use Rattle.celt_analysis.specs.Analyses.{AreTargets, analysis_of};
ghost use Rattle.celt_analysis.specs.Energies.{floor};
ghost use Rattle.celt_analysis.specs.Signals.{window_size};

use crate::channels::Channels;
use crate::energies::FLOOR;
use crate::measures::{Measures, measure};
use celt_base::kind::Kind;
use celt_base::state::Setting;
use celt_base::status::OutOfMemory;
use fixed_math::{Exp, Trig};
use std::alloc::Global;
use std::marker::Model;

// The targets before the first frame.
fn least_targets() -> [[i64; 21]; 2]
    ensures value { result ≡ replicate 2 (replicate 21 floor) }
    ensures rows { length result ≡ 2 }
    ensures bands { All (λ row. length row ≡ 21) result }
    ensures sizes { All AreTargets result }
{
    [[FLOOR; 21]; 2]
}

// The heights before the first frame.
fn least_heights() -> [i64; 21]
    ensures value { result ≡ replicate 21 floor }
    ensures sizes { AreTargets result }
{
    [FLOOR; 21]
}

/// What is found in a frame, with the room to find it.
#[derive(Drop)]
pub struct Analysis {
    kind: Option<Kind>,
    transient: bool,
    setting: Setting,
    measures: Measures,
    channels: Channels,
}

impl Model for Analysis {
    ghost use Rattle.celt_analysis.specs.Analyses.{Analysis as Found, IsAnalysis};

    ghost Value = { Found };

    ghost view = { λ a. record {
      kind = a.kind;
      silent = a.measures.silent;
      transient = a.transient;
      setting = a.setting;
      left = a.channels.left.spectrum;
      right = a.channels.right.spectrum;
      targets = a.measures.targets;
      heights = a.measures.heights;
    } };

    ghost invariant = { λ a. IsAnalysis a.kind a.channels.left.spectrum a.channels.right.spectrum a.measures.targets a.measures.heights };
}

impl Analysis {
    ghost use Rattle.std.specs.Prelude.{◌≡◌, ◌^◌, ◌<◌, ◌≤◌, unsigned_abs, length, All, IfOk};
    ghost use Rattle.celt_analysis.specs.Analyses.{blank, height_in, spectrum_of, spectrum_size, target_in};

    /// Takes the memory for all frames to come.
    pub fn new(alloc: Global) -> Result<Analysis, OutOfMemory>
        ensures { IfOk result (λ a. a ≡ blank) }
    {
        let Ok(channels) = Channels::new(alloc) else {
            return Err(OutOfMemory);
        };
        Ok(Analysis {
            kind: None,
            transient: false,
            setting: Setting::off(),
            measures: Measures {
                silent: false,
                targets: least_targets(),
                heights: least_heights(),
            },
            channels,
        })
    }

    /// The kind of the frame; None before the first one.
    pub fn kind(&self) -> Option<Kind>
        ensures { result ≡ self.now.kind }
    {
        self.kind
    }

    /// Whether every item of the spectrum is 0 in the bands below the kind's end.
    pub fn silent(&self) -> bool
        ensures { result ≡ self.now.silent }
    {
        self.measures.silent
    }

    /// Whether the frame has a transform for each block of 120 samples.
    pub fn transient(&self) -> bool
        ensures { result ≡ self.now.transient }
    {
        self.transient
    }

    /// The setting of the post-filter.
    pub fn setting(&self) -> Setting
        ensures { result ≡ self.now.setting }
    {
        self.setting
    }

    /// The spectrum of a channel, 0 or 1: 120 << lm items, below 2^38 in size. It is empty where the frame has no such
    /// channel.
    pub fn spectrum(&self, channel: u8) -> &[i64]
        requires { channel < 2 }
        ensures value { result.now ≡ spectrum_of self.now channel }
        ensures count { length result.now ≡ spectrum_size self.now.kind channel }
        ensures sizes { All (λ x. unsigned_abs x < 2 ^ 38) result.now }
    {
        if channel == 0 {
            self.channels.left()
        } else {
            self.channels.right()
        }
    }

    /// The energy that a band of a channel is to have, log2 in units of 2^-10, below 2^15 in size; -28672 where the frame
    /// has no such channel or band.
    pub fn target(&self, channel: u8, band: u8) -> i64
        requires channel { channel < 2 }
        requires band { band < 21 }
        ensures value { result ≡ target_in self.now channel band }
        ensures size { unsigned_abs result < 2 ^ 15 }
    {
        self.measures.targets[channel as usize][band as usize]
    }

    /// The greater of the targets of a band in all channels.
    pub fn height(&self, band: u8) -> i64
        requires { band < 21 }
        ensures value { result ≡ height_in self.now band }
        ensures size { unsigned_abs result < 2 ^ 15 }
    {
        self.measures.heights[band as usize]
    }
}

/// Finds what is in a frame of this kind. `window` has 1145 samples of each channel before those of the frame, channels in
/// turn; the settings of the post-filter are those of the two frames before and of the frame.
pub fn analyse(
    window: &[i16],
    kind: Kind,
    settings: &[Setting; 3],
    trig: &Trig,
    exp: &Exp,
    out: &mut Analysis,
)
    requires { length window.now ≡ window_size kind }
    ensures { out.new ≡ analysis_of kind settings.now window.now }
{
    let transient = out.channels.analyse(window, kind, settings, trig);
    out.measures = measure(out.channels.left(), out.channels.right(), kind, exp);
    out.kind = Some(kind);
    out.transient = transient;
    out.setting = settings[2];
}
