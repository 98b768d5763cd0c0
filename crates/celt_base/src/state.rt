//! What an encoder and its decoder share: the setting of the post-filter, the state after a frame, and the allocation of
//! bits to bands.
ghost use Rattle.std.specs.Prelude.{◌≡◌, ◌≤◌, pos, replicate};
ghost use Rattle.celt_base.specs.Energies.{AreEnergies};

/// A setting of the post-filter (RFC 6716, section 4.3.7.1). Off is period 15, gain 0, tapset 0.
#[derive(Clone, Copy, Debug, PartialEq, Eq)]
pub struct Setting {
    /// The pitch period, in samples at 48 kHz.
    pub period: u32,
    /// The gain, Q15.
    pub gain: u32,
    /// Which of the three sets of filter taps.
    pub tapset: u32,
    ghost least_period: { 15 ≤ period },
    ghost most_period: { period ≤ 1022 },
    ghost most_gain: { gain ≤ 24576 },
    ghost most_tapset: { tapset ≤ 2 },
}

impl Setting {
    ghost use Rattle.celt_base.specs.States.{IsOff};

    /// The post-filter is off.
    pub fn off() -> Setting
        ensures { IsOff result }
    {
        Setting {
            period: 15,
            gain: 0,
            tapset: 0,
        }
    }
}

/// The state after a frame that an encoder and its decoder share.
#[derive(Clone, Copy, Debug, PartialEq, Eq)]
pub struct Shared {
    /// The width of the range coder's interval at the end of the frame; 0 where no frame was read.
    pub range: u32,
    /// The energy of each channel and band, log2 in units of 2^-10, from -2^15 up to 2^33.
    pub energies: [[i64; 21]; 2],
    /// The seed of the noise.
    pub seed: u32,
    /// The setting of the post-filter of the frame before.
    pub before: Setting,
    /// The setting of the post-filter of this frame.
    pub now: Setting,
    ghost bounded: { AreEnergies energies },
}

impl Shared {
    ghost use Rattle.celt_base.specs.States.{IsOff};

    /// The state before the first frame: energies and seed 0, both settings off.
    pub fn start() -> Shared
        ensures range { result.range ≡ 0 }
        ensures energies { result.energies ≡ replicate 2 (replicate 21 (pos 0)) }
        ensures seed { result.seed ≡ 0 }
        ensures before { IsOff result.before }
        ensures now { IsOff result.now }
    {
        Shared {
            range: 0,
            energies: [[0; 21]; 2],
            seed: 0,
            before: Setting::off(),
            now: Setting::off(),
        }
    }
}

/// How the bits of a frame are spread over its bands (RFC 6716, section 4.3.3).
#[derive(Clone, Copy, Debug, PartialEq, Eq)]
pub struct Allocation {
    /// How many bands are coded, at least 1.
    pub coded: u32,
    /// The band from which intensity stereo begins.
    pub intensity: u32,
    /// Whether the bands below that one are coded in dual stereo.
    pub dual: bool,
    /// What is left over for the bands, in eighths of a bit.
    pub balance: i32,
    /// For each band, the eighths of a bit for its shape.
    pub pulses: [i32; 21],
    /// For each band, the bits of its fine energy in each channel.
    pub fine: [u32; 21],
    /// For each band, whether the bits left at the end reach it only in their second round.
    pub priority: [bool; 21],
}
