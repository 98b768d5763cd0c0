//! The ratio of 48000 Hz to a rate of input, and how many samples come of how many.
ghost use Rattle.std.specs.Prelude.{◌≡◌, ◌^◌, ◌<◌, IsTrue};
ghost use Rattle.rate_change.specs.Rates.{is_ratio};

/// 48000 over a rate, in lowest terms: `up` samples come of `down`. The rate is 8000, 12000, 16000, 24000, 44100 or 48000.
#[derive(Clone, Copy, Debug, PartialEq, Eq)]
pub struct Ratio {
    /// 1 at 48000 Hz.
    pub up: u32,
    /// 1 but at 44100 Hz.
    pub down: u32,
    ghost of_rate: { IsTrue (is_ratio up down) },
}

impl Ratio {
    ghost use Rattle.rate_change.specs.Ratios.{IsRatioOf};

    /// The ratio of a rate in Hz. None stands for every rate but the six.
    pub fn of(rate: u32) -> Option<Ratio>
        ensures { IsRatioOf rate result }
    {
        let (up, down) = match rate {
            8000 => (6, 1),
            12000 => (4, 1),
            16000 => (3, 1),
            24000 => (2, 1),
            44100 => (160, 147),
            48000 => (1, 1),
            _ => return None,
        };
        Some(Ratio { up, down })
    }
}
