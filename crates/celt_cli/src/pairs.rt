//! The pairs of samples that `gen` encodes, and behind them pairs of 0.
ghost use Rattle.std.specs.Prelude.{◌≡◌, ℕ, ◌+◌, ◌-◌, ◌*◌, ◌<◌, ◌≤◌, length};

use crate::generator::{GenSamples, GenSettings};

/// The pairs of a seed, so many of them, and pairs of 0 behind them.
#[derive(Clone, Copy)]
pub struct GenPairs {
    generator: GenSamples,
    /// How many are left.
    rest: u64,
}

impl GenPairs {
    ghost use Rattle.celt_cli.specs.GenPairs.{GavePairs, pair_in};

    /// The pairs that fill so many frames, before the first.
    pub fn new(settings: GenSettings) -> GenPairs
        requires { settings.frames ≤ 10000 }
        ensures { GavePairs settings 0 result }
    {
        GenPairs {
            generator: GenSamples::new(settings.seed),
            rest: (960 * u64::from(settings.frames)).saturating_sub(120),
        }
    }

    /// The next pair.
    pub fn next(&mut self) -> (i16, i16)
        ensures pair { (settings : GenSettings) (count : ℕ) → GavePairs settings count self.old → result ≡ pair_in settings count }
        ensures gave { (settings : GenSettings) (count : ℕ) → GavePairs settings count self.old → GavePairs settings (count + 1) self.new }
    {
        if self.rest == 0 {
            return (0, 0);
        }
        self.rest -= 1;
        self.generator.next()
    }
}
