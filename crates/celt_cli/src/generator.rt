//! The samples that `gen` encodes: pairs of 16 bits, each a sawtooth with a share of noise. They are no sound
//! of anybody's, and each seed has others.
ghost use Rattle.std.specs.Prelude.{◌≡◌, ℕ, ◌+◌, ◌<◌, ◌≤◌, ◌⊎◌, unsigned_abs};
ghost use Rattle.celt_cli.specs.Generator.{pair_of, sample_of, sawtooth, share_of};

use fixed_math::noise;

/// The period of the left channel's sawtooth, in samples.
const LEFT_PERIOD: u32 = 200;

/// The period of the right channel's sawtooth, in samples.
const RIGHT_PERIOD: u32 = 151;

/// What `gen` makes: so many frames of the samples of a seed.
#[derive(Clone, Copy, Debug, PartialEq, Eq)]
pub struct GenSettings {
    pub seed: u32,
    /// The frames of 960 samples, 1 to 10000.
    pub frames: u32,
}

/// Samples that are made of a seed, pair after pair, without an end. It takes no memory.
#[derive(Clone, Copy, Debug, PartialEq, Eq)]
pub struct GenSamples {
    /// The noise's state behind the pairs that were given.
    noise: u32,
    /// The place of the next pair in the left channel's period.
    left: u32,
    /// The place of the next pair in the right channel's period.
    right: u32,
    ghost left_within: { left < 200 },
    ghost right_within: { right < 151 },
}

impl GenSamples {
    ghost use Rattle.celt_cli.specs.Generators.{HasGiven};

    /// The samples of a seed, before the first pair.
    pub fn new(seed: u32) -> GenSamples
        ensures { HasGiven result seed 0 }
    {
        GenSamples {
            noise: seed,
            left: 0,
            right: 0,
        }
    }

    /// The next pair: the left sample and the right one, each from -4512 to 4471.
    pub fn next(&mut self) -> (i16, i16)
        ensures pair { (seed count : ℕ) → HasGiven self.old seed count → result ≡ pair_of seed count }
        ensures given { (seed count : ℕ) → HasGiven self.old seed count → HasGiven self.new seed (count + 1) }
    {
        let first = noise(self.noise);
        let second = noise(first);
        let left = sample(LEFT_PERIOD, self.left, first);
        let right = sample(RIGHT_PERIOD, self.right, second);
        self.noise = second;
        self.left = (self.left + 1) % LEFT_PERIOD;
        self.right = (self.right + 1) % RIGHT_PERIOD;
        (left, right)
    }
}

/// A sample of the sawtooth of this period at this place, with the share of a noise's state.
fn sample(period: u32, place: u32, state: u32) -> i16
    requires period { (period ≡ 200) ⊎ (period ≡ 151) }
    requires place { place < period }
    ensures { result ≡ sample_of period place state }
{
    rise(period, place) + share(state)
}

/// The sawtooth of this period at this place.
fn rise(period: u32, place: u32) -> i16
    requires period { (period ≡ 200) ⊎ (period ≡ 151) }
    requires place { place < period }
    ensures value { result ≡ sawtooth period place }
    ensures size { unsigned_abs result ≤ 4000 }
{
    (place * 8000 / period) as i16 - 4000
}

/// The ten highest bits of a noise's state, as a signed number.
fn share(state: u32) -> i16
    ensures value { result ≡ share_of state }
    ensures size { unsigned_abs result ≤ 512 }
{
    (state.cast_signed() >> 22) as i16
}
