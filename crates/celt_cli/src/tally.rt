//! What `gen` counts while frames are decoded.
ghost use Rattle.std.specs.Prelude.{◌≡◌, ℤ, ◌+◌, ◌/◌, ◌^◌, ◌<◌, ◌≤◌, [], ◌++◌, List, length};
ghost use Rattle.std.specs.List.{fold};
ghost use Rattle.celt_cli.specs.GenSums.{HasTallied, summed};

/// The samples before the first that comes out: those of 120 pairs.
const FIRST: usize = 240;

/// The samples of the frames so far, channels interleaved.
#[derive(Clone, Copy, Debug, PartialEq, Eq)]
pub struct Tally {
    /// How many of the next ones do not come out.
    dropping: usize,
    /// How many came out.
    count: u64,
    /// The sum over these.
    sum: u32,
}

/// The sum with one more sample.
fn sum_with(sum: u32, sample: i16) -> u32
    ensures { result ≡ summed sum sample }
{
    let next = 31 * u64::from(sum) + u64::from(sample.cast_unsigned());
    (next % (1 << 32)) as u32
}

/// The sum with these samples.
fn sum_over(sum: u32, samples: &[i16]) -> u32
    ensures { result ≡ fold summed sum samples.now }
{
    let mut next = sum;
    for i in 0..samples.len() {
        next = sum_with(next, samples[i]);
    }
    next
}

impl Tally {
    /// Before the first frame.
    pub fn new() -> Tally
        ensures tallied { HasTallied [] result }
        ensures count { result.count ≡ 0 }
    {
        Tally {
            dropping: FIRST,
            count: 0,
            sum: 0,
        }
    }

    /// With the samples of the next frame.
    pub fn with(self, samples: &[i16]) -> Tally
        requires few { self.count < 2 ^ 62 }
        requires short { length samples.now ≤ 1920 }
        ensures tallied { (before : List ℤ) → HasTallied before self → HasTallied (before ++ samples.now) result }
        ensures count { result.count ≤ self.count + 1920 }
    {
        let dropped = self.dropping.min(samples.len());
        let (_, heard) = samples.split_at(dropped);
        Tally {
            dropping: self.dropping - dropped,
            count: self.count + heard.len() as u64,
            sum: sum_over(self.sum, heard),
        }
    }

    /// How many pairs came out.
    pub fn pairs(self) -> u64
        ensures { result ≡ self.count / 2 }
    {
        self.count / 2
    }

    /// The sum over the samples that came out.
    pub fn sum(self) -> u32
        ensures { result ≡ self.sum }
    {
        self.sum
    }
}
