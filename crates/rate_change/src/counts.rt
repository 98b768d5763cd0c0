//! How many samples at 48000 Hz come of how many samples of input.
ghost use Rattle.std.specs.Prelude.{◌≡◌, ◌^◌, ◌<◌};
ghost use Rattle.rate_change.specs.Rates.{outputs_of, AreReady};

use crate::ratio::Ratio;

/// How many samples come of `m` samples in one channel, which are fewer than 2^40.
pub fn outputs(r: Ratio, m: u64) -> u64
    requires { m < 2 ^ 40 }
    ensures { result ≡ outputs_of r.up r.down m }
{
    (m * u64::from(r.up) + u64::from(r.down - 1)) / u64::from(r.down)
}

/// How many of them, from the first on, no later sample of the input changes.
pub fn ready(r: Ratio, m: u64) -> u64
    requires { m < 2 ^ 40 }
    ensures { AreReady r.up r.down m result }
{
    if r.up == 1 {
        outputs(r, m)
    } else {
        outputs(r, m.saturating_sub(16))
    }
}
