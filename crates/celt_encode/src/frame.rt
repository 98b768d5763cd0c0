//! What an encoder knows of a frame before its first question.
ghost use Rattle.std.specs.Prelude.{◌≡◌, ◌^◌, ◌≤◌, pos, replicate, unsigned_abs, All};
ghost use Rattle.celt_base.specs.Energies.{AreEnergies};

use celt_base::kind::Kind;
use celt_base::state::Setting;

/// What is known of a frame before its first question.
#[derive(Drop)]
pub struct Frame {
    pub kind: Kind,
    /// The number of its bytes.
    pub len: u32,
    /// No frame was made before.
    pub first: bool,
    pub silent: bool,
    pub transient: bool,
    /// The setting of the post-filter.
    pub setting: Setting,
    /// The spreading that is wanted.
    pub spread: u32,
    /// Whether dual stereo is wanted.
    pub dual: bool,
    /// The bands that are to be boosted.
    pub boosts: [bool; 21],
    /// The tilt of the allocation that is wanted.
    pub trim: i64,
    /// The energies after the frame before, log2 in units of 2^-10.
    pub energies: [[i64; 21]; 2],
    /// The energies that are wanted, in the same units.
    pub targets: [[i64; 21]; 2],
    /// The spectrum of each channel, each band of length 2^14, or 0.
    pub units: [[i64; 800]; 2],
    ghost bounded: { AreEnergies energies },
    ghost targets_small: { All (λ row. All (λ v. unsigned_abs v ≤ 2 ^ 16) row) targets },
    ghost small: { All (λ row. All (λ v. unsigned_abs v ≤ 2 ^ 14) row) units },
}

// Energies of 0.
fn no_energies() -> [[i64; 21]; 2]
    ensures value { result ≡ replicate 2 (replicate 21 (pos 0)) }
    ensures energies { AreEnergies result }
    ensures sizes { All (λ row. All (λ v. unsigned_abs v ≤ 2 ^ 16) row) result }
{
    [[0; 21]; 2]
}

// Spectra of 0.
fn no_units() -> [[i64; 800]; 2]
    ensures value { result ≡ replicate 2 (replicate 800 (pos 0)) }
    ensures sizes { All (λ row. All (λ v. unsigned_abs v ≤ 2 ^ 14) row) result }
{
    [[0; 800]; 2]
}

impl Frame {
    /// A frame of which nothing is known but its kind.
    pub fn new(kind: Kind) -> Frame
        ensures { result.kind ≡ kind }
    {
        Frame {
            kind,
            len: 0,
            first: true,
            silent: true,
            transient: false,
            setting: Setting::off(),
            spread: 2,
            dual: false,
            boosts: [false; 21],
            trim: 5,
            energies: no_energies(),
            targets: no_energies(),
            units: no_units(),
        }
    }
}
