//! What an encoder hears in a frame: what is known of it before its first question, by its analysis.
ghost use Rattle.std.specs.Prelude.{◌≡◌, ◌+◌, ◌*◌, ◌^◌, ◌<◌, ◌≤◌, int_le, pos, ◌-ℤ◌, ◌*ℤ◌, unsigned_abs, All, length, Some, false};
ghost use Rattle.fixed_math.specs.Items.{listed};
ghost use Rattle.celt_analysis.specs.Analyses.{height_in, target_in};
ghost use Rattle.celt_encode.specs.Listening.{targets_for, stands_out, boosts_for, rise_of, trim_for, settled};
ghost use Rattle.celt_encode.specs.Outsets.{outset_of};

use crate::frame::Frame;
use crate::spreads::spread;
use crate::units::{dual, put_units};
use celt_analysis::Analysis;
use celt_base::kind::Kind;

// The energies of a channel that are wanted.
fn targets_in(a: &Analysis, channel: u8) -> [i64; 21]
    requires { channel < 2 }
    ensures value { result ≡ listed 21 (target_in a.now channel) }
    ensures sizes { All (λ v. unsigned_abs v ≤ 2 ^ 16) result }
{
    let mut row = [0; 21];
    for band in 0..21u8 {
        row[band as usize] = a.target(channel, band);
    }
    row
}

// The energies that are wanted.
fn targets(a: &Analysis) -> [[i64; 21]; 2]
    ensures value { result ≡ targets_for a.now }
    ensures sizes { All (λ row. All (λ v. unsigned_abs v ≤ 2 ^ 16) row) result }
{
    [targets_in(a, 0), targets_in(a, 1)]
}

// Whether a height is above the mean of two others by 3072 or more.
fn is_above(height: i64, below: i64, behind: i64) -> bool
    requires height { unsigned_abs height < 2 ^ 15 }
    requires below { unsigned_abs below < 2 ^ 15 }
    requires behind { unsigned_abs behind < 2 ^ 15 }
    ensures { result ≡ int_le (pos 6144) (pos 2 *ℤ height -ℤ below -ℤ behind) }
{
    2 * height - below - behind >= 6144
}

// Whether a band stands out.
#[tactic(auto, unfolding(crate::specs::Listening::stands_out))]
fn stands_out(kind: Kind, a: &Analysis, band: u8) -> bool
    requires { band < 21 }
    ensures { result ≡ stands_out kind.end (height_in a.now) band }
{
    if band == 0 || band >= kind.end - 1 {
        return false;
    }
    is_above(a.height(band), a.height(band - 1), a.height(band + 1))
}

// The bands that are to be boosted.
fn boosts(kind: Kind, a: &Analysis) -> [bool; 21]
    ensures { result ≡ boosts_for kind a.now }
{
    let mut boosts = [false; 21];
    for band in 0..21u8 {
        boosts[band as usize] = stands_out(kind, a, band);
    }
    boosts
}

// A height, as often as twice the way of its band from the middle.
fn lever(height: i64, kind: Kind, band: u8) -> i64
    requires height { unsigned_abs height < 2 ^ 15 }
    requires band { band < kind.end }
    ensures value { result ≡ height *ℤ (pos (2 * band + 1) -ℤ pos kind.end) }
    ensures size { unsigned_abs result ≤ 2 ^ 21 }
{
    height * (2 * i64::from(band) + 1 - i64::from(kind.end))
}

// How the heights rise.
fn rise(kind: Kind, a: &Analysis) -> i64
    ensures value { result ≡ rise_of kind.end (height_in a.now) }
    ensures size { unsigned_abs result ≤ 2 ^ 26 }
{
    let mut sum: i64 = 0;
    for band in 0..kind.end {
        sum += lever(a.height(band), kind, band);
    }
    sum
}

// The tilt of the allocation that is wanted.
#[tactic(auto, unfolding(crate::specs::Listening::trim_for))]
fn trim(kind: Kind, a: &Analysis) -> i64
    ensures { result ≡ trim_for kind a.now }
{
    let tilt = rise(kind, a) / (6144 * (i64::from(kind.end) - 1));
    5 - tilt.clamp(-2, 2)
}

/// Takes from the analysis of a frame what is known before its first question. The kind, the bytes, whether a frame was made
/// before and the energies after it stay as they are.
pub fn settle(frame: &mut Frame, a: &Analysis)
    requires kind { a.now.kind ≡ Some frame.old.kind }
    ensures settled { outset_of frame.new ≡ settled (outset_of frame.old) a.now }
{
    let kind = frame.kind;
    frame.silent = a.silent();
    frame.transient = a.transient();
    frame.setting = a.setting();
    frame.spread = spread(kind, a);
    frame.boosts = boosts(kind, a);
    frame.trim = trim(kind, a);
    frame.targets = targets(a);
    put_units(&mut frame.units, kind, a);
    frame.dual = dual(kind, &frame.units);
}
