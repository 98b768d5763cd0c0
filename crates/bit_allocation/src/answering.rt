//! The questions of stereo (RFC 6716, section 4.3.3).
ghost use Rattle.std.specs.Prelude.{◌≡◌, ◌+◌, ◌<◌, ◌≤◌, false};
ghost use Rattle.bit_allocation.specs.Facts.{IsPlan, IsStereo};
ghost use Rattle.bit_allocation.specs.Scripts.{intensity_script, dual_script, stereo_script};
ghost use Rattle.celt_base.specs.Walks.{Walked};

use crate::plan::Plan;
use crate::stereo::Stereo;
use celt_base::coder::{Chooser, Coder, Place};
use celt_base::question::Question;
use celt_base::walk::{ask_at, ask_bit};

// Asks for the first intensity band of so many coded ones.
fn ask_intensity<C: Coder, H: Chooser>(
    coder: &mut C,
    chooser: &mut H,
    plan: &Plan,
    coded: u32,
) -> u32
    requires some { 1 ≤ coded }
    requires most { coded ≤ 21 }
    requires few { C.calls.count coder.old < 4096 }
    ensures walked { Walked C.calls H.calls (intensity_script plan.now coded) result coder.old chooser.old coder.new chooser.new }
    ensures within { result ≤ coded }
    ensures none { plan.now.reserves.intensity ≡ 0 → result ≡ 0 }
    ensures count { C.calls.count coder.new ≤ C.calls.count coder.old + 1 }
{
    if plan.reserves.intensity == 0 {
        return 0;
    }
    let at = Place::Intensity { coded };
    ask_at(coder, chooser, at, Question::Uniform(coded + 1)) as u32
}

// Asks whether the bands below the first intensity band are in dual stereo.
fn ask_dual<C: Coder, H: Chooser>(
    coder: &mut C,
    chooser: &mut H,
    plan: &Plan,
    intensity: u32,
) -> bool
    requires few { C.calls.count coder.old < 4096 }
    ensures walked { Walked C.calls H.calls (dual_script plan.now intensity) result coder.old chooser.old coder.new chooser.new }
    ensures none { intensity ≡ 0 → result ≡ false }
    ensures count { C.calls.count coder.new ≤ C.calls.count coder.old + 1 }
{
    if intensity == 0 || plan.reserves.dual == 0 {
        return false;
    }
    ask_bit(coder, chooser, Place::Dual, 1)
}

/// Asks where intensity stereo begins, and whether the bands below are in dual stereo. At most two questions are asked.
pub fn ask_stereo<C: Coder, H: Chooser>(
    coder: &mut C,
    chooser: &mut H,
    plan: &Plan,
    coded: u32,
) -> Stereo
    requires plan { IsPlan plan.now }
    requires some { 1 ≤ coded }
    requires most { coded ≤ 21 }
    requires few { C.calls.count coder.old + 2 ≤ 4096 }
    ensures walked { Walked C.calls H.calls (stereo_script plan.now coded) result coder.old chooser.old coder.new chooser.new }
    ensures is { IsStereo plan.now coded result }
    ensures count { C.calls.count coder.new ≤ C.calls.count coder.old + 2 }
{
    let intensity = ask_intensity(coder, chooser, plan, coded);
    let dual = ask_dual(coder, chooser, plan, intensity);
    Stereo { intensity, dual }
}
