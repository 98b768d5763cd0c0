//! What is wanted of the answers of the energies, by what was answered so far.
ghost use Rattle.std.specs.Prelude.{◌≡◌, ◌^◌, ◌<◌, ◌≤◌, min, unsigned_abs, pos, [], get_or};
ghost use Rattle.band_energy.specs.WantedEnergies.{IsTarget};
ghost use Rattle.celt_base.specs.Energies.{IsEnergy};
ghost use Rattle.celt_encode.specs.EnergiesWanted.{target_at, coarse_energy, fine_energy, coarse_wanted, fine_wanted, last_wanted};
ghost use Rattle.celt_encode.specs.Outsets.{outset_of};

use crate::answers::Answers;
use crate::frame::Frame;
use band_energy::{
    EnergyPlace, LogEnergy, energy_by_coarse, energy_by_fine, wanted_coarse, wanted_fine,
    wanted_last,
};

// Where an energy stands.
fn place(frame: &Frame, answers: &Answers, channel: u8, band: u8) -> EnergyPlace
    ensures kind { result.kind ≡ frame.now.kind }
    ensures intra { result.intra ≡ answers.now.intra }
    ensures channel { result.channel ≡ channel }
    ensures band { result.band ≡ band }
{
    EnergyPlace {
        kind: frame.kind,
        intra: answers.intra,
        channel,
        band,
    }
}

// The energy that is wanted of a band.
fn target(frame: &Frame, channel: u8, band: u8) -> LogEnergy
    requires channel { channel < 2 }
    requires band { band < 21 }
    ensures value { result.value ≡ target_at (outset_of frame.now) channel band }
    ensures size { IsTarget result.value }
{
    LogEnergy {
        value: frame.targets[channel as usize][band as usize],
    }
}

// The energy by the coarse answers.
fn coarse(frame: &Frame, answers: &Answers, channel: u8, band: u8) -> LogEnergy
    requires channel { channel < 2 }
    requires band { band < 21 }
    ensures value { result.value ≡ coarse_energy (outset_of frame.now) answers.now channel band }
    ensures energy { IsEnergy result.value }
{
    energy_by_coarse(
        place(frame, answers, channel, band),
        &frame.energies,
        &answers.coarse,
    )
}

// The energy by the coarse and the fine answers.
fn fine(frame: &Frame, answers: &Answers, channel: u8, band: u8) -> LogEnergy
    requires channel { channel < 2 }
    requires band { band < 21 }
    ensures value { result.value ≡ fine_energy (outset_of frame.now) answers.now channel band }
    ensures size { unsigned_abs result.value ≤ 2 ^ 34 }
{
    let bits = answers.bits[channel as usize][band as usize].min(8);
    let answer = answers.fine[channel as usize][band as usize];
    energy_by_fine(coarse(frame, answers, channel, band), bits, answer)
}

/// What is wanted of a coarse energy.
#[tactic(auto, unfolding(crate::specs::EnergiesWanted::coarse_wanted))]
pub fn coarse_number(frame: &Frame, answers: &Answers, channel: u8, band: u8) -> i64
    ensures { result ≡ coarse_wanted (outset_of frame.now) answers.now channel band }
{
    if channel < 2 && band < 21 {
        let at = place(frame, answers, channel, band);
        let wanted = wanted_coarse(
            at,
            &frame.energies,
            &answers.coarse,
            target(frame, channel, band),
        );
        return wanted.value;
    }
    0
}

/// What is wanted of a fine energy of so many bits.
#[tactic(auto, unfolding(crate::specs::EnergiesWanted::fine_wanted))]
pub fn fine_number(frame: &Frame, answers: &Answers, channel: u8, band: u8, bits: u32) -> i64
    ensures { result ≡ fine_wanted (outset_of frame.now) answers.now channel band bits }
{
    if channel < 2 && band < 21 {
        let energy = coarse(frame, answers, channel, band);
        let wanted = wanted_fine(target(frame, channel, band), energy, bits.min(8));
        return wanted.value;
    }
    0
}

/// What is wanted of a final bit of an energy.
#[tactic(auto, unfolding(crate::specs::EnergiesWanted::last_wanted))]
pub fn last_number(frame: &Frame, answers: &Answers, channel: u8, band: u8) -> i64
    ensures { result ≡ last_wanted (outset_of frame.now) answers.now channel band }
{
    if channel < 2 && band < 21 {
        let energy = fine(frame, answers, channel, band);
        let wanted = wanted_last(target(frame, channel, band), energy);
        return wanted.value;
    }
    0
}
