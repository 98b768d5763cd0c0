//! What an encoder wants of the answers of the energies (RFC 6716, section 4.3.2): those that bring a band's energy nearest to
//! its target. Targets and energies are log2 in units of 2^-10.
ghost use Rattle.std.specs.Prelude.{◌≡◌, ◌+◌, ◌-◌, ◌*◌, ◌^◌, ◌<◌, ◌≤◌, ◌+ℤ◌, ◌-ℤ◌, ◌*ℤ◌, ◌≤ℤ◌, pos, neg_ℤ, unsigned_abs, get_or, []};
ghost use Rattle.std.specs.Int.{int_shr};
ghost use Rattle.celt_base.specs.Energies.{IsEnergy, AreEnergies};
ghost use Rattle.band_energy.specs.EnergyValues.{carried, kept_of, energy_from};
ghost use Rattle.band_energy.specs.WantedEnergies.{IsTarget, predicted, energy_by_coarse, wanted_coarse, energy_by_fine, wanted_fine, wanted_last};

use crate::values::{alpha, beta, energy_from, kept};
use celt_base::kind::Kind;

/// Which energy is coded, of a frame of this kind.
#[derive(Clone, Copy, Debug, PartialEq, Eq)]
pub struct EnergyPlace {
    /// The frame's kind.
    pub kind: Kind,
    /// Whether the coarse energies are coded without the frame before.
    pub intra: bool,
    /// 0 or 1.
    pub channel: u8,
    /// Below 21.
    pub band: u8,
}

/// An energy or a target: log2 in units of 2^-10.
#[derive(Clone, Copy, Debug, PartialEq, Eq)]
pub struct LogEnergy {
    /// Its value.
    pub value: i64,
}

/// What is wanted of an answer: of a coarse energy the value in steps of 6 dB, of a fine energy its number, of a last bit 0
/// or 1.
#[derive(Clone, Copy, Debug, PartialEq, Eq)]
pub struct Wanted {
    /// Its value.
    pub value: i64,
}

// A sum in units of 2^-17.
#[derive(Clone, Copy)]
struct Sum {
    value: i64,
}

// A coarse value.
#[derive(Clone, Copy)]
struct Steps {
    value: i16,
}

// A coarse value of a channel.
fn steps_of(values: &[i16; 21], band: usize) -> Steps
    requires { band < 21 }
    ensures { result.value ≡ get_or values.now band (pos 0) }
{
    Steps {
        value: values[band],
    }
}

// What is carried to the band above one with this coarse value.
fn carry_more(beta: u32, carried: Sum, coarse: Steps) -> Sum
    requires beta { beta ≤ 2 ^ 15 }
    requires carried { unsigned_abs carried.value ≤ 20 * 2 ^ 32 }
    ensures value { result.value ≡ carried.value +ℤ pos (2 ^ 17 - 4 * beta) *ℤ coarse.value }
    ensures size { unsigned_abs result.value ≤ unsigned_abs carried.value + 2 ^ 32 }
{
    Sum {
        value: carried.value + i64::from((1 << 17) - 4 * beta) * i64::from(coarse.value),
    }
}

// What the coarse values of the bands below leave to a band.
fn carried_to(beta: u32, values: &[i16; 21], band: usize) -> Sum
    requires beta { beta ≤ 2 ^ 15 }
    requires band { band < 21 }
    ensures value { result.value ≡ carried beta values.now band }
    ensures size { unsigned_abs result.value ≤ 20 * 2 ^ 32 }
{
    let mut sum = Sum { value: 0 };
    for below in 0..band {
        sum = carry_more(beta, sum, steps_of(values, below));
    }
    sum
}

// The energy of the frame before.
fn energy_before(old: &[[i64; 21]; 2], channel: u8, band: u8) -> LogEnergy
    requires energies { AreEnergies old.now }
    requires channel { channel < 2 }
    requires band { band < 21 }
    ensures value { result.value ≡ get_or (get_or old.now channel []) band (pos 0) }
    ensures energy { IsEnergy result.value }
{
    LogEnergy {
        value: old[usize::from(channel)][usize::from(band)],
    }
}

// What is kept of the energy before in time.
fn kept_from(alpha: u32, old: LogEnergy) -> Sum
    requires alpha { alpha ≤ 29440 }
    requires old { IsEnergy old.value }
    ensures value { result.value ≡ kept_of alpha old.value }
    ensures least { neg_ℤ (pos (2 ^ 21)) ≤ℤ result.value }
    ensures most { result.value ≤ℤ pos (115 * 2 ^ 33) }
{
    Sum {
        value: kept(alpha, old.value),
    }
}

// What a coarse value of 0 comes to.
fn predicted(at: EnergyPlace, old: &[[i64; 21]; 2], coarse: &[[i16; 21]; 2]) -> Sum
    requires energies { AreEnergies old.now }
    requires channel { at.channel < 2 }
    requires band { at.band < 21 }
    ensures value { result.value ≡ predicted at.kind at.intra old.now coarse.now at.channel at.band }
    ensures least { neg_ℤ (pos (21 * 2 ^ 32)) ≤ℤ result.value }
    ensures most { result.value ≤ℤ pos (125 * 2 ^ 33) }
{
    let before = energy_before(old, at.channel, at.band);
    let kept = kept_from(alpha(at.kind.lm, at.intra), before);
    let carried = carried_to(
        beta(at.kind.lm, at.intra),
        &coarse[usize::from(at.channel)],
        usize::from(at.band),
    );
    Sum {
        value: kept.value + carried.value,
    }
}

// The number of steps nearest to what lies between a prediction and a target.
fn steps_between(predicted: Sum, target: LogEnergy) -> Wanted
    requires least { neg_ℤ (pos (21 * 2 ^ 32)) ≤ℤ predicted.value }
    requires most { predicted.value ≤ℤ pos (125 * 2 ^ 33) }
    requires target { IsTarget target.value }
    ensures { result.value ≡ int_shr (target.value *ℤ pos 128 -ℤ predicted.value +ℤ pos (2 ^ 16)) 17 }
{
    Wanted {
        value: (target.value * 128 - predicted.value + (1 << 16)) >> 17,
    }
}

// The energy of a prediction and a coarse value.
fn energy_with(predicted: Sum, coarse: Steps) -> LogEnergy
    requires least { neg_ℤ (pos (21 * 2 ^ 32)) ≤ℤ predicted.value }
    requires most { predicted.value ≤ℤ pos (125 * 2 ^ 33) }
    ensures value { result.value ≡ energy_from (predicted.value +ℤ coarse.value *ℤ pos (2 ^ 17)) }
    ensures least { neg_ℤ (pos 28672) ≤ℤ result.value }
    ensures most { result.value ≤ℤ pos (126 * 2 ^ 26) }
{
    LogEnergy {
        value: energy_from(predicted.value + i64::from(coarse.value) * (1 << 17)),
    }
}

/// The coarse value that is wanted at a place: the whole number of steps nearest to what lies between the prediction and the
/// target, the upper one where two are as near. `old` are the energies of the frame before, and `coarse` are the values so
/// far, of which those of the channel's bands below count.
pub fn wanted_coarse(
    at: EnergyPlace,
    old: &[[i64; 21]; 2],
    coarse: &[[i16; 21]; 2],
    target: LogEnergy,
) -> Wanted
    requires energies { AreEnergies old.now }
    requires channel { at.channel < 2 }
    requires band { at.band < 21 }
    requires target { IsTarget target.value }
    ensures { result.value ≡ wanted_coarse at.kind at.intra old.now coarse.now at.channel at.band target.value }
{
    steps_between(predicted(at, old, coarse), target)
}

/// The energy at a place by the coarse values of its band and of those below. `old` are the energies of the frame before.
pub fn energy_by_coarse(at: EnergyPlace, old: &[[i64; 21]; 2], coarse: &[[i16; 21]; 2]) -> LogEnergy
    requires energies { AreEnergies old.now }
    requires channel { at.channel < 2 }
    requires band { at.band < 21 }
    ensures value { result.value ≡ energy_by_coarse at.kind at.intra old.now coarse.now at.channel at.band }
    ensures energy { IsEnergy result.value }
{
    let steps = steps_of(&coarse[usize::from(at.channel)], usize::from(at.band));
    energy_with(predicted(at, old, coarse), steps)
}

/// The energy with a fine energy of so many bits.
pub fn energy_by_fine(energy: LogEnergy, bits: u32, fine: u8) -> LogEnergy
    requires energy { IsEnergy energy.value }
    requires bits { bits ≤ 8 }
    ensures value { result.value ≡ energy_by_fine energy.value bits fine }
    ensures size { unsigned_abs result.value ≤ 2 ^ 34 }
{
    let part = i64::from((u32::from(fine) * 1024 + 512) >> bits) - 512;
    LogEnergy {
        value: energy.value + part,
    }
}

/// The fine energy of so many bits that is wanted: the part of the step around the energy in which the target lies. It may be
/// no number of so many bits.
pub fn wanted_fine(target: LogEnergy, energy: LogEnergy, bits: u32) -> Wanted
    requires target { IsTarget target.value }
    requires energy { IsEnergy energy.value }
    requires bits { bits ≤ 8 }
    ensures { result.value ≡ wanted_fine target.value energy.value bits }
{
    Wanted {
        value: ((target.value - energy.value + 512) * i64::from(1u32 << bits)) >> 10,
    }
}

/// The last bit that is wanted: 1 exactly where the target is not below the energy.
pub fn wanted_last(target: LogEnergy, energy: LogEnergy) -> Wanted
    requires target { IsTarget target.value }
    requires energy { unsigned_abs energy.value ≤ 2 ^ 34 }
    ensures { result.value ≡ wanted_last target.value energy.value }
{
    if target.value >= energy.value {
        return Wanted { value: 1 };
    }
    Wanted { value: 0 }
}
