//! Rows of what is wanted, worked by hand.
ghost use Rattle.std.specs.Prelude.{◌≡◌, ◌<◌, ◌≤◌};
ghost use Rattle.celt_base.specs.Energies.{IsEnergy, AreEnergies};
ghost use Rattle.band_energy.specs.WantedEnergies.{IsTarget};

use super::{
    EnergyPlace, LogEnergy, energy_by_coarse, energy_by_fine, wanted_coarse, wanted_fine,
    wanted_last,
};
use celt_base::kind::Kind;

// The energy of a band, and what is wanted and comes of it.
#[derive(Clone, Copy)]
struct Row {
    toc: u8,
    intra: bool,
    band: u8,
    // Each energy of the frame before, each coarse value of the bands below, and the target.
    old: i64,
    below: i16,
    target: i64,
    // What is wanted of the coarse energy, and the energy with that value.
    coarse: i16,
    by_coarse: i64,
    // The bits and the number of the fine energy that is wanted, the energy with it, and the last bit that is wanted.
    bits: u32,
    fine: u8,
    by_fine: i64,
    last: i64,
    ghost inside: { band < 21 },
    ghost is_energy: { IsEnergy old },
    ghost is_target: { IsTarget target },
    ghost few: { bits ≤ 8 },
}

// Energies that are all the same.
fn energies_of(old: i64) -> [[i64; 21]; 2]
    requires { IsEnergy old }
    ensures { AreEnergies result }
{
    [[old; 21]; 2]
}

// Whether the calls come to the numbers of the row.
fn comes_to(row: &Row) -> bool {
    let Some(kind) = Kind::of_toc(row.toc) else {
        return false;
    };
    let at = EnergyPlace {
        kind,
        intra: row.intra,
        channel: 0,
        band: row.band,
    };
    let old = energies_of(row.old);
    let mut values = [[row.below; 21]; 2];
    let target = LogEnergy { value: row.target };
    let coarse = wanted_coarse(at, &old, &values, target);
    values[0][usize::from(row.band)] = row.coarse;
    let by_coarse = energy_by_coarse(at, &old, &values);
    let fine = wanted_fine(target, by_coarse, row.bits);
    let by_fine = energy_by_fine(by_coarse, row.bits, row.fine);
    coarse.value == i64::from(row.coarse)
        && by_coarse.value == row.by_coarse
        && fine.value == i64::from(row.fine)
        && by_fine.value == row.by_fine
        && wanted_last(target, by_fine).value == row.last
}

// Two intra frames, the first with two values as near; a band over another one; and energies at the least.
#[test]
fn wanted_energies(rt: HostRuntime) {
    let rows = [
        Row {
            toc: 0xf8,
            intra: true,
            band: 0,
            old: 5000,
            below: 7,
            target: 1536,
            coarse: 2,
            by_coarse: 2048,
            bits: 1,
            fine: 0,
            by_fine: 1792,
            last: 0,
        },
        Row {
            toc: 0xe0,
            intra: true,
            band: 0,
            old: -28672,
            below: 0,
            target: -1537,
            coarse: -2,
            by_coarse: -2048,
            bits: 3,
            fine: 7,
            by_fine: -1600,
            last: 1,
        },
        Row {
            toc: 0xf8,
            intra: false,
            band: 1,
            old: 1024,
            below: 3,
            target: 4096,
            coarse: 1,
            by_coarse: 3994,
            bits: 1,
            fine: 1,
            by_fine: 4250,
            last: 0,
        },
        Row {
            toc: 0xe0,
            intra: false,
            band: 0,
            old: -28672,
            below: 0,
            target: -28672,
            coarse: -20,
            by_coarse: -28672,
            bits: 2,
            fine: 2,
            by_fine: -28544,
            last: 0,
        },
    ];
    for (k, row) in rows.iter().enumerate() {
        assert!(rt; comes_to(row), "row {k}");
    }
}
