//! The energies of a frame's bands (RFC 6716, section 4.3.2): the questions of the coarse energies, of the fine ones and of
//! their last bits, walked over any coder and any chooser, and the energies that come of the answers.
#![tactic(auto)]

mod coarse_walk;
mod energy;
#[cfg(test)]
mod extreme_rows;
#[cfg(test)]
mod extreme_tests;
mod fine_walk;
mod last_walk;
mod laws;
#[cfg(test)]
mod tests;
mod values;
mod wanted;
#[cfg(test)]
mod wanted_tests;

pub use coarse_walk::coarse;
pub use energy::Energy;
pub use fine_walk::fine;
pub use last_walk::last;
pub use laws::{
    law_energy_entries, law_energy_questions, law_intra_energies, law_last_bits,
    law_single_energies, law_wanted_energies,
};
pub use values::apply;
pub use wanted::{
    EnergyPlace, LogEnergy, Wanted, energy_by_coarse, energy_by_fine, wanted_coarse, wanted_fine,
    wanted_last,
};
