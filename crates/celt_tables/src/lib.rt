//! The tables of CELT (RFC 6716, section 4.3): the bands, their greatest and usual amounts of bits, their energies, their
//! changes of resolution, and the window of the transform.
#![tactic(auto)]

pub mod bands;
pub mod bits;
pub mod energies;
mod laws;
pub mod resolution;
pub mod symbols;
#[cfg(test)]
mod tests;
pub mod window;

pub use bands::{coefficients, edge, size, width};
pub use bits::cap;
pub use energies::coarse_question;
pub use laws::{
    law_allocation, law_caps, law_edges, law_energy_models, law_table_lengths, law_tables,
    law_window,
};
pub use resolution::tf_of;
