//! The encoder of a frame (RFC 6716, section 5.3): from the analysis of a frame and what encoder and decoder share after the
//! frame before to the frame's bytes. `Encoder::new` alone takes memory.
#![tactic(auto)]

mod answers;
mod changes;
mod choice;
mod encoder;
mod energies;
mod frame;
mod guard_laws;
mod laws;
mod leaves;
mod listening;
mod listening_laws;
#[cfg(test)]
mod listening_tests;
mod numbers;
mod rooms;
#[cfg(test)]
mod rows;
mod spreads;
#[cfg(test)]
mod tests;
mod units;
mod vectors;
mod writing;

pub use encoder::Encoder;
pub use guard_laws::{law_entered, law_outsets, law_places, law_room, law_wanted};
pub use laws::{law_choice, law_code, law_kept, law_nearest, law_read};
pub use listening_laws::{law_listening, law_unit_vectors};
