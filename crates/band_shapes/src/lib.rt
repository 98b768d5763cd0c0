//! The shapes of a frame's bands (RFC 6716, sections 4.3.4.3 to 4.3.4.5): vectors of unit length from the symbols of the bands,
//! in units of 2^-14. A `ShapeRoom` takes all memory; `shapes` takes none.
#![tactic(auto)]

mod bands;
mod change;
mod channels;
mod copies;
mod duos;
mod frame;
mod laws;
mod leaves;
mod node;
mod pairs;
mod parts;
mod plans;
mod room;
mod sides;

pub use frame::shapes;
pub use laws::{law_copy, law_inversion};
pub use room::ShapeRoom;
