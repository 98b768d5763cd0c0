//! The walk of the bands of a frame: how each band is split, by which angles, and which vectors its parts have (RFC 6716,
//! sections 4.3.4 and 4.4). Amounts are in eighths of a bit. No call takes memory.
#![tactic(auto)]

mod angles;
mod channels;
mod laws;
mod orders;
mod parts;
mod pieces;
mod plans;
mod stereo;
mod symbols;
mod thetas;

pub use laws::{law_changes, law_nodes, law_parts, law_questions, law_trees};
pub use plans::{blocks, walk_bands};
pub use symbols::{BandSettings, BandSymbols, Node};
