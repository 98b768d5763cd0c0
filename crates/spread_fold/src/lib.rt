//! Spreading, folding and the noise of bands without pulses, and the two channels of a stereo band (RFC 6716,
//! sections 4.3.4.3 to 4.3.4.5). Lists hold at most 176 items, the longest band; shapes are in units of 2^-14.
//! Every call is a whole-number formula; none takes memory.
#![tactic(auto)]

mod calm;
mod laws;
mod masks;
mod neighbours;
mod noise_items;
mod spreading;
mod stereo;
#[cfg(test)]
mod tests;

pub use laws::{law_distance, law_mask};
pub use masks::mask_of;
pub use noise_items::{fold, noise_fill};
pub use spreading::rotate;
pub use stereo::merge;
