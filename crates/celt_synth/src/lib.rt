//! The frame step of a CELT decoder (RFC 6716, sections 4.3.5 to 4.3.7): from the symbols and shapes of a frame to the next
//! state and the samples.
#![tactic(auto)]

mod amplitude;
mod anti_collapse;
mod blocks;
mod channels;
mod collapse;
mod concealment;
mod decoder;
mod filters;
#[cfg(test)]
mod given;
mod laws;
mod rows;
mod sharing;
mod signals;
mod streams;
#[cfg(test)]
mod tests;

pub use decoder::Decoder;
pub use laws::{law_frame, law_inversion, law_left, law_share, law_shared};
pub use rows::take_greater;
pub use sharing::share;
