//! Frames of different lengths at one rate: a reservoir, which answers each frame's wish with a length, and a budget,
//! which tests whether a list of lengths keeps to one. A frame may have L bytes and those that the frames before it
//! left, R of them at most. With L = 80 and R = 400 the wishes 70, 70, 160 get 70, 70 and 100 bytes: of the 160 there
//! are 80 and twice 10. So any m frames in a row have at most m·L + R bytes. No call takes memory.
#![tactic(auto)]

mod budget;
mod laws;
mod reservoir;
#[cfg(test)]
mod tests;

pub use budget::Budget;
pub use laws::{law_budget, law_keeps, law_lengths};
pub use reservoir::Reservoir;
