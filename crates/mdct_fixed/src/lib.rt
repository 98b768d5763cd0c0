//! The modified discrete cosine transform of CELT (RFC 6716, section 4.3.7), by exact whole-number formulas: a complex
//! Fourier transform of N/2 items between two turns, and the window. Every product is rounded once. No call takes memory.
#![tactic(auto)]

mod complex;
mod digits;
mod folding;
mod forward_transform;
mod fourier;
mod inverse_transform;
mod joins;
mod laws;
mod rows;
#[cfg(test)]
mod tests;
mod turns;
mod windowing;

pub use digits::reverse_digits;
pub use forward_transform::{forward, forward_with};
pub use inverse_transform::{inverse, inverse_with};
pub use joins::join_runs;
pub use laws::{law_fourier, law_growth, law_joins, law_kernel, law_plans};
