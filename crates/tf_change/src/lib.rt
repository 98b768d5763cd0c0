//! Changes of the resolution in time and in frequency of a band (RFC 6716, section 4.3.4.5): the Haar step
//! between neighbouring runs, and the two orders of the coefficients of short blocks. Lists hold at most 176
//! items, the longest band. Every call is a whole-number formula; none takes memory.
#![tactic(auto)]

mod block_order;
mod haar_step;
mod laws;
#[cfg(test)]
mod tests;

pub use block_order::{order, unorder};
pub use haar_step::haar;
pub use laws::{law_haar, law_haar_growth, law_order, law_rows};
