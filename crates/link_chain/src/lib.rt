//! The place in a chain of streams that follow one another in one file, its links (RFC 7845, section 3). The place
//! of the next page is the number of its link, its own number, and that of the first audio packet that ends on it,
//! all counted from 0 at the start of the file: behind a link of three pages with one packet it is (1, 3, 1). No
//! call takes memory.
#![tactic(auto)]

mod chain;
mod laws;
#[cfg(test)]
mod tests;

pub use chain::{Chain, LinkPlace};
pub use laws::{law_chain, law_starts};
