//! How the bits of a frame are spread over its bands (RFC 6716, section 4.3.3). A decoder and its encoder compute it
//! alike from what is left of the frame, the boosts and the trim, and from the answers of at most 22 questions: which of
//! the upper bands are skipped, where intensity stereo begins, and dual stereo. Amounts are in eighths of a bit. No call
//! takes memory.
#![tactic(auto)]

mod allocating;
mod amounts;
mod answering;
mod bands;
mod counting;
mod laws;
mod plan;
mod planning;
mod request;
mod searching;
mod skipping;
mod splitting;
mod stereo;
#[cfg(test)]
mod tests;
mod turns;

pub use allocating::allocate;
pub use laws::{law_balance, law_counts_rise, law_greatest, law_questions, law_split, law_total};
