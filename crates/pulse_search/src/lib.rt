//! Two choices of the encoder: the vector of pulses for a band's part (RFC 6716, section 5.3.8.1), and the
//! angle by which a band is split (sections 4.3.4.4 and 5.3.5). The standard leaves both to the encoder, and a
//! decoder needs neither. No call takes memory.
#![tactic(auto)]

mod angles;
mod pulses;
#[cfg(test)]
mod tests;

pub use angles::{angle, law_angle, law_angle_order};
pub use pulses::{law_best_place, law_pulses, search};
