//! The types that every crate of `celt` shares: statuses and faults, the outside (sources of bytes,
//! sinks of bytes, gates), the kind of a CELT frame, the questions of its range coder, and the walks that ask them.
#![tactic(auto)]

pub mod coder;
pub mod halves;
#[cfg(test)]
mod halves_tests;
pub mod held;
pub mod kind;
pub mod laws;
pub mod memory;
pub mod outside;
pub mod question;
pub mod standard;
pub mod state;
pub mod status;
#[cfg(test)]
mod tests;
pub mod walk;
pub mod walk_laws;
