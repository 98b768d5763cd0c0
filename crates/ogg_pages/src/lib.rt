//! Ogg pages (RFC 3533, section 6): reading them from bytes, and writing one.
#![tactic(auto)]

pub mod checksum;
pub mod laws;
pub mod page;
pub mod reader;
#[cfg(test)]
mod tests;
pub mod view;
pub mod writer;
