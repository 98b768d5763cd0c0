//! The side of WAV files: the header of one that is read, in pieces of any size, the header of one that
//! is written, and the samples between them, 16-bit PCM with the channels interleaved. RIFF WAVE has no
//! RFC; the names of its fields are used here.
#![tactic(auto)]

mod cursor;
pub mod laws;
mod parts;
pub mod reader;
pub mod samples;
#[cfg(test)]
mod tests;
pub mod written;
