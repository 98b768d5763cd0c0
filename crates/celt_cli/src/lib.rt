//! The words of the program, its notes, `gen`, and a run over a source and two sinks.
#![tactic(auto)]

pub mod encoding_maker;
#[cfg(test)]
mod encoding_tests;
#[cfg(test)]
mod gen_tests;
pub mod generating;
pub mod generator;
#[cfg(test)]
mod generator_tests;
pub mod hearing;
#[cfg(test)]
mod hostile_tests;
pub mod laws;
pub mod maker;
#[cfg(test)]
mod music_tests;
pub mod notes;
pub mod pairs;
pub mod program;
pub mod report;
#[cfg(test)]
mod sounding_tests;
pub mod tally;
#[cfg(test)]
mod tests;
pub mod windows;
#[cfg(test)]
mod windows_tests;
pub mod words;
