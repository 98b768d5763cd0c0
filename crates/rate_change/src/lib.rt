//! Input at other rates than 48000 Hz: the samples at 48000 Hz that samples at 8000, 12000, 16000, 24000 or 44100 Hz stand
//! for. Where 48000 over the rate is U/D in lowest terms, output k lies at place k·D/U of the input, which is part f of U
//! behind a sample i. It is the sum of the 32 samples around, by weights of their distance, over the sum of the weights.
//! At 24000 Hz 40 samples of 100 give 80 outputs, of which those from 30 to 47 and each even one are 100: the others have
//! zeros before or behind the input in their windows.
#![tactic(auto)]

mod counts;
mod digits;
mod laws;
mod ratio;
mod row;
mod sums;
mod table;
#[cfg(test)]
mod tests;
mod weights;

pub use counts::{outputs, ready};
pub use laws::{law_outputs, law_ratio, law_ready, law_steady, law_whole};
pub use ratio::Ratio;
pub use table::Weights;
