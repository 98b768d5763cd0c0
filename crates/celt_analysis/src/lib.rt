//! What an encoder of CELT finds in the samples of a frame (RFC 6716, section 5.3): a function of a window, which has the
//! frame's samples and some before them. Only `Analysis::new` takes memory.
#![tactic(auto)]

mod analysis;
mod batch;
mod channels;
mod downmix;
mod emphasis;
mod energies;
mod estimate;
mod karatsuba;
mod lanes;
mod laws;
mod measures;
mod pitch_laws;
#[cfg(test)]
mod pitch_tests;
mod pitches;
mod prefilter;
mod rooms;
mod search;
mod slide;
mod sums;
#[cfg(test)]
mod tests;
mod transforms;
mod transients;

pub use analysis::{Analysis, analyse};
pub use batch::{WindowSlot, analyse_batch, pitch_batch};
pub use laws::law_window;
pub use pitch_laws::{law_best_lag, law_pitch};
pub use pitches::pitch;
pub use slide::Slide;
