//! The last steps of the decoder's signal path (RFC 6716, section 4.3.7): the comb filter on the pitch, which an
//! encoder takes away before, de-emphasis, and samples of 16 bits with the header's output gain (RFC 7845, section
//! 5.1). Every call is a whole-number formula; none takes memory.
#![tactic(auto)]

mod conversion;
mod echoes;
mod emphasis;
mod factor;
mod laws;
mod pitch;
mod taps;
#[cfg(test)]
mod tests;

pub use conversion::{amplified_sample, factor_of, plain_sample, sample, samples};
pub use emphasis::{deemphasis, next_output};
pub use factor::Factor;
pub use laws::{
    law_amplified, law_comb, law_deemphasis, law_fade, law_limited, law_saturated, law_taps,
    law_term,
};
pub use pitch::{comb, subtract};
