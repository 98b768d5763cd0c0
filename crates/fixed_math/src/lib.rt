//! Exact fixed-point arithmetic of CELT (RFC 6716, section 4.3): whole square roots, rounding products,
//! angles of 15360 to the circle, powers of two by 1024ths, the bit-exact cosine and tangent, and vectors
//! of unit length. Every call is a whole-number formula; none takes memory.
#![tactic(auto)]

mod angles;
mod bitexact;
mod circle;
mod kernels;
mod powers;
mod roots;
#[cfg(test)]
mod tests;
mod units;

pub use angles::{Trig, law_circle};
pub use bitexact::{bitexact_cos, bitexact_log2tan};
pub use kernels::{law_rounded, mulr, noise, rounded_sum};
pub use powers::{Exp, law_ex, law_logarithm, law_mantissa};
pub use roots::{bit_length, isq, law_bit_length, law_root};
pub use units::unit;
