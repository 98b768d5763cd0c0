//! The weights of one part of a sample: of the 32 samples around it, and their sum.
ghost use Rattle.std.specs.Prelude.{◌≡◌, ℕ, ℤ, ◌*◌, ◌/◌, ◌^◌, ◌<◌, ◌≤◌, pos, ◌-ℤ◌, ◌*ℤ◌, ◌≤ℤ◌, unsigned_abs, All};

/// The weights of one part of a sample, of the samples from 15 places before to 16 behind. Each is
/// 4095²·high + 4095·middle + low, so that sums of 32 products fit 32 bits.
#[derive(Clone, Copy)]
pub struct Row {
    pub high: [i16; 32],
    pub middle: [i16; 32],
    pub low: [i16; 32],
    /// The sum of the weights, but at least 1.
    pub divisor: i64,
    ghost small_high: { All (λ w. unsigned_abs w ≤ 2047) high },
    ghost small_middle: { All (λ w. unsigned_abs w ≤ 2047) middle },
    ghost small_low: { All (λ w. unsigned_abs w ≤ 2047) low },
    ghost some: { pos 1 ≤ℤ divisor },
    ghost most: { unsigned_abs divisor ≤ 2 ^ 39 },
}
