//! Cosines and sines (Q15) of angles, 15360 to the circle, as the transform (RFC 6716, section 4.3.7) and
//! spreading (section 4.3.4.3) take them.
ghost use Rattle.std.specs.Prelude.{◌≡◌, ℕ, ◌+◌, ◌-◌, ◌%◌, ◌^◌, ◌<◌, ◌≤◌, unsigned_abs, pos, neg_ℤ};
ghost use Rattle.fixed_math.specs.Circle.{cosine, sine, half_circle_cosine};
ghost use Rattle.fixed_math.specs.Quarter.{IsQuarter};

use crate::circle::{Point, cosine_of, next_point};

/// The number of entries of a quarter of the circle, with both of its ends.
const QUARTER: usize = 3841;

/// The cosines of a quarter of the circle (Q15).
#[derive(Drop)]
pub struct Trig {
    cosines: [u16; QUARTER],
    ghost is_quarter: { IsQuarter cosines },
}

impl Trig {
    /// Makes the table: the cosines of the angles from 0 to a quarter of the circle.
    pub fn new() -> Trig
        ensures { IsQuarter result.cosines }
    {
        let mut cosines = [0u16; QUARTER];
        let mut p = Point { x: 1 << 60, y: 0 };
        for a in 0..QUARTER {
            cosines[a] = cosine_of(p);
            p = next_point(p);
        }
        Trig { cosines }
    }

    // The cosine of half of the circle: the second quarter mirrors the first.
    fn half_circle(&self, a: u32) -> i64
        requires { a ≤ 7680 }
        ensures value { result ≡ half_circle_cosine a }
        ensures size { unsigned_abs result ≤ 2 ^ 15 }
    {
        if a <= 3840 {
            self.cosines[a as usize] as i64
        } else {
            -(self.cosines[(7680 - a) as usize] as i64)
        }
    }

    /// The cosine of `a` (Q15).
    pub fn cos(&self, a: u32) -> i64
        requires { a < 15360 }
        ensures value { result ≡ cosine a }
        ensures size { unsigned_abs result ≤ 2 ^ 15 }
    {
        if a <= 7680 {
            self.half_circle(a)
        } else {
            self.half_circle(15360 - a)
        }
    }

    /// The sine of `a` (Q15): the cosine a quarter of the circle before.
    pub fn sin(&self, a: u32) -> i64
        requires { a < 15360 }
        ensures value { result ≡ sine a }
        ensures size { unsigned_abs result ≤ 2 ^ 15 }
    {
        if a < 3840 {
            self.cos(a + 11520)
        } else {
            self.cos(a - 3840)
        }
    }
}

/// The symmetries of the circle: where it starts, a quarter on, and backwards.
pub fn law_circle(a: u32)
    requires { a < 15360 }
    ensures start { (cosine 0 ≡ pos 32768) × (sine 0 ≡ pos 0) }
    ensures quarter_cosine { cosine ((a + 3840) % 15360) ≡ neg_ℤ (sine a) }
    ensures quarter_sine { sine ((a + 3840) % 15360) ≡ cosine a }
    ensures back_cosine { 0 < a → cosine (15360 - a) ≡ cosine a }
    ensures back_sine { 0 < a → sine (15360 - a) ≡ neg_ℤ (sine a) }
{}
