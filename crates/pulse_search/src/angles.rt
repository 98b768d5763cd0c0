//! The angle between the two halves of a split, or between middle and side (RFC 6716, section 4.3.4.4): of
//! 15360 angles to the circle, the greatest up to a quarter whose tangent is at most a ratio.
ghost use Rattle.std.specs.Prelude.{◌≡◌, ℕ, ◌+◌, ◌^◌, ◌<◌, ◌≤◌};
ghost use Rattle.pulse_search.specs.Angles.{is_under, angle_of, IsAngle};

use fixed_math::Trig;

/// The angles of a quarter of the circle.
const QUARTER: u32 = 3840;

/// The greatest angle from 0 to 3840, a quarter of the circle, with sin * m <= cos * s; 0 where both are 0.
/// `m` and `s` are lengths below 2^48, of any one unit: those of two halves, or of middle and side (RFC 6716,
/// section 4.3.4.4).
pub fn angle(trig: &Trig, m: u64, s: u64) -> u32
    requires m_size { m < 2 ^ 48 }
    requires s_size { s < 2 ^ 48 }
    ensures value { result ≡ angle_of m s }
    ensures size { result ≤ 3840 }
{
    if m == 0 && s == 0 {
        return 0;
    }
    last_under(trig, m, s)
}

// The last angle of the quarter that is under the ratio, in twelve halvings.
fn last_under(trig: &Trig, m: u64, s: u64) -> u32
    requires m_size { m < 2 ^ 48 }
    requires s_size { s < 2 ^ 48 }
    requires some { 0 < m + s }
    ensures value { result ≡ angle_of m s }
    ensures size { result ≤ 3840 }
{
    let mut low: u32 = 0;
    let mut left = QUARTER;
    while left > 0 {
        let half = (left + 1) / 2;
        if under(trig, m, s, low + half) {
            low += half;
        }
        left /= 2;
    }
    low
}

// Whether the tangent of `a` is at most `s / m`.
fn under(trig: &Trig, m: u64, s: u64, a: u32) -> bool
    requires m_size { m < 2 ^ 48 }
    requires s_size { s < 2 ^ 48 }
    requires quarter { a ≤ 3840 }
    ensures { result ≡ is_under m s a }
{
    trig.sin(a) * m as i64 <= trig.cos(a) * s as i64
}

/// The definition's angle is the greatest of a quarter with sin * m <= cos * s.
pub fn law_angle()
    ensures { (m s : ℕ) → 0 < m + s → IsAngle m s (angle_of m s) }
{}

/// The angle never falls as `m` shrinks or `s` grows.
pub fn law_angle_order()
    ensures { (m n s t : ℕ) → n ≤ m → s ≤ t → angle_of m s ≤ angle_of n t }
{}
