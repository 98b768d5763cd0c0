//! Points of the circle, in units of 2^-60, and the step of 2^-10 of 24 degrees from one to the next: 15360
//! of them are the whole circle.
ghost use Rattle.std.specs.Prelude.{◌≡◌, ℕ, ◌+◌, ◌*◌, ◌^◌, ◌<◌, ◌≤◌, pos, ◌≤ℤ◌, unsigned_abs};
ghost use Rattle.fixed_math.specs.Circle.{step_cosine, step_sine, turned_by, narrowed};

// The cosine and sine of a step (Q60).
const STEP_COSINE: i128 = 1_152_921_408_146_894_538;

const STEP_SINE: i128 = 471_615_836_983_582;

/// A point of the circle (Q60).
#[derive(Clone, Copy)]
pub struct Point {
    /// The cosine of its angle.
    pub x: i64,
    /// The sine.
    pub y: i64,
}

/// The next point.
pub fn next_point(p: Point) -> Point
    requires x_size { unsigned_abs p.x ≤ 2 ^ 60 }
    requires y_size { unsigned_abs p.y ≤ 2 ^ 60 }
    ensures { result ≡ turned_by step_cosine step_sine p }
{
    let x = p.x as i128;
    let y = p.y as i128;
    Point {
        x: ((x * STEP_COSINE - y * STEP_SINE) >> 60) as i64,
        y: ((y * STEP_COSINE + x * STEP_SINE) >> 60) as i64,
    }
}

/// The point's cosine (Q15).
pub fn cosine_of(p: Point) -> u16
    requires low { unsigned_abs p.x ≤ 2 ^ 60 }
    requires high { pos 0 ≤ℤ narrowed p.x }
    ensures { pos result ≡ narrowed p.x }
{
    ((p.x + (1 << 44)) >> 45) as u16
}
