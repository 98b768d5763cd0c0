//! A gain as a number that is multiplied by.
ghost use Rattle.std.specs.Prelude.{◌^◌, ◌<◌, ◌≤◌};

/// The factor of a gain: `mantissa` times 2^-`shift`, which also takes units of 2^-12 to whole ones.
#[derive(Clone, Copy)]
pub struct Factor {
    /// At least 2^30.
    pub mantissa: u32,
    /// How many binary places behind the point.
    pub shift: u32,
    ghost most_mantissa: { mantissa < 2 ^ 31 },
    ghost least_shift: { 21 ≤ shift },
    ghost most_shift: { shift ≤ 64 },
}
