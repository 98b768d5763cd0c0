//! How the width of an interval is cut into equal shares (RFC 6716, sections 4.1.2 and 5.1.1).
ghost use Rattle.std.specs.Prelude.{◌≡◌, ◌/◌, ◌^◌, ◌≤◌};
ghost use Rattle.celt_base.specs.Intervals.{depth};

/// A width cut into `total` shares of `unit` each. What the division leaves is below the first one.
#[derive(Clone, Copy, Debug)]
pub struct Shares {
    /// How many they are, the standard's ft.
    pub total: u32,
    /// How wide each is.
    pub unit: u32,
}

impl Shares {
    /// Shares of any total, by a division.
    pub fn of(width: u32, total: u32) -> Shares
        requires { 1 ≤ total }
        ensures total { result.total ≡ total }
        ensures unit { result.unit ≡ width / total }
    {
        Shares {
            total,
            unit: width / total,
        }
    }

    /// Shares of a power of two, by a shift.
    pub fn binary(width: u32, power: u32) -> Shares
        requires { power ≤ 15 }
        ensures total { result.total ≡ 2 ^ power }
        ensures unit { result.unit ≡ width / 2 ^ power }
    {
        Shares {
            total: 1 << power,
            unit: width >> power,
        }
    }
    /// How far a place of the total lies below the upper end of the interval.
    pub fn depth_at(self, width: u32, place: u32) -> u32
        requires unit { self.unit ≡ width / self.total }
        requires within { place ≤ self.total }
        ensures value { result ≡ depth width self.total place }
        ensures within { result ≤ width }
    {
        if place == 0 {
            width
        } else {
            self.unit * (self.total - place)
        }
    }
}
