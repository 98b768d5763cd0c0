//! A vector in a room.
ghost use Rattle.std.specs.Prelude.{◌≡◌, ◌^◌, ◌<◌, ◌≤◌, pos, replicate, unsigned_abs, All};

/// A vector of up to 176 items.
#[derive(Clone, Copy)]
pub struct Vector {
    pub items: [i64; 176],
    pub count: usize,
    ghost most: { count ≤ 176 },
    ghost small: { All (λ v. unsigned_abs v < 2 ^ 20) items },
}

/// The vectors of a band that were entered last, for each channel.
#[derive(Drop)]
pub struct Vectors {
    pub first: Vector,
    pub second: Vector,
}

// Items of 0.
fn no_items() -> [i64; 176]
    ensures value { result ≡ replicate 176 (pos 0) }
    ensures sizes { All (λ v. unsigned_abs v < 2 ^ 20) result }
{
    [0; 176]
}

impl Vector {
    /// The empty vector.
    pub fn new() -> Vector
        ensures { result.count ≡ 0 }
    {
        Vector {
            items: no_items(),
            count: 0,
        }
    }
}

impl Vectors {
    /// Two empty vectors.
    pub fn new() -> Vectors
        ensures first { result.first.count ≡ 0 }
        ensures second { result.second.count ≡ 0 }
    {
        Vectors {
            first: Vector::new(),
            second: Vector::new(),
        }
    }
}
