//! A reservoir answers wishes with lengths, one after the other.
ghost use Rattle.std.specs.Prelude.{◌≡◌, ℕ, ◌+◌, ◌≤◌, List, [], ◌∷◌, ◌++◌};

/// Lengths of frames of `bytes` bytes each, of which up to `most` may be left to the frames behind. It takes no memory.
#[derive(Debug, Drop)]
pub struct Reservoir {
    bytes: u32,
    most: u32,
    /// The bytes that the frames so far left.
    credit: u32,
    ghost least_bytes: { 2 ≤ bytes },
    ghost most_bytes: { bytes ≤ 1275 },
    ghost most_most: { most ≤ 12750 },
    ghost kept: { credit ≤ most },
}

impl Reservoir {
    ghost use Rattle.rate_reservoir.specs.Lengths.{lengths_of, credit_of};
    ghost use Rattle.rate_reservoir.specs.Served.{HasServed};

    /// A reservoir before its first frame, without credit. A frame has `bytes` bytes, 2 to 1275, and up to `most`,
    /// at most 12750, may be left.
    pub fn new(bytes: u32, most: u32) -> Reservoir
        requires least_bytes { 2 ≤ bytes }
        requires most_bytes { bytes ≤ 1275 }
        requires most_most { most ≤ 12750 }
        ensures { HasServed result bytes most [] }
    {
        Reservoir {
            bytes,
            most,
            credit: 0,
        }
    }

    /// The length of the next frame, which wishes for `wish` bytes, at least 2: the wish, or less where the bytes of
    /// a frame and the credit do not suffice, or where it is above 1275.
    pub fn next(&mut self, wish: u32) -> u32
        requires least { 2 ≤ wish }
        ensures longer { (bytes most : ℕ) (wishes : List ℕ) → HasServed self.old bytes most wishes →
            HasServed self.new bytes most (wishes ++ wish ∷ []) }
        ensures length { (bytes most : ℕ) (wishes : List ℕ) → HasServed self.old bytes most wishes →
            lengths_of bytes most (wishes ++ wish ∷ []) ≡ lengths_of bytes most wishes ++ result ∷ [] }
        ensures least { 2 ≤ result }
        ensures most { result ≤ 1275 }
    {
        let length = wish.min(1275).min(self.bytes + self.credit);
        self.credit = self.most.min(self.credit + self.bytes - length);
        length
    }

    /// The bytes that the frames so far left to the next one.
    pub fn credit(&self) -> u32
        ensures { (bytes most : ℕ) (wishes : List ℕ) → HasServed self.now bytes most wishes →
            result ≡ credit_of bytes most wishes }
    {
        self.credit
    }
}
