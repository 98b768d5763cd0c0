//! A budget is told the lengths of frames, and tests whether a run of them has more bytes than a reservoir gives.
ghost use Rattle.std.specs.Prelude.{◌≡◌, ℕ, ◌+◌, ◌-◌, ◌^◌, ◌<◌, ◌≤◌, List, [], ◌∷◌, ◌++◌};

/// The test of frames of `bytes` bytes each, of which a run of m in a row may have `most` bytes more than m times
/// these. It takes no memory.
#[derive(Debug, Drop)]
pub struct Budget {
    bytes: u32,
    most: u32,
    /// The most that a run has beyond its frames' bytes, of all that end with the last frame.
    excess: u64,
    /// How many frames were noted.
    frames: u64,
    /// The first frame that ended a run with more. Behind it `excess` stays as it is.
    broken: Option<u64>,
    ghost most_most: { most ≤ 12750 },
    ghost kept: { excess ≤ most },
    ghost few: { frames ≤ 2 ^ 52 },
}

impl Budget {
    ghost use Rattle.rate_reservoir.specs.Runs.{IsBrokenAt};
    ghost use Rattle.rate_reservoir.specs.Noted.{HasNoted, frames_noted};

    /// A budget before its first frame. A frame has `bytes` bytes, 2 to 1275, and a run up to `most` beyond those of
    /// its frames, at most 12750.
    pub fn new(bytes: u32, most: u32) -> Budget
        requires least_bytes { 2 ≤ bytes }
        requires most_bytes { bytes ≤ 1275 }
        requires most_most { most ≤ 12750 }
        ensures noted { HasNoted result bytes most [] }
        ensures count { frames_noted result ≡ 0 }
    {
        Budget {
            bytes,
            most,
            excess: 0,
            frames: 0,
            broken: None,
        }
    }

    /// Notes the length of the next frame in bytes. At most 2^52 frames are noted.
    pub fn note(&mut self, len: u32)
        requires few { frames_noted self.old < 2 ^ 52 }
        ensures longer { (bytes most : ℕ) (lengths : List ℕ) → HasNoted self.old bytes most lengths →
            HasNoted self.new bytes most (lengths ++ len ∷ []) }
        ensures count { frames_noted self.new ≡ frames_noted self.old + 1 }
    {
        let frame = self.frames;
        self.frames += 1;
        if self.broken.is_none() {
            let excess = self.excess_with(len);
            if excess <= u64::from(self.most) {
                self.excess = excess;
            } else {
                self.broken = Some(frame);
            }
        }
    }

    // The excess with one frame more. A run of no frame has 0.
    fn excess_with(&self, len: u32) -> u64
        ensures { result ≡ self.now.excess + len - self.now.bytes }
    {
        (self.excess + u64::from(len)).saturating_sub(u64::from(self.bytes))
    }

    /// The first frame, counted from 0, that ended a run with more bytes than it may have. None stands for no such
    /// run among the frames noted.
    pub fn broken(&self) -> Option<u64>
        ensures { (bytes most : ℕ) (lengths : List ℕ) → HasNoted self.now bytes most lengths →
            IsBrokenAt bytes most lengths result }
    {
        self.broken
    }
}
