//! What stands before the bands are skipped: what is laid aside for three choices, and the bits of the bands (RFC 6716,
//! section 4.3.3).
use celt_base::kind::Kind;

/// What is laid aside of the total, and what is left, in eighths of a bit.
#[derive(Clone, Copy)]
pub struct Reserves {
    /// For the end of skipping.
    pub skip: u32,
    /// For the choice of the first intensity band.
    pub intensity: u32,
    /// For dual stereo.
    pub dual: u32,
    /// For the bands.
    pub rest: u32,
}

/// What stands before any band is skipped.
#[derive(Clone, Copy)]
pub struct Plan {
    /// The kind of the frame.
    pub kind: Kind,
    /// What is laid aside of the total.
    pub reserves: Reserves,
    /// The highest band that may not be skipped.
    pub start: u32,
    /// The eighths of a bit of each band.
    pub bits: [u32; 21],
}
