//! What becomes of a band that may be skipped, and what stands after skipping (RFC 6716, section 4.3.3).

/// What becomes of the highest coded band.
#[derive(Clone, Copy)]
pub enum Turn {
    /// It stays, and skipping ends.
    Stays,
    /// It goes: 1 where it was asked, else 0, and the eighths of a bit that it keeps.
    Goes { asked: u32, share: u32 },
}

/// What stands after skipping.
#[derive(Clone, Copy)]
pub struct Skipped {
    /// How many bands are coded.
    pub coded: u32,
    /// The eighths of a bit that are left for them.
    pub left: u32,
    /// The eighths of a bit of each band.
    pub bits: [u32; 21],
}
