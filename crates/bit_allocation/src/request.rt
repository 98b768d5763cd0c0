//! What an allocation is made of (RFC 6716, section 4.3.3).
use celt_base::kind::Kind;

/// What an allocation is made of.
#[derive(Clone, Copy)]
pub struct Request {
    /// The kind of the frame.
    pub kind: Kind,
    /// The eighths of a bit for all bands; below 0 counts as 0.
    pub total: i32,
    /// For each band, the eighths of a bit that its boosts add.
    pub boosts: [i32; 21],
    /// How the amounts are tilted, 0 to 10: the higher it is, the more the lower bands have.
    pub trim: i32,
}
