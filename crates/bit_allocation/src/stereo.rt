//! What the questions of stereo came to.

/// Which bands are coded in intensity stereo, and which in dual stereo (RFC 6716, section 4.3.3).
#[derive(Clone, Copy)]
pub struct Stereo {
    /// The band from which intensity stereo begins; 0 also where it was not asked.
    pub intensity: u32,
    /// Whether the bands below that one are coded in dual stereo.
    pub dual: bool,
}
