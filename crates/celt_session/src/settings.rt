//! What a stream is decoded into, and what one is encoded with.

/// The form of the output.
#[derive(Clone, Copy, Debug, PartialEq, Eq)]
pub enum Form {
    /// A WAV file of samples of 16 bits.
    Wav,
    /// The samples alone, little-endian, channels interleaved.
    Plain,
    /// A line for each frame: its number, its length in bytes and its final range.
    Ranges,
}

/// What a stream is decoded into.
#[derive(Clone, Copy, Debug, PartialEq, Eq)]
pub struct DecodeSettings {
    pub form: Form,
    /// Whether the phase inversion of stereo is taken. A decoder may leave it out (RFC 8251, section 10).
    pub invert: bool,
}

/// What a stream is encoded with.
#[derive(Clone, Copy, Debug, PartialEq, Eq)]
pub struct Settings {
    /// The bytes of each frame, 2 to 1275.
    pub bytes: u32,
    /// The samples per channel of a frame: 120, 240, 480 or 960.
    pub frame: u32,
    /// The bandwidth: 0 is narrow, 1 wide, 2 super-wide, and 3 full.
    pub band: u32,
    /// The frames of a packet, 1 to 48, of at most 5760 samples in all.
    pub group: u32,
}
