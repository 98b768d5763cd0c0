//! The packet that is being filled.

/// The packet that is being filled, and the rooms for it and its page.
#[derive(Drop)]
pub(crate) struct Packer {
    /// Room for its frames, one behind the other.
    pub frames: Vec<u8>,
    /// How many they are.
    pub count: usize,
    /// How many packets were written before it.
    pub packets: u64,
    /// Room for a packet.
    pub packet: Vec<u8>,
    /// Room for a page.
    pub page: Vec<u8>,
}
