//! The answers of a frame's energies. Index order of every array: the channel, then the band.

/// What a frame's questions of its energies came to.
#[derive(Clone, Copy, Debug, PartialEq, Eq)]
pub struct Energy {
    /// The values of the coarse energies, in steps of 6 dB; -1 where nothing was asked.
    pub coarse: [[i32; 21]; 2],
    /// The fine energies, of as many bits as the allocation gives the band.
    pub fine: [[u32; 21]; 2],
    /// The last bits, where one was asked.
    pub last: [[Option<u32>; 21]; 2],
}
