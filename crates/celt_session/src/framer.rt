//! The bytes of samples that frames are made of next, and room for the frames.

/// What is held of the samples, and the rooms of a batch.
#[derive(Drop)]
pub(crate) struct Framer {
    /// The bytes of the samples that are held: those before the next frame that its window has, and those behind.
    pub held: Vec<u8>,
    /// Room for the samples of a batch.
    pub samples: Vec<i16>,
    /// Room for the frames of a batch.
    pub frames: Vec<u8>,
}
