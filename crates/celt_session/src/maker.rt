//! What makes the packets of a stream of its samples.
use crate::framer::Framer;
use crate::packer::Packer;

/// A work on windows, with what it is given and what it gives.
#[derive(Drop)]
pub(crate) struct Maker<W: Drop> {
    pub work: W,
    pub framer: Framer,
    pub packer: Packer,
}
