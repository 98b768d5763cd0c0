//! Frames that are made at once.
ghost use Rattle.std.specs.Prelude.{◌≤◌};

use celt_base::kind::Kind;

/// So many frames of one kind and of one length.
#[derive(Clone, Copy, Debug, PartialEq, Eq)]
pub(crate) struct Batch {
    pub kind: Kind,
    /// The bytes of each frame, 2 to 1275.
    pub bytes: usize,
    /// How many they are, 1 to 16.
    pub count: usize,
    ghost least: { 2 ≤ bytes },
    ghost most: { bytes ≤ 1275 },
    ghost some: { 1 ≤ count },
    ghost few: { count ≤ 16 },
}
