//! How the samples of a stream are cut into frames, and these put into packets.
ghost use Rattle.std.specs.Prelude.{◌≡◌, ◌≤◌, ◌*◌, ◌%◌};
ghost use Rattle.celt_base.specs.Kinds.{config_of_toc};
ghost use Rattle.celt_session.specs.Frames.{kind_of, duration};

use celt_base::kind::Kind;

/// What a stream is cut by.
#[derive(Clone, Copy, Debug, PartialEq, Eq)]
pub(crate) struct Plan {
    /// The first byte of a packet of one frame.
    pub toc: u8,
    /// The kind of frames that it names.
    pub kind: Kind,
    /// The samples per channel of a frame, 120, 240, 480 or 960.
    pub samples: usize,
    /// The bytes of a frame, 2 to 1275.
    pub bytes: usize,
    /// The frames of a packet, 1 to 48, of at most 5760 samples per channel.
    pub group: usize,
    ghost celt: { 16 ≤ config_of_toc toc },
    ghost code: { toc % 4 ≡ 0 },
    ghost kind_is: { kind ≡ kind_of toc },
    ghost samples_is: { samples ≡ duration kind },
    ghost least: { 2 ≤ bytes },
    ghost most: { bytes ≤ 1275 },
    ghost some: { 1 ≤ group },
    ghost few: { group ≤ 48 },
    ghost short: { group * samples ≤ 5760 },
}
