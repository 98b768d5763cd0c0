//! Frames that are put into packets, and packets that are put on pages of their own.
ghost use Rattle.std.specs.Prelude.{◌≡◌, ◌+◌, ◌*◌, ◌/◌, ◌%◌, ◌^◌, ◌≤◌, ◌<◌, ℕ, List, length, take, IfOk};
ghost use Rattle.opus_packets.specs.Cut.{equal_parts};
ghost use Rattle.opus_packets.specs.Packet.{config_of, duration_of};
ghost use Rattle.celt_session.specs.AudioPages.{packet_of};

use opus_packets::{pack, pack_group};

/// Writes the packet of so many frames of one length, which stand one behind the other, to the front of `out`, and
/// answers its length.
pub(crate) fn pack_frames(toc: u8, frames: &[u8], count: usize, out: &mut [u8]) -> usize
    requires code { toc % 4 ≡ 0 }
    requires some { 1 ≤ count }
    requires equal { length frames.now % count ≡ 0 }
    requires limited { length frames.now / count ≤ 1275 }
    requires short { count * duration_of (config_of toc) ≤ 5760 }
    requires room { length frames.now + 2 ≤ length out.old }
    ensures packet { take result out.new ≡ packet_of toc (equal_parts count frames.now) }
    ensures len { result ≤ length frames.now + 2 }
    ensures room { length out.new ≡ length out.old }
{
    if count == 1 {
        return pack(toc, frames, out);
    }
    pack_group(toc, frames, count, out)
}
