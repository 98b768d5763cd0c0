//! Writing Opus packets from frames (RFC 6716, section 3).
ghost use Rattle.std.specs.Prelude.{◌≡◌, ◌+◌, ◌-◌, ◌*◌, ◌/◌, ◌%◌, ◌≤◌, [], ◌∷◌, ◌++◌, false, None, IsOkAnd, length, take, drop};
ghost use Rattle.opus_packets.specs.Cut.{frames_of, equal_parts};
ghost use Rattle.opus_packets.specs.Packet.{config_of, duration_of, cut_of};
ghost use Rattle.opus_packets.specs.Form.{spelled, One, Many};

/// Writes a packet of one frame, of code 0 (RFC 6716, section 3.2.2), to the front of `out`, and gives
/// the packet's length. `toc` is the packet's first byte. What stands behind the packet stays.
pub fn pack(toc: u8, frame: &[u8], out: &mut [u8]) -> usize
    requires code { toc % 4 ≡ 0 }
    requires limited { length frame.now ≤ 1275 }
    requires room { length frame.now + 1 ≤ length out.old }
    ensures len { result ≡ length frame.now + 1 }
    ensures bytes { out.new ≡ spelled toc (One frame.now) ++ drop result out.old }
    // The packet is cut into this frame alone.
    ensures frames { IsOkAnd (cut_of (take result out.new)) (λ cut. frames_of cut ≡ frame.now ∷ []) }
{
    put(&[toc], frame, out)
}

/// Writes a packet of `count` frames of one length, of code 3 without padding (RFC 6716, section
/// 3.2.5), to the front of `out`, and gives the packet's length. `frames` are the frames, one behind
/// the other. The six high bits of `toc` are those of the packet's first byte; its two low bits are
/// written as 3. What stands behind the packet stays.
pub fn pack_group(toc: u8, frames: &[u8], count: usize, out: &mut [u8]) -> usize
    requires some { 1 ≤ count }
    requires equal { length frames.now % count ≡ 0 }
    requires limited { length frames.now / count ≤ 1275 }
    requires short { count * duration_of (config_of toc) ≤ 5760 }
    requires room { length frames.now + 2 ≤ length out.old }
    ensures len { result ≡ length frames.now + 2 }
    ensures bytes { out.new
        ≡ spelled (toc - toc % 4) (Many false None (equal_parts count frames.now)) ++ drop result out.old }
    // The packet is cut into these frames.
    ensures frames { IsOkAnd (cut_of (take result out.new)) (λ cut. frames_of cut ≡ equal_parts count frames.now) }
{
    put(&[toc - toc % 4 + 3, count as u8], frames, out)
}

/// Copies the head and the body of a packet to the front of `out`, and gives their length.
fn put(head: &[u8], body: &[u8], out: &mut [u8]) -> usize
    requires { length head.now + length body.now ≤ length out.old }
    ensures len { result ≡ length head.now + length body.now }
    ensures bytes { out.new ≡ head.now ++ body.now ++ drop result out.old }
{
    let size = head.len() + body.len();
    out[..head.len()].copy_from_slice(head);
    out[head.len()..size].copy_from_slice(body);
    size
}
