//! Cutting an Opus packet into its frames (RFC 6716, section 3).
ghost use Rattle.std.specs.Prelude.{◌≡◌, ◌+◌, ◌*◌, ◌≤◌, ◌<◌, length, drop, replicate, slice_index};
ghost use Rattle.std.specs.Option.{ForSome};
ghost use Rattle.opus_packets.specs.Packet.{one_frame, two_equal_frames, two_frames, length_at, equal_frames, frames_with_lengths, many_frames, cut_of, config_of, duration_of};

use crate::fault::PacketFault;
use crate::frames::{Frames, MOST_FRAMES, duration};
use crate::octets::{Coded, length_at, lengths_at, padding_of};
use arrayvec::ArrayVec;

/// The greatest length of a frame in bytes (RFC 6716, section 3.2.1).
const LONGEST_FRAME: usize = 1275;

/// The samples at 48 kHz in 120 ms, the greatest duration of a packet (RFC 6716, section 3.2.5).
const LONGEST_PACKET: u32 = 5760;

/// Cuts a packet into its frames (RFC 6716, section 3).
///
/// # Errors
///
/// The first rule of section 3.4 that the packet breaks.
#[tactic(auto, unfolding(crate::specs::Packet::cut_of))]
pub fn split(packet: &[u8]) -> Result<Frames<'_>, PacketFault>
    ensures { result ≡ cut_of packet.now }
{
    if packet.is_empty() {
        return Err(PacketFault::R1);
    }
    match packet[0] % 4 {
        0 => one_frame(packet),
        1 => two_equal_frames(packet),
        2 => two_frames(packet),
        _ => many_frames(packet),
    }
}

/// Code 0 (RFC 6716, section 3.2.2): one frame.
#[tactic(auto, unfolding(crate::specs::Packet::one_frame))]
fn one_frame(packet: &[u8]) -> Result<Frames<'_>, PacketFault>
    requires { 1 ≤ length packet.now }
    ensures { result ≡ one_frame packet.now }
{
    let size = packet.len() - 1;
    if size > LONGEST_FRAME {
        return Err(PacketFault::R2);
    }
    let mut lengths = ArrayVec::new();
    lengths.push(size as u16);
    Ok(Frames::new(packet, 1, lengths))
}

/// Code 1 (RFC 6716, section 3.2.3): two frames of one length.
#[tactic(auto, unfolding(crate::specs::Packet::two_equal_frames))]
fn two_equal_frames(packet: &[u8]) -> Result<Frames<'_>, PacketFault>
    requires { 1 ≤ length packet.now }
    ensures { result ≡ two_equal_frames packet.now }
{
    if packet.len() % 2 == 0 {
        return Err(PacketFault::R3);
    }
    let size = (packet.len() - 1) / 2;
    if size > LONGEST_FRAME {
        return Err(PacketFault::R2);
    }
    let mut lengths = ArrayVec::new();
    lengths.push(size as u16);
    lengths.push(size as u16);
    Ok(Frames::new(packet, 1, lengths))
}

/// Code 2 (RFC 6716, section 3.2.4): two frames, and the length of the first.
#[tactic(auto, unfolding(crate::specs::Packet::two_frames))]
fn two_frames(packet: &[u8]) -> Result<Frames<'_>, PacketFault>
    requires { 1 ≤ length packet.now }
    ensures { result ≡ two_frames packet.now (length_at (drop 1 packet.now)) }
{
    let (_, rest) = packet.split_at(1);
    let Some(length) = length_at(rest) else {
        return Err(PacketFault::R4);
    };
    let used = 1 + length.taken + length.value;
    if packet.len() < used {
        return Err(PacketFault::R4);
    }
    let last = packet.len() - used;
    if last > LONGEST_FRAME {
        return Err(PacketFault::R2);
    }
    let mut lengths = ArrayVec::new();
    lengths.push(length.value as u16);
    lengths.push(last as u16);
    Ok(Frames::new(packet, 1 + length.taken, lengths))
}

/// Code 3 (RFC 6716, section 3.2.5): the second byte says how many frames, and which other fields
/// there are.
#[tactic(auto, unfolding(crate::specs::Packet::many_frames))]
fn many_frames(packet: &[u8]) -> Result<Frames<'_>, PacketFault>
    requires { 1 ≤ length packet.now }
    ensures { result ≡ many_frames packet.now }
{
    if packet.len() == 1 {
        return Err(PacketFault::R6);
    }
    let octet = packet[1];
    let count = octet % 64;
    if count == 0 || u32::from(count) * duration(u32::from(packet[0]) / 8) > LONGEST_PACKET {
        return Err(PacketFault::R5);
    }
    let (_, rest) = packet.split_at(2);
    let padding = padding_of(octet / 64 % 2 == 1, rest);
    if octet / 128 % 2 == 1 {
        frames_with_lengths(usize::from(count), packet, padding)
    } else {
        equal_frames(usize::from(count), packet, padding)
    }
}

/// The frames of a code 3 packet that are all of one length.
#[tactic(auto, unfolding(crate::specs::Packet::equal_frames))]
fn equal_frames(
    count: usize,
    packet: &[u8],
    padding: Option<Coded>,
) -> Result<Frames<'_>, PacketFault>
    requires some { 1 ≤ count }
    requires short { count * duration_of (config_of (slice_index packet.now 0)) ≤ 5760 }
    requires long { 2 ≤ length packet.now }
    requires padded { ForSome padding (λ p. 2 + p.taken + p.value ≤ length packet.now) }
    ensures { result ≡ equal_frames count packet.now padding }
{
    let Some(padding) = padding else {
        return Err(PacketFault::R6);
    };
    let room = packet.len() - (2 + padding.taken + padding.value);
    if room % count != 0 {
        return Err(PacketFault::R6);
    }
    let size = room / count;
    if size > LONGEST_FRAME {
        return Err(PacketFault::R2);
    }
    Ok(Frames::new(packet, 2 + padding.taken, copies(size as u16, count)))
}

/// A length, `count` times.
fn copies(length: u16, count: usize) -> ArrayVec<u16, MOST_FRAMES>
    requires { count ≤ 48 }
    ensures { result.items ≡ replicate count length }
{
    let mut lengths = ArrayVec::new();
    for _ in 0..count {
        lengths.push(length);
    }
    lengths
}

/// The frames of a code 3 packet that says the lengths of all but the last.
#[tactic(auto, unfolding(crate::specs::Packet::frames_with_lengths, crate::specs::Packet::given_frames))]
fn frames_with_lengths(
    count: usize,
    packet: &[u8],
    padding: Option<Coded>,
) -> Result<Frames<'_>, PacketFault>
    requires some { 1 ≤ count }
    requires short { count * duration_of (config_of (slice_index packet.now 0)) ≤ 5760 }
    requires long { 2 ≤ length packet.now }
    requires padded { ForSome padding (λ p. 2 + p.taken + p.value ≤ length packet.now) }
    ensures { result ≡ frames_with_lengths count packet.now padding }
{
    let Some(padding) = padding else {
        return Err(PacketFault::R7);
    };
    let (_, rest) = packet.split_at(2 + padding.taken);
    let Some(given) = lengths_at(count - 1, rest) else {
        return Err(PacketFault::R7);
    };
    let used = 2 + padding.taken + padding.value + given.taken() + given.total();
    if packet.len() < used {
        return Err(PacketFault::R7);
    }
    let last = packet.len() - used;
    if last > LONGEST_FRAME {
        return Err(PacketFault::R2);
    }
    let first = 2 + padding.taken + given.taken();
    Ok(Frames::new(packet, first, given.followed_by(last as u16)))
}
