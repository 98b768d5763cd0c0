//! The identification header and the comment header of an Ogg Opus stream (RFC 7845, section 5).
ghost use Rattle.std.specs.Prelude.{◌≡◌, ◌⊎◌, ◌≤◌, Ok, pos, length, IsTrue};
ghost use Rattle.opus_packets.specs.Header.{head_of, begins_head, written_head, written_tags};

use byteorder::{ByteOrder, LittleEndian};

/// What an identification header says of its stream (RFC 7845, section 5.1).
#[derive(Clone, Copy, Debug, PartialEq, Eq)]
pub struct Head {
    /// The number of channels, 1 or 2.
    pub channels: u8,
    /// The samples at 48 kHz that are dropped from the start of the decoder's output.
    pub preskip: u16,
    /// The output gain in 1/256 dB.
    pub gain: i16,
}

/// Why a packet is no identification header that can be decoded.
#[derive(Clone, Copy, Debug, PartialEq, Eq)]
pub enum HeadFault {
    /// The packet is shorter than 19 bytes, does not begin with `OpusHead`, has a version of 16 or
    /// more, or is of mapping family 0 with other than one or two channels.
    Bad,
    /// The packet is an identification header of a channel mapping family other than 0.
    Family,
}

/// The eight letters that begin an identification header.
const LETTERS: &[u8] = b"OpusHead";

/// An identification header with every field but the channels and the input rate: version 1, a
/// pre-skip of 120, gain 0 and mapping family 0.
const HEAD: [u8; 19] = *b"OpusHead\x01\x00\x78\x00\x00\x00\x00\x00\x00\x00\x00";

/// The comment header: vendor `celt`, and no comments.
const TAGS: [u8; 20] = *b"OpusTags\x04\x00\x00\x00celt\x00\x00\x00\x00";

/// Reads an identification header (RFC 7845, section 5.1). The input rate, and what stands behind the
/// first 19 bytes, are passed over.
///
/// # Errors
///
/// `Bad` where the packet is too short, begins with other letters or has a version of 16 or more; else
/// `Family` where the mapping family is not 0; else `Bad` where the channels are neither one nor two.
#[tactic(auto, unfolding(crate::specs::Header::head_of), using(crate::proofs::Headers::read_number))]
pub fn read_head(packet: &[u8]) -> Result<Head, HeadFault>
    ensures { result ≡ head_of packet.now }
{
    if !begins_head(packet) {
        return Err(HeadFault::Bad);
    }
    if packet[18] != 0 {
        return Err(HeadFault::Family);
    }
    if packet[9] != 1 && packet[9] != 2 {
        return Err(HeadFault::Bad);
    }
    Ok(Head {
        channels: packet[9],
        preskip: LittleEndian::read_u16(&packet[10..]),
        gain: LittleEndian::read_i16(&packet[16..]),
    })
}

/// Whether a packet has the length, the letters and the version of an identification header.
fn begins_head(packet: &[u8]) -> bool
    ensures value { result ≡ begins_head packet.now }
    ensures long { IsTrue result → 19 ≤ length packet.now }
{
    packet.len() >= 19 && packet.starts_with(LETTERS) && packet[8] < 16
}

/// Writes the identification header of a stream: version 1, these channels, a pre-skip of 120 samples,
/// the input rate in Hz, gain 0 and mapping family 0 (RFC 7845, section 5.1).
#[tactic(auto, unfolding(crate::specs::Header::head_of), using(crate::proofs::Headers::read_number))]
pub fn write_head(channels: u8, rate: u32, out: &mut [u8; 19])
    requires { (channels ≡ 1) ⊎ (channels ≡ 2) }
    ensures bytes { out.new ≡ written_head channels rate }
    // The header reads back as these channels, this pre-skip and this gain.
    ensures reads_back { head_of out.new ≡ Ok (record { channels = channels; preskip = 120; gain = pos 0 }) }
{
    *out = HEAD;
    out[9] = channels;
    LittleEndian::write_u32(&mut out[12..16], rate);
}

/// Writes the comment header of a stream: the vendor `celt`, and no comments (RFC 7845, section 5.2).
pub fn write_tags(out: &mut [u8; 20])
    ensures { out.new ≡ written_tags }
{
    *out = TAGS;
}
