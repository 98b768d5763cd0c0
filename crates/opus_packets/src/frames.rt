//! The frames of an Opus packet (RFC 6716, section 3).
ghost use Rattle.std.specs.Prelude.{◌≡◌, ◌+◌, ◌*◌, ◌≤◌, ◌<◌, Some, length, slice_get, slice_index};
ghost use Rattle.opus_packets.specs.Cut.{start_of, end_of, frame_at, frames_of};
ghost use Rattle.opus_packets.specs.Packet.{config_of, is_stereo, duration_of, samples_of, IsCut};

use arrayvec::ArrayVec;
use std::marker::Model;

/// The greatest number of frames of a packet: 48 frames of 2.5 ms last 120 ms.
pub(crate) const MOST_FRAMES: usize = 48;

/// An Opus packet with its frames, which are slices of it, one behind the other. A clause sees the
/// packet, the place of the first frame, and the lengths.
#[derive(Drop)]
pub struct Frames<'a> {
    packet: &'a [u8],
    // The place of the first frame.
    first: usize,
    lengths: ArrayVec<u16, MOST_FRAMES>,
}

impl<'a> Model for Frames<'a> {
    ghost use Rattle.opus_packets.specs.Cut.{Cut};
    ghost use Rattle.opus_packets.specs.Packet.{IsCut};

    ghost Value = { Cut };

    ghost view = { λ f. record { packet = f.packet.now; first = f.first; lengths = f.lengths.items } };

    ghost invariant = { λ f. IsCut (record { packet = f.packet.now; first = f.first; lengths = f.lengths.items }) };
}

impl<'a> Frames<'a> {
    /// The frames of these lengths that follow one another from the place `first` on.
    pub(crate) fn new(packet: &'a [u8], first: usize, lengths: ArrayVec<u16, MOST_FRAMES>) -> Self
        requires { IsCut (record { packet = packet.now; first = first; lengths = lengths.items }) }
        ensures { result ≡ record { packet = packet.now; first = first; lengths = lengths.items } }
    {
        Frames {
            packet,
            first,
            lengths,
        }
    }

    /// The configuration, 0 to 31, in the five high bits of the first byte (RFC 6716, section 3.1).
    pub fn config(&self) -> u32
        ensures { result ≡ config_of (slice_index self.now.packet 0) }
    {
        u32::from(self.packet[0]) / 8
    }

    /// Whether the frames have two channels (RFC 6716, section 3.1).
    pub fn stereo(&self) -> bool
        ensures { result ≡ is_stereo (slice_index self.now.packet 0) }
    {
        self.packet[0] / 4 % 2 == 1
    }

    /// The samples per channel at 48 kHz of all the frames, at most 5760.
    pub fn samples(&self) -> u32
        ensures value { result ≡ samples_of self.now }
        ensures bound { result ≤ 5760 }
    {
        self.lengths.len() as u32 * duration(self.config())
    }

    /// The number of frames, 1 to 48.
    pub fn len(&self) -> usize
        ensures value { result ≡ length self.now.lengths }
        ensures some { 1 ≤ result }
        ensures few { result ≤ 48 }
    {
        self.lengths.len()
    }

    /// The bytes of frame `i`, at most 1275, as they stand in the packet. One of 0 or 1 bytes stands for a
    /// frame that was lost or not sent.
    pub fn frame(&self, i: usize) -> &'a [u8]
        requires { i < length self.now.lengths }
        ensures place { result.now ≡ frame_at self.now i }
        ensures within { end_of self.now i ≤ length self.now.packet }
        ensures limit { length result.now ≤ 1275 }
        ensures item { slice_get (frames_of self.now) i ≡ Some result.now }
    {
        let start = self.start(i);
        &self.packet[start..start + usize::from(self.lengths[i])]
    }

    /// The place in the packet at which frame `i` begins.
    fn start(&self, i: usize) -> usize
        requires { i < length self.now.lengths }
        ensures { result ≡ start_of self.now i }
    {
        let mut start = self.first;
        for k in 0..i {
            start += usize::from(self.lengths[k]);
        }
        start
    }
}

/// The samples at 48 kHz that a frame of a configuration lasts (RFC 6716, section 3.1, table 2).
pub(crate) fn duration(config: u32) -> u32
    ensures value { result ≡ duration_of config }
    ensures bound { result ≤ 2880 }
{
    match (config, config % 4) {
        (0..12, 0) => 480,
        (0..12, 1) => 960,
        (0..12, 2) => 1920,
        (0..12, _) => 2880,
        (12..16, 0 | 2) => 480,
        (12..16, _) => 960,
        (_, 0) => 120,
        (_, 1) => 240,
        (_, 2) => 480,
        (_, _) => 960,
    }
}
