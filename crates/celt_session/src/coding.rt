//! What a stream is encoded with: the length of its frames in bytes and in samples, and its bandwidth
//! (RFC 6716, sections 2 and 3.1).
ghost use Rattle.std.specs.Prelude.{◌≡◌, ◌≤◌, ◌⊎◌};
ghost use Rattle.celt_session.specs.Encoding.{size_of as size_for, band_of as band_for, coding_of as coding_for, size_number, band_number, toc_of};

use crate::settings::Settings;

/// The samples per channel of a frame, at 48 kHz.
#[derive(Clone, Copy, Debug, PartialEq, Eq)]
pub(crate) enum FrameSize {
    Samples120,
    Samples240,
    Samples480,
    Samples960,
}

/// The bandwidth that a frame codes.
#[derive(Clone, Copy, Debug, PartialEq, Eq)]
pub(crate) enum Bandwidth {
    /// Up to 4 kHz.
    Narrow,
    /// Up to 8 kHz.
    Wide,
    /// Up to 12 kHz.
    SuperWide,
    /// Up to 20 kHz.
    Full,
}

/// What a stream is encoded with.
#[derive(Clone, Copy, Debug, PartialEq, Eq)]
pub(crate) struct Coding {
    /// The bytes of each frame, 2 to 1275.
    pub bytes: u32,
    pub frame: FrameSize,
    pub band: Bandwidth,
}

/// The size of a frame of so many samples.
fn size_of(frame: u32) -> FrameSize
    ensures { result ≡ size_for frame }
{
    match frame {
        120 => FrameSize::Samples120,
        240 => FrameSize::Samples240,
        480 => FrameSize::Samples480,
        _ => FrameSize::Samples960,
    }
}

/// The bandwidth of this number.
fn band_of(band: u32) -> Bandwidth
    ensures { result ≡ band_for band }
{
    match band {
        0 => Bandwidth::Narrow,
        1 => Bandwidth::Wide,
        2 => Bandwidth::SuperWide,
        _ => Bandwidth::Full,
    }
}

/// The settings as a stream's frames have them.
pub(crate) fn coding_of(settings: Settings) -> Coding
    ensures { result ≡ coding_for settings }
{
    Coding {
        bytes: settings.bytes,
        frame: size_of(settings.frame),
        band: band_of(settings.band),
    }
}

/// The place of a frame's size among the four.
fn size_number(frame: FrameSize) -> u8
    ensures value { result ≡ size_number frame }
    ensures most { result ≤ 3 }
{
    match frame {
        FrameSize::Samples120 => 0,
        FrameSize::Samples240 => 1,
        FrameSize::Samples480 => 2,
        FrameSize::Samples960 => 3,
    }
}

/// The place of a bandwidth among the four.
fn band_number(band: Bandwidth) -> u8
    ensures value { result ≡ band_number band }
    ensures most { result ≤ 3 }
{
    match band {
        Bandwidth::Narrow => 0,
        Bandwidth::Wide => 1,
        Bandwidth::SuperWide => 2,
        Bandwidth::Full => 3,
    }
}

/// The first byte of a packet of one frame (RFC 6716, section 3.1).
pub(crate) fn toc(settings: Coding, channels: u8) -> u8
    requires { (channels ≡ 1) ⊎ (channels ≡ 2) }
    ensures { result ≡ toc_of settings channels }
{
    8 * (16 + 4 * band_number(settings.band) + size_number(settings.frame)) + 4 * (channels - 1)
}
