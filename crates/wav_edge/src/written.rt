//! The header of a WAV file that is written.
ghost use Rattle.std.specs.Prelude.{◌≡◌};
ghost use Rattle.wav_edge.specs.Spellings.{header};

/// The header for 16-bit PCM at 48 kHz whose length is not known yet: both sizes are FFFFFFFF.
#[rattlefmt::skip]
pub fn write_header(channels: u8, out: &mut [u8; 44])
    ensures { out.new ≡ header channels }
{
    let [s0, s1, s2, s3] = (96_000 * u32::from(channels)).to_le_bytes();
    let [g0, g1] = (2 * u16::from(channels)).to_le_bytes();
    *out = [
        b'R', b'I', b'F', b'F', 0xFF, 0xFF, 0xFF, 0xFF, b'W', b'A', b'V', b'E',
        b'f', b'm', b't', b' ', 16, 0, 0, 0,
        1, 0, channels, 0, 0x80, 0xBB, 0, 0, s0, s1, s2, s3, g0, g1, 16, 0,
        b'd', b'a', b't', b'a', 0xFF, 0xFF, 0xFF, 0xFF,
    ];
}
