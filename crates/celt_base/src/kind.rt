//! The kind of a CELT frame: its size, its channels and its bandwidth (RFC 6716, section 3.1).
ghost use Rattle.std.specs.Prelude.{◌≡◌, ◌≤◌, IsTrue};
ghost use Rattle.celt_base.specs.Ends.{is_band_end};

/// The kind of a frame.
#[derive(Clone, Copy, Debug, PartialEq, Eq)]
pub struct Kind {
    /// The size exponent, 0 to 3: a frame has 120 << lm samples per channel at 48 kHz.
    pub lm: u8,
    /// 1 or 2.
    pub channels: u8,
    /// The number of coded bands: 13 (narrowband), 17 (wideband), 19 (super-wideband) or 21 (fullband).
    pub end: u8,
    ghost sized: { lm ≤ 3 },
    ghost some_channel: { 1 ≤ channels },
    ghost two_channels: { channels ≤ 2 },
    ghost ended: { IsTrue (is_band_end end) },
}

impl Kind {
    ghost use Rattle.celt_base.specs.Kinds.{IsKindOf};

    /// The kind that the first byte of a packet names; None exactly below configuration 16, the modes
    /// that are not CELT-only.
    pub fn of_toc(toc: u8) -> Option<Kind>
        ensures { IsKindOf toc result }
    {
        let config = toc / 8;
        if config < 16 {
            return None;
        }
        let end = match config / 4 {
            4 => 13,
            5 => 17,
            6 => 19,
            _ => 21,
        };
        Some(Kind {
            lm: config % 4,
            channels: 1 + toc / 4 % 2,
            end,
        })
    }
}
