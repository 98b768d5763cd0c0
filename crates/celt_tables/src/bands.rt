//! The bands of a frame (RFC 6716, section 4.3). Band i of a frame of 120 << lm samples per channel has
//! `width(i) << lm` coefficients. Index order: the band, 0 to 20.
ghost use Rattle.std.specs.Prelude.{◌≡◌, ◌+◌, ◌*◌, ◌^◌, ◌<◌, ◌≤◌};
ghost use Rattle.celt_tables.specs.Tables.{edge_of, width_of, size_of, coefficients_of};

use celt_base::kind::Kind;

/// Where the bands begin, in coefficients of a frame of 120 samples; the last entry is where the last band ends.
pub const EDGES: [u32; 22] = [
    0, 1, 2, 3, 4, 5, 6, 7, 8, 10, 12, 14, 16, 20, 24, 28, 34, 40, 48, 60, 78, 100,
];

/// The logarithm of a band's width for 120 samples, in eighths of a bit.
pub const WIDTH_LOGARITHMS: [u32; 21] = [
    0, 0, 0, 0, 0, 0, 0, 0, 8, 8, 8, 8, 16, 16, 16, 21, 21, 24, 29, 34, 36,
];

/// The eighths of a bit that the choice of one of so many bands and one more may take (RFC 6716, section 4.3.3).
/// Index order: the number of bands, 0 to 23.
pub const BAND_CHOICE_BITS: [u32; 24] = [
    0, 8, 13, 16, 19, 21, 23, 24, 26, 27, 28, 29, 30, 31, 32, 32, 33, 34, 34, 35, 36, 36, 37, 37,
];

/// Where band `i` begins in a frame of 120 samples; 21 is the end of the last band.
pub fn edge(i: u32) -> u32
    requires { i ≤ 21 }
    ensures { result ≡ edge_of i }
{
    EDGES[i as usize]
}

/// The width of band `i` in a frame of 120 samples.
pub fn width(i: u32) -> u32
    requires { i ≤ 20 }
    ensures value { result ≡ width_of i }
    ensures some { 1 ≤ result }
    ensures most { result ≤ 22 }
{
    edge(i + 1) - edge(i)
}

// The size of the frame in short blocks.
fn scale(kind: Kind) -> u32
    ensures value { result ≡ 2 ^ kind.lm }
    ensures least { 1 ≤ result }
    ensures most { result ≤ 8 }
{
    match kind.lm {
        0 => 1,
        1 => 2,
        2 => 4,
        _ => 8,
    }
}

/// The coefficients of band `i` in one channel.
pub fn size(kind: Kind, i: u32) -> u32
    requires { i ≤ 20 }
    ensures value { result ≡ size_of kind i }
    ensures least { 1 ≤ result }
    ensures most { result ≤ 176 }
{
    width(i) * scale(kind)
}

/// The coefficients of band `i` in all channels.
pub fn coefficients(kind: Kind, i: u32) -> u32
    requires { i ≤ 20 }
    ensures value { result ≡ coefficients_of kind i }
    ensures least { 1 ≤ result }
    ensures most { result ≤ 352 }
{
    u32::from(kind.channels) * size(kind, i)
}
