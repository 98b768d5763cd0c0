//! How many bits a band may have, and how many it usually has (RFC 6716, section 4.3.3).
ghost use Rattle.std.specs.Prelude.{◌≡◌, ◌<◌, ◌≤◌, pos};
ghost use Rattle.celt_tables.specs.Tables.{caps_entry, cap_of};

use crate::bands::coefficients;
use celt_base::kind::Kind;

/// The greatest amounts, in 1/64 of a bit for each coefficient of each channel, less 64. Index order: the size of the
/// frame and within it the channels, then the band.
pub const CAPS: [[u32; 21]; 8] = [
    // 120 samples, one channel
    [
        224, 224, 224, 224, 224, 224, 224, 224, 160, 160, 160, 160, 185, 185, 185, 178, 178, 168,
        134, 61, 37,
    ],
    // 120 samples, two channels
    [
        224, 224, 224, 224, 224, 224, 224, 224, 240, 240, 240, 240, 207, 207, 207, 198, 198, 183,
        144, 66, 40,
    ],
    // 240 samples, one channel
    [
        160, 160, 160, 160, 160, 160, 160, 160, 185, 185, 185, 185, 193, 193, 193, 183, 183, 172,
        138, 64, 38,
    ],
    // 240 samples, two channels
    [
        240, 240, 240, 240, 240, 240, 240, 240, 207, 207, 207, 207, 204, 204, 204, 193, 193, 180,
        143, 66, 40,
    ],
    // 480 samples, one channel
    [
        185, 185, 185, 185, 185, 185, 185, 185, 193, 193, 193, 193, 193, 193, 193, 183, 183, 172,
        138, 65, 39,
    ],
    // 480 samples, two channels
    [
        207, 207, 207, 207, 207, 207, 207, 207, 204, 204, 204, 204, 201, 201, 201, 188, 188, 176,
        141, 66, 40,
    ],
    // 960 samples, one channel
    [
        193, 193, 193, 193, 193, 193, 193, 193, 193, 193, 193, 193, 194, 194, 194, 184, 184, 173,
        139, 65, 39,
    ],
    // 960 samples, two channels
    [
        204, 204, 204, 204, 204, 204, 204, 204, 201, 201, 201, 201, 198, 198, 198, 187, 187, 175,
        140, 66, 40,
    ],
];

/// The usual amounts at eleven qualities, in 1/32 of a bit for each coefficient. Index order: the quality, then the
/// band.
pub const ALLOCATION: [[u32; 21]; 11] = [
    [
        0, 0, 0, 0, 0, 0, 0, 0, 0, 0, 0, 0, 0, 0, 0, 0, 0, 0, 0, 0, 0,
    ],
    [
        90, 80, 75, 69, 63, 56, 49, 40, 34, 29, 20, 18, 10, 0, 0, 0, 0, 0, 0, 0, 0,
    ],
    [
        110, 100, 90, 84, 78, 71, 65, 58, 51, 45, 39, 32, 26, 20, 12, 0, 0, 0, 0, 0, 0,
    ],
    [
        118, 110, 103, 93, 86, 80, 75, 70, 65, 59, 53, 47, 40, 31, 23, 15, 4, 0, 0, 0, 0,
    ],
    [
        126, 119, 112, 104, 95, 89, 83, 78, 72, 66, 60, 54, 47, 39, 32, 25, 17, 12, 1, 0, 0,
    ],
    [
        134, 127, 120, 114, 103, 97, 91, 85, 78, 72, 66, 60, 54, 47, 41, 35, 29, 23, 16, 10, 1,
    ],
    [
        144, 137, 130, 124, 113, 107, 101, 95, 88, 82, 76, 70, 64, 57, 51, 45, 39, 33, 26, 15, 1,
    ],
    [
        152, 145, 138, 132, 123, 117, 111, 105, 98, 92, 86, 80, 74, 67, 61, 55, 49, 43, 36, 20, 1,
    ],
    [
        162, 155, 148, 142, 133, 127, 121, 115, 108, 102, 96, 90, 84, 77, 71, 65, 59, 53, 46, 30, 1,
    ],
    [
        172, 165, 158, 152, 143, 137, 131, 125, 118, 112, 106, 100, 94, 87, 81, 75, 69, 63, 56, 45,
        20,
    ],
    [
        200, 200, 200, 200, 200, 200, 200, 200, 198, 193, 188, 183, 178, 173, 168, 163, 158, 153,
        148, 129, 104,
    ],
];

// An entry of the greatest amounts.
fn caps_entry(row: u32, i: u32) -> u32
    requires row { row < 8 }
    requires band { i ≤ 20 }
    ensures value { result ≡ caps_entry row i }
    ensures most { result ≤ 240 }
{
    CAPS[row as usize][i as usize]
}

/// The most that band `i` may have, in eighths of a bit (RFC 6716, section 4.3.3).
pub fn cap(kind: Kind, i: u32) -> i32
    requires { i ≤ 20 }
    ensures { result ≡ pos (cap_of kind.lm kind.channels i) }
{
    let row = 2 * u32::from(kind.lm) + u32::from(kind.channels) - 1;
    ((caps_entry(row, i) + 64) * coefficients(kind, i) / 4) as i32
}
