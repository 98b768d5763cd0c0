//! The order by reversed digits (RFC 6716, section 4.3.7, transforms of 60, 120, 240 and 480 items), by exchanges in place.
ghost use Rattle.std.specs.Prelude.{◌≡◌, ℕ, ◌%◌, ◌<◌, ◌≤◌, length, slice_index};
ghost use Rattle.mdct_fixed.specs.Numbers.{at};
ghost use Rattle.mdct_fixed.specs.Transform.{radices, reversed};
ghost use Rattle.mdct_fixed.specs.Digits.{IsLength};
ghost use Rattle.mdct_fixed.specs.Exchanges.{IsExchanged, emitted};

use crate::complex::{get, put};

// With which place each place of 60 is exchanged, from the first on.
const PARTNERS_60: [u16; 60] = [
    0, 12, 24, 36, 48, 48, 16, 28, 40, 52, 40, 20, 32, 44, 56, 32, 44, 25, 37, 49, 48, 25, 29, 41,
    53, 52, 52, 33, 45, 57, 53, 56, 52, 38, 50, 44, 37, 53, 42, 54, 40, 57, 50, 46, 58, 53, 52, 50,
    54, 51, 53, 51, 56, 56, 55, 55, 57, 58, 58, 59,
];

// With which place each place of 120 is exchanged, from the first on.
const PARTNERS_120: [u16; 120] = [
    0, 24, 48, 72, 96, 8, 32, 56, 80, 104, 16, 40, 64, 88, 112, 96, 28, 52, 76, 100, 64, 36, 60,
    84, 108, 64, 44, 68, 92, 116, 108, 64, 49, 73, 97, 104, 73, 57, 81, 105, 52, 41, 65, 89, 113,
    80, 116, 53, 77, 101, 88, 57, 61, 85, 109, 73, 80, 69, 93, 117, 77, 113, 88, 74, 98, 92, 97,
    93, 82, 106, 76, 92, 97, 90, 114, 101, 108, 109, 78, 102, 112, 81, 88, 86, 110, 109, 116, 108,
    94, 118, 97, 94, 106, 101, 99, 113, 104, 117, 116, 107, 100, 118, 118, 107, 115, 112, 116, 117,
    118, 117, 115, 112, 114, 118, 114, 115, 117, 117, 118, 119,
];

// With which place each place of 240 is exchanged, from the first on.
const PARTNERS_240: [u16; 240] = [
    0, 48, 96, 144, 192, 16, 64, 112, 160, 208, 32, 80, 128, 176, 224, 192, 52, 100, 148, 196, 20,
    68, 116, 164, 212, 36, 84, 132, 180, 228, 160, 56, 104, 152, 200, 212, 72, 120, 168, 216, 40,
    88, 136, 184, 232, 128, 60, 108, 156, 204, 180, 76, 124, 172, 220, 232, 92, 140, 188, 236, 156,
    204, 97, 145, 193, 100, 100, 113, 161, 209, 152, 81, 129, 177, 225, 124, 172, 101, 149, 197,
    161, 209, 117, 165, 213, 120, 120, 133, 181, 229, 208, 140, 105, 153, 201, 129, 177, 121, 169,
    217, 181, 229, 137, 185, 233, 176, 204, 109, 157, 205, 228, 229, 125, 173, 221, 128, 153, 141,
    189, 237, 177, 180, 169, 146, 194, 148, 181, 221, 162, 210, 200, 141, 200, 178, 226, 193, 220,
    137, 150, 198, 153, 152, 189, 166, 214, 168, 177, 226, 182, 230, 233, 188, 204, 154, 202, 213,
    225, 169, 170, 218, 220, 208, 233, 186, 234, 224, 180, 228, 170, 206, 220, 230, 181, 174, 222,
    225, 201, 189, 190, 238, 214, 181, 217, 226, 195, 196, 222, 233, 222, 211, 212, 224, 204, 238,
    227, 217, 232, 232, 222, 199, 234, 209, 237, 228, 215, 216, 212, 238, 226, 231, 226, 236, 216,
    213, 228, 234, 227, 236, 230, 219, 236, 237, 222, 233, 235, 234, 236, 229, 230, 238, 231, 232,
    237, 234, 234, 238, 236, 237, 238, 239,
];

// With which place each place of 480 is exchanged, from the first on.
const PARTNERS_480: [u16; 480] = [
    0, 96, 192, 288, 384, 32, 128, 224, 320, 416, 64, 160, 256, 352, 448, 16, 112, 208, 304, 400,
    48, 144, 240, 336, 432, 80, 176, 272, 368, 464, 384, 100, 196, 292, 388, 36, 132, 228, 324,
    420, 68, 164, 260, 356, 452, 48, 116, 212, 308, 404, 52, 148, 244, 340, 436, 84, 180, 276, 372,
    468, 320, 104, 200, 296, 392, 68, 136, 232, 328, 424, 72, 168, 264, 360, 456, 432, 120, 216,
    312, 408, 180, 152, 248, 344, 440, 88, 184, 280, 376, 472, 256, 108, 204, 300, 396, 452, 140,
    236, 332, 428, 120, 172, 268, 364, 460, 368, 124, 220, 316, 412, 320, 156, 252, 348, 444, 204,
    188, 284, 380, 476, 140, 236, 193, 289, 385, 292, 129, 225, 321, 417, 328, 161, 257, 353, 449,
    208, 348, 209, 305, 401, 404, 145, 241, 337, 433, 152, 177, 273, 369, 465, 196, 172, 197, 293,
    389, 228, 353, 229, 325, 421, 424, 165, 261, 357, 453, 433, 284, 213, 309, 405, 340, 465, 245,
    341, 437, 376, 181, 277, 373, 469, 416, 368, 201, 297, 393, 453, 209, 233, 329, 425, 360, 405,
    265, 361, 457, 416, 236, 217, 313, 409, 276, 293, 249, 345, 441, 472, 453, 281, 377, 473, 352,
    412, 472, 301, 397, 308, 217, 237, 333, 429, 237, 341, 269, 365, 461, 464, 292, 341, 317, 413,
    460, 413, 253, 349, 445, 300, 425, 285, 381, 477, 265, 332, 457, 290, 386, 388, 328, 292, 322,
    418, 348, 261, 258, 354, 450, 304, 444, 352, 306, 402, 386, 277, 457, 338, 434, 322, 373, 274,
    370, 466, 321, 370, 313, 294, 390, 324, 449, 460, 326, 422, 434, 284, 457, 358, 454, 322, 380,
    397, 310, 406, 436, 425, 328, 342, 438, 393, 342, 326, 374, 470, 392, 385, 418, 374, 394, 386,
    386, 445, 330, 426, 456, 340, 373, 362, 458, 368, 361, 333, 458, 410, 372, 389, 348, 346, 442,
    444, 473, 457, 378, 474, 448, 372, 453, 418, 398, 474, 453, 381, 398, 430, 373, 437, 389, 366,
    462, 384, 417, 466, 458, 414, 449, 444, 450, 449, 446, 396, 360, 380, 382, 478, 456, 428, 416,
    425, 387, 450, 433, 437, 417, 419, 446, 380, 402, 396, 451, 400, 441, 412, 445, 403, 419, 438,
    436, 430, 435, 462, 469, 442, 419, 467, 461, 442, 409, 393, 442, 420, 412, 413, 457, 423, 426,
    462, 457, 478, 455, 453, 476, 448, 412, 448, 440, 419, 445, 433, 439, 434, 473, 422, 426, 471,
    424, 458, 435, 470, 424, 456, 462, 448, 457, 448, 432, 465, 461, 456, 459, 473, 476, 448, 473,
    471, 468, 462, 460, 466, 466, 457, 471, 476, 478, 475, 469, 475, 454, 475, 470, 472, 473, 477,
    474, 465, 477, 462, 471, 478, 478, 472, 478, 469, 468, 472, 472, 474, 477, 478, 476, 477, 477,
    478, 478, 479,
];

/// Puts to each place the item at the place with the reversed digits: the radices of the length, in turn, are the bases of
/// the digits. The lists have 60, 120, 240 or 480 items.
pub fn reverse_digits(re: &mut [i64], im: &mut [i64])
    requires one_length { length re.old ≡ length im.old }
    requires length { IsLength (length re.old) }
    ensures { (k : ℕ) → k < length re.old → at re.new im.new k ≡ at re.old im.old (reversed (radices (length re.old)) k) }
{
    let n = re.len();
    if n == 60 {
        exchange_all(re, im, &PARTNERS_60);
    } else if n == 120 {
        exchange_all(re, im, &PARTNERS_120);
    } else if n == 240 {
        exchange_all(re, im, &PARTNERS_240);
    } else {
        exchange_all(re, im, &PARTNERS_480);
    }
}

// Exchanges each place with its partner, which is not before it, from the first on, two places a turn.
fn exchange_all(re: &mut [i64], im: &mut [i64], partners: &[u16])
    requires re_length { length re.old ≡ length partners.now }
    requires im_length { length im.old ≡ length partners.now }
    requires even { length partners.now % 2 ≡ 0 }
    requires order { (k : ℕ) → k < length partners.now → k ≤ slice_index partners.now k }
    requires inside { (k : ℕ) → k < length partners.now → slice_index partners.now k < length partners.now }
    ensures { (k : ℕ) → k < length partners.now → at re.new im.new k ≡ at re.old im.old (emitted partners.now (length partners.now) k) }
{
    for k in 0..partners.len() / 2 {
        exchange(re, im, 2 * k, partners[2 * k] as usize);
        exchange(re, im, 2 * k + 1, partners[2 * k + 1] as usize);
    }
}

// Exchanges the items at two places.
fn exchange(re: &mut [i64], im: &mut [i64], a: usize, b: usize)
    requires one_length { length re.old ≡ length im.old }
    requires first { a < length re.old }
    requires second { b < length re.old }
    ensures { IsExchanged a b (at re.old im.old) (at re.new im.new) }
{
    let x = get(re, im, a);
    let y = get(re, im, b);
    put(re, im, a, y);
    put(re, im, b, x);
}
