//! How the coarse energies are distributed, and their means (RFC 6716, section 4.3.2.1).
ghost use Rattle.std.specs.Prelude.{◌≡◌, ◌<◌, ◌≤◌, if◌then◌else◌};
ghost use Rattle.celt_base.specs.declared.question.Question.TheVariants.{Laplace};
ghost use Rattle.celt_base.specs.Questions.{IsValid};
ghost use Rattle.celt_tables.specs.Tables.{model_entry, fs_of, decay_of};

use celt_base::question::Question;

/// For each band two numbers: the probability of 0 (Q8) and how the others fall (Q8). Index order: the size of the frame,
/// then inter and intra, then the band, twice.
pub const ENERGY_MODELS: [[[u32; 42]; 2]; 4] = [
    // 120 samples
    [
        // inter
        [
            72, 127, 65, 129, 66, 128, 65, 128, 64, 128, 62, 128, 64, 128, 64, 128, 92, 78, 92, 79,
            92, 78, 90, 79, 116, 41, 115, 40, 114, 40, 132, 26, 132, 26, 145, 17, 161, 12, 176, 10,
            177, 11,
        ],
        // intra
        [
            24, 179, 48, 138, 54, 135, 54, 132, 53, 134, 56, 133, 55, 132, 55, 132, 61, 114, 70,
            96, 74, 88, 75, 88, 87, 74, 89, 66, 91, 67, 100, 59, 108, 50, 120, 40, 122, 37, 97, 43,
            78, 50,
        ],
    ],
    // 240 samples
    [
        // inter
        [
            83, 78, 84, 81, 88, 75, 86, 74, 87, 71, 90, 73, 93, 74, 93, 74, 109, 40, 114, 36, 117,
            34, 117, 34, 143, 17, 145, 18, 146, 19, 162, 12, 165, 10, 178, 7, 189, 6, 190, 8, 177,
            9,
        ],
        // intra
        [
            23, 178, 54, 115, 63, 102, 66, 98, 69, 99, 74, 89, 71, 91, 73, 91, 78, 89, 86, 80, 92,
            66, 93, 64, 102, 59, 103, 60, 104, 60, 117, 52, 123, 44, 138, 35, 133, 31, 97, 38, 77,
            45,
        ],
    ],
    // 480 samples
    [
        // inter
        [
            61, 90, 93, 60, 105, 42, 107, 41, 110, 45, 116, 38, 113, 38, 112, 38, 124, 26, 132, 27,
            136, 19, 140, 20, 155, 14, 159, 16, 158, 18, 170, 13, 177, 10, 187, 8, 192, 6, 175, 9,
            159, 10,
        ],
        // intra
        [
            21, 178, 59, 110, 71, 86, 75, 85, 84, 83, 91, 66, 88, 73, 87, 72, 92, 75, 98, 72, 105,
            58, 107, 54, 115, 52, 114, 55, 112, 56, 129, 51, 132, 40, 150, 33, 140, 29, 98, 35, 77,
            42,
        ],
    ],
    // 960 samples
    [
        // inter
        [
            42, 121, 96, 66, 108, 43, 111, 40, 117, 44, 123, 32, 120, 36, 119, 33, 127, 33, 134,
            34, 139, 21, 147, 23, 152, 20, 158, 25, 154, 26, 166, 21, 173, 16, 184, 13, 184, 10,
            150, 13, 139, 15,
        ],
        // intra
        [
            22, 178, 63, 114, 74, 82, 84, 83, 92, 82, 103, 62, 96, 72, 96, 67, 101, 73, 107, 72,
            113, 55, 118, 52, 125, 52, 118, 52, 117, 55, 135, 49, 137, 39, 157, 32, 145, 29, 97,
            33, 77, 40,
        ],
    ],
];

/// The mean energy of each band, in 1/16 of a power of two.
pub const MEANS: [u32; 21] = [
    103, 100, 92, 85, 81, 77, 72, 70, 78, 75, 73, 71, 78, 74, 69, 72, 70, 74, 76, 71, 60,
];

// An entry of the models.
fn model_entry(lm: u8, intra: bool, place: u32) -> u32
    requires lm { lm ≤ 3 }
    requires place { place < 42 }
    ensures value { result ≡ model_entry lm (if intra then 1 else 0) place }
    ensures least { 1 ≤ result }
    ensures most { result ≤ 192 }
{
    if intra {
        ENERGY_MODELS[lm as usize][1][place as usize]
    } else {
        ENERGY_MODELS[lm as usize][0][place as usize]
    }
}

/// The question of a coarse energy where the budget allows it.
pub fn coarse_question(lm: u8, intra: bool, band: u32) -> Question
    requires lm { lm ≤ 3 }
    requires band { band ≤ 20 }
    ensures value { result ≡ Laplace (fs_of lm intra band) (decay_of lm intra band) }
    ensures valid { IsValid result }
{
    Question::Laplace {
        fs: model_entry(lm, intra, 2 * band) * 128,
        decay: model_entry(lm, intra, 2 * band + 1) * 64,
    }
}
