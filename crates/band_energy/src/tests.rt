//! Rows of the energies, worked by hand or computed apart from this program.
ghost use Rattle.std.specs.Prelude.{◌≡◌, ◌+◌, ◌^◌, ◌<◌, ◌≤◌, ℕ, List, slice_index, unsigned_abs};
ghost use Rattle.celt_base.specs.Energies.{AreEnergies};
ghost use Rattle.band_energy.specs.EnergyRows.{AreCoarse, FitsFineBits, AreBits};
ghost use Rattle.range_coder.specs.Readers.{reader_count};

use super::{Energy, apply, coarse, fine, last};
use celt_base::coder::{Coder, Mute};
use celt_base::kind::Kind;
use celt_base::question::Question;
use celt_base::state::Allocation;
use range_coder::Reader;

// Answers of which only the first coarse one is not 0.
pub(crate) fn answers_of_one(first: i32) -> Energy
    requires { unsigned_abs first ≤ 2 ^ 14 }
    ensures coarse { AreCoarse result.coarse }
    ensures fine { (bits : List ℕ) → FitsFineBits bits result.fine }
    ensures last { AreBits result.last }
{
    let mut coarse = [[0; 21]; 2];
    coarse[0][0] = first;
    Energy {
        coarse,
        fine: [[0; 21]; 2],
        last: [[None; 21]; 2],
    }
}

// The bytes of a noise, behind a first one.
fn frame_of(first: u8, start: u32) -> [u8; 64] {
    let mut bytes = [first; 64];
    let mut seed = start.wrapping_mul(1_664_525).wrapping_add(1_013_904_223);
    for k in 1..64 {
        seed = seed.wrapping_mul(1_664_525).wrapping_add(1_013_904_223);
        bytes[k] = (seed >> 24) as u8;
    }
    bytes
}

// The bits of a band's fine energy: eight bands a number, each in four bits, the first band lowest.
fn bits_of(bands: [u32; 3], band: usize) -> u32
    requires { band < 21 }
    ensures { result ≤ 8 }
{
    (bands[band / 8] >> (4 * (band % 8)) & 15).min(8)
}

// An allocation with these bits of the fine energies, and the priorities in one number, the first band lowest.
pub(crate) fn allocation_of(bands: [u32; 3], priorities: u32) -> Allocation
    ensures { (band : ℕ) → band < 21 → slice_index result.fine band ≤ 8 }
{
    let mut fine = [0; 21];
    let mut priority = [false; 21];
    for band in 0..21 {
        fine[band] = bits_of(bands, band);
        priority[band] = (priorities >> band) % 2 == 1;
    }
    Allocation {
        coded: 1,
        intensity: 0,
        dual: false,
        balance: 0,
        pulses: [0; 21],
        fine,
        priority,
    }
}

// The questions before the coarse energies: silence and post-filter, which the frames here do not have, short blocks, and
// whether the energies are coded without the frame before.
fn read_intra(reader: &mut Reader, lm: u8) -> bool
    requires { reader_count reader.old ≡ 0 }
    ensures { reader_count reader.new ≤ 4 }
{
    reader.ask(Question::Bit(15), 0);
    reader.ask(Question::Bit(1), 0);
    if lm > 0 {
        reader.ask(Question::Bit(3), 0);
        return reader.ask(Question::Bit(3), 0) == 1;
    }
    reader.ask(Question::Bit(3), 0) == 1
}

// Passes over raw bits, those of the bands.
fn pass_raw(reader: &mut Reader, count: u32)
    requires few { reader_count reader.old ≤ 100 }
    requires count { count < 1024 }
    ensures { reader_count reader.new ≤ reader_count reader.old + count }
{
    for _k in 0..count {
        reader.ask(Question::Raw(1), 0);
    }
}

pub(crate) fn add(digest: u64, number: u64) -> u64 {
    digest.wrapping_mul(1_000_003).wrapping_add(number)
}

pub(crate) fn upper_half(digest: u64) -> u32 {
    (digest >> 32) as u32
}

// The upper half of the digest of the digests of the coarse energies, the fine ones, the last bits and the energies, channel
// by channel. A last bit is 0 where none was asked, else one above the answer.
pub(crate) fn digest_of(out: &Energy, energies: &[[i64; 21]; 2]) -> u32 {
    let mut digests = [0u64; 4];
    for channel in 0..2 {
        for band in 0..21 {
            let coarse = i64::from(out.coarse[channel][band]).cast_unsigned();
            let fine = u64::from(out.fine[channel][band]);
            let last = out.last[channel][band].map_or(0, |bit| 1 + u64::from(bit % 2));
            let energy = energies[channel][band].cast_unsigned();
            digests = [
                add(digests[0], coarse),
                add(digests[1], fine),
                add(digests[2], last),
                add(digests[3], energy),
            ];
        }
    }
    let [coarse, fine, last, energy] = digests;
    upper_half(add(add(add(coarse, fine), last), energy))
}

// Each row is a frame of its own bytes behind a first one, two frames a stream whose energies are 0 at first. It has: whether
// it begins a stream, the first byte of its packet, where the noise of its bytes begins, its first byte, its length, three
// numbers for the bits of its fine energies, the priorities, the raw bits of its bands, the bits left behind them, and the
// digest of the answers and the energies.
type Row = [u32; 12];

const ROWS: [Row; 128] = [
    [1, 128, 647892279, 10, 3, 0, 0, 0, 8191, 0, 0, 639497085],
    [
        0, 128, 2795742288, 47, 8, 65809, 0, 0, 8182, 8, 2, 383544633,
    ],
    [
        1, 128, 2503055453, 114, 12, 17895713, 65809, 0, 5746, 8, 0, 3687691015,
    ],
    [
        0, 128, 922121676, 125, 60, 2290649224, 69912, 0, 0, 9, 327, 3926327909,
    ],
    [
        1, 160, 300026767, 73, 40, 1717986918, 1431655765, 5, 85744, 77, 0, 4063067285,
    ],
    [
        0, 160, 1823296038, 29, 18, 287384114, 537989393, 0, 48810, 12, 1, 3983063287,
    ],
    [
        1, 160, 2514881269, 116, 5, 0, 0, 0, 131071, 0, 0, 1421574843,
    ],
    [0, 160, 949539216, 125, 5, 0, 0, 0, 131071, 0, 0, 3859309002],
    [
        1, 192, 776213899, 48, 18, 303178290, 269549841, 256, 308954, 8, 0, 924920234,
    ],
    [
        0, 192, 2744112455, 71, 40, 1146438997, 1145324613, 324, 260406, 89, 0, 3885933197,
    ],
    [
        1, 192, 3058492450, 118, 60, 1734829926, 1717982549, 1382, 261716, 133, 2, 124746465,
    ],
    [
        0, 192, 2423943363, 125, 12, 17895954, 1118481, 0, 508037, 4, 0, 2036382441,
    ],
    [
        1, 224, 3338172184, 47, 8, 69906, 1, 0, 2096864, 1, 0, 217582152,
    ],
    [
        0, 224, 3966150535, 119, 3, 0, 0, 0, 2097151, 0, 0, 3214417350,
    ],
    [
        1, 224, 3411833895, 121, 26, 304227123, 286396706, 4369, 1053286, 34, 0, 1510252845,
    ],
    [
        0, 224, 1048386555, 122, 26, 303178274, 286331153, 74001, 542936, 31, 1, 2510267568,
    ],
    [1, 132, 3132943648, 16, 3, 0, 0, 0, 8191, 0, 0, 3207725037],
    [0, 132, 4209818936, 117, 8, 0, 0, 0, 8191, 0, 0, 4041727712],
    [1, 132, 3251895551, 113, 12, 0, 0, 0, 8191, 2, 0, 1683239145],
    [
        0, 132, 2100080514, 72, 60, 2290649224, 559240, 0, 224, 23, 96, 63125249,
    ],
    [
        1, 164, 1347535308, 77, 40, 590623812, 304226867, 1, 598, 39, 1, 1344907998,
    ],
    [
        0, 164, 2986270863, 126, 18, 257, 69904, 0, 123364, 16, 0, 4228898567,
    ],
    [
        1, 164, 1159380353, 121, 5, 0, 0, 0, 131071, 0, 0, 2477264132,
    ],
    [0, 164, 279172786, 121, 5, 0, 0, 0, 131071, 0, 0, 970434734],
    [
        1, 196, 3077892946, 60, 18, 16, 69888, 0, 517106, 16, 1, 2527643,
    ],
    [
        0, 196, 1490376253, 117, 40, 573715507, 304226850, 273, 27692, 60, 0, 2270464951,
    ],
    [
        1, 196, 2623879480, 118, 60, 859063364, 841098035, 290, 34716, 104, 0, 1914507234,
    ],
    [
        0, 196, 2120395274, 116, 12, 0, 0, 0, 524287, 0, 0, 4263577747,
    ],
    [1, 228, 3171246566, 64, 8, 0, 0, 0, 2097151, 0, 0, 368102254],
    [
        0, 228, 1708957520, 22, 3, 0, 0, 0, 2097151, 0, 0, 1563425832,
    ],
    [
        1, 228, 1929245186, 116, 26, 69905, 1, 0, 2092316, 16, 0, 3648727281,
    ],
    [
        0, 228, 2359826449, 120, 26, 16847137, 1, 0, 2091354, 18, 2, 1350561579,
    ],
    [1, 136, 3033950778, 30, 3, 0, 0, 0, 8191, 0, 0, 3234583534],
    [0, 136, 4236843850, 114, 8, 0, 0, 0, 8191, 0, 1, 3022471602],
    [
        1, 136, 649821629, 98, 12, 4097, 69888, 0, 1017, 0, 1, 3098887961,
    ],
    [
        0, 136, 2828307593, 111, 60, 2290649224, 70024, 0, 0, 12, 220, 3127391253,
    ],
    [
        1, 168, 2530266207, 114, 40, 1163224678, 286540868, 1, 2172, 69, 0, 944030012,
    ],
    [
        0, 168, 1128488133, 106, 18, 286401059, 17891601, 0, 100061, 0, 0, 4015791013,
    ],
    [
        1, 168, 2432417041, 109, 5, 0, 0, 0, 131071, 0, 0, 3815193897,
    ],
    [0, 168, 4093524416, 88, 5, 0, 0, 0, 131071, 0, 0, 2013333985],
    [
        1, 200, 1685254563, 119, 18, 17, 0, 512, 294883, 10, 0, 1179441210,
    ],
    [
        0, 200, 1713601028, 98, 40, 573711155, 572793378, 274, 81639, 70, 1, 2097856969,
    ],
    [
        1, 200, 818661757, 105, 60, 858997828, 858993459, 819, 523919, 169, 0, 2761950411,
    ],
    [
        0, 200, 4229115149, 117, 12, 1, 69888, 0, 517105, 0, 0, 3162299773,
    ],
    [
        1, 232, 2580103945, 69, 8, 17895424, 17, 0, 2096263, 0, 0, 4027074450,
    ],
    [0, 232, 439717024, 79, 3, 0, 0, 0, 2097151, 0, 0, 1628450495],
    [
        1, 232, 109525498, 107, 26, 286335522, 286331153, 4369, 1306350, 11, 1, 3657595811,
    ],
    [
        0, 232, 3755228983, 100, 26, 286401059, 286331153, 273, 1830041, 8, 2, 2642920118,
    ],
    [1, 140, 2724768391, 61, 3, 0, 0, 0, 8191, 0, 0, 1795271675],
    [0, 140, 4103703932, 119, 8, 0, 0, 0, 8191, 0, 1, 4196483607],
    [1, 140, 2001409495, 99, 12, 0, 0, 0, 8191, 0, 1, 3591577351],
    [
        0, 140, 2078054027, 117, 60, 1431660134, 70997, 0, 1039, 19, 100, 3592196405,
    ],
    [
        1, 172, 3179784293, 115, 40, 286331426, 269549841, 0, 47078, 54, 1, 1913975137,
    ],
    [
        0, 172, 2972361206, 100, 18, 0, 256, 0, 130047, 0, 1, 1993705068,
    ],
    [1, 172, 3926226243, 106, 5, 0, 0, 0, 131071, 0, 0, 354465694],
    [
        0, 172, 3631169782, 100, 5, 0, 0, 0, 131071, 0, 0, 4017300376,
    ],
    [
        1, 204, 2159067275, 31, 18, 0, 69905, 0, 516344, 3, 1, 1972154115,
    ],
    [
        0, 204, 2733497277, 109, 40, 3215634, 3, 0, 511389, 25, 2, 3513332838,
    ],
    [
        1, 204, 3450259197, 109, 60, 321004067, 554832146, 273, 37169, 149, 0, 3287334446,
    ],
    [
        0, 204, 2116481898, 116, 12, 0, 0, 0, 524287, 0, 0, 731965111,
    ],
    [
        1, 236, 2028255629, 47, 8, 0, 0, 0, 2097151, 0, 0, 3768537265,
    ],
    [0, 236, 1478675319, 14, 3, 0, 0, 0, 2097151, 0, 0, 809800101],
    [
        1, 236, 974295420, 101, 26, 1, 1048576, 0, 2084857, 0, 2, 1701975210,
    ],
    [
        0, 236, 844846557, 107, 26, 286331154, 69905, 0, 2089073, 0, 0, 3933677306,
    ],
    [1, 144, 8196148, 118, 3, 0, 0, 0, 8191, 0, 0, 820374179],
    [
        0, 144, 2762235647, 23, 8, 0, 65552, 0, 3325, 0, 1, 3352534111,
    ],
    [
        1, 144, 2730921541, 105, 12, 1, 65536, 0, 7409, 0, 3, 1537796101,
    ],
    [
        0, 144, 3100213626, 109, 60, 909395014, 275268, 0, 4894, 143, 0, 2714295430,
    ],
    [
        1, 176, 4066462189, 17, 40, 286335522, 823202129, 0, 118498, 72, 0, 395175018,
    ],
    [
        0, 176, 3112986562, 76, 18, 1118482, 17895441, 0, 99129, 5, 2, 169523035,
    ],
    [
        1, 176, 3886310153, 108, 5, 0, 0, 0, 131071, 0, 0, 1731154533,
    ],
    [0, 176, 4210381974, 100, 5, 0, 0, 0, 131071, 0, 1, 836889511],
    [
        1, 208, 562571390, 56, 18, 74001, 17891329, 0, 495900, 4, 4, 3446649071,
    ],
    [
        0, 208, 2790331461, 4, 40, 304226851, 555880994, 289, 178033, 107, 0, 1297586753,
    ],
    [
        1, 208, 1081622282, 102, 60, 572666675, 572662306, 546, 19598, 219, 0, 998081205,
    ],
    [
        0, 208, 2518728461, 111, 12, 0, 0, 0, 524024, 0, 2, 534529122,
    ],
    [
        1, 240, 562957179, 68, 8, 286330880, 17, 0, 2096135, 0, 1, 3397021505,
    ],
    [
        0, 240, 2154565813, 24, 3, 0, 0, 0, 2097151, 0, 0, 3983624922,
    ],
    [
        1, 240, 2613722295, 100, 26, 286335522, 286331154, 0, 2031884, 32, 0, 879621311,
    ],
    [
        0, 240, 643396775, 107, 26, 286331170, 286331153, 0, 2051827, 21, 4, 3165467528,
    ],
    [1, 148, 3114681390, 88, 3, 0, 0, 0, 8191, 0, 0, 1402774404],
    [0, 148, 2390044639, 110, 8, 0, 0, 0, 8191, 0, 0, 2189349468],
    [
        1, 148, 3334999595, 101, 12, 4352, 65536, 0, 4083, 0, 0, 1118719515,
    ],
    [
        0, 148, 244051092, 98, 60, 572662307, 74274, 0, 3313, 131, 0, 222953347,
    ],
    [
        1, 180, 3316836186, 113, 40, 1118482, 16842769, 0, 119609, 16, 0, 128814556,
    ],
    [
        0, 180, 2180614994, 103, 18, 286326784, 17, 0, 130063, 0, 1, 1681635150,
    ],
    [
        1, 180, 2199716799, 105, 5, 0, 0, 0, 131071, 0, 0, 2132177853,
    ],
    [
        0, 180, 2975257005, 106, 5, 0, 0, 0, 131071, 0, 0, 4098411417,
    ],
    [
        1, 212, 4043716558, 18, 18, 0, 4352, 0, 521215, 0, 0, 579302516,
    ],
    [
        0, 212, 4051301074, 99, 40, 69905, 17891601, 0, 522014, 38, 0, 1789022821,
    ],
    [
        1, 212, 1685192164, 108, 60, 286335522, 286331153, 1, 395461, 187, 1, 3651362739,
    ],
    [
        0, 212, 1357122900, 10, 12, 17891328, 17, 0, 523407, 0, 0, 1111779026,
    ],
    [
        1, 244, 3336900082, 18, 8, 0, 0, 0, 2097151, 0, 0, 3868915579,
    ],
    [
        0, 244, 1572745251, 101, 3, 0, 0, 0, 2097151, 0, 0, 2568141523,
    ],
    [
        1, 244, 404265716, 100, 26, 1, 69904, 0, 2089185, 2, 2, 933660379,
    ],
    [
        0, 244, 3800757764, 91, 26, 1, 0, 0, 2095329, 4, 2, 605119154,
    ],
    [1, 152, 2214506875, 46, 3, 0, 0, 0, 8191, 0, 0, 4186392621],
    [
        0, 152, 1456492749, 99, 8, 285212672, 69905, 0, 62, 0, 3, 2283724184,
    ],
    [
        1, 152, 3101614209, 106, 12, 0, 69905, 0, 1792, 0, 1, 3561939570,
    ],
    [
        0, 152, 83678549, 105, 60, 590558003, 205619, 0, 6000, 248, 1, 2851147551,
    ],
    [
        1, 184, 3020012165, 66, 40, 286401075, 17961234, 2, 4379, 121, 4, 2896284043,
    ],
    [
        0, 184, 1650747322, 115, 18, 1118481, 69905, 0, 126780, 12, 4, 785382349,
    ],
    [1, 184, 450024945, 98, 5, 0, 0, 0, 131071, 0, 0, 2558691708],
    [0, 184, 1140589863, 17, 5, 0, 0, 0, 131071, 0, 2, 1376605125],
    [
        1, 216, 3520916563, 20, 18, 17895698, 4369, 0, 524145, 19, 5, 608922575,
    ],
    [
        0, 216, 4063045762, 109, 40, 287449635, 286396962, 0, 460601, 128, 3, 3234164373,
    ],
    [
        1, 216, 1404662647, 110, 60, 572662323, 572662306, 290, 85747, 241, 2, 657097608,
    ],
    [
        0, 216, 1198563463, 10, 12, 1, 268435457, 0, 459201, 0, 2, 4223149941,
    ],
    [
        1, 248, 1119061845, 16, 8, 272, 0, 0, 2097144, 0, 1, 3778893884,
    ],
    [0, 248, 955235051, 98, 3, 0, 0, 0, 2097151, 0, 0, 4248030435],
    [
        1, 248, 2375392305, 106, 26, 1118481, 1118481, 196608, 3900, 30, 2, 233705897,
    ],
    [
        0, 248, 555016296, 114, 26, 286331170, 17895697, 0, 2067555, 44, 1, 4173658597,
    ],
    [1, 156, 1124831725, 81, 3, 0, 0, 0, 8191, 0, 0, 2157137628],
    [0, 156, 778016012, 106, 8, 0, 0, 0, 8191, 0, 1, 2545795358],
    [
        1, 156, 3262020162, 106, 12, 272, 1, 0, 7928, 0, 0, 1855465449,
    ],
    [
        0, 156, 1245372313, 45, 60, 286401058, 135442, 0, 4508, 199, 0, 180519251,
    ],
    [
        1, 188, 3451774791, 112, 40, 17895697, 69905, 0, 126584, 81, 5, 2520564520,
    ],
    [
        0, 188, 4271340630, 66, 18, 0, 69905, 0, 123376, 0, 4, 646264133,
    ],
    [1, 188, 2039081424, 99, 5, 0, 0, 0, 131071, 0, 0, 133184024],
    [0, 188, 4014260437, 108, 5, 0, 0, 0, 131071, 0, 0, 363818334],
    [
        1, 220, 2176199605, 44, 18, 0, 69905, 0, 517104, 0, 1, 1517714086,
    ],
    [
        0, 220, 2953828283, 52, 40, 1118481, 17895697, 0, 495420, 49, 1, 1162388512,
    ],
    [
        1, 220, 4249604144, 111, 60, 286331426, 17895697, 0, 493766, 165, 2, 3991875073,
    ],
    [
        0, 220, 4217150806, 113, 12, 0, 0, 0, 524287, 1, 1, 780407876,
    ],
    [
        1, 252, 3778945342, 113, 8, 0, 0, 0, 2097151, 0, 0, 2073512811,
    ],
    [
        0, 252, 1850017269, 111, 3, 0, 0, 0, 2097151, 0, 0, 3252467262,
    ],
    [
        1, 252, 4170112528, 109, 26, 0, 65553, 0, 2089920, 16, 0, 3349136701,
    ],
    [
        0, 252, 2571733700, 98, 26, 1, 4369, 0, 2093441, 0, 2, 468551705,
    ],
];

// Whether the calls, over the reader of the frame, come to this.
fn follows(row: Row, energies: &mut [[i64; 21]; 2]) -> bool
    requires { AreEnergies energies.old }
    ensures { AreEnergies energies.new }
{
    let [
        begins,
        toc,
        start,
        first,
        len,
        low,
        middle,
        high,
        priorities,
        raw,
        left,
        digest,
    ] = row;
    if begins == 1 {
        *energies = [[0; 21]; 2];
    }
    let Some(kind) = Kind::of_toc((toc % 256) as u8) else {
        return false;
    };
    let frame = frame_of((first % 256) as u8, start);
    let len = (len % 64) as usize;
    let mut reader = Reader::new(&frame[..len]);
    let a = allocation_of([low, middle, high], priorities);
    let mut out = answers_of_one(0);
    let intra = read_intra(&mut reader, kind.lm);
    coarse(
        &mut reader,
        &mut Mute,
        kind,
        intra,
        8 * len as u32,
        &mut out,
    );
    fine(&mut reader, &mut Mute, kind, &a, &mut out);
    pass_raw(&mut reader, raw % 1024);
    let budget = reader.tell() + left % 16_384;
    last(&mut reader, &mut Mute, kind, &a, budget, &mut out);
    apply(energies, kind, intra, &a, &out);
    digest_of(&out, energies) == digest
}

// The answers 3 and 0 of two coarse energies.
#[test]
fn energies_of_two_values(rt: HostRuntime) {
    let kind = Kind::of_toc(0xf8).expect(&rt, "a CELT configuration");
    let out = answers_of_one(3);
    let mut energies = [[0; 21]; 2];
    apply(&mut energies, kind, true, &allocation_of([0; 3], 0), &out);
    assert_eq!(rt; (energies[0][0], energies[0][1]), (3072, 2611));
    assert_eq!(rt; energies[1], [0; 21]);
}

// A frame of two zero bytes: the budget ends behind band 13.
#[test]
fn energies_of_two_bytes(rt: HostRuntime) {
    let kind = Kind::of_toc(0xf8).expect(&rt, "a CELT configuration");
    let mut reader = Reader::new(&[0, 0]);
    reader.ask(Question::Bit(15), 0);
    reader.ask(Question::Bit(3), 0);
    reader.ask(Question::Bit(3), 0);
    let a = allocation_of([0; 3], 0);
    let mut out = answers_of_one(0);
    coarse(&mut reader, &mut Mute, kind, false, 16, &mut out);
    fine(&mut reader, &mut Mute, kind, &a, &mut out);
    last(&mut reader, &mut Mute, kind, &a, 16, &mut out);
    let minus = [
        0, 0, 0, 0, 0, 0, 0, 0, 0, 0, 0, 0, 0, 0, -1, -1, -1, -1, -1, -1, -1,
    ];
    assert_eq!(rt; out.coarse, [minus, [0; 21]]);
    assert_eq!(rt; out.fine, [[0; 21]; 2]);
    assert_eq!(rt; out.last, [[None; 21]; 2]);
    assert_eq!(rt; reader.tell(), 16);
}

#[test]
fn frames_of_all_kinds(rt: HostRuntime) {
    let mut energies = [[0; 21]; 2];
    for (k, row) in ROWS.into_iter().enumerate() {
        assert!(rt; follows(row, &mut energies), "frame {k}");
    }
}
