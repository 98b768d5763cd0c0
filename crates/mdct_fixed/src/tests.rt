//! Values of each call that were worked out apart from this crate, from the equations that its definitions state.
ghost use Rattle.std.specs.Prelude.{◌≡◌, ℕ, ◌+◌, ◌*◌, ◌/◌, ◌%◌, ◌^◌, ◌<◌, ◌≤◌, pos, ◌≤ℤ◌, unsigned_abs, length, All, IsTrue};
ghost use Rattle.fixed_math.specs.Items.{item};
ghost use Rattle.mdct_fixed.specs.Digits.{IsLength};
ghost use Rattle.mdct_fixed.specs.Mdct.{IsSize};

use super::{forward, forward_with, inverse, inverse_with, join_runs, reverse_digits};
use fixed_math::{Trig, noise};

/// Digests of inverse transforms of 120, 240, 480 and 960 items: of 1, -1, 2^30 and -2^30 alone at the first place, then at
/// the middle and at the last, and at last of noise.
const INVERSES: [[u64; 13]; 4] = [
    [
        5_856_366_909_932_495_549,
        12_590_377_163_777_056_067,
        9_523_379_854_023_902_681,
        8_923_364_219_685_648_935,
        6_891_178_849_889_369_771,
        15_867_374_292_686_977_552,
        6_305_611_377_212_754_720,
        12_141_132_696_496_796_896,
        15_678_582_954_290_947_147,
        2_768_161_119_418_604_469,
        11_624_792_704_204_469_019,
        6_821_951_369_505_082_597,
        9_285_984_571_122_363_972,
    ],
    [
        13_664_616_475_001_004_189,
        4_782_127_598_708_547_427,
        14_649_580_598_346_802_044,
        3_797_163_475_362_749_572,
        16_858_685_431_507_990_655,
        16_656_808_380_589_652_796,
        1_805_359_802_966_703_665,
        16_641_384_270_742_847_951,
        343_293_129_504_142_459,
        18_103_450_944_205_409_157,
        11_895_374_238_075_149_770,
        6_551_369_835_634_401_846,
        10_463_931_717_452_265_131,
    ],
    [
        14_795_298_019_456_353_373,
        3_651_446_054_253_198_243,
        10_557_725_542_325_956_064,
        7_889_018_531_383_595_552,
        16_048_221_196_299_492_491,
        3_579_192_672_872_088_672,
        7_079_688_070_616_272_474,
        11_367_056_003_093_279_142,
        16_211_334_697_373_143_259,
        2_235_409_376_336_408_357,
        12_314_146_298_390_738_918,
        6_132_597_775_318_812_698,
        5_299_427_939_957_386_047,
    ],
    [
        5_922_055_159_505_087_453,
        12_524_688_914_204_464_163,
        2_471_514_153_377_807_784,
        15_975_229_920_331_743_832,
        6_949_896_025_282_636_086,
        8_829_961_263_320_031_171,
        9_094_669_811_906_620_270,
        9_352_074_261_802_931_346,
        13_851_291_747_293_444_507,
        4_595_452_326_416_107_109,
        14_402_953_248_768_914_554,
        4_043_790_824_940_637_062,
        7_842_609_004_723_460_774,
    ],
];

/// The same of forward transforms, with 1, -1, 2^29 - 1 and 1 - 2^29.
const FORWARDS: [[u64; 13]; 4] = [
    [
        0,
        0,
        11_519_453_521_203_895_869,
        2_668_984_463_495_433_381,
        0,
        0,
        15_685_660_402_482_835_426,
        2_761_083_671_226_716_190,
        0,
        0,
        4_767_152_858_153_336_005,
        16_499_937_813_053_997_745,
        7_891_919_134_693_286_109,
    ],
    [
        0,
        0,
        4_233_346_936_603_174_174,
        5_423_659_224_051_477_637,
        0,
        0,
        2_398_033_963_889_532_900,
        9_970_061_540_067_749_002,
        0,
        0,
        12_959_723_487_172_022_398,
        16_410_535_391_763_985_115,
        12_261_238_931_126_125_741,
    ],
    [
        0,
        0,
        15_864_572_623_769_473_506,
        15_980_373_786_473_854_528,
        0,
        0,
        9_780_460_195_856_597_095,
        10_847_872_661_321_263_059,
        0,
        0,
        1_746_256_981_709_803_483,
        2_332_078_832_244_012_723,
        8_496_935_849_166_226_196,
    ],
    [
        0,
        0,
        13_947_285_648_649_228_650,
        4_499_458_425_060_322_966,
        0,
        0,
        2_359_773_736_145_751_378,
        15_586_150_223_282_180_671,
        0,
        0,
        17_687_501_664_934_978_800,
        759_242_408_774_572_816,
        4_229_118_938_176_644_616,
    ],
];

/// Each item in turn is added to the digest times 1000003, modulo 2^64.
fn digest(items: &[i64]) -> u64 {
    let mut sum = 0u64;
    for v in items {
        sum = sum.wrapping_mul(1_000_003).wrapping_add(v.cast_unsigned());
    }
    sum
}

/// `value`, or 0.
fn value_or_zero(is_there: bool, value: i64) -> i64
    ensures { unsigned_abs result ≤ unsigned_abs value }
{
    if is_there { value } else { 0 }
}

/// `value` at one place, and zeros.
fn fill_one(items: &mut [i64], place: usize, value: i64)
    ensures { (k : ℕ) → k < length items.old → unsigned_abs (item items.new k) ≤ unsigned_abs value }
{
    for i in 0..items.len() {
        items[i] = value_or_zero(i == place, value);
    }
}

/// `v`, but at most `most` in size.
fn limited(v: i64, most: i64) -> i64
    requires { (pos 0 ≤ℤ most) × (unsigned_abs most ≤ 2 ^ 30) }
    ensures { unsigned_abs result ≤ unsigned_abs most }
{
    v.clamp(-most, most)
}

/// Noise steps from `seed` on as signed numbers, halved `shift` times. The answer is the seed behind them.
fn fill_noise(items: &mut [i64], seed: u32, shift: u32, most: i64) -> u32
    requires shift { shift ≤ 31 }
    requires most { (pos 0 ≤ℤ most) × (unsigned_abs most ≤ 2 ^ 30) }
    ensures { (k : ℕ) → k < length items.old → unsigned_abs (item items.new k) ≤ unsigned_abs most }
{
    let mut next = seed;
    for i in 0..items.len() {
        next = noise(next);
        items[i] = limited(i64::from(next.cast_signed()) >> shift, most);
    }
    next
}

/// The first place, the middle one or the last of `count`.
fn place_of(i: usize, count: usize) -> usize
    requires { 1 ≤ count }
{
    if i == 0 {
        0
    } else if i == 1 {
        count / 2
    } else {
        count - 1
    }
}

/// 1, -1, `most` or its negative.
fn value_of(i: usize, most: i64) -> i64
    requires { (pos 1 ≤ℤ most) × (unsigned_abs most ≤ 2 ^ 30) }
    ensures { unsigned_abs result ≤ unsigned_abs most }
{
    if i == 0 {
        1
    } else if i == 1 {
        -1
    } else if i == 2 {
        most
    } else {
        -most
    }
}

fn inverse_fits(trig: &Trig, items: &mut [i64], out: &mut [i64], want: &[u64; 13]) -> bool
    requires size { IsSize (length items.old) }
    requires room { length out.old ≡ length items.old + 120 }
{
    let n = items.len();
    for k in 0..12usize {
        fill_one(items, place_of(k / 4, n), value_of(k % 4, 1_073_741_824));
        inverse(items, trig, out);
        if digest(out) != want[k] {
            return false;
        }
    }
    fill_noise(items, n as u32, 1, 1_073_741_824);
    inverse(items, trig, out);
    digest(out) == want[12]
}

fn forward_fits(trig: &Trig, values: &mut [i64], out: &mut [i64], want: &[u64; 13]) -> bool
    requires size { IsSize (length out.old) }
    requires count { length values.old ≡ length out.old + 120 }
{
    let n = out.len();
    for k in 0..12usize {
        fill_one(
            values,
            place_of(k / 4, n + 120),
            value_of(k % 4, 536_870_911),
        );
        forward(values, trig, out);
        if digest(out) != want[k] {
            return false;
        }
    }
    fill_noise(values, n as u32, 3, 536_870_911);
    forward(values, trig, out);
    digest(out) == want[12]
}

#[test]
fn inverses(rt: HostRuntime) {
    let trig = Trig::new();
    assert!(rt; inverse_fits(&trig, &mut [0; 120], &mut [7; 240], &INVERSES[0]));
    assert!(rt; inverse_fits(&trig, &mut [0; 240], &mut [7; 360], &INVERSES[1]));
    assert!(rt; inverse_fits(&trig, &mut [0; 480], &mut [7; 600], &INVERSES[2]));
    assert!(rt; inverse_fits(&trig, &mut [0; 960], &mut [7; 1080], &INVERSES[3]));
    let mut items = [5i64; 960];
    let mut out = [7i64; 1080];
    fill_one(&mut items, 0, 0);
    inverse(&items, &trig, &mut out);
    for v in &out {
        assert_eq!(rt; *v, 0);
    }
}

#[test]
fn forwards(rt: HostRuntime) {
    let trig = Trig::new();
    assert!(rt; forward_fits(&trig, &mut [0; 240], &mut [7; 120], &FORWARDS[0]));
    assert!(rt; forward_fits(&trig, &mut [0; 360], &mut [7; 240], &FORWARDS[1]));
    assert!(rt; forward_fits(&trig, &mut [0; 600], &mut [7; 480], &FORWARDS[2]));
    assert!(rt; forward_fits(&trig, &mut [0; 1080], &mut [7; 960], &FORWARDS[3]));
}

// The room holds other numbers at first, and then those of the call before.
#[test]
fn transforms_in_lent_room(rt: HostRuntime) {
    let trig = Trig::new();
    let mut re = [-9i64; 480];
    let mut im = [9i64; 480];
    let mut items = [0i64; 960];
    let mut out = [7i64; 1080];
    fill_noise(&mut items, 960, 1, 1_073_741_824);
    inverse_with(&items, &trig, &mut re, &mut im, &mut out);
    assert_eq!(rt; digest(&out), INVERSES[3][12]);
    inverse_with(&items, &trig, &mut re, &mut im, &mut out);
    assert_eq!(rt; digest(&out), INVERSES[3][12]);
    fill_noise(&mut out, 960, 3, 536_870_911);
    forward_with(&out, &trig, &mut re, &mut im, &mut items);
    assert_eq!(rt; digest(&items), FORWARDS[3][12]);
}

/// The numbers 0, 1, 2 and so forth.
fn fill_places(items: &mut [i64])
    requires { length items.old ≤ 480 }
{
    for i in 0..items.len() {
        items[i] = i as i64;
    }
}

fn reverse_fits(re: &mut [i64], im: &mut [i64], want: u64) -> bool
    requires one_length { length re.old ≡ length im.old }
    requires length { IsLength (length re.old) }
{
    fill_places(re);
    fill_places(im);
    reverse_digits(re, im);
    digest(re) == want && digest(im) == want
}

#[test]
fn digits(rt: HostRuntime) {
    let mut re = [0i64; 60];
    let mut im = [0i64; 60];
    assert!(rt; reverse_fits(&mut re, &mut im, 9_965_105_138_600_694_618));
    let first = [
        re[0], re[1], re[2], re[3], re[4], re[5], re[6], re[7], re[8], re[9], re[10], re[11],
        re[12], re[13], re[14], re[15],
    ];
    assert_eq!(rt;
        first,
        [0, 12, 24, 36, 48, 4, 16, 28, 40, 52, 8, 20, 32, 44, 56, 1]
    );
    assert!(rt; reverse_fits(&mut [0; 120], &mut [0; 120], 5_700_012_860_954_112_056));
    assert!(rt; reverse_fits(&mut [0; 240], &mut [0; 240], 11_803_286_530_809_107_120));
    assert!(rt; reverse_fits(&mut [0; 480], &mut [0; 480], 2_734_298_565_072_738_976));
}

/// Whether no item is above 2^40 in size.
fn are_small(items: &[i64]) -> bool
    ensures { IsTrue result → (k : ℕ) → k < length items.now → unsigned_abs (item items.now k) ≤ 2 ^ 40 }
{
    for i in 0..items.len() {
        if items[i].unsigned_abs() > 1_099_511_627_776 {
            return false;
        }
    }
    true
}

/// Joins the runs at one place, where all items are small.
fn join(re: &mut [i64], im: &mut [i64], from: usize, len: usize, trig: &Trig) -> bool
    requires one_length { length re.old ≡ length im.old }
    requires within { from + len ≤ length re.old }
    requires some { 2 ≤ len }
    requires divides { 480 % len ≡ 0 }
{
    if !are_small(re) {
        return false;
    }
    if !are_small(im) {
        return false;
    }
    join_runs(re, im, from, len, trig);
    true
}

/// Joins all runs of one length.
fn join_each(re: &mut [i64], im: &mut [i64], len: usize, trig: &Trig) -> bool
    requires one_length { length re.old ≡ length im.old }
    requires some { 2 ≤ len }
    requires divides { 480 % len ≡ 0 }
{
    for b in 0..re.len() / len {
        if !join(re, im, b * len, len, trig) {
            return false;
        }
    }
    true
}

// Items whose sums of products lie halfway between whole numbers, above 0 and below, in each radix.
#[test]
fn joins(rt: HostRuntime) {
    let trig = Trig::new();
    let mut re = [5i64, 3];
    let mut im = [0i64, 0];
    assert!(rt; join(&mut re, &mut im, 0, 2, &trig));
    assert_eq!(rt; (re, im), ([8, 2], [0, 0]));
    let mut re = [-6i64, 8192, 8192];
    let mut im = [0i64, 5120, 2];
    assert!(rt; join_each(&mut re, &mut im, 3, &trig));
    assert_eq!(rt; re, [16_378, -3766, -12_630]);
    assert_eq!(rt; im, [5122, -2560, -2560]);
    let mut re = [896i64, -5, -4, 0, 0];
    let mut im = [8i64, 8, -7168, -5, 8192];
    assert!(rt; join_each(&mut re, &mut im, 5, &trig));
    assert_eq!(rt; re, [887, -11_096, 2901, -1103, 12_892]);
    assert_eq!(rt; im, [1035, 8352, -8844, -8841, 8339]);
    let mut re = [896i64, -1, 7, -1, -5, 3];
    let mut im = [-2i64, 6144, -2, 0, 2048, 2048];
    assert!(rt; join_each(&mut re, &mut im, 3, &trig));
    assert!(rt; join_each(&mut re, &mut im, 6, &trig));
    assert_eq!(rt; re, [899, 4447, -6209, 905, 7983, -2649]);
    assert_eq!(rt; im, [10_236, -4086, -2052, 2044, -2045, -4107]);
    let mut re = [2i64, -1, 2, -3, 0, -1, 0, -4];
    let mut im = [-640i64, 768, 1024, 6144, -8, -3, -8192, 4];
    assert!(rt; join_each(&mut re, &mut im, 2, &trig));
    assert!(rt; join_each(&mut re, &mut im, 8, &trig));
    assert_eq!(rt; re, [-5, -9417, 15_358, -9408, 5, 9413, -15_354, 9425]);
    assert_eq!(rt; im, [-903, 760, 136, -3588, 1137, -3577, 142, 774]);
    let mut re = [-7168i64, -1, 512, 256, -2, 384, 2, 0, 2, -4, 9, 896];
    let mut im = [-4096i64, 9, -768, -1024, 0, -1, 512, 8, 9, 4, 9216, 2048];
    assert!(rt; join_each(&mut re, &mut im, 3, &trig));
    assert!(rt; join_each(&mut re, &mut im, 12, &trig));
    assert_eq!(rt;
        re,
        [
            -5114, -11_461, -2142, -18_954, -2067, -15_660, -8192, -1167, -13_182, 5632, -12_309,
            -1400
        ]
    );
    assert_eq!(rt;
        im,
        [
            5917, -9401, 1249, -5121, -8098, 3901, -14_569, 3361, -10_075, -5647, 1048, -11_715
        ]
    );
}

// Whole transforms of noise: the digits reversed, then all joins.
#[test]
fn transforms(rt: HostRuntime) {
    let trig = Trig::new();
    let mut re = [0i64; 60];
    let mut im = [0i64; 60];
    let seed = fill_noise(&mut re, 60, 2, 1_073_741_824);
    fill_noise(&mut im, seed, 2, 1_073_741_824);
    reverse_digits(&mut re, &mut im);
    assert!(rt; join_each(&mut re, &mut im, 5, &trig));
    assert!(rt; join_each(&mut re, &mut im, 15, &trig));
    assert!(rt; join_each(&mut re, &mut im, 60, &trig));
    assert_eq!(rt;
        (digest(&re), digest(&im)),
        (11_092_529_721_454_083_720, 11_839_020_580_734_326_160)
    );
    let mut re = [0i64; 120];
    let mut im = [0i64; 120];
    let seed = fill_noise(&mut re, 120, 2, 1_073_741_824);
    fill_noise(&mut im, seed, 2, 1_073_741_824);
    reverse_digits(&mut re, &mut im);
    assert!(rt; join_each(&mut re, &mut im, 5, &trig));
    assert!(rt; join_each(&mut re, &mut im, 15, &trig));
    assert!(rt; join_each(&mut re, &mut im, 30, &trig));
    assert!(rt; join_each(&mut re, &mut im, 120, &trig));
    assert_eq!(rt;
        (digest(&re), digest(&im)),
        (6_193_711_755_927_305_832, 17_633_297_043_368_681_720)
    );
    let mut re = [0i64; 240];
    let mut im = [0i64; 240];
    let seed = fill_noise(&mut re, 240, 2, 1_073_741_824);
    fill_noise(&mut im, seed, 2, 1_073_741_824);
    reverse_digits(&mut re, &mut im);
    assert!(rt; join_each(&mut re, &mut im, 5, &trig));
    assert!(rt; join_each(&mut re, &mut im, 15, &trig));
    assert!(rt; join_each(&mut re, &mut im, 60, &trig));
    assert!(rt; join_each(&mut re, &mut im, 240, &trig));
    assert_eq!(rt;
        (digest(&re), digest(&im)),
        (18_382_814_114_063_781_008, 13_572_642_348_415_108_400)
    );
    let mut re = [0i64; 480];
    let mut im = [0i64; 480];
    let seed = fill_noise(&mut re, 480, 2, 1_073_741_824);
    fill_noise(&mut im, seed, 2, 1_073_741_824);
    reverse_digits(&mut re, &mut im);
    assert!(rt; join_each(&mut re, &mut im, 5, &trig));
    assert!(rt; join_each(&mut re, &mut im, 15, &trig));
    assert!(rt; join_each(&mut re, &mut im, 30, &trig));
    assert!(rt; join_each(&mut re, &mut im, 120, &trig));
    assert!(rt; join_each(&mut re, &mut im, 480, &trig));
    assert_eq!(rt;
        (digest(&re), digest(&im)),
        (4_118_253_840_974_491_136, 2_656_527_074_894_462_048)
    );
}
