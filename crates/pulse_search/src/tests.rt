//! Values of each call that a program written apart from this crate gave, and the worked rows.
ghost use Rattle.std.specs.Prelude.{◌^◌, ◌<◌, ◌≤◌, All, unsigned_abs};

use crate::{angle, search};
use fixed_math::Trig;

/// The numbers of a vector in one: c becomes c * 1000003 + x modulo 2^64 for each x.
fn digest(from: u64, y: &[i32]) -> u64 {
    let mut sum = from;
    for x in y {
        sum = sum
            .wrapping_mul(1_000_003)
            .wrapping_add((*x as i64).cast_unsigned());
    }
    sum
}

/// The size of the item at place `i` of a part of `n` items: level, all at the limit, one spike at the end,
/// level, zeros, three mixed ones, falling from the limit, and 0, 1, 2 in turn.
fn size_at(pattern: u32, i: u32, n: u32) -> u32
    ensures { result < 2 ^ 20 }
{
    let size: u32 = match pattern {
        0 => 1,
        1 => 0xf_ffff,
        2 => if i == n.wrapping_sub(1) { 0xf_ffff } else { 0 },
        3 => 1000,
        4 => 0,
        5 => i.wrapping_mul(7919) % 2001,
        6 => i
            .wrapping_add(1)
            .wrapping_mul(i.wrapping_add(1))
            .wrapping_mul(2_654_435_761),
        7 => (i / 2).wrapping_mul(37) % 100,
        8 => 0xf_ffff_u32.wrapping_sub(i.wrapping_mul(5900)),
        _ => i % 3,
    };
    size % 0x10_0000
}

/// The item itself: all below 0, every second one, or some.
fn item_at(pattern: u32, i: u32, n: u32) -> i64
    ensures { unsigned_abs result < 2 ^ 20 }
{
    let size = size_at(pattern, i, n) as i64;
    let negative = match pattern {
        1 => true,
        3 | 8 => i % 2 == 1,
        6 => i % 5 < 2,
        7 => i % 4 == 3,
        _ => false,
    };
    if negative { -size } else { size }
}

/// The part's `n` items, and zeros behind them.
fn part(pattern: u32, n: usize) -> [i64; 176]
    requires { n ≤ 176 }
    ensures { All (λ v. unsigned_abs v < 2 ^ 20) result }
{
    let mut x = [0i64; 176];
    for i in 0..n {
        x[i] = item_at(pattern, i as u32, n as u32);
    }
    x
}

/// The digest of the vectors of 1, 2, 64, 128 and 4096 pulses.
fn vectors(pattern: u32, n: usize) -> u64
    requires { (1 ≤ n) × (n ≤ 176) }
{
    let x = part(pattern, n);
    let mut out = [0i32; 176];
    let mut sum = 0;
    search(&x[..n], 1, &mut out[..n]);
    sum = digest(sum, &out[..n]);
    search(&x[..n], 2, &mut out[..n]);
    sum = digest(sum, &out[..n]);
    search(&x[..n], 64, &mut out[..n]);
    sum = digest(sum, &out[..n]);
    search(&x[..n], 128, &mut out[..n]);
    sum = digest(sum, &out[..n]);
    search(&x[..n], 4096, &mut out[..n]);
    digest(sum, &out[..n])
}

/// Pattern, number of items, and the digest of five vectors each: 200 in all.
#[test]
fn many_vectors(rt: HostRuntime) {
    for (pattern, n, want) in [
        (0u32, 1usize, 16_003_900_205_880_901_831),
        (0, 2, 5_984_569_576_998_324_295),
        (0, 8, 868_147_094_626_468_463),
        (0, 176, 14_712_070_529_702_515_535),
        (1, 1, 2_442_843_867_828_649_785),
        (1, 2, 12_462_174_496_711_227_321),
        (1, 8, 17_578_596_979_083_083_153),
        (1, 176, 3_734_673_544_007_036_081),
        (2, 1, 16_003_900_205_880_901_831),
        (2, 2, 15_661_140_634_532_564_755),
        (2, 8, 17_973_676_044_947_135_747),
        (2, 176, 7_603_999_881_191_921_219),
        (3, 1, 16_003_900_205_880_901_831),
        (3, 2, 10_230_250_511_101_597_909),
        (3, 8, 6_181_875_928_171_803_197),
        (3, 176, 6_895_437_879_424_566_813),
        (4, 1, 16_003_900_205_880_901_831),
        (4, 2, 12_579_839_501_288_019_961),
        (4, 8, 13_238_480_808_102_966_753),
        (4, 176, 17_669_659_209_613_135_809),
        (5, 1, 16_003_900_205_880_901_831),
        (5, 2, 15_661_140_634_532_564_755),
        (5, 8, 7_283_234_532_349_037_895),
        (5, 176, 13_173_412_910_946_999_697),
        (6, 1, 2_442_843_867_828_649_785),
        (6, 2, 1_237_688_454_607_811_573),
        (6, 8, 2_304_349_343_969_240_441),
        (6, 176, 5_617_779_069_416_509_431),
        (7, 1, 16_003_900_205_880_901_831),
        (7, 2, 12_579_839_501_288_019_961),
        (7, 8, 17_848_694_684_518_614_055),
        (7, 176, 7_583_039_920_364_262_253),
        (8, 1, 16_003_900_205_880_901_831),
        (8, 2, 10_230_250_511_107_597_933),
        (8, 8, 9_538_766_156_280_846_517),
        (8, 176, 17_257_671_705_974_306_893),
        (9, 1, 16_003_900_205_880_901_831),
        (9, 2, 15_661_140_634_532_564_755),
        (9, 8, 3_878_009_696_440_131_941),
        (9, 176, 12_567_339_821_349_224_295),
    ] {
        assert!(rt; n >= 1);
        assert!(rt; n <= 176);
        assert_eq!(rt; vectors(pattern, n), want, "pattern {pattern}, {n} items");
    }
}

#[test]
fn short_vectors(rt: HostRuntime) {
    let mut out = [0i32; 2];
    search(&[3, -1], 2, &mut out);
    assert_eq!(rt; out, [2, 0]);
    search(&[3, -2], 2, &mut out);
    assert_eq!(rt; out, [1, -1]);
    search(&[1, 1], 1, &mut out);
    assert_eq!(rt; out, [1, 0]);
    search(&[0, 0], 1, &mut out);
    assert_eq!(rt; out, [1, 0]);
}

#[test]
fn angles(rt: HostRuntime) {
    let trig = Trig::new();
    for (m, s, want) in [
        (0u64, 0u64, 0u32),
        (1, 0, 0),
        (0, 1, 3840),
        (5, 5, 1920),
        (281_474_976_710_655, 281_474_976_710_655, 1920),
        (281_474_976_710_655, 1, 0),
        (1, 281_474_976_710_655, 3839),
        (281_474_976_710_655, 0, 0),
        (0, 281_474_976_710_655, 3840),
        (2, 1, 1133),
        (1, 2, 2706),
        (1000, 999, 1918),
        (999, 1000, 1921),
        (3, 4, 2266),
        (4, 3, 1573),
        (32_768, 13, 1),
        (32_768, 14, 1),
        (2521, 1, 0),
        (2520, 1, 1),
        (1, 2520, 3838),
        (1, 2521, 3839),
        (318_034_968_528, 8_994_220_049, 69),
        (249_357_206_645, 922_121_676, 9),
        (27, 9_375_836, 3839),
        (5944, 1_823_296_038, 3839),
        (553, 146, 631),
        (587_472, 1_813_252_412_811, 3839),
        (70, 39_711_537_295_415, 3839),
        (9, 8133, 3837),
        (52_060, 2863, 134),
        (5364, 70_009_036_885, 3839),
        (3_758_686_919, 3_059_515, 1),
        (154_585_409, 42_864_524_600, 3831),
        (1_980_815, 1_984_202, 1922),
        (7_014_936, 7_012_638, 1919),
        (12_702_716, 12_703_320, 1920),
        (2_549_877, 2_552_888, 1921),
        (7_074_924, 7_070_566, 1919),
        (16_140_001, 16_136_272, 1919),
        (12_827_370, 12_831_513, 1920),
        (9_613_779, 9_613_919, 1920),
    ] {
        assert!(rt; m < 0x1_0000_0000_0000);
        assert!(rt; s < 0x1_0000_0000_0000);
        assert_eq!(rt; angle(&trig, m, s), want, "{m} and {s}");
    }
}
