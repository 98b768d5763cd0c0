//! Values of each call that were worked out apart from this crate, from the equations that its definitions state.
use super::{
    Exp, Trig, bit_length, bitexact_cos, bitexact_log2tan, isq, mulr, noise, rounded_sum, unit,
};

#[test]
fn roots(rt: HostRuntime) {
    for (v, root) in [
        (0u128, 0u64),
        (1, 1),
        (3, 1),
        (4, 2),
        (7, 2),
        (8, 2),
        (9, 3),
        (4_294_967_295, 65_535),
        (18_446_744_065_119_617_024, 4_294_967_294),
        (18_446_744_065_119_617_025, 4_294_967_295),
        (18_446_744_073_709_551_615, 4_294_967_295),
        (18_446_744_073_709_551_616, 4_294_967_296),
        (18_446_744_082_299_486_208, 4_294_967_296),
        (18_446_744_082_299_486_209, 4_294_967_297),
        (
            340_282_366_920_938_463_426_481_119_284_349_108_224,
            18_446_744_073_709_551_614,
        ),
        (
            340_282_366_920_938_463_426_481_119_284_349_108_225,
            18_446_744_073_709_551_615,
        ),
        (
            340_282_366_920_938_463_463_374_607_431_768_211_455,
            18_446_744_073_709_551_615,
        ),
    ] {
        assert_eq!(rt; isq(v), root, "root of {v}");
    }
    for (v, length) in [
        (0u32, 0u32),
        (1, 1),
        (2, 2),
        (3, 2),
        (4, 3),
        (32_767, 15),
        (32_768, 16),
        (4_294_967_295, 32),
    ] {
        assert_eq!(rt; bit_length(v), length, "bits of {v}");
    }
}

#[test]
fn kernels(rt: HostRuntime) {
    assert_eq!(rt; noise(0), 1_013_904_223);
    assert_eq!(rt; noise(1_013_904_223), 1_196_435_762);
    assert_eq!(rt; noise(4_294_967_295), 1_012_239_698);
    assert_eq!(rt; mulr(-5, 1, 1), -2);
    assert_eq!(rt; mulr(5, 1, 1), 3);
    assert_eq!(rt; mulr(-32_769, 1, 15), -1);
    assert_eq!(rt; mulr(23_170, -32_768, 15), -23_170);
    assert_eq!(rt; rounded_sum(3, 16_384, 4, -16_384), 0);
    assert_eq!(rt; rounded_sum(4, 16_384, 3, -16_384), 1);
}

#[test]
fn angles(rt: HostRuntime) {
    let trig = Trig::new();
    for (a, cosine, sine) in [
        (0u32, 32_768i64, 0i64),
        (1, 32_768, 13),
        (1920, 23_170, 23_170),
        (3839, 13, 32_768),
        (3840, 0, 32_768),
        (3841, -13, 32_768),
        (5000, -14_972, 29_148),
        (7679, -32_768, 13),
        (7680, -32_768, 0),
        (7681, -32_768, -13),
        (9999, -19_098, -26_628),
        (11_519, -13, -32_768),
        (11_520, 0, -32_768),
        (11_521, 13, -32_768),
        (13_000, 18_648, -26_944),
        (15_359, 32_768, -13),
    ] {
        assert!(rt; a < 15_360);
        assert_eq!(rt; trig.cos(a), cosine, "cosine of {a}");
        assert_eq!(rt; trig.sin(a), sine, "sine of {a}");
    }
}

#[test]
fn powers(rt: HostRuntime) {
    let exp = Exp::new();
    for (f, mantissa) in [
        (0u32, 1_073_741_824u32),
        (1, 1_074_468_887),
        (255, 1_276_037_372),
        (256, 1_276_901_416),
        (511, 1_517_472_722),
        (512, 1_518_500_249),
        (1023, 2_146_030_504),
    ] {
        assert!(rt; f < 1024);
        assert_eq!(rt; exp.mant(f), mantissa, "power {f}");
    }
    for (v, logarithm) in [
        (1u64, 1023i32),
        (2, 1623),
        (3, 2047),
        (4, 2377),
        (1023, 10_239),
        (1024, 10_241),
        (1025, 10_242),
        (123_456_789, 27_524),
        (1_073_741_823, 30_719),
        (1_073_741_824, 30_720),
        (1_073_741_825, 30_720),
        (576_460_752_303_423_487, 60_415),
        (576_460_752_303_423_488, 60_416),
        (1_152_921_504_606_846_975, 61_439),
    ] {
        assert!(rt; v >= 1);
        assert!(rt; v < 0x1000_0000_0000_0000);
        assert_eq!(rt; exp.lg(v), logarithm, "logarithm of {v}");
    }
}

// From a program apart from this one; the last power that is not 0 is at 30 octaves down.
#[test]
fn powers_down(rt: HostRuntime) {
    let exp = Exp::new();
    for (e, power) in [
        (0i32, 1_073_741_824u32),
        (-1, 1_073_015_252),
        (-2, 1_072_289_172),
        (-500, 765_442_491),
        (-1023, 537_234_443),
        (-1024, 536_870_912),
        (-1025, 536_507_626),
        (-2047, 268_617_221),
        (-5000, 36_393_753),
        (-10_240, 1_048_576),
        (-20_000, 1417),
        (-30_719, 1),
        (-30_720, 1),
        (-30_721, 0),
        (-31_744, 0),
        (-31_745, 0),
        (-131_072, 0),
    ] {
        assert!(rt; -131_072 <= e);
        assert!(rt; e <= 0);
        assert_eq!(rt; exp.ex(e), power, "power {e}");
    }
}

#[test]
fn bitexact(rt: HostRuntime) {
    assert_eq!(rt; bitexact_cos(64), 32_767);
    assert_eq!(rt; bitexact_cos(4000), 30_388);
    assert_eq!(rt; bitexact_cos(8192), 23_171);
    assert_eq!(rt; bitexact_cos(12_345), 12_374);
    assert_eq!(rt; bitexact_cos(16_320), 200);
    let mut sum: u64 = 0;
    for n in 0..16_257u32 {
        sum = sum.wrapping_add(bitexact_cos(n as i32 + 64) as u64);
    }
    assert_eq!(rt; sum, 339_698_956);
    assert_eq!(rt; bitexact_log2tan(23_171, 23_171), 0);
    assert_eq!(rt; bitexact_log2tan(1, 32_767), -30_690);
    assert_eq!(rt; bitexact_log2tan(32_767, 1), 30_690);
    assert_eq!(rt; bitexact_log2tan(255, 256), -41);
    assert_eq!(rt; bitexact_log2tan(30_000, 1000), 10_055);
}

#[test]
fn units(rt: HostRuntime) {
    let mut v = [3i64, 4];
    unit(&mut v, 32_768);
    assert_eq!(rt; v, [9830, 13_107]);
    let mut v = [-7i64, 3, 0, 1];
    unit(&mut v, 20_000);
    assert_eq!(rt; v, [-9113, 3905, 0, 1301]);
    let mut v = [0i64, 0, 0];
    unit(&mut v, 32_768);
    assert_eq!(rt; v, [0, 0, 0]);
    let mut v = [1_000_000i64, -2_000_000, 3];
    unit(&mut v, 32_768);
    assert_eq!(rt; v, [7327, -14_654, 0]);
    let mut v = [549_755_813_888i64, -549_755_813_887, 1];
    unit(&mut v, 32_768);
    assert_eq!(rt; v, [11_585, -11_585, 0]);
}
