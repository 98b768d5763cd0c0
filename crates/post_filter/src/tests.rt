//! Values of each call that were worked out apart from this crate, from the equations that its definitions state.
ghost use Rattle.std.specs.Prelude.{ℕ, ◌^◌, ◌<◌, ◌≤◌, All, unsigned_abs};
ghost use Rattle.fixed_math.specs.Items.{item};

use super::{
    amplified_sample, comb, deemphasis, factor_of, next_output, plain_sample, sample, samples,
    subtract,
};
use celt_base::state::Setting;
use fixed_math::{Exp, noise};

#[test]
fn filters_and_samples(rt: HostRuntime) {
    let mut memory = 0i64;
    let mut x = [32_768i64, 0, 0];
    deemphasis(&mut x, &mut memory);
    assert_eq!(rt; x, [32_768, 27_853, 23_675]);
    assert_eq!(rt; memory, 23_675);
    let mut x = [100i64, -200, 300, -400_000, 5_000_000];
    deemphasis(&mut x, &mut memory);
    assert_eq!(rt; x, [20_224, 16_991, 14_742, -387_469, 4_670_649]);
    assert_eq!(rt; memory, 4_670_649);
    let mut memory = -8_589_934_591i64;
    let mut x = [-1_073_741_824i64, -1_073_741_824, 1_073_741_824, 0, -7];
    deemphasis(&mut x, &mut memory);
    assert_eq!(rt;
        x,
        [
            -8_375_238_655,
            -8_192_745_799,
            -5_890_142_110,
            -5_006_656_744,
            -4_255_688_798
        ]
    );
    assert_eq!(rt; memory, -4_255_688_798);
    deemphasis(&mut [], &mut memory);
    assert_eq!(rt; memory, -4_255_688_798);
    assert_eq!(rt; next_output(0, 32_768), 27_853);
    assert_eq!(rt; next_output(100, 23_675), 20_224);
    assert_eq!(rt; next_output(-1_073_741_824, -8_589_934_591), -8_375_238_655);

    let exp = Exp::new();
    for (y, gain, want) in [
        (2047i64, 0i32, 0i16),
        (2048, 0, 1),
        (-2048, 0, 0),
        (-2049, 0, -1),
        (6144, 0, 2),
        (-6144, 0, -1),
        (1_073_741_824, 0, 32_767),
        (134_215_679, 0, 32_767),
        (-134_219_777, 0, -32_768),
        (2048, -1, 0),
        (2048, 1, 1),
        (-2048, 1, -1),
        (4096, 256, 1),
        (8_589_934_591, -32_768, 1),
        (-8_589_934_591, -32_768, -1),
        (1, 32_767, 613),
        (-1, 32_767, -613),
        (8_589_934_591, 32_767, 32_767),
        (-8_589_934_591, 32_767, -32_768),
        (12_345_678, -1000, 1923),
        (12_345_678, -256, 2686),
        (12_345_678, 1, 3016),
        (12_345_678, -1, 3012),
        (-12_345_679, 517, -3802),
        (4_194_304, -1541, 512),
        (6144, -1541, 1),
        (-3, 20_000, -6),
    ] {
        assert!(rt; y.unsigned_abs() < 8_589_934_592);
        assert!(rt; gain.unsigned_abs() <= 32_768);
        assert_eq!(rt; sample(&exp, y, gain), want, "{y} with {gain}");
        let factor = factor_of(&exp, gain);
        assert_eq!(rt;
            amplified_sample(y, factor),
            want,
            "{y} with the factor of {gain}"
        );
        if gain == 0 {
            assert_eq!(rt; plain_sample(y), want, "{y}");
        }
    }

    let mut out = [7i16; 6];
    samples(&exp, &[2048, -2049, 6144], 0, &mut out, 1, 2);
    assert_eq!(rt; out, [7, 1, 7, -1, 7, 2]);
    samples(&exp, &[12_345_678, 1_073_741_824], -256, &mut out, 0, 2);
    assert_eq!(rt; out, [2686, 1, 32_767, -1, 7, 2]);
}

// An item of 128000000 in size at most, from a state of the noise.
fn level(state: u32) -> i64
    ensures { unsigned_abs result < 2 ^ 28 }
{
    ((state >> 16) % 32_001) as i64 * 8000 - 128_000_000
}

/// Steps of the noise from 7.
fn levels() -> [i64; 2048]
    ensures { All (λ v. unsigned_abs v < 2 ^ 28) result }
{
    let mut x = [0i64; 2048];
    let mut state = 7;
    for i in 0..2048usize {
        state = noise(state);
        x[i] = level(state);
    }
    x
}

/// `sum` with the numbers of a list: c becomes c * 1000003 + x modulo 2^64 for each x.
fn digest(x: &[i64], sum: u64) -> u64 {
    let mut sum = sum;
    for v in x {
        sum = sum.wrapping_mul(1_000_003).wrapping_add(v.cast_unsigned());
    }
    sum
}

/// One of the periods 15, 16 and 1022, the gains 0, 3072 and 24576, and the tapsets.
fn setting(k: u32) -> Setting {
    Setting {
        period: [15, 16, 1022][k as usize % 3],
        gain: [0, 3072, 24_576][k as usize / 3 % 3],
        tapset: [0, 1, 2][k as usize / 9 % 3],
    }
}

/// The levels after the comb filter over `n` places, digested.
fn combed(n: usize, from: Setting, to: Setting, sum: u64) -> u64
    requires { n < 1024 }
{
    let mut x = levels();
    comb(&mut x, 1024, n, from, to);
    digest(&x, sum)
}

// Each of the 27 settings to itself, and to another.
#[test]
fn combs(rt: HostRuntime) {
    for (n, shift, want) in [
        (120usize, 0u32, 4987535976702288107u64),
        (120, 10, 3081100254450745011),
        (960, 0, 2772587451014662982),
        (960, 10, 2458380836374892000),
    ] {
        assert!(rt; n < 1024);
        let mut sum = 0;
        for k in 0..27u32 {
            sum = combed(n, setting(k), setting((k + shift) % 27), sum);
        }
        assert_eq!(rt; sum, want, "{n} places, {shift} settings on");
    }
}

/// Zeros, and a number at one place.
fn impulse(place: usize) -> [i64; 2048]
    requires { place < 2048 }
    ensures { All (λ v. unsigned_abs v < 2 ^ 28) result }
{
    let mut x = [0i64; 2048];
    x[place] = 1_048_576;
    x
}

/// What an impulse leaves in the places from 1032 to 1053.
fn echoes(place: usize, from: Setting, to: Setting) -> [i64; 22]
    requires { place < 2048 }
{
    let mut x = impulse(place);
    comb(&mut x, 1024, 30, from, to);
    let mut out = [0i64; 22];
    out.copy_from_slice(&x[1032..1054]);
    out
}

// Each echo of an impulse shows the taps, by the shares of the fade: two rounds of the period 15 or 16.
#[test]
fn impulses(rt: HostRuntime) {
    let first = Setting {
        period: 15,
        gain: 24_576,
        tapset: 0,
    };
    assert_eq!(rt;
        echoes(1020, first, first),
        [
            0, 101_952, 170_688, 241_152, 170_688, 101_952, 0, 0, 0, 0, 0, 0, 0, 0, 9913, 33_192,
            74_679, 111_701, 130_855, 111_701, 74_679, 33_192,
        ]
    );
    let second = Setting {
        period: 15,
        gain: 24_576,
        tapset: 1,
    };
    assert_eq!(rt;
        echoes(1020, first, second),
        [
            0, 101_888, 170_720, 241_312, 170_752, 101_728, 0, 0, 0, 0, 0, 0, 0, 0, 9732, 32_921,
            74_566, 112_207, 131_588, 112_337, 74_441, 32_541,
        ]
    );
    let third = Setting {
        period: 15,
        gain: 3072,
        tapset: 2,
    };
    let fourth = Setting {
        period: 16,
        gain: 24_576,
        tapset: 1,
    };
    assert_eq!(rt;
        echoes(1020, third, fourth),
        [
            0, 0, 9856, 78_784, 10_464, 480, 0, 0, 0, 0, 0, 0, 0, 0, 0, 0, 91, 1493, 6529, 2653,
            969, 115,
        ]
    );
}

// A gain that is no multiple of 3072: in 63 of 120 places the shares of its taps add up to more than the taps.
#[test]
fn odd_gain(rt: HostRuntime) {
    let odd = Setting {
        period: 15,
        gain: 4720,
        tapset: 0,
    };
    assert_eq!(rt; combed(120, odd, odd, 0), 9093746138357527484);
}

/// 2^30 everywhere, and eight values from place 1024 on.
fn extremes(values: [i64; 8]) -> [i64; 2048]
    requires { All (λ v. unsigned_abs v < 2 ^ 47) values }
    ensures earlier { (p : ℕ) → p < 1024 → unsigned_abs (item result p) ≤ 2 ^ 30 }
    ensures values { (p : ℕ) → unsigned_abs (item result p) < 2 ^ 47 }
{
    let mut x = [1_073_741_824i64; 2048];
    for i in 0..8usize {
        x[1024 + i] = values[i];
    }
    x
}

/// The first eight outputs of the greatest values and of values around the limit.
fn limited(from: Setting, to: Setting) -> [i64; 8] {
    let mut x = extremes([
        140_737_488_355_327,
        -140_737_488_355_327,
        1_073_741_825,
        -1_073_741_825,
        1_073_741_824,
        -1_073_741_824,
        536_870_912,
        5,
    ]);
    comb(&mut x, 1024, 8, from, to);
    let mut out = [0i64; 8];
    out.copy_from_slice(&x[1024..1032]);
    out
}

#[test]
fn limits(rt: HostRuntime) {
    let off = Setting::off();
    let other = Setting {
        period: 700,
        gain: 0,
        tapset: 1,
    };
    assert_eq!(rt;
        limited(off, other),
        [
            1_073_741_824,
            -1_073_741_824,
            1_073_741_824,
            -1_073_741_824,
            1_073_741_824,
            -1_073_741_824,
            536_870_912,
            5
        ]
    );
    let on = Setting {
        period: 16,
        gain: 24_576,
        tapset: 2,
    };
    assert_eq!(rt;
        limited(on, on),
        [
            1_073_741_824,
            -1_073_741_824,
            1_073_741_824,
            -268_435_457,
            1_073_741_824,
            -268_435_456,
            1_073_741_824,
            805_306_373
        ]
    );
}

/// The pre-filtered values of 960 places, digested.
fn subtracted(from: Setting, to: Setting, sum: u64) -> u64 {
    let x = levels();
    let mut sum = sum;
    for i in 0..960u32 {
        sum = digest(&[subtract(&x, 1024 + i as usize, i, from, to)], sum);
    }
    sum
}

#[test]
fn subtractions(rt: HostRuntime) {
    for (shift, want) in [(0u32, 15600092314773358589u64), (10, 9644216628551000645)] {
        let mut sum = 0;
        for k in 0..27u32 {
            sum = subtracted(setting(k), setting((k + shift) % 27), sum);
        }
        assert_eq!(rt; sum, want, "{shift} settings on");
    }
    let from = Setting {
        period: 15,
        gain: 3072,
        tapset: 0,
    };
    let to = Setting {
        period: 1022,
        gain: 24_576,
        tapset: 1,
    };
    let x = levels();
    for (fade, want) in [
        (0u32, -44_353_282i64),
        (1, -44_353_282),
        (59, -50_844_559),
        (119, -57_616_279),
        (120, -57_614_359),
        (959, -57_614_359),
    ] {
        assert!(rt; fade < 960);
        assert_eq!(rt; subtract(&x, 1024, fade, from, to), want, "place {fade}");
    }
}
