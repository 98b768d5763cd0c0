//! Values of each call that were worked out apart from this crate, from the equations that its definitions state.
ghost use Rattle.std.specs.Prelude.{◌≡◌, ◌%◌, ◌^◌, ◌<◌, ◌≤◌, All, unsigned_abs};

use super::{fold, mask_of, merge, noise_fill, rotate};
use fixed_math::{Trig, noise};

#[test]
fn masks(rt: HostRuntime) {
    assert_eq!(rt; mask_of(&[0, 0, 0, 2], 2), 2);
    assert_eq!(rt; mask_of(&[0, 1, 0, 0], 2), 1);
    assert_eq!(rt; mask_of(&[0, 0], 1), 1);
    assert_eq!(rt; mask_of(&[0, 0, -1, 0, 0, 0, 5, 1], 4), 10);
    assert_eq!(rt; mask_of(&[0, 0, 0, 0, 0, 0], 3), 0);
}

#[test]
fn noises(rt: HostRuntime) {
    let mut seed = 1u32;
    let mut out = [0i64; 5];
    noise_fill(&mut seed, &mut out);
    assert_eq!(rt; out, [968, 1512, -2031, -1209, 207]);
    assert_eq!(rt; seed, 217_083_232);
    let mut seed = 4_294_967_295u32;
    let mut out = [0i64; 4];
    noise_fill(&mut seed, &mut out);
    assert_eq!(rt; out, [965, 769, 552, -1513]);
    assert_eq!(rt; seed, 2_709_482_403);
    let mut seed = 1u32;
    let mut out = [0i64; 5];
    fold(&[100, -200, 4_194_303, -4_194_303, 0], &mut seed, &mut out);
    assert_eq!(rt; out, [96, -196, 4_194_299, -4_194_307, -4]);
    assert_eq!(rt; seed, 217_083_232);
    let mut seed = 4_294_967_295u32;
    let mut out = [0i64; 6];
    fold(&[7, 7, 7, 7, 7, 7], &mut seed, &mut out);
    assert_eq!(rt; out, [11, 11, 11, 3, 3, 11]);
    assert_eq!(rt; seed, 3_754_216_397);
}

#[test]
fn turns(rt: HostRuntime) {
    let trig = Trig::new();
    let mut x = [100i64, 0, 0, 0, 5, 0, 0, 0];
    rotate(&mut x, &trig, 1, 1, 2, false);
    assert_eq!(rt; x, [-13, -4, -6, 16, 6, -30, 93, 16]);
    let mut x = [100i64, 0, 0, 0, 5, 0, 0, 0];
    rotate(&mut x, &trig, 1, 1, 2, true);
    assert_eq!(rt; x, [-12, 5, -1, -19, 1, -4, 93, -30]);
    let mut x = [100i64, 0, 0, 0, 5, 0, 0, 0];
    rotate(&mut x, &trig, 1, 4, 2, false);
    assert_eq!(rt; x, [100, 0, 0, 0, 5, 0, 0, 0]);
    let mut x = [1i64, 2, 3];
    rotate(&mut x, &trig, 1, 1, 0, false);
    assert_eq!(rt; x, [1, 2, 3]);
    let mut x = [100i64, 0, 0, 0, 5, 0, 0, -16_384];
    rotate(&mut x, &trig, 1, 3, 1, false);
    assert_eq!(rt; x, [588, -16_360, -590, -18, 290, 6, 105, -293]);
    let mut x = [131_072i64, 131_072, 131_072, 131_072, -131_072, 131_072];
    rotate(&mut x, &trig, 1, 1, 3, true);
    assert_eq!(rt; x, [131_072, 97_176, 98_611, 14_096, -110_753, 131_072]);
    // the greatest sizes that come in: as one run each item is brought within 131072, as six runs none is turned
    let greatest = [
        1_048_575i64,
        -1_048_575,
        1_048_575,
        1_048_575,
        -1_048_575,
        1_048_575,
    ];
    let mut x = greatest;
    rotate(&mut x, &trig, 1, 1, 3, false);
    assert_eq!(rt; x, [131_072, -64_201, -131_072, 100_855, -97_176, 131_072]);
    let mut x = greatest;
    rotate(&mut x, &trig, 3, 1, 2, true);
    assert_eq!(rt; x, [131_072, -131_072, 131_072, 131_072, -131_072, 131_072]);
    let mut x = greatest;
    rotate(&mut x, &trig, 6, 1, 2, true);
    assert_eq!(rt;
        x,
        [
            1_048_575, -1_048_575, 1_048_575, 1_048_575, -1_048_575, 1_048_575
        ]
    );
}

#[test]
fn turns_of_blocks(rt: HostRuntime) {
    let trig = Trig::new();
    let mut x = [16_384i64, 0, 0, 0, 0, -16_384, 0, 0];
    rotate(&mut x, &trig, 2, 1, 3, false);
    assert_eq!(rt; x, [13_807, 8409, 2631, 412, 8410, -11_056, -8585, -1345]);
    let mut x = [1i64, 2, 3];
    rotate(&mut x, &trig, 3, 1, 3, false);
    assert_eq!(rt; x, [1, 2, 3]);
    let mut x = [
        1000i64, 2000, 3000, 4000, 5000, 6000, 7000, 8000, 1000, 2000, 3000, 4000, 5000, 6000,
        7000, 8000,
    ];
    rotate(&mut x, &trig, 2, 1, 1, true);
    assert_eq!(rt;
        x,
        [
            6488, 7310, 7115, -3902, -4835, -2445, 2174, 2924, 6488, 7310, 7115, -3902, -4835,
            -2445, 2174, 2924
        ]
    );
}

#[test]
fn channels(rt: HostRuntime) {
    let mut x = [12_000i64, -9000, 3000];
    let mut y = [-50i64, 4000, 7000];
    merge(&mut x, &mut y, 23_170);
    assert_eq!(rt; x, [9789, -11_886, -5595]);
    assert_eq!(rt; y, [10_927, -3062, 11_816]);
    let mut x = [16_384i64, 0];
    let mut y = [0i64, 16_383];
    merge(&mut x, &mut y, 32_767);
    assert_eq!(rt; x, [11_585, -11_584]);
    assert_eq!(rt; y, [11_585, 11_584]);
    let mut x = [16_000i64, 100];
    let mut y = [14_000i64, 90];
    merge(&mut x, &mut y, 30_000);
    assert_eq!(rt; x, [16_383, 50]);
    assert_eq!(rt; y, [16_383, 104]);
    // sums of squares of 161,061 and of 161,060
    let mut x = [5i64, 6, 7];
    let mut y = [401i64, 16, 2];
    merge(&mut x, &mut y, 0);
    assert_eq!(rt; x, [-16_370, -653, -81]);
    assert_eq!(rt; y, [16_370, 653, 81]);
    let mut x = [5i64, 6, 7, 8, 9];
    let mut y = [401i64, 16, 1, 1, 1];
    merge(&mut x, &mut y, 0);
    assert_eq!(rt; x, [5, 6, 7, 8, 9]);
    assert_eq!(rt; y, [5, 6, 7, 8, 9]);
}

// An item of 16000 in size at most, from a state of the noise.
fn level(state: u32) -> i64
    ensures { unsigned_abs result < 2 ^ 20 }
{
    ((state >> 16) % 32_001) as i64 - 16_000
}

/// Steps of the noise from 7.
fn levels() -> [i64; 128]
    ensures { All (λ v. unsigned_abs v < 2 ^ 20) result }
{
    let mut x = [0i64; 128];
    let mut state = 7;
    for i in 0..128usize {
        state = noise(state);
        x[i] = level(state);
    }
    x
}

/// The numbers of a list in one: c becomes c * 1000003 + x modulo 2^64 for each x.
fn digest(x: &[i64]) -> u64 {
    let mut sum: u64 = 0;
    for v in x {
        sum = sum.wrapping_mul(1_000_003).wrapping_add(v.cast_unsigned());
    }
    sum
}

/// The digest of the levels after their turns.
fn turned(trig: &Trig, blocks: u32, k: u32, spread: u32, forward: bool) -> u64
    requires blocks { (1 ≤ blocks) × (blocks ≤ 16) }
    requires runs { 128 % blocks ≡ 0 }
    requires pulses { (1 ≤ k) × (k ≤ 4096) }
    requires spread { spread ≤ 3 }
{
    let mut x = levels();
    rotate(&mut x, trig, blocks, k, spread, forward);
    digest(&x)
}

// Far pairs in 1 to 16 blocks, and pulses below, at and above half of the items.
#[test]
fn turns_of_many_blocks(rt: HostRuntime) {
    let trig = Trig::new();
    assert_eq!(rt; turned(&trig, 1, 1, 1, false), 11614154874920890975);
    assert_eq!(rt; turned(&trig, 2, 1, 2, true), 18174485472836932243);
    assert_eq!(rt; turned(&trig, 4, 1, 2, true), 4260185079226418338);
    assert_eq!(rt; turned(&trig, 4, 9, 3, false), 9176467007154287652);
    assert_eq!(rt; turned(&trig, 8, 2, 3, true), 17906996836760499815);
    assert_eq!(rt; turned(&trig, 8, 3, 1, false), 1762060288327377981);
    assert_eq!(rt; turned(&trig, 16, 1, 1, false), 4920363312418461786);
    assert_eq!(rt; turned(&trig, 16, 1, 1, true), 6625097376400016751);
    assert_eq!(rt; turned(&trig, 16, 63, 3, false), 13435250259854926752);
    assert_eq!(rt; turned(&trig, 16, 64, 3, false), 14185303781724794505);
    assert_eq!(rt; turned(&trig, 16, 65, 3, true), 14185303781724794505);
}
