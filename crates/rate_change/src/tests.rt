//! Counts, sums of weights and outputs. The digests are of outputs that a program apart from this one made from the equations.
ghost use Rattle.std.specs.Prelude.{◌≡◌, ◌<◌, ◌≤◌, ◌^◌, length, IfOk};
ghost use Rattle.rate_change.specs.Parts.{parts_of};

use super::{Ratio, Weights, outputs, ready};
use crate::sums::sum_at;
use celt_base::status::OutOfMemory;
use fixed_math::Trig;
use std::alloc::Global;

/// The six rates in Hz, in the order of their ratios' `up`.
const RATES: [u32; 6] = [48000, 24000, 16000, 12000, 8000, 44100];

#[test]
fn ratios(rt: HostRuntime) {
    for (rate, up, down) in [
        (48000u32, 1u32, 1u32),
        (24000, 2, 1),
        (16000, 3, 1),
        (12000, 4, 1),
        (8000, 6, 1),
        (44100, 160, 147),
    ] {
        let r = Ratio::of(rate).expect(&rt, "one of the six");
        assert_eq!(rt; (r.up, r.down), (up, down), "{rate}");
    }
    for rate in [0u32, 1, 7999, 8001, 22050, 32000, 44099, 96000, u32::MAX] {
        assert_eq!(rt; Ratio::of(rate), None, "{rate}");
    }
}

#[test]
fn counts(rt: HostRuntime) {
    for (rate, m, all, whole) in [
        (44100u32, 147u32, 160u64, 143u64),
        (44100, 1, 2, 0),
        (44100, 0, 0, 0),
        (44100, 17, 19, 2),
        (44100, 1000, 1089, 1072),
        (8000, 1, 6, 0),
        (8000, 16, 96, 0),
        (8000, 17, 102, 6),
        (12000, 17, 68, 4),
        (16000, 147, 441, 393),
        (24000, 17, 34, 2),
        (48000, 0, 0, 0),
        (48000, 17, 17, 17),
    ] {
        let r = Ratio::of(rate).expect(&rt, "one of the six");
        assert_eq!(rt;
            (outputs(r, u64::from(m)), ready(r, u64::from(m))),
            (all, whole),
            "{m} at {rate}"
        );
    }
}

#[test]
fn sums_of_weights(rt: HostRuntime) {
    let trig = Trig::new();
    for rate in RATES {
        let r = Ratio::of(rate).expect(&rt, "one of the six");
        for f in 1..r.up {
            assert!(rt; sum_at(&trig, r.up, f) > 0, "part {f} at {rate}");
        }
    }
}

/// The samples around place `i`, which is below 2^32, with zeros before and behind the input.
fn window_around(input: &[i16], i: u64) -> [i16; 32] {
    let mut window = [0i16; 32];
    for t in 0..32usize {
        let place = i.wrapping_add(t as u64).wrapping_sub(15);
        if place < input.len() as u64 {
            window[t] = input[place as usize];
        }
    }
    window
}

/// Output `k` of the input.
fn output_at(weights: &Weights, r: Ratio, input: &[i16], k: u64) -> i16
    requires { parts_of weights.now ≡ r.up }
{
    let place = k.wrapping_mul(u64::from(r.down));
    let up = u64::from(r.up);
    weights.output(&window_around(input, place / up), (place % up) as u32)
}

/// How many outputs an input has, and each added to the digest times 1000003, modulo 2^64.
fn digest(alloc: Global, r: Ratio, input: &[i16]) -> Result<(u64, u64), OutOfMemory>
    requires { length input.now < 2 ^ 40 }
{
    let weights = Weights::new(alloc, r, &Trig::new())?;
    let count = outputs(r, input.len() as u64);
    let mut sum = 0u64;
    for k in 0..count {
        let output = i64::from(output_at(&weights, r, input, k)).cast_unsigned();
        sum = sum.wrapping_mul(1_000_003).wrapping_add(output);
    }
    Ok((count, sum))
}

#[test]
fn noise(rt: HostRuntime) -> Result<(), OutOfMemory> {
    let mut input = [0i16; 64];
    let mut seed = 0u32;
    for i in 0..64usize {
        seed = fixed_math::noise(seed);
        input[i] = ((seed >> 16) as u16).cast_signed();
    }
    for (rate, count, sum) in [
        (8000u32, 384u64, 2_262_227_287_775_398_402u64),
        (12000, 256, 5_397_471_898_239_525_205),
        (16000, 192, 13_925_958_866_928_747_272),
        (24000, 128, 13_412_722_467_192_634_405),
        (44100, 70, 14_486_791_050_704_798_605),
        (48000, 64, 3_369_705_162_996_486_783),
    ] {
        let r = Ratio::of(rate).expect(&rt, "one of the six");
        assert_eq!(rt; digest(rt.alloc(), r, &input)?, (count, sum), "{rate}");
    }
    Ok(())
}

#[test]
fn forty_samples(rt: HostRuntime) -> Result<(), OutOfMemory> {
    let r = Ratio::of(24000).expect(&rt, "one of the six");
    let weights = Weights::new(rt.alloc(), r, &Trig::new())?;
    let input = [100i16; 40];
    for k in 0..80u64 {
        let output = output_at(&weights, r, &input, k);
        let inside = k % 2 == 0 || (30 <= k && k <= 47);
        assert!(rt; output == 100 || !inside, "{output} at {k}");
    }
    assert_eq!(rt; output_at(&weights, r, &input, 79), 50);
    Ok(())
}
