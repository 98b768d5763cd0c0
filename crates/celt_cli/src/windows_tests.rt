//! Windows of the samples of seeds, summed by a program apart from this one.
use crate::generator::GenSettings;
use crate::tally::Tally;
use crate::windows::{GenWindows, WINDOW_LEN};

/// For each frame of a seed the sum over its window, which becomes 31 times itself and the next sample modulo 2^16,
/// modulo 2^32; and the first sample behind the lead, the last of the lead, and the last of the window.
const ROWS: [(u32, u32, &[(u32, i16, i16, i16)]); 3] = [
    (0, 1, &[(0x67b3_38dd, -3759, 0, 0)]),
    (
        7,
        3,
        &[
            (0x36be_9029, -3756, 0, -809),
            (0x96ea_f60d, 2634, -809, 2099),
            (0x1a25_38e8, 1023, 2099, 0),
        ],
    ),
    (
        u32::MAX,
        2,
        &[(0x308f_3fa2, -3759, 0, -756), (0x0b03_608f, 2593, -756, 0)],
    ),
];

fn summed(samples: &[i16]) -> u32 {
    let mut sum = 0u32;
    for sample in samples {
        sum = sum
            .wrapping_mul(31)
            .wrapping_add(u32::from(sample.cast_unsigned()));
    }
    sum
}

#[test]
fn windows(rt: HostRuntime) {
    for (seed, frames, rows) in ROWS {
        let mut windows = GenWindows::new(GenSettings { seed, frames });
        let mut window = [0; WINDOW_LEN];
        for (sum, first, before, last) in rows {
            windows.next(&mut window);
            assert_eq!(rt; summed(&window), *sum, "seed {seed}");
            assert_eq!(rt; window.get(2290), Some(first));
            assert_eq!(rt; window.get(2289), Some(before));
            assert_eq!(rt; window.last(), Some(last));
        }
    }
}

// The samples of a frame of 960 pairs come out but for the first 120, those of the next one all.
#[test]
fn tallies(rt: HostRuntime) {
    let mut samples = [0i16; 1920];
    if let Some(sample) = samples.get_mut(239) {
        *sample = 5;
    }
    if let Some(sample) = samples.get_mut(1919) {
        *sample = -1;
    }
    let first = Tally::new().with(&samples);
    assert_eq!(rt; first.pairs(), 840);
    assert_eq!(rt; first.sum(), 65535);
    let second = first.with(&[3, -2]);
    assert_eq!(rt; second.pairs(), 841);
    // 31 * (31 * 65535 + 3) + 65534
    assert_eq!(rt; second.sum(), 63_044_762);
}
