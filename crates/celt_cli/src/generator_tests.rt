//! Samples of seeds, as a program apart from this one computes them.
use crate::generator::GenSamples;

/// The pairs with the numbers 0, 1, 150, 151, 199 and 200, and a sum over the first 10,000 pairs that becomes 31
/// times itself and the next sample modulo 2^16, left before right, modulo 2^32.
#[derive(Clone, Copy, Drop)]
struct Row {
    seed: u32,
    pairs: [(i16, i16); 6],
    sum: u32,
}

const NUMBERS: [u32; 6] = [0, 1, 150, 151, 199, 200];

const ROWS: [Row; 5] = [
    Row {
        seed: 0,
        pairs: [
            (-3759, -3715),
            (-4145, -4289),
            (1621, 3902),
            (1988, -3561),
            (4239, -1010),
            (-4470, -1202),
        ],
        sum: 0xb11e409e,
    },
    Row {
        seed: 1,
        pairs: [
            (-3758, -3622),
            (-4468, -4251),
            (1709, 3826),
            (2274, -3497),
            (3738, -1894),
            (-3927, -1463),
        ],
        sum: 0xc27653d5,
    },
    Row {
        seed: 7,
        pairs: [
            (-3756, -4089),
            (-4357, -4023),
            (2240, 4397),
            (1944, -4136),
            (3806, -1051),
            (-3743, -984),
        ],
        sum: 0xc3dc8c8c,
    },
    Row {
        seed: 2_147_483_648,
        pairs: [
            (-4271, -4227),
            (-3633, -3777),
            (2133, 4414),
            (2500, -4073),
            (3727, -1522),
            (-3958, -1714),
        ],
        sum: 0xc038409e,
    },
    Row {
        seed: 4_294_967_295,
        pairs: [
            (-3759, -3808),
            (-3822, -4327),
            (1532, 3977),
            (1701, -3625),
            (3715, -1150),
            (-3988, -941),
        ],
        sum: 0x6ec7228a,
    },
];

/// The sum with one more sample.
fn added(sum: u32, sample: i16) -> u32 {
    sum.wrapping_mul(31)
        .wrapping_add(u32::from(sample.cast_unsigned()))
}

#[test]
fn samples(rt: HostRuntime) {
    for row in ROWS {
        let seed = row.seed;
        let mut generator = GenSamples::new(seed);
        let mut sum = 0;
        let mut met = 0usize;
        for number in 0..10_000u32 {
            let (left, right) = generator.next();
            sum = added(added(sum, left), right);
            if NUMBERS.get(met) == Some(&number) {
                let want = row.pairs.get(met).copied();
                assert_eq!(rt; Some((left, right)), want, "seed {seed}");
                met += 1;
            }
        }
        assert_eq!(rt; met, 6);
        assert_eq!(rt; sum, row.sum, "sum of seed {seed}");
    }
}
