//! Allocations by the numbers of an independent program.
ghost use Rattle.std.specs.Prelude.{◌+◌, ◌≤◌};
ghost use Rattle.bit_allocation.specs.Requests.{AreBoosts, IsBoost};

use crate::allocate;
use crate::amounts::greatest_amount;
use celt_base::coder::{Coder, Mute};
use celt_base::kind::Kind;
use celt_base::state::Allocation;
use range_coder::{Reader, Writer};

// The frames that answer: all bits 1, so that no band is skipped; all 0, so that each is; by turns; and others.
const FRAMES: [[u8; 6]; 7] = [
    [0xff, 0xff, 0xff, 0xff, 0xff, 0xff],
    [0x00, 0x00, 0x00, 0x00, 0x00, 0x00],
    [0x55, 0x55, 0x55, 0x55, 0x55, 0x55],
    [0x0b, 0x71, 0x3c, 0xe2, 0x19, 0x84],
    [0x80, 0x00, 0x00, 0x00, 0x00, 0x00],
    [0x1d, 0xb7, 0x6a, 0x05, 0xcc, 0x3f],
    [0x00, 0x4e, 0x92, 0xd1, 0x77, 0x20],
];

/// The size exponent, the channels and the bands of the kind; the trim; which boosts; which frame; then the first
/// total, the step to the next, and how many there are; and the digest of all allocations.
type Family = (u8, u8, u8, i32, u32, usize, i32, i32, i32, u64);

const FAMILIES: [Family; 144] = [
    (0, 1, 13, 0, 0, 0, 0, 6800, 13, 0xb1aac1e46fa6fe9a),
    (0, 1, 13, 5, 0, 5, -1, 250, 13, 0xc27ea45fd02e0ade),
    (0, 1, 17, 10, 0, 3, 0, 6800, 13, 0xe9b4fb851f97385a),
    (0, 1, 17, 0, 1, 1, -1, 250, 13, 0xbc495b121fba0940),
    (0, 1, 19, 5, 1, 6, 0, 6800, 13, 0xc903ec2302d61eb9),
    (0, 1, 19, 10, 1, 4, -1, 250, 13, 0x11417ab880ed2a99),
    (0, 1, 21, 0, 2, 2, 0, 6800, 13, 0x08715098db5b25e7),
    (0, 1, 21, 5, 2, 0, -1, 250, 13, 0x6cc88513e6b59c6b),
    (0, 2, 13, 10, 2, 5, 0, 6800, 13, 0x40df9f07f9e138c6),
    (0, 2, 13, 0, 0, 3, -1, 500, 13, 0x2b295ba98dc88f91),
    (0, 2, 17, 5, 0, 1, 0, 6800, 13, 0x26da8c779ad38792),
    (0, 2, 17, 10, 0, 6, -1, 500, 13, 0x3b269ba5796f78d3),
    (0, 2, 19, 0, 1, 4, 0, 6800, 13, 0xf4d42a31862a249a),
    (0, 2, 19, 5, 1, 2, -1, 500, 13, 0x76e02d945c8fc884),
    (0, 2, 21, 10, 1, 0, 0, 6800, 13, 0x0702670d6cfb56c1),
    (0, 2, 21, 0, 2, 5, -1, 500, 13, 0x071fe4e0f0b76be3),
    (1, 1, 13, 5, 2, 3, 0, 6800, 13, 0x1880cd569266dd86),
    (1, 1, 13, 10, 2, 1, -1, 500, 13, 0xdfb01525403b02d7),
    (1, 1, 17, 0, 0, 6, 0, 6800, 13, 0xfb90debf5bc8789a),
    (1, 1, 17, 5, 0, 4, -1, 500, 13, 0x7767836958f0a70c),
    (1, 1, 19, 10, 0, 2, 0, 6800, 13, 0xcaef1930feb4790a),
    (1, 1, 19, 0, 1, 0, -1, 500, 13, 0xf8aeb598f0d999e2),
    (1, 1, 21, 5, 1, 5, 0, 6800, 13, 0x46e22dbd57ee90a1),
    (1, 1, 21, 10, 1, 3, -1, 500, 13, 0x03004933a37205ef),
    (1, 2, 13, 0, 2, 1, 0, 6800, 13, 0x20bd58ac22f971c6),
    (1, 2, 13, 5, 2, 6, -1, 1000, 13, 0xf912b5cef01b5604),
    (1, 2, 17, 10, 2, 4, 0, 6800, 13, 0xdd1b81f77414b033),
    (1, 2, 17, 0, 0, 2, -1, 1000, 13, 0xbf322a67179fcc40),
    (1, 2, 19, 5, 0, 0, 0, 6800, 13, 0xf7988d2776e0b95c),
    (1, 2, 19, 10, 0, 5, -1, 1000, 13, 0x9cf23bc82eb91b94),
    (1, 2, 21, 0, 1, 3, 0, 6800, 13, 0x766310070785ae3c),
    (1, 2, 21, 5, 1, 1, -1, 1000, 13, 0x20cbd255bceb40d4),
    (2, 1, 13, 10, 1, 6, 0, 6800, 13, 0x83482f255e473fb1),
    (2, 1, 13, 0, 2, 4, -1, 1000, 13, 0xaee12e7b4011b8c6),
    (2, 1, 17, 5, 2, 2, 0, 6800, 13, 0xb545edc9a7022f70),
    (2, 1, 17, 10, 2, 0, -1, 1000, 13, 0x170f867251fccc44),
    (2, 1, 19, 0, 0, 5, 0, 6800, 13, 0x5bc6b683af9f54ee),
    (2, 1, 19, 5, 0, 3, -1, 1000, 13, 0xad679c6f2cf10e3d),
    (2, 1, 21, 10, 0, 1, 0, 6800, 13, 0xea7ac84926c8e5ca),
    (2, 1, 21, 0, 1, 6, -1, 1000, 13, 0xc5869e47723af476),
    (2, 2, 13, 5, 1, 4, 0, 6800, 13, 0x7edb7ee1c17c0af7),
    (2, 2, 13, 10, 1, 2, -1, 2000, 13, 0xeec4f61ae4709258),
    (2, 2, 17, 0, 2, 0, 0, 6800, 13, 0x79514cf62eeb5838),
    (2, 2, 17, 5, 2, 5, -1, 2000, 13, 0x247807a506c0b634),
    (2, 2, 19, 10, 2, 3, 0, 6800, 13, 0x7178bb717fd4ca60),
    (2, 2, 19, 0, 0, 1, -1, 2000, 13, 0x031676f975bd5800),
    (2, 2, 21, 5, 0, 6, 0, 6800, 13, 0x8ef3641f03ffdc7d),
    (2, 2, 21, 10, 0, 4, -1, 2000, 13, 0x765ab4cd6c80d869),
    (3, 1, 13, 0, 1, 2, 0, 6800, 13, 0xb4a2683e93937c16),
    (3, 1, 13, 5, 1, 0, -1, 2000, 13, 0xf8376a4531503d20),
    (3, 1, 17, 10, 1, 5, 0, 6800, 13, 0xf6355a8be8892c9c),
    (3, 1, 17, 0, 2, 3, -1, 2000, 13, 0xd441e272d64ad2d1),
    (3, 1, 19, 5, 2, 1, 0, 6800, 13, 0x9dc3a04cb7389df5),
    (3, 1, 19, 10, 2, 6, -1, 2000, 13, 0x6de75ec750e73c75),
    (3, 1, 21, 0, 0, 4, 0, 6800, 13, 0x54367a2579dda9a1),
    (3, 1, 21, 5, 0, 2, -1, 2000, 13, 0xc0f6bfc94ca4a6fd),
    (3, 2, 13, 10, 0, 0, 0, 6800, 13, 0x0489a9958333f6e1),
    (3, 2, 13, 0, 1, 5, -1, 4000, 13, 0xaa082acd9e3f16eb),
    (3, 2, 17, 5, 1, 3, 0, 6800, 13, 0x84ed079e3b479b53),
    (3, 2, 17, 10, 1, 1, -1, 4000, 13, 0xf98417b52a6b7e94),
    (3, 2, 19, 0, 2, 6, 0, 6800, 13, 0x04c9ba1c1d45866e),
    (3, 2, 19, 5, 2, 4, -1, 4000, 13, 0xa6d7375f8941607c),
    (3, 2, 21, 10, 2, 2, 0, 6800, 13, 0x9d845bdcf920892f),
    (3, 2, 21, 0, 0, 0, -1, 4000, 13, 0x73d988f2b9b465f9),
    (0, 1, 17, 10, 1, 0, 291, 1, 3, 0x20e24bc98b39dd82),
    (0, 1, 17, 10, 1, 3, 413, 1, 3, 0x1ecd62938aca664c),
    (0, 1, 17, 10, 1, 6, 518, 1, 3, 0xd6e1b16a6a75ef72),
    (0, 1, 17, 10, 1, 2, 614, 1, 3, 0xc358c043beb00c59),
    (0, 1, 17, 10, 1, 5, 697, 1, 3, 0x68c7b5b6c655628d),
    (0, 1, 17, 10, 1, 1, 796, 1, 3, 0x85df384a481e0b54),
    (0, 1, 17, 10, 1, 4, 891, 1, 3, 0x3539055d553b2cf5),
    (0, 1, 17, 10, 1, 0, 988, 1, 3, 0x8f41f6e7609e54d2),
    (0, 1, 17, 10, 1, 3, 1086, 1, 3, 0xf06570d09909ae1c),
    (0, 1, 17, 10, 1, 6, 1862, 1, 3, 0x7449a7ab2c186c30),
    (0, 2, 19, 0, 2, 2, 2240, 1, 3, 0x9845f182c8f26fcb),
    (0, 2, 19, 0, 2, 5, 2371, 1, 3, 0xeb0304021390c985),
    (0, 2, 19, 0, 2, 1, 2547, 1, 3, 0x63f3c0f87ef2cfd4),
    (0, 2, 19, 0, 2, 4, 2754, 1, 3, 0x18ef698f13cb5477),
    (0, 2, 19, 0, 2, 0, 3045, 1, 3, 0x72b8d7090fffc93a),
    (0, 2, 19, 0, 2, 3, 3325, 1, 3, 0xb3948857b71d9e61),
    (0, 2, 19, 0, 2, 6, 3595, 1, 3, 0x9c3530db6cd8aa9d),
    (0, 2, 19, 0, 2, 2, 3862, 1, 3, 0x474cb45265195373),
    (0, 2, 19, 0, 2, 5, 4127, 1, 3, 0x844fa59936ad606e),
    (0, 2, 19, 0, 2, 1, 6349, 1, 3, 0x1fcc8ad8a1806b89),
    (1, 1, 19, 5, 2, 4, 2227, 1, 3, 0xf201f0ac5f8b6f78),
    (1, 1, 19, 5, 2, 0, 2389, 1, 3, 0xb43986603321cc04),
    (1, 1, 19, 5, 2, 3, 2567, 1, 3, 0x9760f58e7a490fa2),
    (1, 1, 19, 5, 2, 6, 2769, 1, 3, 0x61195fa33220b46b),
    (1, 1, 19, 5, 2, 2, 3047, 1, 3, 0xcf1c1e25715f9820),
    (1, 1, 19, 5, 2, 5, 3309, 1, 3, 0xcda90c47fc1bfc6a),
    (1, 1, 19, 5, 2, 1, 3558, 1, 3, 0x02e8d51793e08dbe),
    (1, 1, 19, 5, 2, 4, 3808, 1, 3, 0x5166f5559b4ea33c),
    (1, 1, 19, 5, 2, 0, 4058, 1, 3, 0x15d47f78ffcef1bd),
    (1, 1, 19, 5, 2, 3, 6165, 1, 3, 0x920df74e44520b0f),
    (1, 2, 21, 10, 0, 6, 1311, 1, 3, 0xc0ad3def677b2cb8),
    (1, 2, 21, 10, 0, 2, 1873, 1, 3, 0xac4463522d82b94e),
    (1, 2, 21, 10, 0, 5, 2432, 1, 3, 0x4461936106c55002),
    (1, 2, 21, 10, 0, 1, 2997, 1, 3, 0xdb3f0e3027138e43),
    (1, 2, 21, 10, 0, 4, 3838, 1, 3, 0x7bc5c1023332b428),
    (1, 2, 21, 10, 0, 0, 4528, 1, 3, 0xd831e0355c3dfdca),
    (1, 2, 21, 10, 0, 3, 5210, 1, 3, 0x29de84d768e40594),
    (1, 2, 21, 10, 0, 6, 5990, 1, 3, 0x88675bbbc12c34d3),
    (1, 2, 21, 10, 0, 2, 7284, 1, 3, 0x40b206a21ba787c5),
    (1, 2, 21, 10, 0, 5, 15609, 1, 3, 0x5579e154648553d3),
    (2, 1, 21, 0, 0, 1, 61, 1, 3, 0x8ccb97bd790258f8),
    (2, 1, 21, 0, 0, 4, 238, 1, 3, 0xd90d187c75821a7e),
    (2, 1, 21, 0, 0, 0, 514, 1, 3, 0x8ff5211df901bbe9),
    (2, 1, 21, 0, 0, 3, 798, 1, 3, 0x393fe25f96538622),
    (2, 1, 21, 0, 0, 6, 1474, 1, 3, 0x2b6064e7e2002b86),
    (2, 1, 21, 0, 0, 2, 2164, 1, 3, 0xafc63cd3b8d46b62),
    (2, 1, 21, 0, 0, 5, 2846, 1, 3, 0xe10cd2d5cbb3272e),
    (2, 1, 21, 0, 0, 1, 3626, 1, 3, 0x3ba6ed9d7c610e08),
    (2, 1, 21, 0, 0, 4, 4928, 1, 3, 0x499d056316a50fa8),
    (2, 1, 21, 0, 0, 0, 13249, 1, 3, 0xb8c07655cfaa60ce),
    (2, 2, 13, 5, 1, 3, 1494, 1, 3, 0xa0f52e7d54024243),
    (2, 2, 13, 5, 1, 6, 2154, 1, 3, 0x961f81148511f598),
    (2, 2, 13, 5, 1, 2, 2652, 1, 3, 0xcf34b4f158a5cb60),
    (2, 2, 13, 5, 1, 5, 2962, 1, 3, 0xc22fd2954d1bf108),
    (2, 2, 13, 5, 1, 1, 3244, 1, 3, 0x62677b5d72ba1dfe),
    (2, 2, 13, 5, 1, 4, 3644, 1, 3, 0x00744fa7fea7dfa0),
    (2, 2, 13, 5, 1, 0, 4028, 1, 3, 0x3d40522b7c83f752),
    (2, 2, 13, 5, 1, 3, 4428, 1, 3, 0x0431c9857451994c),
    (2, 2, 13, 5, 1, 6, 4828, 1, 3, 0x36f03addb5eb2553),
    (2, 2, 13, 5, 1, 2, 7638, 1, 3, 0x0d9b58d3c48fa9d2),
    (3, 1, 13, 10, 1, 5, 1807, 1, 3, 0x982b02cdac265f6d),
    (3, 1, 13, 10, 1, 1, 2467, 1, 3, 0x0ad6cfd9ddb55fc8),
    (3, 1, 13, 10, 1, 4, 2965, 1, 3, 0x41ab9d2e1a6afedc),
    (3, 1, 13, 10, 1, 0, 3275, 1, 3, 0x3f7d61cf2765030f),
    (3, 1, 13, 10, 1, 3, 3557, 1, 3, 0x46362a225b799157),
    (3, 1, 13, 10, 1, 6, 3957, 1, 3, 0x0cc922314b6b01c3),
    (3, 1, 13, 10, 1, 2, 4341, 1, 3, 0xf998b0de9255927e),
    (3, 1, 13, 10, 1, 5, 4741, 1, 3, 0x99d562b31a45cc01),
    (3, 1, 13, 10, 1, 1, 5141, 1, 3, 0xb139d392c1af65a3),
    (3, 1, 13, 10, 1, 4, 7951, 1, 3, 0x9977ddc950b0af33),
    (3, 2, 17, 0, 2, 0, 2541, 1, 3, 0xb3df94a5540d1464),
    (3, 2, 17, 0, 2, 3, 3909, 1, 3, 0x82769256cbc08a24),
    (3, 2, 17, 0, 2, 6, 5617, 1, 3, 0x5d412f8da3d57a69),
    (3, 2, 17, 0, 2, 2, 7061, 1, 3, 0xbf16637ff04b484d),
    (3, 2, 17, 0, 2, 5, 8425, 1, 3, 0x5916f789d0898554),
    (3, 2, 17, 0, 2, 1, 10025, 1, 3, 0x04ab6dea92e3b74a),
    (3, 2, 17, 0, 2, 4, 11593, 1, 3, 0xb749a30a33462226),
    (3, 2, 17, 0, 2, 0, 13193, 1, 3, 0x0a90af9d7c7a66f9),
    (3, 2, 17, 0, 2, 3, 14793, 1, 3, 0x13ca0ef0d7e3843a),
    (3, 2, 17, 0, 2, 6, 27429, 1, 3, 0x9941383786dd928f),
];

fn kind_of(lm: u8, channels: u8, end: u8) -> Option<Kind> {
    if lm > 3 || channels == 0 || channels > 2 {
        return None;
    }
    match end {
        13 | 17 | 19 | 21 => Some(Kind { lm, channels, end }),
        _ => None,
    }
}

// What the boosts add to a band: none of any, one of band 5, or some of many; no more than the greatest amount.
fn boost(kind: Kind, pattern: u32, band: u32) -> i32
    requires { band ≤ 20 }
    ensures { IsBoost kind band result }
{
    let wanted = match pattern {
        0 => 0,
        1 => { if band == 5 { 96 } else { 0 } }
        _ => (band * 7 + 3) % 5 * 60,
    };
    greatest_amount(kind, band).min(wanted) as i32
}

fn boosts_of(kind: Kind, pattern: u32) -> [i32; 21]
    ensures { AreBoosts kind result }
{
    let mut boosts = [0; 21];
    for band in 0..21u32 {
        boosts[band as usize] = boost(kind, pattern, band);
    }
    boosts
}

fn folded(digest: u64, value: u64) -> u64 {
    digest.wrapping_mul(1_000_003).wrapping_add(value)
}

// The digest with all numbers of an allocation, and with the eighths of a bit that its questions took.
fn with_allocation(before: u64, a: &Allocation, eighths: u32) -> u64 {
    let mut digest = folded(before, u64::from(a.coded));
    digest = folded(digest, u64::from(a.intensity));
    digest = folded(digest, u64::from(a.dual));
    digest = folded(digest, u64::from(a.balance.cast_unsigned()));
    for pulses in &a.pulses {
        digest = folded(digest, u64::from(pulses.cast_unsigned()));
    }
    for fine in &a.fine {
        digest = folded(digest, u64::from(*fine));
    }
    for priority in &a.priority {
        digest = folded(digest, u64::from(*priority));
    }
    folded(digest, u64::from(eighths))
}

// The digest with the allocation for a total.
fn with_total(before: u64, kind: Kind, family: &Family, total: i32) -> u64 {
    let (_, _, _, trim, pattern, frame, ..) = *family;
    if total > 81600 || trim < 0 || trim > 10 || frame >= FRAMES.len() {
        return 0;
    }
    let mut reader = Reader::new(&FRAMES[frame]);
    let boosts = boosts_of(kind, pattern);
    let allocation = allocate(&mut reader, &mut Mute, kind, total, &boosts, trim);
    with_allocation(before, &allocation, reader.tell_frac())
}

fn digest_of(family: &Family) -> u64 {
    let (lm, channels, end, _, _, _, first, step, count, _) = *family;
    let Some(kind) = kind_of(lm, channels, end) else {
        return 0;
    };
    let mut digest = 0;
    for k in 0..count {
        digest = with_total(
            digest,
            kind,
            family,
            first.wrapping_add(step.wrapping_mul(k)),
        );
    }
    digest
}

#[test]
fn families(rt: HostRuntime) {
    for family in &FAMILIES {
        assert_eq!(rt; digest_of(family), family.9, "at {family:?}");
    }
}

// The allocation of the smallest kind, which asks nothing: no bit is used.
fn smallest_of<C: Coder>(coder: &mut C, total: i32) -> Option<Allocation>
    requires few { C.calls.count coder.old + 22 ≤ 4096 }
{
    if total > 81600 {
        return None;
    }
    let kind = Kind {
        lm: 0,
        channels: 1,
        end: 13,
    };
    let boosts = boosts_of(kind, 0);
    let allocation = allocate(coder, &mut Mute, kind, total, &boosts, 5);
    if coder.tell() == 1 {
        Some(allocation)
    } else {
        None
    }
}

// With 64 eighths of a bit, and with none, read and written.
#[test]
fn smallest(rt: HostRuntime) {
    let mut expected = Allocation {
        coded: 1,
        intensity: 0,
        dual: false,
        balance: 0,
        pulses: [0; 21],
        fine: [0; 21],
        priority: [true; 21],
    };
    let mut room = [0; 2];
    let none = smallest_of(&mut Writer::new(&mut room), 0);
    assert_eq!(rt; none, Some(expected), "none, written");
    let none = smallest_of(&mut Reader::new(&[0xff, 0xff]), 0);
    assert_eq!(rt; none, Some(expected), "none, read");
    expected.pulses[0] = 8;
    expected.fine[0] = 2;
    for band in [1, 2, 3, 8, 9] {
        expected.fine[band] = 1;
        expected.priority[band] = false;
    }
    let some = smallest_of(&mut Writer::new(&mut room), 64);
    assert_eq!(rt; some, Some(expected), "64, written");
    let some = smallest_of(&mut Reader::new(&[0xff, 0xff]), 64);
    assert_eq!(rt; some, Some(expected), "64, read");
}
