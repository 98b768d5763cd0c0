//! Values from outside: the vectors in the order of the definition, listed by hand or by programs
//! written apart from this one, and costs of such a program.

ghost use Rattle.std.specs.Prelude.{◌≤◌};

use crate::{PulseTable, Row, cost, count, index_for, last_index, pulses_of, rank, unrank};

/// The numbers of a vector in one: c becomes c * 1000003 + x modulo 2^64 for each x.
fn digest(from: u64, y: &[i32]) -> u64 {
    let mut sum = from;
    for x in y {
        sum = sum
            .wrapping_mul(1_000_003)
            .wrapping_add((*x as i64).cast_unsigned());
    }
    sum
}

/// The digest of the vector at place `index`, where rows and table read the same vector there and
/// rank it there again; the table only up to 128 pulses.
fn round_trip(table: &PulseTable, n: usize, k: u32, index: u32, from: u64) -> Option<u64>
    requires size { (1 ≤ n) × (n ≤ 176) }
    requires pulses { (1 ≤ k) × (k ≤ 4096) }
{
    let total = count(n as u32, k)?;
    if index >= total {
        return None;
    }
    let mut room = [0; 176];
    let y = &mut room[..n];
    unrank(index, k, y);
    if rank(y) != index {
        return None;
    }
    if k <= 128 {
        let mut other = [0; 176];
        let z = &mut other[..n];
        table.unrank(index, k, z);
        if digest(from, z) != digest(from, y) || table.rank(z) != index {
            return None;
        }
    }
    Some(digest(from, y))
}

/// The pair with so many pulses at place `index`, if there is one.
fn pair_at(pulses: u32, index: u32) -> Option<[i32; 2]>
    requires { (1 ≤ pulses) × (pulses ≤ 4096) }
{
    let total = count(2, pulses)?;
    if index >= total {
        return None;
    }
    let mut pair = [0; 2];
    unrank(index, pulses, &mut pair);
    Some(pair)
}

#[test]
fn order_of_pairs(rt: HostRuntime) {
    for (index, want) in [
        (0, Some([1, 0])),
        (1, Some([0, 1])),
        (2, Some([0, -1])),
        (3, Some([-1, 0])),
        (4, None),
    ] {
        assert_eq!(rt; pair_at(1, index), want, "{index}");
    }
}

/// All vectors of 1 to 5 numbers and 1 to 5 pulses, in order.
#[test]
fn all_short_vectors(rt: HostRuntime) {
    let table = PulseTable::new();
    for (n, want) in [
        (1, 11525326747714479774),
        (2, 5420421182302502928),
        (3, 14540798365894317642),
        (4, 6445811258678778176),
        (5, 4279859061625122614),
    ] {
        let mut sum = Some(0);
        for k in 1..6 {
            for index in 0..count(n as u32, k).unwrap_or(0) {
                sum = sum.and_then(|from| round_trip(&table, n, k, index, from));
            }
        }
        assert_eq!(rt; sum, Some(want), "{n} numbers");
    }
}

/// Numbers, pulses, a place at either end or between, and the digest of the vector there. The first
/// is (0, 0, -1).
#[test]
fn long_vectors(rt: HostRuntime) {
    let table = PulseTable::new();
    for (n, k, index, want) in [
        (3, 1, 3, 18446744073709551615),
        (1, 1, 1, 18446744073709551615),
        (1, 128, 0, 128),
        (1, 128, 1, 18446744073709551488),
        (2, 128, 0, 128000384),
        (2, 128, 170, 43000044),
        (2, 128, 341, 18446744073623551316),
        (2, 128, 511, 18446744073708551486),
        (3, 128, 21846, 23000240000516),
        (4, 128, 3728725, 15339905220253654038),
        (5, 128, 358023169, 3442915868360654732),
        (6, 95, 0, 7996164668351537901),
        (6, 95, 1377134972, 13221164309925937577),
        (6, 95, 2754269944, 9530257121517301803),
        (6, 95, 4131404915, 7436447035513802619),
        (7, 53, 2643269001, 6481579759864908549),
        (8, 36, 4066763519, 2035057722762770964),
        (9, 27, 1265243760, 7811896766001289595),
        (12, 16, 1787527680, 16973699379656745374),
        (16, 12, 0, 2980568644239952388),
        (16, 12, 1191685120, 3219917331065926748),
        (16, 12, 2383370240, 14202030631370912924),
        (16, 12, 3575055359, 3040859243472686856),
        (22, 9, 618035161, 10123745800928729569),
        (36, 7, 1344755280, 11336497001692005419),
        (60, 6, 4158723679, 18218001486199297972),
        (109, 5, 1368241320, 3885644904913852655),
        (144, 1, 0, 913836409369080875),
        (144, 1, 287, 17532907664340470741),
        (144, 4, 0, 3655345637476323500),
        (144, 4, 95560704, 14174285613633017258),
        (144, 4, 191121408, 13770133258388447336),
        (144, 4, 286682111, 11780650515257918936),
        (176, 2, 20650, 11984140853295958206),
        (176, 4, 0, 7997926239473692332),
        (176, 4, 213238784, 9319681170841927260),
        (176, 4, 426477568, 1988558997804064144),
        (176, 4, 639716351, 5082761438817812952),
        (2, 4096, 16383, 18446744073708547518),
        (3, 4096, 22369622, 752003642001684),
        (4, 1172, 2861942741, 8932133467337027004),
    ] {
        assert!(rt; 1 <= n && n <= 176 && 1 <= k && k <= 4096);
        assert_eq!(rt;
            round_trip(&table, n, k, index, 0),
            Some(want),
            "{index} of {n}, {k}"
        );
    }
}

#[test]
fn counts(rt: HostRuntime) {
    for (n, k, want) in [
        (3, 2, Some(18)),
        (4, 3, Some(88)),
        (4, 1172, Some(4292914112)),
        (4, 1173, None),
        (176, 4, Some(639716352)),
        (0, 0, Some(1)),
        (0, 1, Some(0)),
    ] {
        assert!(rt; n <= 176 && k <= 4096);
        assert_eq!(rt; count(n, k), want, "{n}, {k}");
    }
    let mut row = Row::new(3);
    for _ in 0..4u32 {
        row.up();
    }
    assert_eq!(rt;
        [row.at(0), row.at(1), row.at(2), row.at(3)],
        [1, 8, 32, 88]
    );
    row.down();
    assert_eq!(rt;
        [row.at(0), row.at(1), row.at(2), row.at(3)],
        [1, 6, 18, 38]
    );
}

#[test]
fn costs(rt: HostRuntime) {
    for (index, want) in [
        (0, 0),
        (7, 7),
        (8, 8),
        (9, 9),
        (16, 16),
        (17, 18),
        (40, 128),
    ] {
        assert!(rt; index <= 40);
        assert_eq!(rt; pulses_of(index), want, "{index}");
    }
    for (n, want) in [
        (2, 40),
        (5, 40),
        (6, 35),
        (7, 29),
        (8, 25),
        (16, 12),
        (40, 7),
        (41, 6),
        (110, 4),
        (176, 4),
    ] {
        assert!(rt; 2 <= n && n <= 176);
        assert_eq!(rt; last_index(n), want, "{n}");
    }
    for (n, index, want) in [
        (2, 0, 0),
        (2, 1, 16),
        (2, 2, 24),
        (2, 3, 29),
        (2, 40, 72),
        (3, 5, 54),
        (5, 40, 228),
        (6, 35, 252),
        (16, 12, 254),
        (32, 7, 238),
        (96, 5, 249),
        (176, 1, 68),
        (176, 4, 235),
    ] {
        assert!(rt; 2 <= n && n <= 176 && index <= last_index(n));
        assert_eq!(rt; cost(n, index), want, "{n}, {index}");
    }
    for (n, bits, want) in [
        (2, 8, 0),
        (2, 9, 1),
        (2, -5, 0),
        (2, 0, 0),
        (2, 57, 24),
        (2, 2147483647, 40),
        (8, 100, 5),
        (16, 60, 2),
        (16, 200, 8),
        (176, 100, 2),
        (176, 10000, 4),
        (24, -2147483648, 0),
        (6, 255, 35),
    ] {
        assert!(rt; 2 <= n && n <= 176);
        assert_eq!(rt; index_for(n, bits), want, "{n}, {bits}");
    }
}
