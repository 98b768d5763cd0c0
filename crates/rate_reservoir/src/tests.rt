//! Lengths and budgets, worked out by hand.
ghost use Rattle.std.specs.Prelude.{◌≤◌, ◌<◌, ◌^◌, All, length};

use super::{Budget, Reservoir};

/// The lengths that four wishes get, and the credit behind them.
fn served(bytes: u32, most: u32, wishes: [u32; 4]) -> ([u32; 4], u32)
    requires bytes { (2 ≤ bytes) × (bytes ≤ 1275) }
    requires most { most ≤ 12750 }
    requires wishes { All (λ w. 2 ≤ w) wishes }
{
    let mut reservoir = Reservoir::new(bytes, most);
    let lengths = [
        reservoir.next(wishes[0]),
        reservoir.next(wishes[1]),
        reservoir.next(wishes[2]),
        reservoir.next(wishes[3]),
    ];
    (lengths, reservoir.credit())
}

#[test]
fn lengths_of_wishes(rt: HostRuntime) {
    assert_eq!(rt; served(80, 400, [70, 70, 160, 2]), ([70, 70, 100, 2], 78));
    assert_eq!(rt; served(80, 10, [2, 2, 1275, 81]), ([2, 2, 90, 80], 0));
    assert_eq!(rt; served(2, 0, [2550, 2, 3, 2]), ([2, 2, 2, 2], 0));
    assert_eq!(rt;
        served(1275, 12_750, [2, 2550, 2, 1275]),
        ([2, 1275, 2, 1275], 2546)
    );
}

/// The first frame that ends a run with too many bytes.
fn first_break(bytes: u32, most: u32, lengths: &[u32]) -> Option<u64>
    requires bytes { (2 ≤ bytes) × (bytes ≤ 1275) }
    requires most { most ≤ 12750 }
    requires few { length lengths.now < 2 ^ 32 }
{
    let mut budget = Budget::new(bytes, most);
    for len in lengths {
        budget.note(*len);
    }
    budget.broken()
}

#[test]
fn runs_of_lengths(rt: HostRuntime) {
    assert_eq!(rt; first_break(80, 20, &[70, 70, 100, 100]), Some(3));
    assert_eq!(rt; first_break(80, 40, &[70, 70, 100, 100]), None);
    assert_eq!(rt; first_break(80, 20, &[70, 70, 100, 100, 2, 2000]), Some(3));
    assert_eq!(rt; first_break(80, 5, &[83, 79, 84]), Some(2));
    assert_eq!(rt; first_break(80, 6, &[83, 79, 84]), None);
    assert_eq!(rt; first_break(80, 0, &[0, 81]), Some(1));
    assert_eq!(rt; first_break(80, 0, &[80, 80, 0, 80]), None);
    assert_eq!(rt; first_break(2, 12_750, &[12_752, 2, 3]), Some(2));
    assert_eq!(rt; first_break(1275, 0, &[]), None);
}
