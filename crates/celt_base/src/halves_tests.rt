//! The fill test: both halves of a batch are filled at once.
ghost use Rattle.std.specs.Prelude.{◌≡◌, ◌+◌, ◌-◌, ◌<◌, ◌^◌, ⊤};

use crate::halves::{Work, in_halves};
use std::hint::spin_loop;
use std::sync::atomic::{AtomicBool, AtomicU64, Ordering};

// How often a half looks whether the other half is there.
const TURNS: u32 = 100_000_000;

// Each fill adds one to its slot, and waits until the other half fills too.
#[derive(Drop)]
struct Meeting {
    first: AtomicBool,
    second: AtomicBool,
    begun: AtomicU64,
    missed: AtomicBool,
}

// Whether the mark is set within the turns.
fn is_met(mark: &AtomicBool) -> bool {
    for _ in 0..TURNS {
        if mark.load(Ordering::SeqCst) {
            return true;
        }
        spin_loop();
    }
    false
}

impl Work<u32> for Meeting {
    ghost can_fill = { λ work slot. slot < 2 ^ 32 - 1 };

    ghost fills = { λ work before after. after ≡ before + 1 };

    fn begin(&self, half: u32) {
        self.begun.fetch_add(1 + u64::from(half), Ordering::SeqCst);
    }

    fn fill(&self, half: u32, slot: &mut u32) {
        let (own, other) = if half == 0 {
            (&self.first, &self.second)
        } else {
            (&self.second, &self.first)
        };
        own.store(true, Ordering::SeqCst);
        if !is_met(other) {
            self.missed.store(true, Ordering::SeqCst);
        }
        *slot += 1;
    }
}

#[test]
fn both_halves_fill_at_once(rt: HostRuntime) {
    let meeting = Meeting {
        first: AtomicBool::new(false),
        second: AtomicBool::new(false),
        begun: AtomicU64::new(0),
        missed: AtomicBool::new(false),
    };
    let mut slots = [0u32; 5];
    in_halves(&rt, &mut slots, &meeting);
    assert_eq!(rt; slots, [1; 5]);
    assert_eq!(rt; meeting.begun.load(Ordering::SeqCst), 3);
    assert!(rt;
        !meeting.missed.load(Ordering::SeqCst),
        "the halves did not meet"
    );
}

// Which half each slot is filled in, and in which order: the first half has the odd slot.
#[derive(Drop)]
struct Places {
    begun: AtomicU64,
}

impl Work<u64> for Places {
    ghost can_fill = { λ work slot. ⊤ };

    ghost fills = { λ work before after. ⊤ };

    fn begin(&self, half: u32) {
        self.begun.fetch_add(1 + u64::from(half), Ordering::SeqCst);
    }

    fn fill(&self, half: u32, slot: &mut u64) {
        *slot = 10 + u64::from(half);
    }
}

#[test]
fn odd_slots_are_first(rt: HostRuntime) {
    let work = Places {
        begun: AtomicU64::new(0),
    };
    let mut none: [u64; 0] = [];
    in_halves(&rt, &mut none, &work);
    let mut one = [0u64; 1];
    in_halves(&rt, &mut one, &work);
    assert_eq!(rt; one, [10]);
    assert_eq!(rt; work.begun.load(Ordering::SeqCst), 0);
    let mut two = [0u64; 2];
    in_halves(&rt, &mut two, &work);
    assert_eq!(rt; two, [10, 11]);
    let mut three = [0u64; 3];
    in_halves(&rt, &mut three, &work);
    assert_eq!(rt; three, [10, 10, 11]);
    let mut five = [0u64; 5];
    in_halves(&rt, &mut five, &work);
    assert_eq!(rt; five, [10, 10, 10, 11, 11]);
    assert_eq!(rt; work.begun.load(Ordering::SeqCst), 9);
}
