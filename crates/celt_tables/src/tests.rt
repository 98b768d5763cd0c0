//! Sums of the tables, taken apart from the code, and entries of them.
use crate::bands::{BAND_CHOICE_BITS, EDGES, WIDTH_LOGARITHMS};
use crate::bits::{ALLOCATION, CAPS, cap};
use crate::energies::{ENERGY_MODELS, MEANS};
use crate::resolution::{CHANGES, tf_of};
use crate::symbols::{SMALL, SPREAD, TAPSET, TRIM};
use crate::window::WINDOW;
use celt_base::kind::Kind;

/// The sum of (place + 1) * entry over rows that follow each other.
#[derive(Clone, Copy)]
struct Weighted {
    /// How many entries were added.
    places: u64,
    sum: u64,
}

impl Weighted {
    fn none() -> Weighted {
        Weighted { places: 0, sum: 0 }
    }

    fn entry(self, entry: u32) -> Weighted {
        let places = self.places.wrapping_add(1);
        let sum = self.sum.wrapping_add(places.wrapping_mul(u64::from(entry)));
        Weighted { places, sum }
    }

    fn row(self, row: &[u32]) -> Weighted {
        let mut after = self;
        for entry in row {
            after = after.entry(*entry);
        }
        after
    }
}

#[test]
fn sums(rt: HostRuntime) {
    assert_eq!(rt; Weighted::none().row(&EDGES).sum, 9184, "edges");
    assert_eq!(rt; Weighted::none().row(&WIDTH_LOGARITHMS).sum, 4120, "widths");
    assert_eq!(rt;
        Weighted::none().row(&BAND_CHOICE_BITS).sum,
        9475,
        "choices"
    );
    assert_eq!(rt; Weighted::none().row(&MEANS).sum, 16840, "means");
    assert_eq!(rt; Weighted::none().row(&TAPSET).sum, 7, "tapset");
    assert_eq!(rt; Weighted::none().row(&SMALL).sum, 7, "small");
    assert_eq!(rt; Weighted::none().row(&SPREAD).sum, 82, "spread");
    assert_eq!(rt; Weighted::none().row(&TRIM).sum, 768, "trim");
    let mut caps = Weighted::none();
    for row in &CAPS {
        caps = caps.row(row);
    }
    assert_eq!(rt; (caps.places, caps.sum), (168, 2_533_630), "caps");
    let mut allocation = Weighted::none();
    for row in &ALLOCATION {
        allocation = allocation.row(row);
    }
    assert_eq!(rt;
        (allocation.places, allocation.sum),
        (231, 2_502_742),
        "allocation"
    );
    let mut models = Weighted::none();
    for size in &ENERGY_MODELS {
        models = models.row(&size[0]).row(&size[1]);
    }
    assert_eq!(rt; (models.places, models.sum), (336, 4_713_631), "models");
    let mut window = Weighted::none();
    for entry in &WINDOW {
        window = window.entry(u32::from(*entry));
    }
    assert_eq!(rt; (window.places, window.sum), (120, 192_224_282), "window");
}

// Each row: the size exponent, the channels, the band, and the greatest amount.
#[test]
fn greatest_amounts(rt: HostRuntime) {
    let rows = [
        (0u8, 1u8, 0u32, 72i32),
        (0, 2, 0, 144),
        (3, 1, 20, 4532),
        (3, 2, 5, 1072),
        (2, 1, 17, 1888),
        (1, 2, 12, 1072),
        (2, 2, 20, 4576),
    ];
    for (lm, channels, band, most) in rows {
        let kind = Kind {
            lm,
            channels,
            end: 21,
        };
        assert_eq!(rt; cap(kind, band), most, "at {lm} {channels} {band}");
    }
}

// The sum of (place + 1) * entry, where entries may be below 0.
#[test]
fn sum_of_changes(rt: HostRuntime) {
    let mut place = 0i64;
    let mut sum = 0i64;
    for row in &CHANGES {
        for entry in row {
            place = place.wrapping_add(1);
            sum = sum.wrapping_add(place.wrapping_mul(i64::from(*entry)));
        }
    }
    assert_eq!(rt; (place, sum), (32, -147), "changes");
}

// Each row: the size exponent, whether there is a transient, the select, the flag, and the change.
#[test]
fn changes_of_resolution(rt: HostRuntime) {
    let rows = [
        (0u8, true, true, true, -1i32),
        (1, true, false, true, 0),
        (1, true, true, false, 1),
        (2, false, true, true, -3),
        (3, false, false, true, -2),
        (3, true, false, false, 3),
        (3, true, true, true, -1),
    ];
    for (lm, transient, select, flag, change) in rows {
        assert_eq!(rt;
            tf_of(lm, transient, select, flag),
            change,
            "at {lm} {transient} {select} {flag}"
        );
    }
}
