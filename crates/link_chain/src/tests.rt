//! Pages of three links, and what a chain answers behind each, worked out by hand.
ghost use Rattle.std.specs.Prelude.{◌≤◌};

use super::{Chain, LinkPlace};

/// A page, and what a chain answers behind it.
#[derive(Clone, Copy, Drop)]
struct Row {
    flags: u8,
    /// The audio packets that end on it.
    packets: u8,
    /// Whether the next page begins a link.
    starts: bool,
    /// The link, page and packet of the next page.
    next: (u64, u64, u64),
}

#[rattlefmt::skip]
const ROWS: [Row; 9] = [
    Row { flags: 2, packets: 0, starts: false, next: (0, 1, 0) },
    Row { flags: 0, packets: 0, starts: false, next: (0, 2, 0) },
    Row { flags: 4, packets: 1, starts: true, next: (1, 3, 1) },
    Row { flags: 2, packets: 0, starts: false, next: (1, 4, 1) },
    Row { flags: 0, packets: 0, starts: false, next: (1, 5, 1) },
    Row { flags: 1, packets: 255, starts: false, next: (1, 6, 256) },
    Row { flags: 5, packets: 50, starts: true, next: (2, 7, 306) },
    Row { flags: 6, packets: 0, starts: true, next: (3, 8, 306) },
    Row { flags: 251, packets: 7, starts: false, next: (3, 9, 313) },
];

#[test]
fn pages_of_links(rt: HostRuntime) {
    let mut chain = Chain::new();
    assert_eq!(rt; chain.starts(), true);
    for row in ROWS {
        chain.accept(row.flags, u64::from(row.packets));
        let (link, page, packet) = row.next;
        assert_eq!(rt; chain.starts(), row.starts, "page {page}");
        assert_eq!(rt; chain.place(), LinkPlace { link, page, packet });
    }
}
