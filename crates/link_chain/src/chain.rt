//! A chain is told of each accepted page, and keeps sums over them.
ghost use Rattle.std.specs.Prelude.{◌≡◌, ℕ, ◌+◌, ◌*◌, ◌^◌, ◌<◌, ◌≤◌, List, [], ◌∷◌, ◌++◌};
ghost use Rattle.link_chain.specs.Pages.{NotedPage, is_last_flags, starts_link};

/// The place of a page in a chain, each number counted from 0 at the start of the chain.
#[derive(Clone, Copy, Debug, PartialEq, Eq)]
pub struct LinkPlace {
    /// The number of its link.
    pub link: u64,
    /// Its own number.
    pub page: u64,
    /// The number of the first audio packet that ends on it, or else of the next one.
    pub packet: u64,
}

/// The pages of a chain so far. It takes no memory.
#[derive(Debug, Drop)]
pub struct Chain {
    /// The place of the next page.
    next: LinkPlace,
    /// Whether a link begins there.
    starts: bool,
    ghost pages: { next.page ≤ 2 ^ 40 },
    ghost links: { next.link ≤ next.page },
    ghost packets: { next.packet ≤ 255 * next.page },
}

impl Chain {
    ghost use Rattle.link_chain.specs.Places.{place_behind};
    ghost use Rattle.link_chain.specs.Noted.{HasNoted, pages_noted};

    /// The start of a chain, before its first page.
    pub fn new() -> Chain
        ensures noted { HasNoted result [] }
        ensures count { pages_noted result ≡ 0 }
    {
        Chain {
            next: LinkPlace {
                link: 0,
                page: 0,
                packet: 0,
            },
            starts: true,
        }
    }

    /// Notes an accepted page, its flags (RFC 3533, section 6) and the audio packets that end on it, at most 255.
    /// A chain has at most 2^40 pages.
    pub fn accept(&mut self, flags: u8, packets: u64)
        requires packets { packets ≤ 255 }
        requires pages { pages_noted self.old < 2 ^ 40 }
        ensures longer { (pages : List NotedPage) → HasNoted self.old pages →
            HasNoted self.new (pages ++ record { flags = flags; packets = packets } ∷ []) }
        ensures count { pages_noted self.new ≡ pages_noted self.old + 1 }
    {
        let last = is_last(flags);
        self.next.link += u64::from(last);
        self.next.page += 1;
        self.next.packet += packets;
        self.starts = last;
    }

    /// Whether the next page is page 0 of a link: at the start, and behind a page with flag 4.
    pub fn starts(&self) -> bool
        ensures { (pages : List NotedPage) → HasNoted self.now pages → result ≡ starts_link pages }
    {
        self.starts
    }

    /// The place of the next page. Behind a page with flag 4 its link is the next one.
    pub fn place(&self) -> LinkPlace
        ensures { (pages : List NotedPage) → HasNoted self.now pages → result ≡ place_behind pages }
    {
        self.next
    }
}

// Whether a page with these flags is the last one of its link.
fn is_last(flags: u8) -> bool
    ensures { result ≡ is_last_flags flags }
{
    flags / 4 % 2 == 1
}
