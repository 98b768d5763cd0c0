//! How far a stream was accepted: what the pages so far say of the next one.
ghost use Rattle.std.specs.Prelude.{◌≡◌, ◌+◌, ◌*◌, ◌^◌, ◌<◌, ◌≤◌};
ghost use Rattle.std.specs.Option.{ForSome};
ghost use Rattle.opus_stream.specs.Truths.{differ};

use crate::pages::{is_continued, is_first, is_last, open_after};
use celt_base::status::{Fault, FaultName};
use ogg_pages::view::PageView;
use opus_packets::Head;

/// What the audio packets so far come to.
#[derive(Clone, Copy, Debug)]
pub(crate) struct Audio {
    /// How many there are.
    pub(crate) packets: u64,
    /// Their samples per channel.
    pub(crate) samples: u64,
    /// The granule position at which the stream begins, once a packet has ended.
    pub(crate) base: Option<u64>,
    ghost base_bound: { ForSome base (λ b. b < 2 ^ 63) },
}

/// What is kept of the pages that were accepted.
#[derive(Clone, Copy, Debug)]
pub(crate) struct Progress {
    /// How many there are, which is the number of the next one.
    pub(crate) pages: u64,
    /// Their bytes.
    pub(crate) bytes: u64,
    /// The serial number of the stream.
    serial: u32,
    /// The sequence number of the next page.
    sequence: u32,
    /// Whether a packet is open behind them.
    is_open: bool,
    /// Whether the last of them was one that ends the stream.
    pub(crate) is_ended: bool,
    /// The identification header.
    pub(crate) head: Option<Head>,
    /// Whether the comment header is whole.
    pub(crate) is_tagged: bool,
    pub(crate) audio: Audio,
    ghost few_pages: { pages ≤ bytes },
    ghost few_packets: { audio.packets ≤ bytes },
    ghost few_samples: { audio.samples ≤ 5760 * bytes },
}

/// Whether two truths differ.
fn differ(a: bool, b: bool) -> bool
    ensures { result ≡ differ a b }
{
    a != b
}

impl Progress {
    ghost use Rattle.std.specs.Prelude.{◌≡◌, ◌+◌, ◌*◌, ◌≤◌, ◌<◌, ◌^◌, ◌%◌, ◌==◌, ◌||◌, not, length, false, None, Some};
    ghost use Rattle.ogg_pages.specs.Views.{page_in, bytes_in};
    ghost use Rattle.opus_stream.specs.Progressing.{IsNew, breaks_packets, continues_by, order_by, IsNext};
    ghost use Rattle.opus_stream.specs.Tests.{is_first};

    /// No page was accepted yet.
    pub(crate) fn new() -> Progress
        ensures { IsNew result }
    {
        Progress {
            pages: 0,
            bytes: 0,
            serial: 0,
            sequence: 0,
            is_open: false,
            is_ended: false,
            head: None,
            is_tagged: false,
            audio: Audio {
                packets: 0,
                samples: 0,
                base: None,
            },
        }
    }

    /// A fault on the next page.
    pub(crate) fn fault(self, name: FaultName) -> Fault
        ensures { result ≡ record { name = name; at = self.pages } }
    {
        Fault {
            name,
            at: self.pages,
        }
    }

    /// Whether the page is of another logical stream.
    fn is_other(self, page: &PageView) -> bool
        ensures { result ≡ (not ((page_in page.now).serial == self.serial) || is_first (page_in page.now)) }
    {
        page.serial() != self.serial || is_first(page)
    }

    /// Whether the page is continued where no packet is open, or the other way round, or ends the stream where
    /// one stays open.
    fn breaks_packets(self, page: &PageView) -> bool
        ensures { result ≡ breaks_packets self (page_in page.now) }
    {
        let stays_open = open_after(self.is_open, page.segments());
        differ(is_continued(page), self.is_open) || is_last(page) && stays_open
    }

    /// What is wrong with the page by its flags.
    fn packet_fault(self, page: &PageView) -> Option<Fault>
        ensures { result ≡ continues_by self (page_in page.now) }
    {
        if self.breaks_packets(page) {
            return Some(self.fault(FaultName::BadContinuation));
        }
        None
    }

    /// What is wrong with the page's place in the stream, before its packets are looked at.
    #[tactic(auto, unfolding(crate::specs::Progressing::order_by))]
    pub(crate) fn order_fault(self, page: &PageView) -> Option<Fault>
        ensures { result ≡ order_by self (page_in page.now) }
    {
        if self.pages == 0 {
            return self.packet_fault(page);
        }
        if self.is_other(page) {
            return Some(self.fault(FaultName::OtherStream));
        }
        if page.sequence() != self.sequence {
            return Some(self.fault(FaultName::PageGap));
        }
        self.packet_fault(page)
    }

    /// The progress after the page, with what it says of the headers and the audio packets.
    pub(crate) fn after(
        self,
        page: &PageView,
        head: Option<Head>,
        is_tagged: bool,
        audio: Audio,
    ) -> Progress
        requires few { self.bytes ≤ 2 ^ 48 }
        requires packets { audio.packets ≤ self.bytes + length (bytes_in page.now) }
        requires samples { audio.samples ≤ 5760 * (self.bytes + length (bytes_in page.now)) }
        ensures { IsNext self (page_in page.now) (length (bytes_in page.now)) head is_tagged audio result }
    {
        Progress {
            pages: self.pages + 1,
            bytes: self.bytes + page.bytes().len() as u64,
            serial: page.serial(),
            sequence: page.sequence().wrapping_add(1),
            is_open: open_after(self.is_open, page.segments()),
            is_ended: is_last(page),
            head,
            is_tagged,
            audio,
        }
    }
}
