//! The tests of a page that need its fields alone (RFC 3533, section 6; RFC 7845, section 3).
ghost use Rattle.std.specs.Prelude.{◌≡◌, ◌==◌, ◌&&◌, ◌≤◌, not, length, sum, slice_index, if◌then◌else◌};
ghost use Rattle.std.specs.List.{list_all, list_any};
ghost use Rattle.ogg_pages.specs.Bounds.{lacing_of};
ghost use Rattle.ogg_pages.specs.Fields.{body_of};
ghost use Rattle.ogg_pages.specs.Views.{page_in, bytes_in};
ghost use Rattle.opus_stream.specs.Acceptance.{page_size};
ghost use Rattle.opus_stream.specs.Packets.{ends, ends_packet, holds_packet};
ghost use Rattle.opus_stream.specs.Audio.{fault_at};
ghost use Rattle.opus_stream.specs.Granules.{is_last};
ghost use Rattle.opus_stream.specs.Tests.{is_continued, is_first, head_fault};
ghost use Rattle.opus_stream.specs.Pages.{IsHead, open_after};

use celt_base::status::{Fault, FaultName};
use ogg_pages::view::PageView;
use opus_packets::{Head, HeadFault, read_head};

/// Whether the page begins inside a packet.
pub(crate) fn is_continued(page: &PageView) -> bool
    ensures { result ≡ is_continued (page_in page.now) }
{
    page.flags() % 2 == 1
}

/// Whether the page says that it is the first.
pub(crate) fn is_first(page: &PageView) -> bool
    ensures { result ≡ is_first (page_in page.now) }
{
    page.flags() / 2 % 2 == 1
}

/// Whether the page says that it is the last.
pub(crate) fn is_last(page: &PageView) -> bool
    ensures { result ≡ is_last (page_in page.now) }
{
    page.flags() / 4 % 2 == 1
}

/// Whether a packet is open behind these lacing values, where one was or was not before them.
pub(crate) fn open_after(before: bool, lacing: &[u8]) -> bool
    ensures { result ≡ open_after before lacing.now }
{
    match lacing.last() {
        Some(value) => *value == 255,
        None => before,
    }
}

/// Whether a packet ends on the page.
pub(crate) fn ends_packet(page: &PageView) -> bool
    ensures { result ≡ ends_packet (page_in page.now) }
{
    page.segments().iter().any(|value| *value < 255)
}

/// Whether all lacing values are 255.
fn are_full(lacing: &[u8]) -> bool
    ensures { result ≡ list_all (λ value. value == 255) lacing.now }
{
    lacing.iter().all(|value| *value == 255)
}

/// Whether these are the lacing values of one whole packet and nothing else.
#[tactic(auto, unfolding(crate::specs::Packets::holds_packet))]
pub(crate) fn holds_packet(lacing: &[u8]) -> bool
    ensures { result ≡ holds_packet lacing.now }
{
    if lacing.is_empty() {
        return false;
    }
    let full = lacing.len() - 1;
    let (front, _) = lacing.split_at(full);
    are_full(front) && lacing[full] < 255
}

/// A fault on page 0.
fn at_start(name: FaultName) -> Fault
    ensures { result ≡ fault_at name 0 }
{
    Fault { name, at: 0 }
}

/// The identification header on page 0.
#[tactic(auto, unfolding(crate::specs::Tests::head_fault))]
pub(crate) fn head_on(page: &PageView) -> Result<Head, Fault>
    ensures { IsHead (page_in page.now) result }
{
    if !is_first(page) || !holds_packet(page.segments()) {
        return Err(at_start(FaultName::BadHead));
    }
    match read_head(page.body()) {
        Err(HeadFault::Bad) => Err(at_start(FaultName::BadHead)),
        Err(HeadFault::Family) => Err(at_start(FaultName::UnsupportedFamily)),
        Ok(_) if is_last(page) => Err(at_start(FaultName::BadTags)),
        Ok(head) => Ok(head),
    }
}

/// A page has at most 255 segments of at most 255 bytes. Nothing is done.
fn bound(page: &[u8])
    ensures few { length (lacing_of page.now) ≤ 255 }
    ensures short { length (body_of page.now) ≤ 65025 }
{
    let _ = page.len();
}

/// The lacing values of the page.
pub(crate) fn lacing<'a>(page: &PageView<'a>) -> &'a [u8]
    ensures value { result.now ≡ (page_in page.now).lacing }
    ensures few { length result.now ≤ 255 }
    ensures size { length (bytes_in page.now) ≡ page_size (page_in page.now) }
    ensures whole { length (page_in page.now).body ≡ sum (page_in page.now).lacing }
    ensures short { length (page_in page.now).body ≤ 65025 }
    ensures fits { length (bytes_in page.now) ≤ 65307 }
{
    bound(page.bytes());
    page.segments()
}
