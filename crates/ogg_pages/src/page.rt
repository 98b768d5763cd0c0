//! Where a page ends and whether it is sound (RFC 3533, section 6): the tests that need its bytes alone.
ghost use Rattle.std.specs.Prelude.{◌≡◌, ◌+◌, ◌<◌, ◌≤◌, ◌^◌, length, slice_index, ◌==◌, sum};
ghost use Rattle.ogg_pages.specs.Bounds.{segments_of, lacing_of, page_len};
ghost use Rattle.ogg_pages.specs.Verdicts.{captures, checksum_in, verdict};

use crate::checksum::checksum_of;
use byteorder::{ByteOrder, LittleEndian};

/// A page is a header of 27 bytes, its lacing values, and its segments.
pub const HEADER_LEN: usize = 27;

/// The longest page: 255 segments of 255 bytes.
pub const MAX_PAGE_LEN: usize = 65307;

/// What is wrong with the bytes at a page's place.
#[derive(Clone, Copy, Debug, PartialEq, Eq)]
pub enum PageFault {
    /// One of the first four bytes that are there differs from `OggS`.
    BadCapture,
    /// The version is there and is not 0.
    BadPageVersion,
    /// The checksum differs.
    BadChecksum,
}

/// What bytes hold at a page's place.
#[derive(Clone, Copy, Debug, PartialEq, Eq)]
pub enum Verdict {
    /// A sound page of this length.
    Whole(usize),
    /// Less than a page by its own lengths, which breaks no test of capture and version.
    Need,
    Fault(PageFault),
}

/// The number of segments, or 0 where it is not there.
fn segment_count(bytes: &[u8]) -> usize
    ensures { result ≡ segments_of bytes.now }
{
    match bytes.get(26) {
        Some(count) => usize::from(*count),
        None => 0,
    }
}

/// The lacing values that are there.
fn lacing(bytes: &[u8]) -> &[u8]
    ensures { result.now ≡ lacing_of bytes.now }
{
    if bytes.len() < HEADER_LEN {
        return &[];
    }
    let (_, rest) = bytes.split_at(HEADER_LEN);
    let count = segment_count(bytes).min(rest.len());
    let (lacing, _) = rest.split_at(count);
    lacing
}

/// The sum of lacing values.
fn total(lacing: &[u8]) -> usize
    requires { length lacing.now ≤ 255 }
    ensures { result ≡ sum lacing.now }
{
    lacing.iter().map(|value| usize::from(*value)).sum()
}

/// The length of the page that begins so. Bytes that are not there count as 0.
fn page_length(bytes: &[u8]) -> usize
    ensures { result ≡ page_len bytes.now }
{
    HEADER_LEN + segment_count(bytes) + total(lacing(bytes))
}

/// Whether the first four bytes, as far as they are there, are a page's.
#[tactic(auto, unfolding(crate::specs::Verdicts::captures))]
fn is_captured(bytes: &[u8]) -> bool
    ensures { result ≡ captures bytes.now }
{
    let (front, _) = bytes.split_at(bytes.len().min(4));
    b"OggS".starts_with(front)
}

/// Whether the version is 0 or not there.
fn has_version(bytes: &[u8]) -> bool
    ensures { result ≡ (slice_index bytes.now 4 == 0) }
{
    match bytes.get(4) {
        Some(version) => *version == 0,
        None => true,
    }
}

/// The checksum that a page holds.
#[tactic(auto, unfolding(crate::specs::Verdicts::checksum_in))]
fn stored_checksum(page: &[u8]) -> u32
    requires { 26 ≤ length page.now }
    ensures { result ≡ checksum_in page.now }
{
    let (_, field) = page.split_at(22);
    LittleEndian::read_u32(field)
}

/// What the bytes hold at the place of a page. Bytes after the page do not matter.
#[tactic(auto, unfolding(crate::specs::Verdicts::verdict))]
pub fn judge(bytes: &[u8]) -> Verdict
    ensures { result ≡ verdict bytes.now }
{
    if !is_captured(bytes) {
        return Verdict::Fault(PageFault::BadCapture);
    }
    if !has_version(bytes) {
        return Verdict::Fault(PageFault::BadPageVersion);
    }
    let len = page_length(bytes);
    if bytes.len() < len {
        return Verdict::Need;
    }
    let (page, _) = bytes.split_at(len);
    if checksum_of(page) != stored_checksum(page) {
        return Verdict::Fault(PageFault::BadChecksum);
    }
    Verdict::Whole(len)
}
