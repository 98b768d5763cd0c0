//! Granule positions (RFC 7845, section 4): where the stream begins, and what a last page leaves of its
//! samples.
ghost use Rattle.std.specs.Prelude.{◌≡◌, ◌<◌, ◌≤◌, ◌^◌};
ghost use Rattle.std.specs.Option.{ForSome};
ghost use Rattle.opus_stream.specs.Settled.{IsStart, IsKept, IsSettled, IsSettledOn};
ghost use Rattle.ogg_pages.specs.Views.{page_in};
ghost use Rattle.opus_stream.specs.declared.answers.Span.{Span as Spans};
ghost use Rattle.opus_stream.specs.Granules.{span};
ghost use Rattle.std.specs.Prelude.{◌-◌};

use crate::answers::Span;
use crate::pages::{ends_packet, is_last};
use ogg_pages::view::PageView;

/// Where the stream begins, or None where that is before 0: as it is known, or else by the granule position
/// of the first page on which a packet ends, and the samples of the packets that end there.
fn start_of(base: Option<u64>, granule: i64, samples: u32) -> Option<u64>
    requires { ForSome base (λ b. b < 2 ^ 63) }
    ensures value { IsStart base granule samples result }
    ensures bound { ForSome result (λ b. b < 2 ^ 63) }
{
    if base.is_some() {
        return base;
    }
    let samples = i64::from(samples);
    if granule < samples {
        return None;
    }
    Some((granule - samples) as u64)
}

/// How many samples the last page keeps behind those of the pages before it, or None where it would keep
/// fewer than these.
fn kept_of(granule: i64, base: u64, before: u64) -> Option<u64>
    requires base { base < 2 ^ 63 }
    requires before { before < 2 ^ 62 }
    ensures { IsKept granule base before result }
{
    if granule < 0 {
        return None;
    }
    (granule as u64).checked_sub(base + before)
}

/// What the granule position of a page on which a packet ends leaves.
#[derive(Clone, Copy, Debug)]
pub(crate) struct Settled {
    /// Where the stream begins.
    pub(crate) base: Option<u64>,
    /// How many samples of the page are given.
    pub(crate) given: u64,
}

/// Tests the granule position of a page on which a packet ends. `before` are the samples of the pages before,
/// `samples` those of the page.
pub(crate) fn settle(
    base: Option<u64>,
    before: u64,
    samples: u32,
    granule: i64,
    is_last: bool,
) -> Option<Settled>
    requires base { ForSome base (λ b. b < 2 ^ 63) }
    requires before { before < 2 ^ 62 }
    ensures value { IsSettled base before samples granule is_last result }
    ensures bound { ForSome result (λ settled. ForSome settled.base (λ b. b < 2 ^ 63)) }
{
    let start = start_of(base, granule, samples);
    let given = u64::from(samples);
    if !is_last {
        start?;
        return Some(Settled { base: start, given });
    }
    let kept = kept_of(granule, start.unwrap_or(0), before)?;
    Some(Settled {
        base: start,
        given: given.min(kept),
    })
}

/// Tests the granule position of a page. `before` are the samples of the pages before, `samples` those of the
/// page.
pub(crate) fn settle_page(
    base: Option<u64>,
    before: u64,
    samples: u32,
    page: &PageView,
) -> Option<Settled>
    requires base { ForSome base (λ b. b < 2 ^ 63) }
    requires before { before < 2 ^ 62 }
    ensures value { IsSettledOn base before samples (page_in page.now) result }
    ensures bound { ForSome result (λ settled. ForSome settled.base (λ b. b < 2 ^ 63)) }
{
    if ends_packet(page) {
        return settle(base, before, samples, page.granule(), is_last(page));
    }
    Some(Settled {
        base,
        given: u64::from(samples),
    })
}

/// The samples from the first number up to the second, or none.
pub(crate) fn span_of(preskip: u16, before: u64, given: u64) -> Span
    ensures { result ≡ span (preskip - before) given }
{
    let from = u64::from(preskip).saturating_sub(before);
    if from < given {
        Span { from, to: given }
    } else {
        Span { from: 0, to: 0 }
    }
}
