//! Pages behind the pages that were accepted: the first page, those of the comment header, and the audio
//! pages (RFC 7845, sections 3 to 5).
ghost use Rattle.std.specs.Prelude.{◌≡◌, ◌≤◌, ◌-◌, ◌^◌, ◌&&◌, not, length, take, true, false, None, IfOk, ◌+◌, if◌then◌else◌};
ghost use Rattle.ogg_pages.specs.Views.{page_in, bytes_in};
ghost use Rattle.opus_stream.specs.Pages.{is_letters};
ghost use Rattle.opus_stream.specs.Packets.{holds_packet};
ghost use Rattle.opus_stream.specs.Granules.{is_last};
ghost use Rattle.opus_stream.specs.Acceptance.{preskip_of};
ghost use Rattle.opus_stream.specs.Progressing.{order_by};
ghost use Rattle.opus_stream.specs.Rooms.{Kept};
ghost use Rattle.opus_stream.specs.Accepted.{Accepts, Keeps};

use crate::answers::Span;
use crate::granules::{settle_page, span_of};
use crate::packets::tally_of;
use crate::pages::{ends_packet, head_on, holds_packet, is_last, lacing};
use crate::progress::{Audio, Progress};
use crate::room::Room;
use celt_base::status::{Fault, FaultName};
use ogg_pages::view::PageView;
use opus_packets::Head;

/// The letters that begin a comment header.
const LETTERS: &[u8; 8] = b"OpusTags";

/// What a page gives.
#[derive(Clone, Copy, Debug)]
pub(crate) struct Given {
    /// How many audio packets end on it.
    pub(crate) packets: usize,
    /// How many bytes of the first one stand before it.
    pub(crate) before: usize,
    /// Its samples that are written.
    pub(crate) written: Span,
}

/// Nothing, as a page of a header gives.
pub(crate) const NOTHING: Given = Given {
    packets: 0,
    before: 0,
    written: Span { from: 0, to: 0 },
};

/// An accepted page.
#[derive(Clone, Copy, Debug)]
pub(crate) struct Accepted {
    pub(crate) progress: Progress,
    pub(crate) given: Given,
}

/// Page 0, which holds the identification header.
fn begin(progress: Progress, page: &PageView) -> Result<Accepted, Fault>
    requires ordered { order_by progress (page_in page.now) ≡ None }
    requires going { progress.is_ended ≡ false }
    requires first { progress.pages ≡ 0 }
    requires few { progress.bytes ≤ 2 ^ 48 }
    ensures answer { (room : Kept) → Accepts progress room room (page_in page.now) result }
    ensures size { IfOk result (λ accepted. accepted.progress.bytes ≡ progress.bytes + length (bytes_in page.now)) }
    ensures few { IfOk result (λ accepted. accepted.given.packets ≤ 255) }
{
    lacing(page);
    match head_on(page) {
        Ok(head) => Ok(Accepted {
            progress: progress.after(page, Some(head), false, progress.audio),
            given: NOTHING,
        }),
        Err(fault) => Err(fault),
    }
}

/// A page while the comment header is not whole. Its first eight bytes alone are kept.
fn comment(progress: Progress, room: &mut Room, page: &PageView) -> Result<Accepted, Fault>
    requires ordered { order_by progress (page_in page.now) ≡ None }
    requires going { progress.is_ended ≡ false }
    requires some { 1 ≤ progress.pages }
    requires comment { progress.is_tagged ≡ false }
    requires few { progress.bytes ≤ 2 ^ 48 }
    ensures answer { Accepts progress room.old room.new (page_in page.now) result }
    ensures kept { Keeps room.old room.new result }
    ensures size { IfOk result (λ accepted. accepted.progress.bytes ≡ progress.bytes + length (bytes_in page.now)) }
    ensures few { IfOk result (λ accepted. accepted.given.packets ≤ 255) }
{
    lacing(page);
    room.offer(front_of(page.body(), room.open_len()));
    let is_whole = ends_packet(page);
    let left = left_of(is_whole, room.offered());
    if !goes_on(page, is_whole, room.offered()) {
        return Err(Fault {
            name: FaultName::BadTags,
            at: progress.pages,
        });
    }
    room.accept(left);
    Ok(Accepted {
        progress: progress.after(page, progress.head, is_whole, progress.audio),
        given: NOTHING,
    })
}

/// The bytes that are missing to eight, as far as they are there.
fn front_of(body: &[u8], held: usize) -> &[u8]
    ensures value { result.now ≡ take (8 - held) body.now }
    ensures few { length result.now ≤ 8 - held }
{
    let missing = 8usize.saturating_sub(held);
    let (front, _) = body.split_at(missing.min(body.len()));
    front
}

/// Where the packet begins that is open behind the front of a comment header.
fn left_of(is_whole: bool, front: &[u8]) -> usize
    ensures { result ≡ (if is_whole then length front.now else 0) }
{
    if is_whole { front.len() } else { 0 }
}

/// The samples that are not written from the start of the stream.
fn preskip_of(head: Option<Head>) -> u16
    ensures { result ≡ preskip_of head }
{
    match head {
        Some(head) => head.preskip,
        None => 0,
    }
}

/// Whether the comment header, which begins with these bytes, is sound up to the page.
fn goes_on(page: &PageView, is_whole: bool, front: &[u8]) -> bool
    ensures { result ≡ (if is_whole then holds_packet (page_in page.now).lacing && is_letters front.now else not (is_last (page_in page.now))) }
{
    if is_whole {
        holds_packet(page.segments()) && LETTERS.as_slice() == front
    } else {
        !is_last(page)
    }
}

/// An audio page.
fn play(progress: Progress, room: &mut Room, page: &PageView) -> Result<Accepted, Fault>
    requires ordered { order_by progress (page_in page.now) ≡ None }
    requires going { progress.is_ended ≡ false }
    requires some { 1 ≤ progress.pages }
    requires audio { progress.is_tagged ≡ true }
    requires few { progress.bytes ≤ 2 ^ 48 }
    ensures answer { Accepts progress room.old room.new (page_in page.now) result }
    ensures kept { Keeps room.old room.new result }
    ensures size { IfOk result (λ accepted. accepted.progress.bytes ≡ progress.bytes + length (bytes_in page.now)) }
    ensures few { IfOk result (λ accepted. accepted.given.packets ≤ 255) }
{
    let lacing = lacing(page);
    let before = room.open_len();
    room.offer(page.body());
    let audio = progress.audio;
    let tally = match tally_of(lacing, room.offered(), before, audio.packets) {
        Ok(tally) => tally,
        Err(fault) => return Err(fault),
    };
    let Some(settled) = settle_page(audio.base, audio.samples, tally.samples, page) else {
        return Err(Fault {
            name: FaultName::BadGranule,
            at: progress.pages,
        });
    };
    room.accept(tally.len);
    let heard = Audio {
        packets: audio.packets + tally.packets as u64,
        samples: audio.samples + u64::from(tally.samples),
        base: settled.base,
    };
    Ok(Accepted {
        progress: progress.after(page, progress.head, true, heard),
        given: Given {
            packets: tally.packets,
            before,
            written: span_of(preskip_of(progress.head), audio.samples, settled.given),
        },
    })
}

/// Tests a page behind the pages that were accepted. One that is not accepted leaves what is kept of them.
pub(crate) fn accept(
    progress: Progress,
    room: &mut Room,
    page: &PageView,
) -> Result<Accepted, Fault>
    requires going { progress.is_ended ≡ false }
    requires few { progress.bytes ≤ 2 ^ 48 }
    ensures answer { Accepts progress room.old room.new (page_in page.now) result }
    ensures kept { Keeps room.old room.new result }
    ensures size { IfOk result (λ accepted. accepted.progress.bytes ≡ progress.bytes + length (bytes_in page.now)) }
    ensures few { IfOk result (λ accepted. accepted.given.packets ≤ 255) }
{
    if let Some(fault) = progress.order_fault(page) {
        return Err(fault);
    }
    if progress.pages == 0 {
        return begin(progress, page);
    }
    if progress.is_tagged {
        play(progress, room, page)
    } else {
        comment(progress, room, page)
    }
}
