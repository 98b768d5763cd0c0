//! The next page of the bytes that are held, tested and kept.
ghost use Rattle.std.specs.Prelude.{◌≡◌, ◌≤◌, ◌^◌, false, vec_capacity};
ghost use Rattle.opus_stream.specs.Acceptance.{name_of};
ghost use Rattle.opus_stream.specs.Steps.{IsStep};

use crate::accepting::{Accepted, accept};
use crate::pages::lacing;
use crate::progress::Progress;
use crate::room::Room;
use celt_base::status::{Fault, FaultName};
use ogg_pages::page::PageFault;
use ogg_pages::reader::{PageReader, Step};

/// What the bytes that are held give.
#[derive(Clone, Copy, Debug)]
pub(crate) enum Taken {
    /// An accepted page, which is held no longer.
    Page(Accepted),
    /// Less than a page.
    Need,
    /// They break a test of pages.
    Broken(FaultName),
    /// A page that is not accepted.
    Refused(Fault),
}

/// The name of a page's fault.
fn name_of(fault: PageFault) -> FaultName
    ensures { result ≡ name_of fault }
{
    match fault {
        PageFault::BadCapture => FaultName::BadCapture,
        PageFault::BadPageVersion => FaultName::BadPageVersion,
        PageFault::BadChecksum => FaultName::BadChecksum,
    }
}

/// Takes the next page of the bytes that are held. An accepted one is copied to `page`.
pub(crate) fn take_page(
    pages: &mut PageReader,
    page: &mut Vec<u8>,
    room: &mut Room,
    progress: Progress,
) -> Taken
    requires going { progress.is_ended ≡ false }
    requires few { progress.bytes ≤ 2 ^ 48 }
    requires capacity { 65307 ≤ vec_capacity page.old }
    ensures step { IsStep progress pages.old pages.new page.old.items page.new.items room.old room.new result }
    ensures capacity { 65307 ≤ vec_capacity page.new }
{
    let view = match pages.next_page() {
        Step::Page(view) => view,
        Step::Need => return Taken::Need,
        Step::Fault(fault) => return Taken::Broken(name_of(fault)),
    };
    match accept(progress, room, &view) {
        Ok(accepted) => {
            lacing(&view);
            page.clear();
            page.extend_from_slice(view.bytes()).unwrap();
            Taken::Page(accepted)
        }
        Err(fault) => Taken::Refused(fault),
    }
}
