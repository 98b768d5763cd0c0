//! The bytes of a page's packets: those of the packet that was open before the page, and behind them the
//! page's segments.
ghost use Rattle.std.specs.Prelude.{◌≡◌, ◌+◌, ◌≤◌, [], IfOk, vec_capacity};
ghost use Rattle.opus_stream.specs.Rooms.{page_room, packets_room};

use celt_base::held::drop_front;
use celt_base::status::OutOfMemory;
use ogg_pages::page::MAX_PAGE_LEN;
use std::alloc::Global;
use std::marker::Model;

/// The longest audio packet that can be open, and the segments of two pages.
const ROOM: usize = 61440 + 2 * 65025;

/// Room for the copy of a page, and for no more.
pub(crate) fn page_room(alloc: Global) -> Result<Vec<u8>, OutOfMemory>
    ensures empty { IfOk result (λ page. page.items ≡ []) }
    ensures reserved { IfOk result (λ page. vec_capacity page ≡ page_room) }
{
    match Vec::with_capacity(alloc, MAX_PAGE_LEN) {
        Ok(page) => Ok(page),
        Err(_) => Err(OutOfMemory),
    }
}

/// Room for the bytes of the packets, and for no more.
fn packets_room(alloc: Global) -> Result<Vec<u8>, OutOfMemory>
    ensures empty { IfOk result (λ bytes. bytes.items ≡ []) }
    ensures reserved { IfOk result (λ bytes. vec_capacity bytes ≡ packets_room) }
{
    match Vec::with_capacity(alloc, ROOM) {
        Ok(bytes) => Ok(bytes),
        Err(_) => Err(OutOfMemory),
    }
}

/// How many of the `start` bytes that are done with go, of `end` in all, so that there is place for more: none
/// while there is place.
fn surplus(start: usize, end: usize, more: usize) -> usize
    requires end { end ≤ start + 126465 }
    requires more { more ≤ 65025 }
    ensures done { result ≤ start }
    ensures place { end + more ≤ result + 191490 }
    ensures none { end + more ≤ 191490 → result ≡ 0 }
{
    if end > ROOM - more { start } else { 0 }
}

/// The bytes of the page that was accepted last, and behind them those of the page that is tested. A page
/// that is not accepted leaves those of the one before as they are. A page's bytes are moved only where there
/// is no place behind them for the next one.
#[derive(Drop)]
pub(crate) struct Room {
    bytes: Vec<u8>,
    /// Where the bytes of the accepted page begin, with those of the packet that was open before it.
    start: usize,
    /// Where the packet begins that is open behind that page.
    left: usize,
    /// Where the bytes of the accepted page end.
    end: usize,
}

impl Model for Room {
    ghost use Rattle.std.specs.Prelude.{◌≤◌, ◌+◌, ◌-◌, length, take, drop, vec_capacity};
    ghost use Rattle.opus_stream.specs.Rooms.{Kept};

    ghost Value = { Kept };

    ghost view = { λ r. record {
      given = drop r.start (take r.end r.bytes.items);
      offered = drop r.left r.bytes.items;
      left = r.left - r.start;
    } };

    ghost invariant = { λ r. (r.start ≤ r.left) × (r.left ≤ r.end) × (r.end ≤ r.left + 61440) × (r.end ≤ r.start + 126465)
        × (r.end ≤ length r.bytes.items) × (length r.bytes.items ≤ r.end + 65025) × (length r.bytes.items ≤ 191490)
        × (191490 ≤ vec_capacity r.bytes) };
}

impl Room {
    ghost use Rattle.std.specs.Prelude.{◌≡◌, ◌+◌, ◌≤◌, [], ◌++◌, length, drop, IfOk};
    ghost use Rattle.opus_stream.specs.Rooms.{Kept};

    /// Of no page. It reserves all that it needs.
    pub(crate) fn new(alloc: Global) -> Result<Room, OutOfMemory>
        ensures { IfOk result (λ room. room ≡ record { given = []; offered = []; left = 0 }) }
    {
        match packets_room(alloc) {
            Ok(bytes) => Ok(Room {
                bytes,
                start: 0,
                left: 0,
                end: 0,
            }),
            Err(_) => Err(OutOfMemory),
        }
    }

    /// The bytes of the accepted page.
    pub(crate) fn given(&self) -> &[u8]
        ensures value { result.now ≡ self.now.given }
        ensures short { length result.now ≤ 126465 }
    {
        let (bytes, _) = self.bytes.split_at(self.end);
        let (_, given) = bytes.split_at(self.start);
        given
    }

    /// The bytes of the page that is tested.
    pub(crate) fn offered(&self) -> &[u8]
        ensures value { result.now ≡ self.now.offered }
    {
        let (_, offered) = self.bytes.split_at(self.left);
        offered
    }

    /// How many bytes the packet has so far that is open behind the accepted page.
    pub(crate) fn open_len(&self) -> usize
        ensures value { result ≡ length (drop self.now.left self.now.given) }
        ensures short { result ≤ 61440 }
    {
        self.end - self.left
    }

    /// Takes the segments of a page that is to be tested.
    pub(crate) fn offer(&mut self, body: &[u8])
        requires { length body.now ≤ 65025 }
        ensures given { self.new.given ≡ self.old.given }
        ensures left { self.new.left ≡ self.old.left }
        ensures offered { self.new.offered ≡ drop self.old.left self.old.given ++ body.now }
    {
        let gone = surplus(self.start, self.end, body.len());
        self.bytes.truncate(self.end);
        drop_front(&mut self.bytes, gone);
        self.start -= gone;
        self.left -= gone;
        self.end -= gone;
        self.bytes.extend_from_slice(body).unwrap();
    }

    /// The page that was tested is accepted. Behind it the packet is open that begins at this place.
    pub(crate) fn accept(&mut self, left: usize)
        requires inside { left ≤ length self.old.offered }
        requires short { length self.old.offered ≤ left + 61440 }
        ensures given { self.new.given ≡ self.old.offered }
        ensures left { self.new.left ≡ left }
        ensures behind { self.new.offered ≡ drop left self.old.offered }
    {
        self.start = self.left;
        self.left += left;
        self.end = self.bytes.len();
    }

    /// Of no page, as a new one.
    pub(crate) fn clear(&mut self)
        ensures { self.new ≡ record { given = []; offered = []; left = 0 } }
    {
        self.bytes.clear();
        self.start = 0;
        self.left = 0;
        self.end = 0;
    }
}
