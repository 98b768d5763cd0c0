//! A reader of streams from pieces of bytes. It takes no memory after it was made.
ghost use Rattle.std.specs.Prelude.{◌≡◌, ◌≤◌, ◌<◌, ◌^◌, true};
ghost use Rattle.opus_stream.specs.Readers.{Reader};

use crate::accepting::{Given, NOTHING};
use crate::answers::{Accept, Span};
use crate::packets::{lacing_of, packet_at};
use crate::progress::Progress;
use crate::room::{Room, page_room};
use crate::step::{Taken, take_page};
use celt_base::status::{Fault, FaultName, OutOfMemory};
use ogg_pages::reader::PageReader;
use opus_packets::Head;
use std::alloc::Global;
use std::marker::Model;

/// Whether it is still settled that no page is left, where so many bytes are fed.
fn stays_settled(is_settled: bool, count: usize) -> bool
    ensures same { count ≡ 0 → result ≡ is_settled }
    ensures settled { result ≡ true → is_settled ≡ true }
    ensures none { result ≡ true → count ≡ 0 }
{
    is_settled && count == 0
}

/// Reads a stream of Ogg pages as packets of Opus. It holds the bytes of one page, a copy of the page that was
/// given last, and the packets that end on it.
#[derive(Drop)]
pub struct StreamReader {
    pages: PageReader,
    page: Vec<u8>,
    given: Given,
    room: Room,
    progress: Progress,
    fed: u64,
    fault: Option<Fault>,
    is_settled: bool,
}

impl Model for StreamReader {
    ghost use Rattle.std.specs.Prelude.{◌≡◌, ◌≤◌, ◌<◌, ◌+◌, ◌^◌, true, length, vec_capacity};
    ghost use Rattle.ogg_pages.specs.Spelling.{AreBytes};
    ghost use Rattle.opus_stream.specs.Readers.{Reader};

    ghost Value = { Reader };

    ghost view = { λ r. record {
      pages = r.pages;
      page = r.page.items;
      given = r.given;
      room = r.room;
      progress = r.progress;
      fed = r.fed;
      fault = r.fault;
      is_settled = r.is_settled;
    } };

    ghost invariant = { λ r. (r.progress.bytes + length r.pages ≤ r.fed) × (r.fed ≤ 2 ^ 48) × (65307 ≤ vec_capacity r.page)
        × (r.given.packets ≤ 255) × AreBytes r.pages × (r.is_settled ≡ true → length r.pages < 65307) };
}

impl StreamReader {
    ghost use Rattle.std.specs.Prelude.{◌≡◌, ◌≤◌, ◌<◌, ◌+◌, ◌-◌, ◌^◌, ◌++◌, ℕ, List, [], true, Option, Some, None, length, take, drop, min, slice_get, IfOk};
    ghost use Rattle.celt_base.specs.declared.status.Fault.{Fault};
    ghost use Rattle.opus_stream.specs.declared.answers.Accept.{Accept};
    ghost use Rattle.opus_stream.specs.declared.answers.Accept.TheVariants.{Need, Page};
    ghost use Rattle.opus_stream.specs.Audio.{IsPlayable};
    ghost use Rattle.opus_stream.specs.Tests.{is_ended};
    ghost use Rattle.opus_stream.specs.Acceptance.{answer_of, end_fault_of, given_pages, size_of, last_bytes, last_packets, last_span, head_in};
    ghost use Rattle.opus_stream.specs.Readers.{Reader, StandsFor, IsAnswer, IsPacket, IsHeld, IsEnd, bytes_fed, bytes_held, free_room, is_ended_in, packets_of, given_after};

    /// A reader that was fed nothing. It reserves the room for a page, a copy of a page, and an open packet with
    /// the segments of the page that was given and of the one that is tested.
    pub fn new(alloc: Global) -> Result<StreamReader, OutOfMemory>
        ensures stands { IfOk result (λ reader. StandsFor reader [] 0) }
        ensures settled { IfOk result (λ reader. reader.is_settled ≡ true) }
        ensures fed { IfOk result (λ reader. bytes_fed reader ≡ 0) }
        ensures free { IfOk result (λ reader. free_room reader ≡ 65307) }
        ensures held { IfOk result (λ reader. bytes_held reader ≡ 0) }
    {
        let Ok(pages) = PageReader::new(alloc) else {
            return Err(OutOfMemory);
        };
        let Ok(page) = page_room(alloc) else {
            return Err(OutOfMemory);
        };
        let Ok(room) = Room::new(alloc) else {
            return Err(OutOfMemory);
        };
        Ok(StreamReader {
            pages,
            page,
            given: NOTHING,
            room,
            progress: Progress::new(),
            fed: 0,
            fault: None,
            is_settled: true,
        })
    }

    /// Takes as many bytes of the piece as there is room for, and answers how many. There is room for one page
    /// in all. A stream has at most 2^48 bytes.
    pub fn feed(&mut self, piece: &[u8]) -> usize
        requires limit { bytes_fed self.old + length piece.now ≤ 2 ^ 48 }
        ensures count { result ≡ min (length piece.now) (free_room self.old) }
        ensures longer { (bytes : List ℕ) (given : ℕ) → StandsFor self.old bytes given →
            StandsFor self.new (bytes ++ take result piece.now) given }
        ensures takes { self.old.is_settled ≡ true → 0 < length piece.now → 0 < result }
        ensures settled { result ≡ 0 → self.new.is_settled ≡ self.old.is_settled }
        ensures fed { bytes_fed self.new ≡ bytes_fed self.old + result }
        ensures free { free_room self.new ≡ free_room self.old - result }
        ensures held { bytes_held self.new ≡ bytes_held self.old + result }
    {
        let count = self.pages.feed(piece);
        self.fed += count as u64;
        self.is_settled = stays_settled(self.is_settled, count);
        count
    }

    /// Tests the next page of the bytes, and gives it where it is accepted.
    pub fn next_page(&mut self) -> Accept
        ensures answer { IsAnswer self.old result }
        ensures longer { (bytes : List ℕ) (given : ℕ) → StandsFor self.old bytes given →
            StandsFor self.new bytes (given_after result given) }
        ensures settled { result ≡ Need → self.new.is_settled ≡ true }
        ensures room { result ≡ Need → 1 ≤ free_room self.new }
        ensures fed { bytes_fed self.new ≡ bytes_fed self.old }
        ensures free { free_room self.old ≤ free_room self.new }
        ensures held { bytes_held self.new ≤ bytes_held self.old }
        ensures shorter { result ≡ Page → bytes_held self.new < bytes_held self.old }
    {
        if let Some(fault) = self.fault {
            return Accept::Fault(fault);
        }
        if self.progress.is_ended {
            if self.pages.held() > 0 {
                return Accept::Fault(self.progress.fault(FaultName::AfterEnd));
            }
            self.is_settled = true;
            return Accept::Need;
        }
        match take_page(
            &mut self.pages,
            &mut self.page,
            &mut self.room,
            self.progress,
        ) {
            Taken::Page(accepted) => {
                self.progress = accepted.progress;
                self.given = accepted.given;
                self.is_settled = false;
                Accept::Page
            }
            Taken::Need => {
                self.is_settled = true;
                Accept::Need
            }
            Taken::Broken(name) => Accept::Fault(self.progress.fault(name)),
            Taken::Refused(fault) => {
                self.fault = Some(fault);
                self.is_settled = false;
                Accept::Fault(fault)
            }
        }
    }

    /// The page that was given last, as it stands. Before the first page it is empty.
    pub fn bytes(&self) -> &[u8]
        ensures value { result.now ≡ self.now.page }
        ensures page { (bytes : List ℕ) (given : ℕ) → StandsFor self.now bytes given →
            result.now ≡ last_bytes bytes (given_pages bytes given) }
    {
        &self.page
    }

    /// The number of audio packets that end on the page that was given last.
    pub fn packets(&self) -> usize
        ensures value { result ≡ packets_of self.now }
        ensures few { result ≤ 255 }
        ensures count { (bytes : List ℕ) (given : ℕ) → StandsFor self.now bytes given →
            result ≡ length (last_packets (given_pages bytes given)) }
    {
        self.given.packets
    }

    /// An audio packet that ends on the page that was given last, by its number from 0.
    pub fn packet(&self, i: usize) -> &[u8]
        requires { i < packets_of self.now }
        ensures is { IsPacket self.now i result.now }
        ensures sound { (bytes : List ℕ) (given : ℕ) → StandsFor self.now bytes given → IsPlayable result.now }
    {
        let bytes = self.room.given();
        packet_at(
            lacing_of(&self.page),
            bytes,
            self.given.before.min(bytes.len()),
            i,
        )
    }

    /// The samples of the page that was given last that are written.
    pub fn written(&self) -> Span
        ensures value { result ≡ self.now.given.written }
        ensures span { (bytes : List ℕ) (given : ℕ) → StandsFor self.now bytes given →
            result ≡ last_span (given_pages bytes given) }
    {
        self.given.written
    }

    /// The identification header, once page 0 was given.
    pub fn head(&self) -> Option<Head>
        ensures value { result ≡ self.now.progress.head }
        ensures head { (bytes : List ℕ) (given : ℕ) → StandsFor self.now bytes given →
            result ≡ head_in (given_pages bytes given) }
        ensures none { (bytes : List ℕ) (given : ℕ) → StandsFor self.now bytes given → result ≡ None → given ≡ 0 }
    {
        self.progress.head
    }

    /// Whether a page that ends the stream was given.
    pub fn ended(&self) -> bool
        ensures value { result ≡ is_ended_in self.now }
        ensures ended { (bytes : List ℕ) (given : ℕ) → StandsFor self.now bytes given →
            result ≡ is_ended (given_pages bytes given) }
    {
        self.progress.is_ended
    }

    /// The number of bytes that belong to no given page.
    pub fn held(&self) -> usize
        ensures { IsHeld self.now result }
    {
        (self.fed - self.progress.bytes) as usize
    }

    /// The fault of a stream that ends with the bytes so far. Nothing was fed, or the answer since was that more
    /// bytes are needed.
    pub fn end(&self) -> Option<Fault>
        requires { self.now.is_settled ≡ true }
        ensures { IsEnd self.now result }
    {
        if self.progress.is_ended {
            None
        } else {
            Some(self.progress.fault(FaultName::Truncated))
        }
    }

    /// Begins again behind the page that ended the stream, as a new reader that was fed the bytes that are held.
    pub fn restart(&mut self)
        requires { is_ended_in self.old ≡ true }
        ensures again { (bytes : List ℕ) (given : ℕ) → StandsFor self.old bytes given →
            StandsFor self.new (drop (size_of (given_pages bytes given)) bytes) 0 }
        ensures fed { bytes_fed self.new ≤ bytes_fed self.old }
        ensures settled { bytes_fed self.new ≡ 0 → self.new.is_settled ≡ true }
        ensures free { free_room self.new ≡ free_room self.old }
    {
        let held = self.pages.held();
        self.page.clear();
        self.given = NOTHING;
        self.room.clear();
        self.progress = Progress::new();
        self.fed = held as u64;
        self.fault = None;
        self.is_settled = held == 0;
    }
}
