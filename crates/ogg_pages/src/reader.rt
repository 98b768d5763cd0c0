//! A reader of pages from pieces of bytes. It holds at most one page's bytes and takes no memory after
//! it was made.
ghost use Rattle.std.specs.Prelude.{◌≡◌, ◌+◌, ◌-◌, ◌≤◌, List, ℕ, [], ◌++◌, length, min, drop, take, IfOk, vec_capacity};
ghost use Rattle.ogg_pages.specs.Steps.{IsStep};

use crate::page::{MAX_PAGE_LEN, PageFault, Verdict, judge};
use crate::view::PageView;
use celt_base::held::drop_front;
use celt_base::status::OutOfMemory;
use std::alloc::Global;
use std::marker::Model;

/// What a page reader answers.
#[derive(Clone, Copy, Debug)]
pub enum Step<'a> {
    /// The next page.
    Page(PageView<'a>),
    /// What is held is less than a page, and breaks no test of capture and version.
    Need,
    /// The bytes held break a test. The same answer comes again.
    Fault(PageFault),
}

/// What the bytes hold at the place of a page. Bytes after the page do not matter.
pub fn page_at(bytes: &[u8]) -> Step<'_>
    ensures { IsStep bytes.now result }
{
    match judge(bytes) {
        Verdict::Whole(len) => {
            let (page, _) = bytes.split_at(len);
            Step::Page(PageView::new(page))
        }
        Verdict::Need => Step::Need,
        Verdict::Fault(fault) => Step::Fault(fault),
    }
}

/// Room for the bytes of a page, and for no more.
fn page_room(alloc: Global) -> Result<Vec<u8>, OutOfMemory>
    ensures empty { IfOk result (λ bytes. bytes.items ≡ []) }
    ensures reserved { IfOk result (λ bytes. vec_capacity bytes ≡ 65307) }
{
    match Vec::with_capacity(alloc, MAX_PAGE_LEN) {
        Ok(bytes) => Ok(bytes),
        Err(_) => Err(OutOfMemory),
    }
}

/// A reader of pages. It stands for the bytes that it was fed and has not given as pages.
#[derive(Drop)]
pub struct PageReader {
    bytes: Vec<u8>,
    /// The place of the first byte that is held.
    start: usize,
}

impl Model for PageReader {
    ghost use Rattle.std.specs.Prelude.{List, ℕ, ◌≤◌, length, drop, vec_capacity};

    ghost Value = { List ℕ };

    ghost view = { λ a. drop a.start a.bytes.items };

    ghost invariant = { λ a. (a.start ≤ length a.bytes.items) × (length a.bytes.items ≤ 65307) × (65307 ≤ vec_capacity a.bytes) };
}

impl PageReader {
    ghost use Rattle.std.specs.Prelude.{◌≡◌, ◌+◌, ◌-◌, ◌≤◌, List, ℕ, [], ◌++◌, length, min, drop, take, IfOk, ⊤};
    ghost use Rattle.std.specs.Borrow.{sem};
    ghost use mathlib.Core.Option.{none};
    ghost use denote.Follow.{follows_so};
    ghost use Rattle.ogg_pages.specs.contracts.reader.PageReader.{the_row};
    ghost use Rattle.ogg_pages.specs.Steps.{IsStep, after_step};

    /// A reader that holds nothing. It reserves the bytes of one page.
    pub fn new(alloc: Global) -> Result<PageReader, OutOfMemory>
        ensures { IfOk result (λ reader. reader ≡ []) }
    {
        let Ok(bytes) = page_room(alloc) else {
            return Err(OutOfMemory);
        };
        Ok(PageReader { bytes, start: 0 })
    }

    /// The number of bytes that are held.
    pub fn held(&self) -> usize
        ensures { result ≡ length self.now }
    {
        self.bytes.len() - self.start
    }

    /// Takes as many bytes of the piece as there is room for, and answers how many. There is room for
    /// one page in all.
    pub fn feed(&mut self, piece: &[u8]) -> usize
        ensures count { result ≡ min (length piece.now) (65307 - length self.old) }
        ensures held { self.new ≡ self.old ++ take result piece.now }
    {
        drop_front(&mut self.bytes, self.start);
        self.start = 0;
        let count = piece.len().min(MAX_PAGE_LEN - self.bytes.len());
        let (taken, _) = piece.split_at(count);
        self.bytes.extend_from_slice(taken).unwrap();
        count
    }

    /// The next page of the bytes that are held. A page that was given is held no longer.
    // The clause `after` says that, once the loan of the page has ended, the reader holds `after_step` of what it held.
    pub fn next_page(&mut self) -> Step<'_>
        ensures answer { IsStep self.old result }
        ensures* after { sem 𝓛 (follows_so the_row the_row self.entry.ghost_name none (λ _ _. ⊤) (λ n. n ≡ after_step self.old)) }
    {
        let (_, held) = self.bytes.split_at(self.start);
        match judge(held) {
            Verdict::Whole(len) => {
                let (page, _) = held.split_at(len);
                self.start += len;
                Step::Page(PageView::new(page))
            }
            Verdict::Need => Step::Need,
            Verdict::Fault(fault) => Step::Fault(fault),
        }
    }
}
