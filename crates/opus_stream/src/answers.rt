//! What a reader of streams answers.
use celt_base::status::Fault;

/// What the bytes so far give.
#[derive(Clone, Copy, Debug, PartialEq, Eq)]
pub enum Accept {
    /// The next page is accepted, and given.
    Page,
    /// Every accepted page was given, and the bytes have no fault but that they may end too early.
    Need,
    /// Every accepted page was given, and this is the earliest fault. The same answer comes again.
    Fault(Fault),
}

/// Of a page's samples per channel, from 0, those from `from` up to but not including `to`. Both are 0 where
/// there is none.
#[derive(Clone, Copy, Debug, PartialEq, Eq)]
pub struct Span {
    pub from: u64,
    pub to: u64,
}
