//! The questions that a frame asks of its range coder (RFC 6716, section 4.1).

/// The tables of a question that has one (RFC 6716, section 4.3).
#[derive(Clone, Copy, Debug, PartialEq, Eq)]
pub enum TableId {
    /// The tapset of the post-filter, 2 1 1 of 4.
    Tapset,
    /// A small coarse energy, 2 1 1 of 4.
    Small,
    /// The spreading, 7 2 21 2 of 32.
    Spread,
    /// The allocation trim, 2 2 5 10 22 46 22 10 5 2 2 of 128.
    Trim,
}

/// A question of a frame.
#[derive(Clone, Copy, Debug, PartialEq, Eq)]
pub enum Question {
    /// A bit that is 1 with probability 2^-p.
    Bit(u32),
    /// A place in a table of lengths.
    Table(TableId),
    /// A number below this one, each as likely.
    Uniform(u32),
    /// A signed number: `fs` is the length of 0 of 32768, `decay` (Q14) how the lengths fall.
    Laplace { fs: u32, decay: u32 },
    /// A number from 0 to this one, of which the lower half is three times as likely.
    Step(u32),
    /// A number from 0 to this one, most likely in the middle.
    Triangle(u32),
    /// This many bits from the end of the frame, least significant first.
    Raw(u32),
}
