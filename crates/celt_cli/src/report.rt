//! The line of `gen`.
ghost use Rattle.std.specs.Prelude.{◌≡◌, ◌≤◌, ◌+◌, take, length, codes};
ghost use Rattle.celt_session.specs.Texts.{IsPut};
ghost use Rattle.celt_cli.specs.GenLines.{hexed_of, line_of};

use crate::notes::put_labelled;
use celt_session::text::{put_byte, put_decimal, put_hex, put_text};

/// The room of the longest line.
pub const MOST_REPORT: usize = 256;

/// What `gen` says.
#[derive(Clone, Copy, Debug, PartialEq, Eq)]
pub struct GenReport {
    /// The frames that were made.
    pub frames: u32,
    /// The pairs of samples that came out.
    pub samples: u64,
    /// The frames that were replaced by the silent one.
    pub silent: u32,
    /// The final range of the last frame.
    pub range: u32,
    /// The sum over the samples that came out.
    pub sum: u32,
}

/// Puts a space, a label, a space and a number in hexadecimal digits, and answers the place behind them.
fn put_hexed(out: &mut [u8], at: usize, label: &str, number: u32) -> usize
    requires { at + length label.now + 10 ≤ length out.old }
    ensures put { IsPut out.old out.new at result (hexed_of label.now number) }
    ensures most { result ≤ at + length label.now + 10 }
{
    let at = put_byte(out, at, b' ');
    let at = put_text(out, at, label.as_bytes());
    let at = put_byte(out, at, b' ');
    put_hex(out, at, 8, number)
}

/// Puts the line, and answers its length.
#[tactic(auto, unfolding(crate::specs::GenLines::line_of))]
pub fn put_report(out: &mut [u8; MOST_REPORT], report: GenReport) -> usize
    ensures line { take result out.new ≡ line_of report }
    ensures bound { result ≤ 256 }
{
    let at = put_text(out, 0, b"frames ");
    let at = put_decimal(out, at, u64::from(report.frames));
    let at = put_labelled(out, at, "samples", report.samples);
    let at = put_labelled(out, at, "silent", u64::from(report.silent));
    let at = put_hexed(out, at, "range", report.range);
    let at = put_hexed(out, at, "sum", report.sum);
    put_byte(out, at, b'\n')
}
