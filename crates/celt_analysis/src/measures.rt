//! What is measured in the spectra of a frame: whether they are silent, the energies that bands are to have (RFC 6716, section
//! 4.3.2), log2 in units of 2^-10, and their heights.
ghost use Rattle.std.specs.Prelude.{◌≡◌, ◌*◌, ◌^◌, ◌<◌, replicate, unsigned_abs, length, All, if◌then◌else◌};
ghost use Rattle.celt_tables.specs.Tables.{edge_of};
ghost use Rattle.celt_analysis.specs.Analyses.{AreTargets};
ghost use Rattle.celt_analysis.specs.Energies.{floor, heights_of, is_silent, row_of, targets_of};
ghost use Rattle.celt_analysis.specs.Signals.{blocks_of, frame_size, is_stereo};

use crate::energies::{FLOOR, heights, is_zero, targets};
use crate::rooms::blocks;
use celt_base::kind::Kind;
use celt_tables::edge;
use fixed_math::Exp;

/// What is measured in the spectra of a frame.
#[derive(Clone, Copy)]
pub struct Measures {
    /// Whether every item is 0 in the bands below the kind's end.
    pub silent: bool,
    /// The targets by channels and bands.
    pub targets: [[i64; 21]; 2],
    /// The heights by bands.
    pub heights: [i64; 21],
}

// The targets of a channel.
fn row(spectrum: &[i64], kind: Kind, exp: &Exp) -> [i64; 21]
    requires length { length spectrum.now ≡ frame_size kind }
    requires sizes { All (λ x. unsigned_abs x < 2 ^ 38) spectrum.now }
    ensures value { result ≡ row_of kind.end (blocks_of kind) spectrum.now }
    ensures sizes { AreTargets result }
{
    targets(spectrum, blocks(kind), usize::from(kind.end), exp)
}

// The same of the right channel; in mono the least energies.
fn right_row(spectrum: &[i64], kind: Kind, exp: &Exp) -> [i64; 21]
    requires length { kind.channels ≡ 2 → length spectrum.now ≡ frame_size kind }
    requires sizes { All (λ x. unsigned_abs x < 2 ^ 38) spectrum.now }
    ensures value { result ≡ (if is_stereo kind then row_of kind.end (blocks_of kind) spectrum.now else replicate 21 floor) }
    ensures sizes { AreTargets result }
{
    if kind.channels == 1 {
        return [FLOOR; 21];
    }
    row(spectrum, kind, exp)
}

// Whether all items below the kind's end are 0. In mono `right` is not read.
fn silence(left: &[i64], right: &[i64], kind: Kind) -> bool
    requires left { length left.now ≡ frame_size kind }
    requires right { kind.channels ≡ 2 → length right.now ≡ frame_size kind }
    ensures { result ≡ is_silent (is_stereo kind) (blocks_of kind * edge_of kind.end) left.now right.now }
{
    let count = blocks(kind) * edge(u32::from(kind.end)) as usize;
    if kind.channels == 1 {
        return is_zero(left, count);
    }
    is_zero(left, count) && is_zero(right, count)
}

/// Measures the spectra of a frame. In mono `right` is not read.
pub fn measure(left: &[i64], right: &[i64], kind: Kind, exp: &Exp) -> Measures
    requires left { length left.now ≡ frame_size kind }
    requires right { kind.channels ≡ 2 → length right.now ≡ frame_size kind }
    requires left_sizes { All (λ x. unsigned_abs x < 2 ^ 38) left.now }
    requires right_sizes { All (λ x. unsigned_abs x < 2 ^ 38) right.now }
    ensures silent { result.silent ≡ is_silent (is_stereo kind) (blocks_of kind * edge_of kind.end) left.now right.now }
    ensures targets { result.targets ≡ targets_of (is_stereo kind) kind.end (blocks_of kind) left.now right.now }
    ensures heights { result.heights ≡ heights_of (is_stereo kind) kind.end (blocks_of kind) left.now right.now }
    ensures rows { length result.targets ≡ 2 }
    ensures bands { All (λ row. length row ≡ 21) result.targets }
    ensures target_sizes { All AreTargets result.targets }
    ensures height_sizes { AreTargets result.heights }
{
    let silent = silence(left, right, kind);
    let left = row(left, kind, exp);
    let right = right_row(right, kind, exp);
    Measures {
        silent,
        targets: [left, right],
        heights: heights(&left, &right, kind.channels == 2),
    }
}
