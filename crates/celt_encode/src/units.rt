//! The vectors of unit length of a frame, and the choice of dual stereo by them.
ghost use Rattle.std.specs.Prelude.{◌≡◌, ◌⊎◌, ℕ, ◌+◌, ◌-◌, ◌*◌, ◌^◌, ◌<◌, ◌≤◌, unsigned_abs, All, List, [], ◌∷◌, ◌++◌, length, replicate, take, drop, pos, slice_index_or, Some};
ghost use Rattle.fixed_math.specs.Items.{item};
ghost use Rattle.fixed_math.specs.Unit.{unit_of};
ghost use Rattle.celt_analysis.specs.Signals.{frame_size};
ghost use Rattle.celt_encode.specs.Units.{start_of, band_of, units_below, unit_row, units_for, sizes_apart, sizes_mixed, over_pairs, is_dual, dual_for};
ghost use Rattle.celt_tables.specs.Tables.{size_of};

use celt_analysis::Analysis;
use celt_base::kind::Kind;
use celt_tables::{edge, size};
use fixed_math::unit;

// How many short blocks a frame has.
fn blocks(kind: Kind) -> u32
    ensures value { result ≡ 2 ^ kind.lm }
    ensures least { 1 ≤ result }
    ensures most { result ≤ 8 }
{
    match kind.lm {
        0 => 1,
        1 => 2,
        2 => 4,
        _ => 8,
    }
}

/// Where a band begins in a spectrum; band 21 where the last one ends.
pub fn start(kind: Kind, band: u32) -> usize
    requires { band ≤ 21 }
    ensures value { result ≡ start_of kind band }
    ensures most { result ≤ 800 }
{
    (edge(band) * blocks(kind)) as usize
}

/// The coefficients of a band.
pub fn band_in(kind: Kind, spectrum: &[i64], band: u32) -> &[i64]
    requires band { band ≤ 20 }
    requires count { length spectrum.now ≡ frame_size kind }
    ensures value { result.now ≡ band_of kind spectrum.now band }
    ensures count { length result.now ≡ size_of kind band }
{
    let (_, behind) = spectrum.split_at(start(kind, band));
    let (coefficients, _) = behind.split_at(size(kind, band) as usize);
    coefficients
}

// Writes the vector of unit length of `items` from place `at` on.
fn put_unit(row: &mut [i64], at: usize, items: &[i64])
    requires within { at + length items.now ≤ length row.old }
    requires count { length items.now ≤ 176 }
    requires sizes { All (λ x. unsigned_abs x < 2 ^ 38) items.now }
    ensures front { take (at + length items.now) row.new ≡ take at row.old ++ unit_of (pos 32768) items.now }
    ensures length { length row.new ≡ length row.old }
    ensures sizes { All (λ x. unsigned_abs x ≤ 2 ^ 14) (unit_of (pos 32768) items.now) }
{
    let (_, behind) = row.split_at_mut(at);
    let (here, _) = behind.split_at_mut(items.len());
    here.copy_from_slice(items);
    unit(here, 32768);
}

// Writes the vectors of the bands below the kind's end.
fn put_bands(row: &mut [i64], kind: Kind, spectrum: &[i64])
    requires row { length row.old ≡ 800 }
    requires count { length spectrum.now ≡ frame_size kind }
    requires sizes { All (λ x. unsigned_abs x < 2 ^ 38) spectrum.now }
    ensures front { take (start_of kind kind.end) row.new ≡ units_below kind spectrum.now kind.end }
    ensures length { length row.new ≡ 800 }
    ensures sizes { All (λ x. unsigned_abs x ≤ 2 ^ 14) (units_below kind spectrum.now kind.end) }
{
    for band in 0..u32::from(kind.end) {
        put_unit(row, start(kind, band), band_in(kind, spectrum, band));
    }
}

// Writes `n` times 0 from place `at` on.
fn clear(row: &mut [i64], at: usize, n: usize)
    requires { at + n ≤ length row.old }
    ensures front { take (at + n) row.new ≡ take at row.old ++ replicate n (pos 0) }
    ensures length { length row.new ≡ length row.old }
{
    let (_, behind) = row.split_at_mut(at);
    let (here, _) = behind.split_at_mut(n);
    here.fill(0);
}

// Writes 0 from place `at` on. Short pieces are cleared by wide registers.
fn clear_from(row: &mut [i64], at: usize)
    requires { at ≤ length row.old }
    ensures { row.new ≡ take at row.old ++ replicate (length row.old - at) (pos 0) }
{
    let mut from = at;
    while from < row.len() {
        let n = (row.len() - from).min(200);
        clear(row, from, n);
        from += n;
    }
}

// Writes a channel's vectors, and 0 behind them.
fn put_row(row: &mut [i64], kind: Kind, spectrum: &[i64])
    requires row { length row.old ≡ 800 }
    requires count { (length spectrum.now ≡ frame_size kind) ⊎ (spectrum.now ≡ []) }
    requires sizes { All (λ x. unsigned_abs x < 2 ^ 38) spectrum.now }
    ensures value { row.new ≡ unit_row kind spectrum.now }
    ensures sizes { All (λ x. unsigned_abs x ≤ 2 ^ 14) row.new }
{
    if spectrum.is_empty() {
        clear_from(row, 0);
    } else {
        put_bands(row, kind, spectrum);
        clear_from(row, start(kind, u32::from(kind.end)));
    }
}

/// Writes the vectors of a frame.
pub fn put_units(rows: &mut [[i64; 800]; 2], kind: Kind, a: &Analysis)
    requires { a.now.kind ≡ Some kind }
    ensures value { rows.new ≡ units_for kind a.now }
    ensures sizes { All (λ row. All (λ x. unsigned_abs x ≤ 2 ^ 14) row) rows.new }
{
    put_row(&mut rows[0], kind, a.spectrum(0));
    put_row(&mut rows[1], kind, a.spectrum(1));
}

fn apart(l: i64, r: i64) -> u64
    requires l { unsigned_abs l ≤ 2 ^ 14 }
    requires r { unsigned_abs r ≤ 2 ^ 14 }
    ensures value { result ≡ sizes_apart l r }
    ensures most { result ≤ 2 ^ 16 }
{
    l.unsigned_abs() + r.unsigned_abs()
}

fn mixed(l: i64, r: i64) -> u64
    requires l { unsigned_abs l ≤ 2 ^ 14 }
    requires r { unsigned_abs r ≤ 2 ^ 14 }
    ensures value { result ≡ sizes_mixed l r }
    ensures most { result ≤ 2 ^ 16 }
{
    (l + r).unsigned_abs() + (l - r).unsigned_abs()
}

// Whether two channels are coded apart.
#[tactic(auto, unfolding(crate::specs::Units::is_dual))]
fn is_dual(kind: Kind, l: &[i64], r: &[i64]) -> bool
    requires left { All (λ x. unsigned_abs x ≤ 2 ^ 14) l.now }
    requires right { All (λ x. unsigned_abs x ≤ 2 ^ 14) r.now }
    requires left_count { length l.now ≡ 800 }
    requires right_count { length r.now ≡ 800 }
    ensures { result ≡ is_dual kind l.now r.now }
{
    let mut plain: u64 = 0;
    let mut turned: u64 = 0;
    for p in 0..start(kind, 13) {
        plain += apart(l[p], r[p]);
        turned += mixed(l[p], r[p]);
    }
    (23170 * turned) >> 15 > plain
}

/// Whether dual stereo is wanted.
#[tactic(auto, unfolding(crate::specs::Units::dual_for))]
pub fn dual(kind: Kind, units: &[[i64; 800]; 2]) -> bool
    requires { All (λ row. All (λ x. unsigned_abs x ≤ 2 ^ 14) row) units.now }
    ensures { result ≡ dual_for kind units.now }
{
    kind.channels == 2 && is_dual(kind, &units[0], &units[1])
}
