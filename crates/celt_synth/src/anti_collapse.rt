//! Anti-collapse over a frame (RFC 6716, section 4.3.5): band by band, the channels inside each.
ghost use Rattle.std.specs.Prelude.{◌≡◌, ℕ, ◌*◌, ◌^◌, ◌<◌, ◌≤◌, pos, get_or, unsigned_abs, length, All};
ghost use Rattle.celt_base.specs.Energies.{IsEnergy, AreEnergies};
ghost use Rattle.celt_synth.specs.AntiCollapse.{level_at, band_uncollapsed, seed_behind, both_uncollapsed, all_uncollapsed, AreGrounds};
ghost use Rattle.celt_synth.specs.Blocks.{blocks_of};
ghost use Rattle.celt_synth.specs.Rows.{entry, older_at};
ghost use Rattle.celt_synth.specs.Shapes.{shapes_of};

use crate::collapse::{level_of, rise_of, uncollapse};
use crate::rows::{greater_of, whole};
use celt_base::kind::Kind;
use celt_tables::{edge, width};
use fixed_math::Exp;

/// What anti-collapse goes by.
#[derive(Clone, Copy)]
pub struct Grounds {
    /// The kind of the frame.
    pub kind: Kind,
    /// For each band, the eighths of a bit of its shape.
    pub pulses: [i32; 21],
    /// For each channel and band a bit for each block, which is 0 where the block has no shape.
    pub masks: [[u32; 21]; 2],
    /// The energies of the frame, log2 in units of 2^-10.
    pub energies: [[i64; 21]; 2],
    /// Those of the frame before.
    pub older1: [[i64; 21]; 2],
    /// Those of the frame before that one.
    pub older2: [[i64; 21]; 2],
}

/// How many blocks of 120 samples a frame has.
pub fn blocks(kind: Kind) -> usize
    ensures value { result ≡ blocks_of kind }
    ensures some { 1 ≤ result }
    ensures few { result ≤ 8 }
{
    match kind.lm {
        0 => 1,
        1 => 2,
        2 => 4,
        _ => 8,
    }
}

// An entry of a grid of energies.
fn energy_at(rows: &[[i64; 21]; 2], c: usize, b: usize) -> i64
    requires rows { AreEnergies rows.now }
    requires channel { c < 2 }
    requires band { b < 21 }
    ensures value { result ≡ entry rows.now c b }
    ensures energy { IsEnergy result }
{
    whole(&rows[c]);
    rows[c][b]
}

// What stands in an older row for a channel: in mono the greater of both channels'.
fn older(rows: &[[i64; 21]; 2], kind: Kind, c: usize, b: usize) -> i64
    requires rows { AreEnergies rows.now }
    requires channel { c < 2 }
    requires band { b < 21 }
    ensures value { result ≡ older_at kind.channels rows.now c b }
    ensures energy { IsEnergy result }
{
    if kind.channels == 1 {
        return greater_of(energy_at(rows, 0, b), energy_at(rows, 1, b));
    }
    energy_at(rows, c, b)
}

// The eighths of a bit of a band's shape.
fn pulses_at(grounds: &Grounds, band: usize) -> u32
    requires grounds { AreGrounds grounds.now }
    requires band { band < grounds.now.kind.end }
    ensures value { result ≡ unsigned_abs (get_or grounds.now.pulses band (pos 0)) }
    ensures size { result < 2 ^ 20 }
{
    grounds.pulses[band] as u32
}

// The level of the noise in a band of a channel.
fn level_in(exp: &Exp, grounds: &Grounds, channel: usize, band: usize) -> u32
    requires grounds { AreGrounds grounds.now }
    requires channel { channel < 2 }
    requires band { band < grounds.now.kind.end }
    ensures value { result ≡ level_at grounds.now channel band }
    ensures size { result < 2 ^ 24 }
{
    let rise = rise_of(
        energy_at(&grounds.energies, channel, band),
        older(&grounds.older1, grounds.kind, channel, band),
        older(&grounds.older2, grounds.kind, channel, band),
    );
    let n = blocks(grounds.kind) as u32 * width(band as u32);
    level_of(exp, grounds.kind.lm, n, pulses_at(grounds, band), rise)
}

// Fills the empty blocks of a band in the shapes of a channel.
fn fill_band(
    x: &mut [i64],
    exp: &Exp,
    grounds: &Grounds,
    channel: usize,
    band: usize,
    seed: &mut u32,
)
    requires grounds { AreGrounds grounds.now }
    requires channel { channel < 2 }
    requires band { band < grounds.now.kind.end }
    requires length { length x.old ≡ 100 * blocks_of grounds.now.kind }
    requires items { All (λ v. unsigned_abs v < 2 ^ 20) x.old }
    ensures value { x.new ≡ band_uncollapsed grounds.now channel band seed.old x.old }
    ensures seed { seed.new ≡ seed_behind grounds.now channel band seed.old }
    ensures items { All (λ v. unsigned_abs v < 2 ^ 20) x.new }
{
    let level = level_in(exp, grounds, channel, band);
    let count = blocks(grounds.kind);
    let columns = width(band as u32) as usize;
    let (_, behind) = x.split_at_mut(count * edge(band as u32) as usize);
    let (here, _) = behind.split_at_mut(count * columns);
    uncollapse(
        here,
        count,
        columns,
        grounds.masks[channel][band],
        level,
        seed,
    );
}

// Fills the empty blocks of a band in the shapes of the frame's channels.
fn fill_both(
    left: &mut [i64],
    right: &mut [i64],
    exp: &Exp,
    grounds: &Grounds,
    band: usize,
    seed: &mut u32,
)
    requires grounds { AreGrounds grounds.now }
    requires band { band < grounds.now.kind.end }
    requires left_length { length left.old ≡ 100 * blocks_of grounds.now.kind }
    requires right_length { length right.old ≡ 100 * blocks_of grounds.now.kind }
    requires left_items { All (λ v. unsigned_abs v < 2 ^ 20) left.old }
    requires right_items { All (λ v. unsigned_abs v < 2 ^ 20) right.old }
    ensures value { shapes_of left.new right.new seed.new ≡ both_uncollapsed grounds.now band (shapes_of left.old right.old seed.old) }
    ensures left_items { All (λ v. unsigned_abs v < 2 ^ 20) left.new }
    ensures right_items { All (λ v. unsigned_abs v < 2 ^ 20) right.new }
{
    fill_band(left, exp, grounds, 0, band, seed);
    if grounds.kind.channels == 2 {
        fill_band(right, exp, grounds, 1, band, seed);
    }
}

/// Fills the blocks of a transient's bands that got no pulse (RFC 6716, section 4.3.5). `left` and `right` are the shapes
/// of the frame's channels (Q14), 100 items a block of 120 samples; `seed` is the noise's state.
pub fn fill_frame(left: &mut [i64], right: &mut [i64], exp: &Exp, grounds: &Grounds, seed: &mut u32)
    requires grounds { AreGrounds grounds.now }
    requires left_length { length left.old ≡ 100 * blocks_of grounds.now.kind }
    requires right_length { length right.old ≡ 100 * blocks_of grounds.now.kind }
    requires left_items { All (λ v. unsigned_abs v < 2 ^ 20) left.old }
    requires right_items { All (λ v. unsigned_abs v < 2 ^ 20) right.old }
    ensures value { shapes_of left.new right.new seed.new ≡ all_uncollapsed grounds.now grounds.now.kind.end (shapes_of left.old right.old seed.old) }
    ensures left_items { All (λ v. unsigned_abs v < 2 ^ 20) left.new }
    ensures right_items { All (λ v. unsigned_abs v < 2 ^ 20) right.new }
{
    for band in 0..usize::from(grounds.kind.end) {
        fill_both(left, right, exp, grounds, band, seed);
    }
}
