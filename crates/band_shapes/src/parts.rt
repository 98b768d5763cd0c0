//! Parts of a band: a tree of splits, made in one buffer.
ghost use Rattle.std.specs.Prelude.{◌≡◌, ◌⊎◌, ℕ, ◌+◌, ◌-◌, ◌*◌, ◌/◌, ◌%◌, ◌^◌, ◌<◌, ◌≤◌, ℤ, pos, ◌≤ℤ◌, unsigned_abs, length, take, drop, All};
ghost use Rattle.std.specs.Int.RustNames.{bit_or};
ghost use Rattle.fixed_math.specs.Bitexact.{product};
ghost use Rattle.band_shapes.specs.Parts.{mid_of, side_of, halved, doubled_fill, kept_fill, split_fill, first_wish, second_wish, leaf_shape, part_shape, has_silent, IsMade, CanMake};
ghost use Rattle.band_shapes.specs.Tree.{read_part, IsAngle, IsLeaf, IsPart, IsBlocks};

use crate::leaves::{Filled, pulse_leaf, silent_leaf};
use crate::node::{Branch, Cut, Made, Piece, Place, Pulses, Tools, Wish, next_place, piece_at};
use band_plan::Node;
use fixed_math::{bitexact_cos, mulr};

/// The weight of the first part of a split (Q15).
#[tactic(auto, unfolding(crate::specs::Parts::mid_of))]
pub fn mid_of(theta: i32) -> i64
    requires { IsAngle theta }
    ensures value { result ≡ mid_of theta }
    ensures low { pos 0 ≤ℤ result }
    ensures high { result ≤ℤ pos 32767 }
{
    if theta == 0 {
        return 32767;
    }
    if theta == 16384 {
        return 0;
    }
    bitexact_cos(theta) as i64
}

/// The weight of the second.
#[tactic(auto, unfolding(crate::specs::Parts::side_of))]
pub fn side_of(theta: i32) -> i64
    requires { IsAngle theta }
    ensures value { result ≡ side_of theta }
    ensures low { pos 0 ≤ℤ result }
    ensures high { result ≤ℤ pos 32767 }
{
    if theta == 0 {
        return 0;
    }
    if theta == 16384 {
        return 32767;
    }
    bitexact_cos(16384 - theta) as i64
}

// A gain by a weight.
fn weighed(gain: i64, weight: i64) -> i64
    requires gain_low { pos 0 ≤ℤ gain }
    requires gain_high { gain ≤ℤ pos 32768 }
    requires low { pos 0 ≤ℤ weight }
    requires high { weight ≤ℤ pos 32767 }
    ensures value { result ≡ product gain weight }
    ensures result_low { pos 0 ≤ℤ result }
    ensures result_high { result ≤ℤ pos 32768 }
{
    mulr(gain, weight, 15)
}

// A fill of one block serves both parts.
#[tactic(auto, unfolding(crate::specs::Parts::doubled_fill))]
fn doubled_fill(blocks: u32, fill: u32) -> u32
    requires { fill < 2 ^ 30 }
    ensures value { result ≡ doubled_fill blocks fill }
    ensures size { (m : ℕ) → fill < 2 ^ m → result < 2 ^ (m + 1) }
{
    if blocks == 1 {
        fill % 2 + 2 * fill
    } else {
        fill
    }
}

// At an end of the circle one part is silent.
#[tactic(auto, unfolding(crate::specs::Parts::kept_fill))]
pub fn kept_fill(inner: u32, theta: i32, fill: u32) -> u32
    requires { inner ≤ 16 }
    ensures value { result ≡ kept_fill inner theta fill }
    ensures size { result ≤ fill }
{
    let bits = 1 << inner;
    if theta == 0 {
        return fill % bits;
    }
    if theta == 16384 {
        return fill / bits % bits * bits;
    }
    fill
}

// What the first part of a split is to be like.
#[tactic(auto, unfolding(crate::specs::Parts::first_wish))]
fn first_wish(cut: Cut, wish: Wish) -> Wish
    requires angle { IsAngle cut.theta }
    requires blocks { IsBlocks wish.blocks }
    requires gain_low { pos 0 ≤ℤ wish.gain }
    requires gain_high { wish.gain ≤ℤ pos 32768 }
    requires fill { wish.fill < 2 ^ 30 }
    ensures value { result ≡ first_wish cut.theta wish }
    ensures low { pos 0 ≤ℤ result.gain }
    ensures high { result.gain ≤ℤ pos 32768 }
    ensures size { (m : ℕ) → wish.fill < 2 ^ m → result.fill < 2 ^ (m + 1) }
{
    let blocks = (wish.blocks + 1) / 2;
    Wish {
        fill: kept_fill(blocks, cut.theta, doubled_fill(wish.blocks, wish.fill)),
        gain: weighed(wish.gain, mid_of(cut.theta)),
        blocks,
    }
}

// What the second is to be like.
#[tactic(auto, unfolding(crate::specs::Parts::second_wish))]
fn second_wish(cut: Cut, wish: Wish) -> Wish
    requires angle { IsAngle cut.theta }
    requires blocks { IsBlocks wish.blocks }
    requires gain_low { pos 0 ≤ℤ wish.gain }
    requires gain_high { wish.gain ≤ℤ pos 32768 }
    requires fill { wish.fill < 2 ^ 30 }
    ensures value { result ≡ second_wish cut.theta wish }
    ensures low { pos 0 ≤ℤ result.gain }
    ensures high { result.gain ≤ℤ pos 32768 }
    ensures size { (m : ℕ) → wish.fill < 2 ^ m → result.fill < 2 ^ (m + 1) }
{
    let blocks = (wish.blocks + 1) / 2;
    Wish {
        fill: kept_fill(blocks, cut.theta, doubled_fill(wish.blocks, wish.fill)) >> blocks,
        gain: weighed(wish.gain, side_of(cut.theta)),
        blocks,
    }
}

// The masks of both parts as one.
fn joined_mask(blocks: u32, first: u32, second: u32) -> u32
    requires blocks { IsBlocks blocks }
    requires first { first < 2 ^ halved blocks }
    requires second { second < 2 ^ halved blocks }
    ensures value { result ≡ bit_or first (second * 2 ^ (blocks / 2)) }
    ensures size { result < 2 ^ blocks }
{
    first | (second << (blocks / 2))
}

// What both parts of a split leave, in the order of their places; the last one made says where the walk stands.
fn joined(blocks: u32, first: Made, second: Made, last: Made) -> Made
    requires blocks { IsBlocks blocks }
    requires first { first.mask < 2 ^ halved blocks }
    requires second { second.mask < 2 ^ halved blocks }
    ensures value { result.mask ≡ bit_or first.mask (second.mask * 2 ^ (blocks / 2)) }
    ensures size { result.mask < 2 ^ blocks }
    ensures seed { result.seed ≡ last.seed }
    ensures at { result.at ≡ last.at }
{
    Made {
        mask: joined_mask(blocks, first.mask, second.mask),
        seed: last.seed,
        at: last.at,
    }
}

// What a leaf leaves.
fn made_at(filled: Filled, at: usize) -> Made
    ensures mask { result.mask ≡ filled.mask }
    ensures seed { result.seed ≡ filled.seed }
    ensures at { result.at ≡ at }
{
    Made {
        mask: filled.mask,
        seed: filled.seed,
        at,
    }
}

// Both halves of a source; none has none.
fn halves(source: &[i64], half: usize) -> (&[i64], &[i64])
    requires { (length source.now ≡ 0) ⊎ (half ≤ length source.now) }
    ensures first { result.0.now ≡ take half source.now }
    ensures second { result.1.now ≡ drop half source.now }
{
    if source.is_empty() {
        (source, source)
    } else {
        source.split_at(half)
    }
}

/// A part, from the node at `place.at` on.
pub fn part(
    x: &mut [i64],
    y: &mut [i32],
    tools: &Tools<'_>,
    source: &[i64],
    branch: Branch,
    place: Place,
) -> Made
    requires room { length y.old ≡ length x.old }
    requires fits { CanMake (length x.old) source.now branch.wish }
    requires spread { tools.now.layout.spread ≤ 3 }
    requires level { branch.level ≤ 4 }
    requires fill { branch.wish.fill < 2 ^ (24 - branch.level) }
    requires at { place.at ≤ length tools.now.nodes.now }
    requires tree { IsPart (length x.old) (read_part branch.level (drop place.at tools.now.nodes.now)).part }
    ensures made { IsMade branch.wish.blocks (part_shape tools.now.layout.spread (length x.old) (read_part branch.level (drop place.at tools.now.nodes.now)).part source.now branch.wish place.seed) x.new result.mask result.seed }
    ensures rest { drop result.at tools.now.nodes.now ≡ (read_part branch.level (drop place.at tools.now.nodes.now)).rest }
    ensures at { result.at ≤ length tools.now.nodes.now }
{
    let at = next_place(tools.nodes, place.at);
    let wish = branch.wish;
    match piece_at(tools.nodes, place.at, branch.level) {
        Piece::Split(cut) => {
            let half = x.len() / 2;
            let level = branch.level - 1;
            let first = Branch {
                wish: first_wish(cut, wish),
                level,
            };
            let second = Branch {
                wish: second_wish(cut, wish),
                level,
            };
            let (low_source, high_source) = halves(source, half);
            let (low, high) = x.split_at_mut(half);
            let (low_room, high_room) = y.split_at_mut(half);
            let place = Place {
                seed: place.seed,
                at,
            };
            if cut.second_first {
                let two = part(high, high_room, tools, high_source, second, place);
                let place = Place {
                    seed: two.seed,
                    at: two.at,
                };
                let one = part(low, low_room, tools, low_source, first, place);
                return joined(wish.blocks, one, two, one);
            }
            let one = part(low, low_room, tools, low_source, first, place);
            let place = Place {
                seed: one.seed,
                at: one.at,
            };
            let two = part(high, high_room, tools, high_source, second, place);
            joined(wish.blocks, one, two, two)
        }
        Piece::Leaf(count, index) => {
            if count == 0 {
                return made_at(silent_leaf(x, source, wish, place.seed), at);
            }
            let pulses = Pulses { count, index };
            made_at(pulse_leaf(x, y, tools, pulses, wish, place.seed), at)
        }
    }
}

/// Whether a leaf without pulses is among the parts, and where the nodes behind them begin.
#[derive(Clone, Copy)]
pub struct Seen {
    /// Whether one is.
    pub silent: bool,
    /// Where they begin.
    pub at: usize,
}

/// Looks for a leaf without pulses in the part from the node at `at` on.
pub fn silent_in(nodes: &[Node], at: usize, level: u32) -> Seen
    requires { at ≤ length nodes.now }
    ensures silent { result.silent ≡ has_silent (read_part level (drop at nodes.now)).part }
    ensures rest { drop result.at nodes.now ≡ (read_part level (drop at nodes.now)).rest }
    ensures at { result.at ≤ length nodes.now }
{
    let next = next_place(nodes, at);
    match piece_at(nodes, at, level) {
        Piece::Split(cut) => {
            let below = level - 1;
            let one = silent_in(nodes, next, below);
            let two = silent_in(nodes, one.at, below);
            Seen {
                silent: one.silent | two.silent,
                at: two.at,
            }
        }
        Piece::Leaf(k, index) => Seen {
            silent: k == 0,
            at: next,
        },
    }
}
