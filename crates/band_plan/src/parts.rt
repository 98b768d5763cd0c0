//! The parts of a band (RFC 6716, section 4.3.4.4).
ghost use Rattle.std.specs.Prelude.{◌≡◌, ◌+◌, ◌^◌, ◌<◌, ◌≤◌, unsigned_abs, pos, ◌-ℤ◌};
ghost use Rattle.arrayvec.specs.ArrayVec.{array_vec_len};
ghost use Rattle.band_plan.specs.Parts.{divides, fitting, leaf_script, part_script, most_nodes, reach, IsShare, IsPiece};
ghost use Rattle.band_plan.specs.Trees.{Coded};
ghost use Rattle.celt_base.specs.Walks.{Walked};
ghost use Rattle.pulse_vectors.specs.Costs.{last_of, index_near};

use crate::orders::{Left, Share, first_share, later_share, split_order};
use crate::pieces::{Piece, half};
use crate::symbols::Node;
use crate::thetas::{angle_node, ask_split};
use arrayvec::ArrayVec;
use celt_base::coder::{Chooser, Coder, Place};
use celt_base::question::Question;
use celt_base::walk::ask_at;
use pulse_vectors::{PulseTable, cost, index_for, last_index, pulses_of};

// Whether a part of this level is split.
#[tactic(auto, unfolding(crate::specs::Parts::splits))]
fn divides(level: u32, n: u32, share: Share) -> bool
    requires n { (2 ≤ n) × (n ≤ 176) }
    requires bits { unsigned_abs share.bits ≤ 2 ^ 30 }
    ensures { result ≡ divides level n share.bits }
{
    if level == 0 {
        return false;
    }
    if n <= 2 {
        return false;
    }
    ((cost(n, last_index(n)) + 11) as i32) < share.bits
}

// The greatest index up to this one whose cost is still there.
fn fitting(n: u32, share: Share, index: u32) -> u32
    requires n { (2 ≤ n) × (n ≤ 176) }
    requires index { (index ≤ 40) × (index ≤ last_of n) }
    requires left { unsigned_abs share.left ≤ 2 ^ 30 }
    ensures value { result ≡ fitting n share.left index }
    ensures within { result ≤ index }
{
    let mut q = index;
    while q > 0 {
        if (cost(n, q) as i32) <= share.left {
            return q;
        }
        q -= 1;
    }
    0
}

// What is left once so much was used.
pub fn after(share: Share, cost: u32) -> Left
    requires left { unsigned_abs share.left ≤ 2 ^ 30 }
    requires cost { cost ≤ 264 }
    ensures { result.left ≡ share.left -ℤ pos cost }
{
    Left {
        left: share.left - cost as i32,
    }
}

// The index whose cost is nearest to the bits.
fn nearest(n: u32, share: Share) -> u32
    requires n { (2 ≤ n) × (n ≤ 176) }
    requires bits { unsigned_abs share.bits ≤ 2 ^ 30 }
    ensures value { result ≡ index_near n share.bits }
    ensures within { (result ≤ 40) × (result ≤ last_of n) }
{
    index_for(n, share.bits)
}

// A part that is not split.
fn leaf<C: Coder, H: Chooser>(
    coder: &mut C,
    chooser: &mut H,
    nodes: &mut ArrayVec<Node, 1344>,
    piece: Piece,
    share: Share,
) -> Left
    requires band { piece.band ≤ 20 }
    requires n { (2 ≤ piece.n) × (piece.n ≤ 176) }
    requires bits { unsigned_abs share.bits ≤ 2 ^ 30 }
    requires left { unsigned_abs share.left ≤ 2 ^ 30 }
    requires few { C.calls.count coder.old < 4096 }
    requires room { array_vec_len nodes.old < 1344 }
    ensures coded { Coded C.calls H.calls (leaf_script piece share) share.left result.left nodes.old.items nodes.new.items
        coder.old chooser.old coder.new chooser.new }
    ensures used { unsigned_abs (share.left -ℤ result.left) ≤ 2 ^ 9 }
    ensures count { C.calls.count coder.new ≤ C.calls.count coder.old + 1 }
    ensures room { array_vec_len nodes.new ≡ array_vec_len nodes.old + 1 }
{
    let index = fitting(piece.n, share, nearest(piece.n, share));
    if index == 0 {
        nodes.push(Node::Leaf { k: 0, index: 0 });
        return after(share, 0);
    }
    let k = pulses_of(index);
    let at = Place::Pulses {
        band: piece.band,
        channel: piece.channel,
        offset: piece.offset,
        n: piece.n,
        k,
        blocks: piece.blocks,
    };
    let answer = ask_at(
        coder,
        chooser,
        at,
        Question::Uniform(PulseTable::new().count(piece.n, k)),
    );
    nodes.push(Node::Leaf {
        k,
        index: answer as u32,
    });
    after(share, cost(piece.n, index))
}

/// Codes a part of a band; `level` is its size exponent and one more.
pub fn part<C: Coder, H: Chooser>(
    coder: &mut C,
    chooser: &mut H,
    nodes: &mut ArrayVec<Node, 1344>,
    level: u32,
    piece: Piece,
    share: Share,
) -> Left
    requires level { level ≤ 4 }
    requires piece { IsPiece level piece }
    requires share { IsShare level share }
    requires few { C.calls.count coder.old + most_nodes level ≤ 4096 }
    requires room { array_vec_len nodes.old + most_nodes level ≤ 1344 }
    ensures coded { Coded C.calls H.calls (part_script level piece share) share.left result.left nodes.old.items nodes.new.items
        coder.old chooser.old coder.new chooser.new }
    ensures used { unsigned_abs (share.left -ℤ result.left) ≤ reach level }
    ensures count { C.calls.count coder.new ≤ C.calls.count coder.old + most_nodes level }
    ensures room { array_vec_len nodes.new ≤ array_vec_len nodes.old + most_nodes level }
{
    if !divides(level, piece.n, share) {
        return leaf(coder, chooser, nodes, piece, share);
    }
    let lower = level - 1;
    let theta = ask_split(coder, chooser, lower, piece, share);
    let order = split_order(lower, piece, share, theta);
    nodes.push(angle_node(theta, order.second_first));
    let first = first_share(order, share, theta);
    let middle = part(
        coder,
        chooser,
        nodes,
        lower,
        half(piece, order.second_first),
        first,
    );
    let later = later_share(order, first, middle);
    part(
        coder,
        chooser,
        nodes,
        lower,
        half(piece, !order.second_first),
        later,
    )
}
