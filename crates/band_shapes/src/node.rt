//! The nodes of a band in coding order, and what the walk over them carries.
ghost use Rattle.std.specs.Prelude.{◌≡◌, ℕ, ◌+◌, ◌≤◌, length, drop};
ghost use Rattle.band_shapes.specs.Tree.{front, piece_of};

use crate::change::Change;
use band_plan::Node;
use fixed_math::Trig;
use pulse_vectors::PulseTable;

/// What a part is to be like.
#[derive(Clone, Copy)]
pub struct Wish {
    /// Which of the blocks below have a shape to be copied.
    pub fill: u32,
    /// The gain (Q15).
    pub gain: i64,
    /// The number of short blocks.
    pub blocks: u32,
}

/// A part that is to be made.
#[derive(Clone, Copy)]
pub struct Branch {
    /// What it is to be like.
    pub wish: Wish,
    /// How many splits stand within one another in it at most.
    pub level: u32,
}

/// A vector of pulses.
#[derive(Clone, Copy)]
pub struct Pulses {
    /// Their number.
    pub count: u32,
    /// The place of the vector.
    pub index: u32,
}

/// Where the walk stands.
#[derive(Clone, Copy)]
pub struct Place {
    /// The noise's state.
    pub seed: u32,
    /// How many nodes were taken.
    pub at: usize,
}

/// What a part leaves.
#[derive(Clone, Copy)]
pub struct Made {
    /// Which blocks have a shape.
    pub mask: u32,
    /// The noise's state.
    pub seed: u32,
    /// How many nodes were taken.
    pub at: usize,
}

/// What both channels of a band leave.
#[derive(Clone, Copy)]
pub struct MadePair {
    /// Which blocks of the left channel have a shape.
    pub left: u32,
    /// Which of the right one have.
    pub right: u32,
    /// The noise's state.
    pub seed: u32,
    /// How many nodes were taken.
    pub at: usize,
}

/// Which blocks of the sources have a shape.
#[derive(Clone, Copy)]
pub struct Fills {
    /// In the left channel.
    pub left: u32,
    /// In the right one.
    pub right: u32,
}

/// What the channels of a band share.
#[derive(Clone, Copy)]
pub struct Layout {
    /// The number of items.
    pub count: usize,
    /// How many splits stand within one another at most.
    pub level: u32,
    /// The short blocks.
    pub blocks: u32,
    /// The spread, 0 to 3.
    pub spread: u32,
    /// The change of resolution.
    pub change: Change,
    /// Whether both channels are coded by themselves.
    pub two: bool,
    /// 1 or 2.
    pub channels: u8,
    /// Whether the right channel keeps copies of its own.
    pub own: bool,
}

/// What the parts of a band share.
#[derive(Drop)]
pub struct Tools<'a> {
    /// The circle.
    pub trig: &'a Trig,
    /// The vectors.
    pub pulses: &'a PulseTable,
    /// The nodes of the frame.
    pub nodes: &'a [Node],
    /// Whether an inversion counts.
    pub invert: bool,
    /// The band.
    pub layout: Layout,
}

/// A split.
#[derive(Clone, Copy)]
pub struct Cut {
    /// The angle, 16384 to a quarter of the circle.
    pub theta: i32,
    /// Whether the second part was coded first.
    pub second_first: bool,
}

/// What a node is to a part.
#[derive(Clone, Copy)]
pub enum Piece {
    /// A split.
    Split(Cut),
    /// A leaf: its number of pulses and the place of its vector.
    Leaf(u32, u32),
}

/// The piece at a place; past the end a leaf without pulses.
pub fn piece_at(nodes: &[Node], at: usize, level: u32) -> Piece
    requires { at ≤ length nodes.now }
    ensures { result ≡ piece_of level (front (drop at nodes.now)) }
{
    if at < nodes.len() {
        piece_of(nodes[at], level)
    } else {
        Piece::Leaf(0, 0)
    }
}

fn piece_of(node: Node, level: u32) -> Piece
    ensures { result ≡ piece_of level node }
{
    match node {
        Node::Theta {
            theta,
            second_first,
            ..
        } => {
            if level == 0 {
                Piece::Leaf(0, 0)
            } else {
                Piece::Split(Cut {
                    theta,
                    second_first,
                })
            }
        }
        Node::Leaf { k, index } => Piece::Leaf(k, index),
        Node::Sign { .. } => Piece::Leaf(0, 0),
    }
}

/// The next place.
pub fn next_place(nodes: &[Node], at: usize) -> usize
    requires { at ≤ length nodes.now }
    ensures rest { drop result nodes.now ≡ drop 1 (drop at nodes.now) }
    ensures within { result ≤ length nodes.now }
{
    if at < nodes.len() { at + 1 } else { at }
}

/// The node at a place; past the end a leaf without pulses.
pub fn node_at(nodes: &[Node], at: usize) -> Node
    requires { at ≤ length nodes.now }
    ensures { result ≡ front (drop at nodes.now) }
{
    if at < nodes.len() {
        nodes[at]
    } else {
        Node::Leaf { k: 0, index: 0 }
    }
}

/// A vector of two numbers.
#[derive(Clone, Copy)]
pub struct Two {
    /// The first.
    pub first: i64,
    /// The second.
    pub second: i64,
}
