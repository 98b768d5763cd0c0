//! A channel of a band: of one coefficient its sign, else its parts.
ghost use Rattle.std.specs.Prelude.{◌≡◌, ◌≢◌, ℕ, ◌+◌, ◌^◌, ◌<◌, ◌≤◌, pos, unsigned_abs, length, take, drop, All, [], ◌∷◌};
ghost use Rattle.band_shapes.specs.Bands.{sign_of, side_at, side_shape, CanSide};
ghost use Rattle.band_shapes.specs.Channels.{IsChannel};
ghost use Rattle.band_shapes.specs.Forms.{read_side, sign_in, IsSide};
ghost use Rattle.band_shapes.specs.Tree.{front};

use crate::channels::{Scratch, channel};
use crate::node::{Made, Place, Tools, Wish, next_place, node_at};
use band_plan::Node;

/// The item of a channel of one coefficient.
#[tactic(auto, unfolding(crate::specs::Bands::sign_of))]
fn sign_of(negative: bool) -> i64
    ensures { result ≡ sign_of negative }
{
    if negative { -16384 } else { 16384 }
}

#[tactic(auto, unfolding(crate::specs::Forms::sign_in))]
pub fn sign_in(node: Node) -> bool
    ensures { result ≡ sign_in node }
{
    match node {
        Node::Sign { negative } => negative,
        Node::Theta { .. } => false,
        Node::Leaf { .. } => false,
    }
}

// A channel of one coefficient.
fn signed(x: &mut [i64], tools: &Tools<'_>, place: Place) -> Made
    requires count { length x.old ≡ 1 }
    requires at { place.at ≤ length tools.now.nodes.now }
    ensures value { x.new ≡ sign_of (sign_in (front (drop place.at tools.now.nodes.now))) ∷ [] }
    ensures mask { result.mask ≡ 1 }
    ensures seed { result.seed ≡ place.seed }
    ensures rest { drop result.at tools.now.nodes.now ≡ drop 1 (drop place.at tools.now.nodes.now) }
    ensures at { result.at ≤ length tools.now.nodes.now }
{
    x[0] = sign_of(sign_in(node_at(tools.nodes, place.at)));
    Made {
        mask: 1,
        seed: place.seed,
        at: next_place(tools.nodes, place.at),
    }
}

/// A channel, from the node at `place.at` on. The source is empty where there is none.
pub fn side(
    x: &mut [i64],
    scratch: &mut Scratch,
    tools: &Tools<'_>,
    source: &[i64],
    wish: Wish,
    place: Place,
) -> Made
    requires count { length x.old ≡ tools.now.layout.count }
    requires can { CanSide tools.now.layout source.now wish }
    requires at { place.at ≤ length tools.now.nodes.now }
    requires side { IsSide tools.now.layout.count (read_side tools.now.layout.count tools.now.layout.level (drop place.at tools.now.nodes.now)).side }
    ensures made { IsChannel wish.blocks (side_shape tools.now.layout (read_side tools.now.layout.count tools.now.layout.level (drop place.at tools.now.nodes.now)).side source.now wish place.seed) x.new result.mask result.seed }
    ensures rest { drop result.at tools.now.nodes.now ≡ (read_side tools.now.layout.count tools.now.layout.level (drop place.at tools.now.nodes.now)).rest }
    ensures at { result.at ≤ length tools.now.nodes.now }
{
    let n = tools.layout.count;
    if n == 1 {
        return signed(x, tools, place);
    }
    channel(x, scratch, tools, source, wish, place)
}

/// The same in the first items of a longer list.
pub fn side_in(
    x: &mut [i64],
    scratch: &mut Scratch,
    tools: &Tools<'_>,
    source: &[i64],
    wish: Wish,
    place: Place,
) -> Made
    requires room { tools.now.layout.count ≤ length x.old }
    requires can { CanSide tools.now.layout source.now wish }
    requires at { place.at ≤ length tools.now.nodes.now }
    requires side { IsSide tools.now.layout.count (side_at tools.now.layout (drop place.at tools.now.nodes.now)).side }
    ensures made { IsChannel wish.blocks (side_shape tools.now.layout (side_at tools.now.layout (drop place.at tools.now.nodes.now)).side source.now wish place.seed) (take tools.now.layout.count x.new) result.mask result.seed }
    ensures rest { drop result.at tools.now.nodes.now ≡ (side_at tools.now.layout (drop place.at tools.now.nodes.now)).rest }
    ensures at { result.at ≤ length tools.now.nodes.now }
{
    let (here, _) = x.split_at_mut(tools.layout.count);
    side(here, scratch, tools, source, wish, place)
}
