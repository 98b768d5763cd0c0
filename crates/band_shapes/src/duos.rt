//! A stereo band of two coefficients: one vector is coded, and the other stands upright on it.
ghost use Rattle.std.specs.Prelude.{◌≡◌, ◌⊎◌, ℕ, ◌+◌, ◌^◌, ◌<◌, ◌≤◌, ℤ, pos, neg_ℤ, ◌≤ℤ◌, unsigned_abs, length, take, drop, ◌&&◌, false};
ghost use Rattle.fixed_math.specs.Bitexact.{product};
ghost use Rattle.band_shapes.specs.Bands.{two_in, listed, upright, weighed, sum, difference, is_side, mid_duo, side_duo, side_at, side_shape, whole_wish, duo_pair, CanTake, IsPair, IsTwoBelow};
ghost use Rattle.band_shapes.specs.Forms.{cut_in, sign_in, turned_in, IsSide};
ghost use Rattle.band_shapes.specs.Parts.{mid_of, side_of};
ghost use Rattle.band_shapes.specs.Tree.{front, IsAngle};

use crate::node::{Cut, MadePair, Place, Tools, Two, next_place, node_at};
use crate::pairs::{Bench, cut_in, invert_in, middle_of, turned_in, whole_wish};
use crate::parts::side_of;
use crate::sides::{side_in, sign_in};
use fixed_math::mulr;

// The first two numbers of a list.
fn two_in(x: &[i64]) -> Two
    requires { 2 ≤ length x.now }
    ensures { result ≡ two_in (take 2 x.now) }
{
    Two {
        first: x[0],
        second: x[1],
    }
}

fn put_two(x: &mut [i64], v: Two)
    requires count { 2 ≤ length x.old }
    requires size { IsTwoBelow (2 ^ 20) v }
    ensures { take 2 x.new ≡ listed v }
{
    x[0] = v.first;
    x[1] = v.second;
}

// The vector that stands upright on another.
fn upright(v: Two, negative: bool) -> Two
    requires { IsTwoBelow (2 ^ 19) v }
    ensures value { result ≡ upright negative v }
    ensures size { IsTwoBelow (2 ^ 19) result }
{
    if negative {
        Two {
            first: v.second,
            second: -v.first,
        }
    } else {
        Two {
            first: -v.second,
            second: v.first,
        }
    }
}

// A number by a weight.
fn scaled(weight: i64, v: i64) -> i64
    requires low { pos 0 ≤ℤ weight }
    requires high { weight ≤ℤ pos 32767 }
    requires size { unsigned_abs v < 2 ^ 19 }
    ensures value { result ≡ product weight v }
    ensures size { unsigned_abs result < 2 ^ 19 }
{
    mulr(weight, v, 15)
}

// The side's weight.
fn side_weight(cut: Cut) -> i64
    requires { IsAngle cut.theta }
    ensures value { result ≡ side_of cut.theta }
    ensures low { pos 0 ≤ℤ result }
    ensures high { result ≤ℤ pos 32767 }
{
    side_of(cut.theta)
}

// A vector by the middle's weight.
fn mid_weighed(cut: Cut, v: Two) -> Two
    requires angle { IsAngle cut.theta }
    requires size { IsTwoBelow (2 ^ 19) v }
    ensures value { result ≡ weighed (mid_of cut.theta) v }
    ensures size { IsTwoBelow (2 ^ 19) result }
{
    let weight = middle_of(cut);
    Two {
        first: scaled(weight, v.first),
        second: scaled(weight, v.second),
    }
}

// A vector by the side's weight.
fn side_weighed(cut: Cut, v: Two) -> Two
    requires angle { IsAngle cut.theta }
    requires size { IsTwoBelow (2 ^ 19) v }
    ensures value { result ≡ weighed (side_of cut.theta) v }
    ensures size { IsTwoBelow (2 ^ 19) result }
{
    let weight = side_weight(cut);
    Two {
        first: scaled(weight, v.first),
        second: scaled(weight, v.second),
    }
}

fn difference(x: Two, y: Two) -> Two
    requires first { IsTwoBelow (2 ^ 19) x }
    requires second { IsTwoBelow (2 ^ 19) y }
    ensures value { result ≡ difference x y }
    ensures size { IsTwoBelow (2 ^ 20) result }
{
    Two {
        first: x.first - y.first,
        second: x.second - y.second,
    }
}

fn sum(x: Two, y: Two) -> Two
    requires first { IsTwoBelow (2 ^ 19) x }
    requires second { IsTwoBelow (2 ^ 19) y }
    ensures value { result ≡ sum x y }
    ensures size { IsTwoBelow (2 ^ 20) result }
{
    Two {
        first: x.first + y.first,
        second: x.second + y.second,
    }
}

// The middle, by its weight, of the vector that was coded.
fn mid_duo(cut: Cut, negative: bool, v: Two) -> Two
    requires angle { IsAngle cut.theta }
    requires size { IsTwoBelow (2 ^ 19) v }
    ensures value { result ≡ mid_duo cut.theta negative v }
    ensures size { IsTwoBelow (2 ^ 19) result }
{
    if is_side(cut) {
        return mid_weighed(cut, upright(v, negative));
    }
    mid_weighed(cut, v)
}

// The side, by its weight.
fn side_duo(cut: Cut, negative: bool, v: Two) -> Two
    requires angle { IsAngle cut.theta }
    requires size { IsTwoBelow (2 ^ 19) v }
    ensures value { result ≡ side_duo cut.theta negative v }
    ensures size { IsTwoBelow (2 ^ 19) result }
{
    if is_side(cut) {
        return side_weighed(cut, v);
    }
    side_weighed(cut, upright(v, negative))
}

// Whether the coded vector is the side.
#[tactic(auto, unfolding(crate::specs::Bands::is_side))]
fn is_side(cut: Cut) -> bool
    ensures { result ≡ is_side cut.theta }
{
    cut.theta > 8192
}

/// A stereo band of two coefficients.
pub fn duo(
    bench: &mut Bench,
    tools: &Tools<'_>,
    source: &[i64],
    fill: u32,
    place: Place,
) -> MadePair
    requires count { tools.now.layout.count ≡ 2 }
    requires two { tools.now.layout.two ≡ false }
    requires can { CanTake tools.now.layout source.now fill }
    requires at { place.at ≤ length tools.now.nodes.now }
    requires angle { IsAngle (cut_in (front (drop place.at tools.now.nodes.now))).theta }
    requires side { IsSide tools.now.layout.count (side_at tools.now.layout (drop 1 (drop 1 (drop place.at tools.now.nodes.now)))).side }
    ensures made { IsPair tools.now.layout (duo_pair (cut_in (front (drop place.at tools.now.nodes.now))).theta (sign_in (front (drop 1 (drop place.at tools.now.nodes.now)))) (turned_in (front (drop place.at tools.now.nodes.now)) && tools.now.invert) (side_shape tools.now.layout (side_at tools.now.layout (drop 1 (drop 1 (drop place.at tools.now.nodes.now)))).side source.now (whole_wish tools.now.layout fill) place.seed)) (take tools.now.layout.count bench.new.left) (take tools.now.layout.count bench.new.right) (take tools.now.layout.count bench.new.copy) result }
    ensures rest { drop result.at tools.now.nodes.now ≡ (side_at tools.now.layout (drop 1 (drop 1 (drop place.at tools.now.nodes.now)))).rest }
    ensures at { result.at ≤ length tools.now.nodes.now }
{
    let node = node_at(tools.nodes, place.at);
    let cut = cut_in(node);
    let sign_place = next_place(tools.nodes, place.at);
    let negative = sign_in(node_at(tools.nodes, sign_place));
    let place = Place {
        seed: place.seed,
        at: next_place(tools.nodes, sign_place),
    };
    let made = side_in(
        &mut bench.copy,
        &mut bench.scratch,
        tools,
        source,
        whole_wish(tools.layout, fill),
        place,
    );
    let coded = two_in(&bench.copy);
    let middle = mid_duo(cut, negative, coded);
    let other = side_duo(cut, negative, coded);
    put_two(&mut bench.left, difference(middle, other));
    put_two(&mut bench.right, sum(middle, other));
    invert_in(&mut bench.right, 2, turned_in(node) & tools.invert);
    MadePair {
        left: made.mask,
        right: made.mask,
        seed: made.seed,
        at: made.at,
    }
}
