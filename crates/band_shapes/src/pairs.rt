//! Both channels of a band: one alone, two by themselves, or left and right from middle and side.
ghost use Rattle.std.specs.Prelude.{◌≡◌, ◌⊎◌, ℕ, ◌+◌, ◌-◌, ◌*◌, ◌/◌, ◌%◌, ◌^◌, ◌<◌, ◌≤◌, ℤ, pos, neg_ℤ, ◌≤ℤ◌, unsigned_abs, length, take, drop, map, replicate, All, ◌&&◌, true, false};
ghost use Rattle.std.specs.Int.RustNames.{bit_or};
ghost use Rattle.spread_fold.specs.Stereo.{merged};
ghost use Rattle.band_shapes.specs.Bands.{side_at, side_shape, whole_wish, mid_wish, side_wish, alone, apart_at, both_at, merged_pair, inverted, pair_shape, form_in, CanTake, IsBoth, IsPair};
ghost use Rattle.band_shapes.specs.Forms.{cut_in, turned_in, IsSide, IsForm};
ghost use Rattle.band_shapes.specs.Parts.{mid_of, side_of};
ghost use Rattle.band_shapes.specs.Tree.{front, IsAngle};

use crate::channels::Scratch;
use crate::duos::duo;
use crate::node::{Cut, Fills, Layout, Made, MadePair, Place, Tools, Wish, next_place, node_at};
use crate::parts::{kept_fill, mid_of, side_of};
use crate::sides::side_in;
use band_plan::Node;
use spread_fold::merge;

/// Rooms in which a band is made: its vectors, and the one of which a copy is kept.
#[derive(Drop)]
pub struct Bench {
    pub left: [i64; 176],
    pub right: [i64; 176],
    pub copy: [i64; 176],
    pub scratch: Scratch,
}

impl Bench {
    pub fn new() -> Bench {
        Bench {
            left: [0; 176],
            right: [0; 176],
            copy: [0; 176],
            scratch: Scratch::new(),
        }
    }
}

// What a whole channel is to be like.
#[tactic(auto, unfolding(crate::specs::Bands::whole_wish))]
pub fn whole_wish(layout: Layout, fill: u32) -> Wish
    ensures { result ≡ whole_wish layout fill }
{
    Wish {
        fill,
        gain: 32768,
        blocks: layout.blocks,
    }
}

// What the middle is to be like.
#[tactic(auto, unfolding(crate::specs::Bands::mid_wish))]
fn mid_wish(layout: Layout, fill: u32, cut: Cut) -> Wish
    requires blocks { layout.blocks ≤ 16 }
    requires fill { fill < 2 ^ layout.blocks }
    ensures value { result ≡ mid_wish layout fill cut.theta }
    ensures size { result.fill < 2 ^ layout.blocks }
{
    Wish {
        fill: kept_fill(layout.blocks, cut.theta, fill),
        gain: 32768,
        blocks: layout.blocks,
    }
}

// What the side is to be like.
#[tactic(auto, unfolding(crate::specs::Bands::side_wish))]
fn side_wish(layout: Layout, fill: u32, cut: Cut) -> Wish
    requires blocks { layout.blocks ≤ 16 }
    requires fill { fill < 2 ^ layout.blocks }
    requires angle { IsAngle cut.theta }
    ensures value { result ≡ side_wish layout fill cut.theta }
    ensures low { pos 0 ≤ℤ result.gain }
    ensures high { result.gain ≤ℤ pos 32768 }
    ensures size { result.fill < 2 ^ layout.blocks }
{
    Wish {
        fill: kept_fill(layout.blocks, cut.theta, fill) >> layout.blocks,
        gain: side_of(cut.theta),
        blocks: layout.blocks,
    }
}

#[tactic(auto, unfolding(crate::specs::Forms::cut_in))]
pub fn cut_in(node: Node) -> Cut
    ensures { result ≡ cut_in node }
{
    match node {
        Node::Theta {
            theta,
            second_first,
            ..
        } => Cut {
            theta,
            second_first,
        },
        Node::Sign { .. } => Cut {
            theta: 0,
            second_first: false,
        },
        Node::Leaf { .. } => Cut {
            theta: 0,
            second_first: false,
        },
    }
}

#[tactic(auto, unfolding(crate::specs::Forms::turned_in))]
pub fn turned_in(node: Node) -> bool
    ensures { result ≡ turned_in node }
{
    match node {
        Node::Theta { inversion, .. } => inversion,
        Node::Sign { .. } => false,
        Node::Leaf { .. } => false,
    }
}

/// A band of one channel.
pub fn single(
    bench: &mut Bench,
    tools: &Tools<'_>,
    source: &[i64],
    fill: u32,
    place: Place,
) -> MadePair
    requires can { CanTake tools.now.layout source.now fill }
    requires at { place.at ≤ length tools.now.nodes.now }
    requires side { IsSide tools.now.layout.count (side_at tools.now.layout (drop place.at tools.now.nodes.now)).side }
    ensures made { IsPair tools.now.layout (alone tools.now.layout.count (side_shape tools.now.layout (side_at tools.now.layout (drop place.at tools.now.nodes.now)).side source.now (whole_wish tools.now.layout fill) place.seed)) (take tools.now.layout.count bench.new.left) (take tools.now.layout.count bench.new.right) (take tools.now.layout.count bench.new.copy) result }
    ensures rest { drop result.at tools.now.nodes.now ≡ (side_at tools.now.layout (drop place.at tools.now.nodes.now)).rest }
    ensures at { result.at ≤ length tools.now.nodes.now }
{
    let n = tools.layout.count;
    let made = side_in(
        &mut bench.left,
        &mut bench.scratch,
        tools,
        source,
        whole_wish(tools.layout, fill),
        place,
    );
    clear(&mut bench.right, n);
    keep_copy(&bench.left, &mut bench.copy, n);
    MadePair {
        left: made.mask,
        right: 0,
        seed: made.seed,
        at: made.at,
    }
}

/// A band of two channels, each by itself.
pub fn apart(
    bench: &mut Bench,
    tools: &Tools<'_>,
    xs: &[i64],
    ys: &[i64],
    fills: Fills,
    place: Place,
) -> MadePair
    requires first { CanTake tools.now.layout xs.now fills.left }
    requires second { CanTake tools.now.layout ys.now fills.right }
    requires at { place.at ≤ length tools.now.nodes.now }
    requires left { IsSide tools.now.layout.count (side_at tools.now.layout (drop place.at tools.now.nodes.now)).side }
    requires right { IsSide tools.now.layout.count (side_at tools.now.layout (side_at tools.now.layout (drop place.at tools.now.nodes.now)).rest).side }
    ensures made { IsPair tools.now.layout (apart_at tools.now.layout (drop place.at tools.now.nodes.now) xs.now ys.now fills place.seed) (take tools.now.layout.count bench.new.left) (take tools.now.layout.count bench.new.right) (take tools.now.layout.count bench.new.copy) result }
    ensures rest { drop result.at tools.now.nodes.now ≡ (side_at tools.now.layout (side_at tools.now.layout (drop place.at tools.now.nodes.now)).rest).rest }
    ensures at { result.at ≤ length tools.now.nodes.now }
{
    let n = tools.layout.count;
    let one = side_in(
        &mut bench.left,
        &mut bench.scratch,
        tools,
        xs,
        whole_wish(tools.layout, fills.left),
        place,
    );
    let place = Place {
        seed: one.seed,
        at: one.at,
    };
    let two = side_in(
        &mut bench.right,
        &mut bench.scratch,
        tools,
        ys,
        whole_wish(tools.layout, fills.right),
        place,
    );
    keep_copy(&bench.left, &mut bench.copy, n);
    MadePair {
        left: one.mask,
        right: two.mask,
        seed: two.seed,
        at: two.at,
    }
}

// Middle and side, in the rooms of the left channel and the right.
fn both(
    bench: &mut Bench,
    tools: &Tools<'_>,
    source: &[i64],
    fill: u32,
    cut: Cut,
    place: Place,
) -> Made
    requires can { CanTake tools.now.layout source.now fill }
    requires angle { IsAngle cut.theta }
    requires at { place.at ≤ length tools.now.nodes.now }
    requires one { IsSide tools.now.layout.count (side_at tools.now.layout (drop place.at tools.now.nodes.now)).side }
    requires two { IsSide tools.now.layout.count (side_at tools.now.layout (side_at tools.now.layout (drop place.at tools.now.nodes.now)).rest).side }
    ensures made { IsBoth tools.now.layout.blocks (both_at tools.now.layout cut (drop place.at tools.now.nodes.now) source.now fill place.seed) (take tools.now.layout.count bench.new.left) (take tools.now.layout.count bench.new.right) result.mask result.seed }
    ensures rest { drop result.at tools.now.nodes.now ≡ (side_at tools.now.layout (side_at tools.now.layout (drop place.at tools.now.nodes.now)).rest).rest }
    ensures at { result.at ≤ length tools.now.nodes.now }
{
    let middle = mid_wish(tools.layout, fill, cut);
    let other = side_wish(tools.layout, fill, cut);
    let left = &mut bench.left;
    let right = &mut bench.right;
    let scratch = &mut bench.scratch;
    if cut.second_first {
        let one = side_in(right, scratch, tools, &[], other, place);
        let place = Place {
            seed: one.seed,
            at: one.at,
        };
        let two = side_in(left, scratch, tools, source, middle, place);
        return Made {
            mask: two.mask | one.mask,
            seed: two.seed,
            at: two.at,
        };
    }
    let one = side_in(left, scratch, tools, source, middle, place);
    let place = Place {
        seed: one.seed,
        at: one.at,
    };
    let two = side_in(right, scratch, tools, &[], other, place);
    Made {
        mask: one.mask | two.mask,
        seed: two.seed,
        at: two.at,
    }
}

// The middle's weight.
pub fn middle_of(cut: Cut) -> i64
    requires { IsAngle cut.theta }
    ensures value { result ≡ mid_of cut.theta }
    ensures low { pos 0 ≤ℤ result }
    ensures high { result ≤ℤ pos 32767 }
{
    mid_of(cut.theta)
}

// Turns each number round.
fn negate(z: &mut [i64])
    requires { All (λ v. unsigned_abs v < 2 ^ 40) z.old }
    ensures { z.new ≡ map neg_ℤ z.old }
{
    for i in 0..z.len() {
        z[i] = -z[i];
    }
}

// Turns the right channel round where that was asked for.
pub fn invert(z: &mut [i64], turned: bool)
    requires { All (λ v. unsigned_abs v < 2 ^ 40) z.old }
    ensures { z.new ≡ inverted turned z.old }
{
    if turned {
        negate(z);
    }
}

// The same with the first items of a longer list.
pub fn invert_in(z: &mut [i64], n: usize, turned: bool)
    requires room { n ≤ length z.old }
    requires size { All (λ v. unsigned_abs v < 2 ^ 20) (take n z.old) }
    ensures { take n z.new ≡ inverted turned (take n z.old) }
{
    let (here, _) = z.split_at_mut(n);
    invert(here, turned);
}

// Writes 0 to the first items.
fn clear(x: &mut [i64], n: usize)
    requires { n ≤ length x.old }
    ensures { take n x.new ≡ replicate n (pos 0) }
{
    let (here, _) = x.split_at_mut(n);
    here.fill(0);
}

// Copies the first items.
fn keep_copy(x: &[i64], out: &mut [i64], n: usize)
    requires from { n ≤ length x.now }
    requires room { n ≤ length out.old }
    ensures { take n out.new ≡ take n x.now }
{
    let (here, _) = out.split_at_mut(n);
    let (items, _) = x.split_at(n);
    here.copy_from_slice(items);
}

// Left and right of middle and side, in the first items of two lists.
fn merge_in(x: &mut [i64], y: &mut [i64], n: usize, cut: Cut)
    requires count { n ≤ 176 }
    requires first { n ≤ length x.old }
    requires second { n ≤ length y.old }
    requires angle { IsAngle cut.theta }
    requires middle { All (λ v. unsigned_abs v < 2 ^ 19) (take n x.old) }
    requires side { All (λ v. unsigned_abs v < 2 ^ 19) (take n y.old) }
    ensures left { take n x.new ≡ merged (mid_of cut.theta) false (take n x.old) (take n y.old) }
    ensures right { take n y.new ≡ merged (mid_of cut.theta) true (take n x.old) (take n y.old) }
    ensures low { pos 0 ≤ℤ mid_of cut.theta }
    ensures high { mid_of cut.theta ≤ℤ pos 32767 }
{
    let (left, _) = x.split_at_mut(n);
    let (right, _) = y.split_at_mut(n);
    merge(left, right, middle_of(cut));
}

/// A stereo band of more than two coefficients: left and right from middle and side.
pub fn mid_side(
    bench: &mut Bench,
    tools: &Tools<'_>,
    source: &[i64],
    fill: u32,
    place: Place,
) -> MadePair
    requires can { CanTake tools.now.layout source.now fill }
    requires at { place.at ≤ length tools.now.nodes.now }
    requires angle { IsAngle (cut_in (front (drop place.at tools.now.nodes.now))).theta }
    requires one { IsSide tools.now.layout.count (side_at tools.now.layout (drop 1 (drop place.at tools.now.nodes.now))).side }
    requires two { IsSide tools.now.layout.count (side_at tools.now.layout (side_at tools.now.layout (drop 1 (drop place.at tools.now.nodes.now))).rest).side }
    ensures made { IsPair tools.now.layout (merged_pair (cut_in (front (drop place.at tools.now.nodes.now))).theta (turned_in (front (drop place.at tools.now.nodes.now)) && tools.now.invert) (both_at tools.now.layout (cut_in (front (drop place.at tools.now.nodes.now))) (drop 1 (drop place.at tools.now.nodes.now)) source.now fill place.seed)) (take tools.now.layout.count bench.new.left) (take tools.now.layout.count bench.new.right) (take tools.now.layout.count bench.new.copy) result }
    ensures rest { drop result.at tools.now.nodes.now ≡ (side_at tools.now.layout (side_at tools.now.layout (drop 1 (drop place.at tools.now.nodes.now))).rest).rest }
    ensures at { result.at ≤ length tools.now.nodes.now }
{
    let n = tools.layout.count;
    let node = node_at(tools.nodes, place.at);
    let cut = cut_in(node);
    let place = Place {
        seed: place.seed,
        at: next_place(tools.nodes, place.at),
    };
    let made = both(bench, tools, source, fill, cut, place);
    keep_copy(&bench.left, &mut bench.copy, n);
    merge_in(&mut bench.left, &mut bench.right, n, cut);
    invert_in(&mut bench.right, n, turned_in(node) & tools.invert);
    MadePair {
        left: made.mask,
        right: made.mask,
        seed: made.seed,
        at: made.at,
    }
}

/// A band: one channel, two by themselves, or left and right from middle and side.
pub fn pair(
    bench: &mut Bench,
    tools: &Tools<'_>,
    xs: &[i64],
    ys: &[i64],
    fills: Fills,
    place: Place,
) -> MadePair
    requires first { CanTake tools.now.layout xs.now fills.left }
    requires second { CanTake tools.now.layout ys.now fills.right }
    requires at { place.at ≤ length tools.now.nodes.now }
    requires form { IsForm tools.now.layout.count (form_in tools.now.layout (drop place.at tools.now.nodes.now)).form }
    ensures made { IsPair tools.now.layout (pair_shape tools.now.layout tools.now.invert xs.now ys.now fills (form_in tools.now.layout (drop place.at tools.now.nodes.now)).form place.seed) (take tools.now.layout.count bench.new.left) (take tools.now.layout.count bench.new.right) (take tools.now.layout.count bench.new.copy) result }
    ensures rest { drop result.at tools.now.nodes.now ≡ (form_in tools.now.layout (drop place.at tools.now.nodes.now)).rest }
    ensures at { result.at ≤ length tools.now.nodes.now }
{
    let layout = tools.layout;
    if layout.two {
        return apart(bench, tools, xs, ys, fills, place);
    }
    let fill = fills.left | fills.right;
    if layout.channels != 2 {
        return single(bench, tools, xs, fill, place);
    }
    if layout.count == 2 {
        return duo(bench, tools, xs, fill, place);
    }
    mid_side(bench, tools, xs, fill, place)
}
