//! The shape of a channel of a band.
ghost use Rattle.std.specs.Prelude.{◌≡◌, ◌⊎◌, ℕ, ◌+◌, ◌-◌, ◌*◌, ◌/◌, ◌%◌, ◌^◌, ◌<◌, ◌≤◌, ℤ, pos, ◌≤ℤ◌, unsigned_abs, length, drop, All};
ghost use Rattle.band_shapes.specs.Channels.{haar_up, haar_down, fill_in, mask_back, source_in, turned_in, turned_back, vector_back, shape_back, after_change, changed_wish, channel_by, copied, grown, IsChange, IsChannel};
ghost use Rattle.band_shapes.specs.Parts.{part_shape, IsMade, CanMake};
ghost use Rattle.band_shapes.specs.Tree.{read_part, IsPart};

use crate::change::{Change, fill_in, haar_down, haar_up, mask_back};
use crate::node::{Branch, Made, Place, Tools, Wish};
use crate::parts::{part, silent_in};
use tf_change::{order, unorder};

/// Rooms in which the parts of a channel are made. What they hold is of no use afterwards.
#[derive(Drop)]
pub struct Rooms {
    turned: [i64; 176],
    pulses: [i32; 176],
}

/// Rooms in which a channel is made. What they hold is of no use afterwards.
#[derive(Drop)]
pub struct Scratch {
    rooms: Rooms,
    changed: [i64; 176],
}

impl Scratch {
    pub fn new() -> Scratch {
        Scratch {
            rooms: Rooms {
                turned: [0; 176],
                pulses: [0; 176],
            },
            changed: [0; 176],
        }
    }
}

// The steps of a change on a source.
fn steps_in(x: &mut [i64], blocks: u32, change: Change)
    requires count { length x.old ≤ 176 }
    requires change { IsChange (length x.old) blocks change }
    requires items { All (λ v. unsigned_abs v ≤ 2 ^ 19) x.old }
    ensures { x.new ≡ haar_up blocks change.down (haar_up 1 change.up x.old) }
{
    let n = x.len();
    haar_up(x, n, 1, change.up);
    haar_up(x, n / blocks as usize, blocks, change.down);
}

// The steps back.
fn steps_back(x: &mut [i64], blocks: u32, change: Change)
    requires count { length x.old ≤ 176 }
    requires change { IsChange (length x.old) blocks change }
    requires items { All (λ v. unsigned_abs v ≤ 2 ^ 17) x.old }
    ensures { x.new ≡ haar_up 1 change.up (haar_down blocks change.down x.old) }
{
    let n = x.len();
    haar_down(x, n / blocks as usize, blocks, change.down);
    haar_up(x, n, 1, change.up);
}

/// The source of a channel's parts.
pub fn source_in(source: &[i64], t: &mut [i64], out: &mut [i64], blocks: u32, change: Change)
    requires count { length source.now ≤ 176 }
    requires room { length t.old ≡ length source.now }
    requires out { length out.old ≡ length source.now }
    requires change { IsChange (length source.now) blocks change }
    requires items { All (λ v. unsigned_abs v ≤ 2 ^ 19) source.now }
    ensures { out.new ≡ source_in blocks change source.now }
{
    if change.blocks > 1 {
        t.copy_from_slice(source);
        steps_in(t, blocks, change);
        order(
            t,
            out,
            source.len() / change.stride as usize,
            change.stride as usize,
            blocks == 1,
        );
        return;
    }
    out.copy_from_slice(source);
    steps_in(out, blocks, change);
}

// The parts, in the order of the band's vector.
fn parts_back(
    x: &mut [i64],
    rooms: &mut Rooms,
    tools: &Tools<'_>,
    source: &[i64],
    wish: Wish,
    place: Place,
) -> Made
    requires change { IsChange (length x.old) wish.blocks tools.now.layout.change }
    requires fits { CanMake (length x.old) source.now (changed_wish wish.blocks tools.now.layout.change wish) }
    requires spread { tools.now.layout.spread ≤ 3 }
    requires level { tools.now.layout.level ≤ 4 }
    requires fill { wish.fill < 2 ^ wish.blocks }
    requires at { place.at ≤ length tools.now.nodes.now }
    requires tree { IsPart (length x.old) (read_part tools.now.layout.level (drop place.at tools.now.nodes.now)).part }
    ensures made { IsMade tools.now.layout.change.blocks (shape_back wish.blocks tools.now.layout.change (part_shape tools.now.layout.spread (length x.old) (read_part tools.now.layout.level (drop place.at tools.now.nodes.now)).part source.now (changed_wish wish.blocks tools.now.layout.change wish) place.seed)) x.new result.mask result.seed }
    ensures rest { drop result.at tools.now.nodes.now ≡ (read_part tools.now.layout.level (drop place.at tools.now.nodes.now)).rest }
    ensures at { result.at ≤ length tools.now.nodes.now }
{
    let n = x.len();
    let change = tools.layout.change;
    let branch = Branch {
        wish: Wish {
            fill: fill_in(n, wish.blocks, change, wish.fill),
            gain: wish.gain,
            blocks: change.blocks,
        },
        level: tools.layout.level,
    };
    let (pulses, _) = rooms.pulses.split_at_mut(n);
    if change.blocks > 1 {
        let (turned, _) = rooms.turned.split_at_mut(n);
        let made = part(turned, pulses, tools, source, branch, place);
        unorder(
            turned,
            x,
            n / change.stride as usize,
            change.stride as usize,
            wish.blocks == 1,
        );
        return made;
    }
    part(x, pulses, tools, source, branch, place)
}

// A channel from its changed source.
fn channel_from(
    x: &mut [i64],
    rooms: &mut Rooms,
    tools: &Tools<'_>,
    source: &[i64],
    wish: Wish,
    place: Place,
) -> Made
    requires change { IsChange (length x.old) wish.blocks tools.now.layout.change }
    requires fits { CanMake (length x.old) source.now (changed_wish wish.blocks tools.now.layout.change wish) }
    requires spread { tools.now.layout.spread ≤ 3 }
    requires level { tools.now.layout.level ≤ 4 }
    requires fill { wish.fill < 2 ^ wish.blocks }
    requires at { place.at ≤ length tools.now.nodes.now }
    requires tree { IsPart (length x.old) (read_part tools.now.layout.level (drop place.at tools.now.nodes.now)).part }
    ensures made { IsChannel wish.blocks (after_change wish.blocks tools.now.layout.change (part_shape tools.now.layout.spread (length x.old) (read_part tools.now.layout.level (drop place.at tools.now.nodes.now)).part source.now (changed_wish wish.blocks tools.now.layout.change wish) place.seed)) x.new result.mask result.seed }
    ensures rest { drop result.at tools.now.nodes.now ≡ (read_part tools.now.layout.level (drop place.at tools.now.nodes.now)).rest }
    ensures at { result.at ≤ length tools.now.nodes.now }
{
    let change = tools.layout.change;
    let made = parts_back(x, rooms, tools, source, wish, place);
    steps_back(x, wish.blocks, change);
    Made {
        mask: mask_back(x.len(), wish.blocks, change, made.mask),
        seed: made.seed,
        at: made.at,
    }
}

/// A channel of two or more coefficients. The source is empty where there is none.
pub fn channel(
    x: &mut [i64],
    scratch: &mut Scratch,
    tools: &Tools<'_>,
    source: &[i64],
    wish: Wish,
    place: Place,
) -> Made
    requires change { IsChange (length x.old) wish.blocks tools.now.layout.change }
    requires fits { CanMake (length x.old) source.now wish }
    requires items { All (λ v. unsigned_abs v ≤ 2 ^ 19) source.now }
    requires spread { tools.now.layout.spread ≤ 3 }
    requires level { tools.now.layout.level ≤ 4 }
    requires fill { wish.fill < 2 ^ wish.blocks }
    requires at { place.at ≤ length tools.now.nodes.now }
    requires tree { IsPart (length x.old) (read_part tools.now.layout.level (drop place.at tools.now.nodes.now)).part }
    ensures made { IsChannel wish.blocks (channel_by tools.now.layout.spread (length x.old) (read_part tools.now.layout.level (drop place.at tools.now.nodes.now)).part source.now wish tools.now.layout.change place.seed) x.new result.mask result.seed }
    ensures rest { drop result.at tools.now.nodes.now ≡ (read_part tools.now.layout.level (drop place.at tools.now.nodes.now)).rest }
    ensures at { result.at ≤ length tools.now.nodes.now }
{
    if source.is_empty() {
        return channel_from(x, &mut scratch.rooms, tools, source, wish, place);
    }
    let seen = silent_in(tools.nodes, place.at, tools.layout.level);
    if seen.silent {
        let n = x.len();
        let (turned, _) = scratch.rooms.turned.split_at_mut(n);
        let (changed, _) = scratch.changed.split_at_mut(n);
        source_in(source, turned, changed, wish.blocks, tools.layout.change);
        return channel_from(x, &mut scratch.rooms, tools, changed, wish, place);
    }
    channel_from(x, &mut scratch.rooms, tools, &[], wish, place)
}
