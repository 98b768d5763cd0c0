//! All bands of a frame, into the room that keeps them.
ghost use Rattle.std.specs.Prelude.{◌≡◌, ◌+◌, ◌-◌, ◌*◌, ◌^◌, ◌<◌, ◌≤◌, ℤ, pos, unsigned_abs, length, take, All, [], ◌∷◌, vec_capacity};
ghost use Rattle.band_plan.specs.Shapes.{HasTrees};
ghost use Rattle.band_shapes.specs.Frames.{padded, shapes_of, symbols_of};
ghost use Rattle.band_shapes.specs.Rooms.{vector_of};

use crate::bands::{Frame, bands};
use crate::plans::start_of;
use crate::room::ShapeRoom;
use band_plan::BandSymbols;
use celt_base::kind::Kind;
use fixed_math::Trig;

// Writes 0 behind the first `end` items.
fn pad(line: &mut [i64], end: usize, size: usize)
    requires end { end ≤ size }
    requires size { size ≤ length line.old }
    ensures { take size line.new ≡ padded size (take end line.old) }
{
    let (_, behind) = line.split_at_mut(end);
    behind.fill(0);
}

// Keeps these items alone.
fn hold(out: &mut Vec<i64>, items: &[i64])
    requires size { length items.now ≤ 800 }
    requires room { 800 ≤ vec_capacity out.old }
    ensures value { out.new.items ≡ items.now }
    ensures room { 800 ≤ vec_capacity out.new }
{
    out.clear();
    out.extend_from_slice(items).unwrap();
}

// Keeps the first `end` items of a line, and zeros behind them up to `size`.
fn keep(out: &mut Vec<i64>, line: &mut [i64], end: usize, size: usize)
    requires end { end ≤ size }
    requires size { size ≤ 800 }
    requires line { length line.old ≡ 800 }
    requires room { 800 ≤ vec_capacity out.old }
    ensures value { out.new.items ≡ padded size (take end line.old) }
    ensures count { length out.new.items ≡ size }
    ensures room { 800 ≤ vec_capacity out.new }
{
    pad(line, end, size);
    let (items, _) = line.split_at(size);
    hold(out, items);
}

/// Makes the shapes of a frame (RFC 6716, sections 4.3.4.3 to 4.3.4.5): the vectors of each channel in `room`, which blocks of
/// each band have a shape in `masks`, and the noise's state in `seed`. `s` holds the trees of a frame of this kind, as the walk
/// of its bands leaves it. Where `invert` does not hold an inversion that was answered has no effect. It takes no memory.
pub fn shapes<'a>(
    s: &'a BandSymbols,
    kind: Kind,
    trig: &'a Trig,
    seed: &mut u32,
    invert: bool,
    room: &mut ShapeRoom,
    masks: &mut [[u32; 21]; 2],
)
    requires { HasTrees kind s.now }
    ensures left { vector_of room.new 0 ≡ (shapes_of kind (symbols_of s.now) invert seed.old).left }
    ensures right { vector_of room.new 1 ≡ (shapes_of kind (symbols_of s.now) invert seed.old).right }
    ensures masks { masks.new ≡ (shapes_of kind (symbols_of s.now) invert seed.old).left_masks ∷ (shapes_of kind (symbols_of s.now) invert seed.old).right_masks ∷ [] }
    ensures seed { seed.new ≡ (shapes_of kind (symbols_of s.now) invert seed.old).seed }
    ensures left_count { length (vector_of room.new 0) ≡ 100 * 2 ^ kind.lm }
    ensures right_count { length (vector_of room.new 1) ≡ 100 * 2 ^ kind.lm }
    ensures left_size { All (λ v. unsigned_abs v < 2 ^ 20) (vector_of room.new 0) }
    ensures right_size { All (λ v. unsigned_abs v < 2 ^ 20) (vector_of room.new 1) }
{
    let frame = Frame {
        trig,
        pulses: &room.pulses,
        symbols: s,
        kind,
        invert,
    };
    let walked = bands(&mut room.lines, &mut room.bench, &frame, *seed);
    let end = start_of(kind, u32::from(kind.end));
    let size = start_of(kind, 21);
    keep(&mut room.left, &mut room.lines.left, end, size);
    keep(&mut room.right, &mut room.lines.right, end, size);
    let left = walked.left;
    let right = walked.right;
    masks[0] = left;
    masks[1] = right;
    *seed = walked.seed;
}
