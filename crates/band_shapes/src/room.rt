//! The room in which the shapes of a frame are made, and which keeps them until the next frame.
ghost use Rattle.std.specs.Prelude.{◌≡◌, ◌≤◌, IfOk, vec_capacity};

use crate::bands::Lines;
use crate::pairs::Bench;
use celt_base::status::OutOfMemory;
use pulse_vectors::PulseTable;
use std::alloc::Global;

/// The most items of a frame in one channel.
const MOST: usize = 800;

/// The room in which the shapes of a frame are made. It keeps the vectors of each channel until the next frame.
#[derive(Drop)]
pub struct ShapeRoom {
    pub(crate) pulses: PulseTable,
    pub(crate) lines: Lines,
    pub(crate) bench: Bench,
    pub(crate) left: Vec<i64>,
    pub(crate) right: Vec<i64>,
    ghost left_room: { 800 ≤ vec_capacity left },
    ghost right_room: { 800 ≤ vec_capacity right },
}

// Room for the items of a channel, and for no more.
fn vector_room(alloc: Global) -> Result<Vec<i64>, OutOfMemory>
    ensures { IfOk result (λ items. vec_capacity items ≡ 800) }
{
    match Vec::with_capacity(alloc, MOST) {
        Ok(items) => Ok(items),
        Err(_) => Err(OutOfMemory),
    }
}

impl ShapeRoom {
    ghost use Rattle.std.specs.Prelude.{◌≡◌};
    ghost use Rattle.std.specs.Borrow.{sem};
    ghost use Rattle.band_shapes.specs.Lendings.{LendsShape};
    ghost use Rattle.band_shapes.specs.Rooms.{vector_of};

    /// Takes the memory for all frames to come.
    pub fn new(alloc: Global) -> Result<ShapeRoom, OutOfMemory> {
        let Ok(left) = vector_room(alloc) else {
            return Err(OutOfMemory);
        };
        let Ok(right) = vector_room(alloc) else {
            return Err(OutOfMemory);
        };
        Ok(ShapeRoom {
            pulses: PulseTable::new(),
            lines: Lines::new(),
            bench: Bench::new(),
            left,
            right,
        })
    }

    /// The vectors that `shapes` made last for a channel, 0 or 1: 100 << lm items, band i from item `edge(i) << lm` on, with 0
    /// in the bands from the kind's end on. A frame of one channel leaves zeros in the other.
    pub fn shape(&self, channel: u8) -> &[i64]
        ensures { result.now ≡ vector_of self.now channel }
    {
        if channel == 0 {
            self.left.as_slice()
        } else {
            self.right.as_slice()
        }
    }

    /// The vectors of a channel, 0 or 1, as `shape` gives them, to be written.
    pub fn shape_mut(&mut self, channel: u8) -> &mut [i64]
        ensures* writes_back { sem 𝓛 (LendsShape self.entry channel result) }
        ensures value { result.now ≡ vector_of self.old channel }
    {
        if channel == 0 {
            self.left.as_mut_slice()
        } else {
            self.right.as_mut_slice()
        }
    }
}
