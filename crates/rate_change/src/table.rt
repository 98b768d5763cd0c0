//! The weights of all parts of a sample, and the sample at one of them.
ghost use Rattle.std.specs.Prelude.{◌≡◌, ℕ, ◌+◌, ◌*◌, ◌/◌, ◌%◌, ◌^◌, ◌<◌, ◌≤◌, ℤ, pos, ◌+ℤ◌, List, IfOk, unsigned_abs};
ghost use Rattle.rate_change.specs.Tables.{AreRows};

use crate::ratio::Ratio;
use crate::row::Row;
use crate::sums::{nearest_sample, product, put_rows, rows_room};
use celt_base::status::OutOfMemory;
use fixed_math::Trig;
use std::alloc::Global;

/// The weights of the parts of a sample.
#[derive(Drop)]
pub struct Weights {
    /// How many parts a sample has.
    up: u32,
    /// Of each part but 0.
    rows: Vec<Row>,
    ghost few: { up ≤ 160 },
    ghost are_rows: { AreRows up rows.items },
}

impl Weights {
    ghost use Rattle.rate_change.specs.Parts.{parts_of};
    ghost use Rattle.rate_change.specs.Resampling.{between, in_window, output_at, IsWindow};

    /// Makes the weights for a ratio.
    pub fn new(alloc: Global, r: Ratio, trig: &Trig) -> Result<Weights, OutOfMemory>
        ensures { IfOk result (λ weights. parts_of weights ≡ r.up) }
    {
        let mut rows = rows_room(alloc, r.up)?;
        put_rows(trig, r.up, &mut rows);
        Ok(Weights { up: r.up, rows })
    }

    /// The sample part `f` behind a sample, from the window of the 32 samples around that one: from 15 places before it
    /// to 16 behind. In part 0 it is that sample.
    pub fn output(&self, window: &[i16; 32], f: u32) -> i16
        requires { f < parts_of self.now }
        ensures value { result ≡ between (parts_of self.now) f (in_window window.now) }
        ensures sample { (down k : ℕ) (input : List ℤ) → f ≡ k * down % parts_of self.now → IsWindow input (k * down / parts_of self.now) window.now →
            result ≡ output_at (parts_of self.now) down input k }
    {
        if f == 0 {
            return window[15];
        }
        let row = &self.rows[(f - 1) as usize];
        nearest_sample(product(row, window), row.divisor)
    }
}
