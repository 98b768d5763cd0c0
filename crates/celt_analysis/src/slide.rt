//! A sum of squares that slides over samples: one step takes one square in and another out.
ghost use Rattle.std.specs.Prelude.{◌≡◌, ℕ, ◌+◌, ◌-◌, ◌*◌, ◌^◌, ◌<◌, ◌≤◌, All, ℤ, pos, unsigned_abs, length};
ghost use Rattle.fixed_math.specs.Items.{item};
ghost use Rattle.celt_analysis.specs.Sums.{energy};

use crate::sums::{energy_from, square};

/// The energy of some samples in a row: the sum of their squares.
#[derive(Clone, Copy, Debug)]
pub struct Slide {
    // the place of the first sample, and how many there are
    at: usize,
    count: usize,
    sum: u64,
}

impl Slide {
    /// The energy of the `n` items of `d` from place `at` on. Their sizes are below 2^16, and `n` is at most 960.
    pub fn new(d: &[i64], at: usize, n: usize) -> Slide
        requires items { All (λ x. unsigned_abs x < 2 ^ 16) d.now }
        requires count { n ≤ 960 }
        requires within { at + n ≤ length d.now }
        ensures at { result.at ≡ at }
        ensures count { result.count ≡ n }
        ensures sum { result.sum ≡ energy (item d.now) at n }
    {
        Slide {
            at,
            count: n,
            sum: energy_from(d, at, n),
        }
    }

    /// The energy, in units of a squared sample.
    pub fn value(&self) -> i128
        ensures { result ≡ pos self.now.sum }
    {
        self.sum as i128
    }

    // The same in 64 bits.
    pub(crate) fn sum(&self) -> u64
        ensures { result ≡ self.now.sum }
    {
        self.sum
    }

    /// Goes one place down. The number is the energy of this `d`'s items, before and after; there is a place below.
    pub fn back(&mut self, d: &[i64])
        requires items { All (λ x. unsigned_abs x < 2 ^ 16) d.now }
        requires low { 1 ≤ self.old.at }
        requires count { self.old.count ≤ 960 }
        requires within { self.old.at + self.old.count ≤ length d.now }
        requires sum { self.old.sum ≡ energy (item d.now) self.old.at self.old.count }
        ensures at { self.new.at ≡ self.old.at - 1 }
        ensures count { self.new.count ≡ self.old.count }
        ensures sum { self.new.sum ≡ energy (item d.now) self.new.at self.new.count }
    {
        let at = self.at - 1;
        self.sum = self.sum + square(d[at]) - square(d[at + self.count]);
        self.at = at;
    }
}
