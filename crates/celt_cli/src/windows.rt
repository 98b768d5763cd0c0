//! The windows of the samples of `gen`. A frame is made of the window that ends with its last sample.
ghost use Rattle.std.specs.Prelude.{◌≡◌, ℕ, ◌+◌, ◌*◌, ◌<◌, ◌≤◌, pos, length, replicate};
ghost use Rattle.fixed_math.specs.Items.{item};
ghost use Rattle.celt_cli.specs.GenPairs.{GavePairs, pair_in};

use crate::generator::GenSettings;
use crate::pairs::GenPairs;

/// The pairs of a frame.
const FRAME_PAIRS: usize = 960;

/// The samples of a window, channels interleaved: those of 1145 pairs and of a frame.
pub const WINDOW_LEN: usize = 4210;

/// The samples of a window that are before those of its frame.
const LEAD_LEN: usize = 2290;

/// The windows of the frames, one after the other.
#[derive(Clone, Copy)]
pub struct GenWindows {
    pairs: GenPairs,
    /// The window of the frame before; of none before the first.
    items: [i16; WINDOW_LEN],
}

/// A window of samples of 0.
fn no_items() -> [i16; WINDOW_LEN]
    ensures { result ≡ replicate 4210 (pos 0) }
{
    [0; WINDOW_LEN]
}

/// Writes the next pairs of a frame behind the lead.
fn put_pairs(items: &mut [i16], pairs: &mut GenPairs)
    requires { length items.old ≡ 4210 }
    ensures lead { (place : ℕ) → place < 2290 → item items.new place ≡ item items.old place }
    ensures left { (settings : GenSettings) (count : ℕ) → GavePairs settings count pairs.old →
        (k : ℕ) → k < 960 → item items.new (2290 + 2 * k) ≡ (pair_in settings (count + k)).0 }
    ensures right { (settings : GenSettings) (count : ℕ) → GavePairs settings count pairs.old →
        (k : ℕ) → k < 960 → item items.new (2290 + 2 * k + 1) ≡ (pair_in settings (count + k)).1 }
    ensures gave { (settings : GenSettings) (count : ℕ) → GavePairs settings count pairs.old → GavePairs settings (count + 960) pairs.new }
{
    for k in 0..FRAME_PAIRS {
        let (left, right) = pairs.next();
        items[LEAD_LEN + 2 * k] = left;
        items[LEAD_LEN + 2 * k + 1] = right;
    }
}

/// Moves a window by a frame.
fn slide(items: &mut [i16])
    requires { length items.old ≡ 4210 }
    ensures { (place : ℕ) → place < 2290 → item items.new place ≡ item items.old (place + 1920) }
{
    items.copy_within(2 * FRAME_PAIRS.., 0);
}

impl GenWindows {
    ghost use Rattle.celt_cli.specs.GenSignals.{window_for};
    ghost use Rattle.celt_cli.specs.GenWindows.{GaveWindows};

    /// The windows of the samples that fill so many frames, before the first.
    pub fn new(settings: GenSettings) -> GenWindows
        requires { settings.frames ≤ 10000 }
        ensures { GaveWindows settings 0 result }
    {
        GenWindows {
            pairs: GenPairs::new(settings),
            items: no_items(),
        }
    }

    /// Goes to the window of the next frame, channels interleaved, and copies it.
    pub fn next(&mut self, out: &mut [i16; WINDOW_LEN])
        ensures window { (settings : GenSettings) (count : ℕ) → GaveWindows settings count self.old → out.new ≡ window_for settings count }
        ensures gave { (settings : GenSettings) (count : ℕ) → GaveWindows settings count self.old → GaveWindows settings (count + 1) self.new }
    {
        slide(&mut self.items);
        put_pairs(&mut self.items, &mut self.pairs);
        *out = self.items;
    }
}
