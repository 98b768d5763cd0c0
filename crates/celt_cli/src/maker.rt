//! The making of frames, which `gen` decodes.
ghost use Rattle.std.specs.Prelude.{◌≡◌, ℤ, List, length};
ghost use Rattle.frame_symbols.specs.HeldSymbols.{AreRead};
ghost use Rattle.celt_cli.specs.Makers.{Makers, Made, gen_kind};

use frame_symbols::Symbols;

/// What makes frames of windows of samples, one after the other.
pub trait FrameMaker {
    // What a window means.
    ghost makes: { Makers Self };

    /// Makes the next frame of a window of 2105 pairs, channels interleaved, up to the frame's last pair. The frame
    /// fills the room of 160 bytes, and its answers the symbols. Answers whether it is the silent one in place of
    /// one that did not fit.
    fn frame(&mut self, window: &[i16], room: &mut [u8], symbols: &mut Symbols) -> bool
        requires window { length window.now ≡ 4210 }
        requires room { length room.old ≡ 160 }
        ensures read { AreRead gen_kind room.new symbols.new }
        ensures makes { (s : makes.function.State) → makes.Shows self.old s → Made makes s window.now self.new room.new result };
}
