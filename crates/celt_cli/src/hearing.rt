//! The frames of `gen`: each is made of a window, decoded, and counted.
ghost use Rattle.std.specs.Prelude.{◌≡◌, ℤ, pos, ◌+◌, ◌*◌, ◌^◌, ◌<◌, ◌≤◌, ◌++◌, List, Bool, true, length};
ghost use Rattle.celt_cli.specs.GenSums.{HasTallied};
ghost use Rattle.celt_cli.specs.Makers.{gen_kind};
ghost use Rattle.celt_cli.specs.Hearings.{HasHeard, HeardFrame, new_decoder};

use crate::generator::GenSettings;
use crate::maker::FrameMaker;
use crate::tally::Tally;
use crate::windows::{GenWindows, WINDOW_LEN};
use celt_base::kind::Kind;
use celt_synth::Decoder;
use frame_symbols::Symbols;

/// What is heard of the frames so far.
#[derive(Clone, Copy, Debug, PartialEq, Eq)]
pub struct Heard {
    /// The samples.
    pub tally: Tally,
    /// How many frames were replaced by the silent one.
    pub silent: u32,
    /// The final range of the last frame; 0 before the first.
    pub range: u32,
}

/// The kind of the frames: 960 samples of two channels in the full band.
pub fn kind() -> Kind
    ensures { result ≡ gen_kind }
{
    Kind {
        lm: 3,
        channels: 2,
        end: 21,
    }
}

/// Makes the frame of a window and decodes it.
fn hear_frame<M: FrameMaker>(
    maker: &mut M,
    window: &[i16],
    symbols: &mut Symbols,
    decoder: &mut Decoder,
    heard: Heard,
) -> Heard
    requires window { length window.now ≡ 4210 }
    requires channels { decoder.old.channels ≡ 2 }
    requires few { heard.tally.count < 2 ^ 62 }
    requires some { heard.silent < 2 ^ 31 }
    ensures frame { (s : M.makes.function.State) (before : List ℤ) → M.makes.Shows maker.old s → HasTallied before heard.tally →
        HeardFrame M.makes s before window.now decoder.old heard maker.new decoder.new result }
    ensures channels { decoder.new.channels ≡ 2 }
    ensures few { result.tally.count ≤ heard.tally.count + 1920 }
    ensures some { result.silent ≤ heard.silent + 1 }
{
    let mut bytes = [0u8; 160];
    let mut samples = [0i16; 1920];
    let replaced = maker.frame(window, &mut bytes, symbols);
    decoder.frame(kind(), symbols, 0, &mut samples);
    Heard {
        tally: heard.tally.with(&samples),
        silent: heard.silent + u32::from(replaced),
        range: symbols.range(),
    }
}

/// Makes all frames and decodes them.
pub fn hear_frames<M: FrameMaker>(
    maker: &mut M,
    settings: GenSettings,
    symbols: &mut Symbols,
    decoder: &mut Decoder,
) -> Heard
    requires frames { settings.frames ≤ 10000 }
    requires decoder { decoder.old ≡ new_decoder }
    ensures { M.makes.Shows maker.old M.makes.function.start → HasHeard M.makes settings settings.frames result }
{
    let mut windows = GenWindows::new(settings);
    let mut window = [0; WINDOW_LEN];
    let mut heard = Heard {
        tally: Tally::new(),
        silent: 0,
        range: 0,
    };
    for _ in 0..settings.frames {
        windows.next(&mut window);
        heard = hear_frame(maker, &window, symbols, decoder, heard);
    }
    heard
}
