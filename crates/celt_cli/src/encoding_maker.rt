//! The encoder as a maker of frames.
ghost use Rattle.std.specs.Prelude.{◌≡◌};
ghost use Rattle.celt_cli.specs.Makers.{gen_kind};

use crate::hearing::kind;
use crate::maker::FrameMaker;
use celt_analysis::{Analysis, analyse, pitch};
use celt_base::state::Setting;
use celt_base::status::OutOfMemory;
use celt_encode::Encoder;
use fixed_math::{Exp, Trig};
use frame_symbols::Symbols;
use std::alloc::Global;

/// Encodes frames of windows, one after the other.
#[derive(Drop)]
pub struct EncodingMaker {
    encoder: Encoder,
    analysis: Analysis,
    trig: Trig,
    exp: Exp,
    /// The setting of the post-filter of the frame before the last.
    earlier: Setting,
    /// The setting of the post-filter of the last frame.
    last: Setting,
    ghost of_kind: { encoder.kind ≡ gen_kind },
}

impl EncodingMaker {
    ghost use Rattle.std.specs.Prelude.{IfOk};
    ghost use Rattle.celt_session.specs.EncodedFrames.{first_footing};
    ghost use Rattle.celt_cli.specs.EncodingMakers.{ShowsFooting};

    /// Before the first frame. It alone takes memory.
    pub fn new(alloc: Global) -> Result<EncodingMaker, OutOfMemory>
        ensures { IfOk result (λ maker. ShowsFooting maker first_footing) }
    {
        let Ok(analysis) = Analysis::new(alloc) else {
            return Err(OutOfMemory);
        };
        match Encoder::new(alloc, kind()) {
            Ok(encoder) => Ok(EncodingMaker {
                encoder,
                analysis,
                trig: Trig::new(),
                exp: Exp::new(),
                earlier: Setting::off(),
                last: Setting::off(),
            }),
            Err(_) => Err(OutOfMemory),
        }
    }
}

impl FrameMaker for EncodingMaker {
    ghost use Rattle.celt_cli.specs.EncodingMakers.{encoding_makers};

    ghost makes = { encoding_makers };

    fn frame(&mut self, window: &[i16], room: &mut [u8], symbols: &mut Symbols) -> bool {
        let of = kind();
        let now = pitch(window, of);
        let settings = [self.earlier, self.last, now];
        analyse(
            window,
            of,
            &settings,
            &self.trig,
            &self.exp,
            &mut self.analysis,
        );
        self.encoder.frame(&self.analysis, room, symbols);
        self.earlier = self.last;
        self.last = now;
        self.encoder.fell_back().is_some()
    }
}
