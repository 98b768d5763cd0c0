//! What the questions of a frame's bands came to (RFC 6716, sections 4.3.4 and 4.4).
ghost use Rattle.std.specs.Prelude.{◌≡◌, [], false, pos, replicate};

use arrayvec::ArrayVec;

/// How the bands of a frame are coded.
#[derive(Clone, Copy, Debug, PartialEq, Eq)]
pub struct BandSettings {
    /// The frame has short blocks.
    pub transient: bool,
    /// The spreading, 0 to 3.
    pub spread: u32,
    /// The time-frequency change of each band: below 0 finer in time, above 0 finer in frequency, by so many halvings.
    pub tf: [i32; 21],
}

/// A node of a band's tree.
#[derive(Clone, Copy, Debug, PartialEq, Eq)]
pub enum Node {
    /// An angle between the two halves of a part, or between mid and side; it stands also where nothing was asked.
    Theta {
        /// The angle, 16384 being a right one.
        theta: i32,
        /// The second of two parts was coded first.
        second_first: bool,
        /// The inversion was answered 1.
        inversion: bool,
    },
    /// A vector of `k` pulses and its rank among those; both are 0 without pulses.
    Leaf {
        k: u32,
        index: u32,
    },
    /// The sign of one coefficient, or of the side of two; false also where nothing was asked.
    Sign {
        negative: bool,
    },
}

impl Default for Node {
    fn default() -> Node {
        Node::Sign { negative: false }
    }
}

/// The answers of all bands of a frame.
#[derive(Drop)]
pub struct BandSymbols {
    /// How the bands are coded.
    pub settings: BandSettings,
    /// How many bands are coded.
    pub coded: u32,
    /// The band from which intensity stereo begins.
    pub intensity: u32,
    /// Whether the bands below that one are coded in dual stereo.
    pub dual: bool,
    /// The eighths of a bit that each band was given, 0 from the kind's end on.
    pub amounts: [i32; 21],
    /// The nodes of all bands in coding order, at most 63 a band.
    pub nodes: ArrayVec<Node, 1344>,
}

impl BandSymbols {
    /// Symbols of no band: zeros, false and no nodes.
    pub fn new() -> BandSymbols
        ensures transient { result.settings.transient ≡ false }
        ensures spread { result.settings.spread ≡ 0 }
        ensures tf { result.settings.tf ≡ replicate 21 (pos 0) }
        ensures coded { result.coded ≡ 0 }
        ensures intensity { result.intensity ≡ 0 }
        ensures dual { result.dual ≡ false }
        ensures amounts { result.amounts ≡ replicate 21 (pos 0) }
        ensures nodes { result.nodes.items ≡ [] }
    {
        BandSymbols {
            settings: BandSettings {
                transient: false,
                spread: 0,
                tf: [0; 21],
            },
            coded: 0,
            intensity: 0,
            dual: false,
            amounts: [0; 21],
            nodes: ArrayVec::new(),
        }
    }
}
