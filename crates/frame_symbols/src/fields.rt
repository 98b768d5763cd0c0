//! What the questions of a frame came to.
ghost use Rattle.std.specs.Prelude.{◌≡◌, true, false};
ghost use Rattle.frame_symbols.specs.Blanks.{IsBlank, AreNoBands, no_energy, no_allocation};

use crate::opening::PostFilter;
use band_energy::Energy;
use band_plan::{BandSettings, BandSymbols};
use celt_base::state::Allocation;

/// The first answers of a frame.
#[derive(Clone, Copy)]
pub struct Opening {
    pub post_filter: PostFilter,
    /// The frame has short blocks.
    pub transient: bool,
    /// The coarse energies are coded without the frame before.
    pub intra: bool,
}

/// The answers before the allocation.
#[derive(Clone, Copy)]
pub struct Shaping {
    pub settings: BandSettings,
    /// For each band, its boost in eighths of a bit.
    pub boosts: [i32; 21],
    /// The trim of the allocation, 0 to 10.
    pub trim: u32,
}

/// The allocation, and the eighths of a bit that are kept for the filling of collapsed blocks.
#[derive(Clone, Copy)]
pub struct Amounts {
    pub allocation: Allocation,
    pub reserve: u32,
}

/// What is settled before the fine energies.
#[derive(Clone, Copy)]
pub struct Settled {
    pub shaping: Shaping,
    pub amounts: Amounts,
}

/// What the questions of a frame came to.
#[derive(Drop)]
pub struct Fields {
    pub silent: bool,
    pub opening: Opening,
    pub energy: Energy,
    pub allocation: Allocation,
    pub bands: BandSymbols,
    /// Collapsed blocks are filled.
    pub collapse: bool,
}

fn no_energy() -> Energy
    ensures { result ≡ no_energy }
{
    Energy {
        coarse: [[0; 21]; 2],
        fine: [[0; 21]; 2],
        last: [[None; 21]; 2],
    }
}

fn no_allocation() -> Allocation
    ensures { result ≡ no_allocation }
{
    Allocation {
        coded: 0,
        intensity: 0,
        dual: false,
        balance: 0,
        pulses: [0; 21],
        fine: [0; 21],
        priority: [false; 21],
    }
}

impl Fields {
    /// Of no frame.
    pub fn new() -> Fields
        ensures silent { result.silent ≡ false }
        ensures blank { IsBlank result }
    {
        Fields {
            silent: false,
            opening: Opening {
                post_filter: PostFilter::off(),
                transient: false,
                intra: false,
            },
            energy: no_energy(),
            allocation: no_allocation(),
            bands: BandSymbols::new(),
            collapse: false,
        }
    }

    /// Of a silent frame. Each field is cleared in its place, since the nodes of the bands are many.
    pub fn silence(&mut self)
        ensures silent { self.new.silent ≡ true }
        ensures blank { IsBlank self.new }
    {
        self.silent = true;
        self.opening = Opening {
            post_filter: PostFilter::off(),
            transient: false,
            intra: false,
        };
        self.energy = no_energy();
        self.allocation = no_allocation();
        self.collapse = false;
        clear_bands(&mut self.bands);
    }
}

// Leaves the symbols of no band.
fn clear_bands(bands: &mut BandSymbols)
    ensures { AreNoBands bands.new }
{
    bands.settings = BandSettings {
        transient: false,
        spread: 0,
        tf: [0; 21],
    };
    bands.coded = 0;
    bands.intensity = 0;
    bands.dual = false;
    bands.amounts = [0; 21];
    bands.nodes.clear();
}
