//! The symbols of a frame: what its questions came to, and the list of its questions with their answers.
ghost use Rattle.std.specs.Prelude.{◌≡◌, ◌*◌, ◌≤◌, [], IfOk, vec_capacity};
ghost use Rattle.frame_symbols.specs.Openings.{IsPostFilter};

use crate::fields::Fields;
use crate::opening::PostFilter;
use crate::recorder::Answer;
use band_energy::Energy;
use band_plan::BandSymbols;
use celt_base::kind::Kind;
use celt_base::state::{Allocation, Setting};
use celt_base::status::OutOfMemory;
use std::alloc::Global;

/// The symbols of a frame, in the order in which the frame has them. Each but the kind is a function of the kind, the
/// frame's number of bytes and its answers.
#[derive(Drop)]
pub struct Symbols {
    pub(crate) list: Vec<Answer>,
    pub(crate) kind: Option<Kind>,
    pub(crate) fields: Fields,
    pub(crate) range: u32,
    pub(crate) tell: u32,
    ghost room: { 4096 ≤ vec_capacity list },
    ghost post_filter: { IsPostFilter fields.opening.post_filter },
}

fn setting_of(post_filter: PostFilter) -> Setting
    requires { IsPostFilter post_filter }
    ensures period { result.period ≡ post_filter.period }
    ensures gain { result.gain ≡ post_filter.gain }
    ensures tapset { result.tapset ≡ post_filter.tapset }
{
    Setting {
        period: post_filter.period,
        gain: post_filter.gain,
        tapset: post_filter.tapset,
    }
}

// Room for the answers of a frame, and for no more.
fn answers_room(alloc: Global) -> Result<Vec<Answer>, OutOfMemory>
    ensures empty { IfOk result (λ list. list.items ≡ []) }
    ensures reserved { IfOk result (λ list. vec_capacity list ≡ 4096) }
{
    match Vec::with_capacity(alloc, 4096) {
        Ok(list) => Ok(list),
        Err(_) => Err(OutOfMemory),
    }
}

impl Symbols {
    ghost use Rattle.std.specs.Prelude.{◌≡◌, ◌*◌, ◌≤◌, IfOk};
    ghost use Rattle.frame_symbols.specs.HeldSymbols.{AreNew};

    /// Symbols of no frame. They have room for 4096 answers, which is lent to each frame that they are filled with.
    pub fn new(alloc: Global) -> Result<Symbols, OutOfMemory>
        ensures { IfOk result AreNew }
    {
        let Ok(list) = answers_room(alloc) else {
            return Err(OutOfMemory);
        };
        Ok(Symbols {
            list,
            kind: None,
            fields: Fields::new(),
            range: 0,
            tell: 0,
        })
    }

    /// The questions of the frame with their answers.
    pub fn answers(&self) -> &[Answer]
        ensures { result.now ≡ self.now.list.items }
    {
        self.list.as_slice()
    }

    /// The kind of the frame; None where the value is new.
    pub fn kind(&self) -> Option<Kind>
        ensures { result ≡ self.now.kind }
    {
        self.kind
    }

    /// The frame is silent.
    pub fn silent(&self) -> bool
        ensures { result ≡ self.now.fields.silent }
    {
        self.fields.silent
    }

    /// The width of the interval at the frame's end, which an encoder and its decoder share; 0 where the value is new.
    pub fn range(&self) -> u32
        ensures { result ≡ self.now.range }
    {
        self.range
    }

    /// How many bits the questions took, rounded up; 0 where the value is new.
    pub fn tell(&self) -> u32
        ensures { result ≡ self.now.tell }
    {
        self.tell
    }

    /// The frame has short blocks.
    pub fn transient(&self) -> bool
        ensures { result ≡ self.now.fields.opening.transient }
    {
        self.fields.opening.transient
    }

    /// The coarse energies are coded without the frame before.
    pub fn intra(&self) -> bool
        ensures { result ≡ self.now.fields.opening.intra }
    {
        self.fields.opening.intra
    }

    /// The setting of the post-filter.
    pub fn setting(&self) -> Setting
        ensures period { result.period ≡ self.now.fields.opening.post_filter.period }
        ensures gain { result.gain ≡ self.now.fields.opening.post_filter.gain }
        ensures tapset { result.tapset ≡ self.now.fields.opening.post_filter.tapset }
    {
        setting_of(self.fields.opening.post_filter)
    }

    /// The answers of the energies.
    pub fn energy(&self) -> &Energy
        ensures { result.now ≡ self.now.fields.energy }
    {
        &self.fields.energy
    }

    /// How the bits of the frame are spread over its bands.
    pub fn allocation(&self) -> &Allocation
        ensures { result.now ≡ self.now.fields.allocation }
    {
        &self.fields.allocation
    }

    /// What the questions of the bands came to.
    pub fn bands(&self) -> &BandSymbols
        ensures { result.now ≡ self.now.fields.bands }
    {
        &self.fields.bands
    }

    /// Collapsed blocks are filled.
    pub fn collapse(&self) -> bool
        ensures { result ≡ self.now.fields.collapse }
    {
        self.fields.collapse
    }
}
