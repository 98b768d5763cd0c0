//! Where a band and its source lie, and which of its blocks have a shape to be copied.
ghost use Rattle.std.specs.Prelude.{◌≡◌, ◌⊎◌, ℕ, ◌+◌, ◌-◌, ◌*◌, ◌/◌, ◌%◌, ◌^◌, ◌<◌, ◌≤◌, ℤ, pos, ◌≤ℤ◌, unsigned_abs, length, take, drop, All, true, int_lt};
ghost use Rattle.band_plan.specs.Plans.{band_of, frame_blocks, is_two};
ghost use Rattle.band_shapes.specs.Channels.{change_of};
ghost use Rattle.band_shapes.specs.Frames.{source_at, start_of, count_of, starts_by, starts_from, last_that, first_that, masks_or, low_of, has_source, fill_at, fill_of, plan_of, layout_of, tf_at, is_own, joins, is_rich, symbols_of};

use crate::change::{Change, change_of};
use crate::node::Layout;
use band_plan::BandSymbols;
use celt_base::kind::Kind;
use celt_tables::{edge, width};

/// Where a band and its source lie.
#[derive(Clone, Copy)]
pub struct Span {
    /// Where the band begins.
    pub start: usize,
    /// How many items it has.
    pub count: usize,
    /// Whether there is a source.
    pub has: bool,
    /// Where it begins.
    pub from: usize,
}

/// What a band takes from those before.
#[derive(Clone, Copy)]
pub struct Plan {
    /// Where it and its source lie.
    pub span: Span,
    /// The band from which sources are taken.
    pub low: u32,
}

/// Where a band begins.
pub fn start_of(kind: Kind, i: u32) -> usize
    requires { i ≤ 21 }
    ensures value { result ≡ start_of kind i }
    ensures most { result ≤ 800 }
{
    (edge(i) as usize) << kind.lm
}

// How many items a band has.
fn count_of(kind: Kind, i: u32) -> usize
    requires { i ≤ 20 }
    ensures value { result ≡ count_of kind i }
    ensures most { result ≤ 176 }
{
    (width(i) as usize) << kind.lm
}

// The last of the bands below `low` that begins at a place or before it.
fn last_by(kind: Kind, place: usize, low: u32) -> u32
    requires { low ≤ 21 }
    ensures value { result ≡ last_that (starts_by kind place) low }
    ensures most { result ≤ low }
{
    for k in (0..low).rev() {
        if start_of(kind, k) <= place {
            return k;
        }
    }
    0
}

// The first of the bands from `low` on that begins at a place or behind it.
fn first_from(kind: Kind, place: usize, low: u32) -> u32
    requires { low ≤ 21 }
    ensures value { result ≡ first_that (starts_from kind place) (21 - low) low }
    ensures least { low ≤ result }
    ensures most { result ≤ 21 }
{
    for k in low..21 {
        if start_of(kind, k) >= place {
            return k;
        }
    }
    21
}

// The masks of `count` bands from `first` on as one.
#[tactic(auto, unfolding(crate::specs::Frames::masks_or))]
fn masks_or(masks: &[u32], first: u32, count: u32) -> u32
    requires bands { length masks.now ≡ 21 }
    requires within { first + count ≤ 21 }
    ensures { result ≡ masks_or masks.now first count }
{
    let mut all = 0;
    for k in 0..count {
        all |= masks[(first + k) as usize];
    }
    all
}

#[tactic(auto, unfolding(crate::specs::Frames::low_of))]
fn low_of(kind: Kind, i: u32, low: u32, update: bool) -> u32
    requires band { i ≤ 20 }
    requires before { low ≤ i }
    ensures value { result ≡ low_of kind i low update }
    ensures most { result ≤ i }
{
    if count_of(kind, i) > start_of(kind, i) {
        return low;
    }
    if update {
        return i;
    }
    if low == 0 {
        return i;
    }
    low
}

#[tactic(auto, unfolding(crate::specs::Frames::has_source))]
fn has_source(layout: Layout, tf: i32, low: u32) -> bool
    ensures { result ≡ has_source layout tf low }
{
    if low == 0 {
        return false;
    }
    if layout.spread != 3 {
        return true;
    }
    if layout.blocks > 1 {
        return true;
    }
    tf < 0
}

// Whether a band has a source.
fn source_stands(s: &BandSymbols, layout: Layout, i: u32, low: u32) -> bool
    requires { i ≤ 20 }
    ensures { result ≡ has_source layout (tf_at (symbols_of s.now) i) low }
{
    has_source(layout, s.settings.tf[i as usize], low)
}

#[tactic(auto, unfolding(crate::specs::Frames::fill_at))]
fn fill_at(kind: Kind, plan: Plan, masks: &[u32]) -> u32
    requires low { plan.low ≤ 21 }
    requires bands { length masks.now ≡ 21 }
    requires from { plan.span.from < 2048 }
    requires count { plan.span.count < 2048 }
    ensures { result ≡ fill_at kind plan masks.now }
{
    let first = last_by(kind, plan.span.from, plan.low);
    let behind = first_from(kind, plan.span.from + plan.span.count, plan.low);
    masks_or(masks, first, behind - first)
}

/// Which blocks of a band's source have a shape; without one all count.
#[tactic(auto, unfolding(crate::specs::Frames::fill_of))]
pub fn fill_of(kind: Kind, blocks: u32, plan: Plan, masks: &[u32]) -> u32
    requires blocks { blocks ≤ 16 }
    requires low { plan.low ≤ 21 }
    requires bands { length masks.now ≡ 21 }
    requires from { plan.span.from < 2048 }
    requires count { plan.span.count < 2048 }
    ensures { result ≡ fill_of kind blocks plan masks.now }
{
    if plan.span.has {
        return fill_at(kind, plan, masks);
    }
    (1 << blocks) - 1
}

/// Where a band and its source lie.
#[tactic(auto, unfolding(crate::specs::Frames::plan_of))]
pub fn plan_for(
    kind: Kind,
    s: &BandSymbols,
    layout: Layout,
    i: u32,
    before: u32,
    update: bool,
) -> Plan
    requires band { i ≤ 20 }
    requires before { before ≤ i }
    ensures value { result ≡ plan_of kind layout (tf_at (symbols_of s.now) i) i (low_of kind i before update) }
    ensures low { result.low ≤ i }
    ensures from { result.span.from ≤ 800 }
    ensures count { result.span.count ≡ layout.count }
{
    let low = low_of(kind, i, before, update);
    let span = Span {
        start: start_of(kind, i),
        count: layout.count,
        has: source_stands(s, layout, i, low),
        from: start_of(kind, low).saturating_sub(layout.count),
    };
    Plan { span, low }
}

/// The source of a band.
pub fn source_of(norm: &[i64], span: Span) -> &[i64]
    requires { span.has ≡ true → span.from + span.count ≤ length norm.now }
    ensures { result.now ≡ source_at span norm.now }
{
    if span.has {
        let (_, behind) = norm.split_at(span.from);
        let (source, _) = behind.split_at(span.count);
        return source;
    }
    let (none, _) = norm.split_at(0);
    none
}

// Whether each channel of a band keeps copies of its own.
#[tactic(auto, unfolding(crate::specs::Frames::is_own))]
fn is_own(s: &BandSymbols, i: u32) -> bool
    ensures { result ≡ is_own (symbols_of s.now) i }
{
    if s.dual { i < s.intensity } else { false }
}

// Whether both channels of a band are coded by themselves.
fn is_two(kind: Kind, s: &BandSymbols, i: u32) -> bool
    requires { i ≤ 20 }
    ensures { result ≡ is_two (band_of kind s.now.settings s.now.intensity i) s.now.dual kind.channels }
{
    if is_own(s, i) {
        return true;
    }
    if kind.channels != 2 {
        return false;
    }
    count_of(kind, i) == 1
}

/// Whether the copies of both channels are joined before a band.
#[tactic(auto, unfolding(crate::specs::Frames::joins))]
pub fn joins(s: &BandSymbols, i: u32) -> bool
    ensures { result ≡ joins (symbols_of s.now) i }
{
    if s.dual { i == s.intensity } else { false }
}

// Whether an amount is more than a bit for an item.
fn is_above(count: usize, amount: i32) -> bool
    requires { count ≤ 176 }
    ensures { result ≡ int_lt (pos (8 * count)) amount }
{
    8 * (count as i32) < amount
}

/// Whether a band has more than a bit for an item.
pub fn is_rich(s: &BandSymbols, i: u32, count: usize) -> bool
    requires band { i ≤ 20 }
    requires count { count ≤ 176 }
    ensures { result ≡ is_rich (symbols_of s.now) i count }
{
    is_above(count, s.amounts[i as usize])
}

// The change of resolution of a band.
fn change_at(s: &BandSymbols, count: usize, blocks: u32, i: u32) -> Change
    requires band { i ≤ 20 }
    requires blocks { (1 ≤ blocks) × (blocks ≤ 16) }
    requires tf { unsigned_abs (tf_at (symbols_of s.now) i) ≤ 3 }
    ensures { result ≡ change_of count blocks (tf_at (symbols_of s.now) i) }
{
    change_of(count, blocks, s.settings.tf[i as usize])
}

/// What the channels of a band share.
#[tactic(auto, unfolding(crate::specs::Frames::layout_of))]
pub fn layout_for(kind: Kind, s: &BandSymbols, i: u32) -> Layout
    requires band { i ≤ 20 }
    requires tf { unsigned_abs (tf_at (symbols_of s.now) i) ≤ 3 }
    ensures value { result ≡ layout_of kind (symbols_of s.now) i }
    ensures count { result.count ≤ 176 }
    ensures blocks { result.blocks ≤ 8 }
{
    let count = count_of(kind, i);
    let blocks = band_plan::blocks(kind, s.settings.transient);
    Layout {
        count,
        level: u32::from(kind.lm) + 1,
        blocks,
        spread: s.settings.spread,
        change: change_at(s, count, blocks, i),
        two: is_two(kind, s, i),
        channels: kind.channels,
        own: is_own(s, i),
    }
}
