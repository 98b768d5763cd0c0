//! The bands of a frame, one after the other.
ghost use Rattle.std.specs.Prelude.{◌≡◌, ◌⊎◌, ℕ, ◌+◌, ◌-◌, ◌*◌, ◌/◌, ◌%◌, ◌^◌, ◌<◌, ◌≤◌, ℤ, pos, ◌≤ℤ◌, ◌+ℤ◌, unsigned_abs, length, take, drop, ◌++◌, All, true, false, replicate};
ghost use Rattle.std.specs.Int.{int_shr};
ghost use Rattle.band_plan.specs.Shapes.{HasTrees};
ghost use Rattle.band_shapes.specs.Bands.{pair_shape, form_in};
ghost use Rattle.band_shapes.specs.Channels.{copied};
ghost use Rattle.band_shapes.specs.Forms.{IsForm};
ghost use Rattle.band_shapes.specs.Frames.{source_at, means, norm_joined, right_copy, start_of, count_of, layout_of, tf_at, band_more, bands_of, sofar_of, CanBand, IsBandMade, IsSound, CanShape, symbols_of};

use crate::copies::copy_shape;
use crate::node::{Fills, MadePair, Place, Tools};
use crate::pairs::{Bench, pair};
use crate::plans::{Span, fill_of, is_rich, joins, layout_for, plan_for, source_of};
use band_plan::BandSymbols;
use celt_base::kind::Kind;
use fixed_math::Trig;
use pulse_vectors::PulseTable;

/// The vectors of a frame and the folded copies, of each channel.
#[derive(Drop)]
pub struct Lines {
    pub left: [i64; 800],
    pub right: [i64; 800],
    pub left_norm: [i64; 800],
    pub right_norm: [i64; 800],
}

impl Lines {
    pub fn new() -> Lines {
        Lines {
            left: [0; 800],
            right: [0; 800],
            left_norm: [0; 800],
            right_norm: [0; 800],
        }
    }
}

/// What goes on from band to band.
#[derive(Clone, Copy)]
pub struct Walked {
    /// Which blocks of each band have a shape, in the left channel.
    pub left: [u32; 21],
    /// And in the right one.
    pub right: [u32; 21],
    /// The noise's state.
    pub seed: u32,
    /// How many nodes were taken.
    pub at: usize,
    /// The band from which sources are taken.
    pub low: u32,
    /// Whether they may begin anew.
    pub update: bool,
}

/// What the bands of a frame share.
#[derive(Drop)]
pub struct Frame<'a> {
    pub trig: &'a Trig,
    pub pulses: &'a PulseTable,
    pub symbols: &'a BandSymbols,
    pub kind: Kind,
    pub invert: bool,
}

// The mean of two numbers.
fn mean(x: i64, y: i64) -> i64
    requires x { unsigned_abs x ≤ 2 ^ 19 }
    requires y { unsigned_abs y ≤ 2 ^ 19 }
    ensures value { result ≡ int_shr (x +ℤ y) 1 }
    ensures size { unsigned_abs result ≤ 2 ^ 19 }
{
    (x + y) >> 1
}

// The first copies of the left channel become the mean of both, where that was asked for.
fn join_norms(left: &mut [i64], right: &[i64], count: usize, now: bool)
    requires left { count ≤ length left.old }
    requires right { count ≤ length right.now }
    requires left_size { All (λ v. unsigned_abs v ≤ 2 ^ 19) (take count left.old) }
    requires right_size { All (λ v. unsigned_abs v ≤ 2 ^ 19) (take count right.now) }
    ensures value { take count left.new ≡ norm_joined now (take count left.old) (take count right.now) }
    ensures size { All (λ v. unsigned_abs v ≤ 2 ^ 19) (take count left.new) }
{
    if now {
        let (here, _) = left.split_at_mut(count);
        let (other, _) = right.split_at(count);
        mean_of(here, other);
    }
}

// The mean of each two items.
fn mean_of(left: &mut [i64], right: &[i64])
    requires lengths { length left.old ≡ length right.now }
    requires left { All (λ v. unsigned_abs v ≤ 2 ^ 19) left.old }
    requires right { All (λ v. unsigned_abs v ≤ 2 ^ 19) right.now }
    ensures value { left.new ≡ means left.old right.now }
    ensures size { All (λ v. unsigned_abs v ≤ 2 ^ 19) left.new }
{
    for i in 0..left.len() {
        left[i] = mean(left[i], right[i]);
    }
}

// Writes a band's items where it begins.
fn put(line: &mut [i64], span: Span, items: &[i64])
    requires within { span.start + span.count ≤ length line.old }
    requires items { span.count ≤ length items.now }
    ensures { take (span.start + span.count) line.new ≡ take span.start line.old ++ take span.count items.now }
{
    let (_, behind) = line.split_at_mut(span.start);
    let (here, _) = behind.split_at_mut(span.count);
    let (items, _) = items.split_at(span.count);
    here.copy_from_slice(items);
}

// Writes the copies of a band's items.
fn put_copy(norm: &mut [i64], span: Span, items: &[i64])
    requires within { span.start + span.count ≤ length norm.old }
    requires count { span.count ≤ 176 }
    requires items { span.count ≤ length items.now }
    requires size { All (λ v. unsigned_abs v < 2 ^ 19) (take span.count items.now) }
    ensures value { take (span.start + span.count) norm.new ≡ take span.start norm.old ++ copied (take span.count items.now) }
    ensures size { All (λ v. unsigned_abs v ≤ 2 ^ 19) (copied (take span.count items.now)) }
{
    let (_, behind) = norm.split_at_mut(span.start);
    let (here, _) = behind.split_at_mut(span.count);
    let (items, _) = items.split_at(span.count);
    copy_shape(items, here);
}

// Writes the copies of the right channel: zeros where it keeps none of its own.
fn put_right_copy(norm: &mut [i64], span: Span, own: bool, items: &[i64])
    requires within { span.start + span.count ≤ length norm.old }
    requires count { span.count ≤ 176 }
    requires items { span.count ≤ length items.now }
    requires size { own ≡ true → All (λ v. unsigned_abs v < 2 ^ 19) (take span.count items.now) }
    ensures value { take (span.start + span.count) norm.new ≡ take span.start norm.old ++ right_copy own span.count (take span.count items.now) }
    ensures size { All (λ v. unsigned_abs v ≤ 2 ^ 19) (right_copy own span.count (take span.count items.now)) }
{
    if own {
        put_copy(norm, span, items);
        return;
    }
    let (_, behind) = norm.split_at_mut(span.start);
    let (here, _) = behind.split_at_mut(span.count);
    here.fill(0);
}

/// One band, its vectors and its copies.
fn band(
    lines: &mut Lines,
    bench: &mut Bench,
    tools: &Tools<'_>,
    span: Span,
    fills: Fills,
    place: Place,
) -> MadePair
    requires can { CanBand tools.now.layout span fills lines.old }
    requires at { place.at ≤ length tools.now.nodes.now }
    requires form { IsForm tools.now.layout.count (form_in tools.now.layout (drop place.at tools.now.nodes.now)).form }
    ensures made { IsBandMade tools.now.layout (pair_shape tools.now.layout tools.now.invert (source_at span (take span.start lines.old.left_norm)) (source_at span (take span.start lines.old.right_norm)) fills (form_in tools.now.layout (drop place.at tools.now.nodes.now)).form place.seed) span lines.old lines.new result }
    ensures rest { drop result.at tools.now.nodes.now ≡ (form_in tools.now.layout (drop place.at tools.now.nodes.now)).rest }
    ensures at { result.at ≤ length tools.now.nodes.now }
{
    let (left_before, _) = lines.left_norm.split_at(span.start);
    let (right_before, _) = lines.right_norm.split_at(span.start);
    let made = pair(
        bench,
        tools,
        source_of(left_before, span),
        source_of(right_before, span),
        fills,
        place,
    );
    put(&mut lines.left, span, &bench.left);
    put(&mut lines.right, span, &bench.right);
    put_copy(&mut lines.left_norm, span, &bench.copy);
    put_right_copy(&mut lines.right_norm, span, tools.layout.own, &bench.right);
    made
}

/// One band more of the frame.
fn next_band(lines: &mut Lines, bench: &mut Bench, walked: &mut Walked, frame: &Frame<'_>, i: u32)
    requires band { i ≤ 20 }
    requires can { CanShape frame.now.kind (symbols_of frame.now.symbols.now) i }
    requires sound { IsSound frame.now.kind (symbols_of frame.now.symbols.now) i lines.old walked.old }
    requires form { IsForm (count_of frame.now.kind i) (form_in (layout_of frame.now.kind (symbols_of frame.now.symbols.now) i) (drop walked.old.at frame.now.symbols.now.nodes.items)).form }
    ensures made { sofar_of frame.now.kind (symbols_of frame.now.symbols.now) (i + 1) lines.new walked.new ≡ band_more frame.now.kind (symbols_of frame.now.symbols.now) frame.now.invert i (sofar_of frame.now.kind (symbols_of frame.now.symbols.now) i lines.old walked.old) }
    ensures sound { IsSound frame.now.kind (symbols_of frame.now.symbols.now) (i + 1) lines.new walked.new }
{
    let kind = frame.kind;
    let s = frame.symbols;
    let layout = layout_for(kind, s, i);
    let plan = plan_for(kind, s, layout, i, walked.low, walked.update);
    join_norms(
        &mut lines.left_norm,
        &lines.right_norm,
        plan.span.start,
        joins(s, i),
    );
    let fills = Fills {
        left: fill_of(kind, layout.blocks, plan, &walked.left),
        right: fill_of(kind, layout.blocks, plan, &walked.right),
    };
    let tools = Tools {
        trig: frame.trig,
        pulses: frame.pulses,
        nodes: s.nodes.as_slice(),
        invert: frame.invert,
        layout,
    };
    let place = Place {
        seed: walked.seed,
        at: walked.at,
    };
    let made = band(lines, bench, &tools, plan.span, fills, place);
    walked.left[i as usize] = made.left;
    walked.right[i as usize] = made.right;
    walked.seed = made.seed;
    walked.at = made.at;
    walked.low = plan.low;
    walked.update = is_rich(s, i, layout.count);
}

/// All bands of the frame.
pub fn bands(lines: &mut Lines, bench: &mut Bench, frame: &Frame<'_>, seed: u32) -> Walked
    requires { HasTrees frame.now.kind frame.now.symbols.now }
    ensures made { sofar_of frame.now.kind (symbols_of frame.now.symbols.now) frame.now.kind.end lines.new result ≡ bands_of frame.now.kind (symbols_of frame.now.symbols.now) frame.now.invert seed frame.now.kind.end }
    ensures sound { IsSound frame.now.kind (symbols_of frame.now.symbols.now) frame.now.kind.end lines.new result }
{
    let mut walked = Walked {
        left: [0; 21],
        right: [0; 21],
        seed,
        at: 0,
        low: 0,
        update: true,
    };
    for i in 0..u32::from(frame.kind.end) {
        next_band(lines, bench, &mut walked, frame, i);
    }
    walked
}
