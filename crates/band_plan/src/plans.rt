//! The bands of a frame in order (RFC 6716, sections 4.3.4 and 4.4).
ghost use Rattle.std.specs.Prelude.{◌≡◌, ◌≢◌, ◌+◌, ◌*◌, ◌^◌, ◌<◌, ◌≤◌, ℕ, List, [], length, unsigned_abs, pos, ◌+ℤ◌, ◌-ℤ◌, ◌≤ℤ◌, int_div, min, ◌-◌, replicate};
ghost use Rattle.arrayvec.specs.ArrayVec.{array_vec_len};
ghost use Rattle.band_plan.specs.Angles.{lesser, greater};
ghost use Rattle.band_plan.specs.Channels.{IsBand};
ghost use Rattle.band_plan.specs.Frames.{IsFrame};
ghost use Rattle.band_plan.specs.Plans.{Planned, pulses_of, sum_below, amount_of, left_of, share_by, share_of, frame_blocks, band_of, is_two, half_share, band_script, one_band, bands_script, all_nodes, amount_at, AreSettings, CodedBand, AreWalked, WalkedBands};
ghost use Rattle.band_plan.specs.Shapes.{HasTrees};
ghost use Rattle.band_plan.specs.Trees.{Coded};
ghost use Rattle.celt_base.specs.States.{IsAllocation};
ghost use Rattle.celt_tables.specs.Tables.{cap_of};

use crate::channels::{Band, channel, two};
use crate::orders::{Left, Share};
use crate::stereo::stereo;
use crate::symbols::{BandSettings, BandSymbols, Node};
use arrayvec::ArrayVec;
use celt_base::coder::{Chooser, Coder};
use celt_base::kind::Kind;
use celt_base::state::Allocation;
use celt_tables::width;

/// What a frame gives its bands.
#[derive(Clone, Copy)]
struct Frame<'a> {
    kind: Kind,
    settings: &'a BandSettings,
    allocation: &'a Allocation,
    /// What it has in eighths of a bit.
    total: i32,
}

/// The balance before a band and what was used before the first, in eighths of a bit.
#[derive(Clone, Copy)]
struct Running {
    balance: i32,
}

// How many blocks a transient has.
fn size(kind: Kind) -> u32
    ensures value { result ≡ 2 ^ kind.lm }
    ensures most { result ≤ 8 }
    ensures some { 1 ≤ result }
{
    match kind.lm {
        0 => 1,
        1 => 2,
        2 => 4,
        _ => 8,
    }
}

/// How many blocks a frame has: 2^lm in a transient, else one.
#[tactic(auto, unfolding(crate::specs::Plans::frame_blocks))]
pub fn blocks(kind: Kind, transient: bool) -> u32
    ensures value { result ≡ frame_blocks kind transient }
    ensures most { result ≤ 8 }
    ensures some { 1 ≤ result }
{
    if transient { size(kind) } else { 1 }
}

// A band of a frame.
fn band_for(frame: Frame<'_>, band: u8) -> Band
    requires band { band < frame.kind.end }
    requires settings { AreSettings frame.kind frame.settings.now }
    ensures value { result ≡ band_of frame.entry.kind frame.entry.settings.now frame.entry.allocation.now.intensity band }
    ensures is { IsBand result }
    ensures name { result.band ≡ band }
{
    Band {
        band,
        level: u32::from(frame.kind.lm) + 1,
        n: width(u32::from(band)) * size(frame.kind),
        blocks: blocks(frame.kind, frame.settings.transient),
        tf: frame.settings.tf[usize::from(band)],
        intensity: frame.allocation.intensity,
    }
}

// What remains of the frame at a band.
fn left_at(frame: Frame<'_>, now: u32) -> Left
    requires total { unsigned_abs frame.total ≤ 81600 }
    requires now { now ≤ 2 ^ 21 }
    ensures value { result.left ≡ left_of frame.entry.total now }
    ensures size { unsigned_abs result.left ≤ 2 ^ 22 }
{
    Left {
        left: frame.total - now as i32 - 1,
    }
}

// A number that is at least 0 and at most 16383, and at most one more than what is left.
fn bounded(portion: i32, left: Left) -> i32
    requires left { unsigned_abs left.left ≤ 2 ^ 22 }
    ensures value { result ≡ greater (pos 0) (lesser (pos 16383) (lesser (left.left +ℤ pos 1) portion)) }
    ensures size { unsigned_abs result ≤ 16383 }
{
    let mut amount = portion;
    if left.left < amount {
        amount = left.left + 1;
    }
    if amount > 16383 {
        amount = 16383;
    }
    if amount < 0 {
        amount = 0;
    }
    amount
}

// What a band has of the balance.
fn portion(a: &Allocation, running: Running, band: u32, now: u32) -> i32
    requires pulses { unsigned_abs (pulses_of a.now band) ≤ 2 ^ 15 }
    requires band { (band < a.now.coded) × (band ≤ 20) }
    requires running { unsigned_abs running.balance ≤ 2 ^ 23 }
    requires now { now ≤ 2 ^ 21 }
    ensures { result ≡ pulses_of a.now band +ℤ int_div (running.balance -ℤ pos now) (pos (min 3 (a.now.coded - band))) }
{
    let parts = 3u32.min(a.coded - band);
    a.pulses[band as usize] + (running.balance - now as i32) / parts as i32
}

// What a band may have.
fn share_for(frame: Frame<'_>, running: Running, band: u32, now: u32) -> Share
    requires pulses { unsigned_abs (pulses_of frame.allocation.now band) ≤ 2 ^ 15 }
    requires band { band ≤ 20 }
    requires total { unsigned_abs frame.total ≤ 81600 }
    requires running { unsigned_abs running.balance ≤ 2 ^ 23 }
    requires now { now ≤ 2 ^ 21 }
    ensures value { result ≡ share_by frame.entry.allocation.now (left_of frame.entry.total now) (running.balance -ℤ pos now) band }
    ensures bits { unsigned_abs result.bits ≤ 16383 }
    ensures left { unsigned_abs result.left ≤ 2 ^ 22 }
{
    let left = left_at(frame, now);
    if band >= frame.allocation.coded {
        return Share {
            bits: 0,
            left: left.left,
        };
    }
    Share {
        bits: bounded(portion(frame.allocation, running, band, now), left),
        left: left.left,
    }
}

// Whether a band is coded as two channels.
#[tactic(auto, unfolding(crate::specs::Plans::is_two))]
fn is_two(band: Band, dual: bool, channels: u8) -> bool
    ensures { result ≡ is_two band dual channels }
{
    (dual && u32::from(band.band) < band.intensity) || (channels == 2 && band.n == 1)
}

fn half_share(share: Share) -> Share
    requires bits { unsigned_abs share.bits ≤ 2 ^ 28 }
    requires left { unsigned_abs share.left ≤ 2 ^ 28 }
    ensures value { result ≡ half_share share }
    ensures bits { unsigned_abs result.bits ≤ 2 ^ 28 }
    ensures left { unsigned_abs result.left ≤ 2 ^ 28 }
{
    Share {
        bits: share.bits / 2,
        left: share.left,
    }
}

// Codes a band.
fn code_band<C: Coder, H: Chooser>(
    coder: &mut C,
    chooser: &mut H,
    nodes: &mut ArrayVec<Node, 1344>,
    frame: Frame<'_>,
    band: Band,
    share: Share,
) -> Left
    requires band { IsBand band }
    requires bits { unsigned_abs share.bits ≤ 2 ^ 28 }
    requires left { unsigned_abs share.left ≤ 2 ^ 28 }
    requires few { C.calls.count coder.old + 63 ≤ 4096 }
    requires room { array_vec_len nodes.old + 63 ≤ 1344 }
    ensures coded { Coded C.calls H.calls (band_script band frame.entry.allocation.now.dual frame.entry.kind.channels share) share.left result.left
        nodes.old.items nodes.new.items coder.old chooser.old coder.new chooser.new }
    ensures count { C.calls.count coder.new ≤ C.calls.count coder.old + 63 }
    ensures room { array_vec_len nodes.new ≤ array_vec_len nodes.old + 63 }
{
    if is_two(band, frame.allocation.dual, frame.kind.channels) {
        return two(coder, chooser, nodes, band, half_share(share));
    }
    if frame.kind.channels == 2 {
        return stereo(coder, chooser, nodes, band, share);
    }
    channel(coder, chooser, nodes, band, 0, share)
}

// What the balance is at first: that of the allocation, and what was used before.
fn running_at(a: &Allocation, first: u32) -> Running
    requires balance { unsigned_abs a.now.balance ≤ 81600 }
    requires first { first ≤ 2 ^ 21 }
    ensures value { result.balance ≡ a.now.balance +ℤ pos first }
    ensures size { unsigned_abs result.balance ≤ 2 ^ 22 }
{
    Running {
        balance: a.balance + first as i32,
    }
}

// The balance after a band.
fn running_after(running: Running, a: &Allocation, band: u8) -> Running
    requires band { band ≤ 20 }
    requires pulses { unsigned_abs (pulses_of a.now band) ≤ 2 ^ 15 }
    requires running { unsigned_abs running.balance ≤ 2 ^ 23 }
    ensures { result.balance ≡ running.balance +ℤ pulses_of a.now band }
{
    Running {
        balance: running.balance + a.pulses[usize::from(band)],
    }
}

// Codes a band of a frame, and says what it had.
fn plan_band<C: Coder, H: Chooser>(
    coder: &mut C,
    chooser: &mut H,
    nodes: &mut ArrayVec<Node, 1344>,
    frame: Frame<'_>,
    running: Running,
    band: u8,
) -> Share
    requires band { band < frame.kind.end }
    requires frame { IsFrame frame.kind frame.settings.now frame.allocation.now frame.total }
    requires running { unsigned_abs running.balance ≤ 2 ^ 23 }
    requires few { C.calls.count coder.old + 63 ≤ 4096 }
    requires room { array_vec_len nodes.old + 63 ≤ 1344 }
    ensures coded { (first : ℕ) (before : List Planned) → running.balance ≡ (frame.entry.allocation.now.balance +ℤ sum_below frame.entry.allocation.now band) +ℤ pos first
        → CodedBand C.calls H.calls (one_band frame.entry.kind frame.entry.settings.now frame.entry.allocation.now frame.entry.total first band before) result.bits
        nodes.old.items nodes.new.items coder.old chooser.old coder.new chooser.new }
    ensures bits { unsigned_abs result.bits ≤ 16383 }
    ensures count { C.calls.count coder.new ≤ C.calls.count coder.old + 63 }
    ensures room { array_vec_len nodes.new ≤ array_vec_len nodes.old + 63 }
{
    let now = coder.tell_frac();
    let share = share_for(frame, running, u32::from(band), now);
    let place = band_for(frame, band);
    code_band(coder, chooser, nodes, frame, place, share);
    share
}

// Codes the bands of a frame in order.
fn plan_bands<C: Coder, H: Chooser>(
    coder: &mut C,
    chooser: &mut H,
    nodes: &mut ArrayVec<Node, 1344>,
    amounts: &mut [i32; 21],
    frame: Frame<'_>,
)
    requires frame { IsFrame frame.kind frame.settings.now frame.allocation.now frame.total }
    requires few { C.calls.count coder.old + 1323 ≤ 4096 }
    requires nodes { nodes.old.items ≡ [] }
    requires amounts { amounts.old ≡ replicate 21 (pos 0) }
    ensures walked { AreWalked C.calls H.calls frame.entry.kind frame.entry.settings.now frame.entry.allocation.now frame.entry.total nodes.new.items amounts.new
        coder.old chooser.old coder.new chooser.new }
    ensures count { C.calls.count coder.new ≤ C.calls.count coder.old + 1323 }
{
    let mut running = running_at(frame.allocation, coder.tell_frac());
    for band in 0..frame.kind.end {
        let share = plan_band(coder, chooser, nodes, frame, running, band);
        amounts[usize::from(band)] = share.bits;
        running = running_after(running, frame.allocation, band);
    }
}

/// Asks the questions of a frame's bands from 0 to the kind's end (RFC 6716, sections 4.3.4 and 4.4), at most 63 a band,
/// and leaves what they came to in `out`, which is filled anew. `total` is what the frame has in eighths of a bit, without
/// the reserve of the anti-collapse bit. The nodes are a tree for each band; amounts from the kind's end on are 0.
pub fn walk_bands<C: Coder, H: Chooser>(
    coder: &mut C,
    chooser: &mut H,
    kind: Kind,
    bands: &BandSettings,
    a: &Allocation,
    total: i32,
    out: &mut BandSymbols,
)
    requires settings { AreSettings kind bands.now }
    requires allocation { IsAllocation (λ band. pos (cap_of kind.lm kind.channels band)) kind a.now }
    requires total { unsigned_abs total ≤ 81600 }
    requires few { C.calls.count coder.old + 1323 ≤ 4096 }
    ensures walked { WalkedBands C.calls H.calls kind bands.now a.now total out.new coder.old chooser.old coder.new chooser.new }
    ensures trees { HasTrees kind out.new }
    ensures count { C.calls.count coder.new ≤ C.calls.count coder.old + 1323 }
{
    out.settings = *bands;
    out.coded = a.coded;
    out.intensity = a.intensity;
    out.dual = a.dual;
    out.amounts = [0; 21];
    out.nodes.clear();
    let frame = Frame {
        kind,
        settings: bands,
        allocation: a,
        total,
    };
    plan_bands(coder, chooser, &mut out.nodes, &mut out.amounts, frame);
}
