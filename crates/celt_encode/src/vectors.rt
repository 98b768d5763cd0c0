//! The vectors of a band.
ghost use Rattle.std.specs.Prelude.{◌≡◌, ℕ, ◌+◌, ◌*◌, ◌^◌, ◌<◌, ◌≤◌, ◌-ℤ◌, ◌*ℤ◌, unsigned_abs, All, false, length, take, drop, int_lt, pos, [], slice_index_or, min};
ghost use Rattle.fixed_math.specs.Items.{item};
ghost use Rattle.fixed_math.specs.Root.{root};
ghost use Rattle.fixed_math.specs.Unit.{square as squared, energy};
ghost use Rattle.pulse_search.specs.Angles.{angle_of};
ghost use Rattle.celt_encode.specs.Outsets.{outset_of};
ghost use Rattle.celt_encode.specs.Vectors.{part_of, unit_in, entered_vector, sum_of, difference_of, mixed, beside, stereo_wanted, is_opposed, is_alone, turns_back, is_back, is_below, takes_side, plain_vector, vector_of, steps_wanted, split_wanted};

use crate::answers::Answers;
use crate::changes::change;
use crate::frame::Frame;
use crate::rooms::Vector;
use celt_base::coder::Enter;
use celt_tables::{edge, width};
use fixed_math::{Trig, isq};
use pulse_search::angle;

// The square of an item.
fn square(v: i64) -> u64
    requires { unsigned_abs v < 2 ^ 20 }
    ensures value { result ≡ squared v }
    ensures size { result < 2 ^ 40 }
{
    let size = v.unsigned_abs();
    size * size
}

// The sum of the squares.
fn sum_of_squares(x: &[i64]) -> u64
    requires count { length x.now ≤ 176 }
    requires small { All (λ v. unsigned_abs v < 2 ^ 20) x.now }
    ensures value { result ≡ energy x.now }
    ensures size { result < 2 ^ 48 }
{
    let mut sum: u64 = 0;
    for i in 0..x.len() {
        sum += square(x[i]);
    }
    sum
}

/// The part of a list, as far as the list has it.
pub fn part_from(x: &[i64], offset: usize, n: usize) -> &[i64]
    ensures value { result.now ≡ part_of x.now offset n }
    ensures count { length result.now ≤ n }
    ensures within { length result.now ≤ length x.now }
    ensures small { (m : ℕ) → All (λ v. unsigned_abs v ≤ m) x.now → All (λ v. unsigned_abs v ≤ m) result.now }
{
    let from = offset.min(x.len());
    let (_, behind) = x.split_at(from);
    let count = n.min(behind.len());
    let (part, _) = behind.split_at(count);
    part
}

/// The items of a vector.
pub fn items_of(x: &Vector) -> &[i64]
    ensures value { result.now ≡ vector_of x.now }
    ensures count { length result.now ≤ 176 }
    ensures small { All (λ v. unsigned_abs v < 2 ^ 20) result.now }
{
    let (items, _) = x.items.split_at(x.count);
    items
}

// The length of a part.
fn length_of(x: &[i64]) -> u64
    requires count { length x.now ≤ 176 }
    requires small { All (λ v. unsigned_abs v < 2 ^ 20) x.now }
    ensures value { result ≡ root (energy x.now) }
    ensures size { result < 2 ^ 48 }
{
    isq(sum_of_squares(x) as u128)
}

// The angle between two lengths, in steps.
fn steps_between(trig: &Trig, m: u64, s: u64, qn: u32) -> i64
    requires m_size { m < 2 ^ 48 }
    requires s_size { s < 2 ^ 48 }
    ensures { result ≡ steps_wanted qn m s }
{
    let steps = angle(trig, m, s) as u64 * qn as u64;
    ((steps + 1920) / 3840) as i64
}

/// What is wanted of the angle between the halves of a part.
pub fn split_number(x: &Vector, trig: &Trig, offset: u32, n: u32, qn: u32) -> i64
    ensures { result ≡ split_wanted (vector_of x.now) offset n qn }
{
    let first = offset as usize;
    let count = n as usize;
    let items = items_of(x);
    let m = length_of(part_from(items, first, count));
    let s = length_of(part_from(items, first + count, count));
    steps_between(trig, m, s, qn)
}

// How many items of a spectrum so many of the shortest frame's are.
fn scaled(n: u32, lm: u8) -> usize
    requires { lm ≤ 3 }
    ensures { result ≡ n * 2 ^ lm }
{
    n as usize * (1usize << lm)
}

// The row of a channel.
fn row_of(frame: &Frame, channel: u8) -> &[i64]
    requires { channel < 2 }
    ensures value { result.now ≡ slice_index_or frame.now.units channel [] }
    ensures small { All (λ v. unsigned_abs v < 2 ^ 20) result.now }
{
    &frame.units[channel as usize]
}

// The channel's vector of a band.
#[tactic(auto, unfolding(crate::specs::Vectors::unit_in))]
fn unit_of_band(frame: &Frame, channel: u8, band: u8) -> &[i64]
    ensures value { result.now ≡ unit_in (outset_of frame.now) channel band }
    ensures count { length result.now ≤ 176 }
    ensures small { All (λ v. unsigned_abs v ≤ 2 ^ 14) result.now }
{
    if channel < 2 && band < 21 {
        let from = scaled(edge(band as u32), frame.kind.lm);
        let count = scaled(width(band as u32), frame.kind.lm);
        return part_from(row_of(frame, channel), from, count);
    }
    &[]
}

// Sums and differences, place by place.
fn add_all(l: &[i64], r: &[i64], out: &mut [i64])
    requires room { length out.old ≡ min (length l.now) (length r.now) }
    requires ls { All (λ v. unsigned_abs v ≤ 2 ^ 14) l.now }
    requires rs { All (λ v. unsigned_abs v ≤ 2 ^ 14) r.now }
    ensures value { out.new ≡ sum_of l.now r.now }
    ensures small { All (λ v. unsigned_abs v ≤ 2 ^ 15) out.new }
{
    for i in 0..out.len() {
        out[i] = l[i] + r[i];
    }
}

fn subtract_all(l: &[i64], r: &[i64], out: &mut [i64])
    requires room { length out.old ≡ min (length l.now) (length r.now) }
    requires ls { All (λ v. unsigned_abs v ≤ 2 ^ 14) l.now }
    requires rs { All (λ v. unsigned_abs v ≤ 2 ^ 14) r.now }
    ensures value { out.new ≡ difference_of l.now r.now }
    ensures small { All (λ v. unsigned_abs v ≤ 2 ^ 15) out.new }
{
    for i in 0..out.len() {
        out[i] = l[i] - r[i];
    }
}

#[tactic(auto, unfolding(crate::specs::Vectors::mixed))]
fn mix(l: &[i64], r: &[i64], out: &mut [i64], side: bool, inverted: bool)
    requires room { length out.old ≡ min (length l.now) (length r.now) }
    requires ls { All (λ v. unsigned_abs v ≤ 2 ^ 14) l.now }
    requires rs { All (λ v. unsigned_abs v ≤ 2 ^ 14) r.now }
    ensures value { out.new ≡ mixed side inverted l.now r.now }
    ensures small { All (λ v. unsigned_abs v ≤ 2 ^ 15) out.new }
{
    if side {
        subtract_all(r, l, out);
        return;
    }
    if inverted {
        subtract_all(l, r, out);
        return;
    }
    add_all(l, r, out);
}

// Whether the channels of a band are coded each by itself.
#[tactic(auto, unfolding(crate::specs::Vectors::is_alone))]
fn alone(frame: &Frame, answers: &Answers, band: u8, n: usize) -> bool
    ensures { result ≡ is_alone (outset_of frame.now) answers.now band n }
{
    frame.kind.channels < 2 || n == 1 || (answers.dual && (band as u32) < answers.intensity)
}

fn flag_at(flags: &[bool; 21], band: u8) -> bool
    ensures { result ≡ slice_index_or flags.now band false }
{
    if band < 21 {
        flags[band as usize]
    } else {
        false
    }
}

#[tactic(auto, unfolding(crate::specs::Vectors::takes_side))]
fn is_side(answers: &Answers, band: u8, channel: u8, n: usize) -> bool
    ensures { result ≡ takes_side answers.now band channel n }
{
    if n == 2 {
        return flag_at(&answers.leans, band);
    }
    channel == 1
}

// The items of a list in front of others.
fn put_front(x: &[i64], out: &mut [i64; 176]) -> usize
    requires count { length x.now ≤ 176 }
    requires small { All (λ v. unsigned_abs v ≤ 2 ^ 15) x.now }
    ensures front { take result out.new ≡ x.now }
    ensures count { result ≡ length x.now }
{
    out[..x.len()].copy_from_slice(x);
    x.len()
}

// The channel's vector before its changes, in front of `out`.
#[tactic(auto, unfolding(crate::specs::Vectors::plain_vector))]
fn put_plain(frame: &Frame, answers: &Answers, at: Enter, out: &mut [i64; 176]) -> usize
    ensures front { take result out.new ≡ plain_vector (outset_of frame.now) answers.now at.channel at.band }
    ensures count { result ≤ 176 }
    ensures small { All (λ v. unsigned_abs v ≤ 2 ^ 15) (take result out.new) }
{
    let l = unit_of_band(frame, 0, at.band);
    if alone(frame, answers, at.band, l.len()) {
        return put_front(unit_of_band(frame, at.channel, at.band), out);
    }
    let r = unit_of_band(frame, 1, at.band);
    let count = l.len().min(r.len());
    let side = is_side(answers, at.band, at.channel, l.len());
    let (room, _) = out.split_at_mut(count);
    mix(l, r, room, side, flag_at(&answers.inverted, at.band));
    count
}

/// The channel's vector of a band that is entered.
#[tactic(auto, unfolding(crate::specs::Vectors::entered_vector))]
pub fn entered(frame: &Frame, answers: &Answers, at: Enter) -> Vector
    ensures { vector_of result ≡ entered_vector (outset_of frame.now) answers.now at }
{
    let mut plain = [0i64; 176];
    let mut items = [0i64; 176];
    let count = put_plain(frame, answers, at, &mut plain);
    let (x, _) = plain.split_at_mut(count);
    let (out, _) = items.split_at_mut(count);
    change(x, out, at);
    Vector { items, count }
}

// The sum of the squares of the channels' sum, or of their difference.
fn energy_beside(frame: &Frame, band: u8, difference: bool) -> u64
    ensures value { result ≡ energy (beside (outset_of frame.now) band difference) }
    ensures size { result < 2 ^ 48 }
{
    let l = unit_of_band(frame, 0, band);
    let r = unit_of_band(frame, 1, band);
    let mut items = [0i64; 176];
    let (out, _) = items.split_at_mut(l.len().min(r.len()));
    mix(l, r, out, false, difference);
    sum_of_squares(out)
}

fn root_of(energy: u64) -> u64
    requires { energy < 2 ^ 48 }
    ensures value { result ≡ root energy }
    ensures size { result < 2 ^ 48 }
{
    isq(energy as u128)
}

/// What is wanted of the angle between middle and side.
#[tactic(auto, unfolding(crate::specs::Vectors::stereo_wanted))]
pub fn stereo_number(frame: &Frame, trig: &Trig, band: u8, qn: u32) -> i64
    ensures { result ≡ stereo_wanted (outset_of frame.now) band qn }
{
    let m = root_of(energy_beside(frame, band, false));
    let s = root_of(energy_beside(frame, band, true));
    steps_between(trig, m, s, qn)
}

/// Whether the difference of the channels is greater than their sum.
#[tactic(auto, unfolding(crate::specs::Vectors::is_opposed))]
pub fn opposed(frame: &Frame, band: u8) -> bool
    ensures { result ≡ is_opposed (outset_of frame.now) band }
{
    energy_beside(frame, band, false) < energy_beside(frame, band, true)
}

// A coefficient of a vector.
#[derive(Clone, Copy)]
struct Coefficient {
    value: i64,
    ghost small: { unsigned_abs value ≤ 2 ^ 15 },
}

// The coefficient at a place; 0 behind the end.
fn coefficient_at(x: &[i64], place: usize) -> Coefficient
    requires small { All (λ v. unsigned_abs v ≤ 2 ^ 15) x.now }
    ensures { result.value ≡ item x.now place }
{
    if place < x.len() {
        return Coefficient { value: x[place] };
    }
    Coefficient { value: 0 }
}

// Whether the second of two products is greater.
fn is_less(a: Coefficient, b: Coefficient, c: Coefficient, d: Coefficient) -> bool
    ensures { result ≡ int_lt (a.value *ℤ b.value -ℤ c.value *ℤ d.value) (pos 0) }
{
    a.value * b.value < c.value * d.value
}

#[tactic(auto, unfolding(crate::specs::Vectors::turns_back))]
fn turns(x: &[i64], y: &[i64]) -> bool
    requires xs { All (λ v. unsigned_abs v ≤ 2 ^ 15) x.now }
    requires ys { All (λ v. unsigned_abs v ≤ 2 ^ 15) y.now }
    ensures { result ≡ turns_back x.now y.now }
{
    is_less(
        coefficient_at(x, 0),
        coefficient_at(y, 1),
        coefficient_at(x, 1),
        coefficient_at(y, 0),
    )
}

/// Whether the vector of a pair of coefficients that is not coded lies to the right of the one that is, turned back.
#[tactic(auto, unfolding(crate::specs::Vectors::is_back))]
pub fn is_back(frame: &Frame, answers: &Answers, band: u8, theta: i32) -> bool
    ensures { result ≡ is_back (outset_of frame.now) answers.now band theta }
{
    let l = unit_of_band(frame, 0, band);
    let r = unit_of_band(frame, 1, band);
    let count = l.len().min(r.len());
    let mut middles = [0i64; 176];
    let mut sides = [0i64; 176];
    let (middle, _) = middles.split_at_mut(count);
    let (side, _) = sides.split_at_mut(count);
    mix(l, r, middle, false, flag_at(&answers.inverted, band));
    mix(l, r, side, true, false);
    if theta > 8192 {
        return turns(side, middle);
    }
    turns(middle, side)
}

/// Whether the value of a band of one coefficient is below 0.
#[tactic(auto, unfolding(crate::specs::Vectors::is_below))]
pub fn is_below(frame: &Frame, band: u8, channel: u8) -> bool
    ensures { result ≡ is_below (outset_of frame.now) band channel }
{
    let x = unit_of_band(frame, channel, band);
    !x.is_empty() && x[0] < 0
}
