//! A band of mid and side (RFC 6716, section 4.3.4.3).
ghost use Rattle.std.specs.Prelude.{◌≡◌, ◌≢◌, ◌+◌, ◌*◌, ◌^◌, ◌<◌, ◌≤◌, ℕ, ℤ, unsigned_abs, pos, ◌-ℤ◌};
ghost use Rattle.arrayvec.specs.ArrayVec.{array_vec_len};
ghost use Rattle.band_plan.specs.Channels.{stereo_steps, stereo_question, inverted_of, inversion_script, stereo_theta, side_cost, side_sign, pair_share, pair_script, mid_side_script, stereo_script, side_of, IsBand};
ghost use Rattle.band_plan.specs.Orders.{stereo_order, IsOrder};
ghost use Rattle.band_plan.specs.Thetas.{IsAngle, IsSpent};
ghost use Rattle.band_plan.specs.Trees.{Coded};
ghost use Rattle.celt_base.specs.Questions.{IsValid, IsAnswer, IsBelow, IsEven};
ghost use Rattle.celt_base.specs.Walks.{Walked};

use crate::angles::{delta, steps};
use crate::channels::{Band, ask_flag, channel, two};
use crate::orders::{Left, Order, Share, Theta, first_share, later_share, ordered};
use crate::symbols::Node;
use crate::thetas::{Timed, angle, angle_node, ask_timed};
use arrayvec::ArrayVec;
use celt_base::coder::{Chooser, Coder, Place};
use celt_base::question::Question;

// How many steps the angle between mid and side has.
#[tactic(auto, unfolding(crate::specs::Channels::stereo_steps))]
fn stereo_steps(band: Band, share: Share) -> u32
    requires band { IsBand band }
    requires more { band.n ≢ 1 }
    requires bits { unsigned_abs share.bits ≤ 2 ^ 30 }
    ensures value { result ≡ stereo_steps band share.bits }
    ensures even { 1 < result → IsEven result }
{
    if band.intensity <= u32::from(band.band) {
        return 1;
    }
    steps(band.n == 2, band.band, band.level, band.n, share)
}

#[tactic(auto, unfolding(crate::specs::Channels::stereo_question))]
fn stereo_question(n: u32, steps: u32) -> Question
    requires { IsEven steps }
    ensures value { result ≡ stereo_question n steps }
    ensures valid { IsValid result }
    ensures below { (answer : ℤ) → IsAnswer result answer → IsBelow (steps + 1) answer }
{
    if n == 2 {
        Question::Uniform(steps + 1)
    } else {
        Question::Step(steps)
    }
}

// No angle, but the side may be inverted.
fn ask_inversion<C: Coder, H: Chooser>(
    coder: &mut C,
    chooser: &mut H,
    band: Band,
    share: Share,
) -> Theta
    requires bits { unsigned_abs share.bits ≤ 2 ^ 30 }
    requires left { unsigned_abs share.left ≤ 2 ^ 30 }
    requires few { C.calls.count coder.old < 4096 }
    ensures walked { Walked C.calls H.calls (inversion_script band share) result coder.old chooser.old coder.new chooser.new }
    ensures is { IsAngle result }
    ensures count { C.calls.count coder.new ≤ C.calls.count coder.old + 1 }
{
    if share.bits <= 16 {
        return Theta {
            theta: 0,
            inversion: false,
            spent: 0,
        };
    }
    if share.left <= 16 {
        return Theta {
            theta: 0,
            inversion: false,
            spent: 0,
        };
    }
    let at = Place::Inversion { band: band.band };
    inverted(ask_timed(coder, chooser, at, Question::Bit(2)))
}

// What stands after the question of the inversion.
fn inverted(timed: Timed) -> Theta
    requires answer { IsBelow 2 timed.answer }
    requires spent { IsSpent timed.spent }
    ensures value { result ≡ inverted_of timed }
    ensures is { IsAngle result }
{
    Theta {
        theta: 0,
        inversion: timed.answer == 1,
        spent: timed.spent,
    }
}

// Asks for the angle between mid and side.
fn ask_stereo<C: Coder, H: Chooser>(
    coder: &mut C,
    chooser: &mut H,
    band: Band,
    share: Share,
) -> Theta
    requires band { IsBand band }
    requires more { band.n ≢ 1 }
    requires bits { unsigned_abs share.bits ≤ 2 ^ 30 }
    requires left { unsigned_abs share.left ≤ 2 ^ 30 }
    requires few { C.calls.count coder.old < 4096 }
    ensures walked { Walked C.calls H.calls (stereo_theta band share) result coder.old chooser.old coder.new chooser.new }
    ensures is { IsAngle result }
    ensures count { C.calls.count coder.new ≤ C.calls.count coder.old + 1 }
{
    let qn = stereo_steps(band, share);
    if qn <= 1 {
        return ask_inversion(coder, chooser, band, share);
    }
    let at = Place::Theta {
        band: band.band,
        channel: 0,
        offset: 0,
        n: band.n,
        qn,
        stereo: true,
    };
    let timed = ask_timed(coder, chooser, at, stereo_question(band.n, qn));
    angle(qn, timed)
}

// What the sign of the side costs.
#[tactic(auto, unfolding(crate::specs::Channels::side_cost))]
fn side_cost(theta: Theta) -> u32
    ensures value { result ≡ side_cost theta }
    ensures most { result ≤ 8 }
{
    if theta.theta == 0 {
        return 0;
    }
    if theta.theta == 16384 {
        return 0;
    }
    8
}

// The sign of the side.
fn ask_side<C: Coder, H: Chooser>(coder: &mut C, chooser: &mut H, band: Band, theta: Theta) -> bool
    requires angle { IsAngle theta }
    requires few { C.calls.count coder.old < 4096 }
    ensures walked { Walked C.calls H.calls (side_sign band theta) result coder.old chooser.old coder.new chooser.new }
    ensures count { C.calls.count coder.new ≤ C.calls.count coder.old + 1 }
{
    if side_cost(theta) == 0 {
        return false;
    }
    let at = Place::SideSign {
        band: band.band,
        theta: theta.theta as i32,
    };
    ask_flag(coder, chooser, at, Question::Raw(1))
}

// What the one vector of a pair may have.
fn pair_share(share: Share, theta: Theta) -> Share
    requires bits { unsigned_abs share.bits ≤ 2 ^ 28 }
    requires left { unsigned_abs share.left ≤ 2 ^ 28 }
    requires angle { IsAngle theta }
    ensures { result ≡ pair_share share theta }
{
    let cost = side_cost(theta) as i32;
    Share {
        bits: share.bits - theta.spent - cost,
        left: share.left - theta.spent - cost,
    }
}

// Codes mid and side of two coefficients.
fn pair<C: Coder, H: Chooser>(
    coder: &mut C,
    chooser: &mut H,
    nodes: &mut ArrayVec<Node, 1344>,
    band: Band,
    share: Share,
    theta: Theta,
) -> Left
    requires band { IsBand band }
    requires bits { unsigned_abs share.bits ≤ 2 ^ 28 }
    requires left { unsigned_abs share.left ≤ 2 ^ 28 }
    requires angle { IsAngle theta }
    requires few { C.calls.count coder.old + 32 ≤ 4096 }
    requires room { array_vec_len nodes.old + 33 ≤ 1344 }
    ensures coded { Coded C.calls H.calls (pair_script band share theta) share.left result.left nodes.old.items nodes.new.items
        coder.old chooser.old coder.new chooser.new }
    ensures used { unsigned_abs (share.left -ℤ result.left) ≤ 2 ^ 27 }
    ensures count { C.calls.count coder.new ≤ C.calls.count coder.old + 32 }
    ensures room { array_vec_len nodes.new ≤ array_vec_len nodes.old + 33 }
{
    let negative = ask_side(coder, chooser, band, theta);
    nodes.push(angle_node(theta, false));
    nodes.push(Node::Sign { negative });
    let one = pair_share(share, theta);
    channel(coder, chooser, nodes, band, 0, one)
}

// The order of mid and side.
fn stereo_order(n: u32, share: Share, theta: Theta) -> Order
    requires n { (1 ≤ n) × (n ≤ 176) }
    requires bits { unsigned_abs share.bits ≤ 2 ^ 28 }
    requires angle { IsAngle theta }
    ensures value { result ≡ stereo_order n share theta }
    ensures is { IsOrder (share.bits -ℤ theta.spent) result }
{
    ordered(share.bits - theta.spent, delta(n, theta.theta), theta.theta)
}

// Codes mid and side of more.
fn mid_side<C: Coder, H: Chooser>(
    coder: &mut C,
    chooser: &mut H,
    nodes: &mut ArrayVec<Node, 1344>,
    band: Band,
    share: Share,
    theta: Theta,
) -> Left
    requires band { IsBand band }
    requires bits { unsigned_abs share.bits ≤ 2 ^ 28 }
    requires left { unsigned_abs share.left ≤ 2 ^ 28 }
    requires angle { IsAngle theta }
    requires few { C.calls.count coder.old + 62 ≤ 4096 }
    requires room { array_vec_len nodes.old + 63 ≤ 1344 }
    ensures coded { Coded C.calls H.calls (mid_side_script band share theta) share.left result.left nodes.old.items nodes.new.items
        coder.old chooser.old coder.new chooser.new }
    ensures used { unsigned_abs (share.left -ℤ result.left) ≤ 2 ^ 27 }
    ensures count { C.calls.count coder.new ≤ C.calls.count coder.old + 62 }
    ensures room { array_vec_len nodes.new ≤ array_vec_len nodes.old + 63 }
{
    let order = stereo_order(band.n, share, theta);
    nodes.push(angle_node(theta, order.second_first));
    let first = first_share(order, share, theta);
    let middle = channel(
        coder,
        chooser,
        nodes,
        band,
        side_of(order.second_first),
        first,
    );
    let later = later_share(order, first, middle);
    channel(
        coder,
        chooser,
        nodes,
        band,
        side_of(!order.second_first),
        later,
    )
}

// Mid is channel 0 and side channel 1.
#[tactic(auto, unfolding(crate::specs::Channels::side_of))]
fn side_of(second: bool) -> u8
    ensures { result ≡ side_of second }
{
    if second { 1 } else { 0 }
}

/// Codes a band of mid and side.
pub fn stereo<C: Coder, H: Chooser>(
    coder: &mut C,
    chooser: &mut H,
    nodes: &mut ArrayVec<Node, 1344>,
    band: Band,
    share: Share,
) -> Left
    requires band { IsBand band }
    requires more { band.n ≢ 1 }
    requires bits { unsigned_abs share.bits ≤ 2 ^ 28 }
    requires left { unsigned_abs share.left ≤ 2 ^ 28 }
    requires few { C.calls.count coder.old + 63 ≤ 4096 }
    requires room { array_vec_len nodes.old + 63 ≤ 1344 }
    ensures coded { Coded C.calls H.calls (stereo_script band share) share.left result.left nodes.old.items nodes.new.items
        coder.old chooser.old coder.new chooser.new }
    ensures used { unsigned_abs (share.left -ℤ result.left) ≤ 2 ^ 27 }
    ensures count { C.calls.count coder.new ≤ C.calls.count coder.old + 63 }
    ensures room { array_vec_len nodes.new ≤ array_vec_len nodes.old + 63 }
{
    let theta = ask_stereo(coder, chooser, band, share);
    if band.n == 2 {
        return pair(coder, chooser, nodes, band, share, theta);
    }
    mid_side(coder, chooser, nodes, band, share, theta)
}
