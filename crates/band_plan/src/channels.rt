//! A band of one channel and of two (RFC 6716, sections 4.3.4.3 and 4.3.4.5).
ghost use Rattle.std.specs.Prelude.{◌≡◌, ◌≢◌, ◌+◌, ◌*◌, ◌^◌, ◌<◌, ◌≤◌, ℕ, ℤ, unsigned_abs, pos, ◌-ℤ◌, int_div};
ghost use Rattle.arrayvec.specs.ArrayVec.{array_vec_len};
ghost use Rattle.band_plan.specs.Channels.{more_blocks, blocks_of, whole_of, entered_of, asks_flag, sign_script, channel_script, two_script, IsBand};
ghost use Rattle.band_plan.specs.Parts.{IsPiece};
ghost use Rattle.band_plan.specs.Trees.{Coded};
ghost use Rattle.celt_base.specs.Questions.{IsValid};
ghost use Rattle.celt_base.specs.Walks.{Walked};

use crate::orders::{Left, Share};
use crate::parts::{after, part};
use crate::pieces::Piece;
use crate::symbols::Node;
use arrayvec::ArrayVec;
use celt_base::coder::{Chooser, Coder, Enter, Place};
use celt_base::question::Question;
use celt_base::walk::ask_at;

/// A band: its size in one channel, its blocks and their change, and its level, the size exponent and one more.
#[derive(Clone, Copy)]
pub struct Band {
    pub band: u8,
    pub level: u32,
    pub n: u32,
    pub blocks: u32,
    pub tf: i32,
    pub intensity: u32,
}

// Twice the blocks, as often as the run of a block is even, at most so many times.
fn doubled(blocks: u32, run: u32, times: u32) -> u32
    requires blocks { blocks ≤ 8 }
    requires times { times ≤ 3 }
    ensures value { result ≡ more_blocks times blocks run }
    ensures most { result ≤ 64 }
{
    let mut more = blocks;
    let mut rest = run;
    let mut left = times;
    while left > 0 {
        if rest % 2 != 0 {
            return more;
        }
        more *= 2;
        rest /= 2;
        left -= 1;
    }
    more
}

// The blocks after the time-frequency change.
fn changed_blocks(band: Band) -> u32
    requires { IsBand band }
    ensures value { result ≡ blocks_of band.n band.blocks band.tf }
    ensures most { result ≤ 64 }
{
    let times = band.tf.unsigned_abs();
    if band.tf >= 0 {
        return band.blocks >> times;
    }
    doubled(band.blocks, band.n / band.blocks, times)
}

/// The whole of a band in one channel.
pub fn whole(band: Band, channel: u8) -> Piece
    requires band { IsBand band }
    requires some { band.n ≢ 1 }
    ensures value { result ≡ whole_of band channel }
    ensures is { IsPiece band.level result }
{
    Piece {
        band: band.band,
        channel,
        offset: 0,
        n: band.n,
        blocks: changed_blocks(band),
    }
}

// What the chooser is told where a band is begun.
fn entered(band: Band, channel: u8) -> Enter
    ensures { result ≡ entered_of band channel }
{
    Enter {
        band: band.band,
        channel,
        tf: band.tf,
        blocks: band.blocks,
    }
}

/// Asks whether the answer is 1.
pub fn ask_flag<C: Coder, H: Chooser>(
    coder: &mut C,
    chooser: &mut H,
    at: Place,
    question: Question,
) -> bool
    requires valid { IsValid question }
    requires few { C.calls.count coder.old < 4096 }
    ensures walked { Walked C.calls H.calls (asks_flag at question) result coder.old chooser.old coder.new chooser.new }
    ensures count { C.calls.count coder.new ≡ C.calls.count coder.old + 1 }
{
    ask_at(coder, chooser, at, question) == 1
}

// The sign of a band of one coefficient.
fn sign<C: Coder, H: Chooser>(
    coder: &mut C,
    chooser: &mut H,
    nodes: &mut ArrayVec<Node, 1344>,
    band: Band,
    channel: u8,
    share: Share,
) -> Left
    requires left { unsigned_abs share.left ≤ 2 ^ 30 }
    requires few { C.calls.count coder.old < 4096 }
    requires room { array_vec_len nodes.old < 1344 }
    ensures coded { Coded C.calls H.calls (sign_script band channel share.left) share.left result.left nodes.old.items nodes.new.items
        coder.old chooser.old coder.new chooser.new }
    ensures used { unsigned_abs (share.left -ℤ result.left) ≤ 2 ^ 9 }
    ensures count { C.calls.count coder.new ≤ C.calls.count coder.old + 1 }
    ensures room { array_vec_len nodes.new ≡ array_vec_len nodes.old + 1 }
{
    if share.left < 8 {
        nodes.push(Node::Sign { negative: false });
        return after(share, 0);
    }
    let at = Place::Sign {
        band: band.band,
        channel,
    };
    let negative = ask_flag(coder, chooser, at, Question::Raw(1));
    nodes.push(Node::Sign { negative });
    after(share, 8)
}

/// Codes a band of one channel.
pub fn channel<C: Coder, H: Chooser>(
    coder: &mut C,
    chooser: &mut H,
    nodes: &mut ArrayVec<Node, 1344>,
    band: Band,
    channel: u8,
    share: Share,
) -> Left
    requires band { IsBand band }
    requires bits { unsigned_abs share.bits ≤ 2 ^ 29 }
    requires left { unsigned_abs share.left ≤ 2 ^ 29 }
    requires few { C.calls.count coder.old + 31 ≤ 4096 }
    requires room { array_vec_len nodes.old + 31 ≤ 1344 }
    ensures coded { Coded C.calls H.calls (channel_script band channel share) share.left result.left nodes.old.items nodes.new.items
        coder.old chooser.old coder.new chooser.new }
    ensures used { unsigned_abs (share.left -ℤ result.left) ≤ 2 ^ 25 }
    ensures count { C.calls.count coder.new ≤ C.calls.count coder.old + 31 }
    ensures room { array_vec_len nodes.new ≤ array_vec_len nodes.old + 31 }
{
    if band.n == 1 {
        return sign(coder, chooser, nodes, band, channel, share);
    }
    chooser.enter(entered(band, channel));
    part(
        coder,
        chooser,
        nodes,
        band.level,
        whole(band, channel),
        share,
    )
}

/// What the second of two channels has.
fn second_share(share: Share, middle: Left) -> Share
    requires bits { unsigned_abs share.bits ≤ 2 ^ 30 }
    ensures { result ≡ record { bits = share.bits; left = middle.left } }
{
    Share {
        bits: share.bits,
        left: middle.left,
    }
}

/// Codes two channels, each with these bits.
pub fn two<C: Coder, H: Chooser>(
    coder: &mut C,
    chooser: &mut H,
    nodes: &mut ArrayVec<Node, 1344>,
    band: Band,
    share: Share,
) -> Left
    requires band { IsBand band }
    requires bits { unsigned_abs share.bits ≤ 2 ^ 28 }
    requires left { unsigned_abs share.left ≤ 2 ^ 28 }
    requires few { C.calls.count coder.old + 62 ≤ 4096 }
    requires room { array_vec_len nodes.old + 62 ≤ 1344 }
    ensures coded { Coded C.calls H.calls (two_script band share.bits share.left) share.left result.left nodes.old.items nodes.new.items
        coder.old chooser.old coder.new chooser.new }
    ensures used { unsigned_abs (share.left -ℤ result.left) ≤ 2 ^ 26 }
    ensures count { C.calls.count coder.new ≤ C.calls.count coder.old + 62 }
    ensures room { array_vec_len nodes.new ≤ array_vec_len nodes.old + 62 }
{
    let middle = channel(coder, chooser, nodes, band, 0, share);
    let second = second_share(share, middle);
    channel(coder, chooser, nodes, band, 1, second)
}
