//! What is wanted at each place.
ghost use Rattle.std.specs.Prelude.{◌≡◌, ◌+◌, ◌-◌, ◌*◌, ◌/◌, ◌^◌, ◌<◌, ◌≤◌, min, nat_eq, if◌then◌else◌, unsigned_abs, All, length, pos};
ghost use Rattle.celt_tables.specs.Tables.{width_of};
ghost use Rattle.celt_encode.specs.Outsets.{outset_of};
ghost use Rattle.celt_encode.specs.Standing.{Standing, standing_by, vector_in};
ghost use Rattle.celt_encode.specs.Vectors.{vector_of, part_of, split_wanted};
ghost use Rattle.celt_encode.specs.Leaves.{pulses_wanted};
ghost use Rattle.celt_encode.specs.Wanted.{wanted, flag_of, differ, is_on, octave_of, within_octave, gain_index, is_rich, intensity_for, is_boosted};

use crate::answers::Answers;
use crate::energies::{coarse_number, fine_number, last_number};
use crate::frame::Frame;
use crate::leaves::{Spreading, pulses_number};
use crate::rooms::Vector;
use crate::vectors::{
    is_back, is_below, items_of, opposed, part_from, split_number, stereo_number,
};
use celt_base::coder::Place;
use celt_base::kind::Kind;
use celt_base::state::Setting;
use celt_tables::width;
use fixed_math::Trig;

#[tactic(auto, unfolding(crate::specs::Wanted::flag_of))]
fn flag(is: bool) -> i64
    ensures { result ≡ flag_of is }
{
    i64::from(is)
}

#[tactic(auto, unfolding(crate::specs::Wanted::differ))]
fn differs(a: bool, b: bool) -> bool
    ensures { result ≡ differ a b }
{
    if a { !b } else { b }
}

// The octave of a setting's period.
#[tactic(auto, unfolding(crate::specs::Wanted::octave_of))]
fn octave(setting: Setting) -> u32
    ensures value { result ≡ octave_of setting }
    ensures within { 16 * 2 ^ result ≤ setting.period + 1 }
    ensures most { result ≤ 5 }
{
    let mut octave = 5;
    while 16u32 << octave > setting.period + 1 {
        octave -= 1;
    }
    octave
}

// The place of a setting's period within its octave.
#[tactic(auto, unfolding(crate::specs::Wanted::within_octave))]
fn place_in_octave(setting: Setting) -> u32
    ensures { result ≡ within_octave setting }
{
    setting.period + 1 - (16 << octave(setting))
}

// The index of a setting's gain.
#[tactic(auto, unfolding(crate::specs::Wanted::gain_index))]
fn index_of_gain(setting: Setting) -> u32
    ensures { result ≡ gain_index setting }
{
    (setting.gain / 3072).saturating_sub(1)
}

// How many coefficients a band has.
fn coefficients(kind: Kind, band: u8) -> u32
    requires { band < 21 }
    ensures value { result ≡ width_of band * 2 ^ kind.lm }
    ensures most { result ≤ 176 }
{
    width(band as u32) << kind.lm
}

#[tactic(auto, unfolding(crate::specs::Wanted::is_rich))]
fn rich(frame: &Frame, band: u8, bits: i32) -> bool
    ensures { result ≡ is_rich (outset_of frame.now) band bits }
{
    band < 21 && bits as i64 > (7 * coefficients(frame.kind, band) * 8 / 16) as i64
}

#[tactic(auto, unfolding(crate::specs::Wanted::intensity_for))]
fn intensity(frame: &Frame, coded: u32) -> u32
    ensures { result ≡ intensity_for (outset_of frame.now) coded }
{
    coded.min(8 + (frame.len >> frame.kind.lm) / 2)
}

#[tactic(auto, unfolding(crate::specs::Wanted::is_boosted))]
fn boosted(frame: &Frame, band: u8, turn: u32) -> bool
    ensures { result ≡ is_boosted (outset_of frame.now) band turn }
{
    turn == 0 && band < 21 && frame.boosts[band as usize]
}

// The part of a channel's vector, as far as it has it.
fn part_at(x: &Vector, offset: u32, n: u32) -> &[i64]
    ensures value { result.now ≡ part_of (vector_of x.now) offset n }
    ensures count { length result.now ≤ 176 }
    ensures small { All (λ v. unsigned_abs v < 2 ^ 20) result.now }
{
    part_from(items_of(x), offset as usize, n as usize)
}

// The vector that was entered in a channel.
fn vector_at<'a>(first: &'a Vector, second: &'a Vector, channel: u8) -> &'a Vector
    ensures { vector_of result.now ≡ (if nat_eq channel 0 then vector_of first.now else vector_of second.now) }
{
    if channel == 0 { first } else { second }
}

/// What is wanted at a place.
#[tactic(auto, unfolding(crate::specs::Wanted::wanted))]
pub fn number_at(
    frame: &Frame,
    trig: &Trig,
    answers: &Answers,
    first: &Vector,
    second: &Vector,
    at: Place,
) -> i64
    requires { answers.now.spread ≤ 3 }
    ensures { result ≡ wanted (standing_by (outset_of frame.now) answers.now (vector_of first.now) (vector_of second.now)) at }
{
    match at {
        Place::Silence => flag(frame.silent),
        Place::Filter => flag(frame.setting.gain >= 3072),
        Place::Octave => octave(frame.setting) as i64,
        Place::Period { .. } => place_in_octave(frame.setting) as i64,
        Place::Gain => index_of_gain(frame.setting) as i64,
        Place::Tapset | Place::TfSelect => 0,
        Place::Transient => flag(frame.transient),
        Place::Intra => flag(frame.first),
        Place::Tf { current, .. } => flag(differs(current, answers.transient)),
        Place::Spread => frame.spread as i64,
        Place::Boost { band, turn } => flag(boosted(frame, band, turn)),
        Place::Trim => frame.trim,
        Place::Skip { band, bits } => flag(rich(frame, band, bits)),
        Place::Intensity { coded } => intensity(frame, coded) as i64,
        Place::Dual => flag(frame.dual),
        Place::Theta {
            band,
            qn,
            stereo: true,
            ..
        } => stereo_number(frame, trig, band, qn),
        Place::Inversion { band } => flag(opposed(frame, band)),
        Place::SideSign { band, theta } => flag(is_back(frame, answers, band, theta)),
        Place::Sign { band, channel } => flag(is_below(frame, band, channel)),
        Place::Collapse => 1,
        Place::Theta {
            channel,
            offset,
            n,
            qn,
            stereo: false,
            ..
        } => split_number(vector_at(first, second, channel), trig, offset, n, qn),
        Place::Pulses {
            channel,
            offset,
            n,
            k,
            blocks,
            ..
        } => {
            let part = part_at(vector_at(first, second, channel), offset, n);
            pulses_number(
                part,
                trig,
                Spreading {
                    blocks,
                    pulses: k,
                    spread: answers.spread,
                },
            )
        }
        Place::Coarse { band, channel } => coarse_number(frame, answers, channel, band),
        Place::Fine {
            band,
            channel,
            bits,
        } => fine_number(frame, answers, channel, band, bits),
        Place::Last { band, channel } => last_number(frame, answers, channel, band),
    }
}
