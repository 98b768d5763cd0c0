//! The audio packets of a page (RFC 3533, section 5; RFC 6716, section 3): their tests, and where they stand.
ghost use Rattle.std.specs.Prelude.{◌≡◌, ◌+◌, ◌*◌, ◌^◌, ◌<◌, ◌≤◌, List, ℕ, Some, length, drop, sum, nat_lt, slice_get, IfOk, IfSome};
ghost use Rattle.opus_packets.specs.Cut.{parts};
ghost use Rattle.opus_stream.specs.Packets.{lengths_from};
ghost use Rattle.opus_stream.specs.Audio.{rule_number, packet_fault, longest, packet_samples, samples_in, packets_fault};
ghost use Rattle.opus_stream.specs.Tallies.{fault_in, IsTally, packets_on};
ghost use Rattle.ogg_pages.specs.Bounds.{lacing_of};
ghost use Rattle.std.specs.List.{slice_range};

use celt_base::status::{Fault, FaultName};
use ogg_pages::page::HEADER_LEN;
use opus_packets::{PacketFault, split};

/// The greatest length of an audio packet.
const LONGEST: usize = 61440;

/// The number of a rule.
fn rule_number(rule: PacketFault) -> u8
    ensures { result ≡ rule_number rule }
{
    match rule {
        PacketFault::R1 => 1,
        PacketFault::R2 => 2,
        PacketFault::R3 => 3,
        PacketFault::R4 => 4,
        PacketFault::R5 => 5,
        PacketFault::R6 => 6,
        PacketFault::R7 => 7,
    }
}

/// Whether so many bytes are more than an audio packet may have.
fn is_too_long(len: usize) -> bool
    ensures { result ≡ nat_lt longest len }
{
    len > LONGEST
}

/// The samples per channel of a sound audio packet.
#[tactic(auto, unfolding(crate::specs::Audio::packet_fault, crate::specs::Audio::packet_samples))]
fn samples_of(packet: &[u8], number: u64) -> Result<u32, Fault>
    ensures fault { fault_in result ≡ packet_fault number packet.now }
    ensures value { IfOk result (λ samples. samples ≡ packet_samples packet.now) }
    ensures bound { IfOk result (λ samples. samples ≤ 5760) }
{
    let at = number;
    if is_too_long(packet.len()) {
        return Err(Fault {
            name: FaultName::PacketTooLong,
            at,
        });
    }
    match split(packet) {
        Err(rule) => Err(Fault {
            name: FaultName::BadPacket {
                rule: rule_number(rule),
            },
            at,
        }),
        Ok(frames) => {
            let config = frames.config();
            if config < 16 {
                return Err(Fault {
                    name: FaultName::NotCelt {
                        config: config as u8,
                    },
                    at,
                });
            }
            Ok(frames.samples())
        }
    }
}

/// What the packets that end on a page come to.
#[derive(Clone, Copy, Debug)]
pub(crate) struct Tally {
    /// How many there are.
    pub(crate) packets: usize,
    /// Their samples per channel.
    pub(crate) samples: u32,
    /// Their bytes, with those from pages before.
    pub(crate) len: usize,
}

/// Tests the packets that end on a page, and the one that is open behind them. `bytes` are those of the
/// packet that is open before the page, `before` of them, and the page's segments. The packets are numbered
/// from `number` on.
pub(crate) fn tally_of(
    lacing: &[u8],
    bytes: &[u8],
    before: usize,
    number: u64,
) -> Result<Tally, Fault>
    requires segments { length lacing.now ≤ 255 }
    requires body { length bytes.now ≡ before + sum lacing.now }
    requires before { before ≤ 61440 }
    requires number { number < 2 ^ 60 }
    ensures { IsTally lacing.now bytes.now before number result }
{
    let mut tally = Tally {
        packets: 0,
        samples: 0,
        len: 0,
    };
    let mut end = before;
    for value in lacing {
        end += usize::from(*value);
        if *value == 255 {
            continue;
        }
        match samples_of(&bytes[tally.len..end], number + tally.packets as u64) {
            Ok(samples) => {
                tally = Tally {
                    packets: tally.packets + 1,
                    samples: tally.samples + samples,
                    len: end,
                }
            }
            Err(fault) => return Err(fault),
        }
    }
    if is_too_long(end - tally.len) {
        return Err(Fault {
            name: FaultName::PacketTooLong,
            at: number + tally.packets as u64,
        });
    }
    Ok(tally)
}

/// The bytes from one place up to another, where they are there.
fn between(bytes: &[u8], start: usize, end: usize) -> &[u8]
    requires { start ≤ end }
    ensures { end ≤ length bytes.now → result.now ≡ slice_range bytes.now start end }
{
    if end > bytes.len() {
        return &[];
    }
    &bytes[start..end]
}

/// The packet with this number of those that end on a page, from 0. `bytes` are those of the packet that is
/// open before the page, `before` of them, and the page's segments.
pub(crate) fn packet_at<'a>(lacing: &[u8], bytes: &'a [u8], before: usize, i: usize) -> &'a [u8]
    requires segments { length lacing.now ≤ 255 }
    requires before { before ≤ 126465 }
    ensures { length bytes.now ≡ before + sum lacing.now → i < length (lengths_from before lacing.now) →
        slice_get (packets_on lacing.now bytes.now before) i ≡ Some result.now }
{
    let mut count = 0;
    let mut start = 0;
    let mut end = before;
    for value in lacing {
        end += usize::from(*value);
        if *value == 255 {
            continue;
        }
        if count == i {
            return between(bytes, start, end);
        }
        count += 1;
        start = end;
    }
    &[]
}

/// The lacing values of a page.
pub(crate) fn lacing_of(page: &[u8]) -> &[u8]
    ensures value { result.now ≡ lacing_of page.now }
    ensures few { length result.now ≤ 255 }
{
    if page.len() < HEADER_LEN {
        return &[];
    }
    let (header, rest) = page.split_at(HEADER_LEN);
    let count = usize::from(header[26]).min(rest.len());
    let (lacing, _) = rest.split_at(count);
    lacing
}
