//! The questions of the last bits of the energies (RFC 6716, section 4.3.2.2): in two rounds, in each band by band, the
//! channels inside.
ghost use Rattle.std.specs.Prelude.{◌≡◌, ◌+◌, ◌-◌, ◌*◌, ◌<◌, ◌≤◌, ◌&&◌, ℕ, nat_le, if◌then◌else◌, None, List, [], get_or, IfSome};
ghost use Rattle.celt_base.specs.WalkScripts.{Done};
ghost use Rattle.celt_base.specs.WalkTables.{WalkedTable};
ghost use Rattle.celt_base.specs.Walks.{Walked};
ghost use Rattle.band_energy.specs.EnergyRows.{WalkedRows, AreBits};
ghost use Rattle.band_energy.specs.EnergyScripts.{is_in_round, bands_in, last_bit, last_at, last_script, either};

use crate::energy::Energy;
use celt_base::coder::{Chooser, Coder, Place};
use celt_base::kind::Kind;
use celt_base::question::Question;
use celt_base::state::Allocation;
use celt_base::walk::ask_at;

// Whether a band may have a last bit in this round.
fn is_in_round(a: &Allocation, second: bool, band: u8) -> bool
    requires { band < 21 }
    ensures { result ≡ is_in_round a.now second band }
{
    a.fine[band as usize] < 8 && a.priority[band as usize] == second
}

// Whether there is a bit for each channel of a band of the round.
fn is_enough(counted: bool, channels: u8, left: u32) -> bool
    ensures { result ≡ (counted && nat_le channels left) }
{
    counted && left >= u32::from(channels)
}

// The bits that are left for the bands behind one.
fn bits_after(counted: bool, channels: u8, left: u32) -> u32
    ensures { result ≡ left - (if counted then channels else 0) }
{
    if counted {
        left.saturating_sub(u32::from(channels))
    } else {
        left
    }
}

// Asks for a last bit, where the band is reached.
fn ask_last<C: Coder, H: Chooser>(
    coder: &mut C,
    chooser: &mut H,
    band: u8,
    channel: u8,
    reached: bool,
) -> Option<u32>
    requires few { C.calls.count coder.old + (if reached then 1 else 0) ≤ 4096 }
    ensures walked { Walked C.calls H.calls (if reached then last_bit band channel else Done None) result
        coder.old chooser.old coder.new chooser.new }
    ensures bit { IfSome result (λ bit. bit < 2) }
    ensures count { C.calls.count coder.new ≤ C.calls.count coder.old + (if reached then 1 else 0) }
{
    if !reached {
        return None;
    }
    let bit = ask_at(
        coder,
        chooser,
        Place::Last { band, channel },
        Question::Raw(1),
    );
    Some(bit as u32)
}

// Asks for the bits of one round, and takes them off those that are left.
fn ask_round<C: Coder, H: Chooser>(
    coder: &mut C,
    chooser: &mut H,
    kind: Kind,
    a: &Allocation,
    second: bool,
    left: &mut u32,
) -> [[Option<u32>; 21]; 2]
    requires few { C.calls.count coder.old + 2 * bands_in a.now second kind.end ≤ 4096 }
    ensures walked { WalkedTable C.calls H.calls (last_at kind.channels a.now second left.old) kind.channels kind.end None result
        coder.old chooser.old coder.new chooser.new }
    ensures bits { AreBits result }
    ensures left { left.new ≡ left.old - kind.channels * bands_in a.now second kind.end }
    ensures count { C.calls.count coder.new ≤ C.calls.count coder.old + 2 * bands_in a.now second kind.end }
{
    let mut bits = [[None; 21]; 2];
    let mut rest = *left;
    for band in 0..kind.end {
        let counted = is_in_round(a, second, band);
        let reached = is_enough(counted, kind.channels, rest);
        for channel in 0..kind.channels {
            bits[channel as usize][band as usize] = ask_last(
                coder, chooser, band, channel, reached,
            );
        }
        rest = bits_after(counted, kind.channels, rest);
    }
    *left = rest;
    bits
}

// A band's bit from the first round, or else from the second.
fn either(first: Option<u32>, second: Option<u32>) -> Option<u32>
    ensures { result ≡ either first second }
{
    match first {
        Some(bit) => Some(bit),
        None => second,
    }
}

// The bits of a channel from both rounds.
fn row_of_rounds(first: [Option<u32>; 21], second: [Option<u32>; 21]) -> [Option<u32>; 21]
    ensures { (band : ℕ) → get_or result band None ≡ either (get_or first band None) (get_or second band None) }
{
    let mut bits = first;
    for band in 0..21 {
        bits[band] = either(bits[band], second[band]);
    }
    bits
}

/// Asks for the last bits of the energies of a frame of `budget` bits and writes them to `out.last`: Some of the answer
/// for each channel of each band that is reached, else None. While there is a bit for each channel, the bands of less than
/// eight fine bits have theirs, first those without priority and then those with it. At most 42 questions are asked.
pub fn last<C: Coder, H: Chooser>(
    coder: &mut C,
    chooser: &mut H,
    kind: Kind,
    a: &Allocation,
    budget: u32,
    out: &mut Energy,
)
    requires few { C.calls.count coder.old + 42 ≤ 4096 }
    ensures walked { WalkedRows C.calls H.calls (last_script kind a.now budget) kind None out.new.last
        coder.old chooser.old coder.new chooser.new }
    ensures bits { AreBits out.new.last }
    ensures coarse { out.new.coarse ≡ out.old.coarse }
    ensures fine { out.new.fine ≡ out.old.fine }
    ensures count { C.calls.count coder.new ≤ C.calls.count coder.old + 42 }
{
    let mut left = budget.saturating_sub(coder.tell());
    let first = ask_round(coder, chooser, kind, a, false, &mut left);
    let second = ask_round(coder, chooser, kind, a, true, &mut left);
    out.last = [
        row_of_rounds(first[0], second[0]),
        row_of_rounds(first[1], second[1]),
    ];
}
