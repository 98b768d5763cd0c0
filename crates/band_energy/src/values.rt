//! The energies that come of the answers (RFC 6716, section 4.3.2), log2 in units of 2^-10.
ghost use Rattle.std.specs.Prelude.{◌≡◌, ◌+◌, ◌-◌, ◌*◌, ◌^◌, ◌<◌, ◌≤◌, ◌+ℤ◌, ◌-ℤ◌, ◌*ℤ◌, ◌≤ℤ◌, ◌<ℤ◌, ℕ, ℤ, pos, neg_ℤ, unsigned_abs, get_or, [], slice_index, IfSome, None, All, length, nat_lt, if◌then◌else◌};
ghost use Rattle.std.specs.Int.{int_max};
ghost use Rattle.std.proofs.Props.{props};
ghost use Rattle.celt_base.specs.Energies.{IsEnergy, AreEnergies};
ghost use Rattle.band_energy.specs.EnergyRows.{HasFineBits, AreCoarse, FitsFineBits, AreBits};
ghost use Rattle.band_energy.specs.EnergyValues.{alpha_of, beta_of, carried, coarse_of, fine_of, last_of, kept_of, energy_from, energy_by, energy_at, energies_of};

use crate::energy::Energy;
use celt_base::kind::Kind;
use celt_base::state::Allocation;

// What the energies of a channel go by: the standard's alpha and beta (Q15), and where the bands end.
#[derive(Clone, Copy)]
struct Terms {
    alpha: u32,
    beta: u32,
    end: u8,
    ghost kept: { alpha ≤ 29440 },
    ghost lost: { beta ≤ 2 ^ 15 },
    ghost ended: { end ≤ 21 },
}

// The answers of a channel's band, whose fine energy has so many bits.
#[derive(Clone, Copy)]
struct BandAnswers {
    bits: u32,
    coarse: i32,
    fine: u32,
    last: Option<u32>,
    ghost few_bits: { bits ≤ 8 },
    ghost small: { unsigned_abs coarse ≤ 2 ^ 14 },
    ghost fits: { fine < 2 ^ bits },
    ghost bit: { IfSome last (λ bit. bit < 2) } by { Prim.hlevel props },
}

// The standard's alpha (Q15): how much of the energy before in time is kept.
pub(crate) fn alpha(lm: u8, intra: bool) -> u32
    ensures value { result ≡ alpha_of lm intra }
    ensures most { result ≤ 29440 }
{
    if intra {
        return 0;
    }
    match lm {
        0 => 29_440,
        1 => 26_112,
        2 => 21_248,
        _ => 16_384,
    }
}

// The standard's beta (Q15): how much of each coarse value the bands above lose again.
pub(crate) fn beta(lm: u8, intra: bool) -> u32
    ensures value { result ≡ beta_of lm intra }
    ensures most { result ≤ 2 ^ 15 }
{
    if intra {
        return 4915;
    }
    match lm {
        0 => 30_147,
        1 => 22_282,
        2 => 12_124,
        _ => 6554,
    }
}

// What a channel's energies go by. One that the kind does not have has no bands.
fn terms_of(kind: Kind, intra: bool, channel: u8) -> Terms
    ensures alpha { result.alpha ≡ alpha_of kind.lm intra }
    ensures beta { result.beta ≡ beta_of kind.lm intra }
    ensures end { result.end ≡ (if nat_lt channel kind.channels then kind.end else 0) }
{
    let end = if channel < kind.channels { kind.end } else { 0 };
    Terms {
        alpha: alpha(kind.lm, intra),
        beta: beta(kind.lm, intra),
        end,
    }
}

// What counts of the energy before in time.
fn counted(old: i64) -> i64
    requires { IsEnergy old }
    ensures value { result ≡ int_max (neg_ℤ (pos 9216)) old }
    ensures least { neg_ℤ (pos 9216) ≤ℤ result }
    ensures most { result <ℤ pos (2 ^ 33) }
{
    old.max(-9216)
}

// What is kept of the energy before in time (units of 2^-17).
pub(crate) fn kept(alpha: u32, old: i64) -> i64
    requires alpha { alpha ≤ 29440 }
    requires old { IsEnergy old }
    ensures value { result ≡ kept_of alpha old }
    ensures least { neg_ℤ (pos (2 ^ 21)) ≤ℤ result }
    ensures most { result ≤ℤ pos (115 * 2 ^ 33) }
{
    (i64::from(alpha) * counted(old) + 128) >> 8
}

// The energy of a sum in units of 2^-17.
pub(crate) fn energy_from(sum: i64) -> i64
    requires { sum ≤ℤ pos (126 * 2 ^ 33) }
    ensures value { result ≡ energy_from sum }
    ensures least { neg_ℤ (pos 28672) ≤ℤ result }
    ensures most { result ≤ℤ pos (126 * 2 ^ 26) }
{
    (sum.max(-28 * (1 << 17)) + 64) >> 7
}

// What a fine energy of so many bits adds.
fn fine_part(bits: u32, fine: u32) -> i64
    requires bits { bits ≤ 8 }
    requires fine { fine < 2 ^ bits }
    ensures value { result ≡ fine_of bits fine }
    ensures least { neg_ℤ (pos 512) ≤ℤ result }
    ensures most { result ≤ℤ pos 512 }
{
    i64::from((fine * 1024 + 512) >> bits) - 512
}

// What a last bit adds.
fn last_part(bits: u32, last: Option<u32>) -> i64
    requires bits { bits ≤ 8 }
    requires bit { IfSome last (λ bit. bit < 2) }
    ensures value { result ≡ last_of bits last }
    ensures least { neg_ℤ (pos 512) ≤ℤ result }
    ensures most { result ≤ℤ pos 512 }
{
    match last {
        Some(bit) => (i64::from(bit) * 1024 - 512) >> (bits + 1),
        None => 0,
    }
}

// The coarse energy by the energy before it in time, by what is carried from the bands below and by its own value.
fn coarse_energy(alpha: u32, old: i64, carried: i64, value: i32) -> i64
    requires alpha { alpha ≤ 29440 }
    requires old { IsEnergy old }
    requires carried { unsigned_abs carried ≤ 20 * 2 ^ 31 }
    requires value { unsigned_abs value ≤ 2 ^ 14 }
    ensures value { result ≡ coarse_of alpha old carried value }
    ensures least { neg_ℤ (pos 28672) ≤ℤ result }
    ensures most { result ≤ℤ pos (126 * 2 ^ 26) }
{
    energy_from(kept(alpha, old) + carried + i64::from(value) * (1 << 17))
}

// The energy by the answers.
fn energy_after(alpha: u32, old: i64, carried: i64, answers: BandAnswers) -> i64
    requires alpha { alpha ≤ 29440 }
    requires old { IsEnergy old }
    requires carried { unsigned_abs carried ≤ 20 * 2 ^ 31 }
    ensures value { result ≡ coarse_of alpha old carried answers.coarse +ℤ fine_of answers.bits answers.fine
        +ℤ last_of answers.bits answers.last }
    ensures energy { IsEnergy result }
{
    coarse_energy(alpha, old, carried, answers.coarse)
        + fine_part(answers.bits, answers.fine)
        + last_part(answers.bits, answers.last)
}

// What is carried to the band above one with these answers.
fn carry_more(beta: u32, carried: i64, answers: BandAnswers) -> i64
    requires beta { beta ≤ 2 ^ 15 }
    requires carried { unsigned_abs carried ≤ 20 * 2 ^ 31 }
    ensures value { result ≡ carried +ℤ pos (2 ^ 17 - 4 * beta) *ℤ answers.coarse }
    ensures size { unsigned_abs result ≤ unsigned_abs carried + 2 ^ 31 }
{
    carried + i64::from((1 << 17) - 4 * beta) * i64::from(answers.coarse)
}

// The answers of a channel's band.
fn answers_of(a: &Allocation, e: &Energy, channel: usize, band: usize) -> BandAnswers
    requires channel { channel < 2 }
    requires band { band < 21 }
    requires bits { slice_index a.now.fine band ≤ 8 }
    requires coarse { AreCoarse e.now.coarse }
    requires fine { FitsFineBits a.now.fine e.now.fine }
    requires last { AreBits e.now.last }
    ensures bits { result.bits ≡ slice_index a.now.fine band }
    ensures coarse { result.coarse ≡ get_or (get_or e.now.coarse channel []) band (pos 0) }
    ensures fine { result.fine ≡ get_or (get_or e.now.fine channel []) band 0 }
    ensures last { result.last ≡ get_or (get_or e.now.last channel []) band None }
{
    BandAnswers {
        bits: a.fine[band],
        coarse: e.coarse[channel][band],
        fine: e.fine[channel][band],
        last: e.last[channel][band],
    }
}

// The energies of a channel, band by band.
fn change_row(row: &mut [i64; 21], terms: Terms, channel: usize, a: &Allocation, e: &Energy)
    requires channel { channel < 2 }
    requires row { All IsEnergy row.old }
    requires bits { (band : ℕ) → band < terms.end → slice_index a.now.fine band ≤ 8 }
    requires coarse { AreCoarse e.now.coarse }
    requires fine { FitsFineBits a.now.fine e.now.fine }
    requires last { AreBits e.now.last }
    ensures below { (band : ℕ) → band < terms.end
        → get_or row.new band (pos 0) ≡ energy_by terms.alpha terms.beta a.now.fine e.now channel row.old band }
    ensures above { (band : ℕ) → terms.end ≤ band → get_or row.new band (pos 0) ≡ get_or row.old band (pos 0) }
    ensures energies { All IsEnergy row.new }
    ensures length { length row.new ≡ 21 }
{
    let mut carried = 0;
    for band in 0..usize::from(terms.end) {
        let answers = answers_of(a, e, channel, band);
        row[band] = energy_after(terms.alpha, row[band], carried, answers);
        carried = carry_more(terms.beta, carried, answers);
    }
}

/// Takes the energies of the frame before to those of a frame with these answers (RFC 6716, section 4.3.2). The bands from
/// the kind's end on and the channels that it does not have keep theirs. The energies are from -2^15 up to 2^33, before and
/// after; a coarse value is at most 2^14 in size, a fine energy fits its band's bits, and a last bit is 0 or 1.
pub fn apply(energies: &mut [[i64; 21]; 2], kind: Kind, intra: bool, a: &Allocation, e: &Energy)
    requires energies { AreEnergies energies.old }
    requires bits { HasFineBits kind a.now.fine }
    requires coarse { AreCoarse e.now.coarse }
    requires fine { FitsFineBits a.now.fine e.now.fine }
    requires last { AreBits e.now.last }
    ensures value { energies.new ≡ energies_of kind intra a.now e.now energies.old }
    ensures bounds { AreEnergies energies.new }
{
    change_row(&mut energies[0], terms_of(kind, intra, 0), 0, a, e);
    change_row(&mut energies[1], terms_of(kind, intra, 1), 1, a, e);
}
