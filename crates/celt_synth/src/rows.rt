//! The rows of energies of a frame and of the two frames before it (RFC 6716, sections 4.3.2 and 4.3.5): log2 in units of
//! 2^-10.
ghost use Rattle.std.specs.Prelude.{◌≡◌, ℕ, ◌^◌, ◌<◌, ◌≤◌, ℤ, pos, neg_ℤ, ◌-ℤ◌, ◌≤ℤ◌, All, List, [], length, get_or, map, nat_lt, if◌then◌else◌};
ghost use Rattle.std.specs.Int.{int_max, int_min};
ghost use Rattle.std.specs.List.{range_with_len};
ghost use Rattle.celt_base.specs.Energies.{IsEnergy, AreEnergies};
ghost use Rattle.celt_synth.specs.Rows.{floor, row_of, grid, entry, greater, silenced, lowered, copied_at, energies_after, older1_after, older2_after};

use celt_base::kind::Kind;

/// The least energy, -28 steps.
pub const FLOOR: i64 = -28_672;

// A row has 21 entries.
pub fn whole(row: &[i64; 21])
    ensures { length row.now ≡ 21 }
{}

// Both rows have.
fn both_whole(rows: &[[i64; 21]; 2])
    ensures { (c : ℕ) → c < 2 → length (get_or rows.now c []) ≡ 21 }
{
    whole(&rows[0]);
    whole(&rows[1]);
}

// The greater of two energies.
pub fn greater_of(a: i64, b: i64) -> i64
    requires first { IsEnergy a }
    requires second { IsEnergy b }
    ensures value { result ≡ int_max a b }
    ensures energy { IsEnergy result }
{
    a.max(b)
}

// The less of two energies.
fn less_of(a: i64, b: i64) -> i64
    requires first { IsEnergy a }
    requires second { IsEnergy b }
    ensures value { result ≡ int_min a b }
    ensures energy { IsEnergy result }
{
    a.min(b)
}

// A concealed frame's energy.
fn lowered_energy(e: i64) -> i64
    requires { IsEnergy e }
    ensures value { result ≡ int_max floor (e -ℤ pos 1536) }
    ensures energy { IsEnergy result }
{
    (e - 1536).max(FLOOR)
}

// The greater of two rows' energies in each band.
fn raise_row(row: &mut [i64; 21], other: &[i64; 21])
    requires row { All IsEnergy row.old }
    requires other { All IsEnergy other.now }
    ensures value { row.new ≡ row_of (λ b. int_max (get_or row.old b (pos 0)) (get_or other.now b (pos 0))) }
    ensures energies { All IsEnergy row.new }
{
    for b in 0..21usize {
        row[b] = greater_of(row[b], other[b]);
    }
}

// The less of two rows' energies in each band.
fn lessen_row(row: &mut [i64; 21], other: &[i64; 21])
    requires row { All IsEnergy row.old }
    requires other { All IsEnergy other.now }
    ensures value { row.new ≡ row_of (λ b. int_min (get_or row.old b (pos 0)) (get_or other.now b (pos 0))) }
    ensures energies { All IsEnergy row.new }
{
    for b in 0..21usize {
        row[b] = less_of(row[b], other[b]);
    }
}

// A concealed frame's energies in the bands below `end`.
fn lower_row(row: &mut [i64; 21], end: u8)
    requires end { end ≤ 21 }
    requires row { All IsEnergy row.old }
    ensures value { row.new ≡ row_of (λ b. if nat_lt b end then int_max floor (get_or row.old b (pos 0) -ℤ pos 1536) else get_or row.old b (pos 0)) }
    ensures energies { All IsEnergy row.new }
{
    for b in 0..usize::from(end) {
        row[b] = lowered_energy(row[b]);
    }
}

// One energy for the bands from `end` on.
fn clear_row(row: &mut [i64; 21], end: u8, value: i64)
    requires end { end ≤ 21 }
    requires row { All IsEnergy row.old }
    requires value { IsEnergy value }
    ensures value { row.new ≡ row_of (λ b. if nat_lt b end then get_or row.old b (pos 0) else value) }
    ensures energies { All IsEnergy row.new }
{
    for b in usize::from(end)..21 {
        row[b] = value;
    }
}

/// A mono frame first takes the greater of the two channels' energies in each band.
pub fn take_greater(energies: &mut [[i64; 21]; 2], kind: Kind)
    requires { AreEnergies energies.old }
    ensures value { energies.new ≡ greater kind.channels energies.old }
    ensures bounds { AreEnergies energies.new }
{
    both_whole(energies);
    if kind.channels == 1 {
        let other = energies[1];
        raise_row(&mut energies[0], &other);
    }
}

/// Silence sets the energies of all bands of the frame's channels to the least.
pub fn silence(energies: &mut [[i64; 21]; 2], kind: Kind)
    requires { AreEnergies energies.old }
    ensures value { energies.new ≡ silenced kind.channels energies.old }
    ensures bounds { AreEnergies energies.new }
{
    both_whole(energies);
    energies[0] = [FLOOR; 21];
    if kind.channels == 2 {
        energies[1] = [FLOOR; 21];
    }
}

/// A concealed frame's energies.
pub fn lower(energies: &mut [[i64; 21]; 2], kind: Kind)
    requires { AreEnergies energies.old }
    ensures value { energies.new ≡ lowered kind.channels kind.end energies.old }
    ensures bounds { AreEnergies energies.new }
{
    both_whole(energies);
    lower_row(&mut energies[0], kind.end);
    if kind.channels == 2 {
        lower_row(&mut energies[1], kind.end);
    }
}

// Mono copies its energies to the second channel.
fn copy_mono(energies: &mut [[i64; 21]; 2], kind: Kind)
    requires { AreEnergies energies.old }
    ensures value { energies.new ≡ grid (copied_at kind.channels energies.old) }
    ensures bounds { AreEnergies energies.new }
{
    both_whole(energies);
    if kind.channels == 1 {
        energies[1] = energies[0];
    }
}

// The less of two grids' energies.
fn lessen_both(rows: &mut [[i64; 21]; 2], other: &[[i64; 21]; 2])
    requires rows { AreEnergies rows.old }
    requires other { AreEnergies other.now }
    ensures value { rows.new ≡ grid (λ c b. int_min (entry rows.old c b) (entry other.now c b)) }
    ensures bounds { AreEnergies rows.new }
{
    lessen_row(&mut rows[0], &other[0]);
    lessen_row(&mut rows[1], &other[1]);
}

// One energy for the bands from `end` on.
fn clear_both(rows: &mut [[i64; 21]; 2], end: u8, value: i64)
    requires end { end ≤ 21 }
    requires rows { AreEnergies rows.old }
    requires value { IsEnergy value }
    ensures value { rows.new ≡ grid (λ c b. if nat_lt b end then entry rows.old c b else value) }
    ensures bounds { AreEnergies rows.new }
{
    clear_row(&mut rows[0], end, value);
    clear_row(&mut rows[1], end, value);
}

// The older rows, once the energies of the frame stand in both channels.
fn shift_rows(
    energies: &[[i64; 21]; 2],
    older1: &mut [[i64; 21]; 2],
    older2: &mut [[i64; 21]; 2],
    transient: bool,
)
    requires energies { AreEnergies energies.now }
    requires first { AreEnergies older1.old }
    requires second { AreEnergies older2.old }
    ensures first { older1.new ≡ grid (λ c b. if transient then int_min (entry older1.old c b) (entry energies.now c b) else entry energies.now c b) }
    ensures second { older2.new ≡ grid (λ c b. if transient then entry older2.old c b else entry older1.old c b) }
    ensures first_bounds { AreEnergies older1.new }
    ensures second_bounds { AreEnergies older2.new }
{
    both_whole(energies);
    both_whole(older1);
    both_whole(older2);
    if transient {
        return lessen_both(older1, energies);
    }
    *older2 = *older1;
    *older1 = *energies;
}

/// The energies after a frame: mono copies them to the second channel, and bands from the end on have energy 0.
pub fn keep_energies(energies: &mut [[i64; 21]; 2], kind: Kind)
    requires { AreEnergies energies.old }
    ensures value { energies.new ≡ energies_after kind.channels kind.end energies.old }
    ensures bounds { AreEnergies energies.new }
{
    copy_mono(energies, kind);
    clear_both(energies, kind.end, 0);
}

/// The rows after a frame: mono copies its energies to the second channel, the older rows move on, and bands from the end on
/// have energy 0 and the least in the older rows.
pub fn keep_rows(
    energies: &mut [[i64; 21]; 2],
    older1: &mut [[i64; 21]; 2],
    older2: &mut [[i64; 21]; 2],
    kind: Kind,
    transient: bool,
)
    requires energies { AreEnergies energies.old }
    requires first { AreEnergies older1.old }
    requires second { AreEnergies older2.old }
    ensures energies { energies.new ≡ energies_after kind.channels kind.end energies.old }
    ensures first { older1.new ≡ older1_after kind.channels kind.end transient energies.old older1.old }
    ensures second { older2.new ≡ older2_after kind.end transient older1.old older2.old }
    ensures energies_bounds { AreEnergies energies.new }
    ensures first_bounds { AreEnergies older1.new }
    ensures second_bounds { AreEnergies older2.new }
{
    keep_energies(energies, kind);
    shift_rows(energies, older1, older2, transient);
    clear_both(older1, kind.end, FLOOR);
    clear_both(older2, kind.end, FLOOR);
}
