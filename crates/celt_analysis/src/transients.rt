//! Transients (RFC 6716, section 4.3.1): the energies of the blocks of 120 values of a frame, and of the one before.
ghost use Rattle.std.specs.Prelude.{◌≡◌, ◌+◌, ◌*◌, ◌^◌, ◌<◌, ◌≤◌, ◌||◌, nat_lt, unsigned_abs, length, All};
ghost use Rattle.std.specs.Int.{int_shr};
ghost use Rattle.celt_analysis.specs.Sums.{squared};
ghost use Rattle.celt_analysis.specs.Transients.{block_energy, energies_in, rises_within};

/// The values of a block.
const BLOCK: usize = 120;

// The square of a value in whole samples. It is narrowed first, so that the product is one of 32 bits by 32.
fn square(value: i64) -> u64
    requires { unsigned_abs value < 2 ^ 29 }
    ensures value { result ≡ squared (int_shr value 12) }
    ensures size { result ≤ 2 ^ 34 }
{
    let whole = ((value >> 12) as i32) as i64;
    (whole * whole) as u64
}

// The energy of block `b`.
fn energy_of(values: &[i64], b: usize) -> u64
    requires room { 120 * b + 120 ≤ length values.now }
    requires sizes { All (λ v. unsigned_abs v < 2 ^ 29) values.now }
    ensures value { result ≡ block_energy values.now b }
    ensures size { result < 2 ^ 41 }
{
    let mut sum = 0u64;
    for t in 0..BLOCK {
        sum += square(values[BLOCK * b + t]);
    }
    sum
}

// The energy of block `b` in all channels. In mono `right` is not read.
#[tactic(auto, unfolding(crate::specs::Transients::energies_in))]
fn energies_of(left: &[i64], right: &[i64], stereo: bool, b: usize) -> u64
    requires left { 120 * b + 120 ≤ length left.now }
    requires right { 120 * b + 120 ≤ length right.now }
    requires left_sizes { All (λ v. unsigned_abs v < 2 ^ 29) left.now }
    requires right_sizes { All (λ v. unsigned_abs v < 2 ^ 29) right.now }
    ensures value { result ≡ energies_in stereo left.now right.now b }
    ensures size { result < 2 ^ 42 }
{
    let energy = energy_of(left, b);
    if stereo {
        energy + energy_of(right, b)
    } else {
        energy
    }
}

// Whether a rise was found, or is one from `before` to `next`.
fn found_rise(found: bool, before: u64, next: u64) -> bool
    requires { before < 2 ^ 42 }
    ensures { result ≡ found || nat_lt (16 * before + 7680) next }
{
    found || next > 16 * before + 7680
}

/// Whether the energy rises as in a transient behind one of the first `count` blocks. In mono `right` is not read.
pub fn rises(left: &[i64], right: &[i64], stereo: bool, count: usize) -> bool
    requires left { 120 * count + 120 ≤ length left.now }
    requires right { 120 * count + 120 ≤ length right.now }
    requires left_sizes { All (λ v. unsigned_abs v < 2 ^ 29) left.now }
    requires right_sizes { All (λ v. unsigned_abs v < 2 ^ 29) right.now }
    ensures { result ≡ rises_within (energies_in stereo left.now right.now) count }
{
    let mut found = false;
    let mut before = energies_of(left, right, stereo, 0);
    for b in 0..count {
        let next = energies_of(left, right, stereo, b + 1);
        found = found_rise(found, before, next);
        before = next;
    }
    found
}
