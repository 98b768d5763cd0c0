//! The search for the vector of whole numbers that is near in direction to a band's part (RFC 6716, section
//! 5.3.8.1). Pulses are added one at a time, each at the place where (R + |x|)^2 / (Q + 2y + 1) is greatest,
//! x being the part's item there and y the pulses that the place holds: that is the square of what the vector's
//! correlation R with the part would be, over what its energy Q would be. For the part (3, -2) the first pulse
//! goes to the first place, since 9/1 is above 4/1, and the second to the other, since (3 + 2)^2/2 is above
//! (3 + 3)^2/4: the vector is (1, -1).
ghost use Rattle.std.specs.Prelude.{◌≡◌, ℕ, ℤ, List, ◌+◌, ◌*◌, ◌^◌, ◌<◌, ◌≤◌, pos, unsigned_abs, All, IsTrue, length, map, nat_lt, replicate, slice_index, sum_by, take};
ghost use Rattle.std.specs.Prelude.{slice_index_or as item};
ghost use Rattle.pulse_search.specs.Pulses.{dot, squared, match_with, energy_with, best_place, IsBest, IsNext, AgreesInSign, pulses_by, signed, signed_all, vector_of};

/// The most items that a part has.
const LONGEST: usize = 176;

/// The vector's correlation with the part, and its energy.
#[derive(Clone, Copy)]
struct Sums {
    correlation: u64,
    energy: u64,
}

/// The correlation's square over the energy, with one more pulse.
#[derive(Clone, Copy)]
struct Gain {
    square: u64,
    energy: u64,
}

impl Sums {
    // The sums with one more pulse at a place of this size and so many pulses.
    fn with_pulse(self, size: u32, pulses: u32) -> Sums
        requires correlation { self.correlation + size < 2 ^ 32 }
        requires energy { self.energy + (2 * pulses + 1) ≤ 2 ^ 24 }
        ensures correlation { result.correlation ≡ self.correlation + size }
        ensures energy { result.energy ≡ self.energy + (2 * pulses + 1) }
    {
        Sums {
            correlation: self.correlation + size as u64,
            energy: self.energy + 1 + 2 * pulses as u64,
        }
    }

    // What that pulse gains.
    fn gain(self, size: u32, pulses: u32) -> Gain
        requires correlation { self.correlation + size < 2 ^ 32 }
        requires energy { self.energy + (2 * pulses + 1) ≤ 2 ^ 24 }
        ensures square { result.square ≡ squared (self.correlation + size) }
        ensures energy { result.energy ≡ self.energy + (2 * pulses + 1) }
    {
        let next = self.with_pulse(size, pulses);
        Gain {
            square: next.correlation * next.correlation,
            energy: next.energy,
        }
    }
}

impl Gain {
    // Whether this fraction is greater, in products of 64 bits.
    fn exceeds(self, other: Gain) -> bool
        requires this { self.square * other.energy < 2 ^ 64 }
        requires that { other.square * self.energy < 2 ^ 64 }
        ensures { result ≡ nat_lt (other.square * self.energy) (self.square * other.energy) }
    {
        other.square * self.energy < self.square * other.energy
    }

    // The same in products of 128 bits.
    fn exceeds_wide(self, other: Gain) -> bool
        ensures { result ≡ nat_lt (other.square * self.energy) (self.square * other.energy) }
    {
        (other.square as u128) * (self.energy as u128)
            < (self.square as u128) * (other.energy as u128)
    }
}

/// Writes the vector of `k` pulses, 1 to 4096, that the search finds for the part `x` of 1 to 176 items below
/// 2^20 in size, of any one unit: as many numbers, whose sizes add up to `k`. Of places that are equally good
/// the first takes the pulse, and each number has its item's sign (RFC 6716, section 5.3.8.1).
pub fn search(x: &[i64], k: u32, out: &mut [i32])
    requires count { (1 ≤ length x.now) × (length x.now ≤ 176) }
    requires sizes { All (λ v. unsigned_abs v < 2 ^ 20) x.now }
    requires pulses { (1 ≤ k) × (k ≤ 4096) }
    requires room { length out.old ≡ length x.now }
    ensures value { out.new ≡ vector_of x.now k }
    ensures pulses { sum_by unsigned_abs out.new ≡ k }
    ensures signs { (i : ℕ) → i < length x.now → AgreesInSign (item x.now i (pos 0)) (item out.new i (pos 0)) }
{
    let count = x.len();
    let sizes = sizes_of(x);
    let mut pulses = [0u32; LONGEST];
    place_pulses(&sizes[..count], k, &mut pulses[..count]);
    put_signed(x, &pulses[..count], out);
}

// The sizes of the part's items, and zeros behind them.
fn sizes_of(x: &[i64]) -> [u32; LONGEST]
    requires count { length x.now ≤ 176 }
    requires sizes { All (λ v. unsigned_abs v < 2 ^ 20) x.now }
    ensures { take (length x.now) result ≡ map unsigned_abs x.now }
{
    let mut sizes = [0u32; LONGEST];
    for i in 0..x.len() {
        sizes[i] = x[i].unsigned_abs() as u32;
    }
    sizes
}

// Adds the pulses one by one to a vector of zeros.
fn place_pulses(sizes: &[u32], k: u32, pulses: &mut [u32])
    requires count { (1 ≤ length sizes.now) × (length sizes.now ≤ 176) }
    requires sizes { All (λ v. v < 2 ^ 20) sizes.now }
    requires most { k ≤ 4096 }
    requires zeros { pulses.old ≡ replicate (length sizes.now) 0 }
    ensures { pulses.new ≡ pulses_by sizes.now k }
{
    let narrow = (k as u64) * (k as u64) * (largest(sizes) as u64) < 0x1_0000_0000;
    let mut sums = Sums {
        correlation: 0,
        energy: 0,
    };
    for _ in 0..k {
        let place = best(sizes, pulses, sums, narrow);
        sums = sums.with_pulse(sizes[place], pulses[place]);
        pulses[place] += 1;
    }
}

// A bound of the sizes.
fn largest(sizes: &[u32]) -> u32
    requires { All (λ v. v < 2 ^ 20) sizes.now }
    ensures bound { All (λ v. v ≤ result) sizes.now }
    ensures size { result < 2 ^ 20 }
{
    let mut most: u32 = 0;
    for i in 0..sizes.len() {
        if most < sizes[i] {
            most = sizes[i];
        }
    }
    most
}

// The first place at which a pulse gains most; `narrow` says that products fit 64 bits.
fn best(sizes: &[u32], pulses: &[u32], sums: Sums, narrow: bool) -> usize
    requires count { 1 ≤ length sizes.now }
    requires same { length pulses.now ≡ length sizes.now }
    requires correlation { sums.correlation ≡ dot sizes.now pulses.now }
    requires energy { sums.energy ≡ dot pulses.now pulses.now }
    requires correlations { All (λ v. dot sizes.now pulses.now + v < 2 ^ 32) sizes.now }
    requires energies { All (λ v. dot pulses.now pulses.now + (2 * v + 1) ≤ 2 ^ 24) pulses.now }
    requires narrow { IsTrue narrow → (i j : ℕ) → i < length sizes.now → j < length sizes.now
        → match_with sizes.now pulses.now i * energy_with pulses.now j < 2 ^ 64 }
    ensures { IsBest sizes.now pulses.now (length sizes.now) result }
{
    let mut place = 0;
    let mut next = next_better(sizes, pulses, sums, place, narrow);
    while next < sizes.len() {
        place = next;
        next = next_better(sizes, pulses, sums, place, narrow);
    }
    place
}

// The first place behind this one at which a pulse gains more; the number of places where there is none.
fn next_better(sizes: &[u32], pulses: &[u32], sums: Sums, place: usize, narrow: bool) -> usize
    requires place { place < length sizes.now }
    requires same { length pulses.now ≡ length sizes.now }
    requires correlation { sums.correlation ≡ dot sizes.now pulses.now }
    requires energy { sums.energy ≡ dot pulses.now pulses.now }
    requires correlations { All (λ v. dot sizes.now pulses.now + v < 2 ^ 32) sizes.now }
    requires energies { All (λ v. dot pulses.now pulses.now + (2 * v + 1) ≤ 2 ^ 24) pulses.now }
    requires narrow { IsTrue narrow → (i j : ℕ) → i < length sizes.now → j < length sizes.now
        → match_with sizes.now pulses.now i * energy_with pulses.now j < 2 ^ 64 }
    ensures { IsNext sizes.now pulses.now place result }
{
    if narrow {
        next_narrow(sizes, pulses, sums, place)
    } else {
        next_wide(sizes, pulses, sums, place)
    }
}

// The same in products of 64 bits. Few places are better than the one before them, so this loop is the
// search's time: it keeps nothing from place to place.
fn next_narrow(sizes: &[u32], pulses: &[u32], sums: Sums, place: usize) -> usize
    requires place { place < length sizes.now }
    requires same { length pulses.now ≡ length sizes.now }
    requires correlation { sums.correlation ≡ dot sizes.now pulses.now }
    requires energy { sums.energy ≡ dot pulses.now pulses.now }
    requires correlations { All (λ v. dot sizes.now pulses.now + v < 2 ^ 32) sizes.now }
    requires energies { All (λ v. dot pulses.now pulses.now + (2 * v + 1) ≤ 2 ^ 24) pulses.now }
    requires narrow { (i j : ℕ) → i < length sizes.now → j < length sizes.now
        → match_with sizes.now pulses.now i * energy_with pulses.now j < 2 ^ 64 }
    ensures { IsNext sizes.now pulses.now place result }
{
    let best = sums.gain(sizes[place], pulses[place]);
    for i in place + 1..sizes.len() {
        if sums.gain(sizes[i], pulses[i]).exceeds(best) {
            return i;
        }
    }
    sizes.len()
}

// The same in products of 128 bits.
fn next_wide(sizes: &[u32], pulses: &[u32], sums: Sums, place: usize) -> usize
    requires place { place < length sizes.now }
    requires same { length pulses.now ≡ length sizes.now }
    requires correlation { sums.correlation ≡ dot sizes.now pulses.now }
    requires energy { sums.energy ≡ dot pulses.now pulses.now }
    requires correlations { All (λ v. dot sizes.now pulses.now + v < 2 ^ 32) sizes.now }
    requires energies { All (λ v. dot pulses.now pulses.now + (2 * v + 1) ≤ 2 ^ 24) pulses.now }
    ensures { IsNext sizes.now pulses.now place result }
{
    let best = sums.gain(sizes[place], pulses[place]);
    for i in place + 1..sizes.len() {
        if sums.gain(sizes[i], pulses[i]).exceeds_wide(best) {
            return i;
        }
    }
    sizes.len()
}

// Writes the pulses with the signs of the part's items.
fn put_signed(x: &[i64], pulses: &[u32], out: &mut [i32])
    requires same { length pulses.now ≡ length x.now }
    requires room { length out.old ≡ length x.now }
    requires most { All (λ v. v ≤ 4096) pulses.now }
    ensures { out.new ≡ signed_all x.now pulses.now }
{
    for i in 0..out.len() {
        out[i] = with_sign(x[i], pulses[i]);
    }
}

fn with_sign(x: i64, pulses: u32) -> i32
    requires { pulses ≤ 4096 }
    ensures { result ≡ signed x pulses }
{
    if x < 0 {
        -(pulses as i32)
    } else {
        pulses as i32
    }
}

/// The definition's place is the first at which a pulse gains most.
pub fn law_best_place()
    ensures { (xs ys : List ℕ) → 0 < length xs → IsBest xs ys (length xs) (best_place xs ys) }
{}

/// The definition's vector holds so many pulses.
pub fn law_pulses()
    ensures { (xs : List ℤ) (k : ℕ) → 0 < length xs → sum_by unsigned_abs (vector_of xs k) ≡ k }
{}
