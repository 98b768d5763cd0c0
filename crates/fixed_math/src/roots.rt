//! Whole square roots and bit lengths.
ghost use Rattle.std.specs.Prelude.{◌≡◌, ℕ, ◌+◌, ◌-◌, ◌*◌, ◌/◌, ◌^◌, ◌<◌, ◌≤◌};
ghost use Rattle.fixed_math.specs.Root.{root, IsRoot, bit_length_of, IsBitLength};

/// The square root of `v`, rounded down.
pub fn isq(v: u128) -> u64
    ensures { result ≡ root v }
{
    if v <= 0xffff_ffff_ffff_ffff {
        narrow_root(v as u64)
    } else {
        wide_root(v)
    }
}

// Newton's steps from a power of two that is not below the root.
fn narrow_root(v: u64) -> u64
    ensures { IsRoot v result }
{
    if v == 0 {
        return 0;
    }
    let shift = (65 - v.leading_zeros()) / 2;
    let mut x: u64 = 1 << shift;
    let mut y = (x + (v >> shift)) / 2;
    while y < x {
        x = y;
        y = (x + v / x) / 2;
    }
    x
}

// The same for numbers that take more than 64 bits.
fn wide_root(v: u128) -> u64
    requires { 0 < v }
    ensures { IsRoot v result }
{
    let shift = (129 - v.leading_zeros()) / 2;
    let mut x: u128 = 1 << shift;
    let mut y = (x + (v >> shift)) / 2;
    while y < x {
        x = y;
        y = (x + v / x) / 2;
    }
    x as u64
}

/// How many bits `v` has: 0 has none.
pub fn bit_length(v: u32) -> u32
    ensures { result ≡ bit_length_of v }
{
    32 - v.leading_zeros()
}

/// `root` is the floor of the square root, for every number of up to 128 bits.
pub fn law_root(v: u128)
    ensures { IsRoot v (root v) }
{}

/// `bit_length_of` is the number of bits, for every number of up to 32 bits.
pub fn law_bit_length(v: u32)
    ensures { IsBitLength v (bit_length_of v) }
{}
