//! Which of a band's short blocks have pulses (RFC 6716, sections 4.3.4.5 and 4.3.5).
ghost use Rattle.std.specs.Prelude.{◌≡◌, ℕ, ◌+◌, ◌*◌, ◌%◌, ◌^◌, ◌<◌, ◌≤◌, if◌then◌else◌, length};
ghost use Rattle.spread_fold.specs.Masks.{has_pulse, block_bits, mask};

/// The mask of the blocks with pulses: bit k is 1 where the k-th of `blocks` equal runs of `y` is not all 0. One
/// block gives 1.
pub fn mask_of(y: &[i32], blocks: u32) -> u32
    requires some { 1 ≤ length y.now }
    requires count { length y.now ≤ 176 }
    requires blocks_low { 1 ≤ blocks }
    requires blocks_high { blocks ≤ 16 }
    requires runs { length y.now % blocks ≡ 0 }
    ensures value { result ≡ mask blocks y.now }
    ensures size { result < 2 ^ blocks }
{
    if blocks == 1 {
        return 1;
    }
    bits_of(y, y.len() / blocks as usize, blocks)
}

// The bits of the first `blocks` runs of `n` items.
fn bits_of(y: &[i32], n: usize, blocks: u32) -> u32
    requires count { length y.now ≤ 176 }
    requires runs { n * blocks ≤ length y.now }
    requires most { blocks ≤ 16 }
    ensures value { result ≡ block_bits n y.now blocks }
    ensures size { result < 2 ^ blocks }
{
    let mut mask = 0u32;
    for k in 0..blocks {
        let start = k as usize * n;
        mask += bit(is_coded(&y[start..start + n]), k);
    }
    mask
}

// 2^k, or 0.
fn bit(set: bool, k: u32) -> u32
    requires { k < 16 }
    ensures value { result ≡ if set then 2 ^ k else 0 }
    ensures size { result ≤ 2 ^ k }
{
    if set { 1 << k } else { 0 }
}

// Whether an item is not 0.
fn is_coded(y: &[i32]) -> bool
    ensures { result ≡ has_pulse y.now }
{
    for v in y {
        if *v != 0 {
            return true;
        }
    }
    false
}
