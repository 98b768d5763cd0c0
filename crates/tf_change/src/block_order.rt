//! The two orders of the coefficients of short blocks (RFC 6716, section 4.3.4.5): interleaved, as the transform
//! gives them, with the first of each block, then the second of each; and block by block, where the blocks can
//! stand in the order of Hadamard sequences.
ghost use Rattle.std.specs.Prelude.{◌≡◌, ℕ, ◌+◌, ◌*◌, ◌<◌, ◌≤◌, unsigned_abs, length, All, IsTrue};
ghost use Rattle.fixed_math.specs.Items.{item};
ghost use Rattle.tf_change.specs.Order.{HasRow, place_of, block_at, ordered, unordered};

/// For 2, 4, 8 and 16 blocks the places of the blocks in the order of Hadamard sequences. The row for `s` blocks
/// begins at entry `s - 2`.
const PLACES: [u8; 30] = [
    1, 0, //
    3, 0, 2, 1, //
    7, 0, 4, 3, 6, 1, 5, 2, //
    15, 0, 8, 7, 12, 3, 11, 4, 14, 1, 9, 6, 13, 2, 10, 5,
];

/// The blocks at these places: each row is the other table's, turned round.
const BLOCKS: [u8; 30] = [
    1, 0, //
    1, 3, 2, 0, //
    1, 5, 7, 3, 2, 6, 4, 0, //
    1, 9, 13, 5, 7, 15, 11, 3, 2, 10, 14, 6, 4, 12, 8, 0,
];

/// Writes to `out`, block by block, the `stride` blocks of `n0` items each that stand interleaved in `x`. With
/// `hadamard` the blocks are 2, 4, 8 or 16.
pub fn order(x: &[i64], out: &mut [i64], n0: usize, stride: usize, hadamard: bool)
    requires count { length x.now ≤ 176 }
    requires stride { 1 ≤ stride }
    requires items { length x.now ≡ n0 * stride }
    requires room { length out.old ≡ n0 * stride }
    requires row { IsTrue hadamard → HasRow stride }
    ensures value { out.new ≡ ordered n0 stride hadamard x.now }
    ensures size { (m : ℕ) → All (λ v. unsigned_abs v ≤ m) x.now → All (λ v. unsigned_abs v ≤ m) out.new }
{
    for k in 0..stride {
        take_block(x, out, k * n0, n0, block_of(k, stride, hadamard), stride);
    }
}

/// Writes to `out`, interleaved, the `stride` blocks of `n0` items each that stand block by block in `x`. With
/// `hadamard` the blocks are 2, 4, 8 or 16.
pub fn unorder(x: &[i64], out: &mut [i64], n0: usize, stride: usize, hadamard: bool)
    requires count { length x.now ≤ 176 }
    requires stride { 1 ≤ stride }
    requires items { length x.now ≡ n0 * stride }
    requires room { length out.old ≡ n0 * stride }
    requires row { IsTrue hadamard → HasRow stride }
    ensures value { out.new ≡ unordered n0 stride hadamard x.now }
    ensures size { (m : ℕ) → All (λ v. unsigned_abs v ≤ m) x.now → All (λ v. unsigned_abs v ≤ m) out.new }
{
    for j in 0..n0 {
        take_row(x, out, j, n0, stride, hadamard);
    }
}

// Writes the items of one block of `stride` to the `n0` places from `start` on.
fn take_block(x: &[i64], out: &mut [i64], start: usize, n0: usize, block: usize, stride: usize)
    requires count { length x.now ≤ 176 }
    requires items { length x.now ≡ n0 * stride }
    requires block { block < stride }
    requires room { start + n0 ≤ length out.old }
    requires small { length out.old ≤ 176 }
    ensures here { (j : ℕ) → j < n0 → item out.new (start + j) ≡ item x.now (j * stride + block) }
    ensures before { (p : ℕ) → p < start → item out.new p ≡ item out.old p }
{
    for j in 0..n0 {
        out[start + j] = x[j * stride + block];
    }
}

// Writes item `j` of each of the `stride` blocks to the places from `j * stride` on.
fn take_row(x: &[i64], out: &mut [i64], j: usize, n0: usize, stride: usize, hadamard: bool)
    requires count { length x.now ≤ 176 }
    requires items { length x.now ≡ n0 * stride }
    requires row { IsTrue hadamard → HasRow stride }
    requires item { j < n0 }
    requires room { length out.old ≡ n0 * stride }
    ensures here { (i : ℕ) → i < stride → item out.new (j * stride + i) ≡ item x.now (place_of hadamard stride i * n0 + j) }
    ensures before { (p : ℕ) → p < j * stride → item out.new p ≡ item out.old p }
{
    for i in 0..stride {
        out[j * stride + i] = x[place(i, stride, hadamard) * n0 + j];
    }
}

// The place to which block `i` goes.
fn place(i: usize, stride: usize, hadamard: bool) -> usize
    requires block { i < stride }
    requires row { IsTrue hadamard → HasRow stride }
    ensures value { result ≡ place_of hadamard stride i }
    ensures within { result < stride }
{
    if hadamard {
        PLACES[stride - 2 + i] as usize
    } else {
        i
    }
}

// The block that goes to place `k`.
fn block_of(k: usize, stride: usize, hadamard: bool) -> usize
    requires place { k < stride }
    requires row { IsTrue hadamard → HasRow stride }
    ensures value { result ≡ block_at hadamard stride k }
    ensures within { result < stride }
{
    if hadamard {
        BLOCKS[stride - 2 + k] as usize
    } else {
        k
    }
}
