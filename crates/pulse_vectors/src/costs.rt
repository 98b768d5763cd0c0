//! What vectors cost and which index a number of bits buys (RFC 6716, section 4.3.4.1), as the table
//! says it.

ghost use Rattle.std.specs.Prelude.{◌≡◌, ◌≤◌};
ghost use Rattle.pulse_vectors.specs.Costs.{last_of, cost_at, index_near};

use crate::table::PulseTable;

/// The greatest index up to 40 whose vectors of `numbers` numbers, from 2 to 176, number fewer than
/// 2^32.
pub fn last_index(numbers: u32) -> u32
    requires { (2 ≤ numbers) × (numbers ≤ 176) }
    ensures exact { result ≡ last_of numbers }
    ensures most { result ≤ 40 }
{
    PulseTable::new().last_index(numbers)
}

/// What an index costs for vectors of `numbers` numbers, from 2 to 176: the logarithm of their count
/// in eighths of a bit, rounded up, and nothing for index 0. `index` is at most
/// `last_index(numbers)`.
pub fn cost(numbers: u32, index: u32) -> u32
    requires numbers { (2 ≤ numbers) × (numbers ≤ 176) }
    requires index { (index ≤ 40) × (index ≤ last_of numbers) }
    ensures exact { result ≡ cost_at numbers index }
    ensures most { result ≤ 264 }
{
    PulseTable::new().cost(numbers, index)
}

/// The index whose cost is nearest to `bits` eighths of a bit, the lower at equal distances, for
/// vectors of `numbers` numbers, from 2 to 176.
pub fn index_for(numbers: u32, bits: i32) -> u32
    requires { (2 ≤ numbers) × (numbers ≤ 176) }
    ensures exact { result ≡ index_near numbers bits }
    ensures within { (result ≤ 40) × (result ≤ last_of numbers) }
{
    PulseTable::new().index_for(numbers, bits)
}
