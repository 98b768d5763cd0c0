//! The vectors of N whole numbers whose sizes add up to K: how many there are, in which order they
//! are numbered, and what they cost (RFC 6716, sections 4.3.4.1 and 4.3.4.2).
//!
//! A band of N coefficients is coded as one such vector, K pulses with signs shared out among N
//! places. The first number runs K, .., 1, 0, -K, .., -1, and under each of its values stand the
//! vectors of the rest, in the same order with what is left of K. The place of a vector in this list
//! is the number that is sent for it. With two numbers and one pulse the list is (1, 0), (0, 1),
//! (0, -1), (-1, 0).
//!
//! V(N, K) is the length of the list. Let a vector of N numbers with K pulses begin with x. If x is
//! 0 the rest is a vector of N - 1 numbers with K pulses. If it is not, bring it one nearer to 0:
//! that is a vector of N numbers with K - 1 pulses, except that 0 could come from 1 and from -1, so
//! those that begin with 0 count once more. Hence
//!
//! ```text
//! V(N, 0) = 1, V(0, K) = 0 for K > 0, V(N, K) = V(N-1, K) + V(N, K-1) + V(N-1, K-1)
//!
//!  K      0     1     2     3     4     5
//!  N = 0  1     0     0     0     0     0
//!  N = 1  1     2     2     2     2     2
//!  N = 2  1     4     8    12    16    20
//!  N = 3  1     6    18    38    66   102
//!  N = 4  1     8    32    88   192   360
//!  N = 5  1    10    50   170   450  1002
//! ```
//!
//! A `Row` is one line of this table, which goes down and up by the recurrence, and `rank` and
//! `unrank` go by one: N * K steps. A `PulseTable` has the sums of all lines that a frame can ask for
//! as constants, and an index then leads to its numbers in about N + K steps.
//!
//! Instead of a number of pulses a frame has an index, 0 to 40, of one of 41 numbers up to 128. The
//! cost of an index is the logarithm of V in eighths of a bit, rounded up, and a number of bits buys
//! the index whose cost is nearest.
#![tactic(auto)]

mod constants;
mod costs;
mod laws;
mod pulses;
mod ranks;
mod row;
mod table;
#[cfg(test)]
mod tests;

pub use costs::{cost, index_for, last_index};
pub use laws::{
    law_costs_never_fall, law_counts, law_eighths_cover, law_index_is_nearest, law_last_index_fits,
    law_no_vector_twice, law_rank, law_vectors_are_all,
};
pub use pulses::pulses_of;
pub use ranks::{count, rank, unrank};
pub use row::Row;
pub use table::PulseTable;
