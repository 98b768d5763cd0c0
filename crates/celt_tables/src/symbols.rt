//! The lengths of the answers of questions that have a table (RFC 6716, section 4.3). Index order: the answer.

/// The tapset of the post-filter, of 4.
pub const TAPSET: [u32; 3] = [2, 1, 1];

/// A small coarse energy, of 4.
pub const SMALL: [u32; 3] = [2, 1, 1];

/// The spreading, of 32.
pub const SPREAD: [u32; 4] = [7, 2, 21, 2];

/// The allocation trim, of 128.
pub const TRIM: [u32; 11] = [2, 2, 5, 10, 22, 46, 22, 10, 5, 2, 2];
