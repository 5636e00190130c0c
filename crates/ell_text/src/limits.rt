//! The most that a text may have.

/// The greatest number of bytes that an input may have.
pub const INPUT_MAX: usize = 16_777_216;

/// The greatest number of start lines and operations that a bulk text may have together.
pub const OPERATIONS_MAX: usize = 200_000;

/// The greatest number of own lines and events that a replay may have together.
pub const LINES_MAX: usize = 200_000;
