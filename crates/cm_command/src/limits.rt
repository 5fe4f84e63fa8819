//! Limits of the words.

/// The most records that `make` generates.
pub const MAX_RECORDS: u64 = 65536;

/// The highest number of a caller that a kill may name.
pub const MAX_KILLED: u64 = 63;
