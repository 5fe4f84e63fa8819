//! The limits of scripts.

/// The most bytes of a script.
pub const MAX_SCRIPT_BYTES: usize = 1 << 24;

/// The most records of a script.
pub const MAX_SCRIPT_LINES: usize = 65_536;

/// The most `list` records of a script.
pub const MAX_SCRIPT_LISTS: u32 = 16;

/// The callers of a script are numbered from 0, below this.
pub const MAX_CALLERS: u32 = 64;
