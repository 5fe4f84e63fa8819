//! The limits of keys, values, runs and maps.

/// The most bytes of a key.
pub const MAX_KEY_BYTES: u32 = 256;

/// The most bytes of a value.
pub const MAX_VALUE_BYTES: u32 = 4096;

/// The most chunks of a run.
pub const MAX_RUN_CHUNKS: u32 = 64;

/// The bits of a word.
pub const WORD_BITS: u32 = 64;

/// The most words of a map: 32 MiB of them.
pub const MAX_MAP_WORDS: u32 = 1 << 22;
