//! The geometry of a map: how many segments, tiers, chunks and words it has, and how a key's hash is split.
#![tactic(auto)]

mod addresses;
mod fnv;
mod geo;
mod laws;
mod limits;
mod refused;
#[cfg(test)]
mod tests;

pub use fnv::{hash, hash_byte};
pub use geo::Geo;
pub use laws::each_word_has_one_role;
pub use limits::{MAX_KEY_BYTES, MAX_MAP_WORDS, MAX_RUN_CHUNKS, MAX_VALUE_BYTES, WORD_BITS};
pub use refused::GeoRefused;
