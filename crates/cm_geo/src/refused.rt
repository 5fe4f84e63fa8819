//! Why five numbers are no geometry.

/// The first number of a geometry that is outside its limit.
#[derive(Clone, Copy, Debug, PartialEq, Eq)]
pub enum GeoRefused {
    Segments = 1,
    Tiers = 2,
    Chunks = 3,
    ChunkWords = 4,
    Allowance = 5,
    TooManyWords = 6,
}
