//! Why bytes are no image.

/// What is wrong with bytes that are no image.
#[derive(Clone, Copy, Debug, PartialEq, Eq)]
pub enum ImageRefused {
    /// There are fewer bytes than the header has, or than the geometry wants.
    Short = 1,
    /// There are more bytes than the geometry wants.
    Long = 2,
    /// The first letters are others.
    Magic = 3,
    /// The version is another one.
    Version = 4,
    /// The numbers are no geometry, or a reserved byte isn't zero.
    Geometry = 5,
}
