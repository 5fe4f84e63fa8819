//! Where a value is placed.

/// A chunk of the tier at a place.
#[derive(Clone, Copy, Debug, PartialEq, Eq)]
pub struct Spot {
    pub place: u32,
    pub chunk: u32,
}

/// Where a value goes.
#[derive(Clone, Copy, Debug, PartialEq, Eq)]
pub enum Room {
    /// It stands where the key's old value stands.
    InPlace,
    /// It goes to a free run that begins there.
    Elsewhere(Spot),
    /// It goes to the first chunk of a new tier at this place.
    NewTier(u32),
    /// No tier has room, and the chain may not grow.
    Nowhere,
}
