//! What is read of a tier's slots.

/// A slot that was found.
///
/// It lies so many steps behind the home of its fingerprint, and points to a chunk of its tier.
#[derive(Clone, Copy, Debug, PartialEq, Eq)]
pub struct Hit {
    pub steps: u32,
    pub slot: u32,
    pub chunk: u32,
}

/// The upper and the lower half of a slot's word. The slot is empty exactly where both are 0.
#[derive(Clone, Copy, Debug, PartialEq, Eq)]
pub struct SlotParts {
    pub fingerprint: u32,
    pub low: u32,
}
