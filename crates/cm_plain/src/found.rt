//! What recovery finds in a segment.

/// How many slots of a segment recovery dropped, by cause, each for the first one that applies.
#[derive(Clone, Copy, Debug, PartialEq, Eq)]
pub struct Drops {
    /// The slot points to no chunk of its tier.
    pub range: u32,
    /// The lengths at its chunk are none of an entry.
    pub lengths: u32,
    /// The checksum there isn't that of the entry's words.
    pub checksum: u32,
    /// A byte of the padding there isn't zero.
    pub padding: u32,
    /// The key there is of another segment.
    pub segment: u32,
    /// The slot has another fingerprint than the key there.
    pub fingerprint: u32,
    /// The key was kept already.
    pub duplicate: u32,
    /// The run meets one that was kept.
    pub overlap: u32,
    /// The slot's tier is outside the allowance.
    pub allowance: u32,
}

/// What recovery found in a segment: how many entries were kept, and how many slots dropped; the lock word
/// as it was; whether a change was in flight, which is where the change number was odd; and whether the
/// chain was cut.
#[derive(Clone, Copy, Debug, PartialEq, Eq)]
pub struct SegFound {
    pub segment: u32,
    pub kept: u32,
    pub drops: Drops,
    pub lock: u64,
    pub in_flight: bool,
    pub cut: bool,
}
