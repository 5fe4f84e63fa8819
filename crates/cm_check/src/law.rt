//! The laws of the words of a map.

/// A law of the words of a map, in the order in which they are asked. Each is read under the laws before
/// it.
#[derive(Clone, Copy, Debug, PartialEq, Eq)]
pub enum Law {
    /// The lock word is 0.
    Lock,
    /// The change number is even, and not beyond the last one.
    Number,
    /// The fourth word of the segment is 0.
    Header,
    /// Each link of the chain leads to a place that came not before, or is 0.
    Chain,
    /// The third and the fourth word of each chained tier are 0.
    Reserved,
    /// Each slot that isn't empty points to an entry of this segment, whose key has its fingerprint.
    Slot,
    /// No empty slot stands between the home of a slot and the slot.
    Gap,
    /// No two slots point to entries with one key.
    Duplicate,
    /// No two runs of a tier meet.
    Overlap,
    /// The bits of a tier that are set are those of the chunks in runs.
    Bits,
    /// The count of a tier is the number of its slots that aren't empty.
    TierCount,
    /// The count of the segment is that of its tiers together.
    SegmentCount,
    /// All words of the places outside the chain are 0.
    Unlinked,
    /// The tiers beyond the first one of each segment are no more than the geometry allows.
    Allowance,
}

/// A law that is broken, and where: the segment, and the address in it of the word. Of the allowance it is
/// word 0 of the segment up to which too many tiers are chained.
#[derive(Clone, Copy, Debug, PartialEq, Eq)]
pub struct Broken {
    pub law: Law,
    pub segment: u32,
    pub word: u32,
}
