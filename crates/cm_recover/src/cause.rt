//! Why recovery drops a slot.

/// Why a slot is dropped, in the order in which the causes are asked.
#[derive(Clone, Copy, Debug, PartialEq, Eq)]
pub enum Cause {
    /// Its tier is outside the allowance.
    Allowance,
    /// It points to no chunk of its tier.
    Range,
    /// The lengths at its chunk are none of an entry.
    Lengths,
    /// The checksum there isn't that of the entry's words.
    Checksum,
    /// A byte of the padding there isn't zero.
    Padding,
    /// The key there is of another segment.
    Segment,
    /// It has another fingerprint than the key there.
    Fingerprint,
    /// The key was kept already.
    Duplicate,
    /// The run meets one that was kept.
    Overlap,
}
