//! What a run reports.

use cm_plain::{ListOf, MapLine, Receipt, SegFound};

/// How a caller ended before its records did.
#[derive(Clone, Copy, Debug, PartialEq, Eq)]
pub enum How {
    /// It waited for a segment in which a dead caller holds a level.
    Stopped,
    /// It died.
    Dead,
}

/// A caller that ended before its records did: `line` is its first record that has no complete answer, or, where it died
/// in the closing of a sweep, that sweep.
#[derive(Clone, Copy, Debug, PartialEq, Eq)]
pub struct CallerEnd {
    pub caller: u32,
    pub line: u32,
    pub how: How,
}

/// The answers by caller, line and part, the ends by caller, where a caller died what recovery found in each segment, the
/// final map by segment and byte order of its keys, and the number of chained tiers beyond one per segment.
#[derive(Drop, Debug)]
pub struct Report {
    pub receipts: ListOf<Receipt>,
    pub ends: ListOf<CallerEnd>,
    pub found: ListOf<SegFound>,
    pub map: ListOf<MapLine>,
    pub extra: u32,
}
