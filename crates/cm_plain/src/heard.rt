//! What a segment answers to an operation that changes nothing.

use crate::reply::PairList;

/// An answer that leaves the segment as it is, as a `Reply` that borrows its bytes.
#[derive(Clone, Copy)]
pub enum Heard<'a> {
    /// The key is there already, with this value.
    Kept(&'a [u8]),
    /// The key isn't there.
    Missing,
    /// The key's value isn't the expected one.
    Differs,
    /// The key's value.
    Value(&'a [u8]),
    /// No tier has room, and the chain has as many tiers as it may have.
    FullChain,
    /// No tier has room, and no further tier may be chained.
    FullSpent,
    /// The segment took as many changes as it can count.
    Worn,
    /// The number of entries.
    Count(u32),
    /// All pairs, in byte order of the keys.
    Pairs(&'a PairList),
    /// No key has the prefix.
    SweptAll,
}
