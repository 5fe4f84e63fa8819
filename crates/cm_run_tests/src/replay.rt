//! A segment that takes the changes of a report, one after the other, by the plain segment.

ghost use Rattle.std.specs.Prelude.{◌≡◌, ◌<◌, IfOk, IsTrue};
ghost use Rattle.cm_plain.specs.Limits.{IsKey, KeepsLimits, segment_of};

use cm_geo::{Geo, MAX_KEY_BYTES, hash};
use cm_plain::{Bytes, Op, Pair, PlainSegment, Reply};
use std::alloc::Global;
use std::test::Fail;

/// A plain segment, with its geometry and its index.
#[derive(Drop)]
pub struct Replay {
    geo: Geo,
    index: u32,
    plain: PlainSegment,
    ghost geo_same: { plain.geo ≡ geo },
    ghost index_is: { plain.segment ≡ index },
}

/// The segment of an operation that keeps the limits.
fn segment_of(geo: &Geo, op: &Op) -> u32
    ensures { result ≡ segment_of geo.now op.now }
{
    match op {
        Op::Put { key, .. }
        | Op::Get { key }
        | Op::PutIfAbsent { key, .. }
        | Op::Replace { key, .. }
        | Op::ReplaceIf { key, .. }
        | Op::Remove { key }
        | Op::RemoveIf { key, .. } => geo.segment_of(hash(key.as_slice())),
        Op::Count { segment } | Op::List { segment } | Op::Sweep { segment, .. } => *segment,
    }
}

/// Whether a key is one.
fn is_key(key: &[u8]) -> bool
    ensures { IsTrue result → IsKey key.now }
{
    1 <= key.len() && key.len() <= MAX_KEY_BYTES as usize
}

/// Whether two lists of pairs are the same.
fn same_pairs(pairs: &[Pair], others: &[Pair]) -> bool {
    pairs.len() == others.len()
        && pairs.iter().zip(others).all(|(one, other)| one.key == other.key
            && one.value == other.value)
}

/// Whether two replies are the same.
fn same_reply(reply: &Reply, other: &Reply) -> bool {
    match (reply, other) {
        (Reply::New, Reply::New)
        | (Reply::Replaced, Reply::Replaced)
        | (Reply::Missing, Reply::Missing)
        | (Reply::Differs, Reply::Differs)
        | (Reply::Removed, Reply::Removed)
        | (Reply::FullChain, Reply::FullChain)
        | (Reply::FullSpent, Reply::FullSpent)
        | (Reply::Worn, Reply::Worn)
        | (Reply::SweptAll, Reply::SweptAll) => true,
        (Reply::Kept(value), Reply::Kept(same)) | (Reply::Value(value), Reply::Value(same)) => {
            value == same
        }
        (Reply::Count(count), Reply::Count(same)) => count == same,
        (Reply::Pairs(pairs), Reply::Pairs(same)) => same_pairs(pairs.as_slice(), same.as_slice()),
        _ => false,
    }
}

impl Replay {
    /// An empty segment of a geometry.
    pub fn new(alloc: Global, geo: &Geo, index: u32) -> Result<Replay, Fail>
        requires { index < geo.now.segments }
        ensures { IfOk result (λ replay. replay.geo ≡ geo.now) }
    {
        Ok(Replay {
            geo: *geo,
            index,
            plain: PlainSegment::new(alloc, geo, index)?,
        })
    }

    /// Performs an operation, and tells whether this is its answer. A sweep that took a key removes just that one.
    pub fn answers(&mut self, alloc: Global, op: &Op, reply: &Reply) -> Result<bool, Fail>
        requires { KeepsLimits self.old.geo op.now }
        ensures { self.new.geo ≡ self.old.geo }
    {
        if let (Op::Sweep { prefix, .. }, Reply::Swept(key)) = (op, reply) {
            return Ok(key.as_slice().starts_with(prefix.as_slice()) && self.removes(alloc, key)?);
        }
        if segment_of(&self.geo, op) != self.index {
            return Ok(false);
        }
        let grant = !matches!(reply, Reply::FullSpent);
        Ok(same_reply(&self.plain.answer(alloc, op, grant)?, reply))
    }

    /// Removes a key, and tells whether it was there.
    fn removes(&mut self, alloc: Global, key: &Bytes) -> Result<bool, Fail>
        ensures { self.new.geo ≡ self.old.geo }
    {
        if !is_key(key.as_slice()) || self.geo.segment_of(hash(key.as_slice())) != self.index {
            return Ok(false);
        }
        let key = Bytes::of(alloc, key.as_slice())?;
        Ok(matches!(
            self.plain.answer(alloc, &Op::Remove { key }, true)?,
            Reply::Removed
        ))
    }

    /// How many changes it took.
    pub fn number(&self) -> u64 {
        self.plain.number()
    }

    /// How many tiers it has beyond the first one.
    pub fn extra(&self) -> u32 {
        self.plain.extra_tiers()
    }

    /// Whether these are its pairs.
    pub fn holds(&self, alloc: Global, pairs: &[Pair]) -> Result<bool, Fail> {
        Ok(same_pairs(self.plain.contents(alloc)?.as_slice(), pairs))
    }
}
