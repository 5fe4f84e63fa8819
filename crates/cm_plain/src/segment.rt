//! A segment kept as a plain list of entries: slow, and plainly the bounded map.

ghost use Rattle.std.specs.Prelude.{◌≡◌, if◌then◌else◌};

use crate::bytes::Bytes;
use crate::entries::{put_entry, remove_key};
use crate::op::Op;
use crate::placed::Placed;
use crate::reads::{kept_reply, least_key, missing_reply, sorted_pairs, unmet_reply, value_reply};
use crate::reply::{PairList, Reply};
use crate::rooms::{is_new_tier, placement_of};
use crate::stop::NoMemory;
use cm_geo::Geo;
use std::alloc::Global;
use std::marker::Model;

/// The last number of changes that a segment counts to.
const LAST_NUMBER: u64 = 1 << 62;

/// One segment of a map, as a list of its entries.
#[derive(Drop)]
pub struct PlainSegment {
    geo: Geo,
    segment: u32,
    number: u64,
    chain: Vec<u32>,
    entries: Vec<Placed>,
}

impl Model for PlainSegment {
    ghost use Rattle.cm_plain.specs.Segments.{Segment, IsSegment};

    ghost Value = { Segment };

    ghost view = { λ s. record { geo = s.geo; segment = s.segment; number = s.number; state = record { chain = s.chain.items; entries = s.entries.items } } };

    ghost invariant = { λ s. IsSegment (record { geo = s.geo; segment = s.segment; number = s.number; state = record { chain = s.chain.items; entries = s.entries.items } }) };
}

impl PlainSegment {
    ghost use Rattle.std.specs.Prelude.{◌≡◌, ◌-◌, ◌<◌, IfOk, OnErr, length};
    ghost use Rattle.cm_geo.specs.Hash.{segment_of_key};
    ghost use Rattle.cm_geo.specs.Need.{Fits};
    ghost use Rattle.cm_plain.specs.Limits.{KeepsLimits, segment_of};
    ghost use Rattle.cm_plain.specs.Segments.{AnswersOp, PlacesValue, AnswersSweeps, SweepsLeast, RemovesKey};
    ghost use Rattle.cm_plain.specs.States.{Lists, one_tier};

    /// One empty tier of a segment, which took no change; the segment is one of the geometry's. Takes
    /// memory: NoMemory where none is left, and no other error.
    pub fn new(alloc: Global, geo: &Geo, segment: u32) -> Result<PlainSegment, NoMemory>
        requires { segment < geo.now.segments }
        ensures { IfOk result (λ made. made ≡ record { geo = geo.now; segment = segment; number = 0; state = one_tier }) }
    {
        Ok(PlainSegment {
            geo: *geo,
            segment,
            number: 0,
            chain: [0].to_vec(alloc)?,
            entries: Vec::new(alloc),
        })
    }

    /// Answers an operation by one step of the bounded map, with or without the grant of a further
    /// tier. A sweep takes one step, which removes the least key with its prefix in byte order.
    ///
    /// The operation keeps the limits of the geometry, and its key, or the number that it names, is of
    /// this segment. A change takes the next number. Where a change would be made and can't be, the
    /// reply is the first of FullChain, Worn and FullSpent that applies, and nothing changed. Takes
    /// memory: NoMemory where none is left, and no other error; after it nothing changed.
    pub fn answer(&mut self, alloc: Global, op: &Op, grant: bool) -> Result<Reply, NoMemory>
        requires limits { KeepsLimits self.old.geo op.now }
        requires here { segment_of self.old.geo op.now ≡ self.old.segment }
        ensures ok { IfOk result (AnswersOp self.old self.new grant op.now) }
        ensures least { IfOk result (SweepsLeast self.old.state op.now) }
        ensures err { OnErr result (self.new ≡ self.old) }
    {
        let entries = self.entries.as_slice();
        match op {
            Op::Put { key, value } => self.put_value(
                alloc,
                key.as_slice(),
                value.as_slice(),
                grant,
            ),
            Op::Get { key } => value_reply(alloc, entries, key.as_slice()),
            Op::PutIfAbsent { key, value } => match kept_reply(alloc, entries, key.as_slice())? {
                Some(reply) => Ok(reply),
                None => self.put_value(alloc, key.as_slice(), value.as_slice(), grant),
            },
            Op::Replace { key, value } => match missing_reply(entries, key.as_slice()) {
                Some(reply) => Ok(reply),
                None => self.put_value(alloc, key.as_slice(), value.as_slice(), grant),
            },
            Op::ReplaceIf {
                key,
                expected,
                value,
            } => match unmet_reply(entries, key.as_slice(), expected.as_slice()) {
                Some(reply) => Ok(reply),
                None => self.put_value(alloc, key.as_slice(), value.as_slice(), grant),
            },
            Op::Remove { key } => match missing_reply(entries, key.as_slice()) {
                Some(reply) => Ok(reply),
                None => Ok(removed_or_worn(self.remove_entry(key.as_slice()))),
            },
            Op::RemoveIf { key, expected } => {
                match unmet_reply(entries, key.as_slice(), expected.as_slice()) {
                    Some(reply) => Ok(reply),
                    None => Ok(removed_or_worn(self.remove_entry(key.as_slice()))),
                }
            }
            Op::Count { .. } => Ok(Reply::Count(entries.len() as u32)),
            Op::List { .. } => Ok(Reply::Pairs(sorted_pairs(alloc, entries)?)),
            Op::Sweep { prefix, .. } => self.sweep(alloc, prefix.as_slice()),
        }
    }

    /// How many changes the segment took.
    pub fn number(&self) -> u64
        ensures { result ≡ self.now.number }
    {
        self.number
    }

    /// How many tiers the chain has beyond the first one.
    pub fn extra_tiers(&self) -> u32
        ensures { result ≡ length self.now.state.chain - 1 }
    {
        (self.chain.len() - 1) as u32
    }

    /// All pairs, in byte order of the keys. Takes memory: NoMemory where none is left, and no other error.
    pub fn contents(&self, alloc: Global) -> Result<PairList, NoMemory>
        ensures { IfOk result (Lists self.now.state) }
    {
        sorted_pairs(alloc, self.entries.as_slice())
    }

    /// Removes the entry of the least key with a prefix. Takes memory, before anything changes.
    fn sweep(&mut self, alloc: Global, prefix: &[u8]) -> Result<Reply, NoMemory>
        ensures ok { IfOk result (AnswersSweeps self.old self.new prefix.now) }
        ensures err { OnErr result (self.new ≡ self.old) }
    {
        let Some(key) = least_key(self.entries.as_slice(), prefix) else {
            return Ok(Reply::SweptAll);
        };
        let key = Bytes::of(alloc, key)?;
        Ok(if self.remove_entry(key.as_slice()) {
            Reply::Swept(key)
        } else {
            Reply::Worn
        })
    }

    /// Removes a key's entry; false where the segment took as many changes as it can count.
    fn remove_entry(&mut self, key: &[u8]) -> bool
        ensures { RemovesKey self.old self.new key.now result }
    {
        if self.number == LAST_NUMBER {
            return false;
        }
        remove_key(&mut self.entries, key);
        self.number += 1;
        true
    }

    /// Places a value for a key, or answers why it can't be placed. Takes memory, before anything
    /// changes.
    fn put_value(
        &mut self,
        alloc: Global,
        key: &[u8],
        value: &[u8],
        grant: bool,
    ) -> Result<Reply, NoMemory>
        requires fits { Fits self.old.geo (length key.now) (length value.now) }
        requires here { segment_of_key self.old.geo key.now ≡ self.old.segment }
        ensures ok { IfOk result (PlacesValue self.old self.new grant key.now value.now) }
        ensures err { OnErr result (self.new ≡ self.old) }
    {
        let chain = self.chain.as_slice();
        let entries = self.entries.as_slice();
        let Some(placement) = placement_of(&self.geo, chain, entries, key, value.len() as u32)
        else {
            return Ok(Reply::FullChain);
        };
        if self.number == LAST_NUMBER {
            return Ok(Reply::Worn);
        }
        let new_tier = is_new_tier(placement.room);
        if new_tier && !grant {
            return Ok(Reply::FullSpent);
        }
        let entry = Placed {
            place: placement.spot.place,
            chunk: placement.spot.chunk,
            key: Bytes::of(alloc, key)?,
            value: Bytes::of(alloc, value)?,
        };
        put_entry(
            &self.geo,
            &mut self.chain,
            &mut self.entries,
            new_tier,
            entry,
        )?;
        self.number += 1;
        Ok(if placement.replaces {
            Reply::Replaced
        } else {
            Reply::New
        })
    }
}

/// The reply to a removal: it was done, or its change can't be counted any more.
fn removed_or_worn(removed: bool) -> Reply
    ensures { result ≡ (if removed then Reply.Removed else Reply.Worn) }
{
    if removed { Reply::Removed } else { Reply::Worn }
}
