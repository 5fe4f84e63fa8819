//! What a segment answers.

use crate::bytes::Bytes;
use std::marker::Model;

/// A key with its value.
#[derive(Drop, Debug)]
pub struct Pair {
    pub key: Bytes,
    pub value: Bytes,
}

/// Pairs in a row, fewer than 2^32. Contracts see the list of them.
#[derive(Drop, Debug)]
pub struct PairList {
    pairs: Vec<Pair>,
}

impl Model for PairList {
    ghost use Rattle.std.specs.Prelude.{List, length, ◌<◌, ◌^◌};
    ghost use Rattle.cm_plain.specs.declared.reply.Pair.{Pair};

    ghost Value = { List Pair };

    ghost view = { λ l. l.pairs.items };

    ghost invariant = { λ l. length l.pairs.items < 2 ^ 32 };
}

impl PairList {
    ghost use Rattle.std.specs.Prelude.{◌≡◌, ◌==◌, ◌<◌, ◌^◌, length, slice_get, Some};

    /// The list of a `Vec`'s pairs, in their order. Takes no memory.
    pub fn from_vec(pairs: Vec<Pair>) -> PairList
        requires { length pairs.items < 2 ^ 32 }
        ensures { result ≡ pairs.items }
    {
        PairList { pairs }
    }

    /// The `Vec` again. Takes no memory.
    pub fn into_vec(self) -> Vec<Pair>
        ensures { result.items ≡ self }
    {
        let PairList { pairs } = self;
        pairs
    }

    /// How many pairs there are.
    pub fn len(&self) -> u32
        ensures { result ≡ length self.now }
    {
        self.pairs.len() as u32
    }

    /// Whether there is no pair.
    pub fn is_empty(&self) -> bool
        ensures { result ≡ (length self.now == 0) }
    {
        self.pairs.is_empty()
    }

    /// The pair at an index, counted from 0.
    pub fn pair(&self, at: u32) -> &Pair
        requires { at < length self.now }
        ensures { slice_get self.now at ≡ Some result.now }
    {
        &self.pairs[at as usize]
    }

    /// The pairs.
    pub fn as_slice(&self) -> &[Pair]
        ensures { result.now ≡ self.now }
    {
        self.pairs.as_slice()
    }
}

/// An answer.
#[derive(Drop, Debug)]
pub enum Reply {
    /// The key was not there, and has the value now.
    New,
    /// The key was there, and has the new value now.
    Replaced,
    /// The key is there already, with this value.
    Kept(Bytes),
    /// The key isn't there.
    Missing,
    /// The key's value isn't the expected one.
    Differs,
    /// The key was there, and is gone.
    Removed,
    /// The key's value.
    Value(Bytes),
    /// No tier has room, and the chain has as many tiers as it may have.
    FullChain,
    /// No tier has room, and no further tier may be chained.
    FullSpent,
    /// The segment took as many changes as it can count.
    Worn,
    /// The number of entries.
    Count(u32),
    /// All pairs, in byte order of the keys.
    Pairs(PairList),
    /// A key with the prefix was there, and is gone.
    Swept(Bytes),
    /// No key has the prefix.
    SweptAll,
}
