//! Answers that change nothing.

ghost use Rattle.std.specs.Prelude.{◌≡◌, ◌<◌, ◌^◌, IfOk, length, map, MatchOption, All, false, Some, None, if◌then◌else◌, is_some};
ghost use Rattle.std.specs.Option.{option_map};
ghost use Rattle.cm_plain.specs.States.{ListsEntries, entry_among, pair_of, value_in};
ghost use Rattle.cm_plain.specs.Steps.{value_reply as value_reply_of, has_prefix, is_value as is_value_in, unmet_reply as unmet_reply_of};
ghost use Rattle.cm_plain.specs.Segments.{IsLeastKey};

use crate::bytes::Bytes;
use crate::placed::Placed;
use crate::reply::{Pair, PairList, Reply};
use crate::rooms::find_entry;
use crate::stop::NoMemory;
use std::alloc::Global;

/// The value of a key, or that it isn't there. Takes memory.
pub fn value_reply(alloc: Global, entries: &[Placed], key: &[u8]) -> Result<Reply, NoMemory>
    ensures { IfOk result (λ reply. reply ≡ value_reply_of (value_in (entry_among key.now entries.now))) }
{
    match find_entry(entries, key) {
        Some(entry) => Ok(Reply::Value(Bytes::of(alloc, entry.value.as_slice())?)),
        None => Ok(Reply::Missing),
    }
}

/// What keeps a key's value from being put in first: the value that is there. Takes memory.
pub fn kept_reply(alloc: Global, entries: &[Placed], key: &[u8]) -> Result<Option<Reply>, NoMemory>
    ensures { IfOk result (λ answer. answer ≡ option_map (λ value. Reply.Kept value) (value_in (entry_among key.now entries.now))) }
{
    match find_entry(entries, key) {
        Some(entry) => Ok(Some(Reply::Kept(Bytes::of(alloc, entry.value.as_slice())?))),
        None => Ok(None),
    }
}

/// What keeps a key's value from being changed: that the key isn't there.
pub fn missing_reply(entries: &[Placed], key: &[u8]) -> Option<Reply>
    ensures { result ≡ (if is_some (value_in (entry_among key.now entries.now)) then None else Some Reply.Missing) }
{
    match find_entry(entries, key) {
        Some(_) => None,
        None => Some(Reply::Missing),
    }
}

/// What keeps a key's value from being changed where another one is expected.
pub fn unmet_reply(entries: &[Placed], key: &[u8], expected: &[u8]) -> Option<Reply>
    ensures { let value = value_in (entry_among key.now entries.now) in result ≡ (if is_value_in value expected.now then None else Some (unmet_reply_of value)) }
{
    match find_entry(entries, key) {
        Some(entry) if entry.value.as_slice() == expected => None,
        Some(_) => Some(Reply::Differs),
        None => Some(Reply::Missing),
    }
}

/// The least key with a prefix, in byte order.
pub fn least_key<'a>(entries: &'a [Placed], prefix: &[u8]) -> Option<&'a [u8]>
    ensures { MatchOption result (All (λ entry. has_prefix prefix.now entry.key ≡ false) entries.entry.now) (λ key. IsLeastKey prefix.now entries.entry.now key.now) }
{
    entries
        .iter()
        .map(|entry| entry.key.as_slice())
        .filter(|key| key.starts_with(prefix))
        .min()
}

/// The pairs of the entries, in their order.
fn pairs_of(alloc: Global, entries: &[Placed]) -> Result<Vec<Pair>, NoMemory>
    ensures { IfOk result (λ pairs. pairs.items ≡ map pair_of entries.now) }
{
    let mut pairs = Vec::with_capacity(alloc, entries.len())?;
    for entry in entries {
        pairs.push(Pair {
            key: Bytes::of(alloc, entry.key.as_slice())?,
            value: Bytes::of(alloc, entry.value.as_slice())?,
        })?;
    }
    Ok(pairs)
}

/// All pairs, in byte order of the keys. Takes memory.
pub fn sorted_pairs(alloc: Global, entries: &[Placed]) -> Result<PairList, NoMemory>
    requires { length entries.now < 2 ^ 32 }
    ensures { IfOk result (ListsEntries entries.now) }
{
    let mut pairs = pairs_of(alloc, entries)?;
    pairs.sort_unstable_by(|one, other| one.key.as_slice().cmp(other.key.as_slice()));
    Ok(PairList::from_vec(pairs))
}
