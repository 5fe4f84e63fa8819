//! The pairs of a segment, in byte order of the keys.

ghost use Rattle.std.specs.Prelude.{◌≡◌, ◌*◌, ◌<◌, ◌≤◌, ◌^◌, IfOk, IfSome, List, MatchOption, length, ℕ};
ghost use Rattle.cm_plain.specs.Lawful.{Resting};
ghost use Rattle.cm_plain.specs.States.{Lists, State, pair_of};
ghost use Rattle.cm_words.specs.Calls.{IsReadable, Loads};
ghost use Rattle.cm_words.specs.Memory.{FitsNotes};
ghost use Rattle.cm_segment.specs.Walks.{IsBefore};
ghost use Rattle.cm_turn.specs.Conditions.{EachHere};
ghost use Rattle.cm_turn.specs.Listings.{AllBefore, IsNextPair, PermutesPairs};

use crate::conditions::find_value;
use cm_geo::Geo;
use cm_plain::{Bytes, NoMemory, Pair, PairList};
use cm_segment::{Cursor, walk};
use cm_words::{Dead, Mem};
use std::alloc::Global;

/// A copy of a key and its value. Takes memory.
fn copy_of(alloc: Global, key: &[u8], value: &[u8]) -> Result<Pair, NoMemory>
    ensures { IfOk result (λ pair. pair ≡ record { key = key.now; value = value.now }) }
{
    Ok(Pair {
        key: Bytes::of(alloc, key)?,
        value: Bytes::of(alloc, value)?,
    })
}

/// The first pair at or behind a cursor, in order of chain and slot, and where it stands. Takes memory.
fn next_pair<M: Mem>(
    alloc: Global,
    mem: &mut M,
    geo: &Geo,
    from: Cursor,
    key: &mut [u8],
    value: &mut [u8],
) -> Result<Result<Option<(Cursor, Pair)>, NoMemory>, Dead>
    requires readable { IsReadable (M.seen mem.old) geo.now }
    requires key_room { 256 ≤ length key.old }
    requires value_room { 4096 ≤ length value.old }
    ensures loads { Loads M.seen M.same_rest mem.old mem.new result }
    ensures not_before { IfOk result (λ found. IfOk found (λ next. IfSome next (λ it. IsBefore it.0 from → ⊥))) }
    ensures inside { IfOk result (λ found. IfOk found (λ next. IfSome next (λ it. (it.0.link < geo.now.tiers) × (it.0.slot < 2 * geo.now.chunks)))) }
    ensures found { IfOk result (λ found. IfOk found (λ next. (words : List ℕ) (state : State) → FitsNotes (M.seen mem.new) words
        → Resting geo.now (M.seen mem.new).setting.segment words state → MatchOption next (AllBefore geo.now words state from) (λ it. IsNextPair geo.now words state from it.0 it.1))) }
    ensures key_long { length key.new ≡ length key.old }
    ensures value_long { length value.new ≡ length value.old }
{
    let Some(stand) = walk(mem, geo, from, &[], key)? else {
        return Ok(Ok(None));
    };
    let key = &key[..stand.key_len as usize];
    let Some(len) = find_value(mem, geo, key, value)? else {
        return Ok(Ok(None));
    };
    match copy_of(alloc, key, &value[..len as usize]) {
        Ok(pair) => Ok(Ok(Some((stand.at, pair)))),
        Err(error) => Ok(Err(error)),
    }
}

/// The pairs of all entries, in order of chain and slot. Takes memory.
fn collect<M: Mem>(
    alloc: Global,
    mem: &mut M,
    geo: &Geo,
) -> Result<Result<Vec<Pair>, NoMemory>, Dead>
    requires readable { IsReadable (M.seen mem.old) geo.now }
    ensures loads { Loads M.seen M.same_rest mem.old mem.new result }
    ensures countable { IfOk result (λ found. IfOk found (λ pairs. length pairs.items < 2 ^ 32)) }
    ensures all { IfOk result (λ found. IfOk found (λ pairs. EachHere (M.seen mem.new) geo.now (λ state. PermutesPairs state pairs.items))) }
{
    let mut key = [0; 256];
    let mut value = [0; 4096];
    let mut pairs = Vec::new(alloc);
    let mut from = Cursor { link: 0, slot: 0 };
    loop {
        let (at, pair) = match next_pair(alloc, mem, geo, from, &mut key, &mut value)? {
            Ok(Some(next)) => next,
            Ok(None) => return Ok(Ok(pairs)),
            Err(error) => return Ok(Err(error)),
        };
        if pairs.push(pair).is_err() {
            return Ok(Err(NoMemory));
        }
        from = Cursor {
            link: at.link,
            slot: at.slot + 1,
        };
    }
}

/// All pairs of the segment, in byte order of the keys. Takes memory.
pub(crate) fn pairs_of<M: Mem>(
    alloc: Global,
    mem: &mut M,
    geo: &Geo,
) -> Result<Result<PairList, NoMemory>, Dead>
    requires readable { IsReadable (M.seen mem.old) geo.now }
    ensures loads { Loads M.seen M.same_rest mem.old mem.new result }
    ensures lists { IfOk result (λ found. IfOk found (λ pairs. EachHere (M.seen mem.new) geo.now (λ state. Lists state pairs))) }
{
    let mut pairs = match collect(alloc, mem, geo)? {
        Ok(pairs) => pairs,
        Err(error) => return Ok(Err(error)),
    };
    pairs.sort_unstable_by(|one, other| one.key.as_slice().cmp(other.key.as_slice()));
    Ok(Ok(PairList::from_vec(pairs)))
}
