//! Reading the entry that stands at a chunk.

ghost use Rattle.std.specs.Prelude.{◌≡◌, ◌+◌, ◌≤◌, IfOk, IsSome, List, MatchOption, ℕ, length, min};
ghost use Rattle.cm_geo.specs.declared.limits.TheConstants.{MAX_KEY_BYTES, MAX_VALUE_BYTES};
ghost use Rattle.cm_geo.specs.Hash.{hash as hash_of};
ghost use Rattle.cm_geo.specs.Need.{parts_for};
ghost use Rattle.cm_plain.specs.declared.reply.Pair.{Pair};
ghost use Rattle.cm_plain.specs.Readings.{entry, reading_at};
ghost use Rattle.cm_words.specs.Memory.{FitsNotes};
ghost use Rattle.cm_words.specs.Calls.{Loads};
ghost use Rattle.cm_entry.specs.Loading.{IsReadableChunk, LoadsAtMost, LoadsCounted, LoadsToCompare};
ghost use Rattle.cm_entry.specs.Parts.{IsPartCopy, IsPartEqual, KeepsRest, KeepsRestIf};
ghost use Rattle.cm_entry.specs.Prefixes.{AreLengthsIf, IsKeyCopyIf};

use crate::checksum::hash_span;
use crate::compare::same_bytes;
use crate::copy::copy_bytes;
use crate::prefix::copy_prefixed;
use crate::span::{key_span, key_span_of, lengths, value_span};
use cm_geo::{Geo, hash};
use cm_words::{Dead, Mem};

/// Whether the key of the entry at a chunk is this one.
pub fn key_equals<M: Mem>(
    mem: &mut M,
    geo: &Geo,
    place: u32,
    chunk: u32,
    key: &[u8],
) -> Result<bool, Dead>
    requires readable { IsReadableChunk (M.seen mem.old) geo.now place chunk }
    ensures loads { LoadsToCompare M.seen M.same_rest (1 + parts_for 8 (length key.now)) mem.old mem.new result }
    ensures equals { IfOk result (IsPartEqual (M.seen mem.new) geo.now place chunk (λ pair. pair.key) key.now) }
{
    let span = key_span(mem, geo, place, chunk)?;
    same_bytes(mem, span, key)
}

/// The lengths of the key and of the value of the entry at a chunk, if its key is this one.
pub fn lengths_if_key<M: Mem>(
    mem: &mut M,
    geo: &Geo,
    place: u32,
    chunk: u32,
    key: &[u8],
) -> Result<Option<(u32, u32)>, Dead>
    requires readable { IsReadableChunk (M.seen mem.old) geo.now place chunk }
    ensures loads { LoadsAtMost M.seen M.same_rest (1 + parts_for 8 (length key.now)) mem.old mem.new result }
    ensures key_within_limit { IfOk result (λ lengths. IsSome lengths → length key.now ≤ MAX_KEY_BYTES) }
    ensures lengths { IfOk result (AreLengthsIf (M.seen mem.new) geo.now place chunk key.now) }
{
    let (key_len, value_len) = lengths(mem, geo, place, chunk)?;
    let span = key_span_of(geo, place, chunk, key_len);
    if same_bytes(mem, span, key)? {
        return Ok(Some((key_len, value_len)));
    }
    Ok(None)
}

/// Whether the value of the entry at a chunk is this one.
pub fn value_equals<M: Mem>(
    mem: &mut M,
    geo: &Geo,
    place: u32,
    chunk: u32,
    value: &[u8],
) -> Result<bool, Dead>
    requires readable { IsReadableChunk (M.seen mem.old) geo.now place chunk }
    ensures loads { LoadsToCompare M.seen M.same_rest (1 + parts_for 8 (length value.now)) mem.old mem.new result }
    ensures equals { IfOk result (IsPartEqual (M.seen mem.new) geo.now place chunk (λ pair. pair.value) value.now) }
{
    let span = value_span(mem, geo, place, chunk)?;
    same_bytes(mem, span, value)
}

/// The hash of the key of the entry at a chunk.
pub fn key_hash<M: Mem>(mem: &mut M, geo: &Geo, place: u32, chunk: u32) -> Result<u64, Dead>
    requires readable { IsReadableChunk (M.seen mem.old) geo.now place chunk }
    ensures loads { LoadsAtMost M.seen M.same_rest (1 + parts_for 8 MAX_KEY_BYTES) mem.old mem.new result }
    ensures hash { IfOk result (λ number. (words : List ℕ) → FitsNotes (M.seen mem.new) words
        → (pair : Pair) → reading_at geo.now words place chunk ≡ entry pair → number ≡ hash_of pair.key) }
{
    let span = key_span(mem, geo, place, chunk)?;
    let key = hash_span(mem, span, hash(&[]))?;
    Ok(key.state)
}

/// Copies the key of the entry at a chunk to the beginning of `out`, which has 256 bytes or more, and
/// answers its length. What stands in `out` behind it stays.
pub fn read_key_into<M: Mem>(
    mem: &mut M,
    geo: &Geo,
    place: u32,
    chunk: u32,
    out: &mut [u8],
) -> Result<u32, Dead>
    requires readable { IsReadableChunk (M.seen mem.old) geo.now place chunk }
    requires room { MAX_KEY_BYTES ≤ length out.old }
    ensures loads { LoadsCounted M.seen M.same_rest (λ len. 1 + parts_for 8 len) mem.old mem.new result }
    ensures key { IfOk result (IsPartCopy (M.seen mem.new) geo.now place chunk MAX_KEY_BYTES (λ pair. pair.key) out.new) }
    ensures rest { KeepsRest MAX_KEY_BYTES out.old out.new result }
{
    let span = key_span(mem, geo, place, chunk)?;
    copy_bytes(mem, span, out)?;
    Ok(span.len)
}

/// Copies the key of the entry at a chunk to the beginning of `out`, which has 256 bytes or more, if it
/// begins with the prefix, and answers its length. Of another key it loads no more than shows this, and
/// then a part of the prefix may stand at the beginning of `out`. What stands behind stays.
pub fn read_key_with_prefix<M: Mem>(
    mem: &mut M,
    geo: &Geo,
    place: u32,
    chunk: u32,
    prefix: &[u8],
    out: &mut [u8],
) -> Result<Option<u32>, Dead>
    requires readable { IsReadableChunk (M.seen mem.old) geo.now place chunk }
    requires room { MAX_KEY_BYTES ≤ length out.old }
    ensures loads { Loads M.seen M.same_rest mem.old mem.new result }
    ensures count { IfOk result (λ found. MatchOption found
        ((M.seen mem.new).meter.events ≤ (M.seen mem.old).meter.events + 1 + parts_for 8 (length prefix.now))
        (λ len. (M.seen mem.new).meter.events ≡ (M.seen mem.old).meter.events + 1 + parts_for 8 len)) }
    ensures key { IfOk result (IsKeyCopyIf (M.seen mem.new) geo.now place chunk prefix.now out.new) }
    ensures rest { KeepsRestIf MAX_KEY_BYTES (min MAX_KEY_BYTES (length prefix.now)) (λ len. len) out.old out.new result }
{
    let span = key_span(mem, geo, place, chunk)?;
    if copy_prefixed(mem, span, prefix, out)? {
        return Ok(Some(span.len));
    }
    Ok(None)
}

/// Copies the value of the entry at a chunk to the beginning of `out`, which has 4096 bytes or more, and
/// answers its length. What stands in `out` behind it stays.
pub fn read_value_into<M: Mem>(
    mem: &mut M,
    geo: &Geo,
    place: u32,
    chunk: u32,
    out: &mut [u8],
) -> Result<u32, Dead>
    requires readable { IsReadableChunk (M.seen mem.old) geo.now place chunk }
    requires room { MAX_VALUE_BYTES ≤ length out.old }
    ensures loads { LoadsCounted M.seen M.same_rest (λ len. 1 + parts_for 8 len) mem.old mem.new result }
    ensures value { IfOk result (IsPartCopy (M.seen mem.new) geo.now place chunk MAX_VALUE_BYTES (λ pair. pair.value) out.new) }
    ensures rest { KeepsRest MAX_VALUE_BYTES out.old out.new result }
{
    let span = value_span(mem, geo, place, chunk)?;
    copy_bytes(mem, span, out)?;
    Ok(span.len)
}
