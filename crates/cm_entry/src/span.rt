//! Where the bytes of a key or a value stand.

ghost use Rattle.std.specs.Prelude.{◌≡◌, ◌+◌, ◌<◌, IfOk, List, ℕ};
ghost use Rattle.cm_geo.specs.declared.limits.TheConstants.{MAX_KEY_BYTES, MAX_VALUE_BYTES};
ghost use Rattle.cm_geo.specs.Addresses.{chunk_at};
ghost use Rattle.cm_words.specs.Memory.{FitsNotes};
ghost use Rattle.cm_words.specs.Calls.{LoadsOnce};
ghost use Rattle.cm_entry.specs.Loading.{IsReadableChunk};
ghost use Rattle.cm_entry.specs.Spans.{AreLengths, AreLengthsAt, IsSpanAt, IsSpanStart, LoadsSpan};

use cm_geo::{Geo, MAX_KEY_BYTES, MAX_VALUE_BYTES};
use cm_words::{Dead, Mem};

/// So many bytes in the words from an address on, 8 a word.
#[derive(Clone, Copy)]
pub(crate) struct Span {
    pub at: u32,
    pub len: u32,
}

/// The lower and the upper half of an entry's first word: the lengths of its key and its value.
pub(crate) fn halves(head: u64) -> (u32, u32)
    ensures { AreLengths head result.0 result.1 }
{
    ((head & u64::from(u32::MAX)) as u32, (head >> 32) as u32)
}

/// The lengths of the key and of the value of the entry at a chunk: the halves of its first word,
/// whatever stands there.
pub fn lengths<M: Mem>(mem: &mut M, geo: &Geo, place: u32, chunk: u32) -> Result<(u32, u32), Dead>
    requires readable { IsReadableChunk (M.seen mem.old) geo.now place chunk }
    ensures loads { LoadsOnce M.seen M.same_rest mem.old mem.new result }
    ensures lengths { IfOk result (λ lengths. (words : List ℕ) → FitsNotes (M.seen mem.new) words
        → AreLengthsAt geo.now words place chunk lengths.0 lengths.1) }
{
    let head = mem.load(geo.chunk_at(place, chunk))?;
    Ok(halves(head))
}

// The span of so many bytes; an empty one where they are too many or reach behind the segment.
fn span_at(geo: &Geo, at: u32, len: u32, most: u32) -> Span
    requires { IsSpanStart at most }
    ensures { IsSpanAt geo.now at len most result }
{
    if len <= most && at + len.div_ceil(8) <= geo.segment_words() {
        Span { at, len }
    } else {
        Span { at: 2, len: 0 }
    }
}

/// Where a key of this length stands in the entry at a chunk.
pub(crate) fn key_span_of(geo: &Geo, place: u32, chunk: u32, len: u32) -> Span
    requires place { place < geo.now.tiers }
    requires chunk { chunk < geo.now.chunks }
    ensures { IsSpanAt geo.now (chunk_at geo.now place chunk + 2) len MAX_KEY_BYTES result }
{
    span_at(geo, geo.chunk_at(place, chunk) + 2, len, MAX_KEY_BYTES)
}

/// Where the key of the entry at a chunk stands.
pub(crate) fn key_span<M: Mem>(mem: &mut M, geo: &Geo, place: u32, chunk: u32) -> Result<Span, Dead>
    requires { IsReadableChunk (M.seen mem.old) geo.now place chunk }
    ensures { LoadsSpan M.seen M.same_rest geo.now place chunk MAX_KEY_BYTES (λ pair. pair.key) mem.old mem.new result }
{
    let (key_len, _) = lengths(mem, geo, place, chunk)?;
    Ok(key_span_of(geo, place, chunk, key_len))
}

/// Where the value of the entry at a chunk stands.
pub(crate) fn value_span<M: Mem>(
    mem: &mut M,
    geo: &Geo,
    place: u32,
    chunk: u32,
) -> Result<Span, Dead>
    requires { IsReadableChunk (M.seen mem.old) geo.now place chunk }
    ensures { LoadsSpan M.seen M.same_rest geo.now place chunk MAX_VALUE_BYTES (λ pair. pair.value) mem.old mem.new result }
{
    let (key_len, value_len) = lengths(mem, geo, place, chunk)?;
    let at = geo.chunk_at(place, chunk) + 2 + key_len.div_ceil(8);
    Ok(span_at(geo, at, value_len, MAX_VALUE_BYTES))
}
