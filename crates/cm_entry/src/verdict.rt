//! Whether an entry stands at a chunk.

ghost use Rattle.std.specs.Prelude.{◌≡◌, ◌+◌, ◌<◌, IfOk, MatchOption, List, ℕ, false, true};
ghost use Rattle.cm_geo.specs.declared.limits.TheConstants.{MAX_KEY_BYTES, MAX_VALUE_BYTES};
ghost use Rattle.cm_geo.specs.Need.{need, parts_for};
ghost use Rattle.cm_plain.specs.Readings.{key_len, lengths_fit, value_len};
ghost use Rattle.cm_words.specs.Memory.{FitsNotes};
ghost use Rattle.cm_entry.specs.Loading.{IsReadableChunk, LoadsAtMost};
ghost use Rattle.cm_entry.specs.Verdicts.{IsVerdict};

use crate::checksum::hash_entry;
use crate::hashing::hash_head;
use crate::span::halves;
use cm_geo::Geo;
use cm_words::{Dead, Mem};

/// What stands at a chunk: an entry with its lengths and its chunks, or the first thing that is wrong.
#[derive(Clone, Copy, Debug, PartialEq, Eq)]
pub enum Verdict {
    /// An entry stands there.
    Good {
        key_len: u32,
        value_len: u32,
        chunks: u32,
    },
    /// The lengths may not be stored, or the run reaches behind the tier.
    Lengths,
    /// The second word isn't the checksum.
    Checksum,
    /// The padding of the key's or of the value's last word isn't zero.
    Padding,
}

// The chunks of an entry with this first word, if its lengths may be stored and its run lies in the tier.
fn chunks_for(geo: &Geo, chunk: u32, head: u64) -> Option<u32>
    requires { chunk < geo.now.chunks }
    ensures { MatchOption result (lengths_fit geo.now chunk head ≡ false)
        (λ chunks. (lengths_fit geo.now chunk head ≡ true) × (chunks ≡ need geo.now (key_len head) (value_len head))) }
{
    let (key_len, value_len) = halves(head);
    if !geo.fits(key_len, value_len) {
        return None;
    }
    let chunks = geo.need(key_len, value_len);
    if chunk + chunks <= geo.chunks() {
        Some(chunks)
    } else {
        None
    }
}

/// Whether an entry stands at a chunk, whatever the words are, or why none does: the lengths are looked
/// at first, then the checksum, then the padding.
pub fn verify<M: Mem>(mem: &mut M, geo: &Geo, place: u32, chunk: u32) -> Result<Verdict, Dead>
    requires readable { IsReadableChunk (M.seen mem.old) geo.now place chunk }
    ensures loads { LoadsAtMost M.seen M.same_rest (2 + parts_for 8 MAX_KEY_BYTES + parts_for 8 MAX_VALUE_BYTES) mem.old mem.new result }
    ensures verdict { IfOk result (λ verdict. (words : List ℕ) → FitsNotes (M.seen mem.new) words
        → IsVerdict geo.now words place chunk (M.seen mem.old).meter.events (M.seen mem.new).meter.events verdict) }
{
    let at = geo.chunk_at(place, chunk);
    let head = mem.load(at)?;
    let stored_checksum = mem.load(at + 1)?;
    let Some(chunks) = chunks_for(geo, chunk, head) else {
        return Ok(Verdict::Lengths);
    };
    let (key_len, value_len) = halves(head);
    let start = hash_head(head);
    let entry = hash_entry(mem, at + 2, key_len, value_len, start)?;
    if entry.state != stored_checksum {
        return Ok(Verdict::Checksum);
    }
    if !entry.padded {
        return Ok(Verdict::Padding);
    }
    Ok(Verdict::Good {
        key_len,
        value_len,
        chunks,
    })
}
