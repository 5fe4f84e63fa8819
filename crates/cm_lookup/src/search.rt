//! Searching along the slots of a tier.

ghost use Rattle.std.specs.Prelude.{◌≡◌, ◌+◌, ◌*◌, ◌<◌, ◌≤◌, IfOk, IfSome, MatchOption, OnOk, List, ℕ};
ghost use Rattle.cm_words.specs.Memory.{FitsNotes};
ghost use Rattle.cm_words.specs.Calls.{IsReadable, Loads};
ghost use Rattle.cm_lookup.specs.Probing.{ChunkFor, Finds, IsFirstEmpty, IsWithin};
ghost use Rattle.cm_lookup.specs.Tiers.{HasEmptySlot};

use crate::hit::Hit;
use cm_geo::Geo;
use cm_words::{Dead, Mem};

// The chunk to which a slot's word points for the fingerprint, if that is one of so many.
fn chunk_for(word: u64, fingerprint: u32, chunks: u32) -> Option<u32>
    ensures { ChunkFor word fingerprint chunks result }
{
    // An empty lower half wraps to a number that is no chunk's.
    let chunk = ((word & u64::from(u32::MAX)) as u32).wrapping_sub(1);
    if (word >> 32) as u32 == fingerprint && chunk < chunks {
        Some(chunk)
    } else {
        None
    }
}

/// The first slot, at `from` or more steps behind the home and before an empty slot that stands there,
/// that holds the fingerprint and points to a chunk of the tier. None also after a whole round.
pub fn find<M: Mem>(
    mem: &mut M,
    geo: &Geo,
    place: u32,
    fingerprint: u32,
    from: u32,
) -> Result<Option<Hit>, Dead>
    requires readable { IsReadable (M.seen mem.old) geo.now }
    requires place { place < geo.now.tiers }
    requires from { from ≤ 2 * geo.now.chunks }
    ensures loads { Loads M.seen M.same_rest mem.old mem.new result }
    ensures count { IfOk result (λ found. MatchOption found
        ((M.seen mem.new).meter.events + from ≤ (M.seen mem.old).meter.events + 2 * geo.now.chunks)
        (λ hit. (M.seen mem.new).meter.events + from ≡ (M.seen mem.old).meter.events + hit.steps + 1)) }
    ensures inside { IfOk result (λ found. IfSome found (IsWithin geo.now from)) }
    ensures found { IfOk result (λ found. (words : List ℕ) → FitsNotes (M.seen mem.new) words → Finds geo.now words place fingerprint from found) }
{
    // In locals, since a load between two turns would have the geometry's fields read again.
    let chunks = geo.chunks();
    let slots = 2 * chunks;
    let first = geo.slot_at(place, 0);
    let home = geo.home_of(fingerprint);
    for steps in from..slots {
        let slot = (home + steps) & (slots - 1);
        let word = mem.load(first + slot)?;
        if word == 0 {
            return Ok(None);
        }
        if let Some(chunk) = chunk_for(word, fingerprint, chunks) {
            return Ok(Some(Hit { steps, slot, chunk }));
        }
    }
    Ok(None)
}

/// The first empty slot from the home of the fingerprint on.
pub fn free_slot<M: Mem>(mem: &mut M, geo: &Geo, place: u32, fingerprint: u32) -> Result<u32, Dead>
    requires readable { IsReadable (M.seen mem.old) geo.now }
    requires place { place < geo.now.tiers }
    ensures loads { Loads M.seen M.same_rest mem.old mem.new result }
    ensures count { OnOk result ((M.seen mem.new).meter.events ≤ (M.seen mem.old).meter.events + 2 * geo.now.chunks) }
    ensures in_range { IfOk result (λ slot. slot < 2 * geo.now.chunks) }
    ensures first { IfOk result (λ slot. (words : List ℕ) → FitsNotes (M.seen mem.new) words
        → HasEmptySlot geo.now words place → IsFirstEmpty geo.now words place fingerprint slot) }
{
    let slots = 2 * geo.chunks();
    let first = geo.slot_at(place, 0);
    let home = geo.home_of(fingerprint);
    for steps in 0..slots {
        let slot = (home + steps) & (slots - 1);
        let word = mem.load(first + slot)?;
        if word == 0 {
            return Ok(slot);
        }
    }
    Ok(home)
}
