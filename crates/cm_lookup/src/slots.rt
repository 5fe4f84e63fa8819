//! Reading and storing the slots of a tier.

ghost use Rattle.std.specs.Prelude.{◌<◌, IfOk, List, ℕ};
ghost use Rattle.cm_geo.specs.Addresses.{slot_at};
ghost use Rattle.cm_plain.specs.Slots.{word_at};
ghost use Rattle.cm_words.specs.Memory.{FitsNotes, MayStore};
ghost use Rattle.cm_words.specs.Calls.{IsReadable, IsWritable, LoadsOnce, Performs, StoresOnce};
ghost use Rattle.cm_lookup.specs.Probing.{AreHalves};
ghost use Rattle.cm_lookup.specs.Removals.{MayShift, Removes, ShiftsPart};
ghost use Rattle.cm_lookup.specs.Tiers.{IsSlot, slot_word};

use crate::hit::SlotParts;
use cm_geo::Geo;
use cm_words::{Dead, Mem};

/// The two halves of a slot's word.
pub fn slot_of<M: Mem>(mem: &mut M, geo: &Geo, place: u32, slot: u32) -> Result<SlotParts, Dead>
    requires readable { IsReadable (M.seen mem.old) geo.now }
    requires slot { IsSlot geo.now place slot }
    ensures loads { LoadsOnce M.seen M.same_rest mem.old mem.new result }
    ensures parts { IfOk result (λ parts. (words : List ℕ) → FitsNotes (M.seen mem.new) words
        → AreHalves (word_at words (slot_at geo.now place slot)) parts) }
{
    let word = mem.load(geo.slot_at(place, slot))?;
    Ok(SlotParts {
        fingerprint: (word >> 32) as u32,
        low: (word & u64::from(u32::MAX)) as u32,
    })
}

/// One store of a slot that points to a chunk.
#[tactic(auto, using(crate::proofs::Tiers::slot_inner))]
pub fn put_slot<M: Mem>(
    mem: &mut M,
    geo: &Geo,
    place: u32,
    slot: u32,
    fingerprint: u32,
    chunk: u32,
) -> Result<(), Dead>
    requires writable { IsWritable (M.seen mem.old) geo.now }
    requires slot { IsSlot geo.now place slot }
    requires chunk { chunk < geo.now.chunks }
    requires allowed { MayStore (M.seen mem.old) (slot_at geo.now place slot) (slot_word fingerprint chunk) }
    ensures { StoresOnce M.seen M.same_rest (slot_at geo.now place slot) (slot_word fingerprint chunk) mem.old mem.new result }
{
    let word = (u64::from(fingerprint) << 32) + u64::from(chunk) + 1;
    mem.store(geo.slot_at(place, slot), word)?;
    Ok(())
}

/// Takes the word of a slot away, and moves others so that none of them is cut off from its home.
///
/// It is the backward-shift deletion of linear probing, Knuth's Algorithm R (The Art of Computer Programming,
/// volume 3, section 6.4), with the direction of probing turned round: the slots behind are gone
/// through up to the first empty one, each whose home doesn't lie behind the hole fills it, and becomes the
/// hole, and the last hole is emptied at the end.
#[tactic(auto, using(crate::proofs::Tiers::slot_inner))]
pub fn remove_at<M: Mem>(mem: &mut M, geo: &Geo, place: u32, slot: u32) -> Result<(), Dead>
    requires writable { IsWritable (M.seen mem.old) geo.now }
    requires slot { IsSlot geo.now place slot }
    requires allowed { MayShift (M.seen mem.old) geo.now place slot }
    ensures { Performs M.seen M.same_rest (λ old now. Removes old now geo.now place slot)
        (λ old now. ShiftsPart old now geo.now place slot) mem.old mem.new result }
{
    // In locals, since a load between two turns would have the geometry's fields read again.
    let slots = 2 * geo.chunks();
    let first = geo.slot_at(place, 0);
    // The hole is so many steps behind the slot.
    let mut hole = 0;
    for steps in 1..slots {
        let at = (slot + steps) & (slots - 1);
        let word = mem.load(first + at)?;
        let left = (slot + hole) & (slots - 1);
        if word == 0 {
            mem.store(first + left, 0)?;
            return Ok(());
        }
        let home = (word >> 32) as u32 & (slots - 1);
        let way = (at + slots - home) & (slots - 1);
        if steps <= way + hole {
            mem.store(first + left, word)?;
            hole = steps;
        }
    }
    Ok(())
}
