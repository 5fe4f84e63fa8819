//! Going through the entries of a segment in order of chain and slot.

ghost use Rattle.std.specs.Prelude.{◌≡◌, ◌*◌, ◌<◌, ◌≤◌, ◌↔◌, IfOk, IfSome, MatchOption, List, ℕ, Contains, length, min};
ghost use Rattle.cm_plain.specs.States.{State};
ghost use Rattle.cm_plain.specs.Lawful.{Resting};
ghost use Rattle.cm_words.specs.Memory.{FitsNotes};
ghost use Rattle.cm_words.specs.Calls.{IsReadable, Loads};
ghost use Rattle.cm_entry.specs.Parts.{KeepsRestIf};
ghost use Rattle.cm_lookup.specs.Tiers.{IsSlot};
ghost use Rattle.cm_segment.specs.Walks.{FindsInTier, IsBefore, IsChunkOfHalf, IsInTier, IsStandIn, ReadsSlot, Walks};

use cm_entry::read_key_with_prefix;
use cm_geo::Geo;
use cm_lookup::{SlotParts, slot_of};
use cm_tiers::Tiers;
use cm_words::{Dead, Mem};

/// A slot of a segment: `link` is the number of its tier in the chain, counted from 0, and `slot` its number
/// in that tier. Cursors are in the order of the chain and then of the slots.
#[derive(Clone, Copy, Debug, PartialEq, Eq)]
pub struct Cursor {
    pub link: u32,
    pub slot: u32,
}

/// An entry that a walk came to: the slot that points to it, and the length of its key in bytes.
#[derive(Clone, Copy, Debug, PartialEq, Eq)]
pub struct Stand {
    pub at: Cursor,
    pub key_len: u32,
}

// The chunk of the tier to which a slot points, if to any.
fn chunk_of(geo: &Geo, parts: SlotParts) -> Option<u32>
    ensures { MatchOption result ((chunk : ℕ) → IsChunkOfHalf geo.now.chunks parts.low chunk → ⊥) (IsChunkOfHalf geo.now.chunks parts.low) }
{
    // An empty lower half wraps to a number that is no chunk's.
    let chunk = parts.low.wrapping_sub(1);
    if chunk < geo.chunks() {
        Some(chunk)
    } else {
        None
    }
}

// The length of the key of the entry to which a slot points, if it points to one whose key begins with the prefix.
fn key_at<M: Mem>(
    mem: &mut M,
    geo: &Geo,
    place: u32,
    slot: u32,
    prefix: &[u8],
    out: &mut [u8],
) -> Result<Option<u32>, Dead>
    requires readable { IsReadable (M.seen mem.old) geo.now }
    requires slot { IsSlot geo.now place slot }
    requires room { 256 ≤ length out.old }
    ensures loads { Loads M.seen M.same_rest mem.old mem.new result }
    ensures inside { IfOk result (λ found. IfSome found (λ len. (length prefix.now ≤ len) × (len ≤ 256))) }
    ensures found { IfOk result (λ found. (words : List ℕ) (state : State) → FitsNotes (M.seen mem.new) words
        → Resting geo.now (M.seen mem.new).setting.segment words state → Contains state.chain place → ReadsSlot geo.now words state place slot prefix.now out.new found) }
    ensures rest { KeepsRestIf 256 (min 256 (length prefix.now)) (λ len. len) out.old out.new result }
{
    let parts = slot_of(mem, geo, place, slot)?;
    let Some(chunk) = chunk_of(geo, parts) else {
        return Ok(None);
    };
    read_key_with_prefix(mem, geo, place, chunk, prefix, out)
}

// The first slot of a tier from a slot on that points to an entry whose key begins with the prefix, and the
// length of that key.
fn walk_tier<M: Mem>(
    mem: &mut M,
    geo: &Geo,
    place: u32,
    first: u32,
    prefix: &[u8],
    out: &mut [u8],
) -> Result<Option<(u32, u32)>, Dead>
    requires readable { IsReadable (M.seen mem.old) geo.now }
    requires place { place < geo.now.tiers }
    requires room { 256 ≤ length out.old }
    ensures loads { Loads M.seen M.same_rest mem.old mem.new result }
    ensures inside { IfOk result (λ found. IfSome found (IsInTier geo.now first prefix.now)) }
    ensures found { IfOk result (λ found. (words : List ℕ) (state : State) → FitsNotes (M.seen mem.new) words
        → Resting geo.now (M.seen mem.new).setting.segment words state → Contains state.chain place → FindsInTier geo.now words state place first prefix.now out.new found) }
    ensures rest { KeepsRestIf 256 (min 256 (length prefix.now)) (λ found. found.1) out.old out.new result }
{
    for slot in first..2 * geo.chunks() {
        if let Some(key_len) = key_at(mem, geo, place, slot, prefix, out)? {
            return Ok(Some((slot, key_len)));
        }
    }
    Ok(None)
}

// The first slot of the tier of a number that is not before a cursor; behind the tier's last one where
// all of them are.
fn first_slot(geo: &Geo, from: Cursor, link: u32) -> u32
    ensures { (slot : ℕ) → slot < 2 * geo.now.chunks → (result ≤ slot ↔ (IsBefore (record { link = link; slot = slot }) from → ⊥)) }
{
    if link < from.link {
        2 * geo.chunks()
    } else if link == from.link {
        from.slot
    } else {
        0
    }
}

/// The first entry at or behind a cursor, in order of chain and slot, whose key begins with the prefix, where
/// the words are those of a state; its key is copied to the beginning of `out`, which has 256 bytes or
/// more, and what stands behind stays. None exactly where there is no such entry, and then a part of the
/// prefix may stand at the beginning of `out`. Whatever the words are, the call returns, and what it answers
/// lies in the geometry.
///
/// It loads the links up to the tier where it ends, the slots from the cursor on, and of each entry the
/// lengths, and the key up to where it shows that it has another beginning.
pub fn walk<M: Mem>(
    mem: &mut M,
    geo: &Geo,
    from: Cursor,
    prefix: &[u8],
    out: &mut [u8],
) -> Result<Option<Stand>, Dead>
    requires readable { IsReadable (M.seen mem.old) geo.now }
    requires room { 256 ≤ length out.old }
    ensures loads { Loads M.seen M.same_rest mem.old mem.new result }
    ensures inside { IfOk result (λ found. IfSome found (IsStandIn geo.now from)) }
    ensures found { IfOk result (λ found. (words : List ℕ) (state : State) → FitsNotes (M.seen mem.new) words
        → Resting geo.now (M.seen mem.new).setting.segment words state → Walks geo.now words state from prefix.now out.new found) }
    ensures rest { KeepsRestIf 256 (min 256 (length prefix.now)) (λ stand. stand.key_len) out.old out.new result }
{
    let mut tiers = Tiers::first();
    for link in 0..geo.tiers() {
        let Some(place) = tiers.place(mem, geo, link)? else {
            return Ok(None);
        };
        let first = first_slot(geo, from, link);
        if let Some((slot, key_len)) = walk_tier(mem, geo, place, first, prefix, out)? {
            return Ok(Some(Stand {
                at: Cursor { link, slot },
                key_len,
            }));
        }
    }
    Ok(None)
}
