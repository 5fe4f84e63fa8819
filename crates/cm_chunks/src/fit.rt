//! Free chunks of a tier.

ghost use Rattle.std.specs.Prelude.{◌+◌, ◌/◌, ◌<◌, ◌≤◌, ◌↔◌, IfOk, IfSome, IsTrue, List, OnOk, ℕ};
ghost use Rattle.cm_words.specs.Memory.{FitsNotes};
ghost use Rattle.cm_words.specs.Calls.{IsReadable, Loads};
ghost use Rattle.cm_chunks.specs.Free.{FindsFit, IsFreeRun};

use crate::bits::{bits_between, clear_run_in};
use cm_geo::Geo;
use cm_words::{Dead, Mem};

/// The least chunk of a tier from which so many chunks are free, 1 to 64 of them.
///
/// It is `None` exactly where there is none. Each bit word is loaded once.
pub fn first_fit<M: Mem>(
    mem: &mut M,
    geo: &Geo,
    place: u32,
    chunks: u32,
) -> Result<Option<u32>, Dead>
    requires readable { IsReadable (M.seen mem.old) geo.now }
    requires place { place < geo.now.tiers }
    requires nonzero { 1 ≤ chunks }
    requires within_limit { chunks ≤ 64 }
    ensures loads { Loads M.seen M.same_rest mem.old mem.new result }
    ensures count { OnOk result ((M.seen mem.new).meter.events ≤ (M.seen mem.old).meter.events + geo.now.chunks / 64) }
    ensures found { IfOk result (λ found. (words : List ℕ) → FitsNotes (M.seen mem.new) words → FindsFit geo.now words place chunks found) }
    ensures inside { IfOk result (λ found. IfSome found (λ chunk. chunk + chunks ≤ geo.now.chunks)) }
{
    // So many chunks before this word are free; a whole run among them would have been found.
    let mut before = 0;
    for number in 0..geo.chunks() / 64 {
        let word = mem.load(geo.bits_at(place, number))?;
        if chunks <= before + word.trailing_zeros() {
            return Ok(Some(64 * number - before));
        }
        if let Some(bit) = clear_run_in(word, chunks) {
            return Ok(Some(64 * number + bit));
        }
        before = word.leading_zeros();
    }
    Ok(None)
}

/// Whether so many chunks of a tier from a chunk on are there and free, 1 to 64 of them.
///
/// The chunk may be the one behind the tier's last.
pub fn free_after<M: Mem>(
    mem: &mut M,
    geo: &Geo,
    place: u32,
    chunk: u32,
    chunks: u32,
) -> Result<bool, Dead>
    requires readable { IsReadable (M.seen mem.old) geo.now }
    requires place { place < geo.now.tiers }
    requires chunk { chunk ≤ geo.now.chunks }
    requires nonzero { 1 ≤ chunks }
    requires within_limit { chunks ≤ 64 }
    ensures loads { Loads M.seen M.same_rest mem.old mem.new result }
    ensures count { OnOk result ((M.seen mem.new).meter.events ≤ (M.seen mem.old).meter.events + 2) }
    ensures free { IfOk result (λ free. (words : List ℕ) → FitsNotes (M.seen mem.new) words → (IsTrue free ↔ IsFreeRun geo.now words place chunk chunks)) }
    ensures inside { IfOk result (λ free. IsTrue free → chunk + chunks ≤ geo.now.chunks) }
{
    if geo.chunks() - chunk < chunks {
        return Ok(false);
    }
    let number = chunk / 64;
    let from = chunk % 64;
    let end = from + chunks;
    let word = mem.load(geo.bits_at(place, number))?;
    if end <= 64 {
        return Ok(word & bits_between(from, end) == 0);
    }
    if word & bits_between(from, 64) != 0 {
        return Ok(false);
    }
    let next = mem.load(geo.bits_at(place, number + 1))?;
    Ok(next & bits_between(0, end - 64) == 0)
}
