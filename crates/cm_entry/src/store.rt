//! Storing an entry, and another value in its place.

ghost use Rattle.std.specs.Prelude.{◌≡◌, ◌++◌, IfOk, OnOk, List, ℕ, length};
ghost use Rattle.std.specs.Int.{to_le_bytes, w64};
ghost use Rattle.cm_geo.specs.Addresses.{chunk_at};
ghost use Rattle.cm_geo.specs.Hash.{hash as hash_of};
ghost use Rattle.cm_plain.specs.Readings.{HasEntry, head_of as head_in, padded};
ghost use Rattle.cm_words.specs.Memory.{FitsNotes};
ghost use Rattle.cm_words.specs.Effects.{Reads};
ghost use Rattle.cm_words.specs.Stores.{MayStoreAll, MayStoreEach, WritesEach, WritesPrefixEach};
ghost use Rattle.cm_words.specs.Calls.{IsWritable, Performs, StoresAll};
ghost use Rattle.cm_entry.specs.Packing.{hash_on, words_of};
ghost use Rattle.cm_entry.specs.EntryStores.{AreStorable, HasRoom, IsStorable, Replaces, entry_stores, head_stores, replacing_stores, stores_from, value_stores};

use crate::hashing::{hash_head, hash_word};
use crate::pack::{hash_words, head_of, nth_word, words_for};
use cm_geo::Geo;
use cm_words::{Dead, Mem};

// Stores the words of bytes from an address on, and answers the hash that went on over them.
fn store_bytes<M: Mem>(mem: &mut M, at: u32, bytes: &[u8], state: u64) -> Result<u64, Dead>
    requires room { AreStorable (M.seen mem.old) at (length bytes.now) }
    requires allowed { MayStoreAll (M.seen mem.old) (stores_from at (words_of bytes.now)) }
    ensures stores { StoresAll M.seen M.same_rest (stores_from at (words_of bytes.now)) mem.old mem.new result }
    ensures hash { IfOk result (λ hash. hash ≡ hash_on state (padded bytes.now)) }
{
    let mut hash = state;
    for number in 0..words_for(bytes) {
        let word = nth_word(bytes, number);
        mem.store(at + number, word)?;
        hash = hash_word(hash, word);
    }
    Ok(hash)
}

// Stores the first word of an entry, where another one stands there.
fn store_head<M: Mem>(mem: &mut M, at: u32, head: u64) -> Result<(), Dead>
    requires room { AreStorable (M.seen mem.old) at 8 }
    requires allowed { MayStoreEach (M.seen mem.old) (head_stores at head) }
    ensures { Performs M.seen M.same_rest (λ old now. WritesEach old now (head_stores at head)) Reads mem.old mem.new result }
{
    let stood = mem.load(at)?;
    if stood == head {
        return Ok(());
    }
    mem.store(at, head)?;
    Ok(())
}

// Stores the words of a value behind those of its key, and then the checksum, which is over all words
// before them and so far is this.
fn store_value<M: Mem>(
    mem: &mut M,
    at: u32,
    key: &[u8],
    value: &[u8],
    so_far: u64,
) -> Result<(), Dead>
    requires room { IsStorable (M.seen mem.old) at key.now value.now }
    requires so_far { so_far ≡ hash_of (to_le_bytes w64 (head_in key.now value.now) ++ padded key.now) }
    requires allowed { MayStoreAll (M.seen mem.old) (value_stores at key.now value.now) }
    ensures { StoresAll M.seen M.same_rest (value_stores at key.now value.now) mem.old mem.new result }
{
    let checksum = store_bytes(mem, at + 2 + words_for(key), value, so_far)?;
    mem.store(at + 1, checksum)?;
    Ok(())
}

/// Stores an entry at a chunk: its first word, the words of its key and of its value, and then the
/// checksum.
///
/// The entry fits, and its run ends within the tier; what stood there doesn't matter. `Dead` where the
/// fuse died in place of a store: those before it were made.
pub fn write<M: Mem>(
    mem: &mut M,
    geo: &Geo,
    place: u32,
    chunk: u32,
    key: &[u8],
    value: &[u8],
) -> Result<(), Dead>
    requires writable { IsWritable (M.seen mem.old) geo.now }
    requires room { HasRoom geo.now place chunk key.now value.now }
    requires allowed { MayStoreAll (M.seen mem.old) (entry_stores (chunk_at geo.now place chunk) key.now value.now) }
    ensures stores { StoresAll M.seen M.same_rest (entry_stores (chunk_at geo.now place chunk) key.now value.now) mem.old mem.new result }
    ensures stands { OnOk result ((words : List ℕ) → FitsNotes (M.seen mem.new) words → HasEntry geo.now words place chunk key.now value.now) }
{
    let at = geo.chunk_at(place, chunk);
    let head = head_of(key, value);
    mem.store(at, head)?;
    let over_head = hash_head(head);
    let over_key = store_bytes(mem, at + 2, key, over_head)?;
    store_value(mem, at, key, value, over_key)?;
    Ok(())
}

/// Stores another value of the entry of this key that stands at a chunk: its first word, unless that
/// is the same, all words of the value, and then the checksum.
///
/// The new entry fits, and its run ends within the tier. The words of the key are neither loaded nor
/// stored. `Dead` where the fuse died in place of an event: the stores before it were made.
pub fn write_value<M: Mem>(
    mem: &mut M,
    geo: &Geo,
    place: u32,
    chunk: u32,
    key: &[u8],
    value: &[u8],
) -> Result<(), Dead>
    requires writable { IsWritable (M.seen mem.old) geo.now }
    requires room { HasRoom geo.now place chunk key.now value.now }
    requires allowed { MayStoreEach (M.seen mem.old) (replacing_stores (chunk_at geo.now place chunk) key.now value.now) }
    ensures { Performs M.seen M.same_rest (λ old now. Replaces old now geo.now place chunk key.now value.now)
        (λ old now. WritesPrefixEach old now (replacing_stores (chunk_at geo.now place chunk) key.now value.now)) mem.old mem.new result }
{
    let at = geo.chunk_at(place, chunk);
    let head = head_of(key, value);
    store_head(mem, at, head)?;
    let over_head = hash_head(head);
    store_value(mem, at, key, value, hash_words(over_head, key))?;
    Ok(())
}
