//! What stands in a segment of words that nobody changes: its slots and its entries.

ghost use Rattle.std.specs.Prelude.{◌≡◌, ◌+◌, ◌*◌, ◌<◌, ◌≤◌, ◌↔◌, IfSome, IsSome, IsTrue, is_some, length, take};
ghost use Rattle.cm_geo.specs.Hash.{hash};
ghost use Rattle.cm_geo.specs.Need.{need};
ghost use Rattle.cm_plain.specs.declared.reply.Pair.{Pair};
ghost use Rattle.cm_plain.specs.Readings.{entry, reading_at};
ghost use Rattle.cm_plain.specs.Slots.{slot_in};
ghost use Rattle.cm_lookup.specs.Probing.{Finds, IsWithin};
ghost use Rattle.cm_lookup.specs.Tiers.{IsSlot};
ghost use Rattle.cm_check.specs.SlotEntries.{entry_read};
ghost use Rattle.cm_check.specs.Quiets.{IsChunk, geo_of, slot_seen, words_of};

use crate::quiet::Quiet;
use cm_entry::{Verdict, key_equals, key_hash, lengths, read_key_into, read_value_into, verify};
use cm_lookup::{Hit, SlotParts, find, slot_of};

impl Quiet<'_> {
    /// The two halves of a slot's word, unless the slot is empty.
    pub(crate) fn slot(&self, place: u32, number: u32) -> Option<SlotParts>
        requires { IsSlot (geo_of self.now) place number }
        ensures { slot_seen result ≡ slot_in (geo_of self.now) (words_of self.now) place number }
    {
        let parts = slot_of(&mut self.reader(), self.geo(), place, number).unwrap();
        if parts.fingerprint == 0 && parts.low == 0 {
            None
        } else {
            Some(parts)
        }
    }

    /// The first slot, from so many steps behind the home of a fingerprint on, that holds it.
    pub(crate) fn find(&self, place: u32, fingerprint: u32, from: u32) -> Option<Hit>
        requires place { place < (geo_of self.now).tiers }
        requires from { from ≤ 2 * (geo_of self.now).chunks }
        ensures inside { IfSome result (IsWithin (geo_of self.now) from) }
        ensures found { Finds (geo_of self.now) (words_of self.now) place fingerprint from result }
    {
        find(&mut self.reader(), self.geo(), place, fingerprint, from).unwrap()
    }

    /// Whether an entry stands at a chunk.
    pub(crate) fn has_entry(&self, place: u32, chunk: u32) -> bool
        requires { IsChunk (geo_of self.now) place chunk }
        ensures { result ≡ is_some (entry_read place chunk (reading_at (geo_of self.now) (words_of self.now) place chunk)) }
    {
        let verdict = verify(&mut self.reader(), self.geo(), place, chunk).unwrap();
        matches!(verdict, Verdict::Good { .. })
    }

    /// The hash of the key of the entry that stands at a chunk.
    pub(crate) fn key_hash(&self, place: u32, chunk: u32) -> u64
        requires { IsChunk (geo_of self.now) place chunk }
        ensures { (pair : Pair) → reading_at (geo_of self.now) (words_of self.now) place chunk ≡ entry pair → result ≡ hash pair.key }
    {
        key_hash(&mut self.reader(), self.geo(), place, chunk).unwrap()
    }

    /// The chunks of the entry that stands at a chunk.
    pub(crate) fn chunks_at(&self, place: u32, chunk: u32) -> u32
        requires chunk { IsChunk (geo_of self.now) place chunk }
        requires there { IsSome (entry_read place chunk (reading_at (geo_of self.now) (words_of self.now) place chunk)) }
        ensures { (pair : Pair) → reading_at (geo_of self.now) (words_of self.now) place chunk ≡ entry pair
            → result ≡ need (geo_of self.now) (length pair.key) (length pair.value) }
    {
        let (key_len, value_len) = lengths(&mut self.reader(), self.geo(), place, chunk).unwrap();
        self.geo().need(key_len, value_len)
    }

    /// Whether these bytes are the key of the entry that stands at a chunk.
    pub(crate) fn has_key(&self, place: u32, chunk: u32, key: &[u8]) -> bool
        requires { IsChunk (geo_of self.now) place chunk }
        ensures { (pair : Pair) → reading_at (geo_of self.now) (words_of self.now) place chunk ≡ entry pair → (IsTrue result ↔ (pair.key ≡ key.now)) }
    {
        key_equals(&mut self.reader(), self.geo(), place, chunk, key).unwrap()
    }

    /// Copies the key of the entry that stands at a chunk, and answers its length.
    pub(crate) fn read_key(&self, place: u32, chunk: u32, out: &mut [u8]) -> u32
        requires chunk { IsChunk (geo_of self.now) place chunk }
        requires room { 256 ≤ length out.old }
        ensures within_limit { result ≤ 256 }
        ensures copied { (pair : Pair) → reading_at (geo_of self.now) (words_of self.now) place chunk ≡ entry pair → take result out.new ≡ pair.key }
    {
        read_key_into(&mut self.reader(), self.geo(), place, chunk, out).unwrap()
    }

    /// Copies the value of the entry that stands at a chunk, and answers its length.
    pub(crate) fn read_value(&self, place: u32, chunk: u32, out: &mut [u8]) -> u32
        requires chunk { IsChunk (geo_of self.now) place chunk }
        requires room { 4096 ≤ length out.old }
        ensures within_limit { result ≤ 4096 }
        ensures copied { (pair : Pair) → reading_at (geo_of self.now) (words_of self.now) place chunk ≡ entry pair → take result out.new ≡ pair.value }
    {
        read_value_into(&mut self.reader(), self.geo(), place, chunk, out).unwrap()
    }
}
