//! Where the words of a segment stand, counted from its first word.

ghost use Rattle.std.specs.Prelude.{◌≡◌, ◌+◌, ◌*◌, ◌/◌, ◌<◌, ◌≤◌};

use crate::geo::{Geo, segment_words, tier_words};
use crate::limits::WORD_BITS;

impl Geo {
    ghost use Rattle.cm_geo.specs.Addresses.{bits_at, chunk_at, slot_at, tier_at, words_in_map, words_in_segment};

    /// The words of one segment.
    #[tactic(auto, unfolding(crate::specs::Addresses::words_in_segment))]
    pub fn segment_words(&self) -> u32
        ensures { result ≡ words_in_segment self.now }
    {
        segment_words(self.tiers, self.chunks, self.chunk_words)
    }

    /// The words of the whole map, segment after segment.
    #[tactic(auto, using(crate::proofs::Ranges::map_limit))]
    pub fn total_words(&self) -> u32
        ensures { result ≡ words_in_map self.now }
    {
        self.segments * self.segment_words()
    }

    /// The first of the four head words of the tier at this place.
    #[tactic(auto, using(crate::proofs::AddressOrder::tier_fits), unfolding(crate::specs::Addresses::words_in_tier, crate::specs::Addresses::tier_at))]
    pub fn tier_at(&self, place: u32) -> u32
        requires place { place < self.now.tiers }
        ensures value { result ≡ tier_at self.now place }
        ensures in_range { result + 4 ≤ words_in_segment self.now }
    {
        4 + place * tier_words(self.chunks, self.chunk_words)
    }

    /// A word of bits of the tier at this place. Bit b of word i is that of chunk 64 i + b.
    #[tactic(auto, using(crate::proofs::AddressOrder::tier_fits), unfolding(crate::specs::Addresses::words_in_tier, crate::specs::Addresses::bits_at))]
    pub fn bits_at(&self, place: u32, word: u32) -> u32
        requires place { place < self.now.tiers }
        requires word { word < self.now.chunks / WORD_BITS }
        ensures value { result ≡ bits_at self.now place word }
        ensures in_range { result < words_in_segment self.now }
    {
        self.tier_at(place) + 4 + word
    }

    /// The word of a slot of the tier at this place, which has two slots for each chunk.
    #[tactic(auto, using(crate::proofs::AddressOrder::tier_fits), unfolding(crate::specs::Addresses::words_in_tier, crate::specs::Addresses::slot_at))]
    pub fn slot_at(&self, place: u32, slot: u32) -> u32
        requires place { place < self.now.tiers }
        requires slot { slot < 2 * self.now.chunks }
        ensures value { result ≡ slot_at self.now place slot }
        ensures in_range { result < words_in_segment self.now }
    {
        self.tier_at(place) + 4 + self.chunks / WORD_BITS + slot
    }

    /// The first word of a chunk of the tier at this place.
    #[tactic(auto, using(crate::proofs::AddressOrder::chunk_fits), unfolding(crate::specs::Addresses::chunk_at))]
    pub fn chunk_at(&self, place: u32, chunk: u32) -> u32
        requires place { place < self.now.tiers }
        requires chunk { chunk < self.now.chunks }
        ensures value { result ≡ chunk_at self.now place chunk }
        ensures in_range { result + self.now.chunk_words ≤ words_in_segment self.now }
    {
        let offset = 4 + self.chunks / WORD_BITS + 2 * self.chunks + chunk * self.chunk_words;
        self.tier_at(place) + offset
    }
}
