//! Which words rest and which are torn, as a test asks it.

use cm_geo::{Geo, hash, hash_byte};
use std::alloc::{AllocError, Global};

/// A word of a segment, by what it is for.
#[derive(Clone, Copy, Debug)]
pub enum At {
    /// The number of the segment's entries.
    Entries,
    /// The place of the tier behind the one at this place.
    Link(u32),
    /// The number of the entries in the tier at this place.
    Held(u32),
    /// The word of bits at this place.
    Bits(u32),
    /// A slot, by its place and its number.
    Slot(u32, u32),
    /// A word of a chunk, by the place, the chunk and the word's number.
    Chunk(u32, u32, u32),
}

impl At {
    /// Its address, if this geometry has it.
    fn address(self, geo: &Geo) -> Option<u32> {
        match self {
            At::Entries => Some(2),
            At::Link(place) if place < geo.tiers() => Some(geo.tier_at(place)),
            At::Held(place) if place < geo.tiers() => geo.tier_at(place).checked_add(1),
            At::Bits(place) if place < geo.tiers() && 0 < geo.chunks() / 64 => {
                Some(geo.bits_at(place, 0))
            }
            At::Slot(place, number) if place < geo.tiers() && number / 2 < geo.chunks() => {
                Some(geo.slot_at(place, number))
            }
            At::Chunk(place, chunk, word) if place < geo.tiers() && chunk < geo.chunks() => {
                geo.chunk_at(place, chunk).checked_add(word)
            }
            _ => None,
        }
    }
}

/// An entry at a chunk.
#[derive(Clone, Copy)]
pub struct Entry<'a> {
    pub place: u32,
    pub chunk: u32,
    pub key: &'a [u8],
    pub value: &'a [u8],
}

impl Entry<'_> {
    /// The lengths of its key and of its value.
    fn lengths(&self) -> (u32, u32) {
        let key_len = u32::try_from(self.key.len()).unwrap_or(u32::MAX);
        let value_len = u32::try_from(self.value.len()).unwrap_or(u32::MAX);
        (key_len, value_len)
    }

    /// Whether it may be stored.
    fn fits(&self, geo: &Geo) -> bool {
        let (key_len, value_len) = self.lengths();
        geo.fits(key_len, value_len)
    }

    /// The bits of its chunks.
    fn bits(&self, geo: &Geo) -> u64 {
        let (key_len, value_len) = self.lengths();
        if !geo.fits(key_len, value_len) {
            return 0;
        }
        let end = self.chunk.saturating_add(geo.need(key_len, value_len));
        (self.chunk..end).fold(0, |bits, chunk| bits | 1u64.checked_shl(chunk).unwrap_or(0))
    }

    /// Its first word.
    fn head(&self) -> u64 {
        self.key.len() as u64 | (self.value.len() as u64) << 32
    }

    /// Its checksum.
    fn checksum(&self) -> u64 {
        let mut state = hash(&self.head().to_le_bytes());
        for bytes in [self.key, self.value] {
            for piece in bytes.chunks(8) {
                for byte in word_of(piece).to_le_bytes() {
                    state = hash_byte(state, byte);
                }
            }
        }
        state
    }

    /// The word of a slot that points to it.
    fn slot(&self, geo: &Geo) -> u64 {
        let fingerprint = u64::from(geo.fingerprint_of(hash(self.key)));
        fingerprint << 32 | (u64::from(self.chunk) + 1)
    }

    /// Whether a slot's word at a place points to it.
    fn has_slot(&self, geo: &Geo, place: u32, word: u64) -> bool {
        self.place == place && self.slot(geo) == word
    }
}

/// The word of at most eight bytes, the first one lowest.
fn word_of(bytes: &[u8]) -> u64 {
    bytes
        .iter()
        .rev()
        .fold(0, |word, byte| word << 8 | u64::from(*byte))
}

/// A change of one key, beside the entries of others.
#[derive(Clone, Copy)]
pub struct Change<'a, 'b> {
    pub others: &'b [Entry<'a>],
    pub old: Option<Entry<'a>>,
    pub new: Option<Entry<'a>>,
    pub in_place: bool,
    /// The chain before the change, and the one after it.
    pub chains: [&'a [u32]; 2],
}

impl Change<'_, '_> {
    /// Whether a slot's word at a place points to one of its entries.
    fn has_slot(&self, geo: &Geo, place: u32, word: u64) -> bool {
        self.others
            .iter()
            .chain(&self.old)
            .chain(&self.new)
            .any(|entry| entry.has_slot(geo, place, word))
    }
}

/// The words of a segment.
#[derive(Drop)]
pub struct Segment {
    geo: Geo,
    words: Vec<u64>,
}

impl Segment {
    /// Words that are 0 but for these.
    pub fn of(alloc: Global, geo: Geo, stores: &[(At, u64)]) -> Result<Segment, AllocError> {
        let words = vec![in alloc; 0; geo.segment_words() as usize]?;
        let mut segment = Segment { geo, words };
        for (at, word) in stores {
            segment.store(*at, *word);
        }
        Ok(segment)
    }

    /// These words.
    pub fn with_words(alloc: Global, geo: Geo, words: &[u64]) -> Result<Segment, AllocError> {
        Ok(Segment {
            geo,
            words: words.to_vec(alloc)?,
        })
    }

    /// Sets a word.
    pub fn store(&mut self, at: At, word: u64) {
        if let Some(address) = at.address(&self.geo)
            && let Some(old) = self.words.get_mut(address as usize)
        {
            *old = word;
        }
    }

    /// A word; 0 where this geometry doesn't have it.
    pub fn word(&self, at: At) -> u64 {
        let Some(address) = at.address(&self.geo) else {
            return 0;
        };
        self.words.get(address as usize).copied().unwrap_or(0)
    }

    /// Whether the links lead along this chain, and no further.
    fn has_chain(&self, chain: &[u32]) -> bool {
        let mut later = chain.iter().skip(1);
        for place in chain {
            let next = later.next().copied().unwrap_or(0);
            if self.word(At::Link(*place)) != u64::from(next) {
                return false;
            }
        }
        chain.first() == Some(&0)
    }

    /// Whether so many words from an address on are 0.
    fn is_zero(&self, from: u32, count: u32) -> bool {
        let mut words = self.words.iter().skip(from as usize).take(count as usize);
        words.all(|word| *word == 0)
    }

    /// Whether all words of each place outside a chain are 0.
    fn is_zero_outside(&self, chain: &[u32]) -> bool {
        let tiers = self.geo.segment_words().saturating_sub(4);
        let tier = tiers.checked_div(self.geo.tiers()).unwrap_or(0);
        (0..self.geo.tiers()).all(|place| chain.contains(&place)
            || self.is_zero(self.geo.tier_at(place), tier))
    }

    /// Whether these bytes are the words from a word of a chunk on, padded with zeros.
    fn has_bytes(&self, from: At, bytes: &[u8]) -> bool {
        let Some(address) = from.address(&self.geo) else {
            return false;
        };
        let mut words = self.words.iter().skip(address as usize);
        bytes
            .chunks(8)
            .all(|piece| words.next() == Some(&word_of(piece)))
    }

    fn has_key(&self, entry: &Entry) -> bool {
        self.has_bytes(At::Chunk(entry.place, entry.chunk, 2), entry.key)
    }

    /// Whether an entry is read where it is placed.
    fn reads(&self, entry: &Entry) -> bool {
        let behind = u32::try_from(entry.key.len().div_ceil(8)).unwrap_or(0);
        let from = behind.saturating_add(2);
        entry.fits(&self.geo)
            && self.word(At::Chunk(entry.place, entry.chunk, 0)) == entry.head()
            && self.word(At::Chunk(entry.place, entry.chunk, 1)) == entry.checksum()
            && self.has_key(entry)
            && self.has_bytes(At::Chunk(entry.place, entry.chunk, from), entry.value)
    }

    /// How many slots point to an entry.
    fn slots_of(&self, entry: &Entry) -> usize {
        let slot = entry.slot(&self.geo);
        (0..self.geo.chunks().saturating_mul(2))
            .filter(|number| self.word(At::Slot(entry.place, *number)) == slot)
            .count()
    }

    /// Whether a slot points to an entry.
    fn points(&self, entry: &Entry) -> bool {
        0 < self.slots_of(entry)
    }

    /// Whether a slot of the chain points to an entry.
    fn points_in(&self, chain: &[u32], entry: &Entry) -> bool {
        chain.contains(&entry.place) && self.points(entry)
    }

    /// Whether a slot is empty, or none from its home on to it is.
    fn is_reached(&self, place: u32, number: u32) -> bool {
        let word = self.word(At::Slot(place, number));
        let slots = self.geo.chunks().saturating_mul(2);
        let home = self.geo.home_of((word >> 32) as u32);
        let steps = number.wrapping_sub(home).checked_rem(slots).unwrap_or(0);
        word == 0
            || (0..steps).all(|step| {
                let behind = home.wrapping_add(step).checked_rem(slots).unwrap_or(0);
                self.word(At::Slot(place, behind)) != 0
            })
    }

    /// Whether the head, the bits and the slots of a tier are those of these entries.
    fn tier_rests(&self, place: u32, entries: &[Entry]) -> bool {
        let slots = self.geo.chunks().saturating_mul(2);
        let taken = (0..slots)
            .filter(|number| self.word(At::Slot(place, *number)) != 0)
            .count();
        let held = entries.iter().filter(|entry| entry.place == place).count();
        let bits = entries
            .iter()
            .filter(|entry| entry.place == place)
            .fold(0, |bits, entry| bits | entry.bits(&self.geo));
        held == taken
            && place < self.geo.tiers()
            && self.is_zero(self.geo.tier_at(place).saturating_add(2), 2)
            && self.word(At::Held(place)) == held as u64
            && self.word(At::Bits(place)) == bits
            && (0..slots).all(|number| self.is_reached(place, number))
    }

    /// Whether the words represent a chain and these entries.
    pub fn rests(&self, chain: &[u32], entries: &[Entry]) -> bool {
        self.has_chain(chain)
            && self.is_zero_outside(chain)
            && self.is_zero(3, 1)
            && self.word(At::Entries) == entries.len() as u64
            && entries
                .iter()
                .all(|entry| self.reads(entry) && self.slots_of(entry) == 1)
            && chain.iter().all(|place| self.tier_rests(*place, entries))
    }

    /// Whether each slot of the chain that isn't empty is that of an entry of the change.
    fn has_slots_of(&self, change: &Change, chain: &[u32]) -> bool {
        for place in chain {
            for number in 0..self.geo.chunks().saturating_mul(2) {
                let word = self.word(At::Slot(*place, number));
                if word != 0 && !change.has_slot(&self.geo, *place, word) {
                    return false;
                }
            }
        }
        true
    }

    /// Whether the old and the new entry of the change are whole where a slot points to them, and one
    /// of them has a slot, where the key was there and stays.
    fn keeps_its(&self, change: &Change, chain: &[u32]) -> bool {
        let old = change
            .old
            .is_some_and(|entry| self.points_in(chain, &entry));
        let new = change
            .new
            .is_some_and(|entry| self.points_in(chain, &entry));
        let stays = change.old.is_some() && change.new.is_some();
        let old_stands = change.old.is_some_and(|entry| self.reads(&entry));
        let new_stands = change.new.is_some_and(|entry| self.reads(&entry));
        (change.in_place || (!old || old_stands) && (!new || new_stands)) && (!stays || old || new)
    }

    /// Whether the first word, the key's words and the checksum are such as while a value is replaced
    /// in place.
    fn is_between(&self, change: &Change) -> bool {
        let (Some(old), Some(new)) = (change.old, change.new) else {
            return false;
        };
        let head = self.word(At::Chunk(old.place, old.chunk, 0));
        let sum = self.word(At::Chunk(old.place, old.chunk, 1));
        (head == old.head() || head == new.head())
            && self.has_key(&old)
            && (sum == old.checksum() || self.reads(&new))
    }

    /// Whether the words are torn for a change, and the chain keeps the allowance.
    pub fn is_torn(&self, change: &Change) -> bool {
        let [before, after] = change.chains;
        let chain = if self.has_chain(before) {
            before
        } else {
            after
        };
        self.has_chain(chain)
            && chain.len() as u64 <= u64::from(self.geo.extra()) + 1
            && self.is_zero_outside(chain)
            && change
                .others
                .iter()
                .all(|entry| self.reads(entry) && self.points(entry))
            && self.has_slots_of(change, chain)
            && self.keeps_its(change, chain)
            && (!change.in_place || self.is_between(change))
    }

    /// After how many of these stores the words are not torn for a change, for the first time.
    pub fn first_refused(&mut self, change: &Change, stores: &[(At, u64)]) -> Option<usize> {
        for (number, (at, word)) in stores.iter().enumerate() {
            if !self.is_torn(change) {
                return Some(number);
            }
            self.store(*at, *word);
        }
        if self.is_torn(change) {
            None
        } else {
            Some(stores.len())
        }
    }
}
