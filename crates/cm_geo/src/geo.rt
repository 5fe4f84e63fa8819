//! The five numbers of a map, within their limits.

ghost use Rattle.std.specs.Prelude.{◌≡◌, ◌+◌, ◌*◌, ◌/◌, ◌%◌, ◌^◌, ◌<◌, ◌≤◌, ◌↔◌, IsTrue, MatchResult, Some, None};
ghost use Rattle.cm_geo.specs.declared.limits.TheConstants.{MAX_MAP_WORDS};
ghost use Rattle.cm_geo.specs.Limits.{is_segments, is_tiers, is_chunks, is_chunk_words};
ghost use Rattle.cm_geo.specs.Layout.{tier_words, segment_words};

use crate::limits::{MAX_KEY_BYTES, MAX_MAP_WORDS, MAX_RUN_CHUNKS, MAX_VALUE_BYTES, WORD_BITS};
use crate::refused::GeoRefused;

/// The geometry of a map.
///
/// It has 1 to 64 segments and 64 to 4096 chunks in a tier, both powers of two, 1 to 8 tiers in a
/// segment, 4, 8 or 16 words of 64 bits in a chunk, and at most 2^22 words in all. Besides the first
/// tier of each segment, the map may chain `extra` tiers over all its segments.
#[derive(Clone, Copy)]
pub struct Geo {
    pub segments: u32,
    pub tiers: u32,
    pub chunks: u32,
    pub chunk_words: u32,
    pub extra: u32,
    pub ghost segments_fit: { IsTrue (is_segments segments) },
    pub ghost tiers_fit: { IsTrue (is_tiers tiers) },
    pub ghost chunks_fit: { IsTrue (is_chunks chunks) },
    pub ghost chunk_words_fit: { IsTrue (is_chunk_words chunk_words) },
    pub ghost extra_fit: { extra + segments ≤ segments * tiers },
    pub ghost words_fit: { segments * segment_words tiers chunks chunk_words ≤ MAX_MAP_WORDS },
}

fn is_segments(segments: u32) -> bool
    ensures value { result ≡ is_segments segments }
    ensures limit { IsTrue (is_segments segments) → segments ≤ 64 }
{
    matches!(segments, 1 | 2 | 4 | 8 | 16 | 32 | 64)
}

fn is_tiers(tiers: u32) -> bool
    ensures { result ≡ is_tiers tiers }
{
    1 <= tiers && tiers <= 8
}

fn is_chunks(chunks: u32) -> bool
    ensures { result ≡ is_chunks chunks }
{
    matches!(chunks, 64 | 128 | 256 | 512 | 1024 | 2048 | 4096)
}

fn is_chunk_words(chunk_words: u32) -> bool
    ensures { result ≡ is_chunk_words chunk_words }
{
    matches!(chunk_words, 4 | 8 | 16)
}

// At the largest numbers a tier has 73,796 words and a segment 590,372, so 64 segments fit a `u32`.
pub(crate) fn tier_words(chunks: u32, chunk_words: u32) -> u32
    requires chunks { chunks ≤ 4096 }
    requires chunk_words { chunk_words ≤ 16 }
    ensures value { result ≡ tier_words chunks chunk_words }
    ensures limit { result ≤ 73796 }
{
    4 + chunks / WORD_BITS + 2 * chunks + chunks * chunk_words
}

pub(crate) fn segment_words(tiers: u32, chunks: u32, chunk_words: u32) -> u32
    requires tiers { tiers ≤ 8 }
    requires chunks { chunks ≤ 4096 }
    requires chunk_words { chunk_words ≤ 16 }
    ensures value { result ≡ segment_words tiers chunks chunk_words }
    ensures limit { result ≤ 590372 }
{
    4 + tiers * tier_words(chunks, chunk_words)
}

impl Geo {
    ghost use Rattle.cm_geo.specs.Geometry.{refusal, IsGeoOf};
    ghost use Rattle.cm_geo.specs.Hash.{fingerprint_in, home_in, segment_in};
    ghost use Rattle.cm_geo.specs.Need.{Fits, need as need_in};

    /// The geometry of these numbers, or the first of them that is outside its limit.
    pub fn new(
        segments: u32,
        tiers: u32,
        chunks: u32,
        chunk_words: u32,
        extra: u32,
    ) -> Result<Geo, GeoRefused>
        ensures { MatchResult result
            (λ geo. (refusal segments tiers chunks chunk_words extra ≡ None) × IsGeoOf geo segments tiers chunks chunk_words extra)
            (λ refused. refusal segments tiers chunks chunk_words extra ≡ Some refused) }
    {
        if !is_segments(segments) {
            return Err(GeoRefused::Segments);
        }
        if !is_tiers(tiers) {
            return Err(GeoRefused::Tiers);
        }
        if !is_chunks(chunks) {
            return Err(GeoRefused::Chunks);
        }
        if !is_chunk_words(chunk_words) {
            return Err(GeoRefused::ChunkWords);
        }
        if extra > segments * (tiers - 1) {
            return Err(GeoRefused::Allowance);
        }
        if segments * segment_words(tiers, chunks, chunk_words) > MAX_MAP_WORDS {
            return Err(GeoRefused::TooManyWords);
        }
        Ok(Geo {
            segments,
            tiers,
            chunks,
            chunk_words,
            extra,
        })
    }

    /// How many segments the keys are divided among.
    pub fn segments(&self) -> u32
        ensures { result ≡ self.now.segments }
    {
        self.segments
    }

    /// How many tiers a segment may chain.
    pub fn tiers(&self) -> u32
        ensures { result ≡ self.now.tiers }
    {
        self.tiers
    }

    /// How many chunks a tier has.
    pub fn chunks(&self) -> u32
        ensures { result ≡ self.now.chunks }
    {
        self.chunks
    }

    /// How many words a chunk has.
    pub fn chunk_words(&self) -> u32
        ensures { result ≡ self.now.chunk_words }
    {
        self.chunk_words
    }

    /// How many tiers may be chained beyond the first one of each segment, over the whole map.
    pub fn extra(&self) -> u32
        ensures { result ≡ self.now.extra }
    {
        self.extra
    }

    /// The segment of a key with this hash.
    #[tactic(auto, using(crate::proofs::Powers::mask_of_segments))]
    pub fn segment_of(&self, hash: u64) -> u32
        ensures value { result ≡ segment_in self.now hash }
        ensures in_range { result < self.now.segments }
    {
        // The segments are a power of two, so a mask and a shift take a hash apart without a division.
        (hash & u64::from(self.segments - 1)) as u32
    }

    /// The bits of this hash that a slot keeps: the 32 lowest of those that do not choose the segment.
    pub fn fingerprint_of(&self, hash: u64) -> u32
        ensures { result ≡ fingerprint_in self.now hash }
    {
        let rest = hash >> self.segments.trailing_zeros();
        (rest & u64::from(u32::MAX)) as u32
    }

    /// The slot of a tier at which the search for this fingerprint begins.
    #[tactic(auto, using(crate::proofs::Powers::mask_of_slots))]
    pub fn home_of(&self, fingerprint: u32) -> u32
        ensures value { result ≡ home_in self.now fingerprint }
        ensures in_range { result < 2 * self.now.chunks }
    {
        // A tier's slots are a power of two, so the mask takes the remainder without a division.
        fingerprint & (2 * self.chunks - 1)
    }

    /// The chunks of an entry with a key and a value of these lengths in bytes.
    #[tactic(auto, using(crate::proofs::Powers::shift_of_chunk_words))]
    pub fn need(&self, key_len: u32, value_len: u32) -> u32
        requires key_len { key_len ≤ MAX_KEY_BYTES }
        requires value_len { value_len ≤ MAX_VALUE_BYTES }
        ensures value { result ≡ need_in self.now key_len value_len }
    {
        let words = 2 + key_len.div_ceil(8) + value_len.div_ceil(8);
        // The words of a chunk are a power of two, so the shift divides by them.
        (words + self.chunk_words - 1) >> self.chunk_words.trailing_zeros()
    }

    /// Whether an entry with a key and a value of these lengths in bytes may be stored: the key has a
    /// byte at least, and none of the key, the value and the run is longer than the longest one.
    pub fn fits(&self, key_len: u32, value_len: u32) -> bool
        ensures { IsTrue result ↔ Fits self.now key_len value_len }
    {
        1 <= key_len
            && key_len <= MAX_KEY_BYTES
            && value_len <= MAX_VALUE_BYTES
            && self.need(key_len, value_len) <= MAX_RUN_CHUNKS
    }
}
