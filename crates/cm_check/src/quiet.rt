//! A segment of words that nobody changes: each of its words is read without a fuse.

ghost use Rattle.std.specs.Prelude.{◌≡◌, ◌<◌, ◌^◌, All};
ghost use Rattle.cm_tiers.specs.Chains.{IsLinked, IsRead};
ghost use Rattle.cm_words.specs.Maps.{IsWhole, segment_in};

use cm_geo::Geo;
use cm_tiers::{Chain, chain};
use cm_words::{FixedMem, Words};

/// A segment of words that nobody changes, and its chain. Each read of it is answered, since the memory
/// over such words can't die.
#[derive(Drop)]
pub(crate) struct Quiet<'a> {
    words: &'a Words,
    segment: u32,
    chain: Chain,
    pub ghost here: { segment < words.now.geo.segments },
    pub ghost whole: { IsWhole words.now },
    pub ghost fit: { All (λ word. word < 2 ^ 64) words.now.words },
    pub ghost read: { IsRead words.now.geo chain },
    pub ghost linked: { IsLinked words.now.geo (segment_in words.now segment) chain },
}

impl<'a> Quiet<'a> {
    ghost use Rattle.cm_geo.specs.Addresses.{words_in_segment};
    ghost use Rattle.cm_plain.specs.Slots.{word_at};
    ghost use Rattle.cm_plain.specs.FoundChains.{chain_of};
    ghost use Rattle.cm_check.specs.Places.{chain_in, is_linked};
    ghost use Rattle.cm_check.specs.Quiets.{IsReader, geo_of, words_of};

    /// A segment of these words.
    pub(crate) fn new(words: &'a Words, segment: u32) -> Quiet<'a>
        requires { segment < words.now.geo.segments }
        ensures words { result.words.now ≡ words.now }
        ensures segment { result.segment ≡ segment }
    {
        words.are_whole();
        let chain = chain(&mut FixedMem::new(words, segment), words.geo()).unwrap();
        Quiet {
            words,
            segment,
            chain,
        }
    }

    /// A memory over it.
    pub(crate) fn reader(&self) -> FixedMem<'a>
        ensures { IsReader self.now result }
    {
        FixedMem::new(self.words, self.segment)
    }

    /// Its geometry.
    pub(crate) fn geo(&self) -> &'a Geo
        ensures { result.now ≡ geo_of self.now }
    {
        self.words.geo()
    }

    /// Its index.
    pub(crate) fn segment(&self) -> u32
        ensures value { result ≡ self.now.segment }
        ensures here { result < (geo_of self.now).segments }
    {
        self.segment
    }

    /// The places of its chain, in order.
    pub(crate) fn places(&self) -> &[u32]
        ensures { result.now ≡ chain_in (geo_of self.now) (words_of self.now) }
    {
        &self.chain.places[..self.chain.len as usize]
    }

    /// Whether its chain is cut.
    pub(crate) fn is_cut(&self) -> bool
        ensures { result ≡ (chain_of (geo_of self.now) (words_of self.now)).cut }
    {
        self.chain.cut
    }

    /// Whether a place is in its chain.
    pub(crate) fn is_linked(&self, place: u32) -> bool
        ensures { result ≡ is_linked (chain_in (geo_of self.now) (words_of self.now)) place }
    {
        self.places().contains(&place)
    }

    /// The word at an address.
    pub(crate) fn word(&self, at: u32) -> u64
        requires { at < words_in_segment (geo_of self.now) }
        ensures { result ≡ word_at (words_of self.now) at }
    {
        self.words.segment(self.segment)[at as usize]
    }
}
