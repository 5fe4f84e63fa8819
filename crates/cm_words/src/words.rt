//! The words of a whole map.

ghost use Rattle.std.specs.Prelude.{◌≡◌, ◌<◌, ◌≤◌, ◌+◌, ◌*◌, ◌^◌, ◌++◌, All, IfOk, List, ℕ, length, slice_index, slice_set, vec_len, replicate};
ghost use Rattle.std.specs.Borrow.{sem};
ghost use Rattle.cm_geo.specs.Addresses.{words_in_map, words_in_segment};

use cm_geo::Geo;
use cm_plain::NoMemory;
use std::alloc::Global;
use std::marker::Model;

/// A geometry, and the words of its map, segment after segment.
#[derive(Drop)]
pub struct Words {
    geo: Geo,
    words: Vec<u64>,
}

impl Model for Words {
    ghost use Rattle.std.specs.Prelude.{◌≡◌, length};
    ghost use Rattle.cm_geo.specs.Addresses.{words_in_map};
    ghost use Rattle.cm_words.specs.Maps.{MapWords};

    ghost Value = { MapWords };

    ghost view = { λ w. record { geo = w.geo; words = w.words.items } };

    ghost invariant = { λ w. length w.words.items ≡ words_in_map w.geo };
}

impl Words {
    ghost use Rattle.cm_words.specs.Maps.{IsWhole, MapWords, segment_in, words_before};
    ghost use Rattle.cm_words.specs.Lending.{LendsSegment};

    /// Words that are all zero. Takes memory: NoMemory where none is left, and no other error.
    pub fn empty(alloc: Global, geo: &Geo) -> Result<Words, NoMemory>
        ensures { IfOk result (λ w. w ≡ record { geo = geo.now; words = replicate (words_in_map geo.now) 0 }) }
    {
        Ok(Words {
            geo: *geo,
            words: vec![in alloc; 0; geo.total_words() as usize]?,
        })
    }

    /// These words, as many as the geometry's map has.
    pub fn of(geo: &Geo, words: Vec<u64>) -> Words
        requires { vec_len words ≡ words_in_map geo.now }
        ensures { result ≡ record { geo = geo.now; words = words.items } }
    {
        Words { geo: *geo, words }
    }

    /// There are as many words as the map has, of 64 bits each: facts for contracts, which cost nothing.
    pub fn are_whole(&self)
        ensures fit { All (λ word. word < 2 ^ 64) self.now.words }
        ensures whole { IsWhole self.now }
    {
        each_fits(self.words.as_slice());
    }

    /// The geometry.
    pub fn geo(&self) -> &Geo
        ensures { result.now ≡ self.now.geo }
    {
        &self.geo
    }

    /// The word at an address of the map.
    pub fn get(&self, at: u32) -> u64
        requires { at < words_in_map self.now.geo }
        ensures { result ≡ slice_index self.now.words at }
    {
        self.words[at as usize]
    }

    /// Sets the word at an address of the map.
    pub fn set(&mut self, at: u32, word: u64)
        requires { at < words_in_map self.old.geo }
        ensures { self.new ≡ record { geo = self.old.geo; words = slice_set self.old.words at word } }
    {
        self.words[at as usize] = word;
    }

    /// The address in the map of a segment's first word.
    #[tactic(auto, using(crate::proofs::MapPlaces::segment_inside))]
    pub(crate) fn start_of(&self, segment: u32) -> u32
        requires { segment < self.now.geo.segments }
        ensures value { result ≡ words_before self.now.geo segment }
        ensures in_range { result + words_in_segment self.now.geo ≤ words_in_map self.now.geo }
    {
        segment * self.geo.segment_words()
    }

    /// A segment's words.
    pub fn segment(&self, segment: u32) -> &[u64]
        requires { segment < self.now.geo.segments }
        ensures { result.now ≡ segment_in self.now segment }
    {
        let len = self.geo.segment_words() as usize;
        let start = self.start_of(segment) as usize;
        &self.words[start..start + len]
    }

    /// A segment's words, to be changed.
    pub fn segment_mut(&mut self, segment: u32) -> &mut [u64]
        requires { segment < self.old.geo.segments }
        ensures* lends { sem 𝓛 (LendsSegment self.entry segment result) }
        ensures value { result.now ≡ segment_in self.old segment }
    {
        let len = self.geo.segment_words() as usize;
        let start = self.start_of(segment) as usize;
        self.words.slice_mut(start..start + len)
    }
}

fn each_fits(_words: &[u64])
    ensures { All (λ word. word < 2 ^ 64) _words.now }
{}
