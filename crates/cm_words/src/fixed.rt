//! A memory over one segment of words that are read alone.

ghost use Rattle.std.specs.Prelude.{◌≡◌, ◌+◌, ◌<◌, ◌^◌, All};
ghost use Rattle.cm_words.specs.Maps.{IsWhole, words_before};

use crate::fuse::{Dead, EventKind, Never};
use crate::mem::Mem;
use crate::meter::Meter;
use crate::words::Words;
use cm_plain::Plan;

/// A memory over one segment of words that nobody changes. It is `Readable`, notes every address, has no
/// plan and can't die.
#[derive(Drop)]
pub struct FixedMem<'a> {
    words: &'a Words,
    segment: u32,
    // the segment's first word in the map
    start: u32,
    meter: Meter<Never>,
    pub ghost here: { segment < words.now.geo.segments },
    pub ghost starts: { start ≡ words_before words.now.geo segment },
    pub ghost whole: { IsWhole words.now },
    pub ghost fit: { All (λ word. word < 2 ^ 64) words.now.words },
}

impl<'a> FixedMem<'a> {
    ghost use Rattle.cm_words.specs.Fixed.{fixed_seen, new_fixed};
    ghost use Rattle.cm_geo.specs.Addresses.{words_in_map, words_in_segment};

    /// A memory over a segment of these words.
    pub fn new(words: &'a Words, segment: u32) -> FixedMem<'a>
        requires { segment < words.now.geo.segments }
        ensures words { result.words.now ≡ words.now }
        ensures seen { fixed_seen result ≡ new_fixed words.now segment }
    {
        words.are_whole();
        FixedMem {
            words,
            segment,
            start: words.start_of(segment),
            meter: Meter::new(Never),
        }
    }

    /// The address in the map of an address of the segment.
    fn address(&self, at: u32) -> u32
        requires { at < words_in_segment self.now.words.now.geo }
        ensures value { result ≡ self.now.start + at }
        ensures in_range { result < words_in_map self.now.words.now.geo }
    {
        self.start + at
    }
}

impl<'a> Mem for FixedMem<'a> {
    ghost use Rattle.cm_words.specs.Fixed.{SameWords, fixed_seen, same_words_transitive, same_words_reflexive};
    ghost use Rattle.cm_words.specs.Notes.{not_shared};
    ghost use Rattle.std.proofs.Common.{refl};

    ghost seen = { fixed_seen };

    ghost same_rest = { SameWords };

    ghost rest_with = { λ a b change number. SameWords a b };

    ghost lock_unnoted = { λ m. not_shared (fixed_seen m) refl };

    ghost rest_reflexive = { same_words_reflexive };

    ghost rest_transitive = { same_words_transitive };

    ghost rest_then_change = { λ a b c change number. same_words_transitive a b c };

    ghost change_then_rest = { λ a b c change number. same_words_transitive a b c };

    fn load(&mut self, at: u32) -> Result<u64, Dead> {
        self.meter.ask(EventKind::Load)?;
        let address = self.address(at);
        Ok(self.words.get(address))
    }

    fn number(&mut self) -> Result<u64, Dead> {
        self.meter.ask(EventKind::Load)?;
        let address = self.address(1);
        Ok(self.words.get(address) / 2)
    }

    // Nobody stores here, since the memory is never `Writable`: these three do nothing.
    fn store(&mut self, _at: u32, _word: u64) -> Result<(), Dead>
        ensures { self.new ≡ self.old }
    {
        Err(Dead)
    }

    fn begin(&mut self, _plan: &Plan<'_>) -> Result<(), Dead>
        ensures { self.new ≡ self.old }
    {
        Err(Dead)
    }

    fn finish(&mut self) -> Result<u64, Dead>
        ensures { self.new ≡ self.old }
    {
        Err(Dead)
    }
}
