//! A memory over one segment of words that nobody else uses.

ghost use Rattle.std.specs.Prelude.{◌≡◌, ◌<◌, ◌^◌, ◌+◌, All, true, false, slice_index};
ghost use Rattle.cm_geo.specs.Addresses.{words_in_map, words_in_segment};
ghost use Rattle.cm_words.specs.Maps.{IsWhole, number_word, words_before};
ghost use Rattle.cm_words.specs.Parity.{IsEven, IsOdd};

use crate::fuse::{Dead, EventKind, Fuse};
use crate::mem::Mem;
use crate::meter::Meter;
use crate::plan_copy::PlanCopy;
use crate::words::Words;
use cm_plain::Plan;
use std::snapshot::Snapshot;

/// A memory over one segment of words, for one thread. It is `Writable`, notes every address, and makes
/// one event a call.
pub struct PlainMem<'a, F: Fuse> {
    words: &'a mut Words,
    segment: u32,
    // the segment's first word in the map
    start: u32,
    is_guarded: bool,
    meter: Meter<F>,
    is_under_way: bool,
    // the plan that is under way, or the one that was last
    plan: PlanCopy,
    // the words as the plan under way began, for contracts alone
    first: Snapshot<Words>,
    pub ghost here: { segment < words.now.geo.segments },
    pub ghost starts: { start ≡ words_before words.now.geo segment },
    pub ghost whole: { IsWhole words.now },
    pub ghost fit: { All (λ word. word < 2 ^ 64) words.now.words },
    pub ghost odd: { is_under_way ≡ true → IsOdd (slice_index words.now.words (start + 1)) },
    pub ghost even: { is_guarded ≡ true → is_under_way ≡ false → IsEven (slice_index words.now.words (start + 1)) },
}

impl<'a, F: Fuse> PlainMem<'a, F> {
    ghost use Rattle.cm_words.specs.Plain.{IsOver, new_plain, plain_seen};

    /// A memory that stores under a plan alone, where each store leaves the words torn for that plan.
    pub fn guarded(words: &'a mut Words, segment: u32, fuse: F) -> PlainMem<'a, F>
        requires here { segment < words.old.geo.segments }
        requires even { IsEven (number_word words.old segment) }
        ensures over { IsOver words.entry.ghost_name words.old segment result }
        ensures seen { plain_seen F.fused result ≡ new_plain true words.old segment (F.fused fuse) }
    {
        words.are_whole();
        PlainMem {
            start: words.start_of(segment),
            first: Snapshot::of(words),
            words,
            segment,
            is_guarded: true,
            meter: Meter::new(fuse),
            is_under_way: false,
            plan: PlanCopy::new(),
        }
    }

    /// A memory that stores anything.
    pub fn free(words: &'a mut Words, segment: u32, fuse: F) -> PlainMem<'a, F>
        requires { segment < words.old.geo.segments }
        ensures over { IsOver words.entry.ghost_name words.old segment result }
        ensures seen { plain_seen F.fused result ≡ new_plain false words.old segment (F.fused fuse) }
    {
        words.are_whole();
        PlainMem {
            start: words.start_of(segment),
            first: Snapshot::of(words),
            words,
            segment,
            is_guarded: false,
            meter: Meter::new(fuse),
            is_under_way: false,
            plan: PlanCopy::new(),
        }
    }

    /// The address in the map of an address of the segment.
    fn address(&self, at: u32) -> u32
        requires { at < words_in_segment self.now.words.now.geo }
        ensures value { result ≡ self.now.start + at }
        ensures in_range { result < words_in_map self.now.words.now.geo }
    {
        self.start + at
    }
}

// The words that stood there when the memory is let go are the lender's.
impl<'a, F: Fuse> Drop for PlainMem<'a, F> {
    fn drop(self)
        ensures { self.exit.0.now ≡ self.entry.words.now }
    {
        let PlainMem {
            words: _,
            segment: _,
            start: _,
            is_guarded: _,
            meter: _,
            is_under_way: _,
            plan: _,
            first: _,
        } = self;
    }
}

impl<'a, F: Fuse> Mem for PlainMem<'a, F> {
    ghost use Rattle.cm_words.specs.Plain.{SameRest, plain_seen, same_rest_transitive, same_rest_reflexive};
    ghost use Rattle.cm_words.specs.Notes.{not_shared};
    ghost use Rattle.std.proofs.Common.{refl};

    ghost seen = { λ m. plain_seen F.fused m };

    ghost same_rest = { λ a b. SameRest a b };

    ghost rest_with = { λ a b change number. SameRest a b };

    ghost lock_unnoted = { λ m. not_shared (plain_seen F.fused m) refl };

    ghost rest_reflexive = { λ m. same_rest_reflexive m };

    ghost rest_transitive = { λ a b c. same_rest_transitive a b c };

    ghost rest_then_change = { λ a b c change number. same_rest_transitive a b c };

    ghost change_then_rest = { λ a b c change number. same_rest_transitive a b c };

    fn load(&mut self, at: u32) -> Result<u64, Dead> {
        self.meter.ask(EventKind::Load)?;
        let address = self.address(at);
        Ok(self.words.get(address))
    }

    fn store(&mut self, at: u32, word: u64) -> Result<(), Dead> {
        self.meter.ask(EventKind::Store)?;
        let address = self.address(at);
        self.words.set(address, word);
        Ok(())
    }

    fn number(&mut self) -> Result<u64, Dead> {
        self.meter.ask(EventKind::Load)?;
        let address = self.address(1);
        Ok(self.words.get(address) / 2)
    }

    fn begin(&mut self, plan: &Plan<'_>) -> Result<(), Dead> {
        self.meter.ask(EventKind::Store)?;
        let address = self.address(1);
        let even = self.words.get(address);
        self.words.set(address, even + 1);
        self.first = Snapshot::of(self.words);
        self.plan.set(plan);
        self.is_under_way = true;
        Ok(())
    }

    fn finish(&mut self) -> Result<u64, Dead> {
        self.meter.ask(EventKind::Store)?;
        let address = self.address(1);
        let odd = self.words.get(address);
        self.words.set(address, odd + 1);
        self.is_under_way = false;
        Ok((odd + 1) / 2)
    }
}
