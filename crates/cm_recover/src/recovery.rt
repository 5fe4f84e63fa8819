//! Recovery of any words.

ghost use Rattle.std.specs.Prelude.{◌≡◌, ◌≢◌, ◌-◌, ◌<◌, ◌≤◌, AllPairs, IfOk, List, OnErr, OnOk, ℕ, length, take};
ghost use Rattle.cm_geo.specs.Addresses.{words_in_segment};
ghost use Rattle.cm_plain.specs.FoundChains.{chain_of};
ghost use Rattle.cm_words.specs.Maps.{segment_in};
ghost use Rattle.cm_tiers.specs.Chains.{IsLinked, IsRead};
ghost use Rattle.cm_recover.specs.AllowedPlaces.{extra_before};
ghost use Rattle.cm_recover.specs.Recovered.{Recovered};
ghost use Rattle.cm_recover.specs.Clearing.{IsCleared};
ghost use Rattle.cm_recover.specs.Rebuilding.{PlacesWithin, SettlesAll};
ghost use Rattle.cm_recover.specs.Tallies.{AreFoundIn, IsRecovered, IsToldOf};

use crate::answers::alive;
use crate::clearing::clear;
use crate::rebuilding::settle_all;
use crate::tally::Tally;
use cm_plain::{NoMemory, SegFound};
use cm_tiers::{Chain, chain};
use cm_words::{FixedMem, Never, PlainMem, Words};
use std::alloc::Global;

// The chain of a segment.
fn chain_in(words: &Words, segment: u32) -> Chain
    requires { segment < words.now.geo.segments }
    ensures read { IsRead words.now.geo result }
    ensures linked { IsLinked words.now.geo (segment_in words.now segment) result }
{
    let geo = *words.geo();
    let mut mem = FixedMem::new(words, segment);
    alive(chain(&mut mem, &geo))
}

// Clears all of a segment but the entries and the links of the tiers at these places.
fn clear_segment(words: &mut Words, segment: u32, places: &[u32])
    requires segment { segment < words.old.geo.segments }
    requires nonempty { 0 < length places.now }
    requires inside { PlacesWithin words.old.geo places.now }
    requires apart { AllPairs (λ place other. place ≢ other) places.now }
    ensures geo { words.new.geo ≡ words.old.geo }
    ensures others { (other : ℕ) → other < words.old.geo.segments → other ≢ segment
        → segment_in words.new other ≡ segment_in words.old other }
    ensures words { IsCleared words.old.geo places.now (segment_in words.old segment) (segment_in words.new segment) }
{
    let geo = *words.geo();
    words.are_whole();
    clear(words.segment_mut(segment), &geo, places);
}

// Keeps or drops each slot of a segment that was cleared, as they are in the old words.
fn settle_segment(
    words: &mut Words,
    segment: u32,
    chain: &[u32],
    covered: usize,
    old: &[u64],
) -> Tally
    requires segment { segment < words.old.geo.segments }
    requires within_limit { length chain.now ≤ 8 }
    requires inside { PlacesWithin words.old.geo chain.now }
    requires covered { covered ≤ length chain.now }
    requires old { length old.now ≡ words_in_segment words.old.geo }
    ensures geo { words.new.geo ≡ words.old.geo }
    ensures others { (other : ℕ) → other < words.old.geo.segments → other ≢ segment
        → segment_in words.new other ≡ segment_in words.old other }
    ensures settles { SettlesAll words.old.geo segment (take covered chain.now) chain.now old.now result
        (segment_in words.old segment) (segment_in words.new segment) }
{
    let geo = *words.geo();
    words.are_whole();
    let mut mem = PlainMem::free(words, segment, Never);
    settle_all(&mut mem, &geo, segment, chain, covered, old)
}

// What is told of a segment with this chain and these old words.
fn found_in(segment: u32, chain: &Chain, tally: Tally, old: &[u64]) -> SegFound
    requires { 4 ≤ length old.now }
    ensures { IsToldOf segment chain.now tally old.now result }
{
    SegFound {
        segment,
        kept: tally.kept,
        drops: tally.drops,
        lock: old[0],
        in_flight: old[1] % 2 == 1,
        cut: chain.cut,
    }
}

// Recovers a segment of whose chain the allowance covers the first tier and at most so many others, and
// answers how many more it covers; `old` is room for the segment's words.
fn recover_segment(words: &mut Words, segment: u32, extra: u32, old: &mut [u64]) -> (SegFound, u32)
    requires segment { segment < words.old.geo.segments }
    requires room { length old.old ≡ words_in_segment words.old.geo }
    ensures room { length old.new ≡ length old.old }
    ensures geo { words.new.geo ≡ words.old.geo }
    ensures others { (other : ℕ) → other < words.old.geo.segments → other ≢ segment
        → segment_in words.new other ≡ segment_in words.old other }
    ensures extra { result.1 ≡ extra - (length (chain_of words.old.geo (segment_in words.old segment)).places - 1) }
    ensures state { (words_of : ℕ → List ℕ) → words_of segment ≡ segment_in words.old segment
        → extra ≡ words.old.geo.extra - extra_before words.old.geo words_of segment
        → IsRecovered words.old.geo words_of segment (segment_in words.new segment) result.0 }
{
    words.are_whole();
    old.copy_from_slice(words.segment(segment));
    let chain = chain_in(words, segment);
    let tiers = &chain.places[..chain.len as usize];
    let covered = 1 + extra.min(chain.len - 1) as usize;
    clear_segment(words, segment, &tiers[..covered]);
    let tally = settle_segment(words, segment, tiers, covered, old);
    let found = found_in(segment, &chain, tally, old);
    (found, extra.saturating_sub(chain.len - 1))
}

/// Makes words lawful again, whatever stands in them, and tells what was found in each segment, in their
/// order.
///
/// Each segment keeps the entries of its slots, each where it stands, but for the slots that are dropped;
/// why one is dropped, `Cause` says. Its chain ends before the first tier that is outside the allowance, and
/// its lock word and its change number are 0.
///
/// Takes memory before it changes a word: a second copy of one segment's words, and what is told of each
/// segment. NoMemory where none is left, and then no word has changed. There is no other error.
pub fn recover(alloc: Global, words: &mut Words) -> Result<Vec<SegFound>, NoMemory>
    ensures geo { words.new.geo ≡ words.old.geo }
    ensures words { OnOk result (Recovered words.old.geo (segment_in words.old) (segment_in words.new)) }
    ensures report { IfOk result (λ found. AreFoundIn words.old.geo (segment_in words.old) found.items) }
    ensures no_memory { OnErr result (words.new ≡ words.old) }
{
    let geo = *words.geo();
    let mut found = Vec::with_capacity(alloc, geo.segments() as usize)?;
    let mut old = vec![in alloc; 0; geo.segment_words() as usize]?;
    let mut extra = geo.extra();
    for segment in 0..geo.segments() {
        let (one, left) = recover_segment(words, segment, extra, &mut old);
        found.push_reserved(one);
        extra = left;
    }
    words.are_whole();
    Ok(found)
}
