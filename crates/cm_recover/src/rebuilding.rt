//! Rebuilding the slots, bits and counts of a segment, of which the entries stay where they stand.

ghost use Rattle.std.specs.Prelude.{◌≡◌, ◌≢◌, ◌+◌, ◌*◌, ◌<◌, ◌≤◌, ◌^◌, List, ℕ, length, take};
ghost use Rattle.cm_geo.specs.Addresses.{words_in_segment};
ghost use Rattle.cm_words.specs.Calls.{HasDone};
ghost use Rattle.cm_words.specs.Effects.{Changes};
ghost use Rattle.cm_chunks.specs.RunBits.{IsRunIn};
ghost use Rattle.cm_recover.specs.Rebuilding.{CountsWithin, IsAdded, IsOpen, PlacesWithin, Settles, SettlesAll, SettlesTier, raised};

use crate::answers::alive;
use crate::judging::{Judged, judge};
use crate::tally::Tally;
use cm_chunks::set;
use cm_geo::Geo;
use cm_lookup::{free_slot, put_slot};
use cm_plain::Run;
use cm_words::Mem;

// Adds one to a count.
fn raise<M: Mem>(mem: &mut M, geo: &Geo, segment: u32, at: u32)
    requires open { IsOpen (M.seen mem.old) geo.now segment }
    requires inner { 1 < at }
    requires in_range { at < words_in_segment geo.now }
    ensures raises { HasDone M.seen M.same_rest (λ old now. Changes old now (λ before words. words ≡ raised at before)) mem.old mem.new }
{
    let word = alive(mem.load(at));
    alive(mem.store(at, word.wrapping_add(1)));
}

// The bits of a run that is free, a slot that points to it, and one entry more in both counts.
fn keep<M: Mem>(mem: &mut M, geo: &Geo, segment: u32, run: Run, fingerprint: u32)
    requires open { IsOpen (M.seen mem.old) geo.now segment }
    requires run { IsRunIn geo.now run }
    ensures adds { HasDone M.seen M.same_rest (λ old now. Changes old now (IsAdded geo.now run fingerprint)) mem.old mem.new }
{
    alive(set(mem, geo, run));
    let slot = alive(free_slot(mem, geo, run.place, fingerprint));
    alive(put_slot(mem, geo, run.place, slot, fingerprint, run.chunk));
    raise(mem, geo, segment, geo.tier_at(run.place) + 1);
    raise(mem, geo, segment, 2);
}

// Keeps the entry of a slot with this word, or drops the slot.
fn settle<M: Mem>(
    mem: &mut M,
    geo: &Geo,
    segment: u32,
    places: &[u32],
    place: u32,
    word: u64,
    tally: Tally,
) -> Tally
    requires open { IsOpen (M.seen mem.old) geo.now segment }
    requires places { PlacesWithin geo.now places.now }
    requires tally { CountsWithin (2 ^ 30) tally }
    ensures settles { HasDone M.seen M.same_rest
        (λ old now. Changes old now (Settles geo.now segment places.now place word tally result)) mem.old mem.new }
    ensures tally { (most : ℕ) → CountsWithin most tally → CountsWithin (most + 1) result }
{
    match judge(mem, geo, segment, places, place, word) {
        Judged::Dropped(why) => tally.with_drop(why),
        Judged::Kept(run) => {
            keep(mem, geo, segment, run, (word >> 32) as u32);
            tally.with_entry()
        }
    }
}

// The slots of the tier at a place, as they are in these words.
fn settle_tier<M: Mem>(
    mem: &mut M,
    geo: &Geo,
    segment: u32,
    places: &[u32],
    place: u32,
    words: &[u64],
    tally: Tally,
) -> Tally
    requires open { IsOpen (M.seen mem.old) geo.now segment }
    requires places { PlacesWithin geo.now places.now }
    requires place { place < geo.now.tiers }
    requires words { length words.now ≡ words_in_segment geo.now }
    requires tally { CountsWithin 65536 tally }
    ensures settles { HasDone M.seen M.same_rest
        (λ old now. Changes old now (SettlesTier geo.now segment places.now place words.now tally result)) mem.old mem.new }
    ensures tally { (most : ℕ) → CountsWithin most tally → CountsWithin (most + 2 * geo.now.chunks) result }
{
    let mut settled = tally;
    for number in 0..2 * geo.chunks() {
        let word = words[geo.slot_at(place, number) as usize];
        if word != 0 {
            settled = settle(mem, geo, segment, places, place, word, settled);
        }
    }
    settled
}

/// The slots of all tiers of a chain, of which the allowance covers the first `covered`.
pub(crate) fn settle_all<M: Mem>(
    mem: &mut M,
    geo: &Geo,
    segment: u32,
    chain: &[u32],
    covered: usize,
    words: &[u64],
) -> Tally
    requires open { IsOpen (M.seen mem.old) geo.now segment }
    requires within_limit { length chain.now ≤ 8 }
    requires inside { PlacesWithin geo.now chain.now }
    requires covered { covered ≤ length chain.now }
    requires words { length words.now ≡ words_in_segment geo.now }
    ensures { HasDone M.seen M.same_rest
        (λ old now. Changes old now (SettlesAll geo.now segment (take covered chain.now) chain.now words.now result)) mem.old mem.new }
{
    let mut tally = Tally::new();
    let places = &chain[..covered];
    for place in chain {
        tally = settle_tier(mem, geo, segment, places, *place, words, tally);
    }
    tally
}
