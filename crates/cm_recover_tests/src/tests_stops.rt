//! Recovery of a segment whose one change is stopped after each of its stores.

use crate::tests_kept::{
    TWO_ENTRIES, Trial, entries_with, fresh_put, longer_in_place, move_in_a_tier,
    move_to_a_new_tier, removal,
};
use crate::tests_recovery::{NONE, Piece, apply, recover_twice, rests, set_word, tier_word};
use cm_geo::Geo;
use cm_plain::{Drops, SegFound};
use cm_reading::At;
use cm_words::Words;
use std::alloc::Global;
use std::test::Fail;

fn piece_of(at: At, word: u64) -> Piece {
    match at {
        At::Entries => Piece::Word(2, word),
        At::Link(place) => Piece::Link(place, word),
        At::Held(place) => Piece::Word(tier_word(place, 1), word),
        At::Bits(place) => Piece::Word(tier_word(place, 4), word),
        At::Slot(place, number) => Piece::Slot(place, number, word),
        At::Chunk(place, chunk, number) => Piece::Chunk(place, chunk, number, word),
    }
}

/// How many stores a change makes: its own, and the odd and the even change number.
fn last_of(trial: &Trial<'_>) -> usize {
    trial.stores.len().saturating_add(2)
}

/// The words of a locked segment after so many stores of its fourth change, its two of the change number among them.
fn words_after(alloc: Global, trial: &Trial<'_>, made: usize) -> Result<Words, Fail> {
    let extra = trial.tiers.saturating_sub(1);
    let geo = Geo::new(1, trial.tiers, 64, 4, extra)?;
    let mut words = Words::empty(alloc, &geo)?;
    let stores = trial.stores.iter().take(made.saturating_sub(1));
    for (at, word) in TWO_ENTRIES.iter().chain(trial.first).chain(stores) {
        apply(&mut words, 0, piece_of(*at, *word));
    }
    let number = match made {
        0 => 6,
        _ if made < last_of(trial) => 7,
        _ => 8,
    };
    set_word(&mut words, 0, 1 << 31);
    set_word(&mut words, 1, number);
    Ok(words)
}

/// Whether a segment that was locked is found so, in a change or not; in one, a slot may be dropped for that change.
fn is_found_locked(found: &SegFound, in_flight: bool) -> bool {
    let others = Drops {
        checksum: 0,
        padding: 0,
        duplicate: 0,
        ..found.drops
    };
    let lawful = if in_flight { others } else { found.drops };
    found.lock == 1 << 31 && found.in_flight == in_flight && !found.cut && lawful == NONE
}

/// The words after so many stores of a change, recovered; none where a second recovery would drop more, or where
/// something else is found than the change.
fn recovered_after(alloc: Global, trial: &Trial<'_>, made: usize) -> Result<Option<Words>, Fail> {
    let mut words = words_after(alloc, trial, made)?;
    let in_flight = 0 < made && made < last_of(trial);
    let found = recover_twice(alloc, &mut words)?;
    let is_found = found.is_some_and(|found| {
        found
            .first()
            .is_some_and(|one| is_found_locked(one, in_flight))
    });
    Ok(if is_found { Some(words) } else { None })
}

/// Whether the words are those of a change's outcome, in the chain before it or in the one after it; before its first
/// store those before it, and after its last one those after it.
fn is_outcome(alloc: Global, words: &Words, trial: &Trial<'_>, made: usize) -> Result<bool, Fail> {
    let change = trial.change;
    let before = entries_with(alloc, change.others, change.old)?;
    let after = entries_with(alloc, change.others, change.new)?;
    let without = entries_with(alloc, change.others, None)?;
    let [old_chain, new_chain] = change.chains;
    if made == 0 {
        return rests(alloc, words, 0, old_chain, &before);
    }
    if last_of(trial) <= made {
        return rests(alloc, words, 0, new_chain, &after);
    }
    for chain in change.chains {
        if rests(alloc, words, 0, chain, &before)? || rests(alloc, words, 0, chain, &after)? {
            return Ok(true);
        }
        // Where a value is replaced in place, the key may be absent.
        if change.in_place && rests(alloc, words, 0, chain, &without)? {
            return Ok(true);
        }
    }
    Ok(false)
}

#[test]
fn stopped_changes_are_recovered(rt: HostRuntime) -> Result<(), Fail> {
    let cases = [
        ("fresh put", fresh_put()),
        ("longer in place", longer_in_place()),
        ("move in a tier", move_in_a_tier()),
        ("move to a new tier", move_to_a_new_tier()),
        ("removal", removal()),
    ];
    for (name, trial) in cases {
        for made in 0..last_of(&trial).saturating_add(1) {
            let Some(words) = recovered_after(rt.alloc(), &trial, made)? else {
                panic!(rt; "found wrongly, or a second recovery differs, at {name}, after {made}");
            };
            let is_outcome = is_outcome(rt.alloc(), &words, &trial, made)?;
            assert!(rt; is_outcome, "at {name}, after {made}");
        }
    }
    Ok(())
}
