//! Changes of each kind, stopped at each of their stores and events: the words are then the old ones, torn
//! for the change, or the new ones, and every other key is found.

use crate::tests_caller::{
    Answer, copy_of, finds, geo_of, line_of, perform, segment_of, word_at, words_after,
};
use cm_geo::Geo;
use cm_reading::{Change, Entry, Segment};
use cm_segment::look;
use cm_tiers::chain;
use cm_words::{Dead, FixedMem, KillFuse, Words};
use std::alloc::Global;
use std::process::Abort;
use std::test::Fail;

/// The tiers of a map, changes of it, one more change, and the number of that one's stores.
type Trial = (u32, &'static [&'static str], &'static str, u32);

/// Changes of each kind. The keys a, ba and bba begin their search at one slot.
const TRIALS: [Trial; 20] = [
    // a key that is new
    (1, &[], "put a 1", 10),
    (1, &["put a 1", "put ba 2"], "put bba 3", 10),
    (2, &["put-long f 64"], "put a 1", 11),
    (2, &["put-long f 64", "put b 1"], "put a 1", 10),
    (8, SEVEN_TIERS, "put a 1", 11),
    // a value in the place of another one: as long, shorter, longer over a free chunk, and one that frees a chunk
    (1, &["put a 1", "put ba 2"], "put a 9", 4),
    (8, EIGHT_TIERS, "put a 9", 4),
    (1, &["put a 12"], "put a 1", 5),
    (1, &["put ba 2", "put a 1"], "put a 123456789", 7),
    (1, &["put a 123456789", "put b 1"], "put a 1", 6),
    // a longer value elsewhere: in the same tier, in a new one, in a later one, in an earlier one
    (1, &["put a 1", "put b 1"], "put a 123456789", 10),
    (2, &["put a 1", "put-long f 63"], "put a 123456789", 14),
    (
        2,
        &["put a 1", "put ba 1", "put-long f 62", "put b 1"],
        "put a 123456789",
        14,
    ),
    (
        2,
        &["put-long f 64", "put a 1", "put b 1", "remove f"],
        "put a 123456789",
        13,
    ),
    (8, NO_ROOM_FOR_A, "put a 123456789", 13),
    // a removal: the only key of its home, before others, in a later tier
    (1, &["put b 1", "put a 1"], "remove b", 6),
    (1, &["put a 1", "put ba 2", "put bba 3"], "remove a", 8),
    (2, &["put a 1", "put ba 2", "put-long f 62"], "remove a", 7),
    (2, &["put-long f 64", "put a 1", "put ba 2"], "remove a", 7),
    (8, EIGHT_TIERS, "remove a", 6),
];

const SEVEN_TIERS: &[&str] = &[
    "put-long f0 64",
    "put-long f1 64",
    "put-long f2 64",
    "put-long f3 64",
    "put-long f4 64",
    "put-long f5 64",
    "put-long f6 64",
];

const EIGHT_TIERS: &[&str] = &[
    "put-long f0 64",
    "put-long f1 64",
    "put-long f2 64",
    "put-long f3 64",
    "put-long f4 64",
    "put-long f5 64",
    "put-long f6 64",
    "put a 1",
];

const NO_ROOM_FOR_A: &[&str] = &[
    "put a 1",
    "put-long f 63",
    "put-long f1 64",
    "put-long f2 64",
    "put-long f3 64",
    "put-long f4 64",
    "put-long f5 64",
    "put-long f6 64",
    "put b 1",
];

/// A key and its value.
type Pair = (&'static [u8], &'static [u8]);

/// The map after changes.
fn map_after(alloc: Global, lines: &[&'static str]) -> Result<Vec<Pair>, Fail> {
    let mut map: Vec<Pair> = Vec::new(alloc);
    for text in lines {
        let line = line_of(text);
        map.retain(|pair| pair.0 != line.key);
        if let Some(value) = line.value {
            map.push((line.key, value))?;
        }
    }
    Ok(map)
}

/// The entry of a pair in the words.
#[tactic(auto, using(cm_geo::proofs::Ranges::segments_range))]
fn entry_in(words: &Words, pair: Pair) -> Option<Entry<'static>> {
    let mut mem = FixedMem::new(words, 0);
    let sight = look(&mut mem, words.geo(), pair.0).ok().flatten()?;
    Some(Entry {
        place: sight.place,
        chunk: sight.chunk,
        key: pair.0,
        value: pair.1,
    })
}

/// The entries of a map in the words.
fn entries_in(alloc: Global, words: &Words, map: &[Pair]) -> Result<Vec<Entry<'static>>, Fail> {
    let mut entries = Vec::new(alloc);
    for pair in map {
        if let Some(entry) = entry_in(words, *pair) {
            entries.push(entry)?;
        }
    }
    Ok(entries)
}

/// The chain of the words, whose tiers were linked from place 0 up.
#[tactic(auto, using(cm_geo::proofs::Ranges::segments_range))]
fn chain_in(words: &Words) -> &'static [u32] {
    const PLACES: &[u32] = &[0, 1, 2, 3, 4, 5, 6, 7];
    let mut mem = FixedMem::new(words, 0);
    match chain(&mut mem, words.geo()) {
        Ok(chain) => PLACES.get(..chain.len as usize).unwrap_or(&[]),
        Err(_) => &[],
    }
}

/// A map, and words that rest for it.
#[derive(Drop)]
struct Rested {
    words: Words,
    chain: &'static [u32],
    entries: Vec<Entry<'static>>,
}

impl Rested {
    /// The words after changes rest for the map after them.
    fn after(
        rt: &impl Abort,
        alloc: Global,
        geo: &Geo,
        lines: &[&'static str],
    ) -> Result<Rested, Fail> {
        let words = words_after(alloc, geo, lines)?;
        let map = map_after(alloc, lines)?;
        let chain = chain_in(&words);
        let entries = entries_in(alloc, &words, &map)?;
        assert!(rt; reading_of(alloc, &words)?.rests(chain, &entries));
        assert_eq!(rt; entries.len(), map.len());
        Ok(Rested {
            words,
            chain,
            entries,
        })
    }

    /// The entry of a key.
    fn entry(&self, key: &[u8]) -> Option<Entry<'static>> {
        self.entries.iter().find(|entry| entry.key == key).copied()
    }
}

fn reading_of(alloc: Global, words: &Words) -> Result<Segment, Fail> {
    Ok(Segment::with_words(alloc, *words.geo(), segment_of(words))?)
}

/// Whether every other key of the change is found.
fn finds_others(words: &Words, change: &Change<'static, '_>) -> bool {
    change
        .others
        .iter()
        .all(|entry| finds(words, entry.key, Some(entry.value)))
}

/// Whether a change that was stopped left the words as they were, or torn for it, with every other key found.
fn is_stopped_well(
    alloc: Global,
    before: &Words,
    words: &Words,
    change: &Change<'static, '_>,
) -> Result<bool, Fail> {
    let number = word_at(words, 1).wrapping_sub(word_at(before, 1));
    Ok(
        (number == 1 || same_words(words, before))
            && reading_of(alloc, words)?.is_torn(change)
            && finds_others(words, change),
    )
}

fn same_words(words: &Words, other: &Words) -> bool {
    (0..words.geo().total_words()).all(|at| word_at(words, at) == word_at(other, at))
}

/// Makes a change with this fuse. Tells whether it was stopped.
fn is_stopped(
    rt: &impl Abort,
    alloc: Global,
    text: &str,
    before: &Words,
    after: &Words,
    change: &Change<'static, '_>,
    fuse: KillFuse,
) -> Result<bool, Fail> {
    let mut words = copy_of(alloc, before)?;
    match perform(&mut words, &line_of(text), fuse) {
        Err(Dead) => {
            let is_well = is_stopped_well(alloc, before, &words, change)?;
            assert!(rt; is_well, "{text}");
            Ok(true)
        }
        Ok(answer) => {
            assert_eq!(rt; answer, answer_of(change), "{text}");
            assert!(rt; same_words(&words, after), "{text}");
            Ok(false)
        }
    }
}

/// A change makes so many stores, and may be stopped at each of them.
fn try_stores(
    rt: &impl Abort,
    alloc: Global,
    text: &str,
    before: &Words,
    after: &Words,
    change: &Change<'static, '_>,
    stores: u32,
) -> Result<(), Fail> {
    for left in 0..stores {
        let fuse = KillFuse::Stores { left };
        let is_stopped = is_stopped(rt, alloc, text, before, after, change, fuse)?;
        assert!(rt; is_stopped, "{text}: fewer than {stores} stores");
    }
    let fuse = KillFuse::Stores { left: stores };
    let is_stopped = is_stopped(rt, alloc, text, before, after, change, fuse)?;
    assert!(rt; !is_stopped, "{text}: more than {stores} stores");
    Ok(())
}

/// A change may be stopped at each of its events.
fn try_events(
    rt: &impl Abort,
    alloc: Global,
    text: &str,
    before: &Words,
    after: &Words,
    change: &Change<'static, '_>,
) -> Result<(), Fail> {
    for left in 0..MOST_EVENTS {
        let fuse = KillFuse::Events { left };
        if !is_stopped(rt, alloc, text, before, after, change, fuse)? {
            return Ok(());
        }
    }
    panic!(rt; "{text}: too many events")
}

/// No change here makes as many events.
const MOST_EVENTS: u32 = 2000;

fn answer_of(change: &Change<'static, '_>) -> Answer {
    match (change.old, change.new) {
        (None, _) => Answer::New,
        (Some(_), Some(_)) => Answer::Replaced,
        (Some(_), None) => Answer::Removed,
    }
}

/// Whether both entries begin at the same chunk.
fn begin_alike(old: Option<Entry<'static>>, new: Option<Entry<'static>>) -> bool {
    old.is_some_and(|old| {
        new.is_some_and(|new| old.place == new.place && old.chunk == new.chunk)
    })
}

/// The entries of other keys.
fn others_of(
    alloc: Global,
    entries: &[Entry<'static>],
    key: &[u8],
) -> Result<Vec<Entry<'static>>, Fail> {
    let mut others = Vec::new(alloc);
    for entry in entries {
        if entry.key != key {
            others.push(*entry)?;
        }
    }
    Ok(others)
}

/// Stops the change of a trial at each of its stores and at each of its events.
fn try_all_stops(rt: &impl Abort, alloc: Global, trial: Trial) -> Result<(), Fail> {
    let (tiers, lines, text, stores) = trial;
    let geo = geo_of(tiers)?;
    let before = Rested::after(rt, alloc, &geo, lines)?;
    let mut more = Vec::from_slice(alloc, lines)?;
    more.push(text)?;
    let after = Rested::after(rt, alloc, &geo, &more)?;
    let key = line_of(text).key;
    let others = others_of(alloc, &before.entries, key)?;
    let old = before.entry(key);
    let new = after.entry(key);
    let chains = [before.chain, after.chain];
    let change = Change {
        others: &others,
        old,
        new,
        in_place: begin_alike(old, new),
        chains,
    };
    try_stores(
        rt,
        alloc,
        text,
        &before.words,
        &after.words,
        &change,
        stores,
    )?;
    try_events(rt, alloc, text, &before.words, &after.words, &change)
}

#[test]
fn a_change_of_each_kind_may_be_stopped_anywhere(rt: HostRuntime) -> Result<(), Fail> {
    for trial in TRIALS {
        try_all_stops(&rt, rt.alloc(), trial)?;
    }
    Ok(())
}
