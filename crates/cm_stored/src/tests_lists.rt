//! Listings of a segment.

ghost use Rattle.std.specs.Prelude.{◌≡◌, ◌<◌, IfOk};
ghost use Rattle.cm_trial.specs.Trials.{IsPlayer};

use cm_geo::Geo;
use cm_store::{Answer, ListStop, Listed, Pass, Spot, Store};
use cm_trial::{Step, call, close, join, list, row, split, start, word};
use cm_words::{Fuse, KillFuse, Never, Words};
use std::alloc::Global;
use std::test::Fail;

/// The lock word beside one reader, and beside a writer.
const READ: u64 = 1;

const WRITE: u64 = 1 << 31;

/// A key with its value.
#[derive(Clone, Copy)]
struct Entry<'a> {
    key: &'a [u8],
    value: &'a [u8],
}

const A: Entry<'static> = Entry {
    key: b"a",
    value: b"",
};

const AB: Entry<'static> = Entry {
    key: b"ab",
    value: b"one",
};

const B: Entry<'static> = Entry {
    key: b"b",
    value: b"two",
};

/// Three pairs, not in byte order of their keys.
const THREE: [Entry<'static>; 3] = [B, A, AB];

/// The same in byte order.
const SORTED: [Entry<'static>; 3] = [A, AB, B];

/// A pair that fills a tier of 64 chunks of 4 words: 2 words, one of the key and 253 of the value.
const LONG: Entry<'static> = Entry {
    key: b"b",
    value: &[7; 2024],
};

/// Puts all pairs: whether each key was new, and had the next number.
fn put_all<F: Fuse>(store: &Store, pass: &mut Pass<F>, entries: &[Entry<'_>]) -> bool
    requires pass { IsPlayer store.now pass.old }
    ensures pass { IsPlayer store.now pass.new }
{
    let mut out = [0; 4096];
    let mut right = true;
    for (at, entry) in entries.iter().enumerate() {
        let row = row(
            Step::Put(entry.key, entry.value),
            at as u64 + 1,
            Answer::New,
        );
        right = right && call(store, pass, row.step, &mut out, 1) == Some(row.ended);
    }
    right
}

/// Whether a listing has this number, and these pairs in this order.
fn has_listed(listed: &Listed, number: u64, entries: &[Entry<'_>]) -> bool {
    let pairs = listed.pairs.as_slice();
    if listed.spot != (Spot { segment: 0, number }) || pairs.len() != entries.len() {
        return false;
    }
    for (pair, entry) in pairs.iter().zip(entries) {
        if pair.key.as_slice() != entry.key || pair.value.as_slice() != entry.value {
            return false;
        }
    }
    true
}

/// What was put, how a listing ended, whether its pass was dead then, and the words at the end.
#[derive(Drop)]
struct Ended {
    put: bool,
    listed: Option<Result<Listed, ListStop>>,
    dead: bool,
    words: Words,
}

/// A listing with three tries, by a pass of its own, behind the puts of another one.
fn list_behind<W: Fuse, F: Fuse>(
    alloc: Global,
    geo: &Geo,
    entries: &[Entry<'_>],
    writer: W,
    reader: F,
) -> Result<Ended, Fail> {
    let mut trial = start(alloc, geo)?;
    let mut writer = split(alloc, &mut trial, writer)?;
    let mut reader = split(alloc, &mut trial, reader)?;
    let put = put_all(&trial.store, &mut writer, entries);
    let listed = list(alloc, &trial.store, &mut reader, 3);
    let dead = reader.is_dead();
    let _writer = join(&mut trial, writer)?;
    let _reader = join(&mut trial, reader)?;
    let words = close(alloc, trial)?;
    Ok(Ended {
        put,
        listed,
        dead,
        words,
    })
}

/// The words of the same puts, without a listing.
fn words_of_puts<W: Fuse>(
    alloc: Global,
    geo: &Geo,
    entries: &[Entry<'_>],
    writer: W,
) -> Result<Words, Fail> {
    let mut trial = start(alloc, geo)?;
    let mut writer = split(alloc, &mut trial, writer)?;
    let _put = put_all(&trial.store, &mut writer, entries);
    let _writer = join(&mut trial, writer)?;
    close(alloc, trial)
}

/// Whether two maps have the same words but for the first one's lock word, which is this one.
fn same_but_lock(words: &Words, lock: u64, others: &Words) -> bool {
    word(words, 0) == Some(lock)
        && (1..words.geo().total_words()).all(|at| word(words, at) == word(others, at))
}

/// Whether these pairs are listed so, at the number of their puts.
fn lists_so(
    alloc: Global,
    geo: &Geo,
    puts: &[Entry<'_>],
    sorted: &[Entry<'_>],
) -> Result<bool, Fail> {
    let ended = list_behind(alloc, geo, puts, Never, Never)?;
    let Some(Ok(listed)) = &ended.listed else {
        return Ok(false);
    };
    Ok(ended.put && !ended.dead && has_listed(listed, puts.len() as u64, sorted))
}

#[test]
fn a_listing_is_in_byte_order_of_the_keys(rt: HostRuntime) -> Result<(), Fail> {
    let geo = Geo::new(1, 1, 64, 4, 0)?;
    assert!(rt; lists_so(rt.alloc(), &geo, &THREE, &SORTED)?);
    Ok(())
}

// The three keys have one home.
#[test]
fn keys_of_one_home_are_listed(rt: HostRuntime) -> Result<(), Fail> {
    let geo = Geo::new(1, 1, 64, 4, 0)?;
    let three = [
        Entry {
            key: b"a",
            value: b"1",
        },
        Entry {
            key: b"ba",
            value: b"2",
        },
        Entry {
            key: b"bba",
            value: b"3",
        },
    ];
    assert!(rt; lists_so(rt.alloc(), &geo, &three, &three)?);
    Ok(())
}

#[test]
fn an_empty_segment_has_no_pairs(rt: HostRuntime) -> Result<(), Fail> {
    let geo = Geo::new(1, 1, 64, 4, 0)?;
    assert!(rt; lists_so(rt.alloc(), &geo, &[], &[])?);
    Ok(())
}

#[test]
fn a_key_of_a_second_tier_is_listed(rt: HostRuntime) -> Result<(), Fail> {
    let geo = Geo::new(1, 2, 64, 4, 1)?;
    assert!(rt; lists_so(rt.alloc(), &geo, &[LONG, A], &[A, LONG])?);
    Ok(())
}

#[test]
fn a_listing_beside_a_writer_is_busy(rt: HostRuntime) -> Result<(), Fail> {
    let alloc = rt.alloc();
    let geo = Geo::new(1, 1, 64, 4, 0)?;
    let ended = list_behind(alloc, &geo, &THREE, KillFuse::Stores { left: 0 }, Never)?;
    let words = words_of_puts(alloc, &geo, &THREE, KillFuse::Stores { left: 0 })?;
    let busy = ListStop::Busy {
        looks: 3,
        last: WRITE,
    };
    assert!(rt; !ended.dead && same_but_lock(&ended.words, WRITE, &words));
    assert_eq!(rt; ended.listed.and_then(|listed| listed.err()), Some(busy));
    Ok(())
}

/// Whether a listing that may make so many events died, or lived, as it should beside these words.
fn ends_so(ended: &Ended, left: u32, words: &Words) -> bool {
    match &ended.listed {
        // a look, an exchange, loads, the load of the answer's number, and the release
        Some(Ok(listed)) => {
            left > 4
                && !ended.dead
                && has_listed(listed, 3, &[A, AB, LONG])
                && same_but_lock(&ended.words, 0, words)
        }
        // the level is held from its exchange on, which is the second event
        Some(Err(stop)) => {
            let lock = if left < 2 { 0 } else { READ };
            *stop == ListStop::Died && ended.dead && same_but_lock(&ended.words, lock, words)
        }
        None => false,
    }
}

#[test]
fn a_killed_listing_leaves_the_words(rt: HostRuntime) -> Result<(), Fail> {
    let alloc = rt.alloc();
    let geo = Geo::new(1, 2, 64, 4, 1)?;
    let puts = [LONG, A, AB];
    let words = words_of_puts(alloc, &geo, &puts, Never)?;
    let mut lived = false;
    for left in 0..4096 {
        let ended = list_behind(alloc, &geo, &puts, Never, KillFuse::Events { left })?;
        assert!(rt; ends_so(&ended, left, &words), "at {left}");
        lived = matches!(ended.listed, Some(Ok(_)));
        if lived {
            break;
        }
    }
    assert!(rt; lived);
    Ok(())
}

/// A listing, and, where no memory was left for it, another one.
fn list_again<F: Fuse>(
    alloc: Global,
    store: &Store,
    pass: &mut Pass<F>,
) -> Option<Result<Listed, ListStop>>
    requires pass { IsPlayer store.now pass.old }
    ensures pass { IsPlayer store.now pass.new }
{
    match list(alloc, store, pass, 1) {
        Some(Err(ListStop::NoMemory)) => list(alloc, store, pass, 1),
        ended => ended,
    }
}

// An allocation fails only where the tests are run so, as `rt try --test --fail-alloc 16`: each listing behind it has all pairs.
#[test]
fn a_listing_without_memory_lets_go(rt: HostRuntime) -> Result<(), Fail> {
    let alloc = rt.alloc();
    let geo = Geo::new(1, 1, 64, 4, 0)?;
    let mut trial = start(alloc, &geo)?;
    let mut pass = split(alloc, &mut trial, Never)?;
    assert!(rt; put_all(&trial.store, &mut pass, &THREE));
    let listed = list_again(alloc, &trial.store, &mut pass);
    assert!(rt; !pass.is_dead());
    let Never = join(&mut trial, pass)?;
    let words = close(alloc, trial)?;
    let Some(Ok(listed)) = listed else {
        return Err(Fail::new("it was not listed"));
    };
    assert!(rt; has_listed(&listed, 3, &SORTED));
    assert_eq!(rt; word(&words, 0), Some(0));
    Ok(())
}
