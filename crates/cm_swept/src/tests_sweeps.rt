//! Sweeps: which keys they take away, in which order, and what stands in the words behind them.

ghost use Rattle.cm_trial.specs.Trials.{IsPlayer};

use cm_geo::Geo;
use cm_plain::NoMemory;
use cm_store::{Answer, Done, Pass, Spot, Stop, Store};
use cm_trial::{
    Other, Step, call, close, first_other, join, key_of, row, split, start, sweep_close,
    sweep_open, sweep_step, valued, word,
};
use cm_words::{Fuse, KillFuse, Never, Words};
use std::alloc::Global;
use std::test::Fail;

/// The bits of a lock word.
const UPDATE: u64 = 1 << 30;

const WRITE: u64 = 1 << 31;

/// How a call ended that was made, and answered for the first segment.
fn ended(number: u64, answer: Answer) -> Option<Result<Done, Stop>> {
    let spot = Spot { segment: 0, number };
    Some(Ok(Done { spot, answer }))
}

/// What the steps of a sweep took away, each key with a comma behind it, and what they were answered.
#[derive(Drop)]
struct Swept {
    keys: Vec<u8>,
    steps: u64,
    last: Option<Result<Done, Stop>>,
}

/// Adds a key of so many bytes, with a comma behind it.
fn push_key(keys: &mut Vec<u8>, key: &[u8; 256], len: u32) -> Result<(), NoMemory> {
    for byte in key.iter().take(len as usize) {
        if keys.push(*byte).is_err() {
            return Err(NoMemory);
        }
    }
    match keys.push(b',') {
        Ok(()) => Ok(()),
        Err(_) => Err(NoMemory),
    }
}

/// Takes steps until one doesn't take a key away.
fn take_steps<F: Fuse>(alloc: Global, store: &Store, pass: &mut Pass<F>) -> Result<Swept, NoMemory>
    requires pass { IsPlayer store.now pass.old }
    ensures pass { IsPlayer store.now pass.new }
{
    let mut keys = Vec::new(alloc);
    let mut out = [0; 256];
    let mut steps = 0;
    let mut last = None;
    for at in 0..1000 {
        last = sweep_step(store, pass, &mut out, 3);
        let Some(
            Ok(
                Done {
                    spot: _,
                    answer: Answer::Swept(len),
                },
            ),
        ) = last
        else {
            break;
        };
        steps = at + 1;
        push_key(&mut keys, &out, len)?;
    }
    Ok(Swept { keys, steps, last })
}

/// Opens a sweep of a prefix, takes its steps, and closes it.
fn sweep_all<F: Fuse>(
    alloc: Global,
    store: &Store,
    pass: &mut Pass<F>,
    prefix: &[u8],
) -> Result<Swept, Fail>
    requires pass { IsPlayer store.now pass.old }
    ensures pass { IsPlayer store.now pass.new }
{
    if sweep_open(store, pass, 0, prefix, 1) != Some(Ok(())) {
        return Err(Fail::new("it was not opened"));
    }
    let swept = take_steps(alloc, store, pass)?;
    if sweep_close(store, pass) != Some(Ok(())) {
        return Err(Fail::new("it was not closed"));
    }
    Ok(swept)
}

/// Puts each key with the value 1: whether all were new, and had the next number.
fn put_all<F: Fuse>(store: &Store, pass: &mut Pass<F>, keys: &[&[u8]]) -> bool
    requires pass { IsPlayer store.now pass.old }
    ensures pass { IsPlayer store.now pass.new }
{
    let mut out = [0; 4096];
    let mut right = true;
    for (at, key) in keys.iter().enumerate() {
        let row = row(Step::Put(key, b"1"), at as u64 + 1, Answer::New);
        right = right && call(store, pass, row.step, &mut out, 1) == Some(row.ended);
    }
    right
}

/// Puts the keys, sweeps a prefix, and gives what was swept, and the words at the end.
fn swept_of(
    alloc: Global,
    geo: &Geo,
    keys: &[&[u8]],
    prefix: &[u8],
) -> Result<(Swept, Words), Fail> {
    let mut trial = start(alloc, geo)?;
    let mut pass = split(alloc, &mut trial, Never)?;
    if !put_all(&trial.store, &mut pass, keys) {
        return Err(Fail::new("a key was not new"));
    }
    let swept = sweep_all(alloc, &trial.store, &mut pass, prefix)?;
    let Never = join(&mut trial, pass)?;
    Ok((swept, close(alloc, trial)?))
}

/// A step that is expected, and the key that it takes away.
#[derive(Clone, Copy)]
struct Taken<'a> {
    number: u64,
    answer: Answer,
    key: &'a [u8],
}

/// Takes these steps, each with one try: the first that ends in another way than is expected.
fn first_other_step<F: Fuse>(
    store: &Store,
    pass: &mut Pass<F>,
    steps: &[Taken<'_>],
) -> Option<Other>
    requires pass { IsPlayer store.now pass.old }
    ensures pass { IsPlayer store.now pass.new }
{
    let mut out = [0; 256];
    for (at, step) in steps.iter().enumerate() {
        let found = sweep_step(store, pass, &mut out, 1);
        if found != ended(step.number, step.answer) || !out.as_slice().starts_with(step.key) {
            return Some((at, found));
        }
    }
    None
}

/// The steps of a sweep of ba and bba, behind three changes.
const TWO_STEPS: [Taken<'static>; 3] = [
    Taken {
        number: 4,
        answer: Answer::Swept(2),
        key: b"ba",
    },
    Taken {
        number: 5,
        answer: Answer::Swept(3),
        key: b"bba",
    },
    Taken {
        number: 5,
        answer: Answer::SweptAll,
        key: b"",
    },
];

/// Words behind that sweep. The slot of a, 12, is word 21; the slots of the other two are behind it.
const A_LEFT: [(u32, u64); 8] = [
    (0, 0),
    (1, 10),
    (2, 1),
    (5, 1),
    (8, 1),
    (21, 0x8601_ec8c_0000_0001),
    (22, 0),
    (23, 0),
];

#[test]
fn a_sweep_takes_each_key_with_its_prefix(rt: HostRuntime) -> Result<(), Fail> {
    let geo = Geo::new(1, 1, 64, 4, 0)?;
    let mut trial = start(rt.alloc(), &geo)?;
    let mut pass = split(rt.alloc(), &mut trial, Never)?;
    let puts = [
        row(Step::Put(b"a", b"1"), 1, Answer::New),
        row(Step::Put(b"ba", b"2"), 2, Answer::New),
        row(Step::Put(b"bba", b"3"), 3, Answer::New),
    ];
    assert_eq!(rt; first_other(&trial.store, &mut pass, &puts, 1), None);
    assert_eq!(rt;
        sweep_open(&trial.store, &mut pass, 0, b"b", 1),
        Some(Ok(()))
    );
    assert!(rt; pass.in_sweep());
    assert_eq!(rt; first_other_step(&trial.store, &mut pass, &TWO_STEPS), None);
    assert!(rt; pass.in_sweep());
    assert_eq!(rt; sweep_close(&trial.store, &mut pass), Some(Ok(())));
    assert!(rt; !pass.in_sweep());
    let questions = [
        valued(Step::Get(b"a"), 5, Answer::Value(1), b"1"),
        row(Step::Count(0), 5, Answer::Count(1)),
    ];
    assert_eq!(rt; first_other(&trial.store, &mut pass, &questions, 1), None);
    let Never = join(&mut trial, pass)?;
    let words = close(rt.alloc(), trial)?;
    for (at, expected) in A_LEFT {
        assert_eq!(rt; word(&words, at), Some(expected), "at {at}");
    }
    Ok(())
}

/// The lock word, the change number, and the count of the first tier.
fn first_words(words: &Words) -> [Option<u64>; 3] {
    [word(words, 0), word(words, 1), word(words, 2)]
}

// The four keys have one slot of origin, 12, and stand behind each other.
#[test]
fn a_step_looks_again_at_the_slot_that_was_emptied(rt: HostRuntime) -> Result<(), Fail> {
    let geo = Geo::new(1, 1, 64, 4, 0)?;
    let keys = [b"a".as_slice(), b"ba", b"bba", b"bgb", b"bjy"];
    let (swept, words) = swept_of(rt.alloc(), &geo, &keys, b"b")?;
    assert_eq!(rt; swept.keys.as_slice(), b"ba,bba,bgb,bjy,".as_slice());
    assert_eq!(rt; swept.last, ended(9, Answer::SweptAll));
    assert_eq!(rt; first_words(&words), [Some(0), Some(18), Some(1)]);
    Ok(())
}

#[test]
fn a_sweep_of_no_key_ends_at_once(rt: HostRuntime) -> Result<(), Fail> {
    let geo = Geo::new(1, 1, 64, 4, 0)?;
    let keys = [b"a".as_slice(), b"ba", b"bba"];
    let (swept, words) = swept_of(rt.alloc(), &geo, &keys, b"bb_")?;
    assert_eq!(rt; (swept.steps, swept.last), (0, ended(3, Answer::SweptAll)));
    assert_eq!(rt; first_words(&words), [Some(0), Some(6), Some(3)]);
    let (swept, words) = swept_of(rt.alloc(), &geo, &[], b"")?;
    assert_eq!(rt; (swept.steps, swept.last), (0, ended(0, Answer::SweptAll)));
    assert_eq!(rt; first_words(&words), [Some(0), Some(0), Some(0)]);
    Ok(())
}

#[test]
fn an_empty_prefix_takes_all_keys(rt: HostRuntime) -> Result<(), Fail> {
    let geo = Geo::new(1, 1, 64, 4, 0)?;
    let keys = [b"a".as_slice(), b"ba", b"bba"];
    let (swept, words) = swept_of(rt.alloc(), &geo, &keys, b"")?;
    assert_eq!(rt; swept.keys.as_slice(), b"a,ba,bba,".as_slice());
    assert_eq!(rt; swept.last, ended(6, Answer::SweptAll));
    assert_eq!(rt; (word(&words, 0), word(&words, 1)), (Some(0), Some(12)));
    for at in 2..137 {
        assert_eq!(rt; word(&words, at), Some(0), "at {at}");
    }
    Ok(())
}

// Slots 0 to 127 are words 9 to 136. The origin of vgj is slot 0, that of the others slot 127.
#[test]
fn a_sweep_goes_round_from_the_last_slot_to_the_first(rt: HostRuntime) -> Result<(), Fail> {
    let geo = Geo::new(1, 1, 64, 4, 0)?;
    let rows: [([&[u8]; 4], &[u8]); 4] = [
        ([b"wap", b"wds", b"wjq", b"wve"], b"wds,wjq,wve,wap,"),
        ([b"wap", b"vgo", b"wds", b"vgj"], b"wds,wap,"),
        ([b"vgo", b"wap", b"vmi", b"wjq"], b"wap,wjq,"),
        ([b"wap", b"vgj", b"wjq", b"vmi"], b"wjq,wap,"),
    ];
    for (keys, expected) in rows {
        let (swept, words) = swept_of(rt.alloc(), &geo, &keys, b"w")?;
        assert_eq!(rt; swept.keys.as_slice(), expected);
        let number = swept.steps.saturating_add(4);
        assert_eq!(rt; swept.last, ended(number, Answer::SweptAll));
        let left = 4u64.saturating_sub(swept.steps);
        assert_eq!(rt;
            first_words(&words),
            [Some(0), Some(number.saturating_mul(2)), Some(left)]
        );
        // what is left stands from its origin on
        assert_eq!(rt; word(&words, 136) != Some(0), expected.len() == 8);
    }
    Ok(())
}

/// Puts the first 70 keys by their numbers: whether each was new, and had the next number.
fn put_numbered<F: Fuse>(store: &Store, pass: &mut Pass<F>) -> bool
    requires pass { IsPlayer store.now pass.old }
    ensures pass { IsPlayer store.now pass.new }
{
    let mut out = [0; 4096];
    let mut right = true;
    for at in 0..70 {
        let key = key_of(at);
        let row = row(Step::Put(&key, b"1"), u64::from(at) + 1, Answer::New);
        right = right && call(store, pass, row.step, &mut out, 1) == Some(row.ended);
    }
    right
}

/// What a sweep over two tiers took away, the count of the keys behind it, and the words at the end.
#[derive(Drop)]
struct Tiers {
    swept: Swept,
    count: Option<Result<Done, Stop>>,
    words: Words,
}

/// A sweep over the 70 keys.
fn sweep_tiers(alloc: Global, prefix: &[u8]) -> Result<Tiers, Fail> {
    let mut trial = start(alloc, &Geo::new(1, 2, 64, 4, 1)?)?;
    let mut pass = split(alloc, &mut trial, Never)?;
    if !put_numbered(&trial.store, &mut pass) {
        return Err(Fail::new("a key was not new"));
    }
    let swept = sweep_all(alloc, &trial.store, &mut pass, prefix)?;
    let count = call(&trial.store, &mut pass, Step::Count(0), &mut [0; 4096], 1);
    let Never = join(&mut trial, pass)?;
    let words = close(alloc, trial)?;
    Ok(Tiers {
        swept,
        count,
        words,
    })
}

#[test]
fn a_sweep_goes_over_all_tiers(rt: HostRuntime) -> Result<(), Fail> {
    let rows: [(&[u8], u32); 3] = [(b"k", 0), (b"k6", 60), (b"", 0)];
    for (prefix, left) in rows {
        let Tiers {
            swept,
            count,
            words,
        } = sweep_tiers(rt.alloc(), prefix)?;
        assert_eq!(rt; swept.steps, 70u64.saturating_sub(u64::from(left)));
        let number = swept.steps.saturating_add(70);
        assert_eq!(rt; swept.last, ended(number, Answer::SweptAll));
        assert_eq!(rt; count, ended(number, Answer::Count(left)));
        assert_eq!(rt; (word(&words, 0), word(&words, 4)), (Some(0), Some(1)));
    }
    Ok(())
}

#[test]
fn a_reader_that_died_makes_the_raise_busy(rt: HostRuntime) -> Result<(), Fail> {
    let mut trial = start(rt.alloc(), &Geo::new(1, 1, 64, 4, 0)?)?;
    let mut pass = split(rt.alloc(), &mut trial, Never)?;
    // it dies at its first load under Read
    let mut reader = split(rt.alloc(), &mut trial, KillFuse::Events { left: 2 })?;
    assert!(rt; put_all(&trial.store, &mut pass, &[b"a", b"ba"]));
    let count = call(&trial.store, &mut reader, Step::Count(0), &mut [0; 4096], 1);
    assert_eq!(rt; count, Some(Err(Stop::Died)));
    let mut out = [0; 256];
    let busy = Some(Err(Stop::Busy {
        looks: 5,
        last: UPDATE | 1,
    }));
    assert_eq!(rt;
        sweep_open(&trial.store, &mut pass, 0, b"b", 1),
        Some(Ok(()))
    );
    assert_eq!(rt; sweep_step(&trial.store, &mut pass, &mut out, 5), busy);
    assert!(rt; pass.in_sweep());
    assert_eq!(rt; sweep_step(&trial.store, &mut pass, &mut out, 5), busy);
    assert!(rt; pass.in_sweep());
    assert_eq!(rt; sweep_close(&trial.store, &mut pass), Some(Ok(())));
    assert!(rt; !pass.in_sweep());
    // a step that finds no key wants no raise
    assert_eq!(rt;
        sweep_open(&trial.store, &mut pass, 0, b"c", 1),
        Some(Ok(()))
    );
    let step = sweep_step(&trial.store, &mut pass, &mut out, 5);
    assert_eq!(rt; step, ended(2, Answer::SweptAll));
    assert_eq!(rt; sweep_close(&trial.store, &mut pass), Some(Ok(())));
    let count = call(&trial.store, &mut pass, Step::Count(0), &mut [0; 4096], 1);
    assert_eq!(rt; count, ended(2, Answer::Count(2)));
    let Never = join(&mut trial, pass)?;
    let _fuse = join(&mut trial, reader)?;
    let words = close(rt.alloc(), trial)?;
    assert_eq!(rt; first_words(&words), [Some(1), Some(4), Some(2)]);
    Ok(())
}

#[test]
fn an_opening_is_busy_beside_an_open_sweep(rt: HostRuntime) -> Result<(), Fail> {
    let mut trial = start(rt.alloc(), &Geo::new(2, 1, 64, 4, 0)?)?;
    let mut one = split(rt.alloc(), &mut trial, Never)?;
    let mut two = split(rt.alloc(), &mut trial, Never)?;
    let busy = Some(Err(Stop::Busy {
        looks: 4,
        last: UPDATE,
    }));
    assert_eq!(rt;
        sweep_open(&trial.store, &mut one, 1, b"b", 1),
        Some(Ok(()))
    );
    assert_eq!(rt; sweep_open(&trial.store, &mut two, 1, b"b", 4), busy);
    assert!(rt; !two.in_sweep());
    assert_eq!(rt;
        sweep_open(&trial.store, &mut two, 0, b"b", 4),
        Some(Ok(()))
    );
    assert_eq!(rt; sweep_close(&trial.store, &mut two), Some(Ok(())));
    assert_eq!(rt; sweep_close(&trial.store, &mut one), Some(Ok(())));
    assert_eq!(rt;
        sweep_open(&trial.store, &mut two, 1, b"b", 4),
        Some(Ok(()))
    );
    assert_eq!(rt; sweep_close(&trial.store, &mut two), Some(Ok(())));
    let Never = join(&mut trial, one)?;
    let Never = join(&mut trial, two)?;
    let words = close(rt.alloc(), trial)?;
    assert_eq!(rt; (word(&words, 0), word(&words, 1)), (Some(0), Some(0)));
    Ok(())
}

/// How far a sweep came, that was killed in place of an event: whether it was opened, what it took away, whether it was
/// closed, and the lock word and the change number at the end.
#[derive(Drop)]
struct Killed {
    opened: bool,
    steps: u64,
    ended: bool,
    closed: bool,
    dead: bool,
    in_sweep: bool,
    lock: u64,
    number: u64,
}

/// A sweep of the keys ba and bba, beside a.
fn killed_at(alloc: Global, fuse: KillFuse) -> Result<Killed, Fail> {
    let mut trial = start(alloc, &Geo::new(1, 1, 64, 4, 0)?)?;
    let mut before = split(alloc, &mut trial, Never)?;
    if !put_all(&trial.store, &mut before, &[b"a", b"ba", b"bba"]) {
        return Err(Fail::new("a key was not new"));
    }
    let Never = join(&mut trial, before)?;
    let mut pass = split(alloc, &mut trial, fuse)?;
    let opened = sweep_open(&trial.store, &mut pass, 0, b"b", 1) == Some(Ok(()));
    let swept = take_steps(alloc, &trial.store, &mut pass)?;
    let closed = sweep_close(&trial.store, &mut pass) == Some(Ok(()));
    let dead = pass.is_dead();
    let in_sweep = pass.in_sweep();
    join(&mut trial, pass)?;
    let words = close(alloc, trial)?;
    let (Some(lock), Some(number)) = (word(&words, 0), word(&words, 1)) else {
        return Err(Fail::new("no such words"));
    };
    Ok(Killed {
        opened,
        steps: swept.steps,
        ended: matches!(swept.last, Some(Ok(_))),
        closed,
        dead,
        in_sweep,
        lock,
        number,
    })
}

#[test]
fn a_sweep_is_killed_at_each_event(rt: HostRuntime) -> Result<(), Fail> {
    let mut closings = 0u32;
    for left in 0..400 {
        let at = killed_at(rt.alloc(), KillFuse::Events { left })?;
        assert_eq!(rt; at.dead, !at.closed, "at {left}");
        assert_eq!(rt; at.in_sweep, at.opened && !at.closed, "at {left}");
        let whole = at.steps.saturating_mul(2).saturating_add(6);
        if !at.opened {
            // the look and the exchange of the take
            assert!(rt; left < 2);
            assert_eq!(rt; (at.lock, at.number), (0, 6));
        } else if !at.ended {
            // a change has no more than its number and one half
            assert!(rt; whole <= at.number, "at {left}");
            assert!(rt; at.number <= whole.saturating_add(2), "at {left}");
            assert!(rt;
                at.lock == WRITE || at.lock == UPDATE && at.number == whole,
                "at {left}"
            );
        } else if !at.closed {
            assert_eq!(rt; (at.lock, at.number), (UPDATE, 10));
            closings = closings.saturating_add(1);
        } else {
            assert_eq!(rt; (at.lock, at.number), (0, 10));
        }
    }
    assert_eq!(rt; closings, 1);
    let at = killed_at(rt.alloc(), KillFuse::Events { left: 400 })?;
    assert!(rt; at.closed);
    Ok(())
}

#[test]
fn a_sweep_is_killed_at_each_store(rt: HostRuntime) -> Result<(), Fail> {
    let mut last = 0;
    for left in 0..40 {
        let at = killed_at(rt.alloc(), KillFuse::Stores { left })?;
        assert_eq!(rt; at.dead, !at.closed, "at {left}");
        // a store dies under Write alone
        assert_eq!(rt; at.lock, if at.dead { WRITE } else { 0 });
        assert!(rt; last <= at.number);
        last = at.number;
    }
    assert_eq!(rt; last, 10);
    Ok(())
}
