//! Gets beside a writer that died.

use cm_geo::Geo;
use cm_store::{Answer, Done, Spot, Stop};
use cm_trial::{Step, call, close, join, split, start, word};
use cm_words::{KillFuse, Words};
use std::alloc::Global;
use std::test::Fail;

/// The lock word beside a writer.
const WRITE: u64 = 1 << 31;

/// How a get ended behind a put that died, and the words then.
#[derive(Drop)]
struct Got {
    put: Option<Result<Done, Stop>>,
    get: Option<Result<Done, Stop>>,
    words: Words,
}

/// A put under a fuse, and a get with one try under another one.
fn get_behind(alloc: Global, put: KillFuse, get: KillFuse) -> Result<Got, Fail> {
    let mut trial = start(alloc, &Geo::new(1, 1, 64, 4, 0)?)?;
    let mut out = [0; 4096];
    let mut zero = split(alloc, &mut trial, put)?;
    let put = call(&trial.store, &mut zero, Step::Put(b"a", b"1"), &mut out, 1);
    let mut one = split(alloc, &mut trial, get)?;
    let get = call(&trial.store, &mut one, Step::Get(b"a"), &mut out, 1);
    join(&mut trial, zero)?;
    join(&mut trial, one)?;
    let words = close(alloc, trial)?;
    Ok(Got { put, get, words })
}

/// A call's end, of the first segment.
fn done(number: u64, answer: Answer) -> Option<Result<Done, Stop>> {
    Some(Ok(Done {
        spot: Spot { segment: 0, number },
        answer,
    }))
}

const DIED: Option<Result<Done, Stop>> = Some(Err(Stop::Died));

#[test]
fn a_get_looks_at_the_lock_word_behind_three_rounds(rt: HostRuntime) -> Result<(), Fail> {
    let busy = Some(Err(Stop::Busy {
        looks: 1,
        last: WRITE,
    }));
    let stores = || KillFuse::Stores { left: 1 };
    let rows = [
        // the writer holds Write, and stored nothing: a round doesn't see it
        (
            KillFuse::Events { left: 2 },
            KillFuse::Never,
            done(0, Answer::Missing),
            0,
        ),
        // it stored the odd number: three rounds of one load each, and the look of the take
        (stores(), KillFuse::Never, busy, 1),
        (stores(), KillFuse::Events { left: 3 }, DIED, 1),
        (stores(), KillFuse::Events { left: 4 }, busy, 1),
    ];
    for (put, get, ended, number) in rows {
        let got = get_behind(rt.alloc(), put, get)?;
        assert_eq!(rt; (got.put, got.get), (DIED, ended));
        let words = [0, 1].map(|at| word(&got.words, at));
        assert_eq!(rt; words, [Some(WRITE), Some(number)]);
    }
    Ok(())
}

// The last event of a put is its release.
#[test]
fn a_get_sees_a_change_whose_caller_died_at_its_release(rt: HostRuntime) -> Result<(), Fail> {
    let mut last = None;
    for left in 0..100 {
        let got = get_behind(rt.alloc(), KillFuse::Events { left }, KillFuse::Never)?;
        if got.put != DIED {
            assert_eq!(rt; got.put, done(1, Answer::New));
            break;
        }
        last = Some(got);
    }
    let Some(got) = last else {
        return Err(Fail::new("no put died"));
    };
    assert_eq!(rt; got.get, done(1, Answer::Value(1)));
    let words = [0, 1].map(|at| word(&got.words, at));
    assert_eq!(rt; words, [Some(WRITE), Some(2)]);
    Ok(())
}

#[test]
fn a_get_without_a_writer_takes_no_level(rt: HostRuntime) -> Result<(), Fail> {
    let mut ended = None;
    for left in 0..100 {
        let got = get_behind(rt.alloc(), KillFuse::Never, KillFuse::Events { left })?;
        assert_eq!(rt;
            (word(&got.words, 0), word(&got.words, 1)),
            (Some(0), Some(2))
        );
        if got.get != DIED {
            ended = Some((left, got.get));
            break;
        }
    }
    assert!(rt; ended.is_some_and(|(_, got)| got == done(1, Answer::Value(1))));
    // what it loads is no more than the two numbers, the slot, the link and the words of the entry
    assert!(rt; ended.is_some_and(|(events, _)| events <= 12));
    Ok(())
}
