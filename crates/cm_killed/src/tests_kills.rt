//! Calls that are killed at each of their events.

ghost use Rattle.std.specs.Prelude.{IfOk};
ghost use Rattle.cm_trial.specs.Trials.{IsTrialOf};

use cm_geo::Geo;
use cm_store::{Answer, Done, Spot, Stop};
use cm_trial::{
    Step, Trial, call, close, first_other, join, row, split, start, sweep_close, sweep_open,
    sweep_step, word,
};
use cm_words::{KillFuse, Never, Words};
use std::alloc::Global;
use std::test::Fail;

/// The lock word beside a writer, and beside an updater.
const WRITE: u64 = 1 << 31;

const UPDATE: u64 = 1 << 30;

/// More events than any of these calls has.
const MOST: u32 = 2000;

/// A value of 63 chunks of 4 words.
const BIG: [u8; 1992] = [b'v'; 1992];

/// A value of two chunks.
const LONG: &[u8] = b"123456789";

/// A trial of a chain of two tiers with three keys: two fill the first tier.
fn two_tiers(alloc: Global) -> Result<Trial, Fail>
    ensures { IfOk result (λ trial. IsTrialOf trial.store trial.root trial.made trial.back) }
{
    let mut trial = start(alloc, &Geo::new(1, 2, 64, 4, 1)?)?;
    let mut pass = split(alloc, &mut trial, Never)?;
    let rows = [
        row(Step::Put(b"a", b"1"), 1, Answer::New),
        row(Step::Put(b"big", &BIG), 2, Answer::New),
        row(Step::Put(b"c", b"3"), 3, Answer::New),
    ];
    if first_other(&trial.store, &mut pass, &rows, 3).is_some() {
        return Err(Fail::new("a key was not new"));
    }
    let Never = join(&mut trial, pass)?;
    Ok(trial)
}

/// How a call ended under a fuse, whether its pass is dead, and the words then.
#[derive(Drop)]
struct Ended {
    ended: Option<Result<Done, Stop>>,
    dead: bool,
    words: Words,
}

/// A call under a fuse.
fn killed(alloc: Global, step: Step<'_>, fuse: KillFuse) -> Result<Ended, Fail> {
    let mut trial = two_tiers(alloc)?;
    let mut pass = split(alloc, &mut trial, fuse)?;
    let ended = call(&trial.store, &mut pass, step, &mut [0; 4096], 3);
    let dead = pass.is_dead();
    join(&mut trial, pass)?;
    let words = close(alloc, trial)?;
    Ok(Ended { ended, dead, words })
}

/// What stands after a call that died.
#[derive(Clone, Copy, Debug, PartialEq, Eq, PartialOrd, Ord)]
enum Case {
    /// All words but the lock word are as before the call.
    Before,
    /// The change number is odd, and Write is held; each other word is that of before or of after the change, and of a
    /// bit word both may be set.
    Torn,
    /// All words but the lock word are those after the change, and Write is held.
    After,
    Else,
}

/// Whether a word may stand while another one takes its place.
fn is_between(word: Option<u64>, before: Option<u64>, after: Option<u64>) -> bool {
    match (word, before, after) {
        (Some(word), Some(before), Some(after)) => {
            word == before || word == after || word == before | after
        }
        _ => false,
    }
}

/// What stands, beside the words before the call and those after its change.
fn stands(words: &Words, before: &Words, after: &Words) -> Case {
    let lock = word(words, 0);
    let mut is_before = true;
    let mut is_after = lock == Some(WRITE);
    let mut is_torn = lock == Some(WRITE)
        && word(words, 1) == word(before, 1).and_then(|number| number.checked_add(1));
    for at in 1..words.geo().total_words() {
        let found = word(words, at);
        is_before = is_before && found == word(before, at);
        is_after = is_after && found == word(after, at);
        is_torn = is_torn && (at == 1 || is_between(found, word(before, at), word(after, at)));
    }
    match (is_before, is_torn, is_after) {
        (true, _, _) => Case::Before,
        (_, true, _) => Case::Torn,
        (_, _, true) => Case::After,
        _ => Case::Else,
    }
}

/// What an event is, as fuses count them.
#[derive(Clone, Copy, Debug)]
enum Each {
    Event,
    Store,
}

/// A fuse that admits so many of these.
fn fuse_of(each: Each, left: u32) -> KillFuse {
    match each {
        Each::Event => KillFuse::Events { left },
        Each::Store => KillFuse::Stores { left },
    }
}

/// How often each of the three cases stood, in their order.
#[derive(Clone, Copy, Debug, PartialEq, Eq)]
struct Cases {
    before: u32,
    torn: u32,
    after: u32,
}

impl Cases {
    /// One more; None where what stood is none of the three.
    fn add(self, stands: Case) -> Option<Cases> {
        let Cases {
            before,
            torn,
            after,
        } = self;
        match stands {
            Case::Before => Some(Cases {
                before: before.checked_add(1)?,
                ..self
            }),
            Case::Torn => Some(Cases {
                torn: torn.checked_add(1)?,
                ..self
            }),
            Case::After => Some(Cases {
                after: after.checked_add(1)?,
                ..self
            }),
            Case::Else => None,
        }
    }
}

/// Kills a call at each of its events, or of its stores. None where none of the three cases stood, where one came behind
/// a later one, or where the call that didn't die ended in another way than is expected.
fn cases_of(
    alloc: Global,
    step: Step<'_>,
    expected: Result<Done, Stop>,
    each: Each,
) -> Result<Option<Cases>, Fail> {
    let before = close(alloc, two_tiers(alloc)?)?;
    let after = killed(alloc, step, KillFuse::Never)?;
    let mut last = Case::Before;
    let mut cases = Cases {
        before: 0,
        torn: 0,
        after: 0,
    };
    for left in 0..MOST {
        let found = killed(alloc, step, fuse_of(each, left))?;
        if found.ended != Some(Err(Stop::Died)) {
            let right = found.ended == Some(expected)
                && !found.dead
                && are_same(&found.words, &after.words);
            return Ok(if right { Some(cases) } else { None });
        }
        let stands = stands(&found.words, &before, &after.words);
        if stands < last || !found.dead {
            return Ok(None);
        }
        last = stands;
        match cases.add(stands) {
            Some(more) => cases = more,
            None => return Ok(None),
        }
    }
    Ok(None)
}

/// Whether all words are the same.
fn are_same(one: &Words, other: &Words) -> bool {
    (0..one.geo().total_words()).all(|at| word(one, at) == word(other, at))
}

/// Calls over the three keys, what they answer, and how many stores the change has.
fn rows<'a>() -> [(Step<'a>, u64, Answer, u32); 16] {
    [
        (Step::Get(b"a"), 3, Answer::Value(1), 0),
        (Step::Get(b"d"), 3, Answer::Missing, 0),
        (Step::Count(0), 3, Answer::Count(3), 0),
        (Step::PutIfAbsent(b"c", b"4"), 3, Answer::Kept(1), 0),
        (Step::ReplaceIf(b"a", b"2", b"4"), 3, Answer::Differs, 0),
        (Step::Replace(b"d", b"4"), 3, Answer::Missing, 0),
        (Step::RemoveIf(b"a", b"2"), 3, Answer::Differs, 0),
        (Step::Remove(b"d"), 3, Answer::Missing, 0),
        (Step::Put(b"d", b"4"), 4, Answer::New, 10),
        (Step::PutIfAbsent(b"d", b"4"), 4, Answer::New, 10),
        (Step::Put(b"a", b"4"), 4, Answer::Replaced, 4),
        (Step::Replace(b"c", b"4"), 4, Answer::Replaced, 4),
        (Step::ReplaceIf(b"a", b"1", b"4"), 4, Answer::Replaced, 4),
        (Step::Remove(b"c"), 4, Answer::Removed, 6),
        (Step::RemoveIf(b"a", b"1"), 4, Answer::Removed, 6),
        // the two numbers, the bit word, four words of the entry and its checksum, the slot, the empty slot of the shift,
        // the old bit word, and the counts of both tiers
        (Step::Put(b"a", LONG), 4, Answer::Replaced, 13),
    ]
}

#[test]
fn a_call_that_dies_leaves_one_of_three_cases(rt: HostRuntime) -> Result<(), Fail> {
    for (step, number, answer, stores) in rows() {
        let expected = row(step, number, answer).ended;
        let Some(by_event) = cases_of(rt.alloc(), step, expected, Each::Event)? else {
            assert!(rt; false, "{step:?}");
            return Ok(());
        };
        // a change is torn behind each of its stores but the last one, and lacks its release alone behind that
        assert!(rt; by_event.before > 2, "{step:?}");
        assert!(rt; by_event.torn >= stores.saturating_sub(1), "{step:?}");
        assert_eq!(rt; by_event.after, u32::from(stores > 0), "{step:?}");
        let by_store = cases_of(rt.alloc(), step, expected, Each::Store)?;
        let torn = Cases {
            before: u32::from(stores > 0),
            torn: stores.saturating_sub(1),
            after: 0,
        };
        assert_eq!(rt; by_store, Some(torn), "{step:?}");
    }
    Ok(())
}

/// How a put of the other segment ended behind one that died after so many events, whether the one that died changed
/// its segment, and whether it died.
#[derive(Clone, Copy, Debug, PartialEq, Eq)]
struct Beside {
    ended: Option<Result<Done, Stop>>,
    number: Option<u64>,
    died: bool,
}

/// Two full segments, of which one wants the only further tier and dies, and then the other one.
fn beside_dead(alloc: Global, left: u32) -> Result<Beside, Fail> {
    let mut trial = start(alloc, &Geo::new(2, 2, 64, 4, 1)?)?;
    let value = [b'v'; 2024];
    let mut first = split(alloc, &mut trial, Never)?;
    let mut out = [0; 4096];
    call(
        &trial.store,
        &mut first,
        Step::Put(b"a", &value),
        &mut out,
        1,
    );
    call(
        &trial.store,
        &mut first,
        Step::Put(b"b", &value),
        &mut out,
        1,
    );
    let Never = join(&mut trial, first)?;
    let mut second = split(alloc, &mut trial, KillFuse::Events { left })?;
    let ended = call(
        &trial.store,
        &mut second,
        Step::Put(b"c", b"1"),
        &mut out,
        1,
    );
    join(&mut trial, second)?;
    let mut third = split(alloc, &mut trial, Never)?;
    let beside = call(&trial.store, &mut third, Step::Put(b"d", b"1"), &mut out, 1);
    let Never = join(&mut trial, third)?;
    let words = close(alloc, trial)?;
    Ok(Beside {
        ended: beside,
        number: word(&words, 1),
        died: ended == Some(Err(Stop::Died)),
    })
}

#[test]
fn a_claim_of_a_dead_call_stays_taken(rt: HostRuntime) -> Result<(), Fail> {
    let done = |number, answer| {
        Some(Ok(Done {
            spot: Spot { segment: 1, number },
            answer,
        }))
    };
    let mut free = 0u32;
    let mut taken = 0u32;
    for left in 0..MOST {
        let found = beside_dead(rt.alloc(), left)?;
        if !found.died {
            assert_eq!(rt;
                (found.ended, found.number),
                (done(1, Answer::FullSpent), Some(4))
            );
            break;
        }
        if found.ended == done(2, Answer::New) {
            free = free.saturating_add(1);
            assert_eq!(rt; (taken, found.number), (0, Some(2)));
        } else {
            assert_eq!(rt; found.ended, done(1, Answer::FullSpent), "{left}");
            taken = taken.saturating_add(u32::from(found.number == Some(2)));
        }
    }
    // the number is loaded behind the claim, or stored at once: the claim was given, and the segment is as before
    assert!(rt; free > 2);
    assert!(rt; taken > 0);
    Ok(())
}

/// Which call of a sweep died, if one did.
#[derive(Clone, Copy, Debug, PartialEq, Eq, PartialOrd, Ord)]
enum Dying {
    Opening,
    Step,
    Closing,
    Nothing,
}

/// The opening of a sweep of the key a, one step and the closing, under a fuse: which one died, and the words then.
fn killed_sweep(alloc: Global, fuse: KillFuse) -> Result<(Dying, Words), Fail> {
    let mut trial = two_tiers(alloc)?;
    let mut pass = split(alloc, &mut trial, fuse)?;
    let mut dying = Dying::Nothing;
    let _opened = sweep_open(&trial.store, &mut pass, 0, b"a", 3);
    if pass.is_dead() {
        dying = Dying::Opening;
    }
    let _stepped = sweep_step(&trial.store, &mut pass, &mut [0; 256], 3);
    if pass.is_dead() && dying == Dying::Nothing {
        dying = Dying::Step;
    }
    let _closed = sweep_close(&trial.store, &mut pass);
    if pass.is_dead() && dying == Dying::Nothing {
        dying = Dying::Closing;
    }
    join(&mut trial, pass)?;
    Ok((dying, close(alloc, trial)?))
}

/// What stands after a sweep in which this call died. The closing changes nothing, and Update is still held.
fn stands_in_sweep(dying: Dying, words: &Words, before: &Words, after: &Words) -> Case {
    let is_after = (1..words.geo().total_words()).all(|at| word(words, at) == word(after, at));
    match dying {
        Dying::Opening | Dying::Step => stands(words, before, after),
        Dying::Closing if is_after && word(words, 0) == Some(UPDATE) => Case::Before,
        Dying::Nothing if is_after && word(words, 0) == Some(0) => Case::Before,
        Dying::Closing | Dying::Nothing => Case::Else,
    }
}

/// Kills a sweep at each of its events, or of its stores: how often its step left each of the three cases. None where
/// none of them stood, or where one came behind a later one.
fn cases_of_sweep(alloc: Global, each: Each) -> Result<Option<Cases>, Fail> {
    let before = close(alloc, two_tiers(alloc)?)?;
    let (_, after) = killed_sweep(alloc, KillFuse::Never)?;
    let mut last = (Dying::Opening, Case::Before);
    let mut cases = Cases {
        before: 0,
        torn: 0,
        after: 0,
    };
    for left in 0..MOST {
        let (dying, words) = killed_sweep(alloc, fuse_of(each, left))?;
        let stands = stands_in_sweep(dying, &words, &before, &after);
        if stands == Case::Else || (dying, stands) < last {
            return Ok(None);
        }
        last = (dying, stands);
        match dying {
            Dying::Step => match cases.add(stands) {
                Some(more) => cases = more,
                None => return Ok(None),
            },
            Dying::Nothing => return Ok(Some(cases)),
            Dying::Opening | Dying::Closing => {}
        }
    }
    Ok(None)
}

// The removal of a has six stores: the two numbers, its slot, the bit word, and the counts of the tier and the segment.
#[test]
fn a_sweep_that_dies_leaves_one_of_three_cases(rt: HostRuntime) -> Result<(), Fail> {
    let by_store = cases_of_sweep(rt.alloc(), Each::Store)?;
    let expected = Cases {
        before: 1,
        torn: 5,
        after: 0,
    };
    assert_eq!(rt; by_store, Some(expected));
    let Some(by_event) = cases_of_sweep(rt.alloc(), Each::Event)? else {
        return Err(Fail::new("another case stood"));
    };
    assert!(rt; by_event.before > 2);
    assert!(rt; by_event.torn >= 5);
    assert_eq!(rt; by_event.after, 1);
    Ok(())
}
