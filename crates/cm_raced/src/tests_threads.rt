//! Passes that call beside each other, on threads.

ghost use Rattle.std.specs.Prelude.{◌≡◌};
ghost use Rattle.cm_trial.specs.Trials.{IsPlayer};

use cm_geo::Geo;
use cm_store::{Answer, Pass, Store};
use cm_trial::{Step, call, close, first_other, join, split, start, valued, word};
use cm_words::Never;
use std::test::Fail;
use std::thread;
use std::thread::Threads;

/// The tries of a take: more than two threads need.
const TRIES: u32 = 100_000_000;

/// A number below 200 in decimal digits, and how many these are.
fn digits(number: u32) -> ([u8; 3], usize) {
    let low = b'0' + (number % 10) as u8;
    let middle = b'0' + (number / 10 % 10) as u8;
    let high = b'0' + (number / 100 % 10) as u8;
    match number {
        0..=9 => ([low, 0, 0], 1),
        10..=99 => ([middle, low, 0], 2),
        _ => ([high, middle, low], 3),
    }
}

/// The digits of a number.
fn value_of<'a>(digits: &'a ([u8; 3], usize)) -> &'a [u8] {
    digits.0.get(..digits.1).unwrap_or(&[])
}

/// A pass after its puts: the number of each, and whether each rose above the one before it and told rightly whether
/// the key was new.
#[derive(Drop)]
struct Putter {
    pass: Pass<Never>,
    numbers: [u64; 100],
    right: bool,
}

/// Puts one key 100 times, with values from one on.
fn put_each(store: &Store, mut pass: Pass<Never>, from: u32) -> Putter
    requires { IsPlayer store.now pass }
    ensures { IsPlayer store.now result.pass }
{
    let mut numbers = [0; 100];
    let mut right = true;
    let mut last = 0;
    let mut out = [0; 4096];
    for at in 0..100u32 {
        let text = digits(from.wrapping_add(at));
        let put = Step::Put(b"k", value_of(&text));
        let Some(Ok(done)) = call(store, &mut pass, put, &mut out, TRIES) else {
            right = false;
            continue;
        };
        let expected = if done.spot.number == 1 {
            Answer::New
        } else {
            Answer::Replaced
        };
        right = right && done.answer == expected && done.spot.number > last;
        last = done.spot.number;
        numbers[at as usize] = last;
    }
    Putter {
        pass,
        numbers,
        right,
    }
}

/// Two passes put one key beside each other.
fn put_by_two<R: Threads>(
    rt: &R,
    store: &Store,
    first: Pass<Never>,
    second: Pass<Never>,
) -> (Putter, Putter)
    requires players { IsPlayer store.now first × IsPlayer store.now second }
    ensures players { IsPlayer store.now result.0.pass × IsPlayer store.now result.1.pass }
{
    thread::join(
        rt,
        || -> Putter
            requires { IsPlayer store.now first }
            ensures { IsPlayer store.entry.now result.pass }
        { put_each(store, first, 0) },
        || -> Putter
            requires { IsPlayer store.now second }
            ensures { IsPlayer store.entry.now result.pass }
        { put_each(store, second, 100) },
    )
}

/// The value of the put that has the last of 200 numbers; None where a number from 1 on is missing.
fn last_of(first: &[u64; 100], second: &[u64; 100]) -> Option<u32> {
    let mut values = [None; 201];
    for at in 0..100u32 {
        let one = first.get(at as usize).copied()?;
        let two = second.get(at as usize).copied()?;
        *values.get_mut(usize::try_from(one).ok()?)? = Some(at);
        *values.get_mut(usize::try_from(two).ok()?)? = Some(at + 100);
    }
    if values.iter().skip(1).any(|value| value.is_none()) {
        return None;
    }
    values.last().copied()?
}

#[test]
fn puts_of_two_threads_are_numbered_once(rt: HostRuntime) -> Result<(), Fail> {
    let mut trial = start(rt.alloc(), &Geo::new(1, 1, 64, 4, 0)?)?;
    let first = split(rt.alloc(), &mut trial, Never)?;
    let second = split(rt.alloc(), &mut trial, Never)?;
    let (first, second) = put_by_two(&rt, &trial.store, first, second);
    assert!(rt; first.right);
    assert!(rt; second.right);
    let Some(last) = last_of(&first.numbers, &second.numbers) else {
        assert!(rt; false, "a number is missing");
        return Ok(());
    };
    let Never = join(&mut trial, first.pass)?;
    let Never = join(&mut trial, second.pass)?;
    let mut third = split(rt.alloc(), &mut trial, Never)?;
    let text = digits(last);
    let value = value_of(&text);
    let len = u32::try_from(value.len())?;
    let get = valued(Step::Get(b"k"), 200, Answer::Value(len), value);
    assert_eq!(rt; first_other(&trial.store, &mut third, &[get], 1), None);
    let Never = join(&mut trial, third)?;
    let words = close(rt.alloc(), trial)?;
    assert_eq!(rt;
        [0, 1, 2].map(|at| word(&words, at)),
        [Some(0), Some(400), Some(1)]
    );
    Ok(())
}
