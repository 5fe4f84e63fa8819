//! Eight callers on threads, each with orders of its own.

ghost use Rattle.std.specs.Prelude.{◌≡◌, IfOk, OnOk};
ghost use Rattle.cm_trial.specs.Trials.{IsPlayer, IsTrialOf};

use cm_geo::Geo;
use cm_store::{Answer, Pass, Store};
use cm_trial::{Step, Trial, call, close, join, split, start, word};
use cm_words::{Never, Words};
use std::alloc::Global;
use std::test::Fail;
use std::thread;
use std::thread::Threads;

/// The tries of a take: more than eight threads need.
const TRIES: u32 = 100_000_000;

/// The orders of one caller.
const ORDERS: u32 = 500;

const PRICE: &[u8] = b"EURUSD:250000:1.0842";

/// The key of an order: its number is that of the caller's first one, and the order's behind it.
fn key_of(caller: u32, order: u32) -> [u8; 9] {
    let number = 10_001 + caller % 64 * 1000 + order % 1000;
    let last = b'0' + (number % 10) as u8;
    let fourth = b'0' + (number / 10 % 10) as u8;
    let third = b'0' + (number / 100 % 10) as u8;
    let second = b'0' + (number / 1000 % 10) as u8;
    let first = b'0' + (number / 10_000 % 10) as u8;
    [b'O', b'R', b'D', b'-', first, second, third, fourth, last]
}

/// A pass after its records: whether each was answered as its script alone tells, and which orders are there.
#[derive(Drop)]
struct Trader {
    pass: Pass<Never>,
    right: bool,
    present: [bool; 500],
}

/// The record of a number, what it answers where the order is there or isn't, and whether it is there then.
fn record_of(key: &[u8; 9], number: u32, there: bool) -> (Step<'_>, Answer, bool) {
    match (number % 4 + number / ORDERS % 4) % 4 {
        0 | 1 if there => (Step::Put(key, PRICE), Answer::Replaced, true),
        0 | 1 => (Step::Put(key, PRICE), Answer::New, true),
        2 if there => (Step::Get(key), Answer::Value(20), true),
        2 => (Step::Get(key), Answer::Missing, false),
        _ if there => (Step::Remove(key), Answer::Removed, false),
        _ => (Step::Remove(key), Answer::Missing, false),
    }
}

/// Does the 2000 records of a caller.
fn trade(store: &Store, mut pass: Pass<Never>) -> Trader
    requires { IsPlayer store.now pass }
    ensures { IsPlayer store.now result.pass }
{
    let caller = pass.number();
    let mut right = true;
    let mut present = [false; 500];
    let mut out = [0; 4096];
    for number in 0..2000u32 {
        let order = number % ORDERS;
        let key = key_of(caller, order);
        let (step, expected, there) = record_of(&key, number, present[order as usize]);
        let ended = call(store, &mut pass, step, &mut out, TRIES);
        right = right && ended.is_some_and(|ended| ended.is_ok_and(|done| done.answer == expected));
        present[order as usize] = there;
    }
    Trader {
        pass,
        right,
        present,
    }
}

/// Two callers beside each other.
fn trade_by_two<R: Threads>(
    rt: &R,
    store: &Store,
    passes: (Pass<Never>, Pass<Never>),
) -> (Trader, Trader)
    requires players { IsPlayer store.now passes.0 × IsPlayer store.now passes.1 }
    ensures players { IsPlayer store.now result.0.pass × IsPlayer store.now result.1.pass }
{
    let (first, second) = passes;
    thread::join(
        rt,
        || -> Trader
            requires { IsPlayer store.now first }
            ensures { IsPlayer store.entry.now result.pass }
        { trade(store, first) },
        || -> Trader
            requires { IsPlayer store.now second }
            ensures { IsPlayer store.entry.now result.pass }
        { trade(store, second) },
    )
}

/// Four callers beside each other.
fn trade_by_four<R: Threads + Sync>(
    rt: &R,
    store: &Store,
    passes: ((Pass<Never>, Pass<Never>), (Pass<Never>, Pass<Never>)),
) -> ((Trader, Trader), (Trader, Trader))
    requires first { IsPlayer store.now passes.0.0 × IsPlayer store.now passes.0.1 }
    requires second { IsPlayer store.now passes.1.0 × IsPlayer store.now passes.1.1 }
    ensures first { IsPlayer store.now result.0.0.pass × IsPlayer store.now result.0.1.pass }
    ensures second { IsPlayer store.now result.1.0.pass × IsPlayer store.now result.1.1.pass }
{
    let (first, second) = passes;
    thread::join(
        rt,
        || -> (Trader, Trader)
            requires { IsPlayer store.now first.0 × IsPlayer store.now first.1 }
            ensures { IsPlayer store.entry.now result.0.pass × IsPlayer store.entry.now result.1.pass }
        { trade_by_two(rt, store, first) },
        || -> (Trader, Trader)
            requires { IsPlayer store.now second.0 × IsPlayer store.now second.1 }
            ensures { IsPlayer store.entry.now result.0.pass × IsPlayer store.entry.now result.1.pass }
        { trade_by_two(rt, store, second) },
    )
}

/// Eight callers beside each other.
fn trade_by_eight<R: Threads + Sync>(
    rt: &R,
    store: &Store,
    first: ((Pass<Never>, Pass<Never>), (Pass<Never>, Pass<Never>)),
    second: ((Pass<Never>, Pass<Never>), (Pass<Never>, Pass<Never>)),
) -> (
    ((Trader, Trader), (Trader, Trader)),
    ((Trader, Trader), (Trader, Trader)),
)
    requires first { IsPlayer store.now first.0.0 × IsPlayer store.now first.0.1 × IsPlayer store.now first.1.0 × IsPlayer store.now first.1.1 }
    requires second { IsPlayer store.now second.0.0 × IsPlayer store.now second.0.1 × IsPlayer store.now second.1.0 × IsPlayer store.now second.1.1 }
    ensures first { IsPlayer store.now result.0.0.0.pass × IsPlayer store.now result.0.0.1.pass × IsPlayer store.now result.0.1.0.pass × IsPlayer store.now result.0.1.1.pass }
    ensures second { IsPlayer store.now result.1.0.0.pass × IsPlayer store.now result.1.0.1.pass × IsPlayer store.now result.1.1.0.pass × IsPlayer store.now result.1.1.1.pass }
{
    thread::join(
        rt,
        || -> ((Trader, Trader), (Trader, Trader))
            requires { IsPlayer store.now first.0.0 × IsPlayer store.now first.0.1 × IsPlayer store.now first.1.0 × IsPlayer store.now first.1.1 }
            ensures { IsPlayer store.entry.now result.0.0.pass × IsPlayer store.entry.now result.0.1.pass × IsPlayer store.entry.now result.1.0.pass × IsPlayer store.entry.now result.1.1.pass }
        { trade_by_four(rt, store, first) },
        || -> ((Trader, Trader), (Trader, Trader))
            requires { IsPlayer store.now second.0.0 × IsPlayer store.now second.0.1 × IsPlayer store.now second.1.0 × IsPlayer store.now second.1.1 }
            ensures { IsPlayer store.entry.now result.0.0.pass × IsPlayer store.entry.now result.0.1.pass × IsPlayer store.entry.now result.1.0.pass × IsPlayer store.entry.now result.1.1.pass }
        { trade_by_four(rt, store, second) },
    )
}

/// Joins a caller's pass: how many of its orders are there; None where an answer was another one.
fn take_back(trial: &mut Trial, trader: Trader) -> Result<Option<u64>, Fail>
    requires trial { IsTrialOf trial.old.store trial.old.root trial.old.made trial.old.back }
    requires player { IsPlayer trial.old.store trader.pass }
    ensures trial { OnOk result (IsTrialOf trial.new.store trial.new.root trial.new.made trial.new.back) }
    ensures store { trial.new.store ≡ trial.old.store }
{
    let Trader {
        pass,
        right,
        present,
    } = trader;
    let Never = join(trial, pass)?;
    let there = present.iter().filter(|there| **there).count() as u64;
    Ok(if right { Some(there) } else { None })
}

/// The passes of the next four numbers.
fn split_four(
    alloc: Global,
    trial: &mut Trial,
) -> Result<((Pass<Never>, Pass<Never>), (Pass<Never>, Pass<Never>)), Fail>
    requires trial { IsTrialOf trial.old.store trial.old.root trial.old.made trial.old.back }
    ensures trial { OnOk result (IsTrialOf trial.new.store trial.new.root trial.new.made trial.new.back) }
    ensures store { trial.new.store ≡ trial.old.store }
    ensures first { IfOk result (λ passes. IsPlayer trial.new.store passes.0.0 × IsPlayer trial.new.store passes.0.1) }
    ensures second { IfOk result (λ passes. IsPlayer trial.new.store passes.1.0 × IsPlayer trial.new.store passes.1.1) }
{
    let zero = split(alloc, trial, Never)?;
    let one = split(alloc, trial, Never)?;
    let two = split(alloc, trial, Never)?;
    let three = split(alloc, trial, Never)?;
    Ok(((zero, one), (two, three)))
}

/// Joins the passes of four callers.
fn take_four(
    trial: &mut Trial,
    traders: ((Trader, Trader), (Trader, Trader)),
) -> Result<[Option<u64>; 4], Fail>
    requires trial { IsTrialOf trial.old.store trial.old.root trial.old.made trial.old.back }
    requires first { IsPlayer trial.old.store traders.0.0.pass × IsPlayer trial.old.store traders.0.1.pass }
    requires second { IsPlayer trial.old.store traders.1.0.pass × IsPlayer trial.old.store traders.1.1.pass }
    ensures trial { OnOk result (IsTrialOf trial.new.store trial.new.root trial.new.made trial.new.back) }
    ensures store { trial.new.store ≡ trial.old.store }
{
    let ((zero, one), (two, three)) = traders;
    Ok([
        take_back(trial, zero)?,
        take_back(trial, one)?,
        take_back(trial, two)?,
        take_back(trial, three)?,
    ])
}

/// The lock words and the entries of the segments, each added up.
fn sums_of(words: &Words) -> (u64, u64) {
    let len = words.geo().segment_words();
    let mut locks = 0u64;
    let mut entries = 0u64;
    for segment in 0..words.geo().segments() {
        let at = segment.wrapping_mul(len);
        locks = locks.wrapping_add(word(words, at).unwrap_or(1));
        entries = entries.wrapping_add(word(words, at.wrapping_add(2)).unwrap_or(0));
    }
    (locks, entries)
}

#[test]
fn callers_of_orders_are_answered_as_if_alone(rt: HostRuntime) -> Result<(), Fail> {
    let mut trial = start(rt.alloc(), &Geo::new(16, 4, 1024, 8, 48)?)?;
    let first = split_four(rt.alloc(), &mut trial)?;
    let second = split_four(rt.alloc(), &mut trial)?;
    let (first, second) = trade_by_eight(&rt, &trial.store, first, second);
    // of each four orders in a row the last record of one is a removal
    assert_eq!(rt; take_four(&mut trial, first)?, [Some(375); 4]);
    assert_eq!(rt; take_four(&mut trial, second)?, [Some(375); 4]);
    let words = close(rt.alloc(), trial)?;
    assert_eq!(rt; sums_of(&words), (0, 3000));
    Ok(())
}
