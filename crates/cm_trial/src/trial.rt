//! Trials of a store: passes that make and join in the order of their numbers, and calls within the limits.

ghost use Rattle.std.specs.Prelude.{◌≡◌, ◌≤◌, ◌<◌, ◌↔◌, false, IfOk, IsTrue, OnOk, length};
ghost use Rattle.cm_geo.specs.Need.{Fits};
ghost use Rattle.cm_plain.specs.Limits.{IsKey, IsValue};
ghost use Rattle.cm_words.specs.LawfulMaps.{IsLawfulMap};
ghost use Rattle.cm_store.specs.Passes.{IsResting};
ghost use Rattle.cm_store.specs.Sweeps.{MayStep};
ghost use Rattle.cm_trial.specs.Trials.{IsPlayer, IsTrialOf};

use cm_geo::Geo;
use cm_store::{Answer, Done, ListStop, Listed, Pass, Spot, Stop, Store, empty_words_are_lawful};
use cm_words::{Dead, Fuse, KillFuse, Never, Words};
use std::alloc::Global;
use std::test::Fail;

/// A store, and its root, which made the passes of the numbers below `made` and joined those below `back`.
#[derive(Drop)]
pub struct Trial {
    pub store: Store,
    pub root: Pass<Never>,
    pub made: u32,
    pub back: u32,
}

/// A trial over these words.
pub fn start_over(alloc: Global, words: Words) -> Result<Trial, Fail>
    requires { IsLawfulMap words }
    ensures trial { IfOk result (λ trial. IsTrialOf trial.store trial.root trial.made trial.back) }
{
    let (store, root) = Store::start(alloc, words)?;
    Ok(Trial {
        store,
        root,
        made: 0,
        back: 0,
    })
}

/// A trial over empty words.
pub fn start(alloc: Global, geo: &Geo) -> Result<Trial, Fail>
    ensures trial { IfOk result (λ trial. IsTrialOf trial.store trial.root trial.made trial.back) }
{
    empty_words_are_lawful();
    start_over(alloc, Words::empty(alloc, geo)?)
}

/// Empty words of one segment, behind so many changes.
pub fn numbered(alloc: Global, geo: &Geo, number: u64) -> Result<Words, Fail>
    ensures { IfOk result IsLawfulMap }
{
    if geo.segments() != 1 || geo.total_words() < 2 || number > 1 << 62 {
        return Err(Fail::new("no such words"));
    }
    let mut words = Words::empty(alloc, geo)?;
    words.set(1, 2 * number);
    Ok(words)
}

/// The pass of the next number.
pub fn split<F: Fuse>(alloc: Global, trial: &mut Trial, fuse: F) -> Result<Pass<F>, Fail>
    requires trial { IsTrialOf trial.old.store trial.old.root trial.old.made trial.old.back }
    ensures trial { OnOk result (IsTrialOf trial.new.store trial.new.root trial.new.made trial.new.back) }
    ensures store { trial.new.store ≡ trial.old.store }
    ensures pass { IfOk result (IsPlayer trial.new.store) }
{
    if trial.made >= 63 {
        return Err(Fail::new("no number is left"));
    }
    let pass = trial.store.split(alloc, &mut trial.root, trial.made, fuse)?;
    trial.made += 1;
    Ok(pass)
}

/// Takes back the pass of the least number that is out.
pub fn join<F: Fuse>(trial: &mut Trial, pass: Pass<F>) -> Result<F, Fail>
    requires trial { IsTrialOf trial.old.store trial.old.root trial.old.made trial.old.back }
    requires pass { IsPlayer trial.old.store pass }
    ensures trial { OnOk result (IsTrialOf trial.new.store trial.new.root trial.new.made trial.new.back) }
    ensures store { trial.new.store ≡ trial.old.store }
{
    if pass.number() != trial.back {
        return Err(Fail::new("another pass is the next one"));
    }
    if trial.back >= 64 {
        return Err(Fail::new("no such pass"));
    }
    if !pass.is_dead() && pass.in_sweep() {
        return Err(Fail::new("it is in a sweep"));
    }
    let fuse = trial.store.join(&mut trial.root, pass);
    trial.back += 1;
    Ok(fuse)
}

/// The words at the end.
pub fn close(alloc: Global, trial: Trial) -> Result<Words, Fail>
    requires { IsTrialOf trial.store trial.root trial.made trial.back }
{
    let Trial {
        store,
        root,
        made,
        back,
    } = trial;
    if made != back {
        return Err(Fail::new("a pass is out"));
    }
    Ok(store.close(alloc, root)?)
}

/// A call.
#[derive(Clone, Copy, Debug)]
pub enum Step<'a> {
    Get(&'a [u8]),
    Put(&'a [u8], &'a [u8]),
    PutIfAbsent(&'a [u8], &'a [u8]),
    Replace(&'a [u8], &'a [u8]),
    ReplaceIf(&'a [u8], &'a [u8], &'a [u8]),
    Remove(&'a [u8]),
    RemoveIf(&'a [u8], &'a [u8]),
    Count(u32),
}

/// Whether a key is one.
fn is_key(key: &[u8]) -> bool
    ensures { IsTrue result ↔ IsKey key.now }
{
    !key.is_empty() && key.len() <= 256
}

/// Whether an expected value may be one.
fn is_value(value: &[u8]) -> bool
    ensures { IsTrue result ↔ IsValue value.now }
{
    value.len() <= 4096
}

/// Whether a key and a value fit.
fn fits(geo: &Geo, key: &[u8], value: &[u8]) -> bool
    ensures { IsTrue result → Fits geo.now (length key.now) (length value.now) }
{
    is_key(key) && is_value(value) && geo.fits(key.len() as u32, value.len() as u32)
}

/// A call that wants a key and a value; None where it isn't one, or where it doesn't keep the limits.
fn write_value<F: Fuse>(
    store: &Store,
    pass: &mut Pass<F>,
    step: Step<'_>,
    out: &mut [u8; 4096],
    tries: u32,
) -> Option<Result<Done, Stop>>
    requires pass { IsPlayer store.now pass.old }
    requires resting { IsResting pass.old }
    requires nonzero { 1 ≤ tries }
    ensures pass { IsPlayer store.now pass.new }
{
    match step {
        Step::Put(key, value) if fits(store.geo(), key, value) => {
            Some(store.put(pass, key, value, tries))
        }
        Step::PutIfAbsent(key, value) if fits(store.geo(), key, value) => {
            Some(store.put_if_absent(pass, key, value, out, tries))
        }
        Step::Replace(key, value) if fits(store.geo(), key, value) => {
            Some(store.replace(pass, key, value, tries))
        }
        Step::ReplaceIf(key, expected, value)
            if fits(store.geo(), key, value) && is_value(expected) => {
            Some(store.replace_if(pass, key, expected, value, tries))
        }
        _ => None,
    }
}

/// Another call; None where it isn't one, or where it doesn't keep the limits.
fn ask_or_remove<F: Fuse>(
    store: &Store,
    pass: &mut Pass<F>,
    step: Step<'_>,
    out: &mut [u8; 4096],
    tries: u32,
) -> Option<Result<Done, Stop>>
    requires pass { IsPlayer store.now pass.old }
    requires resting { IsResting pass.old }
    requires nonzero { 1 ≤ tries }
    ensures pass { IsPlayer store.now pass.new }
{
    match step {
        Step::Get(key) if is_key(key) => Some(store.get_into(pass, key, out, tries)),
        Step::Remove(key) if is_key(key) => Some(store.remove(pass, key, tries)),
        Step::RemoveIf(key, expected) if is_key(key) && is_value(expected) => {
            Some(store.remove_if(pass, key, expected, tries))
        }
        Step::Count(segment) if segment < store.geo().segments() => {
            Some(store.count(pass, segment, tries))
        }
        _ => None,
    }
}

/// Whether a pass lives, and is in no sweep.
fn may_call<F: Fuse>(store: &Store, pass: &Pass<F>) -> bool
    requires pass { IsPlayer store.now pass.now }
    ensures { IsTrue result → IsResting pass.now }
{
    !pass.is_dead() && !pass.in_sweep()
}

/// Whether a pass lives, and is in a sweep.
fn may_step<F: Fuse>(store: &Store, pass: &Pass<F>) -> bool
    requires pass { IsPlayer store.now pass.now }
    ensures { IsTrue result → MayStep store.now pass.now }
{
    !pass.is_dead() && pass.in_sweep()
}

/// A call of a live pass in no sweep, with so many tries; None where it isn't one, where there are no tries, or where
/// the call doesn't keep the limits.
pub fn call<F: Fuse>(
    store: &Store,
    pass: &mut Pass<F>,
    step: Step<'_>,
    out: &mut [u8; 4096],
    tries: u32,
) -> Option<Result<Done, Stop>>
    requires pass { IsPlayer store.now pass.old }
    ensures pass { IsPlayer store.now pass.new }
{
    if !may_call(store, pass) || tries == 0 {
        return None;
    }
    match step {
        Step::Put(..) | Step::PutIfAbsent(..) | Step::Replace(..) | Step::ReplaceIf(..) => {
            write_value(store, pass, step, out, tries)
        }
        Step::Get(_) | Step::Remove(_) | Step::RemoveIf(..) | Step::Count(_) => {
            ask_or_remove(store, pass, step, out, tries)
        }
    }
}

/// A listing of the first segment by a live pass in no sweep, with so many tries; None where it isn't one, or where there
/// are no tries.
pub fn list<F: Fuse>(
    alloc: Global,
    store: &Store,
    pass: &mut Pass<F>,
    tries: u32,
) -> Option<Result<Listed, ListStop>>
    requires pass { IsPlayer store.now pass.old }
    ensures pass { IsPlayer store.now pass.new }
{
    if !may_call(store, pass) || tries == 0 || store.geo().segments() == 0 {
        return None;
    }
    Some(store.list(alloc, pass, 0, tries))
}

/// Opens a sweep by a live pass in none; None where it isn't one, where there are no tries, or where the segment and the
/// prefix don't keep the limits.
pub fn sweep_open<F: Fuse>(
    store: &Store,
    pass: &mut Pass<F>,
    segment: u32,
    prefix: &[u8],
    tries: u32,
) -> Option<Result<(), Stop>>
    requires pass { IsPlayer store.now pass.old }
    ensures pass { IsPlayer store.now pass.new }
{
    if !may_call(store, pass)
        || tries == 0
        || segment >= store.geo().segments()
        || prefix.len() > 256
    {
        return None;
    }
    Some(store.sweep_open(pass, segment, prefix, tries))
}

/// A step of a live pass in a sweep, with so many tries; None where it isn't one, or where there are no tries.
pub fn sweep_step<F: Fuse>(
    store: &Store,
    pass: &mut Pass<F>,
    out: &mut [u8; 256],
    tries: u32,
) -> Option<Result<Done, Stop>>
    requires pass { IsPlayer store.now pass.old }
    ensures pass { IsPlayer store.now pass.new }
{
    if !may_step(store, pass) || tries == 0 {
        return None;
    }
    Some(store.sweep_step(pass, out, tries))
}

/// Closes the sweep of a live pass that is in one; None where it isn't one.
pub fn sweep_close<F: Fuse>(store: &Store, pass: &mut Pass<F>) -> Option<Result<(), Dead>>
    requires pass { IsPlayer store.now pass.old }
    ensures pass { IsPlayer store.now pass.new }
{
    if !may_step(store, pass) {
        return None;
    }
    Some(store.sweep_close(pass))
}

/// What a call is expected to answer, and the bytes of its value.
#[derive(Clone, Copy, Debug)]
pub struct Wanted<'a> {
    pub step: Step<'a>,
    pub ended: Result<Done, Stop>,
    pub bytes: &'a [u8],
}

/// A row of the first segment without a value.
pub fn row(step: Step<'_>, number: u64, answer: Answer) -> Wanted<'_> {
    valued(step, number, answer, &[])
}

/// A row of the first segment with a value.
pub fn valued<'a>(step: Step<'a>, number: u64, answer: Answer, bytes: &'a [u8]) -> Wanted<'a> {
    let spot = Spot { segment: 0, number };
    Wanted {
        step,
        ended: Ok(Done { spot, answer }),
        bytes,
    }
}

/// Another end of a call than was expected: the row, and how the call ended, if it could be made.
pub type Other = (usize, Option<Result<Done, Stop>>);

/// The bytes of a value that was answered.
fn bytes_of<'a>(ended: &Option<Result<Done, Stop>>, out: &'a [u8; 4096]) -> &'a [u8] {
    match ended {
        Some(
            Ok(
                Done {
                    spot: _,
                    answer: Answer::Kept(len) | Answer::Value(len),
                },
            ),
        ) => out.get(..*len as usize).unwrap_or(&[]),
        _ => &[],
    }
}

/// Makes these calls in order, each with so many tries: the first that ends in another way than is expected.
pub fn first_other<F: Fuse>(
    store: &Store,
    pass: &mut Pass<F>,
    rows: &[Wanted<'_>],
    tries: u32,
) -> Option<Other>
    requires pass { IsPlayer store.now pass.old }
    ensures pass { IsPlayer store.now pass.new }
{
    let mut out = [0; 4096];
    for (at, row) in rows.iter().enumerate() {
        let ended = call(store, pass, row.step, &mut out, tries);
        if ended != Some(row.ended) || bytes_of(&ended, &out) != row.bytes {
            return Some((at, ended));
        }
    }
    None
}

/// The word at an address of the map.
pub fn word(words: &Words, at: u32) -> Option<u64> {
    if at < words.geo().total_words() {
        Some(words.get(at))
    } else {
        None
    }
}

/// What a trial of one pass showed: the first call that ended in another way than was expected, and the words at the
/// end.
#[derive(Drop)]
pub struct Played {
    pub other: Option<Other>,
    pub words: Words,
}

/// These calls of one pass that never dies, over a trial.
pub fn play_over(alloc: Global, mut trial: Trial, rows: &[Wanted<'_>]) -> Result<Played, Fail>
    requires trial { IsTrialOf trial.store trial.root trial.made trial.back }
{
    let mut pass = split(alloc, &mut trial, Never)?;
    let other = first_other(&trial.store, &mut pass, rows, 3);
    let Never = join(&mut trial, pass)?;
    let words = close(alloc, trial)?;
    Ok(Played { other, words })
}

/// The same, over empty words.
pub fn play(alloc: Global, geo: &Geo, rows: &[Wanted<'_>]) -> Result<Played, Fail> {
    let trial = start(alloc, geo)?;
    play_over(alloc, trial, rows)
}

/// A key of three bytes, by a number below 100.
pub fn key_of(number: u8) -> [u8; 3] {
    [b'k', b'0' + number / 10 % 10, b'0' + number % 10]
}

/// Puts the value 1 for the first 64 of these keys: whether each was new, and had the next number.
pub fn fill<F: Fuse>(store: &Store, pass: &mut Pass<F>) -> bool
    requires pass { IsPlayer store.now pass.old }
    ensures pass { IsPlayer store.now pass.new }
{
    let mut out = [0; 4096];
    let mut right = true;
    for at in 0..64 {
        let key = key_of(at);
        let row = row(Step::Put(&key, b"1"), u64::from(at) + 1, Answer::New);
        right = right && call(store, pass, row.step, &mut out, 3) == Some(row.ended);
    }
    right
}

/// These calls of one pass that never dies, where the first tier is full of keys.
pub fn play_full(alloc: Global, geo: &Geo, rows: &[Wanted<'_>]) -> Result<Played, Fail> {
    let mut trial = start(alloc, geo)?;
    let mut pass = split(alloc, &mut trial, Never)?;
    if !fill(&trial.store, &mut pass) {
        return Err(Fail::new("a key was not new"));
    }
    let other = first_other(&trial.store, &mut pass, rows, 3);
    let Never = join(&mut trial, pass)?;
    let words = close(alloc, trial)?;
    Ok(Played { other, words })
}
