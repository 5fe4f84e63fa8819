//! Values worked out by hand, and callers that know of a memory what its trait says.

ghost use Rattle.std.specs.Prelude.{◌≡◌, ◌+◌, ◌<◌, None, OnOk, true, [], ◌∷◌};
ghost use Rattle.cm_geo.specs.Addresses.{words_in_segment};
ghost use Rattle.cm_plain.specs.Plans.{IsShort, plan_change};
ghost use Rattle.cm_words.specs.Meters.{ReportsDeath};
ghost use Rattle.cm_words.specs.Memory.{HasEvenNumber, IsPlanHere};
ghost use Rattle.cm_words.specs.Stores.{MayStoreAll, after_stores, store_at};
ghost use Rattle.cm_words.specs.Calls.{IsWritable, StoresAll};
ghost use Rattle.cm_words.specs.Maps.{rest_of, segment_in};
ghost use Rattle.cm_words_tests.specs.Trials.{AreCut, AreNew, KeepsTorn, StoresUnder, first_put};

use cm_geo::Geo;
use cm_plain::{Ask, Plan, PlanKind, Run};
use cm_words::{Admit, Dead, EventKind, FixedMem, Fuse, KillFuse, Mem, Never, PlainMem, Words};
use std::alloc::Global;
use std::process::Abort;
use std::test::Fail;

/// Loads a word, stores another one, and answers the word that was loaded.
fn load_then_store<M: Mem>(
    mem: &mut M,
    geo: &Geo,
    from: u32,
    at: u32,
    word: u64,
) -> Result<u64, Dead>
    requires writable { IsWritable (M.seen mem.old) geo.now }
    requires from { from < words_in_segment geo.now }
    requires inner { 1 < at }
    requires in_range { at < words_in_segment geo.now }
    requires allowed { MayStoreAll (M.seen mem.old) (store_at at word ∷ []) }
    ensures stores { StoresAll M.seen M.same_rest (store_at at word ∷ []) mem.old mem.new result }
    ensures events { OnOk result ((M.seen mem.new).meter.events ≡ (M.seen mem.old).meter.events + 2) }
{
    let found = mem.load(from)?;
    mem.store(at, word)?;
    Ok(found)
}

/// Two loads and two stores, by two calls over the memory.
fn store_two<M: Mem>(
    mem: &mut M,
    geo: &Geo,
    first: u32,
    one: u64,
    second: u32,
    other: u64,
) -> Result<(), Dead>
    requires writable { IsWritable (M.seen mem.old) geo.now }
    requires first { 1 < first }
    requires first_in { first < words_in_segment geo.now }
    requires second { 1 < second }
    requires second_in { second < words_in_segment geo.now }
    requires allowed { MayStoreAll (M.seen mem.old) (store_at first one ∷ store_at second other ∷ []) }
    ensures stores { StoresAll M.seen M.same_rest (store_at first one ∷ store_at second other ∷ []) mem.old mem.new result }
    ensures events { OnOk result ((M.seen mem.new).meter.events ≡ (M.seen mem.old).meter.events + 4) }
{
    load_then_store(mem, geo, second, first, one)?;
    load_then_store(mem, geo, first, second, other)?;
    Ok(())
}

/// Begins a change, and makes two loads and two stores under it.
fn begin_and_store<M: Mem>(
    mem: &mut M,
    geo: &Geo,
    plan: &Plan<'_>,
    first: u32,
    one: u64,
    second: u32,
    other: u64,
) -> Result<(), Dead>
    requires writable { IsWritable (M.seen mem.old) geo.now }
    requires idle { (M.seen mem.old).plan ≡ None }
    requires within_limits { IsShort (plan_change plan.now) }
    requires number { HasEvenNumber (M.seen mem.old) }
    requires planned { IsPlanHere (M.seen mem.old) (plan_change plan.now) }
    requires first { 1 < first }
    requires first_in { first < words_in_segment geo.now }
    requires second { 1 < second }
    requires second_in { second < words_in_segment geo.now }
    requires first_kept { KeepsTorn (M.seen mem.old).setting.geo (plan_change plan.now) first one }
    requires second_kept { KeepsTorn (M.seen mem.old).setting.geo (plan_change plan.now) second other }
    ensures rest { M.same_rest mem.old mem.new }
    ensures fuse { ReportsDeath (M.seen mem.old).meter (M.seen mem.new).meter result }
    ensures stored { OnOk result (StoresUnder (M.seen mem.old) (M.seen mem.new) (plan_change plan.now) (store_at first one ∷ store_at second other ∷ [])) }
{
    mem.begin(plan)?;
    store_two(mem, geo, first, one, second, other)?;
    Ok(())
}

const KINDS: [EventKind; 6] = [
    EventKind::Load,
    EventKind::Store,
    EventKind::Exchange,
    EventKind::Store,
    EventKind::Load,
    EventKind::Store,
];

/// What a fuse answers for each of the kinds, one letter an event.
fn answers<F: Fuse>(fuse: &mut F) -> [char; 6] {
    KINDS.map(|kind| match fuse.admit(kind) {
        Admit::Go => 'g',
        Admit::Die => 'd',
    })
}

fn stores(left: u32) -> KillFuse {
    KillFuse::Stores { left }
}

fn events(left: u32) -> KillFuse {
    KillFuse::Events { left }
}

fn spent(deaths: u64) -> KillFuse {
    KillFuse::Spent { deaths }
}

#[test]
fn a_fuse_dies_in_place_of_each_event_that_it_counts(rt: HostRuntime) {
    let rows = [
        (KillFuse::Never, "gggggg", KillFuse::Never),
        (stores(0), "gddddd", spent(5)),
        (stores(1), "gggddd", spent(3)),
        (stores(2), "gggggd", spent(1)),
        (stores(3), "gggggg", stores(0)),
        (events(0), "dddddd", spent(6)),
        (events(1), "gddddd", spent(5)),
        (events(2), "ggdddd", spent(4)),
        (events(3), "gggddd", spent(3)),
        (events(4), "ggggdd", spent(2)),
        (events(5), "gggggd", spent(1)),
        (events(6), "gggggg", events(0)),
        (spent(u64::MAX - 1), "dggggg", spent(u64::MAX)),
    ];
    for (mut fuse, letters, after) in rows {
        let found = answers(&mut fuse);
        assert!(rt; found.iter().copied().eq(letters.chars()), "of {letters}");
        assert!(rt; fuse == after, "after {letters}");
    }
    assert!(rt; answers(&mut Never).iter().all(|answer| *answer == 'g'));
}

/// A fuse that dies at exchanges alone, and tells no budget.
#[derive(Drop)]
struct AtExchanges {
    deaths: u64,
}

impl Fuse for AtExchanges {
    ghost fused = { λ f. record { can_die = true; deaths = f.deaths; budget = None } };

    fn admit(&mut self, kind: EventKind) -> Admit {
        if kind != EventKind::Exchange {
            return Admit::Go;
        }
        match self.deaths.checked_add(1) {
            Some(more) => {
                self.deaths = more;
                Admit::Die
            }
            None => Admit::Go,
        }
    }
}

#[test]
fn a_memory_asks_its_fuse_for_loads_and_stores_alone(rt: HostRuntime) -> Result<(), Fail> {
    let mut fuse = AtExchanges { deaths: 0 };
    assert!(rt; answers(&mut fuse).iter().copied().eq("ggdggg".chars()));
    let mut words = Words::empty(rt.alloc(), &Geo::new(1, 1, 64, 4, 0)?)?;
    assert_eq!(rt;
        begin_first_put(&mut words, AtExchanges { deaths: 0 }),
        Ok(())
    );
    Ok(())
}

/// The words of the only segment of a map of one tier, with these at their addresses and zeros elsewhere.
fn words_with(alloc: Global, rows: &[(u32, u64)]) -> Result<Words, Fail> {
    let mut words = Words::empty(alloc, &Geo::new(1, 1, 64, 4, 0)?)?;
    for (at, word) in rows {
        if *at < words.geo().total_words() {
            words.set(*at, *word);
        }
    }
    Ok(words)
}

/// The words of a map of the keys a, ba and bba, with the values 1, 2 and 3. The low bits of all three
/// hashes are 12, so their slots are 12, 13 and 14.
const THREE_KEYS: [(u32, u64); 18] = [
    (2, 3),
    (5, 3),
    (8, 7),
    (21, 0x8601_ec8c_0000_0001),
    (22, 0xb54d_d00c_0000_0002),
    (23, 0x1341_628c_0000_0003),
    (137, 0x0000_0001_0000_0001),
    (138, 0xdcc3_2d51_747b_8d85),
    (139, 0x61),
    (140, 0x31),
    (141, 0x0000_0001_0000_0002),
    (142, 0xacaf_acb0_470c_6e1d),
    (143, 0x6162),
    (144, 0x32),
    (145, 0x0000_0001_0000_0003),
    (146, 0xc6a8_0f87_42ac_75d5),
    (147, 0x0061_6262),
    (148, 0x33),
];

/// A word of a segment, through a memory that reads alone.
fn loaded(words: &Words, segment: u32, at: u32) -> Option<u64> {
    let geo = words.geo();
    if segment >= geo.segments() || at >= geo.segment_words() {
        return None;
    }
    FixedMem::new(words, segment).load(at).ok()
}

#[test]
fn the_words_of_three_keys_stand_at_their_addresses(rt: HostRuntime) -> Result<(), Fail> {
    let geo = Geo::new(1, 1, 64, 4, 0)?;
    let words = words_with(rt.alloc(), &THREE_KEYS)?;
    let rows = [
        (2, 3),
        (geo.tier_at(0), 0),
        (5, 3),
        (geo.bits_at(0, 0), 7),
        (geo.slot_at(0, 12), 0x8601_ec8c_0000_0001),
        (geo.slot_at(0, 13), 0xb54d_d00c_0000_0002),
        (geo.slot_at(0, 14), 0x1341_628c_0000_0003),
        (geo.slot_at(0, 15), 0),
        (geo.chunk_at(0, 0), 0x0000_0001_0000_0001),
        (geo.chunk_at(0, 1), 0x0000_0001_0000_0002),
        (geo.chunk_at(0, 2), 0x0000_0001_0000_0003),
        (147, 0x0061_6262),
        (geo.chunk_at(0, 3), 0),
    ];
    for (at, word) in rows {
        assert_eq!(rt; loaded(&words, 0, at), Some(word), "at {at}");
    }
    Ok(())
}

/// Two stores between two loads in a memory that stores anything. The lender's words are then those that
/// the stores lead to, and the words of other segments are as they were.
fn load_and_store<F: Fuse>(words: &mut Words, fuse: F) -> Result<u64, Dead>
    requires nonzero { 0 < words.old.geo.segments }
    requires long { 8 < words_in_segment words.old.geo }
    ensures stored { OnOk result (segment_in words.new 0 ≡ after_stores (segment_in words.old 0) (store_at 2 7 ∷ store_at 3 9 ∷ [])) }
    ensures rest { rest_of words.new 0 ≡ rest_of words.old 0 }
{
    let geo = *words.geo();
    let mut mem = PlainMem::free(words, 0, fuse);
    mem.load(8)?;
    store_two(&mut mem, &geo, 2, 7, 3, 9)?;
    let word = mem.load(2)?;
    Ok(word)
}

#[test]
fn a_memory_is_as_the_last_admitted_store_left_it(rt: HostRuntime) -> Result<(), Fail> {
    let rows = [
        (KillFuse::Never, Ok(7), (7, 9)),
        (stores(0), Err(Dead), (3, 0)),
        (stores(1), Err(Dead), (7, 0)),
        (stores(2), Ok(7), (7, 9)),
        (events(0), Err(Dead), (3, 0)),
        (events(1), Err(Dead), (3, 0)),
        (events(2), Err(Dead), (3, 0)),
        (events(3), Err(Dead), (7, 0)),
        (events(4), Err(Dead), (7, 0)),
        (events(5), Err(Dead), (7, 9)),
        (events(6), Ok(7), (7, 9)),
        (spent(1), Err(Dead), (3, 0)),
    ];
    for (fuse, answer, (second, third)) in rows {
        let mut words = words_with(rt.alloc(), &THREE_KEYS)?;
        if words.geo().segments() == 0 || words.geo().segment_words() <= 8 {
            panic!(rt; "no such word");
        }
        let found = load_and_store(&mut words, fuse);
        assert_eq!(rt; found, answer);
        assert_eq!(rt; loaded(&words, 0, 2), Some(second), "of {answer:?}");
        assert_eq!(rt; loaded(&words, 0, 3), Some(third), "of {answer:?}");
    }
    Ok(())
}

/// The plan of the first put of the value 1 for the key a.
fn first_put() -> Plan<'static>
    ensures { plan_change result ≡ first_put }
{
    Plan {
        ask: Ask::Put {
            key: b"a",
            value: b"1",
        },
        kind: PlanKind::Fresh,
        key: b"a",
        value: b"1",
        old: None,
        old_slot: 0,
        new: Some(Run {
            place: 0,
            chunk: 0,
            chunks: 1,
        }),
        link: false,
    }
}

/// The first put of the value 1 for the key a begins in new words, and stores in the segment's head,
/// which torn words are not about.
fn begin_first_put<F: Fuse>(words: &mut Words, fuse: F) -> Result<(), Dead>
    requires { AreNew words.old }
{
    let plan = first_put();
    let geo = *words.geo();
    let mut mem = PlainMem::guarded(words, 0, fuse);
    begin_and_store(&mut mem, &geo, &plan, 2, 7, 3, 9)
}

#[test]
fn a_plan_is_stopped_at_each_of_its_stores(rt: HostRuntime) -> Result<(), Fail> {
    let rows = [
        (KillFuse::Never, Ok(()), (1, 7, 9)),
        (stores(0), Err(Dead), (0, 0, 0)),
        (stores(1), Err(Dead), (1, 0, 0)),
        (stores(2), Err(Dead), (1, 7, 0)),
        (stores(3), Ok(()), (1, 7, 9)),
        (events(0), Err(Dead), (0, 0, 0)),
        (events(1), Err(Dead), (1, 0, 0)),
        (events(2), Err(Dead), (1, 0, 0)),
        (events(3), Err(Dead), (1, 7, 0)),
        (events(4), Err(Dead), (1, 7, 0)),
        (events(5), Ok(()), (1, 7, 9)),
        (spent(1), Err(Dead), (0, 0, 0)),
    ];
    for (fuse, answer, (number, second, third)) in rows {
        let mut words = Words::empty(rt.alloc(), &Geo::new(1, 1, 64, 4, 0)?)?;
        let found = begin_first_put(&mut words, fuse);
        assert_eq!(rt; found, answer);
        assert_eq!(rt; loaded(&words, 0, 1), Some(number), "of {answer:?}");
        assert_eq!(rt; loaded(&words, 0, 2), Some(second), "of {answer:?}");
        assert_eq!(rt; loaded(&words, 0, 3), Some(third), "of {answer:?}");
    }
    Ok(())
}

/// A change that stores nothing between its two numbers. The chain of the words is cut, so they rest for
/// no state, and the change need keep none.
fn begin_and_finish(words: &mut Words) -> Result<(u64, u64, u64), Dead>
    requires { AreCut words.old }
{
    let mut mem = PlainMem::guarded(words, 0, Never);
    let before = mem.number()?;
    mem.begin(&first_put())?;
    let number = mem.finish()?;
    let after = mem.number()?;
    Ok((before, number, after))
}

#[test]
fn a_change_has_the_next_number(rt: HostRuntime) -> Result<(), Fail> {
    let geo = Geo::new(1, 1, 64, 4, 0)?;
    let mut words = Words::empty(rt.alloc(), &geo)?;
    words.set(1, 12);
    words.set(4, 9);
    let found = begin_and_finish(&mut words);
    assert_eq!(rt; found, Ok((6, 7, 7)));
    assert_eq!(rt; loaded(&words, 0, 1), Some(14));
    Ok(())
}
