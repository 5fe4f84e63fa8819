//! Seats of a small table, and callers that know of it what its public clauses say.

ghost use Rattle.std.specs.Prelude.{◌≡◌, ◌≢◌, ◌≤◌, ◌<◌, ◌∷◌, [], IfOk, OnOk, OnErr};
ghost use Rattle.cm_words.specs.Effects.{Knows};
ghost use Rattle.cm_lock.specs.Rule.{known_of};
ghost use Rattle.cm_lock.specs.Tables.{IsOf, key_of, level_of, view_of};
ghost use Rattle.cm_locked.specs.SeatTrials.{Continues, IsIdle, IsNumbered, IsOpen, IsReady, IsRootOfFour};
ghost use Rattle.cm_lock.specs.declared.view.Level.TheVariants.{Free};

use cm_geo::Geo;
use cm_lock::{Level, SegSeat, SegTable, Stop};
use cm_plain::{Ask, Heard, NoMemory};
use cm_words::{Dead, Fuse, KillFuse, Mem, Never, Peek};
use std::alloc::Global;
use std::test::Fail;
use std::thread;
use std::thread::Threads;

/// The lock word beside one updater, and beside one writer.
const UPDATE: u64 = 1 << 30;

const WRITE: u64 = 1 << 31;

/// What a seat is asked to do.
#[derive(Clone, Copy, Debug, PartialEq, Eq)]
enum Step {
    Read,
    Update,
    Write,
    Raise,
    Lower,
    LowerToRead,
    Release,
    /// Loads the number of entries under a level, and tells it.
    Count,
    /// The same in a round without a level.
    Round,
}

/// How it ended.
#[derive(Clone, Copy, Debug, PartialEq, Eq)]
enum End {
    Done,
    Busy { looks: u32, last: u64 },
    /// The answer has this number.
    Told(u64),
    /// The round failed.
    Failed,
    /// The seat's level doesn't allow it.
    Unmet,
}

/// The number of entries, by a memory over the seat.
fn load_count<F: Fuse>(table: &SegTable, seat: &mut SegSeat, fuse: &mut F) -> Result<u64, Dead>
    requires its { IsOf seat.old table.now }
    requires level { level_of seat.old ≢ Free }
    requires idle { IsIdle (view_of seat.old) }
    ensures its { IsOf seat.new table.now }
    ensures continues { Continues (view_of seat.old) (view_of seat.new) result }
    ensures level { level_of seat.new ≡ level_of seat.old }
    ensures count { IfOk result (Knows (known_of (key_of table.now) (view_of seat.new).own) 2) }
{
    let mut hold = table.hold(seat, fuse);
    hold.load(2)
}

/// Loads the number of entries, and tells it.
fn count<F: Fuse>(table: &SegTable, seat: &mut SegSeat, fuse: &mut F) -> Result<End, Dead>
    requires its { IsOf seat.old table.now }
    requires level { level_of seat.old ≢ Free }
    requires idle { IsIdle (view_of seat.old) }
    ensures its { IsOf seat.new table.now }
    ensures continues { Continues (view_of seat.old) (view_of seat.new) result }
{
    let word = load_count(table, seat, fuse)?;
    let Ok(entries) = u32::try_from(word) else {
        return Ok(End::Unmet);
    };
    let ask = Ask::Count { segment: 0 };
    let number = table.tell(seat, fuse, ask, Heard::Count(entries))?;
    Ok(End::Told(number))
}

/// The number of entries, by a peek over the open round, in which nothing was found yet.
fn peek_count<F: Fuse>(table: &SegTable, seat: &mut SegSeat, fuse: &mut F) -> Result<u64, Dead>
    requires its { IsOf seat.old table.now }
    requires opened { IsOpen [] (view_of seat.old) }
    ensures its { IsOf seat.new table.now }
    ensures number { (view_of seat.new).own.number ≡ (view_of seat.old).own.number }
    ensures found { IfOk result (λ word. IsOpen (record { at = 2; word = word } ∷ []) (view_of seat.new)) }
{
    let mut peeking = table.peek(seat, fuse);
    peeking.load(2)
}

/// Closes the round, in which this number of entries was found.
fn close_with<F: Fuse>(
    table: &SegTable,
    seat: &mut SegSeat,
    fuse: &mut F,
    entries: u32,
) -> Result<End, Dead>
    requires its { IsOf seat.old table.now }
    requires found { IsOpen (record { at = 2; word = entries } ∷ []) (view_of seat.old) }
    ensures its { IsOf seat.new table.now }
    ensures continues { Continues (view_of seat.old) (view_of seat.new) result }
{
    let ask = Ask::Count { segment: 0 };
    match table.close_round(seat, fuse, ask, Heard::Count(entries))? {
        Some(number) => Ok(End::Told(number)),
        None => Ok(End::Failed),
    }
}

/// Loads the number of entries in a round without a level, and closes it with that answer. Where it dies, the
/// round may stay open.
fn count_in_round<F: Fuse>(table: &SegTable, seat: &mut SegSeat, fuse: &mut F) -> Result<End, Dead>
    requires its { IsOf seat.old table.now }
    requires level { level_of seat.old ≡ Free }
    requires idle { IsIdle (view_of seat.old) }
    ensures its { IsOf seat.new table.now }
    ensures continues { Continues (view_of seat.old) (view_of seat.new) result }
{
    if !table.open_round(seat, fuse)? {
        return Ok(End::Failed);
    }
    let word = peek_count(table, seat, fuse)?;
    // the tests have no segment with so many entries
    let Ok(entries) = u32::try_from(word) else {
        return Err(Dead);
    };
    close_with(table, seat, fuse, entries)
}

/// How a take ended.
fn end_of_take(taken: Result<(), Stop>) -> Result<End, Dead> {
    match taken {
        Ok(()) => Ok(End::Done),
        Err(Stop::Busy { looks, last }) => Ok(End::Busy { looks, last }),
        Err(Stop::Died) => Err(Dead),
    }
}

/// A take or a raise, where the seat's level allows it.
fn take<F: Fuse>(
    table: &SegTable,
    seat: &mut SegSeat,
    fuse: &mut F,
    what: Step,
    tries: u32,
) -> Result<End, Dead>
    requires its { IsOf seat.old table.now }
    requires idle { IsIdle (view_of seat.old) }
    requires nonzero { 1 ≤ tries }
    ensures its { IsOf seat.new table.now }
    ensures continues { Continues (view_of seat.old) (view_of seat.new) result }
{
    match (what, seat.level()) {
        (Step::Read, Level::Free) => end_of_take(table.read(seat, fuse, tries)),
        (Step::Update, Level::Free) => end_of_take(table.update(seat, fuse, tries)),
        (Step::Write, Level::Free) => end_of_take(table.write(seat, fuse, tries)),
        (Step::Raise, Level::Update) => end_of_take(table.raise(seat, fuse, tries)),
        _ => Ok(End::Unmet),
    }
}

/// A lower level or a release, where the seat's level allows it.
fn lower<F: Fuse>(
    table: &SegTable,
    seat: &mut SegSeat,
    fuse: &mut F,
    what: Step,
) -> Result<End, Dead>
    requires its { IsOf seat.old table.now }
    requires idle { IsIdle (view_of seat.old) }
    ensures its { IsOf seat.new table.now }
    ensures continues { Continues (view_of seat.old) (view_of seat.new) result }
{
    match (what, seat.level()) {
        (Step::Lower, Level::Write) => table.lower(seat, fuse)?,
        (Step::LowerToRead, Level::Update) => table.lower_to_read(seat, fuse)?,
        (Step::Release, Level::Read | Level::Update | Level::Write) => table.release(seat, fuse)?,
        _ => return Ok(End::Unmet),
    }
    Ok(End::Done)
}

/// Does what is asked, where the seat's level allows it, with at most so many tries.
fn do_step<F: Fuse>(
    table: &SegTable,
    seat: &mut SegSeat,
    fuse: &mut F,
    what: Step,
    tries: u32,
) -> Result<End, Dead>
    requires its { IsOf seat.old table.now }
    requires idle { IsIdle (view_of seat.old) }
    requires nonzero { 1 ≤ tries }
    ensures its { IsOf seat.new table.now }
    ensures continues { Continues (view_of seat.old) (view_of seat.new) result }
{
    match what {
        Step::Read | Step::Update | Step::Write | Step::Raise => {
            take(table, seat, fuse, what, tries)
        }
        Step::Lower | Step::LowerToRead | Step::Release => lower(table, seat, fuse, what),
        Step::Count => match seat.level() {
            Level::Free => Ok(End::Unmet),
            Level::Read | Level::Update | Level::Write => count(table, seat, fuse),
        },
        Step::Round => match seat.level() {
            Level::Free => count_in_round(table, seat, fuse),
            Level::Read | Level::Update | Level::Write => Ok(End::Unmet),
        },
    }
}

/// Does these steps in order, with two tries, until one dies: how many were done.
fn steps_done<F: Fuse>(table: &SegTable, seat: &mut SegSeat, fuse: &mut F, steps: &[Step]) -> usize
    requires its { IsOf seat.old table.now }
    requires idle { IsIdle (view_of seat.old) }
    ensures its { IsOf seat.new table.now }
    ensures number { (view_of seat.new).own.number ≡ (view_of seat.old).own.number }
{
    for (done, &what) in steps.iter().enumerate() {
        match do_step(table, seat, fuse, what, 2) {
            Ok(_) => {}
            Err(Dead) => return done,
        }
    }
    steps.len()
}

/// A table, its root, and four seats.
#[derive(Drop)]
struct Started {
    table: SegTable,
    root: SegSeat,
    zero: SegSeat,
    one: SegSeat,
    two: SegSeat,
    three: SegSeat,
}

/// The table of a segment of one tier in which nothing was written.
fn start(alloc: Global) -> Result<Started, Fail>
    ensures root { IfOk result (λ s. IsRootOfFour s.table s.root) }
    ensures zero { IfOk result (λ s. IsReady 0 s.table s.zero) }
    ensures one { IfOk result (λ s. IsReady 1 s.table s.one) }
    ensures two { IfOk result (λ s. IsReady 2 s.table s.two) }
    ensures three { IfOk result (λ s. IsReady 3 s.table s.three) }
{
    let geo = Geo::new(1, 1, 64, 4, 0)?;
    let words = vec![in alloc; 0; geo.segment_words() as usize]?;
    let (table, mut root) = SegTable::new(alloc, &geo, 0, words.as_slice())?;
    let zero = table.split(&mut root, 0);
    let one = table.split(&mut root, 1);
    let two = table.split(&mut root, 2);
    let three = table.split(&mut root, 3);
    Ok(Started {
        table,
        root,
        zero,
        one,
        two,
        three,
    })
}

/// The words at the end, where the four seats were joined.
fn words_at_end(
    alloc: Global,
    table: SegTable,
    mut root: SegSeat,
    zero: SegSeat,
    one: SegSeat,
    two: SegSeat,
    three: SegSeat,
) -> Result<Vec<u64>, NoMemory>
    requires root { IsRootOfFour table root }
    requires zero { IsNumbered 0 table zero }
    requires one { IsNumbered 1 table one }
    requires two { IsNumbered 2 table two }
    requires three { IsNumbered 3 table three }
{
    table.join(&mut root, three);
    table.join(&mut root, two);
    table.join(&mut root, one);
    table.join(&mut root, zero);
    table.close(alloc, root)
}

/// Whether all words but the lock word are 0.
fn are_zero(words: &[u64]) -> bool {
    words.iter().skip(1).all(|&word| word == 0)
}

/// One of three seats does what is asked, with three tries.
fn step_of_three(
    table: &SegTable,
    zero: &mut SegSeat,
    one: &mut SegSeat,
    two: &mut SegSeat,
    who: u8,
    what: Step,
) -> Result<End, Dead>
    requires zero { IsReady 0 table.now zero.old }
    requires one { IsReady 1 table.now one.old }
    requires two { IsReady 2 table.now two.old }
    ensures zero { OnOk result (IsReady 0 table.now zero.new) }
    ensures one { OnOk result (IsReady 1 table.now one.new) }
    ensures two { OnOk result (IsReady 2 table.now two.new) }
{
    match who {
        0 => do_step(table, zero, &mut Never, what, 3),
        1 => do_step(table, one, &mut Never, what, 3),
        _ => do_step(table, two, &mut Never, what, 3),
    }
}

#[test]
fn levels_exclude_each_other(rt: HostRuntime) -> Result<(), Fail> {
    let Started {
        table,
        root,
        mut zero,
        mut one,
        mut two,
        three,
    } = start(rt.alloc())?;
    let busy = |looks, last| End::Busy { looks, last };
    let rows = [
        // a writer excludes all
        (0, Step::Write, End::Done),
        (1, Step::Read, busy(3, WRITE)),
        (1, Step::Update, busy(3, WRITE)),
        (1, Step::Write, busy(3, WRITE)),
        (0, Step::Count, End::Told(0)),
        // an updater admits readers alone, and is raised beside none
        (0, Step::Lower, End::Done),
        (1, Step::Read, End::Done),
        (2, Step::Update, busy(3, UPDATE + 1)),
        (2, Step::Write, busy(3, UPDATE + 1)),
        (0, Step::Raise, busy(3, UPDATE + 1)),
        (0, Step::Count, End::Told(0)),
        (1, Step::Release, End::Done),
        (0, Step::Raise, End::Done),
        (0, Step::Lower, End::Done),
        // readers admit readers and an updater
        (0, Step::LowerToRead, End::Done),
        (1, Step::Read, End::Done),
        (2, Step::Update, End::Done),
        (2, Step::Raise, busy(3, UPDATE + 2)),
        (0, Step::Release, End::Done),
        (1, Step::Release, End::Done),
        (2, Step::Raise, End::Done),
        // a round needs no level, and no level excludes it
        (0, Step::Round, End::Told(0)),
        (2, Step::Release, End::Done),
        (1, Step::Write, End::Done),
        (1, Step::Raise, End::Unmet),
        (1, Step::Release, End::Done),
    ];
    for (who, what, expected) in rows {
        let ended = step_of_three(&table, &mut zero, &mut one, &mut two, who, what)?;
        assert_eq!(rt; ended, expected);
    }
    let words = words_at_end(rt.alloc(), table, root, zero, one, two, three)?;
    assert_eq!(rt; words.first(), Some(&0));
    assert!(rt; are_zero(words.as_slice()));
    Ok(())
}

#[test]
fn dead_seat_leaves_its_level(rt: HostRuntime) -> Result<(), Fail> {
    // the events are a look and an exchange of the take, the same of the raise, and one of each lower level; a load
    // and the answer of the count, one of the release, and the three of the round
    let steps = [
        Step::Update,
        Step::Raise,
        Step::Lower,
        Step::LowerToRead,
        Step::Count,
        Step::Release,
        Step::Round,
    ];
    // the steps done and the lock word at the end, by the number of events until it dies
    let rows = [
        (0, 0),
        (0, 0),
        (1, UPDATE),
        (1, UPDATE),
        (2, WRITE),
        (3, UPDATE),
        (4, 1),
        (4, 1),
        (5, 1),
        (6, 0),
        (6, 0),
        (6, 0),
        (7, 0),
    ];
    for (left, (done, word)) in rows.into_iter().enumerate() {
        let Started {
            table,
            root,
            mut zero,
            one,
            two,
            three,
        } = start(rt.alloc())?;
        let mut fuse = KillFuse::Events { left: left as u32 };
        assert_eq!(rt; steps_done(&table, &mut zero, &mut fuse, &steps), done);
        let words = words_at_end(rt.alloc(), table, root, zero, one, two, three)?;
        assert_eq!(rt; words.first(), Some(&word));
        assert!(rt; are_zero(words.as_slice()));
    }
    // none of them stores to a word of the table
    let Started {
        table,
        root,
        mut zero,
        one,
        two,
        three,
    } = start(rt.alloc())?;
    let mut fuse = KillFuse::Stores { left: 0 };
    assert_eq!(rt; steps_done(&table, &mut zero, &mut fuse, &steps), 7);
    let words = words_at_end(rt.alloc(), table, root, zero, one, two, three)?;
    assert_eq!(rt; words.first(), Some(&0));
    Ok(())
}

#[test]
fn dead_writer_excludes_all(rt: HostRuntime) -> Result<(), Fail> {
    let Started {
        table,
        root,
        mut zero,
        mut one,
        two,
        three,
    } = start(rt.alloc())?;
    // it dies at its look after the take
    let mut fuse = KillFuse::Events { left: 2 };
    let steps = [Step::Write, Step::Count];
    assert_eq!(rt; steps_done(&table, &mut zero, &mut fuse, &steps), 1);
    let busy = End::Busy {
        looks: 5,
        last: WRITE,
    };
    for what in [Step::Read, Step::Update, Step::Write] {
        assert_eq!(rt; do_step(&table, &mut one, &mut Never, what, 5)?, busy);
    }
    // a round sees no writer where nothing was stored
    assert_eq!(rt;
        do_step(&table, &mut one, &mut Never, Step::Round, 5)?,
        End::Told(0)
    );
    let words = words_at_end(rt.alloc(), table, root, zero, one, two, three)?;
    assert_eq!(rt; words.first(), Some(&WRITE));
    Ok(())
}

/// A seat after its turns, and whether it lived and was told no other number than 0.
#[derive(Drop)]
struct Worked {
    seat: SegSeat,
    right: bool,
}

/// Each level in turn, with counts under it, and a round.
fn step_in_turn(number: u32) -> Step {
    match number % 15 {
        0 => Step::Read,
        3 => Step::Update,
        5 => Step::Raise,
        7 => Step::Lower,
        8 => Step::LowerToRead,
        11 => Step::Write,
        2 | 10 | 13 => Step::Release,
        14 => Step::Round,
        _ => Step::Count,
    }
}

/// Does so many steps, and goes without a level that it doesn't get in two tries.
fn work(table: &SegTable, mut seat: SegSeat, steps: u32) -> Worked
    requires its { IsOf seat table.now }
    requires idle { IsIdle (view_of seat) }
    ensures its { IsOf result.seat table.now }
    ensures number { (view_of result.seat).own.number ≡ (view_of seat).own.number }
{
    let mut right = true;
    for number in 0..steps {
        match do_step(table, &mut seat, &mut Never, step_in_turn(number), 2) {
            Ok(End::Told(told)) => right = right && told == 0,
            Ok(_) => {}
            Err(Dead) => return Worked { seat, right: false },
        }
    }
    Worked { seat, right }
}

/// Two seats work beside each other.
fn work_on_two_threads<R: Threads>(
    rt: &R,
    table: &SegTable,
    first: SegSeat,
    second: SegSeat,
    steps: u32,
) -> (Worked, Worked)
    requires its { IsOf first table.now × IsOf second table.now }
    requires idle { IsIdle (view_of first) × IsIdle (view_of second) }
    ensures its { IsOf result.0.seat table.now × IsOf result.1.seat table.now }
    ensures numbers { ((view_of result.0.seat).own.number ≡ (view_of first).own.number) × ((view_of result.1.seat).own.number ≡ (view_of second).own.number) }
{
    thread::join(
        rt,
        || -> Worked
            requires { IsOf first table.now × IsIdle (view_of first) }
            ensures { IsOf result.seat table.entry.now × ((view_of result.seat).own.number ≡ (view_of first).own.number) }
        { work(table, first, steps) },
        || -> Worked
            requires { IsOf second table.now × IsIdle (view_of second) }
            ensures { IsOf result.seat table.entry.now × ((view_of result.seat).own.number ≡ (view_of second).own.number) }
        { work(table, second, steps) },
    )
}

#[test]
fn lock_word_is_zero_after_two_threads(rt: HostRuntime) -> Result<(), Fail> {
    let Started {
        table,
        root,
        zero,
        one,
        two,
        three,
    } = start(rt.alloc())?;
    let (first, second) = work_on_two_threads(&rt, &table, zero, one, 105_000);
    assert!(rt; first.right);
    assert!(rt; second.right);
    let words = words_at_end(rt.alloc(), table, root, first.seat, second.seat, two, three)?;
    assert_eq!(rt; words.first(), Some(&0));
    assert!(rt; are_zero(words.as_slice()));
    Ok(())
}
