//! Changes of seats on four threads with rounds beside them, and changes that are stopped at each of their events.

ghost use Rattle.std.specs.Prelude.{◌≡◌, ◌∷◌, [], IsTrue, OnOk};
ghost use Rattle.cm_geo.specs.Hash.{segment_of_key};
ghost use Rattle.cm_geo.specs.Need.{Fits};
ghost use Rattle.cm_words.specs.Maps.{number_word};
ghost use Rattle.cm_words.specs.Parity.{IsEven};
ghost use Rattle.cm_lock.specs.Tables.{IsOf, level_of, view_of};
ghost use Rattle.cm_locked.specs.SeatTrials.{Continues, IsIdle, IsNumbered, IsReady};
ghost use Rattle.cm_lock.specs.declared.view.Level.TheVariants.{Free};

use crate::tests_change::put_number;
use crate::tests_seats::{
    FIRST, KEY, SECOND, Shared, Started, Turn, read, read_in_round, start, update, words_at_end,
    write,
};
use cm_geo::{Geo, hash};
use cm_lock::SegSeat;
use cm_words::{Dead, Fuse, KillFuse, Never, PlainMem, Words};
use std::alloc::Global;
use std::process::Abort;
use std::test::Fail;
use std::thread;
use std::thread::Threads;

/// What a seat has done in its turns.
#[derive(Clone, Copy, Debug)]
struct Done {
    /// The changes that it made, and the rounds that told an answer.
    changes: u64,
    rounds: u64,
    /// The greatest number that it was told.
    last: u64,
    /// Whether it lived, each value that it read had the number of the last change in both its words, and no number
    /// fell.
    right: bool,
}

impl Done {
    fn add(&mut self, turn: Turn, is_round: bool) {
        let number = match turn {
            Turn::Missed => return,
            Turn::Read {
                first,
                second,
                number,
            } => {
                self.rounds = self.rounds.saturating_add(u64::from(is_round));
                self.right = self.right && first == number && second == number;
                number
            }
            Turn::Changed(number) => {
                self.changes = self.changes.saturating_add(1);
                self.right = self.right && number > self.last;
                number
            }
        };
        self.right = self.right && number >= self.last;
        self.last = number;
    }
}

/// A seat after its turns.
#[derive(Drop)]
struct Worked {
    seat: SegSeat,
    done: Done,
}

/// One turn of a seat.
fn turn(shared: &Shared, seat: &mut SegSeat, number: u32) -> Result<Turn, Dead>
    requires its { IsOf seat.old shared.now.table }
    requires level { level_of seat.old ≡ Free }
    requires idle { IsIdle (view_of seat.old) }
    ensures its { IsOf seat.new shared.now.table }
    ensures continues { Continues (view_of seat.old) (view_of seat.new) result }
    ensures level { OnOk result (level_of seat.new ≡ Free) }
{
    match number % 4 {
        0 => write(shared, seat, &mut Never),
        1 => read(shared, seat, &mut Never),
        2 => update(shared, seat, &mut Never),
        _ => read_in_round(shared, seat, &mut Never),
    }
}

/// Takes so many turns, and goes without what it doesn't get.
fn work(shared: &Shared, mut seat: SegSeat, turns: u32) -> Worked
    requires its { IsOf seat shared.now.table }
    requires level { level_of seat ≡ Free }
    requires idle { IsIdle (view_of seat) }
    ensures its { IsOf result.seat shared.now.table }
    ensures number { (view_of result.seat).own.number ≡ (view_of seat).own.number }
{
    let mut done = Done {
        changes: 0,
        rounds: 0,
        last: 0,
        right: true,
    };
    for number in 0..turns {
        match turn(shared, &mut seat, number) {
            Ok(found) => done.add(found, number % 4 == 3),
            Err(Dead) => {
                done.right = false;
                return Worked { seat, done };
            }
        }
    }
    Worked { seat, done }
}

/// Two seats work beside each other.
fn work_by_two<R: Threads>(
    rt: &R,
    shared: &Shared,
    first: SegSeat,
    second: SegSeat,
    turns: u32,
) -> (Worked, Worked)
    requires its { IsOf first shared.now.table × IsOf second shared.now.table }
    requires level { (level_of first ≡ Free) × (level_of second ≡ Free) }
    requires idle { IsIdle (view_of first) × IsIdle (view_of second) }
    ensures its { IsOf result.0.seat shared.now.table × IsOf result.1.seat shared.now.table }
    ensures numbers { ((view_of result.0.seat).own.number ≡ (view_of first).own.number) × ((view_of result.1.seat).own.number ≡ (view_of second).own.number) }
{
    thread::join(
        rt,
        || -> Worked
            requires { IsOf first shared.now.table × (level_of first ≡ Free) × IsIdle (view_of first) }
            ensures { IsOf result.seat shared.entry.now.table × ((view_of result.seat).own.number ≡ (view_of first).own.number) }
        { work(shared, first, turns) },
        || -> Worked
            requires { IsOf second shared.now.table × (level_of second ≡ Free) × IsIdle (view_of second) }
            ensures { IsOf result.seat shared.entry.now.table × ((view_of result.seat).own.number ≡ (view_of second).own.number) }
        { work(shared, second, turns) },
    )
}

/// Four seats work beside each other.
fn work_by_four<R: Threads + Sync>(
    rt: &R,
    shared: &Shared,
    zero: SegSeat,
    one: SegSeat,
    two: SegSeat,
    three: SegSeat,
    turns: u32,
) -> ((Worked, Worked), (Worked, Worked))
    requires zero { IsReady 0 shared.now.table zero × (level_of zero ≡ Free) }
    requires one { IsReady 1 shared.now.table one × (level_of one ≡ Free) }
    requires two { IsReady 2 shared.now.table two × (level_of two ≡ Free) }
    requires three { IsReady 3 shared.now.table three × (level_of three ≡ Free) }
    ensures zero { IsNumbered 0 shared.now.table result.0.0.seat }
    ensures one { IsNumbered 1 shared.now.table result.0.1.seat }
    ensures two { IsNumbered 2 shared.now.table result.1.0.seat }
    ensures three { IsNumbered 3 shared.now.table result.1.1.seat }
{
    thread::join(
        rt,
        || -> (Worked, Worked)
            requires { IsReady 0 shared.now.table zero × (level_of zero ≡ Free) × IsReady 1 shared.now.table one × (level_of one ≡ Free) }
            ensures { IsNumbered 0 shared.entry.now.table result.0.seat × IsNumbered 1 shared.entry.now.table result.1.seat }
        { work_by_two(rt, shared, zero, one, turns) },
        || -> (Worked, Worked)
            requires { IsReady 2 shared.now.table two × (level_of two ≡ Free) × IsReady 3 shared.now.table three × (level_of three ≡ Free) }
            ensures { IsNumbered 2 shared.entry.now.table result.0.seat × IsNumbered 3 shared.entry.now.table result.1.seat }
        { work_by_two(rt, shared, two, three, turns) },
    )
}

#[test]
fn four_threads_make_one_list_of_changes(rt: HostRuntime) -> Result<(), Fail> {
    let Started {
        shared,
        root,
        zero,
        one,
        two,
        three,
    } = start(rt.alloc())?;
    let ((zero, one), (two, three)) = work_by_four(&rt, &shared, zero, one, two, three, 250_000);
    let done = [zero.done, one.done, two.done, three.done];
    assert!(rt; done.iter().all(|done| done.right));
    let changes = done
        .iter()
        .fold(0u64, |sum, done| sum.saturating_add(done.changes));
    let words = words_at_end(
        rt.alloc(),
        shared,
        root,
        zero.seat,
        one.seat,
        two.seat,
        three.seat,
    )?;
    assert_eq!(rt; words.first(), Some(&0));
    assert_eq!(rt; words.get(1), Some(&changes.wrapping_mul(2)));
    assert_eq!(rt; words.get(FIRST as usize), Some(&changes));
    assert_eq!(rt; words.get(SECOND as usize), Some(&changes));
    Ok(())
}

/// The lock word beside a writer.
const WRITE: u64 = 1 << 31;

/// Whether no change of the only segment is under way, and the key and its value may stand there.
fn may_change(words: &Words) -> bool
    ensures even { IsTrue result → IsEven (number_word words.now 0) }
    ensures home { IsTrue result → segment_of_key words.now.geo (97 ∷ []) ≡ 0 }
    ensures fits { IsTrue result → Fits words.now.geo 1 16 }
{
    let geo = words.geo();
    geo.total_words() > 1
        && words.get(1) % 2 == 0
        && geo.segment_of(hash(KEY)) == 0
        && geo.fits(1, 16)
}

/// The change in words that nobody shares.
fn change_alone<F: Fuse>(words: &mut Words, fuse: F) -> Result<Turn, Dead> {
    let geo = *words.geo();
    if !may_change(words) {
        return Ok(Turn::Missed);
    }
    let mut mem = PlainMem::guarded(words, 0, fuse);
    match put_number(&mut mem, &geo, KEY)? {
        Some(number) => Ok(Turn::Changed(number)),
        None => Ok(Turn::Missed),
    }
}

/// How a change ended, and the words then.
#[derive(Drop)]
struct Stopped {
    turn: Result<Turn, Dead>,
    words: Vec<u64>,
}

/// A change behind so many others, in words that nobody shares.
#[tactic(auto, using(cm_geo::proofs::Ranges::segments_range))]
fn stopped_alone(alloc: Global, before: u32, fuse: KillFuse) -> Result<Stopped, Fail> {
    let mut words = Words::empty(alloc, &Geo::new(1, 1, 64, 4, 0)?)?;
    for _ in 0..before {
        change_alone(&mut words, Never)?;
    }
    let turn = change_alone(&mut words, fuse);
    let words = words.segment(0).to_vec(alloc)?;
    Ok(Stopped { turn, words })
}

/// A change behind so many others, under Write; and how another seat's read and round end then.
fn stopped_under_lock(
    alloc: Global,
    before: u32,
    mut fuse: KillFuse,
) -> Result<(Stopped, Turn, Turn), Fail> {
    let Started {
        shared,
        root,
        mut zero,
        mut one,
        two,
        three,
    } = start(alloc)?;
    for _ in 0..before {
        write(&shared, &mut zero, &mut Never)?;
    }
    let turn = write(&shared, &mut zero, &mut fuse);
    let read_then = read(&shared, &mut one, &mut Never)?;
    let round_then = read_in_round(&shared, &mut one, &mut Never)?;
    let words = words_at_end(alloc, shared, root, zero, one, two, three)?;
    Ok((Stopped { turn, words }, read_then, round_then))
}

/// Compares a change under Write with the same one in words that nobody shares.
fn assert_stops(
    rt: &(impl Abort + AllocGlobal),
    before: u32,
    under_lock: KillFuse,
    alone: KillFuse,
) -> Result<bool, Fail> {
    let (found, read_then, round_then) = stopped_under_lock(rt.alloc(), before, under_lock)?;
    let expected = stopped_alone(rt.alloc(), before, alone)?;
    let died = found.turn.is_err();
    assert_eq!(rt; found.words.first(), Some(&if died { WRITE } else { 0 }));
    assert!(rt; found.words.iter().skip(1).eq(expected.words.iter().skip(1)));
    let number = found.words.get(1).copied().unwrap_or(0);
    let whole = Turn::Read {
        first: number / 2,
        second: number / 2,
        number: number / 2,
    };
    assert_eq!(rt; read_then, if died { Turn::Missed } else { whole });
    assert_eq!(rt;
        round_then,
        if number % 2 == 1 { Turn::Missed } else { whole }
    );
    Ok(died)
}

#[test]
fn a_change_is_stopped_at_each_of_its_events(rt: HostRuntime) -> Result<(), Fail> {
    // The changes before, and the stores of the change: its two numbers, and between them the bits, the five words of
    // the entry, its slot and two counts, or in place the two words of the value and the checksum.
    for (before, stores) in [(0, 11), (1, 5)] {
        for left in 0..=stores {
            let fuse = || KillFuse::Stores { left };
            assert_eq!(rt; assert_stops(&rt, before, fuse(), fuse())?, left < stores);
        }
        // The take is two events, and the release one.
        for left in 0..40 {
            let alone = KillFuse::Events { left };
            assert_stops(&rt, before, KillFuse::Events { left: left + 2 }, alone)?;
        }
    }
    Ok(())
}

/// The lock word that a read of new words, or a change of them, leaves where it has so many events; and whether it died.
fn lock_word_after(alloc: Global, is_read: bool, events: u32) -> Result<(Option<u64>, bool), Fail> {
    let Started {
        shared,
        root,
        mut zero,
        one,
        two,
        three,
    } = start(alloc)?;
    let mut fuse = KillFuse::Events { left: events };
    let turn = if is_read {
        read(&shared, &mut zero, &mut fuse)
    } else {
        write(&shared, &mut zero, &mut fuse)
    };
    let words = words_at_end(alloc, shared, root, zero, one, two, three)?;
    Ok((words.first().copied(), turn.is_err()))
}

#[test]
fn a_take_and_a_read_are_stopped_at_each_of_their_events(rt: HostRuntime) -> Result<(), Fail> {
    // A take is a look and an exchange; a read then loads three words, tells its answer and is released.
    let rows = [
        (true, 0, 0),
        (true, 1, 0),
        (true, 2, 1),
        (true, 3, 1),
        (true, 4, 1),
        (true, 5, 1),
        (true, 6, 1),
        (true, 7, 0),
        (false, 0, 0),
        (false, 1, 0),
        (false, 2, WRITE),
    ];
    for (is_read, events, lock) in rows {
        let found = lock_word_after(rt.alloc(), is_read, events)?;
        assert_eq!(rt; found, (Some(lock), events < 7), "{is_read} {events}");
    }
    Ok(())
}
