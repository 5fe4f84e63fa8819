//! Seats of a small segment, which read and change one key in turns.

ghost use Rattle.std.specs.Prelude.{◌≡◌, ◌≢◌, ◌<◌, ◌∷◌, [], IfOk, OnOk};
ghost use Rattle.cm_geo.specs.Addresses.{words_in_segment};
ghost use Rattle.cm_geo.specs.Hash.{segment_of_key};
ghost use Rattle.cm_geo.specs.Need.{Fits};
ghost use Rattle.cm_words.specs.Effects.{Knows};
ghost use Rattle.cm_lock.specs.Rule.{known_of};
ghost use Rattle.cm_lock.specs.Tables.{IsOf, key_of, level_of, view_of};
ghost use Rattle.cm_locked.specs.SeatTrials.{Continues, IsIdle, IsNumbered, IsOpen, IsReady, IsRootOfFour};
ghost use Rattle.cm_lock.specs.declared.view.Level.TheVariants.{Free, Write};

use crate::tests_change::put_number;
use cm_geo::{Geo, hash};
use cm_lock::{SegSeat, SegTable, Stop};
use cm_plain::{Ask, Heard, NoMemory};
use cm_words::{Dead, Fuse, Mem, Peek};
use std::alloc::Global;
use std::test::Fail;

/// The key of all turns.
pub const KEY: &[u8] = b"a";

/// Where the two words of its value stand: behind the lengths, the checksum and the key, in the first chunk.
pub const FIRST: u32 = 140;

pub const SECOND: u32 = 141;

/// The tries of a take.
const TRIES: u32 = 100;

/// A segment that is shared, which has room for the key and its value.
#[derive(Drop)]
pub struct Shared {
    pub table: SegTable,
    geo: Geo,
    pub ghost same: { (key_of table).geo ≡ geo },
    pub ghost home: { segment_of_key geo (97 ∷ []) ≡ (key_of table).segment },
    pub ghost fits: { Fits geo 1 16 },
    pub ghost long: { 141 < words_in_segment geo },
}

/// What a turn showed.
#[derive(Clone, Copy, Debug, PartialEq, Eq)]
pub enum Turn {
    /// The seat got no level, or its round failed.
    Missed,
    /// The two words of the value, and the number of changes that was told.
    Read {
        first: u64,
        second: u64,
        number: u64,
    },
    /// A change was made; it has this number.
    Changed(u64),
}

/// The two words of the value, under a level.
fn load_words<F: Fuse>(
    shared: &Shared,
    seat: &mut SegSeat,
    fuse: &mut F,
) -> Result<(u64, u64), Dead>
    requires its { IsOf seat.old shared.now.table }
    requires level { level_of seat.old ≢ Free }
    requires idle { IsIdle (view_of seat.old) }
    ensures its { IsOf seat.new shared.now.table }
    ensures continues { Continues (view_of seat.old) (view_of seat.new) result }
    ensures level { level_of seat.new ≡ level_of seat.old }
{
    let mut hold = shared.table.hold(seat, fuse);
    let first = hold.load(FIRST)?;
    let second = hold.load(SECOND)?;
    Ok((first, second))
}

/// The number of entries, under a level.
fn load_count<F: Fuse>(table: &SegTable, seat: &mut SegSeat, fuse: &mut F) -> Result<u64, Dead>
    requires its { IsOf seat.old table.now }
    requires level { level_of seat.old ≢ Free }
    requires idle { IsIdle (view_of seat.old) }
    ensures its { IsOf seat.new table.now }
    ensures continues { Continues (view_of seat.old) (view_of seat.new) result }
    ensures level { level_of seat.new ≡ level_of seat.old }
    ensures count { IfOk result (Knows (known_of (key_of table.now) (view_of seat.new).own) 2) }
{
    let mut hold = table.hold(seat, fuse);
    hold.load(2)
}

/// A read under a level, with the number that its answer has.
fn load_value<F: Fuse>(shared: &Shared, seat: &mut SegSeat, fuse: &mut F) -> Result<Turn, Dead>
    requires its { IsOf seat.old shared.now.table }
    requires level { level_of seat.old ≢ Free }
    requires idle { IsIdle (view_of seat.old) }
    ensures its { IsOf seat.new shared.now.table }
    ensures continues { Continues (view_of seat.old) (view_of seat.new) result }
    ensures level { level_of seat.new ≡ level_of seat.old }
{
    let (first, second) = load_words(shared, seat, fuse)?;
    let word = load_count(&shared.table, seat, fuse)?;
    // the tests have no segment with so many entries
    let Ok(entries) = u32::try_from(word) else {
        return Err(Dead);
    };
    let ask = Ask::Count { segment: 0 };
    let number = shared.table.tell(seat, fuse, ask, Heard::Count(entries))?;
    Ok(Turn::Read {
        first,
        second,
        number,
    })
}

/// Puts the number of the change as the value, under Write.
fn put<F: Fuse>(shared: &Shared, seat: &mut SegSeat, fuse: &mut F) -> Result<Turn, Dead>
    requires its { IsOf seat.old shared.now.table }
    requires level { level_of seat.old ≡ Write }
    requires idle { IsIdle (view_of seat.old) }
    ensures its { IsOf seat.new shared.now.table }
    ensures continues { Continues (view_of seat.old) (view_of seat.new) result }
    ensures level { level_of seat.new ≡ Write }
{
    let mut hold = shared.table.hold(seat, fuse);
    match put_number(&mut hold, &shared.geo, KEY)? {
        Some(number) => Ok(Turn::Changed(number)),
        None => Ok(Turn::Missed),
    }
}

/// A read under Read.
pub fn read<F: Fuse>(shared: &Shared, seat: &mut SegSeat, fuse: &mut F) -> Result<Turn, Dead>
    requires its { IsOf seat.old shared.now.table }
    requires level { level_of seat.old ≡ Free }
    requires idle { IsIdle (view_of seat.old) }
    ensures its { IsOf seat.new shared.now.table }
    ensures continues { Continues (view_of seat.old) (view_of seat.new) result }
    ensures level { OnOk result (level_of seat.new ≡ Free) }
{
    match shared.table.read(seat, fuse, TRIES) {
        Ok(()) => {}
        Err(Stop::Busy { .. }) => return Ok(Turn::Missed),
        Err(Stop::Died) => return Err(Dead),
    }
    let found = load_value(shared, seat, fuse)?;
    shared.table.release(seat, fuse)?;
    Ok(found)
}

/// A change under Write.
pub fn write<F: Fuse>(shared: &Shared, seat: &mut SegSeat, fuse: &mut F) -> Result<Turn, Dead>
    requires its { IsOf seat.old shared.now.table }
    requires level { level_of seat.old ≡ Free }
    requires idle { IsIdle (view_of seat.old) }
    ensures its { IsOf seat.new shared.now.table }
    ensures continues { Continues (view_of seat.old) (view_of seat.new) result }
    ensures level { OnOk result (level_of seat.new ≡ Free) }
{
    match shared.table.write(seat, fuse, TRIES) {
        Ok(()) => {}
        Err(Stop::Busy { .. }) => return Ok(Turn::Missed),
        Err(Stop::Died) => return Err(Dead),
    }
    let made = put(shared, seat, fuse)?;
    shared.table.release(seat, fuse)?;
    Ok(made)
}

/// A read under Update, a change after a raise, and a read after the level was lowered to Read.
pub fn update<F: Fuse>(shared: &Shared, seat: &mut SegSeat, fuse: &mut F) -> Result<Turn, Dead>
    requires its { IsOf seat.old shared.now.table }
    requires level { level_of seat.old ≡ Free }
    requires idle { IsIdle (view_of seat.old) }
    ensures its { IsOf seat.new shared.now.table }
    ensures continues { Continues (view_of seat.old) (view_of seat.new) result }
    ensures level { OnOk result (level_of seat.new ≡ Free) }
{
    match shared.table.update(seat, fuse, TRIES) {
        Ok(()) => {}
        Err(Stop::Busy { .. }) => return Ok(Turn::Missed),
        Err(Stop::Died) => return Err(Dead),
    }
    load_value(shared, seat, fuse)?;
    match shared.table.raise(seat, fuse, TRIES) {
        Ok(()) => {}
        Err(Stop::Busy { .. }) => {
            shared.table.release(seat, fuse)?;
            return Ok(Turn::Missed);
        }
        Err(Stop::Died) => return Err(Dead),
    }
    let made = put(shared, seat, fuse)?;
    shared.table.lower(seat, fuse)?;
    shared.table.lower_to_read(seat, fuse)?;
    load_value(shared, seat, fuse)?;
    shared.table.release(seat, fuse)?;
    Ok(made)
}

/// The two words of the value and the number of entries, by a peek over the open round, in which nothing was found yet.
fn peek_value<F: Fuse>(
    shared: &Shared,
    seat: &mut SegSeat,
    fuse: &mut F,
) -> Result<(u64, u64, u64), Dead>
    requires its { IsOf seat.old shared.now.table }
    requires opened { IsOpen [] (view_of seat.old) }
    ensures its { IsOf seat.new shared.now.table }
    ensures number { (view_of seat.new).own.number ≡ (view_of seat.old).own.number }
    ensures level { level_of seat.new ≡ level_of seat.old }
    ensures found { IfOk result (λ words. IsOpen
        (record { at = 2; word = words.2 } ∷ record { at = 141; word = words.1 } ∷ record { at = 140; word = words.0 } ∷ [])
        (view_of seat.new)) }
{
    let mut peeking = shared.table.peek(seat, fuse);
    let first = peeking.load(FIRST)?;
    let second = peeking.load(SECOND)?;
    let entries = peeking.load(2)?;
    Ok((first, second, entries))
}

/// A read in a round without a level. Where it dies, the round may stay open.
pub fn read_in_round<F: Fuse>(
    shared: &Shared,
    seat: &mut SegSeat,
    fuse: &mut F,
) -> Result<Turn, Dead>
    requires its { IsOf seat.old shared.now.table }
    requires level { level_of seat.old ≡ Free }
    requires idle { IsIdle (view_of seat.old) }
    ensures its { IsOf seat.new shared.now.table }
    ensures continues { Continues (view_of seat.old) (view_of seat.new) result }
    ensures level { OnOk result (level_of seat.new ≡ Free) }
{
    if !shared.table.open_round(seat, fuse)? {
        return Ok(Turn::Missed);
    }
    let (first, second, word) = peek_value(shared, seat, fuse)?;
    // the tests have no segment with so many entries
    let Ok(entries) = u32::try_from(word) else {
        return Err(Dead);
    };
    let ask = Ask::Count { segment: 0 };
    match shared
        .table
        .close_round(seat, fuse, ask, Heard::Count(entries))?
    {
        Some(number) => Ok(Turn::Read {
            first,
            second,
            number,
        }),
        None => Ok(Turn::Missed),
    }
}

/// A segment, its root, and four seats.
#[derive(Drop)]
pub struct Started {
    pub shared: Shared,
    pub root: SegSeat,
    pub zero: SegSeat,
    pub one: SegSeat,
    pub two: SegSeat,
    pub three: SegSeat,
}

/// A segment of one tier in which nothing was written.
pub fn start(alloc: Global) -> Result<Started, Fail>
    ensures root { IfOk result (λ s. IsRootOfFour s.shared.table s.root) }
    ensures zero { IfOk result (λ s. IsReady 0 s.shared.table s.zero × (level_of s.zero ≡ Free)) }
    ensures one { IfOk result (λ s. IsReady 1 s.shared.table s.one × (level_of s.one ≡ Free)) }
    ensures two { IfOk result (λ s. IsReady 2 s.shared.table s.two × (level_of s.two ≡ Free)) }
    ensures three { IfOk result (λ s. IsReady 3 s.shared.table s.three × (level_of s.three ≡ Free)) }
{
    let geo = Geo::new(1, 1, 64, 4, 0)?;
    if geo.segment_of(hash(KEY)) != 0 || !geo.fits(1, 16) || geo.segment_words() <= SECOND {
        return Err("no room for the key")?;
    }
    let words = vec![in alloc; 0; geo.segment_words() as usize]?;
    let (table, mut root) = SegTable::new(alloc, &geo, 0, words.as_slice())?;
    let zero = table.split(&mut root, 0);
    let one = table.split(&mut root, 1);
    let two = table.split(&mut root, 2);
    let three = table.split(&mut root, 3);
    Ok(Started {
        shared: Shared { table, geo },
        root,
        zero,
        one,
        two,
        three,
    })
}

/// The words at the end, where the four seats were joined.
pub fn words_at_end(
    alloc: Global,
    shared: Shared,
    mut root: SegSeat,
    zero: SegSeat,
    one: SegSeat,
    two: SegSeat,
    three: SegSeat,
) -> Result<Vec<u64>, NoMemory>
    requires root { IsRootOfFour shared.table root }
    requires zero { IsNumbered 0 shared.table zero }
    requires one { IsNumbered 1 shared.table one }
    requires two { IsNumbered 2 shared.table two }
    requires three { IsNumbered 3 shared.table three }
{
    let Shared { table, geo: _ } = shared;
    table.join(&mut root, three);
    table.join(&mut root, two);
    table.join(&mut root, one);
    table.join(&mut root, zero);
    table.close(alloc, root)
}
