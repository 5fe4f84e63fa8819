//! The table of one segment, and a caller's seat.

ghost use Rattle.std.specs.Prelude.{◌≡◌, ◌<◌, ◌≤◌, ◌^◌, [], IfOk};
ghost use Rattle.cm_geo.specs.Addresses.{words_in_segment};
ghost use Rattle.cm_plain.specs.States.{State};
ghost use Rattle.cm_plain.specs.Slots.{word_at};
ghost use Rattle.cm_plain.specs.Lawful.{IsSegmentWords, Resting};
ghost use Rattle.cm_words.specs.Parity.{IsEven};
ghost use Rattle.cm_lock.specs.Numbers.{CopiesFirst, CopiesNumber};
ghost use Rattle.cm_lock.specs.Rule.{root_view};

use crate::first::FirstWords;
use crate::rule::SegRule;
use crate::view::{Key, Level, View};
use atomic_table::{Seat, Table};
use cm_geo::Geo;
use cm_plain::NoMemory;
use std::alloc::Global;

/// The words of one segment, shared among threads under a lock of three levels.
///
/// Contracts see what was fixed when it was made (`key_of`), and between any two events of any callers
/// its words and the views of all seats keep the rule `IsSharedSegment`. Word 0 is the lock word: the
/// number of readers, 2^30 for an updater and 2^31 for a writer. Word 1 is the change number: twice the number
/// of changes, and one more while a change is being stored.
#[derive(Drop)]
pub struct SegTable {
    pub(crate) table: Table<(), View, Key, SegRule, Global>,
    pub ghost wide: { table.shared.table_id.words ≡ words_in_segment table.shared.key.geo },
    pub ghost no_slot: { table.shared.table_id.slots ≡ 0 },
}

/// One caller's token for a table. What it knows and has done (`view_of`) is in contracts alone.
#[derive(Drop)]
pub struct SegSeat {
    pub(crate) seat: Seat<(), View>,
    pub(crate) level: Level,
    // the change number, where it is noted
    pub(crate) number: u64,
    // the change number that the open round began with
    pub(crate) first: u64,
    pub ghost tied: { seat.me.0.own.level ≡ level },
    pub ghost live: { seat.me.0.own.number ≤ 64 },
    pub ghost bare: { seat.me.1 ≡ [] },
    pub ghost none_due: { seat.me.0.due ≡ [] },
    pub ghost copies: { CopiesNumber seat.me.0.own number },
    pub ghost starts: { CopiesFirst seat.me.0.round first },
}

impl SegTable {
    ghost use Rattle.cm_lock.specs.Tables.{IsOf, key_of, view_of};

    /// The shared words of a segment that rest for a state, and the root seat: number 64, Free. Takes memory:
    /// NoMemory where none is left, and no other error.
    pub fn new(
        alloc: Global,
        geo: &Geo,
        segment: u32,
        words: &[u64],
    ) -> Result<(SegTable, SegSeat), NoMemory>
        requires segment { segment < geo.now.segments }
        requires are { IsSegmentWords geo.now words.now }
        requires unlocked { word_at words.now 0 ≡ 0 }
        requires even { IsEven (word_at words.now 1) }
        requires within_limit { word_at words.now 1 ≤ 2 ^ 63 }
        requires rests { (state : State) × Resting geo.now segment words.now state }
        ensures key { IfOk result (λ r. key_of r.0 ≡ record { geo = geo.now; segment = segment; first = words.now }) }
        ensures its { IfOk result (λ r. IsOf r.1 r.0) }
        ensures root { IfOk result (λ r. view_of r.1 ≡ root_view (key_of r.0)) }
    {
        let key = Key {
            geo: *geo,
            segment,
            first: FirstWords::of(words),
        };
        let (table, seat) = Table::of_words(alloc, words, &key)?;
        let root = SegSeat {
            seat,
            level: Level::Free,
            number: 0,
            first: 0,
        };
        Ok((SegTable { table }, root))
    }
}

impl SegSeat {
    ghost use Rattle.cm_lock.specs.Tables.{level_of};

    /// The level that the seat holds.
    pub fn level(&self) -> Level
        ensures { result ≡ level_of self.now }
    {
        self.level
    }
}
