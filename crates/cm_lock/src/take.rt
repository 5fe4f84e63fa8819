//! Takes of a level.

ghost use Rattle.std.specs.Prelude.{◌≡◌, ◌≢◌, ◌+◌, ◌≤◌, IfOk, OnErr, None};
ghost use Rattle.cm_words.specs.declared.fuse.EventKind.TheVariants.{Exchange};
ghost use Rattle.cm_words.specs.Meters.{CountsForBudget, ReportsDeath};
ghost use Rattle.cm_lock.specs.Levels.{Permits, weight};
ghost use Rattle.cm_lock.specs.Rule.{seat_meter};
ghost use Rattle.cm_lock.specs.Takes.{AnswersTake, AnswersTry, HasTried, ReportsStop};
ghost use Rattle.cm_lock.specs.Views.{after_look, after_miss, with_level};
ghost use Rattle.cm_lock.specs.declared.view.Level.TheVariants.{Free, Read, Update, Write};

use crate::ask::ask_fuse;
use crate::plays::{
    FirstLook, NextLook, Raise, Take, TakeExchange, TakeRead, TakeUpdate, TakeWrite,
};
use crate::table::{SegSeat, SegTable};
use crate::view::View;
use atomic_table::Seat;
use cm_words::{Dead, EventKind, Fuse};

/// Why a take or a raise didn't give the level.
#[derive(Clone, Copy, Debug, PartialEq, Eq)]
pub enum Stop {
    /// As many tries failed as were allowed, with one look each; the last one found this lock word.
    Busy { looks: u32, last: u64 },
    /// The caller died in place of an event.
    Died,
}

/// How a try ended.
enum Tried {
    /// The seat has the level.
    Taken,
    /// It failed, and found this lock word last.
    Missed { last: u64 },
}

impl SegTable {
    ghost use Rattle.cm_lock.specs.Tables.{IsOf, level_of, view_of};

    /// The lock word, by one load.
    fn look(&self, seat: &mut Seat<(), View>, is_first: bool) -> u64
        requires its { seat.old.table_id ≡ self.now.table.shared.table_id }
        requires live { seat.old.me.0.own.number ≤ 64 }
        ensures its { seat.new.table_id ≡ seat.old.table_id }
        ensures view { seat.new.me.0 ≡ after_look is_first seat.old.me.0 result }
        ensures bare { seat.new.me.1 ≡ seat.old.me.1 }
    {
        if is_first {
            self.table.shared.load::<FirstLook>(seat, 0)
        } else {
            self.table.shared.load::<NextLook>(seat, 0)
        }
    }

    /// One exchange of the lock word, from one that permits the level: the word that it found.
    fn exchange<L: Take>(&self, seat: &mut Seat<(), View>, word: u64, next: u64) -> u64
        requires its { seat.old.table_id ≡ self.now.table.shared.table_id }
        requires live { seat.old.me.0.own.number ≤ 64 }
        requires level { seat.old.me.0.own.level ≡ L.from }
        requires closed { L.from ≡ Free → seat.old.me.0.round ≡ None }
        requires permits { Permits L.from L.to word }
        requires next { next + weight L.from ≡ word + weight L.to }
        ensures its { seat.new.table_id ≡ seat.old.table_id }
        ensures taken { result ≡ word → seat.new.me.0 ≡ with_level L.to seat.old.me.0 }
        ensures missed { result ≢ word → seat.new.me.0 ≡ after_miss seat.old.me.0 result }
        ensures bare { seat.new.me.1 ≡ seat.old.me.1 }
    {
        self.table
            .shared
            .compare_exchange::<TakeExchange<L>>(seat, 0, word, next)
    }

    /// One look and, where the word permits the level, one exchange.
    fn one_try<L: Take, F: Fuse>(
        &self,
        seat: &mut SegSeat,
        fuse: &mut F,
        is_first: bool,
    ) -> Result<Tried, Dead>
        requires its { IsOf seat.old self.now }
        requires level { level_of seat.old ≡ L.from }
        requires closed { L.from ≡ Free → (view_of seat.old).round ≡ None }
        ensures its { IsOf seat.new self.now }
        ensures tries { IfOk result (λ tried. AnswersTry L.from L.to is_first (view_of seat.old) (view_of seat.new) tried) }
        ensures dead { OnErr result (HasTried 1 (view_of seat.old) (view_of seat.new)) }
        ensures fuse { ReportsDeath (seat_meter (F.fused fuse.old) (view_of seat.old)) (seat_meter (F.fused fuse.new) (view_of seat.new)) result }
        ensures counts { OnErr result (CountsForBudget Exchange (F.fused fuse.old).budget) }
    {
        ask_fuse(fuse, EventKind::Load)?;
        let word = self.look(&mut seat.seat, is_first);
        let Some(next) = L::next(word) else {
            return Ok(Tried::Missed { last: word });
        };
        ask_fuse(fuse, EventKind::Exchange)?;
        let found = self.exchange::<L>(&mut seat.seat, word, next);
        if found != word {
            return Ok(Tried::Missed { last: found });
        }
        seat.level = L::level();
        Ok(Tried::Taken)
    }

    /// At most so many tries.
    fn take<L: Take, F: Fuse>(
        &self,
        seat: &mut SegSeat,
        fuse: &mut F,
        tries: u32,
    ) -> Result<(), Stop>
        requires its { IsOf seat.old self.now }
        requires level { level_of seat.old ≡ L.from }
        requires closed { L.from ≡ Free → (view_of seat.old).round ≡ None }
        requires nonzero { 1 ≤ tries }
        ensures its { IsOf seat.new self.now }
        ensures takes { AnswersTake L.from L.to tries (view_of seat.old) (view_of seat.new) result }
        ensures fuse { ReportsStop (seat_meter (F.fused fuse.old) (view_of seat.old)) (seat_meter (F.fused fuse.new) (view_of seat.new)) result }
    {
        let mut last = 0;
        for i in 0..tries {
            match self.one_try::<L, F>(seat, fuse, i == 0) {
                Ok(Tried::Taken) => return Ok(()),
                Ok(Tried::Missed { last: word }) => last = word,
                Err(Dead) => return Err(Stop::Died),
            }
        }
        Err(Stop::Busy { looks: tries, last })
    }

    /// Takes Read, where nobody writes. A try is one look and, where the looked word permits the level, one
    /// exchange; Busy comes exactly where so many tries failed.
    pub fn read<F: Fuse>(&self, seat: &mut SegSeat, fuse: &mut F, tries: u32) -> Result<(), Stop>
        requires its { IsOf seat.old self.now }
        requires level { level_of seat.old ≡ Free }
        requires closed { (view_of seat.old).round ≡ None }
        requires nonzero { 1 ≤ tries }
        ensures its { IsOf seat.new self.now }
        ensures takes { AnswersTake Free Read tries (view_of seat.old) (view_of seat.new) result }
        ensures fuse { ReportsStop (seat_meter (F.fused fuse.old) (view_of seat.old)) (seat_meter (F.fused fuse.new) (view_of seat.new)) result }
    {
        self.take::<TakeRead, F>(seat, fuse, tries)
    }

    /// Takes Update, where nobody writes or holds Update. Tries and Busy are as for `read`.
    pub fn update<F: Fuse>(&self, seat: &mut SegSeat, fuse: &mut F, tries: u32) -> Result<(), Stop>
        requires its { IsOf seat.old self.now }
        requires level { level_of seat.old ≡ Free }
        requires closed { (view_of seat.old).round ≡ None }
        requires nonzero { 1 ≤ tries }
        ensures its { IsOf seat.new self.now }
        ensures takes { AnswersTake Free Update tries (view_of seat.old) (view_of seat.new) result }
        ensures fuse { ReportsStop (seat_meter (F.fused fuse.old) (view_of seat.old)) (seat_meter (F.fused fuse.new) (view_of seat.new)) result }
    {
        self.take::<TakeUpdate, F>(seat, fuse, tries)
    }

    /// Takes Write, where nobody holds a level. Tries and Busy are as for `read`.
    pub fn write<F: Fuse>(&self, seat: &mut SegSeat, fuse: &mut F, tries: u32) -> Result<(), Stop>
        requires its { IsOf seat.old self.now }
        requires level { level_of seat.old ≡ Free }
        requires closed { (view_of seat.old).round ≡ None }
        requires nonzero { 1 ≤ tries }
        ensures its { IsOf seat.new self.now }
        ensures takes { AnswersTake Free Write tries (view_of seat.old) (view_of seat.new) result }
        ensures fuse { ReportsStop (seat_meter (F.fused fuse.old) (view_of seat.old)) (seat_meter (F.fused fuse.new) (view_of seat.new)) result }
    {
        self.take::<TakeWrite, F>(seat, fuse, tries)
    }

    /// Raises Update to Write, where nobody reads; notes stay. Tries and Busy are as for `read`. After Busy
    /// the seat still holds Update.
    pub fn raise<F: Fuse>(&self, seat: &mut SegSeat, fuse: &mut F, tries: u32) -> Result<(), Stop>
        requires its { IsOf seat.old self.now }
        requires level { level_of seat.old ≡ Update }
        requires nonzero { 1 ≤ tries }
        ensures its { IsOf seat.new self.now }
        ensures takes { AnswersTake Update Write tries (view_of seat.old) (view_of seat.new) result }
        ensures fuse { ReportsStop (seat_meter (F.fused fuse.old) (view_of seat.old)) (seat_meter (F.fused fuse.new) (view_of seat.new)) result }
    {
        self.take::<Raise, F>(seat, fuse, tries)
    }
}
