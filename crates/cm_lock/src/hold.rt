//! A memory over a seat that holds a level.

ghost use Rattle.std.specs.Prelude.{◌≡◌, ◌≢◌};
ghost use Rattle.cm_lock.specs.declared.view.Level.TheVariants.{Free};

use crate::ask::ask_fuse;
use crate::table::{SegSeat, SegTable};
use cm_plain::Plan;
use cm_words::{Dead, EventKind, Fuse, Mem};

/// A guarded memory of the words of a table, by one seat, under one fuse. It is `Writable` at level Write, and
/// `Readable` at Read and Update. It notes what the seat loaded or stored since it was last Free.
pub struct Hold<'a, F: Fuse> {
    table: &'a SegTable,
    seat: &'a mut SegSeat,
    fuse: &'a mut F,
    pub ghost fits: { seat.now.seat.table_id ≡ table.now.table.shared.table_id },
}

// The seat and the fuse as they were left are the lender's.
impl<'a, F: Fuse> Drop for Hold<'a, F> {
    fn drop(self)
        ensures seat { self.exit.1.0.now ≡ self.entry.seat.now }
        ensures fuse { self.exit.1.1.0.now ≡ self.entry.fuse.now }
    {
        let Hold {
            table: _,
            seat: _,
            fuse: _,
        } = self;
    }
}

impl SegTable {
    ghost use Rattle.cm_lock.specs.Tables.{IsOf, level_of};

    /// A memory of the words, while the seat holds its level.
    pub fn hold<'a, F: Fuse>(&'a self, seat: &'a mut SegSeat, fuse: &'a mut F) -> Hold<'a, F>
        requires its { IsOf seat.old self.now }
        requires level { level_of seat.old ≢ Free }
        ensures seat_name { result.seat.ghost_name ≡ seat.entry.ghost_name }
        ensures fuse_name { result.fuse.ghost_name ≡ fuse.entry.ghost_name }
        ensures seat { result.seat.now ≡ seat.old }
        ensures fuse { result.fuse.now ≡ fuse.old }
        ensures table { result.table.now ≡ self.now }
    {
        Hold {
            table: self,
            seat,
            fuse,
        }
    }
}

impl<'a, F: Fuse> Mem for Hold<'a, F> {
    ghost use Rattle.cm_lock.specs.Holds.{RestWith, SameRest, hold_seen, lock_unnoted, rest_before, rest_behind, same_rest_reflexive, same_rest_transitive};

    ghost seen = { λ m. hold_seen F.fused m };

    ghost same_rest = { λ a b. SameRest a b };

    ghost rest_with = { λ a b change number. RestWith a b change number };

    ghost lock_unnoted = { λ m. lock_unnoted F.fused m };

    ghost rest_reflexive = { λ m. same_rest_reflexive m };

    ghost rest_transitive = { λ a b c. same_rest_transitive a b c };

    ghost rest_then_change = { λ a b c change number. rest_before a b c change number };

    ghost change_then_rest = { λ a b c change number. rest_behind a b c change number };

    fn load(&mut self, at: u32) -> Result<u64, Dead> {
        ask_fuse(self.fuse, EventKind::Load)?;
        Ok(self.seat.load(self.table, at))
    }

    fn store(&mut self, at: u32, word: u64) -> Result<(), Dead> {
        ask_fuse(self.fuse, EventKind::Store)?;
        self.seat.store(self.table, at, word);
        Ok(())
    }

    fn number(&mut self) -> Result<u64, Dead> {
        ask_fuse(self.fuse, EventKind::Load)?;
        Ok(self.seat.load(self.table, 1) / 2)
    }

    fn begin(&mut self, plan: &Plan<'_>) -> Result<(), Dead> {
        ask_fuse(self.fuse, EventKind::Store)?;
        self.seat.begin(self.table, plan);
        Ok(())
    }

    fn finish(&mut self) -> Result<u64, Dead> {
        ask_fuse(self.fuse, EventKind::Store)?;
        let word = self.seat.finish(self.table);
        Ok(word / 2)
    }
}
