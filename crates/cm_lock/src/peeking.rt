//! A peek over the open round of a seat.

ghost use Rattle.std.specs.Prelude.{◌≡◌, IsSome};

use crate::ask::ask_fuse;
use crate::table::{SegSeat, SegTable};
use cm_words::{Dead, EventKind, Fuse, Peek};

/// Loads of the words of a table by one seat, in its open round, under one fuse.
pub struct Peeking<'a, F: Fuse> {
    table: &'a SegTable,
    seat: &'a mut SegSeat,
    fuse: &'a mut F,
    pub ghost fits: { seat.now.seat.table_id ≡ table.now.table.shared.table_id },
    pub ghost open: { IsSome seat.now.seat.me.0.round },
}

// The seat and the fuse as they were left are the lender's.
impl<'a, F: Fuse> Drop for Peeking<'a, F> {
    fn drop(self)
        ensures seat { self.exit.1.0.now ≡ self.entry.seat.now }
        ensures fuse { self.exit.1.1.0.now ≡ self.entry.fuse.now }
    {
        let Peeking {
            table: _,
            seat: _,
            fuse: _,
        } = self;
    }
}

impl SegTable {
    ghost use Rattle.cm_lock.specs.Tables.{IsOf, view_of};

    /// A peek at the words, while the seat's round is open.
    pub fn peek<'a, F: Fuse>(&'a self, seat: &'a mut SegSeat, fuse: &'a mut F) -> Peeking<'a, F>
        requires its { IsOf seat.old self.now }
        requires open { IsSome (view_of seat.old).round }
        ensures seat_name { result.seat.ghost_name ≡ seat.entry.ghost_name }
        ensures fuse_name { result.fuse.ghost_name ≡ fuse.entry.ghost_name }
        ensures seat { result.seat.now ≡ seat.old }
        ensures fuse { result.fuse.now ≡ fuse.old }
        ensures table { result.table.now ≡ self.now }
    {
        Peeking {
            table: self,
            seat,
            fuse,
        }
    }
}

impl<'a, F: Fuse> Peek for Peeking<'a, F> {
    ghost use Rattle.cm_lock.specs.Peekings.{SameRest, peeking_seen, same_rest_reflexive, same_rest_transitive};

    ghost seen = { λ p. peeking_seen F.fused p };

    ghost same_rest = { λ a b. SameRest a b };

    ghost rest_reflexive = { λ p. same_rest_reflexive p };

    ghost rest_transitive = { λ a b c. same_rest_transitive a b c };

    fn load(&mut self, at: u32) -> Result<u64, Dead> {
        ask_fuse(self.fuse, EventKind::Load)?;
        Ok(self.seat.peek(self.table, at))
    }
}
