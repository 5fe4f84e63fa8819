//! Seats that are split off and joined, and the end of a yard.

ghost use Rattle.std.specs.Prelude.{◌≡◌, ◌+◌, ◌<◌, ◌≤◌, ◌^◌, List, ℕ, [], IfOk, IsOk, count_by, drop, length, nat_lt};
ghost use Rattle.core.specs.Mem.Slots.{slots_items, slots_len, IsFull};
ghost use Rattle.cm_geo.specs.declared.geo.Geo.{Geo};
ghost use Rattle.cm_yard.specs.Claims.{HasFoundAll};
ghost use Rattle.cm_yard.specs.Ends.{AllJoined, Closes};
ghost use Rattle.cm_yard.specs.Rule.{count_of};
ghost use Rattle.cm_yard.specs.Views.{new_view, with_due, with_joined, with_seat};
ghost use Rattle.cm_yard.specs.Words.{owned_in};

use crate::plays::{NumberLoad, Says, Seating};
use crate::view::View;
use crate::yard::{Yard, YardSeat};
use atomic_table::{Closed, Seat};
use cm_plain::NoMemory;
use std::alloc::Global;
use std::marker::Brand;

/// How many words, from a place on, aren't 0.
fn count_owned(closed: &Closed<(), Global>, from: usize) -> u32
    requires full { IsFull closed.now.words }
    requires long { length (slots_items closed.now.words) ≡ slots_len closed.now.words }
    requires within_limit { slots_len closed.now.words < 2 ^ 32 }
    requires inside { from ≤ slots_len closed.now.words }
    ensures { result ≡ count_by (λ word. nat_lt 0 word) (drop from (slots_items closed.now.words)) }
{
    let end = closed.words.len();
    let mut count = 0;
    for at in from..end {
        if closed.word(at) != 0 {
            count += 1;
        }
    }
    count
}

impl Yard {
    ghost use Rattle.cm_yard.specs.Yards.{IsOf, key_of, view_of};

    /// Notes the number of the next seat, by a load of a word that it doesn't look at.
    fn number_as<B: Says>(&self, seat: &mut Seat<(), View>, _number: u32)
        requires its { seat.old.table_id ≡ self.now.table.shared.table_id }
        requires root { seat.old.me.0.number ≡ 64 }
        requires none_due { seat.old.me.0.due ≡ [] }
        requires never { count_of B.says seat.old.me.0.made ≡ 0 }
        ensures its { seat.new.table_id ≡ seat.old.table_id }
        ensures bare { seat.new.me.1 ≡ seat.old.me.1 }
        ensures view { seat.new.me.0 ≡ with_due seat.old.me.0 B.says }
    {
        self.table.shared.load::<NumberLoad<B>>(seat, 0);
    }

    /// A seat of a number below 64 that the root gave to no seat before.
    pub fn split(&self, root: &mut YardSeat, number: u32) -> YardSeat
        requires its { IsOf root.old self.now }
        requires root { (view_of root.old).number ≡ 64 }
        requires small { number < 64 }
        requires never { count_of number (view_of root.old).made ≡ 0 }
        ensures its { IsOf root.new self.now }
        ensures view { view_of root.new ≡ with_seat (view_of root.old) number }
        ensures seat_its { IsOf result self.now }
        ensures seat { view_of result ≡ new_view number }
    {
        self.number_as::<Brand>(&mut root.seat, number);
        YardSeat {
            seat: self.table.shared.split_seat::<Seating>(&mut root.seat),
        }
    }

    /// The root takes over what another seat has noted, of a caller that is live or dead.
    pub fn join(&self, root: &mut YardSeat, from: YardSeat)
        requires its { IsOf root.old self.now }
        requires from_its { IsOf from self.now }
        requires root { (view_of root.old).number ≡ 64 }
        ensures its { IsOf root.new self.now }
        ensures view { view_of root.new ≡ with_joined (view_of root.old) (view_of from) }
    {
        let YardSeat { seat } = from;
        self.table.shared.join_seat::<Seating>(&mut root.seat, seat);
    }

    /// The number of owned claim words, once every seat that the root made was joined. It takes no memory yet,
    /// and so always answers Ok.
    pub fn close(self, _alloc: Global, root: YardSeat) -> Result<u32, NoMemory>
        requires its { IsOf root self }
        requires root { (view_of root).number ≡ 64 }
        requires joined { AllJoined (view_of root) }
        ensures owned { IfOk result (λ count. (words : List ℕ) × Closes (key_of self) (view_of root) words × (count ≡ owned_in (key_of self).geo words)) }
        ensures sum { IfOk result (λ count. count ≡ owned_in (key_of self).geo (key_of self).first + length (view_of root).claims) }
        ensures within_limit { IfOk result (λ count. count ≤ (key_of self).geo.extra) }
        ensures all { IfOk result (λ count. HasFoundAll (key_of self).geo.extra (view_of root) → count ≡ (key_of self).geo.extra) }
        ensures ample { IsOk result }
    {
        let Yard {
            table,
            segments,
            extra: _,
        } = self;
        let YardSeat { seat } = root;
        let closed = table.close_with(seat);
        let count = count_owned(&closed, segments as usize);
        closed.free();
        Ok(count)
    }
}
