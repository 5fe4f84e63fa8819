//! Seats that are split off and joined, and the end of a table.

ghost use Rattle.std.specs.Prelude.{◌≡◌, ◌+◌, ◌<◌, ◌≤◌, [], length, IfOk};
ghost use Rattle.core.specs.Mem.Slots.{slots_items, slots_len, IsFull};
ghost use Rattle.cm_lock.specs.Rule.{CountsEvents};
ghost use Rattle.cm_lock.specs.Seats.{AllJoined, count_of};
ghost use Rattle.cm_lock.specs.Views.{new_view, with_due, with_joined, with_seat};

use crate::plays::{CountsLoad, NumberLoad, PicksNumber, Seating};
use crate::table::{SegSeat, SegTable};
use crate::view::{Level, View};
use atomic_table::{Closed, Seat};
use cm_plain::NoMemory;
use std::alloc::Global;
use std::marker::Brand;

/// The words of a table that was closed. Takes memory.
fn copied_words(alloc: Global, closed: &Closed<(), Global>) -> Result<Vec<u64>, NoMemory>
    requires full { IsFull closed.now.words }
    requires long { length (slots_items closed.now.words) ≡ slots_len closed.now.words }
    ensures { IfOk result (λ words. words.items ≡ slots_items closed.now.words) }
{
    let count = closed.words.len();
    let mut words = Vec::with_capacity(alloc, count)?;
    for at in 0..count {
        words.push(closed.word(at))?;
    }
    Ok(words)
}

impl SegTable {
    ghost use Rattle.cm_lock.specs.Tables.{Closes, IsOf, key_of, level_of, view_of};

    /// Notes the number of the next seat, by a load of a word that it doesn't look at.
    fn number_as<B: PicksNumber>(&self, seat: &mut Seat<(), View>, _number: u32)
        requires its { seat.old.table_id ≡ self.now.table.shared.table_id }
        requires root { seat.old.me.0.own.number ≡ 64 }
        requires none_due { seat.old.me.0.due ≡ [] }
        requires never { count_of B.number seat.old.me.0.made ≡ 0 }
        ensures its { seat.new.table_id ≡ seat.old.table_id }
        ensures view { seat.new.me.0 ≡ with_due seat.old.me.0 B.number }
        ensures bare { seat.new.me.1 ≡ seat.old.me.1 }
    {
        self.table.shared.load::<NumberLoad<B>>(seat, 0);
    }

    /// A seat of a number below 64 that the root gave to no seat before. It is Free, and has seen what the root
    /// has seen.
    pub fn split(&self, root: &mut SegSeat, number: u32) -> SegSeat
        requires its { IsOf root.old self.now }
        requires root { (view_of root.old).own.number ≡ 64 }
        requires small { number < 64 }
        requires never { count_of number (view_of root.old).made ≡ 0 }
        ensures its { IsOf root.new self.now }
        ensures view { view_of root.new ≡ with_seat (view_of root.old) number }
        ensures seat_its { IsOf result self.now }
        ensures seat { view_of result ≡ new_view number (view_of root.old).seen }
    {
        self.number_as::<Brand>(&mut root.seat, number);
        let seat = self.table.shared.split_seat::<Seating>(&mut root.seat);
        SegSeat {
            seat,
            level: Level::Free,
            number: 0,
            first: 0,
        }
    }

    /// Loads a word that it doesn't look at, by a seat that is to be joined: contracts learn what it counts.
    fn tell_counts(&self, seat: &mut Seat<(), View>)
        requires its { seat.old.table_id ≡ self.now.table.shared.table_id }
        requires live { seat.old.me.0.own.number ≤ 64 }
        ensures its { seat.new.table_id ≡ seat.old.table_id }
        ensures id { seat.new.id ≡ seat.old.id }
        ensures view { seat.new.me.0 ≡ seat.old.me.0 }
        ensures bare { seat.new.me.1 ≡ seat.old.me.1 }
        ensures counts { CountsEvents seat.old.me.0 }
    {
        self.table.shared.load::<CountsLoad>(seat, 0);
    }

    /// The root takes over what another seat has seen and done, of a caller that is live or dead. A level that
    /// a dead one holds stays in the lock word, and the root keeps it with its plan and its notes.
    pub fn join(&self, root: &mut SegSeat, from: SegSeat)
        requires its { IsOf root.old self.now }
        requires from_its { IsOf from self.now }
        requires root { (view_of root.old).own.number ≡ 64 }
        ensures its { IsOf root.new self.now }
        ensures view { view_of root.new ≡ with_joined (view_of root.old) (view_of from) }
        ensures counts { CountsEvents (view_of from) }
    {
        let SegSeat {
            mut seat,
            level: _,
            number: _,
            first: _,
        } = from;
        self.tell_counts(&mut seat);
        self.table.shared.join_seat::<Seating>(&mut root.seat, seat);
    }

    /// The words, once every seat that the root made was joined: the rule holds of them and of the root's view
    /// alone. Takes memory: NoMemory where none is left, and no other error.
    pub fn close(self, alloc: Global, root: SegSeat) -> Result<Vec<u64>, NoMemory>
        requires its { IsOf root self }
        requires root { (view_of root).own.number ≡ 64 }
        requires joined { AllJoined (view_of root) }
        ensures { IfOk result (λ words. Closes (key_of self) (view_of root) words.items) }
    {
        let SegTable { table } = self;
        let SegSeat {
            seat,
            level: _,
            number: _,
            first: _,
        } = root;
        let closed = table.close_with(seat);
        let words = copied_words(alloc, &closed);
        closed.free();
        words
    }
}
