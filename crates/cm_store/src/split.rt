//! Passes that the root splits off.

ghost use Rattle.std.specs.Prelude.{◌≡◌, ◌+◌, ◌<◌, ◌≤◌, ◌++◌, ◌∷◌, [], All, IfOk, OnErr, OnOk, None, false, length, vec_capacity, vec_len};
ghost use Rattle.cm_yard.specs.Views.{new_view as yard_new_view, with_seat as yard_with_seat};
ghost use Rattle.cm_store.specs.Passes.{AreSeatsOf, IsPassOf, claims_view, is_dead, number_of, sweep_of, views, views_of};
ghost use Rattle.cm_store.specs.Splits.{HasNotMade, IsRoot, MayMake, new_views, with_seats};

use crate::pass::Pass;
use crate::store::Store;
use cm_lock::{SegSeat, SegTable};
use cm_plain::NoMemory;
use cm_words::{Fuse, Never};
use std::alloc::Global;

/// Pushes a seat where there is room for it.
fn push_with_room(seats: &mut Vec<SegSeat>, seat: SegSeat)
    requires room { vec_len seats.old < vec_capacity seats.old }
    ensures items { seats.new.items ≡ seats.old.items ++ seat ∷ [] }
    ensures len { vec_len seats.new ≡ vec_len seats.old + 1 }
    ensures capacity { vec_capacity seats.old ≤ vec_capacity seats.new }
{
    match seats.push(seat) {
        Ok(()) => (),
        Err(_) => unreachable!(),
    }
}

/// Splits a seat off each of the root's, into a vector with room for all.
fn split_seats(tables: &[SegTable], roots: &mut Vec<SegSeat>, number: u32, seats: &mut Vec<SegSeat>)
    requires its { AreSeatsOf tables.now roots.old.items }
    requires root { All (MayMake number) (views roots.old.items) }
    requires small { number < 64 }
    requires empty { seats.old.items ≡ [] }
    requires room { length tables.now ≤ vec_capacity seats.old }
    ensures its { AreSeatsOf tables.now roots.new.items }
    ensures roots { views roots.new.items ≡ with_seats number (views roots.old.items) }
    ensures made_its { AreSeatsOf tables.now seats.new.items }
    ensures made { views seats.new.items ≡ new_views number (views roots.old.items) }
{
    for at in 0..tables.len() {
        let seat = tables[at].split(&mut roots[at], number);
        push_with_room(seats, seat);
    }
}

impl Store {
    /// A pass of a number below 64 that the root gave to no pass before. It has seen what the root has seen. Takes
    /// memory, before all else: after NoMemory no pass was made and the fuse is gone. No other error.
    pub fn split<F: Fuse>(
        &self,
        alloc: Global,
        root: &mut Pass<Never>,
        number: u32,
        fuse: F,
    ) -> Result<Pass<F>, NoMemory>
        requires its { IsPassOf root.old self.now }
        requires root { IsRoot root.old }
        requires live { is_dead root.old ≡ false }
        requires small { number < 64 }
        requires never { HasNotMade number root.old }
        ensures its { IsPassOf root.new self.now }
        ensures root { IsRoot root.new }
        ensures root_live { is_dead root.new ≡ false }
        ensures root_sweep { sweep_of root.new ≡ sweep_of root.old }
        ensures unchanged { OnErr result (root.new ≡ root.old) }
        ensures root_views { OnOk result (views_of root.new ≡ with_seats number (views_of root.old)) }
        ensures root_claims { OnOk result (claims_view root.new ≡ yard_with_seat (claims_view root.old) number) }
        ensures made_its { IfOk result (λ pass. IsPassOf pass self.now) }
        ensures made_views { IfOk result (λ pass. views_of pass ≡ new_views number (views_of root.old)) }
        ensures made_claims { IfOk result (λ pass. claims_view pass ≡ yard_new_view number) }
        ensures made_number { IfOk result (λ pass. number_of pass ≡ number) }
        ensures made_fuse { IfOk result (λ pass. pass.fuse ≡ fuse) }
        ensures made_live { IfOk result (λ pass. is_dead pass ≡ false) }
        ensures made_no_sweep { IfOk result (λ pass. sweep_of pass ≡ None) }
    {
        let mut seats = Vec::with_capacity(alloc, self.tables.len())?;
        split_seats(self.tables.as_slice(), &mut root.seats, number, &mut seats);
        let claims = self.yard.split(&mut root.claims, number);
        Ok(Pass {
            seats,
            claims,
            fuse,
            number,
            dead: false,
            sweep: None,
        })
    }
}
