//! Passes that the root takes back.

ghost use Rattle.std.specs.Prelude.{◌≡◌, All, None, false};
ghost use Rattle.cm_lock.specs.Rule.{CountsEvents};
ghost use Rattle.cm_yard.specs.Views.{with_joined as yard_with_joined};
ghost use Rattle.cm_store.specs.Passes.{AreSeatsOf, IsPassOf, claims_view, is_dead, sweep_of, views, views_of};
ghost use Rattle.cm_store.specs.Splits.{IsRoot, IsRootSeat, joined_views};

use crate::pass::Pass;
use crate::store::Store;
use cm_lock::{SegSeat, SegTable};
use cm_words::{Fuse, Never};

/// Joins each seat to that of the root, from the last one on.
fn join_seats(tables: &[SegTable], roots: &mut Vec<SegSeat>, mut seats: Vec<SegSeat>)
    requires its { AreSeatsOf tables.now roots.old.items }
    requires from_its { AreSeatsOf tables.now seats.items }
    requires root { All IsRootSeat (views roots.old.items) }
    ensures its { AreSeatsOf tables.now roots.new.items }
    ensures root { All IsRootSeat (views roots.new.items) }
    ensures joins { views roots.new.items ≡ joined_views (views roots.old.items) (views seats.items) }
    ensures counts { All CountsEvents (views seats.items) }
{
    while let Some(seat) = seats.pop() {
        let at = seats.len();
        tables[at].join(&mut roots[at], seat);
    }
}

impl Store {
    /// Takes a pass back, live or dead, and answers its fuse. The root takes over what the pass has seen and done;
    /// levels that a dead one holds stay in the lock words. A pass in a sweep can be joined only where it is dead.
    pub fn join<F: Fuse>(&self, root: &mut Pass<Never>, pass: Pass<F>) -> F
        requires its { IsPassOf root.old self.now }
        requires from_its { IsPassOf pass self.now }
        requires root { IsRoot root.old }
        requires no_sweep { is_dead pass ≡ false → sweep_of pass ≡ None }
        ensures its { IsPassOf root.new self.now }
        ensures root { IsRoot root.new }
        ensures root_dead { is_dead root.new ≡ is_dead root.old }
        ensures root_sweep { sweep_of root.new ≡ sweep_of root.old }
        ensures root_views { views_of root.new ≡ joined_views (views_of root.old) (views_of pass) }
        ensures root_claims { claims_view root.new ≡ yard_with_joined (claims_view root.old) (claims_view pass) }
        ensures counts { All CountsEvents (views_of pass) }
        ensures fuse { result ≡ pass.fuse }
    {
        let Pass {
            seats,
            claims,
            fuse,
            number: _,
            dead: _,
            sweep: _,
        } = pass;
        join_seats(self.tables.as_slice(), &mut root.seats, seats);
        self.yard.join(&mut root.claims, claims);
        fuse
    }
}
