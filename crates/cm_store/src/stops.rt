//! The stop words of segments, by which a pass that died tells others.

ghost use Rattle.std.specs.Prelude.{◌≡◌, ◌≢◌, ◌≤◌, ◌<◌, ◌↔◌, ℕ, All, IfNone, IfSome, IsTrue, length, slice_index_or, true};
ghost use Rattle.cm_lock.specs.declared.view.Level.TheVariants.{Free};
ghost use Rattle.cm_lock.specs.declared.table.SegSeat.{SegSeat};
ghost use Rattle.cm_lock.specs.declared.view.View.{View};
ghost use Rattle.cm_lock.specs.Tables.{level_of};
ghost use Rattle.cm_yard.specs.Views.{with_stop};
ghost use Rattle.cm_store.specs.Passes.{IsPassOf, claims_view, is_dead, views, views_of};
ghost use Rattle.cm_store.specs.Stops.{RaisesStop, SameButClaims, Stops, stop_number};

use crate::pass::Pass;
use crate::store::Store;
use cm_lock::{Level, SegSeat};
use cm_words::Fuse;

/// The number that stops others: 2 for Write, and 1 for another level.
fn stop_number(level: Level) -> u64
    requires held { level ≢ Free }
    ensures value { result ≡ stop_number level }
    ensures above { 0 < result }
    ensures within_limit { result ≤ 2 }
{
    match level {
        Level::Write => 2,
        Level::Free | Level::Read | Level::Update => 1,
    }
}

/// A seat that holds a level.
fn held_seat(seats: &[SegSeat]) -> Option<usize>
    ensures none { IfNone result (All (λ (v : View). v.own.level ≡ Free) (views seats.now)) }
    ensures inside { IfSome result (λ at. at < length seats.now) }
    ensures held { IfSome result (λ at. (seat : SegSeat) → level_of (slice_index_or seats.now at seat) ≢ Free) }
{
    for at in 0..seats.len() {
        if seats[at].level() != Level::Free {
            return Some(at);
        }
    }
    None
}

impl Store {
    /// Stores 2, for level Write, or 1, for another level, in the stop word of the segment in which the dead pass
    /// holds it. Where it holds none, nothing happens.
    pub fn raise_stop<F: Fuse>(&self, pass: &mut Pass<F>)
        requires its { IsPassOf pass.old self.now }
        requires dead { is_dead pass.old ≡ true }
        ensures its { IsPassOf pass.new self.now }
        ensures same { SameButClaims pass.old pass.new }
        ensures raises { RaisesStop (views_of pass.old) (claims_view pass.old) (claims_view pass.new) }
    {
        if let Some(at) = held_seat(pass.seats.as_slice()) {
            let number = stop_number(pass.seats[at].level());
            self.yard.raise_stop(&mut pass.claims, at as u32, number);
        }
    }

    /// Whether a segment's stop word, as loaded, stops callers that want this level: 2 stops all, and 1 all but
    /// readers. A dead pass raised it there.
    pub fn stopped<F: Fuse>(&self, pass: &mut Pass<F>, segment: u32, level: Level) -> bool
        requires its { IsPassOf pass.old self.now }
        requires segment { segment < self.now.geo.segments }
        requires wanted { level ≢ Free }
        ensures its { IsPassOf pass.new self.now }
        ensures same { SameButClaims pass.old pass.new }
        ensures finds { (found : ℕ) × (claims_view pass.new ≡ with_stop (claims_view pass.old) segment found) × (found ≤ 2) × (IsTrue result ↔ Stops found level) }
    {
        let found = self.yard.stopped(&mut pass.claims, segment);
        found == 2 || (found == 1 && level != Level::Read)
    }
}
