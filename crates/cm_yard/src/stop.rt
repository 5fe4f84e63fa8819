//! Stop words.

ghost use Rattle.std.specs.Prelude.{◌≡◌, ◌<◌, ◌≤◌};
ghost use Rattle.cm_yard.specs.Views.{with_raise, with_stop};

use crate::plays::{StopLoad, StopStore};
use crate::yard::{Yard, YardSeat};

impl Yard {
    ghost use Rattle.cm_yard.specs.Yards.{IsOf, key_of, view_of};

    /// Stores 1 or 2 in a segment's stop word, and the seat notes that it raised this number there. No event
    /// of a caller.
    pub fn raise_stop(&self, seat: &mut YardSeat, segment: u32, number: u64)
        requires its { IsOf seat.old self.now }
        requires segment { segment < (key_of self.now).geo.segments }
        requires above { 0 < number }
        requires within_limit { number ≤ 2 }
        ensures its { IsOf seat.new self.now }
        ensures raises { view_of seat.new ≡ with_raise (view_of seat.old) segment number }
    {
        self.table
            .shared
            .store::<StopStore>(&mut seat.seat, segment as usize, number);
    }

    /// A segment's stop word, as loaded: 0, 1 or 2. The seat notes that it found this number there; where it
    /// isn't 0, some seat has noted that it raised it there. No event of a caller.
    pub fn stopped(&self, seat: &mut YardSeat, segment: u32) -> u64
        requires its { IsOf seat.old self.now }
        requires segment { segment < (key_of self.now).geo.segments }
        ensures its { IsOf seat.new self.now }
        ensures finds { view_of seat.new ≡ with_stop (view_of seat.old) segment result }
        ensures within_limit { result ≤ 2 }
    {
        self.table
            .shared
            .load::<StopLoad>(&mut seat.seat, segment as usize)
    }
}
