//! Calls by one seat.

ghost use Rattle.std.specs.Prelude.{◌≡◌, ◌≤◌, List, Result, length, ℕ};
ghost use Rattle.cm_geo.specs.declared.geo.Geo.{Geo as GeoSeen};
ghost use Rattle.cm_lock.specs.declared.take.Stop.{Stop as StopSeen};
ghost use Rattle.cm_lock.specs.declared.view.View.{View};
ghost use Rattle.cm_lock.specs.Tables.{IsOf, view_of};
ghost use Rattle.cm_yard.specs.declared.view.View.{View as YardView};
ghost use Rattle.cm_yard.specs.Yards.{IsOf as IsOfYard, view_of as yard_view_of};
ghost use Rattle.cm_turn.specs.Calls.{ReportsStop};
ghost use Rattle.cm_turn.specs.Turns.{IsGround, turn_meter};

use crate::turn::Ground;
use cm_lock::{SegSeat, Stop};
use cm_words::Fuse;
use cm_yard::YardSeat;

/// A call by one seat, and by its pass's seat of the yard, whatever it does and answers.
pub trait SeatCall {
    type Answer;

    // what it asks of the geometry, of the segment and of its seat
    ghost may: { Self → GeoSeen → ℕ → View → Type 0 };

    // how many bytes it may write to `out`
    ghost room: { Self → ℕ };

    // what it leaves: of the segment and the number of extra tiers, the bytes in `out`, the seat before and after it, the seat of the
    // yard before and after it, and the answer
    ghost leaves: { Self → ℕ → ℕ → List ℕ → View → View → YardView → YardView → Result Self.Answer StopSeen → Type 0 };

    fn act<F: Fuse>(
        &self,
        ground: &Ground<'_>,
        seat: &mut SegSeat,
        claims: &mut YardSeat,
        fuse: &mut F,
        out: &mut [u8],
    ) -> Result<Self::Answer, Stop>
        requires ground { IsGround ground.now }
        requires its { IsOf seat.old ground.now.table.now }
        requires claims_its { IsOfYard claims.old ground.now.yard.now }
        requires may { may self.now ground.now.geo.now ground.now.segment (view_of seat.old) }
        requires room { room self.now ≤ length out.old }
        ensures its { IsOf seat.new ground.now.table.now }
        ensures claims_its { IsOfYard claims.new ground.now.yard.now }
        ensures fuse { ReportsStop (turn_meter (F.fused fuse.old) (view_of seat.old) (yard_view_of claims.old)) (turn_meter (F.fused fuse.new) (view_of seat.new) (yard_view_of claims.new)) result }
        ensures leaves { leaves self.now ground.now.segment ground.now.geo.now.extra out.new (view_of seat.old) (view_of seat.new) (yard_view_of claims.old) (yard_view_of claims.new) result }
        ensures long { length out.new ≡ length out.old };
}
