//! A listing by one seat: the pairs are collected and entered under Read.

ghost use Rattle.std.specs.Prelude.{◌≡◌, ◌≢◌, ◌≤◌, IfOk, None, OnErr, OnOk};
ghost use Rattle.cm_plain.specs.declared.op.Op.TheVariants as op;
ghost use Rattle.cm_words.specs.Meters.{ReportsDeath};
ghost use Rattle.cm_lock.specs.Rule.{known_of, seat_meter};
ghost use Rattle.cm_lock.specs.Tables.{IsOf, key_of, level_of, view_of};
ghost use Rattle.cm_lock.specs.declared.view.Level.TheVariants.{Free, Read};
ghost use Rattle.cm_turn.specs.Calls.{DiesReading, ReportsStop};
ghost use Rattle.cm_turn.specs.Looks.{LooksNever, TakesOnce};
ghost use Rattle.cm_turn.specs.SeatLists.{EndsListing, LeavesListing, ListsHere};
ghost use Rattle.cm_turn.specs.Records.{HasLooked, Holds, IsIdle};
ghost use Rattle.cm_turn.specs.Turns.{IsGround};

use crate::listing::pairs_of;
use crate::seat_call::SeatCall;
use crate::turn::Ground;
use cm_geo::Geo;
use cm_lock::{SegSeat, SegTable, Stop};
use cm_plain::{Ask, Heard, NoMemory, PairList};
use cm_words::{Dead, Fuse};
use cm_yard::YardSeat;
use std::alloc::Global;

/// All pairs of a segment, with the number of their answer.
#[derive(Drop)]
pub struct Listing {
    pub number: u64,
    pub pairs: PairList,
}

/// A listing of a segment, with the allocator of its pairs, and how many tries its take has.
#[derive(Clone, Copy)]
pub struct ListCall {
    pub alloc: Global,
    pub segment: u32,
    pub tries: u32,
}

/// All pairs of the segment, as the words are under the seat's level. Takes memory.
fn pairs_held<F: Fuse>(
    alloc: Global,
    table: &SegTable,
    geo: &Geo,
    seat: &mut SegSeat,
    fuse: &mut F,
) -> Result<Result<PairList, NoMemory>, Dead>
    requires its { IsOf seat.old table.now }
    requires geo { (key_of table.now).geo ≡ geo.now }
    requires level { level_of seat.old ≢ Free }
    requires idle { (view_of seat.old).own.plan ≡ None }
    ensures its { IsOf seat.new table.now }
    ensures fuse { ReportsDeath (seat_meter (F.fused fuse.old) (view_of seat.old)) (seat_meter (F.fused fuse.new) (view_of seat.new)) result }
    ensures looks { HasLooked (view_of seat.old) (view_of seat.new) }
    ensures right { IfOk result (ListsHere (known_of (key_of table.now) (view_of seat.new).own)) }
{
    let mut hold = table.hold(seat, fuse);
    pairs_of(alloc, &mut hold, geo)
}

/// Under Read: the pairs, which are entered as the answer, and the release. Where memory is missing, the release
/// alone. Takes memory.
fn work_in_read<F: Fuse>(
    ground: &Ground<'_>,
    seat: &mut SegSeat,
    fuse: &mut F,
    call: &ListCall,
) -> Result<Result<Listing, NoMemory>, Dead>
    requires ground { IsGround ground.now }
    requires its { IsOf seat.old ground.now.table.now }
    requires holds { Holds Read (view_of seat.old) }
    ensures its { IsOf seat.new ground.now.table.now }
    ensures fuse { ReportsDeath (seat_meter (F.fused fuse.old) (view_of seat.old)) (seat_meter (F.fused fuse.new) (view_of seat.new)) result }
    ensures looks { LooksNever (view_of seat.old) (view_of seat.new) }
    ensures ends { IfOk result (EndsListing call.now.segment (view_of seat.old) (view_of seat.new)) }
    ensures dead { OnErr result (DiesReading (op.List call.now.segment) (view_of seat.old) (view_of seat.new)) }
{
    let pairs = match pairs_held(call.alloc, ground.table, ground.geo, seat, fuse)? {
        Ok(pairs) => pairs,
        Err(error) => {
            ground.table.release(seat, fuse)?;
            return Ok(Err(error));
        }
    };
    let ask = Ask::List {
        segment: call.segment,
    };
    let number = ground.table.tell(seat, fuse, ask, Heard::Pairs(&pairs))?;
    ground.table.release(seat, fuse)?;
    Ok(Ok(Listing { number, pairs }))
}

/// A listing under Read. Takes memory.
fn list_in_read<F: Fuse>(
    ground: &Ground<'_>,
    seat: &mut SegSeat,
    fuse: &mut F,
    call: &ListCall,
) -> Result<Result<Listing, NoMemory>, Stop>
    requires ground { IsGround ground.now }
    requires its { IsOf seat.old ground.now.table.now }
    requires idle { IsIdle (view_of seat.old) }
    requires nonzero { 1 ≤ call.now.tries }
    ensures its { IsOf seat.new ground.now.table.now }
    ensures fuse { ReportsStop (seat_meter (F.fused fuse.old) (view_of seat.old)) (seat_meter (F.fused fuse.new) (view_of seat.new)) result }
    ensures looks { OnOk result (TakesOnce call.now.tries (view_of seat.old) (view_of seat.new)) }
    ensures leaves { LeavesListing call.now.tries call.now.segment (view_of seat.old) (view_of seat.new) result }
{
    ground.table.read(seat, fuse, call.tries)?;
    match work_in_read(ground, seat, fuse, call) {
        Ok(ended) => Ok(ended),
        Err(Dead) => Err(Stop::Died),
    }
}

impl SeatCall for ListCall {
    ghost use Rattle.cm_turn.specs.SeatCalls.{IsNonzero, MayAct};

    type Answer = Result<Listing, NoMemory>;

    ghost may = { λ call. MayAct (op.List call.segment) (λ geo. IsNonzero call.tries) };

    ghost room = { λ call. 0 };

    ghost leaves = { λ call segment extra out was now before later result. LeavesListing call.tries call.segment was now result × (later ≡ before) × OnOk result (TakesOnce call.tries was now) };

    fn act<F: Fuse>(
        &self,
        ground: &Ground<'_>,
        seat: &mut SegSeat,
        _claims: &mut YardSeat,
        fuse: &mut F,
        _out: &mut [u8],
    ) -> Result<Result<Listing, NoMemory>, Stop> {
        list_in_read(ground, seat, fuse, self)
    }
}
