//! A put of a value where the key has none: under Update, which a change raises to Write, and a value that is there
//! lowers to Read.

ghost use Rattle.std.specs.Prelude.{◌≡◌, ◌≢◌, ◌≤◌, IfOk, IfSome, None, OnErr, OnOk, Some, length};
ghost use Rattle.cm_plain.specs.declared.op.Op.TheVariants.{PutIfAbsent as PutIfAbsentOp};
ghost use Rattle.cm_plain.specs.Limits.{KeepsLimits, segment_of};
ghost use Rattle.cm_plain.specs.Plans.{op_of_ask};
ghost use Rattle.cm_words.specs.Calls.{IsReadable, Loads};
ghost use Rattle.cm_words.specs.Meters.{ReportsDeath};
ghost use Rattle.cm_segment.specs.Sights.{IsSightIn};
ghost use Rattle.cm_lock.specs.declared.view.Level.TheVariants.{Free, Read, Update, Write};
ghost use Rattle.cm_lock.specs.Rule.{known_of, seat_meter};
ghost use Rattle.cm_lock.specs.Tables.{IsOf, key_of, level_of, view_of};
ghost use Rattle.cm_yard.specs.Yards.{IsOf as IsOfYard, view_of as yard_view_of};
ghost use Rattle.cm_turn.specs.Calls.{AnswersAlone, DiesReading, IsRefused, Leaves, ReportsStop};
ghost use Rattle.cm_turn.specs.Conditions.{FindsHere};
ghost use Rattle.cm_turn.specs.Looks.{LooksNever, MayRaise};
ghost use Rattle.cm_turn.specs.Records.{HasLooked, Holds, IsIdle};
ghost use Rattle.cm_turn.specs.Turns.{IsGround, turn_meter};
ghost use Rattle.cm_turn.specs.Verdicts.{StaysBy};

use crate::answer::Answer;
use crate::call::work_in_update;
use crate::operation_call::OperationCall;
use crate::placing::PutIfAbsent;
use crate::turn::{Ground, Settled, tell_held};
use cm_entry::read_value_into;
use cm_geo::Geo;
use cm_lock::{SegSeat, SegTable, Stop};
use cm_plain::Ask;
use cm_segment::{Sight, look};
use cm_words::{Dead, Fuse, Mem};
use cm_yard::YardSeat;

/// Where a key's entry stands, as the words are under the seat's level.
fn look_held<F: Fuse>(
    table: &SegTable,
    geo: &Geo,
    seat: &mut SegSeat,
    fuse: &mut F,
    key: &[u8],
) -> Result<Option<Sight>, Dead>
    requires its { IsOf seat.old table.now }
    requires geo { (key_of table.now).geo ≡ geo.now }
    requires level { level_of seat.old ≢ Free }
    requires idle { (view_of seat.old).own.plan ≡ None }
    ensures its { IsOf seat.new table.now }
    ensures fuse { ReportsDeath (seat_meter (F.fused fuse.old) (view_of seat.old)) (seat_meter (F.fused fuse.new) (view_of seat.new)) result }
    ensures looks { HasLooked (view_of seat.old) (view_of seat.new) }
    ensures inside { IfOk result (λ found. IfSome found (IsSightIn geo.now key.now)) }
    ensures found { IfOk result (FindsHere (known_of (key_of table.now) (view_of seat.new).own) geo.now key.now) }
{
    let mut hold = table.hold(seat, fuse);
    look(&mut hold, geo, key)
}

/// A put of a value where the key has none, with how many tries its take and its raise have.
#[derive(Clone, Copy)]
pub struct AbsentCall<'a> {
    pub key: &'a [u8],
    pub value: &'a [u8],
    pub tries: u32,
}

impl AbsentCall<'_> {
    /// What is asked.
    fn ask(&self) -> Ask<'_>
        ensures { op_of_ask result ≡ PutIfAbsentOp self.now.key.now self.now.value.now }
    {
        Ask::PutIfAbsent {
            key: self.key,
            value: self.value,
        }
    }

    /// The answer where the key is there, whose value comes to `out` from where it was found.
    fn keep<M: Mem>(
        &self,
        mem: &mut M,
        geo: &Geo,
        sight: Sight,
        out: &mut [u8],
    ) -> Result<Answer, Dead>
        requires readable { IsReadable (M.seen mem.old) geo.now }
        requires inside { IsSightIn geo.now self.now.key.now sight }
        requires found { FindsHere (M.seen mem.old) geo.now self.now.key.now (Some sight) }
        requires room { 4096 ≤ length out.old }
        ensures loads { Loads M.seen M.same_rest mem.old mem.new result }
        ensures kept { IfOk result (StaysBy (M.seen mem.new) (PutIfAbsentOp self.now.key.now self.now.value.now) out.new) }
        ensures long { length out.new ≡ length out.old }
    {
        let len = read_value_into(mem, geo, sight.place, sight.chunk, out)?;
        Ok(Answer::Kept(len))
    }

    /// The same, as the words are under the seat's level.
    fn keep_held<F: Fuse>(
        &self,
        ground: &Ground<'_>,
        seat: &mut SegSeat,
        fuse: &mut F,
        sight: Sight,
        out: &mut [u8],
    ) -> Result<Answer, Dead>
        requires ground { IsGround ground.now }
        requires its { IsOf seat.old ground.now.table.now }
        requires level { level_of seat.old ≢ Free }
        requires idle { (view_of seat.old).own.plan ≡ None }
        requires inside { IsSightIn ground.now.geo.now self.now.key.now sight }
        requires found { FindsHere (known_of (key_of ground.now.table.now) (view_of seat.old).own) ground.now.geo.now self.now.key.now (Some sight) }
        requires room { 4096 ≤ length out.old }
        ensures its { IsOf seat.new ground.now.table.now }
        ensures fuse { ReportsDeath (seat_meter (F.fused fuse.old) (view_of seat.old)) (seat_meter (F.fused fuse.new) (view_of seat.new)) result }
        ensures looks { HasLooked (view_of seat.old) (view_of seat.new) }
        ensures kept { IfOk result (StaysBy (known_of (key_of ground.now.table.now) (view_of seat.new).own) (PutIfAbsentOp self.now.key.now self.now.value.now) out.new) }
        ensures long { length out.new ≡ length out.old }
    {
        let mut hold = ground.table.hold(seat, fuse);
        self.keep(&mut hold, ground.geo, sight, out)
    }

    /// What is answered under Read where the key was found, entered, and the release.
    fn tell_kept<F: Fuse>(
        &self,
        ground: &Ground<'_>,
        seat: &mut SegSeat,
        fuse: &mut F,
        sight: Sight,
        out: &mut [u8],
    ) -> Result<Settled, Dead>
        requires ground { IsGround ground.now }
        requires its { IsOf seat.old ground.now.table.now }
        requires holds { Holds Read (view_of seat.old) }
        requires inside { IsSightIn ground.now.geo.now self.now.key.now sight }
        requires found { FindsHere (known_of (key_of ground.now.table.now) (view_of seat.old).own) ground.now.geo.now self.now.key.now (Some sight) }
        requires room { 4096 ≤ length out.old }
        ensures its { IsOf seat.new ground.now.table.now }
        ensures fuse { ReportsDeath (seat_meter (F.fused fuse.old) (view_of seat.old)) (seat_meter (F.fused fuse.new) (view_of seat.new)) result }
        ensures looks { LooksNever (view_of seat.old) (view_of seat.new) }
        ensures answers { IfOk result (AnswersAlone (PutIfAbsentOp self.now.key.now self.now.value.now) out.new (view_of seat.old) (view_of seat.new)) }
        ensures dead { OnErr result (DiesReading (PutIfAbsentOp self.now.key.now self.now.value.now) (view_of seat.old) (view_of seat.new)) }
        ensures long { length out.new ≡ length out.old }
    {
        let answer = self.keep_held(ground, seat, fuse, sight, out)?;
        let number = tell_held(ground.table, seat, fuse, self.ask(), answer, out)?;
        ground.table.release(seat, fuse)?;
        Ok(Settled { number, answer })
    }

    /// Lowers Update to Read where the key was found, and answers its value.
    fn keep_in_read<F: Fuse>(
        &self,
        ground: &Ground<'_>,
        seat: &mut SegSeat,
        fuse: &mut F,
        sight: Sight,
        out: &mut [u8],
    ) -> Result<Settled, Dead>
        requires ground { IsGround ground.now }
        requires its { IsOf seat.old ground.now.table.now }
        requires holds { Holds Update (view_of seat.old) }
        requires inside { IsSightIn ground.now.geo.now self.now.key.now sight }
        requires found { FindsHere (known_of (key_of ground.now.table.now) (view_of seat.old).own) ground.now.geo.now self.now.key.now (Some sight) }
        requires room { 4096 ≤ length out.old }
        ensures its { IsOf seat.new ground.now.table.now }
        ensures fuse { ReportsDeath (seat_meter (F.fused fuse.old) (view_of seat.old)) (seat_meter (F.fused fuse.new) (view_of seat.new)) result }
        ensures looks { LooksNever (view_of seat.old) (view_of seat.new) }
        ensures answers { IfOk result (AnswersAlone (PutIfAbsentOp self.now.key.now self.now.value.now) out.new (view_of seat.old) (view_of seat.new)) }
        ensures dead { OnErr result (DiesReading (PutIfAbsentOp self.now.key.now self.now.value.now) (view_of seat.old) (view_of seat.new)) }
        ensures long { length out.new ≡ length out.old }
    {
        ground.table.lower_to_read(seat, fuse)?;
        self.tell_kept(ground, seat, fuse, sight, out)
    }

    /// The work under Update, and the release.
    fn work<F: Fuse>(
        &self,
        ground: &Ground<'_>,
        seat: &mut SegSeat,
        claims: &mut YardSeat,
        fuse: &mut F,
        out: &mut [u8],
    ) -> Result<Settled, Stop>
        requires ground { IsGround ground.now }
        requires its { IsOf seat.old ground.now.table.now }
        requires claims_its { IsOfYard claims.old ground.now.yard.now }
        requires holds { Holds Update (view_of seat.old) }
        requires limits { KeepsLimits ground.now.geo.now (PutIfAbsentOp self.now.key.now self.now.value.now) }
        requires segment { segment_of ground.now.geo.now (PutIfAbsentOp self.now.key.now self.now.value.now) ≡ ground.now.segment }
        requires room { 4096 ≤ length out.old }
        requires nonzero { 1 ≤ self.now.tries }
        ensures its { IsOf seat.new ground.now.table.now }
        ensures claims_its { IsOfYard claims.new ground.now.yard.now }
        ensures fuse { ReportsStop (turn_meter (F.fused fuse.old) (view_of seat.old) (yard_view_of claims.old)) (turn_meter (F.fused fuse.new) (view_of seat.new) (yard_view_of claims.new)) result }
        ensures looks { OnOk result (MayRaise 0 self.now.tries (view_of seat.old) (view_of seat.new)) }
        ensures leaves { Leaves IsIdle (IsRefused Update Write self.now.tries) ground.now.segment ground.now.geo.now.extra (PutIfAbsentOp self.now.key.now self.now.value.now) out.new (view_of seat.old) (view_of seat.new) (yard_view_of claims.old) (yard_view_of claims.new) result }
        ensures long { length out.new ≡ length out.old }
    {
        let found = match look_held(ground.table, ground.geo, seat, fuse, self.key) {
            Ok(found) => found,
            Err(Dead) => return Err(Stop::Died),
        };
        let Some(sight) = found else {
            let operation = PutIfAbsent {
                key: self.key,
                value: self.value,
            };
            return work_in_update(ground, seat, claims, fuse, &operation, out, self.tries);
        };
        match self.keep_in_read(ground, seat, fuse, sight, out) {
            Ok(settled) => Ok(settled),
            Err(Dead) => Err(Stop::Died),
        }
    }
}

impl OperationCall for AbsentCall<'_> {
    ghost use Rattle.cm_turn.specs.Calls.{IsRefusedChange};
    ghost use Rattle.cm_turn.specs.SeatCalls.{IsNonzero};

    ghost op = { λ call. PutIfAbsentOp call.key.now call.value.now };

    ghost room = { λ call. 4096 };

    ghost valid = { λ call geo. IsNonzero call.tries };

    ghost refused = { λ call. IsRefusedChange call.tries };

    ghost also = { λ call was now result. OnOk result (MayRaise call.tries call.tries was now) };

    fn act<F: Fuse>(
        &self,
        ground: &Ground<'_>,
        seat: &mut SegSeat,
        claims: &mut YardSeat,
        fuse: &mut F,
        out: &mut [u8],
    ) -> Result<Settled, Stop> {
        ground.table.update(seat, fuse, self.tries)?;
        self.work(ground, seat, claims, fuse, out)
    }
}
