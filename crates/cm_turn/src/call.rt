//! A call by one seat: the take of its level, the work under it, and the release.

ghost use Rattle.std.specs.Prelude.{◌≡◌, ◌≢◌, ◌≤◌, IfErr, IfOk, OnErr, OnOk, None, length};
ghost use Rattle.cm_lock.specs.Views.{after_release};
ghost use Rattle.cm_lock.specs.declared.take.Stop.TheVariants.{Died};
ghost use Rattle.cm_plain.specs.Plans.{op_of_ask};
ghost use Rattle.cm_lock.specs.Rule.{known_of, level_seen, seat_meter};
ghost use Rattle.cm_turn.specs.Verdicts.{Decides};
ghost use Rattle.cm_plain.specs.Limits.{KeepsLimits, segment_of};
ghost use Rattle.cm_words.specs.Meters.{MeterSeen, ReportsDeath};
ghost use Rattle.cm_words.specs.Memory.{MemSeen};
ghost use Rattle.cm_lock.specs.Tables.{IsOf, key_of, level_of, view_of};
ghost use Rattle.cm_lock.specs.declared.view.Level.TheVariants.{Free, Read, Update, Write};
ghost use Rattle.cm_yard.specs.Yards.{IsOf as IsOfYard, view_of as yard_view_of};
ghost use Rattle.cm_turn.specs.Calls.{Answers, AnswersAlone, DiesReading, LeavesReading, IsRefused, IsRefusedChange, Leaves, RaisesFor, ReportsStop, SettlesFrom};
ghost use Rattle.cm_turn.specs.Looks.{LooksNever, MayRaise, TakesOnce};
ghost use Rattle.cm_turn.specs.Records.{Holds, IsIdle};
ghost use Rattle.cm_turn.specs.Turns.{DiesOwing, IsGround, turn_meter};

use crate::operation::{Operation, Question, Verdict};
use crate::turn::{Ground, Settled, answer_held, decide_held, settle, tell_held};
use cm_lock::{SegSeat, SegTable, Stop};
use cm_plain::Ask;
use cm_words::{Dead, Fuse};
use cm_yard::YardSeat;

/// The work of an operation under Write, and the release.
fn work_in_write<F: Fuse, O: Operation>(
    ground: &Ground<'_>,
    seat: &mut SegSeat,
    claims: &mut YardSeat,
    fuse: &mut F,
    operation: &O,
    out: &mut [u8],
) -> Result<Settled, Dead>
    requires ground { IsGround ground.now }
    requires its { IsOf seat.old ground.now.table.now }
    requires claims_its { IsOfYard claims.old ground.now.yard.now }
    requires holds { Holds Write (view_of seat.old) }
    requires limits { KeepsLimits ground.now.geo.now (O.op operation.now) }
    requires segment { segment_of ground.now.geo.now (O.op operation.now) ≡ ground.now.segment }
    requires room { O.room operation.now ≤ length out.old }
    requires ready { (m : MemSeen) → O.ready operation.now ground.now.geo.now m }
    ensures its { IsOf seat.new ground.now.table.now }
    ensures claims_its { IsOfYard claims.new ground.now.yard.now }
    ensures fuse { ReportsDeath (turn_meter (F.fused fuse.old) (view_of seat.old) (yard_view_of claims.old)) (turn_meter (F.fused fuse.new) (view_of seat.new) (yard_view_of claims.new)) result }
    ensures looks { LooksNever (view_of seat.old) (view_of seat.new) }
    ensures answers { IfOk result (Answers IsIdle ground.now.segment ground.now.geo.now.extra (O.op operation.now) out.new (view_of seat.old) (view_of seat.new) (yard_view_of claims.old) (yard_view_of claims.new)) }
    ensures dead { OnErr result (DiesOwing ground.now.segment (O.op operation.now) (view_of seat.old) (view_of seat.new) (yard_view_of claims.old) (yard_view_of claims.new)) }
    ensures long { length out.new ≡ length out.old }
{
    let verdict = decide_held(ground.table, ground.geo, seat, fuse, operation, out)?;
    let settled = settle(ground, seat, claims, fuse, operation.ask(), verdict, out)?;
    ground.table.release(seat, fuse)?;
    Ok(settled)
}

/// A call of an operation under Write.
pub(crate) fn act_in_write<F: Fuse, O: Operation>(
    ground: &Ground<'_>,
    seat: &mut SegSeat,
    claims: &mut YardSeat,
    fuse: &mut F,
    operation: &O,
    out: &mut [u8],
    tries: u32,
) -> Result<Settled, Stop>
    requires ground { IsGround ground.now }
    requires its { IsOf seat.old ground.now.table.now }
    requires claims_its { IsOfYard claims.old ground.now.yard.now }
    requires idle { IsIdle (view_of seat.old) }
    requires limits { KeepsLimits ground.now.geo.now (O.op operation.now) }
    requires segment { segment_of ground.now.geo.now (O.op operation.now) ≡ ground.now.segment }
    requires room { O.room operation.now ≤ length out.old }
    requires ready { (m : MemSeen) → O.ready operation.now ground.now.geo.now m }
    requires nonzero { 1 ≤ tries }
    ensures its { IsOf seat.new ground.now.table.now }
    ensures claims_its { IsOfYard claims.new ground.now.yard.now }
    ensures fuse { ReportsStop (turn_meter (F.fused fuse.old) (view_of seat.old) (yard_view_of claims.old)) (turn_meter (F.fused fuse.new) (view_of seat.new) (yard_view_of claims.new)) result }
    ensures looks { OnOk result (TakesOnce tries (view_of seat.old) (view_of seat.new)) }
    ensures leaves { Leaves IsIdle (IsRefused Free Write tries) ground.now.segment ground.now.geo.now.extra (O.op operation.now) out.new (view_of seat.old) (view_of seat.new) (yard_view_of claims.old) (yard_view_of claims.new) result }
    ensures long { length out.new ≡ length out.old }
{
    ground.table.write(seat, fuse, tries)?;
    match work_in_write(ground, seat, claims, fuse, operation, out) {
        Ok(settled) => Ok(settled),
        Err(Dead) => Err(Stop::Died),
    }
}

/// Raises Update to Write for a change.
fn raise_for<F: Fuse>(
    table: &SegTable,
    seat: &mut SegSeat,
    fuse: &mut F,
    verdict: &Verdict<'_>,
    tries: u32,
) -> Result<(), Stop>
    requires its { IsOf seat.old table.now }
    requires holds { Holds Update (view_of seat.old) }
    requires nonzero { 1 ≤ tries }
    ensures its { IsOf seat.new table.now }
    ensures fuse { ReportsStop (seat_meter (F.fused fuse.old) (view_of seat.old)) (seat_meter (F.fused fuse.new) (view_of seat.new)) result }
    ensures looks { OnOk result (MayRaise 0 tries (view_of seat.old) (view_of seat.new)) }
    ensures raises { RaisesFor verdict.now tries (view_of seat.old) (view_of seat.new) result }
{
    match verdict {
        Verdict::Stays(_) => Ok(()),
        Verdict::Changes(_, _) => table.raise(seat, fuse, tries),
    }
}

/// Does what was decided under Update: a change wants Write.
pub(crate) fn settle_from_update<F: Fuse>(
    ground: &Ground<'_>,
    seat: &mut SegSeat,
    claims: &mut YardSeat,
    fuse: &mut F,
    ask: Ask<'_>,
    verdict: Verdict<'_>,
    out: &[u8],
    tries: u32,
) -> Result<Settled, Stop>
    requires ground { IsGround ground.now }
    requires its { IsOf seat.old ground.now.table.now }
    requires claims_its { IsOfYard claims.old ground.now.yard.now }
    requires holds { Holds Update (view_of seat.old) }
    requires decides { Decides (known_of (key_of ground.now.table.now) (view_of seat.old).own) ground.now.geo.now (op_of_ask ask) out.now verdict }
    requires nonzero { 1 ≤ tries }
    ensures its { IsOf seat.new ground.now.table.now }
    ensures claims_its { IsOfYard claims.new ground.now.yard.now }
    ensures fuse { ReportsStop (turn_meter (F.fused fuse.old) (view_of seat.old) (yard_view_of claims.old)) (turn_meter (F.fused fuse.new) (view_of seat.new) (yard_view_of claims.new)) result }
    ensures looks { OnOk result (MayRaise 0 tries (view_of seat.old) (view_of seat.new)) }
    ensures settles { SettlesFrom tries ground.now.segment ground.now.geo.now.extra (op_of_ask ask.entry) out.now (view_of seat.old) (view_of seat.new) (yard_view_of claims.old) (yard_view_of claims.new) result }
{
    raise_for(ground.table, seat, fuse, &verdict, tries)?;
    match settle(ground, seat, claims, fuse, ask, verdict, out) {
        Ok(settled) => Ok(settled),
        Err(Dead) => Err(Stop::Died),
    }
}

/// The work of an operation under Update, and the release.
pub(crate) fn work_in_update<F: Fuse, O: Operation>(
    ground: &Ground<'_>,
    seat: &mut SegSeat,
    claims: &mut YardSeat,
    fuse: &mut F,
    operation: &O,
    out: &mut [u8],
    tries: u32,
) -> Result<Settled, Stop>
    requires ground { IsGround ground.now }
    requires its { IsOf seat.old ground.now.table.now }
    requires claims_its { IsOfYard claims.old ground.now.yard.now }
    requires holds { Holds Update (view_of seat.old) }
    requires limits { KeepsLimits ground.now.geo.now (O.op operation.now) }
    requires segment { segment_of ground.now.geo.now (O.op operation.now) ≡ ground.now.segment }
    requires room { O.room operation.now ≤ length out.old }
    requires ready { (meter : MeterSeen) → O.ready operation.now ground.now.geo.now (level_seen (key_of ground.now.table.now) (view_of seat.old).own meter) }
    requires nonzero { 1 ≤ tries }
    ensures its { IsOf seat.new ground.now.table.now }
    ensures claims_its { IsOfYard claims.new ground.now.yard.now }
    ensures fuse { ReportsStop (turn_meter (F.fused fuse.old) (view_of seat.old) (yard_view_of claims.old)) (turn_meter (F.fused fuse.new) (view_of seat.new) (yard_view_of claims.new)) result }
    ensures looks { OnOk result (MayRaise 0 tries (view_of seat.old) (view_of seat.new)) }
    ensures leaves { Leaves IsIdle (IsRefused Update Write tries) ground.now.segment ground.now.geo.now.extra (O.op operation.now) out.new (view_of seat.old) (view_of seat.new) (yard_view_of claims.old) (yard_view_of claims.new) result }
    ensures long { length out.new ≡ length out.old }
{
    let verdict = match decide_held(ground.table, ground.geo, seat, fuse, operation, out) {
        Ok(verdict) => verdict,
        Err(Dead) => return Err(Stop::Died),
    };
    match settle_from_update(
        ground,
        seat,
        claims,
        fuse,
        operation.ask(),
        verdict,
        out,
        tries,
    ) {
        Ok(settled) => match ground.table.release(seat, fuse) {
            Ok(()) => Ok(settled),
            Err(Dead) => Err(Stop::Died),
        },
        Err(Stop::Busy { looks, last }) => match ground.table.release(seat, fuse) {
            Ok(()) => Err(Stop::Busy { looks, last }),
            Err(Dead) => Err(Stop::Died),
        },
        Err(Stop::Died) => Err(Stop::Died),
    }
}

/// A call of an operation under Update, which is raised to Write for a change.
pub(crate) fn act_in_update<F: Fuse, O: Operation>(
    ground: &Ground<'_>,
    seat: &mut SegSeat,
    claims: &mut YardSeat,
    fuse: &mut F,
    operation: &O,
    out: &mut [u8],
    tries: u32,
) -> Result<Settled, Stop>
    requires ground { IsGround ground.now }
    requires its { IsOf seat.old ground.now.table.now }
    requires claims_its { IsOfYard claims.old ground.now.yard.now }
    requires idle { IsIdle (view_of seat.old) }
    requires limits { KeepsLimits ground.now.geo.now (O.op operation.now) }
    requires segment { segment_of ground.now.geo.now (O.op operation.now) ≡ ground.now.segment }
    requires room { O.room operation.now ≤ length out.old }
    requires ready { (m : MemSeen) → O.ready operation.now ground.now.geo.now m }
    requires nonzero { 1 ≤ tries }
    ensures its { IsOf seat.new ground.now.table.now }
    ensures claims_its { IsOfYard claims.new ground.now.yard.now }
    ensures fuse { ReportsStop (turn_meter (F.fused fuse.old) (view_of seat.old) (yard_view_of claims.old)) (turn_meter (F.fused fuse.new) (view_of seat.new) (yard_view_of claims.new)) result }
    ensures looks { OnOk result (MayRaise tries tries (view_of seat.old) (view_of seat.new)) }
    ensures leaves { Leaves IsIdle (IsRefusedChange tries) ground.now.segment ground.now.geo.now.extra (O.op operation.now) out.new (view_of seat.old) (view_of seat.new) (yard_view_of claims.old) (yard_view_of claims.new) result }
    ensures long { length out.new ≡ length out.old }
{
    ground.table.update(seat, fuse, tries)?;
    work_in_update(ground, seat, claims, fuse, operation, out, tries)
}

/// What a question is answered under Read, entered, and the release.
fn work_in_read<F: Fuse, Q: Question>(
    ground: &Ground<'_>,
    seat: &mut SegSeat,
    fuse: &mut F,
    question: &Q,
    out: &mut [u8],
) -> Result<Settled, Dead>
    requires ground { IsGround ground.now }
    requires its { IsOf seat.old ground.now.table.now }
    requires holds { Holds Read (view_of seat.old) }
    requires limits { KeepsLimits ground.now.geo.now (Q.op question.now) }
    requires segment { segment_of ground.now.geo.now (Q.op question.now) ≡ ground.now.segment }
    requires room { Q.room question.now ≤ length out.old }
    ensures its { IsOf seat.new ground.now.table.now }
    ensures fuse { ReportsDeath (seat_meter (F.fused fuse.old) (view_of seat.old)) (seat_meter (F.fused fuse.new) (view_of seat.new)) result }
    ensures looks { LooksNever (view_of seat.old) (view_of seat.new) }
    ensures answers { IfOk result (AnswersAlone (Q.op question.now) out.new (view_of seat.old) (view_of seat.new)) }
    ensures dead { OnErr result (DiesReading (Q.op question.now) (view_of seat.old) (view_of seat.new)) }
    ensures rounds { (view_of seat.new).failed_rounds ≡ (view_of seat.old).failed_rounds }
    ensures long { length out.new ≡ length out.old }
{
    let answer = answer_held(ground.table, ground.geo, seat, fuse, question, out)?;
    let number = tell_held(ground.table, seat, fuse, question.ask(), answer, out)?;
    ground.table.release(seat, fuse)?;
    Ok(Settled { number, answer })
}

/// A question under Read.
pub(crate) fn ask_in_read<F: Fuse, Q: Question>(
    ground: &Ground<'_>,
    seat: &mut SegSeat,
    fuse: &mut F,
    question: &Q,
    out: &mut [u8],
    tries: u32,
) -> Result<Settled, Stop>
    requires ground { IsGround ground.now }
    requires its { IsOf seat.old ground.now.table.now }
    requires idle { IsIdle (view_of seat.old) }
    requires limits { KeepsLimits ground.now.geo.now (Q.op question.now) }
    requires segment { segment_of ground.now.geo.now (Q.op question.now) ≡ ground.now.segment }
    requires room { Q.room question.now ≤ length out.old }
    requires nonzero { 1 ≤ tries }
    ensures its { IsOf seat.new ground.now.table.now }
    ensures fuse { ReportsStop (seat_meter (F.fused fuse.old) (view_of seat.old)) (seat_meter (F.fused fuse.new) (view_of seat.new)) result }
    ensures looks { OnOk result (TakesOnce tries (view_of seat.old) (view_of seat.new)) }
    ensures leaves { LeavesReading tries (Q.op question.now) out.new (view_of seat.old) (view_of seat.new) result }
    ensures rounds { (view_of seat.new).failed_rounds ≡ (view_of seat.old).failed_rounds }
    ensures long { length out.new ≡ length out.old }
{
    ground.table.read(seat, fuse, tries)?;
    match work_in_read(ground, seat, fuse, question, out) {
        Ok(settled) => Ok(settled),
        Err(Dead) => Err(Stop::Died),
    }
}
