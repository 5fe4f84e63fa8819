//! The parts of a call by one seat, under the level that it holds.

ghost use Rattle.std.specs.Prelude.{◌≡◌, ◌≢◌, ◌≤◌, IfOk, OnErr, None, length};
ghost use Rattle.cm_words.specs.declared.fuse.EventKind.TheVariants.{Load};
ghost use Rattle.cm_lock.specs.Answers.{EntersAnswer, IsReplyHere};
ghost use Rattle.cm_lock.specs.Calls.{MakesOneEvent};
ghost use Rattle.cm_yard.specs.Claims.{seat_meter as yard_meter};
ghost use Rattle.cm_yard.specs.Yards.{IsOf as IsOfYard, view_of as yard_view_of};
ghost use Rattle.cm_turn.specs.Answers.{HasBytes, reply_in};
ghost use Rattle.cm_turn.specs.Looks.{LooksNever};
ghost use Rattle.cm_turn.specs.Turns.{DiesOwing, IsGranted, IsGround, Settles, ClaimsNone, turn_meter};
ghost use Rattle.cm_plain.specs.Steps.{is_change};
ghost use Rattle.std.specs.Prelude.{false};
ghost use Rattle.cm_plain.specs.Limits.{KeepsLimits, segment_of};
ghost use Rattle.cm_plain.specs.Plans.{op_of_ask, plan_change};
ghost use Rattle.cm_words.specs.Memory.{HasEvenNumber};
ghost use Rattle.cm_words.specs.Meters.{MeterSeen, ReportsDeath};
ghost use Rattle.cm_segment.specs.Planning.{MayBegin};
ghost use Rattle.cm_lock.specs.Rule.{known_of, level_seen, seat_meter};
ghost use Rattle.cm_lock.specs.Tables.{IsOf, key_of, level_of, view_of};
ghost use Rattle.cm_lock.specs.declared.view.Level.TheVariants.{Free, Write};
ghost use Rattle.cm_turn.specs.Records.{DiedMaking, HasLooked, HasMade};
ghost use Rattle.cm_turn.specs.Verdicts.{Decides, IsEnough, StaysBy};

use crate::answer::Answer;
use crate::make::make;
use crate::operation::{Operation, Question, Verdict, decide};
use cm_geo::Geo;
use cm_lock::{SegSeat, SegTable};
use cm_plain::{Ask, Plan};
use cm_words::{Dead, Fuse};
use cm_yard::{Claim, Yard, YardSeat};

/// What the callers of a segment share.
#[derive(Clone, Copy)]
pub struct Ground<'a> {
    pub geo: &'a Geo,
    pub table: &'a SegTable,
    pub yard: &'a Yard,
    pub segment: u32,
}

/// An answer with its number.
#[derive(Clone, Copy)]
pub struct Settled {
    pub number: u64,
    pub answer: Answer,
}

/// What is to be done with an operation, as the words are under the seat's level.
pub(crate) fn decide_held<'a, F: Fuse, O: Operation>(
    table: &SegTable,
    geo: &Geo,
    seat: &mut SegSeat,
    fuse: &mut F,
    operation: &'a O,
    out: &mut [u8],
) -> Result<Verdict<'a>, Dead>
    requires its { IsOf seat.old table.now }
    requires geo { (key_of table.now).geo ≡ geo.now }
    requires level { level_of seat.old ≢ Free }
    requires idle { (view_of seat.old).own.plan ≡ None }
    requires limits { KeepsLimits geo.now (O.op operation.now) }
    requires segment { segment_of geo.now (O.op operation.now) ≡ (key_of table.now).segment }
    requires room { O.room operation.now ≤ length out.old }
    requires ready { (meter : MeterSeen) → O.ready operation.now geo.now (level_seen (key_of table.now) (view_of seat.old).own meter) }
    ensures its { IsOf seat.new table.now }
    ensures fuse { ReportsDeath (seat_meter (F.fused fuse.old) (view_of seat.old)) (seat_meter (F.fused fuse.new) (view_of seat.new)) result }
    ensures looks { HasLooked (view_of seat.old) (view_of seat.new) }
    ensures decides { IfOk result (Decides (known_of (key_of table.now) (view_of seat.new).own) geo.now (O.op operation.now) out.new) }
    ensures long { length out.new ≡ length out.old }
{
    let mut hold = table.hold(seat, fuse);
    decide(&mut hold, geo, operation, out)
}

/// The answer to a question, as the words are under the seat's level.
pub(crate) fn answer_held<F: Fuse, Q: Question>(
    table: &SegTable,
    geo: &Geo,
    seat: &mut SegSeat,
    fuse: &mut F,
    question: &Q,
    out: &mut [u8],
) -> Result<Answer, Dead>
    requires its { IsOf seat.old table.now }
    requires geo { (key_of table.now).geo ≡ geo.now }
    requires level { level_of seat.old ≢ Free }
    requires idle { (view_of seat.old).own.plan ≡ None }
    requires limits { KeepsLimits geo.now (Q.op question.now) }
    requires segment { segment_of geo.now (Q.op question.now) ≡ (key_of table.now).segment }
    requires room { Q.room question.now ≤ length out.old }
    ensures its { IsOf seat.new table.now }
    ensures fuse { ReportsDeath (seat_meter (F.fused fuse.old) (view_of seat.old)) (seat_meter (F.fused fuse.new) (view_of seat.new)) result }
    ensures looks { HasLooked (view_of seat.old) (view_of seat.new) }
    ensures answers { IfOk result (StaysBy (known_of (key_of table.now) (view_of seat.new).own) (Q.op question.now) out.new) }
    ensures long { length out.new ≡ length out.old }
{
    let mut hold = table.hold(seat, fuse);
    question.answer(&mut hold, geo, out)
}

/// Makes the change of a plan under Write, and gives its number.
pub(crate) fn make_held<F: Fuse>(
    table: &SegTable,
    geo: &Geo,
    seat: &mut SegSeat,
    fuse: &mut F,
    plan: &Plan<'_>,
) -> Result<u64, Dead>
    requires its { IsOf seat.old table.now }
    requires geo { (key_of table.now).geo ≡ geo.now }
    requires level { level_of seat.old ≡ Write }
    requires idle { (view_of seat.old).own.plan ≡ None }
    requires number { HasEvenNumber (known_of (key_of table.now) (view_of seat.old).own) }
    requires may { MayBegin (known_of (key_of table.now) (view_of seat.old).own) geo.now (op_of_ask plan.now.ask) plan.now }
    ensures its { IsOf seat.new table.now }
    ensures fuse { ReportsDeath (seat_meter (F.fused fuse.old) (view_of seat.old)) (seat_meter (F.fused fuse.new) (view_of seat.new)) result }
    ensures makes { IfOk result (λ number. HasMade (plan_change plan.now) number (view_of seat.old) (view_of seat.new)) }
    ensures dead { OnErr result (DiedMaking (plan_change plan.now) (view_of seat.old) (view_of seat.new)) }
{
    let mut hold = table.hold(seat, fuse);
    make(&mut hold, geo, plan)
}

/// Enters an answer that changes nothing.
pub(crate) fn tell_held<F: Fuse>(
    table: &SegTable,
    seat: &mut SegSeat,
    fuse: &mut F,
    ask: Ask<'_>,
    answer: Answer,
    out: &[u8],
) -> Result<u64, Dead>
    requires its { IsOf seat.old table.now }
    requires level { level_of seat.old ≢ Free }
    requires idle { (view_of seat.old).own.plan ≡ None }
    requires stays { is_change (reply_in answer out.now) ≡ false }
    requires bytes { HasBytes answer out.now }
    requires right { IsReplyHere (known_of (key_of table.now) (view_of seat.old).own) (op_of_ask ask) (reply_in answer out.now) }
    ensures its { IsOf seat.new table.now }
    ensures enters { MakesOneEvent Load (EntersAnswer (op_of_ask ask.entry) (reply_in answer out.now)) (F.fused fuse.old) (F.fused fuse.new) (view_of seat.old) (view_of seat.new) result }
{
    table.tell(seat, fuse, ask, answer.heard(out))
}

/// Claims a tier for a plan that links one: false where there is none.
fn grant<F: Fuse>(
    ground: &Ground<'_>,
    claims: &mut YardSeat,
    fuse: &mut F,
    wanted: bool,
) -> Result<bool, Dead>
    requires ground { IsGround ground.now }
    requires its { IsOfYard claims.old ground.now.yard.now }
    ensures its { IsOfYard claims.new ground.now.yard.now }
    ensures fuse { ReportsDeath (yard_meter (F.fused fuse.old) (yard_view_of claims.old)) (yard_meter (F.fused fuse.new) (yard_view_of claims.new)) result }
    ensures grants { IfOk result (λ granted. IsGranted ground.now.segment ground.now.geo.now.extra wanted granted (yard_view_of claims.old) (yard_view_of claims.new)) }
    ensures dead { OnErr result (ClaimsNone (yard_view_of claims.old) (yard_view_of claims.new)) }
{
    if !wanted {
        return Ok(true);
    }
    let claim = ground.yard.claim(claims, fuse, ground.segment)?;
    Ok(matches!(claim, Claim::Given { .. }))
}

/// Makes the change that was decided, which wants Write, or enters the answer that changes nothing.
pub(crate) fn settle<F: Fuse>(
    ground: &Ground<'_>,
    seat: &mut SegSeat,
    claims: &mut YardSeat,
    fuse: &mut F,
    ask: Ask<'_>,
    verdict: Verdict<'_>,
    out: &[u8],
) -> Result<Settled, Dead>
    requires ground { IsGround ground.now }
    requires its { IsOf seat.old ground.now.table.now }
    requires claims_its { IsOfYard claims.old ground.now.yard.now }
    requires level { IsEnough verdict (level_of seat.old) }
    requires idle { (view_of seat.old).own.plan ≡ None }
    requires decides { Decides (known_of (key_of ground.now.table.now) (view_of seat.old).own) ground.now.geo.now (op_of_ask ask) out.now verdict }
    ensures its { IsOf seat.new ground.now.table.now }
    ensures claims_its { IsOfYard claims.new ground.now.yard.now }
    ensures fuse { ReportsDeath (turn_meter (F.fused fuse.old) (view_of seat.old) (yard_view_of claims.old)) (turn_meter (F.fused fuse.new) (view_of seat.new) (yard_view_of claims.new)) result }
    ensures looks { LooksNever (view_of seat.old) (view_of seat.new) }
    ensures settles { IfOk result (Settles ground.now.segment ground.now.geo.now.extra (op_of_ask ask.entry) out.now (view_of seat.old) (view_of seat.new) (yard_view_of claims.old) (yard_view_of claims.new)) }
    ensures dead { OnErr result (DiesOwing ground.now.segment (op_of_ask ask.entry) (view_of seat.old) (view_of seat.new) (yard_view_of claims.old) (yard_view_of claims.new)) }
{
    let (plan, answer) = match verdict {
        Verdict::Stays(answer) => {
            let number = tell_held(ground.table, seat, fuse, ask, answer, out)?;
            return Ok(Settled { number, answer });
        }
        Verdict::Changes(plan, answer) => (plan, answer),
    };
    if !grant(ground, claims, fuse, plan.link)? {
        let answer = Answer::FullSpent;
        let number = tell_held(ground.table, seat, fuse, ask, answer, out)?;
        return Ok(Settled { number, answer });
    }
    let number = make_held(ground.table, ground.geo, seat, fuse, &plan)?;
    Ok(Settled { number, answer })
}
