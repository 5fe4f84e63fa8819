//! The way of a call to the seat of its segment.

ghost use Rattle.std.specs.Prelude.{◌≡◌, ◌≤◌, ◌<◌, length, slice_get, IfOk, Some, false};
ghost use Rattle.cm_plain.specs.Limits.{KeepsLimits, segment_of};
ghost use Rattle.cm_turn.specs.Calls.{ReportsStop};
ghost use Rattle.cm_store.specs.Passes.{ActsAt, AlsoAt, CallsAt, IsPassOf, IsResting, IsSoAt, is_died, is_dead, number_of, pass_meter, settled_of, sweep_of};
ghost use Rattle.cm_turn.specs.Turns.{IsGround};

use crate::pass::Pass;
use crate::store::Store;
use cm_lock::Stop;
use cm_turn::{ByOperation, Done, Ground, OperationCall, SeatCall, Settled, Spot};
use cm_words::Fuse;

impl Store {
    /// What the callers of a segment share.
    fn ground(&self, segment: u32) -> Ground<'_>
        requires here { segment < self.now.geo.segments }
        ensures ground { IsGround result }
        ensures geo { result.geo.now ≡ self.now.geo }
        ensures table { slice_get self.now.tables.items segment ≡ Some result.table.now }
        ensures yard { result.yard.now ≡ self.now.yard }
        ensures segment { result.segment ≡ segment }
    {
        Ground {
            geo: &self.geo,
            table: &self.tables[segment as usize],
            yard: &self.yard,
            segment,
        }
    }

    /// A call by the seat of a segment: a pass whose call died is dead.
    pub(crate) fn act_at<F: Fuse, C: SeatCall>(
        &self,
        pass: &mut Pass<F>,
        segment: u32,
        call: &C,
        out: &mut [u8],
    ) -> Result<C::Answer, Stop>
        requires its { IsPassOf pass.old self.now }
        requires here { segment < self.now.geo.segments }
        requires may { IsSoAt (C.may call.now self.now.geo segment) segment pass.old }
        requires room { C.room call.now ≤ length out.old }
        ensures its { IsPassOf pass.new self.now }
        ensures number { number_of pass.new ≡ number_of pass.old }
        ensures sweep { sweep_of pass.new ≡ sweep_of pass.old }
        ensures acts { ActsAt (λ was now before later. C.leaves call.now segment self.now.geo.extra out.new was now before later result) segment pass.old pass.new }
        ensures fuse { ReportsStop (pass_meter F.fused pass.old) (pass_meter F.fused pass.new) result }
        ensures dead { is_dead pass.new ≡ is_died result }
        ensures long { length out.new ≡ length out.old }
    {
        let ground = self.ground(segment);
        let ended = call.act(
            &ground,
            &mut pass.seats[segment as usize],
            &mut pass.claims,
            &mut pass.fuse,
            out,
        );
        pass.dead = has_died(&ended);
        ended
    }

    /// A call of an operation, at the seat of its segment.
    pub(crate) fn perform<F: Fuse, C: OperationCall>(
        &self,
        pass: &mut Pass<F>,
        segment: u32,
        call: &C,
        out: &mut [u8],
    ) -> Result<Done, Stop>
        requires its { IsPassOf pass.old self.now }
        requires resting { IsResting pass.old }
        requires limits { KeepsLimits self.now.geo (C.op call.now) }
        requires segment { segment_of self.now.geo (C.op call.now) ≡ segment }
        requires here { segment < self.now.geo.segments }
        requires room { C.room call.now ≤ length out.old }
        requires valid { C.valid call.now self.now.geo }
        ensures its { IsPassOf pass.new self.now }
        ensures number { number_of pass.new ≡ number_of pass.old }
        ensures sweep { sweep_of pass.new ≡ sweep_of pass.old }
        ensures calls { CallsAt (C.refused call.now) self.now.geo.extra segment (C.op call.now) out.new pass.old pass.new result }
        ensures fuse { ReportsStop (pass_meter F.fused pass.old) (pass_meter F.fused pass.new) result }
        ensures resting { is_dead pass.new ≡ false → IsResting pass.new }
        ensures dead { is_dead pass.new ≡ is_died result }
        ensures spot { IfOk result (λ done. done.spot.segment ≡ segment) }
        ensures also { AlsoAt (λ was then. C.also call.now was then (settled_of result)) segment pass.old pass.new }
        ensures long { length out.new ≡ length out.old }
    {
        let ended = self.act_at(pass, segment, &ByOperation { call }, out);
        done_at(segment, ended)
    }
}

/// Whether a call died.
fn has_died<T>(ended: &Result<T, Stop>) -> bool
    ensures { result ≡ is_died ended.now }
{
    matches!(ended, Err(Stop::Died))
}

/// What a call answered, with its segment.
fn done_at(segment: u32, ended: Result<Settled, Stop>) -> Result<Done, Stop>
    ensures settled { settled_of result ≡ ended }
    ensures spot { IfOk result (λ done. done.spot.segment ≡ segment) }
{
    match ended {
        Ok(Settled { number, answer }) => Ok(Done {
            spot: Spot { segment, number },
            answer,
        }),
        Err(stop) => Err(stop),
    }
}
