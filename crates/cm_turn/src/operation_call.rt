//! Calls of an operation by one seat, each under its level.

ghost use Rattle.std.specs.Prelude.{◌≡◌, ◌≤◌, OnOk, Result, length, ℕ};
ghost use Rattle.cm_geo.specs.declared.geo.Geo.{Geo as GeoSeen};
ghost use Rattle.cm_plain.specs.declared.op.Op.{Op};
ghost use Rattle.cm_plain.specs.Limits.{KeepsLimits, segment_of};
ghost use Rattle.cm_lock.specs.declared.take.Stop.{Stop as StopSeen};
ghost use Rattle.cm_lock.specs.declared.view.Level.TheVariants.{Free, Read, Write};
ghost use Rattle.cm_lock.specs.declared.view.View.{View};
ghost use Rattle.cm_lock.specs.Tables.{IsOf, view_of};
ghost use Rattle.cm_yard.specs.Yards.{IsOf as IsOfYard, view_of as yard_view_of};
ghost use Rattle.cm_turn.specs.declared.turn.Settled.{Settled as SettledSeen};
ghost use Rattle.cm_turn.specs.Calls.{Leaves, ReportsStop};
ghost use Rattle.cm_turn.specs.Looks.{MayRaise, TakesOnce};
ghost use Rattle.cm_turn.specs.Records.{IsIdle};
ghost use Rattle.cm_turn.specs.Turns.{IsGround, turn_meter};

use crate::call::{act_in_update, act_in_write, ask_in_read};
use crate::operation::{Operation, Question};
use crate::questions::Get;
use crate::rounds::get_in_rounds;
use crate::seat_call::SeatCall;
use crate::turn::{Ground, Settled};
use cm_lock::{SegSeat, Stop};
use cm_words::{Dead, Fuse};
use cm_yard::YardSeat;

/// A call of an operation by one seat, whatever its level.
pub trait OperationCall {
    ghost op: { Self → Op };

    // how many bytes it may write to `out`
    ghost room: { Self → ℕ };

    // what it asks of the geometry
    ghost valid: { Self → GeoSeen → Type 0 };

    // which takes of it may have failed
    ghost refused: { Self → ℕ → ℕ → View → Type 0 };

    // what else is so of the seat before and after it, and the answer
    ghost also: { Self → View → View → Result SettledSeen StopSeen → Type 0 };

    fn act<F: Fuse>(
        &self,
        ground: &Ground<'_>,
        seat: &mut SegSeat,
        claims: &mut YardSeat,
        fuse: &mut F,
        out: &mut [u8],
    ) -> Result<Settled, Stop>
        requires ground { IsGround ground.now }
        requires its { IsOf seat.old ground.now.table.now }
        requires claims_its { IsOfYard claims.old ground.now.yard.now }
        requires idle { IsIdle (view_of seat.old) }
        requires valid { valid self.now ground.now.geo.now }
        requires limits { KeepsLimits ground.now.geo.now (op self.now) }
        requires segment { segment_of ground.now.geo.now (op self.now) ≡ ground.now.segment }
        requires room { room self.now ≤ length out.old }
        ensures its { IsOf seat.new ground.now.table.now }
        ensures claims_its { IsOfYard claims.new ground.now.yard.now }
        ensures fuse { ReportsStop (turn_meter (F.fused fuse.old) (view_of seat.old) (yard_view_of claims.old)) (turn_meter (F.fused fuse.new) (view_of seat.new) (yard_view_of claims.new)) result }
        ensures leaves { Leaves IsIdle (refused self.now) ground.now.segment ground.now.geo.now.extra (op self.now) out.new (view_of seat.old) (view_of seat.new) (yard_view_of claims.old) (yard_view_of claims.new) result }
        ensures also { also self.now (view_of seat.old) (view_of seat.new) result }
        ensures long { length out.new ≡ length out.old };
}

/// An operation under Write, with how many tries its take has.
#[derive(Clone, Copy)]
pub struct WriteCall<O> {
    pub operation: O,
    pub tries: u32,
}

impl<O: Operation> OperationCall for WriteCall<O> {
    ghost use Rattle.cm_turn.specs.Calls.{IsRefused};
    ghost use Rattle.cm_turn.specs.SeatCalls.{IsValid};

    ghost op = { λ call. O.op call.operation };

    ghost room = { λ call. O.room call.operation };

    ghost valid = { λ call geo. IsValid call.tries (O.ready call.operation geo) };

    ghost refused = { λ call. IsRefused Free Write call.tries };

    ghost also = { λ call was now result. OnOk result (TakesOnce call.tries was now) };

    fn act<F: Fuse>(
        &self,
        ground: &Ground<'_>,
        seat: &mut SegSeat,
        claims: &mut YardSeat,
        fuse: &mut F,
        out: &mut [u8],
    ) -> Result<Settled, Stop> {
        act_in_write(ground, seat, claims, fuse, &self.operation, out, self.tries)
    }
}

/// An operation under Update, which is raised for a change, with how many tries a take and the raise have.
#[derive(Clone, Copy)]
pub struct UpdateCall<O> {
    pub operation: O,
    pub tries: u32,
}

impl<O: Operation> OperationCall for UpdateCall<O> {
    ghost use Rattle.cm_turn.specs.Calls.{IsRefusedChange};
    ghost use Rattle.cm_turn.specs.SeatCalls.{IsValid};

    ghost op = { λ call. O.op call.operation };

    ghost room = { λ call. O.room call.operation };

    ghost valid = { λ call geo. IsValid call.tries (O.ready call.operation geo) };

    ghost refused = { λ call. IsRefusedChange call.tries };

    ghost also = { λ call was now result. OnOk result (MayRaise call.tries call.tries was now) };

    fn act<F: Fuse>(
        &self,
        ground: &Ground<'_>,
        seat: &mut SegSeat,
        claims: &mut YardSeat,
        fuse: &mut F,
        out: &mut [u8],
    ) -> Result<Settled, Stop> {
        act_in_update(ground, seat, claims, fuse, &self.operation, out, self.tries)
    }
}

/// A question under Read, with how many tries its take has.
#[derive(Clone, Copy)]
pub struct ReadCall<Q> {
    pub question: Q,
    pub tries: u32,
}

impl<Q: Question> OperationCall for ReadCall<Q> {
    ghost use Rattle.cm_turn.specs.Calls.{IsRefused};
    ghost use Rattle.cm_turn.specs.SeatCalls.{IsNonzero};

    ghost op = { λ call. Q.op call.question };

    ghost room = { λ call. Q.room call.question };

    ghost valid = { λ call geo. IsNonzero call.tries };

    ghost refused = { λ call. IsRefused Free Read call.tries };

    ghost also = { λ call was now result. OnOk result (TakesOnce call.tries was now) };

    fn act<F: Fuse>(
        &self,
        ground: &Ground<'_>,
        seat: &mut SegSeat,
        _claims: &mut YardSeat,
        fuse: &mut F,
        out: &mut [u8],
    ) -> Result<Settled, Stop> {
        ask_in_read(ground, seat, fuse, &self.question, out, self.tries)
    }
}

/// A get: rounds beside the writers, and where these fail under Read, with how many tries its take has.
#[derive(Clone, Copy)]
pub struct GetCall<'a> {
    pub key: &'a [u8],
    pub tries: u32,
}

impl OperationCall for GetCall<'_> {
    ghost use Rattle.cm_plain.specs.declared.op.Op.TheVariants.{Get as GetOp};
    ghost use Rattle.cm_turn.specs.Calls.{IsRefused};
    ghost use Rattle.cm_turn.specs.Rounds.{EndsGet};
    ghost use Rattle.cm_turn.specs.SeatCalls.{IsNonzero};

    ghost op = { λ call. GetOp call.key.now };

    ghost room = { λ call. 4096 };

    ghost valid = { λ call geo. IsNonzero call.tries };

    ghost refused = { λ call. IsRefused Free Read call.tries };

    ghost also = { λ call. EndsGet call.tries };

    fn act<F: Fuse>(
        &self,
        ground: &Ground<'_>,
        seat: &mut SegSeat,
        _claims: &mut YardSeat,
        fuse: &mut F,
        out: &mut [u8],
    ) -> Result<Settled, Stop> {
        match get_in_rounds(ground, seat, fuse, self.key, out) {
            Ok(Some(settled)) => Ok(settled),
            Ok(None) => {
                let question = Get { key: self.key };
                ask_in_read(ground, seat, fuse, &question, out, self.tries)
            }
            Err(Dead) => Err(Stop::Died),
        }
    }
}

/// A call of an operation as a call by one seat.
#[derive(Clone, Copy)]
pub struct ByOperation<'a, C> {
    pub call: &'a C,
}

impl<C: OperationCall> SeatCall for ByOperation<'_, C> {
    ghost use Rattle.cm_turn.specs.Calls.{Leaves};
    ghost use Rattle.cm_turn.specs.Records.{IsIdle};
    ghost use Rattle.cm_turn.specs.SeatCalls.{MayAct};

    type Answer = Settled;

    ghost may = { λ by. MayAct (C.op by.call.now) (C.valid by.call.now) };

    ghost room = { λ by. C.room by.call.now };

    ghost leaves = { λ by segment extra out was now before later result. Leaves IsIdle (C.refused by.call.now) segment extra (C.op by.call.now) out was now before later result × C.also by.call.now was now result };

    fn act<F: Fuse>(
        &self,
        ground: &Ground<'_>,
        seat: &mut SegSeat,
        claims: &mut YardSeat,
        fuse: &mut F,
        out: &mut [u8],
    ) -> Result<Settled, Stop> {
        self.call.act(ground, seat, claims, fuse, out)
    }
}
