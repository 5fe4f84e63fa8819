//! The calls of a sweep by one seat: the opening, the steps, and the closing.

ghost use Rattle.std.specs.Prelude.{◌≡◌, ◌≢◌, ◌≤◌, ◌⊎◌, IfOk, IfSome, None, OnErr, OnOk, false, length};
ghost use Rattle.cm_plain.specs.declared.op.Op.TheVariants as op;
ghost use Rattle.cm_plain.specs.Limits.{KeepsLimits};
ghost use Rattle.cm_plain.specs.Steps.{would_change};
ghost use Rattle.cm_words.specs.Calls.{IsReadable, Loads};
ghost use Rattle.cm_words.specs.Meters.{ReportsDeath};
ghost use Rattle.cm_lock.specs.Rule.{known_of, seat_meter};
ghost use Rattle.cm_lock.specs.Tables.{IsOf, key_of, level_of, view_of};
ghost use Rattle.cm_lock.specs.declared.view.Level.TheVariants.{Free, Update, Write};
ghost use Rattle.cm_yard.specs.Yards.{IsOf as IsOfYard, view_of as yard_view_of};
ghost use Rattle.cm_turn.specs.Calls.{IsRefused, Leaves, ReportsStop};
ghost use Rattle.cm_turn.specs.Conditions.{EachHere, IsSwept};
ghost use Rattle.cm_turn.specs.Looks.{LooksNever, MayRaise, TakesOnce};
ghost use Rattle.cm_turn.specs.Records.{HasLooked, Holds};
ghost use Rattle.cm_turn.specs.SeatSweeps.{FindsNext, IsLowered};
ghost use Rattle.cm_turn.specs.Turns.{IsGround, turn_meter};

use crate::answer::Answer;
use crate::call::settle_from_update;
use crate::operation::Operation;
use crate::removing::SweptKey;
use crate::seat_call::SeatCall;
use crate::turn::{Ground, Settled, decide_held, tell_held};
use cm_geo::Geo;
use cm_lock::{Level, SegSeat, SegTable, Stop};
use cm_plain::Ask;
use cm_segment::{Cursor, Stand, walk};
use cm_words::{Dead, Fuse, Mem};
use cm_yard::YardSeat;

/// The first slot of a chain.
pub fn first_slot() -> Cursor
    ensures { result ≡ record { link = 0; slot = 0 } }
{
    Cursor { link: 0, slot: 0 }
}

/// A key with the prefix: the first one at or behind a cursor, else the first one of the chain. Its bytes come to the
/// beginning of `key`. None exactly where no key has the prefix.
fn find_next<M: Mem>(
    mem: &mut M,
    geo: &Geo,
    segment: u32,
    from: Cursor,
    prefix: &[u8],
    key: &mut [u8],
) -> Result<Option<Stand>, Dead>
    requires readable { IsReadable (M.seen mem.old) geo.now }
    requires room { 256 ≤ length key.old }
    ensures loads { Loads M.seen M.same_rest mem.old mem.new result }
    ensures inside { IfOk result (λ found. IfSome found (λ stand. stand.key_len ≤ 256)) }
    ensures found { IfOk result (FindsNext (M.seen mem.new) geo.now segment prefix.now key.new) }
    ensures long { length key.new ≡ length key.old }
{
    if let Some(stand) = walk(mem, geo, from, prefix, key)? {
        return Ok(Some(stand));
    }
    // Only a walk from the first slot tells that there is none.
    if from.link == 0 && from.slot == 0 {
        return Ok(None);
    }
    walk(mem, geo, first_slot(), prefix, key)
}

/// The next key of a sweep, as the words are under the seat's level.
fn find_held<F: Fuse>(
    ground: &Ground<'_>,
    seat: &mut SegSeat,
    fuse: &mut F,
    from: Cursor,
    prefix: &[u8],
    key: &mut [u8],
) -> Result<Option<Stand>, Dead>
    requires ground { IsGround ground.now }
    requires its { IsOf seat.old ground.now.table.now }
    requires level { level_of seat.old ≢ Free }
    requires idle { (view_of seat.old).own.plan ≡ None }
    requires room { 256 ≤ length key.old }
    ensures its { IsOf seat.new ground.now.table.now }
    ensures fuse { ReportsDeath (seat_meter (F.fused fuse.old) (view_of seat.old)) (seat_meter (F.fused fuse.new) (view_of seat.new)) result }
    ensures looks { HasLooked (view_of seat.old) (view_of seat.new) }
    ensures inside { IfOk result (λ found. IfSome found (λ stand. stand.key_len ≤ 256)) }
    ensures found { IfOk result (FindsNext (known_of (key_of ground.now.table.now) (view_of seat.new).own) ground.now.geo.now ground.now.segment prefix.now key.new) }
    ensures long { length key.new ≡ length key.old }
{
    let mut hold = ground.table.hold(seat, fuse);
    find_next(&mut hold, ground.geo, ground.segment, from, prefix, key)
}

/// Lowers Write to Update, where the seat was raised.
fn back_to_update<F: Fuse>(table: &SegTable, seat: &mut SegSeat, fuse: &mut F) -> Result<(), Dead>
    requires its { IsOf seat.old table.now }
    requires level { (level_of seat.old ≡ Update) ⊎ (level_of seat.old ≡ Write) }
    requires idle { (view_of seat.old).own.plan ≡ None }
    ensures its { IsOf seat.new table.now }
    ensures fuse { ReportsDeath (seat_meter (F.fused fuse.old) (view_of seat.old)) (seat_meter (F.fused fuse.new) (view_of seat.new)) result }
    ensures lowers { IfOk result (λ done. IsLowered (view_of seat.old) (view_of seat.new)) }
    ensures dead { OnErr result (view_of seat.new ≡ view_of seat.old) }
{
    if seat.level() == Level::Write {
        table.lower(seat, fuse)
    } else {
        Ok(())
    }
}

/// Enters that no key has the prefix.
fn tell_none<F: Fuse>(
    ground: &Ground<'_>,
    seat: &mut SegSeat,
    claims: &YardSeat,
    fuse: &mut F,
    prefix: &[u8],
    out: &[u8],
    tries: u32,
) -> Result<Settled, Stop>
    requires ground { IsGround ground.now }
    requires its { IsOf seat.old ground.now.table.now }
    requires holds { Holds Update (view_of seat.old) }
    requires none { EachHere (known_of (key_of ground.now.table.now) (view_of seat.old).own) ground.now.geo.now (λ state. would_change (op.Sweep ground.now.segment prefix.now) state ≡ false) }
    ensures its { IsOf seat.new ground.now.table.now }
    ensures fuse { ReportsStop (turn_meter (F.fused fuse.old) (view_of seat.old) (yard_view_of claims.now)) (turn_meter (F.fused fuse.new) (view_of seat.new) (yard_view_of claims.now)) result }
    ensures looks { LooksNever (view_of seat.old) (view_of seat.new) }
    ensures leaves { Leaves (Holds Update) (IsRefused Update Write tries) ground.now.segment ground.now.geo.now.extra (op.Sweep ground.now.segment prefix.now) out.now (view_of seat.old) (view_of seat.new) (yard_view_of claims.now) (yard_view_of claims.now) result }
{
    let ask = Ask::Sweep {
        segment: ground.segment,
        prefix,
    };
    let answer = Answer::SweptAll;
    match tell_held(ground.table, seat, fuse, ask, answer, out) {
        Ok(number) => Ok(Settled { number, answer }),
        Err(Dead) => Err(Stop::Died),
    }
}

/// Takes the entry of a key away that was found under Update, and lowers to Update.
fn take_found<F: Fuse>(
    ground: &Ground<'_>,
    seat: &mut SegSeat,
    claims: &mut YardSeat,
    fuse: &mut F,
    operation: &SweptKey<'_>,
    out: &mut [u8],
    tries: u32,
) -> Result<Settled, Stop>
    requires ground { IsGround ground.now }
    requires its { IsOf seat.old ground.now.table.now }
    requires claims_its { IsOfYard claims.old ground.now.yard.now }
    requires holds { Holds Update (view_of seat.old) }
    requires limits { KeepsLimits ground.now.geo.now (op.Sweep operation.now.segment operation.now.prefix.now) }
    requires segment { operation.now.segment ≡ ground.now.segment }
    requires room { 256 ≤ length out.old }
    requires ready { IsSwept (known_of (key_of ground.now.table.now) (view_of seat.old).own) ground.now.geo.now operation.now.prefix.now operation.now.key.now }
    requires nonzero { 1 ≤ tries }
    ensures its { IsOf seat.new ground.now.table.now }
    ensures claims_its { IsOfYard claims.new ground.now.yard.now }
    ensures fuse { ReportsStop (turn_meter (F.fused fuse.old) (view_of seat.old) (yard_view_of claims.old)) (turn_meter (F.fused fuse.new) (view_of seat.new) (yard_view_of claims.new)) result }
    ensures looks { OnOk result (MayRaise 0 tries (view_of seat.old) (view_of seat.new)) }
    ensures leaves { Leaves (Holds Update) (IsRefused Update Write tries) ground.now.segment ground.now.geo.now.extra (op.Sweep operation.now.segment operation.now.prefix.now) out.new (view_of seat.old) (view_of seat.new) (yard_view_of claims.old) (yard_view_of claims.new) result }
    ensures long { length out.new ≡ length out.old }
{
    let verdict = match decide_held(ground.table, ground.geo, seat, fuse, operation, out) {
        Ok(verdict) => verdict,
        Err(Dead) => return Err(Stop::Died),
    };
    let ask = operation.ask();
    let settled = settle_from_update(ground, seat, claims, fuse, ask, verdict, out, tries)?;
    match back_to_update(ground.table, seat, fuse) {
        Ok(()) => Ok(settled),
        Err(Dead) => Err(Stop::Died),
    }
}

/// What a step answered, and where the next one begins to look.
#[derive(Clone, Copy)]
pub struct Stepped {
    pub settled: Settled,
    pub at: Cursor,
}

/// The opening of a sweep, with how many tries its take has.
#[derive(Clone, Copy)]
pub struct OpenCall {
    pub tries: u32,
}

impl SeatCall for OpenCall {
    ghost use Rattle.cm_turn.specs.SeatSweeps.{MayOpen, Opens};

    type Answer = ();

    ghost may = { λ call geo segment v. MayOpen call.tries v };

    ghost room = { λ call. 0 };

    ghost leaves = { λ call segment extra out was now before later result. Opens call.tries was now before later result × OnOk result (TakesOnce call.tries was now) };

    fn act<F: Fuse>(
        &self,
        ground: &Ground<'_>,
        seat: &mut SegSeat,
        _claims: &mut YardSeat,
        fuse: &mut F,
        _out: &mut [u8],
    ) -> Result<(), Stop> {
        ground.table.update(seat, fuse, self.tries)
    }
}

/// One step of a sweep, with how many tries its raise has.
#[derive(Clone, Copy)]
pub struct StepCall<'a> {
    pub segment: u32,
    pub prefix: &'a [u8],
    pub at: Cursor,
    pub tries: u32,
}

impl SeatCall for StepCall<'_> {
    ghost use Rattle.cm_turn.specs.SeatSweeps.{MayStepBy, settled_in};

    type Answer = Stepped;

    ghost may = { λ call. MayStepBy call.tries call.segment call.prefix.now };

    ghost room = { λ call. 256 };

    ghost leaves = { λ call segment extra out was now before later result. Leaves (Holds Update) (IsRefused Update Write call.tries) segment extra (op.Sweep call.segment call.prefix.now) out was now before later (settled_in result) × OnOk result (MayRaise 0 call.tries was now) };

    fn act<F: Fuse>(
        &self,
        ground: &Ground<'_>,
        seat: &mut SegSeat,
        claims: &mut YardSeat,
        fuse: &mut F,
        out: &mut [u8],
    ) -> Result<Stepped, Stop> {
        let mut key = [0; 256];
        let found = match find_held(ground, seat, fuse, self.at, self.prefix, &mut key) {
            Ok(found) => found,
            Err(Dead) => return Err(Stop::Died),
        };
        let Some(stand) = found else {
            let settled = tell_none(ground, seat, claims, fuse, self.prefix, out, self.tries)?;
            return Ok(Stepped {
                settled,
                at: self.at,
            });
        };
        let operation = SweptKey {
            segment: self.segment,
            prefix: self.prefix,
            key: &key[..stand.key_len as usize],
        };
        let settled = take_found(ground, seat, claims, fuse, &operation, out, self.tries)?;
        // The removal's shift may have filled this slot.
        Ok(Stepped {
            settled,
            at: stand.at,
        })
    }
}

/// The closing of a sweep.
#[derive(Clone, Copy)]
pub struct CloseCall;

impl SeatCall for CloseCall {
    ghost use Rattle.cm_turn.specs.SeatSweeps.{IsNeverBusy, Releases};

    type Answer = ();

    ghost may = { λ call geo segment v. Holds Update v };

    ghost room = { λ call. 0 };

    ghost leaves = { λ call segment extra out was now before later result. Releases was now before later result × IsNeverBusy result };

    fn act<F: Fuse>(
        &self,
        ground: &Ground<'_>,
        seat: &mut SegSeat,
        _claims: &mut YardSeat,
        fuse: &mut F,
        _out: &mut [u8],
    ) -> Result<(), Stop> {
        match ground.table.release(seat, fuse) {
            Ok(()) => Ok(()),
            Err(Dead) => Err(Stop::Died),
        }
    }
}
