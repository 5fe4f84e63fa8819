//! A get without a level: rounds of loads beside the writers.

ghost use Rattle.std.specs.Prelude.{◌≡◌, ◌+◌, ◌≤◌, IfOk, IsSome, OnErr, length};
ghost use Rattle.cm_plain.specs.declared.op.Op.TheVariants.{Get};
ghost use Rattle.cm_words.specs.Meters.{ReportsDeath};
ghost use Rattle.cm_lock.specs.Rule.{seat_meter};
ghost use Rattle.cm_lock.specs.Tables.{IsOf, key_of, view_of};
ghost use Rattle.cm_turn.specs.Calls.{DiesReading};
ghost use Rattle.cm_turn.specs.Records.{IsIdle};
ghost use Rattle.cm_turn.specs.Rounds.{EndsRound, EndsRounds, IsAnswerTo, IsFoundAnswer, Peeks, rounds};
ghost use Rattle.cm_turn.specs.Turns.{IsGround};

use crate::answer::Answer;
use crate::turn::{Ground, Settled};
use cm_geo::Geo;
use cm_lock::{SegSeat, SegTable};
use cm_plain::Ask;
use cm_segment::{Peeked, peek_get};
use cm_words::{Dead, Fuse};

/// The answer to what a peek found. Where no words that stood there at once have all that it found, any answer
/// is right.
fn answer_of(peeked: Peeked) -> Answer
    ensures { IsAnswerTo peeked result }
{
    match peeked {
        Peeked::Found(len) => Answer::Value(len),
        Peeked::Missing | Peeked::Garbled => Answer::Missing,
    }
}

/// What a get finds in the open round; a value comes to `out`.
fn find_in_round<F: Fuse>(
    table: &SegTable,
    geo: &Geo,
    seat: &mut SegSeat,
    fuse: &mut F,
    key: &[u8],
    out: &mut [u8],
) -> Result<Answer, Dead>
    requires its { IsOf seat.old table.now }
    requires open { IsSome (view_of seat.old).round }
    requires geo { (key_of table.now).geo ≡ geo.now }
    requires room { 4096 ≤ length out.old }
    ensures its { IsOf seat.new table.now }
    ensures fuse { ReportsDeath (seat_meter (F.fused fuse.old) (view_of seat.old)) (seat_meter (F.fused fuse.new) (view_of seat.new)) result }
    ensures peeks { Peeks (view_of seat.old) (view_of seat.new) }
    ensures right { IfOk result (IsFoundAnswer (key_of table.now) (view_of seat.new) (Get key.now) out.new) }
    ensures long { length out.new ≡ length out.old }
{
    let mut peek = table.peek(seat, fuse);
    let peeked = peek_get(&mut peek, geo, key, out)?;
    Ok(answer_of(peeked))
}

/// One round: the answer with its number, or None where the round failed.
fn get_in_round<F: Fuse>(
    ground: &Ground<'_>,
    seat: &mut SegSeat,
    fuse: &mut F,
    key: &[u8],
    out: &mut [u8],
) -> Result<Option<Settled>, Dead>
    requires ground { IsGround ground.now }
    requires its { IsOf seat.old ground.now.table.now }
    requires idle { IsIdle (view_of seat.old) }
    requires room { 4096 ≤ length out.old }
    ensures its { IsOf seat.new ground.now.table.now }
    ensures fuse { ReportsDeath (seat_meter (F.fused fuse.old) (view_of seat.old)) (seat_meter (F.fused fuse.new) (view_of seat.new)) result }
    ensures ends { IfOk result (EndsRound (Get key.now) out.new (view_of seat.old) (view_of seat.new)) }
    ensures dead { OnErr result (DiesReading (Get key.now) (view_of seat.old) (view_of seat.new)) }
    ensures rounds { OnErr result ((view_of seat.new).failed_rounds ≡ (view_of seat.old).failed_rounds) }
    ensures looks { (view_of seat.new).looks ≡ (view_of seat.old).looks }
    ensures long { length out.new ≡ length out.old }
{
    if !ground.table.open_round(seat, fuse)? {
        return Ok(None);
    }
    let answer = find_in_round(ground.table, ground.geo, seat, fuse, key, out)?;
    let ask = Ask::Get { key };
    match ground
        .table
        .close_round(seat, fuse, ask, answer.heard(out))?
    {
        Some(number) => Ok(Some(Settled { number, answer })),
        None => Ok(None),
    }
}

/// How many rounds a get makes before it takes the lock.
const ROUNDS: u32 = 3;

/// At most three rounds: the answer with its number, or None where all failed.
pub(crate) fn get_in_rounds<F: Fuse>(
    ground: &Ground<'_>,
    seat: &mut SegSeat,
    fuse: &mut F,
    key: &[u8],
    out: &mut [u8],
) -> Result<Option<Settled>, Dead>
    requires ground { IsGround ground.now }
    requires its { IsOf seat.old ground.now.table.now }
    requires idle { IsIdle (view_of seat.old) }
    requires room { 4096 ≤ length out.old }
    ensures its { IsOf seat.new ground.now.table.now }
    ensures fuse { ReportsDeath (seat_meter (F.fused fuse.old) (view_of seat.old)) (seat_meter (F.fused fuse.new) (view_of seat.new)) result }
    ensures ends { IfOk result (EndsRounds (Get key.now) out.new (view_of seat.old) (view_of seat.new)) }
    ensures dead { OnErr result (DiesReading (Get key.now) (view_of seat.old) (view_of seat.new)) }
    ensures rounds { OnErr result ((view_of seat.new).failed_rounds ≤ (view_of seat.old).failed_rounds + rounds) }
    ensures looks { (view_of seat.new).looks ≡ (view_of seat.old).looks }
    ensures long { length out.new ≡ length out.old }
{
    for _ in 0..ROUNDS {
        if let Some(settled) = get_in_round(ground, seat, fuse, key, out)? {
            return Ok(Some(settled));
        }
    }
    Ok(None)
}
