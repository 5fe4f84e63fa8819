//! Whether the receipts of a segment are one legal history.

ghost use Rattle.std.specs.Prelude.{◌≡◌, ◌<◌};
ghost use Rattle.cm_script.specs.Scripts.{IsFor};

use crate::replay::Replay;
use cm_geo::Geo;
use cm_plain::{Bytes, MapLine, Pair, Receipt, Reply};
use cm_script::Script;
use std::alloc::Global;
use std::test::Fail;

/// Whether a reply is one to a change.
pub fn is_change(reply: &Reply) -> bool {
    matches!(
        reply,
        Reply::New | Reply::Replaced | Reply::Removed | Reply::Swept(_)
    )
}

/// The places of a segment's receipts, by number, and of the same number the change first.
fn by_number(alloc: Global, receipts: &[Receipt], segment: u32) -> Result<Vec<usize>, Fail> {
    let mut places = Vec::new(alloc);
    for (at, receipt) in receipts.iter().enumerate() {
        if receipt.segment == segment {
            places.push((receipt.number, !is_change(&receipt.reply), at))?;
        }
    }
    places.sort_unstable();
    let mut sorted = Vec::new(alloc);
    for (_, _, at) in places {
        sorted.push(at)?;
    }
    Ok(sorted)
}

/// The pairs of a segment in a map.
fn pairs_in(alloc: Global, map: &[MapLine], segment: u32) -> Result<Vec<Pair>, Fail> {
    let mut pairs = Vec::new(alloc);
    for line in map {
        if line.segment == segment {
            pairs.push(Pair {
                key: Bytes::of(alloc, line.key.as_slice())?,
                value: Bytes::of(alloc, line.value.as_slice())?,
            })?;
        }
    }
    Ok(pairs)
}

/// Replays a receipt: a change has the next number, another answer the present one.
fn replay_one(
    alloc: Global,
    replay: &mut Replay,
    script: &Script,
    receipt: &Receipt,
) -> Result<(), Fail>
    requires { IsFor replay.old.geo script.now }
    ensures { replay.new.geo ≡ replay.old.geo }
{
    let number = replay.number();
    let expected = if is_change(&receipt.reply) {
        number.saturating_add(1)
    } else {
        number
    };
    if receipt.number != expected || receipt.line == 0 || receipt.line > script.len() {
        return Err(Fail::new("a number or a line is wrong"));
    }
    let op = &script.line(receipt.line - 1).op;
    if !replay.answers(alloc, op, &receipt.reply)? || replay.number() != expected {
        return Err(Fail::new("an answer is wrong"));
    }
    Ok(())
}

/// Judges the receipts and the map of a segment, and tells how many tiers it has beyond the first one.
pub fn judge_segment(
    alloc: Global,
    geo: &Geo,
    script: &Script,
    receipts: &[Receipt],
    map: &[MapLine],
    segment: u32,
) -> Result<u32, Fail>
    requires here { segment < geo.now.segments }
    requires for_geo { IsFor geo.now script.now }
{
    let mut replay = Replay::new(alloc, geo, segment)?;
    for at in by_number(alloc, receipts, segment)? {
        let Some(receipt) = receipts.get(at) else {
            return Err(Fail::new("no such receipt"));
        };
        replay_one(alloc, &mut replay, script, receipt)?;
    }
    let pairs = pairs_in(alloc, map, segment)?;
    if !replay.holds(alloc, pairs.as_slice())? {
        return Err(Fail::new("the map is another one"));
    }
    Ok(replay.extra())
}
