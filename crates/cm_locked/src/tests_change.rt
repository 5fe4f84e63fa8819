//! A change over any memory, for the tests: it puts the number that it will have.

ghost use Rattle.std.specs.Prelude.{◌≡◌, IfOk, IsTrue, None, OnErr, OnOk, length};
ghost use Rattle.cm_geo.specs.Hash.{segment_of_key};
ghost use Rattle.cm_geo.specs.Need.{Fits};
ghost use Rattle.cm_plain.specs.Plans.{op_of_ask, plan_change};
ghost use Rattle.cm_words.specs.Calls.{IsWritable};
ghost use Rattle.cm_words.specs.Memory.{HasEvenNumber};
ghost use Rattle.cm_segment.specs.Planning.{MayBegin};
ghost use Rattle.cm_locked.specs.ChangeTrials.{MayHaveChanged};

use cm_geo::Geo;
use cm_plain::Plan;
use cm_segment::{Planned, apply, plan_put};
use cm_words::{Dead, Mem};

/// The change of a plan, between its two change numbers: the number of changes then.
fn make<M: Mem>(mem: &mut M, geo: &Geo, plan: &Plan<'_>) -> Result<u64, Dead>
    requires writable { IsWritable (M.seen mem.old) geo.now }
    requires idle { (M.seen mem.old).plan ≡ None }
    requires number { HasEvenNumber (M.seen mem.old) }
    requires may { MayBegin (M.seen mem.old) geo.now (op_of_ask plan.now.ask) plan.now }
    ensures changed { IfOk result (M.rest_with mem.old mem.new (plan_change plan.now)) }
    ensures idle { OnOk result ((M.seen mem.new).plan ≡ None) }
    ensures dead { OnErr result (M.same_rest mem.old mem.new) }
{
    mem.begin(plan)?;
    apply(mem, geo, plan)?;
    mem.finish()
}

/// Puts the number that this change will have, twice, as the value of a key, and answers it. None where there is no
/// room, or no number left.
pub fn put_number<M: Mem>(mem: &mut M, geo: &Geo, key: &[u8]) -> Result<Option<u64>, Dead>
    requires writable { IsWritable (M.seen mem.old) geo.now }
    requires guarded { IsTrue (M.seen mem.old).setting.guarded }
    requires idle { (M.seen mem.old).plan ≡ None }
    requires fits { Fits geo.now (length key.now) 16 }
    requires segment { segment_of_key geo.now key.now ≡ (M.seen mem.old).setting.segment }
    ensures changed { IfOk result (MayHaveChanged M.same_rest M.rest_with mem.old mem.new) }
    ensures idle { OnOk result ((M.seen mem.new).plan ≡ None) }
    ensures dead { OnErr result (M.same_rest mem.old mem.new) }
{
    let before = mem.number()?;
    if before >= 1 << 62 {
        return Ok(None);
    }
    let mut value = [0; 16];
    value[..8].copy_from_slice(&(before + 1).to_le_bytes());
    value[8..].copy_from_slice(&(before + 1).to_le_bytes());
    let plan = match plan_put(mem, geo, key, &value)? {
        Planned::FullChain => return Ok(None),
        Planned::Ready(plan) | Planned::NeedsTier(plan) => plan,
    };
    let number = make(mem, geo, &plan)?;
    Ok(Some(number))
}
