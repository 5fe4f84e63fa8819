//! Making the change of a plan, from its begin to its end.

ghost use Rattle.std.specs.Prelude.{◌≡◌, ◌*◌, IfOk, OnOk, OnErr, None};
ghost use Rattle.cm_plain.specs.Plans.{op_of_ask, plan_change};
ghost use Rattle.cm_words.specs.Memory.{HasEvenNumber};
ghost use Rattle.cm_words.specs.Calls.{IsWritable};
ghost use Rattle.cm_words.specs.Effects.{Knows};
ghost use Rattle.cm_words.specs.Meters.{ReportsDeath};
ghost use Rattle.cm_segment.specs.Planning.{MayBegin};
ghost use Rattle.cm_turn.specs.Records.{DiesMaking};

use cm_geo::Geo;
use cm_plain::Plan;
use cm_segment::apply;
use cm_words::{Dead, Mem};

/// The change of a plan, and its number.
pub(crate) fn make<M: Mem>(mem: &mut M, geo: &Geo, plan: &Plan<'_>) -> Result<u64, Dead>
    requires writable { IsWritable (M.seen mem.old) geo.now }
    requires idle { (M.seen mem.old).plan ≡ None }
    requires number { HasEvenNumber (M.seen mem.old) }
    requires may { MayBegin (M.seen mem.old) geo.now (op_of_ask plan.now.ask) plan.now }
    ensures fuse { ReportsDeath (M.seen mem.old).meter (M.seen mem.new).meter result }
    ensures rest { IfOk result (λ number. M.rest_with mem.old mem.new (plan_change plan.now) number) }
    ensures idle { OnOk result ((M.seen mem.new).plan ≡ None) }
    ensures knows { IfOk result (λ number. Knows (M.seen mem.new) 1 (2 * number)) }
    ensures dead_rest { OnErr result (M.same_rest mem.old mem.new) }
    ensures dead { OnErr result (DiesMaking (plan_change plan.now) (M.seen mem.old) (M.seen mem.new)) }
{
    mem.begin(plan)?;
    apply(mem, geo, plan)?;
    let number = mem.finish()?;
    Ok(number)
}
