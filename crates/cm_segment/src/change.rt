//! Making the stores of a plan.

ghost use Rattle.std.specs.Prelude.{OnOk};
ghost use Rattle.cm_plain.specs.Plans.{plan_change};
ghost use Rattle.cm_words.specs.Memory.{IsDone};
ghost use Rattle.cm_segment.specs.Phases.{Advances, IsAfter, IsInPhase};
ghost use Rattle.cm_segment.specs.PlanNumbers.{HasBegun, IsPlanIn};

use crate::placing::place;
use crate::relocating::relocate;
use crate::removing::take_away;
use crate::replacing::replace;
use cm_geo::Geo;
use cm_plain::{Plan, PlanKind};
use cm_words::{Dead, Mem};

/// Makes the stores of the plan that is under way, of which nothing was stored yet: those between
/// the two stores of the change number.
///
/// Their order is such that what a slot points to stands, and that each other key keeps its entry
/// and a slot. A step that has nothing to do makes no store.
///
/// - A fresh entry: the link of a new tier, the bits of its run, its words, its slot, and the
///   counts of its tier and of the segment, one more each.
/// - In place: the bits of the chunks that the entry takes more, its first word, its value and
///   its checksum, and the bits of the chunks that it leaves.
/// - A move within its tier: the bits of the new run, the words of the new entry, the slot, which
///   is stored over, and the bits of the old run.
/// - A move to another tier: the link of a new tier, the bits of the new run, the words of the
///   new entry, its slot, the removal of the old slot, the bits of the old run, and the counts of
///   the old tier and of the new one.
/// - A removal: that of the slot, the bits of the run, and the counts of the tier and of the
///   segment, one less each.
///
/// The plan's runs lie in the geometry, and where it has an old run, `old_slot` is the slot that
/// points to it; `plan_put` and `plan_remove` tell so. After `Ok` the words rest for the state
/// after the change. `Dead` where the fuse died in place of an event: then they are torn, as each
/// store of a guarded memory leaves them.
pub fn apply<M: Mem>(mem: &mut M, geo: &Geo, plan: &Plan<'_>) -> Result<(), Dead>
    requires inside { IsPlanIn geo.now (plan_change plan.now) plan.now.old_slot }
    requires at { IsInPhase (M.seen mem.old) geo.now (plan_change plan.now)
        (HasBegun geo.now (plan_change plan.now) plan.now.old_slot) }
    ensures stores { Advances M.seen M.same_rest geo.now (plan_change plan.now)
        (IsAfter geo.now (M.seen mem.old).setting.segment (plan_change plan.now)) mem.old mem.new result }
    ensures done { OnOk result (IsDone (M.seen mem.new) (plan_change plan.now)) }
{
    match (plan.kind, plan.old, plan.new) {
        (PlanKind::Fresh, _, Some(run)) => place(mem, geo, plan, run),
        (PlanKind::InPlace, Some(old), Some(run)) => replace(mem, geo, plan, old, run),
        (PlanKind::Relocate, Some(old), Some(run)) => relocate(mem, geo, plan, old, run),
        (PlanKind::Remove, Some(old), _) => take_away(mem, geo, plan, old),
        // No plan has other runs.
        _ => Ok(()),
    }
}
