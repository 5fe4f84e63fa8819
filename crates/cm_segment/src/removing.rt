//! Removing an entry: its slot first, then the bits of its run, then the counts.

ghost use Rattle.std.specs.Prelude.{◌≡◌, ◌<◌};
ghost use Rattle.cm_geo.specs.Addresses.{words_in_segment};
ghost use Rattle.cm_plain.specs.Plans.{plan_change};
ghost use Rattle.cm_words.specs.declared.access.Access.TheVariants.{Writable};
ghost use Rattle.cm_words.specs.Effects.{Reads};
ghost use Rattle.cm_words.specs.Stores.{MayStoreEach, WritesEach};
ghost use Rattle.cm_words.specs.Calls.{Performs};
ghost use Rattle.cm_segment.specs.Counts.{stores_to_lower};
ghost use Rattle.cm_segment.specs.Phases.{Advances, IsAfter, IsInPhase};
ghost use Rattle.cm_segment.specs.PlanNumbers.{HasBegun};
ghost use Rattle.cm_segment.specs.RemovalStages.{IsRemoval, IsRemoved, IsRunCleared, IsSlotRemoved};

use cm_chunks::clear;
use cm_geo::Geo;
use cm_lookup::remove_at;
use cm_plain::{Plan, Run};
use cm_words::{Dead, Mem};

// Takes one from a count.
pub(crate) fn lower<M: Mem>(mem: &mut M, at: u32) -> Result<(), Dead>
    requires writable { (M.seen mem.old).setting.access ≡ Writable }
    requires inner { 1 < at }
    requires in_range { at < words_in_segment (M.seen mem.old).setting.geo }
    requires allowed { MayStoreEach (M.seen mem.old) (stores_to_lower at) }
    ensures { Performs M.seen M.same_rest (λ old now. WritesEach old now (stores_to_lower at)) Reads mem.old mem.new result }
{
    let word = mem.load(at)?;
    mem.store(at, word.wrapping_sub(1))
}

// Removes the slot that points to the run.
fn unpoint<M: Mem>(mem: &mut M, geo: &Geo, plan: &Plan<'_>, run: Run) -> Result<(), Dead>
    requires removal { IsRemoval geo.now (plan_change plan.now) run plan.now.old_slot }
    requires at { IsInPhase (M.seen mem.old) geo.now (plan_change plan.now) (HasBegun geo.now (plan_change plan.now) plan.now.old_slot) }
    ensures { Advances M.seen M.same_rest geo.now (plan_change plan.now) (IsSlotRemoved geo.now (plan_change plan.now) run plan.now.old_slot) mem.old mem.new result }
{
    remove_at(mem, geo, run.place, plan.old_slot)
}

// Clears the bits of the run, to which nothing leads.
fn free_run<M: Mem>(mem: &mut M, geo: &Geo, plan: &Plan<'_>, run: Run) -> Result<(), Dead>
    requires removal { IsRemoval geo.now (plan_change plan.now) run plan.now.old_slot }
    requires at { IsInPhase (M.seen mem.old) geo.now (plan_change plan.now) (IsSlotRemoved geo.now (plan_change plan.now) run plan.now.old_slot) }
    ensures { Advances M.seen M.same_rest geo.now (plan_change plan.now) (IsRunCleared geo.now (plan_change plan.now) run plan.now.old_slot) mem.old mem.new result }
{
    clear(mem, geo, run)
}

// Counts one entry less, in its tier and in the segment.
fn uncount<M: Mem>(mem: &mut M, geo: &Geo, plan: &Plan<'_>, run: Run) -> Result<(), Dead>
    requires removal { IsRemoval geo.now (plan_change plan.now) run plan.now.old_slot }
    requires at { IsInPhase (M.seen mem.old) geo.now (plan_change plan.now) (IsRunCleared geo.now (plan_change plan.now) run plan.now.old_slot) }
    ensures { Advances M.seen M.same_rest geo.now (plan_change plan.now) (IsRemoved geo.now (plan_change plan.now) run plan.now.old_slot) mem.old mem.new result }
{
    lower(mem, geo.tier_at(run.place) + 1)?;
    lower(mem, 2)
}

/// Removes the entry of a run.
pub(crate) fn take_away<M: Mem>(
    mem: &mut M,
    geo: &Geo,
    plan: &Plan<'_>,
    run: Run,
) -> Result<(), Dead>
    requires removal { IsRemoval geo.now (plan_change plan.now) run plan.now.old_slot }
    requires at { IsInPhase (M.seen mem.old) geo.now (plan_change plan.now) (HasBegun geo.now (plan_change plan.now) plan.now.old_slot) }
    ensures { Advances M.seen M.same_rest geo.now (plan_change plan.now)
        (IsAfter geo.now (M.seen mem.old).setting.segment (plan_change plan.now)) mem.old mem.new result }
{
    unpoint(mem, geo, plan, run)?;
    free_run(mem, geo, plan, run)?;
    uncount(mem, geo, plan, run)
}
