//! Moving an entry to another run. The new entry is written first, to which nothing leads; in its tier the
//! slot of the old one is then stored over, and to another tier the new slot is stored before the old
//! one is removed, so that at each store a slot leads to one of the two.

ghost use Rattle.std.specs.Prelude.{◌≡◌, ◌≢◌};
ghost use Rattle.cm_plain.specs.Plans.{plan_change};
ghost use Rattle.cm_segment.specs.PlacementBase.{FromBase};
ghost use Rattle.cm_segment.specs.Phases.{Advances, IsAfter, IsInPhase};
ghost use Rattle.cm_segment.specs.PlanNumbers.{HasBegun};
ghost use Rattle.cm_segment.specs.PlacementStages.{IsEntryPointed, IsEntryWritten};
ghost use Rattle.cm_segment.specs.RelocationStages.{IsBesideOld, IsMove, IsMovedInTier, IsMovedToTier, IsOldRunCleared, IsOldSlotRemoved, IsTurned};

use crate::placing::{point, raise, write_apart};
use crate::removing::lower;
use cm_chunks::clear;
use cm_geo::{Geo, hash};
use cm_lookup::{put_slot, remove_at};
use cm_plain::{Plan, Run};
use cm_words::{Dead, Mem};

// Stores the slot of the old entry over: it points to the new one.
fn overwrite<M: Mem>(
    mem: &mut M,
    geo: &Geo,
    plan: &Plan<'_>,
    old: Run,
    run: Run,
) -> Result<(), Dead>
    requires moves { IsMove geo.now (plan_change plan.now) old run plan.now.old_slot }
    requires same { old.place ≡ run.place }
    requires at { IsInPhase (M.seen mem.old) geo.now (plan_change plan.now)
        (IsBesideOld geo.now (plan_change plan.now) old run plan.now.old_slot (IsEntryWritten geo.now (plan_change plan.now) run)) }
    ensures { Advances M.seen M.same_rest geo.now (plan_change plan.now)
        (FromBase geo.now (plan_change plan.now) run (IsTurned geo.now (plan_change plan.now) old run plan.now.old_slot)) mem.old mem.new result }
{
    let fingerprint = geo.fingerprint_of(hash(plan.key));
    put_slot(mem, geo, run.place, plan.old_slot, fingerprint, run.chunk)
}

// Clears the bits of the old run, in the tier of the new one.
fn free_old<M: Mem>(mem: &mut M, geo: &Geo, plan: &Plan<'_>, old: Run, run: Run) -> Result<(), Dead>
    requires moves { IsMove geo.now (plan_change plan.now) old run plan.now.old_slot }
    requires same { old.place ≡ run.place }
    requires at { IsInPhase (M.seen mem.old) geo.now (plan_change plan.now)
        (FromBase geo.now (plan_change plan.now) run (IsTurned geo.now (plan_change plan.now) old run plan.now.old_slot)) }
    ensures { Advances M.seen M.same_rest geo.now (plan_change plan.now)
        (FromBase geo.now (plan_change plan.now) run (IsMovedInTier geo.now (plan_change plan.now) old run plan.now.old_slot)) mem.old mem.new result }
{
    clear(mem, geo, old)
}

// Moves an entry in its tier.
fn move_here<M: Mem>(
    mem: &mut M,
    geo: &Geo,
    plan: &Plan<'_>,
    old: Run,
    run: Run,
) -> Result<(), Dead>
    requires moves { IsMove geo.now (plan_change plan.now) old run plan.now.old_slot }
    requires same { old.place ≡ run.place }
    requires at { IsInPhase (M.seen mem.old) geo.now (plan_change plan.now) (HasBegun geo.now (plan_change plan.now) plan.now.old_slot) }
    ensures { Advances M.seen M.same_rest geo.now (plan_change plan.now)
        (IsAfter geo.now (M.seen mem.old).setting.segment (plan_change plan.now)) mem.old mem.new result }
{
    write_apart(mem, geo, plan, run)?;
    overwrite(mem, geo, plan, old, run)?;
    free_old(mem, geo, plan, old, run)
}

// Removes the slot of the old entry, in another tier than the new one's.
fn unpoint_old<M: Mem>(
    mem: &mut M,
    geo: &Geo,
    plan: &Plan<'_>,
    old: Run,
    run: Run,
) -> Result<(), Dead>
    requires moves { IsMove geo.now (plan_change plan.now) old run plan.now.old_slot }
    requires apart { old.place ≢ run.place }
    requires at { IsInPhase (M.seen mem.old) geo.now (plan_change plan.now)
        (IsBesideOld geo.now (plan_change plan.now) old run plan.now.old_slot (IsEntryPointed geo.now (plan_change plan.now) run)) }
    ensures { Advances M.seen M.same_rest geo.now (plan_change plan.now)
        (FromBase geo.now (plan_change plan.now) run (IsOldSlotRemoved geo.now (plan_change plan.now) old run plan.now.old_slot)) mem.old mem.new result }
{
    remove_at(mem, geo, old.place, plan.old_slot)
}

// Clears the bits of the old run, in another tier.
fn vacate<M: Mem>(mem: &mut M, geo: &Geo, plan: &Plan<'_>, old: Run, run: Run) -> Result<(), Dead>
    requires moves { IsMove geo.now (plan_change plan.now) old run plan.now.old_slot }
    requires apart { old.place ≢ run.place }
    requires at { IsInPhase (M.seen mem.old) geo.now (plan_change plan.now)
        (FromBase geo.now (plan_change plan.now) run (IsOldSlotRemoved geo.now (plan_change plan.now) old run plan.now.old_slot)) }
    ensures { Advances M.seen M.same_rest geo.now (plan_change plan.now)
        (FromBase geo.now (plan_change plan.now) run (IsOldRunCleared geo.now (plan_change plan.now) old run plan.now.old_slot)) mem.old mem.new result }
{
    clear(mem, geo, old)
}

// Counts one entry less in the old tier, and one more in the new one.
fn count_moved<M: Mem>(
    mem: &mut M,
    geo: &Geo,
    plan: &Plan<'_>,
    old: Run,
    run: Run,
) -> Result<(), Dead>
    requires moves { IsMove geo.now (plan_change plan.now) old run plan.now.old_slot }
    requires apart { old.place ≢ run.place }
    requires at { IsInPhase (M.seen mem.old) geo.now (plan_change plan.now)
        (FromBase geo.now (plan_change plan.now) run (IsOldRunCleared geo.now (plan_change plan.now) old run plan.now.old_slot)) }
    ensures { Advances M.seen M.same_rest geo.now (plan_change plan.now)
        (FromBase geo.now (plan_change plan.now) run (IsMovedToTier geo.now (plan_change plan.now) old run plan.now.old_slot)) mem.old mem.new result }
{
    lower(mem, geo.tier_at(old.place) + 1)?;
    raise(mem, geo.tier_at(run.place) + 1)
}

// Moves an entry to another tier.
fn move_away<M: Mem>(
    mem: &mut M,
    geo: &Geo,
    plan: &Plan<'_>,
    old: Run,
    run: Run,
) -> Result<(), Dead>
    requires moves { IsMove geo.now (plan_change plan.now) old run plan.now.old_slot }
    requires apart { old.place ≢ run.place }
    requires at { IsInPhase (M.seen mem.old) geo.now (plan_change plan.now) (HasBegun geo.now (plan_change plan.now) plan.now.old_slot) }
    ensures { Advances M.seen M.same_rest geo.now (plan_change plan.now)
        (IsAfter geo.now (M.seen mem.old).setting.segment (plan_change plan.now)) mem.old mem.new result }
{
    write_apart(mem, geo, plan, run)?;
    point(mem, geo, plan, run)?;
    unpoint_old(mem, geo, plan, old, run)?;
    vacate(mem, geo, plan, old, run)?;
    count_moved(mem, geo, plan, old, run)
}

/// Moves the entry of a run to another run.
pub(crate) fn relocate<M: Mem>(
    mem: &mut M,
    geo: &Geo,
    plan: &Plan<'_>,
    old: Run,
    run: Run,
) -> Result<(), Dead>
    requires moves { IsMove geo.now (plan_change plan.now) old run plan.now.old_slot }
    requires at { IsInPhase (M.seen mem.old) geo.now (plan_change plan.now) (HasBegun geo.now (plan_change plan.now) plan.now.old_slot) }
    ensures { Advances M.seen M.same_rest geo.now (plan_change plan.now)
        (IsAfter geo.now (M.seen mem.old).setting.segment (plan_change plan.now)) mem.old mem.new result }
{
    if old.place == run.place {
        move_here(mem, geo, plan, old, run)
    } else {
        move_away(mem, geo, plan, old, run)
    }
}
