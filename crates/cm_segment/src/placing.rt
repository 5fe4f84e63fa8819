//! Placing an entry in a free run, in the order of the stores: the link of a new tier, the run's bits,
//! the entry, its slot, and the counts of its tier and of the segment.

ghost use Rattle.std.specs.Prelude.{◌≡◌, ◌<◌};
ghost use Rattle.cm_geo.specs.Addresses.{words_in_segment};
ghost use Rattle.cm_plain.specs.declared.plan.PlanKind.TheVariants.{Fresh};
ghost use Rattle.cm_plain.specs.Plans.{plan_change};
ghost use Rattle.cm_words.specs.declared.access.Access.TheVariants.{Writable};
ghost use Rattle.cm_words.specs.Effects.{Reads};
ghost use Rattle.cm_words.specs.Calls.{Performs};
ghost use Rattle.cm_words.specs.Stores.{MayStoreEach, WritesEach};
ghost use Rattle.cm_segment.specs.PlacementBase.{FromBase, PlacesElsewhere};
ghost use Rattle.cm_segment.specs.Counts.{stores_to_raise};
ghost use Rattle.cm_segment.specs.Phases.{Advances, IsAfter, IsInPhase, IsUntouched};
ghost use Rattle.cm_segment.specs.PlacementStages.{IsEntryCounted, IsEntryPointed, IsEntryWritten, IsRunTaken};

use cm_chunks::set;
use cm_entry::write;
use cm_geo::{Geo, hash};
use cm_lookup::{free_slot, put_slot};
use cm_plain::{Plan, Run};
use cm_tiers::{chain, link};
use cm_words::{Dead, Mem};

// Adds one to a count.
pub(crate) fn raise<M: Mem>(mem: &mut M, at: u32) -> Result<(), Dead>
    requires writable { (M.seen mem.old).setting.access ≡ Writable }
    requires inner { 1 < at }
    requires in_range { at < words_in_segment (M.seen mem.old).setting.geo }
    requires allowed { MayStoreEach (M.seen mem.old) (stores_to_raise at) }
    ensures { Performs M.seen M.same_rest (λ old now. WritesEach old now (stores_to_raise at))
        Reads mem.old mem.new result }
{
    let word = mem.load(at)?;
    mem.store(at, word.wrapping_add(1))
}

// The link of the new run's tier, if it is to be linked.
fn open_tier<M: Mem>(mem: &mut M, geo: &Geo, plan: &Plan<'_>, run: Run) -> Result<(), Dead>
    requires places { PlacesElsewhere geo.now (plan_change plan.now) run }
    requires at { IsInPhase (M.seen mem.old) geo.now (plan_change plan.now) IsUntouched }
    ensures { Advances M.seen M.same_rest geo.now (plan_change plan.now)
        (FromBase geo.now (plan_change plan.now) run IsUntouched) mem.old mem.new result }
{
    if !plan.link {
        return Ok(());
    }
    let chain = chain(mem, geo)?;
    let last = chain.places[chain.len as usize - 1];
    link(mem, geo, last, run.place)
}

// The bits of the new run.
fn take_run<M: Mem>(mem: &mut M, geo: &Geo, plan: &Plan<'_>, run: Run) -> Result<(), Dead>
    requires places { PlacesElsewhere geo.now (plan_change plan.now) run }
    requires at { IsInPhase (M.seen mem.old) geo.now (plan_change plan.now)
        (FromBase geo.now (plan_change plan.now) run IsUntouched) }
    ensures { Advances M.seen M.same_rest geo.now (plan_change plan.now)
        (FromBase geo.now (plan_change plan.now) run (IsRunTaken geo.now run)) mem.old mem.new result }
{
    set(mem, geo, run)
}

// The new entry, in the run that is taken.
fn write_new<M: Mem>(mem: &mut M, geo: &Geo, plan: &Plan<'_>, run: Run) -> Result<(), Dead>
    requires places { PlacesElsewhere geo.now (plan_change plan.now) run }
    requires at { IsInPhase (M.seen mem.old) geo.now (plan_change plan.now)
        (FromBase geo.now (plan_change plan.now) run (IsRunTaken geo.now run)) }
    ensures { Advances M.seen M.same_rest geo.now (plan_change plan.now)
        (FromBase geo.now (plan_change plan.now) run
        (IsEntryWritten geo.now (plan_change plan.now) run)) mem.old mem.new result }
{
    write(mem, geo, run.place, run.chunk, plan.key, plan.value)
}

/// The new entry, in its run, to which no slot points yet.
pub(crate) fn write_apart<M: Mem>(
    mem: &mut M,
    geo: &Geo,
    plan: &Plan<'_>,
    run: Run,
) -> Result<(), Dead>
    requires places { PlacesElsewhere geo.now (plan_change plan.now) run }
    requires at { IsInPhase (M.seen mem.old) geo.now (plan_change plan.now) IsUntouched }
    ensures { Advances M.seen M.same_rest geo.now (plan_change plan.now)
        (FromBase geo.now (plan_change plan.now) run
        (IsEntryWritten geo.now (plan_change plan.now) run)) mem.old mem.new result }
{
    open_tier(mem, geo, plan, run)?;
    take_run(mem, geo, plan, run)?;
    write_new(mem, geo, plan, run)
}

/// A slot that points to the new entry, which is written.
pub(crate) fn point<M: Mem>(mem: &mut M, geo: &Geo, plan: &Plan<'_>, run: Run) -> Result<(), Dead>
    requires places { PlacesElsewhere geo.now (plan_change plan.now) run }
    requires at { IsInPhase (M.seen mem.old) geo.now (plan_change plan.now)
        (FromBase geo.now (plan_change plan.now) run
        (IsEntryWritten geo.now (plan_change plan.now) run)) }
    ensures { Advances M.seen M.same_rest geo.now (plan_change plan.now)
        (FromBase geo.now (plan_change plan.now) run
        (IsEntryPointed geo.now (plan_change plan.now) run)) mem.old mem.new result }
{
    let fingerprint = geo.fingerprint_of(hash(plan.key));
    let slot = free_slot(mem, geo, run.place, fingerprint)?;
    put_slot(mem, geo, run.place, slot, fingerprint, run.chunk)
}

// One entry more, in the counts of its tier and of the segment.
fn count_new<M: Mem>(mem: &mut M, geo: &Geo, plan: &Plan<'_>, run: Run) -> Result<(), Dead>
    requires places { PlacesElsewhere geo.now (plan_change plan.now) run }
    requires at { IsInPhase (M.seen mem.old) geo.now (plan_change plan.now)
        (FromBase geo.now (plan_change plan.now) run
        (IsEntryPointed geo.now (plan_change plan.now) run)) }
    ensures { Advances M.seen M.same_rest geo.now (plan_change plan.now)
        (FromBase geo.now (plan_change plan.now) run
        (IsEntryCounted geo.now (plan_change plan.now) run)) mem.old mem.new result }
{
    raise(mem, geo.tier_at(run.place) + 1)?;
    raise(mem, 2)
}

/// Places a fresh entry, in a tier of the chain or in one that it links.
pub(crate) fn place<M: Mem>(mem: &mut M, geo: &Geo, plan: &Plan<'_>, run: Run) -> Result<(), Dead>
    requires fresh { plan.now.kind ≡ Fresh }
    requires places { PlacesElsewhere geo.now (plan_change plan.now) run }
    requires at { IsInPhase (M.seen mem.old) geo.now (plan_change plan.now) IsUntouched }
    ensures { Advances M.seen M.same_rest geo.now (plan_change plan.now)
        (IsAfter geo.now (M.seen mem.old).setting.segment (plan_change plan.now)) mem.old mem.new result }
{
    write_apart(mem, geo, plan, run)?;
    point(mem, geo, plan, run)?;
    count_new(mem, geo, plan, run)
}
