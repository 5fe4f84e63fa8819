//! Replacing a value in place: the bits of the chunks that are taken more, then the value, then the bits
//! of the chunks that are left.

ghost use Rattle.std.specs.Prelude.{◌≡◌};
ghost use Rattle.cm_plain.specs.Plans.{plan_change};
ghost use Rattle.cm_segment.specs.Phases.{Advances, IsAfter, IsInPhase, IsUntouched};
ghost use Rattle.cm_segment.specs.ReplacementStages.{IsExtended, IsReplaced, IsReplacement, IsRewritten};

use cm_chunks::{clear, set};
use cm_entry::write_value;
use cm_geo::Geo;
use cm_plain::{Plan, Run};
use cm_words::{Dead, Mem};

// Sets the bits of the chunks that the new run has more.
fn extend<M: Mem>(mem: &mut M, geo: &Geo, plan: &Plan<'_>, old: Run, run: Run) -> Result<(), Dead>
    requires replacement { IsReplacement geo.now (plan_change plan.now) old run }
    requires at { IsInPhase (M.seen mem.old) geo.now (plan_change plan.now) IsUntouched }
    ensures { Advances M.seen M.same_rest geo.now (plan_change plan.now) (IsExtended geo.now (plan_change plan.now) old run) mem.old mem.new result }
{
    if run.chunks <= old.chunks {
        return Ok(());
    }
    let more = Run {
        place: run.place,
        chunk: run.chunk + old.chunks,
        chunks: run.chunks - old.chunks,
    };
    set(mem, geo, more)
}

// Stores the new value over the old one. The plan's value is passed once more as a slice.
fn rewrite<M: Mem>(
    mem: &mut M,
    geo: &Geo,
    plan: &Plan<'_>,
    value: &[u8],
    old: Run,
    run: Run,
) -> Result<(), Dead>
    requires value { value.now ≡ plan.now.value.now }
    requires replacement { IsReplacement geo.now (plan_change plan.now) old run }
    requires at { IsInPhase (M.seen mem.old) geo.now (plan_change plan.now) (IsExtended geo.now (plan_change plan.now) old run) }
    ensures { Advances M.seen M.same_rest geo.now (plan_change plan.now) (IsRewritten geo.now (plan_change plan.now) old run) mem.old mem.new result }
{
    write_value(mem, geo, run.place, run.chunk, plan.key, value)
}

// Clears the bits of the chunks that the new run has less.
fn shrink<M: Mem>(mem: &mut M, geo: &Geo, plan: &Plan<'_>, old: Run, run: Run) -> Result<(), Dead>
    requires replacement { IsReplacement geo.now (plan_change plan.now) old run }
    requires at { IsInPhase (M.seen mem.old) geo.now (plan_change plan.now) (IsRewritten geo.now (plan_change plan.now) old run) }
    ensures { Advances M.seen M.same_rest geo.now (plan_change plan.now) (IsReplaced geo.now (plan_change plan.now) old run) mem.old mem.new result }
{
    if old.chunks <= run.chunks {
        return Ok(());
    }
    let less = Run {
        place: run.place,
        chunk: run.chunk + run.chunks,
        chunks: old.chunks - run.chunks,
    };
    clear(mem, geo, less)
}

/// Replaces the value of the entry of a run, where it stands.
pub(crate) fn replace<M: Mem>(
    mem: &mut M,
    geo: &Geo,
    plan: &Plan<'_>,
    old: Run,
    run: Run,
) -> Result<(), Dead>
    requires replacement { IsReplacement geo.now (plan_change plan.now) old run }
    requires at { IsInPhase (M.seen mem.old) geo.now (plan_change plan.now) IsUntouched }
    ensures { Advances M.seen M.same_rest geo.now (plan_change plan.now)
        (IsAfter geo.now (M.seen mem.old).setting.segment (plan_change plan.now)) mem.old mem.new result }
{
    extend(mem, geo, plan, old, run)?;
    rewrite(mem, geo, plan, plan.value, old, run)?;
    shrink(mem, geo, plan, old, run)
}
