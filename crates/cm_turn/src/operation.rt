//! What an operation of a store is, whatever the memory that it works on.

ghost use Rattle.std.specs.Prelude.{◌≡◌, ◌≤◌, IfOk, IsTrue, None, length, true, ℕ};
ghost use Rattle.cm_geo.specs.declared.geo.Geo.{Geo as GeoSeen};
ghost use Rattle.cm_plain.specs.declared.op.Op.{Op};
ghost use Rattle.cm_plain.specs.Limits.{KeepsLimits, segment_of};
ghost use Rattle.cm_plain.specs.Plans.{op_of_ask};
ghost use Rattle.cm_words.specs.Calls.{IsReadable, Loads};
ghost use Rattle.cm_words.specs.Memory.{MemSeen};
ghost use Rattle.cm_turn.specs.Verdicts.{Decides, IsQuiet, Judges, StaysBy};

use crate::answer::Answer;
use cm_geo::Geo;
use cm_plain::{Ask, Plan};
use cm_words::{Dead, Mem};

/// What is to be done with an operation.
#[derive(Clone, Copy)]
pub enum Verdict<'a> {
    /// Nothing changes, and this is the answer.
    Stays(Answer),
    /// This plan is to be made, and this is the answer to it.
    Changes(Plan<'a>, Answer),
}

/// An operation that looks at the words of its segment, and plans a change of them.
pub trait Operation {
    ghost op: { Self → Op };

    // how many bytes it may write to `out`
    ghost room: { Self → ℕ };

    // what it asks of the words that a memory knows
    ghost ready: { Self → GeoSeen → MemSeen → Type 0 };

    /// What is asked.
    fn ask(&self) -> Ask<'_>
        ensures { op_of_ask result ≡ op self.now };

    /// What is to be done, but for the number of changes and the grant of a tier.
    fn judge<M: Mem>(&self, mem: &mut M, geo: &Geo, out: &mut [u8]) -> Result<Verdict<'_>, Dead>
        requires readable { IsReadable (M.seen mem.old) geo.now }
        requires limits { KeepsLimits geo.now (op self.now) }
        requires segment { segment_of geo.now (op self.now) ≡ (M.seen mem.old).setting.segment }
        requires room { room self.now ≤ length out.old }
        requires ready { ready self.now geo.now (M.seen mem.old) }
        ensures loads { Loads M.seen M.same_rest mem.old mem.new result }
        ensures judges { IfOk result (Judges (M.seen mem.new) geo.now (op self.now) out.new) }
        ensures long { length out.new ≡ length out.old };
}

/// The last number of changes.
const LAST: u64 = 1 << 62;

/// What is to be done with an operation: Worn where it would change the segment, which has no number left.
pub(crate) fn decide<'a, M: Mem, O: Operation>(
    mem: &mut M,
    geo: &Geo,
    operation: &'a O,
    out: &mut [u8],
) -> Result<Verdict<'a>, Dead>
    requires readable { IsReadable (M.seen mem.old) geo.now }
    requires quiet { IsQuiet (M.seen mem.old) }
    requires limits { KeepsLimits geo.now (O.op operation.now) }
    requires segment { segment_of geo.now (O.op operation.now) ≡ (M.seen mem.old).setting.segment }
    requires room { O.room operation.now ≤ length out.old }
    requires ready { O.ready operation.now geo.now (M.seen mem.old) }
    ensures loads { Loads M.seen M.same_rest mem.old mem.new result }
    ensures decides { IfOk result (Decides (M.seen mem.new) geo.now (O.op operation.now) out.new) }
    ensures long { length out.new ≡ length out.old }
{
    let verdict = operation.judge(mem, geo, out)?;
    let Verdict::Changes(_, _) = verdict else {
        return Ok(verdict);
    };
    if mem.number()? == LAST {
        return Ok(Verdict::Stays(Answer::Worn));
    }
    Ok(verdict)
}

/// An operation that answers from the words of its segment, and never changes them.
pub trait Question {
    ghost op: { Self → Op };

    // how many bytes it may write to `out`
    ghost room: { Self → ℕ };

    /// What is asked.
    fn ask(&self) -> Ask<'_>
        ensures { op_of_ask result ≡ op self.now };

    /// The answer; a length is that of bytes at the beginning of `out`.
    fn answer<M: Mem>(&self, mem: &mut M, geo: &Geo, out: &mut [u8]) -> Result<Answer, Dead>
        requires readable { IsReadable (M.seen mem.old) geo.now }
        requires limits { KeepsLimits geo.now (op self.now) }
        requires segment { segment_of geo.now (op self.now) ≡ (M.seen mem.old).setting.segment }
        requires room { room self.now ≤ length out.old }
        ensures loads { Loads M.seen M.same_rest mem.old mem.new result }
        ensures answers { IfOk result (StaysBy (M.seen mem.new) (op self.now) out.new) }
        ensures long { length out.new ≡ length out.old };
}
