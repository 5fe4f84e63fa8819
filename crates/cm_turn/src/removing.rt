//! The operations that take a key's entry away.

ghost use Rattle.std.specs.Prelude.{◌≡◌, IfOk, IfSome, None, length};
ghost use Rattle.cm_plain.specs.declared.op.Op.TheVariants as op;
ghost use Rattle.cm_plain.specs.Changes.{placed_value};
ghost use Rattle.cm_plain.specs.Plans.{IsShortOp, op_of_ask};
ghost use Rattle.cm_plain.specs.States.{entry_of};
ghost use Rattle.cm_words.specs.Calls.{IsReadable, Loads};
ghost use Rattle.cm_segment.specs.Planning.{MayBegin};
ghost use Rattle.cm_turn.specs.Conditions.{EachHere, IsSwept, TakesAwayHere};

use crate::answer::Answer;
use crate::conditions::{Comparison, compare};
use crate::operation::{Operation, Verdict};
use crate::placing::answer_to;
use cm_geo::Geo;
use cm_plain::{Ask, Plan};
use cm_segment::plan_remove;
use cm_words::{Dead, Mem};

/// The plan of an operation that takes a key's entry away; None where the key has none.
fn take_away<'a, M: Mem>(
    mem: &mut M,
    geo: &Geo,
    ask: Ask<'a>,
    key: &'a [u8],
) -> Result<Option<Plan<'a>>, Dead>
    requires readable { IsReadable (M.seen mem.old) geo.now }
    requires bytes_fit { IsShortOp (op_of_ask ask) }
    requires value { placed_value (op_of_ask ask) ≡ None }
    requires takes { TakesAwayHere (M.seen mem.old) geo.now key.now (op_of_ask ask) }
    ensures loads { Loads M.seen M.same_rest mem.old mem.new result }
    ensures begins { IfOk result (λ plan. IfSome plan (MayBegin (M.seen mem.new) geo.now (op_of_ask ask.entry))) }
    ensures absent { IfOk result (λ plan. plan ≡ None → EachHere (M.seen mem.new) geo.now (λ state. entry_of key.now state ≡ None)) }
{
    let Some(plan) = plan_remove(mem, geo, key)? else {
        return Ok(None);
    };
    Ok(Some(Plan { ask, ..plan }))
}

/// Takes a key's entry away.
#[derive(Clone, Copy)]
pub struct Remove<'a> {
    pub key: &'a [u8],
}

impl Operation for Remove<'_> {
    ghost op = { λ self. op.Remove self.key.now };

    ghost room = { λ self. 0 };

    ghost ready = { λ self geo m. Unit {0} };

    fn ask(&self) -> Ask<'_> {
        Ask::Remove { key: self.key }
    }

    fn judge<M: Mem>(&self, mem: &mut M, geo: &Geo, _out: &mut [u8]) -> Result<Verdict<'_>, Dead> {
        let Some(plan) = take_away(mem, geo, self.ask(), self.key)? else {
            return Ok(Verdict::Stays(Answer::Missing));
        };
        Ok(Verdict::Changes(plan, answer_to(plan.kind, Answer::Removed)))
    }
}

/// Takes a key's entry away, if it has the expected value.
#[derive(Clone, Copy)]
pub struct RemoveIf<'a> {
    pub key: &'a [u8],
    pub expected: &'a [u8],
}

impl Operation for RemoveIf<'_> {
    ghost op = { λ self. op.RemoveIf self.key.now self.expected.now };

    ghost room = { λ self. 0 };

    ghost ready = { λ self geo m. Unit {0} };

    fn ask(&self) -> Ask<'_> {
        Ask::RemoveIf {
            key: self.key,
            expected: self.expected,
        }
    }

    fn judge<M: Mem>(&self, mem: &mut M, geo: &Geo, _out: &mut [u8]) -> Result<Verdict<'_>, Dead> {
        match compare(mem, geo, self.key, self.expected)? {
            Comparison::Missing => return Ok(Verdict::Stays(Answer::Missing)),
            Comparison::Differs => return Ok(Verdict::Stays(Answer::Differs)),
            Comparison::Same => {}
        }
        let Some(plan) = take_away(mem, geo, self.ask(), self.key)? else {
            return Ok(Verdict::Stays(Answer::Missing));
        };
        Ok(Verdict::Changes(plan, answer_to(plan.kind, Answer::Removed)))
    }
}

/// Takes away the entry of a key that a sweep found; the key comes to `out`.
#[derive(Clone, Copy)]
pub(crate) struct SweptKey<'a> {
    pub(crate) segment: u32,
    pub(crate) prefix: &'a [u8],
    pub(crate) key: &'a [u8],
}

impl Operation for SweptKey<'_> {
    ghost op = { λ self. op.Sweep self.segment self.prefix.now };

    ghost room = { λ self. 256 };

    ghost ready = { λ self geo m. IsSwept m geo self.prefix.now self.key.now };

    fn ask(&self) -> Ask<'_> {
        Ask::Sweep {
            segment: self.segment,
            prefix: self.prefix,
        }
    }

    fn judge<M: Mem>(&self, mem: &mut M, geo: &Geo, out: &mut [u8]) -> Result<Verdict<'_>, Dead> {
        let Some(plan) = take_away(mem, geo, self.ask(), self.key)? else {
            // Such words are those of no state, so each answer is right for all of them.
            return Ok(Verdict::Stays(Answer::SweptAll));
        };
        let len = plan.key.len();
        out[..len].copy_from_slice(plan.key);
        let answer = answer_to(plan.kind, Answer::Swept(len as u32));
        Ok(Verdict::Changes(plan, answer))
    }
}
