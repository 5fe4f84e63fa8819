//! The operations that place a value for a key.

ghost use Rattle.std.specs.Prelude.{◌≡◌, IfOk, List, MatchOption, Some, length, ℕ};
ghost use Rattle.cm_geo.specs.Hash.{segment_of_key};
ghost use Rattle.cm_geo.specs.Need.{Fits};
ghost use Rattle.cm_plain.specs.declared.op.Op.{Op};
ghost use Rattle.cm_plain.specs.declared.op.Op.TheVariants as op;
ghost use Rattle.cm_plain.specs.declared.plan.PlanKind.TheVariants.{Remove};
ghost use Rattle.cm_plain.specs.Changes.{placed_value};
ghost use Rattle.cm_plain.specs.Plans.{IsShortOp, op_of_ask};
ghost use Rattle.cm_plain.specs.Steps.{reply_of};
ghost use Rattle.cm_words.specs.Calls.{IsReadable, Loads};
ghost use Rattle.cm_turn.specs.Answers.{reply_in};
ghost use Rattle.cm_segment.specs.declared.planning.Planned.TheVariants.{FullChain};
ghost use Rattle.cm_turn.specs.Conditions.{IsAbsentHere, IsPlanned, PlacesHere};
ghost use Rattle.cm_turn.specs.Verdicts.{Judges};

use crate::answer::Answer;
use crate::conditions::{Comparison, compare, has_key};
use crate::operation::{Operation, Verdict};
use cm_geo::Geo;
use cm_plain::{Ask, Plan, PlanKind};
use cm_segment::{Planned, plan_put};
use cm_words::{Dead, Mem};

/// The answer to a change of a kind; to a removal it is this one.
pub(crate) fn answer_to(kind: PlanKind, removed: Answer) -> Answer
    ensures { (op : Op) (key out : List ℕ) → reply_in removed out ≡ reply_of Remove op key → reply_in result out ≡ reply_of kind op key }
{
    match kind {
        PlanKind::Fresh => Answer::New,
        PlanKind::InPlace | PlanKind::Relocate => Answer::Replaced,
        PlanKind::Remove => removed,
    }
}

/// The plan, if there is one.
fn plan_of(planned: Planned<'_>) -> Option<Plan<'_>>
    ensures { MatchOption result (planned.entry ≡ FullChain) (IsPlanned planned.entry) }
{
    match planned {
        Planned::FullChain => None,
        Planned::Ready(plan) | Planned::NeedsTier(plan) => Some(plan),
    }
}

/// What is to be done with an operation that places a value for a key, whose condition is met: the plan, or
/// nothing where there is no room.
fn place<'a, M: Mem>(
    mem: &mut M,
    geo: &Geo,
    ask: Ask<'a>,
    key: &'a [u8],
    value: &'a [u8],
) -> Result<Verdict<'a>, Dead>
    requires readable { IsReadable (M.seen mem.old) geo.now }
    requires fits { Fits geo.now (length key.now) (length value.now) }
    requires segment { segment_of_key geo.now key.now ≡ (M.seen mem.old).setting.segment }
    requires bytes_fit { IsShortOp (op_of_ask ask) }
    requires value { placed_value (op_of_ask ask) ≡ Some value.now }
    requires places { PlacesHere (M.seen mem.old) geo.now key.now value.now (op_of_ask ask) }
    ensures loads { Loads M.seen M.same_rest mem.old mem.new result }
    ensures judges { (out : List ℕ) → IfOk result (Judges (M.seen mem.new) geo.now (op_of_ask ask.entry) out) }
{
    let Some(plan) = plan_of(plan_put(mem, geo, key, value)?) else {
        return Ok(Verdict::Stays(Answer::FullChain));
    };
    let answer = answer_to(plan.kind, Answer::Removed);
    Ok(Verdict::Changes(Plan { ask, ..plan }, answer))
}

/// Gives a key a value, whether it has one or not.
#[derive(Clone, Copy)]
pub struct Put<'a> {
    pub key: &'a [u8],
    pub value: &'a [u8],
}

impl Operation for Put<'_> {
    ghost op = { λ self. op.Put self.key.now self.value.now };

    ghost room = { λ self. 0 };

    ghost ready = { λ self geo m. Unit {0} };

    fn ask(&self) -> Ask<'_> {
        Ask::Put {
            key: self.key,
            value: self.value,
        }
    }

    fn judge<M: Mem>(&self, mem: &mut M, geo: &Geo, _out: &mut [u8]) -> Result<Verdict<'_>, Dead> {
        place(mem, geo, self.ask(), self.key, self.value)
    }
}

/// Gives a key that isn't there a value; whether it is there was asked before.
#[derive(Clone, Copy)]
pub(crate) struct PutIfAbsent<'a> {
    pub(crate) key: &'a [u8],
    pub(crate) value: &'a [u8],
}

impl Operation for PutIfAbsent<'_> {
    ghost op = { λ self. op.PutIfAbsent self.key.now self.value.now };

    ghost room = { λ self. 0 };

    ghost ready = { λ self geo m. IsAbsentHere m geo self.key.now };

    fn ask(&self) -> Ask<'_> {
        Ask::PutIfAbsent {
            key: self.key,
            value: self.value,
        }
    }

    fn judge<M: Mem>(&self, mem: &mut M, geo: &Geo, _out: &mut [u8]) -> Result<Verdict<'_>, Dead> {
        place(mem, geo, self.ask(), self.key, self.value)
    }
}

/// Gives a key another value, if it has one.
#[derive(Clone, Copy)]
pub struct Replace<'a> {
    pub key: &'a [u8],
    pub value: &'a [u8],
}

impl Operation for Replace<'_> {
    ghost op = { λ self. op.Replace self.key.now self.value.now };

    ghost room = { λ self. 0 };

    ghost ready = { λ self geo m. Unit {0} };

    fn ask(&self) -> Ask<'_> {
        Ask::Replace {
            key: self.key,
            value: self.value,
        }
    }

    fn judge<M: Mem>(&self, mem: &mut M, geo: &Geo, _out: &mut [u8]) -> Result<Verdict<'_>, Dead> {
        if !has_key(mem, geo, self.key)? {
            return Ok(Verdict::Stays(Answer::Missing));
        }
        place(mem, geo, self.ask(), self.key, self.value)
    }
}

/// Gives a key another value, if it has the expected one.
#[derive(Clone, Copy)]
pub struct ReplaceIf<'a> {
    pub key: &'a [u8],
    pub expected: &'a [u8],
    pub value: &'a [u8],
}

impl Operation for ReplaceIf<'_> {
    ghost op = { λ self. op.ReplaceIf self.key.now self.expected.now self.value.now };

    ghost room = { λ self. 0 };

    ghost ready = { λ self geo m. Unit {0} };

    fn ask(&self) -> Ask<'_> {
        Ask::ReplaceIf {
            key: self.key,
            expected: self.expected,
            value: self.value,
        }
    }

    fn judge<M: Mem>(&self, mem: &mut M, geo: &Geo, _out: &mut [u8]) -> Result<Verdict<'_>, Dead> {
        match compare(mem, geo, self.key, self.expected)? {
            Comparison::Missing => Ok(Verdict::Stays(Answer::Missing)),
            Comparison::Differs => Ok(Verdict::Stays(Answer::Differs)),
            Comparison::Same => place(mem, geo, self.ask(), self.key, self.value),
        }
    }
}
