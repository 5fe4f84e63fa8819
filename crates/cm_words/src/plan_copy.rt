//! Copies of plans, in arrays that lie in the memory from the start: a copy takes no memory from the heap, and
//! moves the bytes alone that there are.

ghost use Rattle.std.specs.Prelude.{◌≡◌, ◌≤◌, [], length};
ghost use Rattle.cm_plain.specs.Plans.{IsShort, IsShortOp, op_of_ask, plan_change};
ghost use Rattle.cm_words.specs.PlanCopies.{copied_change, copied_op, kind_of_op};

use cm_plain::{Ask, Plan, PlanKind, Run};
use std::marker::Model;

/// A list of at most N bytes in an array.
#[derive(Drop)]
pub(crate) struct ByteArray<const N: usize> {
    bytes: [u8; N],
    len: usize,
}

impl<const N: usize> Model for ByteArray<N> {
    ghost use Rattle.std.specs.Prelude.{List, ℕ, take, ◌≤◌};

    ghost Value = { List ℕ };

    ghost view = { λ k. take k.len k.bytes };

    ghost invariant = { λ k. k.len ≤ N };
}

impl<const N: usize> ByteArray<N> {
    /// No bytes.
    fn new() -> ByteArray<N>
        ensures { result ≡ [] }
    {
        ByteArray {
            bytes: [0; N],
            len: 0,
        }
    }

    /// These bytes, in place of those that were there.
    fn set(&mut self, source: &[u8])
        requires { length source.now ≤ N }
        ensures { self.new ≡ source.now }
    {
        self.bytes[..source.len()].copy_from_slice(source);
        self.len = source.len();
    }
}

/// Which operation was asked for.
#[derive(Clone, Copy)]
pub(crate) enum AskKind {
    Put,
    Get,
    PutIfAbsent,
    Replace,
    ReplaceIf,
    Remove,
    RemoveIf,
    Count,
    List,
    Sweep,
}

fn kind_of(ask: &Ask<'_>) -> AskKind
    ensures { result ≡ kind_of_op (op_of_ask ask.now) }
{
    match ask {
        Ask::Put { .. } => AskKind::Put,
        Ask::Get { .. } => AskKind::Get,
        Ask::PutIfAbsent { .. } => AskKind::PutIfAbsent,
        Ask::Replace { .. } => AskKind::Replace,
        Ask::ReplaceIf { .. } => AskKind::ReplaceIf,
        Ask::Remove { .. } => AskKind::Remove,
        Ask::RemoveIf { .. } => AskKind::RemoveIf,
        Ask::Count { .. } => AskKind::Count,
        Ask::List { .. } => AskKind::List,
        Ask::Sweep { .. } => AskKind::Sweep,
    }
}

/// What is asked, with bytes of its own. A sweep's prefix stands in place of a key.
#[derive(Drop)]
pub(crate) struct AskCopy {
    kind: AskKind,
    key: ByteArray<256>,
    expected: ByteArray<4096>,
    value: ByteArray<4096>,
    segment: u32,
}

impl AskCopy {
    fn new() -> AskCopy {
        AskCopy {
            kind: AskKind::Get,
            key: ByteArray::new(),
            expected: ByteArray::new(),
            value: ByteArray::new(),
            segment: 0,
        }
    }

    fn set(&mut self, ask: &Ask<'_>)
        requires { IsShortOp (op_of_ask ask.now) }
        ensures { copied_op self.new ≡ op_of_ask ask.now }
    {
        self.kind = kind_of(ask);
        match ask {
            Ask::Put { key, value }
            | Ask::PutIfAbsent { key, value }
            | Ask::Replace { key, value } => {
                self.key.set(key);
                self.value.set(value);
            }
            Ask::Get { key } | Ask::Remove { key } => self.key.set(key),
            Ask::ReplaceIf {
                key,
                expected,
                value,
            } => {
                self.key.set(key);
                self.expected.set(expected);
                self.value.set(value);
            }
            Ask::RemoveIf { key, expected } => {
                self.key.set(key);
                self.expected.set(expected);
            }
            Ask::Count { segment } | Ask::List { segment } => self.segment = *segment,
            Ask::Sweep { segment, prefix } => {
                self.segment = *segment;
                self.key.set(prefix);
            }
        }
    }
}

/// A plan with bytes of its own. It has no slot, since a change has none.
#[derive(Drop)]
pub(crate) struct PlanCopy {
    ask: AskCopy,
    kind: PlanKind,
    key: ByteArray<256>,
    value: ByteArray<4096>,
    old_run: Option<Run>,
    new_run: Option<Run>,
    link: bool,
}

impl PlanCopy {
    /// A copy of no plan yet.
    pub(crate) fn new() -> PlanCopy {
        PlanCopy {
            ask: AskCopy::new(),
            kind: PlanKind::Fresh,
            key: ByteArray::new(),
            value: ByteArray::new(),
            old_run: None,
            new_run: None,
            link: false,
        }
    }

    /// Copies a plan.
    pub(crate) fn set(&mut self, plan: &Plan<'_>)
        requires { IsShort (plan_change plan.now) }
        ensures { copied_change self.new ≡ plan_change plan.now }
    {
        self.ask.set(&plan.ask);
        self.kind = plan.kind;
        self.key.set(plan.key);
        self.value.set(plan.value);
        self.old_run = plan.old;
        self.new_run = plan.new;
        self.link = plan.link;
    }
}
