//! One try of a call, with its answer in bytes of its own.

ghost use Rattle.std.specs.Prelude.{◌≡◌, ◌≤◌, IfOk, false, is_some, length, take, true};
ghost use Rattle.cm_plain.specs.Changes.{placed_value};
ghost use Rattle.cm_script.specs.Answers.{is_sweep};
ghost use Rattle.cm_turn.specs.Answers.{reply_in};
ghost use Rattle.cm_store.specs.Passes.{IsResting, MayCall};
ghost use Rattle.cm_store.specs.Sweeps.{IsInSweep};
ghost use Rattle.cm_plain.specs.declared.op.Op.TheVariants.{Sweep};
ghost use Rattle.cm_caller.specs.Tries.{IsSafe, Stands, TellsList, TellsTry, Tries};

use cm_plain::{Bytes, NoMemory, Op, Reply};
use cm_store::{Answer, Done, ListStop, Listed, Pass, Spot, Stop, Store};
use cm_words::Fuse;
use std::alloc::Global;

/// The tries of each take and raise.
pub(crate) const TRIES: u32 = 16;

/// What one try of a call came to.
#[derive(Drop, Debug)]
pub(crate) enum Tried {
    /// It was answered.
    Answered { spot: Spot, reply: Reply },
    /// Others held the segment.
    Busy,
    /// The pass died in place of an event.
    Died,
    /// No memory was left for the answer.
    NoMemory,
}

/// So many bytes from the beginning, and no more than there are.
fn front(out: &[u8], len: u32) -> &[u8]
    ensures { result.now ≡ take len out.now }
{
    &out[..(len as usize).min(out.len())]
}

/// The reply of an answer, whose bytes stand at the beginning of `out`. Takes memory.
fn reply_of(alloc: Global, answer: Answer, out: &[u8]) -> Result<Reply, NoMemory>
    ensures { IfOk result (λ reply. reply ≡ reply_in answer out.now) }
{
    Ok(match answer {
        Answer::New => Reply::New,
        Answer::Replaced => Reply::Replaced,
        Answer::Kept(len) => Reply::Kept(Bytes::of(alloc, front(out, len))?),
        Answer::Missing => Reply::Missing,
        Answer::Differs => Reply::Differs,
        Answer::Removed => Reply::Removed,
        Answer::Value(len) => Reply::Value(Bytes::of(alloc, front(out, len))?),
        Answer::FullChain => Reply::FullChain,
        Answer::FullSpent => Reply::FullSpent,
        Answer::Worn => Reply::Worn,
        Answer::Count(entries) => Reply::Count(entries),
        Answer::Swept(len) => Reply::Swept(Bytes::of(alloc, front(out, len))?),
        Answer::SweptAll => Reply::SweptAll,
    })
}

/// What a call of a store came to. Takes memory.
fn told(alloc: Global, ended: Result<Done, Stop>, out: &[u8]) -> Tried
    ensures { TellsTry ended out.now result }
{
    match ended {
        Ok(Done { spot, answer }) => match reply_of(alloc, answer, out) {
            Ok(reply) => Tried::Answered { spot, reply },
            Err(NoMemory) => Tried::NoMemory,
        },
        Err(Stop::Busy { .. }) => Tried::Busy,
        Err(Stop::Died) => Tried::Died,
    }
}

/// What a listing came to.
fn listed(ended: Result<Listed, ListStop>) -> Tried
    ensures { TellsList ended result }
{
    match ended {
        Ok(Listed { spot, pairs }) => Tried::Answered {
            spot,
            reply: Reply::Pairs(pairs),
        },
        Err(ListStop::Busy { .. }) => Tried::Busy,
        Err(ListStop::Died) => Tried::Died,
        Err(ListStop::NoMemory) => Tried::NoMemory,
    }
}

/// One try of an operation that may write a value. Takes memory.
fn write<F: Fuse>(
    alloc: Global,
    store: &Store,
    pass: &mut Pass<F>,
    op: &Op,
    out: &mut [u8],
) -> Tried
    requires may { MayCall store.now op.now pass.old }
    requires safe { IsSafe (F.fused pass.old.fuse) }
    requires writes { is_some (placed_value op.now) ≡ true }
    requires room { 4096 ≤ length out.old }
    ensures tries { Tries F.fused store.now IsResting op.now pass.old pass.new result }
    ensures long { length out.new ≡ length out.old }
{
    match op {
        Op::Put { key, value } => {
            let ended = store.put(pass, key.as_slice(), value.as_slice(), TRIES);
            told(alloc, ended, &[])
        }
        Op::PutIfAbsent { key, value } => {
            let ended = store.put_if_absent(pass, key.as_slice(), value.as_slice(), out, TRIES);
            told(alloc, ended, out)
        }
        Op::Replace { key, value } => {
            let ended = store.replace(pass, key.as_slice(), value.as_slice(), TRIES);
            told(alloc, ended, &[])
        }
        Op::ReplaceIf {
            key,
            expected,
            value,
        } => {
            let (key, expected, value) = (key.as_slice(), expected.as_slice(), value.as_slice());
            let ended = store.replace_if(pass, key, expected, value, TRIES);
            told(alloc, ended, &[])
        }
        _ => unreachable!(),
    }
}

/// One try of an operation that isn't a sweep. `out` has room for the longest value. Takes memory.
pub(crate) fn call<F: Fuse>(
    alloc: Global,
    store: &Store,
    pass: &mut Pass<F>,
    op: &Op,
    out: &mut [u8],
) -> Tried
    requires may { MayCall store.now op.now pass.old }
    requires safe { IsSafe (F.fused pass.old.fuse) }
    requires no_sweep { is_sweep op.now ≡ false }
    requires room { 4096 ≤ length out.old }
    ensures tries { Tries F.fused store.now IsResting op.now pass.old pass.new result }
    ensures long { length out.new ≡ length out.old }
{
    match op {
        Op::Get { key } => {
            let ended = store.get_into(pass, key.as_slice(), out, TRIES);
            told(alloc, ended, out)
        }
        Op::Remove { key } => {
            let ended = store.remove(pass, key.as_slice(), TRIES);
            told(alloc, ended, &[])
        }
        Op::RemoveIf { key, expected } => {
            let ended = store.remove_if(pass, key.as_slice(), expected.as_slice(), TRIES);
            told(alloc, ended, &[])
        }
        Op::Count { segment } => told(alloc, store.count(pass, *segment, TRIES), &[]),
        Op::List { segment } => listed(store.list(alloc, pass, *segment, TRIES)),
        Op::Sweep { .. } => unreachable!(),
        Op::Put { .. } | Op::PutIfAbsent { .. } | Op::Replace { .. } | Op::ReplaceIf { .. } => {
            write(alloc, store, pass, op, out)
        }
    }
}

/// One try of a step of the pass's sweep. `out` has room for the longest key. Takes memory.
pub(crate) fn step<F: Fuse>(
    alloc: Global,
    store: &Store,
    pass: &mut Pass<F>,
    segment: u32,
    prefix: &[u8],
    out: &mut [u8],
) -> Tried
    requires stands { Stands F.fused store.now (IsInSweep store.now.geo segment prefix.now) pass.old.number pass.old }
    requires room { 256 ≤ length out.old }
    ensures tries { Tries F.fused store.now (IsInSweep store.now.geo segment prefix.now) (Sweep segment prefix.now) pass.old pass.new result }
    ensures long { length out.new ≡ length out.old }
{
    let ended = store.sweep_step(pass, out, TRIES);
    told(alloc, ended, out)
}
