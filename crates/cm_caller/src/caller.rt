//! A caller, how it waits, and how it ends.

ghost use Rattle.std.specs.Prelude.{◌≡◌, ◌≢◌, ◌+◌, ◌<◌, ◌++◌, ◌∷◌, [], OnOk, length};
ghost use Rattle.cm_plain.specs.Limits.{KeepsLimits, segment_of};
ghost use Rattle.cm_lock.specs.declared.view.Level.TheVariants.{Free};
ghost use Rattle.cm_store.specs.Passes.{IsPassOf};
ghost use Rattle.cm_caller.specs.Callers.{WaitsOn, end_of, receipt_of};

use cm_lock::Level;
use cm_plain::{NoMemory, Op, Receipt, Reply};
use cm_script::{CallerEnd, How, Script};
use cm_store::{Pass, Spot, Store};
use cm_words::Fuse;
use crossbeam_utils::Backoff;

/// Why a caller makes no further call.
#[derive(Clone, Copy, Debug, PartialEq, Eq)]
pub enum Halt {
    /// A dead caller holds a level that its call waits for.
    Stopped,
    /// It died.
    Dead,
    /// No memory was left for an answer.
    NoMemory,
}

impl From<NoMemory> for Halt {
    ghost use Rattle.cm_caller.specs.declared.caller.Halt.TheVariants as halt;

    ghost from_gives = { λ _ why. why ≡ halt.NoMemory };

    fn from(_error: NoMemory) -> Halt {
        Halt::NoMemory
    }
}

/// A caller with its pass, the answers that it has so far, and at which of its records it halted and why, if it did
/// before they were done.
#[derive(Drop)]
pub struct Caller<F: Fuse> {
    pub pass: Pass<F>,
    pub number: u32,
    pub receipts: Vec<Receipt>,
    pub halt: Option<(u32, Halt)>,
}

/// The level that a call of the operation takes first.
fn level_of(op: &Op) -> Level
    ensures { result ≢ Free }
{
    match op {
        Op::Put { .. } | Op::Remove { .. } => Level::Write,
        Op::Get { .. } | Op::Count { .. } | Op::List { .. } => Level::Read,
        Op::PutIfAbsent { .. }
        | Op::Replace { .. }
        | Op::ReplaceIf { .. }
        | Op::RemoveIf { .. }
        | Op::Sweep { .. } => Level::Update,
    }
}

/// The segment of an operation.
fn segment_of(store: &Store, op: &Op) -> u32
    requires limits { KeepsLimits store.now.geo op.now }
    ensures value { result ≡ segment_of store.now.geo op.now }
    ensures here { result < store.now.geo.segments }
{
    match op {
        Op::Put { key, .. }
        | Op::Get { key }
        | Op::PutIfAbsent { key, .. }
        | Op::Replace { key, .. }
        | Op::ReplaceIf { key, .. }
        | Op::Remove { key }
        | Op::RemoveIf { key, .. } => store.geo().segment_of(cm_geo::hash(key.as_slice())),
        Op::Count { segment } | Op::List { segment } | Op::Sweep { segment, .. } => *segment,
    }
}

/// The number of the record at an index: records are counted from 1.
pub(crate) fn line_number(script: &Script, at: u32) -> u32
    requires { at < length script.now }
    ensures { result ≡ at + 1 }
{
    let len = script.len();
    prove!(at < len);
    at + 1
}

/// Behind a Busy answer: waits a little, and halts where a dead caller holds what the call waits for.
pub(crate) fn wait<F: Fuse>(
    store: &Store,
    pass: &mut Pass<F>,
    op: &Op,
    backoff: &Backoff,
) -> Result<(), Halt>
    requires its { IsPassOf pass.old store.now }
    requires limits { KeepsLimits store.now.geo op.now }
    ensures { WaitsOn store.now pass.old pass.new result }
{
    backoff.snooze();
    if store.stopped(pass, segment_of(store, op), level_of(op)) {
        return Err(Halt::Stopped);
    }
    Ok(())
}

impl<F: Fuse> Caller<F> {
    /// Notes an answer. Takes memory.
    pub(crate) fn note(
        &mut self,
        line: u32,
        part: u32,
        spot: Spot,
        reply: Reply,
    ) -> Result<(), NoMemory>
        ensures pass { self.new.pass ≡ self.old.pass }
        ensures number { self.new.number ≡ self.old.number }
        ensures halt { self.new.halt ≡ self.old.halt }
        ensures noted { OnOk result (self.new.receipts.items ≡ self.old.receipts.items ++ receipt_of self.old.number line part spot reply ∷ []) }
    {
        let Spot { segment, number } = spot;
        let caller = self.number;
        self.receipts.push(Receipt {
            caller,
            line,
            part,
            segment,
            number,
            reply,
        })?;
        Ok(())
    }

    /// How the caller ended, where it did before its records were done.
    pub fn end(&self) -> Option<CallerEnd>
        ensures { result ≡ end_of self.now.number self.now.halt }
    {
        let (line, how) = match self.halt? {
            (line, Halt::Stopped) => (line, How::Stopped),
            (line, Halt::Dead) => (line, How::Dead),
            (_, Halt::NoMemory) => return None,
        };
        Some(CallerEnd {
            caller: self.number,
            line,
            how,
        })
    }
}
