//! All records of a caller.

ghost use Rattle.std.specs.Prelude.{◌≡◌, ◌<◌, ◌≤◌, length};
ghost use Rattle.cm_script.specs.Answers.{is_sweep};
ghost use Rattle.cm_script.specs.Scripts.{IsFor};
ghost use Rattle.cm_store.specs.Passes.{IsResting};
ghost use Rattle.cm_caller.specs.Callers.{KeepsReceipts};
ghost use Rattle.cm_caller.specs.Records.{AnswersAt, GoesOn, IsReady, IsRecordOf, Performs, RecordIs};
ghost use Rattle.cm_caller.specs.Tries.{Stands};

use crate::caller::{Caller, Halt};
use cm_plain::Op;
use cm_script::Script;
use cm_store::Store;
use cm_words::Fuse;
use std::alloc::Global;
use std::sync::Wait;

/// Whether an operation is a sweep.
fn is_sweep(op: &Op) -> bool
    ensures { result ≡ is_sweep op.now }
{
    matches!(op, Op::Sweep { .. })
}

impl<F: Fuse> Caller<F> {
    /// The record at an index. Takes memory.
    fn answer<R: Wait>(
        &mut self,
        rt: &R,
        alloc: Global,
        store: &Store,
        script: &Script,
        at: u32,
        out: &mut [u8],
    ) -> Result<(), Halt>
        requires stands { Stands F.fused store.now IsResting self.old.number self.old.pass }
        requires keeps { KeepsReceipts store.now script.now self.old.receipts.items self.old.pass }
        requires inside { at < length script.now }
        requires record { RecordIs script.now at (IsRecordOf store.now.geo self.old.number) }
        requires room { 4096 ≤ length out.old }
        ensures goes_on { GoesOn F.fused store.now IsResting self.old self.new }
        ensures answered { AnswersAt store.now script.now at self.old.receipts.items self.new result }
        ensures long { length out.new ≡ length out.old }
    {
        if is_sweep(&script.line(at).op) {
            self.sweep(rt, alloc, store, script, at, out)
        } else {
            self.ask(rt, alloc, store, script, at, out)
        }
    }

    /// Performs the caller's records in order, until they are done or it halts at one. Takes memory.
    pub fn perform<R: Wait>(&mut self, rt: &R, alloc: Global, store: &Store, script: &Script)
        requires ready { IsReady F.fused store.now script.now self.old }
        requires for_geo { IsFor store.now.geo script.now }
        ensures { Performs F.fused store.now script.now self.old self.new }
    {
        let mut out = [0; 4096];
        for at in 0..script.len() {
            if script.line(at).caller != self.number {
                continue;
            }
            if let Err(halt) = self.answer(rt, alloc, store, script, at, &mut out) {
                self.halt = Some((at + 1, halt));
                return;
            }
        }
    }
}
