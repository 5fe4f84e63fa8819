//! Records with one answer.

ghost use Rattle.std.specs.Prelude.{◌≡◌, ◌+◌, ◌<◌, ◌≤◌, false, length};
ghost use Rattle.cm_script.specs.Answers.{AnswersOnce, is_sweep};
ghost use Rattle.cm_store.specs.Passes.{IsResting};
ghost use Rattle.cm_caller.specs.Callers.{KeepsReceipts};
ghost use Rattle.cm_caller.specs.Records.{AreNone, GoesOn, Goes, IsRecordOf, RecordIs};
ghost use Rattle.cm_caller.specs.Tries.{Stands};

use crate::caller::{Caller, Halt, line_number, wait};
use crate::tried::{Tried, call};
use cm_script::Script;
use cm_store::Store;
use cm_words::Fuse;
use crossbeam_utils::Backoff;
use std::alloc::Global;
use std::sync::Wait;

impl<F: Fuse> Caller<F> {
    /// Asks for the record at an index, which isn't a sweep, until it is answered, and notes the answer. Takes memory.
    pub(crate) fn ask<R: Wait>(
        &mut self,
        rt: &R,
        alloc: Global,
        store: &Store,
        script: &Script,
        at: u32,
        out: &mut [u8],
    ) -> Result<(), Halt>
        requires stands { Stands F.fused store.now IsResting self.old.number self.old.pass }
        requires keeps { KeepsReceipts store.now script.now self.old.receipts.items self.old.pass }
        requires inside { at < length script.now }
        requires record { RecordIs script.now at (IsRecordOf store.now.geo self.old.number) }
        requires no_sweep { RecordIs script.now at (λ line. is_sweep line.op ≡ false) }
        requires room { 4096 ≤ length out.old }
        ensures goes_on { GoesOn F.fused store.now IsResting self.old self.new }
        ensures answered { RecordIs script.now at (λ line. Goes store.now script.now (λ done. AnswersOnce store.now.geo (at + 1, line)) AreNone self.old.receipts.items self.new result) }
        ensures long { length out.new ≡ length out.old }
    {
        let op = &script.line(at).op;
        let backoff = Backoff::new();
        for _ in rt.forever() {
            match call(alloc, store, &mut self.pass, op, out) {
                Tried::Answered { spot, reply } => {
                    self.note(line_number(script, at), 0, spot, reply)?;
                    return Ok(());
                }
                Tried::Busy => wait(store, &mut self.pass, op, &backoff)?,
                Tried::Died => return Err(Halt::Dead),
                Tried::NoMemory => return Err(Halt::NoMemory),
            }
        }
        unreachable!()
    }
}
