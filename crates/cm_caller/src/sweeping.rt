//! Sweeps: records with an answer for each key that they take, and one more for their end.

ghost use Rattle.std.specs.Prelude.{◌≡◌, ◌+◌, ◌<◌, ◌≤◌, ◌∷◌, [], IsOk, length, true};
ghost use Rattle.cm_script.specs.Answers.{AnswersPart, AnswersSweep, is_sweep, is_swept};
ghost use Rattle.cm_store.specs.Passes.{IsResting, claims_view};
ghost use Rattle.cm_caller.specs.Callers.{KeepsReceipts};
ghost use Rattle.cm_caller.specs.Records.{AnswersAt, AreNone, Goes, GoesOn, IsRecordOf, RecordIs, RestsAt};
ghost use Rattle.cm_caller.specs.Sweeping.{IsPart, Opens};
ghost use Rattle.cm_caller.specs.Tries.{Stands};

use crate::caller::{Caller, Halt, line_number, wait};
use crate::tried::{TRIES, Tried, step};
use cm_plain::{Op, Reply};
use cm_script::Script;
use cm_store::{Stop, Store};
use cm_words::{Dead, Fuse};
use crossbeam_utils::Backoff;
use std::alloc::Global;
use std::sync::Wait;

/// Whether an answer is a key that a sweep took.
fn is_swept(reply: &Reply) -> bool
    ensures { result ≡ is_swept reply.now }
{
    matches!(reply, Reply::Swept(_))
}

impl<F: Fuse> Caller<F> {
    /// Opens the sweep at an index, however long that takes.
    fn open_sweep<R: Wait>(
        &mut self,
        rt: &R,
        store: &Store,
        script: &Script,
        at: u32,
    ) -> Result<(), Halt>
        requires stands { Stands F.fused store.now IsResting self.old.number self.old.pass }
        requires keeps { KeepsReceipts store.now script.now self.old.receipts.items self.old.pass }
        requires inside { at < length script.now }
        requires record { RecordIs script.now at (IsRecordOf store.now.geo self.old.number) }
        requires sweep { RecordIs script.now at (λ line. is_sweep line.op ≡ true) }
        ensures goes_on { Opens F.fused store.now script.now at self.old self.new result }
        ensures opened { Goes store.now script.now (λ done. AreNone) AreNone self.old.receipts.items self.new result }
    {
        let op = &script.line(at).op;
        let Op::Sweep { segment, prefix } = op else {
            unreachable!();
        };
        let backoff = Backoff::new();
        for _ in rt.forever() {
            match store.sweep_open(&mut self.pass, *segment, prefix.as_slice(), TRIES) {
                Ok(()) => return Ok(()),
                Err(Stop::Busy { .. }) => wait(store, &mut self.pass, op, &backoff)?,
                Err(Stop::Died) => return Err(Halt::Dead),
            }
        }
        unreachable!()
    }

    /// One step of the open sweep, however long that takes, whose answer is noted as this part: whether it took a key.
    /// Takes memory.
    fn step<R: Wait>(
        &mut self,
        rt: &R,
        alloc: Global,
        store: &Store,
        script: &Script,
        at: u32,
        part: u32,
        out: &mut [u8],
    ) -> Result<bool, Halt>
        requires stands { Stands F.fused store.now (RestsAt store.now.geo script.now at) self.old.number self.old.pass }
        requires keeps { KeepsReceipts store.now script.now self.old.receipts.items self.old.pass }
        requires inside { at < length script.now }
        requires record { RecordIs script.now at (IsRecordOf store.now.geo self.old.number) }
        requires sweep { RecordIs script.now at (λ line. is_sweep line.op ≡ true) }
        requires room { 256 ≤ length out.old }
        ensures goes_on { GoesOn F.fused store.now (RestsAt store.now.geo script.now at) self.old self.new }
        ensures stepped { RecordIs script.now at (λ line. Goes store.now script.now (IsPart store.now.geo (at + 1, line) part) AreNone self.old.receipts.items self.new result) }
        ensures long { length out.new ≡ length out.old }
    {
        let op = &script.line(at).op;
        let Op::Sweep { segment, prefix } = op else {
            unreachable!();
        };
        let backoff = Backoff::new();
        for _ in rt.forever() {
            match step(
                alloc,
                store,
                &mut self.pass,
                *segment,
                prefix.as_slice(),
                out,
            ) {
                Tried::Answered { spot, reply } => {
                    let swept = is_swept(&reply);
                    self.note(line_number(script, at), part, spot, reply)?;
                    return Ok(swept);
                }
                Tried::Busy => wait(store, &mut self.pass, op, &backoff)?,
                Tried::Died => return Err(Halt::Dead),
                Tried::NoMemory => return Err(Halt::NoMemory),
            }
        }
        unreachable!()
    }

    /// The steps of the open sweep, until one takes no key. Takes memory. More answers than a report can number are
    /// want of memory, too.
    fn steps<R: Wait>(
        &mut self,
        rt: &R,
        alloc: Global,
        store: &Store,
        script: &Script,
        at: u32,
        out: &mut [u8],
    ) -> Result<(), Halt>
        requires stands { Stands F.fused store.now (RestsAt store.now.geo script.now at) self.old.number self.old.pass }
        requires keeps { KeepsReceipts store.now script.now self.old.receipts.items self.old.pass }
        requires inside { at < length script.now }
        requires record { RecordIs script.now at (IsRecordOf store.now.geo self.old.number) }
        requires sweep { RecordIs script.now at (λ line. is_sweep line.op ≡ true) }
        requires room { 256 ≤ length out.old }
        ensures goes_on { GoesOn F.fused store.now (RestsAt store.now.geo script.now at) self.old self.new }
        ensures swept { RecordIs script.now at (λ line. Goes store.now script.now (λ done. AnswersSweep store.now.geo (at + 1, line)) (AnswersPart store.now.geo ((at + 1, line) ∷ [])) self.old.receipts.items self.new result) }
        ensures long { length out.new ≡ length out.old }
    {
        for part in 1..u32::MAX {
            let swept = self.step(rt, alloc, store, script, at, part, out)?;
            if !swept {
                return Ok(());
            }
        }
        Err(Halt::NoMemory)
    }

    /// Closes the open sweep.
    fn close_sweep(&mut self, store: &Store, script: &Script, at: u32) -> Result<(), Halt>
        requires stands { Stands F.fused store.now (RestsAt store.now.geo script.now at) self.old.number self.old.pass }
        requires inside { at < length script.now }
        requires sweep { RecordIs script.now at (λ line. is_sweep line.op ≡ true) }
        ensures goes_on { GoesOn F.fused store.now IsResting self.old self.new }
        ensures receipts { self.new.receipts ≡ self.old.receipts }
        ensures keeps { KeepsReceipts store.now script.now self.old.receipts.items self.old.pass → KeepsReceipts store.now script.now self.old.receipts.items self.new.pass }
        ensures claims { claims_view self.new.pass ≡ claims_view self.old.pass }
        ensures lives { IsOk result }
    {
        match store.sweep_close(&mut self.pass) {
            Ok(()) => Ok(()),
            Err(Dead) => Err(Halt::Dead),
        }
    }

    /// The sweep at an index: opened, its steps until one takes no key, and closed, also where a step halts. Takes
    /// memory.
    pub(crate) fn sweep<R: Wait>(
        &mut self,
        rt: &R,
        alloc: Global,
        store: &Store,
        script: &Script,
        at: u32,
        out: &mut [u8],
    ) -> Result<(), Halt>
        requires stands { Stands F.fused store.now IsResting self.old.number self.old.pass }
        requires keeps { KeepsReceipts store.now script.now self.old.receipts.items self.old.pass }
        requires inside { at < length script.now }
        requires record { RecordIs script.now at (IsRecordOf store.now.geo self.old.number) }
        requires sweep { RecordIs script.now at (λ line. is_sweep line.op ≡ true) }
        requires room { 256 ≤ length out.old }
        ensures goes_on { GoesOn F.fused store.now IsResting self.old self.new }
        ensures answered { AnswersAt store.now script.now at self.old.receipts.items self.new result }
        ensures long { length out.new ≡ length out.old }
    {
        self.open_sweep(rt, store, script, at)?;
        let ended = self.steps(rt, alloc, store, script, at, out);
        self.close_sweep(store, script, at)?;
        ended
    }
}
