//! The three calls of a sweep: each by one pass, at the seat of the sweep's segment.

ghost use Rattle.std.specs.Prelude.{◌≡◌, ◌≤◌, length};
ghost use Rattle.cm_plain.specs.declared.op.Op.TheVariants as op;
ghost use Rattle.cm_store.specs.Passes.{MayCall};
ghost use Rattle.cm_store.specs.Sweeps.{ClosedSweep, IsAtFirst, IsSweepOf, MayStep, OpenedSweep, SteppedSweep};

use crate::pass::{Pass, Sweep};
use crate::store::Store;
use cm_lock::Stop;
use cm_turn::{CloseCall, Done, OpenCall, Settled, Spot, StepCall, Stepped, first_slot};
use cm_words::{Dead, Fuse};

/// A sweep at the first slot of the chain.
fn new_sweep(segment: u32, prefix: &[u8]) -> Sweep
    requires prefix_fits { length prefix.now ≤ 256 }
    ensures its { IsSweepOf segment prefix.now result }
    ensures first { IsAtFirst result }
{
    let mut bytes = [0; 256];
    bytes[..prefix.len()].copy_from_slice(prefix);
    Sweep {
        segment,
        at: first_slot(),
        prefix_len: prefix.len() as u32,
        prefix: bytes,
    }
}

impl Store {
    /// Opens a sweep of the keys of a segment that begin with the prefix, which has at most 256 bytes: takes Update,
    /// which the pass keeps until the sweep is closed. Busy comes exactly where that take failed so many times, and
    /// then the pass is in no sweep.
    pub fn sweep_open<F: Fuse>(
        &self,
        pass: &mut Pass<F>,
        segment: u32,
        prefix: &[u8],
        tries: u32,
    ) -> Result<(), Stop>
        requires may { MayCall self.now (op.Sweep segment prefix.now) pass.old }
        requires nonzero { 1 ≤ tries }
        ensures { OpenedSweep F.fused self.now tries segment prefix.now pass.old pass.new result }
    {
        self.act_at(pass, segment, &OpenCall { tries }, &mut [])?;
        pass.sweep = Some(new_sweep(segment, prefix));
        Ok(())
    }

    /// Takes away the next key of the pass's sweep, which comes to `out`, of 256 bytes or more: Swept with its length.
    /// SweptAll where no key has the prefix; Worn where one has and the segment took as many changes as it can count.
    /// Update is raised for the removal, and lowered behind it. Busy comes exactly where the raise failed so many
    /// times; the sweep stays open, and a further step may be taken.
    pub fn sweep_step<F: Fuse>(
        &self,
        pass: &mut Pass<F>,
        out: &mut [u8],
        tries: u32,
    ) -> Result<Done, Stop>
        requires may { MayStep self.now pass.old }
        requires room { 256 ≤ length out.old }
        requires nonzero { 1 ≤ tries }
        ensures stepped { SteppedSweep F.fused self.now tries out.new pass.old pass.new result }
        ensures long { length out.new ≡ length out.old }
    {
        let Some(sweep) = pass.sweep else {
            unreachable!();
        };
        let call = StepCall {
            segment: sweep.segment,
            prefix: &sweep.prefix[..sweep.prefix_len as usize],
            at: sweep.at,
            tries,
        };
        match self.act_at(pass, sweep.segment, &call, out) {
            Ok(Stepped { settled, at }) => {
                pass.sweep = Some(Sweep { at, ..sweep });
                let Settled { number, answer } = settled;
                let segment = sweep.segment;
                Ok(Done {
                    spot: Spot { segment, number },
                    answer,
                })
            }
            Err(stop) => Err(stop),
        }
    }

    /// Closes the pass's sweep: releases Update. Dead where that release died; no other error.
    pub fn sweep_close<F: Fuse>(&self, pass: &mut Pass<F>) -> Result<(), Dead>
        requires may { MayStep self.now pass.old }
        ensures { ClosedSweep F.fused self.now pass.old pass.new result }
    {
        let Some(sweep) = pass.sweep else {
            unreachable!();
        };
        match self.act_at(pass, sweep.segment, &CloseCall, &mut []) {
            Ok(()) => {
                pass.sweep = None;
                Ok(())
            }
            Err(_) => Err(Dead),
        }
    }
}
