//! Whether receipts stand in order, each record answered once.

use crate::histories::is_change;
use cm_plain::{Op, Receipt, Reply};
use cm_script::{Line, Script};
use std::test::Fail;

/// The receipts behind the answers to a record.
fn behind<'a>(receipts: &'a [Receipt], line: &Line, number: u32) -> Result<&'a [Receipt], Fail> {
    let sweep = matches!(line.op, Op::Sweep { .. });
    let mut part = u32::from(sweep);
    let mut rest = receipts;
    while let [first, others @ ..] = rest {
        if first.caller != line.caller || first.line != number || first.part != part {
            return Err(Fail::new("a record has no answer"));
        }
        rest = others;
        if !sweep || !matches!(first.reply, Reply::Swept(_)) {
            return Ok(rest);
        }
        part = part.saturating_add(1);
    }
    Err(Fail::new("the last answers are missing"))
}

/// The receipts behind those of a caller.
fn behind_caller<'a>(
    receipts: &'a [Receipt],
    script: &Script,
    caller: u32,
) -> Result<&'a [Receipt], Fail> {
    let mut rest = receipts;
    for at in 0..script.len() {
        let line = script.line(at);
        if line.caller == caller {
            rest = behind(rest, line, at + 1)?;
        }
    }
    Ok(rest)
}

/// Each caller's records are answered once and in order, and its numbers of a segment don't fall, and rise with each
/// change.
pub fn judge_order(script: &Script, receipts: &[Receipt]) -> Result<(), Fail> {
    let mut rest = receipts;
    for caller in 0..64 {
        let later = behind_caller(rest, script, caller)?;
        let count = rest.len().saturating_sub(later.len());
        let Some(own) = rest.get(..count) else {
            return Err(Fail::new("no such receipts"));
        };
        judge_numbers(own)?;
        rest = later;
    }
    if !rest.is_empty() {
        return Err(Fail::new("there are too many answers"));
    }
    Ok(())
}

/// The numbers of one caller.
fn judge_numbers(receipts: &[Receipt]) -> Result<(), Fail> {
    let mut last = [0u64; 64];
    for receipt in receipts {
        let Some(last) = last.get_mut(receipt.segment as usize) else {
            return Err(Fail::new("no such segment"));
        };
        let least = if is_change(&receipt.reply) {
            last.saturating_add(1)
        } else {
            *last
        };
        if receipt.number < least {
            return Err(Fail::new("a number is too low"));
        }
        *last = receipt.number;
    }
    Ok(())
}
