//! Copying what stands in a span.

ghost use Rattle.std.specs.Prelude.{◌≡◌, ◌+◌, ◌-◌, ◌/◌, ◌≤◌, OnOk, length, take, drop};
ghost use Rattle.cm_geo.specs.Need.{parts_for};
ghost use Rattle.cm_entry.specs.Loading.{LoadsAnswer, LoadsCounted};
ghost use Rattle.cm_entry.specs.Progress.{IsCopySoFar};
ghost use Rattle.cm_entry.specs.Spans.{IsReadableSpan, bytes_in};

use crate::span::Span;
use cm_words::{Dead, Mem};

/// Copies the bytes of a span to the beginning of `out`, which has room for them: whole words first, four at a time
/// while there are four, and then the rest of the last one. What stands behind them stays.
pub(crate) fn copy_bytes<M: Mem>(mem: &mut M, span: Span, out: &mut [u8]) -> Result<(), Dead>
    requires span { IsReadableSpan (M.seen mem.old) span }
    requires room { span.len ≤ length out.old }
    ensures copied { LoadsAnswer M.seen M.same_rest (λ _. parts_for 8 span.len) (λ words _. take span.len out.new ≡ bytes_in words span) mem.old mem.new result }
    ensures rest { drop span.len out.new ≡ drop span.len out.old }
{
    let fours = span.len / 32;
    for four in 0..fours {
        copy_four(mem, span, 4 * four, out)?;
    }
    copy_on(mem, span, 4 * fours, out)
}

// Copies four whole words of a span, behind those that were copied. All are loaded before the first one is copied: a
// load would otherwise wait for the copy before it, which may have changed what the memory is found by.
fn copy_four<M: Mem>(mem: &mut M, span: Span, copied: u32, out: &mut [u8]) -> Result<(), Dead>
    requires span { IsReadableSpan (M.seen mem.old) span }
    requires room { span.len ≤ length out.old }
    requires whole { copied + 4 ≤ span.len / 8 }
    requires copied { IsCopySoFar (M.seen mem.old) span out.old copied }
    ensures loads { LoadsCounted M.seen M.same_rest (λ _. 4) mem.old mem.new result }
    ensures copied { OnOk result (IsCopySoFar (M.seen mem.new) span out.new (copied + 4)) }
    ensures rest { drop span.len out.new ≡ drop span.len out.old }
{
    let at = span.at + copied;
    let first = mem.load(at)?;
    let second = mem.load(at + 1)?;
    let third = mem.load(at + 2)?;
    let fourth = mem.load(at + 3)?;
    let from = 8 * copied as usize;
    out[from..from + 8].copy_from_slice(&first.to_le_bytes());
    out[from + 8..from + 16].copy_from_slice(&second.to_le_bytes());
    out[from + 16..from + 24].copy_from_slice(&third.to_le_bytes());
    out[from + 24..from + 32].copy_from_slice(&fourth.to_le_bytes());
    Ok(())
}

// Copies the words of a span behind those that were copied, one at a time, and the rest of the last one.
fn copy_on<M: Mem>(mem: &mut M, span: Span, copied: u32, out: &mut [u8]) -> Result<(), Dead>
    requires span { IsReadableSpan (M.seen mem.old) span }
    requires room { span.len ≤ length out.old }
    requires whole { copied ≤ span.len / 8 }
    requires copied { IsCopySoFar (M.seen mem.old) span out.old copied }
    ensures copied { LoadsAnswer M.seen M.same_rest (λ _. parts_for 8 span.len - copied) (λ words _. take span.len out.new ≡ bytes_in words span) mem.old mem.new result }
    ensures rest { drop span.len out.new ≡ drop span.len out.old }
{
    let whole = span.len / 8;
    for i in copied..whole {
        let word = mem.load(span.at + i)?;
        let from = 8 * i as usize;
        out[from..from + 8].copy_from_slice(&word.to_le_bytes());
    }
    let left = (span.len % 8) as usize;
    if left == 0 {
        return Ok(());
    }
    let last = mem.load(span.at + whole)?;
    let from = 8 * whole as usize;
    out[from..from + left].copy_from_slice(&last.to_le_bytes()[..left]);
    Ok(())
}
