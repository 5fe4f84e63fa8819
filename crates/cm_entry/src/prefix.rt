//! Copying what stands in a span, if it begins with a prefix.

ghost use Rattle.std.specs.Prelude.{◌≡◌, ◌+◌, ◌↔◌, ◌≤◌, IfOk, IsTrue, List, MatchBool, OnOk, ℕ, length, drop, min};
ghost use Rattle.cm_geo.specs.Need.{parts_for};
ghost use Rattle.cm_words.specs.Memory.{FitsNotes};
ghost use Rattle.cm_words.specs.Calls.{Loads};
ghost use Rattle.cm_entry.specs.Spans.{IsReadableSpan};
ghost use Rattle.cm_entry.specs.Prefixes.{Agree, IsPrefixCopy, KeepsRestUnless};

use crate::span::Span;
use cm_words::{Dead, Mem};

// Whether bytes are those of a prefix from a place on, as far as both go.
fn agree(bytes: &[u8], prefix: &[u8], from: usize) -> bool
    ensures { IsTrue result ↔ Agree bytes.now (drop from prefix.now) }
{
    if prefix.len() <= from {
        return true;
    }
    let rest = &prefix[from..];
    if rest.len() <= bytes.len() {
        bytes.starts_with(rest)
    } else {
        rest.starts_with(bytes)
    }
}

/// Copies the bytes of a span to the beginning of `out`, which has room for them, if they begin with the
/// prefix. It ends at the first word that shows that they don't, and then a part of the prefix may have
/// been copied. What stands behind stays.
pub(crate) fn copy_prefixed<M: Mem>(
    mem: &mut M,
    span: Span,
    prefix: &[u8],
    out: &mut [u8],
) -> Result<bool, Dead>
    requires span { IsReadableSpan (M.seen mem.old) span }
    requires room { span.len ≤ length out.old }
    ensures loads { Loads M.seen M.same_rest mem.old mem.new result }
    ensures count { IfOk result (λ prefixed. MatchBool prefixed ((M.seen mem.new).meter.events ≡ (M.seen mem.old).meter.events + parts_for 8 span.len)
        ((M.seen mem.new).meter.events ≤ (M.seen mem.old).meter.events + parts_for 8 (length prefix.now))) }
    ensures length { IfOk result (λ prefixed. IsTrue prefixed → length prefix.now ≤ span.len) }
    ensures copied { IfOk result (λ prefixed. (words : List ℕ) → FitsNotes (M.seen mem.new) words → IsPrefixCopy words span prefix.now out.new prefixed) }
    ensures rest { KeepsRestUnless span.len (min span.len (length prefix.now)) out.old out.new result }
{
    let len = span.len as usize;
    if len < prefix.len() {
        return Ok(false);
    }
    for i in 0..span.len.div_ceil(8) {
        let bytes = mem.load(span.at + i)?.to_le_bytes();
        let from = 8 * i as usize;
        let to = len.min(from + 8);
        let part = &bytes[..to - from];
        if !agree(part, prefix, from) {
            return Ok(false);
        }
        out[from..to].copy_from_slice(part);
    }
    Ok(true)
}
