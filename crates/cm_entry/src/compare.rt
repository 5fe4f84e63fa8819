//! Comparing what stands in a span with given bytes.

ghost use Rattle.std.specs.Prelude.{◌≡◌, ◌↔◌, ◌≤◌, IfOk, IsTrue, List, ℕ, length, take};
ghost use Rattle.std.specs.Int.{to_le_bytes, w64};
ghost use Rattle.cm_geo.specs.Need.{parts_for};
ghost use Rattle.cm_words.specs.Memory.{FitsNotes};
ghost use Rattle.cm_entry.specs.Loading.{LoadsToCompare};
ghost use Rattle.cm_entry.specs.Spans.{IsReadableSpan, bytes_in};

use crate::span::Span;
use cm_words::{Dead, Mem};

// Whether the first bytes of a word are these, of which there are at most 8.
fn word_begins(word: u64, bytes: &[u8]) -> bool
    requires { length bytes.now ≤ 8 }
    ensures { IsTrue result ↔ (take (length bytes.now) (to_le_bytes w64 word) ≡ bytes.now) }
{
    if bytes.len() == 8 {
        word == u64::from_le_bytes([
            bytes[0], bytes[1], bytes[2], bytes[3], bytes[4], bytes[5], bytes[6], bytes[7],
        ])
    } else {
        &word.to_le_bytes()[..bytes.len()] == bytes
    }
}

/// Whether these bytes are those of a span: whole words first, and then the rest of the last one.
pub(crate) fn same_bytes<M: Mem>(mem: &mut M, span: Span, bytes: &[u8]) -> Result<bool, Dead>
    requires { IsReadableSpan (M.seen mem.old) span }
    ensures loads { LoadsToCompare M.seen M.same_rest (parts_for 8 (length bytes.now)) mem.old mem.new result }
    ensures length { IfOk result (λ same. IsTrue same → length bytes.now ≡ span.len) }
    ensures same { IfOk result (λ same. (words : List ℕ) → FitsNotes (M.seen mem.new) words → (IsTrue same ↔ (bytes_in words span ≡ bytes.now))) }
{
    if bytes.len() != span.len as usize {
        return Ok(false);
    }
    let whole = span.len / 8;
    for i in 0..whole {
        let word = mem.load(span.at + i)?;
        let from = 8 * i as usize;
        if !word_begins(word, &bytes[from..from + 8]) {
            return Ok(false);
        }
    }
    if span.len % 8 == 0 {
        return Ok(true);
    }
    let last = mem.load(span.at + whole)?;
    Ok(word_begins(last, &bytes[8 * whole as usize..]))
}
