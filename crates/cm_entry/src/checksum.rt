//! The hash of what stands in a span, and the padding of its last word.

ghost use Rattle.std.specs.Prelude.{◌≡◌, ◌+◌, ◌==◌};
ghost use Rattle.std.specs.List.{list_all};
ghost use Rattle.cm_geo.specs.Need.{parts_for};
ghost use Rattle.cm_entry.specs.Hashes.{IsEntryHash, IsSpanHash, IsWordsHash, is_last_padded};
ghost use Rattle.cm_entry.specs.Loading.{LoadsAnswer};
ghost use Rattle.cm_entry.specs.Spans.{AreReadable, IsReadableSpan};

use crate::hashing::{hash_prefix, hash_word};
use crate::span::Span;
use cm_words::{Dead, Mem};

/// The state of the hash behind a span, and the last of its words, or 0 where it has none.
#[derive(Clone, Copy)]
pub(crate) struct SpanHash {
    pub state: u64,
    pub last: u64,
}

/// The state of the hash behind whole words, and whether the padding of the last one is zero.
#[derive(Clone, Copy)]
pub(crate) struct WordsHash {
    pub state: u64,
    pub padded: bool,
}

/// The hash goes on from a state over the bytes of a span: over whole words first, and then over the rest
/// of the last one.
pub(crate) fn hash_span<M: Mem>(mem: &mut M, span: Span, start: u64) -> Result<SpanHash, Dead>
    requires { IsReadableSpan (M.seen mem.old) span }
    ensures { LoadsAnswer M.seen M.same_rest (λ _. parts_for 8 span.len) (λ words hash. IsSpanHash words span start hash) mem.old mem.new result }
{
    let mut state = start;
    let mut last = 0;
    let whole = span.len / 8;
    for i in 0..whole {
        last = mem.load(span.at + i)?;
        state = hash_word(state, last);
    }
    let left = (span.len % 8) as usize;
    if left == 0 {
        return Ok(SpanHash { state, last });
    }
    last = mem.load(span.at + whole)?;
    state = hash_prefix(state, last, left);
    Ok(SpanHash { state, last })
}

fn are_zero(bytes: &[u8]) -> bool
    ensures { result ≡ list_all (λ byte. byte == 0) bytes.now }
{
    bytes.iter().all(|byte| *byte == 0)
}

// Whether the bytes of the last word behind so many bytes in all are zero.
fn is_padded(len: u32, last: u64) -> bool
    ensures { result ≡ is_last_padded len last }
{
    let count = (len % 8) as usize;
    count == 0 || are_zero(&last.to_le_bytes()[count..])
}

/// The hash goes on over the whole words of a span.
pub(crate) fn hash_words_at<M: Mem>(mem: &mut M, span: Span, start: u64) -> Result<WordsHash, Dead>
    requires { IsReadableSpan (M.seen mem.old) span }
    ensures { LoadsAnswer M.seen M.same_rest (λ _. parts_for 8 span.len) (λ words hash. IsWordsHash words span.at span.len start hash) mem.old mem.new result }
{
    let words = Span {
        at: span.at,
        len: 8 * span.len.div_ceil(8),
    };
    let hash = hash_span(mem, words, start)?;
    Ok(WordsHash {
        state: hash.state,
        padded: is_padded(span.len, hash.last),
    })
}

/// The hash goes on over the words of a key and of the value behind it.
pub(crate) fn hash_entry<M: Mem>(
    mem: &mut M,
    at: u32,
    key_len: u32,
    value_len: u32,
    start: u64,
) -> Result<WordsHash, Dead>
    requires { AreReadable (M.seen mem.old) at key_len value_len }
    ensures { LoadsAnswer M.seen M.same_rest (λ _. parts_for 8 key_len + parts_for 8 value_len) (λ words hash. IsEntryHash words at key_len value_len start hash) mem.old mem.new result }
{
    let key = hash_words_at(mem, Span { at, len: key_len }, start)?;
    let value_span = Span {
        at: at + key_len.div_ceil(8),
        len: value_len,
    };
    let value = hash_words_at(mem, value_span, key.state)?;
    Ok(WordsHash {
        state: value.state,
        padded: key.padded && value.padded,
    })
}
