//! Getting a value without a lock.

ghost use Rattle.std.specs.Prelude.{◌≡◌, ◌≤◌, IfOk, List, length, ℕ};
ghost use Rattle.cm_plain.specs.States.{State};
ghost use Rattle.cm_plain.specs.Lawful.{Represents};
ghost use Rattle.cm_words.specs.Memory.{FitsNotes};
ghost use Rattle.cm_words.specs.Calls.{IsReadable, Loads};
ghost use Rattle.cm_segment.specs.Peeked.{IsPeeked, IsPeekedIn, IsWithin, PeeksMore};

use crate::peek_mem::PeekMem;
use crate::seek::look;
use cm_entry::read_value_into;
use cm_geo::Geo;
use cm_words::{Dead, Mem, Peek};

/// What a get finds without a lock.
#[derive(Clone, Copy, Debug, PartialEq, Eq)]
pub enum Peeked {
    /// The key's value, of so many bytes.
    Found(u32),
    /// The key has no entry.
    Missing,
    /// No words that stood there at once have all that was found.
    Garbled,
}

// The value of a key, copied to the beginning of `out`.
fn get_from<M: Mem>(mem: &mut M, geo: &Geo, key: &[u8], out: &mut [u8]) -> Result<Peeked, Dead>
    requires readable { IsReadable (M.seen mem.old) geo.now }
    requires out { 4096 ≤ length out.old }
    ensures loads { Loads M.seen M.same_rest mem.old mem.new result }
    ensures within_limit { IfOk result (IsWithin 4096) }
    ensures found { IfOk result (λ peeked. (words : List ℕ) (state : State) → FitsNotes (M.seen mem.new) words
        → Represents geo.now (M.seen mem.new).setting.segment words state → IsPeekedIn state key.now out.new peeked) }
{
    let Some(sight) = look(mem, geo, key)? else {
        return Ok(Peeked::Missing);
    };
    if !geo.fits(sight.key_len, sight.value_len) {
        return Ok(Peeked::Garbled);
    }
    let len = read_value_into(mem, geo, sight.place, sight.chunk, out)?;
    if len == sight.value_len {
        Ok(Peeked::Found(len))
    } else {
        Ok(Peeked::Garbled)
    }
}

/// Looks for a key's value by loads beside writers, and copies it to the beginning of `out`, which has 4096
/// bytes or more. Whatever words come, the call returns, and what it answers has at most 4096 bytes.
///
/// Where some words that represent a state have all that the peek found, then and before, the answer is
/// that state's: the value, or `Missing`, and never `Garbled`. Where no such words are, it tells nothing.
/// `Dead` comes exactly where a load died; then, and beside an answer without a value, `out` may have changed.
///
/// It loads what `look` loads, and of an entry that it finds the lengths once more and the value.
pub fn peek_get<P: Peek>(
    peek: &mut P,
    geo: &Geo,
    key: &[u8],
    out: &mut [u8],
) -> Result<Peeked, Dead>
    requires geo { (P.seen peek.old).geo ≡ geo.now }
    requires out { 4096 ≤ length out.old }
    ensures loads { PeeksMore P.seen P.same_rest peek.old peek.new result }
    ensures within_limit { IfOk result (IsWithin 4096) }
    ensures found { IfOk result (IsPeeked (P.seen peek.new) key.now out.new) }
    ensures out { length out.new ≡ length out.old }
{
    let mut mem = PeekMem::new(peek);
    get_from(&mut mem, geo, key, out)
}
