//! What is found of a key's value, as the conditions of operations ask for it.

ghost use Rattle.std.specs.Prelude.{◌≡◌, ◌≤◌, IfOk, IfSome, is_some, length};
ghost use Rattle.cm_plain.specs.States.{value_of};
ghost use Rattle.cm_words.specs.Calls.{IsReadable, Loads};
ghost use Rattle.cm_turn.specs.Conditions.{Compares, EachHere, FindsValue};

use cm_entry::{read_value_into, value_equals};
use cm_geo::Geo;
use cm_segment::look;
use cm_words::{Dead, Mem};

/// A key's value beside an expected one.
#[derive(Clone, Copy, Debug, PartialEq, Eq)]
pub(crate) enum Comparison {
    /// The key isn't there.
    Missing,
    /// It has another value.
    Differs,
    /// It has this value.
    Same,
}

/// Whether a key is there.
pub(crate) fn has_key<M: Mem>(mem: &mut M, geo: &Geo, key: &[u8]) -> Result<bool, Dead>
    requires readable { IsReadable (M.seen mem.old) geo.now }
    ensures loads { Loads M.seen M.same_rest mem.old mem.new result }
    ensures there { IfOk result (λ there. EachHere (M.seen mem.new) geo.now (λ state. is_some (value_of key.now state) ≡ there)) }
{
    let sight = look(mem, geo, key)?;
    Ok(sight.is_some())
}

/// Copies a key's value to the beginning of `out`, which has 4096 bytes or more, and answers its length;
/// None where the key isn't there.
pub(crate) fn find_value<M: Mem>(
    mem: &mut M,
    geo: &Geo,
    key: &[u8],
    out: &mut [u8],
) -> Result<Option<u32>, Dead>
    requires readable { IsReadable (M.seen mem.old) geo.now }
    requires room { 4096 ≤ length out.old }
    ensures loads { Loads M.seen M.same_rest mem.old mem.new result }
    ensures within_limit { IfOk result (λ found. IfSome found (λ len. len ≤ length out.new)) }
    ensures finds { IfOk result (λ found. EachHere (M.seen mem.new) geo.now (λ state. FindsValue (value_of key.now state) out.new found)) }
    ensures long { length out.new ≡ length out.old }
{
    let Some(sight) = look(mem, geo, key)? else {
        return Ok(None);
    };
    let len = read_value_into(mem, geo, sight.place, sight.chunk, out)?;
    Ok(Some(len))
}

/// Compares a key's value with an expected one, without a copy.
pub(crate) fn compare<M: Mem>(
    mem: &mut M,
    geo: &Geo,
    key: &[u8],
    expected: &[u8],
) -> Result<Comparison, Dead>
    requires readable { IsReadable (M.seen mem.old) geo.now }
    ensures loads { Loads M.seen M.same_rest mem.old mem.new result }
    ensures compares { IfOk result (λ found. EachHere (M.seen mem.new) geo.now (λ state. Compares (value_of key.now state) expected.now found)) }
{
    let Some(sight) = look(mem, geo, key)? else {
        return Ok(Comparison::Missing);
    };
    if value_equals(mem, geo, sight.place, sight.chunk, expected)? {
        Ok(Comparison::Same)
    } else {
        Ok(Comparison::Differs)
    }
}
