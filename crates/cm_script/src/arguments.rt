//! The operation of a record's word and the fields behind it.

ghost use Rattle.std.specs.Prelude.{◌≡◌, ◌||◌, ℕ, IfErr, IfOk, OnOk, Result, [], ◌∷◌, map};
ghost use Rattle.cm_plain.specs.declared.op.Op.{Op};
ghost use Rattle.cm_script.specs.Numbers.{number_below};
ghost use Rattle.cm_script.specs.declared.stop.LineCause.{LineCause};
ghost use Rattle.cm_script.specs.Scripts.{op_on_segment, is_empty, is_large, is_long_key, is_long_value, op_on_key, op_of, unless, op_with_value};

use crate::limits::MAX_SCRIPT_LISTS;
use crate::number::number_below;
use crate::stop::LineCause;
use crate::verb::Verb;
use cm_geo::{Geo, MAX_KEY_BYTES, MAX_RUN_CHUNKS, MAX_VALUE_BYTES};
use cm_plain::{Bytes, NoMemory, Op};
use std::alloc::Global;

const LONGEST_KEY: usize = MAX_KEY_BYTES as usize;

const LONGEST_VALUE: usize = MAX_VALUE_BYTES as usize;

// Why a record makes no line.
#[derive(Clone, Copy, Debug)]
pub(crate) enum LineStop {
    Refused(LineCause),
    NoMemory,
}

impl From<NoMemory> for LineStop {
    ghost use Rattle.cm_script.specs.declared.arguments.LineStop.{LineStop};

    ghost from_gives = { λ _ r. r ≡ LineStop.NoMemory };

    fn from(_no_memory: NoMemory) -> LineStop {
        LineStop::NoMemory
    }
}

fn is_too_large(geo: &Geo, key: &[u8], value: &[u8]) -> bool
    ensures { result ≡ (is_long_key key.now || (is_long_value value.now || is_large geo.now key.now value.now)) }
{
    key.len() > LONGEST_KEY
        || value.len() > LONGEST_VALUE
        || geo.need(key.len() as u32, value.len() as u32) > MAX_RUN_CHUNKS
}

// Refuses a key that is empty, and otherwise one with something too large about it.
fn check_key(key: &[u8], is_too_large: bool) -> Result<(), LineStop>
    ensures ok { OnOk result ((later : Result Op LineCause) → unless (is_empty key.now) LineCause.Argument (unless is_too_large LineCause.TooLarge later) ≡ later) }
    ensures err { IfErr result (λ stop. (cause : LineCause) → stop ≡ LineStop.Refused cause → (later : Result Op LineCause) → unless (is_empty key.now) LineCause.Argument (unless is_too_large LineCause.TooLarge later) ≡ Err cause) }
{
    if key.is_empty() {
        return Err(LineStop::Refused(LineCause::Argument));
    }
    if is_too_large {
        return Err(LineStop::Refused(LineCause::TooLarge));
    }
    Ok(())
}

// A copy of a key.
fn key_of(alloc: Global, key: &[u8]) -> Result<Bytes, LineStop>
    ensures copy { IfOk result (λ copy. copy ≡ key.now) }
    ensures ok { IfOk result (λ copy. (asked : Op) → op_on_key key.now asked ≡ Ok asked) }
    ensures err { IfErr result (λ stop. (cause : LineCause) → stop ≡ LineStop.Refused cause → (asked : Op) → op_on_key key.now asked ≡ Err cause) }
{
    check_key(key, key.len() > LONGEST_KEY)?;
    Ok(Bytes::of(alloc, key)?)
}

// Copies of a key and of a value that is written under it.
fn entry_of(alloc: Global, geo: &Geo, key: &[u8], value: &[u8]) -> Result<(Bytes, Bytes), LineStop>
    ensures copy { IfOk result (λ copies. (copies.0 ≡ key.now) × (copies.1 ≡ value.now)) }
    ensures ok { IfOk result (λ copies. (asked : Op) → op_with_value geo.now key.now value.now asked ≡ Ok asked) }
    ensures err { IfErr result (λ stop. (cause : LineCause) → stop ≡ LineStop.Refused cause → (asked : Op) → op_with_value geo.now key.now value.now asked ≡ Err cause) }
{
    check_key(key, is_too_large(geo, key, value))?;
    Ok((Bytes::of(alloc, key)?, Bytes::of(alloc, value)?))
}

// A copy of the value that an operation on a key expects there.
fn expected_of(alloc: Global, key: &[u8], expected: &[u8]) -> Result<Bytes, LineStop>
    ensures copy { IfOk result (λ copy. copy ≡ expected.now) }
    ensures ok { IfOk result (λ copy. (later : Result Op LineCause) → unless (is_empty key.now) LineCause.Argument (unless (is_long_value expected.now) LineCause.TooLarge later) ≡ later) }
    ensures err { IfErr result (λ stop. (cause : LineCause) → stop ≡ LineStop.Refused cause → (later : Result Op LineCause) → unless (is_empty key.now) LineCause.Argument (unless (is_long_value expected.now) LineCause.TooLarge later) ≡ Err cause) }
{
    check_key(key, expected.len() > LONGEST_VALUE)?;
    Ok(Bytes::of(alloc, expected)?)
}

// The segment that a field names, unless something else is too large.
fn segment_of(geo: &Geo, text: &[u8], is_too_large: bool) -> Result<u32, LineStop>
    ensures ok { IfOk result (λ segment. (asked : ℕ → Op) → op_on_segment (number_below geo.now.segments text.now) asked is_too_large ≡ Ok (asked segment)) }
    ensures err { IfErr result (λ stop. (cause : LineCause) → stop ≡ LineStop.Refused cause → (asked : ℕ → Op) → op_on_segment (number_below geo.now.segments text.now) asked is_too_large ≡ Err cause) }
{
    match number_below(geo.segments, text) {
        None => Err(LineStop::Refused(LineCause::Argument)),
        Some(_) if is_too_large => Err(LineStop::Refused(LineCause::TooLarge)),
        Some(segment) => Ok(segment),
    }
}

// The operation of a word and one field.
fn op_of_one(
    alloc: Global,
    geo: &Geo,
    lists: u32,
    verb: Verb,
    argument: &[u8],
) -> Result<Op, LineStop>
    ensures ok { IfOk result (λ asked. op_of geo.now lists verb (argument.now ∷ []) ≡ Ok asked) }
    ensures err { IfErr result (λ stop. (cause : LineCause) → stop ≡ LineStop.Refused cause → op_of geo.now lists verb (argument.now ∷ []) ≡ Err cause) }
{
    match verb {
        Verb::Get => Ok(Op::Get {
            key: key_of(alloc, argument)?,
        }),
        Verb::Remove => Ok(Op::Remove {
            key: key_of(alloc, argument)?,
        }),
        Verb::Count => Ok(Op::Count {
            segment: segment_of(geo, argument, false)?,
        }),
        Verb::List => Ok(Op::List {
            segment: segment_of(geo, argument, lists >= MAX_SCRIPT_LISTS)?,
        }),
        _ => Err(LineStop::Refused(LineCause::Argument)),
    }
}

// The operation of a word and two fields.
fn op_of_two(
    alloc: Global,
    geo: &Geo,
    verb: Verb,
    first: &[u8],
    second: &[u8],
) -> Result<Op, LineStop>
    ensures ok { (lists : ℕ) → IfOk result (λ asked. op_of geo.now lists verb (first.now ∷ second.now ∷ []) ≡ Ok asked) }
    ensures err { (lists : ℕ) → IfErr result (λ stop. (cause : LineCause) → stop ≡ LineStop.Refused cause → op_of geo.now lists verb (first.now ∷ second.now ∷ []) ≡ Err cause) }
{
    match verb {
        Verb::Put => {
            let (key, value) = entry_of(alloc, geo, first, second)?;
            Ok(Op::Put { key, value })
        }
        Verb::PutIfAbsent => {
            let (key, value) = entry_of(alloc, geo, first, second)?;
            Ok(Op::PutIfAbsent { key, value })
        }
        Verb::Replace => {
            let (key, value) = entry_of(alloc, geo, first, second)?;
            Ok(Op::Replace { key, value })
        }
        Verb::RemoveIf => {
            let expected = expected_of(alloc, first, second)?;
            let key = key_of(alloc, first)?;
            Ok(Op::RemoveIf { key, expected })
        }
        Verb::Sweep => {
            let segment = segment_of(geo, first, second.len() > LONGEST_KEY)?;
            let prefix = Bytes::of(alloc, second)?;
            Ok(Op::Sweep { segment, prefix })
        }
        _ => Err(LineStop::Refused(LineCause::Argument)),
    }
}

// The operation of a word and three fields.
fn op_of_three(
    alloc: Global,
    geo: &Geo,
    verb: Verb,
    first: &[u8],
    second: &[u8],
    third: &[u8],
) -> Result<Op, LineStop>
    ensures ok { (lists : ℕ) → IfOk result (λ asked. op_of geo.now lists verb (first.now ∷ second.now ∷ third.now ∷ []) ≡ Ok asked) }
    ensures err { (lists : ℕ) → IfErr result (λ stop. (cause : LineCause) → stop ≡ LineStop.Refused cause → op_of geo.now lists verb (first.now ∷ second.now ∷ third.now ∷ []) ≡ Err cause) }
{
    match verb {
        Verb::ReplaceIf => {
            let expected = expected_of(alloc, first, second)?;
            let (key, value) = entry_of(alloc, geo, first, third)?;
            Ok(Op::ReplaceIf {
                key,
                expected,
                value,
            })
        }
        _ => Err(LineStop::Refused(LineCause::Argument)),
    }
}

// The operation of a word and the fields behind it, the first and the later ones, where so many `list`
// records stand before it. Takes memory.
pub(crate) fn op_of(
    alloc: Global,
    geo: &Geo,
    lists: u32,
    verb: Verb,
    first: &[u8],
    later: &[&[u8]],
) -> Result<Op, LineStop>
    ensures ok { IfOk result (λ asked. op_of geo.now lists verb (first.now ∷ map (λ f. f.now) later.now) ≡ Ok asked) }
    ensures err { IfErr result (λ stop. (cause : LineCause) → stop ≡ LineStop.Refused cause → op_of geo.now lists verb (first.now ∷ map (λ f. f.now) later.now) ≡ Err cause) }
{
    match later {
        [] => op_of_one(alloc, geo, lists, verb, first),
        [second] => op_of_two(alloc, geo, verb, first, *second),
        [second, third] => op_of_three(alloc, geo, verb, first, *second, *third),
        _ => Err(LineStop::Refused(LineCause::Argument)),
    }
}
