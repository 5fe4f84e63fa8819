//! The script of a seed.

ghost use Rattle.std.specs.Prelude.{◌≡◌, ◌≤◌, ◌/◌, ◌^◌, IfOk, OnOk};
ghost use Rattle.cm_make.specs.Generated.{generated_lines, id_of as id_in, key_text, line_of as line_by, next_number as next_of, op_by};
ghost use Rattle.cm_script.specs.Scripts.{IsFor};

use cm_geo::Geo;
use cm_plain::{Bytes, NoMemory, Op};
use cm_script::{Line, Script};
use itoa::Buffer;
use std::alloc::Global;

// The factor and the addend of Knuth's MMIX generator.
const FACTOR: u64 = 6_364_136_223_846_793_005;

const ADDEND: u64 = 1_442_695_040_888_963_407;

// The number after a number.
fn next_number(number: u64) -> u64
    ensures { result ≡ next_of number }
{
    number.wrapping_mul(FACTOR).wrapping_add(ADDEND)
}

// Puts a caller's key with an id in place of the text's bytes.
fn write_key(text: &mut Vec<u8>, caller: u32, id: u64) -> Result<(), NoMemory>
    ensures { OnOk result (text.new.items ≡ key_text caller id) }
{
    let mut digits = Buffer::new();
    text.clear();
    text.extend_from_slice(b"c")?;
    text.extend_from_slice(digits.format(caller).as_bytes())?;
    text.extend_from_slice(b"-")?;
    text.extend_from_slice(digits.format(id).as_bytes())?;
    Ok(())
}

// The operation of a choice of 0 to 15.
#[tactic(auto, unfolding(crate::specs::Generated::op_by))]
fn op_of(alloc: Global, choice: u64, key: &[u8], value: &[u8]) -> Result<Op, NoMemory>
    ensures { IfOk result (λ op. op ≡ op_by choice key.now value.now) }
{
    let key = Bytes::of(alloc, key)?;
    if choice < 9 {
        let value = Bytes::of(alloc, value)?;
        return Ok(Op::Put { key, value });
    }
    if choice < 12 {
        return Ok(Op::Get { key });
    }
    if choice < 14 {
        return Ok(Op::Remove { key });
    }
    let value = Bytes::of(alloc, value)?;
    if choice == 14 {
        Ok(Op::PutIfAbsent { key, value })
    } else {
        Ok(Op::Replace { key, value })
    }
}

// The record at an index, counted from 0, that a number makes. The key is put together in a text that is only lent,
// so that one text serves all records.
#[tactic(auto, unfolding(crate::specs::Generated::line_of))]
fn line_of(alloc: Global, i: u32, number: u64, key: &mut Vec<u8>) -> Result<Line, NoMemory>
    ensures { IfOk result (λ line. line ≡ line_by i number) }
{
    let caller = i % 8;
    write_key(key, caller, (number >> 33) % 50)?;
    let mut digits = Buffer::new();
    let value = digits.format((number >> 20) % 1_000_000);
    let op = op_of(alloc, number >> 60, key.as_slice(), value.as_bytes())?;
    Ok(Line { caller, op })
}

/// The script of so many generated records, for a seed: eight callers in turn, each with 50 keys of its own, whose numbers
/// are those of Knuth's MMIX generator. It is one for every geometry, since a key has at most 5 bytes and a value at most 6.
/// Takes memory: NoMemory where none is left, and no other error.
pub fn generated(alloc: Global, geo: &Geo, records: u32, seed: u64) -> Result<Script, NoMemory>
    requires limit { records ≤ 65536 }
    ensures lines { IfOk result (λ script. script ≡ generated_lines records seed) }
    ensures for_geo { IfOk result (IsFor geo.now) }
{
    let mut lines = Vec::with_capacity(alloc, records as usize)?;
    let mut key = Vec::new(alloc);
    let mut number = seed;
    for i in 0..records {
        number = next_number(number);
        lines.push(line_of(alloc, i, number, &mut key)?)?;
    }
    Ok(Script::from_vec(lines))
}
