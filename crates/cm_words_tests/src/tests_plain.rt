//! Answers worked out by hand, in a segment with one to two tiers of 64 chunks of four words.

ghost use Rattle.std.specs.Prelude.{◌≡◌, IsTrue, length};
ghost use Rattle.cm_geo.specs.Hash.{segment_of_key};
ghost use Rattle.cm_geo.specs.Need.{Fits};
ghost use Rattle.cm_plain.specs.Limits.{IsKey, KeepsLimits, segment_of};

use cm_geo::{Geo, MAX_KEY_BYTES, MAX_VALUE_BYTES, hash};
use cm_plain::{Bytes, NoMemory, Op, PlainSegment, Reply};
use std::alloc::{AllocError, Global};
use std::process::Abort;
use std::test::Fail;

/// The only segment of a map, with its geometry.
#[derive(Drop)]
struct OnlySegment {
    geo: Geo,
    segment: PlainSegment,
    ghost geo_same: { segment.geo ≡ geo },
    ghost index: { segment.segment ≡ 0 },
}

impl OnlySegment {
    fn new(alloc: Global, geo: Geo) -> Result<OnlySegment, NoMemory> {
        Ok(OnlySegment {
            geo,
            segment: PlainSegment::new(alloc, &geo, 0)?,
        })
    }

    /// Answers the operation of a line, as in `put a 1`.
    fn ask(
        &mut self,
        rt: &impl Abort,
        alloc: Global,
        line: &str,
        grant: bool,
    ) -> Result<Reply, NoMemory> {
        let op = op_of(alloc, line)?;
        assert!(rt; may_ask(&self.geo, &op), "at {line}");
        self.segment.answer(alloc, &op, grant)
    }
}

/// The operation of a line: a verb, then a key and values, one space between.
fn op_of(alloc: Global, line: &str) -> Result<Op, NoMemory> {
    let mut words = line.split(' ');
    let verb = words.next().unwrap_or("");
    let first = bytes_of(alloc, words.next())?;
    let second = bytes_of(alloc, words.next())?;
    let third = bytes_of(alloc, words.next())?;
    Ok(match verb {
        "put" => Op::Put {
            key: first,
            value: second,
        },
        "get" => Op::Get { key: first },
        "put-if-absent" => Op::PutIfAbsent {
            key: first,
            value: second,
        },
        "replace" => Op::Replace {
            key: first,
            value: second,
        },
        "replace-if" => Op::ReplaceIf {
            key: first,
            expected: second,
            value: third,
        },
        "remove" => Op::Remove { key: first },
        "remove-if" => Op::RemoveIf {
            key: first,
            expected: second,
        },
        "count" => Op::Count { segment: 0 },
        "list" => Op::List { segment: 0 },
        _ => Op::Sweep {
            segment: 0,
            prefix: first,
        },
    })
}

fn bytes_of(alloc: Global, word: Option<&str>) -> Result<Bytes, NoMemory> {
    Bytes::of(alloc, word.unwrap_or("").as_bytes())
}

/// Whether an operation keeps the limits and is of the only segment.
fn may_ask(geo: &Geo, op: &Op) -> bool
    ensures limits { IsTrue result → KeepsLimits geo.now op.now }
    ensures here { IsTrue result → segment_of geo.now op.now ≡ 0 }
{
    match op {
        Op::Put { key, value } | Op::PutIfAbsent { key, value } | Op::Replace { key, value } => {
            is_here(geo, key) && fits(geo, key, value)
        }
        Op::ReplaceIf {
            key,
            expected,
            value,
        } => is_here(geo, key)
            && fits(geo, key, value)
            && expected.as_slice().len() <= MAX_VALUE_BYTES as usize,
        Op::Get { key } | Op::Remove { key } => is_here(geo, key) && is_key(key),
        Op::RemoveIf { key, expected } => {
            is_here(geo, key)
                && is_key(key)
                && expected.as_slice().len() <= MAX_VALUE_BYTES as usize
        }
        Op::Count { segment } | Op::List { segment } => *segment == 0 && *segment < geo.segments(),
        Op::Sweep { segment, prefix } => {
            *segment == 0
                && *segment < geo.segments()
                && prefix.as_slice().len() <= MAX_KEY_BYTES as usize
        }
    }
}

fn is_here(geo: &Geo, key: &Bytes) -> bool
    ensures { IsTrue result → segment_of_key geo.now key.now ≡ 0 }
{
    geo.segment_of(hash(key.as_slice())) == 0
}

fn is_key(key: &Bytes) -> bool
    ensures { IsTrue result → IsKey key.now }
{
    let len = key.as_slice().len();
    1 <= len && len <= MAX_KEY_BYTES as usize
}

fn fits(geo: &Geo, key: &Bytes, value: &Bytes) -> bool
    ensures { IsTrue result → Fits geo.now (length key.now) (length value.now) }
{
    let key_len = key.as_slice().len();
    let value_len = value.as_slice().len();
    key_len <= MAX_KEY_BYTES as usize
        && value_len <= MAX_VALUE_BYTES as usize
        && geo.fits(key_len as u32, value_len as u32)
}

/// The name of a reply, with its data.
fn reply_text(alloc: Global, reply: &Reply) -> Result<String, AllocError> {
    match reply {
        Reply::Kept(value) => format!(in alloc; "Kept {}", text(value)),
        Reply::Value(value) => format!(in alloc; "Value {}", text(value)),
        Reply::Swept(key) => format!(in alloc; "Swept {}", text(key)),
        Reply::Count(entries) => format!(in alloc; "Count {entries}"),
        Reply::Pairs(pairs) => {
            let mut list = String::new(alloc);
            list.push_str("Pairs")?;
            for pair in pairs.as_slice() {
                write!(list, " {}={}", text(&pair.key), text(&pair.value))?;
            }
            Ok(list)
        }
        other => format!(in alloc; "{other:?}"),
    }
}

fn text(bytes: &Bytes) -> &str {
    str::from_utf8(bytes.as_slice()).unwrap_or("?")
}

/// A segment with 64 entries of one chunk each, k00 to k63, in as many changes.
fn full_tier(rt: &impl Abort, alloc: Global, geo: Geo) -> Result<OnlySegment, Fail> {
    let mut only = OnlySegment::new(alloc, geo)?;
    for key in 0..64 {
        let line = format!(in alloc; "put k{key:02} 1")?;
        let reply = only.ask(rt, alloc, line.as_str(), false)?;
        assert!(rt; matches!(reply, Reply::New), "at {line}");
    }
    Ok(only)
}

/// Asks one line after the other, and compares each reply and the number after it.
fn compare(
    rt: &impl Abort,
    alloc: Global,
    only: &mut OnlySegment,
    grant: bool,
    rows: &[(&str, &str, u64)],
) -> Result<(), Fail> {
    for (line, reply, number) in rows {
        let found = reply_text(alloc, &only.ask(rt, alloc, line, grant)?)?;
        assert_eq!(rt; found.as_str(), *reply, "at {line}");
        assert_eq!(rt; only.segment.number(), *number, "at {line}");
    }
    Ok(())
}

// In the last table the second value needs two chunks: it stays in place, or goes behind b's entry.
#[test]
fn answers_each_operation(rt: HostRuntime) -> Result<(), Fail> {
    let tables: [&[(&str, &str, u64)]; 4] = [
        &[
            ("put a 1", "New", 1),
            ("get a", "Value 1", 1),
            ("list", "Pairs a=1", 1),
        ],
        &[
            ("put a 1", "New", 1),
            ("put-if-absent a 2", "Kept 1", 1),
            ("replace-if a 9 3", "Differs", 1),
            ("remove-if a 1", "Removed", 2),
            ("replace a 5", "Missing", 2),
        ],
        &[
            ("put a 1", "New", 1),
            ("put ba 2", "New", 2),
            ("put bba 3", "New", 3),
            ("count", "Count 3", 3),
            ("sweep b", "Swept ba", 4),
            ("sweep b", "Swept bba", 5),
            ("sweep b", "SweptAll", 5),
        ],
        &[
            ("put a 1", "New", 1),
            ("put a 123456789", "Replaced", 2),
            ("get a", "Value 123456789", 2),
            ("put c 1", "New", 3),
            ("put b 1", "New", 4),
            ("put c 123456789", "Replaced", 5),
            ("put e ", "New", 6),
            ("get e", "Value ", 6),
            ("list", "Pairs a=123456789 b=1 c=123456789 e=", 6),
        ],
    ];
    for table in tables {
        let mut only = OnlySegment::new(rt.alloc(), Geo::new(1, 1, 64, 4, 0)?)?;
        compare(&rt, rt.alloc(), &mut only, false, table)?;
    }
    Ok(())
}

#[test]
fn fills_a_chain(rt: HostRuntime) -> Result<(), Fail> {
    let cases = [
        ((1, 0), false, "FullChain", 64),
        ((2, 1), false, "FullSpent", 64),
        ((2, 1), true, "New", 65),
    ];
    for ((tiers, extra), grant, reply, number) in cases {
        let mut only = full_tier(&rt, rt.alloc(), Geo::new(1, tiers, 64, 4, extra)?)?;
        compare(
            &rt,
            rt.alloc(),
            &mut only,
            grant,
            &[("put k64 1", reply, number)],
        )?;
    }
    Ok(())
}

#[test]
fn wants_free_chunks_in_a_row(rt: HostRuntime) -> Result<(), Fail> {
    for (other, reply, number) in [("remove k20", "FullChain", 66), ("remove k11", "New", 67)] {
        let mut only = full_tier(&rt, rt.alloc(), Geo::new(1, 1, 64, 4, 0)?)?;
        let rows = [
            ("remove k10", "Removed", 65),
            (other, "Removed", 66),
            ("put big 123456789", reply, number),
        ];
        compare(&rt, rt.alloc(), &mut only, false, &rows)?;
    }
    Ok(())
}

#[test]
fn copies_an_operation(rt: HostRuntime) -> Result<(), Fail> {
    for line in ["replace-if a 1 2", "count", "sweep b"] {
        let op = op_of(rt.alloc(), line)?;
        let copy = op.clone()?;
        assert!(rt; copy == op, "at {line}");
    }
    Ok(())
}

#[test]
fn lists_pairs_by_index(rt: HostRuntime) -> Result<(), Fail> {
    let mut only = OnlySegment::new(rt.alloc(), Geo::new(1, 1, 64, 4, 0)?)?;
    only.ask(&rt, rt.alloc(), "put b 2", false)?;
    only.ask(&rt, rt.alloc(), "put a 1", false)?;
    let Reply::Pairs(pairs) = only.ask(&rt, rt.alloc(), "list", false)? else {
        panic!(rt; "no pairs");
    };
    assert_eq!(rt; pairs.len(), 2);
    assert!(rt; !pairs.is_empty());
    if 1 < pairs.len() {
        assert_eq!(rt; text(&pairs.pair(1).key), "b");
    }
    Ok(())
}
