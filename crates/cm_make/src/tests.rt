//! Values of the format, and scripts made by a plain loop.

use crate::{generated, made_record};
use cm_geo::{Geo, hash};
use cm_plain::{Bytes, ListOf, MapLine, NoMemory, Op, PairList, Receipt, Reply};
use cm_script::{Line, Report};
use std::alloc::Global;
use std::test::Fail;

// A record of a caller that asks for this operation by its word.
fn line(alloc: Global, caller: u32, word: &str, key: &str, value: &str) -> Result<Line, NoMemory> {
    let key = Bytes::of(alloc, key.as_bytes())?;
    let value = Bytes::of(alloc, value.as_bytes())?;
    let op = match word {
        "put" => Op::Put { key, value },
        "get" => Op::Get { key },
        "remove" => Op::Remove { key },
        "put-if-absent" => Op::PutIfAbsent { key, value },
        _ => Op::Replace { key, value },
    };
    Ok(Line { caller, op })
}

#[test]
fn the_first_record_of_seed_1(rt: HostRuntime) -> Result<(), Fail> {
    let alloc = rt.alloc();
    let geo = Geo::new(16, 4, 1024, 8, 48)?;
    let script = generated(alloc, &geo, 1, 1)?;
    assert_eq!(rt; script.len(), 1);
    let want = line(alloc, 0, "put", "c0-24", "469695")?;
    assert_eq!(rt; script.line(0).caller, want.caller);
    assert!(rt; script.line(0).op == want.op);
    assert_eq!(rt; geo.segment_of(hash(b"c0-24")), 7);
    Ok(())
}

// The word of each choice.
const WORDS: [&str; 16] = [
    "put",
    "put",
    "put",
    "put",
    "put",
    "put",
    "put",
    "put",
    "put",
    "get",
    "get",
    "get",
    "remove",
    "remove",
    "put-if-absent",
    "replace",
];

// The generator's next number, by a product that fits 128 bits.
fn number_after(number: u64) -> u64 {
    let product = u128::from(number) * 6_364_136_223_846_793_005;
    ((product + 1_442_695_040_888_963_407) % (1 << 64)) as u64
}

// The record at an index that a number makes.
fn line_by(alloc: Global, i: u32, number: u64) -> Result<Line, Fail> {
    let caller = i % 8;
    let id = number / (1 << 33) % 50;
    let digits = number / (1 << 20) % 1_000_000;
    let key = format!(in alloc; "c{caller}-{id}")?;
    let value = format!(in alloc; "{digits}")?;
    let word = WORDS[(number / (1 << 60)) as usize];
    Ok(line(alloc, caller, word, key.as_str(), value.as_str())?)
}

#[test]
fn a_thousand_records(rt: HostRuntime) -> Result<(), Fail> {
    let alloc = rt.alloc();
    let geo = Geo::new(16, 4, 1024, 8, 48)?;
    for seed in [0, 1, 2_026, u64::MAX] {
        let script = generated(alloc, &geo, 1_000, seed)?;
        assert_eq!(rt; script.len(), 1_000);
        let mut number = seed;
        for i in 0..script.len() {
            number = number_after(number);
            let want = line_by(alloc, i, number)?;
            assert_eq!(rt; script.line(i).caller, want.caller, "at {i}");
            assert!(rt; script.line(i).op == want.op, "at {i}");
        }
    }
    Ok(())
}

#[test]
fn as_many_records_as_a_script_may_have(rt: HostRuntime) -> Result<(), Fail> {
    let alloc = rt.alloc();
    let geo = Geo::new(16, 4, 1024, 8, 48)?;
    let script = generated(alloc, &geo, 65_536, 1)?;
    assert_eq!(rt; script.len(), 65_536);
    assert!(rt; generated(alloc, &geo, 0, 1)?.is_empty());
    Ok(())
}

// A report with these answers and pairs.
fn report(alloc: Global, receipts: Vec<Receipt>, map: Vec<MapLine>) -> Report {
    Report {
        receipts: ListOf::from_vec(receipts),
        ends: ListOf::from_vec(Vec::new(alloc)),
        found: ListOf::from_vec(Vec::new(alloc)),
        map: ListOf::from_vec(map),
        extra: 0,
    }
}

#[test]
fn a_report_without_answers(rt: HostRuntime) -> Result<(), Fail> {
    let alloc = rt.alloc();
    let empty = report(alloc, Vec::new(alloc), Vec::new(alloc));
    let text = b"made,0,0,0,0,0,0,0,0,cbf29ce484222325\n";
    assert_eq!(rt; made_record(alloc, &empty, 0)?.as_slice(), text.as_slice());
    Ok(())
}

// Adds so many receipts of this kind of answer, which the report's format names by a word.
fn push_answers(
    alloc: Global,
    receipts: &mut Vec<Receipt>,
    word: &str,
    times: u32,
) -> Result<(), Fail> {
    for line in 0..times {
        let bytes = Bytes::of(alloc, b"new")?;
        let reply = match word {
            "new" => Reply::New,
            "replaced" => Reply::Replaced,
            "kept" => Reply::Kept(bytes),
            "missing" => Reply::Missing,
            "differs" => Reply::Differs,
            "removed" => Reply::Removed,
            "value" => Reply::Value(bytes),
            "full-chain" => Reply::FullChain,
            "full-spent" => Reply::FullSpent,
            "worn" => Reply::Worn,
            "count" => Reply::Count(3),
            "pairs" => Reply::Pairs(PairList::from_vec(Vec::new(alloc))),
            "swept" => Reply::Swept(bytes),
            _ => Reply::SweptAll,
        };
        receipts.push(Receipt {
            caller: 0,
            line,
            part: 0,
            segment: 0,
            number: 1,
            reply,
        })?;
    }
    Ok(())
}

fn pair(alloc: Global, segment: u32, key: &[u8], value: &[u8]) -> Result<MapLine, NoMemory> {
    Ok(MapLine {
        segment,
        key: Bytes::of(alloc, key)?,
        value: Bytes::of(alloc, value)?,
    })
}

#[test]
fn answers_of_each_kind(rt: HostRuntime) -> Result<(), Fail> {
    let alloc = rt.alloc();
    let mut receipts = Vec::new(alloc);
    for (word, times) in [
        ("new", 1),
        ("replaced", 2),
        ("kept", 3),
        ("missing", 4),
        ("removed", 5),
        ("value", 6),
        ("differs", 7),
        ("full-chain", 1),
        ("full-spent", 1),
        ("worn", 1),
        ("count", 1),
        ("pairs", 1),
        ("swept", 1),
        ("swept-all", 1),
    ] {
        push_answers(alloc, &mut receipts, word, times)?;
    }
    // the digest is that of `map,0,a,42` and `map,3,b,2`, a line each
    let map = vec![in alloc; pair(alloc, 0, b"a", b"42")?, pair(alloc, 3, b"b", b"2")?]?;
    let made = made_record(alloc, &report(alloc, receipts, map), 36)?;
    let text = b"made,36,1,2,3,4,5,6,2,05c5bced48888599\n";
    assert_eq!(rt; made.as_slice(), text.as_slice());
    Ok(())
}
