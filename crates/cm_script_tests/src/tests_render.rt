//! Reports with the text that the format gives them.

use cm_plain::{Bytes, Drops, ListOf, MapLine, NoMemory, Pair, PairList, Receipt, Reply, SegFound};
use cm_script::{CallerEnd, How, Report, render, render_map};
use std::alloc::Global;
use std::test::Fail;

// The answer to a record of caller 0, as the first change of segment 0.
fn receipt(line: u32, reply: Reply) -> Receipt {
    Receipt {
        caller: 0,
        line,
        part: 0,
        segment: 0,
        number: 1,
        reply,
    }
}

fn pair(alloc: Global, key: &[u8], value: &[u8]) -> Result<Pair, NoMemory> {
    Ok(Pair {
        key: Bytes::of(alloc, key)?,
        value: Bytes::of(alloc, value)?,
    })
}

// A pair of the final map in segment 0.
fn map_line(alloc: Global, key: &[u8], value: &[u8]) -> Result<MapLine, NoMemory> {
    Ok(MapLine {
        segment: 0,
        key: Bytes::of(alloc, key)?,
        value: Bytes::of(alloc, value)?,
    })
}

#[test]
fn whole_reports(rt: HostRuntime) -> Result<(), Fail> {
    let alloc = rt.alloc();
    let one = Bytes::of(alloc, b"1")?;
    let receipts = vec![in alloc; receipt(1, Reply::New), receipt(2, Reply::Value(one))]?;
    let report = Report {
        receipts: ListOf::from_vec(receipts),
        ends: ListOf::from_vec(Vec::new(alloc)),
        found: ListOf::from_vec(Vec::new(alloc)),
        map: ListOf::from_vec(vec![in alloc; map_line(alloc, b"a", b"1")?]?),
        extra: 0,
    };
    let text = b"call,0,1,0,0,1,new\ncall,0,2,0,0,1,value,1\nmap,0,a,1\nend,2,1,0\n";
    assert_eq!(rt; render(alloc, &report)?.as_slice(), text.as_slice());
    let empty = Report {
        receipts: ListOf::from_vec(Vec::new(alloc)),
        ends: ListOf::from_vec(Vec::new(alloc)),
        found: ListOf::from_vec(Vec::new(alloc)),
        map: ListOf::from_vec(Vec::new(alloc)),
        extra: 0,
    };
    assert_eq!(rt;
        render(alloc, &empty)?.as_slice(),
        b"end,0,0,0\n".as_slice()
    );
    Ok(())
}

// Whether a report of this one answer has these fields for it, and then the end record.
fn shows(alloc: Global, reply: Reply, fields: &[u8]) -> Result<bool, NoMemory> {
    let report = Report {
        receipts: ListOf::from_vec(vec![in alloc; receipt(1, reply)]?),
        ends: ListOf::from_vec(Vec::new(alloc)),
        found: ListOf::from_vec(Vec::new(alloc)),
        map: ListOf::from_vec(Vec::new(alloc)),
        extra: 0,
    };
    let mut text = Vec::from_slice(alloc, b"call,0,1,0,0,1,")?;
    text.extend_from_slice(fields)?;
    text.extend_from_slice(b"\nend,1,0,0\n")?;
    Ok(render(alloc, &report)?.as_slice() == text.as_slice())
}

#[test]
fn answers(rt: HostRuntime) -> Result<(), Fail> {
    let alloc = rt.alloc();
    for (reply, fields) in [
        (Reply::New, b"new".as_slice()),
        (Reply::Replaced, b"replaced"),
        (Reply::Missing, b"missing"),
        (Reply::Differs, b"differs"),
        (Reply::Removed, b"removed"),
        (Reply::FullChain, b"full-chain"),
        (Reply::FullSpent, b"full-spent"),
        (Reply::Worn, b"worn"),
        (Reply::Count(3), b"count,3"),
        (Reply::SweptAll, b"swept-all"),
    ] {
        assert!(rt; shows(alloc, reply, fields)?);
    }
    assert!(rt; shows(alloc, Reply::Kept(Bytes::of(alloc, b"v")?), b"kept,v")?);
    assert!(rt; shows(alloc, Reply::Value(Bytes::of(alloc, b"v")?), b"value,v")?);
    assert!(rt; shows(alloc, Reply::Value(Bytes::of(alloc, b"")?), b"value,")?);
    assert!(rt; shows(alloc, Reply::Swept(Bytes::of(alloc, b"k")?), b"swept,k")?);
    let pairs = vec![in alloc; pair(alloc, b"a", b"1")?, pair(alloc, b"ba", b"2")?]?;
    assert!(rt;
        shows(
            alloc,
            Reply::Pairs(PairList::from_vec(pairs)),
            b"pairs,a,1,ba,2"
        )?
    );
    Ok(())
}

#[test]
fn quotes(rt: HostRuntime) -> Result<(), Fail> {
    let alloc = rt.alloc();
    for (key, value, line) in [
        (
            b"a,b".as_slice(),
            b"x\"y".as_slice(),
            b"map,0,\"a,b\",\"x\"\"y\"\n".as_slice(),
        ),
        (b"a", b"", b"map,0,a,\n"),
        (b"a", b"x\ny", b"map,0,a,\"x\ny\"\n"),
    ] {
        let report = Report {
            receipts: ListOf::from_vec(Vec::new(alloc)),
            ends: ListOf::from_vec(Vec::new(alloc)),
            found: ListOf::from_vec(Vec::new(alloc)),
            map: ListOf::from_vec(vec![in alloc; map_line(alloc, key, value)?]?),
            extra: 0,
        };
        let mut text = Vec::from_slice(alloc, line)?;
        text.extend_from_slice(b"end,0,1,0\n")?;
        assert_eq!(rt; render(alloc, &report)?.as_slice(), text.as_slice());
        assert_eq!(rt; render_map(alloc, report.map.as_slice())?.as_slice(), line);
    }
    Ok(())
}

/// Nothing was dropped.
const NO_DROPS: Drops = Drops {
    range: 0,
    lengths: 0,
    checksum: 0,
    padding: 0,
    segment: 0,
    fingerprint: 0,
    duplicate: 0,
    overlap: 0,
    allowance: 0,
};

#[test]
fn ends_and_what_was_found(rt: HostRuntime) -> Result<(), Fail> {
    let alloc = rt.alloc();
    let end = |caller, line, how| CallerEnd { caller, line, how };
    let torn = SegFound {
        segment: 0,
        kept: 2,
        drops: Drops {
            checksum: 1,
            duplicate: 3,
            allowance: 2,
            ..NO_DROPS
        },
        lock: 1 << 31,
        in_flight: true,
        cut: false,
    };
    let held = SegFound {
        segment: 1,
        kept: 0,
        drops: NO_DROPS,
        lock: (1 << 30) + 5,
        in_flight: false,
        cut: true,
    };
    let report = Report {
        receipts: ListOf::from_vec(Vec::new(alloc)),
        ends: ListOf::from_vec(vec![in alloc; end(0, 4, How::Dead), end(63, 65536, How::Stopped)]?),
        found: ListOf::from_vec(vec![in alloc; torn, held]?),
        map: ListOf::from_vec(Vec::new(alloc)),
        extra: 7,
    };
    let text =
        b"dead,0,4\nstopped,63,65536\nfound,0,2,0,0,1,1,0\ndropped,0,checksum,1\ndropped,0,duplicate,3\ndropped,0,allowance,2\nfound,1,0,5,1,0,0,1\nend,0,0,7\n";
    assert_eq!(rt; render(alloc, &report)?.as_slice(), text.as_slice());
    Ok(())
}
