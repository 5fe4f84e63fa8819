//! Scripts that are read, and those that are refused.

use cm_geo::Geo;
use cm_plain::{Bytes, NoMemory, Op};
use cm_script::{LineCause, ScriptStop, read_script};
use std::alloc::{AllocError, Global};
use std::test::Fail;

// A text and then so many of a byte.
fn padded(alloc: Global, prefix: &[u8], byte: u8, count: usize) -> Result<Vec<u8>, AllocError> {
    let mut text = Vec::from_slice(alloc, prefix)?;
    for _ in 0..count {
        text.push(byte)?;
    }
    Ok(text)
}

fn put(alloc: Global, key: &[u8], value: &[u8]) -> Result<Op, NoMemory> {
    let key = Bytes::of(alloc, key)?;
    let value = Bytes::of(alloc, value)?;
    Ok(Op::Put { key, value })
}

// The operation of the only line of a text.
fn only_op(alloc: Global, text: &[u8]) -> Result<Option<Op>, Fail> {
    let script = read_script(alloc, text, &Geo::new(1, 1, 64, 4, 0)?)?;
    if script.len() != 1 {
        return Ok(None);
    }
    Ok(Some(script.line(0).op.clone()?))
}

#[test]
fn reads_two_lines(rt: HostRuntime) -> Result<(), Fail> {
    let geo = Geo::new(1, 1, 64, 4, 0)?;
    let script = read_script(rt.alloc(), b"0,put,a,1\n0,get,a\n", &geo)?;
    assert_eq!(rt; script.len(), 2);
    assert_eq!(rt; script.line(0).caller, 0);
    assert_eq!(rt; script.line(0).op, put(rt.alloc(), b"a", b"1")?);
    assert_eq!(rt; script.line(1).caller, 0);
    let key = Bytes::of(rt.alloc(), b"a")?;
    assert_eq!(rt; script.line(1).op, Op::Get { key });
    Ok(())
}

#[test]
fn refuses_the_first_bad_line(rt: HostRuntime) -> Result<(), Fail> {
    let geo = Geo::new(1, 1, 64, 4, 0)?;
    let long_key = padded(rt.alloc(), b"0,get,", b'k', 257)?;
    let large = padded(rt.alloc(), b"0,put,a,", b'v', 4096)?;
    let long_value = padded(rt.alloc(), b"0,put,a,", b'v', 4097)?;
    let cases = [
        (b"0,get".as_slice(), 1, LineCause::Csv),
        (b"0,put,a,1,2,3", 1, LineCause::Csv),
        (b"64,get,a", 1, LineCause::Caller),
        (b"00,get,a", 1, LineCause::Caller),
        (b"0,frob,a", 1, LineCause::Op),
        (b"0,put,,1", 1, LineCause::Argument),
        (b"0,get,a,b", 1, LineCause::Argument),
        (long_key.as_slice(), 1, LineCause::TooLarge),
        (large.as_slice(), 1, LineCause::TooLarge),
        (long_value.as_slice(), 1, LineCause::TooLarge),
        (b"0,count,1", 1, LineCause::Argument),
        (b"0,count,00", 1, LineCause::Argument),
        (b"0,get,a\n64,get,a\n0,get", 2, LineCause::Caller),
    ];
    for (text, line, cause) in cases {
        let found = read_script(rt.alloc(), text, &geo).err();
        let refused = Some(ScriptStop::Refused { line, cause });
        assert_eq!(rt; found, refused, "at {text:?}");
    }
    Ok(())
}

#[test]
fn reads_quoted_fields(rt: HostRuntime) -> Result<(), Fail> {
    let alloc = rt.alloc();
    let cases = [
        (
            b"0,put,\"a,b\",\"x\"\"y\"".as_slice(),
            b"a,b".as_slice(),
            b"x\"y".as_slice(),
        ),
        (b"0,put,a,\"\n\"\"\r\xff\"\n", b"a", b"\n\"\r\xff"),
        (b"\n\r\n0,put,a,1\n\n", b"a", b"1"),
    ];
    for (text, key, value) in cases {
        let wanted = Some(put(alloc, key, value)?);
        assert_eq!(rt; only_op(alloc, text)?, wanted, "at {text:?}");
    }
    Ok(())
}

#[test]
fn takes_no_more_than_the_most_records(rt: HostRuntime) -> Result<(), Fail> {
    let geo = Geo::new(1, 1, 64, 4, 0)?;
    for (first, count, found) in [
        (b"0,get,a\n".as_slice(), 65_536, None),
        (b"0,get,a\n", 65_537, Some(ScriptStop::TooLong)),
        (b"0,get\n", 65_537, Some(ScriptStop::TooLong)),
    ] {
        let mut text = Vec::from_slice(rt.alloc(), first)?;
        for _ in 1..count {
            text.extend_from_slice(b"0,get,a\n")?;
        }
        assert_eq!(rt;
            read_script(rt.alloc(), text.as_slice(), &geo).err(),
            found,
            "at {count}"
        );
    }
    Ok(())
}
