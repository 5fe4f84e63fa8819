//! Words that are taken and refused, scripts that are refused, and faults in mid-stream.

use crate::memory::{SliceSource, VecSink};
use crate::tests_calls::{ONE_TIER, call, call_on, prints, run};
use std::test::Fail;

// The words that run a script on one segment of one tier.
const RUN: [&str; 3] = ["run", "--geo", ONE_TIER];

// The source fails at its first call, so it isn't called.
#[test]
fn other_words_are_refused(rt: HostRuntime) -> Result<(), Fail> {
    let alloc = rt.alloc();
    let table: [&[&str]; 18] = [
        &[],
        &["frob"],
        &["run", "0:stores:1", "0:events:2"],
        &["run", "0:stores:1"],
        &["run", "--geo"],
        &["run", "--geo", "1,1,64,4"],
        &["run", "--geo", "1,1,64,4,"],
        &["run", "--geo", "1,1,64,4,0,"],
        &["run", "--geo", "1,1,64,4,00"],
        &["run", "--geo", "01,1,64,4,0"],
        &["run", "--geo", "+1,1,64,4,0"],
        &["run", "--geo", "1, 1,64,4,0"],
        &["run", "--geo", "1,1,64,4,4294967296"],
        &["run", "--geo", "1,1,64,4,0", "--"],
        &["run", "--geo=1,1,64,4"],
        &["run", "--geo", "1,1,64,4,0", "--image", "m"],
        &["make", "1", "--seed"],
        &["run", "--help"],
    ];
    for texts in table {
        let mut source = SliceSource::new(b"0,put,a,1\n", 5, vec![in alloc; 0]?);
        let mut sink = VecSink::new(alloc, 7, Vec::new(alloc));
        assert_eq!(rt; call(&rt, alloc, texts, &mut source, &mut sink)?, 2);
        assert!(rt; sink.bytes() == b"refused,usage\n".as_slice());
    }
    Ok(())
}

#[test]
fn numbers_of_no_geometry_are_refused(rt: HostRuntime) -> Result<(), Fail> {
    let alloc = rt.alloc();
    let table: [(&str, &[u8]); 8] = [
        ("3,1,64,4,0", b"refused,geometry,segments\n"),
        ("0,0,0,0,4294967295", b"refused,geometry,segments\n"),
        ("1,9,64,4,0", b"refused,geometry,tiers\n"),
        ("1,1,63,4,0", b"refused,geometry,chunks\n"),
        ("1,1,64,5,0", b"refused,geometry,chunk-words\n"),
        ("1,1,64,4,1", b"refused,geometry,allowance\n"),
        ("1,1,64,4,4294967295", b"refused,geometry,allowance\n"),
        ("64,8,4096,16,448", b"refused,geometry,too-many-words\n"),
    ];
    for (numbers, text) in table {
        let mut source = SliceSource::new(b"", 5, vec![in alloc; 0]?);
        let mut sink = VecSink::new(alloc, 7, Vec::new(alloc));
        let texts = ["run", "--geo", numbers];
        assert_eq!(rt; call(&rt, alloc, &texts, &mut source, &mut sink)?, 8);
        assert!(rt; sink.bytes() == text);
    }
    Ok(())
}

// The low four bits of the key's hash are 12.
#[test]
fn words_without_numbers_have_sixteen_segments(rt: HostRuntime) -> Result<(), Fail> {
    let (status, sink) = call_on(&rt, rt.alloc(), &["run"], b"0,put,a,1\n")?;
    assert_eq!(rt; status, 0);
    assert!(rt; sink.bytes() == b"call,0,1,0,12,1,new\nmap,12,a,1\nend,1,1,0\n".as_slice());
    Ok(())
}

#[test]
fn records_are_refused(rt: HostRuntime) -> Result<(), Fail> {
    let table: [(&[u8], &[u8]); 9] = [
        (b"0,get\n", b"refused,script,1,csv\n"),
        (b"0,put,a,1\n0,put,a,1,2,3\n", b"refused,script,2,csv\n"),
        (b"64,get,a\n", b"refused,script,1,caller\n"),
        (b"0,frob,a\n", b"refused,script,1,op\n"),
        (b"0,put,a\n", b"refused,script,1,argument\n"),
        (b"0,put,,1\n", b"refused,script,1,argument\n"),
        (b"0,get,\"\"\n", b"refused,script,1,argument\n"),
        (b"0,count,1\n", b"refused,script,1,argument\n"),
        (
            b"1,get,a\n63,sweep,0,\n0,sweep,a,a\n",
            b"refused,script,3,argument\n",
        ),
    ];
    for (script, text) in table {
        assert!(rt; prints(&rt, rt.alloc(), script, 3, text)?);
    }
    Ok(())
}

#[test]
fn too_many_records(rt: HostRuntime) -> Result<(), Fail> {
    let alloc = rt.alloc();
    let mut script = Vec::new(alloc);
    for _ in 0u32..65_537 {
        script.extend_from_slice(b"0,get,a\n")?;
    }
    let text = b"refused,script,0,too-long\n";
    assert!(rt; prints(&rt, alloc, script.as_slice(), 3, text)?);
    Ok(())
}

#[test]
fn a_source_that_fails(rt: HostRuntime) -> Result<(), Fail> {
    let alloc = rt.alloc();
    for failing in 0u32..3 {
        let mut source = SliceSource::new(b"0,put,a,1\n", 3, vec![in alloc; failing]?);
        let mut sink = VecSink::new(alloc, 7, Vec::new(alloc));
        assert_eq!(rt; call(&rt, alloc, &RUN, &mut source, &mut sink)?, 4);
        assert!(rt; sink.bytes() == b"refused,read\n".as_slice());
    }
    Ok(())
}

#[test]
fn a_sink_that_fails(rt: HostRuntime) -> Result<(), Fail> {
    let alloc = rt.alloc();
    let table: [(u32, &[u8]); 2] = [(0, b""), (1, b"call,0,1")];
    for (failing, text) in table {
        let mut source = SliceSource::new(b"0,put,a,1\n0,get,a\n", 3, Vec::new(alloc));
        let mut sink = VecSink::new(alloc, 8, vec![in alloc; failing]?);
        assert_eq!(rt; call(&rt, alloc, &RUN, &mut source, &mut sink)?, 5);
        assert!(rt; sink.bytes() == text);
    }
    Ok(())
}

// A sink that fails while a refusal is given leaves the refusal's status.
#[test]
fn a_refusal_that_fails(rt: HostRuntime) -> Result<(), Fail> {
    let alloc = rt.alloc();
    let mut source = SliceSource::new(b"", 1, Vec::new(alloc));
    let mut sink = VecSink::new(alloc, 8, vec![in alloc; 1]?);
    assert_eq!(rt; call(&rt, alloc, &["frob"], &mut source, &mut sink)?, 2);
    assert!(rt; sink.bytes() == b"refused,".as_slice());
    Ok(())
}

// A sink that takes a whole line is called once for it.
#[test]
fn a_refusal_in_one_piece(rt: HostRuntime) -> Result<(), Fail> {
    let alloc = rt.alloc();
    let mut source = SliceSource::new(b"0,frob,a,1\n", 5, Vec::new(alloc));
    let mut sink = VecSink::new(alloc, 64, vec![in alloc; 1]?);
    assert_eq!(rt; call(&rt, alloc, &RUN, &mut source, &mut sink)?, 3);
    assert!(rt; sink.bytes() == b"refused,script,1,op\n".as_slice());
    Ok(())
}

// Records with all that may stand in a script's fields are printed again.
#[test]
fn quoted_fields_are_printed_again(rt: HostRuntime) -> Result<(), Fail> {
    let table: [(&[u8], &[u8]); 2] = [
        (
            b"0,put,\"a,b\",\"x\"\"y\"\n",
            b"call,0,1,0,0,1,new\nmap,0,\"a,b\",\"x\"\"y\"\nend,1,1,0\n",
        ),
        (
            b"0,put,k,\"a\nb\"\"c\rd\xff\"\n0,get,k\n",
            b"call,0,1,0,0,1,new\ncall,0,2,0,0,1,value,\"a\nb\"\"c\rd\xff\"\nmap,0,k,\"a\nb\"\"c\rd\xff\"\nend,2,1,0\n",
        ),
    ];
    for (script, report) in table {
        let (status, sink) = run(&rt, rt.alloc(), ONE_TIER, script)?;
        assert_eq!(rt; status, 0);
        assert!(rt; sink.bytes() == report);
    }
    Ok(())
}
