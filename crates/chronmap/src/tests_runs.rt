//! Runs of one caller: worked examples, as texts.

use crate::tests_calls::{ONE_TIER, prints, run};
use std::alloc::Global;
use std::test::Fail;

#[test]
fn records_are_answered_in_order(rt: HostRuntime) -> Result<(), Fail> {
    let table: [(&[u8], &[u8]); 5] = [
        (b"", b"end,0,0,0\n"),
        (
            b"0,put,a,1\n0,get,a\n",
            b"call,0,1,0,0,1,new\ncall,0,2,0,0,1,value,1\nmap,0,a,1\nend,2,1,0\n",
        ),
        (
            b"0,put,a,1\n0,put-if-absent,a,2\n0,replace-if,a,9,3\n0,remove-if,a,1\n0,replace,a,5\n",
            b"call,0,1,0,0,1,new\ncall,0,2,0,0,1,kept,1\ncall,0,3,0,0,1,differs\ncall,0,4,0,0,2,removed\ncall,0,5,0,0,2,missing\nend,5,0,0\n",
        ),
        (
            b"0,put,a,1\n0,put,ba,2\n0,put,bba,3\n0,list,0\n0,count,0\n",
            b"call,0,1,0,0,1,new\ncall,0,2,0,0,2,new\ncall,0,3,0,0,3,new\ncall,0,4,0,0,3,pairs,a,1,ba,2,bba,3\ncall,0,5,0,0,3,count,3\nmap,0,a,1\nmap,0,ba,2\nmap,0,bba,3\nend,5,3,0\n",
        ),
        (
            b"0,put,a,\n0,get,a\n",
            b"call,0,1,0,0,1,new\ncall,0,2,0,0,1,value,\nmap,0,a,\nend,2,1,0\n",
        ),
    ];
    for (script, report) in table {
        assert!(rt; prints(&rt, rt.alloc(), script, 0, report)?);
    }
    Ok(())
}

// The three keys have one home.
#[test]
fn keys_of_one_home_are_kept_apart(rt: HostRuntime) -> Result<(), Fail> {
    let table: [(&[u8], &[u8]); 2] = [
        (
            b"0,put,a,1\n0,put,ba,2\n0,put,bba,3\n",
            b"call,0,1,0,0,1,new\ncall,0,2,0,0,2,new\ncall,0,3,0,0,3,new\nmap,0,a,1\nmap,0,ba,2\nmap,0,bba,3\nend,3,3,0\n",
        ),
        (
            b"0,put,a,1\n0,put,ba,2\n0,put,bba,3\n0,remove,a\n0,get,bba\n",
            b"call,0,1,0,0,1,new\ncall,0,2,0,0,2,new\ncall,0,3,0,0,3,new\ncall,0,4,0,0,4,removed\ncall,0,5,0,0,4,value,3\nmap,0,ba,2\nmap,0,bba,3\nend,5,2,0\n",
        ),
    ];
    for (script, report) in table {
        assert!(rt; prints(&rt, rt.alloc(), script, 0, report)?);
    }
    Ok(())
}

// In place, and where the next chunk is another key's.
#[test]
fn a_longer_value_replaces_one(rt: HostRuntime) -> Result<(), Fail> {
    let table: [(&[u8], &[u8]); 2] = [
        (
            b"0,put,a,1\n0,put,a,123456789\n",
            b"call,0,1,0,0,1,new\ncall,0,2,0,0,2,replaced\nmap,0,a,123456789\nend,2,1,0\n",
        ),
        (
            b"0,put,a,1\n0,put,b,1\n0,put,a,123456789\n",
            b"call,0,1,0,0,1,new\ncall,0,2,0,0,2,new\ncall,0,3,0,0,3,replaced\nmap,0,a,123456789\nmap,0,b,1\nend,3,2,0\n",
        ),
    ];
    for (script, report) in table {
        assert!(rt; prints(&rt, rt.alloc(), script, 0, report)?);
    }
    Ok(())
}

#[test]
fn a_sweep_removes_one_key_a_part(rt: HostRuntime) -> Result<(), Fail> {
    let script = b"0,put,a,1\n0,put,ba,2\n0,put,bba,3\n0,sweep,0,b\n";
    let report =
        b"call,0,1,0,0,1,new\ncall,0,2,0,0,2,new\ncall,0,3,0,0,3,new\ncall,0,4,1,0,4,swept,ba\ncall,0,4,2,0,5,swept,bba\ncall,0,4,3,0,5,swept-all\nmap,0,a,1\nend,6,1,0\n";
    assert!(rt; prints(&rt, rt.alloc(), script, 0, report)?);
    Ok(())
}

// A script that puts keys `k00` to `k63`, each with the value `1`, and its answers.
fn puts(alloc: Global) -> Result<(String, String), Fail> {
    let mut script = String::new(alloc);
    let mut calls = String::new(alloc);
    for key in 0u32..64 {
        script.push_str(&format!(in alloc; "0,put,k{key:02},1\n")?)?;
        let line = key + 1;
        calls.push_str(&format!(in alloc; "call,0,{line},0,0,{line},new\n")?)?;
    }
    Ok((script, calls))
}

// The lines of the map of these keys but the ones that are gone.
fn pairs_but(alloc: Global, gone: &[u32]) -> Result<String, Fail> {
    let mut pairs = String::new(alloc);
    for key in 0u32..64 {
        if !gone.contains(&key) {
            pairs.push_str(&format!(in alloc; "map,0,k{key:02},1\n")?)?;
        }
    }
    Ok(pairs)
}

#[test]
fn a_full_chain_takes_a_tier_more_where_it_may(rt: HostRuntime) -> Result<(), Fail> {
    let alloc = rt.alloc();
    let table = [
        (
            ONE_TIER,
            "call,0,65,0,0,64,full-chain\n",
            "",
            "end,65,64,0\n",
        ),
        (
            "1,2,64,4,1",
            "call,0,65,0,0,65,new\n",
            "map,0,k64,1\n",
            "end,65,65,1\n",
        ),
        (
            "1,2,64,4,0",
            "call,0,65,0,0,64,full-spent\n",
            "",
            "end,65,64,0\n",
        ),
    ];
    let (mut script, calls) = puts(alloc)?;
    script.push_str("0,put,k64,1\n")?;
    let pairs = pairs_but(alloc, &[])?;
    for (numbers, answer, pair, end) in table {
        let report = format!(in alloc; "{calls}{answer}{pairs}{pair}{end}")?;
        let (status, sink) = run(&rt, alloc, numbers, script.as_bytes())?;
        assert_eq!(rt; status, 0);
        assert!(rt; sink.bytes() == report.as_bytes());
    }
    Ok(())
}

// The value needs two chunks beside each other.
#[test]
fn chunks_apart_are_no_room(rt: HostRuntime) -> Result<(), Fail> {
    let alloc = rt.alloc();
    let table = [
        (20u32, "call,0,67,0,0,66,full-chain\n", "", "end,67,62,0\n"),
        (
            11,
            "call,0,67,0,0,67,new\n",
            "map,0,big,123456789\n",
            "end,67,63,0\n",
        ),
    ];
    for (other, answer, pair, end) in table {
        let (mut script, calls) = puts(alloc)?;
        script.push_str(&format!(in alloc;
            "0,remove,k10\n0,remove,k{other}\n0,put,big,123456789\n"
        )?)?;
        let pairs = pairs_but(alloc, &[10, other])?;
        let removed = "call,0,65,0,0,65,removed\ncall,0,66,0,0,66,removed\n";
        let report = format!(in alloc; "{calls}{removed}{answer}{pair}{pairs}{end}")?;
        assert!(rt; prints(&rt, alloc, script.as_bytes(), 0, report.as_bytes())?);
    }
    Ok(())
}

// A text of so many letters.
fn letters(alloc: Global, count: u32) -> Result<String, Fail> {
    let mut text = String::new(alloc);
    for _ in 0..count {
        text.push_str("k")?;
    }
    Ok(text)
}

// It needs 129 chunks of 4 words, and 33 of 16.
#[test]
fn a_value_of_4096_bytes_needs_larger_chunks(rt: HostRuntime) -> Result<(), Fail> {
    let alloc = rt.alloc();
    let value = letters(alloc, 4096)?;
    let script = format!(in alloc; "0,put,a,{value}\n")?;
    let refusal = b"refused,script,1,too-large\n";
    assert!(rt; prints(&rt, alloc, script.as_bytes(), 3, refusal)?);
    let (status, sink) = run(&rt, alloc, "1,1,64,16,0", script.as_bytes())?;
    let report = format!(in alloc; "call,0,1,0,0,1,new\nmap,0,a,{value}\nend,1,1,0\n")?;
    assert_eq!(rt; status, 0);
    assert!(rt; sink.bytes() == report.as_bytes());
    Ok(())
}

#[test]
fn a_key_has_256_bytes_at_most(rt: HostRuntime) -> Result<(), Fail> {
    let alloc = rt.alloc();
    let key = letters(alloc, 256)?;
    let script = format!(in alloc; "0,put,{key},1\n")?;
    let report = format!(in alloc; "call,0,1,0,0,1,new\nmap,0,{key},1\nend,1,1,0\n")?;
    assert!(rt; prints(&rt, alloc, script.as_bytes(), 0, report.as_bytes())?);
    let script = format!(in alloc; "0,put,{key}k,1\n")?;
    let refusal = b"refused,script,1,too-large\n";
    assert!(rt; prints(&rt, alloc, script.as_bytes(), 3, refusal)?);
    Ok(())
}
