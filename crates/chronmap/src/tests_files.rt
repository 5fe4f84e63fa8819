//! Commands on the maps in files: saved, run again, checked, printed, recovered; and generated runs.

use crate::memory::{SliceSource, VecSink};
use crate::serve::offline_words;
use crate::tests_calls::{ONE_TIER, call_in, words};
use cm_image::MapVault;
use std::alloc::Global;
use std::sync::Wait;
use std::test::Fail;
use std::thread::Threads;

// The script of one put and one get, and its report.
const SCRIPT: &[u8] = b"0,put,a,1\n0,get,a\n";

const REPORT: &[u8] = b"call,0,1,0,0,1,new\ncall,0,2,0,0,1,value,1\nmap,0,a,1\nend,2,1,0\n";

// How many bytes the image of one segment of one tier has.
const IMAGE: usize = 3208;

// Words over these files have this status and give this text. A source that would fail is given where there is no
// script.
fn gives<T: Threads + Wait + Sync>(
    rt: &T,
    alloc: Global,
    vault: &mut MapVault,
    texts: &[&str],
    script: Option<&[u8]>,
    status: u8,
    text: &[u8],
) -> Result<(), Fail> {
    let mut failing = Vec::new(alloc);
    if script.is_none() {
        failing.push(0u32)?;
    }
    let mut source = SliceSource::new(script.unwrap_or(b""), 5, failing);
    let mut sink = VecSink::new(alloc, 7, Vec::new(alloc));
    let found = call_in(rt, alloc, texts, &mut source, &mut sink, vault)?;
    if found == status && sink.bytes() == text {
        Ok(())
    } else {
        Err(Fail::new("another status, or another text"))
    }
}

// Files of which one, `m`, was saved by the script's run on one segment of one tier.
fn saved<T: Threads + Wait + Sync>(
    rt: &T,
    alloc: Global,
    failing: Vec<u32>,
) -> Result<MapVault, Fail> {
    let mut vault = MapVault::new(alloc, Vec::new(alloc));
    let run = ["run", "--geo", ONE_TIER, "--save", "m"];
    gives(rt, alloc, &mut vault, &run, Some(SCRIPT), 0, REPORT)?;
    with_file(alloc, failing, vault.file("m").unwrap_or(b""))
}

// Files of which one, `m`, has these bytes.
fn with_file(alloc: Global, failing: Vec<u32>, bytes: &[u8]) -> Result<MapVault, Fail> {
    let mut vault = MapVault::new(alloc, failing);
    vault.put("m", bytes)?;
    Ok(vault)
}

// The file's bytes, of which one is another.
fn changed(alloc: Global, file: &[u8], at: usize, byte: u8) -> Result<Vec<u8>, Fail> {
    let mut bytes = file.to_vec(alloc)?;
    if at >= bytes.len() {
        return Err(Fail::new("no such byte"));
    }
    bytes[at] = byte;
    Ok(bytes)
}

#[test]
fn a_saved_map_is_checked_and_printed(rt: HostRuntime) -> Result<(), Fail> {
    let alloc = rt.alloc();
    let mut vault = saved(&rt, alloc, Vec::new(alloc))?;
    assert_eq!(rt; vault.file("m").unwrap_or(b"").len(), IMAGE);
    let table: [(&[&str], &[u8]); 2] = [
        (&["check", "m"], b"lawful\n"),
        (&["print", "m"], b"map,0,a,1\nend,0,1,0\n"),
    ];
    for (texts, text) in table {
        gives(&rt, alloc, &mut vault, texts, None, 0, text)?;
    }
    Ok(())
}

#[test]
fn a_saved_map_is_run_again(rt: HostRuntime) -> Result<(), Fail> {
    let alloc = rt.alloc();
    let mut vault = saved(&rt, alloc, Vec::new(alloc))?;
    let table: [(&[&str], Option<&[u8]>, &[u8]); 2] = [
        (
            &["run", "--save=m", "--image=m"],
            Some(b"0,put,b,2\n"),
            b"call,0,1,0,0,2,new\nmap,0,a,1\nmap,0,b,2\nend,1,2,0\n",
        ),
        (&["print", "m"], None, b"map,0,a,1\nmap,0,b,2\nend,0,2,0\n"),
    ];
    for (texts, script, text) in table {
        gives(&rt, alloc, &mut vault, texts, script, 0, text)?;
    }
    Ok(())
}

// Another letter, another version, three segments, a reserved byte, a lock word.
#[test]
fn changed_files_are_refused(rt: HostRuntime) -> Result<(), Fail> {
    let alloc = rt.alloc();
    let vault = saved(&rt, alloc, Vec::new(alloc))?;
    let table: [(usize, u8, &[u8]); 5] = [
        (0, b'c', b"refused,image,magic\n"),
        (8, 2, b"refused,image,version\n"),
        (12, 3, b"refused,image,geometry\n"),
        (32, 1, b"refused,image,geometry\n"),
        (64, 1, b"refused,image,lock,0,0\n"),
    ];
    for (at, byte, text) in table {
        let bytes = changed(alloc, vault.file("m").unwrap_or(b""), at, byte)?;
        let mut other = with_file(alloc, Vec::new(alloc), bytes.as_slice())?;
        gives(&rt, alloc, &mut other, &["check", "m"], None, 7, text)?;
        gives(
            &rt,
            alloc,
            &mut other,
            &["run", "--image", "m"],
            None,
            7,
            text,
        )?;
    }
    Ok(())
}

// One byte more, and one less.
#[test]
fn files_of_another_length_are_refused(rt: HostRuntime) -> Result<(), Fail> {
    let alloc = rt.alloc();
    let vault = saved(&rt, alloc, Vec::new(alloc))?;
    let mut bytes = vault.file("m").unwrap_or(b"").to_vec(alloc)?;
    bytes.push(0)?;
    let mut longer = with_file(alloc, Vec::new(alloc), bytes.as_slice())?;
    gives(
        &rt,
        alloc,
        &mut longer,
        &["check", "m"],
        None,
        7,
        b"refused,image,long\n",
    )?;
    bytes.truncate(IMAGE - 1);
    let mut shorter = with_file(alloc, Vec::new(alloc), bytes.as_slice())?;
    gives(
        &rt,
        alloc,
        &mut shorter,
        &["check", "m"],
        None,
        7,
        b"refused,image,short\n",
    )
}

#[test]
fn a_missing_file_is_refused(rt: HostRuntime) -> Result<(), Fail> {
    let alloc = rt.alloc();
    let mut vault = MapVault::new(alloc, Vec::new(alloc));
    let text = b"refused,image,missing\n";
    gives(&rt, alloc, &mut vault, &["check", "absent"], None, 7, text)
}

// The change number is the last one.
#[test]
fn a_worn_segment_changes_no_more(rt: HostRuntime) -> Result<(), Fail> {
    let alloc = rt.alloc();
    let vault = saved(&rt, alloc, Vec::new(alloc))?;
    let some = changed(alloc, vault.file("m").unwrap_or(b""), 72, 0)?;
    let all = changed(alloc, some.as_slice(), 79, 128)?;
    let mut worn = with_file(alloc, Vec::new(alloc), all.as_slice())?;
    let report =
        b"call,0,1,0,0,4611686018427387904,worn\ncall,0,2,0,0,4611686018427387904,value,1\nmap,0,a,1\nend,2,1,0\n";
    let script: Option<&[u8]> = Some(b"0,put,a,2\n0,get,a\n");
    gives(
        &rt,
        alloc,
        &mut worn,
        &["run", "--image", "m"],
        script,
        0,
        report,
    )
}

// The bytes of an image of one segment of two tiers, with one extra, zero but for words 4 and 393: the tier at place 1
// links to itself.
fn image_with_loop(alloc: Global) -> Result<Vec<u8>, Fail> {
    let mut bytes = b"CMAPWORD".to_vec(alloc)?;
    for number in [1u32, 1, 2, 64, 4, 1] {
        bytes.extend_from_slice(&number.to_le_bytes())?;
    }
    bytes.resize(64 + 8 * 782, 0u8)?;
    let first = changed(alloc, bytes.as_slice(), 64 + 8 * 4, 1)?;
    changed(alloc, first.as_slice(), 64 + 8 * 393, 1)
}

// What was recovered is the first file but for the link of the tier at place 1, and the first file is as it was.
#[test]
fn a_chain_that_meets_itself_is_cut(rt: HostRuntime) -> Result<(), Fail> {
    let alloc = rt.alloc();
    let bytes = image_with_loop(alloc)?;
    let mut vault = with_file(alloc, Vec::new(alloc), bytes.as_slice())?;
    let table: [(&[&str], u8, &[u8]); 3] = [
        (&["check", "m"], 7, b"refused,image,chain,0,393\n"),
        (
            &["recover", "m", "n"],
            0,
            b"found,0,0,0,0,0,0,1\nend,0,0,1\n",
        ),
        (&["check", "n"], 0, b"lawful\n"),
    ];
    for (texts, status, text) in table {
        gives(&rt, alloc, &mut vault, texts, None, status, text)?;
    }
    let cut = changed(alloc, bytes.as_slice(), 64 + 8 * 393, 0)?;
    assert!(rt; vault.file("n").unwrap_or(b"") == cut.as_slice());
    assert!(rt; vault.file("m").unwrap_or(b"") == bytes.as_slice());
    Ok(())
}

// Each call of the vault fails in turn; no file is changed.
#[test]
fn a_vault_that_fails(rt: HostRuntime) -> Result<(), Fail> {
    let alloc = rt.alloc();
    let table: [(&[&str], u32); 5] = [
        (&["check", "m"], 3),
        (&["print", "m"], 3),
        (&["recover", "m", "n"], 4),
        (&["run", "--geo", ONE_TIER, "--save", "n"], 1),
        (&["run", "--image", "m", "--save", "n"], 4),
    ];
    for (texts, calls) in table {
        for failing in 0..calls {
            let mut vault = saved(&rt, alloc, vec![in alloc; failing]?)?;
            let text = b"refused,vault\n";
            gives(&rt, alloc, &mut vault, texts, Some(SCRIPT), 6, text)?;
            assert_eq!(rt; vault.file("m").unwrap_or(b"").len(), IMAGE);
            assert!(rt; vault.file("n").is_none());
        }
    }
    Ok(())
}

// A sink that fails leaves the map saved.
#[test]
fn a_map_is_saved_before_its_report(rt: HostRuntime) -> Result<(), Fail> {
    let alloc = rt.alloc();
    let texts = ["run", "--geo", ONE_TIER, "--save", "m"];
    let table: [(u32, &[u8]); 2] = [(0, b""), (1, b"call,0,1")];
    for (failing, text) in table {
        let mut vault = MapVault::new(alloc, Vec::new(alloc));
        let mut source = SliceSource::new(SCRIPT, 5, Vec::new(alloc));
        let mut sink = VecSink::new(alloc, 8, vec![in alloc; failing]?);
        let found = call_in(&rt, alloc, &texts, &mut source, &mut sink, &mut vault)?;
        assert_eq!(rt; found, 5);
        assert!(rt; sink.bytes() == text);
        let pairs = b"map,0,a,1\nend,0,1,0\n";
        gives(&rt, alloc, &mut vault, &["print", "m"], None, 0, pairs)?;
    }
    Ok(())
}

// No vault is called, and the threads have no say in it: twice the same.
#[test]
fn generated_runs_are_summed_up(rt: HostRuntime) -> Result<(), Fail> {
    let alloc = rt.alloc();
    let mut vault = MapVault::new(alloc, vec![in alloc; 0]?);
    let table: [(&[&str], &[u8]); 4] = [
        (
            &["make", "0", "5"],
            b"made,0,0,0,0,0,0,0,0,cbf29ce484222325\n",
        ),
        (
            &["make", "1", "1"],
            b"made,1,1,0,0,0,0,0,1,718fb0d12e4632e3\n",
        ),
        (
            &["make", "2000", "7"],
            b"made,2000,486,803,63,262,163,223,323,c9de2e9b5255a116\n",
        ),
        (
            &["make", "2000", "7"],
            b"made,2000,486,803,63,262,163,223,323,c9de2e9b5255a116\n",
        ),
    ];
    for (texts, text) in table {
        gives(&rt, alloc, &mut vault, texts, None, 0, text)?;
    }
    Ok(())
}

// Words that run something are none of those that run nothing, and neither the source nor the vault is called.
#[test]
fn words_that_run_nothing(rt: HostRuntime) -> Result<(), Fail> {
    let alloc = rt.alloc();
    let table: [(&[&str], u8, &[u8]); 5] = [
        (&["check", "m"], 0, b"lawful\n"),
        (&["print", "m"], 0, b"map,0,a,1\nend,0,1,0\n"),
        (&["run"], 2, b"refused,usage\n"),
        (&["make", "1", "1"], 2, b"refused,usage\n"),
        (&["check"], 2, b"refused,usage\n"),
    ];
    for (texts, status, text) in table {
        let mut vault = saved(&rt, alloc, Vec::new(alloc))?;
        let words = words(alloc, texts)?;
        let mut source = SliceSource::new(b"", 5, vec![in alloc; 0]?);
        let mut sink = VecSink::new(alloc, 7, Vec::new(alloc));
        let found = offline_words(alloc, words.as_slice(), &mut source, &mut sink, &mut vault);
        assert_eq!(rt; found, status);
        assert!(rt; sink.bytes() == text);
    }
    Ok(())
}
