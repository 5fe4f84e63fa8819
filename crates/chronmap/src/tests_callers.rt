//! Runs of several callers beside each other.

use crate::memory::{SliceSource, VecSink};
use crate::serve::run_words;
use crate::tests_calls::{ONE_TIER, call_on, run, words};
use cm_image::MapVault;
use cm_run::TurnGates;
use std::alloc::Global;
use std::str;
use std::test::Fail;

// The lines of a report.
fn lines_of(alloc: Global, sink: &VecSink) -> Result<Vec<&str>, Fail> {
    let Ok(report) = str::from_utf8(sink.bytes()) else {
        return Err(Fail::new("no text"));
    };
    Ok(report.lines().collect(alloc)?)
}

// The number and the answer of a line that begins like this.
fn answer_in<'a>(line: &'a str, front: &str) -> Option<(u32, &'a str)> {
    let (number, answer) = line.strip_prefix(front)?.split_once(',')?;
    let number = number.parse::<u32>().ok()?;
    Some((number, answer))
}

// Callers 0 and 1 put one key a hundred times each, with values of their own.
fn puts_of_one_key(alloc: Global) -> Result<String, Fail> {
    let mut script = String::new(alloc);
    for at in 0..100u32 {
        let other = 100 + at;
        script.push_str(&format!(in alloc; "0,put,k,{at}\n1,put,k,{other}\n")?)?;
    }
    Ok(script)
}

// The value that was put last, where the lines have each number once and in each caller's order.
fn last_put(alloc: Global, lines: &[&str]) -> Result<Option<u32>, Fail> {
    let mut seen = [false; 201];
    let mut value = None;
    for caller in 0..2u32 {
        let mut last = 0;
        for at in 0..100u32 {
            let line = 2 * at + caller + 1;
            let front = format!(in alloc; "call,{caller},{line},0,0,")?;
            let text = lines
                .get((100 * caller + at) as usize)
                .copied()
                .unwrap_or("");
            let Some((number, answer)) = answer_in(text, front.as_str()) else {
                return Ok(None);
            };
            let expected = if number == 1 { "new" } else { "replaced" };
            if number <= last || number > 200 || seen[number as usize] || answer != expected {
                return Ok(None);
            }
            seen[number as usize] = true;
            last = number;
            if number == 200 {
                value = Some(100 * caller + at);
            }
        }
    }
    Ok(value)
}

// Whether a report is of one history of those puts.
fn is_one_history(alloc: Global, sink: &VecSink) -> Result<bool, Fail> {
    let lines = lines_of(alloc, sink)?;
    let Some(value) = last_put(alloc, lines.as_slice())? else {
        return Ok(false);
    };
    let end = format!(in alloc; "\nmap,0,k,{value}\nend,200,1,0\n")?;
    Ok(lines.len() == 202 && sink.bytes().ends_with(end.as_bytes()))
}

#[test]
fn two_callers_have_one_history(rt: HostRuntime) -> Result<(), Fail> {
    let alloc = rt.alloc();
    let script = puts_of_one_key(alloc)?;
    let (status, sink) = run(&rt, alloc, ONE_TIER, script.as_bytes())?;
    assert_eq!(rt; status, 0);
    assert!(rt; is_one_history(alloc, &sink)?);
    Ok(())
}

// Each waits for the other's first event: where one ran after the other, one of them would wait in vain.
#[test]
fn two_callers_run_beside_each_other(rt: HostRuntime) -> Result<(), Fail> {
    let alloc = rt.alloc();
    let script = puts_of_one_key(alloc)?;
    let words = words(alloc, &["run", "--geo", ONE_TIER])?;
    let mut source = SliceSource::new(script.as_bytes(), 5, Vec::new(alloc));
    let mut sink = VecSink::new(alloc, 7, Vec::new(alloc));
    let mut vault = MapVault::new(alloc, Vec::new(alloc));
    let mut gates = TurnGates::new(alloc, 100_000_000)?;
    let status = run_words(
        &rt,
        alloc,
        words.as_slice(),
        &mut source,
        &mut sink,
        &mut vault,
        &mut gates,
    );
    assert_eq!(rt; status, 0);
    assert!(rt; !gates.timed_out());
    assert!(rt; is_one_history(alloc, &sink)?);
    Ok(())
}

// The callers of orders, the orders of each, and its records.
const CALLERS: u32 = 8;

const ORDERS: u32 = 500;

const RECORDS: u32 = 2000;

// What an order is for.
const PRICE: &str = "EURUSD:250000:1.0842";

// The operation of a record, what it answers where its order is there or isn't, and whether it is there then.
fn record_of(number: u32, there: bool) -> (&'static str, &'static str, bool) {
    match (number % 4 + number / ORDERS % 4) % 4 {
        0 | 1 if there => ("put", "replaced", true),
        0 | 1 => ("put", "new", true),
        2 if there => ("get", "value,EURUSD:250000:1.0842", true),
        2 => ("get", "missing", false),
        _ if there => ("remove", "removed", false),
        _ => ("remove", "missing", false),
    }
}

// Each caller has its records on orders of its own.
fn trades(alloc: Global) -> Result<String, Fail> {
    let mut script = String::new(alloc);
    for number in 0..RECORDS {
        let (verb, _, _) = record_of(number, true);
        let value = if verb == "put" {
            ",EURUSD:250000:1.0842"
        } else {
            ""
        };
        for caller in 0..CALLERS {
            let order = 10_001 + caller * 1000 + number % ORDERS;
            script.push_str(&format!(in alloc; "{caller},{verb},ORD-{order}{value}\n")?)?;
        }
    }
    Ok(script)
}

// What a line answers that begins like this, behind its segment and its number.
fn word_in<'a>(line: &'a str, front: &str) -> Option<&'a str> {
    let (_, number) = line.strip_prefix(front)?.split_once(',')?;
    let (_, answer) = number.split_once(',')?;
    Some(answer)
}

// Whether these lines are a caller's answers, as its script alone tells. Notes which of its orders are there then.
fn are_answers(
    alloc: Global,
    lines: &[&str],
    caller: u32,
    there: &mut [bool; 4000],
) -> Result<bool, Fail> {
    let caller = caller % CALLERS;
    for number in 0..RECORDS {
        let order = (caller * ORDERS + number % ORDERS) as usize;
        let (_, answer, is_there) = record_of(number, there[order]);
        there[order] = is_there;
        let line = number * CALLERS + caller + 1;
        let front = format!(in alloc; "call,{caller},{line},0,")?;
        let text = lines.get(number as usize).copied().unwrap_or("");
        if word_in(text, front.as_str()) != Some(answer) {
            return Ok(false);
        }
    }
    Ok(true)
}

// The order of a line of the map, counted over all callers.
fn order_in(line: &str) -> Option<usize> {
    let (_, pair) = line.strip_prefix("map,")?.split_once(",ORD-")?;
    let (order, value) = pair.split_once(',')?;
    let order = order.parse::<u32>().ok()?.checked_sub(10_001)?;
    if value == PRICE && order % 1000 < ORDERS {
        Some((order / 1000 * ORDERS + order % 1000) as usize)
    } else {
        None
    }
}

// Whether these are the lines of a map that has the orders that are there, each once, and nothing else.
fn is_map_of(lines: &[&str], there: &[bool; 4000]) -> bool {
    let mut left = *there;
    for line in lines {
        let Some(order) = order_in(line) else {
            return false;
        };
        if order >= 4000 || !left[order] {
            return false;
        }
        left[order] = false;
    }
    !left.contains(&true)
}

// Whether lines begin with the answers of all callers. Notes which orders are there then.
fn have_answers(alloc: Global, lines: &[&str], there: &mut [bool; 4000]) -> Result<bool, Fail> {
    for caller in 0..CALLERS {
        let from = caller as usize * 2000;
        if lines.len() < from + 2000 {
            return Ok(false);
        }
        if !are_answers(alloc, &lines[from..from + 2000], caller, there)? {
            return Ok(false);
        }
    }
    Ok(true)
}

// Whether those are the lines of the map behind all answers, and the last one counts them.
fn ends_with_map(alloc: Global, lines: &[&str], there: &[bool; 4000]) -> Result<bool, Fail> {
    if lines.len() <= 16_000 {
        return Ok(false);
    }
    let last = lines.len() - 1;
    let pairs = &lines[16_000..last];
    let end = format!(in alloc; "end,16000,{},0", pairs.len())?;
    Ok(is_map_of(pairs, there) && lines[last] == end.as_str())
}

// Whether a report is of the scripts of all callers, one after the other.
fn is_of_all_scripts(alloc: Global, sink: &VecSink) -> Result<bool, Fail> {
    let lines = lines_of(alloc, sink)?;
    let mut there = [false; 4000];
    if !have_answers(alloc, lines.as_slice(), &mut there)? {
        return Ok(false);
    }
    ends_with_map(alloc, lines.as_slice(), &there)
}

#[test]
fn eight_callers_have_orders_of_their_own(rt: HostRuntime) -> Result<(), Fail> {
    let alloc = rt.alloc();
    let script = trades(alloc)?;
    let (status, sink) = call_on(&rt, alloc, &["run"], script.as_bytes())?;
    assert_eq!(rt; status, 0);
    assert!(rt; is_of_all_scripts(alloc, &sink)?);
    Ok(())
}
