//! Some hundred scripts of many callers, on threads.

ghost use Rattle.std.specs.Prelude.{◌<◌};
ghost use Rattle.cm_script.specs.Scripts.{IsFor};

use crate::draws::{Draws, Mix, script_of};
use crate::histories::judge_segment;
use crate::orders::judge_order;
use cm_geo::Geo;
use cm_run::{KillGates, TurnGates, run_script};
use cm_script::{Report, Script, read_script};
use cm_words::Words;
use std::alloc::Global;
use std::sync::Wait;
use std::test::Fail;
use std::thread::Threads;

/// Judges a report of a run from an empty map of which nobody died.
fn judge(alloc: Global, geo: &Geo, script: &Script, report: &Report) -> Result<(), Fail>
    requires { IsFor geo.now script.now }
{
    let receipts = report.receipts.as_slice();
    let map = report.map.as_slice();
    judge_order(script, receipts)?;
    let mut extra = 0u32;
    for segment in 0..geo.segments() {
        let more = judge_segment(alloc, geo, script, receipts, map, segment)?;
        extra = extra.saturating_add(more);
    }
    if extra != report.extra || !report.ends.as_slice().is_empty() {
        return Err(Fail::new("the extra tiers are others"));
    }
    Ok(())
}

/// Runs scripts drawn from a start on, and judges each report.
fn run_and_judge<R: Threads + Wait + Sync>(
    rt: &R,
    alloc: Global,
    numbers: [u32; 5],
    mix: Mix,
    scripts: u32,
) -> Result<(), Fail> {
    let [segments, tiers, chunks, chunk_words, extra] = numbers;
    let geo = Geo::new(segments, tiers, chunks, chunk_words, extra)?;
    let mut draws = Draws { state: 7 };
    for _ in 0..scripts {
        let text = script_of(alloc, &mut draws, mix)?;
        let script = read_script(alloc, text.as_slice(), &geo)?;
        let words = Words::empty(alloc, &geo)?;
        cm_store::empty_words_are_lawful();
        let mut gates = KillGates::new();
        let outcome = run_script(rt, alloc, words, &script, &[], &mut gates)?;
        judge(alloc, &geo, &script, &outcome.report)?;
    }
    Ok(())
}

#[test]
fn callers_of_one_segment(rt: HostRuntime) -> Result<(), Fail> {
    let mix = Mix {
        callers: 64,
        records: 400,
        keys: 100,
        segments: 1,
        longs: 4,
    };
    run_and_judge(&rt, rt.alloc(), [1, 4, 64, 4, 2], mix, 60)
}

#[test]
fn callers_of_sixty_four_segments(rt: HostRuntime) -> Result<(), Fail> {
    let mix = Mix {
        callers: 64,
        records: 600,
        keys: 400,
        segments: 64,
        longs: 8,
    };
    run_and_judge(&rt, rt.alloc(), [64, 2, 64, 4, 20], mix, 40)
}

const FEW: Mix = Mix {
    callers: 4,
    records: 600,
    keys: 200,
    segments: 1,
    longs: 1,
};

#[test]
fn a_few_callers_of_a_full_chain(rt: HostRuntime) -> Result<(), Fail> {
    run_and_judge(&rt, rt.alloc(), [1, 1, 64, 4, 0], FEW, 20)
}

#[test]
fn a_few_callers_where_all_tiers_are_given(rt: HostRuntime) -> Result<(), Fail> {
    run_and_judge(&rt, rt.alloc(), [1, 2, 64, 4, 0], FEW, 20)
}

#[test]
fn two_callers_run_beside_each_other(rt: HostRuntime) -> Result<(), Fail> {
    let alloc = rt.alloc();
    let geo = Geo::new(1, 2, 64, 4, 0)?;
    let script = read_script(alloc, b"0,put,a,1\n1,put,b,2\n", &geo)?;
    let words = Words::empty(alloc, &geo)?;
    cm_store::empty_words_are_lawful();
    let mut gates = TurnGates::new(alloc, 100_000_000)?;
    let outcome = run_script(&rt, alloc, words, &script, &[], &mut gates)?;
    assert!(rt; !gates.timed_out());
    judge(alloc, &geo, &script, &outcome.report)
}
