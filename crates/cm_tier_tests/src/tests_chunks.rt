//! Runs of chunks in a tier of 128, which has two bit words.

ghost use Rattle.std.specs.Prelude.{◌≡◌, ◌+◌, ◌<◌, ◌≤◌, IfOk, OnOk};
ghost use Rattle.cm_geo.specs.Geometry.{IsGeoOf};

use cm_chunks::{clear, first_fit, free_after, set};
use cm_geo::Geo;
use cm_plain::Run;
use cm_words::{Dead, FixedMem, Fuse, KillFuse, PlainMem, Words};
use std::alloc::Global;
use std::process::Abort;
use std::test::Fail;

// The words of a map of one tier of 128 chunks with these bits.
#[tactic(auto, using(crate::proofs::Trials::segment_in_map))]
fn words_with(alloc: Global, bits: [u64; 2]) -> Result<Words, Fail>
    ensures { IfOk result (λ words. IsGeoOf words.geo 1 1 128 4 0) }
{
    let geo = Geo::new(1, 1, 128, 4, 0)?;
    let mut words = Words::empty(alloc, &geo)?;
    words.set(geo.bits_at(0, 0), bits[0]);
    words.set(geo.bits_at(0, 1), bits[1]);
    Ok(words)
}

// The two bit words of a tier of 128 chunks.
#[tactic(auto, using(crate::proofs::Trials::segment_in_map, crate::proofs::Trials::some_tier))]
fn bits_of(words: &Words) -> Option<[u64; 2]> {
    let geo = words.geo();
    if geo.chunks() != 128 {
        return None;
    }
    Some([words.get(geo.bits_at(0, 0)), words.get(geo.bits_at(0, 1))])
}

fn fit(words: &Words, chunks: u32) -> Result<Option<u32>, Dead>
    requires geo { IsGeoOf words.now.geo 1 1 128 4 0 }
    requires nonzero { 1 ≤ chunks }
    requires within_limit { chunks ≤ 64 }
{
    let mut mem = FixedMem::new(words, 0);
    first_fit(&mut mem, words.geo(), 0, chunks)
}

fn is_free(words: &Words, chunk: u32, chunks: u32) -> Result<bool, Dead>
    requires geo { IsGeoOf words.now.geo 1 1 128 4 0 }
    requires chunk { chunk ≤ 128 }
    requires nonzero { 1 ≤ chunks }
    requires within_limit { chunks ≤ 64 }
{
    let mut mem = FixedMem::new(words, 0);
    free_after(&mut mem, words.geo(), 0, chunk, chunks)
}

// Sets or clears a run, until the fuse dies.
#[tactic(auto, using(cm_words::proofs::StoreLists::may_store_each_free))]
fn turn<F: Fuse>(words: &mut Words, fuse: F, run: Run, sets: bool) -> Result<(), Dead>
    requires geo { IsGeoOf words.old.geo 1 1 128 4 0 }
    requires place { run.place ≡ 0 }
    requires nonzero { 1 ≤ run.chunks }
    requires within_limit { run.chunks ≤ 64 }
    requires inside { run.chunk + run.chunks ≤ 128 }
{
    let geo = *words.geo();
    let mut mem = PlainMem::free(words, 0, fuse);
    if sets {
        return set(&mut mem, &geo, run);
    }
    clear(&mut mem, &geo, run)
}

const ALL: u64 = u64::MAX;

#[test]
fn the_least_run_is_found(rt: HostRuntime) -> Result<(), Fail> {
    let rows = [
        // no chunk is taken
        ([0, 0], 64, Some(0)),
        // a run crosses the two words
        ([ALL >> 4, ALL << 4], 4, Some(60)),
        ([ALL >> 4, ALL << 4], 5, Some(60)),
        ([ALL >> 4, ALL << 4], 8, Some(60)),
        ([ALL >> 4, ALL << 4], 9, None),
        // a run of 64 begins in the middle of a word
        ([ALL >> 34, ALL << 30], 64, Some(30)),
        ([ALL >> 34, ALL << 29], 64, None),
        // no run
        ([ALL, ALL], 1, None),
        ([0xaaaa_aaaa_aaaa_aaaa, 0x5555_5555_5555_5555], 2, None),
        ([0xaaaa_aaaa_aaaa_aaaa, 0xaaaa_aaaa_aaaa_aaaa], 1, Some(0)),
        // exactly the last run of the tier
        ([ALL, ALL >> 8], 8, Some(120)),
        ([ALL, ALL >> 8], 9, None),
        // the first run that is long enough, of several in a word
        ([!0b1110_0111_1011_0110, ALL], 3, Some(7)),
        ([!0b1110_0111_1011_0110, 0], 5, Some(64)),
    ];
    for (bits, chunks, found) in rows {
        if chunks == 0 || chunks > 64 {
            panic!(rt; "no such run");
        }
        let words = words_with(rt.alloc(), bits)?;
        assert_eq!(rt; fit(&words, chunks), Ok(found), "of {bits:?}, {chunks}");
    }
    Ok(())
}

#[test]
fn the_chunks_behind_are_free_or_not(rt: HostRuntime) -> Result<(), Fail> {
    let rows = [
        ([0, 0], 127, 1, true),
        ([0, 0], 127, 2, false),
        ([0, 0], 128, 1, false),
        ([ALL >> 4, ALL << 4], 60, 8, true),
        ([ALL >> 4, ALL << 4], 60, 9, false),
        ([ALL >> 4, ALL << 4], 59, 2, false),
        ([ALL >> 4, ALL << 4], 60, 4, true),
        ([ALL >> 34, ALL << 30], 30, 64, true),
        ([ALL >> 34, ALL << 30], 31, 64, false),
        ([ALL, 0], 64, 64, true),
    ];
    for (bits, chunk, chunks, free) in rows {
        if chunk > 128 || chunks == 0 || chunks > 64 {
            panic!(rt; "no such run");
        }
        let words = words_with(rt.alloc(), bits)?;
        assert_eq!(rt;
            is_free(&words, chunk, chunks),
            Ok(free),
            "of {bits:?}, {chunk}, {chunks}"
        );
    }
    Ok(())
}

// Turns runs with a fuse that admits so many stores, and compares the two words after it.
fn compare(
    rt: &impl Abort,
    alloc: Global,
    before: [u64; 2],
    sets: bool,
    rows: &[(u32, u32, u32, bool, [u64; 2])],
) -> Result<(), Fail> {
    for (chunk, chunks, left, done, after) in rows {
        let (chunk, chunks, left) = (*chunk, *chunks, *left);
        if chunks == 0 || chunks > 64 || chunk > 128 - chunks {
            panic!(rt; "no such run");
        }
        let run = Run {
            place: 0,
            chunk,
            chunks,
        };
        let mut words = words_with(alloc, before)?;
        let found = turn(&mut words, KillFuse::Stores { left }, run, sets);
        assert_eq!(rt; found.is_ok(), *done, "of {run:?}, {left}");
        assert_eq!(rt; bits_of(&words), Some(*after), "of {run:?}, {left}");
    }
    Ok(())
}

#[test]
fn setting_a_run_is_stopped_at_each_of_its_stores(rt: HostRuntime) -> Result<(), Fail> {
    let rows = [
        (60, 8, 0, false, [1, 1 << 40]),
        (60, 8, 1, false, [1 | ALL << 60, 1 << 40]),
        (60, 8, 2, true, [1 | ALL << 60, 1 << 40 | 0xf]),
        (66, 3, 0, false, [1, 1 << 40]),
        (66, 3, 1, true, [1, 1 << 40 | 0b1_1100]),
        (0, 64, 1, true, [ALL, 1 << 40]),
    ];
    compare(&rt, rt.alloc(), [1, 1 << 40], true, &rows)
}

#[test]
fn clearing_a_run_is_stopped_at_each_of_its_stores(rt: HostRuntime) -> Result<(), Fail> {
    let rows = [
        (60, 8, 0, false, [ALL, ALL]),
        (60, 8, 1, false, [ALL >> 4, ALL]),
        (60, 8, 2, true, [ALL >> 4, ALL << 4]),
        (66, 3, 0, false, [ALL, ALL]),
        (66, 3, 1, true, [ALL, !0b1_1100]),
        (0, 64, 1, true, [0, ALL]),
    ];
    compare(&rt, rt.alloc(), [ALL, ALL], false, &rows)
}
