//! How many words the calls load that only load.

use crate::tests_caller::{fits, geo_of, words_after};
use cm_geo::hash;
use cm_segment::{Cursor, look, plan_put, walk};
use cm_words::{KillFuse, PlainMem, Words};
use std::test::Fail;

/// A call that only loads.
#[derive(Clone, Copy)]
enum Call {
    Look(&'static [u8]),
    PlanPut(&'static [u8], &'static [u8]),
    Walk(&'static [u8]),
}

/// Whether a call needs no more than so many events.
#[tactic(auto, using(cm_geo::proofs::Ranges::segments_range))]
fn ends_within(words: &mut Words, call: Call, left: u32) -> bool {
    let geo = *words.geo();
    let mut mem = PlainMem::free(words, 0, KillFuse::Events { left });
    match call {
        Call::Look(key) => look(&mut mem, &geo, key).is_ok(),
        Call::PlanPut(key, value) => {
            fits(&geo, key, value)
                && geo.segment_of(hash(key)) == 0
                && plan_put(&mut mem, &geo, key, value).is_ok()
        }
        Call::Walk(prefix) => {
            let start = Cursor { link: 0, slot: 0 };
            walk(&mut mem, &geo, start, prefix, &mut [0; 256]).is_ok()
        }
    }
}

/// The tiers of a map, changes of it, a call, and the number of its loads.
type Row = (u32, &'static [&'static str], Call, u32);

const THREE_KEYS: &[&str] = &["put a 1", "put ba 2", "put bba 3"];

/// The keys a, ba and bba begin their search at slot 12, and b at 37. An entry's key takes a load of its lengths, and
/// one for each word.
const ROWS: [Row; 16] = [
    (1, THREE_KEYS, Call::Look(b"a"), 3),
    (1, THREE_KEYS, Call::Look(b"ba"), 4),
    (1, THREE_KEYS, Call::Look(b"bba"), 5),
    (1, THREE_KEYS, Call::Look(b"b"), 1),
    (2, &["put-long f 64", "put a 1"], Call::Look(b"f"), 3),
    (2, &["put-long f 64", "put a 1"], Call::Look(b"a"), 5),
    (2, &["put-long f 64", "put a 1"], Call::Look(b"b"), 3),
    (8, &["put-long f 64", "put a 1"], Call::Look(b"b"), 4),
    // the bits of a tier, and those behind the key's entry, take one load
    (1, &[], Call::PlanPut(b"a", b"1"), 2),
    (1, &["put a 1"], Call::PlanPut(b"a", b"2"), 3),
    (1, &["put a 1"], Call::PlanPut(b"a", b"123456789"), 4),
    (
        1,
        &["put a 1", "put b 1"],
        Call::PlanPut(b"a", b"123456789"),
        5,
    ),
    (2, &["put-long f 64"], Call::PlanPut(b"a", b"1"), 3),
    (
        2,
        &["put-long f 64", "put a 1"],
        Call::PlanPut(b"b", b"1"),
        5,
    ),
    // 13 slots up to the first key, which begins otherwise, and one slot more
    (1, THREE_KEYS, Call::Walk(b"b"), 18),
    (2, &[], Call::Walk(b""), 129),
];

#[test]
fn no_word_is_loaded_without_need(rt: HostRuntime) -> Result<(), Fail> {
    for (number, (tiers, lines, call, loads)) in ROWS.iter().enumerate() {
        let mut words = words_after(rt.alloc(), &geo_of(*tiers)?, lines)?;
        assert!(rt;
            ends_within(&mut words, *call, *loads),
            "row {number}: more loads"
        );
        let fewer = loads.saturating_sub(1);
        assert!(rt;
            !ends_within(&mut words, *call, fewer),
            "row {number}: fewer loads"
        );
    }
    Ok(())
}
