//! Calls of one pass over a store, one after the other.

use cm_geo::Geo;
use cm_store::Answer;
use cm_trial::{Step, play, row, valued, word};
use std::test::Fail;

#[test]
fn calls_of_one_pass_are_numbered(rt: HostRuntime) -> Result<(), Fail> {
    let rows = [
        row(Step::Get(b"a"), 0, Answer::Missing),
        row(Step::Put(b"a", b"one"), 1, Answer::New),
        valued(Step::Get(b"a"), 1, Answer::Value(3), b"one"),
        valued(Step::PutIfAbsent(b"a", b"x"), 1, Answer::Kept(3), b"one"),
        row(Step::PutIfAbsent(b"b", b"x"), 2, Answer::New),
        row(Step::Replace(b"c", b"y"), 2, Answer::Missing),
        row(Step::Replace(b"b", b"y"), 3, Answer::Replaced),
        row(Step::ReplaceIf(b"b", b"x", b"z"), 3, Answer::Differs),
        row(Step::ReplaceIf(b"b", b"y", b"z"), 4, Answer::Replaced),
        row(Step::Count(0), 4, Answer::Count(2)),
        row(Step::RemoveIf(b"b", b"y"), 4, Answer::Differs),
        row(Step::RemoveIf(b"b", b"z"), 5, Answer::Removed),
        row(Step::Remove(b"b"), 5, Answer::Missing),
        row(Step::Remove(b"a"), 6, Answer::Removed),
        row(Step::Count(0), 6, Answer::Count(0)),
    ];
    let played = play(rt.alloc(), &Geo::new(1, 1, 64, 4, 0)?, &rows)?;
    assert_eq!(rt; played.other, None);
    let words = [0, 1, 2].map(|at| word(&played.words, at));
    assert_eq!(rt; words, [Some(0), Some(12), Some(0)]);
    Ok(())
}
