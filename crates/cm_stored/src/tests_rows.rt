//! Calls of one pass, and the words that they leave.

use cm_geo::Geo;
use cm_store::Answer;
use cm_trial::{Step, Wanted, numbered, play, play_full, play_over, row, start_over, valued, word};
use std::test::Fail;

/// The addresses of the bit word, of the first slot and of the first chunk of the first tier, where it has 64 chunks.
const BITS: u32 = 8;

const SLOTS: u32 = 9;

const CHUNKS: u32 = 137;

const A: &[u8] = b"a";

const BA: &[u8] = b"ba";

const BBA: &[u8] = b"bba";

const LONG: &[u8] = b"123456789";

/// Three keys of one home.
fn three<'a>() -> [Wanted<'a>; 3] {
    [
        row(Step::Put(A, b"1"), 1, Answer::New),
        row(Step::Put(BA, b"2"), 2, Answer::New),
        row(Step::Put(BBA, b"3"), 3, Answer::New),
    ]
}

#[test]
fn keys_of_one_home_stand_in_a_row(rt: HostRuntime) -> Result<(), Fail> {
    let geo = Geo::new(1, 1, 64, 4, 0)?;
    let played = play(rt.alloc(), &geo, &three())?;
    assert_eq!(rt; played.other, None);
    for (at, expected) in [(SLOTS + 12, 1), (SLOTS + 13, 2), (SLOTS + 14, 3)] {
        let low = word(&played.words, at).map(|word| word % (1 << 32));
        assert_eq!(rt; low, Some(expected), "at {at}");
    }
    let rows = [
        (0, 0),
        (1, 6),
        (2, 3),
        (BITS, 7),
        (SLOTS + 12, 0x8601_ec8c_0000_0001),
        (SLOTS + 15, 0),
        (CHUNKS, 0x0000_0001_0000_0001),
    ];
    for (at, expected) in rows {
        assert_eq!(rt; word(&played.words, at), Some(expected), "at {at}");
    }
    Ok(())
}

#[test]
fn a_removal_shifts_what_stands_behind(rt: HostRuntime) -> Result<(), Fail> {
    let geo = Geo::new(1, 1, 64, 4, 0)?;
    let before = play(rt.alloc(), &geo, &three())?;
    let [first, second, third] = three();
    let rows = [
        first,
        second,
        third,
        row(Step::Remove(A), 4, Answer::Removed),
        valued(Step::Get(BBA), 4, Answer::Value(1), b"3"),
    ];
    let played = play(rt.alloc(), &geo, &rows)?;
    assert_eq!(rt; played.other, None);
    for slot in [12, 13] {
        let moved = word(&before.words, SLOTS + slot + 1);
        assert_eq!(rt; word(&played.words, SLOTS + slot), moved, "slot {slot}");
    }
    assert_eq!(rt; word(&played.words, SLOTS + 14), Some(0));
    assert_eq!(rt; word(&played.words, 1), Some(8));
    Ok(())
}

#[test]
fn a_full_tier_is_told(rt: HostRuntime) -> Result<(), Fail> {
    let put = Step::Put(b"k64", b"1");
    let absent = Step::PutIfAbsent(b"k64", b"1");
    let longer = Step::Replace(b"k05", LONG);
    let expected = Step::ReplaceIf(b"k05", b"1", LONG);
    let rows = [
        (1, 0, put, 64, Answer::FullChain, 64),
        (2, 1, put, 65, Answer::New, 65),
        (2, 0, put, 64, Answer::FullSpent, 64),
        (1, 0, absent, 64, Answer::FullChain, 64),
        (2, 1, absent, 65, Answer::New, 65),
        (2, 0, absent, 64, Answer::FullSpent, 64),
        (1, 0, longer, 64, Answer::FullChain, 64),
        (2, 1, longer, 65, Answer::Replaced, 64),
        (2, 0, expected, 64, Answer::FullSpent, 64),
    ];
    for (tiers, extra, step, number, answer, entries) in rows {
        let geo = Geo::new(1, tiers, 64, 4, extra)?;
        let played = play_full(rt.alloc(), &geo, &[row(step, number, answer)])?;
        assert_eq!(rt; played.other, None, "{step:?}");
        assert_eq!(rt; word(&played.words, 0), Some(0));
        assert_eq!(rt; word(&played.words, 2), Some(entries));
    }
    Ok(())
}

#[test]
fn a_run_needs_chunks_in_a_row(rt: HostRuntime) -> Result<(), Fail> {
    let geo = Geo::new(1, 1, 64, 4, 0)?;
    let apart = [
        row(Step::Remove(b"k10"), 65, Answer::Removed),
        row(Step::Remove(b"k20"), 66, Answer::Removed),
        row(Step::Put(b"big", LONG), 66, Answer::FullChain),
    ];
    let played = play_full(rt.alloc(), &geo, &apart)?;
    assert_eq!(rt; played.other, None);
    let beside = [
        row(Step::Remove(b"k10"), 65, Answer::Removed),
        row(Step::Remove(b"k11"), 66, Answer::Removed),
        row(Step::Put(b"big", LONG), 67, Answer::New),
    ];
    let played = play_full(rt.alloc(), &geo, &beside)?;
    assert_eq!(rt; played.other, None);
    assert_eq!(rt; word(&played.words, CHUNKS + 4 * 10), Some(9 << 32 | 3));
    assert_eq!(rt; word(&played.words, BITS), Some(u64::MAX));
    Ok(())
}

#[test]
fn a_longer_value_stays_where_there_is_room(rt: HostRuntime) -> Result<(), Fail> {
    let geo = Geo::new(1, 1, 64, 4, 0)?;
    let alone = [
        row(Step::Put(A, b"1"), 1, Answer::New),
        row(Step::Put(A, LONG), 2, Answer::Replaced),
        valued(Step::Get(A), 2, Answer::Value(9), LONG),
    ];
    let played = play(rt.alloc(), &geo, &alone)?;
    assert_eq!(rt; played.other, None);
    assert_eq!(rt; word(&played.words, BITS), Some(3));
    assert_eq!(rt;
        word(&played.words, SLOTS + 12),
        Some(0x8601_ec8c_0000_0001)
    );
    let beside = [
        row(Step::Put(A, b"1"), 1, Answer::New),
        row(Step::Put(b"b", b"1"), 2, Answer::New),
        row(Step::Put(A, LONG), 3, Answer::Replaced),
        valued(Step::Get(A), 3, Answer::Value(9), LONG),
    ];
    let played = play(rt.alloc(), &geo, &beside)?;
    assert_eq!(rt; played.other, None);
    assert_eq!(rt; word(&played.words, BITS), Some(14));
    assert_eq!(rt;
        word(&played.words, SLOTS + 12),
        Some(0x8601_ec8c_0000_0003)
    );
    Ok(())
}

#[test]
fn the_longest_value_needs_long_chunks(rt: HostRuntime) -> Result<(), Fail> {
    let value = [7; 4096];
    let put = row(Step::Put(A, &value), 1, Answer::New);
    let narrow = play(rt.alloc(), &Geo::new(1, 1, 64, 4, 0)?, &[put])?;
    assert_eq!(rt; narrow.other, Some((0, None)));
    assert_eq!(rt; word(&narrow.words, 1), Some(0));
    let get = valued(Step::Get(A), 1, Answer::Value(4096), &value);
    let kept = valued(Step::PutIfAbsent(A, b""), 1, Answer::Kept(4096), &value);
    let wide = play(rt.alloc(), &Geo::new(1, 1, 64, 16, 0)?, &[put, get, kept])?;
    assert_eq!(rt; wide.other, None);
    assert_eq!(rt; word(&wide.words, BITS), Some((1 << 33) - 1));
    Ok(())
}

#[test]
fn conditions_are_asked_of_the_present_value(rt: HostRuntime) -> Result<(), Fail> {
    let rows = [
        row(Step::Put(A, b"1"), 1, Answer::New),
        valued(Step::PutIfAbsent(A, b"2"), 1, Answer::Kept(1), b"1"),
        row(Step::ReplaceIf(A, b"9", b"3"), 1, Answer::Differs),
        row(Step::RemoveIf(A, b"1"), 2, Answer::Removed),
        row(Step::Replace(A, b"5"), 2, Answer::Missing),
    ];
    let played = play(rt.alloc(), &Geo::new(1, 1, 64, 4, 0)?, &rows)?;
    assert_eq!(rt; played.other, None);
    for (at, expected) in [(0, 0), (1, 4), (2, 0), (BITS, 0), (SLOTS + 12, 0)] {
        assert_eq!(rt; word(&played.words, at), Some(expected), "at {at}");
    }
    Ok(())
}

#[test]
fn entries_are_counted(rt: HostRuntime) -> Result<(), Fail> {
    let [first, second, third] = three();
    let count = row(Step::Count(0), 3, Answer::Count(3));
    let none = row(Step::Count(0), 0, Answer::Count(0));
    let geo = Geo::new(1, 1, 64, 4, 0)?;
    let played = play(rt.alloc(), &geo, &[none, first, second, third, count])?;
    assert_eq!(rt; played.other, None);
    let absent = row(Step::Count(1), 0, Answer::Count(0));
    assert_eq!(rt; play(rt.alloc(), &geo, &[absent])?.other, Some((0, None)));
    Ok(())
}

#[test]
fn values_may_be_empty_and_keys_long(rt: HostRuntime) -> Result<(), Fail> {
    let key = [b'k'; 257];
    let longest = key.get(..256).unwrap_or(&[]);
    let rows = [
        row(Step::Put(A, b""), 1, Answer::New),
        valued(Step::Get(A), 1, Answer::Value(0), b""),
        row(Step::Put(longest, b"1"), 2, Answer::New),
        valued(Step::Get(longest), 2, Answer::Value(1), b"1"),
    ];
    let geo = Geo::new(1, 1, 64, 4, 0)?;
    let played = play(rt.alloc(), &geo, &rows)?;
    assert_eq!(rt; played.other, None);
    for refused in [Step::Put(&key, b"1"), Step::Put(b"", b"1"), Step::Get(&key)] {
        let played = play(rt.alloc(), &geo, &[row(refused, 1, Answer::New)])?;
        assert_eq!(rt; played.other, Some((0, None)));
    }
    Ok(())
}

#[test]
fn a_segment_without_a_number_is_worn(rt: HostRuntime) -> Result<(), Fail> {
    let last = 4_611_686_018_427_387_904;
    let rows = [
        row(Step::Put(A, b"1"), last, Answer::New),
        row(Step::Put(A, b"2"), last, Answer::Worn),
        valued(Step::Get(A), last, Answer::Value(1), b"1"),
        row(Step::Put(BA, b"2"), last, Answer::Worn),
        valued(Step::PutIfAbsent(A, b"2"), last, Answer::Kept(1), b"1"),
        row(Step::PutIfAbsent(BA, b"2"), last, Answer::Worn),
        row(Step::Replace(A, b"2"), last, Answer::Worn),
        row(Step::Replace(BA, b"2"), last, Answer::Missing),
        row(Step::ReplaceIf(A, b"1", b"2"), last, Answer::Worn),
        row(Step::ReplaceIf(A, b"2", b"2"), last, Answer::Differs),
        row(Step::RemoveIf(A, b"1"), last, Answer::Worn),
        row(Step::RemoveIf(A, b"2"), last, Answer::Differs),
        row(Step::Remove(A), last, Answer::Worn),
        row(Step::Remove(BA), last, Answer::Missing),
        row(Step::Count(0), last, Answer::Count(1)),
    ];
    let geo = Geo::new(1, 1, 64, 4, 0)?;
    let trial = start_over(rt.alloc(), numbered(rt.alloc(), &geo, last - 1)?)?;
    let played = play_over(rt.alloc(), trial, &rows)?;
    assert_eq!(rt; played.other, None);
    assert_eq!(rt;
        [0, 1, 2].map(|at| word(&played.words, at)),
        [Some(0), Some(1 << 63), Some(1)]
    );
    Ok(())
}
