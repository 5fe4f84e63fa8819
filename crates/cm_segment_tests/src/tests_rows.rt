//! Changes and walks worked out by hand, word by word.
//!
//! A segment has tiers of 64 chunks of four words. The keys a, ba and bba begin their search at slot 12.

use crate::tests_caller::{
    Answer, Line, copy_of, finds, geo_of, line_of, perform, segment_of, word_at, words_after,
};
use cm_segment::{Cursor, Sight, Stand, look, walk};
use cm_words::{Dead, FixedMem, KillFuse, Never, Words};
use std::alloc::Global;
use std::process::Abort;
use std::test::Fail;

const THREE_KEYS: [&str; 3] = ["put a 1", "put ba 2", "put bba 3"];

/// Each word of the segment that isn't 0, by its address, after `THREE_KEYS`.
const THREE_KEYS_WORDS: [(u32, u64); 19] = [
    (1, 6),
    (2, 3),
    (5, 3),
    (8, 7),
    (21, 0x8601_ec8c_0000_0001),
    (22, 0xb54d_d00c_0000_0002),
    (23, 0x1341_628c_0000_0003),
    (137, 0x0000_0001_0000_0001),
    (138, 0xdcc3_2d51_747b_8d85),
    (139, 0x61),
    (140, 0x31),
    (141, 0x0000_0001_0000_0002),
    (142, 0xacaf_acb0_470c_6e1d),
    (143, 0x6162),
    (144, 0x32),
    (145, 0x0000_0001_0000_0003),
    (146, 0xc6a8_0f87_42ac_75d5),
    (147, 0x0061_6262),
    (148, 0x33),
];

/// Compares all words of the segment with these, and 0 elsewhere.
fn has_words(rt: &impl Abort, words: &Words, rows: &[(u32, u64)]) {
    for (at, word) in segment_of(words).iter().enumerate() {
        let row = rows.iter().find(|row| row.0 as usize == at);
        let expected = row.map_or(0, |row| row.1);
        assert_eq!(rt; *word, expected, "at {at}");
    }
}

#[test]
fn three_keys_of_one_home_have_their_words(rt: HostRuntime) -> Result<(), Fail> {
    let words = words_after(rt.alloc(), &geo_of(1)?, &THREE_KEYS)?;
    has_words(&rt, &words, &THREE_KEYS_WORDS);
    Ok(())
}

#[test]
fn a_removal_shifts_the_slots_behind_it(rt: HostRuntime) -> Result<(), Fail> {
    let mut words = words_after(rt.alloc(), &geo_of(1)?, &THREE_KEYS)?;
    let removed = perform(&mut words, &line_of("remove a"), Never)?;
    assert_eq!(rt; removed, Answer::Removed);
    assert_eq!(rt; word_at(&words, 21), 0xb54d_d00c_0000_0002);
    assert_eq!(rt; word_at(&words, 22), 0x1341_628c_0000_0003);
    assert_eq!(rt; word_at(&words, 23), 0);
    assert_eq!(rt; word_at(&words, 8), 0b110);
    assert_eq!(rt;
        (word_at(&words, 1), word_at(&words, 2), word_at(&words, 5)),
        (8, 2, 2)
    );
    assert!(rt; finds(&words, b"a", None));
    assert!(rt; finds(&words, b"ba", Some(b"2")));
    assert!(rt; finds(&words, b"bba", Some(b"3")));
    Ok(())
}

/// The key k00 and so on.
fn key_of(number: u8) -> [u8; 3] {
    [
        b'k',
        b'0'.wrapping_add(number / 10),
        b'0'.wrapping_add(number % 10),
    ]
}

/// The words of the keys k00 to k63, each with the value 1, in chunks 0 to 63 of the first tier.
fn full_tier(alloc: Global, tiers: u32) -> Result<Words, Fail> {
    let mut words = Words::empty(alloc, &geo_of(tiers)?)?;
    for number in 0..64 {
        let line = Line {
            key: &key_of(number),
            value: Some(b"1"),
        };
        perform(&mut words, &line, Never)?;
    }
    Ok(words)
}

#[test]
fn a_value_wants_free_chunks_in_a_row(rt: HostRuntime) -> Result<(), Fail> {
    let big = line_of("put big 123456789");
    for (other, answer, bits) in [
        ("remove k20", Answer::FullChain, !(1 << 10 | 1 << 20)),
        ("remove k11", Answer::New, u64::MAX),
    ] {
        let mut words = full_tier(rt.alloc(), 1)?;
        assert_eq!(rt; perform(&mut words, &big, Never)?, Answer::FullChain);
        perform(&mut words, &line_of("remove k10"), Never)?;
        perform(&mut words, &line_of(other), Never)?;
        assert_eq!(rt; perform(&mut words, &big, Never)?, answer);
        assert_eq!(rt; word_at(&words, 8), bits);
        let mut mem = FixedMem::new(&words, 0);
        let sight = look(&mut mem, words.geo(), b"big")?;
        assert_eq!(rt;
            sight.map(|sight| sight.chunk),
            (answer == Answer::New).then_some(10)
        );
    }
    Ok(())
}

#[test]
fn a_full_chain_takes_one_tier_more_where_it_may(rt: HostRuntime) -> Result<(), Fail> {
    let mut full = full_tier(rt.alloc(), 1)?;
    assert_eq!(rt;
        perform(&mut full, &line_of("put k64 1"), Never)?,
        Answer::FullChain
    );
    let mut words = full_tier(rt.alloc(), 2)?;
    assert_eq!(rt;
        perform(&mut words, &line_of("put k64 1"), Never)?,
        Answer::New
    );
    assert_eq!(rt; word_at(&words, 4), 1);
    let mut mem = FixedMem::new(&words, 0);
    let expected = Sight {
        place: 1,
        slot: 64,
        chunk: 0,
        key_len: 3,
        value_len: 1,
    };
    assert_eq!(rt; look(&mut mem, words.geo(), b"k64")?, Some(expected));
    Ok(())
}

#[test]
fn a_longer_value_stays_or_moves(rt: HostRuntime) -> Result<(), Fail> {
    let longer = line_of("put a 123456789");
    let lines = ["put a 1", "put b 1"];
    for (before, chunk, bits) in [(1, 0, 0b11), (2, 2, 0b1110)] {
        let mut words = words_after(rt.alloc(), &geo_of(1)?, &lines[..before])?;
        assert_eq!(rt; perform(&mut words, &longer, Never)?, Answer::Replaced);
        assert_eq!(rt; word_at(&words, 8), bits);
        let mut mem = FixedMem::new(&words, 0);
        let sight = look(&mut mem, words.geo(), b"a")?;
        assert_eq!(rt; sight.map(|sight| sight.chunk), Some(chunk));
        assert!(rt; finds(&words, b"a", Some(b"123456789")));
    }
    Ok(())
}

// The ninth store is the slot in the new tier; the old slot is emptied only behind it. The first tier's link
// stands at 4, its bits at 8, and its slot 65 at 74; the second tier begins at 393.
#[test]
fn a_key_that_moves_to_a_new_tier_has_two_slots_at_first(rt: HostRuntime) -> Result<(), Fail> {
    let mut words = full_tier(rt.alloc(), 2)?;
    let before = copy_of(rt.alloc(), &words)?;
    let line = line_of("put k05 123456789");
    let stopped = perform(&mut words, &line, KillFuse::Stores { left: 9 });
    assert_eq!(rt; stopped, Err(Dead));
    let old_slot = word_at(&before, 74);
    let new_slot = old_slot & !0xffff_ffff | 1;
    assert_eq!(rt; word_at(&words, 1), 129);
    assert_eq!(rt; word_at(&words, 4), 1);
    assert_eq!(rt; word_at(&words, 397), 0b11);
    assert_eq!(rt; word_at(&words, 463), new_slot);
    assert_eq!(rt; word_at(&words, 526), 9 << 32 | 3);
    for at in 8..393 {
        assert_eq!(rt; word_at(&words, at), word_at(&before, at), "at {at}");
    }
    for number in 0..64 {
        assert!(rt; finds(&words, &key_of(number), Some(b"1")), "k{number}");
    }
    Ok(())
}

#[test]
fn changes_make_no_needless_store(rt: HostRuntime) -> Result<(), Fail> {
    let rows = [(0, "put a 1", 10), (3, "put a 9", 4), (3, "remove a", 8)];
    for (before, text, stores) in rows {
        let line = line_of(text);
        let words = words_after(rt.alloc(), &geo_of(1)?, &THREE_KEYS[..before])?;
        let mut stopped = copy_of(rt.alloc(), &words)?;
        let fuse = KillFuse::Stores { left: stores - 1 };
        assert_eq!(rt; perform(&mut stopped, &line, fuse), Err(Dead), "{text}");
        let mut made = words;
        let fuse = KillFuse::Stores { left: stores };
        assert!(rt; perform(&mut made, &line, fuse).is_ok(), "{text}");
    }
    Ok(())
}

/// The keys cx and dy begin their search at slot 126, cw and dv at 127, cr and ds at 0, and aw at 1. Put in
/// this order, they fill slots 126 to 127 and 0 to 4.
const ROUND: [&str; 7] = [
    "put cx 1", "put dy 1", "put cw 1", "put dv 1", "put cr 1", "put ds 1", "put aw 1",
];

/// The next key with a prefix from a cursor on, which is written to `out`.
fn next_key<'a>(
    words: &Words,
    from: Cursor,
    prefix: &[u8],
    out: &'a mut [u8; 256],
) -> Result<Option<(Cursor, &'a [u8])>, Dead> {
    let mut mem = FixedMem::new(words, 0);
    let found = walk(&mut mem, words.geo(), from, prefix, out)?;
    Ok(found.map(|stand| (stand.at, &out[..stand.key_len as usize])))
}

/// Removes the keys with a prefix, which are found at these slots, until none is left.
fn sweep(
    rt: &impl Abort,
    words: &mut Words,
    prefix: &[u8],
    steps: &[(u32, &[u8])],
) -> Result<(), Fail> {
    let mut at = Cursor { link: 0, slot: 0 };
    for (slot, key) in steps {
        let mut out = [0; 256];
        let found = next_key(words, at, prefix, &mut out)?;
        at = Cursor {
            link: 0,
            slot: *slot,
        };
        assert_eq!(rt; found, Some((at, *key)));
        let line = Line { key, value: None };
        perform(words, &line, Never)?;
    }
    let mut out = [0; 256];
    assert_eq!(rt; next_key(words, at, prefix, &mut out)?, None);
    Ok(())
}

// Each removal fills the slot with one that stood behind it, so the same slot is looked at again.
#[test]
fn a_sweep_round_the_last_slot_leaves_no_key(rt: HostRuntime) -> Result<(), Fail> {
    let rows: [(&[u8], &[(u32, &[u8])]); 3] = [
        (b"c", &[(0, b"cw"), (1, b"cr"), (126, b"cx")]),
        (b"d", &[(1, b"dv"), (2, b"ds"), (127, b"dy")]),
        (
            b"",
            &[
                (0, b"cw"),
                (0, b"dv"),
                (0, b"cr"),
                (0, b"ds"),
                (1, b"aw"),
                (126, b"cx"),
                (126, b"dy"),
            ],
        ),
    ];
    for (prefix, steps) in rows {
        let mut words = words_after(rt.alloc(), &geo_of(1)?, &ROUND)?;
        sweep(&rt, &mut words, prefix, steps)?;
        for text in ROUND {
            let line = line_of(text);
            let left = if line.key.starts_with(prefix) {
                None
            } else {
                line.value
            };
            assert!(rt; finds(&words, line.key, left), "after {text}");
        }
    }
    Ok(())
}
