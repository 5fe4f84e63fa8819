//! Recovery of maps whose segments each have something to keep.

use crate::tests_causes::{ALLOWANCE, SEGMENT};
use crate::tests_recovery::{A, ALONE, Case, NONE, ONE_BYTE, Piece, apply, recover_twice, rests};
use cm_plain::Drops;
use cm_reading::Entry;
use cm_words::Words;
use std::alloc::Global;
use std::test::Fail;

// The pieces of the segment whose first word is at an address.
fn lay(words: &mut Words, first: u32, pieces: &[Piece]) {
    for piece in pieces {
        apply(words, first, *piece);
    }
}

/// The words of a map, of whose segments each has the pieces of one case.
fn words_of(alloc: Global, cases: &[Case<'_>; 4]) -> Result<Words, Fail> {
    let geo = cases[0].geo()?;
    let mut words = Words::empty(alloc, &geo)?;
    let mut first = 0u32;
    for case in cases {
        lay(&mut words, first, case.pieces);
        first = first.saturating_add(geo.segment_words());
    }
    Ok(words)
}

/// The name of the first segment that isn't found or recovered as its case says; each segment of the map has a case.
fn first_wrong_segment(alloc: Global, cases: &[Case<'_>; 4]) -> Result<Option<&'static str>, Fail> {
    let mut words = words_of(alloc, cases)?;
    let Some(found) = recover_twice(alloc, &mut words)? else {
        return Ok(Some("the second recovery"));
    };
    if found.len() != cases.len() {
        return Ok(Some("the number of segments"));
    }
    for (segment, case) in (0u32..).zip(cases) {
        let is_found = found.get(segment as usize) == Some(&case.found(segment));
        if !is_found || !rests(alloc, &words, segment, case.chain, case.kept)? {
            return Ok(Some(case.name));
        }
    }
    Ok(None)
}

// A map of four segments of three tiers each. The hash without its lowest two bits, which are the segment, is the
// fingerprint, in its low half.
const FOUR: Case<'static> = Case {
    segments: 4,
    tiers: 3,
    extra: 3,
    ..ALONE
};

// The allowance covers both tiers behind the first one of the first segment, and one of the second.
const ENDS_IN_THE_SECOND: [Case<'static>; 4] = [
    Case {
        name: "chain that is within the allowance",
        pieces: &[
            Piece::Link(0, 2),
            Piece::Link(2, 1),
            Piece::Chunk(0, 0, 2, 0x61),
            Piece::Chunk(0, 0, 3, 0x31),
            Piece::Seal(0, 0, ONE_BYTE, 2),
            Piece::Slot(0, 35, 0x2180_7b23_0000_0001),
            Piece::Chunk(2, 0, 2, 0x65),
            Piece::Chunk(2, 0, 3, 0x31),
            Piece::Seal(2, 0, ONE_BYTE, 2),
            Piece::Slot(2, 112, 0x2180_7970_0000_0001),
            Piece::Chunk(1, 0, 2, 0x69),
            Piece::Chunk(1, 0, 3, 0x31),
            Piece::Seal(1, 0, ONE_BYTE, 2),
            Piece::Slot(1, 9, 0x2180_7e89_0000_0001),
        ],
        chain: &[0, 2, 1],
        kept: &[
            A,
            Entry {
                place: 2,
                key: b"e",
                ..A
            },
            Entry {
                place: 1,
                key: b"i",
                ..A
            },
        ],
        ..FOUR
    },
    Case {
        name: "chain in whose middle the allowance ends",
        pieces: &[
            Piece::Link(0, 1),
            Piece::Link(1, 2),
            Piece::Chunk(0, 0, 2, 0x62),
            Piece::Chunk(0, 0, 3, 0x31),
            Piece::Seal(0, 0, ONE_BYTE, 2),
            Piece::Slot(0, 105, 0x2180_7c69_0000_0001),
            Piece::Chunk(1, 0, 2, 0x66),
            Piece::Chunk(1, 0, 3, 0x31),
            Piece::Seal(1, 0, ONE_BYTE, 2),
            Piece::Slot(1, 54, 0x2180_7ab6_0000_0001),
            Piece::Chunk(2, 0, 2, 0x6a),
            Piece::Chunk(2, 0, 3, 0x31),
            Piece::Seal(2, 0, ONE_BYTE, 2),
            Piece::Slot(2, 79, 0x2180_7fcf_0000_0001),
        ],
        chain: &[0, 1],
        kept: &[
            Entry { key: b"b", ..A },
            Entry {
                place: 1,
                key: b"f",
                ..A
            },
        ],
        drops: ALLOWANCE,
        ..FOUR
    },
    Case {
        name: "chain behind the one in whose middle it ends",
        pieces: &[
            Piece::Link(0, 2),
            Piece::Chunk(0, 0, 2, 0x63),
            Piece::Chunk(0, 0, 3, 0x31),
            Piece::Seal(0, 0, ONE_BYTE, 2),
            Piece::Slot(0, 124, 0x2180_7bfc_0000_0001),
            Piece::Chunk(2, 0, 2, 0x67),
            Piece::Chunk(2, 0, 3, 0x31),
            Piece::Seal(2, 0, ONE_BYTE, 2),
            Piece::Slot(2, 73, 0x2180_7a49_0000_0001),
        ],
        kept: &[Entry { key: b"c", ..A }],
        drops: ALLOWANCE,
        ..FOUR
    },
    Case {
        name: "chain of one tier, behind the end",
        pieces: &[
            Piece::Chunk(0, 0, 2, 0x64),
            Piece::Chunk(0, 0, 3, 0x31),
            Piece::Seal(0, 0, ONE_BYTE, 2),
            Piece::Slot(0, 92, 0x2180_79dc_0000_0001),
        ],
        kept: &[Entry { key: b"d", ..A }],
        ..FOUR
    },
];

// The allowance covers one tier behind the first one of the first segment.
const SHORT: Case<'static> = Case { extra: 1, ..FOUR };

const ENDS_IN_THE_FIRST: [Case<'static>; 4] = [
    Case {
        name: "first chain, in whose middle the allowance ends",
        pieces: &[
            Piece::Link(0, 2),
            Piece::Link(2, 1),
            Piece::Chunk(0, 0, 2, 0x61),
            Piece::Chunk(0, 0, 3, 0x31),
            Piece::Seal(0, 0, ONE_BYTE, 2),
            Piece::Slot(0, 35, 0x2180_7b23_0000_0001),
            Piece::Chunk(2, 0, 2, 0x65),
            Piece::Chunk(2, 0, 3, 0x31),
            Piece::Seal(2, 0, ONE_BYTE, 2),
            Piece::Slot(2, 112, 0x2180_7970_0000_0001),
            Piece::Chunk(1, 0, 2, 0x69),
            Piece::Chunk(1, 0, 3, 0x31),
            Piece::Seal(1, 0, ONE_BYTE, 2),
            Piece::Slot(1, 9, 0x2180_7e89_0000_0001),
        ],
        chain: &[0, 2],
        kept: &[
            A,
            Entry {
                place: 2,
                key: b"e",
                ..A
            },
        ],
        drops: ALLOWANCE,
        ..SHORT
    },
    Case {
        name: "second chain, behind the end",
        pieces: &[
            Piece::Link(0, 1),
            Piece::Chunk(0, 0, 2, 0x62),
            Piece::Chunk(0, 0, 3, 0x31),
            Piece::Seal(0, 0, ONE_BYTE, 2),
            Piece::Slot(0, 105, 0x2180_7c69_0000_0001),
            Piece::Chunk(1, 0, 2, 0x66),
            Piece::Chunk(1, 0, 3, 0x31),
            Piece::Seal(1, 0, ONE_BYTE, 2),
            Piece::Slot(1, 54, 0x2180_7ab6_0000_0001),
        ],
        kept: &[Entry { key: b"b", ..A }],
        drops: ALLOWANCE,
        ..SHORT
    },
    Case {
        name: "third chain, of one tier",
        pieces: &[
            Piece::Chunk(0, 0, 2, 0x63),
            Piece::Chunk(0, 0, 3, 0x31),
            Piece::Seal(0, 0, ONE_BYTE, 2),
            Piece::Slot(0, 124, 0x2180_7bfc_0000_0001),
        ],
        kept: &[Entry { key: b"c", ..A }],
        ..SHORT
    },
    Case {
        name: "fourth chain, of three tiers",
        pieces: &[
            Piece::Link(0, 2),
            Piece::Link(2, 1),
            Piece::Chunk(0, 0, 2, 0x64),
            Piece::Chunk(0, 0, 3, 0x31),
            Piece::Seal(0, 0, ONE_BYTE, 2),
            Piece::Slot(0, 92, 0x2180_79dc_0000_0001),
            Piece::Chunk(2, 0, 2, 0x68),
            Piece::Chunk(2, 0, 3, 0x31),
            Piece::Seal(2, 0, ONE_BYTE, 2),
            Piece::Slot(2, 117, 0x2180_7ef5_0000_0001),
            Piece::Chunk(1, 0, 2, 0x6c),
            Piece::Chunk(1, 0, 3, 0x31),
            Piece::Seal(1, 0, ONE_BYTE, 2),
            Piece::Slot(1, 66, 0x2180_7d42_0000_0001),
        ],
        kept: &[Entry { key: b"d", ..A }],
        drops: Drops {
            allowance: 2,
            ..NONE
        },
        ..SHORT
    },
];

// A key counts for the segment that it is of, whether that one is before or after.
const KEYS_OF_OTHERS: [Case<'static>; 4] = [
    Case {
        name: "key of a later segment, where it is kept too",
        pieces: &[
            Piece::Chunk(0, 0, 2, 0x61),
            Piece::Chunk(0, 0, 3, 0x31),
            Piece::Seal(0, 0, ONE_BYTE, 2),
            Piece::Slot(0, 35, 0x2180_7b23_0000_0001),
            Piece::Chunk(0, 2, 2, 0x62),
            Piece::Chunk(0, 2, 3, 0x31),
            Piece::Seal(0, 2, ONE_BYTE, 2),
            Piece::Slot(0, 105, 0x2180_7c69_0000_0003),
        ],
        drops: SEGMENT,
        ..FOUR
    },
    Case {
        name: "segment before duplicate",
        pieces: &[
            Piece::Chunk(0, 0, 2, 0x62),
            Piece::Chunk(0, 0, 3, 0x31),
            Piece::Seal(0, 0, ONE_BYTE, 2),
            Piece::Slot(0, 105, 0x2180_7c69_0000_0001),
            Piece::Chunk(0, 2, 2, 0x61),
            Piece::Chunk(0, 2, 3, 0x31),
            Piece::Seal(0, 2, ONE_BYTE, 2),
            Piece::Slot(0, 35, 0x2180_7b23_0000_0003),
        ],
        kept: &[Entry { key: b"b", ..A }],
        drops: SEGMENT,
        ..FOUR
    },
    Case {
        name: "segment before duplicate, of two keys",
        pieces: &[
            Piece::Chunk(0, 0, 2, 0x63),
            Piece::Chunk(0, 0, 3, 0x31),
            Piece::Seal(0, 0, ONE_BYTE, 2),
            Piece::Slot(0, 124, 0x2180_7bfc_0000_0001),
            Piece::Chunk(0, 2, 2, 0x61),
            Piece::Chunk(0, 2, 3, 0x31),
            Piece::Seal(0, 2, ONE_BYTE, 2),
            Piece::Slot(0, 35, 0x2180_7b23_0000_0003),
            Piece::Chunk(0, 3, 2, 0x62),
            Piece::Chunk(0, 3, 3, 0x31),
            Piece::Seal(0, 3, ONE_BYTE, 2),
            Piece::Slot(0, 105, 0x2180_7c69_0000_0004),
        ],
        kept: &[Entry { key: b"c", ..A }],
        drops: Drops { segment: 2, ..NONE },
        ..FOUR
    },
    Case {
        name: "no key of another segment",
        pieces: &[
            Piece::Chunk(0, 0, 2, 0x64),
            Piece::Chunk(0, 0, 3, 0x31),
            Piece::Seal(0, 0, ONE_BYTE, 2),
            Piece::Slot(0, 92, 0x2180_79dc_0000_0001),
        ],
        kept: &[Entry { key: b"d", ..A }],
        ..FOUR
    },
];

#[test]
fn the_allowance_ends_in_a_chain_and_takes_later_segments(rt: HostRuntime) -> Result<(), Fail> {
    assert_eq!(rt; first_wrong_segment(rt.alloc(), &ENDS_IN_THE_SECOND)?, None);
    assert_eq!(rt; first_wrong_segment(rt.alloc(), &ENDS_IN_THE_FIRST)?, None);
    Ok(())
}

#[test]
fn a_key_is_kept_in_its_own_segment_alone(rt: HostRuntime) -> Result<(), Fail> {
    assert_eq!(rt; first_wrong_segment(rt.alloc(), &KEYS_OF_OTHERS)?, None);
    Ok(())
}
