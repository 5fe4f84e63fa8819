//! Slots for which more than one cause to drop them applies: the first one is counted.
//!
//! Each row names the two causes that apply to its slot, in the order in which they are asked; there is one for each
//! two that can meet. A slot that points to no chunk has no entry that could be wrong besides, and in a tier outside
//! the allowance no run is kept that another could meet.

use crate::tests_recovery::{
    A, ALONE, Case, NONE, ONE_BYTE, Piece, SLOT_OF_A, SLOT_OF_BA, first_wrong,
};
use cm_plain::Drops;
use cm_reading::Entry;
use std::test::Fail;

pub(crate) const SLOT_OF_A_IN_TWO: u64 = 0x4300_f646_0000_0001;

/// Of b, at the third chunk; its home is 37.
pub(crate) const SLOT_OF_B: u64 = 0x8601_f1a5_0000_0003;

/// The same in a map of two segments, of which b's is the second one; its home is 82.
pub(crate) const SLOT_OF_B_IN_TWO: u64 = 0x4300_f8d2_0000_0003;

/// Of the empty key, at the third chunk; its home is 37.
pub(crate) const SLOT_OF_NONE: u64 = 0x8422_2325_0000_0003;

pub(crate) const RANGE: Drops = Drops { range: 1, ..NONE };

pub(crate) const LENGTHS: Drops = Drops { lengths: 1, ..NONE };

pub(crate) const CHECKSUM: Drops = Drops {
    checksum: 1,
    ..NONE
};

pub(crate) const PADDING: Drops = Drops { padding: 1, ..NONE };

pub(crate) const SEGMENT: Drops = Drops { segment: 1, ..NONE };

pub(crate) const FINGERPRINT: Drops = Drops {
    fingerprint: 1,
    ..NONE
};

pub(crate) const DUPLICATE: Drops = Drops {
    duplicate: 1,
    ..NONE
};

pub(crate) const OVERLAP: Drops = Drops { overlap: 1, ..NONE };

pub(crate) const ALLOWANCE: Drops = Drops {
    allowance: 1,
    ..NONE
};

/// A map whose second tier is outside the allowance, if it is linked.
pub(crate) const OUTSIDE: Case<'static> = Case {
    tiers: 2,
    extra: 0,
    drops: ALLOWANCE,
    ..ALONE
};

const OUTSIDE_FIRST: [Case<'static>; 8] = [
    Case {
        name: "allowance before range",
        pieces: &[
            Piece::Link(0, 1),
            Piece::Slot(0, 12, SLOT_OF_A),
            Piece::Slot(1, 37, 0x8601_f1a5_0000_0000),
        ],
        ..OUTSIDE
    },
    Case {
        name: "allowance before lengths",
        pieces: &[
            Piece::Link(0, 1),
            Piece::Slot(0, 12, SLOT_OF_A),
            Piece::Seal(1, 2, 0, 0),
            Piece::Slot(1, 37, SLOT_OF_NONE),
        ],
        ..OUTSIDE
    },
    Case {
        name: "allowance before checksum",
        pieces: &[
            Piece::Link(0, 1),
            Piece::Slot(0, 12, SLOT_OF_A),
            Piece::Chunk(1, 2, 0, ONE_BYTE),
            Piece::Chunk(1, 2, 2, 0x62),
            Piece::Slot(1, 37, SLOT_OF_B),
        ],
        ..OUTSIDE
    },
    Case {
        name: "allowance before padding",
        pieces: &[
            Piece::Link(0, 1),
            Piece::Slot(0, 12, SLOT_OF_A),
            Piece::Chunk(1, 2, 2, 0x162),
            Piece::Seal(1, 2, ONE_BYTE, 2),
            Piece::Slot(1, 37, SLOT_OF_B),
        ],
        ..OUTSIDE
    },
    Case {
        name: "allowance before segment",
        segments: 2,
        pieces: &[
            Piece::Link(0, 1),
            Piece::Slot(0, 70, SLOT_OF_A_IN_TWO),
            Piece::Chunk(1, 2, 2, 0x62),
            Piece::Seal(1, 2, ONE_BYTE, 2),
            Piece::Slot(1, 82, SLOT_OF_B_IN_TWO),
        ],
        ..OUTSIDE
    },
    Case {
        name: "allowance before fingerprint",
        pieces: &[
            Piece::Link(0, 1),
            Piece::Slot(0, 12, SLOT_OF_A),
            Piece::Chunk(1, 2, 2, 0x62),
            Piece::Seal(1, 2, ONE_BYTE, 2),
            Piece::Slot(1, 40, 0x28_0000_0003),
        ],
        ..OUTSIDE
    },
    Case {
        name: "allowance before duplicate",
        pieces: &[
            Piece::Link(0, 1),
            Piece::Slot(0, 12, SLOT_OF_A),
            Piece::Chunk(1, 2, 2, 0x61),
            Piece::Seal(1, 2, ONE_BYTE, 2),
            Piece::Slot(1, 12, 0x8601_ec8c_0000_0003),
        ],
        ..OUTSIDE
    },
    Case {
        name: "allowance before more than one other cause",
        pieces: &[
            Piece::Link(0, 1),
            Piece::Slot(0, 12, SLOT_OF_A),
            // No chunk, and one behind the tier.
            Piece::Slot(1, 1, 0x28_0000_0000),
            Piece::Slot(1, 2, 0x28_0000_0041),
            // Lengths, checksum, padding.
            Piece::Slot(1, 3, 0x28_0000_0009),
            Piece::Slot(1, 4, 0x28_0000_0001),
            Piece::Chunk(1, 0, 0, ONE_BYTE),
            Piece::Slot(1, 5, 0x28_0000_0002),
            Piece::Chunk(1, 1, 2, 0x162),
            Piece::Seal(1, 1, ONE_BYTE, 2),
            // Another fingerprint, and a key that was kept, at two slots for one run.
            Piece::Chunk(1, 2, 2, 0x61),
            Piece::Seal(1, 2, ONE_BYTE, 2),
            Piece::Slot(1, 6, 0x28_0000_0003),
            Piece::Slot(1, 12, 0x8601_ec8c_0000_0003),
        ],
        drops: Drops {
            allowance: 7,
            ..NONE
        },
        ..OUTSIDE
    },
];

// Behind the last chunk of the map there is no word, and a checksum is over zeros there.
const LENGTHS_FIRST: [Case<'static>; 6] = [
    Case {
        name: "lengths before checksum",
        pieces: &[
            Piece::Slot(0, 12, SLOT_OF_A),
            Piece::Slot(0, 37, SLOT_OF_NONE),
        ],
        drops: LENGTHS,
        ..ALONE
    },
    Case {
        name: "lengths before padding",
        pieces: &[
            Piece::Slot(0, 12, SLOT_OF_A),
            Piece::Chunk(0, 2, 2, 0x131),
            Piece::Seal(0, 2, 0x1_0000_0000, 1),
            Piece::Slot(0, 37, SLOT_OF_NONE),
        ],
        drops: LENGTHS,
        ..ALONE
    },
    Case {
        name: "lengths before segment",
        segments: 2,
        pieces: &[
            Piece::Slot(0, 70, SLOT_OF_A_IN_TWO),
            Piece::Seal(0, 2, 0, 0),
            Piece::Slot(0, 18, 0x4211_1192_0000_0003),
        ],
        drops: LENGTHS,
        ..ALONE
    },
    Case {
        name: "lengths before fingerprint",
        pieces: &[
            Piece::Slot(0, 12, SLOT_OF_A),
            Piece::Seal(0, 2, 0, 0),
            Piece::Slot(0, 40, 0x28_0000_0003),
        ],
        drops: LENGTHS,
        ..ALONE
    },
    Case {
        name: "lengths before duplicate",
        pieces: &[
            Piece::Slot(0, 12, SLOT_OF_A),
            Piece::Chunk(0, 63, 2, 0x61),
            Piece::Seal(0, 63, 0x28_0000_0001, 6),
            Piece::Slot(0, 13, 0x8601_ec8c_0000_0040),
        ],
        drops: LENGTHS,
        ..ALONE
    },
    Case {
        name: "lengths before overlap",
        pieces: &[
            Piece::Slot(0, 12, SLOT_OF_A),
            Piece::Chunk(0, 63, 2, 0x6162),
            Piece::Seal(0, 63, 0x1_0000_0002, 2),
            Piece::Slot(0, 13, 0xb54d_d00c_0000_0040),
            Piece::Chunk(0, 62, 2, 0x62),
            Piece::Seal(0, 62, 0x30_0000_0001, 7),
            Piece::Slot(0, 37, 0x8601_f1a5_0000_003f),
        ],
        kept: &[
            A,
            Entry {
                place: 0,
                chunk: 63,
                key: b"ba",
                value: b"\0",
            },
        ],
        drops: LENGTHS,
        ..ALONE
    },
];

// Of a map of one segment. The run of ba, where it has one, has two chunks, and what its value ends with begins an
// entry at the second one.
const FIRST_CAUSES: [Case<'static>; 10] = [
    Case {
        name: "checksum before padding",
        pieces: &[
            Piece::Slot(0, 12, SLOT_OF_A),
            Piece::Chunk(0, 2, 0, ONE_BYTE),
            Piece::Chunk(0, 2, 2, 0x162),
            Piece::Slot(0, 37, SLOT_OF_B),
        ],
        drops: CHECKSUM,
        ..ALONE
    },
    Case {
        name: "checksum before fingerprint",
        pieces: &[
            Piece::Slot(0, 12, SLOT_OF_A),
            Piece::Chunk(0, 2, 0, ONE_BYTE),
            Piece::Chunk(0, 2, 2, 0x62),
            Piece::Slot(0, 40, 0x28_0000_0003),
        ],
        drops: CHECKSUM,
        ..ALONE
    },
    Case {
        name: "checksum before duplicate",
        pieces: &[
            Piece::Slot(0, 12, SLOT_OF_A),
            Piece::Slot(0, 13, 0x8601_ec8c_0000_0003),
            Piece::Chunk(0, 2, 0, ONE_BYTE),
            Piece::Chunk(0, 2, 2, 0x61),
        ],
        drops: CHECKSUM,
        ..ALONE
    },
    Case {
        name: "checksum before overlap",
        pieces: &[
            Piece::Chunk(0, 2, 0, ONE_BYTE),
            Piece::Chunk(0, 2, 1, 7),
            Piece::Chunk(0, 2, 2, 0x62),
            Piece::Chunk(0, 1, 2, 0x6162),
            Piece::Seal(0, 1, 0x18_0000_0002, 4),
            Piece::Slot(0, 12, SLOT_OF_A),
            Piece::Slot(0, 13, SLOT_OF_BA),
            Piece::Slot(0, 37, SLOT_OF_B),
        ],
        kept: &[
            A,
            Entry {
                place: 0,
                chunk: 1,
                key: b"ba",
                value: b"\0\0\0\0\0\0\0\0\x01\0\0\0\x01\0\0\0\x07\0\0\0\0\0\0\0",
            },
        ],
        drops: CHECKSUM,
        ..ALONE
    },
    Case {
        name: "padding before fingerprint",
        pieces: &[
            Piece::Slot(0, 12, SLOT_OF_A),
            Piece::Chunk(0, 2, 2, 0x162),
            Piece::Seal(0, 2, ONE_BYTE, 2),
            Piece::Slot(0, 40, 0x28_0000_0003),
        ],
        drops: PADDING,
        ..ALONE
    },
    Case {
        name: "padding before duplicate",
        pieces: &[
            Piece::Slot(0, 12, SLOT_OF_A),
            Piece::Slot(0, 13, 0x8601_ec8c_0000_0003),
            Piece::Chunk(0, 2, 2, 0x161),
            Piece::Seal(0, 2, ONE_BYTE, 2),
        ],
        drops: PADDING,
        ..ALONE
    },
    Case {
        name: "padding before overlap",
        pieces: &[
            Piece::Chunk(0, 2, 2, 0x162),
            Piece::Seal(0, 2, ONE_BYTE, 2),
            Piece::Chunk(0, 1, 2, 0x6162),
            Piece::Seal(0, 1, 0x18_0000_0002, 4),
            Piece::Slot(0, 12, SLOT_OF_A),
            Piece::Slot(0, 13, SLOT_OF_BA),
            Piece::Slot(0, 37, SLOT_OF_B),
        ],
        kept: &[
            A,
            Entry {
                place: 0,
                chunk: 1,
                key: b"ba",
                value: b"\0\0\0\0\0\0\0\0\x01\0\0\0\x01\0\0\0\xdc\x6d\x20\xc4\xe2\xfc\x30\x99",
            },
        ],
        drops: PADDING,
        ..ALONE
    },
    Case {
        name: "fingerprint before duplicate",
        pieces: &[
            Piece::Slot(0, 12, SLOT_OF_A),
            Piece::Chunk(0, 2, 2, 0x61),
            Piece::Seal(0, 2, ONE_BYTE, 2),
            Piece::Slot(0, 40, 0x28_0000_0003),
        ],
        drops: FINGERPRINT,
        ..ALONE
    },
    Case {
        name: "fingerprint before overlap",
        pieces: &[
            Piece::Chunk(0, 2, 2, 0x62),
            Piece::Seal(0, 2, ONE_BYTE, 2),
            Piece::Chunk(0, 1, 2, 0x6162),
            Piece::Seal(0, 1, 0x18_0000_0002, 4),
            Piece::Slot(0, 12, SLOT_OF_A),
            Piece::Slot(0, 13, SLOT_OF_BA),
            Piece::Slot(0, 40, 0x28_0000_0003),
        ],
        kept: &[
            A,
            Entry {
                place: 0,
                chunk: 1,
                key: b"ba",
                value: b"\0\0\0\0\0\0\0\0\x01\0\0\0\x01\0\0\0\x17\xea\xd6\xf3\x0f\x37\x16\xbb",
            },
        ],
        drops: FINGERPRINT,
        ..ALONE
    },
    Case {
        name: "duplicate before overlap",
        pieces: &[
            Piece::Chunk(0, 2, 2, 0x61),
            Piece::Seal(0, 2, ONE_BYTE, 2),
            Piece::Chunk(0, 1, 2, 0x6162),
            Piece::Seal(0, 1, 0x18_0000_0002, 4),
            Piece::Slot(0, 12, SLOT_OF_A),
            Piece::Slot(0, 13, SLOT_OF_BA),
            Piece::Slot(0, 14, 0x8601_ec8c_0000_0003),
        ],
        kept: &[
            A,
            Entry {
                place: 0,
                chunk: 1,
                key: b"ba",
                value: b"\0\0\0\0\0\0\0\0\x01\0\0\0\x01\0\0\0\x54\xa1\x97\xba\xb7\xf5\x1b\xce",
            },
        ],
        drops: DUPLICATE,
        ..ALONE
    },
];

// Of a map of two segments, with a key of the second one in the first.
const FIRST_OF_TWO: [Case<'static>; 5] = [
    Case {
        name: "checksum before segment",
        segments: 2,
        pieces: &[
            Piece::Slot(0, 70, SLOT_OF_A_IN_TWO),
            Piece::Slot(0, 82, SLOT_OF_B_IN_TWO),
            Piece::Chunk(0, 2, 0, ONE_BYTE),
            Piece::Chunk(0, 2, 2, 0x62),
        ],
        drops: CHECKSUM,
        ..ALONE
    },
    Case {
        name: "padding before segment",
        segments: 2,
        pieces: &[
            Piece::Slot(0, 70, SLOT_OF_A_IN_TWO),
            Piece::Slot(0, 82, SLOT_OF_B_IN_TWO),
            Piece::Chunk(0, 2, 2, 0x162),
            Piece::Seal(0, 2, ONE_BYTE, 2),
        ],
        drops: PADDING,
        ..ALONE
    },
    Case {
        name: "padding before segment and fingerprint",
        segments: 2,
        pieces: &[
            Piece::Slot(0, 70, SLOT_OF_A_IN_TWO),
            Piece::Slot(0, 40, 0x28_0000_0003),
            Piece::Chunk(0, 2, 2, 0x162),
            Piece::Seal(0, 2, ONE_BYTE, 2),
        ],
        drops: PADDING,
        ..ALONE
    },
    Case {
        name: "segment before fingerprint",
        segments: 2,
        pieces: &[
            Piece::Slot(0, 70, SLOT_OF_A_IN_TWO),
            Piece::Slot(0, 40, 0x28_0000_0003),
            Piece::Chunk(0, 2, 2, 0x62),
            Piece::Seal(0, 2, ONE_BYTE, 2),
        ],
        drops: SEGMENT,
        ..ALONE
    },
    Case {
        name: "segment before overlap",
        segments: 2,
        pieces: &[
            Piece::Chunk(0, 2, 2, 0x62),
            Piece::Seal(0, 2, ONE_BYTE, 2),
            Piece::Chunk(0, 1, 2, 0x63),
            Piece::Seal(0, 1, 0x18_0000_0001, 4),
            Piece::Slot(0, 3, 0x4300_f7f9_0000_0002),
            Piece::Slot(0, 70, SLOT_OF_A_IN_TWO),
            Piece::Slot(0, 82, SLOT_OF_B_IN_TWO),
        ],
        kept: &[
            A,
            Entry {
                place: 0,
                chunk: 1,
                key: b"c",
                value: b"\0\0\0\0\0\0\0\0\x01\0\0\0\x01\0\0\0\x17\xea\xd6\xf3\x0f\x37\x16\xbb",
            },
        ],
        drops: SEGMENT,
        ..ALONE
    },
];

#[test]
fn the_first_of_two_causes_is_counted(rt: HostRuntime) -> Result<(), Fail> {
    assert_eq!(rt; first_wrong(rt.alloc(), &OUTSIDE_FIRST)?, None);
    assert_eq!(rt; first_wrong(rt.alloc(), &LENGTHS_FIRST)?, None);
    assert_eq!(rt; first_wrong(rt.alloc(), &FIRST_CAUSES)?, None);
    assert_eq!(rt; first_wrong(rt.alloc(), &FIRST_OF_TWO)?, None);
    Ok(())
}
