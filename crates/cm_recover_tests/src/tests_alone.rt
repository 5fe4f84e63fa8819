//! Slots for which one cause to drop them applies and no other, and entries beside dropped ones that are kept.

use crate::tests_causes::{
    CHECKSUM, DUPLICATE, FINGERPRINT, LENGTHS, OUTSIDE, OVERLAP, PADDING, RANGE, SEGMENT,
    SLOT_OF_A_IN_TWO, SLOT_OF_B, SLOT_OF_B_IN_TWO, SLOT_OF_NONE,
};
use crate::tests_recovery::{
    A, ALONE, Case, ONE_BYTE, Piece, SLOT_OF_A, SLOT_OF_BA, SLOT_OF_BBA, first_wrong,
};
use cm_reading::Entry;
use std::test::Fail;

const B: Entry<'static> = Entry {
    place: 0,
    chunk: 2,
    key: b"b",
    value: b"\0",
};

/// The checksum of b's entry.
const CHECKSUM_OF_B: u64 = 0xbb16_370f_f3d6_ea17;

// Slots whose tier, chunk or lengths are wrong. Behind the last chunk of the map there is no word, and a checksum is
// over zeros there.
const NO_ENTRY: [Case<'static>; 8] = [
    Case {
        name: "nothing wrong",
        pieces: &[
            Piece::Slot(0, 12, SLOT_OF_A),
            Piece::Chunk(0, 2, 0, ONE_BYTE),
            Piece::Chunk(0, 2, 1, CHECKSUM_OF_B),
            Piece::Chunk(0, 2, 2, 0x62),
            Piece::Slot(0, 37, SLOT_OF_B),
        ],
        kept: &[A, B],
        ..ALONE
    },
    Case {
        name: "allowance: an entry in a tier outside it",
        pieces: &[
            Piece::Link(0, 1),
            Piece::Slot(0, 12, SLOT_OF_A),
            Piece::Chunk(1, 2, 2, 0x62),
            Piece::Seal(1, 2, ONE_BYTE, 2),
            Piece::Slot(1, 37, SLOT_OF_B),
        ],
        ..OUTSIDE
    },
    Case {
        name: "range: no chunk",
        pieces: &[
            Piece::Slot(0, 12, SLOT_OF_A),
            Piece::Slot(0, 37, 0x8601_f1a5_0000_0000),
        ],
        drops: RANGE,
        ..ALONE
    },
    Case {
        name: "range: words behind the tier that would be an entry",
        tiers: 2,
        extra: 1,
        pieces: &[
            Piece::Slot(0, 12, SLOT_OF_A),
            Piece::Chunk(0, 64, 2, 0x62),
            Piece::Seal(0, 64, ONE_BYTE, 2),
            Piece::Slot(0, 37, 0x8601_f1a5_0000_0041),
        ],
        drops: RANGE,
        ..ALONE
    },
    Case {
        name: "range: all ones below",
        pieces: &[
            Piece::Slot(0, 12, SLOT_OF_A),
            Piece::Slot(0, 37, 0x8601_f1a5_ffff_ffff),
        ],
        drops: RANGE,
        ..ALONE
    },
    Case {
        name: "lengths: empty key",
        pieces: &[
            Piece::Slot(0, 12, SLOT_OF_A),
            Piece::Seal(0, 2, 0, 0),
            Piece::Slot(0, 37, SLOT_OF_NONE),
        ],
        drops: LENGTHS,
        ..ALONE
    },
    Case {
        name: "lengths: key of 257 zeros",
        pieces: &[
            Piece::Slot(0, 12, SLOT_OF_A),
            Piece::Seal(0, 2, 0x101, 33),
            Piece::Slot(0, 95, 0x2008_33df_0000_0003),
        ],
        drops: LENGTHS,
        ..ALONE
    },
    Case {
        name: "lengths: run behind the tier",
        pieces: &[
            Piece::Slot(0, 12, SLOT_OF_A),
            Piece::Chunk(0, 63, 2, 0x62),
            Piece::Seal(0, 63, 0x28_0000_0001, 6),
            Piece::Slot(0, 37, 0x8601_f1a5_0000_0040),
        ],
        drops: LENGTHS,
        ..ALONE
    },
];

// Slots of b's entry, with something wrong about it.
const WRONG_ENTRY: [Case<'static>; 9] = [
    Case {
        name: "checksum: its lowest bit",
        pieces: &[
            Piece::Slot(0, 12, SLOT_OF_A),
            Piece::Chunk(0, 2, 0, ONE_BYTE),
            Piece::Chunk(0, 2, 1, 0xbb16_370f_f3d6_ea16),
            Piece::Chunk(0, 2, 2, 0x62),
            Piece::Slot(0, 37, SLOT_OF_B),
        ],
        drops: CHECKSUM,
        ..ALONE
    },
    Case {
        name: "checksum: its highest bit",
        pieces: &[
            Piece::Slot(0, 12, SLOT_OF_A),
            Piece::Chunk(0, 2, 0, ONE_BYTE),
            Piece::Chunk(0, 2, 1, 0x3b16_370f_f3d6_ea17),
            Piece::Chunk(0, 2, 2, 0x62),
            Piece::Slot(0, 37, SLOT_OF_B),
        ],
        drops: CHECKSUM,
        ..ALONE
    },
    Case {
        name: "checksum: one bit of the value",
        pieces: &[
            Piece::Slot(0, 12, SLOT_OF_A),
            Piece::Chunk(0, 2, 0, ONE_BYTE),
            Piece::Chunk(0, 2, 1, CHECKSUM_OF_B),
            Piece::Chunk(0, 2, 2, 0x62),
            Piece::Chunk(0, 2, 3, 0x80),
            Piece::Slot(0, 37, SLOT_OF_B),
        ],
        drops: CHECKSUM,
        ..ALONE
    },
    Case {
        name: "padding: the first byte behind the key",
        pieces: &[
            Piece::Slot(0, 12, SLOT_OF_A),
            Piece::Chunk(0, 2, 2, 0x162),
            Piece::Seal(0, 2, ONE_BYTE, 2),
            Piece::Slot(0, 37, SLOT_OF_B),
        ],
        drops: PADDING,
        ..ALONE
    },
    Case {
        name: "padding: the last byte behind the value",
        pieces: &[
            Piece::Slot(0, 12, SLOT_OF_A),
            Piece::Chunk(0, 2, 2, 0x62),
            Piece::Chunk(0, 2, 3, 0x0100_0000_0000_0031),
            Piece::Seal(0, 2, ONE_BYTE, 2),
            Piece::Slot(0, 37, SLOT_OF_B),
        ],
        drops: PADDING,
        ..ALONE
    },
    Case {
        name: "segment: a key of the second one in the first",
        segments: 2,
        pieces: &[
            Piece::Slot(0, 70, SLOT_OF_A_IN_TWO),
            Piece::Chunk(0, 2, 2, 0x62),
            Piece::Seal(0, 2, ONE_BYTE, 2),
            Piece::Slot(0, 82, SLOT_OF_B_IN_TWO),
        ],
        drops: SEGMENT,
        ..ALONE
    },
    Case {
        name: "fingerprint: its highest bit, with the same home",
        pieces: &[
            Piece::Slot(0, 12, SLOT_OF_A),
            Piece::Chunk(0, 2, 2, 0x62),
            Piece::Seal(0, 2, ONE_BYTE, 2),
            Piece::Slot(0, 37, 0x0601_f1a5_0000_0003),
        ],
        drops: FINGERPRINT,
        ..ALONE
    },
    Case {
        name: "fingerprint: its lowest bit, with another home",
        pieces: &[
            Piece::Slot(0, 12, SLOT_OF_A),
            Piece::Chunk(0, 2, 2, 0x62),
            Piece::Seal(0, 2, ONE_BYTE, 2),
            Piece::Slot(0, 36, 0x8601_f1a4_0000_0003),
        ],
        drops: FINGERPRINT,
        ..ALONE
    },
    Case {
        name: "fingerprint: zero",
        pieces: &[
            Piece::Slot(0, 12, SLOT_OF_A),
            Piece::Chunk(0, 2, 2, 0x62),
            Piece::Seal(0, 2, ONE_BYTE, 2),
            Piece::Slot(0, 0, 0x3),
        ],
        drops: FINGERPRINT,
        ..ALONE
    },
];

// Slots whose entry alone would be kept. The run of ba has two chunks.
const BESIDE_KEPT: [Case<'static>; 3] = [
    Case {
        name: "duplicate: a key at another chunk of its tier",
        pieces: &[
            Piece::Slot(0, 12, SLOT_OF_A),
            Piece::Chunk(0, 2, 2, 0x61),
            Piece::Seal(0, 2, ONE_BYTE, 2),
            Piece::Slot(0, 13, 0x8601_ec8c_0000_0003),
        ],
        drops: DUPLICATE,
        ..ALONE
    },
    Case {
        name: "overlap: a run that holds a kept one",
        pieces: &[
            Piece::Chunk(0, 2, 2, 0x61_6262),
            Piece::Chunk(0, 2, 3, 0x33),
            Piece::Seal(0, 2, 0x1_0000_0003, 2),
            Piece::Chunk(0, 1, 2, 0x6162),
            Piece::Seal(0, 1, 0x18_0000_0002, 4),
            Piece::Slot(0, 3, SLOT_OF_BBA),
            Piece::Slot(0, 12, SLOT_OF_A),
            Piece::Slot(0, 13, SLOT_OF_BA),
        ],
        kept: &[
            A,
            Entry {
                place: 0,
                chunk: 2,
                key: b"bba",
                value: b"3",
            },
        ],
        drops: OVERLAP,
        ..ALONE
    },
    Case {
        name: "overlap: in part, the earlier run first",
        pieces: &[
            Piece::Chunk(0, 2, 2, 0x61_6262),
            Piece::Seal(0, 2, 0x18_0000_0003, 4),
            Piece::Chunk(0, 1, 2, 0x6162),
            Piece::Seal(0, 1, 0x18_0000_0002, 4),
            Piece::Slot(0, 12, SLOT_OF_A),
            Piece::Slot(0, 13, SLOT_OF_BA),
            Piece::Slot(0, 14, SLOT_OF_BBA),
        ],
        kept: &[
            A,
            Entry {
                place: 0,
                chunk: 1,
                key: b"ba",
                value: b"\0\0\0\0\0\0\0\0\x03\0\0\0\x18\0\0\0\x2b\x52\x67\x06\x7f\x97\xe1\x86",
            },
        ],
        drops: OVERLAP,
        ..ALONE
    },
];

// What was dropped stands in nobody's way, nor does what is in another tier.
const KEPT_BESIDE: [Case<'static>; 3] = [
    Case {
        name: "a key whose first entry was dropped",
        pieces: &[
            Piece::Chunk(0, 2, 0, ONE_BYTE),
            Piece::Chunk(0, 2, 2, 0x61),
            Piece::Slot(0, 3, 0x8601_ec8c_0000_0003),
            Piece::Slot(0, 12, SLOT_OF_A),
        ],
        drops: CHECKSUM,
        ..ALONE
    },
    Case {
        name: "a run that meets a dropped one",
        pieces: &[
            Piece::Chunk(0, 2, 2, 0x62),
            Piece::Seal(0, 2, ONE_BYTE, 2),
            Piece::Chunk(0, 1, 2, 0x6162),
            Piece::Seal(0, 1, 0x18_0000_0002, 4),
            Piece::Slot(0, 3, 0x28_0000_0002),
            Piece::Slot(0, 12, SLOT_OF_A),
            Piece::Slot(0, 37, SLOT_OF_B),
        ],
        kept: &[A, B],
        drops: FINGERPRINT,
        ..ALONE
    },
    Case {
        name: "the same chunk of two tiers",
        tiers: 2,
        extra: 1,
        pieces: &[
            Piece::Link(0, 1),
            Piece::Slot(0, 12, SLOT_OF_A),
            Piece::Chunk(1, 0, 2, 0x62),
            Piece::Seal(1, 0, ONE_BYTE, 2),
            Piece::Slot(1, 37, 0x8601_f1a5_0000_0001),
        ],
        chain: &[0, 1],
        kept: &[
            A,
            Entry {
                place: 1,
                chunk: 0,
                key: b"b",
                value: b"\0",
            },
        ],
        ..ALONE
    },
];

#[test]
fn each_cause_drops_a_slot_alone(rt: HostRuntime) -> Result<(), Fail> {
    assert_eq!(rt; first_wrong(rt.alloc(), &NO_ENTRY)?, None);
    assert_eq!(rt; first_wrong(rt.alloc(), &WRONG_ENTRY)?, None);
    assert_eq!(rt; first_wrong(rt.alloc(), &BESIDE_KEPT)?, None);
    Ok(())
}

#[test]
fn what_was_dropped_drops_no_other(rt: HostRuntime) -> Result<(), Fail> {
    assert_eq!(rt; first_wrong(rt.alloc(), &KEPT_BESIDE)?, None);
    Ok(())
}
