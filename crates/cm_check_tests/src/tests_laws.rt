//! Each law broken alone, pairs of laws that are broken together, and maps that are lawful.
//!
//! Words are worked out by hand for two segments of three tiers, each of 64 chunks of four words: a tier has
//! 389 words, its head's four words, one of bits, 128 slots, and 256 of chunks.

use cm_check::{Broken, Law, check};
use cm_geo::Geo;
use cm_words::Words;
use std::alloc::Global;
use std::test::Fail;

/// A word of a segment, by what it is for.
#[derive(Clone, Copy)]
pub(crate) enum At {
    /// One of the first four words of the segment.
    Head(u32),
    /// A word of the tier at a place: 0 is its link, 1 its count, and 4 its bits.
    Tier(u32, u32),
    /// A slot, by its place and its number.
    Slot(u32, u32),
    /// A word of a chunk, by the place, the chunk and the word's number.
    Chunk(u32, u32, u32),
}

use At::{Chunk, Head, Slot, Tier};

impl At {
    // Its address in a segment.
    fn address(self) -> u32 {
        let (place, offset) = match self {
            Head(at) => return at,
            Tier(place, offset) => (place, offset),
            Slot(place, number) => (place, number.saturating_add(5)),
            Chunk(place, chunk, word) => {
                let at = chunk.saturating_mul(4).saturating_add(word);
                (place, at.saturating_add(133))
            }
        };
        place
            .saturating_mul(389)
            .saturating_add(offset)
            .saturating_add(4)
    }
}

/// A word of a map: its segment, what it is for, and the word.
pub(crate) type Piece = (u32, At, u64);

const SLOT_OF_A: u64 = 0x4300_f646_0000_0001;

const SLOT_OF_E: u64 = 0x4300_f2e0_0000_0004;

const SLOT_OF_PE: u64 = 0xdaba_adff_0000_0005;

const SLOT_OF_ZG: u64 = 0xdac9_1f7f_0000_0006;

// A key and a value of one byte.
const ONE_BYTE: u64 = 0x1_0000_0001;

/// A lawful map. The first segment has a and c in its first tier, and e, pe and zg in its third one, which is
/// the second of its chain; the search for zg begins at the last slot, which is pe's, and goes on at the
/// first one. The value of c ends with what begins an entry of g. The other segment has b in its first tier,
/// and d, whose value is empty, at the last chunk of its second one.
pub(crate) const LAWFUL: [Piece; 52] = [
    (0, Head(1), 12),
    (0, Head(2), 5),
    (0, Tier(0, 0), 2),
    (0, Tier(0, 1), 2),
    (0, Tier(0, 4), 0b111),
    (0, Slot(0, 70), SLOT_OF_A),
    (0, Chunk(0, 0, 0), ONE_BYTE),
    (0, Chunk(0, 0, 1), 0xdcc3_2d51_747b_8d85),
    (0, Chunk(0, 0, 2), 0x61),
    (0, Chunk(0, 0, 3), 0x31),
    (0, Slot(0, 121), 0x4300_f7f9_0000_0002),
    (0, Chunk(0, 1, 0), 0x18_0000_0001),
    (0, Chunk(0, 1, 1), 0xa54f_dcf7_9dbd_5438),
    (0, Chunk(0, 1, 2), 0x63),
    (0, Chunk(0, 1, 3), 0x3736_3534_3332_3130),
    (0, Chunk(0, 2, 0), ONE_BYTE),
    (0, Chunk(0, 2, 1), 0x7cbc_8fd3_642f_f145),
    (0, Chunk(0, 2, 2), 0x67),
    (0, Chunk(0, 2, 3), 0x37),
    (0, Tier(2, 1), 3),
    (0, Tier(2, 4), 0b11_1000),
    (0, Slot(2, 96), SLOT_OF_E),
    (0, Chunk(2, 3, 0), ONE_BYTE),
    (0, Chunk(2, 3, 1), 0x1cb5_f255_53e4_5505),
    (0, Chunk(2, 3, 2), 0x65),
    (0, Chunk(2, 3, 3), 0x35),
    (0, Slot(2, 127), SLOT_OF_PE),
    (0, Chunk(2, 4, 0), 0x1_0000_0002),
    (0, Chunk(2, 4, 1), 0x164a_b8c9_1a2a_a0bb),
    (0, Chunk(2, 4, 2), 0x6570),
    (0, Chunk(2, 4, 3), 0x36),
    (0, Slot(2, 0), SLOT_OF_ZG),
    (0, Chunk(2, 5, 0), 0x1_0000_0002),
    (0, Chunk(2, 5, 1), 0x4767_6f4e_5e66_54c9),
    (0, Chunk(2, 5, 2), 0x677a),
    (0, Chunk(2, 5, 3), 0x38),
    (1, Head(1), 1 << 63),
    (1, Head(2), 2),
    (1, Tier(0, 0), 1),
    (1, Tier(0, 1), 1),
    (1, Tier(0, 4), 1),
    (1, Slot(0, 82), 0x4300_f8d2_0000_0001),
    (1, Chunk(0, 0, 0), ONE_BYTE),
    (1, Chunk(0, 0, 1), 0xae1b_574b_d11a_6fa5),
    (1, Chunk(0, 0, 2), 0x62),
    (1, Chunk(0, 0, 3), 0x32),
    (1, Tier(1, 1), 1),
    (1, Tier(1, 4), 1 << 63),
    (1, Slot(1, 57), 0x4300_f3b9_0000_0040),
    (1, Chunk(1, 63, 0), 1),
    (1, Chunk(1, 63, 1), 0x9c8f_ceee_8016_67c0),
    (1, Chunk(1, 63, 2), 0x64),
];

fn set(words: &mut Words, piece: Piece) {
    let (segment, at, word) = piece;
    let geo = *words.geo();
    if segment < geo.segments()
        && let Some(old) = words.segment_mut(segment).get_mut(at.address() as usize)
    {
        *old = word;
    }
}

/// The lawful map with other words.
pub(crate) fn with(alloc: Global, pieces: &[Piece]) -> Result<Words, Fail> {
    let geo = Geo::new(2, 3, 64, 4, 2)?;
    let mut words = Words::empty(alloc, &geo)?;
    for piece in LAWFUL.iter().chain(pieces) {
        set(&mut words, *piece);
    }
    Ok(words)
}

/// What is named with some words: the law, the segment and the address of the word in it.
type Case<'a> = (&'a str, &'a [Piece], Law, u32, u32);

/// The name of the first case with another answer.
fn first_wrong<'a>(alloc: Global, cases: &[Case<'a>]) -> Result<Option<&'a str>, Fail> {
    for (name, pieces, law, segment, word) in cases {
        let want = Broken {
            law: *law,
            segment: *segment,
            word: *word,
        };
        if check(&with(alloc, pieces)?) != Some(want) {
            return Ok(Some(*name));
        }
    }
    Ok(None)
}

// The first tier begins at word 4 of a segment, the second one at 393, the third one at 782.
const BROKEN_ALONE: [Case<'static>; 39] = [
    ("lock", &[(0, Head(0), 1)], Law::Lock, 0, 0),
    (
        "lock, above its bits",
        &[(1, Head(0), 1 << 40)],
        Law::Lock,
        1,
        0,
    ),
    ("odd number", &[(0, Head(1), 13)], Law::Number, 0, 1),
    (
        "number too high",
        &[(1, Head(1), (1 << 63) + 2)],
        Law::Number,
        1,
        1,
    ),
    ("fourth word", &[(0, Head(3), 1)], Law::Header, 0, 3),
    ("link to itself", &[(0, Tier(2, 0), 2)], Law::Chain, 0, 782),
    ("link to no tier", &[(1, Tier(1, 0), 3)], Law::Chain, 1, 393),
    (
        "link back",
        &[(0, Tier(2, 0), 1), (0, Tier(1, 0), 2)],
        Law::Chain,
        0,
        393,
    ),
    (
        "third word of a tier",
        &[(0, Tier(2, 2), 1)],
        Law::Reserved,
        0,
        784,
    ),
    (
        "fourth word of a tier",
        &[(1, Tier(0, 3), 1)],
        Law::Reserved,
        1,
        7,
    ),
    (
        "slot without a chunk",
        &[(0, Slot(0, 9), 0x89_0000_0000)],
        Law::Slot,
        0,
        18,
    ),
    (
        "chunk behind the tier",
        &[(0, Slot(0, 70), 0x4300_f646_0000_0041)],
        Law::Slot,
        0,
        79,
    ),
    (
        "chunk of no entry",
        &[(0, Slot(0, 70), 0x4300_f646_0000_0009)],
        Law::Slot,
        0,
        79,
    ),
    (
        "key too long",
        &[(0, Chunk(0, 0, 0), 0x1_0000_0101)],
        Law::Slot,
        0,
        79,
    ),
    (
        "value too long",
        &[(0, Chunk(0, 0, 0), 0x1389_0000_0001)],
        Law::Slot,
        0,
        79,
    ),
    ("checksum", &[(1, Chunk(1, 63, 1), 0)], Law::Slot, 1, 455),
    (
        "padding",
        &[
            (0, Chunk(0, 0, 1), 0x8ae9_4ae6_fc76_5704),
            (0, Chunk(0, 0, 2), 0x161),
        ],
        Law::Slot,
        0,
        79,
    ),
    (
        "fingerprint",
        &[(0, Slot(0, 70), 0x4300_f647_0000_0001)],
        Law::Slot,
        0,
        79,
    ),
    (
        "key of another segment",
        &[
            (0, Slot(0, 82), 0x4300_f8d2_0000_000a),
            (0, Chunk(0, 9, 0), ONE_BYTE),
            (0, Chunk(0, 9, 1), 0xae1b_574b_d11a_6fa5),
            (0, Chunk(0, 9, 2), 0x62),
            (0, Chunk(0, 9, 3), 0x32),
        ],
        Law::Slot,
        0,
        91,
    ),
    (
        "gap",
        &[(0, Slot(0, 70), 0), (0, Slot(0, 72), SLOT_OF_A)],
        Law::Gap,
        0,
        81,
    ),
    (
        "gap at the last slot",
        &[(0, Slot(2, 127), 0)],
        Law::Gap,
        0,
        787,
    ),
    (
        "gap behind the first slot",
        &[(0, Slot(2, 0), 0), (0, Slot(2, 1), SLOT_OF_ZG)],
        Law::Gap,
        0,
        788,
    ),
    (
        "key of the slot before",
        &[(0, Slot(0, 71), SLOT_OF_A)],
        Law::Duplicate,
        0,
        80,
    ),
    (
        "key of a slot behind the end",
        &[(0, Slot(2, 0), SLOT_OF_PE)],
        Law::Duplicate,
        0,
        914,
    ),
    (
        "key of another tier",
        &[
            (0, Slot(2, 70), 0x4300_f646_0000_000a),
            (0, Chunk(2, 9, 0), ONE_BYTE),
            (0, Chunk(2, 9, 1), 0xdcc3_2d51_747b_8d85),
            (0, Chunk(2, 9, 2), 0x61),
            (0, Chunk(2, 9, 3), 0x31),
        ],
        Law::Duplicate,
        0,
        857,
    ),
    (
        "run that ends another one",
        &[(0, Slot(0, 19), 0x4300_f493_0000_0003)],
        Law::Overlap,
        0,
        130,
    ),
    (
        "clear bit",
        &[(0, Tier(2, 4), 0b10_1000)],
        Law::Bits,
        0,
        786,
    ),
    (
        "clear bit of a second chunk",
        &[(0, Tier(0, 4), 0b11)],
        Law::Bits,
        0,
        8,
    ),
    ("set bit", &[(1, Tier(0, 4), 0b101)], Law::Bits, 1, 8),
    ("no bits", &[(1, Tier(1, 4), 0)], Law::Bits, 1, 397),
    (
        "count of a tier too high",
        &[(0, Tier(2, 1), 4)],
        Law::TierCount,
        0,
        783,
    ),
    (
        "count of a tier too low",
        &[(1, Tier(0, 1), 0)],
        Law::TierCount,
        1,
        5,
    ),
    (
        "counts that change places",
        &[(0, Tier(0, 1), 3), (0, Tier(2, 1), 2)],
        Law::TierCount,
        0,
        5,
    ),
    (
        "count of the segment",
        &[(1, Head(2), 1)],
        Law::SegmentCount,
        1,
        2,
    ),
    (
        "count of the segment, by 2^32",
        &[(0, Head(2), 0x1_0000_0005)],
        Law::SegmentCount,
        0,
        2,
    ),
    (
        "last word outside the chain",
        &[(0, Tier(1, 388), 1)],
        Law::Unlinked,
        0,
        781,
    ),
    (
        "link outside the chain",
        &[(1, Tier(2, 0), 1)],
        Law::Unlinked,
        1,
        782,
    ),
    (
        "a tier too many",
        &[(1, Tier(1, 0), 2)],
        Law::Allowance,
        1,
        0,
    ),
    (
        "a tier too many before",
        &[(0, Tier(2, 0), 1)],
        Law::Allowance,
        1,
        0,
    ),
];

#[test]
fn each_law_is_broken_alone(rt: HostRuntime) -> Result<(), Fail> {
    assert_eq!(rt; first_wrong(rt.alloc(), &BROKEN_ALONE)?, None);
    Ok(())
}

// A third tier in the first segment's chain, behind the one at the last place, with e once more.
const E_AGAIN: [Piece; 6] = [
    (0, Tier(2, 0), 1),
    (0, Slot(1, 96), 0x4300_f2e0_0000_0002),
    (0, Chunk(1, 1, 0), ONE_BYTE),
    (0, Chunk(1, 1, 1), 0x1cb5_f255_53e4_5505),
    (0, Chunk(1, 1, 2), 0x65),
    (0, Chunk(1, 1, 3), 0x35),
];

const BROKEN_TOGETHER: [Case<'static>; 18] = [
    (
        "lock, number",
        &[(0, Head(0), 1), (0, Head(1), 1)],
        Law::Lock,
        0,
        0,
    ),
    (
        "number, fourth word",
        &[(0, Head(1), 1), (0, Head(3), 1)],
        Law::Number,
        0,
        1,
    ),
    (
        "fourth word, chain",
        &[(0, Tier(2, 0), 2), (0, Head(3), 1)],
        Law::Header,
        0,
        3,
    ),
    (
        "chain, word of a tier",
        &[(0, Tier(2, 0), 2), (0, Tier(0, 2), 1)],
        Law::Chain,
        0,
        782,
    ),
    (
        "word of a tier, slot",
        &[(0, Tier(2, 2), 1), (0, Slot(0, 9), 1)],
        Law::Reserved,
        0,
        784,
    ),
    (
        "words of two tiers, by place",
        &[(0, Tier(2, 0), 1), (0, Tier(2, 2), 1), (0, Tier(1, 3), 1)],
        Law::Reserved,
        0,
        396,
    ),
    (
        "slot behind a gap",
        &[
            (0, Slot(0, 70), 0),
            (0, Slot(0, 72), SLOT_OF_A),
            (0, Slot(2, 9), 1),
        ],
        Law::Slot,
        0,
        796,
    ),
    (
        "slots of two tiers, by place",
        &[(0, Tier(2, 0), 1), (0, Slot(2, 3), 1), (0, Slot(1, 9), 1)],
        Law::Slot,
        0,
        407,
    ),
    (
        "gap, key twice",
        &[(0, Slot(0, 71), SLOT_OF_A), (0, Slot(2, 127), 0)],
        Law::Gap,
        0,
        787,
    ),
    ("key twice, by the chain", &E_AGAIN, Law::Duplicate, 0, 494),
    (
        "key twice, runs that meet",
        &[
            (0, Slot(2, 97), SLOT_OF_E),
            (0, Slot(0, 19), 0x4300_f493_0000_0003),
        ],
        Law::Duplicate,
        0,
        884,
    ),
    (
        "runs that meet, bits",
        &[(0, Slot(0, 19), 0x4300_f493_0000_0003), (0, Tier(0, 4), 0)],
        Law::Overlap,
        0,
        130,
    ),
    (
        "bits, count of a tier",
        &[(0, Tier(2, 4), 0), (0, Tier(0, 1), 0)],
        Law::Bits,
        0,
        786,
    ),
    (
        "counts",
        &[(0, Tier(2, 1), 0), (0, Head(2), 0)],
        Law::TierCount,
        0,
        783,
    ),
    (
        "count of the segment, word outside",
        &[(0, Tier(1, 0), 2), (0, Head(2), 0)],
        Law::SegmentCount,
        0,
        2,
    ),
    (
        "word outside, lock of the next segment",
        &[(0, Tier(1, 7), 1), (1, Head(0), 1)],
        Law::Unlinked,
        0,
        400,
    ),
    (
        "number of a segment, link of the next one",
        &[(0, Head(1), 1), (1, Tier(0, 0), 9)],
        Law::Number,
        0,
        1,
    ),
    (
        "lock, a tier too many before",
        &[(0, Tier(2, 0), 1), (1, Head(0), 1)],
        Law::Lock,
        1,
        0,
    ),
];

#[test]
fn the_first_law_is_named(rt: HostRuntime) -> Result<(), Fail> {
    assert_eq!(rt; first_wrong(rt.alloc(), &BROKEN_TOGETHER)?, None);
    Ok(())
}

#[test]
fn a_map_worked_out_by_hand_is_lawful(rt: HostRuntime) -> Result<(), Fail> {
    assert_eq!(rt; check(&with(rt.alloc(), &[])?), None);
    Ok(())
}
