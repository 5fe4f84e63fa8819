//! Torn words, worked out by hand: what stands between the stores of a change, for a change of each kind.
//!
//! A segment has one or two tiers of 64 chunks of four words. The keys a, ba, bba and bbba all begin
//! their search at slot 12.

use cm_geo::Geo;
use cm_reading::{At, Change, Entry, Segment};
use std::alloc::Global;
use std::test::Fail;

const A: Entry<'static> = Entry {
    place: 0,
    chunk: 0,
    key: b"a",
    value: b"1",
};

const BA: Entry<'static> = Entry {
    place: 0,
    chunk: 1,
    key: b"ba",
    value: b"2",
};

const BBA: Entry<'static> = Entry {
    place: 0,
    chunk: 2,
    key: b"bba",
    value: b"3",
};

// Its 62 chunks fill a tier behind a and ba.
const Z: Entry<'static> = Entry {
    place: 0,
    chunk: 2,
    key: b"z",
    value: &[0; 1960],
};

const SLOT_OF_BA: u64 = 0xb54d_d00c_0000_0002;

const SLOT_OF_BBA: u64 = 0x1341_628c_0000_0003;

// The words of the entries of a and ba, and their slots.
pub(crate) const TWO_ENTRIES: [(At, u64); 10] = [
    (At::Chunk(0, 0, 0), 0x1_0000_0001),
    (At::Chunk(0, 0, 1), 0xdcc3_2d51_747b_8d85),
    (At::Chunk(0, 0, 2), 0x61),
    (At::Chunk(0, 0, 3), 0x31),
    (At::Slot(0, 12), 0x8601_ec8c_0000_0001),
    (At::Chunk(0, 1, 0), 0x1_0000_0002),
    (At::Chunk(0, 1, 1), 0xacaf_acb0_470c_6e1d),
    (At::Chunk(0, 1, 2), 0x6162),
    (At::Chunk(0, 1, 3), 0x32),
    (At::Slot(0, 13), SLOT_OF_BA),
];

// The words of bba's entry, its slot, and the bits and counts of a, ba and bba.
const WITH_BBA: [(At, u64); 8] = [
    (At::Chunk(0, 2, 0), 0x1_0000_0003),
    (At::Chunk(0, 2, 1), 0xc6a8_0f87_42ac_75d5),
    (At::Chunk(0, 2, 2), 0x61_6262),
    (At::Chunk(0, 2, 3), 0x33),
    (At::Slot(0, 14), SLOT_OF_BBA),
    (At::Bits(0), 0b111),
    (At::Held(0), 3),
    (At::Entries, 3),
];

// The words of z's entry but for its value's, which are 0, its slot, and the bits and counts of a, ba and z.
const WITH_Z: [(At, u64); 7] = [
    (At::Chunk(0, 2, 0), 0x7a8_0000_0001),
    (At::Chunk(0, 2, 1), 0xea79_6e7a_9b92_11db),
    (At::Chunk(0, 2, 2), 0x7a),
    (At::Slot(0, 109), 0x8602_1a6d_0000_0003),
    (At::Bits(0), u64::MAX),
    (At::Held(0), 3),
    (At::Entries, 3),
];

/// A change of some words, with its stores in their order.
#[derive(Clone, Copy)]
pub(crate) struct Trial<'a> {
    pub(crate) tiers: u32,
    pub(crate) first: &'a [(At, u64)],
    pub(crate) change: Change<'a, 'a>,
    pub(crate) stores: &'a [(At, u64)],
}

impl Trial<'_> {
    /// The words before the change.
    fn segment(&self, alloc: Global) -> Result<Segment, Fail> {
        let geo = Geo::new(1, self.tiers, 64, 4, self.tiers.saturating_sub(1))?;
        let mut segment = Segment::of(alloc, geo, &TWO_ENTRIES)?;
        for (at, word) in self.first {
            segment.store(*at, *word);
        }
        Ok(segment)
    }
}

/// The entries of others, with one more, if any.
pub(crate) fn entries_with<'a>(
    alloc: Global,
    others: &[Entry<'a>],
    its: Option<Entry<'a>>,
) -> Result<Vec<Entry<'a>>, Fail> {
    let mut entries = Vec::from_slice(alloc, others)?;
    if let Some(entry) = its {
        entries.push(entry)?;
    }
    Ok(entries)
}

// bbba goes to the first empty slot behind its home, and to the first free chunk.
pub(crate) fn fresh_put() -> Trial<'static> {
    Trial {
        tiers: 1,
        first: &WITH_BBA,
        change: Change {
            others: &[A, BA, BBA],
            old: None,
            new: Some(Entry {
                place: 0,
                chunk: 3,
                key: b"bbba",
                value: b"4",
            }),
            in_place: false,
            chains: [&[0], &[0]],
        },
        stores: &[
            (At::Bits(0), 0b1111),
            (At::Chunk(0, 3, 0), 0x1_0000_0004),
            (At::Chunk(0, 3, 2), 0x6162_6262),
            (At::Chunk(0, 3, 3), 0x34),
            (At::Chunk(0, 3, 1), 0xd464_8922_4a5a_6405),
            (At::Slot(0, 15), 0xb823_520c_0000_0004),
            (At::Held(0), 4),
            (At::Entries, 4),
        ],
    }
}

// The chunk behind bba is free, so its longer value stays.
pub(crate) fn longer_in_place() -> Trial<'static> {
    Trial {
        tiers: 1,
        first: &WITH_BBA,
        change: Change {
            others: &[A, BA],
            old: Some(BBA),
            new: Some(Entry {
                value: b"123456789",
                ..BBA
            }),
            in_place: true,
            chains: [&[0], &[0]],
        },
        stores: &[
            (At::Bits(0), 0b1111),
            (At::Chunk(0, 2, 0), 0x9_0000_0003),
            (At::Chunk(0, 2, 3), 0x3837_3635_3433_3231),
            (At::Chunk(0, 3, 0), 0x39),
            (At::Chunk(0, 2, 1), 0x3511_f614_b77f_d777),
        ],
    }
}

// The chunk behind a is taken, so its longer value goes behind all others.
pub(crate) fn move_in_a_tier() -> Trial<'static> {
    Trial {
        tiers: 1,
        first: &WITH_BBA,
        change: Change {
            others: &[BA, BBA],
            old: Some(A),
            new: Some(Entry {
                chunk: 3,
                value: b"123456789",
                ..A
            }),
            in_place: false,
            chains: [&[0], &[0]],
        },
        stores: &[
            (At::Bits(0), 0b11111),
            (At::Chunk(0, 3, 0), 0x9_0000_0001),
            (At::Chunk(0, 3, 2), 0x61),
            (At::Chunk(0, 3, 3), 0x3837_3635_3433_3231),
            (At::Chunk(0, 4, 0), 0x39),
            (At::Chunk(0, 3, 1), 0x3693_2388_5ef9_e03d),
            (At::Slot(0, 12), 0x8601_ec8c_0000_0004),
            (At::Bits(0), 0b11110),
        ],
    }
}

// The tier is full, so a's longer value goes to a tier that is linked, and ba's slot to a's.
pub(crate) fn move_to_a_new_tier() -> Trial<'static> {
    Trial {
        tiers: 2,
        first: &WITH_Z,
        change: Change {
            others: &[BA, Z],
            old: Some(A),
            new: Some(Entry {
                place: 1,
                value: b"123456789",
                ..A
            }),
            in_place: false,
            chains: [&[0], &[0, 1]],
        },
        stores: &[
            (At::Link(0), 1),
            (At::Bits(1), 0b11),
            (At::Chunk(1, 0, 0), 0x9_0000_0001),
            (At::Chunk(1, 0, 2), 0x61),
            (At::Chunk(1, 0, 3), 0x3837_3635_3433_3231),
            (At::Chunk(1, 1, 0), 0x39),
            (At::Chunk(1, 0, 1), 0x3693_2388_5ef9_e03d),
            (At::Slot(1, 12), 0x8601_ec8c_0000_0001),
            (At::Slot(0, 12), SLOT_OF_BA),
            (At::Slot(0, 13), 0),
            (At::Bits(0), u64::MAX - 1),
            (At::Held(0), 2),
            (At::Held(1), 1),
        ],
    }
}

// The slots of ba and bba move up to their home.
pub(crate) fn removal() -> Trial<'static> {
    Trial {
        tiers: 1,
        first: &WITH_BBA,
        change: Change {
            others: &[BA, BBA],
            old: Some(A),
            new: None,
            in_place: false,
            chains: [&[0], &[0]],
        },
        stores: &[
            (At::Slot(0, 12), SLOT_OF_BA),
            (At::Slot(0, 13), SLOT_OF_BBA),
            (At::Slot(0, 14), 0),
            (At::Bits(0), 0b110),
            (At::Held(0), 2),
            (At::Entries, 2),
        ],
    }
}

#[test]
fn words_are_torn_after_each_store(rt: HostRuntime) -> Result<(), Fail> {
    let cases = [
        ("fresh put", fresh_put()),
        ("longer in place", longer_in_place()),
        ("move in a tier", move_in_a_tier()),
        ("move to a new tier", move_to_a_new_tier()),
        ("removal", removal()),
    ];
    for (name, trial) in cases {
        let change = trial.change;
        let [before, after] = change.chains;
        let mut segment = trial.segment(rt.alloc())?;
        let first = entries_with(rt.alloc(), change.others, change.old)?;
        assert!(rt; segment.rests(before, &first), "before {name}");
        let refused = segment.first_refused(&change, trial.stores);
        assert_eq!(rt; refused, None, "at {name}");
        let last = entries_with(rt.alloc(), change.others, change.new)?;
        assert!(rt; segment.rests(after, &last), "after {name}");
    }
    Ok(())
}

// Each case has two stores in each other's place, so one of them comes too early.
#[test]
fn words_are_not_torn_after_a_store_too_early(rt: HostRuntime) -> Result<(), Fail> {
    let cases = [
        ("slot before the entry", fresh_put(), 1, 5),
        ("checksum before the value", longer_in_place(), 1, 4),
        ("slot turned before the entry", move_in_a_tier(), 1, 6),
        ("bits before the link", move_to_a_new_tier(), 0, 1),
        ("new slot before the entry", move_to_a_new_tier(), 2, 7),
        (
            "old slot lost before the new one",
            move_to_a_new_tier(),
            7,
            8,
        ),
        ("last slot emptied first", removal(), 0, 2),
    ];
    for (name, trial, early, late) in cases {
        let mut stores = Vec::from_slice(rt.alloc(), trial.stores)?;
        assert!(rt; early < late && late < stores.len(), "at {name}");
        stores.swap(early, late);
        let mut segment = trial.segment(rt.alloc())?;
        let refused = segment.first_refused(&trial.change, &stores);
        assert_eq!(rt; refused, Some(early + 1), "at {name}");
    }
    Ok(())
}

// Each case has one store that is none of the change's.
#[test]
fn words_are_not_torn_after_a_store_of_another_change(rt: HostRuntime) -> Result<(), Fail> {
    let cases = [
        ("another's value", fresh_put(), At::Chunk(0, 0, 3), 0x32),
        ("another's slot", fresh_put(), At::Slot(0, 13), 0),
        ("slot of none", removal(), At::Slot(0, 40), 0x28_0000_0002),
        ("link to no tier", fresh_put(), At::Link(0), 1),
        ("value that goes", removal(), At::Chunk(0, 0, 3), 0x32),
        ("only slot", move_in_a_tier(), At::Slot(0, 12), 0),
        ("key in place", longer_in_place(), At::Chunk(0, 2, 2), 0x62),
        (
            "lengths in place",
            longer_in_place(),
            At::Chunk(0, 2, 0),
            0x2_0000_0003,
        ),
        ("unlinked word", move_to_a_new_tier(), At::Chunk(1, 5, 0), 1),
    ];
    for (name, trial, at, word) in cases {
        let mut segment = trial.segment(rt.alloc())?;
        let refused = segment.first_refused(&trial.change, &[(at, word)]);
        assert_eq!(rt; refused, Some(1), "at {name}");
    }
    Ok(())
}
