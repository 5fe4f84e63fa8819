//! Recovery of words that are worked out by hand, and of any words.
//!
//! A tier has 64 chunks of four words: its head's four words, one of bits, 128 slots, and 256 of chunks. A
//! map of one segment has the hash as fingerprint, in its low half; one of two segments the hash without its
//! lowest bit, which is the segment.

use cm_check::check;
use cm_geo::{Geo, hash, hash_byte};
use cm_plain::{Drops, NoMemory, SegFound};
use cm_reading::{Entry, Segment};
use cm_recover::recover;
use cm_words::Words;
use std::alloc::Global;
use std::test::Fail;

/// The words of one tier.
const TIER: u32 = 389;

/// Words of a segment, or of those behind it.
#[derive(Clone, Copy)]
pub(crate) enum Piece {
    /// A word at an address, counted from the segment's first word.
    Word(u32, u64),
    /// The link of the tier at a place.
    Link(u32, u64),
    /// A slot, by its place and its number.
    Slot(u32, u32, u64),
    /// A word of a chunk, by the place, the chunk and the word's number.
    Chunk(u32, u32, u32, u64),
    /// The first word of an entry at a place and a chunk, and behind it the checksum of it and of so many
    /// words that stand behind both.
    Seal(u32, u32, u64, u32),
}

// The address of a word of the tier at a place, from the segment's first word on.
pub(crate) fn tier_word(place: u32, offset: u32) -> u32 {
    4u32.saturating_add(place.saturating_mul(TIER))
        .saturating_add(offset)
}

// The address of a word of a chunk, counted so.
fn chunk_word(place: u32, chunk: u32, word: u32) -> u32 {
    tier_word(place, 133)
        .saturating_add(chunk.saturating_mul(4))
        .saturating_add(word)
}

pub(crate) const NONE: Drops = Drops {
    range: 0,
    lengths: 0,
    checksum: 0,
    padding: 0,
    segment: 0,
    fingerprint: 0,
    duplicate: 0,
    overlap: 0,
    allowance: 0,
};

pub(crate) const A: Entry<'static> = Entry {
    place: 0,
    chunk: 0,
    key: b"a",
    value: b"1",
};

pub(crate) const SLOT_OF_A: u64 = 0x8601_ec8c_0000_0001;

pub(crate) const SLOT_OF_BA: u64 = 0xb54d_d00c_0000_0002;

pub(crate) const SLOT_OF_BBA: u64 = 0x1341_628c_0000_0003;

// A key and a value of one byte.
pub(crate) const ONE_BYTE: u64 = 0x1_0000_0001;

// The entry of a and 1 at the first chunk of the first tier, without its slot.
const ENTRY_OF_A: [Piece; 3] = [
    Piece::Chunk(0, 0, 2, 0x61),
    Piece::Chunk(0, 0, 3, 0x31),
    Piece::Seal(0, 0, ONE_BYTE, 2),
];

/// A map with the entry of a, and what recovery makes of it with other pieces.
#[derive(Clone, Copy)]
pub(crate) struct Case<'a> {
    pub name: &'static str,
    pub segments: u32,
    pub tiers: u32,
    pub extra: u32,
    pub pieces: &'a [Piece],
    pub chain: &'a [u32],
    pub kept: &'a [Entry<'static>],
    pub drops: Drops,
    pub cut: bool,
    pub lock: u64,
    pub in_flight: bool,
}

pub(crate) const ALONE: Case<'static> = Case {
    name: "alone",
    segments: 1,
    tiers: 1,
    extra: 0,
    pieces: &[Piece::Slot(0, 12, SLOT_OF_A)],
    chain: &[0],
    kept: &[A],
    drops: NONE,
    cut: false,
    lock: 0,
    in_flight: false,
};

fn word_at(words: &Words, at: u32) -> u64 {
    if at < words.geo().total_words() {
        words.get(at)
    } else {
        0
    }
}

pub(crate) fn set_word(words: &mut Words, at: u32, word: u64) {
    if at < words.geo().total_words() {
        words.set(at, word);
    }
}

/// The entry's first word and its checksum, over the words that stand behind them.
fn seal(words: &mut Words, at: u32, head: u64, count: u32) {
    let mut state = hash(&head.to_le_bytes());
    let first = at.saturating_add(2);
    for behind in first..first.saturating_add(count) {
        for byte in word_at(words, behind).to_le_bytes() {
            state = hash_byte(state, byte);
        }
    }
    set_word(words, at, head);
    set_word(words, at.saturating_add(1), state);
}

// A piece of the segment whose first word is at an address.
pub(crate) fn apply(words: &mut Words, first: u32, piece: Piece) {
    let at = match piece {
        Piece::Word(at, _) => at,
        Piece::Link(place, _) => tier_word(place, 0),
        Piece::Slot(place, number, _) => tier_word(place, 5).saturating_add(number),
        Piece::Chunk(place, chunk, number, _) => chunk_word(place, chunk, number),
        Piece::Seal(place, chunk, ..) => chunk_word(place, chunk, 0),
    };
    let at = first.saturating_add(at);
    match piece {
        Piece::Seal(_, _, head, count) => seal(words, at, head, count),
        Piece::Word(_, word)
        | Piece::Link(_, word)
        | Piece::Slot(_, _, word)
        | Piece::Chunk(_, _, _, word) => set_word(words, at, word),
    }
}

impl Case<'_> {
    pub(crate) fn geo(&self) -> Result<Geo, Fail> {
        Ok(Geo::new(self.segments, self.tiers, 64, 4, self.extra)?)
    }

    fn words(&self, alloc: Global) -> Result<Words, Fail> {
        let mut words = Words::empty(alloc, &self.geo()?)?;
        for piece in ENTRY_OF_A.iter().chain(self.pieces) {
            apply(&mut words, 0, *piece);
        }
        Ok(words)
    }

    /// What is found in its segment.
    pub(crate) fn found(&self, segment: u32) -> SegFound {
        SegFound {
            segment,
            kept: u32::try_from(self.kept.len()).unwrap_or(u32::MAX),
            drops: self.drops,
            lock: self.lock,
            in_flight: self.in_flight,
            cut: self.cut,
        }
    }
}

/// Whether a segment's words represent a chain and these entries, after no change.
pub(crate) fn rests(
    alloc: Global,
    words: &Words,
    segment: u32,
    chain: &[u32],
    kept: &[Entry<'_>],
) -> Result<bool, Fail> {
    if segment >= words.geo().segments() {
        return Ok(false);
    }
    let its = words.segment(segment);
    let read = Segment::with_words(alloc, *words.geo(), its)?;
    Ok(its.starts_with(&[0, 0]) && read.rests(chain, kept))
}

/// Recovers words twice. The words are lawful after the first time; the second time drops nothing, and keeps as many
/// entries. Answers what was found at first.
pub(crate) fn recover_twice(
    alloc: Global,
    words: &mut Words,
) -> Result<Option<Vec<SegFound>>, NoMemory> {
    let found = recover(alloc, words)?;
    let is_lawful = check(words).is_none();
    let again = recover(alloc, words)?;
    let same = is_lawful
        && found.len() == again.len()
        && found.iter().zip(&again).all(|(one, two)| {
            let quiet = SegFound {
                drops: NONE,
                lock: 0,
                in_flight: false,
                cut: false,
                ..*one
            };
            *two == quiet
        });
    Ok(if same { Some(found) } else { None })
}

/// The name of the first case whose first segment isn't found or recovered as it says.
pub(crate) fn first_wrong(alloc: Global, cases: &[Case<'_>]) -> Result<Option<&'static str>, Fail> {
    for case in cases {
        let mut words = case.words(alloc)?;
        let found = recover_twice(alloc, &mut words)?;
        let is_found = found.is_some_and(|found| found.first() == Some(&case.found(0)));
        if !is_found || !rests(alloc, &words, 0, case.chain, case.kept)? {
            return Ok(Some(case.name));
        }
    }
    Ok(None)
}

// Of each case the first slot is that of a, which is kept unless the case says otherwise.
const CAUSES: [Case<'static>; 11] = [
    ALONE,
    Case {
        name: "no chunk",
        pieces: &[
            Piece::Slot(0, 12, SLOT_OF_A),
            Piece::Slot(0, 40, 0x28_0000_0000),
        ],
        drops: Drops { range: 1, ..NONE },
        ..ALONE
    },
    Case {
        name: "chunk behind the tier",
        pieces: &[
            Piece::Slot(0, 12, SLOT_OF_A),
            Piece::Slot(0, 40, 0x28_0000_0041),
        ],
        drops: Drops { range: 1, ..NONE },
        ..ALONE
    },
    Case {
        name: "empty key, whose checksum and fingerprint are wrong too",
        pieces: &[
            Piece::Slot(0, 12, SLOT_OF_A),
            Piece::Slot(0, 40, 0x28_0000_0003),
        ],
        drops: Drops { lengths: 1, ..NONE },
        ..ALONE
    },
    Case {
        name: "run behind the tier, with another fingerprint",
        pieces: &[
            Piece::Slot(0, 12, SLOT_OF_A),
            Piece::Slot(0, 40, 0x28_0000_0040),
            Piece::Seal(0, 63, 0x28_0000_0001, 2),
        ],
        drops: Drops { lengths: 1, ..NONE },
        ..ALONE
    },
    Case {
        name: "wrong checksum, with padding that isn't zero and another fingerprint",
        pieces: &[
            Piece::Slot(0, 12, SLOT_OF_A),
            Piece::Slot(0, 40, 0x28_0000_0003),
            Piece::Chunk(0, 2, 0, ONE_BYTE),
            Piece::Chunk(0, 2, 2, 0x162),
        ],
        drops: Drops {
            checksum: 1,
            ..NONE
        },
        ..ALONE
    },
    Case {
        name: "padding of the value, with another fingerprint",
        pieces: &[
            Piece::Slot(0, 12, SLOT_OF_A),
            Piece::Slot(0, 40, 0x28_0000_0003),
            Piece::Chunk(0, 2, 2, 0x62),
            Piece::Chunk(0, 2, 3, 0x131),
            Piece::Seal(0, 2, ONE_BYTE, 2),
        ],
        drops: Drops { padding: 1, ..NONE },
        ..ALONE
    },
    Case {
        name: "other fingerprint, of a key and a run that were kept",
        pieces: &[
            Piece::Slot(0, 12, SLOT_OF_A),
            Piece::Slot(0, 40, 0x28_0000_0001),
        ],
        drops: Drops {
            fingerprint: 1,
            ..NONE
        },
        ..ALONE
    },
    Case {
        name: "second slot of a run",
        pieces: &[Piece::Slot(0, 12, SLOT_OF_A), Piece::Slot(0, 13, SLOT_OF_A)],
        drops: Drops {
            duplicate: 1,
            ..NONE
        },
        ..ALONE
    },
    Case {
        name: "all slots but the last",
        pieces: &[
            Piece::Slot(0, 0, 0x28_0000_0003),
            Piece::Slot(0, 1, 0x28_0000_0000),
            Piece::Slot(0, 127, SLOT_OF_A),
        ],
        drops: Drops {
            range: 1,
            lengths: 1,
            ..NONE
        },
        ..ALONE
    },
    Case {
        name: "nothing but the entry",
        pieces: &[],
        kept: &[],
        ..ALONE
    },
];

#[test]
fn each_slot_is_dropped_for_its_first_cause(rt: HostRuntime) -> Result<(), Fail> {
    assert_eq!(rt; first_wrong(rt.alloc(), &CAUSES)?, None);
    Ok(())
}

// The run of ba has two chunks, of which bba's begins in the second.
const MEETING_RUNS: [Case<'static>; 2] = [
    Case {
        name: "whole",
        pieces: &[
            Piece::Chunk(0, 2, 2, 0x61_6262),
            Piece::Chunk(0, 2, 3, 0x33),
            Piece::Seal(0, 2, 0x1_0000_0003, 2),
            Piece::Chunk(0, 1, 2, 0x6162),
            Piece::Seal(0, 1, 0x18_0000_0002, 4),
            Piece::Slot(0, 12, SLOT_OF_A),
            Piece::Slot(0, 13, SLOT_OF_BA),
            Piece::Slot(0, 14, SLOT_OF_BBA),
        ],
        kept: &[
            A,
            Entry {
                place: 0,
                chunk: 1,
                key: b"ba",
                value: b"\0\0\0\0\0\0\0\0\x03\0\0\0\x01\0\0\0\xd5\x75\xac\x42\x87\x0f\xa8\xc6",
            },
        ],
        drops: Drops { overlap: 1, ..NONE },
        ..ALONE
    },
    Case {
        name: "in part, the later run first",
        pieces: &[
            Piece::Chunk(0, 2, 2, 0x61_6262),
            Piece::Seal(0, 2, 0x18_0000_0003, 4),
            Piece::Chunk(0, 1, 2, 0x6162),
            Piece::Seal(0, 1, 0x18_0000_0002, 4),
            Piece::Slot(0, 3, SLOT_OF_BBA),
            Piece::Slot(0, 12, SLOT_OF_A),
            Piece::Slot(0, 13, SLOT_OF_BA),
        ],
        kept: &[
            A,
            Entry {
                place: 0,
                chunk: 2,
                key: b"bba",
                value: &[0; 24],
            },
        ],
        drops: Drops { overlap: 1, ..NONE },
        ..ALONE
    },
];

#[test]
fn no_two_runs_that_meet_are_kept(rt: HostRuntime) -> Result<(), Fail> {
    assert_eq!(rt; first_wrong(rt.alloc(), &MEETING_RUNS)?, None);
    Ok(())
}

const TWO_TIERS: Case<'static> = Case {
    tiers: 2,
    extra: 1,
    ..ALONE
};

const THREE_TIERS: Case<'static> = Case {
    tiers: 3,
    extra: 2,
    ..ALONE
};

const CHAINS: [Case<'static>; 10] = [
    Case {
        name: "key in two tiers",
        pieces: &[
            Piece::Link(0, 1),
            Piece::Slot(0, 12, SLOT_OF_A),
            Piece::Chunk(1, 5, 2, 0x61),
            Piece::Seal(1, 5, ONE_BYTE, 2),
            Piece::Slot(1, 12, 0x8601_ec8c_0000_0006),
        ],
        chain: &[0, 1],
        drops: Drops {
            duplicate: 1,
            ..NONE
        },
        ..TWO_TIERS
    },
    Case {
        name: "key in two tiers of an older chain",
        pieces: &[
            Piece::Link(0, 2),
            Piece::Link(2, 1),
            Piece::Chunk(1, 5, 2, 0x61),
            Piece::Seal(1, 5, ONE_BYTE, 2),
            Piece::Slot(1, 12, 0x8601_ec8c_0000_0006),
            Piece::Chunk(2, 6, 2, 0x61),
            Piece::Chunk(2, 6, 3, 0x32),
            Piece::Seal(2, 6, ONE_BYTE, 2),
            Piece::Slot(2, 12, 0x8601_ec8c_0000_0007),
        ],
        chain: &[0, 2, 1],
        kept: &[Entry {
            place: 2,
            chunk: 6,
            key: b"a",
            value: b"2",
        }],
        drops: Drops {
            duplicate: 1,
            ..NONE
        },
        ..THREE_TIERS
    },
    Case {
        name: "link to itself",
        pieces: &[
            Piece::Link(0, 1),
            Piece::Link(1, 1),
            Piece::Slot(0, 12, SLOT_OF_A),
        ],
        chain: &[0, 1],
        cut: true,
        ..TWO_TIERS
    },
    Case {
        name: "link to no tier",
        pieces: &[Piece::Link(0, 2), Piece::Slot(0, 12, SLOT_OF_A)],
        cut: true,
        ..TWO_TIERS
    },
    Case {
        name: "link above 32 bits",
        pieces: &[Piece::Link(0, 0x1_0000_0001), Piece::Slot(0, 12, SLOT_OF_A)],
        cut: true,
        ..TWO_TIERS
    },
    Case {
        name: "link to an earlier tier",
        pieces: &[
            Piece::Link(0, 1),
            Piece::Link(1, 2),
            Piece::Link(2, 1),
            Piece::Slot(0, 12, SLOT_OF_A),
        ],
        chain: &[0, 1, 2],
        cut: true,
        ..THREE_TIERS
    },
    Case {
        name: "allowance of one tier, with a slot behind it that points to no chunk",
        extra: 1,
        pieces: &[
            Piece::Link(0, 1),
            Piece::Link(1, 2),
            Piece::Slot(0, 12, SLOT_OF_A),
            Piece::Slot(1, 12, 0x28_0000_0003),
            Piece::Slot(2, 12, 0x28_0000_0000),
        ],
        chain: &[0, 1],
        drops: Drops {
            lengths: 1,
            allowance: 1,
            ..NONE
        },
        ..THREE_TIERS
    },
    Case {
        name: "link to itself, in a tier outside the allowance",
        tiers: 2,
        pieces: &[
            Piece::Link(0, 1),
            Piece::Link(1, 1),
            Piece::Slot(0, 12, SLOT_OF_A),
        ],
        cut: true,
        ..ALONE
    },
    Case {
        name: "key in two tiers that an older chain left",
        pieces: &[
            Piece::Link(1, 2),
            Piece::Slot(0, 12, SLOT_OF_A),
            Piece::Chunk(1, 5, 2, 0x61),
            Piece::Seal(1, 5, ONE_BYTE, 2),
            Piece::Slot(1, 12, 0x8601_ec8c_0000_0006),
            Piece::Chunk(2, 6, 2, 0x61),
            Piece::Seal(2, 6, ONE_BYTE, 2),
            Piece::Slot(2, 12, 0x8601_ec8c_0000_0007),
        ],
        ..THREE_TIERS
    },
    Case {
        name: "key in two tiers, one of which an older chain left",
        pieces: &[
            Piece::Link(0, 2),
            Piece::Chunk(1, 5, 2, 0x61),
            Piece::Seal(1, 5, ONE_BYTE, 2),
            Piece::Slot(1, 12, 0x8601_ec8c_0000_0006),
            Piece::Chunk(2, 6, 2, 0x61),
            Piece::Chunk(2, 6, 3, 0x32),
            Piece::Seal(2, 6, ONE_BYTE, 2),
            Piece::Slot(2, 12, 0x8601_ec8c_0000_0007),
        ],
        chain: &[0, 2],
        kept: &[Entry {
            place: 2,
            chunk: 6,
            key: b"a",
            value: b"2",
        }],
        ..THREE_TIERS
    },
];

#[test]
fn chains_are_cut_and_end_at_the_allowance(rt: HostRuntime) -> Result<(), Fail> {
    assert_eq!(rt; first_wrong(rt.alloc(), &CHAINS)?, None);
    Ok(())
}

const HEADS: [Case<'static>; 4] = [
    Case {
        name: "lock word above 32 bits, and a change in flight",
        pieces: &[
            Piece::Word(0, 0xffff_0001_8000_0002),
            Piece::Word(1, 7),
            Piece::Word(2, 40),
            Piece::Word(3, 41),
            Piece::Slot(0, 12, SLOT_OF_A),
        ],
        lock: 0xffff_0001_8000_0002,
        in_flight: true,
        ..ALONE
    },
    Case {
        name: "lock word with bits above 31 alone",
        pieces: &[
            Piece::Word(0, 0xffff_ffff_0000_0000),
            Piece::Slot(0, 12, SLOT_OF_A),
        ],
        lock: 0xffff_ffff_0000_0000,
        ..ALONE
    },
    Case {
        name: "greatest odd change number",
        pieces: &[Piece::Word(1, u64::MAX), Piece::Slot(0, 12, SLOT_OF_A)],
        in_flight: true,
        ..ALONE
    },
    Case {
        name: "greatest even change number",
        pieces: &[Piece::Word(1, u64::MAX - 1), Piece::Slot(0, 12, SLOT_OF_A)],
        ..ALONE
    },
];

#[test]
fn lock_words_and_change_numbers_are_told_and_end(rt: HostRuntime) -> Result<(), Fail> {
    assert_eq!(rt; first_wrong(rt.alloc(), &HEADS)?, None);
    Ok(())
}

// Each of two segments links a tier, and the allowance has one: the second segment begins at 782.
#[test]
fn earlier_segments_use_the_allowance_up(rt: HostRuntime) -> Result<(), Fail> {
    let case = Case {
        segments: 2,
        tiers: 2,
        extra: 1,
        pieces: &[
            Piece::Link(0, 1),
            Piece::Slot(1, 0, 0x28_0000_0000),
            Piece::Word(786, 1),
            Piece::Word(1180, 0x28_0000_0000),
            Piece::Word(1181, 0x28_0000_0003),
        ],
        ..ALONE
    };
    let mut words = case.words(rt.alloc())?;
    let found = recover_twice(rt.alloc(), &mut words)?;
    let first = SegFound {
        segment: 0,
        kept: 0,
        drops: Drops { range: 1, ..NONE },
        lock: 0,
        in_flight: false,
        cut: false,
    };
    let second = SegFound {
        segment: 1,
        drops: Drops {
            allowance: 2,
            ..NONE
        },
        ..first
    };
    assert_eq!(rt; found.as_deref(), Some(&[first, second][..]));
    assert!(rt; rests(rt.alloc(), &words, 0, &[0, 1], &[])?);
    assert!(rt; rests(rt.alloc(), &words, 1, &[0], &[])?);
    Ok(())
}

#[test]
fn words_that_are_all_zero_stay(rt: HostRuntime) -> Result<(), Fail> {
    let geo = Geo::new(2, 2, 64, 4, 1)?;
    let mut words = Words::empty(rt.alloc(), &geo)?;
    let found = recover_twice(rt.alloc(), &mut words)?;
    let empty = |segment| SegFound {
        segment,
        kept: 0,
        drops: NONE,
        lock: 0,
        in_flight: false,
        cut: false,
    };
    assert_eq!(rt; found.as_deref(), Some(&[empty(0), empty(1)][..]));
    for at in 0..geo.total_words() {
        assert_eq!(rt; word_at(&words, at), 0);
    }
    Ok(())
}

#[test]
fn words_that_are_all_ones_are_emptied(rt: HostRuntime) -> Result<(), Fail> {
    let geo = Geo::new(2, 2, 64, 4, 1)?;
    let mut words = Words::empty(rt.alloc(), &geo)?;
    for at in 0..geo.total_words() {
        set_word(&mut words, at, u64::MAX);
    }
    let found = recover_twice(rt.alloc(), &mut words)?;
    let emptied = |segment| SegFound {
        segment,
        kept: 0,
        drops: Drops { range: 128, ..NONE },
        lock: u64::MAX,
        in_flight: true,
        cut: true,
    };
    assert_eq!(rt; found.as_deref(), Some(&[emptied(0), emptied(1)][..]));
    assert!(rt; rests(rt.alloc(), &words, 1, &[0], &[])?);
    Ok(())
}

// Numbers by xorshift with the shifts 13, 7 and 17 (Marsaglia, Xorshift RNGs, 2003), of which each fourth
// word is a small one.
#[test]
fn random_words_are_recovered(rt: HostRuntime) -> Result<(), Fail> {
    let geo = Geo::new(2, 4, 64, 4, 5)?;
    let mut state: u64 = 0x2545_f491_4f6c_dd1d;
    for round in 0..20 {
        let mut words = Words::empty(rt.alloc(), &geo)?;
        for at in 0..geo.total_words() {
            state ^= state << 13;
            state ^= state >> 7;
            state ^= state << 17;
            let word = if state % 4 == 0 { state >> 60 } else { state };
            set_word(&mut words, at, word);
        }
        let found = recover_twice(rt.alloc(), &mut words)?;
        assert!(rt; found.is_some(), "in round {round}");
    }
    Ok(())
}
