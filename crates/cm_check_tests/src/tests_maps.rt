//! Maps as they are saved: with one word changed, full to the last chunk, and of any words; and what lawful
//! ones hold.

use crate::tests_laws::with;
use cm_check::{Broken, Law, check, contents};
use cm_geo::{Geo, hash, hash_byte};
use cm_plain::{MapLine, NoMemory};
use cm_words::Words;
use std::alloc::Global;
use std::test::Fail;

// Sets a word of a segment, if it has this address.
fn set(words: &mut Words, segment: u32, at: u32, word: u64) {
    if segment < words.geo().segments()
        && let Some(old) = words.segment_mut(segment).get_mut(at as usize)
    {
        *old = word;
    }
}

fn word_at(words: &Words, segment: u32, at: u32) -> Option<u64> {
    if segment < words.geo().segments() {
        words.segment(segment).get(at as usize).copied()
    } else {
        None
    }
}

// What a map holds, if it is lawful.
fn lines_of(alloc: Global, words: &Words) -> Result<Option<Vec<MapLine>>, NoMemory> {
    match check(words) {
        None => Ok(Some(contents(alloc, words)?)),
        Some(_) => Ok(None),
    }
}

// A map of one segment of one tier of 64 chunks of four words, after a put of 1 at a.
const SAVED: [(u32, u64); 9] = [
    (1, 2),
    (2, 1),
    (5, 1),
    (8, 1),
    (21, 0x8601_ec8c_0000_0001),
    (137, 0x1_0000_0001),
    (138, 0xdcc3_2d51_747b_8d85),
    (139, 0x61),
    (140, 0x31),
];

#[test]
fn a_changed_word_of_a_saved_map_is_named(rt: HostRuntime) -> Result<(), Fail> {
    let cases: [(&[(u32, u64)], Law, u32); 14] = [
        (&[(0, 0x8000_0000)], Law::Lock, 0),
        (&[(1, 3)], Law::Number, 1),
        (&[(4, 1)], Law::Chain, 4),
        (&[(7, 1)], Law::Reserved, 7),
        (&[(21, 0x8601_ec8c_0000_0041)], Law::Slot, 21),
        (&[(137, 0x1388_0000_0001)], Law::Slot, 21),
        (&[(138, 0xdcc3_2d51_747b_8d84)], Law::Slot, 21),
        (&[(138, 0xe159_f84b_306a_315e), (139, 0x161)], Law::Slot, 21),
        (&[(21, 0x8601_ec8d_0000_0001)], Law::Slot, 21),
        (&[(21, 0), (23, 0x8601_ec8c_0000_0001)], Law::Gap, 23),
        (&[(22, 0x8601_ec8c_0000_0001)], Law::Duplicate, 22),
        (&[(8, 0)], Law::Bits, 8),
        (&[(5, 2)], Law::TierCount, 5),
        (&[(2, 5)], Law::SegmentCount, 2),
    ];
    let geo = Geo::new(1, 1, 64, 4, 0)?;
    for (changes, law, word) in cases {
        let mut words = Words::empty(rt.alloc(), &geo)?;
        for (at, word) in SAVED.iter().chain(changes) {
            set(&mut words, 0, *at, *word);
        }
        let named = Broken {
            law,
            segment: 0,
            word,
        };
        assert_eq!(rt; check(&words), Some(named));
    }
    Ok(())
}

// Puts the entry of a number at a chunk, and its slot at the first empty one from its home on: its key are
// the number's four bytes, and its value is the number in eight bytes.
fn put_number(words: &mut Words, segment: u32, place: u32, chunk: u32, number: u32) {
    let geo = *words.geo();
    if segment >= geo.segments() || place >= geo.tiers() || chunk >= geo.chunks() {
        return;
    }
    let entry = [0x8_0000_0004, u64::from(number), u64::from(number)];
    let mut checksum = hash(&[]);
    for word in entry {
        for byte in word.to_le_bytes() {
            checksum = hash_byte(checksum, byte);
        }
    }
    let [head, key, value] = entry;
    let at = geo.chunk_at(place, chunk);
    for (offset, word) in (0..4).zip([head, checksum, key, value]) {
        set(words, segment, at.saturating_add(offset), word);
    }
    let fingerprint = geo.fingerprint_of(hash(&number.to_le_bytes()));
    let slot = u64::from(fingerprint) << 32 | u64::from(chunk).saturating_add(1);
    let slots = 2 * geo.chunks();
    for steps in 0..slots {
        let address = geo.slot_at(place, (geo.home_of(fingerprint) + steps) & (slots - 1));
        if word_at(words, segment, address) == Some(0) {
            set(words, segment, address, slot);
            return;
        }
    }
}

// The first number from this one on whose key is of a segment.
fn number_of(geo: &Geo, segment: u32, from: u32) -> u32 {
    for number in from..u32::MAX {
        if geo.segment_of(hash(&number.to_le_bytes())) == segment {
            return number;
        }
    }
    u32::MAX
}

// Fills the chunks of a tier with entries of numbers from this one on, and answers the number behind them.
fn fill_tier(words: &mut Words, segment: u32, place: u32, from: u32) -> u32 {
    let geo = *words.geo();
    if place >= geo.tiers() {
        return from;
    }
    let at = geo.tier_at(place);
    let link = if place + 1 < geo.tiers() {
        place + 1
    } else {
        0
    };
    set(words, segment, at, u64::from(link));
    set(
        words,
        segment,
        at.saturating_add(1),
        u64::from(geo.chunks()),
    );
    for word in 0..geo.chunks() / 64 {
        set(words, segment, geo.bits_at(place, word), u64::MAX);
    }
    let mut next = from;
    for chunk in 0..geo.chunks() {
        let number = number_of(&geo, segment, next);
        put_number(words, segment, place, chunk, number);
        next = number.saturating_add(1);
    }
    next
}

// A map whose segments have all tiers, and all of these an entry at each chunk.
fn full(alloc: Global, geo: &Geo) -> Result<Words, Fail> {
    let mut words = Words::empty(alloc, geo)?;
    for segment in 0..geo.segments() {
        let entries = u64::from(geo.tiers()).saturating_mul(u64::from(geo.chunks()));
        set(&mut words, segment, 2, entries);
        let mut next = 0;
        for place in 0..geo.tiers() {
            next = fill_tier(&mut words, segment, place, next);
        }
    }
    Ok(words)
}

#[test]
fn full_maps_of_the_greatest_geometries_are_lawful(rt: HostRuntime) -> Result<(), Fail> {
    let geos = [
        Geo::new(1, 1, 64, 4, 0)?,
        Geo::new(64, 8, 64, 4, 448)?,
        Geo::new(1, 8, 4096, 4, 7)?,
        Geo::new(2, 1, 4096, 16, 0)?,
        Geo::new(64, 1, 64, 16, 0)?,
    ];
    for geo in geos {
        let mut words = full(rt.alloc(), &geo)?;
        assert_eq!(rt; check(&words), None);
        let last = geo.segments() - 1;
        set(&mut words, last, 2, 0);
        let named = Broken {
            law: Law::SegmentCount,
            segment: last,
            word: 2,
        };
        assert_eq!(rt; check(&words), Some(named));
    }
    Ok(())
}

#[test]
fn empty_maps_of_the_greatest_geometries_are_lawful(rt: HostRuntime) -> Result<(), Fail> {
    let geos = [
        Geo::new(64, 8, 64, 4, 0)?,
        Geo::new(4, 8, 4096, 16, 28)?,
        Geo::new(8, 7, 4096, 16, 48)?,
    ];
    for geo in geos {
        let words = Words::empty(rt.alloc(), &geo)?;
        let lines = lines_of(rt.alloc(), &words)?;
        assert!(rt; lines.is_some_and(|lines| lines.as_slice().is_empty()));
    }
    Ok(())
}

#[test]
fn contents_are_sorted_in_each_segment(rt: HostRuntime) -> Result<(), Fail> {
    let words = with(rt.alloc(), &[])?;
    let c = b"01234567\x01\x00\x00\x00\x01\x00\x00\x00E\xf1/d\xd3\x8f\xbc|";
    let pairs: [(u32, &[u8], &[u8]); 7] = [
        (0, b"a", b"1"),
        (0, b"c", c),
        (0, b"e", b"5"),
        (0, b"pe", b"6"),
        (0, b"zg", b"8"),
        (1, b"b", b"2"),
        (1, b"d", b""),
    ];
    let Some(lines) = lines_of(rt.alloc(), &words)? else {
        panic!(rt; "the map isn't lawful");
    };
    assert_eq!(rt; lines.as_slice().len(), pairs.len());
    for (line, (segment, key, value)) in lines.as_slice().iter().zip(pairs) {
        assert_eq!(rt; line.segment, segment);
        assert_eq!(rt; line.key.as_slice(), key);
        assert_eq!(rt; line.value.as_slice(), value);
    }
    Ok(())
}

// Numbers by xorshift with the shifts 13, 7 and 17 (Marsaglia, Xorshift RNGs, 2003), of which each fourth
// word is a small one.
#[test]
fn any_words_are_checked(rt: HostRuntime) -> Result<(), Fail> {
    let geo = Geo::new(2, 4, 64, 4, 5)?;
    let mut state: u64 = 0x2545_f491_4f6c_dd1d;
    for round in 0..20 {
        let mut words = Words::empty(rt.alloc(), &geo)?;
        // So that the laws on the segment's first words hold, and those behind them are asked.
        for at in 4..geo.segment_words() {
            state ^= state << 13;
            state ^= state >> 7;
            state ^= state << 17;
            let word = if state % 4 == 0 { state >> 60 } else { state };
            set(&mut words, 0, at, word);
        }
        let named = check(&words).map(|broken| broken.segment);
        assert_eq!(rt; named, Some(0), "in round {round}");
    }
    Ok(())
}
