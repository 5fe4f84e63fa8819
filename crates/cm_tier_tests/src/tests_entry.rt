//! Entries made word by word. The checksums and hashes come from FNV-1a as another program computes it.

use cm_entry::{
    Verdict, key_equals, key_hash, lengths, lengths_if_key, read_key_into, read_key_with_prefix,
    read_value_into, value_equals, verify,
};
use cm_geo::Geo;
use cm_words::{FixedMem, Words};
use std::alloc::Global;
use std::test::Fail;

// The chunks of a map of one tier with 64 chunks of 8 words each begin here.
const CHUNKS: u32 = 137;

// The first word of the last chunk.
const LAST_CHUNK: u32 = CHUNKS + 8 * 63;

// Sets a word of the map.
fn put(words: &mut Words, at: u32, word: u64) {
    if at < words.geo().total_words() {
        words.set(at, word);
    }
}

// Words that are zero, but for these from an address on.
fn laid(alloc: Global, at: u32, row: &[u64]) -> Result<Words, Fail> {
    let geo = Geo::new(1, 1, 64, 8, 0)?;
    let mut words = Words::empty(alloc, &geo)?;
    let mut next = at;
    for word in row {
        put(&mut words, next, *word);
        next = next.wrapping_add(1);
    }
    Ok(words)
}

// Puts the words of these bytes from an address on.
fn lay(words: &mut Words, at: u32, bytes: &[u8]) {
    let mut next = at;
    let mut word = 0;
    for (i, byte) in bytes.iter().enumerate() {
        word |= u64::from(*byte) << (8 * (i % 8));
        if i % 8 == 7 || i + 1 == bytes.len() {
            put(words, next, word);
            next = next.wrapping_add(1);
            word = 0;
        }
    }
}

#[tactic(auto, using(cm_geo::proofs::Ranges::segments_range, cm_geo::proofs::Ranges::tiers_range))]
fn verdict_at(words: &Words, chunk: u32) -> Option<Verdict> {
    let geo = *words.geo();
    if chunk >= geo.chunks() {
        return None;
    }
    verify(&mut FixedMem::new(words, 0), &geo, 0, chunk).ok()
}

#[tactic(auto, using(cm_geo::proofs::Ranges::segments_range, cm_geo::proofs::Ranges::tiers_range))]
fn lengths_at(words: &Words, chunk: u32) -> Option<(u32, u32)> {
    let geo = *words.geo();
    if chunk >= geo.chunks() {
        return None;
    }
    lengths(&mut FixedMem::new(words, 0), &geo, 0, chunk).ok()
}

#[tactic(auto, using(cm_geo::proofs::Ranges::segments_range, cm_geo::proofs::Ranges::tiers_range))]
fn hash_at(words: &Words, chunk: u32) -> Option<u64> {
    let geo = *words.geo();
    if chunk >= geo.chunks() {
        return None;
    }
    key_hash(&mut FixedMem::new(words, 0), &geo, 0, chunk).ok()
}

// Whether the entry has this key, by comparing and by reading.
#[tactic(auto, using(cm_geo::proofs::Ranges::segments_range, cm_geo::proofs::Ranges::tiers_range))]
fn key_at(words: &Words, chunk: u32, key: &[u8]) -> Option<(bool, bool)> {
    let geo = *words.geo();
    if chunk >= geo.chunks() {
        return None;
    }
    let equals = key_equals(&mut FixedMem::new(words, 0), &geo, 0, chunk, key).ok()?;
    let mut out = [0xee; 256];
    let len = read_key_into(&mut FixedMem::new(words, 0), &geo, 0, chunk, &mut out).ok()?;
    Some((equals, &out[..len as usize] == key))
}

// How much of the key is copied where it begins with a prefix, and whether the rest of `out` stays.
#[tactic(auto, using(cm_geo::proofs::Ranges::segments_range, cm_geo::proofs::Ranges::tiers_range))]
fn prefixed_at(words: &Words, chunk: u32, prefix: &[u8]) -> Option<(Option<u32>, bool)> {
    let geo = *words.geo();
    if chunk >= geo.chunks() {
        return None;
    }
    let mut mem = FixedMem::new(words, 0);
    let mut out = [0xee; 256];
    let len = read_key_with_prefix(&mut mem, &geo, 0, chunk, prefix, &mut out).ok()?;
    let written = len.unwrap_or(prefix.len().min(256) as u32);
    let rest_stays = out.iter().skip(written as usize).all(|byte| *byte == 0xee);
    Some((len, rest_stays))
}

// The entry's lengths, if it has this key.
#[tactic(auto, using(cm_geo::proofs::Ranges::segments_range, cm_geo::proofs::Ranges::tiers_range))]
fn lengths_for(words: &Words, chunk: u32, key: &[u8]) -> Option<(u32, u32)> {
    let geo = *words.geo();
    if chunk >= geo.chunks() {
        return None;
    }
    lengths_if_key(&mut FixedMem::new(words, 0), &geo, 0, chunk, key)
        .ok()
        .flatten()
}

// Whether the entry has this value, by comparing and by reading.
#[tactic(auto, using(cm_geo::proofs::Ranges::segments_range, cm_geo::proofs::Ranges::tiers_range))]
fn value_at(words: &Words, chunk: u32, value: &[u8]) -> Option<(bool, bool)> {
    let geo = *words.geo();
    if chunk >= geo.chunks() {
        return None;
    }
    let equals = value_equals(&mut FixedMem::new(words, 0), &geo, 0, chunk, value).ok()?;
    let mut out = [0xee; 4096];
    let len = read_value_into(&mut FixedMem::new(words, 0), &geo, 0, chunk, &mut out).ok()?;
    Some((equals, &out[..len as usize] == value))
}

// The key `short key` with the value `value!`.
const SMALL: [u64; 5] = [
    0x0000_0006_0000_0009,
    0xc32c_bafe_66f2_ae05,
    0x656b_2074_726f_6873,
    0x79,
    0x2165_756c_6176,
];

// The verdict on these words at the beginning of a chunk.
fn verdict_on(alloc: Global, row: [u64; 5]) -> Result<Option<Verdict>, Fail> {
    let words = laid(alloc, CHUNKS + 8 * 5, &row)?;
    Ok(verdict_at(&words, 5))
}

// The small entry's words, but for some.
fn small_but(changes: &[(usize, u64)]) -> [u64; 5] {
    let mut row = SMALL;
    for (at, word) in changes {
        if *at < 5 {
            row[*at] = *word;
        }
    }
    row
}

#[test]
fn each_verdict_names_what_is_wrong_first(rt: HostRuntime) -> Result<(), Fail> {
    let good = Verdict::Good {
        key_len: 9,
        value_len: 6,
        chunks: 1,
    };
    let padded_key = (3, 0x0900_0000_0000_0079);
    let rows: [(&[(usize, u64)], Verdict); 8] = [
        (&[], good),
        (&[(0, 0x0000_0006_0000_0000)], Verdict::Lengths),
        (&[(0, 0x0000_1000_0000_0009)], Verdict::Lengths),
        (&[(1, SMALL[1] + 1)], Verdict::Checksum),
        (&[(4, 0x2265_756c_6176)], Verdict::Checksum),
        (&[padded_key], Verdict::Checksum),
        (&[(1, 0x2549_1fab_4c30_e4d2), padded_key], Verdict::Padding),
        (
            &[(1, 0xc329_54fe_66ef_cadc), (4, 0x0001_2165_756c_6176)],
            Verdict::Padding,
        ),
    ];
    for (changes, verdict) in rows {
        let found = verdict_on(rt.alloc(), small_but(changes))?;
        assert_eq!(rt; found, Some(verdict), "with {changes:?}");
    }
    Ok(())
}

#[test]
fn a_small_entry_is_read(rt: HostRuntime) -> Result<(), Fail> {
    let words = laid(rt.alloc(), LAST_CHUNK, &SMALL)?;
    assert_eq!(rt; lengths_at(&words, 63), Some((9, 6)));
    assert_eq!(rt; hash_at(&words, 63), Some(0x5b7a_10a3_87fc_ef36));
    assert_eq!(rt; key_at(&words, 63, b"short key"), Some((true, true)));
    assert_eq!(rt; key_at(&words, 63, b"short kez"), Some((false, false)));
    assert_eq!(rt; key_at(&words, 63, b"short ke"), Some((false, false)));
    assert_eq!(rt; value_at(&words, 63, b"value!"), Some((true, true)));
    assert_eq!(rt; value_at(&words, 63, b"Value!"), Some((false, false)));
    Ok(())
}

#[test]
fn a_key_is_read_if_it_begins_with_a_prefix(rt: HostRuntime) -> Result<(), Fail> {
    let words = laid(rt.alloc(), LAST_CHUNK, &SMALL)?;
    let rows: [(&[u8], Option<u32>); 8] = [
        (b"", Some(9)),
        (b"s", Some(9)),
        (b"short ke", Some(9)),
        (b"short key", Some(9)),
        (b"short keys", None),
        (b"short kez", None),
        (b"sh0rt", None),
        (&[b's'; 300], None),
    ];
    for (prefix, len) in rows {
        assert_eq!(rt;
            prefixed_at(&words, 63, prefix),
            Some((len, true)),
            "{len:?}"
        );
    }
    assert_eq!(rt; lengths_for(&words, 63, b"short key"), Some((9, 6)));
    assert_eq!(rt; lengths_for(&words, 63, b"short kez"), None);
    Ok(())
}

#[test]
fn an_empty_value_is_read(rt: HostRuntime) -> Result<(), Fail> {
    let words = laid(rt.alloc(), CHUNKS, &[1, 0x3775_b21b_b6c2_da65, 0x61])?;
    let good = Some(Verdict::Good {
        key_len: 1,
        value_len: 0,
        chunks: 1,
    });
    assert_eq!(rt; verdict_at(&words, 0), good);
    assert_eq!(rt; hash_at(&words, 0), Some(0xaf63_dc4c_8601_ec8c));
    assert_eq!(rt; value_at(&words, 0, b""), Some((true, true)));
    assert_eq!(rt; value_at(&words, 0, b"a"), Some((false, false)));
    Ok(())
}

// As many bytes, each so much more than the one before it.
fn pattern<const N: usize>(first: u8, step: u8) -> [u8; N] {
    let mut bytes = [0; N];
    let mut byte = first;
    for slot in &mut bytes {
        *slot = byte;
        byte = byte.wrapping_add(step);
    }
    bytes
}

#[test]
fn an_entry_may_fill_the_tier(rt: HostRuntime) -> Result<(), Fail> {
    let key: [u8; 256] = pattern(1, 7);
    let value: [u8; 3820] = pattern(5, 13);
    let mut words = laid(
        rt.alloc(),
        CHUNKS,
        &[0x0000_0eec_0000_0100, 0xe9fc_debc_456e_a830],
    )?;
    lay(&mut words, CHUNKS + 2, &key);
    lay(&mut words, CHUNKS + 34, &value);
    let good = Some(Verdict::Good {
        key_len: 256,
        value_len: 3820,
        chunks: 64,
    });
    assert_eq!(rt; verdict_at(&words, 0), good);
    assert_eq!(rt; lengths_at(&words, 0), Some((256, 3820)));
    assert_eq!(rt; hash_at(&words, 0), Some(0x73df_a1b4_0952_f725));
    assert_eq!(rt; key_at(&words, 0, &key), Some((true, true)));
    assert_eq!(rt; value_at(&words, 0, &value), Some((true, true)));
    Ok(())
}

#[test]
fn any_words_are_read_to_an_end(rt: HostRuntime) -> Result<(), Fail> {
    let most = laid(rt.alloc(), LAST_CHUNK, &[u64::MAX; 8])?;
    assert_eq!(rt; verdict_at(&most, 63), Some(Verdict::Lengths));
    assert_eq!(rt; key_at(&most, 63, b"a"), Some((false, false)));
    assert_eq!(rt; value_at(&most, 63, b"a"), Some((false, false)));
    assert_eq!(rt; hash_at(&most, 63), Some(0xcbf2_9ce4_8422_2325));
    Ok(())
}
