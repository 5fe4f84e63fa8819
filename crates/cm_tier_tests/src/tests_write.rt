//! Entries worked out by hand, and what stands where a writer died.

ghost use Rattle.std.specs.Prelude.{IsTrue};
ghost use Rattle.cm_entry.specs.EntryStores.{HasRoom};

use cm_entry::{write, write_value};
use cm_geo::Geo;
use cm_words::{Dead, Fuse, KillFuse, Never, PlainMem, Words};
use std::alloc::Global;
use std::test::Fail;

/// Whether an entry may stand at a chunk.
fn has_room(geo: &Geo, chunk: u32, key: &[u8], value: &[u8]) -> bool
    ensures { IsTrue result → HasRoom geo.now 0 chunk key.now value.now }
{
    if key.len() > 256 || value.len() > 4096 || chunk > 4096 {
        return false;
    }
    let key_len = key.len() as u32;
    let value_len = value.len() as u32;
    geo.fits(key_len, value_len) && chunk + geo.need(key_len, value_len) <= geo.chunks()
}

/// Stores an entry at a chunk of the first tier, in a memory that stores anything.
fn write_in<F: Fuse>(
    words: &mut Words,
    fuse: F,
    chunk: u32,
    key: &[u8],
    value: &[u8],
) -> Result<(), Dead> {
    let geo = *words.geo();
    if !has_room(&geo, chunk, key, value) {
        return Err(Dead);
    }
    let mut mem = PlainMem::free(words, 0, fuse);
    write(&mut mem, &geo, 0, chunk, key, value)
}

/// Stores another value there.
fn write_value_in<F: Fuse>(
    words: &mut Words,
    fuse: F,
    chunk: u32,
    key: &[u8],
    value: &[u8],
) -> Result<(), Dead> {
    let geo = *words.geo();
    if !has_room(&geo, chunk, key, value) {
        return Err(Dead);
    }
    let mut mem = PlainMem::free(words, 0, fuse);
    write_value(&mut mem, &geo, 0, chunk, key, value)
}

/// A word of the map.
fn found(words: &Words, at: u32) -> Option<u64> {
    if at < words.geo().total_words() {
        Some(words.get(at))
    } else {
        None
    }
}

/// The chunks of the only tier begin here.
const CHUNKS: u32 = 137;

/// Stands in every word at first.
const MARK: u64 = 0x7777_7777_7777_7777;

/// The words of a map of one tier, all marked.
fn marked(alloc: Global) -> Result<Words, Fail> {
    let geo = Geo::new(1, 1, 64, 4, 0)?;
    let words = vec![in alloc; MARK; geo.total_words() as usize]?;
    Ok(Words::of(&geo, words))
}

#[test]
fn entries_are_written_word_by_word(rt: HostRuntime) -> Result<(), Fail> {
    let rows: [(u32, &[u8], &[u8], [u64; 4]); 4] = [
        (
            0,
            b"a",
            b"1",
            [0x1_0000_0001, 0xdcc3_2d51_747b_8d85, 0x61, 0x31],
        ),
        (
            1,
            b"ba",
            b"2",
            [0x1_0000_0002, 0xacaf_acb0_470c_6e1d, 0x6162, 0x32],
        ),
        (
            2,
            b"bba",
            b"3",
            [0x1_0000_0003, 0xc6a8_0f87_42ac_75d5, 0x61_6262, 0x33],
        ),
        (3, b"a", b"", [0x1, 0x3775_b21b_b6c2_da65, 0x61, MARK]),
    ];
    let mut words = marked(rt.alloc())?;
    for (chunk, key, value, _) in rows {
        assert_eq!(rt; write_in(&mut words, Never, chunk, key, value), Ok(()));
    }
    let mut at = CHUNKS;
    for (chunk, _, _, stored) in rows {
        for word in stored {
            assert_eq!(rt; found(&words, at), Some(word), "at {at}, in chunk {chunk}");
            at = at.saturating_add(1);
        }
    }
    assert_eq!(rt; found(&words, at), Some(MARK));
    Ok(())
}

#[test]
fn a_key_of_256_bytes_is_written(rt: HostRuntime) -> Result<(), Fail> {
    let mut key = [0; 256];
    let mut next: u8 = 0;
    for byte in &mut key {
        *byte = next;
        next = next.wrapping_add(1);
    }
    let mut words = marked(rt.alloc())?;
    assert_eq!(rt;
        write_in(&mut words, Never, 5, &key, b"twelve bytes"),
        Ok(())
    );
    let at = CHUNKS + 20;
    assert_eq!(rt; found(&words, at), Some(0xc_0000_0100));
    assert_eq!(rt; found(&words, at + 1), Some(0xfcb6_1d36_c68a_af30));
    let mut word: u64 = 0x0706_0504_0302_0100;
    for number in 0..32u32 {
        assert_eq!(rt; found(&words, at + 2 + number), Some(word), "word {number}");
        word = word.wrapping_add(0x0808_0808_0808_0808);
    }
    assert_eq!(rt; found(&words, at + 34), Some(0x6220_6576_6c65_7774));
    assert_eq!(rt; found(&words, at + 35), Some(0x7365_7479));
    assert_eq!(rt; found(&words, at + 36), Some(MARK));
    Ok(())
}

/// The stores of the value tenbytes!! for the key ninebytes, in their order: how far behind the first
/// word of the entry, and the word.
const STORES: [(u32, u64); 6] = [
    (0, 0x000a_0000_0009),
    (2, 0x6574_7962_656e_696e),
    (3, 0x73),
    (4, 0x7365_7479_626e_6574),
    (5, 0x2121),
    (1, 0xbd65_33fe_1933_3e67),
];

#[test]
fn an_entry_is_stopped_at_each_of_its_stores(rt: HostRuntime) -> Result<(), Fail> {
    for left in 0..=6u32 {
        let mut words = marked(rt.alloc())?;
        let answer = write_in(
            &mut words,
            KillFuse::Stores { left },
            0,
            b"ninebytes",
            b"tenbytes!!",
        );
        assert_eq!(rt; answer, if left < 6 { Err(Dead) } else { Ok(()) });
        let mut made = 0u32;
        for (behind, word) in STORES {
            let expected = if made < left { word } else { MARK };
            assert_eq!(rt;
                found(&words, CHUNKS + behind),
                Some(expected),
                "{behind} of {left}"
            );
            made = made.saturating_add(1);
        }
    }
    Ok(())
}

/// The words of the entry after another value was stored over its value, and what that call answered.
fn replaced(
    alloc: Global,
    fuse: KillFuse,
    value: &[u8],
) -> Result<(Words, Result<(), Dead>), Fail> {
    let mut words = marked(alloc)?;
    write_in(&mut words, Never, 0, b"ninebytes", b"tenbytes!!")?;
    let answer = write_value_in(&mut words, fuse, 0, b"ninebytes", value);
    Ok((words, answer))
}

#[test]
fn a_value_is_stopped_at_each_of_its_stores(rt: HostRuntime) -> Result<(), Fail> {
    // Behind the first word, the word before and the word after the store. The head is the same.
    let rows = [
        (4, 0x7365_7479_626e_6574, 0x6574_2072_6568_746f),
        (5, 0x2121, 0x216e),
        (1, 0xbd65_33fe_1933_3e67, 0xe090_3cbe_825b_22fb),
    ];
    for left in 0..=3u32 {
        let (words, answer) = replaced(rt.alloc(), KillFuse::Stores { left }, b"other ten!")?;
        assert_eq!(rt; answer, if left < 3 { Err(Dead) } else { Ok(()) });
        let mut made = 0u32;
        for (behind, before, after) in rows {
            let expected = if made < left { after } else { before };
            assert_eq!(rt;
                found(&words, CHUNKS + behind),
                Some(expected),
                "{behind} of {left}"
            );
            made = made.saturating_add(1);
        }
        assert_eq!(rt; found(&words, CHUNKS), Some(0xa_0000_0009));
        assert_eq!(rt; found(&words, CHUNKS + 2), Some(0x6574_7962_656e_696e));
        assert_eq!(rt; found(&words, CHUNKS + 3), Some(0x73));
    }
    Ok(())
}

#[test]
fn a_longer_value_is_stopped_at_each_of_its_stores(rt: HostRuntime) -> Result<(), Fail> {
    let rows = [
        (0, 0xa_0000_0009, 0xb_0000_0009),
        (4, 0x7365_7479_626e_6574, 0x7962_6e65_7665_6c65),
        (5, 0x2121, 0x73_6574),
        (1, 0xbd65_33fe_1933_3e67, 0xddac_3f74_5e7a_c00a),
    ];
    for left in 0..=4u32 {
        let (words, answer) = replaced(rt.alloc(), KillFuse::Stores { left }, b"elevenbytes")?;
        assert_eq!(rt; answer, if left < 4 { Err(Dead) } else { Ok(()) });
        let mut made = 0u32;
        for (behind, before, after) in rows {
            let expected = if made < left { after } else { before };
            assert_eq!(rt;
                found(&words, CHUNKS + behind),
                Some(expected),
                "{behind} of {left}"
            );
            made = made.saturating_add(1);
        }
    }
    Ok(())
}

#[test]
fn a_value_takes_one_load(rt: HostRuntime) -> Result<(), Fail> {
    let (_, enough) = replaced(rt.alloc(), KillFuse::Events { left: 4 }, b"other ten!")?;
    let (_, too_few) = replaced(rt.alloc(), KillFuse::Events { left: 3 }, b"other ten!")?;
    assert_eq!(rt; enough, Ok(()));
    assert_eq!(rt; too_few, Err(Dead));
    Ok(())
}
