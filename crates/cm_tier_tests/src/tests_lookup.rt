//! A removal round the end of a tier, one that is stopped at each of its stores, and removals from full and half
//! full tiers against a plain rebuild.

ghost use Rattle.std.specs.Prelude.{◌≡◌, ◌<◌, IfOk, OnOk, false};
ghost use Rattle.cm_words.specs.Memory.{MemSeen};
ghost use Rattle.cm_words.specs.Calls.{IsWritable};

use cm_geo::Geo;
use cm_lookup::{Hit, find, put_slot, remove_at, slot_of};
use cm_words::{Dead, FixedMem, Fuse, KillFuse, Mem, Never, PlainMem, Words};
use std::alloc::Global;
use std::test::Fail;

// Puts a fingerprint into a slot, where anything may be stored.
#[tactic(auto, using(cm_lookup::proofs::RemovalLoop::free_of_rules))]
fn put<M: Mem>(mem: &mut M, geo: &Geo, slot: u32, fingerprint: u32) -> Result<(), Dead>
    requires writable { IsWritable (M.seen mem.old) geo.now }
    requires free { (M.seen mem.old).setting.guarded ≡ false }
    requires chunks { geo.now.chunks ≡ 64 }
    requires slot { slot < 128 }
    ensures { OnOk result ((M.seen mem.new).setting ≡ (M.seen mem.old).setting) }
{
    put_slot(mem, geo, 0, slot, fingerprint, fingerprint % 64)
}

// Removes a slot, where anything may be stored.
#[tactic(auto, using(cm_lookup::proofs::RemovalLoop::free_of_rules))]
fn remove<M: Mem>(mem: &mut M, geo: &Geo, slot: u32) -> Result<(), Dead>
    requires writable { IsWritable (M.seen mem.old) geo.now }
    requires free { (M.seen mem.old).setting.guarded ≡ false }
    requires chunks { geo.now.chunks ≡ 64 }
    requires slot { slot < 128 }
    ensures { OnOk result ((M.seen mem.new).setting ≡ (M.seen mem.old).setting) }
{
    remove_at(mem, geo, 0, slot)
}

#[test]
fn a_removal_goes_round_the_end(rt: HostRuntime) -> Result<(), Fail> {
    let geo = Geo::new(1, 1, 64, 4, 0)?;
    let mut words = Words::empty(rt.alloc(), &geo)?;
    let mut mem = PlainMem::free(&mut words, 0, Never);
    put(&mut mem, &geo, 126, 126)?;
    put(&mut mem, &geo, 127, 254)?;
    put(&mut mem, &geo, 0, 382)?;
    put(&mut mem, &geo, 1, 510)?;
    remove(&mut mem, &geo, 126)?;
    let gone = find(&mut mem, &geo, 0, 126, 0)?;
    let second = find(&mut mem, &geo, 0, 254, 0)?;
    let third = find(&mut mem, &geo, 0, 382, 0)?;
    let fourth = find(&mut mem, &geo, 0, 510, 0)?;
    assert_eq!(rt; gone, None);
    assert_eq!(rt;
        second,
        Some(Hit {
            steps: 0,
            slot: 126,
            chunk: 62
        })
    );
    assert_eq!(rt;
        third,
        Some(Hit {
            steps: 1,
            slot: 127,
            chunk: 62
        })
    );
    assert_eq!(rt;
        fourth,
        Some(Hit {
            steps: 2,
            slot: 0,
            chunk: 62
        })
    );
    Ok(())
}

// The first slots from that of three fingerprints with home 12 on, and the words of these.
const WORDS: [u64; 3] = [12 << 32 | 13, 140 << 32 | 13, 268 << 32 | 13];

// The words of a map whose first tier has these three fingerprints.
#[tactic(auto, using(cm_lookup::proofs::RemovalLoop::free_of_rules))]
fn three_slots(alloc: Global, geo: &Geo) -> Result<Words, Fail>
    requires { geo.now.chunks ≡ 64 }
    ensures { IfOk result (λ words. words.geo ≡ geo.now) }
{
    let mut words = Words::empty(alloc, geo)?;
    for i in 0..3u32 {
        let at = geo.slot_at(0, 12 + i);
        if at < geo.total_words() {
            words.set(at, WORDS[i as usize]);
        }
    }
    Ok(words)
}

// Removes a slot until the fuse dies, where anything may be stored.
fn remove_until<F: Fuse>(words: &mut Words, geo: &Geo, fuse: F, slot: u32) -> Result<(), Dead>
    requires geo { words.old.geo ≡ geo.now }
    requires chunks { geo.now.chunks ≡ 64 }
    requires slot { slot < 128 }
{
    let mut mem = PlainMem::free(words, 0, fuse);
    remove(&mut mem, geo, slot)
}

// A slot's word.
fn word_in(words: &Words, slot: u32) -> Option<u64> {
    let geo = words.geo();
    if slot >= 2 * geo.chunks() {
        return None;
    }
    FixedMem::new(words, 0).load(geo.slot_at(0, slot)).ok()
}

#[test]
fn a_removal_is_stopped_at_each_of_its_stores(rt: HostRuntime) -> Result<(), Fail> {
    let geo = Geo::new(1, 1, 64, 4, 0)?;
    let [first, second, third] = WORDS;
    let rows = [
        (
            KillFuse::Stores { left: 0 },
            Err(Dead),
            [first, second, third],
        ),
        (
            KillFuse::Stores { left: 1 },
            Err(Dead),
            [second, second, third],
        ),
        (
            KillFuse::Stores { left: 2 },
            Err(Dead),
            [second, third, third],
        ),
        (KillFuse::Stores { left: 3 }, Ok(()), [second, third, 0]),
        (KillFuse::Never, Ok(()), [second, third, 0]),
    ];
    for (fuse, answer, left) in rows {
        let mut words = three_slots(rt.alloc(), &geo)?;
        let found = remove_until(&mut words, &geo, fuse, 12);
        assert_eq!(rt; found, answer);
        for (slot, word) in [(12, left[0]), (13, left[1]), (14, left[2]), (15, 0)] {
            assert_eq!(rt;
                word_in(&words, slot),
                Some(word),
                "slot {slot} of {answer:?}"
            );
        }
    }
    Ok(())
}

// A plain table: fingerprints and 1, or 0 in an empty slot.
type Table = [u32; 128];

// Puts a fingerprint into the first empty slot from its home on.
fn put_plainly(table: &mut Table, fingerprint: u32) {
    for steps in 0..128u32 {
        let at = ((fingerprint % 128 + steps) % 128) as usize;
        if table[at] == 0 {
            table[at] = fingerprint.wrapping_add(1);
            return;
        }
    }
}

// A table with so many fingerprints, of homes that lie close together.
fn filled(seed: u32, count: u32) -> Table {
    let mut table = [0; 128];
    let mut x = seed;
    for i in 0..count {
        x = x.wrapping_mul(1_664_525).wrapping_add(1_013_904_223);
        let home = ((x >> 16) % 40).wrapping_add(x >> 27) % 128;
        put_plainly(&mut table, (home + 100) % 128 + 128 * (i % 128));
    }
    table
}

// The table built anew without a slot's fingerprint.
fn rebuilt(table: &Table, slot: u32) -> Table {
    let mut other = [0; 128];
    for at in 0..128u32 {
        let word = table[at as usize];
        if word != 0 && at != slot {
            put_plainly(&mut other, word - 1);
        }
    }
    other
}

// The slots of the first tier.
fn read<M: Mem>(mem: &mut M, geo: &Geo) -> Result<Table, Dead>
    requires writable { IsWritable (M.seen mem.old) geo.now }
    requires chunks { geo.now.chunks ≡ 64 }
{
    let mut table = [0; 128];
    for slot in 0..128u32 {
        let parts = slot_of(mem, geo, 0, slot)?;
        if parts.low != 0 {
            table[slot as usize] = parts.fingerprint.wrapping_add(1);
        }
    }
    Ok(table)
}

// Puts a whole table into the first tier.
fn write<M: Mem>(mem: &mut M, geo: &Geo, table: &Table) -> Result<(), Dead>
    requires writable { IsWritable (M.seen mem.old) geo.now }
    requires free { (M.seen mem.old).setting.guarded ≡ false }
    requires chunks { geo.now.chunks ≡ 64 }
    ensures { OnOk result ((M.seen mem.new).setting ≡ (M.seen mem.old).setting) }
{
    for slot in 0..128u32 {
        let word = table[slot as usize];
        if word != 0 {
            put(mem, geo, slot, word - 1)?;
        }
    }
    Ok(())
}

// The same slots are empty, the same fingerprints stand in the others, and each is reached from its home.
fn agree(table: &Table, other: &Table) -> bool {
    for at in 0..128u32 {
        let word = table[at as usize];
        if (word == 0) != (other[at as usize] == 0) {
            return false;
        }
        if word != 0 {
            if !other.contains(&word) {
                return false;
            }
            let home = (word - 1) % 128;
            for steps in 0..(at + 128 - home) % 128 {
                if table[((home + steps) % 128) as usize] == 0 {
                    return false;
                }
            }
        }
    }
    true
}

#[test]
fn removals_agree_with_a_rebuild(rt: HostRuntime) -> Result<(), Fail> {
    let geo = Geo::new(1, 1, 64, 4, 0)?;
    for seed in 0..300u32 {
        let count = if seed % 3 == 0 { 127 } else { 1 + seed % 127 };
        let table = filled(seed, count);
        for slot in 0..128u32 {
            if table[slot as usize] != 0 && (slot + seed) % 16 == 0 {
                let mut words = Words::empty(rt.alloc(), &geo)?;
                let mut mem = PlainMem::free(&mut words, 0, Never);
                write(&mut mem, &geo, &table)?;
                remove(&mut mem, &geo, slot)?;
                let left = read(&mut mem, &geo)?;
                assert!(rt; agree(&left, &rebuilt(&table, slot)), "at {seed}, {slot}");
            }
        }
    }
    Ok(())
}
