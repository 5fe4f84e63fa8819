//! Chains worked out by hand, and a link that is stopped at its only store.

ghost use Rattle.std.specs.Prelude.{◌≡◌, IfOk};
ghost use Rattle.cm_geo.specs.Geometry.{IsGeoOf};

use cm_geo::Geo;
use cm_tiers::{Chain, chain, link, lowest_unlinked, next};
use cm_words::{Dead, FixedMem, Fuse, KillFuse, PlainMem, Words};
use std::alloc::Global;
use std::test::Fail;

// The words of a map that have these links in the first tiers of its first segment, and zeros elsewhere.
fn words_with(alloc: Global, geo: &Geo, links: [u64; 8]) -> Result<Words, Fail>
    ensures { IfOk result (λ words. words.geo ≡ geo.now) }
{
    let mut words = Words::empty(alloc, geo)?;
    for place in 0..geo.tiers() {
        let at = geo.tier_at(place);
        if at < geo.total_words() {
            words.set(at, links[place as usize]);
        }
    }
    Ok(words)
}

type Row = (&'static str, [u64; 8], ([u32; 8], u32, bool), Option<u32>);

// Links of the tiers at places 0 to 7, the chain that they make, and the lowest place outside it.
const CHAINS: [Row; 7] = [
    ("no link", [0; 8], ([0; 8], 1, false), Some(1)),
    (
        "to itself",
        [3, 0, 0, 3, 0, 0, 0, 0],
        ([0, 3, 0, 0, 0, 0, 0, 0], 2, true),
        Some(1),
    ),
    (
        "to an earlier place",
        [1, 2, 5, 0, 0, 1, 0, 0],
        ([0, 1, 2, 5, 0, 0, 0, 0], 4, true),
        Some(3),
    ),
    (
        "to a ninth tier",
        [1, 8, 0, 0, 0, 0, 0, 0],
        ([0, 1, 0, 0, 0, 0, 0, 0], 2, true),
        Some(2),
    ),
    (
        "to 2^32 and a place",
        [2, 0, 0x1_0000_0001, 0, 0, 0, 0, 0],
        ([0, 2, 0, 0, 0, 0, 0, 0], 2, true),
        Some(1),
    ),
    (
        "of all tiers",
        [7, 6, 5, 4, 0, 1, 3, 2],
        ([0, 7, 2, 5, 1, 6, 3, 4], 8, false),
        None,
    ),
    (
        "of all tiers and on to one of them",
        [7, 6, 5, 4, 2, 1, 3, 2],
        ([0, 7, 2, 5, 1, 6, 3, 4], 8, true),
        None,
    ),
];

#[test]
fn chains_end_or_are_cut(rt: HostRuntime) -> Result<(), Fail> {
    let geo = Geo::new(1, 8, 64, 4, 0)?;
    for (name, links, (places, len, cut), lowest) in CHAINS {
        let words = words_with(rt.alloc(), &geo, links)?;
        let mut mem = FixedMem::new(&words, 0);
        let found = chain(&mut mem, &geo)?;
        assert_eq!(rt; found, Chain { places, len, cut }, "{name}");
        assert_eq!(rt; lowest_unlinked(&geo, &found), lowest, "{name}");
    }
    Ok(())
}

#[test]
fn a_link_leads_to_a_place_or_to_none(rt: HostRuntime) -> Result<(), Fail> {
    let geo = Geo::new(1, 8, 64, 4, 0)?;
    let words = words_with(rt.alloc(), &geo, [7, 0, 8, 3, 0x1_0000_0001, 0, 0, 1])?;
    for (place, linked) in [
        (0, Some(7)),
        (1, None),
        (2, None),
        (3, Some(3)),
        (4, None),
        (7, Some(1)),
    ] {
        if place < geo.tiers() {
            let mut mem = FixedMem::new(&words, 0);
            let found = next(&mut mem, &geo, place)?;
            assert_eq!(rt; found, linked, "of {place}");
        }
    }
    Ok(())
}

// Links the sixth tier behind the third, where anything may be stored.
#[tactic(auto, using(cm_words::proofs::StoreLists::may_store_free))]
fn link_sixth<F: Fuse>(words: &mut Words, geo: &Geo, fuse: F) -> Result<(), Dead>
    requires same_geo { words.old.geo ≡ geo.now }
    requires geo { IsGeoOf geo.now 1 8 64 4 0 }
    ensures { words.new.geo ≡ geo.now }
{
    let mut mem = PlainMem::free(words, 0, fuse);
    link(&mut mem, geo, 2, 5)
}

#[test]
fn a_link_is_one_store(rt: HostRuntime) -> Result<(), Fail> {
    let geo = Geo::new(1, 8, 64, 4, 0)?;
    let rows = [
        (KillFuse::Never, Ok(()), 5),
        (KillFuse::Stores { left: 0 }, Err(Dead), 0),
        (KillFuse::Stores { left: 1 }, Ok(()), 5),
        (KillFuse::Events { left: 0 }, Err(Dead), 0),
    ];
    for (fuse, answer, linked) in rows {
        let mut words = words_with(rt.alloc(), &geo, [2, 0, 0, 0, 0, 0, 0, 0])?;
        let found = link_sixth(&mut words, &geo, fuse);
        assert_eq!(rt; found, answer);
        let wanted = words_with(rt.alloc(), &geo, [2, 0, linked, 0, 0, 0, 0, 0])?;
        for at in 0..geo.total_words() {
            assert_eq!(rt; words.get(at), wanted.get(at), "at {at} of {answer:?}");
        }
    }
    Ok(())
}
