//! Reading and storing the links of tiers.

ghost use Rattle.std.specs.Prelude.{◌≡◌, ◌+◌, ◌<◌, ◌==◌, ◌||◌, IfOk, IfSome, List, ℕ, nat_le};
ghost use Rattle.std.specs.List.{list_any};
ghost use Rattle.cm_geo.specs.Addresses.{tier_at};
ghost use Rattle.cm_plain.specs.Slots.{word_at};
ghost use Rattle.cm_words.specs.Memory.{FitsNotes, MayStore};
ghost use Rattle.cm_words.specs.Calls.{IsReadable, IsWritable, Loads, LoadsOnce, StoresOnce};
ghost use Rattle.cm_tiers.specs.Chains.{IsRead, IsLinked, LinksTo};

use crate::places::Chain;
use cm_geo::Geo;
use cm_words::{Dead, Mem};

// Whether a link leads to no place of the geometry, or to one of these.
fn leads_nowhere(geo: &Geo, places: &[u32], link: u64) -> bool
    ensures { result ≡ (nat_le geo.now.tiers link || list_any (λ earlier. earlier == link) places.now) }
{
    link >= u64::from(geo.tiers()) || places.contains(&(link as u32))
}

/// The chain from place 0 by the links, one load for each tier of it, whatever words stand there. It
/// goes up to a link of 0, or up to the first one that leads nowhere, where it is cut.
pub fn chain<M: Mem>(mem: &mut M, geo: &Geo) -> Result<Chain, Dead>
    requires readable { IsReadable (M.seen mem.old) geo.now }
    ensures loads { Loads M.seen M.same_rest mem.old mem.new result }
    ensures count { IfOk result (λ chain. (M.seen mem.new).meter.events ≡ (M.seen mem.old).meter.events + chain.len) }
    ensures read { IfOk result (IsRead geo.now) }
    ensures linked { IfOk result (λ chain. (words : List ℕ) → FitsNotes (M.seen mem.new) words → IsLinked geo.now words chain) }
{
    let tiers = geo.tiers();
    let mut places = [0; 8];
    let mut place = 0;
    for len in 1..tiers + 1 {
        let link = mem.load(geo.tier_at(place))?;
        if link == 0 {
            return Ok(Chain {
                places,
                len,
                cut: false,
            });
        }
        if leads_nowhere(geo, &places[..len as usize], link) {
            return Ok(Chain {
                places,
                len,
                cut: true,
            });
        }
        place = link as u32;
        places[len as usize] = place;
    }
    // No words lead here: there would be one more place than the geometry has, and all would differ.
    Ok(Chain {
        places,
        len: tiers,
        cut: false,
    })
}

/// The place to which a tier links, whatever word stands there. None where the link is 0, or leads to no
/// place of the geometry.
pub fn next<M: Mem>(mem: &mut M, geo: &Geo, place: u32) -> Result<Option<u32>, Dead>
    requires readable { IsReadable (M.seen mem.old) geo.now }
    requires place { place < geo.now.tiers }
    ensures loads { LoadsOnce M.seen M.same_rest mem.old mem.new result }
    ensures below { IfOk result (λ next. IfSome next (λ place. place < geo.now.tiers)) }
    ensures linked { IfOk result (λ next. (words : List ℕ) → FitsNotes (M.seen mem.new) words → LinksTo geo.now (word_at words (tier_at geo.now place)) next) }
{
    let link = mem.load(geo.tier_at(place))?;
    Ok(place_of(geo, link))
}

// The place to which a link leads, if it leads to one.
fn place_of(geo: &Geo, link: u64) -> Option<u32>
    ensures { LinksTo geo.now link result }
{
    if 1 <= link && link < u64::from(geo.tiers()) {
        Some(link as u32)
    } else {
        None
    }
}

/// Links a tier behind the chain's last one, by one store of the last one's link.
#[tactic(auto, using(crate::proofs::Inner::link_inner))]
pub fn link<M: Mem>(mem: &mut M, geo: &Geo, last: u32, place: u32) -> Result<(), Dead>
    requires writable { IsWritable (M.seen mem.old) geo.now }
    requires last { last < geo.now.tiers }
    requires place { place < geo.now.tiers }
    requires allowed { MayStore (M.seen mem.old) (tier_at geo.now last) place }
    ensures { StoresOnce M.seen M.same_rest (tier_at geo.now last) place mem.old mem.new result }
{
    mem.store(geo.tier_at(last), u64::from(place))?;
    Ok(())
}
