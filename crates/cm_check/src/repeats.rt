//! No two slots point to entries with one key. A second one is found by the lookup itself: the slot law holds
//! by then, so a search from the home of the key passes each slot that points to it.

ghost use Rattle.std.specs.Prelude.{◌≡◌, ◌*◌, ◌<◌, ◌≤◌, ◌||◌, Contains, ℕ};
ghost use Rattle.std.specs.List.{list_any};
ghost use Rattle.cm_geo.specs.Hash.{fingerprint_in, hash};
ghost use Rattle.cm_lookup.specs.Tiers.{IsSlot};
ghost use Rattle.cm_check.specs.Findings.{NamesFirst};
ghost use Rattle.cm_check.specs.Places.{chain_in, places_before};
ghost use Rattle.cm_check.specs.SlotLaws.{duplicate_broken, is_again, is_key_among, slots_where};
ghost use Rattle.cm_check.specs.SlotReads.{AreReached, AreRightful, IsTierRightful, IsTierReached};
ghost use Rattle.cm_check.specs.Quiets.{geo_of, words_of};

use crate::quiet::Quiet;
use crate::slots::entry_chunk;
use cm_geo::hash;

/// Whether one of the first so many slots of a tier points to an entry with this key.
fn is_among(quiet: &Quiet<'_>, key: &[u8], fingerprint: u32, count: u32, place: u32) -> bool
    requires place { place < (geo_of quiet.now).tiers }
    requires count { count ≤ 2 * (geo_of quiet.now).chunks }
    requires fingerprint { fingerprint ≡ fingerprint_in (geo_of quiet.now) (hash key.now) }
    requires rightful { IsTierRightful (geo_of quiet.now) quiet.now.segment (words_of quiet.now) place }
    requires reached { IsTierReached (geo_of quiet.now) (words_of quiet.now) place }
    ensures { result ≡ is_key_among (geo_of quiet.now) (words_of quiet.now) key.now count place }
{
    let mut from = 0;
    while let Some(hit) = quiet.find(place, fingerprint, from) {
        if hit.slot < count && quiet.has_key(place, hit.chunk, key) {
            return true;
        }
        from = hit.steps + 1;
    }
    false
}

/// Whether a slot before this one, in order of these tiers and then of this one's slots, points to an entry
/// with this key.
fn is_again(quiet: &Quiet<'_>, earlier: &[u32], place: u32, number: u32, key: &[u8]) -> bool
    requires slot { IsSlot (geo_of quiet.now) place number }
    requires earlier { (other : ℕ) → Contains earlier.now other → Contains (chain_in (geo_of quiet.now) (words_of quiet.now)) other }
    requires chained { Contains (chain_in (geo_of quiet.now) (words_of quiet.now)) place }
    requires rightful { AreRightful (geo_of quiet.now) quiet.now.segment (words_of quiet.now) }
    requires reached { AreReached (geo_of quiet.now) (words_of quiet.now) }
    ensures { result ≡ (list_any (is_key_among (geo_of quiet.now) (words_of quiet.now) key.now (2 * (geo_of quiet.now).chunks)) earlier.now
        || is_key_among (geo_of quiet.now) (words_of quiet.now) key.now number place) }
{
    let geo = quiet.geo();
    let fingerprint = geo.fingerprint_of(hash(key));
    for other in earlier {
        if is_among(quiet, key, fingerprint, 2 * geo.chunks(), *other) {
            return true;
        }
    }
    is_among(quiet, key, fingerprint, number, place)
}

/// The first slot of a tier that points to an entry whose key was there before.
fn again_in(quiet: &Quiet<'_>, earlier: &[u32], place: u32) -> Result<(), u32>
    requires earlier { (other : ℕ) → Contains earlier.now other → Contains (chain_in (geo_of quiet.now) (words_of quiet.now)) other }
    requires chained { Contains (chain_in (geo_of quiet.now) (words_of quiet.now)) place }
    requires rightful { AreRightful (geo_of quiet.now) quiet.now.segment (words_of quiet.now) }
    requires reached { AreReached (geo_of quiet.now) (words_of quiet.now) }
    ensures { NamesFirst (slots_where (geo_of quiet.now) place (is_again (geo_of quiet.now) (words_of quiet.now) earlier.now place)) result }
{
    let geo = quiet.geo();
    let mut bytes = [0; 256];
    for number in 0..2 * geo.chunks() {
        if let Some(chunk) = entry_chunk(quiet, place, number) {
            let len = quiet.read_key(place, chunk, &mut bytes);
            if is_again(quiet, earlier, place, number, &bytes[..len as usize]) {
                return Err(geo.slot_at(place, number));
            }
        }
    }
    Ok(())
}

/// The slots of all chained tiers, in order of the chain.
pub(crate) fn repeats(quiet: &Quiet<'_>) -> Result<(), u32>
    requires rightful { AreRightful (geo_of quiet.now) quiet.now.segment (words_of quiet.now) }
    requires reached { AreReached (geo_of quiet.now) (words_of quiet.now) }
    ensures { NamesFirst (duplicate_broken (geo_of quiet.now) (words_of quiet.now)) result }
{
    let places = quiet.places();
    for (link, place) in places.iter().enumerate() {
        again_in(quiet, &places[..link], *place)?;
    }
    Ok(())
}
