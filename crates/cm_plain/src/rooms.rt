//! Where a value is placed: first fit over the tiers of a chain.

ghost use Rattle.std.specs.Prelude.{◌≡◌, ◌+◌, ◌^◌, ◌<◌, ◌≤◌, All, length, Option};
ghost use Rattle.std.specs.List.{list_any};
ghost use Rattle.std.specs.Option.{option_copied, ForSome};
ghost use Rattle.cm_plain.specs.States.{HasRun, chunks_of as chunks_in, entry_among};
ghost use Rattle.cm_plain.specs.Rooms.{can_stay as can_stay_in, first_fit as first_fit_in, is_free as is_free_in, least_free as least_free_in, lowest_unlinked as lowest_unlinked_in, meets as meets_in, is_new_tier as is_new_tier_in, room_beside, spot_in as spot_of};

use crate::placed::Placed;
use crate::room::{Room, Spot};
use cm_geo::{Geo, MAX_RUN_CHUNKS};

/// The entry of a key, if there is one.
pub fn find_entry<'a>(entries: &'a [Placed], key: &[u8]) -> Option<&'a Placed>
    ensures { option_copied result ≡ entry_among key.now entries.entry.now }
{
    entries.iter().find(|entry| entry.key.as_slice() == key)
}

/// The chunks of an entry's run.
pub fn chunks_of(geo: &Geo, entry: &Placed) -> u32
    requires { HasRun geo.now entry.now }
    ensures { result ≡ chunks_in geo.now entry.now }
{
    let key_len = entry.key.as_slice().len();
    let value_len = entry.value.as_slice().len();
    geo.need(key_len as u32, value_len as u32)
}

/// Whether an entry's run meets one of so many chunks from this one on, at this place.
fn meets(geo: &Geo, place: u32, chunk: u32, chunks: u32, entry: &Placed) -> bool
    requires run { HasRun geo.now entry.now }
    requires fits { chunk + chunks < 2 ^ 32 }
    ensures { result ≡ meets_in geo.now place chunk chunks entry.now }
{
    entry.place == place
        && entry.chunk < chunk + chunks
        && chunk < entry.chunk + chunks_of(geo, entry)
}

/// Whether so many chunks from this one on meet a run at this place.
fn is_taken(geo: &Geo, entries: &[Placed], place: u32, chunk: u32, chunks: u32) -> bool
    requires runs { All (HasRun geo.now) entries.now }
    requires fits { chunk + chunks < 2 ^ 32 }
    ensures { result ≡ list_any (meets_in geo.now place chunk chunks) entries.now }
{
    entries
        .iter()
        .any(|entry| meets(geo, place, chunk, chunks, entry))
}

/// Whether so many chunks from this one on are there, and in no run.
fn is_free(geo: &Geo, entries: &[Placed], place: u32, chunk: u32, chunks: u32) -> bool
    requires runs { All (HasRun geo.now) entries.now }
    requires fits { chunk + chunks < 2 ^ 32 }
    ensures { result ≡ is_free_in geo.now entries.now place chunk chunks }
{
    chunk + chunks <= geo.chunks() && !is_taken(geo, entries, place, chunk, chunks)
}

/// The least chunk at a place from which so many are free.
fn least_free(geo: &Geo, entries: &[Placed], chunks: u32, place: u32) -> Option<u32>
    requires runs { All (HasRun geo.now) entries.now }
    requires within_limit { chunks ≤ MAX_RUN_CHUNKS }
    ensures { result ≡ least_free_in geo.now entries.now chunks place }
{
    for chunk in 0..geo.chunks() {
        if is_free(geo, entries, place, chunk, chunks) {
            return Some(chunk);
        }
    }
    None
}

/// The first tier of the chain with so many free chunks in a row, and the least such chunk there.
fn first_fit(geo: &Geo, chain: &[u32], entries: &[Placed], chunks: u32) -> Option<Spot>
    requires runs { All (HasRun geo.now) entries.now }
    requires within_limit { chunks ≤ MAX_RUN_CHUNKS }
    ensures { result ≡ first_fit_in geo.now (record { chain = chain.now; entries = entries.now }) chunks }
{
    for place in chain {
        if let Some(chunk) = least_free(geo, entries, chunks, *place) {
            return Some(Spot {
                place: *place,
                chunk,
            });
        }
    }
    None
}

/// The lowest place that is not in the chain.
fn lowest_unlinked(geo: &Geo, chain: &[u32]) -> u32
    ensures { result ≡ lowest_unlinked_in geo.now chain.now }
{
    let tiers = geo.tiers();
    for place in 0..tiers {
        if !chain.contains(&place) {
            return place;
        }
    }
    tiers
}

/// Whether a value of so many chunks can stand where an entry stands.
fn can_stay(geo: &Geo, entries: &[Placed], entry: &Placed, chunks: u32) -> bool
    requires runs { All (HasRun geo.now) entries.now }
    requires run { HasRun geo.now entry.now }
    requires within_limit { chunks ≤ MAX_RUN_CHUNKS }
    ensures { result ≡ can_stay_in geo.now entries.now entry.now chunks }
{
    let had = chunks_of(geo, entry);
    chunks <= had || is_free(geo, entries, entry.place, entry.chunk + had, chunks - had)
}

/// Where a value of so many chunks goes, beside the key's old entry.
pub fn room(geo: &Geo, chain: &[u32], entries: &[Placed], old: Option<&Placed>, chunks: u32) -> Room
    requires runs { All (HasRun geo.now) entries.now }
    requires within_limit { chunks ≤ MAX_RUN_CHUNKS }
    requires old_run { ForSome (option_copied old) (HasRun geo.now) }
    ensures { result ≡ room_beside geo.now (record { chain = chain.now; entries = entries.now }) (option_copied old.entry) chunks }
{
    if let Some(old) = old
        && can_stay(geo, entries, old, chunks)
    {
        return Room::InPlace;
    }
    if let Some(spot) = first_fit(geo, chain, entries, chunks) {
        return Room::Elsewhere(spot);
    }
    if chain.len() < geo.tiers() as usize {
        Room::NewTier(lowest_unlinked(geo, chain))
    } else {
        Room::Nowhere
    }
}

/// The chunk at which a value goes, beside the key's old entry; none where there is no room.
pub fn spot_in(room: Room, old: Option<&Placed>) -> Option<Spot>
    ensures { result ≡ spot_of room (option_copied old.entry) }
{
    match room {
        Room::InPlace => old.map(|old| Spot {
            place: old.place,
            chunk: old.chunk,
        }),
        Room::Elsewhere(spot) => Some(spot),
        Room::NewTier(place) => Some(Spot { place, chunk: 0 }),
        Room::Nowhere => None,
    }
}

/// Whether a value goes to a new tier.
pub fn is_new_tier(room: Room) -> bool
    ensures { result ≡ is_new_tier_in room }
{
    matches!(room, Room::NewTier(_))
}

/// Where a key's value goes, and whether it replaces an old one.
#[derive(Clone, Copy)]
pub struct Placement {
    pub room: Room,
    pub spot: Spot,
    pub replaces: bool,
}

ghost use Rattle.std.specs.Prelude.{MatchOption, None};
ghost use Rattle.cm_geo.specs.Need.{Fits, need};
ghost use Rattle.cm_plain.specs.Placements.{IsPlacement};
ghost use Rattle.cm_plain.specs.Rooms.{room_for};

/// Where a value of so many bytes goes that is placed for a key; none where there is no room.
pub fn placement_of(
    geo: &Geo,
    chain: &[u32],
    entries: &[Placed],
    key: &[u8],
    value_len: u32,
) -> Option<Placement>
    requires runs { All (HasRun geo.now) entries.now }
    requires fits { Fits geo.now (length key.now) value_len }
    ensures { MatchOption result
        (spot_of (room_for geo.now (record { chain = chain.now; entries = entries.now }) key.now (need geo.now (length key.now) value_len)) (entry_among key.now entries.now) ≡ None)
        (IsPlacement geo.now (record { chain = chain.now; entries = entries.now }) key.now value_len) }
{
    let chunks = geo.need(key.len() as u32, value_len);
    let old = find_entry(entries, key);
    let replaces = old.is_some();
    let room = room(geo, chain, entries, old, chunks);
    let spot = spot_in(room, old)?;
    Some(Placement {
        room,
        spot,
        replaces,
    })
}
