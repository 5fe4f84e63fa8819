//! Clearing all of a segment but the entries.

ghost use Rattle.std.specs.Prelude.{◌≡◌, ◌≢◌, ◌<◌, ◌≤◌, AllPairs, length};
ghost use Rattle.cm_geo.specs.Addresses.{words_in_segment};
ghost use Rattle.cm_recover.specs.Clearing.{AreTiersCleared, IsCleared, IsTierCleared, IsZeroed};
ghost use Rattle.cm_recover.specs.Rebuilding.{PlacesWithin};

use cm_geo::Geo;

// Zeros from an address up to another one.
fn clear_between(words: &mut [u64], from: u32, to: u32)
    requires order { from ≤ to }
    requires in_range { to ≤ length words.old }
    ensures { IsZeroed from to words.old words.new }
{
    for at in from..to {
        words[at as usize] = 0;
    }
}

// All of the tier at a place, or, where the allowance covers it, all of it but its link and its chunks.
fn clear_tier(words: &mut [u64], geo: &Geo, place: u32, covered: bool)
    requires place { place < geo.now.tiers }
    requires length { length words.old ≡ words_in_segment geo.now }
    ensures { IsTierCleared geo.now place covered words.old words.new }
{
    let at = geo.tier_at(place);
    if covered {
        clear_between(words, at + 1, geo.chunk_at(place, 0));
    } else {
        let end = geo.chunk_at(place, geo.chunks() - 1) + geo.chunk_words();
        clear_between(words, at, end);
    }
}

// Each tier, by whether it is at one of the places.
fn clear_tiers(words: &mut [u64], geo: &Geo, places: &[u32])
    requires length { length words.old ≡ words_in_segment geo.now }
    ensures { AreTiersCleared geo.now places.now words.old words.new }
{
    for place in 0..geo.tiers() {
        clear_tier(words, geo, place, places.contains(&place));
    }
}

/// Clears the segment's head, the heads, bits and slots of the tiers at these places, and all of the others.
/// The chain ends with the last of the places.
pub(crate) fn clear(words: &mut [u64], geo: &Geo, places: &[u32])
    requires length { length words.old ≡ words_in_segment geo.now }
    requires nonempty { 0 < length places.now }
    requires inside { PlacesWithin geo.now places.now }
    requires apart { AllPairs (λ place other. place ≢ other) places.now }
    ensures { IsCleared geo.now places.now words.old words.new }
{
    clear_between(words, 0, 4);
    clear_tiers(words, geo, places);
    let last = places[places.len() - 1];
    words[geo.tier_at(last) as usize] = 0;
}
