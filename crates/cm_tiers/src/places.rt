//! The places of a chain, and the lowest one outside it.

ghost use Rattle.std.specs.Prelude.{◌≡◌, ◌≢◌, ◌<◌, ◌≤◌, All, AllPairs, IfSome, None, ◌↔◌};
ghost use Rattle.cm_plain.specs.Rooms.{lowest_unlinked as lowest_unlinked_in};
ghost use Rattle.cm_tiers.specs.Chains.{places_of};

use cm_geo::Geo;

/// The tiers of a segment in the order of their links.
///
/// The first `len` places are the chain, and the others are 0. It is cut where its last link leads
/// nowhere: to no place of the geometry, or to one that the chain has.
#[derive(Clone, Copy, Debug, PartialEq, Eq)]
pub struct Chain {
    pub places: [u32; 8],
    pub len: u32,
    pub cut: bool,
}

/// The lowest place of the geometry that is not in the chain. None exactly where the chain has all of
/// them.
pub fn lowest_unlinked(geo: &Geo, chain: &Chain) -> Option<u32>
    requires within_limit { chain.now.len ≤ geo.now.tiers }
    requires inside { All (λ place. place < geo.now.tiers) (places_of chain.now) }
    requires apart { AllPairs (λ place other. place ≢ other) (places_of chain.now) }
    ensures none { result ≡ None ↔ chain.now.len ≡ geo.now.tiers }
    ensures lowest { IfSome result (λ place. place ≡ lowest_unlinked_in geo.now (places_of chain.now)) }
    ensures below { IfSome result (λ place. place < geo.now.tiers) }
{
    let linked = &chain.places[..chain.len as usize];
    for place in 0..geo.tiers() {
        if !linked.contains(&place) {
            return Some(place);
        }
    }
    None
}
