//! The laws on single words of a segment.

ghost use Rattle.std.specs.Prelude.{◌≡◌, ◌+◌, ◌<◌, ◌≤◌, not, [], ◌∷◌, filter};
ghost use Rattle.cm_geo.specs.Addresses.{words_in_segment, words_in_tier};
ghost use Rattle.std.specs.List.{range_with_len};
ghost use Rattle.cm_check.specs.Findings.{NamesFirst};
ghost use Rattle.cm_check.specs.HeadLaws.{chain_broken, header_broken, is_quiet_number, lock_broken, nonzero_in, number_broken, reserved_broken, reserved_in, unlinked_broken, where_nonzero};
ghost use Rattle.cm_check.specs.Quiets.{geo_of, words_of};

use crate::quiet::Quiet;
use cm_geo::Geo;

/// The last change number: 2^62 changes have two each.
const LAST_NUMBER: u64 = 1 << 63;

/// An address, unless a law holds there.
pub(crate) fn named_unless(at: u32, holds: bool) -> Result<(), u32>
    ensures { NamesFirst (filter (λ here. not holds) (at ∷ [])) result }
{
    if holds { Ok(()) } else { Err(at) }
}

/// The lock word.
pub(crate) fn lock(quiet: &Quiet<'_>) -> Result<(), u32>
    ensures { NamesFirst (lock_broken (words_of quiet.now)) result }
{
    named_unless(0, quiet.word(0) == 0)
}

/// Whether a change number is that of a quiet segment.
fn is_quiet_number(word: u64) -> bool
    ensures { result ≡ is_quiet_number word }
{
    word % 2 == 0 && word <= LAST_NUMBER
}

/// The change number.
pub(crate) fn number(quiet: &Quiet<'_>) -> Result<(), u32>
    ensures { NamesFirst (number_broken (words_of quiet.now)) result }
{
    named_unless(1, is_quiet_number(quiet.word(1)))
}

/// The fourth word of the segment.
pub(crate) fn header(quiet: &Quiet<'_>) -> Result<(), u32>
    ensures { NamesFirst (header_broken (words_of quiet.now)) result }
{
    named_unless(3, quiet.word(3) == 0)
}

/// The link at which the chain is cut.
pub(crate) fn chain(quiet: &Quiet<'_>) -> Result<(), u32>
    ensures { NamesFirst (chain_broken (geo_of quiet.now) (words_of quiet.now)) result }
{
    let places = quiet.places();
    let last = places[places.len() - 1];
    named_unless(quiet.geo().tier_at(last), !quiet.is_cut())
}

/// The first of so many words, from an address on, that isn't 0.
fn zeros(quiet: &Quiet<'_>, from: u32, count: u32) -> Result<(), u32>
    requires { from + count ≤ words_in_segment (geo_of quiet.now) }
    ensures { NamesFirst (where_nonzero (words_of quiet.now) (range_with_len from count)) result }
{
    for at in from..from + count {
        if quiet.word(at) != 0 {
            return Err(at);
        }
    }
    Ok(())
}

/// The third and the fourth word of each chained tier.
pub(crate) fn reserved(quiet: &Quiet<'_>) -> Result<(), u32>
    ensures { NamesFirst (reserved_broken (geo_of quiet.now) (words_of quiet.now)) result }
{
    for place in 0..quiet.geo().tiers() {
        if quiet.is_linked(place) {
            zeros(quiet, quiet.geo().tier_at(place) + 2, 2)?;
        }
    }
    Ok(())
}

/// The words of one tier.
fn tier_words(geo: &Geo) -> u32
    ensures { result ≡ words_in_tier geo.now }
{
    (geo.segment_words() - 4) / geo.tiers()
}

/// The words of the places outside the chain.
pub(crate) fn unlinked(quiet: &Quiet<'_>) -> Result<(), u32>
    ensures { NamesFirst (unlinked_broken (geo_of quiet.now) (words_of quiet.now)) result }
{
    let geo = quiet.geo();
    let words = tier_words(geo);
    for place in 0..geo.tiers() {
        if !quiet.is_linked(place) {
            zeros(quiet, geo.tier_at(place), words)?;
        }
    }
    Ok(())
}
