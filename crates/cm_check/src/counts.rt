//! The counts of tiers and of the segment.

ghost use Rattle.std.specs.Prelude.{◌≡◌, ◌*◌, ◌<◌, ◌≤◌};
ghost use Rattle.cm_check.specs.Findings.{NamesFirst};
ghost use Rattle.cm_check.specs.CountLaws.{counts_of, occupied_among, segment_count_broken, tier_count_broken};
ghost use Rattle.cm_check.specs.Places.{chain_in};
ghost use Rattle.cm_check.specs.SlotReads.{AreCounted};
ghost use Rattle.cm_check.specs.Quiets.{geo_of, words_of};

use crate::heads::named_unless;
use crate::quiet::Quiet;

/// How many slots of a tier aren't empty.
fn occupied_in(quiet: &Quiet<'_>, place: u32) -> u32
    requires { place < (geo_of quiet.now).tiers }
    ensures { result ≡ occupied_among (geo_of quiet.now) (words_of quiet.now) place (2 * (geo_of quiet.now).chunks) }
{
    let mut occupied = 0;
    for number in 0..2 * quiet.geo().chunks() {
        if quiet.slot(place, number).is_some() {
            occupied += 1;
        }
    }
    occupied
}

/// The counts of all chained tiers.
pub(crate) fn tier_counts(quiet: &Quiet<'_>) -> Result<(), u32>
    ensures { NamesFirst (tier_count_broken (geo_of quiet.now) (words_of quiet.now)) result }
{
    for place in 0..quiet.geo().tiers() {
        if quiet.is_linked(place) {
            let at = quiet.geo().tier_at(place) + 1;
            named_unless(at, quiet.word(at) == u64::from(occupied_in(quiet, place)))?;
        }
    }
    Ok(())
}

/// The count of the segment.
pub(crate) fn segment_count(quiet: &Quiet<'_>) -> Result<(), u32>
    requires { AreCounted (geo_of quiet.now) (words_of quiet.now) }
    ensures { NamesFirst (segment_count_broken (geo_of quiet.now) (words_of quiet.now)) result }
{
    let mut count = 0;
    let places = quiet.places();
    for place in places {
        count += quiet.word(quiet.geo().tier_at(*place) + 1);
    }
    named_unless(2, quiet.word(2) == count)
}
