//! The slot law: no empty slot stands between the home of a slot and the slot.

ghost use Rattle.std.specs.Prelude.{◌*◌, ◌<◌, ◌≤◌};
ghost use Rattle.cm_check.specs.Findings.{NamesFirst};
ghost use Rattle.cm_check.specs.SlotLaws.{gap_broken, is_cut_off, slots_where};
ghost use Rattle.cm_check.specs.SlotReads.{IsReach};
ghost use Rattle.cm_check.specs.Quiets.{geo_of, words_of};

use crate::quiet::Quiet;

/// How many slots in a row, from the last one of a tier back, aren't empty.
fn reach_of_last(quiet: &Quiet<'_>, place: u32) -> u32
    requires { place < (geo_of quiet.now).tiers }
    ensures reach { IsReach (geo_of quiet.now) (words_of quiet.now) place 0 result }
    ensures within_slots { result ≤ 2 * (geo_of quiet.now).chunks }
{
    let slots = 2 * quiet.geo().chunks();
    for behind in 0..slots {
        if quiet.slot(place, slots - 1 - behind).is_none() {
            return behind;
        }
    }
    slots
}

/// The first slot of a tier that its home doesn't reach.
fn cut_off_in(quiet: &Quiet<'_>, place: u32) -> Result<(), u32>
    requires { place < (geo_of quiet.now).tiers }
    ensures { NamesFirst (slots_where (geo_of quiet.now) place (is_cut_off (geo_of quiet.now) (words_of quiet.now) place)) result }
{
    let geo = quiet.geo();
    let slots = 2 * geo.chunks();
    // So many slots in a row before this one, also round the end of the tier, aren't empty.
    let mut reach = reach_of_last(quiet, place);
    for number in 0..slots {
        reach = match quiet.slot(place, number) {
            Some(parts) => {
                let way = (number + slots - geo.home_of(parts.fingerprint)) & (slots - 1);
                if reach < way {
                    return Err(geo.slot_at(place, number));
                }
                reach + 1
            }
            None => 0,
        };
    }
    Ok(())
}

/// The slots of all chained tiers.
pub(crate) fn gaps(quiet: &Quiet<'_>) -> Result<(), u32>
    ensures { NamesFirst (gap_broken (geo_of quiet.now) (words_of quiet.now)) result }
{
    for place in 0..quiet.geo().tiers() {
        if quiet.is_linked(place) {
            cut_off_in(quiet, place)?;
        }
    }
    Ok(())
}
