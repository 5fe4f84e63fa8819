//! The law on what slots point to, and the entries of slots that keep it.

ghost use Rattle.std.specs.Prelude.{◌≡◌, ◌*◌, ◌<◌, MatchOption, None, false};
ghost use Rattle.cm_lookup.specs.Tiers.{IsSlot};
ghost use Rattle.cm_check.specs.Findings.{NamesFirst};
ghost use Rattle.cm_check.specs.SlotEntries.{entry_in};
ghost use Rattle.cm_check.specs.SlotLaws.{is_astray, slot_broken, slots_where};
ghost use Rattle.cm_check.specs.SlotReads.{IsEntryAt};
ghost use Rattle.cm_check.specs.Quiets.{geo_of, words_of};

use crate::quiet::Quiet;

/// Whether a slot isn't empty, and doesn't point to an entry of the segment whose key has its fingerprint.
fn is_astray(quiet: &Quiet<'_>, place: u32, number: u32) -> bool
    requires { IsSlot (geo_of quiet.now) place number }
    ensures { result ≡ is_astray (geo_of quiet.now) quiet.now.segment (words_of quiet.now) place number }
{
    let Some(parts) = quiet.slot(place, number) else {
        return false;
    };
    let geo = quiet.geo();
    if parts.low == 0 || geo.chunks() < parts.low {
        return true;
    }
    let chunk = parts.low - 1;
    if !quiet.has_entry(place, chunk) {
        return true;
    }
    let hash = quiet.key_hash(place, chunk);
    geo.segment_of(hash) != quiet.segment() || geo.fingerprint_of(hash) != parts.fingerprint
}

/// The first slot of a tier that does so.
fn astray_in(quiet: &Quiet<'_>, place: u32) -> Result<(), u32>
    requires { place < (geo_of quiet.now).tiers }
    ensures { NamesFirst (slots_where (geo_of quiet.now) place (is_astray (geo_of quiet.now) quiet.now.segment (words_of quiet.now) place)) result }
{
    for number in 0..2 * quiet.geo().chunks() {
        if is_astray(quiet, place, number) {
            return Err(quiet.geo().slot_at(place, number));
        }
    }
    Ok(())
}

/// The slots of all chained tiers.
pub(crate) fn slots(quiet: &Quiet<'_>) -> Result<(), u32>
    ensures { NamesFirst (slot_broken (geo_of quiet.now) quiet.now.segment (words_of quiet.now)) result }
{
    for place in 0..quiet.geo().tiers() {
        if quiet.is_linked(place) {
            astray_in(quiet, place)?;
        }
    }
    Ok(())
}

/// The chunk to which a slot that keeps the law points, unless it is empty.
pub(crate) fn entry_chunk(quiet: &Quiet<'_>, place: u32, number: u32) -> Option<u32>
    requires slot { IsSlot (geo_of quiet.now) place number }
    requires not_astray { is_astray (geo_of quiet.now) quiet.now.segment (words_of quiet.now) place number ≡ false }
    ensures { MatchOption result (entry_in (geo_of quiet.now) (words_of quiet.now) place number ≡ None)
        (IsEntryAt (geo_of quiet.now) quiet.now.segment (words_of quiet.now) place number) }
{
    let parts = quiet.slot(place, number)?;
    Some(parts.low - 1)
}
