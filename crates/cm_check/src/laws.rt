//! The laws of a map, one after the other.

ghost use Rattle.std.specs.Prelude.{◌≡◌, ◌-◌, ◌<◌, ◌↔◌, List, None, [], length, map, ℕ};
ghost use Rattle.cm_words.specs.Maps.{segment_in};
ghost use Rattle.cm_check.specs.Findings.{NamesFirst};
ghost use Rattle.cm_check.specs.Places.{chain_in};
ghost use Rattle.cm_words.specs.LawfulMaps.{IsLawfulMap};
ghost use Rattle.cm_check.specs.LawOrder.{allowance_broken, breaks, breaks_in, breaks_of, broken_at, count_laws, first_broken, head_laws, slot_laws};
ghost use Rattle.cm_check.specs.Quiets.{geo_of, words_of};

use crate::counts::{segment_count, tier_counts};
use crate::gaps::gaps;
use crate::heads::{chain, header, lock, number, reserved, unlinked};
use crate::law::{Broken, Law};
use crate::quiet::Quiet;
use crate::repeats::repeats;
use crate::runs::{bits, overlaps};
use crate::slots::slots;
use cm_words::Words;

/// The word at which a law is broken, with the law.
fn named(law: Law, segment: u32, answer: Result<(), u32>) -> Result<(), Broken>
    ensures { (words : List ℕ) → NamesFirst words answer → NamesFirst (map (broken_at segment law) words) result }
{
    match answer {
        Ok(()) => Ok(()),
        Err(word) => Err(Broken { law, segment, word }),
    }
}

/// The laws on the first words of the segment and of its tiers.
fn head_laws(quiet: &Quiet<'_>) -> Result<(), Broken>
    ensures { NamesFirst (breaks_of head_laws (geo_of quiet.now) quiet.now.segment (words_of quiet.now)) result }
{
    let segment = quiet.segment();
    named(Law::Lock, segment, lock(quiet))?;
    named(Law::Number, segment, number(quiet))?;
    named(Law::Header, segment, header(quiet))?;
    named(Law::Chain, segment, chain(quiet))?;
    named(Law::Reserved, segment, reserved(quiet))
}

/// The laws on slots and entries.
fn slot_laws(quiet: &Quiet<'_>) -> Result<(), Broken>
    ensures { NamesFirst (breaks_of slot_laws (geo_of quiet.now) quiet.now.segment (words_of quiet.now)) result }
{
    let segment = quiet.segment();
    named(Law::Slot, segment, slots(quiet))?;
    named(Law::Gap, segment, gaps(quiet))?;
    named(Law::Duplicate, segment, repeats(quiet))?;
    named(Law::Overlap, segment, overlaps(quiet))
}

/// The laws on what is counted, and on what lies outside the chain.
fn count_laws(quiet: &Quiet<'_>) -> Result<(), Broken>
    requires { breaks_of slot_laws (geo_of quiet.now) quiet.now.segment (words_of quiet.now) ≡ [] }
    ensures { NamesFirst (breaks_of count_laws (geo_of quiet.now) quiet.now.segment (words_of quiet.now)) result }
{
    let segment = quiet.segment();
    named(Law::Bits, segment, bits(quiet))?;
    named(Law::TierCount, segment, tier_counts(quiet))?;
    named(Law::SegmentCount, segment, segment_count(quiet))?;
    named(Law::Unlinked, segment, unlinked(quiet))
}

/// All laws of a segment, in their order.
fn segment_laws(quiet: &Quiet<'_>) -> Result<(), Broken>
    ensures { NamesFirst (breaks_in (geo_of quiet.now) quiet.now.segment (words_of quiet.now)) result }
{
    head_laws(quiet)?;
    slot_laws(quiet)?;
    count_laws(quiet)
}

/// How many tiers of a segment are chained beyond the first one.
fn extra_tiers(quiet: &Quiet<'_>) -> u32
    ensures value { result ≡ length (chain_in (geo_of quiet.now) (words_of quiet.now)) - 1 }
    ensures below_eight { result < 8 }
{
    quiet.places().len() as u32 - 1
}

/// The first segment up to which more tiers are chained than the geometry allows.
fn allowance(words: &Words) -> Result<(), Broken>
    ensures { NamesFirst (allowance_broken words.now.geo (segment_in words.now)) result }
{
    let geo = words.geo();
    let mut extra = 0;
    for segment in 0..geo.segments() {
        extra += extra_tiers(&Quiet::new(words, segment));
        if geo.extra() < extra {
            return Err(Broken {
                law: Law::Allowance,
                segment,
                word: 0,
            });
        }
    }
    Ok(())
}

/// All laws of a map: those of each segment, and then the allowance.
fn laws(words: &Words) -> Result<(), Broken>
    ensures { NamesFirst (breaks words.now) result }
{
    for segment in 0..words.geo().segments() {
        segment_laws(&Quiet::new(words, segment))?;
    }
    allowance(words)
}

/// The first law of a map's words that is broken, and where; None where none is. Any words may be asked, and
/// no memory is taken.
///
/// None comes exactly where the words of each segment represent a state, with no lock held, and the chains
/// keep the allowance. Else it is the first broken law by segment, by the order of `Law`, and then by
/// ascending word; two laws, those on keys that are there twice and on runs that meet, go by the order of the
/// chain and then of the slots. The allowance comes after all segments.
pub fn check(words: &Words) -> Option<Broken>
    ensures lawful { result ≡ None ↔ IsLawfulMap words.now }
    ensures first { result ≡ first_broken words.now }
{
    words.are_whole();
    laws(words).err()
}
