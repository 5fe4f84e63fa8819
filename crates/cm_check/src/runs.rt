//! The runs of a tier: no two of them meet, and its bits are those of their chunks.

ghost use Rattle.std.specs.Prelude.{◌≡◌, ◌+◌, ◌*◌, ◌<◌, ◌≤◌, IfOk, MatchBool, length, replicate, slice_index};
ghost use Rattle.cm_check.specs.Findings.{NamesFirst};
ghost use Rattle.cm_check.specs.SlotLaws.{is_overlapping, overlap_broken, slots_where};
ghost use Rattle.cm_check.specs.CountLaws.{bits_broken, bits_in};
ghost use Rattle.cm_check.specs.SlotReads.{AreRightful, AreRunsApart, IsTierApart, IsTierRightful};
ghost use Rattle.cm_check.specs.TakenChunks.{AddsRun, MeetsRun, Tells};
ghost use Rattle.cm_check.specs.Quiets.{geo_of, words_of};

use crate::quiet::Quiet;
use crate::slots::entry_chunk;

/// The bits of the chunks of a tier that lie in runs: bit b of word i is that of chunk 64 i + b.
#[derive(Drop)]
struct Taken {
    bits: [u64; 64],
    ghost words: { length bits ≡ 64 },
}

impl Taken {
    /// No chunk.
    fn none() -> Taken
        ensures { result.bits ≡ replicate 64 0 }
    {
        Taken { bits: [0; 64] }
    }

    /// One of its words.
    fn word(&self, number: u32) -> u64
        requires { number < 64 }
        ensures { result ≡ slice_index self.now.bits number }
    {
        self.bits[number as usize]
    }

    /// Takes the chunks of a run, unless one of them is taken already.
    fn take(&mut self, chunk: u32, chunks: u32) -> bool
        requires { chunk + chunks ≤ 4096 }
        ensures { MatchBool result (AddsRun self.old.bits self.new.bits chunk chunks) (MeetsRun self.old.bits chunk chunks) }
    {
        for at in chunk..chunk + chunks {
            let index = at as usize / 64;
            let word = self.bits[index];
            let bit = 1 << (at % 64);
            if word & bit != 0 {
                return false;
            }
            self.bits[index] = word | bit;
        }
        true
    }
}

/// The chunks that lie in runs of a tier, or the first slot whose run meets that of an earlier one.
fn taken_in(quiet: &Quiet<'_>, place: u32) -> Result<Taken, u32>
    requires place { place < (geo_of quiet.now).tiers }
    requires rightful { IsTierRightful (geo_of quiet.now) quiet.now.segment (words_of quiet.now) place }
    ensures first { NamesFirst (slots_where (geo_of quiet.now) place (is_overlapping (geo_of quiet.now) (words_of quiet.now) place)) result }
    ensures taken { IfOk result (λ taken. Tells (geo_of quiet.now) (words_of quiet.now) place (2 * (geo_of quiet.now).chunks) taken.bits) }
{
    let geo = quiet.geo();
    let mut taken = Taken::none();
    for number in 0..2 * geo.chunks() {
        if let Some(chunk) = entry_chunk(quiet, place, number) {
            if !taken.take(chunk, quiet.chunks_at(place, chunk)) {
                return Err(geo.slot_at(place, number));
            }
        }
    }
    Ok(taken)
}

/// The slots of all chained tiers, in order of the chain.
pub(crate) fn overlaps(quiet: &Quiet<'_>) -> Result<(), u32>
    requires { AreRightful (geo_of quiet.now) quiet.now.segment (words_of quiet.now) }
    ensures { NamesFirst (overlap_broken (geo_of quiet.now) (words_of quiet.now)) result }
{
    let places = quiet.places();
    for place in places {
        taken_in(quiet, *place)?;
    }
    Ok(())
}

/// The first word of bits of a tier that isn't that of its runs.
fn bits_in(quiet: &Quiet<'_>, place: u32) -> Result<(), u32>
    requires place { place < (geo_of quiet.now).tiers }
    requires rightful { IsTierRightful (geo_of quiet.now) quiet.now.segment (words_of quiet.now) place }
    requires apart { IsTierApart (geo_of quiet.now) (words_of quiet.now) place }
    ensures { NamesFirst (bits_in (geo_of quiet.now) (words_of quiet.now) place) result }
{
    let geo = quiet.geo();
    let taken = taken_in(quiet, place)?;
    for word in 0..geo.chunks() / 64 {
        let at = geo.bits_at(place, word);
        if quiet.word(at) != taken.word(word) {
            return Err(at);
        }
    }
    Ok(())
}

/// The words of bits of all chained tiers.
pub(crate) fn bits(quiet: &Quiet<'_>) -> Result<(), u32>
    requires rightful { AreRightful (geo_of quiet.now) quiet.now.segment (words_of quiet.now) }
    requires apart { AreRunsApart (geo_of quiet.now) (words_of quiet.now) }
    ensures { NamesFirst (bits_broken (geo_of quiet.now) (words_of quiet.now)) result }
{
    for place in 0..quiet.geo().tiers() {
        if quiet.is_linked(place) {
            bits_in(quiet, place)?;
        }
    }
    Ok(())
}
