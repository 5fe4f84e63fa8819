//! What becomes of a slot: whether its entry is kept, beside those that were kept before.

ghost use Rattle.std.specs.Prelude.{◌≡◌, ◌↔◌, ◌<◌, ◌/◌, ◌^◌, List, IsTrue, MatchOption, ℕ, Contains};
ghost use Rattle.cm_geo.specs.Hash.{fingerprint_in, hash as hash_of};
ghost use Rattle.cm_plain.specs.declared.placed.Placed.{Placed};
ghost use Rattle.cm_plain.specs.declared.reply.Pair.{Pair};
ghost use Rattle.cm_plain.specs.States.{State, chunks_of};
ghost use Rattle.cm_plain.specs.Changes.{entry_at, run_at, run_of};
ghost use Rattle.cm_plain.specs.Readings.{entry, reading_at};
ghost use Rattle.cm_plain.specs.Lawful.{Resting};
ghost use Rattle.cm_words.specs.Memory.{FitsNotes};
ghost use Rattle.cm_words.specs.Calls.{HasLoaded};
ghost use Rattle.cm_chunks.specs.RunBits.{IsRunIn};
ghost use Rattle.cm_recover.specs.OccupiedSlots.{OccupiedSlot};
ghost use Rattle.cm_recover.specs.Judgements.{judgement, judgement_on_entry, judgement_on_reading};
ghost use Rattle.cm_recover.specs.Rebuilding.{HasKeyAt, HasKeyIn, IsJudged, IsOpen, IsSlotWith, IsSoFar, KeepsRunIn, PlacesWithin, PointsToOne, spot};

use crate::answers::alive;
use crate::cause::Cause;
use cm_chunks::free_after;
use cm_entry::{Verdict, key_equals, read_key_into, verify};
use cm_geo::{Geo, hash};
use cm_lookup::find;
use cm_plain::Run;
use cm_words::Mem;

/// What becomes of a slot.
#[derive(Clone, Copy)]
pub(crate) enum Judged {
    Dropped(Cause),
    /// The entry in this run is kept.
    Kept(Run),
}

// Whether an entry of this key was kept in the tier at a place.
fn has_key_in<M: Mem>(
    mem: &mut M,
    geo: &Geo,
    segment: u32,
    place: u32,
    fingerprint: u32,
    key: &[u8],
) -> bool
    requires open { IsOpen (M.seen mem.old) geo.now segment }
    requires place { place < geo.now.tiers }
    requires fingerprint { fingerprint ≡ fingerprint_in geo.now (hash_of key.now) }
    ensures loads { HasLoaded M.seen M.same_rest mem.old mem.new }
    ensures found { (words : List ℕ) (state : State) → FitsNotes (M.seen mem.new) words
        → Resting geo.now segment words state → Contains state.chain place → (IsTrue result ↔ HasKeyAt state place key.now) }
{
    let slots = 2 * geo.chunks();
    let mut from = 0;
    while from < slots {
        let Some(hit) = alive(find(mem, geo, place, fingerprint, from)) else {
            return false;
        };
        if alive(key_equals(mem, geo, place, hit.chunk, key)) {
            return true;
        }
        from = hit.steps + 1;
    }
    false
}

// Whether an entry of this key was kept in one of the tiers.
fn has_key<M: Mem>(
    mem: &mut M,
    geo: &Geo,
    segment: u32,
    places: &[u32],
    fingerprint: u32,
    key: &[u8],
) -> bool
    requires open { IsOpen (M.seen mem.old) geo.now segment }
    requires places { PlacesWithin geo.now places.now }
    requires fingerprint { fingerprint ≡ fingerprint_in geo.now (hash_of key.now) }
    ensures loads { HasLoaded M.seen M.same_rest mem.old mem.new }
    ensures found { (words : List ℕ) (state : State) → FitsNotes (M.seen mem.new) words
        → Resting geo.now segment words state → state.chain ≡ places.now → (IsTrue result ↔ HasKeyIn state key.now) }
{
    for place in places {
        if has_key_in(mem, geo, segment, *place, fingerprint, key) {
            return true;
        }
    }
    false
}

// Of a slot with this fingerprint that points to an entry in this run.
fn judge_entry<M: Mem>(
    mem: &mut M,
    geo: &Geo,
    segment: u32,
    places: &[u32],
    fingerprint: u32,
    run: Run,
) -> Judged
    requires open { IsOpen (M.seen mem.old) geo.now segment }
    requires places { PlacesWithin geo.now places.now }
    requires place { Contains places.now run.place }
    requires run { IsRunIn geo.now run }
    ensures loads { HasLoaded M.seen M.same_rest mem.old mem.new }
    ensures run { KeepsRunIn geo.now result }
    ensures verdict { (words old : List ℕ) (kept : List Placed) (pair : Pair) → FitsNotes (M.seen mem.new) words
        → IsSoFar geo.now segment old places.now kept words → reading_at geo.now words run.place run.chunk ≡ entry pair
        → run ≡ run_of geo.now (entry_at pair.key pair.value run.place run.chunk)
        → IsJudged geo.now (judgement_on_entry geo.now segment kept fingerprint (entry_at pair.key pair.value run.place run.chunk)) result }
{
    let mut out = [0; 256];
    let len = alive(read_key_into(mem, geo, run.place, run.chunk, &mut out));
    let key = &out[..len as usize];
    let hash = hash(key);
    if geo.segment_of(hash) != segment {
        return Judged::Dropped(Cause::Segment);
    }
    if geo.fingerprint_of(hash) != fingerprint {
        return Judged::Dropped(Cause::Fingerprint);
    }
    if has_key(mem, geo, segment, places, fingerprint, key) {
        return Judged::Dropped(Cause::Duplicate);
    }
    if !alive(free_after(mem, geo, run.place, run.chunk, run.chunks)) {
        return Judged::Dropped(Cause::Overlap);
    }
    Judged::Kept(run)
}

// The run of so many chunks from a chunk on, if a run may be so long and lies in the tier.
fn run_in(geo: &Geo, place: u32, chunk: u32, chunks: u32) -> Option<Run>
    requires place { place < geo.now.tiers }
    requires chunk { chunk < geo.now.chunks }
    ensures { MatchOption result (IsRunIn geo.now (run_at chunks (spot place chunk)) → ⊥)
        (λ run. IsRunIn geo.now run × (run ≡ run_at chunks (spot place chunk))) }
{
    if chunks == 0 || chunks > 64 || geo.chunks() - chunk < chunks {
        return None;
    }
    Some(Run {
        place,
        chunk,
        chunks,
    })
}

// Of a slot with this fingerprint that points to this chunk.
fn judge_chunk<M: Mem>(
    mem: &mut M,
    geo: &Geo,
    segment: u32,
    places: &[u32],
    fingerprint: u32,
    place: u32,
    chunk: u32,
) -> Judged
    requires open { IsOpen (M.seen mem.old) geo.now segment }
    requires places { PlacesWithin geo.now places.now }
    requires place { Contains places.now place }
    requires chunk { chunk < geo.now.chunks }
    ensures loads { HasLoaded M.seen M.same_rest mem.old mem.new }
    ensures run { KeepsRunIn geo.now result }
    ensures verdict { (words old : List ℕ) (kept : List Placed) → FitsNotes (M.seen mem.new) words
        → IsSoFar geo.now segment old places.now kept words
        → IsJudged geo.now (judgement_on_reading geo.now segment kept fingerprint place chunk (reading_at geo.now words place chunk)) result }
{
    let chunks = match alive(verify(mem, geo, place, chunk)) {
        Verdict::Good { chunks, .. } => chunks,
        Verdict::Lengths => return Judged::Dropped(Cause::Lengths),
        Verdict::Checksum => return Judged::Dropped(Cause::Checksum),
        Verdict::Padding => return Judged::Dropped(Cause::Padding),
    };
    // An entry's run lies in its tier, so no words lead to this cause.
    let Some(run) = run_in(geo, place, chunk, chunks) else {
        return Judged::Dropped(Cause::Lengths);
    };
    judge_entry(mem, geo, segment, places, fingerprint, run)
}

// The chunk to which a slot with this word points, if that is one of so many.
fn chunk_of(word: u64, chunks: u32) -> Option<u32>
    ensures { PointsToOne word chunks result }
{
    let low = word % (1 << 32);
    if low == 0 || u64::from(chunks) < low {
        return None;
    }
    Some((low - 1) as u32)
}

/// What becomes of a slot with this word, in the tier at a place. The tiers at `places` are those that the
/// allowance covers.
pub(crate) fn judge<M: Mem>(
    mem: &mut M,
    geo: &Geo,
    segment: u32,
    places: &[u32],
    place: u32,
    word: u64,
) -> Judged
    requires open { IsOpen (M.seen mem.old) geo.now segment }
    requires places { PlacesWithin geo.now places.now }
    ensures loads { HasLoaded M.seen M.same_rest mem.old mem.new }
    ensures run { KeepsRunIn geo.now result }
    ensures verdict { (words old : List ℕ) (kept : List Placed) (at : OccupiedSlot) → FitsNotes (M.seen mem.new) words
        → IsSlotWith at place word → IsSoFar geo.now segment old places.now kept words
        → IsJudged geo.now (judgement geo.now segment old places.now kept at) result }
{
    if !places.contains(&place) {
        return Judged::Dropped(Cause::Allowance);
    }
    let Some(chunk) = chunk_of(word, geo.chunks()) else {
        return Judged::Dropped(Cause::Range);
    };
    judge_chunk(mem, geo, segment, places, (word >> 32) as u32, place, chunk)
}
