//! The plan of a change.

ghost use Rattle.std.specs.Prelude.{◌≡◌, ◌≢◌, ◌*◌, ◌+◌, ◌-◌, ◌<◌, ◌≤◌, ◌||◌, nat_le, IfOk, IfSome, IsTrue, List, None, length, ℕ};
ghost use Rattle.cm_geo.specs.Hash.{segment_of_key};
ghost use Rattle.cm_geo.specs.Need.{Fits, need};
ghost use Rattle.cm_plain.specs.declared.op.Op.TheVariants.{Put, Remove};
ghost use Rattle.cm_plain.specs.States.{State};
ghost use Rattle.cm_plain.specs.Rooms.{first_fit as first_fit_of, is_free, room_apart as room_apart_of};
ghost use Rattle.cm_plain.specs.Lawful.{BitsRepresent, Resting};
ghost use Rattle.cm_words.specs.Memory.{FitsNotes};
ghost use Rattle.cm_words.specs.Calls.{IsReadable, Loads};
ghost use Rattle.cm_tiers.specs.Chains.{AreAll, AreFound};
ghost use Rattle.cm_chunks.specs.RunBits.{IsRunIn};
ghost use Rattle.cm_segment.specs.Planning.{IfPlan, MayBegin, PlansPut, PlansRemove};
ghost use Rattle.cm_segment.specs.OldEntries.{FindsOld, IsOldIn, run_of_old, slot_of_old};
ghost use Rattle.cm_segment.specs.RoomPlans.{IsRoomBeside, IsRoomFor, IsRoomIn, PlansBeside, kind_beside, run_beside};

use crate::seek::{Sight, look_along};
use cm_chunks::{first_fit, free_after};
use cm_geo::Geo;
use cm_plain::{Ask, Plan, PlanKind, Room, Run, Spot};
use cm_tiers::{Tiers, lowest_unlinked};
use cm_words::{Dead, Mem};

/// What it takes to put a value.
#[derive(Clone, Copy)]
pub enum Planned<'a> {
    /// This plan, which links no tier.
    Ready(Plan<'a>),
    /// This plan, which links a tier, the one at the lowest place that isn't linked.
    NeedsTier(Plan<'a>),
    /// No tier has room, and the chain has all tiers of the geometry.
    FullChain,
}

// The run of a key's entry, and the slot that points to it.
#[derive(Clone, Copy)]
struct Old {
    run: Run,
    slot: u32,
}

// The run of an entry that was found. Lengths that don't fit are those of no state; they give one chunk.
fn run_found(geo: &Geo, sight: Sight) -> Run
    requires place { sight.place < geo.now.tiers }
    requires chunk { sight.chunk < geo.now.chunks }
    ensures inside { IsRunIn geo.now result }
    ensures place { result.place ≡ sight.place }
    ensures chunk { result.chunk ≡ sight.chunk }
    ensures chunks { Fits geo.now sight.key_len sight.value_len → sight.chunk + need geo.now sight.key_len sight.value_len ≤ geo.now.chunks
        → result.chunks ≡ need geo.now sight.key_len sight.value_len }
{
    let mut chunks = 1;
    if geo.fits(sight.key_len, sight.value_len) {
        let needed = geo.need(sight.key_len, sight.value_len);
        if sight.chunk + needed <= geo.chunks() {
            chunks = needed;
        }
    }
    Run {
        place: sight.place,
        chunk: sight.chunk,
        chunks,
    }
}

// The entry of a key, if it has one.
fn old_of<M: Mem>(
    mem: &mut M,
    geo: &Geo,
    tiers: &mut Tiers,
    key: &[u8],
) -> Result<Option<Old>, Dead>
    requires readable { IsReadable (M.seen mem.old) geo.now }
    requires tiers { AreFound (M.seen mem.old) geo.now tiers.old }
    ensures loads { Loads M.seen M.same_rest mem.old mem.new result }
    ensures tiers { AreFound (M.seen mem.new) geo.now tiers.new }
    ensures inside { IfOk result (λ old. IfSome old (IsOldIn geo.now key.now)) }
    ensures found { IfOk result (λ old. (words : List ℕ) (state : State) → FitsNotes (M.seen mem.new) words
        → Resting geo.now (M.seen mem.new).setting.segment words state → FindsOld geo.now words state key.now old) }
{
    let Some(sight) = look_along(mem, geo, tiers, key)? else {
        return Ok(None);
    };
    Ok(Some(Old {
        run: run_found(geo, sight),
        slot: sight.slot,
    }))
}

// Whether a value of so many chunks can stand where an entry stands.
fn can_stay<M: Mem>(mem: &mut M, geo: &Geo, old: Run, chunks: u32) -> Result<bool, Dead>
    requires readable { IsReadable (M.seen mem.old) geo.now }
    requires run { IsRunIn geo.now old }
    requires nonzero { 1 ≤ chunks }
    requires within_limit { chunks ≤ 64 }
    ensures loads { Loads M.seen M.same_rest mem.old mem.new result }
    ensures inside { IfOk result (λ stays. IsTrue stays → old.chunk + chunks ≤ geo.now.chunks) }
    ensures stays { IfOk result (λ stays. (words : List ℕ) (state : State) → FitsNotes (M.seen mem.new) words → BitsRepresent geo.now words state old.place
        → stays ≡ (nat_le chunks old.chunks || is_free geo.now state.entries old.place (old.chunk + old.chunks) (chunks - old.chunks))) }
{
    if chunks <= old.chunks {
        return Ok(true);
    }
    let end = old.chunk + old.chunks;
    free_after(mem, geo, old.place, end, chunks - old.chunks)
}

// The first tier of the chain with so many free chunks in a row, and the least such chunk there.
fn fit_along<M: Mem>(
    mem: &mut M,
    geo: &Geo,
    tiers: &mut Tiers,
    chunks: u32,
) -> Result<Option<Spot>, Dead>
    requires readable { IsReadable (M.seen mem.old) geo.now }
    requires tiers { AreFound (M.seen mem.old) geo.now tiers.old }
    requires nonzero { 1 ≤ chunks }
    requires within_limit { chunks ≤ 64 }
    ensures loads { Loads M.seen M.same_rest mem.old mem.new result }
    ensures tiers { AreFound (M.seen mem.new) geo.now tiers.new }
    ensures inside { IfOk result (λ found. IfSome found (λ spot. (spot.place < geo.now.tiers) × (spot.chunk + chunks ≤ geo.now.chunks))) }
    ensures all { IfOk result (λ found. found ≡ None → AreAll (M.seen mem.new) geo.now tiers.new) }
    ensures found { IfOk result (λ found. (words : List ℕ) (state : State) → FitsNotes (M.seen mem.new) words
        → Resting geo.now (M.seen mem.new).setting.segment words state → found ≡ first_fit_of geo.now state chunks) }
{
    for number in 0..geo.tiers() {
        let Some(place) = tiers.place(mem, geo, number)? else {
            return Ok(None);
        };
        if let Some(chunk) = first_fit(mem, geo, place, chunks)? {
            return Ok(Some(Spot { place, chunk }));
        }
    }
    Ok(None)
}

// Where a value of so many chunks goes that doesn't stay where its key's entry stands.
fn room_apart<M: Mem>(mem: &mut M, geo: &Geo, tiers: &mut Tiers, chunks: u32) -> Result<Room, Dead>
    requires readable { IsReadable (M.seen mem.old) geo.now }
    requires tiers { AreFound (M.seen mem.old) geo.now tiers.old }
    requires nonzero { 1 ≤ chunks }
    requires within_limit { chunks ≤ 64 }
    ensures loads { Loads M.seen M.same_rest mem.old mem.new result }
    ensures inside { IfOk result (IsRoomIn geo.now None chunks) }
    ensures room { IfOk result (λ room. (words : List ℕ) (state : State) → FitsNotes (M.seen mem.new) words
        → Resting geo.now (M.seen mem.new).setting.segment words state → room ≡ room_apart_of geo.now state.chain (first_fit_of geo.now state chunks)) }
{
    if let Some(spot) = fit_along(mem, geo, tiers, chunks)? {
        return Ok(Room::Elsewhere(spot));
    }
    match lowest_unlinked(geo, &tiers.found) {
        Some(place) => Ok(Room::NewTier(place)),
        None => Ok(Room::Nowhere),
    }
}

// Where a value of so many chunks goes, beside its key's entry.
fn room_beside<M: Mem>(
    mem: &mut M,
    geo: &Geo,
    tiers: &mut Tiers,
    old: Option<Old>,
    chunks: u32,
) -> Result<Room, Dead>
    requires readable { IsReadable (M.seen mem.old) geo.now }
    requires tiers { AreFound (M.seen mem.old) geo.now tiers.old }
    requires old { IfSome old (λ old. IsRunIn geo.now old.run) }
    requires nonzero { 1 ≤ chunks }
    requires within_limit { chunks ≤ 64 }
    ensures loads { Loads M.seen M.same_rest mem.old mem.new result }
    ensures inside { IfOk result (IsRoomIn geo.now (run_of_old old) chunks) }
    ensures room { IfOk result (λ room. (words : List ℕ) (state : State) → FitsNotes (M.seen mem.new) words
        → Resting geo.now (M.seen mem.new).setting.segment words state → IsRoomFor geo.now state old chunks room) }
{
    let Some(stood) = old else {
        return room_apart(mem, geo, tiers, chunks);
    };
    if can_stay(mem, geo, stood.run, chunks)? {
        return Ok(Room::InPlace);
    }
    room_apart(mem, geo, tiers, chunks)
}

// How a room places an entry beside an old run.
fn kind_in(room: Room, old: Option<Run>) -> PlanKind
    ensures { result ≡ kind_beside room old }
{
    match (room, old) {
        (_, None) => PlanKind::Fresh,
        (Room::InPlace, Some(_)) => PlanKind::InPlace,
        (_, Some(_)) => PlanKind::Relocate,
    }
}

// The run that a room gives to so many chunks.
fn run_in(room: Room, chunks: u32, old: Option<Run>) -> Option<Run>
    ensures { result ≡ run_beside room chunks old }
{
    let spot = match (room, old) {
        (Room::Nowhere, _) | (Room::InPlace, None) => return None,
        (Room::InPlace, Some(run)) => Spot {
            place: run.place,
            chunk: run.chunk,
        },
        (Room::Elsewhere(spot), _) => spot,
        (Room::NewTier(place), _) => Spot { place, chunk: 0 },
    };
    Some(Run {
        place: spot.place,
        chunk: spot.chunk,
        chunks,
    })
}

// The plan that puts a value in a room.
fn plan_beside<'a>(
    key: &'a [u8],
    value: &'a [u8],
    chunks: u32,
    old: Option<Old>,
    room: Room,
) -> Planned<'a>
    requires room { IsRoomBeside (run_of_old old) room }
    ensures { PlansBeside key.now value.now (run_of_old old) (slot_of_old old) room chunks result }
{
    let (run, old_slot) = match old {
        Some(old) => (Some(old.run), old.slot),
        None => (None, 0),
    };
    let Some(new) = run_in(room, chunks, run) else {
        return Planned::FullChain;
    };
    let link = matches!(room, Room::NewTier(_));
    let plan = Plan {
        ask: Ask::Put { key, value },
        kind: kind_in(room, run),
        key,
        value,
        old: run,
        old_slot,
        new: Some(new),
        link,
    };
    if link {
        Planned::NeedsTier(plan)
    } else {
        Planned::Ready(plan)
    }
}

/// The plan that puts a value for a key, where the words are those of a state: it is the state's, and
/// `FullChain` comes exactly where the state has no room and may not have one more tier. Whatever the
/// words are, the call returns, and the numbers of a plan lie in the geometry.
///
/// The plan asks for a put; a caller that performs another operation that places this value sets its own
/// in `ask`. Besides what `look` loads, the bits behind the key's entry are loaded where the value needs
/// more chunks, and, where it can't stay there, the bits of the tiers up to the first one with room.
pub fn plan_put<'a, M: Mem>(
    mem: &mut M,
    geo: &Geo,
    key: &'a [u8],
    value: &'a [u8],
) -> Result<Planned<'a>, Dead>
    requires readable { IsReadable (M.seen mem.old) geo.now }
    requires fits { Fits geo.now (length key.now) (length value.now) }
    requires segment { segment_of_key geo.now key.now ≡ (M.seen mem.old).setting.segment }
    ensures loads { Loads M.seen M.same_rest mem.old mem.new result }
    ensures begins { IfOk result (IfPlan (MayBegin (M.seen mem.new) geo.now (Put key.now value.now))) }
    ensures planned { IfOk result (λ planned. (words : List ℕ) (state : State) → FitsNotes (M.seen mem.new) words
        → Resting geo.now (M.seen mem.new).setting.segment words state → PlansPut geo.now words state key.now value.now planned) }
{
    let chunks = geo.need(key.len() as u32, value.len() as u32);
    let mut tiers = Tiers::first();
    let old = old_of(mem, geo, &mut tiers, key)?;
    let room = room_beside(mem, geo, &mut tiers, old, chunks)?;
    Ok(plan_beside(key, value, chunks, old, room))
}

/// The plan that removes a key, where the words are those of a state: it is the state's, and None comes
/// exactly where the state has no entry of the key. Whatever the words are, the call returns, and the
/// numbers of a plan lie in the geometry. The plan asks for a removal; a caller that performs another
/// operation that removes this key sets its own in `ask`. It loads what `look` loads.
pub fn plan_remove<'a, M: Mem>(
    mem: &mut M,
    geo: &Geo,
    key: &'a [u8],
) -> Result<Option<Plan<'a>>, Dead>
    requires readable { IsReadable (M.seen mem.old) geo.now }
    ensures loads { Loads M.seen M.same_rest mem.old mem.new result }
    ensures begins { IfOk result (λ plan. IfSome plan (MayBegin (M.seen mem.new) geo.now (Remove key.now))) }
    ensures planned { IfOk result (λ plan. (words : List ℕ) (state : State) → FitsNotes (M.seen mem.new) words
        → Resting geo.now (M.seen mem.new).setting.segment words state → PlansRemove geo.now words state key.now plan) }
{
    let Some(old) = old_of(mem, geo, &mut Tiers::first(), key)? else {
        return Ok(None);
    };
    Ok(Some(Plan {
        ask: Ask::Remove { key },
        kind: PlanKind::Remove,
        key,
        value: &[],
        old: Some(old.run),
        old_slot: old.slot,
        new: None,
        link: false,
    }))
}
