//! Looking for the entry of a key.

ghost use Rattle.std.specs.Prelude.{◌≡◌, ◌*◌, ◌<◌, IfOk, IfSome, List, ℕ, Contains};
ghost use Rattle.cm_geo.specs.Hash.{fingerprint_in, hash as hash_of};
ghost use Rattle.cm_plain.specs.States.{State};
ghost use Rattle.cm_plain.specs.Lawful.{Represents};
ghost use Rattle.cm_words.specs.Memory.{FitsNotes};
ghost use Rattle.cm_words.specs.Calls.{IsReadable, Loads};
ghost use Rattle.cm_tiers.specs.Chains.{AreFound};
ghost use Rattle.cm_segment.specs.Sights.{FindsAt, FindsKey, IsSightIn};

use cm_entry::lengths_if_key;
use cm_geo::{Geo, hash};
use cm_lookup::find;
use cm_tiers::Tiers;
use cm_words::{Dead, Mem};

/// The entry of a key: where it stands, the slot of its tier that points to it, and its lengths in bytes.
#[derive(Clone, Copy, Debug, PartialEq, Eq)]
pub struct Sight {
    pub place: u32,
    pub slot: u32,
    pub chunk: u32,
    pub key_len: u32,
    pub value_len: u32,
}

// The entry of a key in the tier at a place, if it has one there.
fn look_in<M: Mem>(
    mem: &mut M,
    geo: &Geo,
    place: u32,
    fingerprint: u32,
    key: &[u8],
) -> Result<Option<Sight>, Dead>
    requires readable { IsReadable (M.seen mem.old) geo.now }
    requires place { place < geo.now.tiers }
    requires fingerprint { fingerprint ≡ fingerprint_in geo.now (hash_of key.now) }
    ensures loads { Loads M.seen M.same_rest mem.old mem.new result }
    ensures inside { IfOk result (λ sight. IfSome sight (IsSightIn geo.now key.now)) }
    ensures found { IfOk result (λ sight. (words : List ℕ) (state : State) → FitsNotes (M.seen mem.new) words
        → Represents geo.now (M.seen mem.new).setting.segment words state → Contains state.chain place → FindsAt geo.now words state place key.now sight) }
{
    let slots = 2 * geo.chunks();
    let mut from = 0;
    while from < slots {
        let Some(hit) = find(mem, geo, place, fingerprint, from)? else {
            return Ok(None);
        };
        if let Some((key_len, value_len)) = lengths_if_key(mem, geo, place, hit.chunk, key)? {
            return Ok(Some(Sight {
                place,
                slot: hit.slot,
                chunk: hit.chunk,
                key_len,
                value_len,
            }));
        }
        from = hit.steps + 1;
    }
    Ok(None)
}

/// As `look`, along tiers of which some may be found already.
pub(crate) fn look_along<M: Mem>(
    mem: &mut M,
    geo: &Geo,
    tiers: &mut Tiers,
    key: &[u8],
) -> Result<Option<Sight>, Dead>
    requires readable { IsReadable (M.seen mem.old) geo.now }
    requires tiers { AreFound (M.seen mem.old) geo.now tiers.old }
    ensures loads { Loads M.seen M.same_rest mem.old mem.new result }
    ensures tiers { AreFound (M.seen mem.new) geo.now tiers.new }
    ensures inside { IfOk result (λ sight. IfSome sight (IsSightIn geo.now key.now)) }
    ensures found { IfOk result (λ sight. (words : List ℕ) (state : State) → FitsNotes (M.seen mem.new) words
        → Represents geo.now (M.seen mem.new).setting.segment words state → FindsKey geo.now words state key.now sight) }
{
    let fingerprint = geo.fingerprint_of(hash(key));
    for number in 0..geo.tiers() {
        let Some(place) = tiers.place(mem, geo, number)? else {
            return Ok(None);
        };
        if let Some(sight) = look_in(mem, geo, place, fingerprint, key)? {
            return Ok(Some(sight));
        }
    }
    Ok(None)
}

/// The entry of a key, where the words represent a state. None exactly where the state has no entry
/// of the key. Whatever the words are, the call returns, and what it answers lies in the geometry.
///
/// It loads the links up to the entry's tier; in each of these tiers the slots from the key's home on, up
/// to the entry's or an empty one; and of each entry whose slot has the key's fingerprint the lengths, and
/// the key up to where it differs.
pub fn look<M: Mem>(mem: &mut M, geo: &Geo, key: &[u8]) -> Result<Option<Sight>, Dead>
    requires readable { IsReadable (M.seen mem.old) geo.now }
    ensures loads { Loads M.seen M.same_rest mem.old mem.new result }
    ensures inside { IfOk result (λ sight. IfSome sight (IsSightIn geo.now key.now)) }
    ensures found { IfOk result (λ sight. (words : List ℕ) (state : State) → FitsNotes (M.seen mem.new) words
        → Represents geo.now (M.seen mem.new).setting.segment words state → FindsKey geo.now words state key.now sight) }
{
    look_along(mem, geo, &mut Tiers::first(), key)
}
