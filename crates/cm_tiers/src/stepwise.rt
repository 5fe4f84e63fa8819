//! The chain of a segment, one tier at a time.

ghost use Rattle.std.specs.Prelude.{◌≡◌, ◌+◌, ◌<◌, ◌≤◌, IfOk, IfSome, List, None, OnOk, ℕ, slice_get};
ghost use Rattle.cm_plain.specs.FoundChains.{chain_of};
ghost use Rattle.cm_geo.specs.declared.geo.Geo.{Geo as GeoSeen};
ghost use Rattle.cm_words.specs.Memory.{FitsNotes, MemSeen};
ghost use Rattle.cm_words.specs.Calls.{IsReadable, Loads};
ghost use Rattle.cm_tiers.specs.Chains.{AreAll, AreFound, IsFoundAt};

use crate::links::next;
use crate::places::Chain;
use cm_geo::Geo;
use cm_words::{Dead, Mem};

/// The first tiers of a segment in the order of their links. A link is loaded only when the tier behind
/// it is asked for, and once.
#[derive(Clone, Copy, Debug, PartialEq, Eq)]
pub struct Tiers {
    /// The tiers that were found so far.
    pub found: Chain,
    /// Whether no link leads on behind them.
    pub ended: bool,
}

impl Tiers {
    /// The first tier of each chain, which is at place 0.
    pub fn first() -> Tiers
        ensures { (m : MemSeen) (geo : GeoSeen) → AreFound m geo result }
    {
        Tiers {
            found: Chain {
                places: [0; 8],
                len: 1,
                cut: false,
            },
            ended: false,
        }
    }

    /// The place of the tier of this number, counted from 0, whatever words stand there. None where the
    /// chain has no such tier. At most the tier behind those that were found may be asked for.
    pub fn place<M: Mem>(
        &mut self,
        mem: &mut M,
        geo: &Geo,
        number: u32,
    ) -> Result<Option<u32>, Dead>
        requires readable { IsReadable (M.seen mem.old) geo.now }
        requires found { AreFound (M.seen mem.old) geo.now self.old }
        requires number { number ≤ self.old.found.len }
        ensures loads { Loads M.seen M.same_rest mem.old mem.new result }
        ensures count { OnOk result ((M.seen mem.new).meter.events ≤ (M.seen mem.old).meter.events + 1) }
        ensures found { AreFound (M.seen mem.new) geo.now self.new }
        ensures inside { IfOk result (λ place. IfSome place (IsFoundAt geo.now self.new number)) }
        ensures all { IfOk result (λ place. place ≡ None → AreAll (M.seen mem.new) geo.now self.new) }
        ensures place { IfOk result (λ place. (words : List ℕ) → FitsNotes (M.seen mem.new) words → place ≡ slice_get (chain_of geo.now words).places number) }
    {
        let len = self.found.len;
        if number < len {
            return Ok(Some(self.found.places[number as usize]));
        }
        if self.ended {
            return Ok(None);
        }
        // A chain of all tiers has no link that leads on.
        if len == geo.tiers() {
            return Ok(None);
        }
        let last = self.found.places[len as usize - 1];
        let Some(place) = next(mem, geo, last)? else {
            self.ended = true;
            return Ok(None);
        };
        if self.found.places[..len as usize].contains(&place) {
            self.ended = true;
            return Ok(None);
        }
        self.found.places[len as usize] = place;
        self.found.len = len + 1;
        Ok(Some(place))
    }
}
