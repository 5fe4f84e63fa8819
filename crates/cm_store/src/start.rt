//! The start of a store, over the words of a map.

ghost use Rattle.std.specs.Prelude.{◌≡◌, ◌-◌, ◌<◌, IfOk, length, map, sum};
ghost use Rattle.std.specs.Prelude.{None, false};
ghost use Rattle.cm_plain.specs.FoundChains.{chain_of};
ghost use Rattle.cm_words.specs.Maps.{segment_in};
ghost use Rattle.cm_lock.specs.Rule.{root_view};
ghost use Rattle.cm_lock.specs.Tables.{key_of};
ghost use Rattle.cm_yard.specs.Views.{root_view as yard_root_view};
ghost use Rattle.cm_yard.specs.Words.{owned_in};
ghost use Rattle.cm_yard.specs.Yards.{key_of as yard_key_of};
ghost use Rattle.cm_store.specs.Balance.{Balances};
ghost use Rattle.cm_store.specs.Splits.{IsRoot};
ghost use Rattle.cm_store.specs.Passes.{AreSeatsOf, IsPassOf, claims_view, is_dead, sweep_of, views, views_of};
ghost use Rattle.cm_words.specs.LawfulMaps.{IsLawfulMap};
ghost use Rattle.cm_store.specs.Tables.{keys_of, linked_in, linked_of};

use crate::pass::Pass;
use crate::store::Store;
use cm_lock::{SegSeat, SegTable};
use cm_plain::NoMemory;
use cm_tiers::chain;
use cm_words::{Dead, FixedMem, Never, Words};
use cm_yard::Yard;
use std::alloc::Global;

/// How many tiers a segment has beyond its first one.
fn linked_at(words: &Words, segment: u32) -> u32
    requires { segment < words.now.geo.segments }
    ensures { result ≡ linked_in words.now segment }
{
    let geo = *words.geo();
    let mut mem = FixedMem::new(words, segment);
    match chain(&mut mem, &geo) {
        Ok(chain) => chain.len - 1,
        Err(Dead) => unreachable!(),
    }
}

/// The same of all segments. Takes memory.
fn all_linked(alloc: Global, words: &Words) -> Result<Vec<u32>, NoMemory>
    ensures { IfOk result (λ linked. linked.items ≡ linked_of words.now) }
{
    let segments = words.geo().segments();
    let mut linked = Vec::with_capacity(alloc, segments as usize)?;
    for segment in 0..segments {
        linked.push(linked_at(words, segment))?;
    }
    Ok(linked)
}

/// The table of each segment, and its root seat. Takes memory.
fn all_tables(alloc: Global, words: &Words) -> Result<(Vec<SegTable>, Vec<SegSeat>), NoMemory>
    requires lawful { IsLawfulMap words.now }
    ensures keys { IfOk result (λ r. map key_of r.0.items ≡ keys_of words.now) }
    ensures its { IfOk result (λ r. AreSeatsOf r.0.items r.1.items) }
    ensures roots { IfOk result (λ r. views r.1.items ≡ map root_view (keys_of words.now)) }
{
    words.are_whole();
    let geo = *words.geo();
    let segments = geo.segments();
    let mut tables = Vec::with_capacity(alloc, segments as usize)?;
    let mut seats = Vec::with_capacity(alloc, segments as usize)?;
    for segment in 0..segments {
        let (table, seat) = SegTable::new(alloc, &geo, segment, words.segment(segment))?;
        tables.push(table)?;
        seats.push(seat)?;
    }
    Ok((tables, seats))
}

impl Store {
    /// A store over these words, and the root pass, of number 64. Takes memory: NoMemory where none is left, and no other error;
    /// the words are gone then. The words are lawful, and keep the allowance of extra tiers.
    pub fn start(alloc: Global, words: Words) -> Result<(Store, Pass<Never>), NoMemory>
        requires lawful { IsLawfulMap words }
        ensures geo { IfOk result (λ r. r.0.geo ≡ words.geo) }
        ensures keys { IfOk result (λ r. map key_of r.0.tables.items ≡ keys_of words) }
        ensures its { IfOk result (λ r. IsPassOf r.1 r.0) }
        ensures roots { IfOk result (λ r. views_of r.1 ≡ map root_view (keys_of words)) }
        ensures claims { IfOk result (λ r. claims_view r.1 ≡ yard_root_view) }
        ensures root { IfOk result (λ r. IsRoot r.1) }
        ensures balance { IfOk result (λ r. Balances (views_of r.1) (claims_view r.1)) }
        ensures owned { IfOk result (λ r. owned_in words.geo (yard_key_of r.0.yard).first ≡ sum (linked_of words)) }
        ensures live { IfOk result (λ r. is_dead r.1 ≡ false) }
        ensures no_sweep { IfOk result (λ r. sweep_of r.1 ≡ None) }
    {
        let geo = *words.geo();
        let linked = all_linked(alloc, &words)?;
        let (yard, claims) = Yard::new(alloc, &geo, &linked)?;
        let (tables, seats) = all_tables(alloc, &words)?;
        let store = Store { geo, tables, yard };
        let root = Pass {
            seats,
            claims,
            fuse: Never,
            number: 64,
            dead: false,
            sweep: None,
        };
        Ok((store, root))
    }
}
