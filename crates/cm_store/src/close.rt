//! The end of a store.

ghost use Rattle.std.specs.Prelude.{◌≡◌, ◌*◌, All, IfOk, None, OnOk, length, map, vec_len};
ghost use Rattle.cm_geo.specs.Addresses.{words_in_map};
ghost use Rattle.cm_lock.specs.Seats.{AllJoined};
ghost use Rattle.cm_lock.specs.Tables.{key_of};
ghost use Rattle.cm_yard.specs.Yards.{key_of as yard_key_of};
ghost use Rattle.cm_lock.specs.declared.table.SegTable.{SegTable};
ghost use Rattle.cm_store.specs.Closes.{ClosesAll, ClosesYard, HasJoinedAll};
ghost use Rattle.cm_store.specs.Passes.{AreSeatsOf, IsPassOf, claims_view, sweep_of, views, views_of};
ghost use Rattle.cm_store.specs.Splits.{IsRoot, IsRootSeat};
ghost use Rattle.cm_store.specs.Tables.{AreTables};

use crate::pass::Pass;
use crate::store::Store;
use cm_geo::Geo;
use cm_lock::{SegSeat, SegTable};
use cm_plain::NoMemory;
use cm_words::{Never, Words};
use std::alloc::Global;

/// The words of all tables, one after the other: those of the front ones first. Takes memory.
fn close_all(
    alloc: Global,
    geo: &Geo,
    mut tables: Vec<SegTable>,
    mut seats: Vec<SegSeat>,
) -> Result<Vec<u64>, NoMemory>
    requires its { AreSeatsOf tables.items seats.items }
    requires geos { All (λ (table : SegTable). (key_of table).geo ≡ geo.now) tables.items }
    requires root { All IsRootSeat (views seats.items) }
    requires joined { All AllJoined (views seats.items) }
    ensures { IfOk result (λ words. ClosesAll (map key_of tables.items) (views seats.items) (record { geo = geo.now; words = words.items })) }
{
    let Some(table) = tables.pop() else {
        return Ok(Vec::with_capacity(alloc, geo.total_words() as usize)?);
    };
    let Some(seat) = seats.pop() else {
        unreachable!()
    };
    let mut words = close_all(alloc, geo, tables, seats)?;
    let last = table.close(alloc, seat)?;
    words.extend_from_slice(last.as_slice())?;
    Ok(words)
}

impl Store {
    /// The words of all segments, once every pass that was made was joined. Takes memory: NoMemory where none is
    /// left, and no other error; the words are gone then.
    pub fn close(self, alloc: Global, root: Pass<Never>) -> Result<Words, NoMemory>
        requires its { IsPassOf root self }
        requires root { IsRoot root }
        requires no_sweep { sweep_of root ≡ None }
        requires joined { HasJoinedAll root }
        ensures geo { IfOk result (λ words. words.geo ≡ self.geo) }
        ensures closes { IfOk result (λ words. ClosesAll (map key_of self.tables.items) (views_of root) words) }
        ensures yard { OnOk result (ClosesYard (yard_key_of self.yard) (claims_view root)) }
    {
        let Store { geo, tables, yard } = self;
        let Pass { seats, claims, .. } = root;
        let words = close_all(alloc, &geo, tables, seats)?;
        yard.close(alloc, claims)?;
        Ok(Words::of(&geo, words))
    }
}
