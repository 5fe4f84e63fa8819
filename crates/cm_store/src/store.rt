//! A store.

ghost use Rattle.std.specs.Prelude.{◌≡◌};
ghost use Rattle.cm_yard.specs.Yards.{key_of as yard_key_of};
ghost use Rattle.cm_store.specs.Tables.{AreTables};

use cm_geo::Geo;
use cm_lock::SegTable;
use cm_yard::Yard;

/// The words of all segments, shared among threads, with the yard of their extra tiers and stop words.
#[derive(Drop)]
pub struct Store {
    pub(crate) geo: Geo,
    pub(crate) tables: Vec<SegTable>,
    pub(crate) yard: Yard,
    pub ghost are: { AreTables geo tables.items },
    pub ghost yard_geo: { (yard_key_of yard).geo ≡ geo },
}

impl Store {
    /// The geometry.
    pub fn geo(&self) -> &Geo
        ensures { result.now ≡ self.now.geo }
    {
        &self.geo
    }
}
