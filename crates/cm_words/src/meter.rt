//! A fuse, with the events that it admitted counted for contracts.

ghost use Rattle.std.specs.Prelude.{◌≡◌, OnErr};
ghost use Rattle.cm_words.specs.Meters.{ReportsDeath, MakesEvent, unused};
ghost use Rattle.cm_words.specs.Metered.{meter_seen};

use crate::count::Count;
use crate::fuse::{Admit, Dead, EventKind, Fuse};

/// A fuse with its counts.
#[derive(Drop)]
pub(crate) struct Meter<F: Fuse> {
    fuse: F,
    events: Count,
    stores: Count,
}

impl<F: Fuse> Meter<F> {
    /// No event was asked for yet.
    pub(crate) fn new(fuse: F) -> Meter<F>
        ensures { meter_seen F.fused result ≡ unused (F.fused fuse) }
    {
        Meter {
            fuse,
            events: Count::new(),
            stores: Count::new(),
        }
    }

    /// Asks the fuse for one event.
    pub(crate) fn ask(&mut self, kind: EventKind) -> Result<(), Dead>
        ensures fuse { ReportsDeath (meter_seen F.fused self.old) (meter_seen F.fused self.new) result }
        ensures event { MakesEvent kind (meter_seen F.fused self.old) (meter_seen F.fused self.new) result }
        ensures dead_events { OnErr result (self.new.events ≡ self.old.events) }
        ensures dead_stores { OnErr result (self.new.stores ≡ self.old.stores) }
    {
        match self.fuse.admit(kind) {
            Admit::Die => Err(Dead),
            Admit::Go => {
                self.events.add_one();
                if kind == EventKind::Store {
                    self.stores.add_one();
                }
                Ok(())
            }
        }
    }
}
