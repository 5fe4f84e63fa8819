//! The listing of a segment.

ghost use Rattle.std.specs.Prelude.{◌≡◌, ◌≤◌, IfOk};
ghost use Rattle.cm_plain.specs.declared.op.Op.TheVariants as op;
ghost use Rattle.cm_store.specs.Lists.{CalledList, listing_of};
ghost use Rattle.cm_store.specs.Passes.{MayCall};

use crate::pass::Pass;
use crate::store::Store;
use cm_lock::Stop;
use cm_plain::{NoMemory, PairList};
use cm_turn::{ListCall, Listing, Spot};
use cm_words::Fuse;
use std::alloc::Global;

/// All pairs of a segment, in byte order of the keys, with the number of changes of the state that has them.
#[derive(Drop, Debug)]
pub struct Listed {
    pub spot: Spot,
    pub pairs: PairList,
}

/// Why a listing gave no pairs.
#[derive(Clone, Copy, Debug, PartialEq, Eq)]
pub enum ListStop {
    /// As many tries of Read failed as were allowed, with one look each; the last one found this lock word.
    Busy { looks: u32, last: u64 },
    /// The pass died in place of an event.
    Died,
    /// No memory was left for the pairs: Read was released, and no answer was added.
    NoMemory,
}

/// What a listing answered, with its segment.
fn listed_at(
    segment: u32,
    ended: Result<Result<Listing, NoMemory>, Stop>,
) -> Result<Listed, ListStop>
    ensures listing { listing_of result ≡ ended }
    ensures spot { IfOk result (λ listed. listed.spot.segment ≡ segment) }
{
    match ended {
        Ok(Ok(Listing { number, pairs })) => Ok(Listed {
            spot: Spot { segment, number },
            pairs,
        }),
        Ok(Err(NoMemory)) => Err(ListStop::NoMemory),
        Err(Stop::Busy { looks, last }) => Err(ListStop::Busy { looks, last }),
        Err(Stop::Died) => Err(ListStop::Died),
    }
}

impl Store {
    /// All pairs of a segment, in byte order of the keys, under Read. Takes memory. NoMemory comes where none is left
    /// for the pairs: then Read was released and no answer was added, and where that release died, the answer is
    /// Died. Busy comes exactly where all tries of Read failed, and Died where the pass died in place of an event.
    pub fn list<F: Fuse>(
        &self,
        alloc: Global,
        pass: &mut Pass<F>,
        segment: u32,
        tries: u32,
    ) -> Result<Listed, ListStop>
        requires may { MayCall self.now (op.List segment) pass.old }
        requires nonzero { 1 ≤ tries }
        ensures { CalledList F.fused self.now tries segment pass.old pass.new result }
    {
        let call = ListCall {
            alloc,
            segment,
            tries,
        };
        let ended = self.act_at(pass, segment, &call, &mut []);
        listed_at(segment, ended)
    }
}
