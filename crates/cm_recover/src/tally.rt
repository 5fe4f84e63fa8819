//! Counts of what recovery keeps and drops.

ghost use Rattle.std.specs.Prelude.{◌≡◌, ◌+◌, ◌==◌, ◌<◌, ◌^◌, ℕ};
ghost use Rattle.cm_recover.specs.declared.cause.Cause.{Cause as CauseSeen};
ghost use Rattle.cm_recover.specs.KeptSlots.{rank};
ghost use Rattle.cm_recover.specs.Tallies.{count_for, one_if};

use crate::cause::Cause;
use cm_plain::Drops;

/// How many entries of a segment were kept so far, and how many slots dropped.
#[derive(Clone, Copy)]
pub(crate) struct Tally {
    pub(crate) kept: u32,
    pub(crate) drops: Drops,
}

impl Tally {
    /// None yet.
    pub(crate) fn new() -> Tally
        ensures entries { result.kept ≡ 0 }
        ensures drops { (why : CauseSeen) → count_for result.drops why ≡ 0 }
    {
        Tally {
            kept: 0,
            drops: Drops {
                range: 0,
                lengths: 0,
                checksum: 0,
                padding: 0,
                segment: 0,
                fingerprint: 0,
                duplicate: 0,
                overlap: 0,
                allowance: 0,
            },
        }
    }

    /// One slot more, dropped for this cause.
    pub(crate) fn with_drop(self, why: Cause) -> Tally
        requires { (other : CauseSeen) → count_for self.drops other < 2 ^ 31 }
        ensures entries { result.kept ≡ self.kept }
        ensures drops { (other : CauseSeen) → count_for result.drops other ≡ count_for self.drops other + one_if (rank other == rank why) }
    {
        let mut drops = self.drops;
        match why {
            Cause::Allowance => drops.allowance += 1,
            Cause::Range => drops.range += 1,
            Cause::Lengths => drops.lengths += 1,
            Cause::Checksum => drops.checksum += 1,
            Cause::Padding => drops.padding += 1,
            Cause::Segment => drops.segment += 1,
            Cause::Fingerprint => drops.fingerprint += 1,
            Cause::Duplicate => drops.duplicate += 1,
            Cause::Overlap => drops.overlap += 1,
        }
        Tally {
            kept: self.kept,
            drops,
        }
    }

    /// One entry more.
    pub(crate) fn with_entry(self) -> Tally
        requires { self.kept < 2 ^ 31 }
        ensures entries { result.kept ≡ self.kept + 1 }
        ensures drops { result.drops ≡ self.drops }
    {
        Tally {
            kept: self.kept + 1,
            drops: self.drops,
        }
    }
}
