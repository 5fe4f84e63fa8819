//! A count that contracts alone read.

ghost use Rattle.std.specs.Prelude.{◌≡◌, ◌+◌};

use std::marker::Model;
use std::snapshot::Snapshot;

/// How often something happened, without a last value. Of a `Snapshot` no bytes are kept, so a count takes
/// neither memory nor time.
#[derive(Drop)]
#[cycle(count)]
pub(crate) struct Count {
    earlier: Snapshot<Earlier>,
}

#[derive(Drop)]
#[cycle(count)]
enum Earlier {
    Nothing,
    One(Snapshot<Count>),
}

impl Model for Count {
    ghost use Rattle.std.specs.Prelude.{◌≡◌, ℕ};

    ghost Value = { ℕ };

    ghost use Rattle.cm_words.specs.Counts.{count_after};

    ghost view = { λ c. count_after c.earlier.value };

    ghost size = { λ n. n };

    ghost use Rattle.std.proofs.Common.{arith};

    ghost size_decreases = { λ c h. Prim.grind arith };
}

impl Count {
    /// Not once.
    pub(crate) fn new() -> Count
        ensures { result ≡ 0 }
    {
        Count {
            earlier: Snapshot::of(&Earlier::Nothing),
        }
    }

    /// Once more.
    pub(crate) fn add_one(&mut self)
        ensures { self.new ≡ self.old + 1 }
    {
        *self = Count {
            earlier: Snapshot::of(&Earlier::One(Snapshot::of(self))),
        };
    }
}
