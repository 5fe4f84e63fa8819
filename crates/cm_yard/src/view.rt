//! What a seat knows, for contracts alone. No value of a `View` is made.

use cm_geo::Geo;
use std::collections::LinkedList;
use std::marker::Model;
use std::snapshot::Snapshot;

/// A claim word, by its index, and the segment that owns it.
pub struct OwnedWord {
    pub index: u64,
    pub segment: u64,
}

/// A number in the stop word of a segment.
pub struct StopNumber {
    pub segment: u64,
    pub number: u64,
}

/// What a seat has noted. The lists have the oldest note first, but for those of numbers of seats.
pub struct View {
    pub number: u64,
    /// How many claim exchanges it made.
    pub events: u64,
    /// The claims that were given to it.
    pub claims: LinkedList<OwnedWord>,
    /// The claim words that its exchanges found owned.
    pub misses: LinkedList<OwnedWord>,
    /// The numbers that it raised in stop words.
    pub raises: LinkedList<StopNumber>,
    /// The numbers that it found in stop words, 0 too.
    pub stops: LinkedList<StopNumber>,
    /// The numbers of the seats that it made, the one that it is about to make, and those of the seats that it joined.
    pub made: LinkedList<u64>,
    pub due: LinkedList<u64>,
    pub joined: LinkedList<u64>,
}

/// What is fixed when a yard is made: the geometry, and all words at the start.
#[derive(Drop)]
pub struct Key {
    pub geo: Geo,
    pub first: FirstWords,
}

/// Words that contracts alone read. A `Snapshot` has no bytes.
#[derive(Drop)]
pub struct FirstWords {
    words: Snapshot<Vec<u64>>,
}

impl Model for FirstWords {
    ghost use Rattle.std.specs.Prelude.{ℕ, List};

    ghost Value = { List ℕ };

    ghost view = { λ w. w.words.value.items };
}

impl FirstWords {
    ghost use Rattle.std.specs.Prelude.{◌≡◌};

    /// These words.
    pub(crate) fn of(words: &Vec<u64>) -> FirstWords
        ensures { result ≡ words.now.items }
    {
        FirstWords {
            words: Snapshot::of(words),
        }
    }
}
