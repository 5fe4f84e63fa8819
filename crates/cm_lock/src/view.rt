//! What a seat knows, for contracts alone. No value of a `View` is made.

use crate::first::FirstWords;
use cm_geo::Geo;
use cm_plain::{Op, PlanKind, Reply, Run};
use cm_words::FoundWord;
use std::collections::LinkedList;

/// What a seat may do with the words of its segment.
#[derive(Clone, Copy, Debug, PartialEq, Eq, Drop)]
pub enum Level {
    /// Nothing.
    Free,
    /// Load, beside other readers and beside an updater.
    Read,
    /// Load, beside readers, and raise to `Write`.
    Update,
    /// Load and store, beside nobody.
    Write,
}

/// What is fixed when a table is made: the geometry, the segment, and its words at the start.
#[derive(Drop)]
pub struct Key {
    pub geo: Geo,
    pub segment: u32,
    pub first: FirstWords,
}

/// A word that was loaded or stored: its address, its present word, and its first one under the plan.
pub struct NotedWord {
    pub at: u64,
    pub present: u64,
    pub first: u64,
}

/// A try of a take: the word that its look loaded, and the last word that it found.
pub struct Try {
    pub looked: u64,
    pub found: u64,
}

/// A change, with bytes of its own.
pub struct ChangeCopy {
    pub op: Op,
    pub kind: PlanKind,
    pub key: LinkedList<u8>,
    pub value: LinkedList<u8>,
    pub old_run: Option<Run>,
    pub new_run: Option<Run>,
    pub link: bool,
}

/// A change with its number.
pub struct NumberedChange {
    pub number: u64,
    pub change: ChangeCopy,
}

/// An answer that changed nothing, with the number of changes of the state that it speaks of.
pub struct NumberedAnswer {
    pub number: u64,
    pub op: Op,
    pub reply: Reply,
}

/// A level that the seat of this number holds, with the plan under way and the notes of the words that it
/// loaded or stored since it was last Free, the newest first.
pub struct HeldLevel {
    pub number: u64,
    pub level: Level,
    pub plan: Option<ChangeCopy>,
    pub notes: LinkedList<NotedWord>,
}

/// A round of loads without a level: the change number that it began with, and what it found, the newest first.
pub struct Round {
    pub first: u64,
    pub found: LinkedList<FoundWord>,
}

/// What a seat knows and has done.
pub struct View {
    pub own: HeldLevel,
    /// What the seats that it joined held, the newest first.
    pub inherited: LinkedList<HeldLevel>,
    /// The numbers of the seats that it made, and the one that it is about to make.
    pub made: LinkedList<u64>,
    pub due: LinkedList<u64>,
    /// Its changes and its other answers, the oldest first.
    pub changes: LinkedList<NumberedChange>,
    pub answers: LinkedList<NumberedAnswer>,
    /// The greatest number of changes that it has seen.
    pub seen: u64,
    /// The tries of its last take, the newest first.
    pub tries: LinkedList<Try>,
    /// How many events it made, and how many stores among them.
    pub events: u64,
    pub stores: u64,
    /// The round that is open.
    pub round: Option<Round>,
    /// How many rounds failed, and how often it looked at the lock word for a take.
    pub failed_rounds: u64,
    pub looks: u64,
}
