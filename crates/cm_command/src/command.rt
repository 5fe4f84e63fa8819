//! What words ask for.

use crate::kill::Kill;
use crate::numbers::Numbers;
use crate::word::Word;
use cm_plain::ListOf;

/// Where the first words of a run come from.
#[derive(Drop, Debug)]
pub enum Origin {
    /// An empty map of these numbers.
    Numbers(Numbers),
    /// The image of this name.
    Image(Word),
}

/// A command, with all that its words say.
#[derive(Drop, Debug)]
pub enum Command {
    /// Runs a script; `save` names the image of the last words.
    Run {
        origin: Origin,
        save: Option<Word>,
        kills: ListOf<Kill>,
    },
    /// Runs so many generated records.
    Make {
        records: u32,
        seed: u64,
    },
    /// Checks the image of this name.
    Check {
        name: Word,
    },
    /// Prints the map of the image of this name.
    Print {
        name: Word,
    },
    /// Recovers the image of this name as a new one.
    Recover {
        name: Word,
        new: Word,
    },
}
