//! A word of the command line.

ghost use Rattle.std.specs.Prelude.{◌≡◌, IfOk};

use cm_plain::NoMemory;
use std::alloc::Global;
use std::convert::AsStr;
use std::marker::Model;

/// A text. Contracts see its bytes.
#[derive(Drop, Debug)]
pub struct Word {
    text: String,
}

impl Model for Word {
    ghost use Rattle.std.specs.Prelude.{List, ℕ, string_bytes};

    ghost Value = { List ℕ };

    ghost view = { λ w. string_bytes w.text };
}

impl Word {
    /// A word of this text. Takes memory.
    pub fn of(alloc: Global, text: &str) -> Result<Word, NoMemory>
        ensures { IfOk result (λ word. word ≡ text.now) }
    {
        Ok(Word {
            text: String::from_str(alloc, text)?,
        })
    }

    /// Its text.
    pub fn as_str(&self) -> &str
        ensures { result.now ≡ self.now }
    {
        self.text.as_str()
    }
}

impl AsStr for Word {
    ghost text = { λ word. word };

    fn as_str(&self) -> &str {
        Word::as_str(self)
    }
}
