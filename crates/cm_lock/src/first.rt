//! Words that contracts alone read.

ghost use Rattle.std.specs.Prelude.{◌≡◌, ◌∷◌, []};

use std::marker::Model;
use std::snapshot::Snapshot;

/// A list of words. Of a `Snapshot` no bytes are kept, so it takes no memory at any length.
#[derive(Drop)]
#[cycle(first_words)]
pub struct FirstWords {
    words: Snapshot<WordList>,
}

#[derive(Drop)]
#[cycle(first_words)]
enum WordList {
    Nothing,
    One {
        word: u64,
        later: Snapshot<FirstWords>,
    },
}

impl Model for FirstWords {
    ghost use Rattle.std.specs.Prelude.{◌≡◌, ℕ, List, length};

    ghost Value = { List ℕ };

    ghost use Rattle.cm_lock.specs.FirstWords.{words_in};

    ghost view = { λ c. words_in c.words.value };

    ghost size = { λ l. length l };

    ghost use Rattle.std.proofs.Common.{arith};

    ghost size_decreases = { λ c h. Prim.grind arith };
}

impl FirstWords {
    /// No word.
    fn none() -> FirstWords
        ensures { result ≡ [] }
    {
        FirstWords {
            words: Snapshot::of(&WordList::Nothing),
        }
    }

    /// One word more, in front.
    fn before(&self, word: u64) -> FirstWords
        ensures { result ≡ word ∷ self.now }
    {
        FirstWords {
            words: Snapshot::of(&WordList::One {
                word,
                later: Snapshot::of(self),
            }),
        }
    }

    /// These words.
    pub(crate) fn of(words: &[u64]) -> FirstWords
        ensures { result ≡ words.now }
    {
        let mut first = FirstWords::none();
        let mut at = words.len();
        while at > 0 {
            at -= 1;
            first = first.before(words[at]);
        }
        first
    }
}
