//! The exact test of all words: which command they ask for. It takes no memory.

ghost use Rattle.std.specs.Prelude.{◌≡◌, ◌≢◌, MatchBool, MatchOption};
ghost use Rattle.cm_command.specs.Grammar.{AsksForNone};
ghost use Rattle.cm_command.specs.Verbs.{AreTwoNames, AreTwoNumbers, AsksBy, IsOneName, MayStandBehind, verb_text};

use crate::limits::MAX_RECORDS;
use crate::number::number_to;
use crate::option::is_value;
use crate::run::may_follow_run;
use crate::word::Word;

/// The name of a command.
#[derive(Clone, Copy, Debug, PartialEq, Eq)]
pub enum Verb {
    Run,
    Make,
    Check,
    Print,
    Recover,
}

// The command of this name.
fn verb_named(word: &str) -> Option<Verb>
    ensures { MatchOption result ((verb : Verb) → word.now ≢ verb_text verb) (λ verb. word.now ≡ verb_text verb) }
{
    if word == "run" {
        Some(Verb::Run)
    } else if word == "make" {
        Some(Verb::Make)
    } else if word == "check" {
        Some(Verb::Check)
    } else if word == "print" {
        Some(Verb::Print)
    } else if word == "recover" {
        Some(Verb::Recover)
    } else {
        None
    }
}

// Whether the words are one name.
fn is_name(words: &[Word]) -> bool
    ensures { MatchBool result (IsOneName words.now) (IsOneName words.now → ⊥) }
{
    match words {
        [name] => is_value(name.as_str()),
        _ => false,
    }
}

// Whether the words are two names.
fn are_names(words: &[Word]) -> bool
    ensures { MatchBool result (AreTwoNames words.now) (AreTwoNames words.now → ⊥) }
{
    match words {
        [name, new] => is_value(name.as_str()) && is_value(new.as_str()),
        _ => false,
    }
}

// Whether the words are a number of records and a seed.
fn are_numbers(words: &[Word]) -> bool
    ensures { MatchBool result (AreTwoNumbers words.now) (AreTwoNumbers words.now → ⊥) }
{
    match words {
        [records, seed] => {
            let counts = number_to(MAX_RECORDS, records.as_str()).is_some();
            counts && number_to(u64::MAX, seed.as_str()).is_some()
        }
        _ => false,
    }
}

// Whether the words may stand behind this command's name.
fn may_follow(verb: Verb, words: &[Word]) -> bool
    ensures { MatchBool result (MayStandBehind verb words.now) (MayStandBehind verb words.now → ⊥) }
{
    match verb {
        Verb::Run => may_follow_run(words),
        Verb::Make => are_numbers(words),
        Verb::Check | Verb::Print => is_name(words),
        Verb::Recover => are_names(words),
    }
}

/// The command that the words ask for, as its name alone; None where they are outside the grammar.
pub fn verb_asked(words: &[Word]) -> Option<Verb>
    ensures { MatchOption result (AsksForNone words.now) (AsksBy words.now) }
{
    match words {
        [] => None,
        [name, others @ ..] => {
            let verb = verb_named(name.as_str())?;
            if may_follow(verb, others) {
                Some(verb)
            } else {
                None
            }
        }
    }
}
