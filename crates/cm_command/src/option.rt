//! The options of `run`, as its words give them.

ghost use Rattle.std.specs.Prelude.{◌≡◌, ◌≢◌, MatchOption, MatchBool};
ghost use Rattle.std.specs.Option.{option_map};
ghost use Rattle.cm_command.specs.Grammar.{IsValue, option_word};
ghost use Rattle.cm_command.specs.Texts.{BeginsWithNoOption, BeginsWithOption, IsNoOption, IsValueFor, option_text};

use crate::numbers::numbers_of;
use crate::word::Word;

/// An option of `run`.
#[derive(Clone, Copy, Debug, PartialEq, Eq)]
pub enum RunOption {
    /// The numbers of an empty map.
    Geo,
    /// The name of the image to begin with.
    Image,
    /// The name of the image to end with.
    Save,
}

/// An option that stands first, its value, and the words behind both.
#[derive(Clone, Copy)]
pub struct FirstOption<'a> {
    pub option: RunOption,
    pub value: &'a str,
    pub rest: &'a [Word],
}

/// Whether a word is a value: it isn't empty, and doesn't begin with a hyphen.
pub fn is_value(text: &str) -> bool
    ensures { MatchBool result (IsValue text.now) (IsValue text.now → ⊥) }
{
    match text.as_bytes() {
        [] => false,
        [first, ..] => *first != b'-',
    }
}

/// Whether the option may have this value.
pub fn is_value_for(option: RunOption, value: &str) -> bool
    ensures { MatchBool result (IsValueFor option value.now) (IsValueFor option value.now → ⊥) }
{
    match option {
        RunOption::Geo => numbers_of(value).is_some(),
        RunOption::Image | RunOption::Save => is_value(value),
    }
}

// The option that the word names.
fn option_named(word: &str) -> Option<RunOption>
    ensures { MatchOption result ((option : RunOption) → word.now ≢ option_word option) (λ option. word.now ≡ option_word option) }
{
    if word == "--geo" {
        Some(RunOption::Geo)
    } else if word == "--image" {
        Some(RunOption::Image)
    } else if word == "--save" {
        Some(RunOption::Save)
    } else {
        None
    }
}

// The option of a word, and the value that is joined to it, if one is.
fn option_of(word: &str) -> Option<(RunOption, Option<&str>)>
    ensures { MatchOption result (IsNoOption word.now) (λ found. word.now ≡ option_text found.0 (option_map (λ value. value.now) found.1)) }
{
    match word.split_once('=') {
        Some((name, value)) => Some((option_named(name)?, Some(value))),
        None => Some((option_named(word)?, None)),
    }
}

/// The option that the words begin with.
pub fn first_option(words: &[Word]) -> Option<FirstOption<'_>>
    ensures { MatchOption result (BeginsWithNoOption words.now) (λ first. BeginsWithOption words.now first.option first.value.now first.rest.now) }
{
    match words {
        [] => None,
        [first, others @ ..] => match option_of(first.as_str())? {
            (option, Some(value)) => Some(FirstOption {
                option,
                value,
                rest: others,
            }),
            (option, None) => match others {
                [] => None,
                [value, rest @ ..] => Some(FirstOption {
                    option,
                    value: value.as_str(),
                    rest,
                }),
            },
        },
    }
}
