//! The test of the words behind `run`.

ghost use Rattle.std.specs.Prelude.{false, MatchBool};
ghost use Rattle.cm_command.specs.Texts.{GoOn};

use crate::kill::are_kills;
use crate::option::{RunOption, first_option, is_value_for};
use crate::word::Word;

// Whether the words are options and then kills. `origin` and `save` tell whether an option before them said where the
// first words come from, and where the last ones go: neither is said twice, so that this calls itself at most twice.
fn go_on(words: &[Word], origin: bool, save: bool) -> bool
    ensures { MatchBool result (GoOn words.now origin save) (GoOn words.now origin save → ⊥) }
{
    match first_option(words) {
        None => are_kills(words),
        Some(first) => {
            let fits = is_value_for(first.option, first.value);
            match first.option {
                RunOption::Geo | RunOption::Image => {
                    fits && !origin && go_on(first.rest, true, save)
                }
                RunOption::Save => fits && !save && go_on(first.rest, origin, true),
            }
        }
    }
}

/// Whether the words may stand behind `run`.
pub fn may_follow_run(words: &[Word]) -> bool
    ensures { MatchBool result (GoOn words.now false false) (GoOn words.now false false → ⊥) }
{
    go_on(words, false, false)
}
