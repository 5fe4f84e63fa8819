//! Kills.

ghost use Rattle.std.specs.Prelude.{◌≡◌, ◌≢◌, MatchOption, MatchBool, All, IfOk, map};
ghost use Rattle.cm_command.specs.Kills.{IsKill, kind_text, kill_text};
ghost use Rattle.cm_command.specs.Texts.{AreAllKills, IsKillOf, IsOfNoKill, IsOfNoKillBy};

use crate::limits::MAX_KILLED;
use crate::number::number_to;
use crate::word::Word;

/// What a kill counts.
#[derive(Clone, Copy, Debug, PartialEq, Eq)]
pub enum KillKind {
    /// Stores of words.
    Stores,
    /// Events of all kinds.
    Events,
}

/// A caller that dies in place of its next store, or event, after so many.
#[derive(Clone, Copy, Debug, PartialEq, Eq)]
pub struct Kill {
    pub caller: u32,
    pub kind: KillKind,
    pub after: u32,
}

// What the word says that a kill counts.
fn kind_of(text: &str) -> Option<KillKind>
    ensures { MatchOption result ((kind : KillKind) → text.now ≢ kind_text kind) (λ kind. text.now ≡ kind_text kind) }
{
    if text == "stores" {
        Some(KillKind::Stores)
    } else if text == "events" {
        Some(KillKind::Events)
    } else {
        None
    }
}

/// The kill whose text this is.
pub fn kill_of(text: &str) -> Option<Kill>
    ensures { MatchOption result (IsOfNoKill text.now) (IsKillOf text.now) }
{
    let (caller, others) = text.split_once(':')?;
    let (kind, after) = others.split_once(':')?;
    let caller = number_to(MAX_KILLED, caller)?;
    let kind = kind_of(kind)?;
    let after = number_to(u64::from(u32::MAX), after)?;
    Some(Kill {
        caller: caller as u32,
        kind,
        after: after as u32,
    })
}

// Whether the text is of a kill of this caller.
fn is_kill_by(text: &str, caller: u32) -> bool
    ensures { MatchBool result (IsOfNoKillBy caller text.now → ⊥) (IsOfNoKillBy caller text.now) }
{
    match kill_of(text) {
        Some(kill) => kill.caller == caller,
        None => false,
    }
}

// Whether one of the words is of a kill of this caller.
fn has_kill_by(words: &[Word], caller: u32) -> bool
    ensures { MatchBool result (All (IsOfNoKillBy caller) words.now → ⊥) (All (IsOfNoKillBy caller) words.now) }
{
    for word in words {
        if is_kill_by(word.as_str(), caller) {
            return true;
        }
    }
    false
}

/// Whether each word is a kill, and no two are of one caller. After the 64th word there is no other caller left, so
/// that this calls itself no more often.
pub fn are_kills(words: &[Word]) -> bool
    ensures { MatchBool result (AreAllKills words.now) (AreAllKills words.now → ⊥) }
{
    match words {
        [] => true,
        [first, rest @ ..] => match kill_of(first.as_str()) {
            Some(kill) => !has_kill_by(rest, kill.caller) && are_kills(rest),
            None => false,
        },
    }
}
