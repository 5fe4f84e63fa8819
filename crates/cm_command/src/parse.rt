//! The words as clap reads them: one simple command of it for each command's name.

ghost use Rattle.std.specs.Prelude.{◌≡◌, IfOk, IfErr, true};
ghost use Rattle.clap.specs.Words.{app_of, found_of, kind_of, matches_of, rows_of, takes};
ghost use Rattle.cm_command.specs.Apps.{one_word_app, option_rule, run_app, two_words_app};

use crate::word::Word;
use clap::error::ErrorKind;
use clap::{Arg, ArgAction, ArgMatches, Command, Error};
use std::alloc::{AllocError, Global};

// `run`: its options, and the kills.
fn run_command<'a>(alloc: Global) -> Result<Command<'a>, AllocError>
    ensures { IfOk result (λ command. app_of command ≡ run_app) }
{
    let geo = Arg::new(alloc, "geo").long("geo");
    let image = Arg::new(alloc, "image").long("image");
    let save = Arg::new(alloc, "save").long("save");
    let kill = Arg::new(alloc, "kill").action(ArgAction::Append);
    Command::new(alloc, "run")
        .arg(geo)?
        .arg(image)?
        .arg(save)?
        .arg(kill)
}

// A command of one positional word.
fn one_word_command<'a>(alloc: Global, name: &'a str) -> Result<Command<'a>, AllocError>
    ensures { IfOk result (λ command. app_of command ≡ one_word_app name.entry.now) }
{
    Command::new(alloc, name).arg(Arg::new(alloc, "first"))
}

// A command of two positional words.
fn two_words_command<'a>(alloc: Global, name: &'a str) -> Result<Command<'a>, AllocError>
    ensures { IfOk result (λ command. app_of command ≡ two_words_app name.entry.now) }
{
    one_word_command(alloc, name)?.arg(Arg::new(alloc, "second"))
}

// What a command of clap's finds in words that it takes: it fails for want of memory alone.
fn matches_in<'a>(command: Command<'a>, words: &'a [Word]) -> Result<ArgMatches<'a>, Error>
    requires { takes (app_of command) words.now ≡ true }
    ensures ok { IfOk result (λ found. rows_of (found_of found) ≡ matches_of (app_of command.entry) words.entry.now) }
    ensures err { IfErr result (λ error. kind_of error ≡ ErrorKind.OutOfMemory) }
{
    match command.try_get_matches_from(words) {
        Ok(found) => Ok(found),
        Err(error) => Err(error),
    }
}

/// What clap finds in the words of `run`, the first of which is the command. Takes memory, and fails for want of it
/// alone.
pub fn run_matches(alloc: Global, words: &[Word]) -> Result<ArgMatches<'_>, Error>
    requires { takes run_app words.now ≡ true }
    ensures ok { IfOk result (λ found. rows_of (found_of found) ≡ matches_of run_app words.entry.now) }
    ensures err { IfErr result (λ error. kind_of error ≡ ErrorKind.OutOfMemory) }
{
    let command = run_command(alloc)?;
    matches_in(command, words)
}

/// What clap finds in the words of a command that one word follows. Takes memory, and fails for want of it alone.
pub fn one_word_matches<'a>(
    alloc: Global,
    name: &'a str,
    words: &'a [Word],
) -> Result<ArgMatches<'a>, Error>
    requires { takes (one_word_app name.now) words.now ≡ true }
    ensures ok { IfOk result (λ found. rows_of (found_of found) ≡ matches_of (one_word_app name.entry.now) words.entry.now) }
    ensures err { IfErr result (λ error. kind_of error ≡ ErrorKind.OutOfMemory) }
{
    let command = one_word_command(alloc, name)?;
    matches_in(command, words)
}

/// What clap finds in the words of a command that two words follow. Takes memory, and fails for want of it alone.
pub fn two_words_matches<'a>(
    alloc: Global,
    name: &'a str,
    words: &'a [Word],
) -> Result<ArgMatches<'a>, Error>
    requires { takes (two_words_app name.now) words.now ≡ true }
    ensures ok { IfOk result (λ found. rows_of (found_of found) ≡ matches_of (two_words_app name.entry.now) words.entry.now) }
    ensures err { IfErr result (λ error. kind_of error ≡ ErrorKind.OutOfMemory) }
{
    let command = two_words_command(alloc, name)?;
    matches_in(command, words)
}
