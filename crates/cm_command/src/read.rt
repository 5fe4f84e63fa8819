//! Reading the words of the command line.

ghost use Rattle.std.specs.Prelude.{◌≡◌, IfOk, IfErr};
ghost use Rattle.cm_command.specs.Grammar.{AsksFor, AsksForNone};
ghost use Rattle.cm_command.specs.Verbs.{AsksBy};

use crate::command::Command;
use crate::limits::MAX_RECORDS;
use crate::number::number_to;
use crate::parse::{one_word_matches, run_matches, two_words_matches};
use crate::values::{kills_of, name_of, origin_of};
use crate::verb::{Verb, verb_asked};
use crate::word::Word;
use cm_plain::NoMemory;
use std::alloc::Global;

/// Why no command was read.
#[derive(Clone, Copy, Debug, PartialEq, Eq)]
pub enum CommandStop {
    /// The words are outside the grammar.
    Usage,
    /// No memory was left.
    NoMemory,
}

// The run that the words ask for.
fn read_run(alloc: Global, words: &[Word]) -> Result<Command, NoMemory>
    requires { AsksBy words.now Verb.Run }
    ensures { IfOk result (AsksFor words.now) }
{
    let Ok(found) = run_matches(alloc, words) else {
        return Err(NoMemory);
    };
    let origin = origin_of(alloc, found.get_str("geo"), found.get_str("image"))?;
    let save = name_of(alloc, found.get_str("save"))?;
    let kills = match found.get_strs("kill") {
        Some(texts) => kills_of(alloc, texts)?,
        None => kills_of(alloc, &[])?,
    };
    Ok(Command::Run {
        origin,
        save,
        kills,
    })
}

// The generated run that the words ask for.
fn read_make(alloc: Global, words: &[Word]) -> Result<Command, NoMemory>
    requires { AsksBy words.now Verb.Make }
    ensures { IfOk result (AsksFor words.now) }
{
    let Ok(found) = two_words_matches(alloc, "make", words) else {
        return Err(NoMemory);
    };
    let records = number_to(MAX_RECORDS, found.get_str("first").unwrap()).unwrap();
    let seed = number_to(u64::MAX, found.get_str("second").unwrap()).unwrap();
    Ok(Command::Make {
        records: records as u32,
        seed,
    })
}

// The check that the words ask for.
fn read_check(alloc: Global, words: &[Word]) -> Result<Command, NoMemory>
    requires { AsksBy words.now Verb.Check }
    ensures { IfOk result (AsksFor words.now) }
{
    let Ok(found) = one_word_matches(alloc, "check", words) else {
        return Err(NoMemory);
    };
    let name = Word::of(alloc, found.get_str("first").unwrap())?;
    Ok(Command::Check { name })
}

// The print that the words ask for.
fn read_print(alloc: Global, words: &[Word]) -> Result<Command, NoMemory>
    requires { AsksBy words.now Verb.Print }
    ensures { IfOk result (AsksFor words.now) }
{
    let Ok(found) = one_word_matches(alloc, "print", words) else {
        return Err(NoMemory);
    };
    let name = Word::of(alloc, found.get_str("first").unwrap())?;
    Ok(Command::Print { name })
}

// The recovery that the words ask for.
fn read_recover(alloc: Global, words: &[Word]) -> Result<Command, NoMemory>
    requires { AsksBy words.now Verb.Recover }
    ensures { IfOk result (AsksFor words.now) }
{
    let Ok(found) = two_words_matches(alloc, "recover", words) else {
        return Err(NoMemory);
    };
    let name = Word::of(alloc, found.get_str("first").unwrap())?;
    let new = Word::of(alloc, found.get_str("second").unwrap())?;
    Ok(Command::Recover { name, new })
}

// The command of this name that the words ask for.
fn read_by(alloc: Global, verb: Verb, words: &[Word]) -> Result<Command, NoMemory>
    requires { AsksBy words.now verb }
    ensures { IfOk result (AsksFor words.now) }
{
    match verb {
        Verb::Run => read_run(alloc, words),
        Verb::Make => read_make(alloc, words),
        Verb::Check => read_check(alloc, words),
        Verb::Print => read_print(alloc, words),
        Verb::Recover => read_recover(alloc, words),
    }
}

/// The command that the words ask for, the first of which is its name. Takes memory. Usage comes exactly where the words
/// are outside the grammar, and NoMemory only where they ask for a command.
pub fn read_command(alloc: Global, words: &[Word]) -> Result<Command, CommandStop>
    ensures ok { IfOk result (AsksFor words.now) }
    ensures usage { IfErr result (λ stop. stop ≡ CommandStop.Usage → AsksForNone words.now) }
    ensures no_memory { IfErr result (λ stop. stop ≡ CommandStop.NoMemory → (it : Command) × AsksFor words.now it) }
{
    let Some(verb) = verb_asked(words) else {
        return Err(CommandStop::Usage);
    };
    match read_by(alloc, verb, words) {
        Ok(command) => Ok(command),
        Err(NoMemory) => Err(CommandStop::NoMemory),
    }
}
