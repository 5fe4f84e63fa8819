//! What the program does: the words of the command decide, and the status says what was done.

ghost use Rattle.std.specs.Prelude.{◌≡◌, ◌⊎◌, IfErr, IfOk};
ghost use Rattle.cm_command.specs.Grammar.{AsksFor, AsksForNone};
ghost use Rattle.cm_run.specs.Callers.{NeverDies};
ghost use Rattle.cm_run.specs.Gates.{MakerSeen};
ghost use Rattle.chronmap.specs.ExitCodes.{Answers, Asks, HasExitCode, HasStatus, IsNoScript, IsStopped, RefusesGeometry, RefusesImage, RefusesWords, WritesText};
ghost use Rattle.chronmap.specs.GateCounts.{CountsAreLow};
ghost use Rattle.chronmap.specs.Lent.{lent};
ghost use Rattle.chronmap.specs.Streams.{StreamView, CountsFault};
ghost use Rattle.chronmap.specs.Taken.{AsksForNoneOf, IsOffline, IsTaken};
ghost use Rattle.chronmap.specs.Vaults.{CountsVaultFault, vault_seen};

use crate::offline::offline;
use crate::refuse::refuse;
use crate::runs::{run_generated, run_input};
use crate::sink::{Sink, write_text};
use crate::source::Source;
use crate::status::Status;
use crate::stop::Stop;
use cm_command::{Command, Word, read_command, words_ask_for_one};
use cm_image::Vault;
use cm_plain::Failed;
use cm_run::GateMaker;
use std::alloc::Global;
use std::sync::Wait;
use std::thread::Threads;

// The command that the words ask for, if it is taken. Takes memory.
fn command_of(alloc: Global, words: &[Word]) -> Result<Command, Stop>
    ensures ok { IfOk result (Asks IsTaken words.now) }
    ensures err { IfErr result (RefusesWords IsTaken words.now) }
{
    words_ask_for_one();
    let command = read_command(alloc, words)?;
    match &command {
        Command::Run { kills, .. } if !kills.as_slice().is_empty() => Err(Stop::Usage),
        _ => Ok(command),
    }
}

// The command that the words ask for, if it runs nothing. Takes memory.
fn offline_command_of(alloc: Global, words: &[Word]) -> Result<Command, Stop>
    ensures ok { IfOk result (Asks IsOffline words.now) }
    ensures err { IfErr result (RefusesWords IsOffline words.now) }
{
    words_ask_for_one();
    let command = read_command(alloc, words)?;
    match &command {
        Command::Run { .. } | Command::Make { .. } => Err(Stop::Usage),
        _ => Ok(command),
    }
}

// Does what the words ask for, and answers the text.
fn answer<T: Threads + Wait + Sync, R: Source, V: Vault, G: GateMaker>(
    rt: &T,
    alloc: Global,
    words: &[Word],
    source: &mut R,
    vault: &mut V,
    gates: &mut G,
) -> Result<Vec<u8>, Stop>
    requires never { NeverDies (G.seen gates.old) }
    requires countable { CountsAreLow (G.seen gates.old) }
    ensures ok { IfOk result (λ text. Answers IsTaken words.now
        (lent (R.seen source.old) (vault_seen V.tells V.files V.faults vault.old) (G.seen gates.old))
        (lent (R.seen source.new) (vault_seen V.tells V.files V.faults vault.new) (G.seen gates.new)) text.items) }
    ensures err { IfErr result (IsStopped IsTaken words.now
        (lent (R.seen source.old) (vault_seen V.tells V.files V.faults vault.old) (G.seen gates.old))
        (lent (R.seen source.new) (vault_seen V.tells V.files V.faults vault.new) (G.seen gates.new))) }
{
    let command = command_of(alloc, words)?;
    match &command {
        Command::Run { origin, save, .. } => run_input(
            rt, alloc, origin, save, source, vault, gates,
        ),
        Command::Make { records, seed } => Ok(run_generated(rt, alloc, *records, *seed, gates)?),
        _ => offline(alloc, &command, vault),
    }
}

// Does what the words ask for, if it runs nothing, and answers the text.
fn offline_answer<V: Vault>(alloc: Global, words: &[Word], vault: &mut V) -> Result<Vec<u8>, Stop>
    ensures ok { IfOk result (λ text. (source : StreamView) (gates : MakerSeen) → Answers IsOffline words.now
        (lent source (vault_seen V.tells V.files V.faults vault.old) gates)
        (lent source (vault_seen V.tells V.files V.faults vault.new) gates) text.items) }
    ensures err { IfErr result (λ why. (source : StreamView) (gates : MakerSeen) → IsStopped IsOffline words.now
        (lent source (vault_seen V.tells V.files V.faults vault.old) gates)
        (lent source (vault_seen V.tells V.files V.faults vault.new) gates) why) }
{
    let command = offline_command_of(alloc, words)?;
    offline(alloc, &command, vault)
}

// Gives a text, and answers the status.
fn write_answer<W: Sink>(sink: &mut W, text: &[u8]) -> Status
    ensures { WritesText result (W.seen sink.old) (W.seen sink.new) text.now }
{
    match write_text(sink, text) {
        Ok(()) => Status::Ok,
        Err(Failed) => Status::WriteFault,
    }
}

// Serves the words, and answers the status.
fn serve<T: Threads + Wait + Sync, R: Source, W: Sink, V: Vault, G: GateMaker>(
    rt: &T,
    alloc: Global,
    words: &[Word],
    source: &mut R,
    sink: &mut W,
    vault: &mut V,
    gates: &mut G,
) -> Status
    requires never { NeverDies (G.seen gates.old) }
    requires countable { CountsAreLow (G.seen gates.old) }
    ensures { HasStatus result IsTaken words.now
        (lent (R.seen source.old) (vault_seen V.tells V.files V.faults vault.old) (G.seen gates.old))
        (lent (R.seen source.new) (vault_seen V.tells V.files V.faults vault.new) (G.seen gates.new))
        (W.seen sink.old) (W.seen sink.new) }
{
    match answer(rt, alloc, words, source, vault, gates) {
        Ok(text) => write_answer(sink, text.as_slice()),
        Err(stop) => refuse(sink, stop),
    }
}

// Serves words that run nothing, and answers the status.
fn serve_offline<W: Sink, V: Vault>(
    alloc: Global,
    words: &[Word],
    sink: &mut W,
    vault: &mut V,
) -> Status
    ensures { (source : StreamView) (gates : MakerSeen) → HasStatus result IsOffline words.now
        (lent source (vault_seen V.tells V.files V.faults vault.old) gates)
        (lent source (vault_seen V.tells V.files V.faults vault.new) gates) (W.seen sink.old) (W.seen sink.new) }
{
    match offline_answer(alloc, words, vault) {
        Ok(text) => write_answer(sink, text.as_slice()),
        Err(stop) => refuse(sink, stop),
    }
}

/// Does all that the program does, and answers the status that it ends with. It may wait, and no return is
/// promised. No gate that `gates` makes without a kill can die, and each of its counts is at most 2^63.
///
/// At status 0 of a run, where the streams and the files are told, each segment's printed answers are one legal
/// history of a bounded map, each call once and in its caller's order, and the printed map is its last state,
/// whatever the script and whatever the order of the threads. Each other status but 1 comes only for its cause.
///
/// - 0: the command was done, and its text was given whole.
/// - 1: no memory was left; the sink has no byte of the text, and no file was changed.
/// - 2: the words ask for no command that the program takes; nothing else was looked at.
/// - 3: the input is no script.
/// - 4: the source failed.
/// - 5: the sink failed, and holds a prefix of the text; a map that was to be saved is saved.
/// - 6: the vault failed; no file but the one to be written has changed.
/// - 7: the file that is to be read is missing, no image, or (but for `recover`) one of a map that isn't lawful.
/// - 8: the numbers that the words ask for are no geometry.
///
/// For all but 0 and 5 the sink is given one line that names the refusal; a fault of the sink there doesn't change
/// the status. A run with kills isn't taken yet.
pub fn run_words<T: Threads + Wait + Sync, R: Source, W: Sink, V: Vault, G: GateMaker>(
    rt: &T,
    alloc: Global,
    words: &[Word],
    source: &mut R,
    sink: &mut W,
    vault: &mut V,
    gates: &mut G,
) -> u8
    requires never { NeverDies (G.seen gates.old) }
    requires countable { CountsAreLow (G.seen gates.old) }
    ensures code { HasExitCode result IsTaken words.now
        (lent (R.seen source.old) (vault_seen V.tells V.files V.faults vault.old) (G.seen gates.old))
        (lent (R.seen source.new) (vault_seen V.tells V.files V.faults vault.new) (G.seen gates.new))
        (W.seen sink.old) (W.seen sink.new) }
    ensures usage { result ≡ 2 → AsksForNoneOf IsTaken words.now }
    ensures no_usage { AsksForNone words.now → result ≡ 2 }
    ensures geometry { result ≡ 8 → RefusesGeometry IsTaken words.now }
    ensures no_geometry { RefusesGeometry IsTaken words.now → (result ≡ 8) ⊎ (result ≡ 1) }
    ensures script { result ≡ 3 → IsNoScript IsTaken words.now
        (lent (R.seen source.old) (vault_seen V.tells V.files V.faults vault.old) (G.seen gates.old))
        (lent (R.seen source.new) (vault_seen V.tells V.files V.faults vault.new) (G.seen gates.new)) }
    ensures read { result ≡ 4 → CountsFault (R.seen source.old) (R.seen source.new) }
    ensures write { result ≡ 5 → CountsFault (W.seen sink.old) (W.seen sink.new) }
    ensures vault { result ≡ 6 → CountsVaultFault (vault_seen V.tells V.files V.faults vault.old) (vault_seen V.tells V.files V.faults vault.new) }
    ensures image { result ≡ 7 → RefusesImage IsTaken words.now (vault_seen V.tells V.files V.faults vault.old) }
{
    words_ask_for_one();
    serve(rt, alloc, words, source, sink, vault, gates).code()
}

/// Does all that the program does with words that run nothing: `check`, `print` and `recover`. It always returns, and
/// answers the status as `run_words` does; words that ask for `run` or `make` are none that it takes. The source is never
/// called.
pub fn offline_words<R: Source, W: Sink, V: Vault>(
    alloc: Global,
    words: &[Word],
    _source: &mut R,
    sink: &mut W,
    vault: &mut V,
) -> u8
    ensures code { (gates : MakerSeen) → HasExitCode result IsOffline words.now
        (lent (R.seen _source.old) (vault_seen V.tells V.files V.faults vault.old) gates)
        (lent (R.seen _source.new) (vault_seen V.tells V.files V.faults vault.new) gates) (W.seen sink.old) (W.seen sink.new) }
    ensures source { R.seen _source.new ≡ R.seen _source.old }
    ensures usage { result ≡ 2 → AsksForNoneOf IsOffline words.now }
    ensures no_usage { AsksForNone words.now → result ≡ 2 }
    ensures write { result ≡ 5 → CountsFault (W.seen sink.old) (W.seen sink.new) }
    ensures vault { result ≡ 6 → CountsVaultFault (vault_seen V.tells V.files V.faults vault.old) (vault_seen V.tells V.files V.faults vault.new) }
    ensures image { result ≡ 7 → RefusesImage IsOffline words.now (vault_seen V.tells V.files V.faults vault.old) }
{
    serve_offline(alloc, words, sink, vault).code()
}
