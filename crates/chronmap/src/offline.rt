//! The commands that run nothing: a map that a file holds is checked, printed or recovered.

ghost use Rattle.std.specs.Prelude.{◌≡◌, ◌≤◌, [], IfErr, IfOk, sum, true, vec_len};
ghost use Rattle.cm_check.specs.Contents.{ListsMap};
ghost use Rattle.cm_run.specs.Gates.{MakerSeen};
ghost use Rattle.cm_store.specs.Tables.{linked_of};
ghost use Rattle.cm_words.specs.LawfulMaps.{IsLawfulMap};
ghost use Rattle.chronmap.specs.Done.{Gives, GivesChecked, GivesPrinted, GivesRecovered, ReportsMap, lawful_text};
ghost use Rattle.chronmap.specs.FileStops.{StopsReading, StopsRecovering};
ghost use Rattle.chronmap.specs.Lent.{lent};
ghost use Rattle.chronmap.specs.Refusals.{Stops};
ghost use Rattle.chronmap.specs.Streams.{StreamView};
ghost use Rattle.chronmap.specs.Taken.{IsOffline};
ghost use Rattle.chronmap.specs.Vaults.{KeepsFiles, vault_seen};

use crate::images::{read_lawful, read_map, save};
use crate::stop::Stop;
use cm_check::contents;
use cm_command::{Command, Word};
use cm_image::Vault;
use cm_plain::{ListOf, NoMemory, SegFound};
use cm_recover::{recover, recovery_keeps_what_stood};
use cm_run::extra_tiers;
use cm_script::{Report, render};
use cm_words::Words;
use std::alloc::Global;

// The report of a lawful map, and of what was found before it was recovered. Takes memory.
fn map_report(alloc: Global, words: &Words, found: Vec<SegFound>) -> Result<Report, NoMemory>
    requires { IsLawfulMap words.now }
    ensures { IfOk result (ReportsMap found.items words.now) }
{
    let map = contents(alloc, words)?;
    let extra = extra_tiers(words);
    Ok(Report {
        receipts: ListOf::from_vec(Vec::new(alloc)),
        ends: ListOf::from_vec(Vec::new(alloc)),
        found: ListOf::from_vec(found),
        map: ListOf::from_vec(map),
        extra,
    })
}

// Checks the map of a file. Takes memory.
fn check_file<V: Vault>(alloc: Global, name: &Word, vault: &mut V) -> Result<Vec<u8>, Stop>
    ensures gives { IfOk result
        (λ text. GivesChecked name.now (vault_seen V.tells V.files V.faults vault.old) (vault_seen V.tells V.files V.faults vault.new) text.items) }
    ensures keeps { KeepsFiles (vault_seen V.tells V.files V.faults vault.old) (vault_seen V.tells V.files V.faults vault.new) }
    ensures cause { IfErr result
        (StopsReading name.now (vault_seen V.tells V.files V.faults vault.old) (vault_seen V.tells V.files V.faults vault.new)) }
{
    read_lawful(alloc, vault, name)?;
    Ok(b"lawful\n".to_vec(alloc)?)
}

// Prints the pairs of the map of a file. Takes memory.
fn print_file<V: Vault>(alloc: Global, name: &Word, vault: &mut V) -> Result<Vec<u8>, Stop>
    ensures gives { IfOk result
        (λ text. GivesPrinted name.now (vault_seen V.tells V.files V.faults vault.old) (vault_seen V.tells V.files V.faults vault.new) text.items) }
    ensures keeps { KeepsFiles (vault_seen V.tells V.files V.faults vault.old) (vault_seen V.tells V.files V.faults vault.new) }
    ensures cause { IfErr result
        (StopsReading name.now (vault_seen V.tells V.files V.faults vault.old) (vault_seen V.tells V.files V.faults vault.new)) }
{
    let words = read_lawful(alloc, vault, name)?;
    let report = map_report(alloc, &words, Vec::new(alloc))?;
    Ok(render(alloc, &report)?)
}

// Recovers the map of a file, and saves it under another name, or the same. Takes memory, all of it before it writes.
fn recover_file<V: Vault>(
    alloc: Global,
    name: &Word,
    new: &Word,
    vault: &mut V,
) -> Result<Vec<u8>, Stop>
    ensures gives { IfOk result (λ text. GivesRecovered name.now new.now (vault_seen V.tells V.files V.faults vault.old)
        (vault_seen V.tells V.files V.faults vault.new) text.items) }
    ensures cause { IfErr result (StopsRecovering name.now new.now (vault_seen V.tells V.files V.faults vault.old)
        (vault_seen V.tells V.files V.faults vault.new)) }
{
    recovery_keeps_what_stood();
    let mut words = read_map(alloc, vault, name)?;
    let found = recover(alloc, &mut words)?;
    let report = map_report(alloc, &words, found)?;
    let text = render(alloc, &report)?;
    save(alloc, vault, new, &words)?;
    Ok(text)
}

/// Does a command that runs nothing, and answers its text. Takes memory, all of it before it writes a file.
pub(crate) fn offline<V: Vault>(
    alloc: Global,
    command: &Command,
    vault: &mut V,
) -> Result<Vec<u8>, Stop>
    requires { IsOffline command.now }
    ensures gives { IfOk result (λ text. (source : StreamView) (gates : MakerSeen)
        → Gives command.now (lent source (vault_seen V.tells V.files V.faults vault.old) gates)
        (lent source (vault_seen V.tells V.files V.faults vault.new) gates) text.items) }
    ensures stops { IfErr result (λ why. (source : StreamView) (gates : MakerSeen)
        → Stops command.now (lent source (vault_seen V.tells V.files V.faults vault.old) gates)
        (lent source (vault_seen V.tells V.files V.faults vault.new) gates) why) }
{
    match command {
        Command::Check { name } => check_file(alloc, name, vault),
        Command::Print { name } => print_file(alloc, name, vault),
        Command::Recover { name, new } => recover_file(alloc, name, new, vault),
        Command::Run { .. } | Command::Make { .. } => unreachable!(),
    }
}
