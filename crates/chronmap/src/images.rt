//! The maps that a vault holds, read and saved.

ghost use Rattle.std.specs.Prelude.{◌≡◌, IfErr, IfOk, OnErr, OnOk, option_map};
ghost use Rattle.cm_words.specs.LawfulMaps.{IsLawfulMap};
ghost use Rattle.chronmap.specs.FileStops.{AsksNoLaw, StopsReading, StopsSaving};
ghost use Rattle.chronmap.specs.Runs.{HoldsLawful};
ghost use Rattle.chronmap.specs.Vaults.{Holds, IsSaved, KeepsFiles, Saves, vault_seen};

use crate::stop::Stop;
use cm_check::check;
use cm_command::Word;
use cm_image::{Vault, read_image, write_image};
use cm_words::Words;
use std::alloc::Global;

/// The map whose image a file holds, lawful or not. Takes memory, for its words.
pub(crate) fn read_map<V: Vault>(alloc: Global, vault: &mut V, name: &Word) -> Result<Words, Stop>
    ensures keeps { KeepsFiles (vault_seen V.tells V.files V.faults vault.old) (vault_seen V.tells V.files V.faults vault.new) }
    ensures map { IfOk result (Holds (vault_seen V.tells V.files V.faults vault.old) name.now) }
    ensures cause { IfErr result
        (StopsReading name.now (vault_seen V.tells V.files V.faults vault.old) (vault_seen V.tells V.files V.faults vault.new)) }
    ensures any { IfErr result AsksNoLaw }
{
    Ok(read_image(alloc, vault, name.as_str())?)
}

/// The lawful map whose image a file holds. Takes memory, for its words.
pub(crate) fn read_lawful<V: Vault>(
    alloc: Global,
    vault: &mut V,
    name: &Word,
) -> Result<Words, Stop>
    ensures keeps { KeepsFiles (vault_seen V.tells V.files V.faults vault.old) (vault_seen V.tells V.files V.faults vault.new) }
    ensures map { IfOk result (HoldsLawful (vault_seen V.tells V.files V.faults vault.old) name.now) }
    ensures cause { IfErr result
        (StopsReading name.now (vault_seen V.tells V.files V.faults vault.old) (vault_seen V.tells V.files V.faults vault.new)) }
{
    let map = read_map(alloc, vault, name)?;
    match check(&map) {
        None => Ok(map),
        Some(broken) => Err(Stop::Broken(broken)),
    }
}

/// Saves a map under a name. Takes memory, all of it before it writes.
pub(crate) fn save<V: Vault>(
    alloc: Global,
    vault: &mut V,
    name: &Word,
    words: &Words,
) -> Result<(), Stop>
    ensures saved { OnOk result
        (Saves name.now words.now (vault_seen V.tells V.files V.faults vault.old) (vault_seen V.tells V.files V.faults vault.new)) }
    ensures cause { IfErr result
        (StopsSaving name.now (vault_seen V.tells V.files V.faults vault.old) (vault_seen V.tells V.files V.faults vault.new)) }
{
    write_image(alloc, vault, name.as_str(), words)?;
    Ok(())
}
