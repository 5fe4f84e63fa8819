//! The commands that run: a script of the input, or a generated one.

ghost use Rattle.std.specs.Prelude.{◌≡◌, ◌≤◌, [], IfErr, IfOk, None, OnOk};
ghost use Rattle.cm_geo.specs.Geometry.{IsGeoOf};
ghost use Rattle.cm_command.specs.declared.command.Command.TheVariants as command;
ghost use Rattle.cm_command.specs.Numbers.{default_numbers};
ghost use Rattle.cm_run.specs.Callers.{NeverDies};
ghost use Rattle.cm_script.specs.Scripts.{IsFor};
ghost use Rattle.cm_script.specs.declared.limits.TheConstants.{MAX_SCRIPT_LINES};
ghost use Rattle.cm_words.specs.LawfulMaps.{IsLawfulMap};
ghost use Rattle.chronmap.specs.Done.{GivesMade, GivesRun};
ghost use Rattle.chronmap.specs.FirstStops.{LeavesFirst, StopsEmpty, StopsFirst, StopsScript};
ghost use Rattle.chronmap.specs.FileStops.{StopsSavingLast};
ghost use Rattle.chronmap.specs.GateCounts.{CountsAreLow};
ghost use Rattle.chronmap.specs.Lent.{lent};
ghost use Rattle.chronmap.specs.Refusals.{Stops};
ghost use Rattle.chronmap.specs.Runs.{BeginsWith, IsEmptyMapOf, ReadsScript};
ghost use Rattle.chronmap.specs.Taken.{Leaves};
ghost use Rattle.chronmap.specs.Vaults.{IsSaved, SameVault, vault_seen};

use crate::images::{read_lawful, save};
use crate::source::{Source, read_input};
use crate::stop::Stop;
use cm_command::{Numbers, Origin, Word};
use cm_geo::Geo;
use cm_image::Vault;
use cm_make::{generated, made_record};
use cm_plain::NoMemory;
use cm_run::{GateMaker, run_script};
use cm_script::{Script, read_script, render};
use cm_store::empty_words_are_lawful;
use cm_words::Words;
use std::alloc::Global;
use std::sync::Wait;
use std::thread::Threads;

// The map of these numbers in which nothing was written. Takes memory.
fn empty_map(alloc: Global, n: &Numbers) -> Result<Words, Stop>
    ensures map { IfOk result (IsEmptyMapOf n.now) }
    ensures lawful { IfOk result IsLawfulMap }
    ensures cause { IfErr result (StopsEmpty n.now) }
{
    empty_words_are_lawful();
    match Geo::new(n.segments, n.tiers, n.chunks, n.chunk_words, n.extra) {
        Ok(geo) => Ok(Words::empty(alloc, &geo)?),
        Err(why) => Err(Stop::Geometry(why)),
    }
}

// The map that a run begins with. Takes memory.
fn first_map<V: Vault>(alloc: Global, origin: &Origin, vault: &mut V) -> Result<Words, Stop>
    ensures keeps { LeavesFirst origin.now (vault_seen V.tells V.files V.faults vault.old) (vault_seen V.tells V.files V.faults vault.new) }
    ensures begins { IfOk result (BeginsWith origin.now (vault_seen V.tells V.files V.faults vault.old)) }
    ensures lawful { IfOk result IsLawfulMap }
    ensures cause { IfErr result
        (StopsFirst origin.now (vault_seen V.tells V.files V.faults vault.old) (vault_seen V.tells V.files V.faults vault.new)) }
{
    match origin {
        Origin::Numbers(numbers) => empty_map(alloc, numbers),
        Origin::Image(name) => read_lawful(alloc, vault, name),
    }
}

// The script of the input. Takes memory.
fn input_script<R: Source>(alloc: Global, geo: &Geo, source: &mut R) -> Result<Script, Stop>
    ensures script { IfOk result (ReadsScript geo.now (R.seen source.old) (R.seen source.new)) }
    ensures for_geo { IfOk result (IsFor geo.now) }
    ensures cause { IfErr result (StopsScript geo.now (R.seen source.old) (R.seen source.new)) }
{
    let input = read_input(alloc, source)?;
    Ok(read_script(alloc, input.as_slice(), geo)?)
}

// Saves a map, if there is a name for it. Takes memory.
fn save_last<V: Vault>(
    alloc: Global,
    vault: &mut V,
    name: &Option<Word>,
    words: &Words,
) -> Result<(), Stop>
    ensures none { name.now ≡ None → SameVault (vault_seen V.tells V.files V.faults vault.old) (vault_seen V.tells V.files V.faults vault.new) }
    ensures saved { OnOk result
        (IsSaved name.now words.now (vault_seen V.tells V.files V.faults vault.old) (vault_seen V.tells V.files V.faults vault.new)) }
    ensures cause { IfErr result
        (StopsSavingLast name.now (vault_seen V.tells V.files V.faults vault.old) (vault_seen V.tells V.files V.faults vault.new)) }
{
    match name {
        Some(name) => save(alloc, vault, name, words),
        None => Ok(()),
    }
}

/// Runs the script of the input from the map with which the words let it begin, and saves the last one where a name is
/// given. Answers the text of the report. Takes memory, all of it before it writes a file.
pub(crate) fn run_input<T: Threads + Wait + Sync, R: Source, V: Vault, G: GateMaker>(
    rt: &T,
    alloc: Global,
    origin: &Origin,
    name: &Option<Word>,
    source: &mut R,
    vault: &mut V,
    gates: &mut G,
) -> Result<Vec<u8>, Stop>
    requires never { NeverDies (G.seen gates.old) }
    requires countable { CountsAreLow (G.seen gates.old) }
    ensures gives { IfOk result (λ text. GivesRun origin.now name.now []
        (lent (R.seen source.old) (vault_seen V.tells V.files V.faults vault.old) (G.seen gates.old))
        (lent (R.seen source.new) (vault_seen V.tells V.files V.faults vault.new) (G.seen gates.new)) text.items) }
    ensures stops { IfErr result (Stops (command.Run origin.now name.now [])
        (lent (R.seen source.old) (vault_seen V.tells V.files V.faults vault.old) (G.seen gates.old))
        (lent (R.seen source.new) (vault_seen V.tells V.files V.faults vault.new) (G.seen gates.new))) }
    ensures leaves { Leaves (command.Run origin.now name.now [])
        (lent (R.seen source.old) (vault_seen V.tells V.files V.faults vault.old) (G.seen gates.old))
        (lent (R.seen source.new) (vault_seen V.tells V.files V.faults vault.new) (G.seen gates.new)) }
{
    let first = first_map(alloc, origin, vault)?;
    let script = input_script(alloc, first.geo(), source)?;
    let outcome = run_script(rt, alloc, first, &script, &[], gates)?;
    let text = render(alloc, &outcome.report)?;
    save_last(alloc, vault, name, &outcome.words)?;
    Ok(text)
}

// The geometry of the default numbers.
fn default_geo() -> Geo
    ensures { IsGeoOf result default_numbers.segments default_numbers.tiers default_numbers.chunks default_numbers.chunk_words default_numbers.extra }
{
    let n = Numbers::default();
    match Geo::new(n.segments, n.tiers, n.chunks, n.chunk_words, n.extra) {
        Ok(geo) => geo,
        Err(_) => unreachable!(),
    }
}

/// Runs so many generated records from the empty map of the default numbers. Answers the text of their summary. Takes
/// memory.
pub(crate) fn run_generated<T: Threads + Wait + Sync, G: GateMaker>(
    rt: &T,
    alloc: Global,
    records: u32,
    seed: u64,
    gates: &mut G,
) -> Result<Vec<u8>, NoMemory>
    requires limit { records ≤ MAX_SCRIPT_LINES }
    requires never { NeverDies (G.seen gates.old) }
    requires countable { CountsAreLow (G.seen gates.old) }
    ensures { IfOk result (λ text. GivesMade records seed (G.seen gates.old) (G.seen gates.new) text.items) }
{
    let geo = default_geo();
    let script = generated(alloc, &geo, records, seed)?;
    let first = Words::empty(alloc, &geo)?;
    empty_words_are_lawful();
    let outcome = run_script(rt, alloc, first, &script, &[], gates)?;
    made_record(alloc, &outcome.report, records)
}
