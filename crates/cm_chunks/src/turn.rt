//! Setting and clearing the bits of a run of chunks.

ghost use Rattle.std.specs.Prelude.{◌≡◌, ◌+◌, ◌*◌, ◌/◌, ◌<◌, ◌≤◌, OnOk, length};
ghost use Rattle.cm_words.specs.Effects.{Reads};
ghost use Rattle.cm_words.specs.Stores.{MayStoreEach, WritesEach, WritesPrefixEach};
ghost use Rattle.cm_words.specs.Calls.{IsWritable, Performs, StoresEach};
ghost use Rattle.cm_chunks.specs.Turns.{bit_words_of, bits_in, stores_for, stores_to_clear, stores_to_set, turn_at, turned_word};
ghost use Rattle.cm_chunks.specs.RunBits.{Clears, IsRunIn, Sets};

use crate::bits::bits_between;
use cm_geo::Geo;
use cm_plain::Run;
use cm_words::{Dead, Mem};

/// What is done to the bits of a run.
#[derive(Clone, Copy)]
pub(crate) enum Turn {
    Set,
    Clear,
}

impl Turn {
    /// A word with these bits set or cleared.
    fn turned_word(self, word: u64, bits: u64) -> u64
        ensures { result ≡ turned_word self word bits }
    {
        match self {
            Turn::Set => word | bits,
            Turn::Clear => word & !bits,
        }
    }
}

/// Sets or clears the bits of a run in one bit word, by one load and one store.
#[tactic(auto, using(crate::proofs::SearchLoop::bits_inner))]
fn turn_word<M: Mem>(
    mem: &mut M,
    geo: &Geo,
    run: Run,
    number: u32,
    bits: u64,
    turn: Turn,
) -> Result<(), Dead>
    requires writable { IsWritable (M.seen mem.old) geo.now }
    requires place { run.place < geo.now.tiers }
    requires number { number < geo.now.chunks / 64 }
    requires bits { bits ≡ bits_in run number }
    requires allowed { MayStoreEach (M.seen mem.old) (turn_at turn geo.now run number) }
    ensures stores { Performs M.seen M.same_rest (λ old now. WritesEach old now (turn_at turn geo.now run number)) Reads mem.old mem.new result }
    ensures count { OnOk result ((M.seen mem.new).meter.events ≡ (M.seen mem.old).meter.events + 2) }
{
    let at = geo.bits_at(run.place, number);
    let word = mem.load(at)?;
    mem.store(at, turn.turned_word(word, bits))?;
    Ok(())
}

/// Sets or clears the bits of a run, the lower bit word first.
fn turn_run<M: Mem>(mem: &mut M, geo: &Geo, run: Run, turn: Turn) -> Result<(), Dead>
    requires writable { IsWritable (M.seen mem.old) geo.now }
    requires run { IsRunIn geo.now run }
    requires allowed { MayStoreEach (M.seen mem.old) (stores_for turn geo.now run) }
    ensures stores { StoresEach M.seen M.same_rest (stores_for turn geo.now run) mem.old mem.new result }
    ensures count { OnOk result ((M.seen mem.new).meter.events ≡ (M.seen mem.old).meter.events + 2 * length (bit_words_of run)) }
{
    let number = run.chunk / 64;
    let from = run.chunk % 64;
    let end = from + run.chunks;
    if end <= 64 {
        turn_word(mem, geo, run, number, bits_between(from, end), turn)?;
        return Ok(());
    }
    turn_word(mem, geo, run, number, bits_between(from, 64), turn)?;
    turn_word(mem, geo, run, number + 1, bits_between(0, end - 64), turn)?;
    Ok(())
}

/// Sets the bits of a run of 1 to 64 chunks; all other bits stay.
pub fn set<M: Mem>(mem: &mut M, geo: &Geo, run: Run) -> Result<(), Dead>
    requires writable { IsWritable (M.seen mem.old) geo.now }
    requires run { IsRunIn geo.now run }
    requires allowed { MayStoreEach (M.seen mem.old) (stores_to_set geo.now run) }
    ensures stores { Performs M.seen M.same_rest (λ old now. Sets old now geo.now run)
        (λ old now. WritesPrefixEach old now (stores_to_set geo.now run)) mem.old mem.new result }
    ensures count { OnOk result ((M.seen mem.new).meter.events ≡ (M.seen mem.old).meter.events + 2 * length (bit_words_of run)) }
{
    turn_run(mem, geo, run, Turn::Set)?;
    Ok(())
}

/// Clears the bits of a run of 1 to 64 chunks; all other bits stay.
pub fn clear<M: Mem>(mem: &mut M, geo: &Geo, run: Run) -> Result<(), Dead>
    requires writable { IsWritable (M.seen mem.old) geo.now }
    requires run { IsRunIn geo.now run }
    requires allowed { MayStoreEach (M.seen mem.old) (stores_to_clear geo.now run) }
    ensures stores { Performs M.seen M.same_rest (λ old now. Clears old now geo.now run)
        (λ old now. WritesPrefixEach old now (stores_to_clear geo.now run)) mem.old mem.new result }
    ensures count { OnOk result ((M.seen mem.new).meter.events ≡ (M.seen mem.old).meter.events + 2 * length (bit_words_of run)) }
{
    turn_run(mem, geo, run, Turn::Clear)?;
    Ok(())
}
