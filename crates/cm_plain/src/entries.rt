//! Changes of a segment's entries.

ghost use Rattle.std.specs.Prelude.{count_by, nat_lt, ◌≡◌, ◌≢◌, ◌++◌, ◌∷◌, [], ◌<◌, ◌≤◌, All, AllPairs, OnOk, OnErr, vec_len, vec_capacity, if◌then◌else◌};
ghost use Rattle.cm_plain.specs.States.{run_end as end_of, run_start as start_of};
ghost use Rattle.cm_plain.specs.Changes.{with_entry, without};

use crate::placed::Placed;
use crate::stop::NoMemory;
use cm_geo::Geo;

/// The first chunk of an entry's run, counted over all places of the segment.
fn run_start(geo: &Geo, entry: &Placed) -> u64
    ensures { result ≡ start_of geo.now entry.now }
{
    let place = u64::from(entry.place);
    let chunk = u64::from(entry.chunk);
    place * u64::from(geo.chunks()) + chunk
}

/// Removes a key's entry.
pub fn remove_key(entries: &mut Vec<Placed>, key: &[u8])
    ensures items { entries.new.items ≡ without key.now entries.old.items }
    ensures len { vec_len entries.new ≤ vec_len entries.old }
    ensures capacity { vec_capacity entries.new ≡ vec_capacity entries.old }
{
    entries.retain(|entry| entry.key.as_slice() != key);
}

/// How many entries' runs begin before a chunk.
fn count_before(geo: &Geo, entries: &[Placed], start: u64) -> usize
    ensures { result ≡ count_by (λ other. nat_lt (start_of geo.now other) start) entries.now }
{
    entries
        .iter()
        .filter(|other| run_start(geo, other) < start)
        .count()
}

/// Puts an entry among others, in the order of their runs. Takes no memory.
fn insert_entry(geo: &Geo, entries: &mut Vec<Placed>, entry: Placed)
    requires room { vec_len entries.old < vec_capacity entries.old }
    requires rising { AllPairs (λ other later. end_of geo.now other ≤ start_of geo.now later) entries.old.items }
    requires apart { All (λ other. start_of geo.now other ≢ start_of geo.now entry) entries.old.items }
    ensures { entries.new.items ≡ with_entry geo.now entry entries.old.items }
{
    let at = count_before(geo, entries.as_slice(), run_start(geo, &entry));
    entries.insert(at, entry).unwrap();
}

/// Puts an entry in place of its key's old one and, where it links its tier, the tier's place at the
/// end of the chain. Takes memory; after NoMemory nothing changed.
pub fn put_entry(
    geo: &Geo,
    chain: &mut Vec<u32>,
    entries: &mut Vec<Placed>,
    link: bool,
    entry: Placed,
) -> Result<(), NoMemory>
    requires rising { AllPairs (λ other later. end_of geo.now other ≤ start_of geo.now later) (without entry.key entries.old.items) }
    requires apart { All (λ other. start_of geo.now other ≢ start_of geo.now entry) (without entry.key entries.old.items) }
    ensures entries { OnOk result (entries.new.items ≡ with_entry geo.now entry (without entry.key entries.old.items)) }
    ensures chain { OnOk result (chain.new.items ≡ (if link then chain.old.items ++ entry.place ∷ [] else chain.old.items)) }
    ensures err_entries { OnErr result (entries.new.items ≡ entries.old.items) }
    ensures err_chain { OnErr result (chain.new.items ≡ chain.old.items) }
{
    entries.reserve(1)?;
    if link {
        chain.push(entry.place)?;
    }
    remove_key(entries, entry.key.as_slice());
    insert_entry(geo, entries, entry);
    Ok(())
}
