//! What a lawful map holds.

ghost use Rattle.std.specs.Prelude.{◌≡◌, ◌++◌, ◌*◌, ◌<◌, IfOk, OnOk};
ghost use Rattle.cm_plain.specs.declared.reply.Pair.{Pair};
ghost use Rattle.cm_plain.specs.Readings.{entry, reading_at};
ghost use Rattle.cm_check.specs.Contents.{ListsMap, ListsSegment, line_of, lines_in};
ghost use Rattle.cm_words.specs.LawfulMaps.{IsLawfulMap, IsLawfulSegment};
ghost use Rattle.cm_check.specs.SlotReads.{IsTierRightful};
ghost use Rattle.cm_check.specs.Quiets.{IsChunk, geo_of, words_of};

use crate::quiet::Quiet;
use crate::slots::entry_chunk;
use cm_plain::{Bytes, MapLine, NoMemory};
use cm_words::Words;
use std::alloc::Global;

/// The line of the entry at a chunk.
fn line_at(alloc: Global, quiet: &Quiet<'_>, place: u32, chunk: u32) -> Result<MapLine, NoMemory>
    requires { IsChunk (geo_of quiet.now) place chunk }
    ensures { IfOk result (λ line. (pair : Pair) → reading_at (geo_of quiet.now) (words_of quiet.now) place chunk ≡ entry pair → line ≡ line_of quiet.now.segment pair) }
{
    let mut bytes = [0; 4096];
    let key_len = quiet.read_key(place, chunk, &mut bytes);
    let key = Bytes::of(alloc, &bytes[..key_len as usize])?;
    let value_len = quiet.read_value(place, chunk, &mut bytes);
    let value = Bytes::of(alloc, &bytes[..value_len as usize])?;
    Ok(MapLine {
        segment: quiet.segment(),
        key,
        value,
    })
}

/// Puts the lines of a tier behind others, in the order of its slots.
fn push_tier(
    alloc: Global,
    quiet: &Quiet<'_>,
    place: u32,
    lines: &mut Vec<MapLine>,
) -> Result<(), NoMemory>
    requires place { place < (geo_of quiet.now).tiers }
    requires rightful { IsTierRightful (geo_of quiet.now) quiet.now.segment (words_of quiet.now) place }
    ensures { OnOk result (lines.new.items ≡ lines.old.items ++ lines_in (geo_of quiet.now) quiet.now.segment (words_of quiet.now) (2 * (geo_of quiet.now).chunks) place) }
{
    for number in 0..2 * quiet.geo().chunks() {
        if let Some(chunk) = entry_chunk(quiet, place, number) {
            lines.push(line_at(alloc, quiet, place, chunk)?)?;
        }
    }
    Ok(())
}

/// The lines of a segment, in byte order of the keys.
fn segment_lines(alloc: Global, quiet: &Quiet<'_>) -> Result<Vec<MapLine>, NoMemory>
    requires { IsLawfulSegment (geo_of quiet.now) quiet.now.segment (words_of quiet.now) }
    ensures { IfOk result (λ lines. ListsSegment (geo_of quiet.now) quiet.now.segment (words_of quiet.now) lines.items) }
{
    let mut lines = Vec::new(alloc);
    let places = quiet.places();
    for place in places {
        push_tier(alloc, quiet, *place, &mut lines)?;
    }
    lines.sort_unstable_by(|one, other| one.key.as_slice().cmp(other.key.as_slice()));
    Ok(lines)
}

/// The pairs of a lawful map, segment after segment, each in byte order of the keys. Takes memory: NoMemory
/// where none is left, and no other error.
pub fn contents(alloc: Global, words: &Words) -> Result<Vec<MapLine>, NoMemory>
    requires { IsLawfulMap words.now }
    ensures { IfOk result (λ lines. ListsMap words.now lines.items) }
{
    let mut lines = Vec::new(alloc);
    for segment in 0..words.geo().segments() {
        let mut more = segment_lines(alloc, &Quiet::new(words, segment))?;
        lines.append(&mut more)?;
    }
    Ok(lines)
}
