//! The script of a text.

ghost use Rattle.std.specs.Prelude.{◌≡◌, ◌≤◌, ◌+◌, ◌∷◌, [], ℕ, List, length, vec_len, Some, IfErr, IfOk, MatchResult, OnOk};
ghost use Rattle.csv.specs.Records.{fields_of};
ghost use Rattle.cm_script.specs.Rows.{records_of};
ghost use Rattle.cm_script.specs.Scripts.{line_of, lines_from, lists_with, script_of, StopsScript, IsFor};
ghost use Rattle.cm_script.specs.Unread.{StopsReading, script_from, unless_refused};
ghost use Rattle.cm_script.specs.declared.stop.LineCause.{LineCause};

use crate::arguments::{LineStop, op_of};
use crate::limits::{MAX_CALLERS, MAX_SCRIPT_BYTES, MAX_SCRIPT_LINES};
use crate::line::{Line, Script};
use crate::number::number_below;
use crate::rows::{MAX_FIELDS, fields_of_row};
use crate::stop::{LineCause, ScriptStop};
use crate::verb::verb_of;
use cm_geo::Geo;
use cm_plain::{NoMemory, Op};
use csv::{ByteRecord, ReaderBuilder};
use std::alloc::Global;

// The most records that are read: one more than a script may have.
const MOST_READ: u32 = MAX_SCRIPT_LINES as u32 + 1;

/// The script of a text, or why it is none. Takes memory.
///
/// The text is read as CSV with no header row, and its records are numbered from 1. It may have at
/// most `MAX_SCRIPT_BYTES` and `MAX_SCRIPT_LINES`: `TooLong` comes before any record is looked at.
/// Otherwise the first record that is refused is named, with the first cause that applies to it, in
/// the order of `LineCause`. `NoMemory` may come at any text.
pub fn read_script(alloc: Global, bytes: &[u8], geo: &Geo) -> Result<Script, ScriptStop>
    ensures ok { IfOk result (λ s. script_of geo.now bytes.now ≡ Ok s) }
    ensures for_geo { IfOk result (IsFor geo.now) }
    ensures err { IfErr result (StopsScript geo.now bytes.now) }
{
    if bytes.len() > MAX_SCRIPT_BYTES {
        return Err(ScriptStop::TooLong);
    }
    let lines = read_lines(alloc, geo, bytes)?;
    Ok(Script::from_vec(lines))
}

// The line of a record, where so many `list` records stand before it. Takes memory.
fn line_of(alloc: Global, geo: &Geo, lists: u32, row: &ByteRecord) -> Result<Line, LineStop>
    ensures ok { IfOk result (λ line. line_of geo.now lists (fields_of row.now) ≡ Ok line) }
    ensures err { IfErr result (λ stop. (cause : LineCause) → stop ≡ LineStop.Refused cause → line_of geo.now lists (fields_of row.now) ≡ Err cause) }
{
    if row.len() > MAX_FIELDS {
        return Err(LineStop::Refused(LineCause::Csv));
    }
    let fields = fields_of_row(row);
    let [caller, word, first, later @ ..] = fields.as_slice() else {
        return Err(LineStop::Refused(LineCause::Csv));
    };
    let Some(caller) = number_below(MAX_CALLERS, *caller) else {
        return Err(LineStop::Refused(LineCause::Caller));
    };
    let Some(verb) = verb_of(*word) else {
        return Err(LineStop::Refused(LineCause::Op));
    };
    let op = op_of(alloc, geo, lists, verb, *first, later)?;
    Ok(Line { caller, op })
}

// How many `list` records there are after one more record.
fn lists_with(lists: u32, line: &Line) -> u32
    requires { lists ≤ MAX_SCRIPT_LINES }
    ensures { result ≡ lists_with lists (Ok line.now) }
{
    match line.op {
        Op::List { .. } => lists + 1,
        _ => lists,
    }
}

// What was read of a script: the lines of its records, how many of them are `list` records, and the first refused
// record, if there is one, with its number.
#[derive(Drop)]
struct SoFar {
    lines: Vec<Line>,
    lists: u32,
    refused: Option<(u32, LineCause)>,
}

impl SoFar {
    // Takes the record with this number. After a refused one, records are only counted. Takes memory.
    fn take(
        &mut self,
        alloc: Global,
        geo: &Geo,
        number: u32,
        row: &ByteRecord,
    ) -> Result<(), NoMemory>
        requires { self.old.lists ≤ MAX_SCRIPT_LINES }
        ensures rest { OnOk result ((later : List (List (List ℕ)))
            → script_from geo.now self.old number (fields_of row.now ∷ later) ≡ script_from geo.now self.new (number + 1) later) }
        ensures lists { self.new.lists ≤ self.old.lists + 1 }
        ensures lines { vec_len self.new.lines ≤ vec_len self.old.lines + 1 }
    {
        if self.refused.is_some() {
            return Ok(());
        }
        match line_of(alloc, geo, self.lists, row) {
            Ok(line) => {
                self.lists = lists_with(self.lists, &line);
                self.lines.push(line)?;
            }
            Err(LineStop::Refused(cause)) => self.refused = Some((number, cause)),
            Err(LineStop::NoMemory) => return Err(NoMemory),
        }
        Ok(())
    }

    // The lines, or the refusal, where no record is left.
    fn end(self) -> Result<Vec<Line>, ScriptStop>
        ensures few { IfOk result (λ lines. vec_len lines ≡ vec_len self.lines) }
        ensures gives { MatchResult result (λ lines. unless_refused self.refused self.lines.items (Ok []) ≡ Ok lines.items)
            (λ why. (line : ℕ) × (cause : LineCause) × (why ≡ ScriptStop.Refused line cause) × (self.refused ≡ Some (line, cause))) }
    {
        match self.refused {
            None => Ok(self.lines),
            Some((line, cause)) => Err(ScriptStop::Refused { line, cause }),
        }
    }
}

// The lines of the records of a text, or why it is no script. One record is held at a time. Takes memory.
fn read_lines(alloc: Global, geo: &Geo, text: &[u8]) -> Result<Vec<Line>, ScriptStop>
    ensures within_limit { IfOk result (λ lines. length (records_of text.now) ≤ MAX_SCRIPT_LINES) }
    ensures ok { IfOk result (λ lines. lines_from geo.now 1 0 (records_of text.now) ≡ Ok lines.items) }
    ensures few { IfOk result (λ lines. vec_len lines ≤ MAX_SCRIPT_LINES) }
    ensures err { IfErr result (StopsReading geo.now (records_of text.now)) }
{
    let mut reader = ReaderBuilder::new()
        .has_headers(false)
        .flexible(true)
        .from_reader(alloc, text);
    let mut row = ByteRecord::new(alloc);
    let mut so_far = SoFar {
        lines: Vec::new(alloc),
        lists: 0,
        refused: None,
    };
    for count in 0..MOST_READ {
        // A slice has no read that fails, so this is want of memory.
        let Ok(is_there) = reader.read_byte_record(&mut row) else {
            return Err(ScriptStop::NoMemory);
        };
        if !is_there {
            return so_far.end();
        }
        if so_far.take(alloc, geo, count + 1, &row).is_err() {
            return Err(ScriptStop::NoMemory);
        }
    }
    Err(ScriptStop::TooLong)
}
