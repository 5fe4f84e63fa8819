//! The text of a report.

ghost use Rattle.std.specs.Prelude.{◌≡◌, ◌++◌, ◌∷◌, [], ℕ, List, IfOk, OnOk, true, false, decimal, flat_map, map};
ghost use Rattle.std.specs.Io.KnownBytes.{Appends};
ghost use Rattle.csv.specs.Records.{fields_of, partial_of};
ghost use Rattle.csv.specs.Writing.{default_writer, fields_written, has_written, row_text, text_written, with_flexible, writer_setup};
ghost use Rattle.cm_script.specs.DroppedRows.{rows_of_drop};
ghost use Rattle.cm_script.specs.Reports.{answer_fields, call_fields, caller_end_fields, dropped_fields, dropped_row, dropped_rows, drops_by_cause, end_fields, found_fields, found_rows, map_fields, map_text, pair_fields, text_of};
ghost use Rattle.cm_script.specs.Rows.{text_of_rows};

use crate::report::{CallerEnd, How, Report};
use cm_plain::{MapLine, NoMemory, Pair, Receipt, Reply, SegFound};
use csv::{ByteRecord, Writer, WriterBuilder};
use itoa::Buffer;
use std::alloc::Global;

// Adds a field.
fn push(row: &mut ByteRecord, field: &[u8]) -> Result<(), NoMemory>
    requires { partial_of row.old ≡ [] }
    ensures fields { OnOk result (fields_of row.new ≡ fields_of row.old ++ field.now ∷ []) }
    ensures whole { OnOk result (partial_of row.new ≡ []) }
{
    row.push_field(field)?;
    Ok(())
}

// Adds two fields.
fn push_two(row: &mut ByteRecord, first: &[u8], second: &[u8]) -> Result<(), NoMemory>
    requires { partial_of row.old ≡ [] }
    ensures fields { OnOk result (fields_of row.new ≡ fields_of row.old ++ first.now ∷ second.now ∷ []) }
    ensures whole { OnOk result (partial_of row.new ≡ []) }
{
    push(row, first)?;
    push(row, second)
}

// Adds a field with a number's decimal digits.
fn push_number(row: &mut ByteRecord, number: u64) -> Result<(), NoMemory>
    requires { partial_of row.old ≡ [] }
    ensures fields { OnOk result (fields_of row.new ≡ fields_of row.old ++ decimal number ∷ []) }
    ensures whole { OnOk result (partial_of row.new ≡ []) }
{
    let mut digits = Buffer::new();
    push(row, digits.format(number).as_bytes())
}

// Adds the key and the value of each pair.
fn push_pairs(row: &mut ByteRecord, pairs: &[Pair]) -> Result<(), NoMemory>
    requires { partial_of row.old ≡ [] }
    ensures fields { OnOk result (fields_of row.new ≡ fields_of row.old ++ flat_map pair_fields pairs.now) }
    ensures whole { OnOk result (partial_of row.new ≡ []) }
{
    for pair in pairs {
        push(row, pair.key.as_slice())?;
        push(row, pair.value.as_slice())?;
    }
    Ok(())
}

// Adds an answer's word and its data.
fn push_answer(row: &mut ByteRecord, reply: &Reply) -> Result<(), NoMemory>
    requires { partial_of row.old ≡ [] }
    ensures fields { OnOk result (fields_of row.new ≡ fields_of row.old ++ answer_fields reply.now) }
    ensures whole { OnOk result (partial_of row.new ≡ []) }
{
    match reply {
        Reply::New => push(row, b"new"),
        Reply::Replaced => push(row, b"replaced"),
        Reply::Kept(value) => push_two(row, b"kept", value.as_slice()),
        Reply::Missing => push(row, b"missing"),
        Reply::Differs => push(row, b"differs"),
        Reply::Removed => push(row, b"removed"),
        Reply::Value(value) => push_two(row, b"value", value.as_slice()),
        Reply::FullChain => push(row, b"full-chain"),
        Reply::FullSpent => push(row, b"full-spent"),
        Reply::Worn => push(row, b"worn"),
        Reply::Count(count) => {
            push(row, b"count")?;
            push_number(row, u64::from(*count))
        }
        Reply::Pairs(pairs) => {
            push(row, b"pairs")?;
            push_pairs(row, pairs.as_slice())
        }
        Reply::Swept(key) => push_two(row, b"swept", key.as_slice()),
        Reply::SweptAll => push(row, b"swept-all"),
    }
}

// What a record of a report is made from.
trait Record {
    ghost fields: { Self → List (List ℕ) };

    // Puts the record's fields in place of those that the row has.
    fn fill(&self, row: &mut ByteRecord) -> Result<(), NoMemory>
        ensures { OnOk result (fields_of row.new ≡ fields self.now) };
}

impl Record for Receipt {
    ghost fields = { call_fields };

    fn fill(&self, row: &mut ByteRecord) -> Result<(), NoMemory> {
        row.clear();
        push(row, b"call")?;
        push_number(row, u64::from(self.caller))?;
        push_number(row, u64::from(self.line))?;
        push_number(row, u64::from(self.part))?;
        push_number(row, u64::from(self.segment))?;
        push_number(row, self.number)?;
        push_answer(row, &self.reply)
    }
}

impl Record for MapLine {
    ghost fields = { map_fields };

    fn fill(&self, row: &mut ByteRecord) -> Result<(), NoMemory> {
        row.clear();
        push(row, b"map")?;
        push_number(row, u64::from(self.segment))?;
        push_two(row, self.key.as_slice(), self.value.as_slice())
    }
}

impl Record for CallerEnd {
    ghost fields = { caller_end_fields };

    fn fill(&self, row: &mut ByteRecord) -> Result<(), NoMemory> {
        row.clear();
        match self.how {
            How::Stopped => push(row, b"stopped")?,
            How::Dead => push(row, b"dead")?,
        }
        push_number(row, u64::from(self.caller))?;
        push_number(row, u64::from(self.line))
    }
}

impl Record for SegFound {
    ghost fields = { found_fields };

    fn fill(&self, row: &mut ByteRecord) -> Result<(), NoMemory> {
        row.clear();
        push(row, b"found")?;
        push_number(row, u64::from(self.segment))?;
        push_number(row, u64::from(self.kept))?;
        push_number(row, self.lock % (1 << 30))?;
        push_number(row, self.lock / (1 << 30) % 2)?;
        push_number(row, self.lock / (1 << 31) % 2)?;
        push_number(row, u64::from(self.in_flight))?;
        push_number(row, u64::from(self.cut))
    }
}

// How many slots of a segment were dropped for a cause.
#[derive(Clone, Copy)]
struct Dropped {
    segment: u32,
    cause: &'static [u8],
    count: u32,
}

impl Record for Dropped {
    ghost fields = { λ it. dropped_fields it.segment (it.cause.now, it.count) };

    fn fill(&self, row: &mut ByteRecord) -> Result<(), NoMemory> {
        row.clear();
        push(row, b"dropped")?;
        push_number(row, u64::from(self.segment))?;
        push(row, self.cause)?;
        push_number(row, u64::from(self.count))
    }
}

// What was dropped in a segment for a cause.
fn drop_for(seen: &SegFound, cause: &'static [u8], count: u32) -> Dropped
    ensures { rows_of_drop result ≡ dropped_row seen.now.segment (cause.now, count) }
{
    Dropped {
        segment: seen.segment,
        cause,
        count,
    }
}

// What was dropped in a segment for each cause.
fn drops_of(seen: &SegFound) -> [Dropped; 9]
    ensures { flat_map rows_of_drop result ≡ dropped_rows seen.now.segment (drops_by_cause seen.now.drops) }
{
    let drops = &seen.drops;
    [
        drop_for(seen, b"range", drops.range),
        drop_for(seen, b"lengths", drops.lengths),
        drop_for(seen, b"checksum", drops.checksum),
        drop_for(seen, b"padding", drops.padding),
        drop_for(seen, b"segment", drops.segment),
        drop_for(seen, b"fingerprint", drops.fingerprint),
        drop_for(seen, b"duplicate", drops.duplicate),
        drop_for(seen, b"overlap", drops.overlap),
        drop_for(seen, b"allowance", drops.allowance),
    ]
}

// The record that ends a report.
impl Record for Report {
    ghost fields = { end_fields };

    fn fill(&self, row: &mut ByteRecord) -> Result<(), NoMemory> {
        row.clear();
        push(row, b"end")?;
        push_number(row, self.receipts.as_slice().len() as u64)?;
        push_number(row, self.map.as_slice().len() as u64)?;
        push_number(row, u64::from(self.extra))
    }
}

// Writes a record. The row is only lent, so that one row serves all records.
fn write_one<T: Record>(
    writer: &mut Writer<Vec<u8>>,
    row: &mut ByteRecord,
    item: &T,
) -> Result<(), NoMemory>
    requires setup { writer_setup writer.old ≡ with_flexible default_writer true }
    requires between { (fields_written writer.old ≡ 0) × (has_written writer.old ≡ false) }
    ensures setup { OnOk result (writer_setup writer.new ≡ with_flexible default_writer true) }
    ensures between { OnOk result ((fields_written writer.new ≡ 0) × (has_written writer.new ≡ false)) }
    ensures text { OnOk result (Appends (text_written (λ v. Some v.items) writer.old) (text_written (λ v. Some v.items) writer.new)
        (row_text default_writer (T.fields item.now))) }
{
    item.fill(row)?;
    // what stands under the writer is a `Vec`, which fails for want of memory alone
    writer.write_byte_record(row).map_err(|_| NoMemory)
}

// Writes records, one after the other.
fn write_all<T: Record>(
    writer: &mut Writer<Vec<u8>>,
    row: &mut ByteRecord,
    items: &[T],
) -> Result<(), NoMemory>
    requires setup { writer_setup writer.old ≡ with_flexible default_writer true }
    requires between { (fields_written writer.old ≡ 0) × (has_written writer.old ≡ false) }
    ensures setup { OnOk result (writer_setup writer.new ≡ with_flexible default_writer true) }
    ensures between { OnOk result ((fields_written writer.new ≡ 0) × (has_written writer.new ≡ false)) }
    ensures text { OnOk result (Appends (text_written (λ v. Some v.items) writer.old) (text_written (λ v. Some v.items) writer.new)
        (text_of_rows (map T.fields items.now))) }
{
    for item in items {
        write_one(writer, row, item)?;
    }
    Ok(())
}

// Writes a record for a cause, where slots were dropped for it.
fn write_drop(
    writer: &mut Writer<Vec<u8>>,
    row: &mut ByteRecord,
    dropped: &Dropped,
) -> Result<(), NoMemory>
    requires setup { writer_setup writer.old ≡ with_flexible default_writer true }
    requires between { (fields_written writer.old ≡ 0) × (has_written writer.old ≡ false) }
    ensures setup { OnOk result (writer_setup writer.new ≡ with_flexible default_writer true) }
    ensures between { OnOk result ((fields_written writer.new ≡ 0) × (has_written writer.new ≡ false)) }
    ensures text { OnOk result (Appends (text_written (λ v. Some v.items) writer.old) (text_written (λ v. Some v.items) writer.new)
        (text_of_rows (rows_of_drop dropped.now))) }
{
    if dropped.count == 0 {
        return Ok(());
    }
    write_one(writer, row, dropped)
}

// Writes a record for each cause for which slots of a segment were dropped.
fn write_drops(
    writer: &mut Writer<Vec<u8>>,
    row: &mut ByteRecord,
    seen: &SegFound,
) -> Result<(), NoMemory>
    requires setup { writer_setup writer.old ≡ with_flexible default_writer true }
    requires between { (fields_written writer.old ≡ 0) × (has_written writer.old ≡ false) }
    ensures setup { OnOk result (writer_setup writer.new ≡ with_flexible default_writer true) }
    ensures between { OnOk result ((fields_written writer.new ≡ 0) × (has_written writer.new ≡ false)) }
    ensures text { OnOk result (Appends (text_written (λ v. Some v.items) writer.old) (text_written (λ v. Some v.items) writer.new)
        (text_of_rows (dropped_rows seen.now.segment (drops_by_cause seen.now.drops)))) }
{
    let drops = drops_of(seen);
    for dropped in &drops {
        write_drop(writer, row, dropped)?;
    }
    Ok(())
}

// Writes what was found in each segment, with what was dropped there behind it.
fn write_found(
    writer: &mut Writer<Vec<u8>>,
    row: &mut ByteRecord,
    found: &[SegFound],
) -> Result<(), NoMemory>
    requires setup { writer_setup writer.old ≡ with_flexible default_writer true }
    requires between { (fields_written writer.old ≡ 0) × (has_written writer.old ≡ false) }
    ensures setup { OnOk result (writer_setup writer.new ≡ with_flexible default_writer true) }
    ensures between { OnOk result ((fields_written writer.new ≡ 0) × (has_written writer.new ≡ false)) }
    ensures text { OnOk result (Appends (text_written (λ v. Some v.items) writer.old) (text_written (λ v. Some v.items) writer.new)
        (text_of_rows (flat_map found_rows found.now))) }
{
    for seen in found {
        write_one(writer, row, seen)?;
        write_drops(writer, row, seen)?;
    }
    Ok(())
}

/// The text of a report: CSV records, each ended by a line feed. Takes memory.
pub fn render(alloc: Global, report: &Report) -> Result<Vec<u8>, NoMemory>
    ensures { IfOk result (λ text. text.items ≡ text_of report.now) }
{
    let mut writer = WriterBuilder::new()
        .flexible(true)
        .from_writer(Vec::new(alloc));
    let mut row = ByteRecord::new(alloc);
    write_all(&mut writer, &mut row, report.receipts.as_slice())?;
    write_all(&mut writer, &mut row, report.ends.as_slice())?;
    write_found(&mut writer, &mut row, report.found.as_slice())?;
    write_all(&mut writer, &mut row, report.map.as_slice())?;
    write_one(&mut writer, &mut row, report)?;
    writer.into_inner().map_err(|_| NoMemory)
}

/// The text of the pairs of a map, as a report has them: a record for each, ended by a line feed. Takes memory.
pub fn render_map(alloc: Global, lines: &[MapLine]) -> Result<Vec<u8>, NoMemory>
    ensures { IfOk result (λ text. text.items ≡ map_text lines.now) }
{
    let mut writer = WriterBuilder::new()
        .flexible(true)
        .from_writer(Vec::new(alloc));
    let mut row = ByteRecord::new(alloc);
    write_all(&mut writer, &mut row, lines)?;
    writer.into_inner().map_err(|_| NoMemory)
}
