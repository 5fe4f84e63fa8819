//! The record that is printed of a generated script's run.

ghost use Rattle.std.specs.Prelude.{◌≡◌, ◌++◌, ◌∷◌, [], IfOk, OnOk, codes, decimal};
ghost use Rattle.csv.specs.Records.{fields_of, partial_of};
ghost use Rattle.cm_make.specs.Made.{made_fields, made_text};

use crate::counts::{Counts, counts_of};
use crate::digest::hex_text;
use cm_geo::hash;
use cm_plain::NoMemory;
use cm_script::{Report, render_map};
use csv::{ByteRecord, WriterBuilder};
use itoa::Buffer;
use std::alloc::Global;

// Adds a field with a number's decimal digits.
fn push_number(row: &mut ByteRecord, number: u64) -> Result<(), NoMemory>
    requires { partial_of row.old ≡ [] }
    ensures fields { OnOk result (fields_of row.new ≡ fields_of row.old ++ decimal number ∷ []) }
    ensures whole { OnOk result (partial_of row.new ≡ []) }
{
    let mut digits = Buffer::new();
    row.push_field(digits.format(number).as_bytes())?;
    Ok(())
}

// Adds a field for each kind of answer.
fn push_counts(row: &mut ByteRecord, counts: Counts) -> Result<(), NoMemory>
    requires { partial_of row.old ≡ [] }
    ensures fields { OnOk result (fields_of row.new ≡ fields_of row.old ++ decimal counts.new ∷ decimal counts.replaced ∷ decimal counts.kept
        ∷ decimal counts.missing ∷ decimal counts.removed ∷ decimal counts.value ∷ []) }
    ensures whole { OnOk result (partial_of row.new ≡ []) }
{
    push_number(row, counts.new)?;
    push_number(row, counts.replaced)?;
    push_number(row, counts.kept)?;
    push_number(row, counts.missing)?;
    push_number(row, counts.removed)?;
    push_number(row, counts.value)
}

// The fields of the record.
fn fields_of_made(alloc: Global, report: &Report, records: u32) -> Result<ByteRecord, NoMemory>
    ensures { IfOk result (λ row. fields_of row ≡ made_fields records report.now) }
{
    let map = report.map.as_slice();
    let text = render_map(alloc, map)?;
    let mut row = ByteRecord::new(alloc);
    row.push_field(b"made")?;
    push_number(&mut row, u64::from(records))?;
    push_counts(&mut row, counts_of(report.receipts.as_slice()))?;
    push_number(&mut row, map.len() as u64)?;
    row.push_field(&hex_text(hash(text.as_slice())))?;
    Ok(row)
}

/// The `made` record of a report on a script of so many records, as a line: how many records the script had, how many answers
/// of the report are `new`, `replaced`, `kept`, `missing`, `removed` and `value`, how many pairs its map has, and the FNV-1a
/// digest of the text of the map's records, as 16 hexadecimal digits. Takes memory: NoMemory where none is left, and no other
/// error.
pub fn made_record(alloc: Global, report: &Report, records: u32) -> Result<Vec<u8>, NoMemory>
    ensures { IfOk result (λ text. text.items ≡ made_text records report.now) }
{
    let row = fields_of_made(alloc, report, records)?;
    let mut writer = WriterBuilder::new().from_writer(Vec::new(alloc));
    // what stands under the writer is a `Vec`, which fails for want of memory alone
    writer.write_byte_record(&row).map_err(|_| NoMemory)?;
    writer.into_inner().map_err(|_| NoMemory)
}
