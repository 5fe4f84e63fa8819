//! The fields of a record.

ghost use Rattle.std.specs.Prelude.{◌≡◌, ◌≤◌, length, map};
ghost use Rattle.csv.specs.Records.{fields_of};

use arrayvec::ArrayVec;
use csv::ByteRecord;

/// The most fields that a record of a script has.
pub(crate) const MAX_FIELDS: usize = 5;

// The fields of a record that has no more than a script's may have, lent. Takes no memory.
pub(crate) fn fields_of_row<'a>(row: &'a ByteRecord) -> ArrayVec<&'a [u8], MAX_FIELDS>
    requires { length (fields_of row.now) ≤ MAX_FIELDS }
    ensures { map (λ f. f.now) result.items ≡ fields_of row.entry.now }
{
    let mut fields = ArrayVec::new();
    for i in 0..row.len() {
        let Some(field) = row.get(i) else {
            unreachable!();
        };
        fields.push(field);
    }
    fields
}
