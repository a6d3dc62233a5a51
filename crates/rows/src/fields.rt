//! The fields of a row.

ghost use Rattle.std.specs.Prelude.{◌≡◌, [], ◌∷◌};
ghost use Rattle.csv.specs.Records.{fields_of};
ghost use Rattle.first_fault.specs.Checks.{Checked};
ghost use Rattle.stream_case.specs.Name.{is_name};
ghost use Rattle.rows.specs.Fields.{are_empty, field, is_number, is_number_or_empty, is_passed_over, number, optional_number};

use crate::numbers::number_of;
use csv::ByteRecord;
use stream_case::Name;

/// The field at an index; there is nothing behind the last one.
pub fn field(row: &ByteRecord, index: usize) -> &[u8]
    ensures { result.now ≡ field (fields_of row.now) index }
{
    row.get(index).unwrap_or(b"")
}

/// Whether the fields at these indexes are empty.
#[tactic(auto, unfolding(crate::specs::Fields::are_empty))]
pub fn are_empty(row: &ByteRecord, indexes: &[usize]) -> bool
    ensures { result ≡ are_empty (fields_of row.now) indexes.now }
{
    indexes.iter().all(|index| field(row, *index).is_empty())
}

/// Whether a row of at most seven fields is passed over: its fields are empty, or the first one
/// begins with `#`.
#[tactic(auto, unfolding(crate::specs::Fields::is_passed_over))]
pub fn is_passed_over(row: &ByteRecord) -> bool
    ensures { result ≡ is_passed_over (fields_of row.now) }
{
    if are_empty(row, &[0, 1, 2, 3, 4, 5, 6]) {
        return true;
    }
    field(row, 0).starts_with(b"#")
}

/// The name in a field, or the cause for one that is malformed.
pub fn name_in<Cause: Drop>(row: &ByteRecord, index: usize, bad: Cause) -> Result<Name, Cause>
    ensures { Checked ((is_name (field (fields_of row.now) index), bad) ∷ [])
        (λ name. name ≡ field (fields_of row.now) index) result }
{
    Name::undotted(field(row, index)).ok_or(bad)
}

/// The number in a field, or the cause for one that is no number text.
#[tactic(auto, unfolding(crate::specs::Fields::is_number, crate::specs::Fields::number))]
pub fn number_in<Cause: Drop>(row: &ByteRecord, index: usize, bad: Cause) -> Result<i64, Cause>
    ensures { Checked ((is_number (fields_of row.now) index, bad) ∷ [])
        (λ n. n ≡ number (fields_of row.now) index) result }
{
    number_of(field(row, index)).ok_or(bad)
}

/// The number in a field, or the cause for one that is neither empty nor a number text; there is
/// none where the field is empty.
#[tactic(auto, unfolding(crate::specs::Fields::is_number_or_empty, crate::specs::Fields::optional_number))]
pub fn optional_number_in<Cause: Drop>(
    row: &ByteRecord,
    index: usize,
    bad: Cause,
) -> Result<Option<i64>, Cause>
    ensures { Checked ((is_number_or_empty (fields_of row.now) index, bad) ∷ [])
        (λ n. n ≡ optional_number (fields_of row.now) index) result }
{
    if field(row, index).is_empty() {
        return Ok(None);
    }
    Ok(Some(number_in(row, index, bad)?))
}
