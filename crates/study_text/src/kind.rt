//! The kinds of rows of a study file.

ghost use Rattle.std.specs.Prelude.{◌≡◌};
ghost use Rattle.csv.specs.Records.{fields_of};
ghost use Rattle.study_text.specs.Rows.{kind_in, kind_of};

use csv::ByteRecord;
use rows::{field, is_passed_over};

/// What a row describes.
#[derive(Clone, Copy)]
pub(crate) enum Kind {
    /// The row counts, but says nothing.
    PassedOver,
    Scenario,
    Price,
    Span,
}

/// The kind that a text names.
fn kind_in(text: &[u8]) -> Option<Kind>
    ensures { result ≡ kind_in text.now }
{
    if text == b"scenario".as_slice() {
        Some(Kind::Scenario)
    } else if text == b"price".as_slice() {
        Some(Kind::Price)
    } else if text == b"span".as_slice() {
        Some(Kind::Span)
    } else {
        None
    }
}

/// The kind of a row of four fields, if it is of one.
#[tactic(auto, unfolding(crate::specs::Rows::kind_of))]
pub(crate) fn kind_of(row: &ByteRecord) -> Option<Kind>
    ensures { result ≡ kind_of (fields_of row.now) }
{
    if is_passed_over(row) {
        return Some(Kind::PassedOver);
    }
    kind_in(field(row, 0))
}
