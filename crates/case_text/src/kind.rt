//! The kinds of rows.

ghost use Rattle.std.specs.Prelude.{◌≡◌};
ghost use Rattle.csv.specs.Records.{fields_of};
ghost use Rattle.case_text.specs.Rows.{kind_in, kind_of};

use csv::ByteRecord;
use rows::{field, is_passed_over};
use stream_case::Side;

/// What a row describes.
#[derive(Clone, Copy)]
pub enum Kind {
    /// The row counts, but says nothing.
    PassedOver,
    Contribution,
    Stream(Side),
    Utility(Side),
    Forbid,
}

/// The kind that a text names.
fn kind_in(text: &[u8]) -> Option<Kind>
    ensures { result ≡ kind_in text.now }
{
    if text == b"contribution".as_slice() {
        Some(Kind::Contribution)
    } else if text == b"hot".as_slice() {
        Some(Kind::Stream(Side::Hot))
    } else if text == b"cold".as_slice() {
        Some(Kind::Stream(Side::Cold))
    } else if text == b"heater".as_slice() {
        Some(Kind::Utility(Side::Hot))
    } else if text == b"cooler".as_slice() {
        Some(Kind::Utility(Side::Cold))
    } else if text == b"forbid".as_slice() {
        Some(Kind::Forbid)
    } else {
        None
    }
}

/// The kind of a row of seven fields, if it is of one.
#[tactic(auto, unfolding(crate::specs::Rows::kind_of))]
pub fn kind_of(row: &ByteRecord) -> Option<Kind>
    ensures { result ≡ kind_of (fields_of row.now) }
{
    if is_passed_over(row) {
        return Some(Kind::PassedOver);
    }
    kind_in(field(row, 0))
}
