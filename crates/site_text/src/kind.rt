//! The kinds of rows.

ghost use Rattle.std.specs.Prelude.{◌≡◌};
ghost use Rattle.csv.specs.Records.{fields_of};
ghost use Rattle.site_text.specs.Given.{kind_in, kind_of};

use csv::ByteRecord;
use rows::{field, is_passed_over};
use stream_case::Side;

/// What a row describes.
#[derive(Clone, Copy)]
pub enum Kind {
    /// The row counts, but says nothing.
    PassedOver,
    Contribution,
    Plant,
    Main,
    Stream(Side),
}

/// The kind that a text names.
fn kind_in(text: &[u8]) -> Option<Kind>
    ensures { result ≡ kind_in text.now }
{
    if text == b"contribution".as_slice() {
        Some(Kind::Contribution)
    } else if text == b"plant".as_slice() {
        Some(Kind::Plant)
    } else if text == b"main".as_slice() {
        Some(Kind::Main)
    } else if text == b"hot".as_slice() {
        Some(Kind::Stream(Side::Hot))
    } else if text == b"cold".as_slice() {
        Some(Kind::Stream(Side::Cold))
    } else {
        None
    }
}

/// The kind of a row of seven fields, if it is of one.
#[tactic(auto, unfolding(crate::specs::Given::kind_of))]
pub fn kind_of(row: &ByteRecord) -> Option<Kind>
    ensures { result ≡ kind_of (fields_of row.now) }
{
    if is_passed_over(row) {
        return Some(Kind::PassedOver);
    }
    kind_in(field(row, 0))
}
