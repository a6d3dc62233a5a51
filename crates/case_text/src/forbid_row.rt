//! The row of a forbidden match.

ghost use Rattle.std.specs.Prelude.{◌≡◌};
ghost use Rattle.csv.specs.Records.{fields_of};
ghost use Rattle.first_fault.specs.Checks.{Checked};
ghost use Rattle.case_text.specs.Given.{forbid_in};
ghost use Rattle.case_text.specs.Checks.{forbid_checks};

use crate::entry::Entry;
use crate::fault::CaseWhy;
use crate::given::Given;
use csv::ByteRecord;
use rows::{are_empty, name_in};
use stream_case::{Forbid, MOST_FORBIDS, Side};

/// What a row of that kind gives.
#[tactic(auto, unfolding(crate::specs::Checks::forbid_checks))]
pub fn forbid_entry(given: &Given, row: &ByteRecord) -> Result<Entry, CaseWhy>
    ensures { Checked (forbid_checks given.now.rows (fields_of row.now))
        (λ e. e ≡ Entry.Forbid (forbid_in given.now.rows (fields_of row.now))) result }
{
    if !are_empty(row, &[3, 4, 5, 6]) {
        return Err(CaseWhy::FieldCount);
    }
    if given.count_forbids() >= MOST_FORBIDS {
        return Err(CaseWhy::TooMany);
    }
    let hot = name_in(row, 1, CaseWhy::BadName)?;
    let cold = name_in(row, 2, CaseWhy::BadName)?;
    let forbid = Forbid {
        hot: given.source(Side::Hot, &hot)?,
        cold: given.source(Side::Cold, &cold)?,
    };
    if given.is_forbidden(forbid) {
        return Err(CaseWhy::Repeated);
    }
    Ok(Entry::Forbid(forbid))
}
