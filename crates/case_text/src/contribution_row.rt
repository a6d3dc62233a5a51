//! The row of the contribution.

ghost use Rattle.std.specs.Prelude.{◌≡◌};
ghost use Rattle.csv.specs.Records.{fields_of};
ghost use Rattle.first_fault.specs.Checks.{Checked};
ghost use Rattle.rows.specs.Fields.{number};
ghost use Rattle.case_text.specs.Checks.{contribution_checks};

use crate::entry::Entry;
use crate::fault::CaseWhy;
use crate::given::Given;
use csv::ByteRecord;
use rows::{ContributionCauses, contribution_in};

/// What a row of that kind gives.
pub fn contribution_entry(given: &Given, row: &ByteRecord) -> Result<Entry, CaseWhy>
    ensures { Checked (contribution_checks given.now.rows (fields_of row.now))
        (λ e. e ≡ Entry.Contribution (number (fields_of row.now) 2)) result }
{
    let causes = ContributionCauses {
        field_count: CaseWhy::FieldCount,
        repeated: CaseWhy::Repeated,
        bad_number: CaseWhy::BadNumber,
        out_of_range: CaseWhy::OutOfRange,
    };
    let contribution = contribution_in(row, given.has_contribution(), causes)?;
    Ok(Entry::Contribution(contribution))
}
