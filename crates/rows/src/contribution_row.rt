//! The row of the contribution.

ghost use Rattle.std.specs.Prelude.{◌≡◌};
ghost use Rattle.csv.specs.Records.{fields_of};
ghost use Rattle.first_fault.specs.Checks.{Checked};
ghost use Rattle.rows.specs.ContributionRow.{contribution_checks};
ghost use Rattle.rows.specs.Fields.{number};

use crate::fields::{are_empty, number_in};
use crate::numbers::contribution;
use csv::ByteRecord;

/// What a grammar names as the causes of a row of the contribution that is at fault.
#[derive(Clone, Copy)]
pub struct ContributionCauses<Cause> {
    /// A field that is to be empty is not.
    pub field_count: Cause,
    /// An earlier row gave a contribution.
    pub repeated: Cause,
    /// The number is no number text.
    pub bad_number: Cause,
    /// The number is outside the limits of a contribution.
    pub out_of_range: Cause,
}

/// The contribution that a row of that kind gives, in tenths of °C, or the cause of the first of
/// its checks that fails. `is_given` says whether an earlier row gave one.
#[tactic(auto, unfolding(crate::specs::ContributionRow::contribution_checks))]
pub fn contribution_in<Cause: Copy>(
    row: &ByteRecord,
    is_given: bool,
    causes: ContributionCauses<Cause>,
) -> Result<i32, Cause>
    ensures { Checked (contribution_checks causes is_given (fields_of row.now))
        (λ c. c ≡ number (fields_of row.now) 2) result }
{
    if !are_empty(row, &[1, 3, 4, 5, 6]) {
        return Err(causes.field_count);
    }
    if is_given {
        return Err(causes.repeated);
    }
    let number = number_in(row, 2, causes.bad_number)?;
    contribution(number, causes.out_of_range)
}
