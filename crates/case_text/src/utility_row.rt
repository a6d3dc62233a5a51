//! The row of a utility.

ghost use Rattle.std.specs.Prelude.{◌≡◌, IfOk};
ghost use Rattle.csv.specs.Records.{fields_of};
ghost use Rattle.first_fault.specs.Checks.{Checked};
ghost use Rattle.rows.specs.Fields.{field};
ghost use Rattle.case_text.specs.Given.{utility_data};
ghost use Rattle.case_text.specs.Checks.{is_reserved_from, utility_checks, utility_number_checks};
ghost use Rattle.case_text.specs.Additions.{IsFresh};

use crate::entry::{Entry, UtilityData};
use crate::fault::CaseWhy;
use crate::given::Given;
use csv::ByteRecord;
use rows::{heat, name_in, number_in, optional_number_in, own_contribution, price, temperature};
use stream_case::{MOST_UTILITIES, Side};

/// Whether no utility of this side may have this name.
#[tactic(auto, unfolding(crate::specs::Checks::is_reserved_from))]
fn is_reserved_from(side: Side, name: &[u8]) -> bool
    ensures { result ≡ is_reserved_from side name.now }
{
    match side {
        Side::Hot => name == b"COLD".as_slice(),
        Side::Cold => name == b"HOT".as_slice(),
    }
}

/// What the numbers of a utility's row say.
#[tactic(auto, unfolding(crate::specs::Checks::utility_number_checks))]
fn utility_data(side: Side, row: &ByteRecord) -> Result<UtilityData, CaseWhy>
    ensures { Checked (utility_number_checks (fields_of row.now))
        (λ u. u ≡ utility_data side (fields_of row.now)) result }
{
    let level = number_in(row, 2, CaseWhy::BadNumber)?;
    let least = number_in(row, 3, CaseWhy::BadNumber)?;
    let most = number_in(row, 4, CaseWhy::BadNumber)?;
    let each = number_in(row, 5, CaseWhy::BadNumber)?;
    let own = optional_number_in(row, 6, CaseWhy::BadNumber)?;
    let level = temperature(level, CaseWhy::OutOfRange)?;
    let least = heat(least, CaseWhy::OutOfRange)?;
    let most = heat(most, CaseWhy::OutOfRange)?;
    let price = price(each, CaseWhy::OutOfRange)?;
    let contribution = own_contribution(own, CaseWhy::OutOfRange)?;
    if least > most {
        return Err(CaseWhy::BadRange);
    }
    Ok(UtilityData {
        side,
        level,
        least,
        most,
        price,
        contribution,
    })
}

/// What a row of that kind gives.
#[tactic(auto, unfolding(crate::specs::Checks::utility_checks))]
pub fn utility_entry(given: &Given, side: Side, row: &ByteRecord) -> Result<Entry, CaseWhy>
    ensures fresh { IfOk result (IsFresh given.now.rows) }
    ensures checked { Checked (utility_checks side given.now.rows (fields_of row.now))
        (λ e. e ≡ Entry.Utility (field (fields_of row.now) 1)
        (utility_data side (fields_of row.now))) result }
{
    if given.count_utilities() >= MOST_UTILITIES {
        return Err(CaseWhy::TooMany);
    }
    let name = name_in(row, 1, CaseWhy::BadName)?;
    if is_reserved_from(side, name.as_bytes()) {
        return Err(CaseWhy::BadName);
    }
    if given.has_name(&name) {
        return Err(CaseWhy::SameName);
    }
    Ok(Entry::Utility(name, utility_data(side, row)?))
}
