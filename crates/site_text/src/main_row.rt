//! The row of a main.

ghost use Rattle.std.specs.Prelude.{◌≡◌};
ghost use Rattle.csv.specs.Records.{fields_of};
ghost use Rattle.first_fault.specs.Checks.{Checked};
ghost use Rattle.site_text.specs.Checks.{main_checks};
ghost use Rattle.site_text.specs.Given.{main_in};

use crate::entry::Entry;
use crate::fault::SiteWhy;
use crate::given::Given;
use crate::site::Main;
use csv::ByteRecord;
use rows::{are_empty, name_in, number_in, temperature};
use stream_case::MOST_MAINS;

/// What a row of that kind gives.
#[tactic(auto, unfolding(crate::specs::Checks::main_checks))]
pub fn main_entry(given: &Given, row: &ByteRecord) -> Result<Entry, SiteWhy>
    ensures { Checked (main_checks given.now (fields_of row.now))
        (λ e. e ≡ Entry.Main (main_in (fields_of row.now))) result }
{
    if !are_empty(row, &[3, 4, 5, 6]) {
        return Err(SiteWhy::FieldCount);
    }
    if given.count_mains() >= MOST_MAINS {
        return Err(SiteWhy::TooMany);
    }
    let name = name_in(row, 1, SiteWhy::BadName)?;
    if given.has_main(&name) {
        return Err(SiteWhy::SameName);
    }
    let level = number_in(row, 2, SiteWhy::BadNumber)?;
    let level = temperature(level, SiteWhy::OutOfRange)?;
    Ok(Entry::Main(Main { name, level }))
}
