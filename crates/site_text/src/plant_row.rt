//! The row of a plant.

ghost use Rattle.std.specs.Prelude.{◌≡◌};
ghost use Rattle.csv.specs.Records.{fields_of};
ghost use Rattle.first_fault.specs.Checks.{Checked};
ghost use Rattle.rows.specs.Fields.{field};
ghost use Rattle.site_text.specs.Checks.{plant_checks};

use crate::entry::Entry;
use crate::fault::SiteWhy;
use crate::given::Given;
use crate::limits::MOST_PLANTS;
use csv::ByteRecord;
use rows::{are_empty, name_in};

/// What a row of that kind gives.
#[tactic(auto, unfolding(crate::specs::Checks::plant_checks))]
pub fn plant_entry(given: &Given, row: &ByteRecord) -> Result<Entry, SiteWhy>
    ensures { Checked (plant_checks given.now (fields_of row.now))
        (λ e. e ≡ Entry.Plant (field (fields_of row.now) 1)) result }
{
    if !are_empty(row, &[2, 3, 4, 5, 6]) {
        return Err(SiteWhy::FieldCount);
    }
    if given.count_plants() >= MOST_PLANTS {
        return Err(SiteWhy::TooMany);
    }
    let name = name_in(row, 1, SiteWhy::BadName)?;
    if given.has_plant(&name) {
        return Err(SiteWhy::SameName);
    }
    Ok(Entry::Plant(name))
}
