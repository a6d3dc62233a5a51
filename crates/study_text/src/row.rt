//! The rows of each kind of a study file.

ghost use Rattle.std.specs.Prelude.{◌≡◌, [], ◌∷◌, ◌-ℤ◌, int_lt, not};
ghost use Rattle.csv.specs.Records.{fields_of};
ghost use Rattle.first_fault.specs.Checks.{Checked};
ghost use Rattle.rows.specs.Fields.{number};
ghost use Rattle.stream_case.specs.Case.{IsComplete, utility_named};
ghost use Rattle.stream_case.specs.Limits.{IsPrice};
ghost use Rattle.study_text.specs.Checks.{known_utility, price_checks, scenario_checks, span_checks, span_number_checks};
ghost use Rattle.study_text.specs.Rows.{price_in, scenario_in, span_in, utility_in};
ghost use Rattle.study_text.specs.declared.limits.TheConstants.{MOST_SPAN};

use crate::entry::Entry;
use crate::fault::StudyWhy;
use crate::given::Given;
use crate::limits::{MOST_ITEMS, MOST_SPAN};
use csv::ByteRecord;
use rows::{are_empty, field, name_in, number_in, price};
use stream_case::Case;

/// The index of the utility of the case with this name.
fn utility_named(case: &Case, name: &[u8]) -> Option<u32>
    requires { IsComplete case.now }
    ensures { result ≡ utility_named case.now name.now }
{
    Some(case.utility_named(name)? as u32)
}

/// The index of the utility of the case that a row names.
#[tactic(auto, unfolding(crate::specs::Rows::utility_in))]
fn utility_in(case: &Case, row: &ByteRecord) -> Result<u32, StudyWhy>
    requires { IsComplete case.now }
    ensures { Checked (known_utility case.now (fields_of row.now) ∷ []) (λ i.
        i ≡ utility_in case.now (fields_of row.now)) result }
{
    utility_named(case, field(row, 1)).ok_or(StudyWhy::UnknownName)
}

/// What a row says that begins a scenario.
#[tactic(auto, unfolding(crate::specs::Checks::scenario_checks))]
pub(crate) fn scenario_entry(earlier: &Given, row: &ByteRecord) -> Result<Entry, StudyWhy>
    ensures { Checked (scenario_checks earlier.now (fields_of row.now)) (λ e.
        e ≡ scenario_in (fields_of row.now)) result }
{
    if !are_empty(row, &[2, 3]) {
        return Err(StudyWhy::FieldCount);
    }
    if earlier.count_items() >= MOST_ITEMS {
        return Err(StudyWhy::TooMany);
    }
    let name = name_in(row, 1, StudyWhy::BadName)?;
    if earlier.has_scenario_named(&name) {
        return Err(StudyWhy::SameName);
    }
    Ok(Entry::Scenario(name))
}

/// What a row says that gives the last scenario a price.
#[tactic(auto, unfolding(crate::specs::Checks::price_checks))]
pub(crate) fn price_entry(case: &Case, earlier: &Given, row: &ByteRecord) -> Result<Entry, StudyWhy>
    requires { IsComplete case.now }
    ensures { Checked (price_checks case.now earlier.now (fields_of row.now)) (λ e.
        e ≡ price_in case.now (fields_of row.now)) result }
{
    if !are_empty(row, &[3]) {
        return Err(StudyWhy::FieldCount);
    }
    if !earlier.has_scenario() {
        return Err(StudyWhy::NoScenario);
    }
    let utility = utility_in(case, row)?;
    if earlier.is_priced(utility) {
        return Err(StudyWhy::Repeated);
    }
    let price = price(
        number_in(row, 2, StudyWhy::BadNumber)?,
        StudyWhy::OutOfRange,
    )?;
    Ok(Entry::Price { utility, price })
}

/// Whether a span has too many prices.
fn is_too_wide(from: i64, to: i64) -> bool
    requires from { IsPrice from }
    requires to { IsPrice to }
    ensures { result ≡ not (int_lt (to -ℤ from) MOST_SPAN) }
{
    to - from >= MOST_SPAN
}

/// The first and the last price of the span that a row describes.
#[tactic(auto, unfolding(crate::specs::Checks::span_number_checks))]
fn span_prices(row: &ByteRecord) -> Result<(i64, i64), StudyWhy>
    ensures { Checked (span_number_checks (fields_of row.now)) (λ prices.
        prices ≡ (number (fields_of row.now) 2, number (fields_of row.now) 3)) result }
{
    let from = number_in(row, 2, StudyWhy::BadNumber)?;
    let to = number_in(row, 3, StudyWhy::BadNumber)?;
    let from = price(from, StudyWhy::OutOfRange)?;
    let to = price(to, StudyWhy::OutOfRange)?;
    if from > to {
        return Err(StudyWhy::BadRange);
    }
    if is_too_wide(from, to) {
        return Err(StudyWhy::TooWide);
    }
    Ok((from, to))
}

/// What a row says that asks for a span.
#[tactic(auto, unfolding(crate::specs::Checks::span_checks))]
pub(crate) fn span_entry(case: &Case, earlier: &Given, row: &ByteRecord) -> Result<Entry, StudyWhy>
    requires { IsComplete case.now }
    ensures { Checked (span_checks case.now earlier.now (fields_of row.now)) (λ e.
        e ≡ span_in case.now (fields_of row.now)) result }
{
    if earlier.count_items() >= MOST_ITEMS {
        return Err(StudyWhy::TooMany);
    }
    let utility = utility_in(case, row)?;
    let (from, to) = span_prices(row)?;
    Ok(Entry::Span { utility, from, to })
}
