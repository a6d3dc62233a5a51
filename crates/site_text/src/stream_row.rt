//! The row of a stream.

ghost use Rattle.std.specs.Prelude.{◌≡◌, IfOk};
ghost use Rattle.csv.specs.Records.{fields_of};
ghost use Rattle.first_fault.specs.Checks.{Checked};
ghost use Rattle.rows.specs.Fields.{field};
ghost use Rattle.site_text.specs.Additions.{IsFresh};
ghost use Rattle.site_text.specs.Checks.{is_reserved, stream_checks, stream_number_checks};
ghost use Rattle.site_text.specs.Given.{stream_in};

use crate::entry::Entry;
use crate::fault::SiteWhy;
use crate::given::Given;
use crate::limits::MOST_SIDE_STREAMS;
use csv::ByteRecord;
use rows::{are_empty, flow_rate, name_in, number_in, temperature};
use stream_case::{Name, Side, Stream};

/// Whether no stream may have this name.
#[tactic(auto, unfolding(crate::specs::Checks::is_reserved))]
fn is_reserved(name: &[u8]) -> bool
    ensures { result ≡ is_reserved name.now }
{
    name == b"BOILER".as_slice() || name == b"COOLING".as_slice()
}

/// The stream of this name that the numbers of a row describe.
#[tactic(auto, unfolding(crate::specs::Checks::stream_number_checks))]
fn stream_of(name: Name, side: Side, row: &ByteRecord) -> Result<Stream, SiteWhy>
    requires { name ≡ field (fields_of row.now) 1 }
    ensures { Checked (stream_number_checks side (fields_of row.now))
        (λ s. s ≡ stream_in side (fields_of row.now)) result }
{
    let supply = number_in(row, 2, SiteWhy::BadNumber)?;
    let target = number_in(row, 3, SiteWhy::BadNumber)?;
    let cp = number_in(row, 4, SiteWhy::BadNumber)?;
    let supply = temperature(supply, SiteWhy::OutOfRange)?;
    let target = temperature(target, SiteWhy::OutOfRange)?;
    let cp = flow_rate(cp, SiteWhy::OutOfRange)?;
    if !side.is_right_way(supply, target) {
        return Err(SiteWhy::WrongWay);
    }
    Ok(Stream::sensible(name, side, supply, target, cp, 0))
}

/// What a row of that kind gives.
#[tactic(auto, unfolding(crate::specs::Checks::stream_checks))]
pub fn stream_entry(given: &Given, side: Side, row: &ByteRecord) -> Result<Entry, SiteWhy>
    ensures fresh { IfOk result (IsFresh given.now) }
    ensures checked { Checked (stream_checks side given.now (fields_of row.now))
        (λ e. e ≡ Entry.Stream (stream_in side (fields_of row.now))) result }
{
    if !are_empty(row, &[5, 6]) {
        return Err(SiteWhy::FieldCount);
    }
    if given.count_streams(side) >= MOST_SIDE_STREAMS {
        return Err(SiteWhy::TooMany);
    }
    if !given.has_plants() {
        return Err(SiteWhy::NoPlant);
    }
    let name = name_in(row, 1, SiteWhy::BadName)?;
    if is_reserved(name.as_bytes()) {
        return Err(SiteWhy::BadName);
    }
    if given.has_stream(&name) {
        return Err(SiteWhy::SameName);
    }
    Ok(Entry::Stream(stream_of(name, side, row)?))
}
