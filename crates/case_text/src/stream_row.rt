//! The row of a stream.

ghost use Rattle.std.specs.Prelude.{◌≡◌, IfOk};
ghost use Rattle.csv.specs.Records.{fields_of};
ghost use Rattle.first_fault.specs.Checks.{Checked};
ghost use Rattle.rows.specs.Fields.{field};
ghost use Rattle.case_text.specs.Given.{stream_data};
ghost use Rattle.case_text.specs.Checks.{heat_checks, is_reserved, stream_checks, stream_number_checks};
ghost use Rattle.case_text.specs.Additions.{IsFresh};

use crate::entry::{Entry, StreamData};
use crate::fault::CaseWhy;
use crate::given::Given;
use csv::ByteRecord;
use rows::{
    flow_rate_beside, name_in, number_in, optional_number_in, own_contribution, own_load,
    temperature,
};
use stream_case::{MOST_STREAMS, Side};

/// Whether no stream may have this name.
#[tactic(auto, unfolding(crate::specs::Checks::is_reserved))]
fn is_reserved(name: &[u8]) -> bool
    ensures { result ≡ is_reserved name.now }
{
    name == b"HOT".as_slice() || name == b"COLD".as_slice()
}

/// Whether a stream that gives a load is latent otherwise too, and one that gives none sensible;
/// or the cause where it is not.
#[tactic(auto, unfolding(crate::specs::Checks::heat_checks))]
fn check_heat(stream: &StreamData) -> Result<(), CaseWhy>
    ensures { Checked (heat_checks stream.now) (λ _. Unit {0}) result }
{
    let is_level = stream.supply == stream.target;
    if stream.load.is_some() {
        return if is_level && stream.cp == 0 {
            Ok(())
        } else {
            Err(CaseWhy::NotLatent)
        };
    }
    if is_level {
        return Err(CaseWhy::NoLoad);
    }
    if !stream.side.is_right_way(stream.supply, stream.target) {
        return Err(CaseWhy::WrongWay);
    }
    Ok(())
}

/// What the numbers of a stream's row say.
#[tactic(auto, unfolding(crate::specs::Checks::stream_number_checks))]
fn stream_data(side: Side, row: &ByteRecord) -> Result<StreamData, CaseWhy>
    ensures { Checked (stream_number_checks side (fields_of row.now))
        (λ s. s ≡ stream_data side (fields_of row.now)) result }
{
    let supply = number_in(row, 2, CaseWhy::BadNumber)?;
    let target = number_in(row, 3, CaseWhy::BadNumber)?;
    let cp = number_in(row, 4, CaseWhy::BadNumber)?;
    let load = optional_number_in(row, 5, CaseWhy::BadNumber)?;
    let own = optional_number_in(row, 6, CaseWhy::BadNumber)?;
    let supply = temperature(supply, CaseWhy::OutOfRange)?;
    let target = temperature(target, CaseWhy::OutOfRange)?;
    let cp = flow_rate_beside(load, cp, CaseWhy::OutOfRange)?;
    let load = own_load(load, CaseWhy::OutOfRange)?;
    let contribution = own_contribution(own, CaseWhy::OutOfRange)?;
    let stream = StreamData {
        side,
        supply,
        target,
        cp,
        load,
        contribution,
    };
    check_heat(&stream)?;
    Ok(stream)
}

/// What a row of that kind gives.
#[tactic(auto, unfolding(crate::specs::Checks::stream_checks))]
pub fn stream_entry(given: &Given, side: Side, row: &ByteRecord) -> Result<Entry, CaseWhy>
    ensures fresh { IfOk result (IsFresh given.now.rows) }
    ensures checked { Checked (stream_checks side given.now.rows (fields_of row.now))
        (λ e. e ≡ Entry.Stream (field (fields_of row.now) 1)
        (stream_data side (fields_of row.now))) result }
{
    if given.count_streams(side) >= MOST_STREAMS {
        return Err(CaseWhy::TooMany);
    }
    let name = name_in(row, 1, CaseWhy::BadName)?;
    if is_reserved(name.as_bytes()) {
        return Err(CaseWhy::BadName);
    }
    if given.has_name(&name) {
        return Err(CaseWhy::SameName);
    }
    Ok(Entry::Stream(name, stream_data(side, row)?))
}
