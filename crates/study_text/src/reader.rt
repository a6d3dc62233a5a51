//! Reading a study file.

ghost use Rattle.std.specs.Prelude.{◌≡◌, ◌≤◌, length, IfOk, IsSome, OnErr, OnOk, option_to_list, ◌++◌};
ghost use Rattle.csv.specs.Records.{fields_of};
ghost use Rattle.rows.specs.Rows.{rows_of};
ghost use Rattle.first_fault.specs.Checks.{Checked};
ghost use Rattle.stream_case.specs.Case.{IsComplete};
ghost use Rattle.study_text.specs.Study.{IsStudy};
ghost use Rattle.study_text.specs.Checks.{checks};
ghost use Rattle.study_text.specs.Given.{study_of};
ghost use Rattle.study_text.specs.Outcome.{IsStudyOutcome, grammar};
ghost use Rattle.study_text.specs.Rows.{entries_in, entry_in};

use crate::entry::Entry;
use crate::fault::{StudyFault, StudyWhy};
use crate::given::Given;
use crate::kind::{Kind, kind_of};
use crate::row::{price_entry, scenario_entry, span_entry};
use crate::study::Study;
use csv::ByteRecord;
use rows::{Collector, Rows, read_rows};
use std::alloc::{AllocError, Global};
use stream_case::Case;

/// What a row says, none where it is passed over, or the first of its checks that fails.
#[tactic(auto, unfolding(crate::specs::Checks::checks, crate::specs::Checks::kind_checks))]
fn entry_of(case: &Case, earlier: &Given, row: &ByteRecord) -> Result<Option<Entry>, StudyWhy>
    requires { IsComplete case.now }
    ensures { Checked (checks case.now earlier.now (fields_of row.now)) (λ e.
        e ≡ entry_in case.now (fields_of row.now)) result }
{
    if row.len() != 4 {
        return Err(StudyWhy::FieldCount);
    }
    match kind_of(row) {
        None => Err(StudyWhy::UnknownKind),
        Some(Kind::PassedOver) => Ok(None),
        Some(Kind::Scenario) => Ok(Some(scenario_entry(earlier, row)?)),
        Some(Kind::Price) => Ok(Some(price_entry(case, earlier, row)?)),
        Some(Kind::Span) => Ok(Some(span_entry(case, earlier, row)?)),
    }
}

/// Takes what a row says, if it says something. A row that says nothing takes no memory.
fn take(given: &mut Given, entry: Option<Entry>) -> Result<(), AllocError>
    ensures added { OnOk result (given.new ≡ given.old ++ option_to_list entry) }
    ensures memory { OnErr result (IsSome entry) }
{
    match entry {
        Some(entry) => given.push(entry),
        None => Ok(()),
    }
}

/// What the rows of a study file for a case say.
#[derive(Drop)]
struct Collected<'a> {
    case: &'a Case,
    given: Given,
}

impl Collector for Collected<'_> {
    type Why = StudyWhy;

    type Given = Given;

    type Value = Study;

    ghost is_sound = { λ collected. IsComplete collected.case.now };

    ghost grammar = { λ collected. grammar collected.case.now };

    ghost given = { λ collected. collected.given };

    fn take_row(&mut self, row: &ByteRecord) -> Result<Option<StudyWhy>, AllocError> {
        match entry_of(self.case, &self.given, row) {
            Ok(entry) => take(&mut self.given, entry)?,
            Err(why) => return Ok(Some(why)),
        }
        Ok(None)
    }
}

/// The study of rows, or the first row at fault with its cause.
fn study_of(alloc: Global, case: &Case, rows: &mut Rows<'_>) -> Result<Study, StudyFault>
    requires complete { IsComplete case.now }
    requires few { length rows.old ≤ 2000000000 }
    ensures { IsStudyOutcome case.now rows.old result }
{
    let given = Given::new(alloc);
    let mut collected = Collected { case, given };
    let number = read_rows(alloc, rows, &mut collected)?;
    match collected.given.missing() {
        None => Ok(collected.given.study(alloc, case)?),
        Some(why) => Err(StudyFault::Row {
            row: number + 1,
            why,
        }),
    }
}

/// Reads a study file for a completed case: the study of the grammar, or the first row at fault
/// with its cause. The study has an item for each row of a scenario or a span, in their order; a
/// scenario has the prices of the case, of one W each, but for those of the rows down to the next
/// scenario. What it answers may be asked of `price_study`.
#[tactic(auto, using(crate::proofs::Accepted::outcome_is_said, crate::proofs::Accepted::outcome_is_study))]
pub fn read_study(alloc: Global, case: &Case, bytes: &[u8]) -> Result<Study, StudyFault>
    requires complete { IsComplete case.now }
    requires few { length bytes.now ≤ 2000000000 }
    ensures outcome { IsStudyOutcome case.now (rows_of bytes.now) result }
    ensures said { IfOk result (λ study.
        study ≡ study_of case.now (entries_in case.now (rows_of bytes.now))) }
    ensures study { IfOk result (IsStudy case.now) }
{
    let mut rows = Rows::new(alloc, bytes);
    study_of(alloc, case, &mut rows)
}
