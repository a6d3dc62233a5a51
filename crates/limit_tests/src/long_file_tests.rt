//! Files as long as they may be: of the shortest rows that are passed over, and of one row.
ghost use Rattle.stream_case.specs.Case.{IsComplete};

use crate::compare::assert_same;
use case_text::{CaseFault, CaseWhy, read_case};
use std::alloc::AllocGlobal;
use std::process::Abort;
use std::test::Fail;
use stream_case::Case;
use study_text::{StudyFault, read_study};
use worked_tables::{FOUR_STREAMS, completed_case, repeated};

/// The most bytes of a file.
const LONGEST: usize = 8_388_608;

/// How many rows of seven bytes may stand behind the case, and of four behind the study.
const CASE_ROWS: u32 = 1_198_363;

const STUDY_ROWS: u32 = 2_097_148;

const CASE: &[u8] = b"contribution,,50,,,,\nhot,H,1000,500,10,,\ncold,C,300,700,10,,\n";

const STUDY: &[u8] = b"scenario,S,,\n";

fn read(rt: &(impl Abort + AllocGlobal), text: &[u8]) -> Result<Case, CaseFault> {
    assert!(rt; text.len() <= LONGEST);
    read_case(rt.alloc(), text)
}

#[test]
fn a_case_among_a_million_rows_is_read(rt: HostRuntime) -> Result<(), Fail> {
    let text = repeated(rt.alloc(), CASE, b",,,,,,\n", CASE_ROWS, b"")?;
    let case = read(&rt, &text)?;
    assert_same(&rt, "the streams", &case.streams.len(), &2);
    Ok(())
}

#[test]
fn a_row_of_a_million_fields_is_refused(rt: HostRuntime) -> Result<(), Fail> {
    let text = repeated(rt.alloc(), b"", b",", 1_000_000, b"")?;
    let fault = read(&rt, &text).err();
    let why = CaseWhy::FieldCount;
    assert_same(&rt, "a row", &fault, &Some(CaseFault::Row { row: 1, why }));
    Ok(())
}

/// How many items the study that a text asks of a case has.
fn count_items(
    rt: &(impl Abort + AllocGlobal),
    case: &Case,
    text: &[u8],
) -> Result<usize, StudyFault>
    requires { IsComplete case.now }
{
    assert!(rt; text.len() <= LONGEST);
    Ok(read_study(rt.alloc(), case, text)?.items.len())
}

#[test]
fn a_study_among_two_million_rows_is_read(rt: HostRuntime) -> Result<(), Fail> {
    let case = completed_case(rt.alloc(), &FOUR_STREAMS)?;
    let text = repeated(rt.alloc(), STUDY, b",,,\n", STUDY_ROWS, b"")?;
    let count = count_items(&rt, &case, &text)?;
    assert_same(&rt, "the items", &count, &1);
    Ok(())
}
