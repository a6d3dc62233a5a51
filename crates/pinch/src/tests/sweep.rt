//! Sweeps of cases that were worked by hand, by one worker and by several.

use super::support::{
    FOUR_STREAM, OWN_CONTRIBUTION, WORDS, check_count, check_end, check_front, line_count,
    outcome_by, outcome_of,
};
use meeting_gate::{MOST_TURNS, MeetingGate};
use std::process::Abort;
use std::test::Fail;
use std::thread::Threads;
use study::OpenGate;

const FOUR_STREAM_ROWS: &str = "row 0 0 40000 0
row 10 0 40000 0
row 20 0 40000 0
row 30 2000 42000 2000
row 40 11000 51000 11000
row 50 20000 60000 20000
row 60 29000 69000 29000
row 70 38000 78000 38000
row 80 47000 87000 47000
row 90 56000 96000 56000
row 100 65000 105000 65000
";

/// From where, how far and by which step a sweep goes, and how many workers it has.
type Numbers<'a> = (&'a str, &'a str, &'a str, &'a str);

/// A sweep with these numbers ends with this status and this text.
fn check_sweep<R: Abort + Threads + Sync + AllocGlobal>(
    rt: &R,
    case: &str,
    (from, to, step, workers): Numbers<'_>,
    status: u8,
    text: &str,
) -> Result<(), Fail> {
    let words = ["sweep", "plant.csv", from, to, step, workers];
    let files = [("plant.csv", case.as_bytes())];
    let outcome = outcome_of(rt, &words, &files)?;
    check_end(rt, &(words, case), &outcome, status, text.as_bytes());
    Ok(())
}

#[test]
fn any_workers_print_the_same_rows(rt: HostRuntime) -> Result<(), Fail> {
    // Eleven rows: the last workers have none. Zeros may lead.
    for workers in ["1", "4", "16", "0000000003"] {
        let numbers = ("0", "100", "10", workers);
        check_sweep(&rt, FOUR_STREAM, numbers, 0, FOUR_STREAM_ROWS)?;
    }
    Ok(())
}

#[test]
fn an_open_gate_changes_no_row(rt: HostRuntime) -> Result<(), Fail> {
    let files = [("plant.csv", FOUR_STREAM.as_bytes())];
    for workers in ["1", "4"] {
        let words = ["sweep", "plant.csv", "0", "100", "10", workers];
        let outcome = outcome_by(&rt, &OpenGate, &words, &files)?;
        check_end(&rt, &words, &outcome, 0, FOUR_STREAM_ROWS.as_bytes());
    }
    Ok(())
}

/// Cases, the numbers of a sweep, and its rows.
const PLANS: &[(&str, Numbers<'static>, &str)] = &[
    // The step does not divide: the last row is below the end.
    (
        FOUR_STREAM,
        ("40", "69", "10", "4"),
        "row 40 11000 51000 11000\nrow 50 20000 60000 20000\nrow 60 29000 69000 29000\n",
    ),
    // One row, and more workers than rows.
    (
        FOUR_STREAM,
        ("50", "50", "1", "16"),
        "row 50 20000 60000 20000\n",
    ),
    (
        FOUR_STREAM,
        ("0", "1000", "1000", "2"),
        "row 0 0 40000 0\nrow 1000 470000 510000 470000\n",
    ),
    // A row has one contribution for all sources.
    (
        OWN_CONTRIBUTION,
        ("50", "100", "50", "2"),
        "row 50 2000 2000 2000\nrow 100 3000 3000 3000\n",
    ),
];

#[test]
fn a_sweep_has_the_rows_of_its_plan(rt: HostRuntime) -> Result<(), Fail> {
    for (case, numbers, text) in PLANS {
        check_sweep(&rt, case, *numbers, 0, text)?;
    }
    Ok(())
}

#[test]
fn a_row_without_a_heat_flow_is_infeasible(rt: HostRuntime) -> Result<(), Fail> {
    let case = "contribution,,50,,,,\nhot,H,1000,500,10,,\ncold,C,300,400,10,,\n\
                cooler,CW,200,0,1000,0,\n";
    let text = "row 50 0 4000 infeasible\n";
    check_sweep(&rt, case, ("50", "50", "1", "1"), 0, text)
}

#[test]
fn the_most_rows_are_printed(rt: HostRuntime) -> Result<(), Fail> {
    let words = ["sweep", "plant.csv", "0", "999", "1", "16"];
    let files = [("plant.csv", FOUR_STREAM.as_bytes())];
    let outcome = outcome_of(&rt, &words, &files)?;
    check_front(&rt, &words, &outcome, 0, "row 0 0 40000 0\n");
    check_count(&rt, &words, line_count(&outcome.written), 1000);
    Ok(())
}

/// Numbers that no sweep has.
const NO_NUMBERS: &[Numbers<'static>] = &[
    // 1001 rows, and too many workers or none.
    ("0", "1000", "1", "4"),
    ("0", "100", "10", "17"),
    ("0", "100", "10", "0"),
    // The end is below the start, or above the greatest contribution.
    ("51", "50", "1", "1"),
    ("0", "1001", "10", "1"),
    ("1001", "1001", "1", "1"),
    // The step is 0 or too long.
    ("0", "100", "0", "1"),
    ("0", "1000", "1001", "1"),
    // A sign, a blank, no digit, eleven digits, and a number beyond 32 bits.
    ("-1", "100", "10", "1"),
    ("0", "+100", "10", "1"),
    ("0", "100", " 10", "1"),
    ("0", "100", "10", ""),
    ("00000000000", "100", "10", "1"),
    ("0", "100", "10", "4294967297"),
];

#[test]
fn numbers_that_a_sweep_cannot_have_are_no_command(rt: HostRuntime) -> Result<(), Fail> {
    for numbers in NO_NUMBERS {
        check_sweep(&rt, FOUR_STREAM, *numbers, 2, WORDS)?;
    }
    Ok(())
}

/// Words of no sweep.
const NO_SWEEPS: &[&[&str]] = &[
    &["sweep", "plant.csv", "0", "100", "10"],
    &["sweep", "plant.csv", "0", "100", "10", "1", "1"],
    &["sweep", "", "0", "100", "10", "1"],
    &["sweep", "plant.csv"],
];

#[test]
fn other_words_are_no_sweep(rt: HostRuntime) -> Result<(), Fail> {
    let files = [("plant.csv", FOUR_STREAM.as_bytes())];
    for row in NO_SWEEPS {
        let outcome = outcome_of(&rt, row, &files)?;
        check_end(&rt, &row, &outcome, 2, WORDS.as_bytes());
        check_count(&rt, &row, outcome.calls, 0);
    }
    Ok(())
}

#[test]
fn a_case_that_is_refused_has_no_rows(rt: HostRuntime) -> Result<(), Fail> {
    let text = "case row 1 NoContribution\n";
    check_sweep(&rt, "", ("0", "100", "10", "4"), 3, text)
}

#[test]
fn two_rows_meet(rt: HostRuntime) -> Result<(), Fail> {
    let words = ["sweep", "plant.csv", "0", "10", "10", "2"];
    let files = [("plant.csv", FOUR_STREAM.as_bytes())];
    let text = "row 0 0 40000 0\nrow 10 0 40000 0\n";
    let gate = MeetingGate::new(MOST_TURNS);
    let outcome = outcome_by(&rt, &gate, &words, &files)?;
    check_end(&rt, &words, &outcome, 0, text.as_bytes());
    assert_eq!(rt; gate.counts(), [1, 1, 1, 1, 0]);
    let outcome = outcome_by(&rt, &OpenGate, &words, &files)?;
    check_end(&rt, &words, &outcome, 0, text.as_bytes());
    Ok(())
}
