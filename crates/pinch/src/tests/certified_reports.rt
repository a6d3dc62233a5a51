//! Reports that are certified, and that are not for the first sentence that fails.

use super::flow::FOUR_STREAM_FLOW;
use super::latent::{CONDENSING, CONDENSING_FLOW, EVAPORATING, EVAPORATING_FLOW};
use super::support::{FOUR_STREAM, Fails, NONE, answer_under, check_end};
use std::process::Abort;
use std::test::Fail;
use std::thread::Threads;

/// The check of a report of a case ends with this status and this text.
fn check_report<R: Abort + Threads + Sync + AllocGlobal>(
    rt: &R,
    case: &str,
    report: &str,
    status: u8,
    text: &str,
) -> Result<(), Fail> {
    let outcome = answer_under(rt, "certify", case, report.as_bytes(), NONE)?;
    check_end(rt, &report, &outcome, status, text.as_bytes());
    Ok(())
}

/// Cases, the exact heat flows that are printed of them, and the answers.
const EXACT: &[(&str, &str, &str)] = &[
    (FOUR_STREAM, FOUR_STREAM_FLOW, "yes cost 20000\n"),
    (EVAPORATING, EVAPORATING_FLOW, "yes cost 3000\n"),
    (CONDENSING, CONDENSING_FLOW, "yes cost 4000\n"),
];

#[test]
fn printed_heat_flows_are_certified(rt: HostRuntime) -> Result<(), Fail> {
    for (case, report, text) in EXACT {
        check_report(&rt, case, report, 0, text)?;
    }
    Ok(())
}

/// What is changed in the heat flow of the four-stream table, the status, and the text.
const CHANGED: &[(&str, &str, u8, &str)] = &[
    // The same in other words.
    (
        "cost 20000\n",
        "# by hand\n\n  cost\t 00020000 \r\n",
        0,
        "yes cost 20000\n",
    ),
    ("cost 20000", "cost 20001", 1, "no Cost\n"),
    (
        "take COLD 250 250 0",
        "take COLD 250 250 1",
        1,
        "no Support\n",
    ),
    // Two parts in the wrong order, and one part too few.
    (
        "give H2 1450 1400 1\ngive H4 1450 1400 1\n",
        "give H4 1450 1400 1\ngive H2 1450 1400 1\n",
        1,
        "no Parts\n",
    ),
    ("take COLD 250 250 0\n", "", 1, "no Parts\n"),
    (
        "move H4 550 250 COLD",
        "move H4 550 251 COLD",
        1,
        "no Moves\n",
    ),
    // One part gives too little, a move goes up, two moves are exchanged.
    ("COLD 250 250 45000", "COLD 250 250 44999", 1, "no Flow\n"),
    (
        "move H4 850 550 C1 550 250",
        "move H4 850 550 C1 1400 850",
        1,
        "no Flow\n",
    ),
    (
        "move H4 850 550 COLD 250 250 15000\nmove H4 550 250 COLD 250 250 45000\n",
        "move H4 550 250 COLD 250 250 45000\nmove H4 850 550 COLD 250 250 15000\n",
        1,
        "no Flow\n",
    ),
    ("use HOT 20000", "use HOT 19999", 1, "no Uses\n"),
    (
        "use HOT 20000\nuse COLD 60000\n",
        "use COLD 60000\nuse HOT 20000\n",
        1,
        "no Uses\n",
    ),
    (
        "take C3 1450 1400 1",
        "take C3 1450 1400 0",
        1,
        "no Value\n",
    ),
    // Two checks fail: the first of them in the order of the checks is told.
    (
        "cost 20000\nuse HOT 20000\n",
        "cost 20001\nuse HOT 19999\n",
        1,
        "no Cost\n",
    ),
    (
        "45000\ngive HOT 1650 1650 1\n",
        "44999\ngive HOT 1650 1651 1\n",
        1,
        "no Parts\n",
    ),
];

#[test]
fn a_changed_report_of_a_heat_flow(rt: HostRuntime) -> Result<(), Fail> {
    let alloc = rt.alloc();
    for (from, to, status, text) in CHANGED {
        let report = FOUR_STREAM_FLOW.replacen(alloc, *from, to, 1)?;
        check_report(&rt, FOUR_STREAM, report.as_str(), *status, text)?;
    }
    Ok(())
}

/// Steam that is too cold for the upper part of a stream.
const TOO_COLD: &str =
    "contribution,,50,,,,\ncold,C,200,500,10,,\nheater,ST,400,0,1000000000000,1,\n";

/// Reports of that case, the status, and the text.
const REPORTS: &[(&str, u8, &str)] = &[
    (
        "infeasible\ncut demand 2000 0\npart C 550 350\n",
        0,
        "yes infeasible\n",
    ),
    (
        "infeasible\ncut demand 2000 1\npart C 550 350\n",
        1,
        "no Cut\n",
    ),
    (
        "infeasible\ncut supply 2000 0\npart C 550 350\n",
        1,
        "no Parts\n",
    ),
    (
        "infeasible\ncut demand 1000 0\npart C 550 351\n",
        1,
        "no Parts\n",
    ),
    // Two parts in the wrong order, and no part.
    (
        "infeasible\ncut demand 3000 0\npart C 350 250\npart C 550 350\n",
        1,
        "no Cut\n",
    ),
    (
        "infeasible\ncut supply 1000000000000000 -1000000000000000",
        1,
        "no Cut\n",
    ),
    ("cost 0", 1, "no Parts\n"),
    // Numbers at both ends of their ranges.
    (
        "cost 100000000000000000000\nuse A -1000000000000000\n\
         move A 1000000 -1000000 B -1000000 1000000 1000000000000000\n\
         give A 000000000000000000000001000000 -1000000 1000000000000000\n\
         take A -1000000 1000000 -1000000000000000\n",
        1,
        "no Parts\n",
    ),
    ("cost -100000000000000000000\n", 1, "no Parts\n"),
];

#[test]
fn reports_of_a_case_without_a_heat_flow(rt: HostRuntime) -> Result<(), Fail> {
    for (report, status, text) in REPORTS {
        check_report(&rt, TOO_COLD, report, *status, text)?;
    }
    Ok(())
}

/// Reports, and how they are refused.
const STATEMENTS: &[(&str, &str)] = &[
    ("", "line 1 Ended"),
    ("# nothing\n\n \t\n", "line 1 Ended"),
    ("infeasible\n", "line 2 Ended"),
    ("heat 5\n", "line 1 UnknownWord"),
    ("Cost 5\n", "line 1 UnknownWord"),
    ("cost\n", "line 1 FieldCount"),
    ("cost 0\nmove A 1 1 B 1 1\n", "line 2 FieldCount"),
    ("use A 5\n", "line 1 OutOfOrder"),
    ("cost 0\ncost 0\n", "line 2 OutOfOrder"),
    ("cost 0\ngive A 1 1 1\nuse A 1\n", "line 3 OutOfOrder"),
    ("infeasible\npart A 1 1\n", "line 2 OutOfOrder"),
    (
        "infeasible\ncut demand 1 0\ncut demand 1 0\n",
        "line 3 OutOfOrder",
    ),
    ("infeasible\ncut heat 1 0\n", "line 2 BadKind"),
    ("cost 0\nuse .A 5\n", "line 2 BadName"),
    ("cost +5\n", "line 1 BadNumber"),
    ("cost 0000000000000000000000000000000\n", "line 1 BadNumber"),
    ("cost 100000000000000000001\n", "line 1 OutOfRange"),
    ("cost -100000000000000000001\n", "line 1 OutOfRange"),
    ("cost 0\nuse A 1000000000000001\n", "line 2 OutOfRange"),
    ("cost 0\nuse A -1000000000000001\n", "line 2 OutOfRange"),
    ("cost 0\ntake A 1000001 0 0\n", "line 2 OutOfRange"),
    ("cost 0\ntake A 0 -1000001 0\n", "line 2 OutOfRange"),
    // Two faults, in both orders.
    ("heat\ncost x\n", "line 1 UnknownWord"),
    ("cost x\nheat\n", "line 1 BadNumber"),
    ("cost 0\nuse A+ x\n", "line 2 BadName"),
    ("cost 0\ngive A x 1000001 0\n", "line 2 BadNumber"),
    ("cost 0\ngive A 1000001 x 0\n", "line 2 OutOfRange"),
];

#[test]
fn a_report_is_refused_with_its_cause(rt: HostRuntime) -> Result<(), Fail> {
    let alloc = rt.alloc();
    for (report, rest) in STATEMENTS {
        let text = format!(in alloc; "report {rest}\n")?;
        check_report(&rt, FOUR_STREAM, report, 4, text.as_str())?;
    }
    Ok(())
}

const LONGEST_FILE: usize = 8_388_608;

/// A case, how many bytes its report has, the calls of the shelf that fail, the status, and the
/// text.
const FILES: &[(&str, usize, &[u64], u8, &str)] = &[
    ("", 1, &[], 3, "case row 1 NoContribution\n"),
    (FOUR_STREAM, 1, &[4], 6, "read fault report\n"),
    (FOUR_STREAM, LONGEST_FILE + 1, &[], 5, "too long report\n"),
    (FOUR_STREAM, LONGEST_FILE, &[], 4, "report line 1 Ended\n"),
];

#[test]
fn the_files_of_a_report_are_blamed_in_their_order(rt: HostRuntime) -> Result<(), Fail> {
    for (case, count, shelf, status, text) in FILES {
        let report = vec![in rt.alloc(); b'#'; *count]?;
        let fails = Fails { shelf, sink: &[] };
        let outcome = answer_under(&rt, "certify", case, &report, fails)?;
        check_end(&rt, count, &outcome, *status, text.as_bytes());
    }
    Ok(())
}

/// So many lines of 8 bytes are within the limit of a file.
const MANY_LINES: usize = 1_000_000;

#[test]
fn a_report_of_a_million_lines_is_answered(rt: HostRuntime) -> Result<(), Fail> {
    let mut report = String::from_str(rt.alloc(), "cost 0\n")?;
    for _ in 0..MANY_LINES {
        report.push_str("use A 1\n")?;
    }
    check_report(&rt, FOUR_STREAM, report.as_str(), 1, "no Parts\n")
}
