//! Targets and pinches of cases that were worked by hand.

use super::support::{FOUR_STREAM, FOUR_STREAM_TARGETS, check_answer, check_answers};
use std::test::Fail;

/// Cases, and their targets.
const WORKED: &[(&str, &str)] = &[
    (FOUR_STREAM, FOUR_STREAM_TARGETS),
    (
        "contribution,,50,,,,\nhot,H,1000,500,10,,\n",
        "hot 0\ncold 5000\npinch none\n",
    ),
    (
        "contribution,,50,,,,\ncold,C,300,700,10,,\n",
        "hot 4000\ncold 0\npinch none\n",
    ),
    (
        "contribution,,0,,,,\ncold,A,200,300,1,,\nhot,B,200,100,1,,\n\
         cold,D,100,200,1,,\nhot,E,100,0,1,,\n",
        "hot 100\ncold 100\npinch 200\npinch 100\n",
    ),
    (
        "contribution,,1000,,,,\nhot,H,30000,-2731,100000,,\ncold,C,-2731,30000,100000,,\n",
        "hot 200000000\ncold 200000000\npinch 29000\npinch -1731\n",
    ),
    // Two reactors (Smith 2005): 7.5 and 10 MW, and a pinch at 145 °C.
    (
        "contribution,,50,,,,\ncold,Feed-1,200,1800,20000,,\nhot,Product-1,2500,400,15000,,\n\
         cold,Feed-2,1400,2300,30000,,\nhot,Product-2,2000,800,25000,,\n",
        "hot 7500000\ncold 10000000\npinch 1450\n",
    ),
    // A hot stream with a contribution of its own, and those of the case, given last.
    (
        "hot,H,600,400,20,,100\ncold,C,300,700,10,,\ncontribution,,50,,,,\n",
        "hot 2500\ncold 2500\npinch 500\n",
    ),
    (
        "contribution,,50,,,,\nhot,H,1000,500,10,,\nhot,K,900,400,10,,7\n",
        "hot 0\ncold 10000\npinch none\n",
    ),
];

#[test]
fn targets_of_worked_tables(rt: HostRuntime) -> Result<(), Fail> {
    check_answers(&rt, "targets", 0, WORKED)
}

/// Rows before a table and behind it.
const NO_STREAM: &[(&str, &str)] = &[
    // A comment row.
    ("#,,,,,,\n", ""),
    // Two heaters.
    (
        "",
        "heater,HP,1700,0,1000000000000,3,\nheater,LP,910,0,1000000000000,1,\n",
    ),
    // A forbidden match.
    ("", "forbid,H2,C1,,,,\n"),
    // Empty rows, as spreadsheets write them, and other line ends.
    (",,,,,,\r\n\r\n", "\r\n\"\",,,,,,"),
];

#[test]
fn rows_that_give_no_stream_change_no_target(rt: HostRuntime) -> Result<(), Fail> {
    let alloc = rt.alloc();
    for (before, after) in NO_STREAM {
        let case = format!(in alloc; "{before}{FOUR_STREAM}{after}")?;
        check_answer(&rt, "targets", case.as_str(), 0, FOUR_STREAM_TARGETS)?;
    }
    // A byte order mark and quotes.
    let case = "\u{feff}contribution,,\"50\",,,,\r\n\"hot\",H,1000,500,10,,\r\n";
    check_answer(&rt, "targets", case, 0, "hot 0\ncold 5000\npinch none\n")
}
