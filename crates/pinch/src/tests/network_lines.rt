//! Statements of a network that are refused, each with its line and cause.

use super::support::check_audit;
use std::fmt::Write;
use std::test::Fail;

/// Sources H, C, HOT and COLD.
const CASE: &str =
    "contribution,,50,,,,\nhot,H,1000,500,10,,\ncold,C,300,700,10,,\nforbid,H,C,,,,\n";

/// Networks, and how they are refused.
const STATEMENTS: &[(&str, &str)] = &[
    ("heat E1\n", "line 1 UnknownWord"),
    ("end\n", "line 1 FieldCount"),
    ("exchanger E1 H C x\n", "line 1 BadNumber"),
    ("exchanger E1 H D 5\n", "line 1 UnknownName"),
    ("exchanger E1 C H 5\n", "line 1 WrongSide"),
    (
        "exchanger E1 H C 5\nexchanger E1 H C 6\n",
        "line 2 SameName",
    ),
    ("end z\n", "line 1 UnknownBranch"),
    ("end H\nend H\n", "line 2 SpentBranch"),
    (
        "exchanger E1 H C 5\npass H E1 a\npass a E1 b\n",
        "line 3 WrongPass",
    ),
    ("exchanger E1 H C 5\npass H E1 a\n", "line 1 MissingPass"),
    ("exchanger E1 H C 0\n", "line 1 NotPositive"),
    ("mix H C a\n", "line 1 OtherStream"),
    ("split H a+ 1 b\n", "line 1 BadName"),
    // Lines that say nothing are not counted.
    ("# heat\n\n  \t\nheat E1", "line 1 UnknownWord"),
];

#[test]
fn a_statement_is_refused_with_its_cause(rt: HostRuntime) -> Result<(), Fail> {
    let alloc = rt.alloc();
    for (network, rest) in STATEMENTS {
        let text = format!(in alloc; "network {rest}\n")?;
        check_audit(&rt, CASE, network, 4, text.as_str())?;
    }
    Ok(())
}

#[test]
fn one_exchanger_more_is_too_many(rt: HostRuntime) -> Result<(), Fail> {
    let alloc = rt.alloc();
    let mut network = String::new(alloc);
    for number in 1..=20_001u32 {
        writeln!(network, "exchanger E{number} H C 1")?;
    }
    check_audit(
        &rt,
        CASE,
        network.as_str(),
        4,
        "network line 20001 TooMany\n",
    )
}
