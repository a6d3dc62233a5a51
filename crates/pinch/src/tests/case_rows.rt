//! Rows of a case that are refused, each with its row and cause.

use super::support::{check_answer, check_answers};
use std::test::Fail;

/// Rows behind two sound ones, and why they are refused.
const THIRD_ROWS: &[(&str, &str)] = &[
    ("steam,S,1,2,3,4,", "UnknownKind"),
    ("hot,K,900,400,10,", "FieldCount"),
    ("hot,K,900,400,10,x,7", "BadNumber"),
    ("hot,K,900,400,10,x,x", "BadNumber"),
    ("hot,K,900,400,10,7,", "NotLatent"),
    ("hot,K,900,900,1,7,", "NotLatent"),
    ("cold,K,900,901,0,7,", "NotLatent"),
    ("hot,K,900,900,0,0,", "OutOfRange"),
    ("hot,K,900,900,0,,", "OutOfRange"),
    ("hot,K,900,900,0,10000000001,", "OutOfRange"),
    ("hot,K,900,900,10,,", "NoLoad"),
    ("hot,K,900,400,10,,x", "BadNumber"),
    ("hot,K,900,400,100001,,x", "BadNumber"),
    ("hot,K,900,400,10,,1001", "OutOfRange"),
    ("cold,K,700,300,10,,-1", "OutOfRange"),
    ("heater,S,1500,0,10,1,x", "BadNumber"),
    ("cooler,S,300,10,5,1,1001", "OutOfRange"),
    ("hot,K,9x0,400,10,,", "BadNumber"),
    ("hot,K,30001,400,10,,", "OutOfRange"),
    ("hot,K L,900,400,10,,", "BadName"),
    ("hot,HOT,900,400,10,,", "BadName"),
    ("cold,H,300,700,10,,", "SameName"),
    ("cold,K,700,300,10,,", "WrongWay"),
    ("contribution,,50,,,,", "Repeated"),
    ("forbid,H,C,,,,", "UnknownName"),
    ("heater,S,1500,10,5,1,", "BadRange"),
];

#[test]
fn a_row_is_refused_with_its_cause(rt: HostRuntime) -> Result<(), Fail> {
    let alloc = rt.alloc();
    for (third, why) in THIRD_ROWS {
        let case = format!(in alloc; "contribution,,50,,,,\nhot,H,1000,500,10,,\n{third}\n")?;
        let text = format!(in alloc; "case row 3 {why}\n")?;
        check_answer(&rt, "targets", case.as_str(), 3, text.as_str())?;
    }
    Ok(())
}

/// Files, and how they are refused.
const FILES: &[(&str, &str)] = &[
    ("", "case row 1 NoContribution\n"),
    ("contribution,,50,,,,\n", "case row 2 NoStream\n"),
    (
        "contribution,,50,,,,\nhot,H,500,500,10,,\n",
        "case row 2 NoLoad\n",
    ),
    (
        "contribution,,50,,,,\ncold,C1,200,1350,200,",
        "case row 2 FieldCount\n",
    ),
];

#[test]
fn a_file_is_refused_at_its_row(rt: HostRuntime) -> Result<(), Fail> {
    check_answers(&rt, "targets", 3, FILES)?;
    check_answers(&rt, "flow", 3, FILES)?;
    check_answers(&rt, "curves", 3, FILES)
}
