//! The largest cases, and those with one stream or utility too many.

use super::support::{
    FOUR_STREAM, FOUR_STREAM_TARGETS, NONE, answer_of, audit_under, check_answer, check_count,
    check_front, line_count,
};
use std::alloc::{AllocError, Global};
use std::fmt::Write;
use std::test::Fail;

/// The most utilities of a file.
const UTILITIES: &str = "heater,Furnace,30000,0,1000000000000,6,
heater,Flue,28000,0,1000000000000,5,
heater,Oil,25000,0,1000000000000,4,
heater,Vapour,23000,0,1000000000000,3,
heater,Steam,20000,0,1000000000000,2,
heater,Water,18000,0,1000000000000,1,
cooler,Brine,-2731,0,1000000000000,0,
cooler,Sea,500,0,1000000000000,-1,
cooler,River,1000,0,1000000000000,-2,
cooler,Pond,1500,0,1000000000000,-3,
cooler,Tower,2000,0,1000000000000,-4,
cooler,Air,2500,0,1000000000000,-5,
";

/// So many hot streams and so many cold ones as a file may have, no two of which share an end.
fn largest_case(alloc: Global, more: &str) -> Result<String, AllocError> {
    let mut case = String::from_str(alloc, "contribution,,50,,,,\n")?;
    for k in 0..30u32 {
        let supply = 30_000 - 100 * k;
        let target = 5 + 100 * k;
        let cp = 100_000 - 7 * k;
        writeln!(case, "hot,H{k},{supply},{target},{cp},,")?;
        let supply = 19 + 100 * k;
        let target = 29_903 - 100 * k;
        let cp = 90_000 + 5 * k;
        writeln!(case, "cold,C{k},{supply},{target},{cp},,")?;
    }
    case.push_str(more)?;
    Ok(case)
}

const TARGETS: &str = "hot 270000\ncold 8292669525\npinch 29950\n";

/// Commands, utilities, how many lines the text has, and how it begins.
const LARGEST: &[(&str, &str, u64, &str)] = &[
    ("targets", UTILITIES, 3, TARGETS),
    ("targets", "", 3, TARGETS),
    // 60 points of the hot curve and of the cold one, and 120 of the grand one.
    ("curves", UTILITIES, 240, "hot 0 5\nhot 10000000 105\n"),
    ("curves", "", 240, "hot 0 5\nhot 10000000 105\n"),
    // 3600 transfers, 1830 hot parts and 1772 cold ones.
    (
        "flow",
        "",
        7205,
        "cost 270000\nuse HOT 270000\nuse COLD 8292669525\n\
         move HOT 29953 29953 C0 29953 29950 270000\n",
    ),
    (
        "design",
        "",
        15_265,
        "# hot 270000 cold 8292669525 excess 0 cost 270000\nexchanger E1 HOT C0 270000\n",
    ),
    // 3512 exchangers.
    (
        "vertical",
        "",
        16_047,
        "# hot 270000 cold 8292669525 excess 0 cost 270000\nexchanger E1 HOT C0 270000\n",
    ),
];

#[test]
fn the_largest_case_is_answered(rt: HostRuntime) -> Result<(), Fail> {
    for (command, more, lines, front) in LARGEST {
        let case = largest_case(rt.alloc(), more)?;
        let answer = answer_of(&rt, command, case.as_str())?;
        check_front(&rt, command, &answer, 0, front);
        check_count(&rt, command, line_count(&answer.written), *lines);
    }
    Ok(())
}

#[test]
fn the_largest_vertical_design_is_accepted(rt: HostRuntime) -> Result<(), Fail> {
    let case = largest_case(rt.alloc(), "")?;
    let design = answer_of(&rt, "vertical", case.as_str())?;
    let audit = audit_under(&rt, case.as_str(), &design.written, NONE)?;
    let front =
        "accepted\nhot 270000\ncold 8292669525\nexcess 0\ncost 270000\nfloor 270000\nplace 29950\n";
    check_front(&rt, &"audit", &audit, 0, front);
    Ok(())
}

/// Rows behind those of the largest case, and how it is refused.
const ONE_MORE: &[(&str, &str)] = &[
    ("hot,K,1000,500,10,,\n", "case row 62 TooMany\n"),
    ("cold,K,500,1000,10,,\n", "case row 62 TooMany\n"),
];

#[test]
fn one_stream_or_utility_more_is_too_many(rt: HostRuntime) -> Result<(), Fail> {
    for (more, text) in ONE_MORE {
        let case = largest_case(rt.alloc(), more)?;
        check_answer(&rt, "targets", case.as_str(), 3, text)?;
    }
    let utilities = format!(in rt.alloc(); "{UTILITIES}cooler,Lake,0,0,1,0,\n")?;
    let case = largest_case(rt.alloc(), utilities.as_str())?;
    check_answer(&rt, "targets", case.as_str(), 3, "case row 74 TooMany\n")
}

#[test]
fn one_hot_stream_more_is_too_many(rt: HostRuntime) -> Result<(), Fail> {
    let alloc = rt.alloc();
    let mut case = String::from_str(alloc, "contribution,,50,,,,\nhot,H,1000,500,10,,\n")?;
    for k in 1..=30u32 {
        writeln!(case, "hot,K{k},900,400,10,,")?;
    }
    check_answer(&rt, "targets", case.as_str(), 3, "case row 32 TooMany\n")
}

#[test]
fn many_rows_are_passed_over(rt: HostRuntime) -> Result<(), Fail> {
    let alloc = rt.alloc();
    let mut case = String::new(alloc);
    for _ in 0..50_000 {
        case.push_str("#,,,,,,\n,,,,,,\n")?;
    }
    case.push_str(FOUR_STREAM)?;
    check_answer(&rt, "targets", case.as_str(), 0, FOUR_STREAM_TARGETS)
}
