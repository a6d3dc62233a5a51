//! Least costs with several utilities and with forbidden matches, worked by hand.

use super::support::{FOUR_STREAM, answer_of, check_front};
use std::process::Abort;
use std::test::Fail;
use std::thread::Threads;

/// The flow of a case ends with status 0, and its text begins with these lines. Which of several
/// heat flows of least cost follows, with which prices, is left open.
fn check_first_lines<R: Abort + Threads + Sync + AllocGlobal>(
    rt: &R,
    case: &str,
    lines: &str,
) -> Result<(), Fail> {
    let answer = answer_of(rt, "flow", case)?;
    check_front(rt, &case, &answer, 0, lines);
    Ok(())
}

/// The same of a case that begins so, with the utilities of each row behind.
fn check_utilities<R: Abort + Threads + Sync + AllocGlobal>(
    rt: &R,
    streams: &str,
    rows: &[(&str, &str)],
) -> Result<(), Fail> {
    for (utilities, lines) in rows {
        let case = format!(in rt.alloc(); "{streams}{utilities}")?;
        check_first_lines(rt, case.as_str(), lines)?;
    }
    Ok(())
}

#[test]
fn two_steam_levels(rt: HostRuntime) -> Result<(), Fail> {
    let alloc = rt.alloc();
    // Low steam stands ten tenths above the pinch, where the streams take 1500 W.
    let levels = "heater,HP,1700,0,1000000000000,3,\nheater,LP,910,0,1000000000000,1,\n";
    let case = format!(in alloc; "{FOUR_STREAM}{levels}")?;
    let lines = "cost 57000\nuse HP 18500\nuse LP 1500\nuse COLD 60000\n";
    check_first_lines(&rt, case.as_str(), lines)
}

/// Utilities of a hot stream, and the first lines of its heat flow.
const OF_A_HOT_STREAM: &[(&str, &str)] = &[
    // A heater with a least, which only the cooler at its own level takes.
    (
        "heater,S,450,100,1000,2,\ncooler,W,350,0,1000000000000,0,\n",
        "cost 200\nuse S 100\nuse W 5100\n\
         move H 950 450 W 400 400 5000\nmove S 400 400 W 400 400 100\n",
    ),
    // Heat from a heater to a cooler pays, by a negative price.
    (
        "heater,B,450,0,1000,-2,\ncooler,W,350,0,1000000000000,1,\n",
        "cost 4000\nuse B 1000\nuse W 6000\n",
    ),
    // And not where the cooler takes more than the heater brings.
    (
        "heater,B,450,0,1000,-2,\ncooler,W,350,0,1000000000000,3,\n",
        "cost 15000\nuse B 0\nuse W 5000\n",
    ),
    // A cooler that takes just so much.
    (
        "cooler,W,200,1000,1000,9,\ncooler,V,200,0,1000000000000,2,\n",
        "cost 17000\nuse W 1000\nuse V 4000\nuse HOT 0\n",
    ),
    // A cooler that takes nothing.
    (
        "cooler,W,200,0,0,-9,\ncooler,V,200,0,1000000000000,2,\n",
        "cost 10000\nuse W 0\nuse V 5000\nuse HOT 0\n",
    ),
];

#[test]
fn utilities_of_a_hot_stream(rt: HostRuntime) -> Result<(), Fail> {
    check_utilities(
        &rt,
        "contribution,,50,,,,\nhot,H,1000,500,10,,\n",
        OF_A_HOT_STREAM,
    )
}

/// Utilities of a cold stream, and the first lines of its heat flow.
const OF_A_COLD_STREAM: &[(&str, &str)] = &[
    // A heater that must be used, though it costs more.
    (
        "heater,HP,1700,500,1000000000000,3,\nheater,LP,910,0,1000000000000,1,\n",
        "cost 5000\nuse HP 500\nuse LP 3500\nuse COLD 0\n",
    ),
    // One that must give more than the stream takes.
    (
        "heater,HP,1700,4500,1000000000000,3,\nheater,LP,910,0,1000000000000,1,\n",
        "cost 13500\nuse HP 4500\nuse LP 0\nuse COLD 500\n",
    ),
    // Two heaters at one level.
    (
        "heater,A,1000,0,1000000000000,2,\nheater,B,1000,0,1500,1,\n",
        "cost 6500\nuse A 2500\nuse B 1500\nuse COLD 0\n",
    ),
    // A heater that is forbidden.
    (
        "heater,A,1000,0,1000000000000,2,\nheater,B,1000,0,1500,1,\nforbid,B,C,,,,\n",
        "cost 8000\nuse A 4000\nuse B 0\nuse COLD 0\n",
    ),
];

#[test]
fn utilities_of_a_cold_stream(rt: HostRuntime) -> Result<(), Fail> {
    check_utilities(
        &rt,
        "contribution,,50,,,,\ncold,C,300,700,10,,\n",
        OF_A_COLD_STREAM,
    )
}

#[test]
fn a_forbidden_match_costs(rt: HostRuntime) -> Result<(), Fail> {
    let case = "contribution,,50,,,,\nhot,H,1000,500,10,,\ncold,C,300,700,10,,\n\
                forbid,H,C,,,,\n";
    let lines = "cost 4000\nuse HOT 4000\nuse COLD 5000\n";
    check_first_lines(&rt, case, lines)
}
