//! Sites that were worked by hand, and site files that are refused.

use super::support::{
    Fails, WORDS, check_answer, check_answers, check_end, outcome_of, outcome_under,
};
use std::alloc::{AllocError, Global};
use std::fmt::Write;
use std::process::Abort;
use std::test::Fail;
use std::thread::Threads;

/// A plant with heat to give, one that wants heat, and a main between them.
const TWO_PLANTS: &str = "contribution,,50,,,,
main,MP,1500,,,,
plant,A,,,,,
hot,H,2000,1000,10,,
plant,B,,,,,
cold,C,500,1300,10,,
";

/// Only the upper part of the hot stream reaches the main: 4000 W of the 8000 W come from it.
const TWO_PLANTS_TEXT: &str = "profile 1950 0 10000
profile 1550 0 6000
profile 1450 0 5000
profile 1350 0 4000
profile 950 4000 0
profile 550 8000 0
boiler 4000
cooling 6000
move H 1950 1550 C 1350 950 4000
move H 1550 1450 COOLING 550 550 1000
move BOILER 1450 1450 C 950 550 4000
move H 1450 1350 COOLING 550 550 1000
move H 1350 950 COOLING 550 550 4000
give H 1950 1550 1
give H 1550 1450 0
give BOILER 1450 1450 1
give H 1450 1350 0
give H 1350 950 0
take C 1350 950 1
take C 950 550 1
take COOLING 550 550 0
";

#[test]
fn two_plants_share_a_main(rt: HostRuntime) -> Result<(), Fail> {
    let alloc = rt.alloc();
    // A second main at the same level and a plant without streams change nothing.
    for more in ["", "main,M2,1500,,,,\n", "plant,Z,,,,,\n"] {
        let site = format!(in alloc; "{TWO_PLANTS}{more}")?;
        check_answer(&rt, "site", site.as_str(), 0, TWO_PLANTS_TEXT)?;
    }
    Ok(())
}

#[test]
fn a_main_is_too_low_for_a_plant(rt: HostRuntime) -> Result<(), Fail> {
    let site = "contribution,,50,,,,\nmain,MP,1350,,,,\nplant,B,,,,,\ncold,C,500,1300,10,,\n";
    let text = "profile 1400 0 0\nprofile 1350 0 0\nprofile 1300 500 0\nprofile 550 8000 0\n\
                infeasible\ncut demand 500 0\npart C 1350 1300\n";
    check_answer(&rt, "site", site, 1, text)
}

/// A site ends with status 0, and its text has these two lines behind the profiles.
fn check_target<R: Abort + Threads + Sync + AllocGlobal>(
    rt: &R,
    site: &str,
    lines: &str,
) -> Result<(), Fail> {
    let outcome = outcome_of(rt, &["site", "site.csv"], &[("site.csv", site.as_bytes())])?;
    let text = str::from_utf8(&outcome.written).unwrap_or("");
    assert_eq!(rt; outcome.status, 0, "{site}");
    assert!(rt; text.contains(lines), "{lines} of {site}");
    Ok(())
}

/// Mains between two plants, and the lines of the target.
const MAINS: &[(&str, &str)] = &[
    // The main takes heat above its level plus the contribution: none, 10 W, and so on.
    ("main,M,1900,,,,\n", "\nboiler 8000\ncooling 10000\n"),
    ("main,M,1899,,,,\n", "\nboiler 7990\ncooling 9990\n"),
    ("main,M,1400,,,,\n", "\nboiler 3000\ncooling 5000\n"),
    // A second main takes what the first one cannot, and gives it below.
    (
        "main,M,1500,,,,\nmain,L,900,,,,\n",
        "\nboiler 1000\ncooling 3000\n",
    ),
];

#[test]
fn heat_between_plants_passes_only_through_a_main(rt: HostRuntime) -> Result<(), Fail> {
    let alloc = rt.alloc();
    let plants = "plant,A,,,,,\nhot,H,2000,1000,10,,\nplant,B,,,,,\ncold,C,500,1300,10,,\n";
    for (mains, lines) in MAINS {
        let site = format!(in alloc; "contribution,,50,,,,\n{mains}{plants}")?;
        check_target(&rt, site.as_str(), lines)?;
    }
    // In one plant the same streams need no main.
    let site = "contribution,,50,,,,\nmain,M,1900,,,,\n\
                plant,A,,,,,\nhot,H,2000,1000,10,,\ncold,C,500,1300,10,,\n";
    check_target(&rt, site, "\nboiler 0\ncooling 2000\n")
}

/// Letting heat down from the upper main to the lower one serves nothing that either main alone
/// does not serve.
#[test]
fn a_let_down_serves_nothing_further(rt: HostRuntime) -> Result<(), Fail> {
    let alloc = rt.alloc();
    let plants = "plant,A,,,,,\nhot,H,2000,1600,10,,\nplant,B,,,,,\ncold,C,500,800,10,,\n";
    for mains in [
        "main,M,1500,,,,\nmain,L,900,,,,\n",
        "main,M,1500,,,,\n",
        "main,L,900,,,,\n",
    ] {
        let site = format!(in alloc; "contribution,,50,,,,\n{mains}{plants}")?;
        check_target(&rt, site.as_str(), "\nboiler 0\ncooling 1000\n")?;
    }
    Ok(())
}

/// The four-stream table as a site of one plant has the targets of the table, wherever its main is high
/// enough above the pinch.
#[test]
fn one_plant_has_its_own_targets(rt: HostRuntime) -> Result<(), Fail> {
    let alloc = rt.alloc();
    for level in [30_000, 1500, 1100] {
        let site = format!(in alloc;
            "contribution,,50,,,,\nmain,M,{level},,,,\nplant,A,,,,,\n\
             cold,C1,200,1350,200,,\nhot,H2,1700,600,300,,\n\
             cold,C3,800,1400,400,,\nhot,H4,1500,300,150,,\n"
        )?;
        check_target(&rt, site.as_str(), "\nboiler 20000\ncooling 60000\n")?;
    }
    Ok(())
}

/// As many plants, streams and mains as a site may have; each stream crosses all others, so that
/// there are 361 parts on each side.
fn largest_site(alloc: Global) -> Result<String, AllocError> {
    let mut site = String::from_str(alloc, "contribution,,50,,,,\n")?;
    for level in [30_000, 14_222, 15_333, 16_444] {
        writeln!(site, "main,M{level},{level},,,,")?;
    }
    for k in 0..12u32 {
        if k % 2 == 0 {
            writeln!(site, "plant,P{k},,,,,")?;
        }
        let (low, cp) = (3 + 400 * k, 100_000 - 74 * k);
        let high = low + 19_997;
        writeln!(site, "hot,H{k},{high},{low},{cp},,")?;
        let (low, high, cp) = (low + 200, high + 200, cp - 37);
        writeln!(site, "cold,C{k},{low},{high},{cp},,")?;
    }
    Ok(site)
}

#[test]
fn the_largest_site_is_answered(rt: HostRuntime) -> Result<(), Fail> {
    let site = largest_site(rt.alloc())?;
    check_target(
        &rt,
        site.as_str(),
        "\nboiler 358312800\ncooling 367191468\n",
    )
}

/// Rows behind six sound ones, in the order of the checks, and how they are refused.
const SEVENTH_ROWS: &[(&str, &str)] = &[
    ("hot,K,900,400,10,", "row 7 FieldCount"),
    ("steam,S,1,2,3,4,", "row 7 UnknownKind"),
    ("heater,S,1500,0,10,1,", "row 7 UnknownKind"),
    ("main,LP,900,1,,,", "row 7 FieldCount"),
    (
        "main,M2,9,,,,\nmain,M3,9,,,,\nmain,M4,9,,,,\nmain,M5,9x,,,,",
        "row 10 TooMany",
    ),
    ("contribution,,50,,,,", "row 7 Repeated"),
    ("hot,K L,900,400,10,,", "row 7 BadName"),
    ("cold,BOILER,300,700,10,,", "row 7 BadName"),
    ("hot,COOLING,700,300,10,,", "row 7 BadName"),
    ("cold,H,300,700,10,,", "row 7 SameName"),
    ("plant,B,,,,,", "row 7 SameName"),
    ("main,MP,900,,,,", "row 7 SameName"),
    ("main,LP,9x0,,,,", "row 7 BadNumber"),
    ("hot,K,30001,400,10,,", "row 7 OutOfRange"),
    ("cold,K,700,300,10,,", "row 7 WrongWay"),
    // No stream of a site is latent.
    ("cold,K,700,700,10,,", "row 7 WrongWay"),
];

#[test]
fn a_row_of_a_site_is_refused_with_its_cause(rt: HostRuntime) -> Result<(), Fail> {
    let alloc = rt.alloc();
    for (row, rest) in SEVENTH_ROWS {
        let site = format!(in alloc; "{TWO_PLANTS}{row}\n")?;
        let text = format!(in alloc; "site {rest}\n")?;
        check_answer(&rt, "site", site.as_str(), 3, text.as_str())?;
    }
    Ok(())
}

/// Files, and how they are refused.
const FILES: &[(&str, &str)] = &[
    // A stream above every plant, also where its name is bad.
    (
        "contribution,,50,,,,\ncold,C,500,1300,10,,\n",
        "site row 2 NoPlant\n",
    ),
    (
        "contribution,,50,,,,\ncold,.C,500,1300,10,,\n",
        "site row 2 NoPlant\n",
    ),
    (
        "plant,B,,,,,\ncold,C,500,1300,10,,\n",
        "site row 3 NoContribution\n",
    ),
    (
        "contribution,,50,,,,\nplant,B,,,,,\ncold,C,500,1300,10,,\n",
        "site row 4 NoMain\n",
    ),
    (
        "contribution,,50,,,,\nmain,MP,1500,,,,\nplant,B,,,,,\n",
        "site row 4 NoStream\n",
    ),
    ("", "site row 1 NoContribution\n"),
];

#[test]
fn a_site_file_is_refused_at_its_row(rt: HostRuntime) -> Result<(), Fail> {
    check_answers(&rt, "site", 3, FILES)
}

/// The name of a site file, the calls of the shelf that fail, and how the program ends.
const NOT_HAD: &[(&str, &[u64], u8, &str)] = &[
    ("site.csv", &[], 5, "too long site\n"),
    ("site.csv", &[1], 6, "read fault site\n"),
    ("no-such-file.csv", &[], 6, "read fault site\n"),
    ("", &[], 2, WORDS),
];

#[test]
fn a_site_file_that_is_not_had_is_told(rt: HostRuntime) -> Result<(), Fail> {
    let alloc = rt.alloc();
    let long = vec![in alloc; b'#'; 8_388_609]?;
    let files = [("site.csv", long.as_slice())];
    for (name, shelf, status, text) in NOT_HAD {
        let fails = Fails { shelf, sink: &[] };
        let outcome = outcome_under(&rt, &["site", name], &files, fails)?;
        check_end(&rt, &(name, shelf), &outcome, *status, text.as_bytes());
    }
    Ok(())
}
