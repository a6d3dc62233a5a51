//! Site files that are read and refused.
use crate::compare::assert_same;
use site_text::{Site, SiteFault, SiteWhy, read_site};
use std::process::Abort;
use std::test::Fail;

/// The most bytes of the tests' files.
const LONGEST: usize = 10_000;

/// Rows before the one at fault.
const FIRST_ROWS: &str =
    "contribution,,50,,,,\nmain,MP,1500,,,,\nplant,A,,,,,\nhot,H,1000,500,10,,\n";

/// Rows behind these four, and why they are refused.
const FAULTY_ROWS: &[(&str, SiteWhy)] = &[
    ("steam,S,1,2,3,4,", SiteWhy::UnknownKind),
    ("heater,S,1500,0,5,1,", SiteWhy::UnknownKind),
    ("forbid,H,C,,,,", SiteWhy::UnknownKind),
    ("hot,K,900,400,10,", SiteWhy::FieldCount),
    ("hot,K,900,400,10,7,", SiteWhy::FieldCount),
    ("hot,K,900,400,10,,7", SiteWhy::FieldCount),
    ("plant,B,1,,,,", SiteWhy::FieldCount),
    ("main,LP,900,1,,,", SiteWhy::FieldCount),
    ("hot,K,9x0,400,10,,", SiteWhy::BadNumber),
    ("main,LP,,,,,", SiteWhy::BadNumber),
    ("hot,K,900,400,0,,", SiteWhy::OutOfRange),
    ("main,LP,30001,,,,", SiteWhy::OutOfRange),
    ("hot,K L,900,400,10,,", SiteWhy::BadName),
    ("hot,BOILER,900,400,10,,", SiteWhy::BadName),
    ("cold,COOLING,300,700,10,,", SiteWhy::BadName),
    ("plant,.B,,,,,", SiteWhy::BadName),
    ("cold,H,300,700,10,,", SiteWhy::SameName),
    ("plant,A,,,,,", SiteWhy::SameName),
    ("main,MP,900,,,,", SiteWhy::SameName),
    ("cold,K,700,300,10,,", SiteWhy::WrongWay),
    ("hot,K,500,500,10,,", SiteWhy::WrongWay),
    ("contribution,,50,,,,", SiteWhy::Repeated),
];

/// Rows behind them that are accepted: two mains at one level, a plant without streams, and names
/// that another kind has, or a utility of a case.
const SOUND_ROWS: &[&str] = &[
    "main,LP,1500,,,,",
    "plant,B,,,,,",
    "plant,H,,,,,",
    "main,BOILER,-2731,,,,",
    "cold,HOT,300,700,10,,",
    "#,any,thing,,,,",
];

/// Files that end early or hold a stream above every plant, the row at fault, and why.
const FAULTY_FILES: &[(&str, u32, SiteWhy)] = &[
    ("", 1, SiteWhy::NoContribution),
    ("main,MP,1500,,,,", 2, SiteWhy::NoContribution),
    ("contribution,,50,,,,", 2, SiteWhy::NoMain),
    (
        "contribution,,50,,,,\nmain,MP,1500,,,,",
        3,
        SiteWhy::NoStream,
    ),
    (
        "contribution,,50,,,,\nmain,MP,1500,,,,\nplant,A,,,,,",
        4,
        SiteWhy::NoStream,
    ),
    (
        "contribution,,50,,,,\nplant,B,,,,,\ncold,C,500,1300,10,,",
        4,
        SiteWhy::NoMain,
    ),
    (
        "plant,B,,,,,\ncold,C,500,1300,10,,",
        3,
        SiteWhy::NoContribution,
    ),
    (
        "contribution,,50,,,,\ncold,C,500,1300,10,,",
        2,
        SiteWhy::NoPlant,
    ),
    (
        "contribution,,50,,,,\ncold,.C,500,x,10,,",
        2,
        SiteWhy::NoPlant,
    ),
    ("# a comment", 1, SiteWhy::FieldCount),
];

/// The site of a text, or its fault.
fn read(rt: &(impl Abort + AllocGlobal), text: &str) -> Result<Site, SiteFault> {
    assert!(rt; text.len() <= LONGEST);
    read_site(rt.alloc(), text.as_bytes())
}

fn assert_refused(rt: &(impl Abort + AllocGlobal), text: &str, row: u32, why: SiteWhy) {
    let fault = read(rt, text).err();
    assert_eq!(rt; fault, Some(SiteFault::Row { row, why }), "in {text:?}");
}

#[test]
fn faulty_rows_are_refused(rt: HostRuntime) -> Result<(), Fail> {
    for (row, why) in FAULTY_ROWS {
        let text = format!(in rt.alloc(); "{FIRST_ROWS}{row}\n")?;
        assert_refused(&rt, text.as_str(), 5, *why);
    }
    Ok(())
}

#[test]
fn sound_rows_are_accepted(rt: HostRuntime) -> Result<(), Fail> {
    for row in SOUND_ROWS {
        let text = format!(in rt.alloc(); "{FIRST_ROWS}{row}\n")?;
        assert_same(&rt, row, &read(&rt, text.as_str()).is_ok(), &true);
    }
    Ok(())
}

#[test]
fn faulty_files_are_refused(rt: HostRuntime) {
    for (text, row, why) in FAULTY_FILES {
        assert_refused(&rt, text, *row, *why);
    }
}

/// The first rows with further ones, which are numbered.
fn with_rows(
    rt: &(impl Abort + AllocGlobal),
    kind: &str,
    rest: &str,
    rows: usize,
) -> Result<String, Fail> {
    let mut text = String::from_str(rt.alloc(), FIRST_ROWS)?;
    for number in 0..rows {
        let row = format!(in rt.alloc(); "{kind},K{number},{rest}\n")?;
        text.push_str(row.as_str())?;
    }
    Ok(text)
}

/// A kind of row, the rest of it, and how many are accepted behind the first rows.
const COUNTS: &[(&str, &str, usize)] = &[
    ("hot", "900,400,10,,", 11),
    ("cold", "400,900,10,,", 12),
    ("plant", ",,,,", 5),
    ("main", "900,,,,", 3),
];

#[test]
fn rows_past_the_counts_are_refused(rt: HostRuntime) -> Result<(), Fail> {
    for (kind, rest, most) in COUNTS {
        let text = with_rows(&rt, kind, rest, *most)?;
        assert_same(&rt, kind, &read(&rt, text.as_str()).is_ok(), &true);
        let text = with_rows(&rt, kind, rest, *most + 1)?;
        assert_refused(&rt, text.as_str(), *most as u32 + 5, SiteWhy::TooMany);
    }
    Ok(())
}
