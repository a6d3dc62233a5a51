//! Case files that are read, refused at a row, and printed again.
ghost use Rattle.std.specs.Prelude.{IfOk};
ghost use Rattle.stream_case.specs.Case.{IsValid};

use crate::compare::{assert_lists, assert_same};
use case_text::{CaseFault, CaseWhy, number_of, print_case, read_case};
use std::alloc::{AllocError, Global};
use std::process::Abort;
use std::test::Fail;
use stream_case::Side::{Cold, Hot};
use stream_case::{Case, Forbid, Items, Source};
use worked_tables::{FOUR_STREAMS, TWO_STREAMS, Table, case_of, repeated, stream, utility, valid};

/// The most bytes of the tests' files.
const LONGEST: usize = 2_000_000;

/// A stream table with a contribution of 5 °C and four streams.
const FOUR_STREAMS_TEXT: &[u8] =
    b"contribution,,50,,,,\ncold,C1,200,1350,200,,\nhot,H2,1700,600,300,,\ncold,C3,800,1400,400,,\nhot,H4,1500,300,150,,\n";

/// A table as spreadsheets write it, with utilities, forbidden matches and rows that say nothing.
const SPREADSHEET: &[u8] =
    b"\xEF\xBB\xBF#,of the plant,,,,,\r\nheater,HOT,1700,0,1000,3,\r\n\"contribution\",,\"50\",,,,\r\n,,,,,,\r\n\r\nhot,H,1000,500,10,,\r\ncold,C,300,0700,10,,\r\ncooler,CW,-20,5,5,-1000000,\r\nforbid,H,C,,,,\r\nforbid,HOT,C,,,,";

/// The same table as it is printed.
const PRINTED_SPREADSHEET: &[u8] =
    b"contribution,,50,,,,\nhot,H,1000,500,10,,\ncold,C,300,700,10,,\nheater,HOT,1700,0,1000,3,\ncooler,CW,-20,5,5,-1000000,\nforbid,H,C,,,,\nforbid,HOT,C,,,,\n";

/// The case that it gives.
const SPREADSHEET_CASE: Table = Table {
    utilities: &[
        ("HOT", Hot, 1700, 0, 1000, 3),
        ("CW", Cold, -20, 5, 5, -1_000_000),
    ],
    forbids: &[
        Forbid {
            hot: Source::Stream(0),
            cold: Source::Stream(1),
        },
        Forbid {
            hot: Source::Utility(0),
            cold: Source::Stream(1),
        },
    ],
    ..TWO_STREAMS
};

/// Sources with contributions of their own before that of the case.
const OWN_CONTRIBUTIONS: &[u8] =
    b"hot,H,600,400,20,,100\ncold,C,300,700,10,,\nheater,S,800,0,9000,1,0\ncooler,W,200,0,9000,0,0050\ncontribution,,50,,,,\n";

/// The same as they are printed: the contribution of a source only where it is another one.
const PRINTED_OWN_CONTRIBUTIONS: &[u8] =
    b"contribution,,50,,,,\nhot,H,600,400,20,,100\ncold,C,300,700,10,,\nheater,S,800,0,9000,1,0\ncooler,W,200,0,9000,0,\n";

/// A sensible stream and two latent ones, of which one has the greatest load.
const LATENT_STREAMS: &[u8] =
    b"contribution,,50,,,,\nhot,H,1500,700,10,,\ncold,B,0900,900,00,0008000,050\nhot,V,-20,-20,-0,10000000000,0\n";

/// The same as they are printed.
const PRINTED_LATENT_STREAMS: &[u8] =
    b"contribution,,50,,,,\nhot,H,1500,700,10,,\ncold,B,900,900,0,8000,\nhot,V,-20,-20,0,10000000000,0\n";

/// Tables, how they are printed, and the cases that they give.
const TABLES: &[(&[u8], &[u8], Table)] = &[
    (FOUR_STREAMS_TEXT, FOUR_STREAMS_TEXT, FOUR_STREAMS),
    (SPREADSHEET, PRINTED_SPREADSHEET, SPREADSHEET_CASE),
];

const NUMBERS: &[(&str, Option<i64>)] = &[
    ("0", Some(0)),
    ("-2731", Some(-2731)),
    ("-0", Some(0)),
    ("0000000000007", Some(7)),
    ("9999999999999", Some(9_999_999_999_999)),
    ("10000000000000", None),
    ("", None),
    ("-", None),
    ("+5", None),
    (" 5", None),
    ("5.0", None),
    ("--5", None),
];

/// Rows behind the contribution and the stream H, and why they are refused.
const FAULTY_ROWS: &[(&str, CaseWhy)] = &[
    ("steam,S,1,2,3,4,", CaseWhy::UnknownKind),
    ("hot,K,900,400,10,", CaseWhy::FieldCount),
    ("hot,K,900,400,10,7,", CaseWhy::NotLatent),
    ("cold,K,900,900,10,7,1000", CaseWhy::NotLatent),
    ("cold,K,30001,900,10,7,", CaseWhy::OutOfRange),
    ("cold,K,900,900,10,7,1001", CaseWhy::OutOfRange),
    ("hot,K,900,900,0,0,", CaseWhy::OutOfRange),
    ("hot,K,900,900,0,10000000001,", CaseWhy::OutOfRange),
    ("hot,K,900,900,-1,7,", CaseWhy::OutOfRange),
    ("hot,K,900,900,0,,", CaseWhy::OutOfRange),
    ("hot,K,900,400,10,x,7", CaseWhy::BadNumber),
    ("hot,K,900,400,10,7,x", CaseWhy::BadNumber),
    ("heater,S,1500,0,5,,", CaseWhy::BadNumber),
    ("hot,K,900,400,10,,x", CaseWhy::BadNumber),
    ("cold,K,400,900,10,,1001", CaseWhy::OutOfRange),
    ("heater,S,1500,0,5,1,x", CaseWhy::BadNumber),
    ("cooler,S,200,0,5,1,-1", CaseWhy::OutOfRange),
    ("hot,K,9x0,400,10,,", CaseWhy::BadNumber),
    ("hot,K,30001,400,10,,", CaseWhy::OutOfRange),
    ("hot,K L,900,400,10,,", CaseWhy::BadName),
    ("hot,HOT,900,400,10,,", CaseWhy::BadName),
    ("cold,H,300,700,10,,", CaseWhy::SameName),
    ("cold,K,700,300,10,,", CaseWhy::WrongWay),
    ("contribution,,50,,,,", CaseWhy::Repeated),
    ("forbid,H,C,,,,", CaseWhy::UnknownName),
    ("heater,S,1500,10,5,1,", CaseWhy::BadRange),
    ("hot,H,500,500,10,,", CaseWhy::SameName),
    ("hot,K,500,500,10,,", CaseWhy::NoLoad),
    ("heater,COLD,1500,0,5,1,", CaseWhy::BadName),
    ("cooler,S,200,0,1000000000001,0,", CaseWhy::OutOfRange),
    ("forbid,H,C,5,,,", CaseWhy::FieldCount),
    ("# a comment", CaseWhy::FieldCount),
    ("\u{feff}hot,K,900,400,10,,", CaseWhy::UnknownKind),
];

/// Files that end early or hold other bytes than text, the row at fault, and why.
const FAULTY_FILES: &[(&[u8], u32, CaseWhy)] = &[
    (b"", 1, CaseWhy::NoContribution),
    (b"hot,H,1000,500,10,,\n", 2, CaseWhy::NoContribution),
    (b"contribution,,50,,,,\n", 2, CaseWhy::NoStream),
    (
        b"#,,,,,,\ncontribution,,50,,,,\n,,,,,,\n",
        4,
        CaseWhy::NoStream,
    ),
    (b"hot,\xFF\xFE,900,400,10,,", 1, CaseWhy::BadName),
    (b"h\0t,K,900,400,10,,", 1, CaseWhy::UnknownKind),
    (b"hot,\"K,900,400,10,,\n", 1, CaseWhy::FieldCount),
    (
        b"hot,K,900,400,10,,\rcold,K,1,2,3,,\r",
        2,
        CaseWhy::SameName,
    ),
];

/// What a text is read as.
fn read(rt: &(impl Abort + AllocGlobal), text: &[u8]) -> Case
    ensures { IsValid result }
{
    assert!(rt; text.len() <= LONGEST);
    read_case(rt.alloc(), text).expect(rt, "a case")
}

fn assert_refused(rt: &(impl Abort + AllocGlobal), text: &[u8], row: u32, why: CaseWhy) {
    assert!(rt; text.len() <= LONGEST);
    let fault = read_case(rt.alloc(), text).err();
    assert_eq!(rt; fault, Some(CaseFault::Row { row, why }), "in {text:?}");
}

#[test]
fn numbers_have_their_grammar(rt: HostRuntime) {
    for (text, number) in NUMBERS {
        assert_same(&rt, text, &number_of(text.as_bytes()), number);
    }
}

#[test]
fn faulty_rows_are_refused(rt: HostRuntime) -> Result<(), Fail> {
    for (row, why) in FAULTY_ROWS {
        let text = format!(in rt.alloc(); "contribution,,50,,,,\nhot,H,1000,500,10,,\n{row}\n")?;
        assert_refused(&rt, text.as_bytes(), 3, *why);
    }
    Ok(())
}

#[test]
fn faulty_files_are_refused(rt: HostRuntime) {
    for (text, row, why) in FAULTY_FILES {
        assert_refused(&rt, text, *row, *why);
    }
}

#[test]
fn long_rows_and_long_fields_are_refused(rt: HostRuntime) -> Result<(), Fail> {
    let text = repeated(rt.alloc(), b"", b",", 9_999, b"")?;
    assert_refused(&rt, &text, 1, CaseWhy::FieldCount);
    let text = repeated(rt.alloc(), b"hot,", b"K", 1_000_000, b",900,400,10,,")?;
    assert_refused(&rt, &text, 1, CaseWhy::BadName);
    Ok(())
}

/// So many rows that differ in their name's number.
fn numbered_rows(alloc: Global, kind: &str, rest: &str, rows: usize) -> Result<String, AllocError> {
    let mut text = String::new(alloc);
    for number in 0..rows {
        let row = format!(in alloc; "{kind},K{number},{rest}\n")?;
        text.push_str(&row)?;
    }
    Ok(text)
}

#[test]
fn rows_past_the_counts_are_refused(rt: HostRuntime) -> Result<(), Fail> {
    let text = numbered_rows(rt.alloc(), "hot", "900,400,10,,", 31)?;
    assert_refused(&rt, text.as_bytes(), 31, CaseWhy::TooMany);
    let text = numbered_rows(rt.alloc(), "cooler", "0,0,1,0,", 13)?;
    assert_refused(&rt, text.as_bytes(), 13, CaseWhy::TooMany);
    Ok(())
}

/// The case that those sources give.
fn own_contributions(alloc: Global) -> Result<Case, Fail>
    ensures { IfOk result IsValid }
{
    let hot = stream("H", Hot, (600, 400), 20, 100)?;
    let cold = stream("C", Cold, (300, 700), 10, 50)?;
    let heater = utility("S", Hot, 800, (0, 9000), 1, 0)?;
    let cooler = utility("W", Cold, 200, (0, 9000), 0, 50)?;
    valid(Case {
        contribution: 50,
        streams: Items::from_vec(vec![in alloc; hot, cold]?),
        utilities: Items::from_vec(vec![in alloc; heater, cooler]?),
        forbids: Items::new(alloc),
    })
}

/// The case that the latent streams give.
fn latent_streams(alloc: Global) -> Result<Case, Fail>
    ensures { IfOk result IsValid }
{
    let sensible = stream("H", Hot, (1500, 700), 10, 50)?;
    let evaporating = stream("B", Cold, (900, 900), 8000, 50)?;
    let condensing = stream("V", Hot, (-20, -20), 10_000_000_000, 0)?;
    valid(Case {
        contribution: 50,
        streams: Items::from_vec(vec![in alloc; sensible, evaporating, condensing]?),
        utilities: Items::new(alloc),
        forbids: Items::new(alloc),
    })
}

/// A table gives this case, is printed so, and is then read as the same case.
fn check_table(
    rt: &(impl Abort + AllocGlobal),
    table: &[u8],
    wanted: &[u8],
    case: &Case,
) -> Result<(), Fail>
    requires { IsValid case.now }
{
    assert_same(rt, "a table", &read(rt, table), case);
    let text = print_case(rt.alloc(), case)?;
    assert_lists(rt, "a printed table", &text, wanted);
    assert_same(rt, "it read again", &read(rt, &text), case);
    Ok(())
}

#[test]
fn tables_give_their_cases_and_are_printed(rt: HostRuntime) -> Result<(), Fail> {
    for (table, wanted, given) in TABLES {
        check_table(&rt, table, wanted, &case_of(rt.alloc(), given)?)?;
    }
    Ok(())
}

#[test]
fn contributions_of_sources_are_read_and_printed(rt: HostRuntime) -> Result<(), Fail> {
    let case = own_contributions(rt.alloc())?;
    check_table(&rt, OWN_CONTRIBUTIONS, PRINTED_OWN_CONTRIBUTIONS, &case)
}

#[test]
fn latent_streams_are_read_and_printed(rt: HostRuntime) -> Result<(), Fail> {
    let case = latent_streams(rt.alloc())?;
    check_table(&rt, LATENT_STREAMS, PRINTED_LATENT_STREAMS, &case)
}

#[test]
fn rows_that_are_passed_over_do_not_matter(rt: HostRuntime) -> Result<(), Fail> {
    let text = repeated(rt.alloc(), b"", b"#,,,,,,\n", 100_000, FOUR_STREAMS_TEXT)?;
    let case = case_of(rt.alloc(), &FOUR_STREAMS)?;
    assert_same(&rt, "100,000 rows", &read(&rt, &text), &case);
    Ok(())
}
