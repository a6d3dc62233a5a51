//! Study files that are read and refused.
ghost use Rattle.std.specs.Prelude.{IfOk};
ghost use Rattle.stream_case.specs.Case.{IsComplete};
ghost use Rattle.study_text.specs.Study.{IsStudy};

use crate::compare::{assert_lists, assert_same};
use std::alloc::Global;
use std::process::Abort;
use std::test::Fail;
use stream_case::{Case, Items};
use study_text::{Study, StudyFault, StudyItem, StudyWhy, read_study};
use worked_tables::{RESTRICTED, completed_case, name};

/// The most bytes of the tests' files.
const LONGEST: usize = 20_000;

/// Rows before the one at fault.
const FIRST_ROWS: &str = "scenario,S,,\nprice,A,7,\n";

/// Rows behind these two, and why they are refused. Each from `prices,A,x` on has two faults, of
/// which the one that is looked at first is told.
const FAULTY_ROWS: &[(&str, StudyWhy)] = &[
    ("scenario,T,", StudyWhy::FieldCount),
    ("scenario,T,,,", StudyWhy::FieldCount),
    ("scenario,T,1,", StudyWhy::FieldCount),
    ("scenario,T,,1", StudyWhy::FieldCount),
    ("price,B,1,2", StudyWhy::FieldCount),
    ("prices,B,1,", StudyWhy::UnknownKind),
    ("Scenario,T,,", StudyWhy::UnknownKind),
    (",T,,", StudyWhy::UnknownKind),
    ("scenario,.T,,", StudyWhy::BadName),
    ("scenario,,,", StudyWhy::BadName),
    ("scenario,S,,", StudyWhy::SameName),
    ("price,X,1,", StudyWhy::UnknownName),
    ("price,a,1,", StudyWhy::UnknownName),
    ("span,H,1,2", StudyWhy::UnknownName),
    ("price,A,8,", StudyWhy::Repeated),
    ("price,B,1x,", StudyWhy::BadNumber),
    ("price,B,,", StudyWhy::BadNumber),
    ("span,B,,5", StudyWhy::BadNumber),
    ("span,B,5,", StudyWhy::BadNumber),
    ("price,B,1000001,", StudyWhy::OutOfRange),
    ("span,B,-1000001,0", StudyWhy::OutOfRange),
    ("span,B,0,1000001", StudyWhy::OutOfRange),
    ("span,B,5,4", StudyWhy::BadRange),
    ("span,B,0,100000", StudyWhy::TooWide),
    ("prices,A,x", StudyWhy::FieldCount),
    ("scenario,.T,1,", StudyWhy::FieldCount),
    ("price,X,1,2", StudyWhy::FieldCount),
    ("price,X,x,", StudyWhy::UnknownName),
    ("price,A,x,", StudyWhy::Repeated),
    ("price,A,1000001,", StudyWhy::Repeated),
    ("span,X,x,1", StudyWhy::UnknownName),
    ("span,B,1000001,x", StudyWhy::BadNumber),
    ("span,B,1000000,-1000001", StudyWhy::OutOfRange),
    ("span,B,1000000,-1000000", StudyWhy::BadRange),
];

/// Rows behind the first two that are accepted: names that a utility or a stream has, the least and
/// the greatest price, the widest span, a span of one price, a span that stands twice, leading
/// zeros, and rows that say nothing.
const SOUND_ROWS: &[&str] = &[
    "scenario,A,,",
    "scenario,HOT,,",
    "price,B,-1000000,",
    "price,G,1000000,",
    "price,B,007,",
    "span,B,0,99999",
    "span,A,-3,-3",
    "span,A,0,1\nspan,A,0,1",
    ",,,",
    "#,any,thing,",
];

/// Files that are refused, the row at fault, and why.
const FAULTY_FILES: &[(&str, u32, StudyWhy)] = &[
    ("", 1, StudyWhy::NoItem),
    ("#,,,\n\n,,,\n", 3, StudyWhy::NoItem),
    ("# a comment", 1, StudyWhy::FieldCount),
    ("price,A,2,", 1, StudyWhy::NoScenario),
    ("price,X,x,", 1, StudyWhy::NoScenario),
    ("price,A,2,2", 1, StudyWhy::FieldCount),
    ("span,A,1,2\nprice,B,2,", 2, StudyWhy::NoScenario),
    ("scenario,.S,,\nspan,A,2,1", 1, StudyWhy::BadName),
    ("span,A,2,1\nscenario,.S,,", 1, StudyWhy::BadRange),
    (
        "scenario,S,,\nprice,A,1,\nspan,B,1,2\n#,,,\nprice,A,2,",
        5,
        StudyWhy::Repeated,
    ),
    (
        "scenario,S,,\nprice,A,1,\nscenario,T,,\nprice,A,2,\nprice,A,3,",
        5,
        StudyWhy::Repeated,
    ),
];

/// The study that a text asks of a case, or its fault.
fn read(rt: &(impl Abort + AllocGlobal), case: &Case, text: &str) -> Result<Study, StudyFault>
    requires { IsComplete case.now }
    ensures { IfOk result (IsStudy case.now) }
{
    assert!(rt; text.len() <= LONGEST);
    read_study(rt.alloc(), case, text.as_bytes())
}

fn assert_refused(rt: &(impl Abort + AllocGlobal), case: &Case, text: &str, row: u32, why: StudyWhy)
    requires { IsComplete case.now }
{
    let fault = read(rt, case, text).err();
    assert_eq!(rt; fault, Some(StudyFault::Row { row, why }), "in {text:?}");
}

fn assert_accepted(rt: &(impl Abort + AllocGlobal), case: &Case, text: &str)
    requires { IsComplete case.now }
{
    assert_same(rt, text, &read(rt, case, text).err(), &None);
}

#[test]
fn faulty_rows_are_refused(rt: HostRuntime) -> Result<(), Fail> {
    let case = completed_case(rt.alloc(), &RESTRICTED)?;
    for (row, why) in FAULTY_ROWS {
        let text = format!(in rt.alloc(); "{FIRST_ROWS}{row}\n")?;
        assert_refused(&rt, &case, text.as_str(), 3, *why);
    }
    for (text, row, why) in FAULTY_FILES {
        assert_refused(&rt, &case, text, *row, *why);
    }
    Ok(())
}

#[test]
fn sound_rows_are_accepted(rt: HostRuntime) -> Result<(), Fail> {
    let case = completed_case(rt.alloc(), &RESTRICTED)?;
    for row in SOUND_ROWS {
        let text = format!(in rt.alloc(); "{FIRST_ROWS}{row}\n")?;
        assert_accepted(&rt, &case, text.as_str());
    }
    Ok(())
}

/// An item of a study: a scenario with its name, 0 and its prices, or, without a name, a span with
/// the index of its utility, its first and its last price.
type ItemRow = (&'static str, u32, &'static [i64]);

/// A text behind a byte order mark, with quotes, a price row behind a span row, and rows that say
/// nothing.
const PRICED_TEXT: &str = "\u{feff}scenario,\"S\",,\r\nprice,B,30,\n#,,,\nspan,A,0,5\nprice,G,-4,\n\
    scenario,T,,\nspan,\"G\",\"-2\",2\n\nscenario,U,,\nprice,A,0,\nprice,\"E\",1,";

/// What it asks of the case whose prices are 5, 3, 2, -1, 0 and 4.
const PRICED_ITEMS: &[ItemRow] = &[
    ("S", 0, &[5, 30, 2, -1, 0, -4]),
    ("", 0, &[0, 5]),
    ("T", 0, &[5, 3, 2, -1, 0, 4]),
    ("", 5, &[-2, 2]),
    ("U", 0, &[0, 3, 2, 1, 0, 4]),
];

fn item_of(alloc: Global, row: &ItemRow) -> Result<StudyItem, Fail> {
    let (text, utility, numbers) = *row;
    if let [from, to] = numbers {
        return Ok(StudyItem::Span {
            utility,
            from: *from,
            to: *to,
        });
    }
    Ok(StudyItem::Scenario {
        name: name(text)?,
        prices: Items::from_vec(numbers.to_vec(alloc)?),
    })
}

fn items_of(alloc: Global, rows: &[ItemRow]) -> Result<Vec<StudyItem>, Fail> {
    let mut items = Vec::new(alloc);
    for row in rows {
        items.push(item_of(alloc, row)?)?;
    }
    Ok(items)
}

#[test]
fn a_price_belongs_to_the_last_scenario_above(rt: HostRuntime) -> Result<(), Fail> {
    let case = completed_case(rt.alloc(), &RESTRICTED)?;
    let wanted = items_of(rt.alloc(), PRICED_ITEMS)?;
    let Ok(study) = read(&rt, &case, PRICED_TEXT) else {
        return Err("the text is refused".into());
    };
    assert_lists(&rt, "the items", study.items.as_slice(), &wanted);
    Ok(())
}

/// A file of so many scenarios, and as many spans.
fn long_text(rt: &(impl Abort + AllocGlobal), pairs: u32) -> Result<String, Fail> {
    let mut text = String::new(rt.alloc());
    for number in 0..pairs {
        let rows = format!(in rt.alloc(); "scenario,S{number},,\nspan,A,0,1\n")?;
        text.push_str(rows.as_str())?;
    }
    Ok(text)
}

#[test]
fn a_thousand_items_are_accepted(rt: HostRuntime) -> Result<(), Fail> {
    let case = completed_case(rt.alloc(), &RESTRICTED)?;
    let mut text = long_text(&rt, 500)?;
    text.push_str("price,A,1,\n")?;
    assert_accepted(&rt, &case, text.as_str());
    for row in ["span,X,x,x\n", "scenario,.T,,\n"] {
        let more = format!(in rt.alloc(); "{text}{row}")?;
        assert_refused(&rt, &case, more.as_str(), 1002, StudyWhy::TooMany);
    }
    Ok(())
}
