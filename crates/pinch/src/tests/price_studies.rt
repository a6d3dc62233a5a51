//! Price studies of cases that were worked by hand, by one worker and by several.

use super::latent::EVAPORATING;
use super::support::{
    FOUR_STREAM, Fails, NONE, Outcome, WORDS, check_count, check_end, check_front, line_count,
    outcome_by, outcome_of, outcome_under,
};
use meeting_gate::{MOST_TURNS, MeetingGate};
use std::alloc::{AllocError, Global};
use std::fmt::Write;
use std::process::Abort;
use std::test::Fail;
use std::thread::Threads;
use study::OpenGate;

/// The four-stream table with steam of two levels.
const TWO_LEVELS: &str = "contribution,,50,,,,
cold,C1,200,1350,200,,
hot,H2,1700,600,300,,
cold,C3,800,1400,400,,
hot,H4,1500,300,150,,
heater,HP,1700,0,1000000000000,3,
heater,LP,910,0,1000000000000,1,
";

/// A cooler that takes too little.
const TOO_LITTLE: &str = "contribution,,50,,,,
hot,H,1000,500,10,,
cold,C,300,400,10,,
cooler,CW,200,0,1000,0,
";

/// Four heaters, each of which serves a longer part of the stream, one that serves it whole, and a
/// cooler that takes nothing.
const LADDER: &str = "contribution,,50,,,,
cold,C,200,1000,10,,
heater,A1,400,0,1000000000000,1000,
heater,A2,600,0,1000000000000,20000,
heater,A3,800,0,1000000000000,50000,
heater,A4,1100,0,1000000000000,70000,
heater,X,1100,0,1000000000000,2000,
cooler,W,200,0,0,0,
";

/// How a price study of a case ends, by so many workers, where some calls fail.
fn study_under<R: Threads + Sync + AllocGlobal>(
    rt: &R,
    (case, study): (&str, &[u8]),
    workers: &str,
    fails: Fails<'_>,
) -> Result<Outcome, AllocError> {
    let words = ["prices", "plant.csv", "study.csv", workers];
    let files = [("plant.csv", case.as_bytes()), ("study.csv", study)];
    outcome_under(rt, &words, &files, fails)
}

/// A price study of a case ends with this status and this text, by so many workers.
fn check_study<R: Abort + Threads + Sync + AllocGlobal>(
    rt: &R,
    (case, study): (&str, &str),
    workers: &str,
    status: u8,
    text: &str,
) -> Result<(), Fail> {
    let outcome = study_under(rt, (case, study.as_bytes()), workers, NONE)?;
    check_end(rt, &(study, workers), &outcome, status, text.as_bytes());
    Ok(())
}

/// Cases, price studies of them, and their answers.
const STUDIES: &[(&str, &str, &str)] = &[
    (
        TWO_LEVELS,
        "scenario,S1,,\nprice,LP,2,\nspan,LP,0,5\n",
        "scenario S1 58500\nspan LP 0 3 55500 1500\nspan LP 4 5 60000 0\n",
    ),
    (
        TOO_LITTLE,
        "scenario,S,,\nspan,CW,0,3\n",
        "scenario S infeasible\nspan CW infeasible\n",
    ),
    // As many prices as a span may have, above 0 and below it.
    (
        LADDER,
        "span,X,0,99999\nspan,X,-1000000,-900001\n",
        "span X 0 1000 0 8000\nspan X 1001 20000 1000000 7000\n\
         span X 20001 50000 41000000 5000\nspan X 50001 70000 141000000 3000\n\
         span X 70001 99999 351000000 0\nspan X -1000000 -900001 0 8000\n",
    ),
    // One price, a segment of one price, and a utility that takes nothing.
    (
        LADDER,
        "span,X,7,7\nspan,X,0,1001\nspan,W,5,7\nspan,A1,0,3000\n",
        "span X 7 7 56000 0\nspan X 0 1000 0 8000\nspan X 1001 1001 8007000 0\n\
         span W 5 7 15000000 0\nspan A1 0 2000 14000000 1000\nspan A1 2001 3000 16000000 0\n",
    ),
    // The same prices again, those of the case, and a price row behind a span row. Comments and
    // empty rows say nothing.
    (
        LADDER,
        "# prices,,,\nscenario,One,,\nprice,X,-5,\nprice,A1,-7,\n,,,\nscenario,Two,,\n\
         price,A1,-7,\nprice,X,-5,\nscenario,Case,,\nscenario,Three,,\nspan,X,7,7\nprice,X,1,\n",
        "scenario One -42000\nscenario Two -42000\nscenario Case 15000000\n\
         scenario Three 8000\nspan X 7 7 56000 0\n",
    ),
    // The standard utilities. Where HOT is paid for, it gives COLD as much as that takes.
    (
        FOUR_STREAM,
        "span,HOT,0,3\nspan,COLD,0,1\nspan,HOT,-2,1\nscenario,S,,\nprice,HOT,5,\nprice,COLD,2,\n",
        "span HOT 0 3 0 20000\nspan COLD 0 1 20000 60000\nspan HOT -2 0 0 999999960000\n\
         span HOT 1 1 20000 0\nscenario S 220000\n",
    ),
    // A stream that evaporates: 3000 W of HOT and of COLD.
    (
        EVAPORATING,
        "scenario,S,,\nprice,HOT,2,\nspan,HOT,0,3\nspan,COLD,0,1\n",
        "scenario S 6000\nspan HOT 0 3 0 3000\nspan COLD 0 1 3000 3000\n",
    ),
];

#[test]
fn any_workers_print_the_same_answers(rt: HostRuntime) -> Result<(), Fail> {
    for (case, study, text) in STUDIES {
        for workers in ["1", "3", "16"] {
            check_study(&rt, (case, study), workers, 0, text)?;
        }
    }
    Ok(())
}

/// Price studies of the four-stream table, and how they are refused.
const REFUSED: &[(&str, &str)] = &[
    ("scenario,S,\n", "row 1 FieldCount"),
    ("scenario,S,,,\n", "row 1 FieldCount"),
    ("scenario,S,,5\n", "row 1 FieldCount"),
    ("price,HOT,1,5\n", "row 1 FieldCount"),
    ("heater,HOT,1,5\n", "row 1 UnknownKind"),
    ("price,HOT,2,\n", "row 1 NoScenario"),
    ("span,HOT,0,1\nprice,HOT,2,\n", "row 2 NoScenario"),
    ("scenario,S S,,\n", "row 1 BadName"),
    ("scenario,.S,,\n", "row 1 BadName"),
    ("scenario,S,,\nscenario,S,,\n", "row 2 SameName"),
    ("span,LP,0,1\n", "row 1 UnknownName"),
    ("scenario,S,,\nprice,C1,1,\n", "row 2 UnknownName"),
    (
        "scenario,S,,\nprice,HOT,1,\nspan,HOT,0,1\nprice,HOT,1,\n",
        "row 4 Repeated",
    ),
    ("span,HOT,0,+1\n", "row 1 BadNumber"),
    ("span,HOT,0,1000001\n", "row 1 OutOfRange"),
    ("scenario,S,,\nprice,HOT,-1000001,\n", "row 2 OutOfRange"),
    ("span,HOT,2,1\n", "row 1 BadRange"),
    ("span,HOT,0,100000\n", "row 1 TooWide"),
    ("", "row 1 NoItem"),
    ("#,,,\n,,,\n", "row 3 NoItem"),
    // Two faults, in both orders.
    ("span,HOT,1000001,x\n", "row 1 BadNumber"),
    ("price,LP,x,\n", "row 1 NoScenario"),
    ("span,LP,x,1\n", "row 1 UnknownName"),
    ("span,HOT,1,0\nspan,HOT,0\n", "row 1 BadRange"),
    ("span,HOT,0\nspan,HOT,1,0\n", "row 1 FieldCount"),
];

#[test]
fn a_price_study_is_refused_with_its_cause(rt: HostRuntime) -> Result<(), Fail> {
    let alloc = rt.alloc();
    for (study, rest) in REFUSED {
        let text = format!(in alloc; "study {rest}\n")?;
        check_study(&rt, (FOUR_STREAM, study), "1", 4, text.as_str())?;
    }
    Ok(())
}

const LONGEST_FILE: usize = 8_388_608;

/// A case, how many bytes its study has, the calls of the shelf that fail, the status, and the
/// text.
const FILES: &[(&str, usize, &[u64], u8, &str)] = &[
    ("", 1, &[], 3, "case row 1 NoContribution\n"),
    (FOUR_STREAM, 1, &[4], 6, "read fault study\n"),
    (FOUR_STREAM, LONGEST_FILE + 1, &[], 5, "too long study\n"),
    (
        FOUR_STREAM,
        LONGEST_FILE,
        &[],
        4,
        "study row 1 FieldCount\n",
    ),
];

#[test]
fn the_files_of_a_price_study_are_blamed_in_their_order(rt: HostRuntime) -> Result<(), Fail> {
    for (case, count, shelf, status, text) in FILES {
        let study = vec![in rt.alloc(); b'#'; *count]?;
        let fails = Fails { shelf, sink: &[] };
        let outcome = study_under(&rt, (case, &study), "2", fails)?;
        check_end(&rt, count, &outcome, *status, text.as_bytes());
    }
    Ok(())
}

/// One cold stream, so that a thousand least costs are soon had.
const ONE_COLD: &str = "contribution,,50,,,,\ncold,C,300,700,10,,\n";

/// So many scenarios.
fn scenarios_of(alloc: Global, count: u32) -> Result<String, AllocError> {
    let mut study = String::new(alloc);
    for k in 0..count {
        writeln!(study, "scenario,S{k},,")?;
    }
    Ok(study)
}

/// A price study of as many items as there may be has an answer to each, and one more is too many.
fn check_most<R: Abort + Threads + Sync + AllocGlobal>(
    rt: &R,
    study: &mut String,
    front: &str,
    more: &str,
) -> Result<(), Fail> {
    let outcome = study_under(rt, (ONE_COLD, study.as_bytes()), "4", NONE)?;
    check_front(rt, &front, &outcome, 0, front);
    check_count(rt, &front, line_count(&outcome.written), 1000);
    study.push_str(more)?;
    let text = "study row 1001 TooMany\n";
    check_study(rt, (ONE_COLD, study.as_str()), "4", 4, text)
}

#[test]
fn as_many_items_as_there_may_be(rt: HostRuntime) -> Result<(), Fail> {
    let alloc = rt.alloc();
    let mut scenarios = scenarios_of(alloc, 1000)?;
    let front = "scenario S0 4000\nscenario S1 4000\n";
    check_most(&rt, &mut scenarios, front, "span,HOT,0,1\n")?;
    let mut spans = "span,HOT,3,3\n".repeat(alloc, 1000)?;
    let front = "span HOT 3 3 12000 0\nspan HOT 3 3 12000 0\n";
    check_most(&rt, &mut spans, front, "scenario,S,,\n")
}

/// Words of no price study.
const NO_STUDIES: &[&[&str]] = &[
    &["prices", "plant.csv", "study.csv"],
    &["prices", "plant.csv", "study.csv", "1", "1"],
    &["prices", "", "study.csv", "1"],
    &["prices", "plant.csv", "", "1"],
    &["prices", "plant.csv", "study.csv", "0"],
    &["prices", "plant.csv", "study.csv", "17"],
    &["prices", "plant.csv", "study.csv", "one"],
];

#[test]
fn other_words_are_no_price_study(rt: HostRuntime) -> Result<(), Fail> {
    let files = [
        ("plant.csv", FOUR_STREAM.as_bytes()),
        ("study.csv", b"scenario,S,,\n".as_slice()),
    ];
    for row in NO_STUDIES {
        let outcome = outcome_of(&rt, row, &files)?;
        check_end(&rt, &row, &outcome, 2, WORDS.as_bytes());
        check_count(&rt, &row, outcome.calls, 0);
    }
    Ok(())
}

#[test]
fn two_items_meet(rt: HostRuntime) -> Result<(), Fail> {
    let words = ["prices", "plant.csv", "study.csv", "2"];
    let study = "scenario,S1,,\nscenario,S2,,\n";
    let files = [
        ("plant.csv", TWO_LEVELS.as_bytes()),
        ("study.csv", study.as_bytes()),
    ];
    let text = "scenario S1 57000\nscenario S2 57000\n";
    let gate = MeetingGate::new(MOST_TURNS);
    let outcome = outcome_by(&rt, &gate, &words, &files)?;
    check_end(&rt, &words, &outcome, 0, text.as_bytes());
    assert_eq!(rt; gate.counts(), [1, 1, 1, 1, 0]);
    let outcome = outcome_by(&rt, &OpenGate, &words, &files)?;
    check_end(&rt, &words, &outcome, 0, text.as_bytes());
    Ok(())
}
