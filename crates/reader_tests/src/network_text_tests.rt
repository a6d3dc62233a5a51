//! Texts of networks that are read, or refused at a line.
ghost use Rattle.stream_case.specs.Case.{IsComplete};

use crate::compare::{assert_lists, assert_same};
use fractions::Frac;
use network_text::{Branch, Line, NetFault, NetWhy, read_network};
use std::alloc::{AllocError, Global};
use std::process::Abort;
use std::test::Fail;
use stream_case::{Case, Source};
use worked_tables::{FOUR_STREAMS, SIX_EXCHANGERS, TWO_STREAMS, completed_case, name, repeated};

/// The same network with tabs, runs of blanks, comments, empty lines, `\r\n` and no last end.
const ODD_LAYOUT: &[u8] =
    b"# six exchangers\r\n\r\nexchanger\tE1 H2 C3 240000\r\n  exchanger   E2\t\tH4 C1 0090000\r\nexchanger E3 H2 C1 180000/2 \t\n#exchanger E4 H4 C1 1\nexchanger E4 H4 C1 30000\n\t \n \t# utilities\nexchanger Q1 HOT C1 20000\nexchanger Q2 H4 COLD 60000\npass H2 E1 h2a\npass h2a E3 h2b\r\nend h2b\n\n\npass H4 E2 h4a\npass h4a E4 h4b\npass h4b Q2 h4c\nend\t\th4c\npass C1 E4 c1a\npass c1a E3 c1b\npass c1b E2 c1c\npass c1c Q1 c1d\nend c1d\npass C3 E1 c3a\n \r\nend c3a";

/// The most bytes of a file.
const LONGEST: usize = 8_388_608;

/// A text for the two streams, the statement at fault, and why.
const FAULTY_TEXTS: &[(&[u8], u32, NetWhy)] = &[
    (b"heat E1", 1, NetWhy::UnknownWord),
    (b"end", 1, NetWhy::FieldCount),
    (b"end H H", 1, NetWhy::FieldCount),
    (b"exchanger E1 H C x", 1, NetWhy::BadNumber),
    (b"exchanger E1 H D 5", 1, NetWhy::UnknownName),
    (b"exchanger E1 C H 5", 1, NetWhy::WrongSide),
    (b"exchanger E1 COLD HOT 5", 1, NetWhy::WrongSide),
    (
        b"exchanger E1 H C 5\nexchanger E1 H C 6",
        2,
        NetWhy::SameName,
    ),
    (b"end z", 1, NetWhy::UnknownBranch),
    (b"end .z/", 1, NetWhy::UnknownBranch),
    (b"end H\nend H", 2, NetWhy::SpentBranch),
    (
        b"exchanger E1 H C 5\npass H E1 a\npass a E1 b",
        3,
        NetWhy::WrongPass,
    ),
    (b"exchanger E1 HOT C 5\npass H E1 a", 2, NetWhy::WrongPass),
    (b"exchanger E1 H C 5\npass H E1 a", 1, NetWhy::MissingPass),
    (
        b"# one\nexchanger E0 HOT COLD 1\n\nexchanger E1 H C 5\npass H E1 a\nend a",
        2,
        NetWhy::MissingPass,
    ),
    (b"exchanger E1 H C 0", 1, NetWhy::NotPositive),
    (b"mix H C a", 1, NetWhy::OtherStream),
    (b"mix H H a", 1, NetWhy::SpentBranch),
    (b"split H a+ 1 b", 1, NetWhy::BadName),
    (b"split H a x b+", 1, NetWhy::BadNumber),
    (b"split H a 1 a", 1, NetWhy::SameName),
    (b"split H a 1 C", 1, NetWhy::SameName),
    (b"exchanger .E H C 5", 1, NetWhy::BadName),
    (b"pass H E1 a", 1, NetWhy::UnknownName),
    (b"# a comment\n\nend z", 1, NetWhy::UnknownBranch),
    (b"\xEF\xBB\xBFend H", 1, NetWhy::UnknownWord),
    (b"end H\r", 1, NetWhy::UnknownBranch),
    (b"end H\r\r\n", 1, NetWhy::UnknownBranch),
    (b"end\x00H", 1, NetWhy::UnknownWord),
    (b"end H\x00", 1, NetWhy::UnknownBranch),
    (b"split H a\xFF 1 b", 1, NetWhy::BadName),
    (b"\xFF\xFE\x00", 1, NetWhy::UnknownWord),
    (b"end\x0BH", 1, NetWhy::UnknownWord),
    (b"exchanger E1 H C 5\xC2\xB2", 1, NetWhy::BadNumber),
    (b"exchanger E HOT COLD 1/0", 1, NetWhy::BadNumber),
    (b"exchanger E HOT COLD -3", 1, NetWhy::NotPositive),
    (b"exchanger E HOT COLD -0", 1, NetWhy::NotPositive),
    (b"exchanger E HOT COLD 0/5", 1, NetWhy::NotPositive),
    (
        b"exchanger E HOT COLD 1/281474976710657",
        1,
        NetWhy::BadNumber,
    ),
    (
        b"exchanger E HOT COLD 75557863725914323419137",
        1,
        NetWhy::BadNumber,
    ),
    (
        b"exchanger E HOT COLD 0000000000000000000000001",
        1,
        NetWhy::BadNumber,
    ),
    (
        b"exchanger E HOT COLD 500000000000000000000000/1000000000000000000000000",
        1,
        NetWhy::BadNumber,
    ),
    (b"exchanger E HOT COLD -", 1, NetWhy::BadNumber),
    (b"exchanger E HOT COLD /2", 1, NetWhy::BadNumber),
    (b"exchanger E HOT COLD 1/", 1, NetWhy::BadNumber),
    (b"exchanger E HOT COLD 1/-2", 1, NetWhy::BadNumber),
    (b"exchanger E HOT COLD 1/2/3", 1, NetWhy::BadNumber),
    (b"exchanger E HOT COLD +1", 1, NetWhy::BadNumber),
    (b"exchanger E HOT COLD 1.5", 1, NetWhy::BadNumber),
];

/// A split, two passes through an exchanger that is named as a stream, a mix and an end.
const MIXED: &[u8] =
    b"exchanger C H C 3/2\nsplit H .a 4 .b\npass .a C c\npass C C .d\nmix c .b e\nend e\n";

/// The branches of that network, each with its stream.
const MIXED_BRANCHES: &[(&str, u32)] = &[
    ("H", 0),
    ("C", 1),
    (".a", 0),
    (".b", 0),
    ("c", 0),
    (".d", 1),
    ("e", 0),
];

/// How many branches and how many statements a text gives.
fn counts_of(alloc: Global, case: &Case, text: &[u8]) -> Result<(usize, usize), NetFault>
    requires { IsComplete case.now }
{
    let network = read_network(alloc, case, text)?;
    Ok((network.branches.len(), network.lines.len()))
}

fn assert_refused(rt: &(impl Abort + AllocGlobal), case: &Case, text: &[u8], line: u32, why: NetWhy)
    requires { IsComplete case.now }
{
    let counts = counts_of(rt.alloc(), case, text);
    let fault = NetFault::At { line, why };
    assert_eq!(rt; counts, Err(fault), "in {text:?}");
}

#[test]
fn faulty_texts_are_refused(rt: HostRuntime) -> Result<(), Fail> {
    let case = completed_case(rt.alloc(), &TWO_STREAMS)?;
    for (text, line, why) in FAULTY_TEXTS {
        assert_refused(&rt, &case, text, *line, *why);
    }
    Ok(())
}

#[test]
fn layout_does_not_matter(rt: HostRuntime) -> Result<(), Fail> {
    let case = completed_case(rt.alloc(), &FOUR_STREAMS)?;
    let counts = counts_of(rt.alloc(), &case, SIX_EXCHANGERS);
    assert_same(&rt, "six exchangers", &counts, &Ok((14, 20)));
    let cut = &SIX_EXCHANGERS[..SIX_EXCHANGERS.len() - 23];
    assert_refused(&rt, &case, cut, 1, NetWhy::MissingPass);
    let network = read_network(rt.alloc(), &case, SIX_EXCHANGERS);
    let odd = read_network(rt.alloc(), &case, ODD_LAYOUT);
    assert_same(&rt, "the odd layout", &odd, &network);
    Ok(())
}

fn branches_of(alloc: Global, rows: &[(&str, u32)]) -> Result<Vec<Branch>, Fail> {
    let mut branches = Vec::new(alloc);
    for (text, stream) in rows {
        branches.push(Branch {
            name: name(text)?,
            stream: *stream,
        })?;
    }
    Ok(branches)
}

/// The exchanger of that network.
fn exchanger() -> Result<Line, Fail> {
    Ok(Line::Exchanger {
        name: name("C")?,
        hot: Source::Stream(0),
        cold: Source::Stream(1),
        duty: Frac::new(3, 2).ok_or("a fraction")?,
    })
}

/// Its statements.
fn statements() -> Result<[Line; 6], Fail> {
    Ok([
        exchanger()?,
        Line::Split {
            from: 0,
            first: 2,
            cp: Frac::whole(4),
            second: 3,
        },
        Line::Pass {
            from: 2,
            exchanger: 0,
            to: 4,
        },
        Line::Pass {
            from: 1,
            exchanger: 0,
            to: 5,
        },
        Line::Mix {
            first: 4,
            second: 3,
            to: 6,
        },
        Line::End { branch: 6 },
    ])
}

#[test]
fn branches_and_exchangers_have_numbers(rt: HostRuntime) -> Result<(), Fail> {
    let statements = statements()?;
    let branches = branches_of(rt.alloc(), MIXED_BRANCHES)?;
    let case = completed_case(rt.alloc(), &TWO_STREAMS)?;
    let network = read_network(rt.alloc(), &case, MIXED)?;
    assert_lists(&rt, "the branches", network.branches.as_slice(), &branches);
    assert_lists(&rt, "the statements", network.lines.as_slice(), &statements);
    Ok(())
}

/// The text of so many exchangers between H and C.
fn exchangers(alloc: Global, count: u32) -> Result<String, AllocError> {
    let mut text = String::new(alloc);
    for number in 0..count {
        let line = format!(in alloc; "exchanger E{number} H C 1\n")?;
        text.push_str(&line)?;
    }
    Ok(text)
}

#[test]
fn exchangers_past_the_count_are_refused(rt: HostRuntime) -> Result<(), Fail> {
    let case = completed_case(rt.alloc(), &TWO_STREAMS)?;
    let text = exchangers(rt.alloc(), 20_001)?;
    assert_refused(&rt, &case, text.as_bytes(), 20_001, NetWhy::TooMany);
    let text = exchangers(rt.alloc(), 20_000)?;
    assert_refused(&rt, &case, text.as_bytes(), 1, NetWhy::MissingPass);
    Ok(())
}

/// The text of so many splits, each of the second branch of the one before, and a long comment
/// behind each.
fn splits(alloc: Global, count: u32) -> Result<String, AllocError> {
    let mut text = String::from_str(alloc, "split H a0 1 b0\n")?;
    for number in 1..count {
        let before = number - 1;
        let line = format!(in alloc;
            "split b{before} a{number} 1/{number} b{number}\n\
             # the second branch is divided again and again\n"
        )?;
        text.push_str(&line)?;
    }
    Ok(text)
}

#[test]
fn statements_past_the_count_are_refused(rt: HostRuntime) -> Result<(), Fail> {
    let mut text = splits(rt.alloc(), 100_000)?;
    assert_same(&rt, "a short text", &(text.len() <= LONGEST), &true);
    let case = completed_case(rt.alloc(), &TWO_STREAMS)?;
    let counts = counts_of(rt.alloc(), &case, text.as_bytes());
    assert_same(&rt, "100,000 splits", &counts, &Ok((200_002, 100_000)));
    text.push_str("heat")?;
    assert_refused(&rt, &case, text.as_bytes(), 100_001, NetWhy::TooMany);
    Ok(())
}

/// The first sixteen bytes of a line of 8 MiB, the sixteen that follow again and again, and
/// whether the line is a statement.
const LONG_LINES: &[(&[u8], &[u8], bool)] = &[
    (b"eeeeeeeeeeeeeeee", b"eeeeeeeeeeeeeeee", true),
    (
        b"\t\t\t\t\t\t\t\t\t\t\t\t\t\t\t\t",
        b"                ",
        false,
    ),
    (b"# # # # # # # # ", b"# # # # # # # # ", false),
    (b"e # # # # # # # ", b"# # # # # # # # ", true),
];

#[test]
fn a_long_line_is_one_statement(rt: HostRuntime) -> Result<(), Fail> {
    let case = completed_case(rt.alloc(), &TWO_STREAMS)?;
    for (first, again, is_statement) in LONG_LINES {
        let text = repeated(rt.alloc(), first, again, 524_287, b"")?;
        if *is_statement {
            assert_refused(&rt, &case, &text, 1, NetWhy::UnknownWord);
        } else {
            let counts = counts_of(rt.alloc(), &case, &text);
            assert_same(&rt, "no statement", &counts, &Ok((2, 0)));
        }
    }
    Ok(())
}
