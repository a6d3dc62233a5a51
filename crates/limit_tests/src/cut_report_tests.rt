//! Reports of cuts with hundreds of parts, and with more parts than there are.
ghost use Rattle.stream_case.specs.Case.{IsComplete};

use crate::compare::assert_same;
use crate::wide_case::{twelve_utilities, wide_case};
use certify::{Checked, NoWhy, check_report, read_report};
use std::alloc::{AllocGlobal, Global};
use std::fmt::Write;
use std::process::Abort;
use std::test::Fail;
use stream_case::Case;
use stream_case::Side::Hot;

/// The most bytes of the reports.
const LONGEST: usize = 1_000_000;

fn push_parts(text: &mut String, streams: u32, high: i32, low: i32) -> Result<(), Fail> {
    for number in 0..streams {
        writeln!(text, "part C{number} {high} {low}")?;
    }
    Ok(())
}

/// The cold parts above all hot sources, from the top down, which need 256,500 W: at each step of a
/// degree one stream more, and then all streams down to the highest hot end.
fn cut_report(alloc: Global) -> Result<String, Fail> {
    let mut text = String::from_str(alloc, "infeasible\ncut demand 256500 0\n")?;
    for number in 0..29u8 {
        let low = 3280 - 10 * i32::from(number);
        push_parts(&mut text, u32::from(number) + 1, low + 10, low)?;
    }
    push_parts(&mut text, 30, 3000, 2290)?;
    Ok(text)
}

/// What a report proves of a case.
fn check_text(rt: &(impl Abort + AllocGlobal), case: &Case, text: &str) -> Result<Checked, Fail>
    requires { IsComplete case.now }
{
    assert!(rt; text.len() <= LONGEST);
    let report = read_report(rt.alloc(), text.as_bytes())?;
    Ok(check_report(rt.alloc(), case, &report)?)
}

/// What it proves of the wide streams with utilities amid them.
fn check(rt: &(impl Abort + AllocGlobal), text: &str) -> Result<Checked, Fail> {
    let utilities = twelve_utilities(rt.alloc(), Hot, 1, 1500)?;
    check_text(
        rt,
        &wide_case(rt.alloc(), utilities, Vec::new(rt.alloc()))?,
        text,
    )
}

#[test]
fn a_cut_of_hundreds_of_parts_is_proved(rt: HostRuntime) -> Result<(), Fail> {
    let text = cut_report(rt.alloc())?;
    let checked = check(&rt, &text)?;
    assert_same(&rt, "a true cut", &checked, &Checked::Yes);
    Ok(())
}

#[test]
fn a_cut_of_more_parts_than_there_are_is_none(rt: HostRuntime) -> Result<(), Fail> {
    let mut text = cut_report(rt.alloc())?;
    for _ in 0..200 {
        push_parts(&mut text, 30, 3000, 2290)?;
    }
    let checked = check(&rt, &text)?;
    let why = NoWhy::Cut;
    assert_same(&rt, "no cut", &checked, &Checked::No { why });
    Ok(())
}
