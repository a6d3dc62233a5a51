//! A span of the prices of one of twelve heaters.
ghost use Rattle.std.specs.Prelude.{IfOk};
ghost use Rattle.stream_case.specs.Case.{IsComplete};

use crate::compare::assert_same;
use crate::numbered::numbered_utility;
use std::alloc::{AllocGlobal, Global};
use std::test::Fail;
use std::thread::Threads;
use stream_case::Side::{Cold, Hot};
use stream_case::{Case, Items, Utility};
use study::{OpenGate, Segment, StudyAnswer, price_study, read_study};
use worked_tables::{completed, stream};

/// Twelve heaters, each ten a watt dearer than the one before; the first can give 5,000 W, the others
/// 200 W.
fn twelve_heaters(alloc: Global) -> Result<Vec<Utility>, Fail> {
    let mut utilities = Vec::new(alloc);
    for number in 0..12u8 {
        let level = 1000 + i32::from(number);
        let most = if number == 0 { 5000 } else { 200 };
        let price = 10 * i64::from(number);
        utilities.push(numbered_utility(alloc, number, Hot, level, (most, price))?)?;
    }
    Ok(utilities)
}

/// A cold stream that wants 3,000 W from them, completed.
fn heated_case(alloc: Global) -> Result<Case, Fail>
    ensures { IfOk result IsComplete }
{
    let utilities = twelve_heaters(alloc)?;
    let streams = vec![in alloc; stream("C", Cold, (200, 500), 10, 0)?]?;
    let case = Case {
        contribution: 0,
        streams: Items::from_vec(streams),
        utilities: Items::from_vec(utilities),
        forbids: Items::new(alloc),
    };
    completed(alloc, &case)
}

/// Below 0 the first heater gives all of its 5,000 W. Then it gives 3,000 W, and for each heater that
/// is cheaper 200 W less; a span has no more segments, since only where two prices meet, or a hot and
/// a cold one add up to nothing, is another heat flow the cheapest one.
fn wanted_segments(alloc: Global) -> Result<Vec<Segment>, Fail> {
    let mut segments = Vec::new(alloc);
    let mut segment = Segment {
        from: -50,
        to: 0,
        base: 0,
        slope: 5000,
    };
    segments.push(segment)?;
    for cheaper in 0..12u8 {
        let number = i64::from(cheaper);
        segment.from = 10 * number + 1;
        segment.to = if cheaper == 11 { 200 } else { 10 * number + 10 };
        segment.base = segment.base.saturating_add(i128::from(2000 * number));
        segment.slope = i128::from(3000 - 200 * number);
        segments.push(segment)?;
    }
    Ok(segments)
}

const SPAN: &[u8] = b"span,U0,-50,200\n";

/// What is answered of the span.
fn answers_of<R: Threads + Sync + AllocGlobal>(
    rt: &R,
    case: &Case,
) -> Result<Items<StudyAnswer>, Fail>
    requires { IsComplete case.now }
{
    let study = read_study(rt.alloc(), case, SPAN)?;
    Ok(price_study(rt, rt.alloc(), &OpenGate, case, &study, 1)?)
}

#[test]
fn a_span_of_one_of_twelve_heaters_has_its_segments(rt: HostRuntime) -> Result<(), Fail> {
    let answers = answers_of(&rt, &heated_case(rt.alloc())?)?;
    let wanted = StudyAnswer::Segments(Items::from_vec(wanted_segments(rt.alloc())?));
    assert_same(&rt, "an answer", &answers.len(), &1);
    assert_same(&rt, "the segments", &answers.get(0), &Some(&wanted));
    Ok(())
}
