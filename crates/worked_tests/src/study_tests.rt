//! Sweeps by several workers and samples, in cases that were worked by hand.
ghost use Rattle.std.specs.Prelude.{◌≤◌};
ghost use Rattle.stream_case.specs.Case.{IsComplete};
ghost use Rattle.study.specs.Plan.{IsSweepPlan};

use crate::compare::{assert_lists, assert_same};
use meeting_gate::{MOST_TURNS, MeetingGate};
use problem_table::{Target, targets};
use std::alloc::{AllocError, Global};
use std::process::Abort;
use std::test::Fail;
use std::thread;
use stream_case::Side::{Cold, Hot};
use stream_case::{Case, Forbid, Side, Source, Stream};
use study::{OpenGate, SweepPlan, SweepRow, sample_case, sweep};
use transport::case_cost;
use worked_tables::{FOUR_STREAMS, TOO_LITTLE_COOLING, Table, case_of, completed};

/// A row: contribution, hot and cold target, and least cost.
type Row = (i32, i64, i64, Option<i128>);

/// The four streams at contributions from 0 to 100.
const FOUR_STREAM_ROWS: &[Row] = &[
    (0, 0, 40_000, Some(0)),
    (10, 0, 40_000, Some(0)),
    (20, 0, 40_000, Some(0)),
    (30, 2_000, 42_000, Some(2_000)),
    (40, 11_000, 51_000, Some(11_000)),
    (50, 20_000, 60_000, Some(20_000)),
    (60, 29_000, 69_000, Some(29_000)),
    (70, 38_000, 78_000, Some(38_000)),
    (80, 47_000, 87_000, Some(47_000)),
    (90, 56_000, 96_000, Some(56_000)),
    (100, 65_000, 105_000, Some(65_000)),
];

fn rows_of(alloc: Global, rows: &[SweepRow]) -> Result<Vec<Row>, AllocError> {
    let mut found = Vec::new(alloc);
    for row in rows {
        found.push((row.contribution, row.hot, row.cold, row.cost))?;
    }
    Ok(found)
}

/// Compares the rows of a table.
fn check_rows<R: Abort + thread::Threads + Sync + AllocGlobal>(
    rt: &R,
    table: &Table,
    plan: SweepPlan,
    workers: u32,
    wanted: &[Row],
) -> Result<(), Fail>
    requires plan { IsSweepPlan plan }
    requires some_workers { 1 ≤ workers }
    requires few_workers { workers ≤ 16 }
{
    let case = case_of(rt.alloc(), table)?;
    let rows = sweep(rt, rt.alloc(), &OpenGate, &case, plan, workers)?;
    let found = rows_of(rt.alloc(), rows.as_slice())?;
    assert_lists(rt, "the rows", &found, wanted);
    Ok(())
}

const ALL_ROWS: SweepPlan = SweepPlan {
    from: 0,
    to: 100,
    step: 10,
};

#[test]
fn any_workers_make_the_same_rows(rt: HostRuntime) -> Result<(), Fail> {
    check_rows(&rt, &FOUR_STREAMS, ALL_ROWS, 1, FOUR_STREAM_ROWS)?;
    check_rows(&rt, &FOUR_STREAMS, ALL_ROWS, 4, FOUR_STREAM_ROWS)?;
    check_rows(&rt, &FOUR_STREAMS, ALL_ROWS, 16, FOUR_STREAM_ROWS)
}

#[test]
fn a_sweep_ends_at_or_before_its_end(rt: HostRuntime) -> Result<(), Fail> {
    let plan = SweepPlan {
        from: 40,
        to: 69,
        step: 10,
    };
    check_rows(&rt, &FOUR_STREAMS, plan, 4, &FOUR_STREAM_ROWS[4..7])?;
    let plan = SweepPlan {
        from: 50,
        to: 50,
        step: 1,
    };
    check_rows(&rt, &FOUR_STREAMS, plan, 3, &FOUR_STREAM_ROWS[5..6])?;
    check_rows(&rt, &TOO_LITTLE_COOLING, plan, 1, &[(50, 0, 4_000, None)])
}

#[test]
fn two_rows_meet(rt: HostRuntime) -> Result<(), Fail> {
    let case = case_of(rt.alloc(), &FOUR_STREAMS)?;
    let plan = SweepPlan {
        from: 0,
        to: 10,
        step: 10,
    };
    let gate = MeetingGate::new(MOST_TURNS);
    let rows = sweep(&rt, rt.alloc(), &gate, &case, plan, 2)?;
    let found = rows_of(rt.alloc(), rows.as_slice())?;
    assert_lists(&rt, "the rows", &found, &FOUR_STREAM_ROWS[..2]);
    assert_same(&rt, "the counts", &gate.counts(), &[1, 1, 1, 1, 0]);
    Ok(())
}

/// A stream: its side, its supply and its target, and its heat-capacity flow.
type Drawn = (Side, i32, i32, i64);

fn drawn_of(alloc: Global, streams: &[Stream]) -> Result<Vec<Drawn>, AllocError> {
    let mut found = Vec::new(alloc);
    for stream in streams {
        found.push((stream.side, stream.supply, stream.target, stream.cp))?;
    }
    Ok(found)
}

fn cost_of(alloc: Global, case: &Case) -> Result<(Target, Option<i128>), AllocError>
    requires { IsComplete case.now }
{
    let targets = targets(case);
    Ok((targets, case_cost(alloc, case, targets)?.ok()))
}

/// A sample of the first number: its hot and its cold streams each, what is drawn of the first
/// ones, and the number of the one hot stream whose pair is forbidden. The draws were worked out by
/// a second generator.
type SampleRow = (u32, &'static [Drawn], u32);

const SAMPLES: &[SampleRow] = &[
    (1, &[(Hot, 1857, 607, 74), (Cold, 158, 589, 273)], 0),
    (
        2,
        &[
            (Hot, 1857, 607, 74),
            (Hot, 889, 458, 273),
            (Cold, 1044, 1923, 424),
            (Cold, 709, 2150, 166),
        ],
        0,
    ),
    (
        12,
        &[
            (Hot, 1857, 607, 74),
            (Hot, 889, 458, 273),
            (Hot, 2223, 1344, 424),
            (Hot, 2450, 1009, 166),
        ],
        5,
    ),
];

/// Compares a sample of the first number.
fn check_sample(rt: &(impl Abort + AllocGlobal), row: &SampleRow) -> Result<(), Fail> {
    let (count, wanted, hot) = *row;
    if count == 0 || count > 12 {
        return Err("no such sample".into());
    }
    let case = sample_case(rt.alloc(), 1, count)?;
    assert_same(rt, "the contribution", &case.contribution, &50);
    for stream in case.streams.as_slice() {
        assert_same(rt, "a contribution", &stream.contribution, &50);
    }
    let mut found = drawn_of(rt.alloc(), case.streams.as_slice())?;
    assert_same(rt, "so many streams", &found.len(), &(2 * count as usize));
    found.truncate(wanted.len());
    assert_lists(rt, "the streams", &found, wanted);
    let pair = Forbid {
        hot: Source::Stream(hot),
        cold: Source::Stream(count.saturating_add(hot)),
    };
    assert_lists(rt, "the pairs", case.forbids.as_slice(), &[pair]);
    Ok(())
}

#[test]
fn samples_are_drawn(rt: HostRuntime) -> Result<(), Fail> {
    for row in SAMPLES {
        check_sample(&rt, row)?;
    }
    let case = completed(rt.alloc(), &sample_case(rt.alloc(), 1, 1)?)?;
    let answer = cost_of(rt.alloc(), &case)?;
    let targets = Target {
        hot: 25_163,
        cold: 0,
    };
    assert_same(&rt, "the answer", &answer, &(targets, Some(117_663)));
    Ok(())
}
