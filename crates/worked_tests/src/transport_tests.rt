//! Heat flows of least cost and cuts, in cases that were worked by hand.
ghost use Rattle.std.specs.Prelude.{IfOk};
ghost use Rattle.stream_case.specs.Case.{IsComplete};
ghost use Rattle.grid.specs.Part.{AreCaseParts};
ghost use Rattle.heat_flow.specs.Reach.{reach_between};
ghost use Rattle.transport.specs.Answer.{IsAnswer};

use crate::compare::{assert_lists, assert_same};
use crate::flows::parts_of_case;
use crate::least_cost_tests::answer_by_pairs;
use grid::{Part, Parts};
use heat_flow::{Cut, CutKind, Flow};
use std::alloc::{AllocError, Global};
use std::process::Abort;
use std::test::Fail;
use stream_case::Side::{Cold, Hot};
use stream_case::{Case, Forbid, Side, Source};
use transport::{Answer, least_case};
use worked_tables::{
    MOST_HEAT, StreamRow, TOO_COLD_A_HEATER, TOO_LITTLE_COOLING, TWO_STEAM_LEVELS, TWO_STREAMS,
    Table, completed_case,
};

/// What a case answers: the cost and what each utility gives or takes, in the order of the
/// utilities, or a cut.
#[derive(Clone, Copy)]
enum Wanted {
    Cost(i128, &'static [i128]),
    /// The kind, the need, the offer, and the sources of the parts.
    Stuck(CutKind, i64, i64, &'static [Source]),
}

const ONE_HOT: &[StreamRow] = &[("H", Hot, 1000, 500, 10)];

const ONE_COLD: &[StreamRow] = &[("C", Cold, 200, 500, 10)];

const PAIR: Forbid = Forbid {
    hot: Source::Stream(0),
    cold: Source::Stream(1),
};

/// Cases that are answered over chains and over a table of all pairs.
const CASES_BOTH_WAYS: &[(&str, Table, Wanted)] = &[
    (
        "two steam levels",
        TWO_STEAM_LEVELS,
        Wanted::Cost(57_000, &[18_500, 1_500, 60_000]),
    ),
    (
        "too little cooling",
        TOO_LITTLE_COOLING,
        Wanted::Stuck(CutKind::Supply, 5_000, 2_000, &[Source::Stream(0)]),
    ),
    (
        "a heater that is too cold",
        TOO_COLD_A_HEATER,
        Wanted::Stuck(CutKind::Demand, 2_000, 0, &[Source::Stream(0)]),
    ),
];

const CASES: &[(&str, Table, Wanted)] = &[
    (
        "a heater that must run",
        Table {
            streams: ONE_HOT,
            utilities: &[
                ("S", Hot, 450, 100, 1000, 2),
                ("W", Cold, 350, 0, MOST_HEAT, 0),
            ],
            ..TWO_STREAMS
        },
        Wanted::Cost(200, &[100, 5_100]),
    ),
    (
        "a forbidden match",
        Table {
            forbids: &[PAIR],
            ..TWO_STREAMS
        },
        Wanted::Cost(4_000, &[4_000, 5_000]),
    ),
    (
        "a heater whose least is its most",
        Table {
            streams: ONE_COLD,
            utilities: &[
                ("A", Hot, 900, 700, 700, 9),
                ("B", Hot, 800, 0, 0, -5),
                ("D", Hot, 700, 0, MOST_HEAT, 4),
            ],
            ..TWO_STREAMS
        },
        Wanted::Cost(15_500, &[700, 0, 2_300, 0]),
    ),
    (
        "a heater that is paid for",
        Table {
            streams: ONE_COLD,
            utilities: &[("A", Hot, 900, 0, 5_000, -2), ("W", Cold, 100, 0, 1_000, 1)],
            ..TWO_STREAMS
        },
        Wanted::Cost(-7_000, &[4_000, 1_000]),
    ),
    (
        "two heaters at one level",
        Table {
            streams: ONE_COLD,
            utilities: &[("A", Hot, 900, 0, 2_000, 2), ("B", Hot, 900, 0, 5_000, 3)],
            ..TWO_STREAMS
        },
        Wanted::Cost(7_000, &[2_000, 1_000, 0]),
    ),
    (
        "every pair forbidden",
        Table {
            streams: &[("H", Hot, 1000, 500, 10), ("C", Cold, 300, 700, 10)],
            utilities: &[
                ("S", Hot, 1700, 0, MOST_HEAT, 1),
                ("W", Cold, 100, 0, MOST_HEAT, 0),
            ],
            forbids: &[
                PAIR,
                Forbid {
                    hot: Source::Stream(0),
                    cold: Source::Utility(1),
                },
                Forbid {
                    hot: Source::Utility(0),
                    cold: Source::Stream(1),
                },
                Forbid {
                    hot: Source::Utility(0),
                    cold: Source::Utility(1),
                },
            ],
            ..TWO_STREAMS
        },
        Wanted::Stuck(
            CutKind::Supply,
            5_000,
            0,
            &[Source::Stream(0), Source::Stream(0)],
        ),
    ),
    (
        "two cold streams and one heater",
        Table {
            streams: &[("C", Cold, 200, 500, 10), ("D", Cold, 500, 700, 5)],
            utilities: &[("S", Hot, 1000, 0, 3_500, 1)],
            ..TWO_STREAMS
        },
        Wanted::Stuck(
            CutKind::Demand,
            4_000,
            3_500,
            &[Source::Stream(1), Source::Stream(0)],
        ),
    ),
    (
        "two hot streams and one cooler",
        Table {
            streams: &[("H", Hot, 700, 500, 10), ("K", Hot, 500, 400, 5)],
            utilities: &[("W", Cold, 100, 0, 2_400, 1)],
            ..TWO_STREAMS
        },
        Wanted::Stuck(
            CutKind::Supply,
            2_500,
            2_400,
            &[Source::Stream(0), Source::Stream(1)],
        ),
    ),
    (
        "no hot parts but the heater",
        Table {
            streams: ONE_COLD,
            ..TWO_STREAMS
        },
        Wanted::Cost(3_000, &[3_000, 0]),
    ),
];

/// What the transfers of a source add up to.
fn source_heat(flow: &Flow, parts: &[Part], side: Side, source: Source) -> i128 {
    let mut heat = 0i128;
    for transfer in flow.transfers.as_slice() {
        if let Some(part) = parts.get(transfer.part_index(side) as usize) {
            if part.source == source {
                heat = heat.saturating_add(i128::from(transfer.heat));
            }
        }
    }
    heat
}

/// What each utility gives or takes, in their order.
fn uses_of(
    alloc: Global,
    case: &Case,
    parts: &Parts,
    flow: &Flow,
) -> Result<Vec<i128>, AllocError> {
    let mut uses = Vec::new(alloc);
    let mut number = 0u32;
    for utility in case.utilities.as_slice() {
        let own = match utility.side {
            Hot => parts.hot.as_slice(),
            Cold => parts.cold.as_slice(),
        };
        uses.push(source_heat(flow, own, utility.side, Source::Utility(number)))?;
        number = number.saturating_add(1);
    }
    Ok(uses)
}

/// The sources of the parts of a cut.
fn sources_of(alloc: Global, parts: &Parts, cut: &Cut) -> Result<Vec<Source>, AllocError> {
    let own = match cut.kind {
        CutKind::Demand => parts.cold.as_slice(),
        CutKind::Supply => parts.hot.as_slice(),
    };
    let mut sources = Vec::new(alloc);
    for member in cut.parts.as_slice() {
        if let Some(part) = own.get(*member as usize) {
            sources.push(part.source)?;
        }
    }
    Ok(sources)
}

pub fn answer_of(alloc: Global, case: &Case, parts: &Parts) -> Result<Answer, AllocError>
    requires complete { IsComplete case.now }
    requires parts { AreCaseParts case.now parts.now.hot parts.now.cold }
    ensures { IfOk result (IsAnswer (reach_between case.now parts.now.hot parts.now.cold)
        parts.now.hot parts.now.cold) }
{
    least_case(alloc, case, parts)
}

/// Compares a least cost and the uses of the utilities.
fn compare_least(rt: &impl Abort, at: &str, cost: i128, uses: &[i128], wanted: &Wanted) {
    match wanted {
        Wanted::Cost(least, wanted_uses) => {
            assert_same(rt, at, &cost, least);
            assert_lists(rt, at, uses, wanted_uses);
        }
        Wanted::Stuck(_, _, _, _) => assert_same(rt, at, &"a heat flow", &"a cut"),
    }
}

fn compare_cut(rt: &impl Abort, at: &str, cut: &Cut, sources: &[Source], wanted: &Wanted) {
    match wanted {
        Wanted::Cost(_, _) => assert_same(rt, at, &"a cut", &"a heat flow"),
        Wanted::Stuck(kind, need, offer, wanted_sources) => {
            assert_same(rt, at, &cut.kind, kind);
            assert_same(rt, at, &cut.need, need);
            assert_same(rt, at, &cut.offer, offer);
            assert_lists(rt, at, sources, wanted_sources);
        }
    }
}

/// Compares an answer.
fn compare_answer(
    rt: &impl Abort,
    alloc: Global,
    at: &str,
    (case, parts): (&Case, &Parts),
    answer: &Answer,
    wanted: &Wanted,
) -> Result<(), AllocError> {
    match answer {
        Answer::Least {
            flow,
            prices: _,
            cost,
        } => {
            let uses = uses_of(alloc, case, parts, flow)?;
            compare_least(rt, at, *cost, &uses, wanted);
        }
        Answer::Stuck(cut) => {
            let sources = sources_of(alloc, parts, cut)?;
            compare_cut(rt, at, cut, &sources, wanted);
        }
    }
    Ok(())
}

/// Compares what a table answers over chains.
fn compare_table(
    rt: &impl Abort,
    alloc: Global,
    (at, table, wanted): &(&str, Table, Wanted),
) -> Result<(), Fail> {
    let case = completed_case(alloc, table)?;
    let parts = parts_of_case(alloc, &case)?;
    let answer = answer_of(alloc, &case, &parts)?;
    Ok(compare_answer(rt, alloc, at, (&case, &parts), &answer, wanted)?)
}

/// Compares what a table answers over all pairs.
fn compare_pairs(
    rt: &impl Abort,
    alloc: Global,
    (at, table, wanted): &(&str, Table, Wanted),
) -> Result<(), Fail> {
    let case = completed_case(alloc, table)?;
    let parts = parts_of_case(alloc, &case)?;
    let answer = answer_by_pairs(alloc, &case, &parts)?;
    Ok(compare_answer(rt, alloc, at, (&case, &parts), &answer, wanted)?)
}

#[test]
fn cases_have_these_least_costs_and_cuts(rt: HostRuntime) -> Result<(), Fail> {
    for row in CASES_BOTH_WAYS {
        compare_table(&rt, rt.alloc(), row)?;
        compare_pairs(&rt, rt.alloc(), row)?;
    }
    for row in CASES {
        compare_table(&rt, rt.alloc(), row)?;
    }
    Ok(())
}
