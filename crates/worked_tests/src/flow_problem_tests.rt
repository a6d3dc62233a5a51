//! `flow_problem`, on nets with answers that were found by hand.
ghost use Rattle.flow_net.specs.Net.{AreEnds, IsWithinLimits};

use crate::compare::{assert_lists, assert_same};
use flow_net::{Link, MOST_ROOM, Net, Solved, solve};
use flow_problem::{Problem, cost_of, is_certified, is_solvable};
use std::alloc::{AllocError, AllocGlobal, Global};
use std::process::Abort;
use std::test::Fail;
use stream_case::Items;

/// The ends of a link, its room and its cost.
type LinkRow = (u32, u32, i64, i64);

/// A net of four nodes, and the flow of least cost that brings an amount from node 0 to node 3, with
/// its cost; none where the amount cannot be routed.
struct Row {
    links: &'static [LinkRow],
    start: &'static [i64],
    amount: i64,
    answer: Option<(&'static [i64], i128)>,
}

const FIVE: &[LinkRow] = &[
    (0, 1, 2, 1),
    (0, 2, 2, 2),
    (1, 2, 1, 0),
    (1, 3, 1, 3),
    (2, 3, 3, 1),
];

/// Parallel links, a loop, no room, a negative cost, and a way back from the sink.
const ODD: &[LinkRow] = &[
    (0, 3, 4, 5),
    (0, 3, MOST_ROOM, 7),
    (0, 0, 9, 1),
    (0, 1, 0, -9),
    (0, 2, 3, -4),
    (2, 3, 2, 1),
    (3, 0, 5, 4),
];

const ROWS: &[Row] = &[
    Row {
        links: FIVE,
        start: &[0; 4],
        amount: 0,
        answer: Some((&[0; 5], 0)),
    },
    Row {
        links: FIVE,
        start: &[0; 4],
        amount: 3,
        answer: Some((&[1, 2, 1, 0, 3], 8)),
    },
    Row {
        links: FIVE,
        start: &[0; 4],
        amount: 4,
        answer: Some((&[2, 2, 1, 1, 3], 12)),
    },
    Row {
        links: FIVE,
        start: &[0; 4],
        amount: 5,
        answer: None,
    },
    Row {
        links: &[],
        start: &[0; 4],
        amount: 0,
        answer: Some((&[], 0)),
    },
    Row {
        links: &[],
        start: &[0; 4],
        amount: 1,
        answer: None,
    },
    Row {
        links: ODD,
        start: &[4, 0, 0, 0],
        amount: MOST_ROOM,
        answer: Some((
            &[4, 9_999_999_999_999_994, 0, 0, 2, 2, 0],
            69_999_999_999_999_972,
        )),
    },
];

fn link((from, to, room, cost): LinkRow) -> Link {
    Link {
        from,
        to,
        room,
        cost,
    }
}

/// A problem from the first node to the last.
fn problem(nodes: u32, links: Items<Link>, amount: i64) -> Problem {
    Problem {
        net: Net { nodes, links },
        source: 0,
        sink: nodes.saturating_sub(1),
        amount,
    }
}

fn links_of(alloc: Global, rows: &[LinkRow]) -> Result<Items<Link>, AllocError> {
    let mut links = Items::new(alloc);
    for row in rows {
        links.push(link(*row))?;
    }
    Ok(links)
}

/// The flow of an answer and what it costs, once it is certified, or none where the net is blocked.
fn certified(
    alloc: Global,
    problem: &Problem,
    solved: Solved,
) -> Result<Option<(Items<i64>, i128)>, Fail>
    requires net { IsWithinLimits problem.now.net }
    requires ends { AreEnds problem.now.net problem.now.source problem.now.sink }
{
    let Solved::Routed { flow, potentials } = solved else {
        return Ok(None);
    };
    if !is_certified(alloc, problem, flow.as_slice(), potentials.as_slice())? {
        return Err("the answer is not certified".into());
    }
    let cost = cost_of(&problem.net, flow.as_slice());
    Ok(Some((flow, cost)))
}

/// The flow that is answered and what it costs, or none where the net is blocked.
fn answer(
    alloc: Global,
    problem: &Problem,
    start: &Items<i64>,
) -> Result<Option<(Items<i64>, i128)>, Fail> {
    if !is_solvable(problem, start.as_slice()) {
        return Err("the net is not within the limits".into());
    }
    let solved = solve(
        alloc,
        &problem.net,
        problem.source,
        problem.sink,
        problem.amount,
        start,
    )?;
    certified(alloc, problem, solved)
}

/// What a row is answered.
fn answer_of(alloc: Global, row: &Row) -> Result<Option<(Items<i64>, i128)>, Fail> {
    let problem = problem(4, links_of(alloc, row.links)?, row.amount);
    let start = Items::from_vec(row.start.to_vec(alloc)?);
    answer(alloc, &problem, &start)
}

fn check(rt: &(impl Abort + AllocGlobal), row: &Row) -> Result<(), Fail> {
    match (answer_of(rt.alloc(), row)?, row.answer) {
        (Some((flow, cost)), Some((wanted, least))) => {
            assert_lists(rt, "the flow", flow.as_slice(), wanted);
            assert_same(rt, "the cost", &cost, &least);
        }
        (None, None) => {}
        _ => return Err("a net is answered otherwise".into()),
    }
    Ok(())
}

#[test]
fn nets_are_routed_at_least_cost_or_blocked(rt: HostRuntime) -> Result<(), Fail> {
    for row in ROWS {
        check(&rt, row)?;
    }
    Ok(())
}

/// A ladder of 1,000 nodes: two lanes of 498 steps, free to change between at each. A unit costs 1 a
/// step on the first lane, whose room goes from 1 to 7 and again, and 3 on the second.
fn ladder(alloc: Global, second_room: i64) -> Result<Items<Link>, AllocError> {
    let mut links = links_of(
        alloc,
        &[
            (0, 1, MOST_ROOM, 0),
            (0, 2, MOST_ROOM, 0),
            (997, 999, MOST_ROOM, 0),
            (998, 999, MOST_ROOM, 0),
        ],
    )?;
    for step in 0..498 {
        let first = 1 + 2 * step;
        let room = i64::from(1 + step % 7);
        links.push(link((first, first + 1, MOST_ROOM, 0)))?;
        links.push(link((first + 1, first, MOST_ROOM, 0)))?;
        links.push(link((first, first + 2, room, 1)))?;
        links.push(link((first + 1, first + 3, second_room, 3)))?;
    }
    Ok(links)
}

/// The room of the second lane, the amount and the least cost, if it can be routed: 71 times the rooms
/// 1 to 7 and once 1, so 1,989 units go the cheap way, of 12 or 6 a step.
const LADDERS: &[(i64, i64, Option<i128>)] = &[
    (MOST_ROOM, 12, Some(498 * 36 - 2 * 1989)),
    (5, 6, Some(498 * 18 - 2 * (1989 - 71))),
    (5, 7, None),
];

/// What the amount costs on a ladder.
fn ladder_cost(alloc: Global, second_room: i64, amount: i64) -> Result<Option<i128>, Fail> {
    let problem = problem(1000, ladder(alloc, second_room)?, amount);
    let start = Items::from_vec(vec![in alloc; 0; 1000]?);
    Ok(answer(alloc, &problem, &start)?.map(|(_flow, cost)| cost))
}

#[test]
fn a_ladder_of_a_thousand_nodes(rt: HostRuntime) -> Result<(), Fail> {
    for (second_room, amount, least) in LADDERS {
        let cost = ladder_cost(rt.alloc(), *second_room, *amount)?;
        assert_same(&rt, "the cost of a ladder", &cost, least);
    }
    Ok(())
}

const THREE: &[LinkRow] = &[(0, 1, 2, 1), (1, 2, 2, 1), (0, 2, 5, 3)];

/// Flows of 3 over three links, potentials, and whether these prove that it costs least. The amount, a
/// balance, a room, and the least cost are missed.
const FLOWS: &[(&[i64], &[i64], bool)] = &[
    (&[2, 2, 1], &[0, 1, 3], true),
    (&[2, 2, 0], &[0, 1, 3], false),
    (&[2, 1, 1], &[0, 1, 3], false),
    (&[3, 3, 0], &[0, 1, 3], false),
    (&[1, 1, 2], &[0, 1, 3], false),
    (&[2, 2, 1], &[0, 1, 2], false),
];

#[test]
fn a_wrong_flow_is_not_certified(rt: HostRuntime) -> Result<(), Fail> {
    let problem = problem(3, links_of(rt.alloc(), THREE)?, 3);
    if !is_solvable(&problem, &[0; 3]) {
        return Err("the net is not within the limits".into());
    }
    for (flow, potentials, wanted) in FLOWS {
        let holds = is_certified(rt.alloc(), &problem, flow, potentials)?;
        assert_same(&rt, "a flow", &holds, wanted);
    }
    Ok(())
}
