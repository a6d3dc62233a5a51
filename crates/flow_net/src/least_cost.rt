//! Routing an amount at least cost, or finding a cut that it cannot pass: successive shortest paths with
//! potentials (Edmonds and Karp 1972; Ahuja, Magnanti and Orlin 1993).
ghost use Rattle.std.specs.Prelude.{◌<ℤ◌, ◌≤ℤ◌, IfOk, OnOk};
ghost use Rattle.flow_net.specs.Net.{IsWithinLimits, AreEnds, IsRoom, AreInitialPotentials, IsLeastRouting, AreProofOfLeast, AreBounded, IsCutBelow, IsRoutable, IfRouted, IfBlocked};
ghost use Rattle.flow_net.specs.Problem.{IsStanding};
ghost use Rattle.flow_net.specs.LevelGraph.{IsLevelGraph};
ghost use Rattle.flow_net.specs.Search.{HasArrived};

use crate::adjacency::Adjacency;
use crate::level_graph::LevelGraph;
use crate::net::{Net, Solved};
use crate::problem::Problem;
use crate::routing::Routing;
use crate::search::Search;
use std::alloc::{AllocError, Global};
use stream_case::Items;

/// Routes an amount from the source to the sink at least cost, if it can be routed.
///
/// The start numbers are initial potentials, one for each node, at which no link with room has a
/// reduced cost below 0: its cost with the potential of its first node, less that of its second. Each
/// potential of the answer is in absolute value at most three times the greatest absolute initial
/// potential plus the number of nodes times the greatest absolute cost.
///
/// The net has at most [`MOST_NODES`](crate::MOST_NODES) nodes and [`MOST_LINKS`](crate::MOST_LINKS)
/// links; a room and the amount are from 0 to [`MOST_ROOM`](crate::MOST_ROOM), a cost is in absolute
/// value at most [`MOST_COST`](crate::MOST_COST), and an initial potential at most
/// [`MOST_INITIAL_POTENTIAL`](crate::MOST_INITIAL_POTENTIAL). They have any units.
pub fn solve(
    alloc: Global,
    net: &Net,
    source: u32,
    sink: u32,
    amount: i64,
    start: &Items<i64>,
) -> Result<Solved, AllocError>
    requires net { IsWithinLimits net.now }
    requires ends { AreEnds net.now source sink }
    requires amount { IsRoom amount }
    requires start { AreInitialPotentials net.now start.now }
    ensures routed { IfOk result
        (λ s. IfRouted s (λ flow potentials. IsLeastRouting net.now source sink amount flow)) }
    ensures certified { IfOk result
        (λ s. IfRouted s (λ flow potentials. AreProofOfLeast net.now.links flow potentials)) }
    ensures bounded { IfOk result
        (λ s. IfRouted s (λ flow potentials. AreBounded net.now start.now potentials)) }
    ensures blocked { IfOk result
        (λ s. IfBlocked s (λ set. IsCutBelow net.now source sink amount set)) }
    ensures blocked_only { IfOk result
        (λ s. IfBlocked s (λ set. ¬ IsRoutable net.now source sink amount)) }
{
    let problem = Problem {
        net,
        adjacency: Adjacency::new(alloc, net)?,
        source,
        sink,
        amount,
        start: start.as_slice(),
    };
    let mut routing = Routing::new(alloc, &problem)?;
    let mut graph = LevelGraph::new(alloc, &problem)?;
    let mut search = Search::new(alloc, &problem)?;
    while routing.routed < amount {
        search.restart(&problem)?;
        if !search.run(&problem, &routing)? {
            return Ok(Solved::Blocked {
                reached: Items::from_vec(search.settled),
            });
        }
        advance(alloc, &problem, &mut routing, &search, &mut graph)?;
    }
    Ok(Solved::Routed {
        flow: Items::from_vec(routing.flow),
        potentials: Items::from_vec(routing.potentials),
    })
}

/// Raises the potentials after a search that has reached the sink, and augments along the path that it
/// found, which has no reduced cost then. Where the sink's potential did not rise there may be more such
/// paths: then also along those of level graphs, until the sink has no level.
fn advance(
    alloc: Global,
    problem: &Problem,
    routing: &mut Routing,
    search: &Search,
    graph: &mut LevelGraph,
) -> Result<(), AllocError>
    requires standing { IsStanding problem.now routing.old }
    requires graph { IsLevelGraph problem.now graph.old }
    requires arrived { HasArrived problem.now routing.old search.now }
    requires short { routing.old.routed <ℤ problem.now.amount }
    ensures standing { OnOk result (IsStanding problem.now routing.new) }
    ensures graph { OnOk result (IsLevelGraph problem.now graph.new) }
    ensures rises { OnOk result (routing.old.routed <ℤ routing.new.routed) }
{
    let rises = search.queue.level > 0;
    search.raise(problem, routing);
    let path = search.path(alloc, problem)?;
    routing.augment(problem, &path);
    if rises {
        return Ok(());
    }
    while routing.routed < problem.amount {
        let before = routing.routed;
        augment_by_levels(alloc, problem, routing, graph)?;
        if routing.routed == before {
            return Ok(());
        }
    }
    Ok(())
}

/// Augments along the paths of the level graph, which is rebuilt first.
fn augment_by_levels(
    alloc: Global,
    problem: &Problem,
    routing: &mut Routing,
    graph: &mut LevelGraph,
) -> Result<(), AllocError>
    requires standing { IsStanding problem.now routing.old }
    requires graph { IsLevelGraph problem.now graph.old }
    ensures standing { OnOk result (IsStanding problem.now routing.new) }
    ensures graph { OnOk result (IsLevelGraph problem.now graph.new) }
    ensures no_less { OnOk result (routing.old.routed ≤ℤ routing.new.routed) }
{
    graph.rebuild(problem, routing)?;
    while routing.routed < problem.amount {
        match graph.find_path(alloc, problem, routing)? {
            Some(path) => routing.augment(problem, &path),
            None => return Ok(()),
        }
    }
    Ok(())
}
