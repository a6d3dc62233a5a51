//! Whether a net may be solved: the conditions of `solve`, tested.
ghost use Rattle.std.specs.Prelude.{ℕ, ◌↔◌, ◌<◌, length, IsTrue};
ghost use Rattle.flow_net.specs.Net.{IsWithinLimits, IsLinkWithin, AreEnds, IsRoom, IsInitialPotential, AreInitialPotentials, potential_at};
ghost use Rattle.flow_problem.specs.Certificate.{IsSolvable, Fit};

use crate::answer::reduced_cost;
use crate::problem::Problem;
use flow_net::{Link, MOST_COST, MOST_INITIAL_POTENTIAL, MOST_LINKS, MOST_NODES, MOST_ROOM, Net};

/// Whether net, ends, amount and initial potentials are within the limits of `solve`.
pub fn is_solvable(problem: &Problem, start: &[i64]) -> bool
    ensures { IsTrue result ↔ IsSolvable problem.now start.now }
{
    is_within_limits(&problem.net)
        && are_ends(problem)
        && is_room(problem.amount)
        && are_initial(&problem.net, start)
}

fn is_within_limits(net: &Net) -> bool
    ensures { IsTrue result ↔ IsWithinLimits net.now }
{
    let links = net.links.as_slice();
    net.nodes <= MOST_NODES
        && links.len() <= MOST_LINKS
        && links.iter().all(|link| is_link_within(link, net.nodes))
}

fn is_link_within(link: &Link, nodes: u32) -> bool
    ensures { IsTrue result ↔ IsLinkWithin nodes link.now }
{
    link.from < nodes
        && link.to < nodes
        && is_room(link.room)
        && link.cost.unsigned_abs() <= MOST_COST
}

fn is_room(number: i64) -> bool
    ensures { IsTrue result ↔ IsRoom number }
{
    number >= 0 && number <= MOST_ROOM
}

fn are_ends(problem: &Problem) -> bool
    ensures { IsTrue result ↔ AreEnds problem.now.net problem.now.source problem.now.sink }
{
    let nodes = problem.net.nodes;
    problem.source < nodes && problem.sink < nodes && problem.source != problem.sink
}

fn are_initial(net: &Net, start: &[i64]) -> bool
    ensures { IsTrue result ↔ AreInitialPotentials net.now start.now }
{
    start.len() == net.nodes as usize && are_small(start) && fit(net, start)
}

/// Whether each number is within the limit of an initial potential.
fn are_small(numbers: &[i64]) -> bool
    ensures { IsTrue result ↔ ((v : ℕ)
        → v < length numbers.now → IsInitialPotential (potential_at numbers.now v)) }
{
    numbers
        .iter()
        .all(|number| number.unsigned_abs() <= MOST_INITIAL_POTENTIAL)
}

/// Whether no link with room has a reduced cost below 0 at the potentials.
fn fit(net: &Net, potentials: &[i64]) -> bool
    ensures { IsTrue result ↔ Fit net.now.links potentials.now }
{
    net.links.as_slice().iter().all(|link| link.room <= 0 || reduced_cost(link, potentials) >= 0)
}
