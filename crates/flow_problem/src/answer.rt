//! What an answer costs, and whether it is a routing whose potentials prove that none costs less.
ghost use Rattle.std.specs.Prelude.{◌≡◌, ◌↔◌, ◌<◌, pos, ◌+ℤ◌, IfOk, IsTrue, FitsSigned, length, slice_set, replicate};
ghost use Rattle.std.specs.Int.{w128};
ghost use Rattle.flow_net.specs.Net.{potential_at, reduced_cost, cost_of, IfBlocked, IsRoutable, IsWithinLimits, IsWithinRooms, AreEnds};
ghost use Rattle.flow_problem.specs.Certificate.{IsCertified, IsFound, AreSurpluses, AreBalanced, AreProved, IsProved, surplus_at, due};

use crate::problem::Problem;
use anyhow::{Result, ensure};
use flow_net::{Link, Net, Solved};
use std::alloc::{AllocError, Global};

/// What the flow costs, once its certificate is checked; none where the net is blocked.
pub fn checked_cost(alloc: Global, problem: &Problem, solved: &Solved) -> Result<Option<i128>>
    requires net { IsWithinLimits problem.now.net }
    requires ends { AreEnds problem.now.net problem.now.source problem.now.sink }
    requires blocked { IfBlocked solved.now (λ set. ¬ IsRoutable problem.now.net
        problem.now.source problem.now.sink problem.now.amount) }
    ensures { IfOk result (IsFound problem.now) }
{
    match solved {
        Solved::Blocked { reached: _set } => Ok(None),
        Solved::Routed { flow, potentials } => {
            ensure!(
                is_certified(alloc, problem, flow.as_slice(), potentials.as_slice())?,
                "the answer is not certified"
            );
            Ok(Some(cost_of(&problem.net, flow.as_slice())))
        }
    }
}

/// Whether the flow routes the amount, and the potentials prove that it costs least.
pub fn is_certified(
    alloc: Global,
    problem: &Problem,
    flow: &[i64],
    potentials: &[i64],
) -> Result<bool, AllocError>
    requires net { IsWithinLimits problem.now.net }
    requires ends { AreEnds problem.now.net problem.now.source problem.now.sink }
    ensures { IfOk result (λ b. IsTrue b ↔ IsCertified problem.now flow.now potentials.now) }
{
    if !keeps_rooms(&problem.net, flow) {
        return Ok(false);
    }
    if !prove_least(&problem.net, flow, potentials) {
        return Ok(false);
    }
    let surpluses = surpluses(alloc, &problem.net, flow)?;
    Ok(are_balanced(problem, &surpluses))
}

/// Whether each link carries from 0 to its room.
fn keeps_rooms(net: &Net, flow: &[i64]) -> bool
    ensures { IsTrue result ↔ IsWithinRooms net.now.links flow.now }
{
    let links = net.links.as_slice();
    links.len() == flow.len()
        && links
            .iter()
            .zip(flow)
            .all(|(link, carried)| 0 <= *carried && *carried <= link.room)
}

/// What leaves each node less what enters it.
fn surpluses(alloc: Global, net: &Net, flow: &[i64]) -> Result<Vec<i128>, AllocError>
    requires net { IsWithinLimits net.now }
    requires rooms { IsWithinRooms net.now.links flow.now }
    ensures { IfOk result (λ xs. AreSurpluses net.now flow.now xs.items) }
{
    let mut surpluses = vec![in alloc; 0i128; net.nodes as usize]?;
    add_flow(net, flow, &mut surpluses);
    Ok(surpluses)
}

/// Adds what each link carries at its first node, and takes it off at its second.
fn add_flow(net: &Net, flow: &[i64], surpluses: &mut [i128])
    requires net { IsWithinLimits net.now }
    requires rooms { IsWithinRooms net.now.links flow.now }
    requires none { surpluses.old ≡ replicate net.now.nodes (pos 0) }
    ensures { AreSurpluses net.now flow.now surpluses.new }
{
    for (index, link) in net.links.as_slice().iter().enumerate() {
        let carried = i128::from(flow[index]);
        add(surpluses, link.from, carried);
        add(surpluses, link.to, -carried);
    }
}

fn add(surpluses: &mut [i128], node: u32, amount: i128)
    requires node { node < length surpluses.old }
    requires fits { FitsSigned w128 (surplus_at surpluses.old node +ℤ amount) }
    ensures { surpluses.new
        ≡ slice_set surpluses.old node (surplus_at surpluses.old node +ℤ amount) }
{
    surpluses[node as usize] += amount;
}

/// Whether the source gives the amount, the sink takes it, and each other node gives what it takes.
fn are_balanced(problem: &Problem, surpluses: &[i128]) -> bool
    ensures { IsTrue result ↔ AreBalanced problem.now surpluses.now }
{
    surpluses
        .iter()
        .enumerate()
        .all(|(node, surplus)| *surplus == due(problem, node))
}

/// What leaves a node less what enters it, where the amount is routed.
fn due(problem: &Problem, node: usize) -> i128
    ensures { result ≡ due problem.now node }
{
    if node == problem.source as usize {
        i128::from(problem.amount)
    } else if node == problem.sink as usize {
        -i128::from(problem.amount)
    } else {
        0
    }
}

/// Whether the potentials prove that no routing of the amount costs less.
fn prove_least(net: &Net, flow: &[i64], potentials: &[i64]) -> bool
    requires { length flow.now ≡ length net.now.links }
    ensures { IsTrue result ↔ AreProved net.now.links flow.now potentials.now }
{
    net.links
        .as_slice()
        .iter()
        .zip(flow)
        .all(|(link, carried)| is_proved(link, *carried, potentials))
}

/// Whether a link with flow left to add has a reduced cost of at least 0, and with flow above 0 one of
/// at most 0.
fn is_proved(link: &Link, carried: i64, potentials: &[i64]) -> bool
    ensures { IsTrue result ↔ IsProved link.now carried potentials.now }
{
    let reduced = reduced_cost(link, potentials);
    (carried >= link.room || reduced >= 0) && (carried <= 0 || reduced <= 0)
}

/// The cost of a link with the potential of its first node, less that of its second.
pub(crate) fn reduced_cost(link: &Link, potentials: &[i64]) -> i128
    ensures { result ≡ reduced_cost link.now potentials.now }
{
    let from = potential_at(potentials, link.from);
    let to = potential_at(potentials, link.to);
    i128::from(link.cost) + i128::from(from) - i128::from(to)
}

/// The potential of a node, and 0 where there is none.
fn potential_at(potentials: &[i64], node: u32) -> i64
    ensures { result ≡ potential_at potentials.now node }
{
    potentials.get(node as usize).copied().unwrap_or(0)
}

/// What the flow costs.
pub fn cost_of(net: &Net, flow: &[i64]) -> i128
    requires net { IsWithinLimits net.now }
    requires rooms { IsWithinRooms net.now.links flow.now }
    ensures { result ≡ cost_of net.now.links flow.now }
{
    let mut cost = 0;
    for (index, link) in net.links.as_slice().iter().enumerate() {
        cost += i128::from(link.cost) * i128::from(flow[index]);
    }
    cost
}
