//! The heat flow of least cost, or a cut.
ghost use Rattle.std.specs.Prelude.{◌≡◌, ℕ, Bool, ◌+◌, ◌*◌, ◌≤◌, length, All, IfOk};
ghost use Rattle.heat_flow.specs.Checks.{HasCost};
ghost use Rattle.heat_flow.specs.Table.{HasSizes, reaches};
ghost use Rattle.chains.specs.declared.net.TheConstants.{MOST_INNER_LINKS, MOST_INNER_NODES};
ghost use Rattle.chains.specs.Inner.{IsInner};
ghost use Rattle.chains.specs.Path.{PathsAreReaches};
ghost use Rattle.transport.specs.Answer.{IsAnswer};
ghost use Rattle.transport.specs.Priced.{priced};
ghost use Rattle.transport.specs.Around.{IsNodePotential, RoutesMost};

use crate::answer::Answer;
use crate::cut::{blocked_members, cut_of};
use crate::flow::front_of;
use crate::pairs::pairs_of;
use crate::prices::part_prices;
use crate::route::route;
use chains::{Chains, spread};
use flow_net::Solved;
use grid::Parts;
use heat_flow::{Flow, Reach, cost_of, offer_of, opposite, parts_of};
use std::alloc::{AllocError, Global};
use stream_case::Items;

/// The most pairs of a hot and a cold part that `least` takes.
pub const MOST_PAIRS: usize = 900_000;

/// The answer with a heat flow: its prices, from the potentials of a net around an inner net of so
/// many nodes, and its cost.
fn priced(
    alloc: Global,
    parts: &Parts,
    nodes: u32,
    potentials: &[i64],
    flow: Flow,
) -> Result<Answer, AllocError>
    requires inner { length parts.now.hot + length parts.now.cold ≤ nodes }
    requires few { nodes ≤ MOST_INNER_NODES }
    requires one_each { length potentials.now ≡ nodes + 4 }
    requires bounded { All IsNodePotential potentials.now }
    requires has_cost { HasCost parts.now.hot parts.now.cold flow.transfers }
    ensures { IfOk result (λ answer. answer
        ≡ priced parts.now.hot parts.now.cold nodes potentials.now flow) }
{
    let prices = part_prices(alloc, parts.hot.len(), parts.cold.len(), nodes, potentials)?;
    let cost = cost_of(parts, &flow);
    Ok(Answer::Least { flow, prices, cost })
}

/// The answer where the most of all parts is routed through the net around one of chains: what its
/// flow carries from part to part, and the prices from its potentials.
pub(crate) fn routed(
    alloc: Global,
    parts: &Parts,
    chains: &Chains,
    flow: &Items<i64>,
    potentials: &[i64],
) -> Result<Answer, AllocError>
    requires inner { IsInner (length parts.now.hot) (length parts.now.cold) chains.now.net }
    requires few_nodes { chains.now.net.nodes ≤ MOST_INNER_NODES }
    requires few_links { length chains.now.net.links ≤ MOST_INNER_LINKS }
    requires paths { (reach : ℕ → ℕ → Bool) × PathsAreReaches (length parts.now.hot)
        (length parts.now.cold) chains.now.net.links reach }
    requires routes { RoutesMost parts.now.hot parts.now.cold chains.now.net flow.now
        potentials.now }
    ensures { IfOk result (λ answer. (reach : ℕ → ℕ → Bool)
        → PathsAreReaches (length parts.now.hot) (length parts.now.cold)
        chains.now.net.links reach → IsAnswer reach parts.now.hot parts.now.cold answer) }
{
    let front = front_of(alloc, flow, chains.net.links.len())?;
    let heat = spread(alloc, chains, parts, &front)?;
    priced(alloc, parts, chains.net.nodes, potentials, heat)
}

/// The heat flow of least cost between parts, where the table tells which reach each other, or a
/// cut. Heat is in W, a price is of a watt. Beside the heat flow stand prices from
/// -`MOST_PART_PRICE` to `MOST_PART_PRICE` that support every heat flow and whose value is its
/// cost, so that none costs less (duality of linear programs); a cut proves that there is none.
/// All is routed at once through one net (Ford and Fulkerson 1962).
pub fn least(alloc: Global, parts: &Parts, reach: &Reach) -> Result<Answer, AllocError>
    requires sizes { HasSizes reach.now (length parts.now.hot) (length parts.now.cold) }
    requires few { reach.now.hots * reach.now.colds ≤ MOST_PAIRS }
    ensures { IfOk result (IsAnswer (reaches reach.now) parts.now.hot parts.now.cold) }
{
    let net = pairs_of(alloc, reach)?;
    match route(alloc, parts, &net)? {
        Solved::Routed { flow, potentials } => {
            let groups = Items::new(alloc);
            let pairs = Chains { groups, net };
            routed(alloc, parts, &pairs, &flow, potentials.as_slice())
        }
        Solved::Blocked { reached } => {
            let members = blocked_members(alloc, parts, &net, reached.as_slice())?;
            let side = members.kind.side();
            let others = parts_of(opposite(side), parts);
            let indexes = members.indexes.as_slice();
            let offer = offer_of(side, reach, others, indexes);
            Ok(Answer::Stuck(cut_of(parts, members, offer)))
        }
    }
}
