//! Routing the most of all parts through a net around an inner net.
ghost use Rattle.std.specs.Prelude.{◌≡◌, ◌≤◌, length, IfOk};
ghost use Rattle.flow_net.specs.Net.{IfRouted, IfBlocked};
ghost use Rattle.chains.specs.declared.net.TheConstants.{MOST_INNER_LINKS, MOST_INNER_NODES};
ghost use Rattle.chains.specs.Inner.{IsInner};
ghost use Rattle.transport.specs.Around.{start_of, RoutesMost, BlocksMost};

use crate::net::{ends_behind, most_of, net_around};
use flow_net::{Net, Solved, solve};
use grid::Parts;
use std::alloc::{AllocError, Global};
use stream_case::{Items, MOST_PRICE};

/// The initial potentials: the greatest price at the source and the filler, its negative at the
/// sink and the spill, and 0 within the inner net.
fn start_of(alloc: Global, nodes: u32) -> Result<Items<i64>, AllocError>
    ensures { IfOk result (λ start. start ≡ start_of nodes) }
{
    let mut start = vec![in alloc; 0; nodes as usize]?;
    start.push(MOST_PRICE)?;
    start.push(-MOST_PRICE)?;
    start.push(MOST_PRICE)?;
    start.push(-MOST_PRICE)?;
    Ok(Items::from_vec(start))
}

/// Routes the most of all parts from the source to the sink at least cost, through the net around
/// an inner net. What hot parts give to cold parts is what the inner net carries.
pub(crate) fn route(alloc: Global, parts: &Parts, inner: &Net) -> Result<Solved, AllocError>
    requires inner { IsInner (length parts.now.hot) (length parts.now.cold) inner.now }
    requires few_nodes { inner.now.nodes ≤ MOST_INNER_NODES }
    requires few_links { length inner.now.links ≤ MOST_INNER_LINKS }
    ensures routed { IfOk result
        (λ s. IfRouted s (RoutesMost parts.now.hot parts.now.cold inner.now)) }
    ensures blocked { IfOk result
        (λ s. IfBlocked s (BlocksMost parts.now.hot parts.now.cold inner.now)) }
{
    let net = net_around(alloc, parts, inner)?;
    let start = start_of(alloc, inner.nodes)?;
    let ends = ends_behind(inner.nodes);
    let amount = most_of(parts.hot.as_slice()) + most_of(parts.cold.as_slice());
    solve(alloc, &net, ends.source, ends.sink, amount, &start)
}
