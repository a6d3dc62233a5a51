//! A flow of an inner net, taken apart into transfers.
ghost use Rattle.std.specs.Prelude.{length, IfOk};
ghost use Rattle.chains.specs.Inner.{IsInner, IsHeatOf};
ghost use Rattle.chains.specs.Spread.{IsSpread};

use crate::net::Chains;
use crate::stock::{Departure, pass_on, set_out};
use crate::transfers::transfers_of;
use crate::ways::Ways;
use grid::Parts;
use heat_flow::Flow;
use std::alloc::{AllocError, Global};
use stream_case::Items;

/// The transfers of a flow of the net of chains: positive heat in W between parts that a path
/// joins, in the order of a heat flow, where each part gives or takes what the flow says. Any net
/// of the shape will do. Shares of heat go on along links that still have flow to carry, until
/// they have come to cold parts (decomposition of a flow, Ford and Fulkerson 1962).
pub fn spread(
    alloc: Global,
    chains: &Chains,
    parts: &Parts,
    flow: &Items<i64>,
) -> Result<Flow, AllocError>
    requires inner { IsInner (length parts.now.hot) (length parts.now.cold) chains.now.net }
    requires heat { IsHeatOf parts.now.hot parts.now.cold chains.now.net flow.now }
    ensures { IfOk result (λ spread. IsSpread (length parts.now.hot)
        (length parts.now.cold) chains.now.net.links flow.now spread.transfers) }
{
    let hots = parts.hot.len() as u32;
    let first_chain_node = (parts.hot.len() + parts.cold.len()) as u32;
    let links = chains.net.links.as_slice();
    let Departure { mut shares, ways } = set_out(alloc, hots, links, flow.as_slice())?;
    let mut open_ways = Ways::new(alloc, chains.net.nodes, ways)?;
    let mut arrived = Vec::new(alloc);
    while let Some(share) = shares.pop() {
        if share.node < first_chain_node {
            arrived.push(share)?;
        } else {
            pass_on(&mut open_ways, share, &mut shares)?;
        }
    }
    transfers_of(alloc, hots, arrived)
}
