//! The prices of parts, from the potentials of their nodes.
ghost use Rattle.std.specs.Prelude.{◌≡◌, ◌+◌, ◌<◌, ◌≤◌, length, All, IfOk};
ghost use Rattle.chains.specs.declared.net.TheConstants.{MOST_INNER_NODES};
ghost use Rattle.transport.specs.Around.{ends_behind, IsNodePotential, prices_of};

use crate::net::ends_behind;
use heat_flow::Prices;
use std::alloc::{AllocError, Global};
use stream_case::Items;

/// How far the potential falls from the nodes of parts, which begin with this one, to a node.
fn prices_of(
    alloc: Global,
    potentials: &[i64],
    first: usize,
    parts: usize,
    end: u32,
) -> Result<Items<i64>, AllocError>
    requires nodes { first + parts ≤ length potentials.now }
    requires end { end < length potentials.now }
    requires bounded { All IsNodePotential potentials.now }
    ensures { IfOk result (λ prices. prices ≡ prices_of potentials.now first parts end) }
{
    let mut prices = Vec::with_capacity(alloc, parts)?;
    for index in 0..parts {
        prices.push(potentials[first + index] - potentials[end as usize])?;
    }
    Ok(Items::from_vec(prices))
}

/// The prices of so many hot and cold parts: that of a hot part is how far the potential falls from
/// its node to the spill, that of a cold part how far it falls to the filler.
pub(crate) fn part_prices(
    alloc: Global,
    hots: usize,
    colds: usize,
    nodes: u32,
    potentials: &[i64],
) -> Result<Prices, AllocError>
    requires inner { hots + colds ≤ nodes }
    requires few { nodes ≤ MOST_INNER_NODES }
    requires one_each { length potentials.now ≡ nodes + 4 }
    requires bounded { All IsNodePotential potentials.now }
    ensures hot { IfOk result
        (λ prices. prices.hot ≡ prices_of potentials.now 0 hots (ends_behind nodes).spill) }
    ensures cold { IfOk result
        (λ prices. prices.cold
        ≡ prices_of potentials.now hots colds (ends_behind nodes).filler) }
{
    let ends = ends_behind(nodes);
    Ok(Prices {
        hot: prices_of(alloc, potentials, 0, hots, ends.spill)?,
        cold: prices_of(alloc, potentials, hots, colds, ends.filler)?,
    })
}
