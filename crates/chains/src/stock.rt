//! Shares of heat on their way through a net of chains.
ghost use Rattle.std.specs.Prelude.{◌≡◌, ◌<◌, pos, ◌<ℤ◌, length, IfOk, OnOk};
ghost use Rattle.flow_net.specs.Net.{IsWithinRooms};
ghost use Rattle.chains.specs.Stock.{HaveSetOut, HasPassed};
ghost use Rattle.chains.specs.Ways.{left_from, AreOpen};

use crate::ways::{Way, Ways};
use flow_net::Link;
use std::alloc::{AllocError, Global};

/// Heat in W that a hot part gives, at a node that it has come to.
#[derive(Clone, Copy, Debug)]
pub(crate) struct Share {
    pub hot: u32,
    pub node: u32,
    pub heat: i64,
}

/// What the links of a net carry, as heat sets out from the hot parts.
#[derive(Drop)]
pub(crate) struct Departure {
    pub shares: Vec<Share>,
    pub ways: Vec<Way>,
}

/// The heat of each link that leaves a hot part, as a share at the end of the link, and the other
/// links with the heat that they have to carry on.
pub(crate) fn set_out(
    alloc: Global,
    hots: u32,
    links: &[Link],
    flow: &[i64],
) -> Result<Departure, AllocError>
    requires { IsWithinRooms links.now flow.now }
    ensures { IfOk result
        (λ d. HaveSetOut hots links.now flow.now (length links.now) d.shares.items d.ways.items) }
{
    let mut shares = Vec::new(alloc);
    let mut ways = Vec::new(alloc);
    for (index, link) in links.iter().enumerate() {
        let heat = flow[index];
        if heat > 0 {
            if link.from < hots {
                shares.push(Share {
                    hot: link.from,
                    node: link.to,
                    heat,
                })?;
            } else {
                ways.push(Way {
                    from: link.from,
                    to: link.to,
                    left: heat,
                })?;
            }
        }
    }
    Ok(Departure { shares, ways })
}

/// Passes a share on along the next way of its node. What that way does not carry stays there.
pub(crate) fn pass_on(
    ways: &mut Ways,
    share: Share,
    shares: &mut Vec<Share>,
) -> Result<(), AllocError>
    requires open { AreOpen ways.old.sorted.items ways.old.next.items }
    requires node { share.node < length ways.old.next.items }
    requires some_left { pos 0 <ℤ left_from ways.old.sorted.items share.node }
    requires some_heat { pos 0 <ℤ share.heat }
    ensures open { OnOk result (AreOpen ways.new.sorted.items ways.new.next.items) }
    ensures one_each { OnOk result (length ways.new.next.items ≡ length ways.old.next.items) }
    ensures passed { OnOk result
        (HasPassed share shares.old.items shares.new.items ways.old.sorted.items
        ways.new.sorted.items) }
{
    let part = ways.take_heat(share.node, share.heat);
    if part.left < share.heat {
        shares.push(Share {
            heat: share.heat - part.left,
            ..share
        })?;
    }
    shares.push(Share {
        node: part.to,
        heat: part.left,
        ..share
    })?;
    Ok(())
}
