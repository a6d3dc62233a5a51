//! The inner net with a link for each pair of parts that reach.
ghost use Rattle.std.specs.Prelude.{◌≡◌, ◌<◌, ◌++◌, IfOk, OnOk};
ghost use Rattle.transport.specs.Pairs.{pair_net, row_links};

use flow_net::{Link, MOST_ROOM, Net};
use heat_flow::{Reach, reaches};
use std::alloc::{AllocError, Global};
use stream_case::Items;

/// Appends a link for each cold part that a hot part reaches.
fn push_row(links: &mut Vec<Link>, reach: &Reach, hot: u32) -> Result<(), AllocError>
    requires hot { hot < reach.now.hots }
    ensures { OnOk result (links.new.items ≡ links.old.items ++ row_links reach.now hot) }
{
    for cold in 0..reach.colds {
        if reaches(reach, hot, cold) {
            links.push(Link {
                from: hot,
                to: reach.hots + cold,
                room: MOST_ROOM,
                cost: 0,
            })?;
        }
    }
    Ok(())
}

/// The net with a node for each part, the hot parts first, and a link for each pair that reaches.
pub(crate) fn pairs_of(alloc: Global, reach: &Reach) -> Result<Net, AllocError>
    ensures { IfOk result (λ net. net ≡ pair_net reach.now) }
{
    let mut links = Vec::new(alloc);
    for hot in 0..reach.hots {
        push_row(&mut links, reach, hot)?;
    }
    Ok(Net {
        nodes: reach.hots + reach.colds,
        links: Items::from_vec(links),
    })
}
