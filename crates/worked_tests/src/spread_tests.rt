//! A flow of a net of chains, taken apart by hand.
ghost use Rattle.std.specs.Prelude.{◌≡◌, [], ◌∷◌, pos, length, All, IfOk};
ghost use Rattle.grid.specs.Bounds.{IsBounded};
ghost use Rattle.chains.specs.ChainNet.{open_link};
ghost use Rattle.chains.specs.Inner.{IsHeatOf, IsInner};

use crate::compare::assert_lists;
use chains::{Chains, spread};
use flow_net::{Link, MOST_ROOM, Net};
use grid::{Part, Parts};
use heat_flow::Transfer;
use std::alloc::{AllocError, Global};
use std::test::Fail;
use stream_case::Side::{Cold, Hot};
use stream_case::Source::Stream;
use stream_case::{Items, Side};

/// A net of chains, the parts at its nodes, and a flow.
#[derive(Drop)]
struct Made {
    chains: Chains,
    parts: Parts,
    flow: Items<i64>,
}

/// What that flow gives from part to part: heat of the second hot part goes straight to the second
/// cold part, heat of the first one straight to the first cold part and by the chain node to both.
const TRANSFERS: [Transfer; 3] = [
    Transfer {
        hot: 0,
        cold: 0,
        heat: 37,
    },
    Transfer {
        hot: 0,
        cold: 1,
        heat: 30,
    },
    Transfer {
        hot: 1,
        cold: 1,
        heat: 35,
    },
];

fn link(from: u32, to: u32) -> Link
    ensures { result ≡ open_link from to }
{
    Link {
        from,
        to,
        room: MOST_ROOM,
        cost: 0,
    }
}

/// Links between two hot parts (nodes 0 and 1), two cold parts (nodes 2 and 3) and a chain node:
/// two pairs are parallel, and two links lead straight from part to part.
fn made_links(alloc: Global) -> Result<Vec<Link>, AllocError>
    ensures { IfOk result
        (λ links. links.items ≡ open_link 4 2 ∷ open_link 0 4 ∷ open_link 4 3
        ∷ open_link 0 2 ∷ open_link 1 4 ∷ open_link 1 3
        ∷ open_link 0 4 ∷ open_link 4 2 ∷ []) }
{
    let links = vec![in alloc;
        link(4, 2),
        link(0, 4),
        link(4, 3),
        link(0, 2),
        link(1, 4),
        link(1, 3),
        link(0, 4),
        link(4, 2),
    ]?;
    Ok(links)
}

/// The flow on each link.
fn made_flow(alloc: Global) -> Result<Vec<i64>, AllocError>
    ensures { IfOk result
        (λ flow. flow.items ≡ pos 25 ∷ pos 50 ∷ pos 30 ∷ pos 7
        ∷ pos 0 ∷ pos 35 ∷ pos 10 ∷ pos 5 ∷ []) }
{
    let flow = vec![in alloc; 25, 50, 30, 7, 0, 35, 10, 5]?;
    Ok(flow)
}

fn part(side: Side) -> Part
    ensures most { result.most ≡ pos 100 }
    ensures bounded { IsBounded result }
{
    Part {
        source: Stream(0),
        side,
        high: 20,
        low: 10,
        least: 0,
        most: 100,
        price: 0,
    }
}

fn two_parts(alloc: Global, side: Side) -> Result<Vec<Part>, AllocError>
    ensures two { IfOk result (λ parts. length parts.items ≡ 2) }
    ensures most { IfOk result (λ parts. All (λ p. p.most ≡ pos 100) parts.items) }
    ensures bounded { IfOk result (λ parts. All IsBounded parts.items) }
{
    let parts = vec![in alloc; part(side), part(side)]?;
    Ok(parts)
}

fn made_by_hand(alloc: Global) -> Result<Made, AllocError>
    ensures inner { IfOk result
        (λ made. IsInner (length made.parts.hot) (length made.parts.cold) made.chains.net) }
    ensures heat { IfOk result
        (λ made. IsHeatOf made.parts.hot made.parts.cold made.chains.net made.flow) }
{
    let links = made_links(alloc)?;
    let flow = made_flow(alloc)?;
    let hot = two_parts(alloc, Hot)?;
    let cold = two_parts(alloc, Cold)?;
    Ok(Made {
        chains: Chains {
            groups: Items::new(alloc),
            net: Net {
                nodes: 5,
                links: Items::from_vec(links),
            },
        },
        parts: Parts {
            hot: Items::from_vec(hot),
            cold: Items::from_vec(cold),
        },
        flow: Items::from_vec(flow),
    })
}

#[test]
fn a_flow_is_taken_apart(rt: HostRuntime) -> Result<(), Fail> {
    let made = made_by_hand(rt.alloc())?;
    let flow = spread(rt.alloc(), &made.chains, &made.parts, &made.flow)?;
    let transfers = flow.transfers.as_slice();
    assert_lists(&rt, "the transfers", transfers, &TRANSFERS);
    Ok(())
}
