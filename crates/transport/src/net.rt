//! A net around an inner net, in which heat passes from hot parts to cold parts.
ghost use Rattle.std.specs.Prelude.{◌≡◌, ◌+◌, ◌++◌, ◌≤◌, pos, ◌*ℤ◌, length, All, IfOk, OnOk};
ghost use Rattle.stream_case.specs.declared.limits.TheConstants.{MOST_HEAT, MOST_PARTS};
ghost use Rattle.stream_case.specs.Limits.{IsBetween};
ghost use Rattle.grid.specs.Bounds.{IsBounded};
ghost use Rattle.chains.specs.declared.net.TheConstants.{MOST_INNER_NODES};
ghost use Rattle.transport.specs.Around.{ends_behind, whole_link, spare_link, links_of_parts, links_between, net_around, most_of};

use flow_net::{Link, MOST_ROOM, Net};
use grid::{Part, Parts};
use std::alloc::{AllocError, Global};
use stream_case::{Items, MOST_PARTS, Side};

/// The nodes around an inner net.
#[derive(Clone, Copy)]
pub(crate) struct Ends {
    /// Gives each hot part its most.
    pub source: u32,
    /// Takes its most from each cold part.
    pub sink: u32,
    /// Gives each cold part what it does not take from hot parts.
    pub filler: u32,
    /// Takes from each hot part what it does not give to cold parts.
    pub spill: u32,
}

/// The nodes behind those of an inner net.
pub(crate) fn ends_behind(nodes: u32) -> Ends
    requires { nodes ≤ MOST_INNER_NODES }
    ensures { result ≡ ends_behind nodes }
{
    Ends {
        source: nodes,
        sink: nodes + 1,
        filler: nodes + 2,
        spill: nodes + 3,
    }
}

/// The link of the most of a part.
fn whole_link(side: Side, ends: Ends, node: u32, part: &Part) -> Link
    ensures { result ≡ whole_link side ends node part.now }
{
    let (from, to) = match side {
        Side::Hot => (ends.source, node),
        Side::Cold => (node, ends.sink),
    };
    Link {
        from,
        to,
        room: part.most,
        cost: 0,
    }
}

/// The link of what a part does not exchange. Its cost is the price, negative, so that routing
/// less along it costs the price.
fn spare_link(side: Side, ends: Ends, node: u32, part: &Part) -> Link
    requires { IsBounded part.now }
    ensures { result ≡ spare_link side ends node part.now }
{
    let room = part.most - part.least;
    let cost = -part.price;
    match side {
        Side::Hot => Link {
            from: node,
            to: ends.spill,
            room,
            cost,
        },
        Side::Cold => Link {
            from: ends.filler,
            to: node,
            room,
            cost,
        },
    }
}

/// Appends the two links of each part, whose nodes begin with this one.
fn push_parts(
    links: &mut Vec<Link>,
    side: Side,
    ends: Ends,
    first: u32,
    parts: &[Part],
) -> Result<(), AllocError>
    requires bounded { All IsBounded parts.now }
    requires few { first + length parts.now ≤ MOST_INNER_NODES }
    ensures { OnOk result (links.new.items
        ≡ links.old.items ++ links_of_parts side ends first parts.now) }
{
    for (index, part) in parts.iter().enumerate() {
        let node = first + index as u32;
        links.push(whole_link(side, ends, node, part))?;
        links.push(spare_link(side, ends, node, part))?;
    }
    Ok(())
}

/// Appends the links between the further nodes. The sums of the mosts are `given` and `taken`.
fn push_between(links: &mut Vec<Link>, ends: Ends, given: i64, taken: i64) -> Result<(), AllocError>
    ensures { OnOk result (links.new.items ≡ links.old.items ++ links_between ends given taken) }
{
    links.push(Link {
        from: ends.source,
        to: ends.filler,
        room: taken,
        cost: 0,
    })?;
    links.push(Link {
        from: ends.spill,
        to: ends.sink,
        room: given,
        cost: 0,
    })?;
    links.push(Link {
        from: ends.filler,
        to: ends.spill,
        room: MOST_ROOM,
        cost: 0,
    })?;
    Ok(())
}

/// The sum of the mosts of parts.
pub(crate) fn most_of(parts: &[Part]) -> i64
    requires few { length parts.now ≤ MOST_PARTS }
    requires bounded { All IsBounded parts.now }
    ensures value { result ≡ most_of parts.now }
    ensures range { IsBetween (pos 0) (pos MOST_PARTS *ℤ MOST_HEAT) result }
{
    let mut most = 0;
    for part in parts {
        most += part.most;
    }
    most
}

/// The net around an inner net: its links, the links of the parts and the links between the
/// further nodes.
pub(crate) fn net_around(alloc: Global, parts: &Parts, inner: &Net) -> Result<Net, AllocError>
    requires nodes { inner.now.nodes ≤ MOST_INNER_NODES }
    requires of_parts { length parts.now.hot + length parts.now.cold ≤ inner.now.nodes }
    ensures { IfOk result (λ net. net ≡ net_around parts.now.hot parts.now.cold inner.now) }
{
    let hot = parts.hot.as_slice();
    let cold = parts.cold.as_slice();
    let ends = ends_behind(inner.nodes);
    let room = inner.links.len().saturating_add(4 * MOST_PARTS + 3);
    let mut links = Vec::with_capacity(alloc, room)?;
    links.extend_from_slice(inner.links.as_slice())?;
    push_parts(&mut links, Side::Hot, ends, 0, hot)?;
    push_parts(&mut links, Side::Cold, ends, hot.len() as u32, cold)?;
    push_between(&mut links, ends, most_of(hot), most_of(cold))?;
    Ok(Net {
        nodes: inner.nodes + 4,
        links: Items::from_vec(links),
    })
}
