//! The links of a net of chains.
ghost use Rattle.std.specs.Prelude.{◌≡◌, ◌≤◌, ◌+◌, ◌-◌, ◌*◌, ◌++◌, length, map, OnOk, All, Some};
ghost use Rattle.stream_case.specs.declared.limits.TheConstants.{MOST_PLACES};
ghost use Rattle.stream_case.specs.declared.source.Side.TheVariants.{Cold, Hot};
ghost use Rattle.stream_case.specs.Case.{side_of, IsComplete};
ghost use Rattle.chains.specs.declared.net.TheConstants.{MOST_INNER_NODES};
ghost use Rattle.chains.specs.Depths.{depth_of};
ghost use Rattle.chains.specs.Making.{IsGroup};
ghost use Rattle.chains.specs.ChainNet.{entering, leaving, onward, open_link, stride_links};

use crate::first_nodes::{first_nodes_of, node_of};
use crate::net::Group;
use crate::partners::{is_permitted, permitted_to};
use flow_net::{Link, MOST_ROOM};
use grid::Parts;
use std::alloc::{AllocError, Global};
use stream_case::Case;

/// How many nodes the links down a chain lead on.
const STRIDES: [u32; 5] = [1, 3, 9, 27, 81];

/// A link with room for all heat, at no cost.
fn open_link(from: u32, to: u32) -> Link
    ensures { result ≡ open_link from to }
{
    Link {
        from,
        to,
        room: MOST_ROOM,
        cost: 0,
    }
}

/// Appends a link from each hot part into the chain of its source's group, at the part's depth.
/// Beside the hot parts stand their depths, given the places.
pub(crate) fn push_entering(
    links: &mut Vec<Link>,
    alloc: Global,
    case: &Case,
    groups: &[Group],
    places: &[i32],
    depths: &[u32],
    parts: &Parts,
) -> Result<(), AllocError>
    requires complete { IsComplete case.now }
    requires hot { All (λ part. side_of case.now part.source ≡ Some Hot) parts.now.hot }
    requires depths { depths.now
        ≡ map (depth_of places.now parts.now.hot parts.now.cold) parts.now.hot }
    requires small { All (λ depth. depth ≤ 2 * MOST_PLACES) depths.now }
    requires nodes { All (λ g. g.first_node ≤ MOST_INNER_NODES) groups.now }
    ensures { OnOk result
        (links.new.items ≡ links.old.items
        ++ entering (depth_of places.now parts.now.hot parts.now.cold) groups.now parts.now.hot) }
{
    let first_nodes = first_nodes_of(alloc, case, groups)?;
    for (index, part) in parts.hot.as_slice().iter().enumerate() {
        if let Some(first_node) = node_of(case, &first_nodes, part.source) {
            let node = first_node + depths[index];
            links.push(open_link(index as u32, node))?;
        }
    }
    Ok(())
}

/// Appends a link from each multiple of the stride in a group's chain, of so many nodes, to the
/// next multiple.
fn push_stride(
    links: &mut Vec<Link>,
    group: &Group,
    nodes: u32,
    stride: u32,
) -> Result<(), AllocError>
    requires node { group.now.first_node ≤ MOST_INNER_NODES }
    requires some { 1 ≤ nodes }
    requires nodes { nodes ≤ 2 * MOST_PLACES }
    requires stride { 1 ≤ stride }
    ensures { OnOk result
        (links.new.items ≡ links.old.items ++ stride_links group.now.first_node nodes stride) }
{
    for step in 0..(nodes - 1) / stride {
        let node = group.first_node + step * stride;
        links.push(open_link(node, node + stride))?;
    }
    Ok(())
}

/// Appends the links down a group's chain, of so many nodes: from each node to the next one, and
/// longer ones beside them where they fit, so that heat goes far down in few links. In all they
/// are no more than the room.
pub(crate) fn push_onward(
    links: &mut Vec<Link>,
    group: &Group,
    nodes: u32,
    room: u32,
) -> Result<(), AllocError>
    requires node { group.now.first_node ≤ MOST_INNER_NODES }
    requires some { 1 ≤ nodes }
    requires nodes { nodes ≤ 2 * MOST_PLACES }
    ensures { OnOk result
        (links.new.items ≡ links.old.items ++ onward group.now.first_node nodes room) }
{
    let mut room = room;
    for stride in &STRIDES {
        let count = (nodes - 1) / *stride;
        if count <= room {
            push_stride(links, group, nodes, *stride)?;
            room -= count;
        }
    }
    Ok(())
}

/// Appends a link from a group's chain, at the part's depth, to each cold part whose source is
/// permitted to the group. Beside the cold parts stand their depths, given the places.
pub(crate) fn push_leaving(
    links: &mut Vec<Link>,
    alloc: Global,
    case: &Case,
    group: &Group,
    places: &[i32],
    depths: &[u32],
    parts: &Parts,
) -> Result<(), AllocError>
    requires complete { IsComplete case.now }
    requires group { IsGroup case.now group.now }
    requires depths { depths.now
        ≡ map (depth_of places.now parts.now.hot parts.now.cold) parts.now.cold }
    requires small { All (λ depth. depth ≤ 2 * MOST_PLACES) depths.now }
    requires node { group.now.first_node ≤ MOST_INNER_NODES }
    requires cold { All (λ part. side_of case.now part.source ≡ Some Cold) parts.now.cold }
    ensures { OnOk result
        (links.new.items ≡ links.old.items
        ++ leaving case.now (depth_of places.now parts.now.hot parts.now.cold)
        (length parts.now.hot) group.now parts.now.cold) }
{
    let permitted = permitted_to(alloc, case, group)?;
    let hots = parts.hot.len() as u32;
    for (index, part) in parts.cold.as_slice().iter().enumerate() {
        if is_permitted(case, &permitted, part.source) {
            let node = group.first_node + depths[index];
            links.push(open_link(node, hots + index as u32))?;
        }
    }
    Ok(())
}
