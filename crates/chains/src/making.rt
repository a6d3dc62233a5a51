//! The net of chains of a case.
ghost use Rattle.std.specs.Prelude.{length, All, IfOk};
ghost use Rattle.stream_case.specs.Case.{IsComplete};
ghost use Rattle.heat_flow.specs.Reach.{reach_between};
ghost use Rattle.chains.specs.Groups.{AreGroups, StartsChain};
ghost use Rattle.chains.specs.Inner.{IsInner};
ghost use Rattle.grid.specs.OnGrid.{AreOnGrid};
ghost use Rattle.chains.specs.Path.{PathsAreReaches};
ghost use Rattle.chains.specs.Sizes.{IsSmall};

use crate::depths::depths_of;
use crate::groups::groups_of;
use crate::links::{push_entering, push_leaving, push_onward};
use crate::net::Chains;
use flow_net::Net;
use grid::{Parts, grid_of};
use std::alloc::{AllocError, Global};
use stream_case::{Case, Items};

/// The chains of a case, and their net with a node for each of these parts, which stand on the
/// grid of the case; the prices of its utilities do not matter. A path of links leads from a hot
/// part to a cold part exactly where the two reach (residual heat of Papoulias and Grossmann 1983,
/// one chain for all hot sources with the same permitted partners: this project's rule).
pub fn chains_of(alloc: Global, case: &Case, parts: &Parts) -> Result<Chains, AllocError>
    requires complete { IsComplete case.now }
    requires parts { AreOnGrid case.now parts.now.hot parts.now.cold }
    ensures groups { IfOk result (λ chains. AreGroups case.now chains.groups) }
    ensures first_nodes { IfOk result
        (λ chains. All (StartsChain case.now parts.now.hot parts.now.cold chains.net)
        chains.groups) }
    ensures inner { IfOk result
        (λ chains. IsInner (length parts.now.hot) (length parts.now.cold) chains.net) }
    ensures paths { IfOk result
        (λ chains. PathsAreReaches (length parts.now.hot) (length parts.now.cold) chains.net.links
        (reach_between case.now parts.now.hot parts.now.cold)) }
    ensures small { IfOk result
        (λ chains. IsSmall case.now (length parts.now.hot) (length parts.now.cold) chains) }
{
    let grid = grid_of(alloc, case)?;
    let places = grid.places.as_slice();
    let depths = depths_of(alloc, places, parts)?;
    let first = (parts.hot.len() + parts.cold.len()) as u32;
    let groups = groups_of(alloc, case, first, depths.nodes)?;
    let room = 2 * places.len() as u32;
    let mut links = Vec::new(alloc);
    push_entering(
        &mut links,
        alloc,
        case,
        groups.as_slice(),
        places,
        &depths.hot,
        parts,
    )?;
    for group in &groups {
        push_onward(&mut links, group, depths.nodes, room)?;
        push_leaving(&mut links, alloc, case, group, places, &depths.cold, parts)?;
    }
    Ok(Chains {
        net: Net {
            nodes: first + groups.len() as u32 * depths.nodes,
            links: Items::from_vec(links),
        },
        groups: Items::from_vec(groups),
    })
}
