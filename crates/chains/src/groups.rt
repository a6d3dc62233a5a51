//! The groups of the hot sources of a case.
ghost use Rattle.std.specs.Prelude.{◌≡◌, ◌↔◌, ◌≤◌, ◌<◌, ◌+◌, ◌*◌, ◌^◌, ◌++◌, length, IsTrue, All, Any, Contains, IfOk, OnOk, Some};
ghost use Rattle.stream_case.specs.declared.limits.TheConstants.{ALL_UTILITIES, MOST_PARTS, MOST_PLACES, MOST_STREAMS};
ghost use Rattle.stream_case.specs.declared.source.Side.TheVariants.{Hot};
ghost use Rattle.stream_case.specs.Case.{side_of, IsComplete};
ghost use Rattle.chains.specs.ChainNet.{has_source, StandInLine};
ghost use Rattle.chains.specs.Groups.{AreGroups};
ghost use Rattle.chains.specs.Making.{sources_in, streams_on, utilities_on, AreSources, HasPartners, IsLike, ListsOnce};

use crate::net::Group;
use crate::partners::{Partners, are_alike, partners_of};
use std::alloc::{AllocError, Global};
use stream_case::{Case, Items, Side, Source};

/// Appends the streams of a side.
fn push_streams(sources: &mut Vec<Source>, case: &Case, side: Side) -> Result<(), AllocError>
    requires few { length case.now.streams < 2 ^ 32 }
    ensures { OnOk result
        (sources.new.items ≡ sources.old.items ++ streams_on side case.now.streams) }
{
    let streams = case.streams.as_slice();
    for (index, stream) in streams.iter().enumerate() {
        if stream.side == side {
            sources.push(Source::Stream(index as u32))?;
        }
    }
    Ok(())
}

/// Appends the utilities of a side.
fn push_utilities(sources: &mut Vec<Source>, case: &Case, side: Side) -> Result<(), AllocError>
    requires few { length case.now.utilities < 2 ^ 32 }
    ensures { OnOk result
        (sources.new.items ≡ sources.old.items ++ utilities_on side case.now.utilities) }
{
    let utilities = case.utilities.as_slice();
    for (index, utility) in utilities.iter().enumerate() {
        if utility.side == side {
            sources.push(Source::Utility(index as u32))?;
        }
    }
    Ok(())
}

/// The sources of a side, streams before utilities, each in the order of the case.
pub(crate) fn sources_of(alloc: Global, case: &Case, side: Side) -> Result<Vec<Source>, AllocError>
    requires { IsComplete case.now }
    ensures { IfOk result (λ sources. AreSources case.now.streams case.now.utilities side
        sources.items) }
{
    let mut sources = Vec::new(alloc);
    push_streams(&mut sources, case, side)?;
    push_utilities(&mut sources, case, side)?;
    Ok(sources)
}

/// The hot sources of the table to which the same cold sources are permitted as to the first one,
/// whose partners stand in it too.
fn sources_like(
    alloc: Global,
    case: &Case,
    table: &[Partners],
    first: &Partners,
) -> Result<Vec<Source>, AllocError>
    requires complete { IsComplete case.now }
    requires hot { ListsOnce (λ source. side_of case.now source ≡ Some Hot)
        (sources_in table.now) }
    requires table { All (HasPartners case.now) table.now }
    requires first { HasPartners case.now first.now }
    ensures { IfOk result (λ sources. ListsOnce (IsLike case.now first.now.source) sources.items) }
{
    let mut sources = Vec::new(alloc);
    for partners in table {
        if are_alike(first, partners) {
            sources.push(partners.source)?;
        }
    }
    Ok(sources)
}

/// Whether a source stands in a group.
pub(crate) fn has_source(group: &Group, source: Source) -> bool
    ensures value { result ≡ has_source source group.now }
    ensures stands { IsTrue result ↔ Contains group.now.sources source }
{
    group
        .sources
        .as_slice()
        .iter()
        .any(|other| *other == source)
}

/// Whether a source stands in one of the groups.
fn stands_in_one(groups: &[Group], source: Source) -> bool
    ensures { IsTrue result ↔ Any (λ g. Contains g.sources source) groups.now }
{
    groups.iter().any(|group| has_source(group, source))
}

/// The groups of the hot sources: each source that stands in none yet begins a group of all to
/// which the same cold sources are permitted. Their chains stand one after the other, from node
/// `first` on, with `nodes` nodes each.
pub(crate) fn groups_of(
    alloc: Global,
    case: &Case,
    first: u32,
    nodes: u32,
) -> Result<Vec<Group>, AllocError>
    requires complete { IsComplete case.now }
    requires first { first ≤ 2 * MOST_PARTS }
    requires nodes { nodes ≤ 2 * MOST_PLACES }
    ensures groups { IfOk result (λ groups. AreGroups case.now groups.items) }
    ensures chains { IfOk result (λ groups. StandInLine first nodes groups.items) }
    ensures few { IfOk result (λ groups. length groups.items ≤ MOST_STREAMS + ALL_UTILITIES) }
{
    let hot = sources_of(alloc, case, Side::Hot)?;
    let table = partners_of(alloc, case, &hot)?;
    let mut groups = Vec::new(alloc);
    for partners in &table {
        if !stands_in_one(groups.as_slice(), partners.source) {
            let first_node = first + groups.len() as u32 * nodes;
            let sources = sources_like(alloc, case, &table, partners)?;
            groups.push(Group {
                sources: Items::from_vec(sources),
                first_node,
            })?;
        }
    }
    Ok(groups)
}
