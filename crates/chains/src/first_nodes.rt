//! The first nodes of chains, by the sources whose heat enters them.
ghost use Rattle.std.specs.Prelude.{◌≡◌, ◌+◌, ◌<◌, length, map, None, slice_index_or, IfOk};
ghost use Rattle.std.specs.List.{range_with_len};
ghost use Rattle.stream_case.specs.Case.{IsComplete, IsSourceOf};
ghost use Rattle.heat_flow.specs.Cells.{source_index};
ghost use Rattle.chains.specs.ChainNet.{first_node_of, source_at};

use crate::groups::has_source;
use crate::net::Group;
use heat_flow::source_index;
use std::alloc::{AllocError, Global};
use stream_case::{Case, Source};

/// The first node of the first group in which a source stands, if it stands in one.
fn first_node_of(groups: &[Group], source: Source) -> Option<u32>
    ensures { result ≡ first_node_of groups.now source }
{
    groups
        .iter()
        .find(|group| has_source(group, source))
        .map(|group| group.first_node)
}

/// The source at an index among the streams of the case and then its utilities.
fn source_at(case: &Case, index: usize) -> Source
    requires complete { IsComplete case.now }
    requires within { index < length case.now.streams + length case.now.utilities }
    ensures { result ≡ source_at case.now index }
{
    let streams = case.streams.len();
    if index < streams {
        Source::Stream(index as u32)
    } else {
        Source::Utility((index - streams) as u32)
    }
}

/// For each source of the case, by its index, the first node of its group, if it stands in one:
/// the groups are gone through once for each source, and not for each part.
pub(crate) fn first_nodes_of(
    alloc: Global,
    case: &Case,
    groups: &[Group],
) -> Result<Vec<Option<u32>>, AllocError>
    requires { IsComplete case.now }
    ensures { IfOk result (λ nodes. nodes.items
        ≡ map (λ index. first_node_of groups.now (source_at case.now index))
        (range_with_len 0 (length case.now.streams + length case.now.utilities))) }
{
    let count = case.streams.len() + case.utilities.len();
    let mut nodes = Vec::with_capacity(alloc, count)?;
    for index in 0..count {
        nodes.push(first_node_of(groups, source_at(case, index)))?;
    }
    Ok(nodes)
}

/// What a list says of a source, where it says for each source of the case where its heat enters.
pub(crate) fn node_of(case: &Case, nodes: &[Option<u32>], source: Source) -> Option<u32>
    requires complete { IsComplete case.now }
    requires source { IsSourceOf case.now source }
    requires count { length nodes.now ≡ length case.now.streams + length case.now.utilities }
    ensures { result ≡ slice_index_or nodes.now (source_index case.now source) None }
{
    nodes[source_index(case, source)]
}
