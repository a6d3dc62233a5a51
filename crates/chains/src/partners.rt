//! The partners of hot sources: which sources may take heat from each.
ghost use Rattle.std.specs.Prelude.{◌≡◌, ◌↔◌, ◌+◌, length, slice_index_or, false, IsTrue, IfOk};
ghost use Rattle.stream_case.specs.Case.{IsComplete, IsSourceOf};
ghost use Rattle.heat_flow.specs.Cells.{source_index};
ghost use Rattle.chains.specs.Making.{ArePartners, ArePermitted, IsGroup};

use crate::net::Group;
use heat_flow::{permissions, source_index};
use std::alloc::{AllocError, Global};
use stream_case::{Case, Source};

/// A hot source, and for each source of the case whether it may take heat from this one.
#[derive(Drop)]
pub(crate) struct Partners {
    pub source: Source,
    pub allowed: Vec<bool>,
}

/// The partners of these hot sources, in their order: the forbidden matches are gone through once
/// for each hot source, and not for each pair of sources.
pub(crate) fn partners_of(
    alloc: Global,
    case: &Case,
    hot: &[Source],
) -> Result<Vec<Partners>, AllocError>
    requires { IsComplete case.now }
    ensures { IfOk result (λ table. ArePartners case.now hot.now table.items) }
{
    let mut table = Vec::with_capacity(alloc, hot.len())?;
    for source in hot {
        let allowed = permissions(alloc, case, *source)?;
        table.push(Partners {
            source: *source,
            allowed,
        })?;
    }
    Ok(table)
}

/// Whether two hot sources have the same partners.
pub(crate) fn are_alike(first: &Partners, second: &Partners) -> bool
    ensures { IsTrue result ↔ (first.now.allowed.items ≡ second.now.allowed.items) }
{
    first.allowed == second.allowed
}

/// For each source of the case, whether it may take heat from the sources of a group: they have
/// the same partners, those of the first one.
pub(crate) fn permitted_to(
    alloc: Global,
    case: &Case,
    group: &Group,
) -> Result<Vec<bool>, AllocError>
    requires complete { IsComplete case.now }
    requires group { IsGroup case.now group.now }
    ensures { IfOk result (λ permitted. ArePermitted case.now group.now permitted.items) }
{
    let first = group.sources.as_slice()[0];
    permissions(alloc, case, first)
}

/// What a list says of a source, where it says whether each source of the case may take heat.
pub(crate) fn is_permitted(case: &Case, permitted: &[bool], source: Source) -> bool
    requires complete { IsComplete case.now }
    requires source { IsSourceOf case.now source }
    requires count { length permitted.now
        ≡ length case.now.streams + length case.now.utilities }
    ensures { result ≡ slice_index_or permitted.now (source_index case.now source) false }
{
    permitted[source_index(case, source)]
}
