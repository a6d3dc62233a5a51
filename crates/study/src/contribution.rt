//! A case with another contribution.
ghost use Rattle.std.specs.Prelude.{◌≡◌, map, IfOk};
ghost use Rattle.stream_case.specs.Stream.{stream_with};
ghost use Rattle.study.specs.Row.{utility_with, with_contribution};

use std::alloc::{AllocError, Global};
use stream_case::{Case, Items, Stream, Utility};

fn streams_with(
    alloc: Global,
    streams: &[Stream],
    contribution: i32,
) -> Result<Vec<Stream>, AllocError>
    ensures { IfOk result
        (λ changed. changed.items ≡ map (stream_with contribution) streams.now) }
{
    streams
        .iter()
        .map(|stream| stream.with_contribution(contribution))
        .collect(alloc)
}

fn utilities_with(
    alloc: Global,
    utilities: &[Utility],
    contribution: i32,
) -> Result<Vec<Utility>, AllocError>
    ensures { IfOk result
        (λ changed. changed.items ≡ map (utility_with contribution) utilities.now) }
{
    utilities
        .iter()
        .map(|utility| Utility {
            contribution,
            ..*utility
        })
        .collect(alloc)
}

/// The case with this contribution, in tenths of °C, in all its sources.
pub(crate) fn with_contribution(
    alloc: Global,
    case: &Case,
    contribution: i32,
) -> Result<Case, AllocError>
    ensures { IfOk result (λ changed. changed ≡ with_contribution contribution case.now) }
{
    let streams = streams_with(alloc, case.streams.as_slice(), contribution)?;
    let utilities = utilities_with(alloc, case.utilities.as_slice(), contribution)?;
    Ok(Case {
        contribution,
        streams: Items::from_vec(streams),
        utilities: Items::from_vec(utilities),
        forbids: case.forbids.copied(alloc)?,
    })
}
