//! The intervals of the heat axis, and what both sides exchange in them.

ghost use Rattle.std.specs.Prelude.{◌≡◌, ◌-◌, ◌++◌, length, map, IfOk, OnOk};
ghost use Rattle.vertical_design.specs.Axis.{AreCuts};
ghost use Rattle.vertical_design.specs.Limits.{AreBands};
ghost use Rattle.vertical_design.specs.Matches.{exchanges_between};
ghost use Rattle.vertical_design.specs.Courses.{sources_between};

use crate::band::Band;
use crate::matches::push_matches;
use pieces::Exchange;
use std::alloc::{AllocError, Global};
use stream_case::Source;

/// How many intervals there are between neighbouring cuts.
fn count_of(cuts: &[i64]) -> usize
    ensures { result ≡ length cuts.now - 1 }
{
    cuts.len().saturating_sub(1)
}

/// The exchanges of all intervals between two neighbouring cuts, from the greatest heat down.
pub(crate) fn exchanges_between(
    alloc: Global,
    hot: &[Band],
    cold: &[Band],
    cuts: &[i64],
) -> Result<Vec<Exchange>, AllocError>
    requires hot { AreBands hot.now }
    requires cold { AreBands cold.now }
    requires cuts { AreCuts hot.now cold.now cuts.now }
    ensures { IfOk result (λ exchanges. exchanges.items
        ≡ exchanges_between hot.now cold.now cuts.now) }
{
    let mut exchanges = Vec::new(alloc);
    for number in 0..count_of(cuts) {
        push_matches(
            alloc,
            &mut exchanges,
            number as u32,
            hot,
            cold,
            cuts[number + 1],
            cuts[number],
        )?;
    }
    Ok(exchanges)
}

/// Appends the sources of bands.
fn push_sources(sources: &mut Vec<Source>, bands: &[Band]) -> Result<(), AllocError>
    ensures { OnOk result (sources.new.items
        ≡ sources.old.items ++ map (λ s. s.source) bands.now) }
{
    for band in bands {
        sources.push(band.source)?;
    }
    Ok(())
}

/// The sources of the pieces of a side: those of its bands, in each interval anew.
pub(crate) fn sources_between(
    alloc: Global,
    bands: &[Band],
    cuts: &[i64],
) -> Result<Vec<Source>, AllocError>
    ensures { IfOk result (λ sources. sources.items ≡ sources_between bands.now cuts.now) }
{
    let mut sources = Vec::new(alloc);
    for _number in 0..count_of(cuts) {
        push_sources(&mut sources, bands)?;
    }
    Ok(sources)
}
