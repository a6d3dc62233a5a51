//! The table of pairs of the parts of a case.
ghost use Rattle.std.specs.Prelude.{◌≡◌, ℕ, ◌++◌, map, length, [], All, IfOk, OnOk};
ghost use Rattle.stream_case.specs.Case.{IsComplete, IsSourceOf};
ghost use Rattle.heat_flow.specs.Cells.{source_index, ArePermissions};
ghost use Rattle.heat_flow.specs.Reach.{passes_heat, part_reaches, reach_between};
ghost use Rattle.heat_flow.specs.Table.{reaches};

use crate::reach::Reach;
use grid::{Part, Parts};
use std::alloc::{AllocError, Global};
use stream_case::{Case, Forbid, Items, Source};

/// The index of a source among the streams of the case and then its utilities.
pub fn source_index(case: &Case, source: Source) -> usize
    requires complete { IsComplete case.now }
    requires source { IsSourceOf case.now source }
    ensures { result ≡ source_index case.now source }
{
    match source {
        Source::Stream(number) => number as usize,
        Source::Utility(number) => case.streams.len() + number as usize,
    }
}

/// Takes away the permissions that these forbidden matches of a hot source refuse.
fn forbid_matches(allowed: &mut [bool], case: &Case, forbids: &[Forbid], hot: Source)
    requires complete { IsComplete case.now }
    requires sources { All (λ f. IsSourceOf case.now f.cold) forbids.now }
    requires all { ArePermissions case.now [] hot allowed.old }
    ensures { ArePermissions case.now forbids.now hot allowed.new }
{
    for forbid in forbids {
        if forbid.hot == hot {
            allowed[source_index(case, forbid.cold)] = false;
        }
    }
}

/// For each source of the case, whether it may take heat from this hot source. The list is made
/// once for each hot part, so that the forbidden matches are not gone through for each pair.
pub fn permissions(alloc: Global, case: &Case, hot: Source) -> Result<Vec<bool>, AllocError>
    requires { IsComplete case.now }
    ensures { IfOk result (λ allowed. ArePermissions case.now case.now.forbids hot allowed.items) }
{
    let mut allowed = vec![in alloc; true; case.streams.len() + case.utilities.len()]?;
    forbid_matches(allowed.as_mut_slice(), case, case.forbids.as_slice(), hot);
    Ok(allowed)
}

/// Whether heat passes from a hot part to a cold part: downward, or within their interval.
pub fn passes_heat(hot: &Part, cold: &Part) -> bool
    ensures { result ≡ passes_heat hot.now cold.now }
{
    cold.high <= hot.low || (hot.high == cold.high && hot.low == cold.low)
}

/// Appends the row of a hot part.
fn push_row(
    cells: &mut Vec<bool>,
    case: &Case,
    hot: &Part,
    cold: &[Part],
    allowed: &[bool],
) -> Result<(), AllocError>
    requires complete { IsComplete case.now }
    requires sources { All (λ q. IsSourceOf case.now q.source) cold.now }
    requires permissions { ArePermissions case.now case.now.forbids hot.now.source allowed.now }
    ensures { OnOk result (cells.new.items
        ≡ cells.old.items ++ map (part_reaches case.now hot.now) cold.now) }
{
    for part in cold {
        let is_allowed = allowed[source_index(case, part.source)];
        cells.push(passes_heat(hot, part) && is_allowed)?;
    }
    Ok(())
}

/// The table of the pairs of these parts of a case: a hot part reaches a cold part where its low
/// is at least the cold part's high, or where both have the same high and the same low, and
/// where the match of their sources is not forbidden (this project's own rule over pairs of
/// parts, after the transshipment model of Papoulias and Grossmann 1983).
pub fn reach_of(alloc: Global, case: &Case, parts: &Parts) -> Result<Reach, AllocError>
    requires complete { IsComplete case.now }
    requires hot_sources { All (λ p. IsSourceOf case.now p.source) parts.now.hot }
    requires cold_sources { All (λ p. IsSourceOf case.now p.source) parts.now.cold }
    ensures hots { IfOk result (λ reach. reach.hots ≡ length parts.now.hot) }
    ensures colds { IfOk result (λ reach. reach.colds ≡ length parts.now.cold) }
    ensures cells { IfOk result (λ reach. (a b : ℕ) → reaches reach a b
        ≡ reach_between case.now parts.now.hot parts.now.cold a b) }
{
    let hot = parts.hot.as_slice();
    let cold = parts.cold.as_slice();
    let mut cells = Vec::with_capacity(alloc, hot.len() * cold.len())?;
    for part in hot {
        let allowed = permissions(alloc, case, part.source)?;
        push_row(&mut cells, case, part, cold, allowed.as_slice())?;
    }
    Ok(Reach {
        hots: hot.len() as u32,
        colds: cold.len() as u32,
        cells: Items::from_vec(cells),
    })
}
