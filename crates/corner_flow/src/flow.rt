//! The corner flow.
ghost use Rattle.std.specs.Prelude.{◌≡◌, ◌+◌, ◌-◌, ◌≤◌, length, map, IfOk};
ghost use Rattle.stream_case.specs.declared.source.Side.TheVariants.{Hot, Cold};
ghost use Rattle.stream_case.specs.Case.{IsComplete, IsStandard};
ghost use Rattle.sums.specs.Spans.{NotNegative, ListsOverlaps};
ghost use Rattle.problem_table.specs.Deficit.{hot_target, cold_target};
ghost use Rattle.grid.specs.Part.{AreCaseParts};
ghost use Rattle.heat_flow.specs.Flow.{cost_of};
ghost use Rattle.corner_flow.specs.Corner.{part_heat, heats_of, as_transfer, IsCornerFlow, UtilityHeat, NeedsHeat, NoHeatCrossesPinch};
ghost use Rattle.heat_flow.specs.Certificate.{IsFlowOf};

use grid::{Part, Parts};
use heat_flow::{Flow, Transfer};
use problem_table::Target;
use std::alloc::{AllocError, Global};
use stream_case::{Case, Items, Source};
use sums::{Pair, pair_amounts};

/// The heat of a part, in W: a stream's own, and the target for the utility of the side.
fn part_heat(part: &Part, target: i64) -> i64
    ensures { result ≡ part_heat target part.now }
{
    match part.source {
        Source::Stream(_) => part.least,
        Source::Utility(_) => target,
    }
}

fn heats_of(alloc: Global, parts: &[Part], target: i64) -> Result<Vec<i64>, AllocError>
    ensures { IfOk result (λ heats. heats.items ≡ heats_of target parts.now) }
{
    parts
        .iter()
        .map(|part| part_heat(part, target))
        .collect(alloc)
}

fn transfers_of(alloc: Global, pairs: &[Pair]) -> Result<Vec<Transfer>, AllocError>
    ensures { IfOk result (λ transfers. transfers.items ≡ map as_transfer pairs.now) }
{
    pairs
        .iter()
        .map(|pair| Transfer {
            hot: pair.first,
            cold: pair.second,
            heat: pair.amount,
        })
        .collect(alloc)
}

/// The heats of each side laid end to end: the pairs of parts whose spans overlap.
fn overlaps_of(alloc: Global, parts: &Parts, targets: Target) -> Result<Vec<Pair>, AllocError>
    requires hot { NotNegative (heats_of targets.hot parts.now.hot) }
    requires cold { NotNegative (heats_of targets.cold parts.now.cold) }
    ensures { IfOk result (λ pairs. ListsOverlaps (heats_of targets.hot parts.now.hot)
        (heats_of targets.cold parts.now.cold) pairs.items) }
{
    let hot = heats_of(alloc, parts.hot.as_slice(), targets.hot)?;
    let cold = heats_of(alloc, parts.cold.as_slice(), targets.cold)?;
    pair_amounts(alloc, hot.as_slice(), cold.as_slice())
}

/// The corner flow of a standard case. The heats of each side, in W, are laid end to end in the
/// order of the parts, the hot target for `HOT` and the cold target for `COLD`; the transfers are
/// the pairs of a hot and a cold part whose spans overlap, each with the length that they share;
/// there are fewer of them than parts.
/// No heat flow of these parts takes less from `HOT` or gives less to `COLD`, and in one that takes
/// just the hot target no transfer crosses a pinch, from a hot part that stands above it to a cold
/// part that does not (Kemp 2007).
pub fn corner(
    alloc: Global,
    case: &Case,
    parts: &Parts,
    targets: Target,
) -> Result<Flow, AllocError>
    requires complete { IsComplete case.now }
    requires standard { IsStandard case.now }
    requires parts { AreCaseParts case.now parts.now.hot parts.now.cold }
    requires hot_target { targets.hot ≡ hot_target case.now.streams }
    requires cold_target { targets.cold ≡ cold_target case.now.streams }
    ensures spans { IfOk result (λ flow.
        IsCornerFlow case.now parts.now.hot parts.now.cold flow.transfers) }
    ensures flow { IfOk result (λ flow.
        IsFlowOf case.now parts.now.hot parts.now.cold flow.transfers) }
    ensures few { IfOk result (λ flow. length flow.transfers
        ≤ length parts.now.hot + length parts.now.cold - 1) }
    ensures hot_heat { IfOk result (λ flow.
        UtilityHeat Hot parts.now.hot flow.transfers targets.hot) }
    ensures cold_heat { IfOk result (λ flow.
        UtilityHeat Cold parts.now.cold flow.transfers targets.cold) }
    ensures cost { IfOk result (λ flow. cost_of parts.now.hot parts.now.cold flow.transfers
        ≡ targets.hot) }
    ensures least_hot { IfOk result (λ _.
        NeedsHeat case.now parts.now.hot parts.now.cold Hot targets.hot) }
    ensures least_cold { IfOk result (λ _.
        NeedsHeat case.now parts.now.hot parts.now.cold Cold targets.cold) }
    ensures pinch { IfOk result (λ _. NoHeatCrossesPinch case.now parts.now.hot parts.now.cold) }
{
    let pairs = overlaps_of(alloc, parts, targets)?;
    let transfers = transfers_of(alloc, pairs.as_slice())?;
    Ok(Flow {
        transfers: Items::from_vec(transfers),
    })
}
