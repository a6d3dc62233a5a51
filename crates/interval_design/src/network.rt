//! The network of a heat flow.

ghost use Rattle.std.specs.Prelude.{◌≡◌, ◌+◌, ◌-◌, ◌≤◌, length, map, IfOk};
ghost use Rattle.std.specs.List.{enumerate_from};
ghost use Rattle.stream_case.specs.Case.{IsComplete, IsStandard};
ghost use Rattle.grid.specs.Part.{AreCaseParts};
ghost use Rattle.problem_table.specs.Deficit.{hot_target};
ghost use Rattle.fractions.specs.Rationals.{rational_zero};
ghost use Rattle.heat_flow.specs.Flow.{IsHeatFlow, cost_of};
ghost use Rattle.heat_flow.specs.Reach.{reach_between};
ghost use Rattle.networks.specs.Lines.{exchangers_of};
ghost use Rattle.networks.specs.Shape.{HasShape, KeepsCounts};
ghost use Rattle.network_audit.specs.Balance.{balance_of};
ghost use Rattle.network_audit.specs.Findings.{HasNoFinding};
ghost use Rattle.network_audit.specs.Valid.{IsValidNetwork};
ghost use Rattle.design_lines.specs.Drawn.{HasFewLines};
ghost use Rattle.interval_design.specs.Balance.{flow_balance};
ghost use Rattle.interval_design.specs.Courses.{exchanger_of, network_of};

use crate::exchanges::{exchanges_of, part_sources};
use grid::Parts;
use heat_flow::Flow;
use networks::Network;
use pieces::lead;
use std::alloc::{AllocError, Global};
use stream_case::Case;

/// The network of a heat flow of a completed case. Each transfer becomes one exchanger, between the
/// sources of its two parts and with its heat as duty, in W, and each stream is led through its
/// parts. The network has the shape that the grammar of networks asks for, and,
/// where the flow has fewer transfers than parts, at most as many exchangers and lines as a text
/// may have, and few lines. It is valid: each stream is led to its target, each exchanger keeps its
/// approach, no match is forbidden, and each utility is in its range; its audit has no finding. Its
/// balance is that of the flow: it costs what the flow costs, and in a standard case a flow that
/// costs the hot target has the excess 0.
#[tactic(auto, unfolding(crate::specs::Courses::network_of))]
pub fn design(alloc: Global, case: &Case, parts: &Parts, flow: &Flow) -> Result<Network, AllocError>
    requires complete { IsComplete case.now }
    requires parts { AreCaseParts case.now parts.now.hot parts.now.cold }
    requires flow { IsHeatFlow
        (reach_between case.now parts.now.hot parts.now.cold) parts.now.hot parts.now.cold
        flow.now.transfers }
    ensures drawn { IfOk result (λ network. network
        ≡ network_of case.now parts.now.hot parts.now.cold flow.now.transfers) }
    ensures exchangers { IfOk result
        (λ network. exchangers_of network.lines
        ≡ map (exchanger_of parts.now.hot parts.now.cold) (enumerate_from 0 flow.now.transfers)) }
    ensures shape { IfOk result (λ network. HasShape case.now network) }
    ensures counts { IfOk result
        (λ network. length flow.now.transfers ≤ length parts.now.hot + length parts.now.cold - 1
        → KeepsCounts network) }
    ensures few_lines { IfOk result
        (λ network. length flow.now.transfers ≤ length parts.now.hot + length parts.now.cold - 1
        → HasFewLines network) }
    ensures valid { IfOk result (λ network. IsValidNetwork case.now network) }
    ensures accepted { IfOk result (λ network. HasNoFinding case.now network) }
    ensures balance { IfOk result
        (λ network. balance_of case.now network
        ≡ flow_balance case.now parts.now.hot parts.now.cold flow.now.transfers) }
    ensures excess { IfOk result (λ network. IsStandard case.now
        → cost_of parts.now.hot parts.now.cold flow.now.transfers ≡ hot_target case.now.streams
        → (balance_of case.now network).excess ≡ rational_zero) }
{
    let hot = part_sources(alloc, parts.hot.as_slice())?;
    let cold = part_sources(alloc, parts.cold.as_slice())?;
    let exchanges = exchanges_of(
        alloc,
        parts.hot.as_slice(),
        parts.cold.as_slice(),
        flow.transfers.as_slice(),
    )?;
    let network = lead(
        alloc,
        case,
        hot.as_slice(),
        cold.as_slice(),
        exchanges.as_slice(),
    )?;
    Ok(network)
}
