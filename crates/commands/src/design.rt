//! The design of a completed case.
ghost use Rattle.std.specs.Prelude.{◌≡◌, ◌≤◌, ◌+◌, ◌-◌, IfOk, length};
ghost use Rattle.stream_case.specs.Case.{IsComplete, IsStandard};
ghost use Rattle.grid.specs.Part.{AreCaseParts};
ghost use Rattle.heat_flow.specs.Certificate.{IsFlowOf};
ghost use Rattle.heat_flow.specs.Flow.{cost_of};
ghost use Rattle.problem_table.specs.Deficit.{hot_target};
ghost use Rattle.networks.specs.Shape.{HasShape};
ghost use Rattle.network_audit.specs.Balance.{balance_of};
ghost use Rattle.network_audit.specs.Findings.{HasNoFinding};
ghost use Rattle.commands.specs.Design.{AnswersDesign, IsDesignOf, IsTightDesign};

use grid::{Parts, case_parts};
use heat_flow::Flow;
use interval_design::design;
use network_audit::{Auditor, Balance, Verdict};
use networks::Network;
use reports::Shown;
use std::alloc::{AllocError, Global};
use stream_case::Case;
use transport::{Answer, case_answer};

/// A network of a completed case that realises a heat flow of least cost, or a cut where there
/// is no heat flow.
pub fn show_design(alloc: Global, case: Case) -> Result<Shown, AllocError>
    requires { IsComplete case }
    ensures { IfOk result (AnswersDesign case) }
{
    let parts = case_parts(alloc, &case)?;
    match case_answer(alloc, &case, &parts)? {
        Answer::Least { flow, .. } => design_flow(alloc, case, &parts, &flow),
        Answer::Stuck(cut) => Ok(Shown::Stuck { case, parts, cut }),
    }
}

/// The network of a heat flow, with the balance that its audit gives. In a standard case one that
/// costs the hot target and has fewer transfers than parts has no excess.
fn design_flow(alloc: Global, case: Case, parts: &Parts, flow: &Flow) -> Result<Shown, AllocError>
    requires complete { IsComplete case }
    requires parts { AreCaseParts case parts.now.hot parts.now.cold }
    requires flow { IsFlowOf case parts.now.hot parts.now.cold flow.now.transfers }
    ensures design { IfOk result (IsDesignOf case parts.now flow.now) }
    ensures tight { IfOk result (λ shown. IsStandard case
        → cost_of parts.now.hot parts.now.cold flow.now.transfers ≡ hot_target case.streams
        → length flow.now.transfers ≤ length parts.now.hot + length parts.now.cold - 1
        → IsTightDesign shown) }
{
    let network = design(alloc, &case, parts, flow)?;
    let balance = audited(alloc, &case, &network)?;
    Ok(Shown::Design {
        case,
        network,
        balance,
    })
}

/// The balance of a network in which an audit finds nothing.
pub fn audited(alloc: Global, case: &Case, network: &Network) -> Result<Balance, AllocError>
    requires complete { IsComplete case.now }
    requires shape { HasShape case.now network.now }
    requires accepted { HasNoFinding case.now network.now }
    ensures { IfOk result (λ balance. balance ≡ balance_of case.now network.now) }
{
    match Auditor::new(alloc, case, network)?.audit() {
        Verdict::Accepted(balance) => Ok(balance),
        Verdict::Rejected { .. } | Verdict::TooFine { .. } => unreachable!(),
    }
}
