//! The network of a standard case.

ghost use Rattle.std.specs.Prelude.{◌≡◌, IfOk};
ghost use Rattle.stream_case.specs.Case.{IsComplete, IsStandard};
ghost use Rattle.stream_case.specs.Stream.{AreSensible};
ghost use Rattle.networks.specs.Shape.{HasShape, KeepsCounts};
ghost use Rattle.design_lines.specs.Drawn.{HasFewLines};
ghost use Rattle.network_audit.specs.Balance.{balance_of};
ghost use Rattle.network_audit.specs.Findings.{HasNoFinding};
ghost use Rattle.network_audit.specs.Valid.{IsValidNetwork};
ghost use Rattle.vertical_design.specs.Balance.{target_balance};
ghost use Rattle.vertical_design.specs.Courses.{AreIntervals, IsVerticalDesign};
ghost use Rattle.vertical_design.specs.Vertical.{IsVertical};

use crate::band::bands_of;
use crate::cuts::cuts_of;
use crate::interval::{exchanges_between, sources_between};
use networks::Network;
use pieces::{Exchange, lead};
use std::alloc::{AllocError, Global};
use stream_case::{Case, Side, Source};

/// The intervals of a case: the sources of the pieces of both sides, and what they exchange.
#[derive(Debug, Drop)]
struct Intervals {
    hot: Vec<Source>,
    cold: Vec<Source>,
    exchanges: Vec<Exchange>,
}

/// The intervals of a standard case without latent streams, from the greatest heat down.
fn intervals_for(alloc: Global, case: &Case) -> Result<Intervals, AllocError>
    requires complete { IsComplete case.now }
    requires standard { IsStandard case.now }
    requires sensible { AreSensible case.now.streams }
    ensures { IfOk result (λ i. AreIntervals case.now i.hot.items i.cold.items i.exchanges.items) }
{
    let hot = bands_of(alloc, case, Side::Hot)?;
    let cold = bands_of(alloc, case, Side::Cold)?;
    let cuts = cuts_of(alloc, hot.as_slice(), cold.as_slice())?;
    let exchanges = exchanges_between(alloc, &hot, &cold, &cuts)?;
    Ok(Intervals {
        hot: sources_between(alloc, &hot, &cuts)?,
        cold: sources_between(alloc, &cold, &cuts)?,
        exchanges,
    })
}

/// The network of a standard case without latent streams, from its shifted composite curves (Kemp
/// 2007; the shares are this project's rule). The heat axis is cut wherever a source begins or
/// ends. Between two cuts each source of a side meets those of the other side in their order, until
/// it has given or taken its part of the heat between the cuts. The network has the shape that the
/// grammar of networks asks for, keeps the counts of a text, so that it is printed and read again,
/// and has few lines. It is valid: each stream is led to its target, each exchanger keeps its
/// approach, no match is forbidden, and each utility is in its range. And it is vertical: each
/// exchanger joins the two curves at one heat, or a curve with the utility that lies there. Its
/// audit has no finding, and its balance is that of the targets: it has no excess, and costs the
/// hot target.
pub fn vertical(alloc: Global, case: &Case) -> Result<Network, AllocError>
    requires complete { IsComplete case.now }
    requires standard { IsStandard case.now }
    requires sensible { AreSensible case.now.streams }
    ensures drawn { IfOk result (λ network. IsVerticalDesign case.now network) }
    ensures shape { IfOk result (λ network. HasShape case.now network) }
    ensures counts { IfOk result (λ network. KeepsCounts network) }
    ensures few_lines { IfOk result (λ network. HasFewLines network) }
    ensures valid { IfOk result (λ network. IsValidNetwork case.now network) }
    ensures vertical { IfOk result (λ network. IsVertical case.now network) }
    ensures accepted { IfOk result (λ network. HasNoFinding case.now network) }
    ensures balance { IfOk result (λ network.
        balance_of case.now network ≡ target_balance case.now) }
{
    let intervals = intervals_for(alloc, case)?;
    let network = lead(
        alloc,
        case,
        intervals.hot.as_slice(),
        intervals.cold.as_slice(),
        intervals.exchanges.as_slice(),
    )?;
    Ok(network)
}
