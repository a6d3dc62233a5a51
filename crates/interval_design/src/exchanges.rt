//! The sources of parts, and the exchanges of transfers between parts.

ghost use Rattle.std.specs.Prelude.{◌≡◌, ◌<◌, length, map, All, IfOk};
ghost use Rattle.stream_case.specs.Limits.{IsHeat};
ghost use Rattle.stream_case.specs.declared.source.Side.TheVariants.{Hot, Cold};
ghost use Rattle.fractions.specs.Rationals.{ratio};
ghost use Rattle.heat_flow.specs.Flow.{HaveParts};
ghost use Rattle.interval_design.specs.Courses.{exchange_of, part_sources, width_at, width_of};

use fractions::Frac;
use grid::Part;
use heat_flow::Transfer;
use pieces::Exchange;
use std::alloc::{AllocError, Global};
use stream_case::Source;

/// The sources of parts, in their order.
pub(crate) fn part_sources(alloc: Global, parts: &[Part]) -> Result<Vec<Source>, AllocError>
    ensures { IfOk result (λ sources. sources.items ≡ part_sources parts.now) }
{
    parts.iter().map(|part| part.source).collect(alloc)
}

/// The width of a part, in tenths of a degree; 1 for the part of a latent stream or a utility,
/// which has none.
fn width_of(part: &Part) -> u32
    ensures { result ≡ width_of part.now }
{
    part.high.abs_diff(part.low).max(1)
}

/// The heat of a transfer over the width of the part at an index: a heat-capacity flow in 10 W/K,
/// or a load in W where the width is 1.
fn size_at(parts: &[Part], index: u32, transfer: &Transfer) -> Frac
    requires within { index < length parts.now }
    requires heat { IsHeat transfer.now.heat }
    ensures { result ≡ ratio transfer.now.heat (width_at parts.now index) }
{
    let width = width_of(&parts[index as usize]);
    let Some(size) = Frac::new(i128::from(transfer.heat), u64::from(width)) else {
        unreachable!()
    };
    size
}

/// The exchange of a transfer between two parts.
fn exchange_of(hot: &[Part], cold: &[Part], transfer: &Transfer) -> Exchange
    requires hot { transfer.now.hot < length hot.now }
    requires cold { transfer.now.cold < length cold.now }
    requires heat { IsHeat transfer.now.heat }
    ensures { result ≡ exchange_of hot.now cold.now transfer.now }
{
    Exchange {
        hot: transfer.hot,
        cold: transfer.cold,
        hot_size: size_at(hot, transfer.hot, transfer),
        cold_size: size_at(cold, transfer.cold, transfer),
        heat: Frac::whole(transfer.heat),
    }
}

/// The exchanges of transfers, in their order.
pub(crate) fn exchanges_of(
    alloc: Global,
    hot: &[Part],
    cold: &[Part],
    transfers: &[Transfer],
) -> Result<Vec<Exchange>, AllocError>
    requires hot { HaveParts Hot hot.now transfers.now }
    requires cold { HaveParts Cold cold.now transfers.now }
    requires heats { All (λ t. IsHeat t.heat) transfers.now }
    ensures { IfOk result (λ exchanges. exchanges.items
        ≡ map (exchange_of hot.now cold.now) transfers.now) }
{
    let mut exchanges = Vec::new(alloc);
    for transfer in transfers {
        exchanges.push(exchange_of(hot, cold, transfer))?;
    }
    Ok(exchanges)
}
