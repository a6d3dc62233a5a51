//! The exchangers of exchanges.

ghost use Rattle.std.specs.Prelude.{◌≡◌, ◌<◌, ◌^◌, All, length, map, IfOk};
ghost use Rattle.design_lines.specs.Drawn.{declared_line};
ghost use Rattle.pieces.specs.Pieces.{exchangers_for, source_at};

use crate::exchange::Exchange;
use design_lines::exchanger_name;
use networks::Line;
use std::alloc::{AllocError, Global};
use stream_case::Source;

/// The source of the piece at an index.
fn source_at(sources: &[Source], index: u32) -> Source
    requires { index < length sources.now }
    ensures { result ≡ source_at sources.now index }
{
    sources[index as usize]
}

/// The lines that declare an exchanger for each exchange, in their order.
pub(crate) fn exchanger_lines(
    alloc: Global,
    hot: &[Source],
    cold: &[Source],
    exchanges: &[Exchange],
) -> Result<Vec<Line>, AllocError>
    requires hot { All (λ e. e.hot < length hot.now) exchanges.now }
    requires cold { All (λ e. e.cold < length cold.now) exchanges.now }
    requires few { length exchanges.now < 2 ^ 32 }
    ensures { IfOk result (λ lines. lines.items
        ≡ map declared_line (exchangers_for hot.now cold.now exchanges.now)) }
{
    let mut lines = Vec::new(alloc);
    for (number, exchange) in exchanges.iter().enumerate() {
        let name = exchanger_name(alloc, number as u32)?;
        lines.push(Line::Exchanger {
            name,
            hot: source_at(hot, exchange.hot),
            cold: source_at(cold, exchange.cold),
            duty: exchange.heat,
        })?;
    }
    Ok(lines)
}
