//! The network of pieces and their exchanges.

ghost use Rattle.std.specs.Prelude.{◌≡◌, ◌+◌, ◌*◌, ◌<◌, ◌≤◌, ◌^◌, All, length, IfOk};
ghost use Rattle.stream_case.specs.Case.{IsComplete};
ghost use Rattle.networks.specs.Lines.{exchangers_of};
ghost use Rattle.networks.specs.declared.limits.TheConstants.{MOST_LINES};
ghost use Rattle.network_audit.specs.Balance.{balance_of};
ghost use Rattle.pieces.specs.Led.{LedPiecesDrawLedNetworks, exchange_balance};
ghost use Rattle.pieces.specs.Pieces.{exchangers_for, network_of};

use crate::courses::courses_of;
use crate::exchange::Exchange;
use crate::exchangers::exchanger_lines;
use design_lines::draw;
use networks::Network;
use std::alloc::{AllocError, Global};
use stream_case::{Case, Source};

/// The network of a completed case in which each exchange of heat is an exchanger, and each stream
/// is led through its pieces. `hot` and `cold` are the sources of the pieces of each side, from the
/// hottest piece down. Where the pieces of each stream meet from its first state to its last, the
/// shares of a piece are the whole stream and each one's heat is that of its exchange, both ends of
/// each exchange keep the approach, matches are permitted, utilities keep their ranges and all
/// numbers are small, the network is valid, and its audit has no finding. Its balance is that of
/// the exchanges.
pub fn lead(
    alloc: Global,
    case: &Case,
    hot: &[Source],
    cold: &[Source],
    exchanges: &[Exchange],
) -> Result<Network, AllocError>
    requires complete { IsComplete case.now }
    requires hot { All (λ e. e.hot < length hot.now) exchanges.now }
    requires cold { All (λ e. e.cold < length cold.now) exchanges.now }
    requires few_hot { length hot.now < 2 ^ 32 }
    requires few_cold { length cold.now < 2 ^ 32 }
    requires few { 7 * length exchanges.now + length case.now.streams ≤ MOST_LINES }
    ensures drawn { IfOk result (λ network. network
        ≡ network_of case.now hot.now cold.now exchanges.now) }
    ensures exchangers { IfOk result (λ network. exchangers_of network.lines
        ≡ exchangers_for hot.now cold.now exchanges.now) }
    ensures few_lines { IfOk result (λ network. length network.lines
        ≤ 7 * length exchanges.now + length case.now.streams) }
    ensures balance { IfOk result (λ network. balance_of case.now network
        ≡ exchange_balance case.now hot.now cold.now exchanges.now) }
    ensures led { IfOk result (λ network.
        LedPiecesDrawLedNetworks case.now hot.now cold.now exchanges.now network) }
{
    let declarations = exchanger_lines(alloc, hot, cold, exchanges)?;
    let courses = courses_of(alloc, case, hot, cold, exchanges)?;
    let network = draw(alloc, case, declarations, courses.as_slice())?;
    Ok(network)
}
