//! The floor of a valid network, and the cut that never stands beside it.

ghost use Rattle.std.specs.Prelude.{◌≡◌, ◌↔◌, false, IfOk, IsTrue};
ghost use Rattle.stream_case.specs.Case.{IsComplete};
ghost use Rattle.fractions.specs.Rationals.{IsAtMost, whole};
ghost use Rattle.grid.specs.Part.{AreCaseParts};
ghost use Rattle.heat_flow.specs.Certificate.{ArePartPrices, IsCutOf, IsLeastCostOf};
ghost use Rattle.heat_flow.specs.Checks.{IsSupported};
ghost use Rattle.heat_flow.specs.Prices.{value_of};
ghost use Rattle.heat_flow.specs.Reach.{reach_between};
ghost use Rattle.network_audit.specs.Audit.{HasAccepted};
ghost use Rattle.network_audit.specs.Balance.{cost_of};
ghost use Rattle.network_audit.specs.Valid.{IsValidNetwork};
ghost use Rattle.networks.specs.Shape.{HasShape};
ghost use Rattle.price_floor.specs.Floor.{IsReachOf};

use grid::Parts;
use heat_flow::{Cut, Prices, Reach, is_cut, value_of};
use network_audit::Auditor;
use networks::Network;
use problem_table::targets;
use std::alloc::{AllocError, Global};
use stream_case::Case;
use transport::case_cost;

/// The value of prices that support the heat flows of the case: a cost that no accepted network is
/// below, in price units times W.
pub fn floor_of(
    case: &Case,
    parts: &Parts,
    reach: &Reach,
    prices: &Prices,
    network: &Network,
    auditor: &Auditor,
) -> i128
    requires complete { IsComplete case.now }
    requires parts { AreCaseParts case.now parts.now.hot parts.now.cold }
    requires reach { IsReachOf case.now parts.now.hot parts.now.cold reach.now }
    requires supporting { IsSupported reach.now prices.now.hot prices.now.cold }
    requires hot_prices { ArePartPrices parts.now.hot prices.now.hot }
    requires cold_prices { ArePartPrices parts.now.cold prices.now.cold }
    requires accepted { HasAccepted auditor.now case.now network.now }
    ensures value { result
        ≡ value_of parts.now.hot parts.now.cold prices.now.hot prices.now.cold }
    ensures floor { IsAtMost (whole result) (cost_of case.now network.now) }
{
    // The network that the auditor has accepted is valid.
    auditor.knows_its_network();
    value_of(parts, prices)
}

/// Whether a cut is one of the case, which has an accepted network: it never is.
pub fn cut_stands(
    case: &Case,
    parts: &Parts,
    reach: &Reach,
    cut: &Cut,
    network: &Network,
    auditor: &Auditor,
) -> bool
    requires complete { IsComplete case.now }
    requires parts { AreCaseParts case.now parts.now.hot parts.now.cold }
    requires reach { IsReachOf case.now parts.now.hot parts.now.cold reach.now }
    requires accepted { HasAccepted auditor.now case.now network.now }
    ensures exact { IsTrue result
        ↔ IsCutOf (reach_between case.now parts.now.hot parts.now.cold)
        parts.now.hot parts.now.cold cut.now }
    ensures never { result ≡ false }
{
    auditor.knows_its_network();
    is_cut(parts, reach, cut)
}

/// The least cost of the heat flows of a completed case that has a valid network, in price units
/// times W. Such a case has a heat flow, and the network costs no less (this project's rule).
pub fn cost_floor(alloc: Global, case: &Case, network: &Network) -> Result<i128, AllocError>
    requires complete { IsComplete case.now }
    requires shape { HasShape case.now network.now }
    requires valid { IsValidNetwork case.now network.now }
    ensures least { IfOk result (IsLeastCostOf case.now) }
    ensures floor { IfOk result (λ floor. IsAtMost (whole floor) (cost_of case.now network.now)) }
{
    match case_cost(alloc, case, targets(case))? {
        Ok(cost) => Ok(cost),
        // No cut stands beside a valid network.
        Err(_) => unreachable!(),
    }
}
