//! Whether a report proves what it says.

ghost use Rattle.std.specs.Prelude.{◌≡◌, ◌<◌, All, IfNone, IfOk, IfSome, OnErr, length};
ghost use Rattle.stream_case.specs.Case.{IsComplete};
ghost use Rattle.stream_case.specs.declared.case.Case.{Case};
ghost use Rattle.certify.specs.Answers.{ArePricesOf, HasPartPrices, HoldsOfCut, HoldsOfFlow, HoldsOfTransfers, IsAnswer, IsAnswerOver, IsFirstOf, NamesParts, Proves, cut_causes, flow_causes, prices_of, transfer_causes};
ghost use Rattle.certify.specs.Setting.{IsSound, cold_parts, hot_parts};
ghost use Rattle.stream_case.specs.Limits.{IsPartPrice};

use crate::naming::{are_prices_of, flow_of, members_of};
use crate::permits::{Setting, permits_of};
use crate::report::{Checked, Moved, NoWhy, Priced, Report, Span, Used};
use crate::uses::are_uses_of;
use grid::case_parts;
use heat_flow::{
    Cut, CutKind, Flow, Prices, are_supporting, cost_of, is_cut_of, is_heat_flow, parts_of,
    value_of,
};
use std::alloc::{AllocError, Global};
use stream_case::{Case, Items};

/// The price of a part.
fn price_of(priced: &Priced) -> i64
    ensures { result ≡ priced.now.price }
{
    priced.price
}

/// The prices of the parts of a side.
fn prices_of(alloc: Global, prices: &[Priced]) -> Result<Vec<i64>, AllocError>
    ensures { IfOk result (λ amounts. amounts.items ≡ prices_of prices.now) }
{
    prices.iter().map(|priced| price_of(priced)).collect(alloc)
}

/// The first check that fails of transfers and prices.
fn check_transfers(
    setting: &Setting,
    cost: i128,
    uses: &[Used],
    flow: &Flow,
    prices: &Prices,
) -> Checked
    requires setting { IsSound setting.now }
    requires hot_count { length prices.now.hot ≡ length (hot_parts setting.now) }
    requires cold_count { length prices.now.cold ≡ length (cold_parts setting.now) }
    requires hot_range { All IsPartPrice prices.now.hot }
    requires cold_range { All IsPartPrice prices.now.cold }
    ensures { IsFirstOf transfer_causes (HoldsOfTransfers setting.now.case.now
        (hot_parts setting.now) (cold_parts setting.now) cost uses.now flow.now.transfers
        prices.now.hot prices.now.cold) result }
{
    let transfers = flow.transfers.as_slice();
    if !is_heat_flow(setting.parts, setting, transfers) {
        return Checked::No { why: NoWhy::Flow };
    }
    if cost_of(setting.parts, flow) != cost {
        return Checked::No { why: NoWhy::Cost };
    }
    if !are_uses_of(setting.case, setting.parts, transfers, uses) {
        return Checked::No { why: NoWhy::Uses };
    }
    if !are_supporting(setting, prices.hot.as_slice(), prices.cold.as_slice()) {
        return Checked::No {
            why: NoWhy::Support,
        };
    }
    if value_of(setting.parts, prices) != cost {
        return Checked::No { why: NoWhy::Value };
    }
    Checked::Yes
}

/// The first check that fails of a report of a heat flow. That prices are those of the parts is
/// looked at before memory is taken.
fn check_flow(
    alloc: Global,
    setting: &Setting,
    cost: i128,
    uses: &[Used],
    moves: &[Moved],
    gives: &[Priced],
    takes: &[Priced],
) -> Result<Checked, AllocError>
    requires setting { IsSound setting.now }
    requires gives { All (λ g. IsPartPrice g.price) gives.now }
    requires takes { All (λ g. IsPartPrice g.price) takes.now }
    ensures first { IfOk result (IsFirstOf flow_causes (HoldsOfFlow setting.now.case.now
        (hot_parts setting.now) (cold_parts setting.now) cost uses.now moves.now gives.now
        takes.now)) }
    ensures memory { OnErr result
        (ArePricesOf setting.now.case.now (hot_parts setting.now) gives.now
        × ArePricesOf setting.now.case.now (cold_parts setting.now) takes.now) }
{
    let hot = setting.parts.hot.as_slice();
    let cold = setting.parts.cold.as_slice();
    if !are_prices_of(setting.case, hot, gives) || !are_prices_of(setting.case, cold, takes) {
        return Ok(Checked::No { why: NoWhy::Parts });
    }
    let Some(flow) = flow_of(alloc, setting.case, setting.parts, moves)? else {
        return Ok(Checked::No { why: NoWhy::Moves });
    };
    let prices = Prices {
        hot: Items::from_vec(prices_of(alloc, gives)?),
        cold: Items::from_vec(prices_of(alloc, takes)?),
    };
    Ok(check_transfers(setting, cost, uses, &flow, &prices))
}

/// The first check that fails of a report of a cut. One that names no part takes no memory.
fn check_cut(
    alloc: Global,
    setting: &Setting,
    kind: CutKind,
    need: i64,
    offer: i64,
    spans: &[Span],
) -> Result<Checked, AllocError>
    requires { IsSound setting.now }
    ensures first { IfOk result (IsFirstOf cut_causes (HoldsOfCut setting.now.case.now
        (hot_parts setting.now) (cold_parts setting.now) kind need offer spans.now)) }
    ensures memory { OnErr result (0 < length spans.now) }
{
    let own = parts_of(kind.side(), setting.parts);
    let Some(members) = members_of(alloc, setting.case, own, spans)? else {
        return Ok(Checked::No { why: NoWhy::Parts });
    };
    let cut = Cut {
        kind,
        parts: members,
        need,
        offer,
    };
    if !is_cut_of(setting.parts, setting, &cut) {
        return Ok(Checked::No { why: NoWhy::Cut });
    }
    Ok(Checked::Yes)
}

/// The first check that fails of a report.
fn check_over(alloc: Global, setting: &Setting, report: &Report) -> Result<Checked, AllocError>
    requires setting { IsSound setting.now }
    requires prices { HasPartPrices report.now }
    ensures { IfOk result (IsAnswerOver setting.now.case.now
        (hot_parts setting.now) (cold_parts setting.now) report.now) }
{
    match report {
        Report::Flow {
            cost,
            uses,
            moves,
            gives,
            takes,
        } => {
            let (uses, moves) = (uses.as_slice(), moves.as_slice());
            let (gives, takes) = (gives.as_slice(), takes.as_slice());
            check_flow(alloc, setting, *cost, uses, moves, gives, takes)
        }
        Report::Cut {
            kind,
            need,
            offer,
            parts: spans,
        } => {
            let spans = spans.as_slice();
            check_cut(alloc, setting, *kind, *need, *offer, spans)
        }
    }
}

/// Why a report that names no parts proves nothing, whatever the case: each completed case has
/// parts on both sides, and no parts are no cut.
fn why_unnamed(report: &Report) -> Option<NoWhy>
    ensures answer { (c : Case) → IsComplete c → IfSome result (λ why.
        IsAnswer c report.now (Checked.No why)) }
    ensures named { IfNone result (NamesParts report.now) }
{
    match report {
        Report::Flow { gives, takes, .. } => {
            if gives.is_empty() || takes.is_empty() {
                return Some(NoWhy::Parts);
            }
        }
        Report::Cut { parts, .. } => {
            if parts.is_empty() {
                return Some(NoWhy::Cut);
            }
        }
    }
    None
}

/// Checks a report of a completed case, by the definitions alone. The answer is yes exactly where
/// no check fails, and else no with the first that does. After yes the cost of a flow is the least
/// cost of the case (weak duality of linear programs), and with a cut there is no heat flow. Memory
/// is taken only for a report that names parts.
pub fn check_report(alloc: Global, case: &Case, report: &Report) -> Result<Checked, AllocError>
    requires complete { IsComplete case.now }
    requires prices { HasPartPrices report.now }
    ensures answer { IfOk result (IsAnswer case.now report.now) }
    ensures proves { IfOk result (Proves case.now report.now) }
    ensures memory { OnErr result (NamesParts report.now) }
{
    if let Some(why) = why_unnamed(report) {
        return Ok(Checked::No { why });
    }
    let parts = case_parts(alloc, case)?;
    let permits = permits_of(alloc, case)?;
    let setting = Setting {
        case,
        parts: &parts,
        permits: &permits,
    };
    check_over(alloc, &setting, report)
}
