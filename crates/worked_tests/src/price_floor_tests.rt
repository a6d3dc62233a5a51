//! The floor under the cost of an accepted network, and a cut beside it, in a case that was worked
//! by hand.
ghost use Rattle.std.specs.Prelude.{IfOk};
ghost use Rattle.stream_case.specs.Case.{IsComplete};
ghost use Rattle.grid.specs.Part.{AreCaseParts};
ghost use Rattle.heat_flow.specs.Certificate.{ArePartPrices};
ghost use Rattle.network_audit.specs.Audit.{HasAccepted};
ghost use Rattle.price_floor.specs.Floor.{IsReachOf};

use crate::compare::assert_same;
use crate::flows::{parts_of_case, reach_of_case};
use crate::transport_tests::answer_of;
use fractions::Frac;
use grid::Parts;
use heat_flow::{Cut, CutKind, Prices, Reach, is_supported};
use network_audit::{Auditor, Verdict};
use network_text::read_network;
use networks::Network;
use price_floor::{cut_stands, floor_of};
use std::alloc::Global;
use std::process::Abort;
use std::test::Fail;
use stream_case::Side::{Cold, Hot};
use stream_case::{Case, Items};
use transport::Answer;
use worked_tables::{MOST_HEAT, Table, completed_case};

/// A hot and a cold stream of 4,000 W each, of which 2,000 W may pass, and steam.
const HEATED_BY_STEAM: Table = Table {
    contribution: 50,
    streams: &[("H", Hot, 600, 400, 20), ("C", Cold, 300, 700, 10)],
    utilities: &[("ST", Hot, 1000, 0, MOST_HEAT, 1)],
    forbids: &[],
};

/// A network of it with 3,500 W of steam, in which C is divided and mixed at unequal temperatures.
const MIXED: &[u8] = b"exchanger E1 H C 500\nexchanger Q1 ST C 2500\nexchanger Q2 ST C 1000\n\
exchanger Q3 H COLD 3500\npass H E1 ha\npass ha Q3 hb\nend hb\nsplit C ca 5 cb\npass ca E1 cc\n\
pass cb Q1 cd\nmix cc cd ce\npass ce Q2 cf\nend cf\n";

/// Prices that certify the least cost of a case.
fn certifying_prices(alloc: Global, case: &Case, parts: &Parts) -> Result<Prices, Fail>
    requires complete { IsComplete case.now }
    requires parts { AreCaseParts case.now parts.now.hot parts.now.cold }
    ensures hot { IfOk result (λ prices. ArePartPrices parts.now.hot prices.hot) }
    ensures cold { IfOk result (λ prices. ArePartPrices parts.now.cold prices.cold) }
{
    match answer_of(alloc, case, parts)? {
        Answer::Least { prices, .. } => Ok(prices),
        Answer::Stuck(_) => Err("the case has a cut".into()),
    }
}

/// What an accepted network costs at least.
fn floor_in(
    alloc: Global,
    case: &Case,
    parts: &Parts,
    reach: &Reach,
    network: &Network,
    auditor: &Auditor,
) -> Result<i128, Fail>
    requires complete { IsComplete case.now }
    requires parts { AreCaseParts case.now parts.now.hot parts.now.cold }
    requires reach { IsReachOf case.now parts.now.hot parts.now.cold reach.now }
    requires accepted { HasAccepted auditor.now case.now network.now }
{
    let prices = certifying_prices(alloc, case, parts)?;
    if !is_supported(reach, &prices) {
        return Err("the prices are not supporting".into());
    }
    Ok(floor_of(case, parts, reach, &prices, network, auditor))
}

/// The upper part of C needs 2,000 W, and the steam offers more: no cut.
fn no_cut(alloc: Global) -> Result<Cut, Fail> {
    Ok(Cut {
        kind: CutKind::Demand,
        parts: Items::from_vec(vec![in alloc; 0; 1]?),
        need: 2000,
        offer: MOST_HEAT,
    })
}

/// Compares what an accepted network costs at least, and whether a cut stands beside it.
fn check_floor(
    rt: &(impl Abort + AllocGlobal),
    case: &Case,
    network: &Network,
    auditor: &Auditor,
) -> Result<(), Fail>
    requires complete { IsComplete case.now }
    requires accepted { HasAccepted auditor.now case.now network.now }
{
    let alloc = rt.alloc();
    let parts = parts_of_case(alloc, case)?;
    let reach = reach_of_case(alloc, case, &parts)?;
    let floor = floor_in(alloc, case, &parts, &reach, network, auditor)?;
    assert_same(rt, "the floor", &floor, &2000);
    let cut = no_cut(alloc)?;
    let stands = cut_stands(case, &parts, &reach, &cut, network, auditor);
    assert_same(rt, "whether it is a cut", &stands, &false);
    Ok(())
}

#[test]
fn an_accepted_network_has_a_floor_and_no_cut(rt: HostRuntime) -> Result<(), Fail> {
    let case = completed_case(rt.alloc(), &HEATED_BY_STEAM)?;
    let network = read_network(rt.alloc(), &case, MIXED)?;
    let mut auditor = Auditor::new(rt.alloc(), &case, &network)?;
    let Verdict::Accepted(balance) = auditor.audit() else {
        return Err("the network is not accepted".into());
    };
    assert_same(&rt, "the cost", &balance.cost, &Frac::whole(3500));
    check_floor(&rt, &case, &network, &auditor)
}
