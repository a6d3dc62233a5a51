//! The corner flow of the four-stream example, and of cases with latent streams, and its
//! certificate, worked by hand.
ghost use Rattle.stream_case.specs.Case.{IsComplete, IsStandard};
ghost use Rattle.grid.specs.Part.{AreCaseParts};

use crate::compare::{assert_lists, assert_same};
use crate::flows::{Parted, with_standard_utilities};
use corner_flow::{corner, corner_prices, standard_cost};
use grid::Parts;
use heat_flow::{Flow, Prices, Reach, Transfer, cost_of, is_flow, is_supported, value_of};
use problem_table::{reference_from, reference_place, targets};
use std::alloc::{AllocError, AllocGlobal, Global};
use std::process::Abort;
use std::test::Fail;
use stream_case::Case;
use stream_case::Side::{Cold, Hot};
use worked_tables::{StreamRow, THE_FOUR, Table};

fn rows_of(alloc: Global, transfers: &[Transfer]) -> Result<Vec<(u32, u32, i64)>, AllocError> {
    let mut rows = Vec::new(alloc);
    for transfer in transfers {
        rows.push((transfer.hot, transfer.cold, transfer.heat))?;
    }
    Ok(rows)
}

/// What a heat flow costs, and nothing where it is none.
fn cost_if_flow(parts: &Parts, reach: &Reach, flow: &Flow) -> Option<i128> {
    if !is_flow(parts, reach, flow) {
        return None;
    }
    Some(cost_of(parts, flow))
}

/// The prices of the corner flow, and their value.
fn certificate(alloc: Global, case: &Case, parts: &Parts) -> Result<(Prices, i128), AllocError>
    requires complete { IsComplete case.now }
    requires standard { IsStandard case.now }
    requires parts { AreCaseParts case.now parts.now.hot parts.now.cold }
{
    let place = reference_place(case);
    let from_itself = reference_from(case);
    let prices = corner_prices(alloc, case, parts, place, from_itself, targets(case))?;
    let value = value_of(parts, &prices);
    Ok((prices, value))
}

/// Streams of a case with `HOT` and `COLD`; the transfers of its corner flow, as the indices of a hot
/// and a cold part and the heat; their prices, and its cost.
struct Worked {
    streams: &'static [StreamRow],
    transfers: &'static [(u32, u32, i64)],
    hot_prices: &'static [i64],
    cold_prices: &'static [i64],
    cost: i128,
}

const FOUR: Worked = Worked {
    streams: THE_FOUR,
    transfers: &[
        (0, 0, 20_000),
        (1, 1, 60_000),
        (2, 1, 15_000),
        (3, 1, 7_500),
        (4, 1, 27_500),
        (4, 2, 137_500),
        (5, 2, 82_500),
        (6, 3, 60_000),
        (6, 4, 30_000),
        (7, 4, 30_000),
        (7, 5, 15_000),
        (8, 5, 45_000),
    ],
    hot_prices: &[1, 1, 1, 1, 1, 1, 0, 0, 0],
    cold_prices: &[1, 1, 1, 0, 0, 0],
    cost: 20_000,
};

/// A level at the pinch, from each side and from both; levels at the highest and the lowest end,
/// before the utilities there; one latent stream alone; and two at one level, that exchange all.
const LATENT: &[Worked] = &[
    Worked {
        streams: &[("H", Hot, 1500, 700, 10), ("B", Cold, 900, 900, 8000)],
        transfers: &[(0, 0, 3000), (1, 0, 5000), (2, 1, 3000)],
        hot_prices: &[1, 1, 0],
        cold_prices: &[1, 0],
        cost: 3000,
    },
    Worked {
        streams: &[("K", Hot, 1000, 1000, 8000), ("C", Cold, 500, 1300, 10)],
        transfers: &[(0, 0, 4000), (1, 1, 4000), (1, 2, 4000)],
        hot_prices: &[1, 0],
        cold_prices: &[1, 0, 0],
        cost: 4000,
    },
    Worked {
        streams: &[
            ("K", Hot, 1000, 1000, 10_000),
            ("C", Cold, 500, 1300, 10),
            ("B", Cold, 900, 900, 6000),
        ],
        transfers: &[(0, 0, 4000), (1, 1, 6000), (1, 2, 4000)],
        hot_prices: &[1, 0],
        cold_prices: &[1, 0, 0, 0],
        cost: 4000,
    },
    Worked {
        streams: &[("K", Hot, 1500, 1500, 2000), ("C", Cold, 1000, 1300, 10)],
        transfers: &[(0, 0, 2000), (1, 0, 1000)],
        hot_prices: &[1, 1],
        cold_prices: &[1, 1],
        cost: 1000,
    },
    Worked {
        streams: &[("H", Hot, 1000, 500, 10), ("B", Cold, 400, 400, 6000)],
        transfers: &[(0, 0, 1000), (1, 0, 5000)],
        hot_prices: &[1, 1],
        cold_prices: &[1, 1],
        cost: 1000,
    },
    Worked {
        streams: &[("B", Cold, 900, 900, 10_000_000_000)],
        transfers: &[(0, 0, 10_000_000_000)],
        hot_prices: &[1],
        cold_prices: &[1, 1],
        cost: 10_000_000_000,
    },
    Worked {
        streams: &[("K", Hot, 1000, 1000, 5000), ("B", Cold, 900, 900, 5000)],
        transfers: &[(0, 0, 5000)],
        hot_prices: &[0, 0],
        cold_prices: &[0, 0],
        cost: 0,
    },
];

/// Compares the corner flow of a case.
fn compare_flow(rt: &(impl Abort + AllocGlobal), made: &Parted, worked: &Worked) -> Result<(), Fail>
    requires complete { IsComplete made.now.case }
    requires standard { IsStandard made.now.case }
    requires parts { AreCaseParts made.now.case made.now.parts.hot made.now.parts.cold }
{
    let flow = corner(rt.alloc(), &made.case, &made.parts, targets(&made.case))?;
    let rows = rows_of(rt.alloc(), flow.transfers.as_slice())?;
    assert_lists(rt, "the transfers", &rows, worked.transfers);
    let cost = cost_if_flow(&made.parts, &made.reach, &flow);
    assert_same(rt, "the cost", &cost, &Some(worked.cost));
    let least = standard_cost(&made.case, targets(&made.case));
    assert_same(rt, "the least cost", &least, &worked.cost);
    Ok(())
}

/// Compares the prices that certify it.
fn compare_prices(
    rt: &(impl Abort + AllocGlobal),
    made: &Parted,
    worked: &Worked,
) -> Result<(), Fail>
    requires complete { IsComplete made.now.case }
    requires standard { IsStandard made.now.case }
    requires parts { AreCaseParts made.now.case made.now.parts.hot made.now.parts.cold }
{
    let (prices, value) = certificate(rt.alloc(), &made.case, &made.parts)?;
    assert_lists(rt, "hot prices", prices.hot.as_slice(), worked.hot_prices);
    assert_lists(
        rt,
        "cold prices",
        prices.cold.as_slice(),
        worked.cold_prices,
    );
    let certified = (is_supported(&made.reach, &prices), value);
    assert_same(rt, "support and value", &certified, &(true, worked.cost));
    Ok(())
}

/// Compares the corner flow of a case, and its prices.
fn compare(rt: &(impl Abort + AllocGlobal), worked: &Worked) -> Result<(), Fail> {
    let table = Table {
        contribution: 50,
        streams: worked.streams,
        utilities: &[],
        forbids: &[],
    };
    let made = with_standard_utilities(rt.alloc(), &table)?;
    compare_flow(rt, &made, worked)?;
    compare_prices(rt, &made, worked)
}

#[test]
fn four_streams_have_this_corner_flow(rt: HostRuntime) -> Result<(), Fail> {
    compare(&rt, &FOUR)
}

#[test]
fn latent_streams_have_these_corner_flows(rt: HostRuntime) -> Result<(), Fail> {
    for worked in LATENT {
        compare(&rt, worked)?;
    }
    Ok(())
}
