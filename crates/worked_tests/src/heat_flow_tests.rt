//! Which parts reach, and which are cuts, in cases that were worked by hand.
ghost use Rattle.stream_case.specs.Case.{IsComplete};

use crate::compare::{assert_lists, assert_same};
use crate::flows::{four_streams, parts_of_case, reach_of_case};
use heat_flow::{Cut, CutKind, Flow, Prices, is_cut, is_flow, is_supported, reaches};
use std::alloc::{AllocError, Global};
use std::test::Fail;
use stream_case::{Case, Items};
use worked_tables::{
    FOUR_STREAMS, RESTRICTED, TOO_COLD_A_HEATER, TOO_LITTLE_COOLING, TWO_STEAM_LEVELS, Table,
    completed_case,
};

/// Row by row over the hot parts: all reach what lies in their interval or below it, unless the
/// match is forbidden.
const CELLS: &[(Table, &[u8])] = &[
    (
        FOUR_STREAMS,
        b"\
        TTTTTT\
        TTTTTT\
        TTTTTT\
        TTTTTT\
        FTTTTT\
        FTTTTT\
        FFFTTT\
        FFFTTT\
        FFFFTT",
    ),
    (
        RESTRICTED,
        b"\
        TFTTTT\
        FTFFTT\
        TTTTFT\
        TTTTTT\
        TTTTFT\
        FFTTFT",
    ),
    (
        TWO_STEAM_LEVELS,
        b"\
        TTTTTTTT\
        TTTTTTTT\
        TTTTTTTT\
        TTTTTTTT\
        FTTTTTTT\
        FTTTTTTT\
        FFFTTTTT\
        FFFTTTTT\
        FFFTTTTT\
        FFFFFTTT\
        FFFFFTTT\
        FFFFFFTT",
    ),
    (TOO_LITTLE_COOLING, b"TTTT"),
    (TOO_COLD_A_HEATER, b"FTT"),
];

/// The cells of the table of a case, as letters.
fn cells_of(alloc: Global, case: &Case) -> Result<Vec<u8>, AllocError>
    requires { IsComplete case.now }
{
    let parts = parts_of_case(alloc, case)?;
    let reach = reach_of_case(alloc, case, &parts)?;
    let mut cells = Vec::new(alloc);
    for reaches in reach.cells.as_slice() {
        cells.push(if *reaches { b'T' } else { b'F' })?;
    }
    Ok(cells)
}

#[test]
fn heat_passes_downward_and_within_an_interval(rt: HostRuntime) -> Result<(), Fail> {
    for (table, wanted) in CELLS {
        let case = completed_case(rt.alloc(), table)?;
        let cells = cells_of(rt.alloc(), &case)?;
        assert_lists(&rt, "the cells", &cells, wanted);
    }
    Ok(())
}

#[test]
fn a_table_tells_of_each_pair(rt: HostRuntime) -> Result<(), Fail> {
    let four = four_streams(rt.alloc())?;
    let reach = &four.reach;
    assert!(rt; reach.hots == 9 && reach.colds == 6);
    let pairs = [
        // HOT and each cold part
        reaches(reach, 0, 0),
        reaches(reach, 0, 5),
        // H2 between 145.0 and 140.0 °C, with C3 there and C1 below
        reaches(reach, 2, 0),
        reaches(reach, 2, 1),
        // H2 between 140.0 and 85.0 °C, with C3 above
        reaches(reach, 4, 0),
    ];
    assert_same(&rt, "pairs", &pairs, &[true, true, true, true, false]);
    Ok(())
}

#[test]
fn no_heat_and_no_prices_are_refused(rt: HostRuntime) -> Result<(), Fail> {
    let four = four_streams(rt.alloc())?;
    let flow = Flow {
        transfers: Items::new(rt.alloc()),
    };
    let prices = Prices {
        hot: Items::new(rt.alloc()),
        cold: Items::new(rt.alloc()),
    };
    let found = (
        is_flow(&four.parts, &four.reach, &flow),
        is_supported(&four.reach, &prices),
    );
    assert_same(&rt, "none", &found, &(false, false));
    Ok(())
}

/// A kind, parts by their indexes, their need and an offer, and whether that is a cut of a table.
type CutRow = (Table, CutKind, &'static [u32], i64, i64, bool);

const CUTS: &[CutRow] = &[
    // the hot stream, which the cold one and the cooler can take 1,000 W each of
    (TOO_LITTLE_COOLING, CutKind::Supply, &[1], 5000, 2000, true),
    // the cooler is left out of what is on offer
    (TOO_LITTLE_COOLING, CutKind::Supply, &[1], 5000, 1000, false),
    // the cold stream above the heater, which `HOT` does not stand beside
    (TOO_COLD_A_HEATER, CutKind::Demand, &[0], 2000, 0, true),
    // the heater reaches its lower part
    (TOO_COLD_A_HEATER, CutKind::Demand, &[0, 1], 3000, 0, false),
    // the other side
    (TOO_COLD_A_HEATER, CutKind::Supply, &[0], 2000, 0, false),
];

fn is_cut_of(alloc: Global, (table, kind, members, need, offer, _): CutRow) -> Result<bool, Fail> {
    let case = completed_case(alloc, &table)?;
    let parts = parts_of_case(alloc, &case)?;
    let reach = reach_of_case(alloc, &case, &parts)?;
    let cut = Cut {
        kind,
        parts: Items::from_vec(members.to_vec(alloc)?),
        need,
        offer,
    };
    Ok(is_cut(&parts, &reach, &cut))
}

#[test]
fn a_cut_offers_all_that_reaches_it(rt: HostRuntime) -> Result<(), Fail> {
    for row in CUTS {
        let found = is_cut_of(rt.alloc(), *row)?;
        assert_same(&rt, "a cut", &found, &row.5);
    }
    Ok(())
}
