//! The grid and the parts of cases that were worked by hand.
ghost use Rattle.stream_case.specs.Case.{IsComplete};

use crate::compare::assert_lists;
use grid::{Part, grid_of, parts_of};
use std::alloc::{AllocError, Global};
use std::process::Abort;
use std::test::Fail;
use stream_case::Case;
use stream_case::Side::{self, Cold, Hot};
use stream_case::Source::{self, Stream, Utility};
use worked_tables::{FOUR_STREAMS, MOST_HEAT, ONE_LATENT, RESTRICTED, Table, completed_case};

/// The source, its side, the upper and the lower end, the least and the most heat, and the price.
pub type PartRow = (Source, Side, i32, i32, i64, i64, i64);

const FOUR_STREAMS_HOT: &[PartRow] = &[
    (Utility(0), Hot, 1650, 1650, 0, MOST_HEAT, 1),
    (Stream(1), Hot, 1650, 1450, 60_000, 60_000, 0),
    (Stream(1), Hot, 1450, 1400, 15_000, 15_000, 0),
    (Stream(3), Hot, 1450, 1400, 7_500, 7_500, 0),
    (Stream(1), Hot, 1400, 850, 165_000, 165_000, 0),
    (Stream(3), Hot, 1400, 850, 82_500, 82_500, 0),
    (Stream(1), Hot, 850, 550, 90_000, 90_000, 0),
    (Stream(3), Hot, 850, 550, 45_000, 45_000, 0),
    (Stream(3), Hot, 550, 250, 45_000, 45_000, 0),
];

const FOUR_STREAMS_COLD: &[PartRow] = &[
    (Stream(2), Cold, 1450, 1400, 20_000, 20_000, 0),
    (Stream(0), Cold, 1400, 850, 110_000, 110_000, 0),
    (Stream(2), Cold, 1400, 850, 220_000, 220_000, 0),
    (Stream(0), Cold, 850, 550, 60_000, 60_000, 0),
    (Stream(0), Cold, 550, 250, 60_000, 60_000, 0),
    (Utility(1), Cold, 250, 250, 0, MOST_HEAT, 0),
];

const RESTRICTED_HOT: &[PartRow] = &[
    (Utility(0), Hot, 1650, 1650, 0, 4000, 5),
    (Utility(1), Hot, 950, 950, 0, 3000, 3),
    (Stream(0), Hot, 950, 750, 2000, 2000, 0),
    (Utility(2), Hot, 750, 750, 500, 2000, 2),
    (Stream(0), Hot, 750, 650, 1000, 1000, 0),
    (Stream(0), Hot, 650, 450, 2000, 2000, 0),
];

const RESTRICTED_COLD: &[PartRow] = &[
    (Stream(1), Cold, 750, 650, 1000, 1000, 0),
    (Utility(3), Cold, 650, 650, 0, 2000, -1),
    (Stream(1), Cold, 650, 450, 2000, 2000, 0),
    (Stream(1), Cold, 450, 350, 1000, 1000, 0),
    (Utility(4), Cold, 350, 350, 0, 1000, 0),
    (Utility(5), Cold, 150, 150, 0, 9000, 4),
];

const ONE_LATENT_HOT: &[PartRow] = &[
    (Utility(0), Hot, 1450, 1450, 0, MOST_HEAT, 1),
    (Stream(0), Hot, 1450, 950, 5000, 5000, 0),
    (Stream(0), Hot, 950, 650, 3000, 3000, 0),
];

const ONE_LATENT_COLD: &[PartRow] = &[
    (Stream(1), Cold, 950, 950, 8000, 8000, 0),
    (Utility(1), Cold, 650, 650, 0, MOST_HEAT, 0),
];

/// A latent stream and a utility at the same place, inside the range of another stream.
const AT_ONE_PLACE: Table = Table {
    contribution: 0,
    streams: &[
        ("H", Hot, 1000, 500, 10),
        ("K", Hot, 800, 800, 700),
        ("C", Cold, 300, 700, 10),
    ],
    utilities: &[("ST", Hot, 800, 0, 1000, 2)],
    forbids: &[],
};

const AT_ONE_PLACE_HOT: &[PartRow] = &[
    (Stream(0), Hot, 1000, 800, 2000, 2000, 0),
    (Stream(1), Hot, 800, 800, 700, 700, 0),
    (Utility(0), Hot, 800, 800, 0, 1000, 2),
    (Stream(0), Hot, 800, 700, 1000, 1000, 0),
    (Stream(0), Hot, 700, 500, 2000, 2000, 0),
];

const AT_ONE_PLACE_COLD: &[PartRow] = &[
    (Stream(2), Cold, 700, 500, 2000, 2000, 0),
    (Stream(2), Cold, 500, 300, 2000, 2000, 0),
    (Utility(1), Cold, 300, 300, 0, MOST_HEAT, 0),
];

pub fn rows_of(alloc: Global, parts: &[Part]) -> Result<Vec<PartRow>, AllocError> {
    let mut rows = Vec::new(alloc);
    for part in parts {
        rows.push((
            part.source,
            part.side,
            part.high,
            part.low,
            part.least,
            part.most,
            part.price,
        ))?;
    }
    Ok(rows)
}

fn compare_with(
    rt: &(impl Abort + AllocGlobal),
    case: &Case,
    places: &[i32],
    hot: &[PartRow],
    cold: &[PartRow],
) -> Result<(), Fail>
    requires { IsComplete case.now }
{
    let grid = grid_of(rt.alloc(), case)?;
    assert_lists(rt, "the places", grid.places.as_slice(), places);
    let parts = parts_of(rt.alloc(), case, &grid)?;
    let rows = rows_of(rt.alloc(), parts.hot.as_slice())?;
    assert_lists(rt, "the hot parts", &rows, hot);
    let rows = rows_of(rt.alloc(), parts.cold.as_slice())?;
    assert_lists(rt, "the cold parts", &rows, cold);
    Ok(())
}

#[test]
fn four_streams_have_their_grid_and_parts(rt: HostRuntime) -> Result<(), Fail> {
    let case = completed_case(rt.alloc(), &FOUR_STREAMS)?;
    let places = [1650, 1450, 1400, 850, 550, 250];
    compare_with(&rt, &case, &places, FOUR_STREAMS_HOT, FOUR_STREAMS_COLD)
}

#[test]
fn utilities_stand_before_the_streams_below_them(rt: HostRuntime) -> Result<(), Fail> {
    let case = completed_case(rt.alloc(), &RESTRICTED)?;
    let places = [1650, 950, 750, 650, 450, 350, 150];
    compare_with(&rt, &case, &places, RESTRICTED_HOT, RESTRICTED_COLD)
}

#[test]
fn a_latent_stream_has_one_part(rt: HostRuntime) -> Result<(), Fail> {
    let case = completed_case(rt.alloc(), &ONE_LATENT)?;
    let places = [1450, 950, 650];
    compare_with(&rt, &case, &places, ONE_LATENT_HOT, ONE_LATENT_COLD)
}

#[test]
fn latent_streams_stand_before_utilities(rt: HostRuntime) -> Result<(), Fail> {
    let case = completed_case(rt.alloc(), &AT_ONE_PLACE)?;
    let places = [1000, 800, 700, 500, 300];
    compare_with(&rt, &case, &places, AT_ONE_PLACE_HOT, AT_ONE_PLACE_COLD)
}
