//! The curves of cases that were worked by hand.
use crate::compare::assert_lists;
use curves::{Point, cold_curve, grand_curve, hot_curve};
use std::alloc::{AllocError, Global};
use std::process::Abort;
use std::test::Fail;
use stream_case::Items;
use stream_case::Side::Hot;
use worked_tables::{FOUR_STREAMS, Table, case_of, check_sensible};

/// A heat and a temperature.
type Corner = (i64, i32);

struct Worked {
    table: Table,
    hot: &'static [Corner],
    cold: &'static [Corner],
    grand: &'static [Corner],
}

/// The four streams, one hot stream alone, and hot streams whose ends coincide or leave a gap.
const CASES: &[Worked] = &[
    Worked {
        table: FOUR_STREAMS,
        hot: &[(0, 300), (45_000, 600), (450_000, 1500), (510_000, 1700)],
        cold: &[(0, 200), (120_000, 800), (450_000, 1350), (470_000, 1400)],
        grand: &[
            (20_000, 1650),
            (80_000, 1450),
            (82_500, 1400),
            (0, 850),
            (75_000, 550),
            (60_000, 250),
        ],
    },
    Worked {
        table: Table {
            contribution: 50,
            streams: &[("H", Hot, 1000, 500, 10)],
            utilities: &[],
            forbids: &[],
        },
        hot: &[(0, 500), (5000, 1000)],
        cold: &[],
        grand: &[(0, 950), (5000, 450)],
    },
    Worked {
        table: Table {
            contribution: 0,
            streams: &[
                ("H1", Hot, 900, 700, 2),
                ("H2", Hot, 900, 800, 3),
                ("H3", Hot, 500, 400, 1),
            ],
            utilities: &[],
            forbids: &[],
        },
        hot: &[(0, 400), (100, 500), (100, 700), (300, 800), (800, 900)],
        cold: &[],
        grand: &[(0, 900), (500, 800), (700, 700), (700, 500), (800, 400)],
    },
];

fn corners_of(alloc: Global, curve: &[Point]) -> Result<Vec<Corner>, AllocError> {
    let mut corners = Vec::new(alloc);
    for point in curve {
        corners.push((point.heat, point.temperature))?;
    }
    Ok(corners)
}

fn assert_curve(
    rt: &(impl Abort + AllocGlobal),
    at: &str,
    curve: Result<Items<Point>, AllocError>,
    wanted: &[Corner],
) {
    let curve = curve.expect(rt, "memory for a curve");
    let corners = corners_of(rt.alloc(), curve.as_slice()).expect(rt, "memory for its corners");
    assert_lists(rt, at, &corners, wanted);
}

#[test]
fn cases_have_these_curves(rt: HostRuntime) -> Result<(), Fail> {
    for worked in CASES {
        let case = case_of(rt.alloc(), &worked.table)?;
        check_sensible(&case)?;
        assert_curve(&rt, "hot", hot_curve(rt.alloc(), &case), worked.hot);
        assert_curve(&rt, "cold", cold_curve(rt.alloc(), &case), worked.cold);
        assert_curve(&rt, "grand", grand_curve(rt.alloc(), &case), worked.grand);
    }
    Ok(())
}
