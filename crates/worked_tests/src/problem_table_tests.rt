//! The problem tables of cases that were worked by hand.
ghost use Rattle.std.specs.Prelude.{IfOk};
ghost use Rattle.stream_case.specs.Case.{IsValid};

use crate::compare::{assert_lists, assert_same};
use problem_table::{
    Target, deficit_above, deficit_from, pinches, pinches_at, reference_from, reference_of,
    reference_place, targets,
};
use std::alloc::{AllocGlobal, Global};
use std::process::Abort;
use std::test::Fail;
use stream_case::Side::{Cold, Hot};
use stream_case::{Case, stream_ends};
use worked_tables::{FOUR_STREAMS, StreamRow, Table, case_of};

struct Worked {
    contribution: i32,
    streams: &'static [StreamRow],
    targets: Target,
    pinches: &'static [i32],
    /// The reference place, and whether it counts from itself.
    reference: (i32, bool),
}

/// One pinch, two pinches, and none.
const SENSIBLE: &[Worked] = &[
    Worked {
        contribution: 50,
        streams: &[
            ("C1", Cold, 200, 1350, 200),
            ("H2", Hot, 1700, 600, 300),
            ("C3", Cold, 800, 1400, 400),
            ("H4", Hot, 1500, 300, 150),
        ],
        targets: Target {
            hot: 20_000,
            cold: 60_000,
        },
        pinches: &[850],
        reference: (850, false),
    },
    Worked {
        contribution: 0,
        streams: &[
            ("A", Cold, 200, 300, 1),
            ("B", Hot, 200, 100, 1),
            ("D", Cold, 100, 200, 1),
            ("E", Hot, 100, 0, 1),
        ],
        targets: Target {
            hot: 100,
            cold: 100,
        },
        pinches: &[200, 100],
        reference: (200, false),
    },
    Worked {
        contribution: 50,
        streams: &[("H", Hot, 1000, 500, 10)],
        targets: Target { hot: 0, cold: 5000 },
        pinches: &[],
        reference: (950, false),
    },
];

/// A level at the pinch, from each side, and from both.
const AT_THE_PINCH: &[Worked] = &[
    Worked {
        contribution: 50,
        streams: &[("H", Hot, 1500, 700, 10), ("B", Cold, 900, 900, 8000)],
        targets: Target {
            hot: 3000,
            cold: 3000,
        },
        pinches: &[950],
        reference: (950, true),
    },
    Worked {
        contribution: 50,
        streams: &[("K", Hot, 1000, 1000, 8000), ("C", Cold, 500, 1300, 10)],
        targets: Target {
            hot: 4000,
            cold: 4000,
        },
        pinches: &[950],
        reference: (950, false),
    },
    Worked {
        contribution: 50,
        streams: &[
            ("K", Hot, 1000, 1000, 10_000),
            ("C", Cold, 500, 1300, 10),
            ("B", Cold, 900, 900, 6000),
        ],
        targets: Target { hot: 4000, cold: 0 },
        pinches: &[950],
        reference: (950, false),
    },
];

/// A hot level at the highest end, a cold one at the lowest, and streams that are all latent.
const AT_THE_ENDS: &[Worked] = &[
    Worked {
        contribution: 50,
        streams: &[("K", Hot, 1500, 1500, 2000), ("C", Cold, 1000, 1300, 10)],
        targets: Target { hot: 1000, cold: 0 },
        pinches: &[],
        reference: (1050, false),
    },
    Worked {
        contribution: 50,
        streams: &[("H", Hot, 1000, 500, 10), ("B", Cold, 400, 400, 6000)],
        targets: Target { hot: 1000, cold: 0 },
        pinches: &[],
        reference: (450, true),
    },
    Worked {
        contribution: 50,
        streams: &[("K", Hot, 1500, 1500, 700)],
        targets: Target { hot: 0, cold: 700 },
        pinches: &[],
        reference: (1450, false),
    },
    Worked {
        contribution: 50,
        streams: &[("B", Cold, 900, 900, 10_000_000_000)],
        targets: Target {
            hot: 10_000_000_000,
            cold: 0,
        },
        pinches: &[],
        reference: (950, true),
    },
    Worked {
        contribution: 50,
        streams: &[("K", Hot, 1000, 1000, 5000), ("B", Cold, 900, 900, 5000)],
        targets: Target { hot: 0, cold: 0 },
        pinches: &[],
        reference: (950, false),
    },
    Worked {
        contribution: 50,
        streams: &[("K", Hot, 1000, 1000, 5000), ("B", Cold, 900, 900, 8000)],
        targets: Target { hot: 3000, cold: 0 },
        pinches: &[],
        reference: (950, true),
    },
    Worked {
        contribution: 50,
        streams: &[("K", Hot, 1000, 1000, 8000), ("B", Cold, 900, 900, 5000)],
        targets: Target { hot: 0, cold: 3000 },
        pinches: &[],
        reference: (950, false),
    },
    Worked {
        contribution: 50,
        streams: TWO_LOADS,
        targets: Target { hot: 0, cold: 3000 },
        pinches: &[],
        reference: (950, false),
    },
];

/// Two hot streams that condense at one level.
const TWO_LOADS: &[StreamRow] = &[
    ("J", Hot, 1000, 1000, 3000),
    ("K", Hot, 1000, 1000, 4000),
    ("C", Cold, 500, 900, 10),
];

fn case_of_streams(
    alloc: Global,
    contribution: i32,
    streams: &'static [StreamRow],
) -> Result<Case, Fail>
    ensures { IfOk result IsValid }
{
    let table = Table {
        contribution,
        streams,
        utilities: &[],
        forbids: &[],
    };
    case_of(alloc, &table)
}

fn compare(rt: &(impl Abort + AllocGlobal), all: &[Worked]) -> Result<(), Fail> {
    for worked in all {
        let case = case_of_streams(rt.alloc(), worked.contribution, worked.streams)?;
        let targets = targets(&case);
        assert_same(rt, "targets", &targets, &worked.targets);
        let reference = (reference_place(&case), reference_from(&case));
        assert_same(rt, "reference place", &reference, &worked.reference);
        let found = reference_of(&case);
        assert_same(
            rt,
            "reference",
            &(found.place, found.from_itself),
            &worked.reference,
        );
        let pinches = pinches(rt.alloc(), &case)?;
        assert_lists(rt, "pinches", pinches.as_slice(), worked.pinches);
        let known = pinches_at(rt.alloc(), &case, targets.hot)?;
        assert_lists(
            rt,
            "pinches of a known target",
            known.as_slice(),
            worked.pinches,
        );
    }
    Ok(())
}

#[test]
fn sensible_cases_have_these_targets_and_pinches(rt: HostRuntime) -> Result<(), Fail> {
    compare(&rt, SENSIBLE)
}

#[test]
fn levels_at_the_pinch_count_on_their_side(rt: HostRuntime) -> Result<(), Fail> {
    compare(&rt, AT_THE_PINCH)
}

#[test]
fn levels_at_the_ends_count(rt: HostRuntime) -> Result<(), Fail> {
    compare(&rt, AT_THE_ENDS)
}

#[test]
fn four_streams_have_these_ends_and_this_deficit(rt: HostRuntime) -> Result<(), Fail> {
    let case = case_of(rt.alloc(), &FOUR_STREAMS)?;
    let ends = stream_ends(rt.alloc(), case.streams.as_slice())?;
    let wanted = [1400, 250, 1650, 550, 1450, 850, 1450, 250];
    assert_lists(&rt, "ends", &ends, &wanted);
    assert_same(&rt, "deficit", &deficit_above(&case, 850), &20_000);
    assert_same(&rt, "deficit", &deficit_from(&case, 850), &20_000);
    Ok(())
}

#[test]
fn the_loads_at_a_place_add_up(rt: HostRuntime) -> Result<(), Fail> {
    let case = case_of_streams(rt.alloc(), 50, TWO_LOADS)?;
    assert_same(&rt, "above", &deficit_above(&case, 950), &0);
    assert_same(&rt, "from", &deficit_from(&case, 950), &-7000);
    assert_same(&rt, "above the level", &deficit_from(&case, 951), &0);
    assert_same(&rt, "below", &deficit_above(&case, 949), &-6990);
    Ok(())
}
