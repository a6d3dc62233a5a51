//! The nets of chains of cases that were worked by hand.

use crate::compare::{assert_lists, assert_same};
use crate::flows::{chains_of_case, parts_of_case};
use chains::{Chains, Group};
use std::alloc::Global;
use std::process::Abort;
use std::test::Fail;
use stream_case::Side::{Cold, Hot};
use stream_case::Source::{Stream, Utility};
use stream_case::{Forbid, Source};
use worked_tables::{
    FOUR_STREAMS, MOST_HEAT, RESTRICTED, StreamRow, TWO_STREAMS, Table, UtilityRow, completed_case,
};

/// The sources of a group and the first node of its chain.
type GroupRow = (&'static [Source], u32);

/// The groups of a case, and how many nodes and links its net has.
#[derive(Clone, Copy)]
struct Wanted {
    groups: &'static [GroupRow],
    nodes: u32,
    links: usize,
}

/// A heater above a hot and a cold stream, and a cooler below them: six places, three parts on
/// each side.
const HEATER_AND_COOLER: &[UtilityRow] = &[
    ("S", Hot, 1700, 0, MOST_HEAT, 1),
    ("W", Cold, 100, 0, MOST_HEAT, 0),
];

const CASES: &[(&str, Table, Wanted)] = &[
    (
        "no match forbidden",
        FOUR_STREAMS,
        Wanted {
            groups: &[(&[Stream(1), Stream(3), Utility(0)], 15)],
            nodes: 22,
            links: 9 + (6 + 2) + 6,
        },
    ),
    (
        "two hot streams with different partners",
        Table {
            forbids: &[
                Forbid {
                    hot: Stream(1),
                    cold: Stream(0),
                },
                Forbid {
                    hot: Stream(3),
                    cold: Stream(2),
                },
            ],
            ..FOUR_STREAMS
        },
        Wanted {
            groups: &[(&[Stream(1)], 15), (&[Stream(3)], 22), (&[Utility(0)], 29)],
            nodes: 36,
            links: 9 + 3 * (6 + 2) + (3 + 4 + 6),
        },
    ),
    (
        "two hot streams with the same partners",
        Table {
            forbids: &[
                Forbid {
                    hot: Stream(3),
                    cold: Stream(0),
                },
                Forbid {
                    hot: Stream(1),
                    cold: Stream(0),
                },
            ],
            ..FOUR_STREAMS
        },
        Wanted {
            groups: &[(&[Stream(1), Stream(3)], 15), (&[Utility(0)], 22)],
            nodes: 29,
            links: 9 + 2 * (6 + 2) + (3 + 6),
        },
    ),
    (
        "utilities with different partners",
        RESTRICTED,
        Wanted {
            groups: &[
                (&[Stream(0)], 12),
                (&[Utility(0)], 22),
                (&[Utility(1)], 32),
                (&[Utility(2)], 42),
            ],
            nodes: 52,
            links: 6 + 4 * (9 + 3 + 1) + (5 + 5 + 3 + 6),
        },
    ),
    (
        "every pair forbidden",
        Table {
            utilities: HEATER_AND_COOLER,
            forbids: &[
                Forbid {
                    hot: Stream(0),
                    cold: Stream(1),
                },
                Forbid {
                    hot: Stream(0),
                    cold: Utility(1),
                },
                Forbid {
                    hot: Utility(0),
                    cold: Stream(1),
                },
                Forbid {
                    hot: Utility(0),
                    cold: Utility(1),
                },
            ],
            ..TWO_STREAMS
        },
        Wanted {
            groups: &[(&[Stream(0), Utility(0)], 6)],
            nodes: 11,
            links: 3 + (4 + 1),
        },
    ),
    (
        "a hot stream that is permitted nothing",
        Table {
            utilities: HEATER_AND_COOLER,
            forbids: &[
                Forbid {
                    hot: Stream(0),
                    cold: Stream(1),
                },
                Forbid {
                    hot: Stream(0),
                    cold: Utility(1),
                },
            ],
            ..TWO_STREAMS
        },
        Wanted {
            groups: &[(&[Stream(0)], 6), (&[Utility(0)], 11)],
            nodes: 16,
            links: 3 + 2 * (4 + 1) + (0 + 3),
        },
    ),
    (
        "a part at each of six places and on each interval",
        Table {
            streams: ONE_HOT,
            utilities: AT_EACH_PLACE,
            ..TWO_STREAMS
        },
        Wanted {
            groups: &[(&[Stream(0), Utility(0)], 11)],
            nodes: 22,
            // the 3 links of stride 3 do not fit below 12, the one of stride 9 does
            links: 6 + (10 + 1) + 5,
        },
    ),
];

const ONE_HOT: &[StreamRow] = &[("H", Hot, 1000, 500, 10)];

/// A heater at the upper end of the hot stream, and coolers below it down to its lower end.
const AT_EACH_PLACE: &[UtilityRow] = &[
    ("S", Hot, 1000, 0, MOST_HEAT, 1),
    ("V", Cold, 800, 0, MOST_HEAT, 0),
    ("W", Cold, 700, 0, MOST_HEAT, 0),
    ("X", Cold, 600, 0, MOST_HEAT, 0),
    ("Y", Cold, 500, 0, MOST_HEAT, 0),
    ("Z", Cold, 400, 0, MOST_HEAT, 0),
];

/// A hot stream between a heater at its upper end and a cooler at its lower end: two places.
const TWO_PLACES: Table = Table {
    streams: ONE_HOT,
    utilities: &[
        ("S", Hot, 1000, 0, MOST_HEAT, 1),
        ("W", Cold, 400, 0, MOST_HEAT, 0),
    ],
    ..TWO_STREAMS
};

/// Two streams, with a heater and a cooler at one level inside both ranges.
const ONE_LEVEL: Table = Table {
    utilities: &[
        ("S", Hot, 650, 0, MOST_HEAT, 1),
        ("W", Cold, 550, 0, MOST_HEAT, 0),
    ],
    ..TWO_STREAMS
};

/// Tables, and the ends of the links of their nets, in rising order.
const LINKS: &[(&str, Table, &[(u32, u32)])] = &[
    (
        "two places",
        TWO_PLACES,
        &[(0, 3), (1, 4), (3, 4), (4, 5), (5, 2)],
    ),
    (
        "one level",
        ONE_LEVEL,
        &[
            (0, 8),
            (1, 9),
            (2, 10),
            (3, 11),
            (8, 9),
            (8, 11),
            (9, 4),
            (9, 10),
            (10, 5),
            (10, 11),
            (11, 6),
            (11, 12),
            (12, 7),
        ],
    ),
];

/// The net of chains of a table.
fn chains_of_table(alloc: Global, table: &Table) -> Result<Chains, Fail> {
    let case = completed_case(alloc, table)?;
    let parts = parts_of_case(alloc, &case)?;
    Ok(chains_of_case(alloc, &case, &parts)?)
}

fn compare_groups(rt: &impl Abort, at: &str, groups: &[Group], wanted: &[GroupRow]) {
    assert_same(rt, at, &groups.len(), &wanted.len());
    for (group, (sources, first_node)) in groups.iter().zip(wanted) {
        assert_lists(rt, at, group.sources.as_slice(), sources);
        assert_same(rt, at, &group.first_node, first_node);
    }
}

/// The ends of the links of the net of a table, in rising order.
fn ends_of(alloc: Global, table: &Table) -> Result<Vec<(u32, u32)>, Fail> {
    let chains = chains_of_table(alloc, table)?;
    let mut ends = Vec::new(alloc);
    for link in chains.net.links.as_slice() {
        ends.push((link.from, link.to))?;
    }
    ends.sort()?;
    Ok(ends)
}

#[test]
fn cases_have_these_groups_and_nets_of_this_size(rt: HostRuntime) -> Result<(), Fail> {
    for (at, table, wanted) in CASES {
        let chains = chains_of_table(rt.alloc(), table)?;
        compare_groups(&rt, at, chains.groups.as_slice(), wanted.groups);
        assert_same(&rt, at, &chains.net.nodes, &wanted.nodes);
        assert_same(&rt, at, &chains.net.links.len(), &wanted.links);
    }
    Ok(())
}

#[test]
fn links_lead_from_rank_to_rank(rt: HostRuntime) -> Result<(), Fail> {
    for (at, table, wanted) in LINKS {
        let ends = ends_of(rt.alloc(), table)?;
        assert_lists(&rt, at, &ends, wanted);
    }
    Ok(())
}
