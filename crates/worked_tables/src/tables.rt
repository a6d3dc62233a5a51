//! Cases and a network as tables. Temperatures are tenths of °C, heat-capacity flows 10 W/K, heats W.
use stream_case::Side::{Cold, Hot};
use stream_case::{Forbid, Side, Source};

/// The most heat of a utility.
pub const MOST_HEAT: i64 = 1_000_000_000_000;

/// A stream of a table: name, side, supply, target, and its heat-capacity flow, or its load where
/// the supply is the target.
pub type StreamRow = (&'static str, Side, i32, i32, i64);

/// A utility of a table: name, side, level, least and most heat, and price.
pub type UtilityRow = (&'static str, Side, i32, i64, i64, i64);

/// A case as a table. Each of its sources has its contribution.
#[derive(Clone, Copy)]
pub struct Table {
    pub contribution: i32,
    pub streams: &'static [StreamRow],
    pub utilities: &'static [UtilityRow],
    pub forbids: &'static [Forbid],
}

/// The streams of the four-stream example of the literature.
pub const THE_FOUR: &[StreamRow] = &[
    ("C1", Cold, 200, 1350, 200),
    ("H2", Hot, 1700, 600, 300),
    ("C3", Cold, 800, 1400, 400),
    ("H4", Hot, 1500, 300, 150),
];

/// The four-stream example.
pub const FOUR_STREAMS: Table = Table {
    contribution: 50,
    streams: THE_FOUR,
    utilities: &[],
    forbids: &[],
};

/// The four streams with steam of two levels.
pub const TWO_STEAM_LEVELS: Table = Table {
    utilities: &[
        ("HP", Hot, 1700, 0, MOST_HEAT, 3),
        ("LP", Hot, 910, 0, MOST_HEAT, 1),
    ],
    ..FOUR_STREAMS
};

const ONE_OF_EACH_SIDE: &[StreamRow] = &[("H", Hot, 1000, 500, 10), ("C", Cold, 300, 700, 10)];

/// One hot and one cold stream.
pub const TWO_STREAMS: Table = Table {
    contribution: 50,
    streams: ONE_OF_EACH_SIDE,
    utilities: &[],
    forbids: &[],
};

/// A cold stream that evaporates amid the range of a hot one.
pub const ONE_LATENT: Table = Table {
    contribution: 50,
    streams: &[("H", Hot, 1500, 700, 10), ("B", Cold, 900, 900, 8000)],
    utilities: &[],
    forbids: &[],
};

/// A cooler that takes less heat than the hot stream has to give.
pub const TOO_LITTLE_COOLING: Table = Table {
    contribution: 50,
    streams: &[("H", Hot, 1000, 500, 10), ("C", Cold, 300, 400, 10)],
    utilities: &[("CW", Cold, 200, 0, 1000, 0)],
    forbids: &[],
};

/// A heater that does not reach the upper part of the cold stream.
pub const TOO_COLD_A_HEATER: Table = Table {
    contribution: 50,
    streams: &[("C", Cold, 200, 500, 10)],
    utilities: &[("ST", Hot, 400, 0, MOST_HEAT, 1)],
    forbids: &[],
};

/// The two streams with three utilities on each side, where A may not match E, B not C, and H
/// not F.
pub const RESTRICTED: Table = Table {
    contribution: 50,
    streams: ONE_OF_EACH_SIDE,
    utilities: &[
        ("A", Hot, 1700, 0, 4000, 5),
        ("B", Hot, 1000, 0, 3000, 3),
        ("D", Hot, 800, 500, 2000, 2),
        ("E", Cold, 600, 0, 2000, -1),
        ("F", Cold, 300, 0, 1000, 0),
        ("G", Cold, 100, 0, 9000, 4),
    ],
    forbids: &[
        Forbid {
            hot: Source::Utility(0),
            cold: Source::Utility(3),
        },
        Forbid {
            hot: Source::Utility(1),
            cold: Source::Stream(1),
        },
        Forbid {
            hot: Source::Stream(0),
            cold: Source::Utility(4),
        },
    ],
};

/// Six exchangers for the four streams.
pub const SIX_EXCHANGERS: &[u8] =
    b"exchanger E1 H2 C3 240000\nexchanger E2 H4 C1 90000\nexchanger E3 H2 C1 90000\nexchanger E4 H4 C1 30000\nexchanger Q1 HOT C1 20000\nexchanger Q2 H4 COLD 60000\npass H2 E1 h2a\npass h2a E3 h2b\nend h2b\npass H4 E2 h4a\npass h4a E4 h4b\npass h4b Q2 h4c\nend h4c\npass C1 E4 c1a\npass c1a E3 c1b\npass c1b E2 c1c\npass c1c Q1 c1d\nend c1d\npass C3 E1 c3a\nend c3a\n";
