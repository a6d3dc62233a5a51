//! The limits, as literals: the definitions read the constants, so no clause says what they are.
//! Those of a fraction, which no constant shows, stand in its own tests, and the digits of a word of
//! the program in those of `pinch`.

use crate::compare::assert_same;
use chains::{MOST_INNER_LINKS, MOST_INNER_NODES};
use design_lines::MOST_DRAWN_LINES;
use flow_net::{MOST_COST, MOST_INITIAL_POTENTIAL, MOST_LINKS, MOST_NODES, MOST_ROOM};
use network_text::{LONGEST_LINE, MOST_DIGITS, MOST_EXCHANGERS, MOST_LINES, MOST_STATEMENTS};
use pinch_outside::MAX_FILE;
use rows::number_of;
use site::{MOST_PLANTS, MOST_SIDE_STREAMS};
use stream_case::{
    HIGHEST_TEMPERATURE, LOWEST_TEMPERATURE, MOST_CONTRIBUTION, MOST_CP, MOST_FORBIDS, MOST_HEAT,
    MOST_LOAD, MOST_MAINS, MOST_PART_PRICE, MOST_PARTS, MOST_PRICE, MOST_STREAMS, MOST_UTILITIES,
};
use study::{
    FLOW_RATES, FORBID_CHANCE, LEAST_HOT_TEMPERATURE, LONGEST_STEP, MODULUS, MOST_ITEMS, MOST_ROWS,
    MOST_SAMPLE_NUMBER, MOST_SAMPLE_STREAMS, MOST_SPAN, MOST_WORKERS, MULTIPLIER,
    SAMPLE_CONTRIBUTION, TEMPERATURES,
};
use transport::MOST_PAIRS;

/// What is limited, the constant, and the limit.
const LIMITS: &[(&str, i128, i128)] = &[
    // of a case: tenths of °C, 10 W/K, W, and prices of a watt
    ("lowest temperature", LOWEST_TEMPERATURE as i128, -2731),
    ("highest temperature", HIGHEST_TEMPERATURE as i128, 30_000),
    ("contribution", MOST_CONTRIBUTION as i128, 1000),
    ("heat-capacity flow", MOST_CP as i128, 100_000),
    ("load of a latent stream", MOST_LOAD as i128, 10_000_000_000),
    ("heat of a utility", MOST_HEAT as i128, 1_000_000_000_000),
    ("price", MOST_PRICE as i128, 1_000_000),
    ("streams of a side", MOST_STREAMS as i128, 30),
    ("utilities", MOST_UTILITIES as i128, 12),
    ("forbidden matches", MOST_FORBIDS as i128, 400),
    // of files
    ("bytes of a file", MAX_FILE as i128, 8_388_608),
    ("exchangers", MOST_EXCHANGERS as i128, 20_000),
    ("statements", MOST_STATEMENTS as i128, 100_000),
    ("lines of a text", MOST_LINES as i128, 2_000_000_000),
    ("digits of a duty", MOST_DIGITS as i128, 24),
    ("bytes of a printed line", LONGEST_LINE as i128, 101),
    ("lines of a design", MOST_DRAWN_LINES as i128, 80_000),
    ("plants", MOST_PLANTS as i128, 6),
    ("site streams of a side", MOST_SIDE_STREAMS as i128, 12),
    ("mains", MOST_MAINS as i128, 4),
    // of reports
    ("digits in a report", certify::MOST_DIGITS as i128, 30),
    ("level in a report", certify::MOST_LEVEL, 1_000_000),
    (
        "amount in a report",
        certify::MOST_AMOUNT,
        1_000_000_000_000_000,
    ),
    (
        "cost in a report",
        certify::MOST_COST,
        100_000_000_000_000_000_000,
    ),
    // of sweeps, price studies and samples
    ("rows of a sweep", MOST_ROWS as i128, 1000),
    ("step of a sweep", LONGEST_STEP as i128, 1000),
    ("workers", MOST_WORKERS as i128, 16),
    ("scenarios and spans of a study", MOST_ITEMS as i128, 1000),
    ("prices of a span", MOST_SPAN as i128, 100_000),
    ("multiplier of the generator", MULTIPLIER as i128, 16_807),
    ("modulus of the generator", MODULUS as i128, 2_147_483_647),
    ("sample number", MOST_SAMPLE_NUMBER as i128, 2_147_483_646),
    ("sample streams of a side", MOST_SAMPLE_STREAMS as i128, 12),
    ("sample contribution", SAMPLE_CONTRIBUTION as i128, 50),
    (
        "least hot temperature of a sample",
        LEAST_HOT_TEMPERATURE as i128,
        300,
    ),
    ("temperatures of a sample", TEMPERATURES as i128, 1500),
    ("flow rates of a sample", FLOW_RATES as i128, 500),
    ("one of so many pairs", FORBID_CHANCE as i128, 4),
    // of parts and of the nets between them
    ("parts of a side", MOST_PARTS as i128, 5000),
    (
        "price of a part",
        MOST_PART_PRICE as i128,
        1_000_000_000_000_000,
    ),
    ("pairs of parts", MOST_PAIRS as i128, 900_000),
    ("inner nodes", MOST_INNER_NODES as i128, 25_000),
    ("inner links", MOST_INNER_LINKS as i128, 900_000),
    ("nodes", MOST_NODES as i128, 200_000),
    ("links", MOST_LINKS as i128, 1_000_000),
    ("room of a link", MOST_ROOM as i128, 10_000_000_000_000_000),
    ("cost of a link", MOST_COST as i128, 1_000_000_000_000),
    (
        "initial potential",
        MOST_INITIAL_POTENTIAL as i128,
        1_000_000_000_000_000,
    ),
];

#[test]
fn the_limits_are_these(rt: HostRuntime) {
    for (of, found, wanted) in LIMITS {
        assert_same(&rt, of, found, wanted);
    }
}

/// Texts of 13 digits, as many as a number of a row may have, and of 14.
const ROW_NUMBERS: &[(&str, Option<i64>)] = &[
    ("9999999999999", Some(9_999_999_999_999)),
    ("-9999999999999", Some(-9_999_999_999_999)),
    ("0000000000001", Some(1)),
    ("00000000000001", None),
    ("-10000000000000", None),
];

#[test]
fn a_number_of_a_row_has_at_most_13_digits(rt: HostRuntime) {
    for (text, wanted) in ROW_NUMBERS {
        assert_same(&rt, text, &number_of(text.as_bytes()), wanted);
    }
}
